//! Reading files of metadata: a file, or a class, with all that it includes and inherits in place.
//!
//! Contracts see a `Reading` as what was loaded: all entries, in order, and the names of the classes of which the reading
//! has begun, the last first (`load_model`, `Loading`). The entries are kept in a datastore alone. Over layers that tell
//! what they hold, each call of `Reading` equals the definition of `load_model` that it names, refusals included, exactly
//! where the definition refuses, with the file and the line. Whatever the layers tell: they are never changed, `Read` is
//! answered only where their count of faults rose, and every call returns. Want of memory alone is free, and has an answer
//! of its own.
//!
//! A file is read once where a statement names it, after one look into each folder that is searched before. A statement is
//! run where it stands, so no list of a file's entries is made beside the datastore. The names of classes are looked up in
//! a list, as a recipe has few; a text without references is taken as it is.
#![tactic(auto)]

mod calls;
mod contents;
mod entries;
mod fault;
mod late;
mod layer_text;
mod load;
mod paths;
mod reading;
mod search;

pub use fault::{LoadFault, LoadKind, out_of_memory};
pub use reading::Reading;
