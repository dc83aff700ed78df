//! A mirror of shared state: what others built comes to the own store before a run.
//!
//! A mirror is a second store, on a disk that is only read. `bring` takes its believed records that are of a wanted PN and task, with all that they name, and
//! puts them behind the own ones: each in the names that stand here (`record_move` says how), so a mirror serves also where the own store has the same output
//! under another unihash. What stands already is not written again. For each wanted record whose object on the mirror matches its manifest, and whose own one
//! doesn't, the object is copied under the unihash that the record has here; one that is damaged is passed over. Objects and keys come first, then the records
//! round by round, with one sync before the first round and one behind each.
//!
//! `bring_store` opens an own store first, and then brings.
//!
//! Promised, whatever it answers: the mirror is only read; on the own disk nothing changes beside records, keys, objects and temporary files; and where both stores
//! are valid, and no contents of the two clash, the own one is so at each moment, with its old book and some of the lines that come, each with all that it names
//! and its key, and no object of an own record is lost (`Brings`). After Ok all of them came, each object that matched on the mirror is there, and the numbers
//! are those of what was written (`IsDone`): so what the mirror had for a plan by its objects the own store has too (`brought_is_available`). Each fault has its
//! cause: the mirror and the own disk failed only where their counts of faults rose.
//!
//! The mirror's records and keys are all read once, and judged as opening judges them; of the wanted ones alone the signatures are read, and their objects. How
//! long it takes isn't proved. Want of memory is free. (The Yocto Project Overview and Concepts Manual, "Shared State Cache"; that records are brought with
//! their objects, and how, are own rules.)
#![tactic(auto)]

mod bringing;
mod fault;
mod finding;
mod gathering;
mod keys;
mod laws;
mod objects;
mod opening;
mod titles;
mod writing;

pub use bringing::{Brought, bring};
pub use fault::BringFault;
pub use laws::brought_is_available;
pub use opening::bring_store;
