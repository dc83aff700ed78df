//! The scripts of tasks: what the shell of a task is given, and the folders of a task of the shared state.
//!
//! Contracts see a store as the list of its entries. `script`, `script_of` and `places` equal the definitions of `task_model`
//! (`specs/Scripts`), refused exactly where these refuse, with file, flag and word as they have them; want of memory alone is
//! free, and has an answer of its own. The script of a task is told by its store, or by the lines of its key alone.
//!
//! Several tasks of a store share what is found out of its names: `script_with` takes the keys of a store, and the task's own key,
//! which is asked once for all that is made from it. The work is linear in the key, the exported names and the script.
#![tactic(auto)]

mod calls;
mod fault;
mod flags;
mod frame;
mod of_key;
mod place_pairs;
mod scripts;
mod sight;
mod text;
mod told;

pub use fault::ScriptFault;
pub use frame::is_on;
pub use place_pairs::{places, places_of};
pub use scripts::{script, script_of, script_with};
