//! The keys of tasks: what their scripts read, directly or through other names.
//!
//! Contracts see a store as the list of its entries. `key` equals the definition of `task_model` (`specs/Keys`), refused exactly
//! where the definition refuses; want of memory alone is free, and has an answer of its own. `StoreKeys` gives the keys of the
//! tasks of one store: what a name leads to, and its line, are the same for all tasks that don't bear that name and see the
//! store alike, so they are found out once and kept; and all that the exported names lead to, with which each key begins, is
//! walked once, and each task's walk goes on from it.
//!
//! `found_by` is what names have for a task; scripts look names up by it, too.
#![tactic(auto)]

mod asked;
mod exports;
mod keys;
mod led;
mod line;
mod runs;
mod seen;
mod table;

pub use keys::{StoreKeys, key};
pub use seen::{flag_of, found_by, is_function, unless_bare};
