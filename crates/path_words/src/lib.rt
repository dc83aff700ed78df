//! Paths as metadata writes them.
//!
//! Contracts see texts as lists of bytes, and each call equals the definition of `load_model` (`Paths`) that it names. What takes
//! memory fails for want of memory alone. The work is linear in the bytes of the text.
#![tactic(auto)]

mod cuts;
mod paths;

pub use paths::{file_name, folder_of, has_ending, is_absolute, path_named, without_ending};
