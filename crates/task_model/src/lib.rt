//! Keys, scripts and places of tasks: definitions, and laws of these.
//!
//! The key of a task is a line for each name that its script and its places are made from, directly or through other names
//! (`specs/Leads`: which names come with a name; `specs/Keys`: the least set of them, and the lines). The script is the text
//! that its shell is given, the places are the folders that a task of the shared state gives (`specs/Scripts`, both from a store
//! and from a key alone; `specs/TaskRefusal`: why there is none). A task sees its own name as absent where it is bare
//! (`specs/Views`). `specs/Meeting` says what names meet in expansion.
//!
//! The crate has no code: its public functions have empty bodies, and their contracts are the laws (`laws`) and worked
//! examples (`key_examples`). Proved are the law of keys (a key
//! tells of the name that a form asks for which of the form's words are there, and nothing else), that the names of a key are the least set, that other lines in a key
//! change nothing, what tasks of one store share, and two laws of kept values.
#![tactic(auto)]

mod key_examples;
mod laws;

pub use key_examples::{
    example_of_asked_words, example_of_calls, example_of_corners, example_of_exclusion,
    example_of_exports, example_of_hello, example_of_key_flags, example_of_library,
    example_of_places, example_of_script_flags,
};
pub use laws::{depth_laws, key_laws, least_laws, other_line_laws, shared_laws, table_laws};
