//! What a run would do with each task that it needs, and why: definitions, which are told of a plan and of what a disk holds before a run.
//!
//! They stand in `specs/`:
//!
//! - which tasks have names that no run changes, and what the others wait for (`Seen`);
//! - in what the signature of a task differs from an earlier one of it (`Differing`);
//! - what a run would do with a needed task, and why it would run (`Fates`);
//! - the text of all that (`Why`), and how the status and what is printed fit it (`Answered`).
//!
//! The crate has no code but the types of what is told, and worked examples: the contracts of the crates that tell it cite these definitions.
//! (Own rules. BitBake has `bitbake -n` with `-S printdiff`, and `bitbake-diffsigs`, for such questions: BitBake User Manual, "The BitBake Command";
//! Yocto Project Development Tasks Manual, "Debugging Tools and Techniques".)
#![tactic(auto)]

mod examples;
mod fate;

pub use examples::{example_of_differences, example_of_lines, example_of_waiting};
pub use fate::{Cause, Fate};
