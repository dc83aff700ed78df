//! Shared state objects: the outputs of tasks by their unihashes, kept under `obj/`, and folders that are read against a manifest.
//!
//! An object is believed by its bytes alone: it is read whole and compared with the manifest of the record that names it, so one that a
//! crash or a hand has damaged is as if it weren't there. Putting an object that is there already writes nothing. (The Yocto Project
//! Overview and Concepts Manual, "Shared State Cache"; that an object is compared each time is an own rule.)
//!
//! Promised of each call, beside what it answers: what it did to each image that a crash left since its entry, whatever it answers
//! (`Passes`); it answers `Failed` only where the disk's count of faults rose. Want of memory is free.
#![tactic(auto)]

mod holding;
mod matching;
mod objects;
mod open;
mod sizes;

pub use holding::same_entries;
pub use matching::read_matching;
pub use objects::{object_folder, put_object, read_verified};
pub use open::is_held;
