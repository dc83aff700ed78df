//! Benches in which `sh` runs scripts: the bench over real folders.
//!
//! Its model is that of the bench's trait. It tells nothing of what a folder holds or `sh` does, so no clause speaks of that, and
//! `os_cases` shows it by runs. Promised is that its calls return, that its count of faults rises where a call answers that the device
//! failed, and in no other call, and that it stands still at its last value. It keeps a sentence on its first fault. (Own rules: no
//! part of the BitBake User Manual.)
#![tactic(auto)]

mod bench;
mod configs;
mod kept;
mod output;
mod pace;
mod place;
mod sandboxes;
mod shell;
mod supervisor;
mod telling;

pub use bench::ShBench;
pub use configs::Configs;
pub use sandboxes::Sandboxes;
pub use telling::Telling;
