//! The devices over the real things: layers and a disk in the current folder, standard output. The bench that runs `sh` stands in `sh_bench`.
//!
//! Their model is that of the devices' traits. A device here tells nothing of what a folder or standard output holds, so no clause speaks
//! of that, and `os_cases` shows it by runs. Promised of each: its calls return, its count of faults rises where a call answers that
//! the device failed, and in no other call, and it stands still at its last value. What is decided is decided elsewhere; here are
//! only the calls of the system. Each device keeps a sentence on its first fault. (Own rules: no part of the BitBake User Manual.)
#![tactic(auto)]

mod ahead;
mod disk;
mod layers;
mod limits;
mod linked;
mod listed;
mod seen;
mod sink;

pub use ahead::ReadAhead;
pub use disk::FolderDisk;
pub use layers::FolderLayers;
pub use sink::StdSink;
