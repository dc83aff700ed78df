//! The stamps of tasks: by a stamp a task's work folder is believed after a crash.
//!
//! The folder of a task is `RECIPE/TASK`. Its stamp is the file `stamp/RECIPE/TASK`, which names a stored record: its hash
//! as 64 hexadecimal digits, and a newline. A stamp goes by a rename to `tmp/old/RECIPE/TASK`, where it is removed, and
//! comes by a rename from `tmp/stamp/RECIPE/TASK`, where it was written and synced before. So in each image that a crash
//! may leave a stamp is there whole, or it isn't there. Neither leaves anything under `tmp/` (`swept`).
//!
//! Promised of each call, beside what it does where it answers Ok: what it did to each image that a crash left since its
//! entry, whatever it answers (`Passes`); it answers `Failed` only where the disk's count of faults rose. (Own rules: no
//! part of the BitBake User Manual, whose stamps are empty files named by a hash.)
#![tactic(auto)]

mod stamps;

pub use stamps::{current, invalidate, stage, stamp};
