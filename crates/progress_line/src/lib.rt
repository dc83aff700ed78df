//! The line on a terminal that says what a run is doing.
//!
//! `Progress` has the line: how many tasks are done of how many, the time, and the tasks that run, each with its time. A thread of its own
//! (`tick`) keeps it up to date until the run has ended (`stop`), and then it is gone. `Shown` is a sink that learns from the lines that a run
//! writes what its tasks do, and takes the line away before each piece, so that it is never mixed into standard output, also where both go to
//! the same terminal. Who writes to standard error besides, while a run goes on, does it by `tell`, which takes the line away in the same call.
//!
//! Promised is that the sink is the one below, to its contract's last clause. (Own rules: BitBake's `knotty` for one line.)
#![tactic(auto)]

mod line;
mod progress;
mod shown;
mod terminal;

pub use progress::Progress;
pub use shown::Shown;
pub use terminal::{has_place, tell};
