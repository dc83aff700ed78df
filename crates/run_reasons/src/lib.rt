//! Why tasks ran: what each task that a run started differs in from what an earlier run of it left, in words.
//!
//! A task is seen as its signature, which has all that decides its output: the lines of its key, its input files, and the outputs of the tasks that
//! it needs. `differences` finds in what two signatures of a task differ; a text that has several lines, or is long, is told as a diff of lines
//! below. `Stamped` is a sink that looks, as a run writes that it starts a task, which record the task's stamp names then; and `keep_reasons` compares behind
//! the run each task with that record, or else with the newest one of it, leaves what it finds in `build/why`, and says the causes on standard error.
//! Of a configuration that has a name all this is in the folder of its own store. The sink learns which one that is from the line before what belongs to
//! it, and says it to the benches (`Configs` of `sh_bench`).
//!
//! Promised is that the sink is the one below, to its contract's last clause, and that texts are safely made. What they say is shown by
//! `tests/program/why.sh`. (Own rules: BitBake has `bitbake-diffsigs` and `-S printdiff` for this; Yocto Project Development Tasks Manual,
//! "Debugging Tools and Techniques".)
#![tactic(auto)]

mod diff;
mod differing;
mod earlier;
mod keeping;
mod stamped;
mod told;

pub use keeping::{Known, keep_reasons, put_beside};
pub use stamped::{Planned, Stamp, Stamped};
