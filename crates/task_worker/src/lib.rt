//! The work of one task: its layout, and one run of a bench.
//!
//! `layout` lays out what a task is given, from the outputs of the tasks that it needs, and `job_over` makes its job. `do_job` runs a
//! job's script over its layout once on a bench, and takes what it gives: the output with its manifest, a failing status, or too large.
//!
//! They equal the definitions of the clean build for one task (`meta_model`), which `one_task` says: over the clean outputs of
//! the tasks that a task needs, what these calls make is what the clean build has of it.
#![tactic(auto)]

mod given;
mod job;
mod laws;
mod laying;
mod parts;
mod running;

pub use given::{Given, Job, Placing, WorkFault};
pub use job::{do_job, job_over};
pub use laws::{one_task, runnable_law};
pub use laying::layout;
