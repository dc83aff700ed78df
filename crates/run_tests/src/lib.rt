//! Runs over an index of records in memory: an index that serves as a probe, sample plans, and runs of one seat, step by step.
//! They are played by tests here and measured by `record_bench`; no store, script or disk takes part.
//!
//! `Index` is seen as its view (`specs/Index`): the plan that it stands for, and a row for each record that was put into it. It
//! tells nothing of outputs. `step` keeps what a run knows up to date (`specs/Playing`), whatever becomes of its tasks.
#![tactic(auto)]

mod index;
mod plans;
mod playing;
#[cfg(test)]
mod tests;

pub use index::{Index, Row};
pub use plans::{Shape, is_sound, plan_of};
pub use playing::{Outcome, Play, begin, play_out, step};
