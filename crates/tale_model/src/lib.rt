//! The events of a run: what has become of each task, which tasks are needed, and which tales are legal.
//!
//! The definitions stand in `specs/`, over the plain values of `meta_model`: the fate of each task by the events so far (`Fates`), the
//! tasks that a plan needs by what is there already (`Need`), which tasks are ready and when a run is finished (`Choice`), and which
//! tales of events are legal over a course, which says after each number of events what is needed, what is there, and what the clean
//! build says of each task (`History`). The contracts of the crates that decide what is next, mark events, and promise what a run
//! leaves cite them.
//!
//! The crate has no code. What is proved of tales stands in `run_core`.
#![tactic(auto)]

mod fate;

pub use fate::Fate;
