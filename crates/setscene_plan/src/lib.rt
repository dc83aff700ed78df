//! The names of a plan's tasks, and which of them a run needs, kept up to date along a run.
//!
//! A `Probe` is asked what an index of records and a store have of a plan's tasks. Contracts see what it stands for (`specs/View`):
//! the plan and the rows of the index; and what its answers of outputs mean, as a relation, which no question changes.
//!
//! - `hashes` gives the names of all tasks over the rows: those of the definitions, from scratch.
//! - `needed` gives the least set that has the targets, the tasks that run in each run, and with each member whose output is missing
//!   the tasks that it needs directly. It looks at each task once, from the last one to the first.
//! - `Replan` keeps names, availability and need. `new` compares the signature of every task with the row of its name, in memory, and
//!   asks for the outputs of needed tasks alone, each at most once. `settled` brings it up to date after one task was settled, at
//!   the cost of what changed by it: `specs/Replans` says what it promises, and what it asks.
//! - What is needed depends on nothing but the outputs of needed tasks (`need_law`); names that are worked out task by task are those
//!   from scratch (`names_law`). What `settled` asks for is met after a row of the settled task's name came to be (`settling_law`).
//!
//! A fault of the probe is answered only where its count of faults rose. Want of memory is free; after a refusal a `Replan` is made
//! anew.
#![tactic(auto)]

mod asking;
mod laws;
mod names;
mod probe;
mod replan;
mod sweep;
mod work;

pub use laws::{Meaning, names_law, need_law, settling_law};
pub use names::hashes;
pub use probe::{Probe, ProbeFault};
pub use replan::Replan;
pub use sweep::{add_all, add_forced, needed};
