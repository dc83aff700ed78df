//! Plans: for each task of a graph its key, its input files, its script, and what its output is made of.
//!
//! `plan` equals the definition of `plan_model` (`Plans`, `plan_of`) over the files of the layers, refused exactly where it refuses
//! and with the refusal that comes first there; a failure of the layers comes only where their count of faults rose, and want of
//! memory alone is free. That the plan is sound is a law of `plan_model` (`plan_is_sound`). `forced_plan`
//! is the plan with the option `-f`: the tasks of the targets run in any case.
//!
//! How it is done: what is found out of a recipe's names is kept for all its tasks (`StoreKeys` of `var_deps`), from its first task
//! to the end of the call. The key of a task is asked once, and its script is made from it. Of a plan with many tasks several threads
//! make keys and scripts ahead, each for recipes of its own; then the tasks are gone through in their order, one after another, as if
//! nothing had been made: what couldn't be made ahead is made in its turn, and refused there.
#![tactic(auto)]

mod ahead;
mod fault;
mod graph_plan;
mod inputs;
mod parts;
mod planned;
mod shell;
mod texts;
mod words;

pub use fault::PlanFault;
pub use graph_plan::{forced_plan, plan};
