//! The plan of the run that words have.
//!
//! `answer_model` says which words have a plan, of which tasks, and why others are refused (`Plans`), and with which status
//! (`PlanStatus`): it is the plan (`plan_model`) of the graph of their tasks with their number of threads (`target_graph`).
//!
//! Promised of `find_plan`, for layers that tell what they hold: the answer is the plan that the words have, and each refusal is that
//! of the words. Whatever the layers tell, an answered plan is sound, and a program can hold the signatures of its tasks
//! (`plan_model`): that is checked before it is answered. The check turns back just the plans that aren't sound, as the limit
//! `UnsoundPlan`, so none of layers that tell. `plan_laws` says that words have one plan, that it is sound and each of its tasks
//! wanted, and that words which have one aren't refused.
//! `ReadFault` comes only where the layers' count of faults rose, and want of memory alone is free. No file is changed.
//!
//! `find_part_plan` gives the plan of a part of a run of several configurations, and its refusals, in the same way (`Plans` of `multi_config`).
//!
//! The check stands in `soundness` (the plan as a whole), `differing` (no two tasks of one PN and name), `sound_task`, `sound_lines`
//! and `sound_files` (a task at its number), and `fitting` (what the types of texts and lists promise of their lengths).
#![tactic(auto)]

mod differing;
mod fitting;
mod laws;
mod part;
mod plan;
mod said;
mod sound_files;
mod sound_lines;
mod sound_task;
mod soundness;

pub use laws::{part_laws, plan_laws};
pub use part::find_part_plan;
pub use plan::find_plan;
