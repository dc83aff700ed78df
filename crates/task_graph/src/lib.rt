//! The graph of tasks: the recipes that names stand for, and the tasks that targets reach.
//!
//! The definitions are those of `meta_model`: `provider` and `runtime_provider` of a name over what all recipes say; `Needs`,
//! which task needs which; `IsGraph`, the graph of some targets; and the number of threads that a text stands for. This crate's
//! promises:
//!
//! - `provider`, `runtime_provider` and `threads_of` answer exactly what they say, refusals included;
//! - `build` answers only the graph of the targets: each task that they reach, once, ascending by depth, PN and task, with just
//!   the tasks that it needs, its depth, and the places of the targets. It has at most 65,536 tasks, and nothing that is asked
//!   for is refused. Each refusal of `build` has its cause: a target or a task that is reached asks for what nobody provides,
//!   for what several provide, or for a task that isn't there; the tasks of a cycle are reached, need each other in that order,
//!   and the first is the least by PN and task; or more than 65,536 tasks are reached. A cycle has no graph, since its tasks have
//!   no depth, so it is always refused.
//! - Want of memory alone is free.
//!
//! Where several causes stand, one of them is told; those of targets come before those of other tasks, and both before a cycle.
//!
//! How it is done:
//!
//! - `index` has the providers of all names in maps, made in one walk over the recipes, and the names that count as provided;
//! - `needed` has the providers of each recipe's names, `closure` the recipes that a recipe leads to over them, and `lacking`
//!   the refusal of a recipe of which a name has none;
//! - `table` numbers all tasks and finds them by recipe and name; `context` holds these tables and finds the tasks that targets
//!   and words of `[depends]` stand for. A task is its recipe's number and its name: of two tasks of one name the first counts;
//! - `edges` has the tasks that each flag of a task asks for, and refuses what lacks a provider;
//! - `reach` finds all tasks that targets reach, each once, with the places of those that each needs. It asks for the limit
//!   once a task's needs are found;
//! - `levels` gives each of them its depth, or finds tasks that need each other (crate `graph_walk`);
//! - `order` puts the tasks in the order of nodes, `nodes` writes them with the numbers of their dependencies, and `cycle`
//!   begins a cycle at its least task.
//!
//! No call recurses as deep as the graph, and memory is linear in the tasks and dependencies.
#![tactic(auto)]

mod closure;
mod context;
mod cycle;
mod edges;
mod fault;
mod graph;
mod index;
mod lacking;
mod levels;
mod needed;
mod nodes;
mod only;
mod order;
mod providers;
mod reach;
mod table;
mod threads;

pub use fault::GraphFault;
pub use graph::build;
pub use providers::{provider, runtime_provider};
pub use threads::threads_of;
