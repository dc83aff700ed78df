//! The run that words have: what they ask for, the graph of their tasks, and the number of threads.
//!
//! The definitions stand in `answer_model`: the target that a word means (`Targets`), what words ask for (`RunAsked`), which words have a
//! run and with which status others are refused (`Runs`, `GraphStatus`). `examples` and `project_examples` work some of them out.
//!
//! Promised of `find_run`, for layers that tell what they hold: the answer is the run that the words have, and each refusal is that of
//! the words, the first in the stated order. `run_law` says that words which have a run aren't refused. `ReadFault` comes only where
//! the layers' count of faults rose, and want of memory alone is free. No file is changed. `find_parts` gives the parts of words that name several
//! configurations, and `find_part_run` the run of one, in the same way (`multi_config`).
#![tactic(auto)]

mod asked;
mod examples;
mod graph;
mod laws;
mod part;
mod parts;
mod project_examples;
mod run;
mod targets;

pub use asked::Asked;
pub use laws::run_law;
pub use multi_config::{is_elsewhere, target_name};
pub use part::{find_part_run, named_config};
pub use parts::find_parts;
pub use run::{Run, find_run};
