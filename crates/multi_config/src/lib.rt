//! Several configurations: what words and metadata say of them, and how the parts of a run become one answer.
//!
//! Definitions:
//!
//! - the configurations that the metadata names, and the store of variables of one (`Reading`);
//! - which configuration a word names, which words are refused, and the parts of a run of these words (`Words`);
//! - where a configuration's store stands, the line before it, and which status a run of parts has (`Configs`).
//!
//! Promised of the code: `split` gives just the parts that are meant, or the first word at fault and why; want of memory alone is free. `is_elsewhere`,
//! `target_name` and `target_of` read a word as a target. The examples try the definitions: each clause there is an equation whose sides compute to
//! the same.
#![tactic(auto, unfolding(crate::specs::Words::parts_of, meta_model::specs::Statements::statement_of, meta_model::specs::Grammar::fit_of, meta_model::specs::Grammar::operator, meta_model::specs::Grammar::quoted))]

mod examples;
mod fault;
mod laws;
mod parts;
mod places;
mod splitting;
mod targets;

pub use examples::{
    example_of_answers, example_of_configs, example_of_parts, example_of_refused_words,
};
pub use fault::SplitFault;
pub use laws::{configs_law, parts_law};
pub use parts::ConfigTargets;
pub use places::is_config_name;
pub use splitting::split;
pub use targets::{has_elsewhere, is_elsewhere, target_name, target_of};
