//! Plans of runs: definitions, and laws of these.
//!
//! The plan of a graph has for each task its key, its input files, its script, and what its output is made of (`specs/Plans`;
//! `specs/Inputs`: the files that `[file-checksums]` names; `specs/PlanRefusal`: why there is none). With `-f` the targets' tasks
//! are forced (`forced`). `specs/Sound` says when a plan is sound, `specs/Spellings` when a program can hold the signatures of its
//! tasks.
//!
//! The crate has no code: its public functions have empty bodies, and their contracts are the laws.
#![tactic(auto)]

mod laws;

pub use laws::{
    graphs_are_one, graphs_are_over_their_facts, plan_is_sound, plan_is_wanted,
    projects_have_good_names, sound_plans_have_spellings, sound_plans_meet, whole_plans_are_blind,
};
