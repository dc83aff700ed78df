//! The sample: a project of any size from 1 to 1,000 recipes, which `--sample N` builds twice over devices in memory.
//!
//! Recipe `sK` has the tasks `do_prep`, which writes its number, and `do_build`, which copies that file and needs the
//! `do_build` of the recipe with half its number: a tree of recipes with `s0` at its root. The targets are all recipes.
//!
//! Promised: the files and the targets are those of the definitions (`specs/Sample.antt`), and the text of the two runs has
//! the counts of their tales (`Sample` of `answer_model`). (Own rule: no part of the BitBake User Manual.)
#![tactic(auto)]

mod recipes;
mod text;

pub use recipes::{sample_layers, sample_targets};
pub use text::sample_text;
