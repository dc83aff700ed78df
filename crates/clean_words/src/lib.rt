//! The words that ask for a clearing of the store:
//!
//! `bitbake --clean N [-n] [-c TASK] [TARGET..]`
//!
//! `clean_words` takes the option `--clean` and its number out of the words, and has the others read as those of a run (`command_words`): options may stand
//! before, between and behind the targets, and behind `--` each word is a target. Of the modes `--sample` comes before it, and it before all others, of which
//! `-n` says that nothing is to be changed. Options of a run that have no bearing here are taken (`-f`, `-k`, `--no-setscene`).
//!
//! Nothing is promised of it but that it is safe and ends: the cases of `clean` show what it reads. (Own rules: the BitBake User Manual has no such mode.)
#![tactic(auto)]

mod canonical;
mod split;

pub use canonical::{Asks, CleanWords, clean_words};
