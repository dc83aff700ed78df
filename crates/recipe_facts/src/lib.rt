//! What a store says: the words of a value, the values of all names or of a family of names, and what a recipe and the
//! configuration say of recipes.
//!
//! Contracts see a store as the list of its entries, and each call equals the definition of `load_model` that it names
//! (`Layers`: words; `Recipes`: text; `Facts`: all others), refused exactly where the definition refuses; want of memory alone
//! is free, and has an answer of its own. A name is looked up once. Callers settle a store first (`Datastore::settle`), since
//! a look-up works the active overrides out anew where it isn't settled.
#![tactic(auto)]

mod asked;
mod brackets;
mod names;
mod of_config;
mod of_recipe;
mod packages;
mod tasks;
mod values;

pub use asked::{flag_words, needed_words, text_of, words_of};
pub use names::valued_names;
pub use of_config::{Wishes, wishes_of};
pub use of_recipe::{Recipe, facts_of};
pub use values::{environment, family};
