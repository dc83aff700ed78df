//! The recipes of a project: what each says of itself, and the entries of the chosen one of each name.
//!
//! `read_all` equals the definition of `load_model` (`Facts`, `recipe_set`) over the files of the layers, refused exactly where it
//! refuses and with the refusal that comes first there; a failure of the layers comes only where their count of faults rose, and
//! want of memory alone is free. A set is seen as that definition's record: the facts, and for each recipe of them its entries.
//! Each recipe's file is read once, and so is each file that it includes or inherits; of each PN only the recipe that is chosen
//! so far is kept. Appends are found by their name, without going through all of them for each recipe.
//!
//! `compare_versions` equals the order of versions (`Versions`) for all texts, and takes no memory. That the order is a total one
//! is a law of `load_model`.
#![tactic(auto)]

mod all;
mod by_name;
mod choice;
mod dangling;
mod entries;
mod fault;
mod files;
mod loaded;
mod names;
mod numbers;
mod picks;
mod recipe;
mod set;
mod versions;

pub use all::read_all;
pub use by_name::has_any;
pub use fault::SetFault;
pub use names::is_pn;
pub use set::RecipeSet;
pub use versions::compare_versions;
