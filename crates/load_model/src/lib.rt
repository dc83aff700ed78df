//! How files, layers and recipes are put together: definitions of what a project's metadata says.
//!
//! They stand over those of `meta_model`, which say what one file's statements and one list of entries mean. Here are the
//! entries of a file with all that it includes and inherits (`Loading`), the layers and the lists of recipe files and appends
//! (`Layers`), a recipe's name, version and entries (`Recipes`, `Versions`), and the facts of all chosen recipes (`Facts`), each
//! with its refusals and their places (`LoadRefusal`). The contracts of the crates that load metadata cite them. Four files of
//! examples try them: each clause there is an equation whose sides compute to the same.
//!
//! What is proved of the definitions, for all files:
//!
//! - reading a file or a class adds entries behind those before, and counts no class twice (`reading_files_laws`);
//! - the order of versions is a total order in which no two versions are equal (`version_laws`);
//! - the greatest of some recipes is one of them, and none is greater (`greatest_law`).
//!
//! Which definition is right no proof can say: each one's comment states its rule, and the examples compare it with
//! answers that were derived from the rules by hand.
#![tactic(auto)]

mod laws;
mod layer_examples;
mod loading_examples;
mod recipe_examples;
mod version_examples;

pub use laws::{greatest_law, reading_files_laws, version_laws};
