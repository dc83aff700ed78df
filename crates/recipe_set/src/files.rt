// The files of recipes.
ghost use Rattle.std.specs.Prelude.{◌≡◌, ◌≤◌, ◌++◌, length, ◌∷◌, [], List, ℕ, Ok, IfOk, IfErr, OnOk, map, false};
ghost use Rattle.load_model.specs.Recipes as recipes;
ghost use Rattle.recipe_set.specs.Chosen.{file_meant};
ghost use Rattle.load_model.specs.Recipes.{file_named};
ghost use Rattle.load_model.specs.Facts.{files_over};
ghost use Rattle.recipe_set.specs.Faults.{IsSetFault, set_failed};

use crate::dangling::dangling;
use crate::fault::{SetFault, bad_name};
use crate::names::{FileName, name_of_file};
use std::alloc::Global;
use tree_model::{Mem, Text};

/// The most recipe files that are read (own rule).
const MOST_RECIPES: usize = 2000;

/// A file's path, with what its name says.
fn file_named(alloc: Global, path: &str) -> Result<(Text, FileName), SetFault>
    ensures ok { IfOk result (λ made. file_named path.now ≡ Ok (file_meant made)) }
    ensures err { IfErr result (λ fault. IsSetFault fault (file_named path.now)) }
    ensures not_read { set_failed result ≡ false }
{
    match name_of_file(alloc, path)? {
        Some(name) => Ok((Text::from_str(alloc, path)?, name)),
        None => Err(bad_name(alloc, path)),
    }
}

/// Puts a file at the end of the list.
fn put(list: &mut Vec<(Text, FileName)>, file: (Text, FileName)) -> Result<(), Mem>
    ensures { OnOk result (list.new.items ≡ list.old.items ++ file ∷ []) }
{
    list.push(file)?;
    Ok(())
}

/// The paths of files, each with what its name says.
fn files_named(alloc: Global, paths: &[Text]) -> Result<Vec<(Text, FileName)>, SetFault>
    ensures ok { IfOk result (λ made. recipes.names_of_files paths.now ≡ Ok (map file_meant made.items)) }
    ensures err { IfErr result (λ fault. IsSetFault fault (recipes.names_of_files paths.now)) }
    ensures not_read { set_failed result ≡ false }
{
    let mut made = Vec::new(alloc);
    for path in paths {
        let file = file_named(alloc, path.as_str())?;
        put(&mut made, file)?;
    }
    Ok(made)
}

/// Refuses the first append that belongs to none of the recipes (own rule).
fn all_belong(alloc: Global, paths: &[Text], appends: &[Text]) -> Result<(), SetFault>
    ensures ok { OnOk result (recipes.all_belong paths.now appends.now ≡ Ok appends.now) }
    ensures err { IfErr result (λ fault. IsSetFault fault (recipes.all_belong paths.now appends.now)) }
    ensures not_read { set_failed result ≡ false }
{
    match dangling(alloc, paths, appends)? {
        Some(file) => Err(SetFault::DanglingAppend { file }),
        None => Ok(()),
    }
}

/// The files of recipes, each with what its name says; there may not be too many of them, and each append has to belong to one.
pub(crate) fn files_of(
    alloc: Global,
    paths: &[Text],
    appends: &[Text],
) -> Result<Vec<(Text, FileName)>, SetFault>
    ensures few { IfOk result (λ made. length made.items ≤ 2000) }
    ensures ok { IfOk result (λ made. files_over paths.now appends.now ≡ Ok (map file_meant made.items)) }
    ensures err { IfErr result (λ fault. IsSetFault fault (files_over paths.now appends.now)) }
    ensures not_read { set_failed result ≡ false }
{
    if paths.len() > MOST_RECIPES {
        return Err(SetFault::Recipes);
    }
    let files = files_named(alloc, paths)?;
    all_belong(alloc, paths, appends)?;
    Ok(files)
}
