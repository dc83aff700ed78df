// The files that targets are read from.
ghost use Rattle.std.specs.Prelude.{◌≡◌, ◌≤◌, length, false};
ghost use Rattle.project_reading.specs.Answered.{mode_failed};

use crate::files::Files;
use crate::recipes::ReadRecipe;
use meta_model::{FactSet, Status};
use project_reading::{graph_status, nothing_provides, or_status};
use std::alloc::Global;
use std::collections::BTreeMap;
use target_graph::{is_elsewhere, target_name};
use task_graph::provider;
use tree_model::{Mem, Text};
use value_maps::{Names, put_name};

/// The path of the recipe that a target stands for.
fn recipe_of<'a>(alloc: Global, facts: &'a FactSet, word: &str) -> Result<&'a str, Status>
    requires { length facts.now.recipes ≤ 2000 }
    ensures no_failure { mode_failed result ≡ false }
{
    if is_elsewhere(word) {
        return Err(nothing_provides(alloc, word));
    }
    match provider(alloc, facts, target_name(word)) {
        Ok(number) => match facts.recipes.as_slice().get(number as usize) {
            Some(recipe) => Ok(recipe.file.as_str()),
            None => Ok(""),
        },
        Err(fault) => Err(graph_status(alloc, fault)),
    }
}

/// Puts the paths of the files that the recipe at this path is read from into the set.
fn put_files(
    alloc: Global,
    files: &Files,
    recipes: &[ReadRecipe],
    path: &str,
    set: &mut Names,
) -> Result<(), Mem> {
    for recipe in recipes {
        if recipe.file.as_str() == path {
            for number in recipe.reads.iter() {
                if let Some(file) = files.get(*number) {
                    put_name(set, alloc, file.path.as_str())?;
                }
            }
        }
    }
    Ok(())
}

/// The paths of the files that the recipes of these targets are read from; `None` without targets.
pub(crate) fn files_of(
    alloc: Global,
    files: &Files,
    recipes: &[ReadRecipe],
    facts: &FactSet,
    targets: &[Text],
) -> Result<Option<Names>, Status>
    requires { length facts.now.recipes ≤ 2000 }
    ensures no_failure { mode_failed result ≡ false }
{
    if targets.is_empty() {
        return Ok(None);
    }
    let mut made = BTreeMap::new(alloc);
    for target in targets {
        let path = recipe_of(alloc, facts, target.as_str())?;
        or_status(put_files(alloc, files, recipes, path, &mut made))?;
    }
    Ok(Some(made))
}
