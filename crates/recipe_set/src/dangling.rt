// Appends that belong to no recipe.
ghost use Rattle.std.specs.Prelude.{◌≡◌, ◌||◌, List, ℕ, IfOk, OnOk, MatchOption, Ok, Err, is_some, bytes_eq, true};
ghost use Rattle.std.specs.BTreeMap.{get_by_text};
ghost use Rattle.std.specs.List.{list_any};
ghost use Rattle.load_model.specs.Recipes as recipes;
ghost use Rattle.recipe_set.specs.Stems.{recipe_stem};

use crate::by_name::{append_stem, belongs, recipe_stem};
use path_words::has_ending;
use std::alloc::Global;
use std::collections::BTreeMap;
use tree_model::{Mem, Text};

/// Puts a name into the set.
fn put_stem(set: &mut BTreeMap<String, ()>, alloc: Global, stem: &str) -> Result<(), Mem>
    ensures { OnOk result ((t : List ℕ) → is_some (get_by_text set.new t)
        ≡ (bytes_eq t stem.now || is_some (get_by_text set.old t))) }
{
    set.insert(String::from_str(alloc, stem)?, ())?;
    Ok(())
}

/// The names of the recipes' files, without `.bb`.
fn stems_of(alloc: Global, paths: &[Text]) -> Result<BTreeMap<String, ()>, Mem>
    ensures { IfOk result (λ made. (t : List ℕ) → is_some (get_by_text made t)
        ≡ list_any (λ path. bytes_eq t (recipe_stem path)) paths.now) }
{
    let mut set = BTreeMap::new(alloc);
    for path in paths {
        put_stem(&mut set, alloc, recipe_stem(path.as_str()))?;
    }
    Ok(set)
}

/// Whether the append belongs to one of the recipes, by going through them.
fn has_recipe(paths: &[Text], append: &str) -> bool
    ensures { result ≡ list_any (λ path. recipes.belongs path append.now) paths.now }
{
    for path in paths {
        if belongs(path.as_str(), append) {
            return true;
        }
    }
    false
}

/// Whether the append belongs to one of the recipes, whose names are these. All of them are gone through only where its own
/// name ends with `%`.
fn is_wanted(stems: &BTreeMap<String, ()>, paths: &[Text], append: &str) -> bool
    requires { (t : List ℕ) → is_some (get_by_text stems.now t)
        ≡ list_any (λ path. bytes_eq t (recipe_stem path)) paths.now }
    ensures { result ≡ list_any (λ path. recipes.belongs path append.now) paths.now }
{
    let stem = append_stem(append);
    if has_ending("%", stem) {
        has_recipe(paths, append)
    } else {
        stems.contains_key(stem)
    }
}

/// The first append that belongs to no recipe, which is refused (own rule).
pub(crate) fn dangling(alloc: Global, paths: &[Text], appends: &[Text]) -> Result<Option<Text>, Mem>
    ensures { IfOk result (λ found. MatchOption found (recipes.all_belong paths.now appends.now ≡ Ok appends.now)
        (λ append. recipes.all_belong paths.now appends.now ≡ Err (recipes.dangling_append append))) }
{
    let stems = stems_of(alloc, paths)?;
    for append in appends {
        if !is_wanted(&stems, paths, append.as_str()) {
            return Ok(Some(append.copy()?));
        }
    }
    Ok(None)
}
