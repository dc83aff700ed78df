// The chosen recipe of each PN.
ghost use Rattle.std.specs.Prelude.{◌≡◌, ◌≤◌, ◌+◌, ◌++◌, ◌∷◌, [], length, List, ℕ, IfOk, OnOk, map, filter, bytes_eq, if◌then◌else◌};
ghost use Rattle.std.specs.Map.{lookup};
ghost use Rattle.std.specs.BTreeMap.{get_by_text, btree_map_len};
ghost use Rattle.load_model.specs.Recipes.{Recipe as Read};
ghost use Rattle.load_model.specs.Facts as facts;
ghost use Rattle.recipe_facts.specs.Recipe.{recipe_meant};
ghost use Rattle.recipe_set.specs.Held.{turned_to};
ghost use Rattle.recipe_set.specs.Picks.{held_at, ArePicks};
ghost use Rattle.recipe_set.specs.Firsts.{first_of};

use crate::choice::{Pick, fits_wish};
use recipe_facts::Recipe;
use std::alloc::Global;
use std::collections::BTreeMap;
use tree_model::{Mem, Text};

/// By PN the recipe that is chosen so far.
pub(crate) type Picks = BTreeMap<String, Pick>;

/// By PN the version that is preferred.
pub(crate) type Versions = BTreeMap<String, Text>;

/// Puts a preference into the map, unless there is one of that PN.
fn put_version(map: &mut Versions, alloc: Global, pair: &(Text, Text)) -> Result<(), Mem>
    ensures { OnOk result ((t : List ℕ) → get_by_text map.new t
        ≡ first_of (get_by_text map.old t) (lookup (bytes_eq t) (pair.now ∷ []))) }
{
    if map.contains_key(pair.0.as_str()) {
        return Ok(());
    }
    map.insert(String::from_str(alloc, pair.0.as_str())?, pair.1.copy()?)?;
    Ok(())
}

/// Preferred versions by their PNs; of several of one PN the first counts.
pub(crate) fn versions_of(alloc: Global, versions: &[(Text, Text)]) -> Result<Versions, Mem>
    ensures { IfOk result (λ made. (t : List ℕ) → get_by_text made t ≡ lookup (bytes_eq t) versions.now) }
{
    let mut map = BTreeMap::new(alloc);
    for pair in versions {
        put_version(&mut map, alloc, pair)?;
    }
    Ok(map)
}

/// Puts a recipe in the place of the one that is chosen so far of its PN, if that gives way.
fn put_pick(picks: &mut Picks, alloc: Global, recipe: Recipe, fits: bool) -> Result<(), Mem>
    ensures more { OnOk result (btree_map_len picks.new ≤ btree_map_len picks.old + 1) }
    ensures held { OnOk result ((t : List ℕ) → held_at picks.new t
        ≡ (if bytes_eq recipe.pn t then turned_to fits (held_at picks.old t) (recipe_meant recipe) else held_at
        picks.old t)) }
{
    match picks.get_mut(recipe.pn.as_str()) {
        Some(pick) => {
            if pick.gives_way(&recipe, fits) {
                *pick = Pick { recipe, fits };
            }
            Ok(())
        }
        None => {
            let name = String::from_str(alloc, recipe.pn.as_str())?;
            picks.insert(name, Pick { recipe, fits })?;
            Ok(())
        }
    }
}

/// One more recipe to choose from.
pub(crate) fn pick(
    picks: &mut Picks,
    alloc: Global,
    versions: &Versions,
    recipe: Recipe,
) -> Result<(), Mem>
    ensures more { OnOk result (btree_map_len picks.new ≤ btree_map_len picks.old + 1) }
    ensures picked { OnOk result ((wishes : List (List ℕ × List ℕ)) (recipes : List Read)
        → ((t : List ℕ) → get_by_text versions.now t ≡ lookup (bytes_eq t) wishes) → ArePicks wishes recipes picks.old
        → ArePicks wishes (recipes ++ recipe_meant recipe ∷ []) picks.new) }
{
    let fits = fits_wish(versions.get(recipe.pn.as_str()), &recipe);
    put_pick(picks, alloc, recipe, fits)
}

/// The chosen recipes, in byte order of their PNs.
pub(crate) fn chosen(alloc: Global, picks: Picks) -> Result<Vec<Recipe>, Mem>
    ensures many { IfOk result (λ made. length made.items ≡ btree_map_len picks) }
    ensures chosen { IfOk result (λ made. (wishes : List (List ℕ × List ℕ)) (recipes : List Read)
        → ArePicks wishes recipes picks → map recipe_meant made.items ≡ facts.all_chosen wishes recipes) }
{
    let mut made = Vec::new(alloc);
    for (_, pick) in picks {
        made.push(pick.recipe)?;
    }
    Ok(made)
}
