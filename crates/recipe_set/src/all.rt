// All recipes.
ghost use Rattle.std.specs.Prelude.{◌≡◌, ◌≤◌, ◌+◌, ◌++◌, ◌∷◌, [], length, List, ℕ, Ok, IfOk, IfErr, OnOk, map, bytes_eq};
ghost use Rattle.std.specs.Map.{lookup};
ghost use Rattle.std.specs.BTreeMap.{get_by_text, btree_map_len};
ghost use Rattle.outside_traits.specs.Fault.{Counts};
ghost use Rattle.outside_traits.specs.Store.{SameFiles};
ghost use Rattle.load_model.specs.Loading.{sources_of};
ghost use Rattle.load_model.specs.Recipes.{Recipe as Read, recipes_read};
ghost use Rattle.load_model.specs.Facts as facts;
ghost use Rattle.recipe_facts.specs.Recipe.{recipe_meant};
ghost use Rattle.recipe_facts.specs.Wished.{wished};
ghost use Rattle.recipe_set.specs.Appends.{IsIndex};
ghost use Rattle.recipe_set.specs.Chosen.{file_meant, file_read};
ghost use Rattle.load_model.specs.Facts.{read_over, set_under};
ghost use Rattle.recipe_set.specs.Picks.{ArePicked, ArePicks};
ghost use Rattle.recipe_set.specs.Faults.{IsSetFault, set_failed};

use crate::by_name::index_of;
use crate::fault::{SetFault, data_told};
use crate::files::files_of;
use crate::names::FileName;
use crate::picks::{Picks, Versions, chosen, pick, versions_of};
use crate::recipe::{Known, read_recipe};
use crate::set::{RecipeSet, set_of};
use datastore::{Datastore, SharedStore};
use outside_traits::Layers;
use recipe_facts::{Wishes, wishes_of};
use std::alloc::Global;
use std::collections::BTreeMap;
use tree_model::{Mem, Text};

/// Reads the recipe of a file, and puts it in the place of the one that is chosen so far of its PN, if that gives way.
fn read_one<L: Layers>(
    alloc: Global,
    layers: &mut L,
    known: &Known,
    versions: &Versions,
    file: &(Text, FileName),
    picks: &mut Picks,
) -> Result<(), SetFault>
    requires { IsIndex known.now.appends.now known.now.index.now }
    ensures ok { OnOk result (L.tells → (recipe : Read)
        × ((file_read (sources_of (L.files layers.old)) known.now.config.now known.now.appends.now
        (file_meant file.now) ≡ Ok recipe) × ((wishes : List (List ℕ × List ℕ)) (before : List Read)
        → ((t : List ℕ) → get_by_text versions.now t ≡ lookup (bytes_eq t) wishes) → ArePicks wishes before picks.old
        → ArePicks wishes (before ++ recipe ∷ []) picks.new))) }
    ensures more { OnOk result (btree_map_len picks.new ≤ btree_map_len picks.old + 1) }
    ensures err { IfErr result (λ fault. L.tells → IsSetFault fault
        (file_read (sources_of (L.files layers.old)) known.now.config.now known.now.appends.now
        (file_meant file.now))) }
    ensures same { SameFiles L.files layers.old layers.new }
    ensures cause { Counts (L.faults layers.old) (L.faults layers.new) (set_failed result) }
{
    match read_recipe(alloc, layers, known, file) {
        Ok(recipe) => match pick(picks, alloc, versions, recipe) {
            Ok(()) => Ok(()),
            Err(_) => Err(SetFault::Memory),
        },
        Err(fault) => Err(fault),
    }
}

/// Reads the recipes of all files, and chooses one of each PN.
fn read_each<L: Layers>(
    alloc: Global,
    layers: &mut L,
    known: &Known,
    versions: &Versions,
    files: &[(Text, FileName)],
) -> Result<Picks, SetFault>
    requires { IsIndex known.now.appends.now known.now.index.now }
    ensures ok { IfOk result (λ made. L.tells → (wishes : List (List ℕ × List ℕ))
        → ((t : List ℕ) → get_by_text versions.now t ≡ lookup (bytes_eq t) wishes)
        → ArePicked wishes (recipes_read (sources_of (L.files layers.old)) known.now.config.now known.now.appends.now
        (map file_meant files.now)) made) }
    ensures few { IfOk result (λ made. btree_map_len made ≤ length files.now) }
    ensures err { IfErr result (λ fault. L.tells → IsSetFault fault
        (recipes_read (sources_of (L.files layers.old)) known.now.config.now known.now.appends.now
        (map file_meant files.now))) }
    ensures same { SameFiles L.files layers.old layers.new }
    ensures cause { Counts (L.faults layers.old) (L.faults layers.new) (set_failed result) }
{
    let mut picks = BTreeMap::new(alloc);
    for file in files {
        read_one(alloc, layers, known, versions, file, &mut picks)?;
    }
    Ok(picks)
}

/// The set of the chosen recipes of these files.
fn read_files<L: Layers>(
    alloc: Global,
    layers: &mut L,
    known: &Known,
    wishes: Wishes,
    files: &[(Text, FileName)],
) -> Result<RecipeSet, SetFault>
    requires index { IsIndex known.now.appends.now known.now.index.now }
    requires few { length files.now ≤ 2000 }
    ensures ok { IfOk result (λ made. L.tells → read_over (sources_of (L.files layers.old)) known.now.config.now
        (wished wishes) (map file_meant files.now) known.now.appends.now ≡ Ok made) }
    ensures err { IfErr result (λ fault. L.tells → IsSetFault fault
        (read_over (sources_of (L.files layers.old)) known.now.config.now (wished wishes) (map file_meant files.now)
        known.now.appends.now)) }
    ensures same { SameFiles L.files layers.old layers.new }
    ensures cause { Counts (L.faults layers.old) (L.faults layers.new) (set_failed result) }
{
    let versions = versions_of(alloc, wishes.versions.as_slice())?;
    let picks = read_each(alloc, layers, known, &versions, files)?;
    let recipes = chosen(alloc, picks)?;
    set_of(alloc, wishes, recipes)
}

/// Reads all recipes over shared entries, under what they say of recipes.
fn read_under<L: Layers>(
    alloc: Global,
    layers: &mut L,
    config: &SharedStore,
    wishes: Wishes,
    recipes: &[Text],
    appends: &[Text],
) -> Result<RecipeSet, SetFault>
    ensures ok { IfOk result (λ made. L.tells → set_under (sources_of (L.files layers.old)) config.now recipes.now
        appends.now (wished wishes) ≡ Ok made) }
    ensures err { IfErr result (λ fault. L.tells → IsSetFault fault
        (set_under (sources_of (L.files layers.old)) config.now recipes.now appends.now (wished wishes))) }
    ensures same { SameFiles L.files layers.old layers.new }
    ensures cause { Counts (L.faults layers.old) (L.faults layers.new) (set_failed result) }
{
    let files = files_of(alloc, recipes, appends)?;
    let index = index_of(alloc, appends)?;
    let known = Known {
        config,
        appends,
        index: &index,
    };
    read_files(alloc, layers, &known, wishes, files.as_slice())
}

/// The entries of the configuration, which the recipes share.
fn shared_of(alloc: Global, config: &Datastore) -> Result<SharedStore, Mem>
    ensures { IfOk result (λ made. made ≡ config.now) }
{
    config.copy(alloc)?.share(alloc)
}

/// Reads all recipes under what the configuration says of them.
fn read_sharing<L: Layers>(
    alloc: Global,
    layers: &mut L,
    config: &Datastore,
    wishes: Wishes,
    recipes: &[Text],
    appends: &[Text],
) -> Result<RecipeSet, SetFault>
    ensures ok { IfOk result (λ made. L.tells → set_under (sources_of (L.files layers.old)) config.now recipes.now
        appends.now (wished wishes) ≡ Ok made) }
    ensures err { IfErr result (λ fault. L.tells → IsSetFault fault
        (set_under (sources_of (L.files layers.old)) config.now recipes.now appends.now (wished wishes))) }
    ensures same { SameFiles L.files layers.old layers.new }
    ensures cause { Counts (L.faults layers.old) (L.faults layers.new) (set_failed result) }
{
    match shared_of(alloc, config) {
        Ok(shared) => read_under(alloc, layers, &shared, wishes, recipes, appends),
        Err(_) => Err(SetFault::Memory),
    }
}

/// Reads all recipes over the configuration, and chooses one of each PN: the greatest, by version, revision and path, of those
/// that fit the preference, or of all where none does ("Preferences", "Variables Glossary": PREFERRED_VERSION; own rules).
/// `recipes` are the paths of the recipe files in byte order, `appends` those of the appends in their order.
///
/// Refused as the definition is, with the first of these in this order: a value of the configuration (`Data`, without a file),
/// more than 2,000 recipe files (`Recipes`), the name of a file (`BadName`), an append that belongs to no recipe
/// (`DanglingAppend`), then for each recipe in order a file (`Load`), a value (`Data`) or the PN after all files (`BadName`),
/// and a value of a chosen recipe (`Data`). `Load` of the kind `Read` comes only where the layers' count of faults rose;
/// `Memory` where memory ran out. No call changes a file.
pub fn read_all<L: Layers>(
    alloc: Global,
    layers: &mut L,
    config: &Datastore,
    recipes: &[Text],
    appends: &[Text],
) -> Result<RecipeSet, SetFault>
    ensures ok { IfOk result (λ made. L.tells → facts.recipe_set (sources_of (L.files layers.old)) config.now
        recipes.now appends.now ≡ Ok made) }
    ensures err { IfErr result (λ fault. L.tells → IsSetFault fault
        (facts.recipe_set (sources_of (L.files layers.old)) config.now recipes.now appends.now)) }
    ensures same { SameFiles L.files layers.old layers.new }
    ensures cause { Counts (L.faults layers.old) (L.faults layers.new) (set_failed result) }
{
    match wishes_of(alloc, config) {
        Ok(wishes) => read_sharing(alloc, layers, config, wishes, recipes, appends),
        Err(fault) => Err(data_told(alloc, "", fault)),
    }
}
