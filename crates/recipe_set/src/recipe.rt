// One recipe.
ghost use Rattle.std.specs.Prelude.{◌≡◌, ◌++◌, Ok, List, ℕ, IfOk, IfErr, false};
ghost use Rattle.outside_traits.specs.Fault.{Counts};
ghost use Rattle.outside_traits.specs.Store.{SameFiles};
ghost use Rattle.load_model.specs.LoadRefusal.{refused_as};
ghost use Rattle.load_model.specs.Loading.{sources_of};
ghost use Rattle.load_model.specs.Recipes as recipes;
ghost use Rattle.recipe_facts.specs.Recipe.{recipe_meant};
ghost use Rattle.recipe_set.specs.Names.{name_meant};
ghost use Rattle.recipe_set.specs.Appends.{IsIndex};
ghost use Rattle.load_model.specs.Recipes.{recipe_over, three_values, good_name, name_in, recipe_with};
ghost use Rattle.recipe_set.specs.Faults.{IsSetFault, set_failed};

use crate::by_name::Appends;
use crate::fault::{SetFault, bad_name, data_told, load_told};
use crate::loaded::loaded;
use crate::names::{FileName, is_pn};
use class_inherit::Reading;
use datastore::{Datastore, SharedStore};
use outside_traits::Layers;
use recipe_facts::{Recipe, text_of};
use std::alloc::Global;
use tree_model::{Mem, Text};

/// The expanded value of a name in a recipe's entries, or the empty text.
fn value_of(alloc: Global, path: &str, store: &Datastore, name: &str) -> Result<Text, SetFault>
    ensures ok { IfOk result (λ made. recipes.asked_of path.now (recipes.text_of store.now name.now) ≡ Ok made) }
    ensures err { IfErr result (λ fault. IsSetFault fault
        (recipes.asked_of path.now (recipes.text_of store.now name.now))) }
    ensures not_read { set_failed result ≡ false }
{
    match text_of(alloc, store, name) {
        Ok(text) => Ok(text),
        Err(fault) => Err(data_told(alloc, path, fault)),
    }
}

/// PN, PV and PR as the entries of a recipe say.
fn values_in(alloc: Global, path: &str, store: &Datastore) -> Result<FileName, SetFault>
    ensures ok { IfOk result (λ made. three_values path.now store.now ≡ Ok (name_meant made)) }
    ensures err { IfErr result (λ fault. IsSetFault fault (three_values path.now store.now)) }
    ensures not_read { set_failed result ≡ false }
{
    let pn = value_of(alloc, path, store, "PN")?;
    let pv = value_of(alloc, path, store, "PV")?;
    let pr = value_of(alloc, path, store, "PR")?;
    Ok(FileName { pn, pv, pr })
}

/// The name, if its PN is one.
fn good_name(alloc: Global, path: &str, name: FileName) -> Result<FileName, SetFault>
    ensures ok { IfOk result (λ made. good_name path.now (name_meant name) ≡ Ok (name_meant made)) }
    ensures err { IfErr result (λ fault. IsSetFault fault (good_name path.now (name_meant name))) }
    ensures not_read { set_failed result ≡ false }
{
    if is_pn(name.pn.as_str()) {
        Ok(name)
    } else {
        Err(bad_name(alloc, path))
    }
}

/// The name of a recipe as it is after all files (own rule).
fn name_in(alloc: Global, path: &str, store: &Datastore) -> Result<FileName, SetFault>
    ensures ok { IfOk result (λ made. name_in path.now store.now ≡ Ok (name_meant made)) }
    ensures err { IfErr result (λ fault. IsSetFault fault (name_in path.now store.now)) }
    ensures not_read { set_failed result ≡ false }
{
    match values_in(alloc, path, store) {
        Ok(name) => good_name(alloc, path, name),
        Err(fault) => Err(fault),
    }
}

/// A recipe of this name, with these entries.
fn recipe_with(alloc: Global, path: &str, store: Datastore, name: FileName) -> Result<Recipe, Mem>
    ensures { IfOk result (λ made. recipe_meant made ≡ recipe_with path.now store (name_meant name)) }
{
    Ok(Recipe {
        file: Text::from_str(alloc, path)?,
        pn: name.pn,
        pv: name.pv,
        pr: name.pr,
        store,
    })
}

/// The recipe of some entries, whose names are moved.
fn recipe_of(alloc: Global, path: &str, store: Datastore) -> Result<Recipe, SetFault>
    ensures ok { IfOk result (λ made. recipes.recipe_of path.now store ≡ Ok (recipe_meant made)) }
    ensures err { IfErr result (λ fault. IsSetFault fault (recipes.recipe_of path.now store)) }
    ensures not_read { set_failed result ≡ false }
{
    match name_in(alloc, path, &store) {
        Ok(name) => match recipe_with(alloc, path, store, name) {
            Ok(recipe) => Ok(recipe),
            Err(_) => Err(SetFault::Memory),
        },
        Err(fault) => Err(fault),
    }
}

/// The same entries, whose active overrides are worked out once.
fn settled(alloc: Global, store: Datastore) -> Result<Datastore, Mem>
    ensures { IfOk result (λ made. made ≡ store) }
{
    let mut settled = store;
    settled.settle(alloc)?;
    Ok(settled)
}

/// The recipe of some entries, whose names are moved; it keeps them with their active overrides.
fn recipe_settled(alloc: Global, path: &str, store: Datastore) -> Result<Recipe, SetFault>
    ensures ok { IfOk result (λ made. recipes.recipe_of path.now store ≡ Ok (recipe_meant made)) }
    ensures err { IfErr result (λ fault. IsSetFault fault (recipes.recipe_of path.now store)) }
    ensures not_read { set_failed result ≡ false }
{
    match settled(alloc, store) {
        Ok(settled) => recipe_of(alloc, path, settled),
        Err(_) => Err(SetFault::Memory),
    }
}

/// The recipe of what was read for it, once its names are moved.
fn recipe_from(alloc: Global, path: &str, reading: Reading) -> Result<Recipe, SetFault>
    ensures ok { IfOk result (λ made. recipe_over path.now reading ≡ Ok (recipe_meant made)) }
    ensures err { IfErr result (λ fault. IsSetFault fault (recipe_over path.now reading)) }
    ensures not_read { set_failed result ≡ false }
{
    match reading.finish(alloc) {
        Ok(store) => recipe_settled(alloc, path, store),
        Err(fault) => Err(data_told(alloc, path, fault)),
    }
}

/// What is known before recipes are read: the configuration, and the appends with their names.
#[derive(Drop)]
pub(crate) struct Known<'a> {
    pub(crate) config: &'a SharedStore,
    pub(crate) appends: &'a [Text],
    pub(crate) index: &'a Appends,
}

/// All that is read for the recipe of a file.
fn reading_of<L: Layers>(
    alloc: Global,
    layers: &mut L,
    known: &Known,
    file: &(Text, FileName),
) -> Result<Reading, SetFault>
    requires { IsIndex known.now.appends.now known.now.index.now }
    ensures ok { IfOk result (λ made. L.tells → refused_as recipes.load
        (recipes.recipe_entries (sources_of (L.files layers.old)) known.now.config.now file.now.0
        (name_meant file.now.1) known.now.appends.now) ≡ Ok made) }
    ensures err { IfErr result (λ fault. L.tells → IsSetFault fault
        (refused_as recipes.load (recipes.recipe_entries (sources_of (L.files layers.old)) known.now.config.now
        file.now.0 (name_meant file.now.1) known.now.appends.now))) }
    ensures same { SameFiles L.files layers.old layers.new }
    ensures cause { Counts (L.faults layers.old) (L.faults layers.new) (set_failed result) }
{
    let path = file.0.as_str();
    let own = match known.index.of_recipe(alloc, path, known.appends) {
        Ok(own) => own,
        Err(_) => return Err(SetFault::Memory),
    };
    match loaded(alloc, layers, known.config, path, &file.1, own.as_slice()) {
        Ok(reading) => Ok(reading),
        Err(fault) => Err(load_told(fault)),
    }
}

/// The recipe of a file, over the configuration and with its appends.
pub(crate) fn read_recipe<L: Layers>(
    alloc: Global,
    layers: &mut L,
    known: &Known,
    file: &(Text, FileName),
) -> Result<Recipe, SetFault>
    requires { IsIndex known.now.appends.now known.now.index.now }
    ensures ok { IfOk result (λ made. L.tells → recipes.recipe_read (sources_of (L.files layers.old))
        known.now.config.now known.now.appends.now file.now.0 (name_meant file.now.1) ≡ Ok (recipe_meant made)) }
    ensures err { IfErr result (λ fault. L.tells → IsSetFault fault
        (recipes.recipe_read (sources_of (L.files layers.old)) known.now.config.now known.now.appends.now file.now.0
        (name_meant file.now.1))) }
    ensures same { SameFiles L.files layers.old layers.new }
    ensures cause { Counts (L.faults layers.old) (L.faults layers.new) (set_failed result) }
{
    match reading_of(alloc, layers, known, file) {
        Ok(reading) => recipe_from(alloc, file.0.as_str(), reading),
        Err(fault) => Err(fault),
    }
}
