// The recipes one by one, each with the files that it is read from.
ghost use Rattle.std.specs.Prelude.{◌≡◌, IfErr, OnOk, IsTrue, false};
ghost use Rattle.outside_traits.specs.Fault.{Counts};
ghost use Rattle.outside_traits.specs.Store.{SameFiles};
ghost use Rattle.project_reading.specs.Answered.{is_failed_read, mode_failed};

use crate::files::{Files, first_part};
use crate::notes::Notes;
use crate::own::{Own, check_own};
use crate::watched::Watched;
use datastore::{DataFault, Datastore};
use layer_conf::Config;
use meta_model::{RecipeFacts, Status, as_texts};
use outside_traits::Layers;
use project_reading::{or_status, read_recipes};
use recipe_set::{RecipeSet, has_any};
use std::alloc::Global;
use std::collections::BTreeMap;
use tree_model::{Mem, Text, Texts};
use value_maps::{Names, put_name};

/// What stays of a recipe once its entries are gone.
#[derive(Drop)]
pub(crate) struct ReadRecipe {
    pub(crate) file: Text,
    pub(crate) pn: Text,
    pub(crate) pv: Text,
    pub(crate) pr: Text,
    pub(crate) provides: Texts,
    /// The numbers of the files that it is read from.
    pub(crate) reads: Vec<usize>,
}

/// All recipes, chosen or not, and what they have together.
#[derive(Drop)]
pub(crate) struct AllRecipes {
    pub(crate) list: Vec<ReadRecipe>,
    /// The names that assignments to names with references come to.
    pub(crate) set: Names,
    /// The tasks of all of them.
    pub(crate) tasks: Names,
}

/// The appends that belong to one of some recipes, in their order.
fn appends_for(alloc: Global, recipes: &[Text], appends: &[Text]) -> Result<Texts, Mem> {
    let mut made = Texts::new(alloc);
    for one in appends.chunks(1) {
        if recipes.iter().any(|recipe| has_any(recipe.as_str(), one)) {
            for append in one {
                made.push(append.copy()?)?;
            }
        }
    }
    Ok(made)
}

/// What stays of a recipe.
fn kept_of(facts: &RecipeFacts, reads: Vec<usize>) -> Result<ReadRecipe, Mem> {
    Ok(ReadRecipe {
        file: facts.file.copy()?,
        pn: facts.pn.copy()?,
        pv: facts.pv.copy()?,
        pr: facts.pr.copy()?,
        provides: facts.provides.copy()?,
        reads,
    })
}

/// Notes the names that assignments of some files to names with references come to.
fn note_keyed(
    alloc: Global,
    files: &Files,
    reads: &[usize],
    store: &Datastore,
    set: &mut Names,
) -> Result<(), Mem> {
    for number in reads {
        if let Some(file) = files.get(*number) {
            for name in file.keyed.as_slice() {
                note_expanded(alloc, store, name.as_str(), set)?;
            }
        }
    }
    Ok(())
}

/// Notes what a name comes to, up to its first colon. One that can't be expanded comes to nothing.
fn note_expanded(alloc: Global, store: &Datastore, name: &str, set: &mut Names) -> Result<(), Mem> {
    match store.expand(alloc, name) {
        Ok(made) => put_name(set, alloc, first_part(made.as_str())),
        Err(DataFault::Memory) => Err(Mem),
        Err(_) => Ok(()),
    }
}

/// Takes a recipe that was read from these files: what is remarked on it, and what stays of it.
fn take_recipe(
    alloc: Global,
    files: &mut Files,
    facts: &RecipeFacts,
    store: &Datastore,
    reads: Vec<usize>,
    all: &mut AllRecipes,
    notes: &mut Notes,
) -> Result<(), Mem> {
    let own = Own {
        facts,
        store,
        files,
        reads: reads.as_slice(),
    };
    check_own(alloc, &own, notes)?;
    note_keyed(alloc, files, reads.as_slice(), store, &mut all.set)?;
    note_keyed(alloc, files, files.shared(), store, &mut all.set)?;
    for task in facts.tasks.as_slice() {
        files.put_task(alloc, reads.as_slice(), task.task.as_str())?;
        put_name(&mut all.tasks, alloc, task.task.as_str())?;
    }
    all.list.push(kept_of(facts, reads)?)?;
    Ok(())
}

/// Takes the one recipe of a set.
fn take_set(
    alloc: Global,
    files: &mut Files,
    set: &RecipeSet,
    all: &mut AllRecipes,
    notes: &mut Notes,
) -> Result<(), Mem> {
    let reads = files.begin(alloc);
    if let Some(facts) = set.facts().recipes.as_slice().first() {
        take_recipe(alloc, files, facts, set.store_of(0), reads, all, notes)?;
    }
    Ok(())
}

/// Passes over a recipe that is refused for its metadata: a version that isn't chosen may have values that are, for which a run doesn't ask.
fn passed_over(status: Status) -> Result<(), Status>
    ensures ok { OnOk result (is_failed_read status ≡ false) }
    ensures err { IfErr result (λ fault. fault ≡ status) }
{
    if is_of_metadata(&status) {
        Ok(())
    } else {
        Err(status)
    }
}

/// Whether a status is a fault of the metadata.
fn is_of_metadata(status: &Status) -> bool
    ensures { IsTrue result → is_failed_read status.now ≡ false }
{
    match status {
        Status::Metadata { .. } => true,
        _ => false,
    }
}

/// Reads each recipe of a configuration by itself, and remarks on it. The configuration's lists are used up.
pub(crate) fn read_each<L: Layers>(
    alloc: Global,
    layers: &mut Watched<L>,
    config: &mut Config,
    notes: &mut Notes,
) -> Result<AllRecipes, Status>
    ensures same { SameFiles L.files layers.old.inner layers.new.inner }
    ensures cause { Counts (L.faults layers.old.inner) (L.faults layers.new.inner) (mode_failed result) }
{
    let mut all = AllRecipes {
        list: Vec::new(alloc),
        set: BTreeMap::new(alloc),
        tasks: BTreeMap::new(alloc),
    };
    let recipes = std::mem::replace(&mut config.recipes, Texts::new(alloc));
    let appends = std::mem::replace(&mut config.appends, Texts::new(alloc));
    for recipe in recipes.as_slice().chunks(1) {
        match read_some(alloc, layers, config, recipe, appends.as_slice()) {
            Ok(set) => or_status(take_set(alloc, &mut layers.files, &set, &mut all, notes))?,
            Err(status) => {
                passed_over(status)?;
                layers.files.begin(alloc);
            }
        }
    }
    Ok(all)
}

/// Reads some recipes of a configuration by themselves; the configuration's lists are used up.
pub(crate) fn read_some<L: Layers>(
    alloc: Global,
    layers: &mut L,
    config: &mut Config,
    recipes: &[Text],
    appends: &[Text],
) -> Result<RecipeSet, Status>
    ensures same { SameFiles L.files layers.old layers.new }
    ensures cause { Counts (L.faults layers.old) (L.faults layers.new) (mode_failed result) }
{
    config.appends = or_status(appends_for(alloc, recipes, appends))?;
    config.recipes = or_status(as_texts(alloc, recipes))?;
    read_recipes(alloc, layers, config)
}
