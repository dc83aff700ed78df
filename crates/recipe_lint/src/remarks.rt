// The remarks on a project.
ghost use Rattle.std.specs.Prelude.{◌≡◌, ◌≤◌, length, false};
ghost use Rattle.outside_traits.specs.Fault.{Counts};
ghost use Rattle.outside_traits.specs.Store.{SameFiles};
ghost use Rattle.project_reading.specs.Answered.{mode_failed};

use crate::config::{check_environment, check_local, check_providers, check_twins, check_versions};
use crate::files::Files;
use crate::names::known_of;
use crate::notes::Notes;
use crate::recipes::{AllRecipes, ReadRecipe, read_each};
use crate::remark::Remark;
use crate::statements::{check_files, check_names};
use crate::targets::files_of;
use crate::watched::Watched;
use datastore::DataFault;
use layer_conf::Config;
use meta_model::{FactSet, Status};
use outside_traits::{Layers, ReadFault};
use project_reading::{or_status, read_config, read_recipes};
use recipe_facts::{Wishes, wishes_of, words_of};
use std::alloc::Global;
use tree_model::{Mem, Text, Texts};

/// The kinds that the configuration switches off: the words of BB_LINT_SKIP; none where its value is refused.
fn skipped(alloc: Global, config: &Config) -> Result<Texts, Mem> {
    match words_of(alloc, &config.store, "BB_LINT_SKIP") {
        Ok(words) => Ok(words),
        Err(DataFault::Memory) => Err(Mem),
        Err(_) => Ok(Texts::new(alloc)),
    }
}

/// What the configuration says of recipes, which was asked for before.
fn wished(alloc: Global, config: &Config) -> Result<Wishes, Mem> {
    match wishes_of(alloc, &config.store) {
        Ok(wishes) => Ok(wishes),
        Err(_) => Err(Mem),
    }
}

/// The paths that begin as that of `conf/local.conf` does.
fn local_paths<L: Layers>(alloc: Global, layers: &mut L) -> Result<Texts, Status>
    ensures same { SameFiles L.files layers.old layers.new }
    ensures cause { Counts (L.faults layers.old) (L.faults layers.new) (mode_failed result) }
{
    match layers.list(alloc, "conf/local.conf") {
        Ok(paths) => Ok(paths),
        Err(ReadFault::Failed) => Err(Status::ReadFault),
        Err(_) => Err(Status::OutOfMemory),
    }
}

/// Remarks on what all files and recipes say together.
fn check_all(
    alloc: Global,
    files: &Files,
    wishes: &Wishes,
    all: AllRecipes,
    notes: &mut Notes,
) -> Result<Vec<ReadRecipe>, Mem> {
    let AllRecipes { list, set, tasks } = all;
    let known = known_of(alloc, files, set)?;
    check_files(alloc, files, &known, &tasks, notes)?;
    check_names(alloc, files, &known, notes)?;
    check_versions(alloc, files, wishes, list.as_slice(), notes)?;
    check_providers(alloc, files, wishes, list.as_slice(), notes)?;
    check_twins(alloc, files, list.as_slice(), notes)?;
    Ok(list)
}

/// What is asked for: the targets' words, and the names of the caller's variables.
#[derive(Clone, Copy)]
struct Asked<'t, 'e> {
    targets: &'t [Text],
    environment: &'e [Text],
}

/// Remarks on what needs no recipe's entries any more, and all recipes.
fn check_rest(
    alloc: Global,
    files: &Files,
    wishes: &Wishes,
    all: AllRecipes,
    paths: &[Text],
    environment: &[Text],
    notes: &mut Notes,
) -> Result<Vec<ReadRecipe>, Mem> {
    check_local(alloc, files, paths, notes)?;
    check_environment(alloc, files, environment, notes)?;
    check_all(alloc, files, wishes, all, notes)
}

/// The remarks on the files of the targets, once all are made.
fn finished(
    alloc: Global,
    files: &Files,
    recipes: &[ReadRecipe],
    facts: &FactSet,
    targets: &[Text],
    notes: Notes,
) -> Result<Vec<Remark>, Status>
    requires { length facts.now.recipes ≤ 2000 }
    ensures no_failure { mode_failed result ≡ false }
{
    match files_of(alloc, files, recipes, facts, targets) {
        Ok(named) => or_status(notes.finish(alloc, &named)),
        Err(status) => Err(status),
    }
}

/// The remarks on a project of which all was read.
fn lint_read(
    alloc: Global,
    files: &Files,
    facts: &FactSet,
    wishes: &Wishes,
    all: AllRecipes,
    paths: &[Text],
    asked: Asked<'_, '_>,
    notes: Notes,
) -> Result<Vec<Remark>, Status>
    requires { length facts.now.recipes ≤ 2000 }
    ensures no_failure { mode_failed result ≡ false }
{
    let mut notes = notes;
    let rest = check_rest(
        alloc,
        files,
        wishes,
        all,
        paths,
        asked.environment,
        &mut notes,
    );
    match rest {
        Ok(recipes) => finished(
            alloc,
            files,
            recipes.as_slice(),
            facts,
            asked.targets,
            notes,
        ),
        Err(_) => Err(Status::OutOfMemory),
    }
}

/// The remarks on a project whose recipes were read one by one.
fn lint_recipes<L: Layers>(
    alloc: Global,
    layers: &mut Watched<L>,
    facts: &FactSet,
    wishes: &Wishes,
    all: AllRecipes,
    asked: Asked<'_, '_>,
    notes: Notes,
) -> Result<Vec<Remark>, Status>
    requires { length facts.now.recipes ≤ 2000 }
    ensures same { SameFiles L.files layers.old.inner layers.new.inner }
    ensures cause { Counts (L.faults layers.old.inner) (L.faults layers.new.inner) (mode_failed result) }
{
    match local_paths(alloc, layers) {
        Ok(paths) => lint_read(
            alloc,
            &layers.files,
            facts,
            wishes,
            all,
            paths.as_slice(),
            asked,
            notes,
        ),
        Err(status) => Err(status),
    }
}

/// The remarks on a project, where what its configuration wishes is known.
fn lint_wishes<L: Layers>(
    alloc: Global,
    layers: &mut Watched<L>,
    config: &mut Config,
    facts: &FactSet,
    wishes: &Wishes,
    asked: Asked<'_, '_>,
    notes: Notes,
) -> Result<Vec<Remark>, Status>
    requires { length facts.now.recipes ≤ 2000 }
    ensures same { SameFiles L.files layers.old.inner layers.new.inner }
    ensures cause { Counts (L.faults layers.old.inner) (L.faults layers.new.inner) (mode_failed result) }
{
    let mut notes = notes;
    match read_each(alloc, layers, config, &mut notes) {
        Ok(all) => lint_recipes(alloc, layers, facts, wishes, all, asked, notes),
        Err(status) => Err(status),
    }
}

/// No remarks yet, with the kinds that the configuration switches off, and what it wishes.
fn begun(alloc: Global, config: &Config) -> Result<(Notes, Wishes), Mem> {
    let notes = Notes::new(alloc, skipped(alloc, config)?);
    Ok((notes, wished(alloc, config)?))
}

/// The remarks on a project whose chosen recipes say this.
fn lint_set<L: Layers>(
    alloc: Global,
    layers: &mut Watched<L>,
    config: &mut Config,
    facts: &FactSet,
    asked: Asked<'_, '_>,
) -> Result<Vec<Remark>, Status>
    requires { length facts.now.recipes ≤ 2000 }
    ensures same { SameFiles L.files layers.old.inner layers.new.inner }
    ensures cause { Counts (L.faults layers.old.inner) (L.faults layers.new.inner) (mode_failed result) }
{
    match begun(alloc, config) {
        Ok((notes, wishes)) => {
            layers.files.begin(alloc);
            lint_wishes(alloc, layers, config, facts, &wishes, asked, notes)
        }
        Err(_) => Err(Status::OutOfMemory),
    }
}

/// The remarks on a project of this configuration.
fn lint_config<L: Layers>(
    alloc: Global,
    layers: &mut Watched<L>,
    config: &mut Config,
    asked: Asked<'_, '_>,
) -> Result<Vec<Remark>, Status>
    ensures same { SameFiles L.files layers.old.inner layers.new.inner }
    ensures cause { Counts (L.faults layers.old.inner) (L.faults layers.new.inner) (mode_failed result) }
{
    layers.files.share(alloc);
    match read_recipes(alloc, layers, config) {
        Ok(set) => lint_set(alloc, layers, config, set.facts(), asked),
        Err(status) => Err(status),
    }
}

/// The remarks on the project that these layers hold, or the status with which a run would be refused; with targets, those on the files
/// that the targets' recipes are read from. `environment` has the names of the caller's variables.
///
/// The configuration and all recipes are read as for a run, and then each recipe by itself. No call changes a file.
pub fn lint<L: Layers>(
    alloc: Global,
    layers: &mut Watched<L>,
    targets: &[Text],
    environment: &[Text],
) -> Result<Vec<Remark>, Status>
    ensures same { SameFiles L.files layers.old.inner layers.new.inner }
    ensures cause { Counts (L.faults layers.old.inner) (L.faults layers.new.inner) (mode_failed result) }
{
    match read_config(alloc, layers) {
        Ok(config) => {
            let mut config = config;
            let asked = Asked {
                targets,
                environment,
            };
            lint_config(alloc, layers, &mut config, asked)
        }
        Err(status) => Err(status),
    }
}
