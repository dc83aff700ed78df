// All that is read for a recipe.
ghost use Rattle.std.specs.Prelude.{◌≡◌, Ok, IfOk, IfErr};
ghost use Rattle.meta_model.specs.declared.line.Kind.TheVariants.{Recipe as RecipeFile};
ghost use Rattle.outside_traits.specs.Fault.{Counts};
ghost use Rattle.outside_traits.specs.Store.{SameFiles};
ghost use Rattle.load_model.specs.Loading.{sources_of, with_lines, entries};
ghost use Rattle.load_model.specs.Recipes as recipes;
ghost use Rattle.class_inherit.specs.Faults.{IsLoadFault, load_failed};
ghost use Rattle.recipe_set.specs.Names.{name_meant};
ghost use Rattle.load_model.specs.Recipes.{classes_read, files_read, entries_with};

use crate::entries::{at_file, start_of};
use crate::names::FileName;
use class_inherit::{LoadFault, Reading, out_of_memory};
use datastore::SharedStore;
use meta_model::Kind;
use outside_traits::Layers;
use std::alloc::Global;
use tree_model::Text;

/// Class `base`, where it is there, and the classes of INHERIT.
fn with_classes<L: Layers>(
    alloc: Global,
    layers: &mut L,
    reading: Reading,
) -> Result<Reading, LoadFault>
    ensures ok { IfOk result (λ made. L.tells → classes_read (sources_of (L.files layers.old)) reading ≡ Ok made) }
    ensures err { IfErr result (λ fault. L.tells → IsLoadFault fault
        (classes_read (sources_of (L.files layers.old)) reading)) }
    ensures same { SameFiles L.files layers.old layers.new }
    ensures cause { Counts (L.faults layers.old) (L.faults layers.new) (load_failed result) }
{
    match reading.class(alloc, layers, "base", false) {
        Ok(based) => based.inherit(alloc, layers),
        Err(fault) => Err(fault),
    }
}

/// One append, with its own FILE and THISDIR (own rule).
fn with_append<L: Layers>(
    alloc: Global,
    layers: &mut L,
    reading: Reading,
    append: &str,
) -> Result<Reading, LoadFault>
    ensures ok { IfOk result (λ made. L.tells → entries (sources_of (L.files layers.old)) RecipeFile append.now
        (with_lines (recipes.file_lines append.now) reading) ≡ Ok made) }
    ensures err { IfErr result (λ fault. L.tells → IsLoadFault fault
        (entries (sources_of (L.files layers.old)) RecipeFile append.now
        (with_lines (recipes.file_lines append.now) reading))) }
    ensures same { SameFiles L.files layers.old layers.new }
    ensures cause { Counts (L.faults layers.old) (L.faults layers.new) (load_failed result) }
{
    match at_file(alloc, reading, append) {
        Ok(next) => next.file(alloc, layers, append, Kind::Recipe),
        Err(_) => Err(out_of_memory(alloc)),
    }
}

/// The appends of a recipe, in order.
fn with_appends<L: Layers>(
    alloc: Global,
    layers: &mut L,
    first: Reading,
    appends: &[Text],
) -> Result<Reading, LoadFault>
    ensures ok { IfOk result (λ made. L.tells → recipes.appended (sources_of (L.files layers.old)) appends.now first
        ≡ Ok made) }
    ensures err { IfErr result (λ fault. L.tells → IsLoadFault fault
        (recipes.appended (sources_of (L.files layers.old)) appends.now first)) }
    ensures same { SameFiles L.files layers.old layers.new }
    ensures cause { Counts (L.faults layers.old) (L.faults layers.new) (load_failed result) }
{
    let mut reading = first;
    for append in appends {
        reading = match with_append(alloc, layers, reading, append.as_str()) {
            Ok(next) => next,
            Err(fault) => return Err(fault),
        };
    }
    Ok(reading)
}

/// The recipe's file and its appends, and FILE and THISDIR of the recipe again.
fn with_files<L: Layers>(
    alloc: Global,
    layers: &mut L,
    reading: Reading,
    path: &str,
    appends: &[Text],
) -> Result<Reading, LoadFault>
    ensures ok { IfOk result (λ made. L.tells → files_read (sources_of (L.files layers.old)) path.now appends.now
        reading ≡ Ok made) }
    ensures err { IfErr result (λ fault. L.tells → IsLoadFault fault
        (files_read (sources_of (L.files layers.old)) path.now appends.now reading)) }
    ensures same { SameFiles L.files layers.old layers.new }
    ensures cause { Counts (L.faults layers.old) (L.faults layers.new) (load_failed result) }
{
    let own = match reading.file(alloc, layers, path, Kind::Recipe) {
        Ok(own) => own,
        Err(fault) => return Err(fault),
    };
    let whole = match with_appends(alloc, layers, own, appends) {
        Ok(whole) => whole,
        Err(fault) => return Err(fault),
    };
    match at_file(alloc, whole, path) {
        Ok(made) => Ok(made),
        Err(_) => Err(out_of_memory(alloc)),
    }
}

/// The entries of a recipe over the configuration, with these appends.
pub(crate) fn loaded<L: Layers>(
    alloc: Global,
    layers: &mut L,
    config: &SharedStore,
    path: &str,
    name: &FileName,
    appends: &[Text],
) -> Result<Reading, LoadFault>
    ensures ok { IfOk result (λ made. L.tells → entries_with (sources_of (L.files layers.old)) config.now path.now
        (name_meant name.now) appends.now ≡ Ok made) }
    ensures err { IfErr result (λ fault. L.tells → IsLoadFault fault
        (entries_with (sources_of (L.files layers.old)) config.now path.now (name_meant name.now) appends.now)) }
    ensures same { SameFiles L.files layers.old layers.new }
    ensures cause { Counts (L.faults layers.old) (L.faults layers.new) (load_failed result) }
{
    let start = match start_of(alloc, config, path, name) {
        Ok(start) => start,
        Err(_) => return Err(out_of_memory(alloc)),
    };
    match with_classes(alloc, layers, start) {
        Ok(inherited) => with_files(alloc, layers, inherited, path, appends),
        Err(fault) => Err(fault),
    }
}
