// The entries that a recipe has of its own: its name and its file.
ghost use Rattle.std.specs.Prelude.{◌≡◌, ◌++◌, IfOk};
ghost use Rattle.meta_model.specs.declared.entry.Op.TheVariants.{Set as Assigned};
ghost use Rattle.meta_model.specs.declared.entry.EntryLine.TheVariants.{Set};
ghost use Rattle.load_model.specs.Layers.{starting_with};
ghost use Rattle.load_model.specs.Loading.{with_lines};
ghost use Rattle.load_model.specs.Recipes as recipes;
ghost use Rattle.recipe_set.specs.Names.{name_meant};

use crate::names::FileName;
use class_inherit::Reading;
use datastore::SharedStore;
use meta_model::{EntryLine, Op};
use path_words::folder_of;
use std::alloc::Global;
use tree_model::{Mem, Text};

/// An assignment by `=`.
fn assigned(alloc: Global, name: &str, text: &str) -> Result<EntryLine, Mem>
    ensures { IfOk result (λ made. made ≡ Set name.now Assigned text.now) }
{
    Ok(EntryLine::Set {
        name: Text::from_str(alloc, name)?,
        op: Op::Set,
        text: Text::from_str(alloc, text)?,
    })
}

/// FILE and THISDIR of a file that is read.
fn file_lines(alloc: Global, path: &str) -> Result<Vec<EntryLine>, Mem>
    ensures { IfOk result (λ made. made.items ≡ recipes.file_lines path.now) }
{
    let mut made = Vec::new(alloc);
    made.push(assigned(alloc, "FILE", path)?)?;
    made.push(assigned(alloc, "THISDIR", folder_of(path))?)?;
    Ok(made)
}

/// PN, PV and PR of a recipe's file.
fn name_lines(alloc: Global, name: &FileName) -> Result<Vec<EntryLine>, Mem>
    ensures { IfOk result (λ made. made.items ≡ recipes.name_lines (name_meant name.now)) }
{
    let mut made = Vec::new(alloc);
    made.push(assigned(alloc, "PN", name.pn.as_str())?)?;
    made.push(assigned(alloc, "PV", name.pv.as_str())?)?;
    made.push(assigned(alloc, "PR", name.pr.as_str())?)?;
    Ok(made)
}

/// What was read, with FILE and THISDIR of a file behind it.
pub(crate) fn at_file(alloc: Global, reading: Reading, path: &str) -> Result<Reading, Mem>
    ensures { IfOk result (λ made. made ≡ with_lines (recipes.file_lines path.now) reading) }
{
    let lines = file_lines(alloc, path)?;
    reading.lines(alloc, lines.as_slice())
}

/// What is there before the first file of a recipe is read: the configuration, and the recipe's name and file.
pub(crate) fn start_of(
    alloc: Global,
    config: &SharedStore,
    path: &str,
    name: &FileName,
) -> Result<Reading, Mem>
    ensures { IfOk result (λ made. made ≡ starting_with
        (config.now ++ (recipes.name_lines (name_meant name.now) ++ recipes.file_lines path.now))) }
{
    let lines = name_lines(alloc, name)?;
    let named = Reading::new(alloc, config.top(alloc)?).lines(alloc, lines.as_slice())?;
    at_file(alloc, named, path)
}
