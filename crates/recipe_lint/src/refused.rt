// The recipes that are refused beside the first.
ghost use Rattle.outside_traits.specs.Store.{SameFiles};

use crate::recipes::read_some;
use layer_conf::Config;
use meta_model::Status;
use outside_traits::Layers;
use project_reading::{or_status, read_config};
use std::alloc::Global;
use tree_model::{Mem, Text, Texts};

/// How many recipes are read at once: each reading costs what the configuration does.
const AT_ONCE: usize = 32;

/// Whether two texts' lists are the same.
fn are_same(some: &[Text], others: &[Text]) -> bool {
    some.len() == others.len()
        && some
            .iter()
            .zip(others)
            .all(|(one, other)| one.as_str() == other.as_str())
}

/// Whether both are the same fault of the metadata.
fn is_same(one: &Status, other: &Status) -> bool {
    match (one, other) {
        (
            Status::Metadata {
                file,
                line,
                kind,
                detail,
            },
            Status::Metadata {
                file: other_file,
                line: other_line,
                kind: other_kind,
                detail: others,
            },
        ) => {
            file.as_str() == other_file.as_str()
                && line == other_line
                && kind.as_str() == other_kind.as_str()
                && are_same(detail.as_slice(), others.as_slice())
        }
        _ => false,
    }
}

/// Whether a recipe alone can be refused so. A value without a line is asked for of chosen recipes alone, and where no file is at fault
/// none of the recipes is.
fn is_own_fault(status: &Status) -> bool {
    match status {
        Status::Metadata {
            file,
            line,
            kind,
            ..
        } => !file.as_str().is_empty() && (*line > 0 || kind.as_str() == "BadName"),
        _ => false,
    }
}

/// Puts a fault at the end, where it is new.
fn put(list: &mut Vec<Status>, first: &Status, status: Status) -> Result<(), Mem> {
    let is_known = is_same(first, &status) || list.iter().any(|known| is_same(known, &status));
    if is_own_fault(&status) && !is_known {
        list.push(status)?;
    }
    Ok(())
}

/// Puts the faults of some recipes by themselves at the end.
fn put_faults<L: Layers>(
    list: &mut Vec<Status>,
    alloc: Global,
    layers: &mut L,
    config: &mut Config,
    first: &Status,
    recipes: &[Text],
    appends: &[Text],
) -> Result<(), Status>
    ensures same { SameFiles L.files layers.old layers.new }
{
    for recipe in recipes.chunks(1) {
        match read_some(alloc, layers, config, recipe, appends) {
            Err(status) => or_status(put(list, first, status))?,
            Ok(_) => {}
        }
    }
    Ok(())
}

/// The faults of recipes by themselves. Reading some at once shows whether one of them has a fault.
fn faults_of<L: Layers>(
    alloc: Global,
    layers: &mut L,
    config: &mut Config,
    first: &Status,
) -> Result<Vec<Status>, Status>
    ensures same { SameFiles L.files layers.old layers.new }
{
    let recipes = std::mem::replace(&mut config.recipes, Texts::new(alloc));
    let appends = std::mem::replace(&mut config.appends, Texts::new(alloc));
    let mut made = Vec::new(alloc);
    for some in recipes.as_slice().chunks(AT_ONCE) {
        if read_some(alloc, layers, config, some, appends.as_slice()).is_err() {
            put_faults(
                &mut made,
                alloc,
                layers,
                config,
                first,
                some,
                appends.as_slice(),
            )?;
        }
    }
    Ok(made)
}

/// The faults of recipes beside the first, which a run or a mode was refused with, each once and in the order of the recipes' paths; none
/// where the first isn't a fault in a file of a recipe.
///
/// The project is read anew, and each recipe by itself. Refused as reading the configuration is. No call changes a file.
pub fn refused_recipes<L: Layers>(
    alloc: Global,
    layers: &mut L,
    first: &Status,
) -> Result<Vec<Status>, Status>
    ensures same { SameFiles L.files layers.old layers.new }
{
    if !is_own_fault(first) {
        return Ok(Vec::new(alloc));
    }
    match read_config(alloc, layers) {
        Ok(config) => {
            let mut config = config;
            faults_of(alloc, layers, &mut config, first)
        }
        // (the configuration is at fault, and no recipe was read)
        Err(_) => Ok(Vec::new(alloc)),
    }
}
