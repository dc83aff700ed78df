// Maps from names to what stands for them.
ghost use Rattle.std.specs.Prelude.{◌≡◌, OnOk, IfOk, bytes_eq, if◌then◌else◌, is_some, Some, None, ℕ, List};
ghost use Rattle.std.specs.HashMap.{get_by_text};
ghost use Rattle.meta_model.specs.Text.{is_in};
ghost use Rattle.task_graph.specs.Only.{with_number as number_added, number_in};

use std::alloc::Global;
use std::collections::HashMap;
use tree_model::{Mem, Text};

/// What is kept of numbers of which only a single one matters.
#[derive(Clone, Copy)]
pub(crate) enum Only {
    /// There is this one alone.
    One(usize),
    /// There are several.
    Several,
}

/// The number, where there is one alone.
pub(crate) fn only_number(only: Option<Only>) -> Option<usize>
    ensures { result ≡ number_in only }
{
    match only {
        Some(Only::One(number)) => Some(number),
        Some(Only::Several) => None,
        None => None,
    }
}

/// One more number.
pub(crate) fn with_number(only: Option<Only>, number: usize) -> Only
    ensures { Some result ≡ number_added only number }
{
    match only {
        None => Only::One(number),
        Some(Only::One(other)) => {
            if other == number {
                Only::One(other)
            } else {
                Only::Several
            }
        }
        Some(Only::Several) => Only::Several,
    }
}

/// Notes a number for a name.
pub(crate) fn note(
    alloc: Global,
    map: &mut HashMap<String, Only>,
    name: &str,
    number: usize,
) -> Result<(), Mem>
    ensures { OnOk result ((q : List ℕ) → get_by_text map.new q
        ≡ (if bytes_eq name.now q then number_added (get_by_text map.old q) number else get_by_text map.old q)) }
{
    let next = with_number(map.get(name).copied(), number);
    map.insert(String::from_str(alloc, name)?, next)?;
    Ok(())
}

/// Notes a number for each of some names.
pub(crate) fn note_all(
    alloc: Global,
    map: &mut HashMap<String, Only>,
    names: &[Text],
    number: usize,
) -> Result<(), Mem>
    ensures { OnOk result ((q : List ℕ) → get_by_text map.new q
        ≡ (if is_in q names.now then number_added (get_by_text map.old q) number else get_by_text map.old q)) }
{
    for name in names {
        note(alloc, map, name.as_str(), number)?;
    }
    Ok(())
}

/// Notes a place for a name that has none yet.
pub(crate) fn note_first(
    alloc: Global,
    map: &mut HashMap<String, usize>,
    name: &str,
    place: usize,
) -> Result<(), Mem>
    ensures { OnOk result ((q : List ℕ) → get_by_text map.new q
        ≡ (if is_some (get_by_text map.old q) then get_by_text map.old q else
        (if bytes_eq name.now q then Some place else None))) }
{
    match map.get(name).copied() {
        Some(_) => Ok(()),
        None => {
            map.insert(String::from_str(alloc, name)?, place)?;
            Ok(())
        }
    }
}
