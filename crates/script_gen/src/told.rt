// The names that a script tells, with their values.
ghost use Rattle.std.specs.Prelude.{◌≡◌, IfOk, IfErr, OnOk, Ok, map};
ghost use Rattle.meta_model.specs.Text.{in_byte_order, into_order};
ghost use Rattle.task_model.specs.Views.{has_flag};
ghost use Rattle.task_model.specs.Scripts.{is_told, known, told_names, told_values};
ghost use Rattle.script_gen.specs.Faults.{IsScriptFault};
ghost use Rattle.script_gen.specs.Steps.{told_value, taken_up};

use crate::fault::ScriptFault;
use crate::sight::Sight;
use meta_model::{KeyLine, is_shell_name};
use name_walk::place_of;
use std::alloc::Global;
use tree_model::{ListOf, Mem, Text};
use var_deps::flag_of;
use var_expand::{ExpandFault, Lookup, value};

/// Whether a name has a value and the flag. A name of which nothing can be found has none.
fn is_flagged<L: Sight>(alloc: Global, from: &L, flag: &str, name: &str) -> Result<bool, Mem>
    ensures { IfOk result (λ made. made ≡ has_flag flag.now (known ((L.finds from.now).at name.now))) }
{
    if from.lacks(name, flag) {
        return Ok(false);
    }
    match from.find(alloc, name) {
        Ok(Some(found)) => Ok(flag_of(&found, flag).is_some()),
        Ok(None) => Ok(false),
        Err(ExpandFault::Memory) => Err(Mem),
        Err(_) => Ok(false),
    }
}

/// Whether a name is a shell name that has a value and the flag.
fn is_told<L: Sight>(alloc: Global, from: &L, flag: &str, name: &str) -> Result<bool, Mem>
    ensures { IfOk result (λ made. made ≡ is_told flag.now (L.finds from.now) name.now) }
{
    if !is_shell_name(name.as_bytes()) {
        return Ok(false);
    }
    is_flagged(alloc, from, flag, name)
}

/// Puts a name into its place among names in byte order, where it isn't there yet.
fn put_in_order(names: &mut Vec<Text>, name: Text) -> Result<(), Mem>
    requires { in_byte_order names.old.items ≡ names.old.items }
    ensures { OnOk result (names.new.items ≡ into_order names.old.items name) }
{
    match place_of(names.as_slice(), name.as_str()) {
        Ok(_) => Ok(()),
        Err(place) => Ok(names.insert(place, name)?),
    }
}

/// Takes a name up that is told.
fn take_up<L: Sight>(
    alloc: Global,
    from: &L,
    flag: &str,
    names: &mut Vec<Text>,
    name: &Text,
) -> Result<(), Mem>
    requires { in_byte_order names.old.items ≡ names.old.items }
    ensures { OnOk result (names.new.items ≡ taken_up (is_told flag.now (L.finds from.now)) names.old.items name.now) }
{
    if is_told(alloc, from, flag, name.as_str())? {
        return put_in_order(names, name.copy()?);
    }
    Ok(())
}

/// Those of the names that are shell names with a value and the flag, in byte order.
pub(crate) fn told_names<L: Sight>(
    alloc: Global,
    from: &L,
    flag: &str,
    names: &[Text],
) -> Result<Vec<Text>, Mem>
    ensures { IfOk result (λ made. made.items ≡ told_names flag.now (L.finds from.now) names.now) }
{
    let mut told = Vec::new(alloc);
    for name in names {
        take_up(alloc, from, flag, &mut told, name)?;
    }
    Ok(told)
}

/// The same of the names of lines.
pub(crate) fn told_lines<L: Sight>(
    alloc: Global,
    from: &L,
    flag: &str,
    lines: &[KeyLine],
) -> Result<Vec<Text>, Mem>
    ensures { IfOk result (λ made. made.items ≡ told_names flag.now (L.finds from.now)
        (map (λ line. line.name) lines.now)) }
{
    let mut told = Vec::new(alloc);
    for line in lines {
        take_up(alloc, from, flag, &mut told, &line.name)?;
    }
    Ok(told)
}

/// The expanded value of a name, empty where it has none.
fn told_text<L: Lookup>(alloc: Global, from: &L, name: &str) -> Result<Text, ScriptFault>
    ensures ok { IfOk result (λ made. told_value (L.finds from.now) name.now ≡ Ok (name.now, made)) }
    ensures err { IfErr result (λ fault. IsScriptFault fault (told_value (L.finds from.now) name.now)) }
{
    let text = value(alloc, name, from)?;
    Ok(text.unwrap_or(Text::new(alloc)))
}

/// A name with its expanded value.
fn told_value<L: Lookup>(alloc: Global, from: &L, name: &Text) -> Result<(Text, Text), ScriptFault>
    ensures ok { IfOk result (λ made. told_value (L.finds from.now) name.now ≡ Ok made) }
    ensures err { IfErr result (λ fault. IsScriptFault fault (told_value (L.finds from.now) name.now)) }
{
    let text = told_text(alloc, from, name.as_str())?;
    Ok((name.copy()?, text))
}

/// Names with their expanded values.
pub(crate) fn told_values<L: Lookup>(
    alloc: Global,
    from: &L,
    names: &[Text],
) -> Result<ListOf<(Text, Text)>, ScriptFault>
    ensures ok { IfOk result (λ made. told_values (L.finds from.now) names.now ≡ Ok made) }
    ensures err { IfErr result (λ fault. IsScriptFault fault (told_values (L.finds from.now) names.now)) }
{
    let mut list = ListOf::new(alloc);
    for name in names {
        list.push(told_value(alloc, from, name)?)?;
    }
    Ok(list)
}
