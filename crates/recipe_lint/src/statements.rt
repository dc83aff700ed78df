// What is remarked on the statements of a file, each for itself.

use crate::effects::Effect;
use crate::files::{Files, Place, SourceFile, first_part};
use crate::flags::{effect_of, effect_of_flag, meant_flag};
use crate::kind::RemarkKind;
use crate::names::{Known, is_capital_name};
use crate::near::Near;
use crate::notes::Notes;
use crate::orders::{Tasks, check_flag_of_task, check_order};
use crate::spelling::new_spelling;
use meta_model::Statement;
use std::alloc::Global;
use tree_model::Mem;
use value_maps::Names;

/// Remarks on a name in the old spelling of overrides.
fn check_spelling(
    alloc: Global,
    place: &Place<'_>,
    name: &str,
    notes: &mut Notes,
) -> Result<(), Mem> {
    let Some(now) = new_spelling(alloc, name)? else {
        return Ok(());
    };
    let words = format!(in alloc;
        "{name} has the old spelling of overrides and is a name like others here; write {}",
        now.as_str()
    )?;
    notes.add(alloc, place, RemarkKind::OldOverride, words, "")
}

/// Remarks on something that has no effect.
fn check_effect(
    alloc: Global,
    place: &Place<'_>,
    name: &str,
    row: Option<&Effect>,
    notes: &mut Notes,
) -> Result<(), Mem> {
    let Some(row) = row else {
        return Ok(());
    };
    let words = format!(in alloc; "{name} has no effect here: {}", row.instead)?;
    notes.add(alloc, place, RemarkKind::NoEffect, words, "")
}

/// Remarks on an assignment to a name.
fn check_name(
    alloc: Global,
    place: &Place<'_>,
    known: &Known,
    name: &str,
    notes: &mut Notes,
) -> Result<(), Mem> {
    check_spelling(alloc, place, name, notes)?;
    let first = first_part(name);
    // (what a value refers to, or a form asks for, has the effect that the project gives it)
    if known.referred.get(first).is_some() || known.asked.get(first).is_some() {
        return Ok(());
    }
    check_effect(alloc, place, first, effect_of(first.as_bytes()), notes)
}

/// Remarks on an assignment to a flag.
fn check_flag(
    alloc: Global,
    place: &Place<'_>,
    tasks: &Tasks<'_>,
    name: &str,
    flag: &str,
    notes: &mut Notes,
) -> Result<(), Mem> {
    check_effect(alloc, place, flag, effect_of_flag(flag), notes)?;
    let meant = meant_flag(alloc, flag)?;
    if !meant.is_empty() {
        let words = format!(in alloc; "nothing reads the flag {flag}; there is {meant}")?;
        notes.add(alloc, place, RemarkKind::UnknownFlag, words, "")?;
    }
    check_flag_of_task(alloc, place, tasks, name, flag, notes)
}

/// Remarks on a statement.
fn check_statement(
    alloc: Global,
    place: &Place<'_>,
    known: &Known,
    tasks: &Tasks<'_>,
    statement: &Statement,
    notes: &mut Notes,
) -> Result<(), Mem> {
    match statement {
        Statement::Assign { name, .. } => check_name(alloc, place, known, name.as_str(), notes),
        Statement::Function { name, .. } => check_spelling(alloc, place, name.as_str(), notes),
        Statement::Flag { name, flag, .. } => {
            check_flag(alloc, place, tasks, name.as_str(), flag.as_str(), notes)
        }
        Statement::AddTask { after, before, .. } => {
            check_order(alloc, place, tasks, "after", after.as_slice(), notes)?;
            check_order(alloc, place, tasks, "before", before.as_slice(), notes)
        }
        _ => Ok(()),
    }
}

/// Remarks on the statements of a file.
fn check_file(
    alloc: Global,
    file: &SourceFile,
    known: &Known,
    all: &Names,
    notes: &mut Notes,
) -> Result<(), Mem> {
    let there = if file.is_shared { all } else { &file.tasks };
    let tasks = Tasks {
        there,
        dropped: &known.dropped,
    };
    for (line, statement) in file.statements.as_slice() {
        let place = file.at(*line);
        check_statement(alloc, &place, known, &tasks, statement, notes)?;
    }
    Ok(())
}

/// Remarks on the statements of all files, where these tasks are those of all recipes.
pub(crate) fn check_files(
    alloc: Global,
    files: &Files,
    known: &Known,
    tasks: &Names,
    notes: &mut Notes,
) -> Result<(), Mem> {
    for file in files.all() {
        check_file(alloc, file, known, tasks, notes)?;
    }
    Ok(())
}

/// Remarks on a name that is set nowhere.
fn check_unset(
    alloc: Global,
    place: &Place<'_>,
    known: &Known,
    name: &str,
    notes: &mut Notes,
) -> Result<(), Mem> {
    let mut near = Near::to(name);
    for (other, _) in &known.set {
        // (there may be thousands, and a first letter is seldom wrong)
        if other.as_bytes().first() == name.as_bytes().first() {
            near.look(alloc, other.as_str())?;
        }
    }
    let words = match near.best() {
        "" => format!(in alloc; "{name} is set nowhere, so ${{{name}}} stays as it stands")?,
        best => format!(in alloc;
            "{name} is set nowhere, so ${{{name}}} stays as it stands; {best} is set"
        )?,
    };
    notes.add(alloc, place, RemarkKind::UnsetName, words, "")
}

/// Remarks on names in values that are set nowhere, each at the first place.
pub(crate) fn check_names(
    alloc: Global,
    files: &Files,
    known: &Known,
    notes: &mut Notes,
) -> Result<(), Mem> {
    for (name, at) in &known.referred {
        let (number, line) = *at;
        let name = name.as_str();
        if is_capital_name(name)
            && known.set.get(name).is_none()
            && let Some(file) = files.get(number)
        {
            check_unset(alloc, &file.at(line), known, name, notes)?;
        }
    }
    Ok(())
}
