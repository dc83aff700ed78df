// The entries that statements add.
ghost use Rattle.std.specs.Prelude.{◌≡◌, ◌∷◌, ◌++◌, [], IfOk, IfErr, OnOk, Ok, is_ok, true, map, codes};
ghost use Rattle.meta_model.specs.declared.entry.EntryLine.TheVariants as entry;
ghost use Rattle.meta_model.specs.declared.entry.Op.TheVariants as op;
ghost use Rattle.meta_model.specs.declared.statement.Statement.TheVariants as statement;
ghost use Rattle.meta_model.specs.Text.{space};
ghost use Rattle.meta_model.specs.Names as names;
ghost use Rattle.meta_model.specs.Entries as entries;
ghost use Rattle.datastore.specs.Faults.{IsDataFault, IsWantOfMemory};
ghost use Rattle.load_model.specs.Loading.{with_lines};
ghost use Rattle.class_inherit.specs.Adding.{added, assigned, exported_line};

use crate::late::{LateName, first_part, late_name};
use crate::reading::Reading;
use datastore::DataFault;
use meta_model::{EntryLine, Op, Statement};
use std::alloc::Global;
use tree_model::{Mem, Text, Texts};

/// A text with a blank in front of it.
fn behind_blank(alloc: Global, text: &str) -> Result<Text, Mem>
    ensures { IfOk result (λ made. made ≡ space ∷ text.now) }
{
    let mut made = Text::from_str(alloc, " ")?;
    made.push_str(text)?;
    Ok(made)
}

/// A text with a blank behind it.
fn before_blank(text: Text) -> Result<Text, Mem>
    ensures { IfOk result (λ made. made ≡ text ++ space ∷ []) }
{
    let mut made = text;
    made.push_str(" ")?;
    Ok(made)
}

/// The text of a late entry: with `+=` a blank stands in front of it, with `=+` behind it (own rule).
fn late_text(alloc: Global, op: Op, text: Text) -> Result<Text, Mem>
    ensures { IfOk result (λ made. made ≡ entries.late_text op text) }
{
    match op {
        Op::AddBlank => behind_blank(alloc, text.as_str()),
        Op::PutBlank => before_blank(text),
        Op::Set | Op::Now | Op::Soft | Op::Weak | Op::Add | Op::Put => Ok(text),
    }
}

/// An assignment to a late name.
fn later_line(alloc: Global, late: LateName, op: Op, text: Text) -> Result<EntryLine, Mem>
    ensures { IfOk result (λ made. made ≡ entry.Later late.target late.kind late.when (entries.late_text op text)) }
{
    let text = late_text(alloc, op, text)?;
    Ok(EntryLine::Later {
        target: late.target,
        kind: late.kind,
        when: late.when,
        text,
    })
}

/// An assignment to a name, which may be late.
fn assignment_line(alloc: Global, name: &str, op: Op, text: Text) -> Result<EntryLine, Mem>
    ensures { IfOk result (λ made. made ≡ entries.assignment_line name.now op text) }
{
    match late_name(alloc, name)? {
        Some(late) => later_line(alloc, late, op, text),
        None => {
            let name = Text::from_str(alloc, name)?;
            Ok(EntryLine::Set { name, op, text })
        }
    }
}

/// One more entry, which is given away.
fn give(alloc: Global, reading: &mut Reading, line: EntryLine) -> Result<(), Mem>
    ensures { OnOk result (reading.new ≡ with_lines (line ∷ []) reading.old) }
{
    reading.apply_line(alloc, line)
}

/// An assignment to a name, which may be late, and whose text is taken.
fn add_line(alloc: Global, reading: &mut Reading, name: &str, op: Op, text: Text) -> Result<(), Mem>
    ensures { OnOk result (reading.new ≡ with_lines (entries.assignment_line name.now op text ∷ []) reading.old) }
{
    match assignment_line(alloc, name, op, text) {
        Ok(line) => give(alloc, reading, line),
        Err(_) => Err(Mem),
    }
}

/// The flag of a name is `1`.
fn add_flag(alloc: Global, reading: &mut Reading, name: &str, flag: &str) -> Result<(), Mem>
    ensures { OnOk result (reading.new ≡ with_lines (entries.set_flag name.now flag.now ∷ []) reading.old) }
{
    let line = EntryLine::Flag {
        name: Text::from_str(alloc, name)?,
        flag: Text::from_str(alloc, flag)?,
        op: Op::Set,
        text: Text::from_str(alloc, "1")?,
    };
    give(alloc, reading, line)
}

/// A function: its body by `=`, and the flag `func` of its name up to the first colon.
fn add_function(alloc: Global, reading: &mut Reading, name: &str, body: &Text) -> Result<(), Mem>
    ensures { OnOk result (reading.new ≡ with_lines (entries.assignment_line name.now op.Set body.now
        ∷ entries.set_flag (names.first_part name.now) (codes "func") ∷ []) reading.old) }
{
    add_line(alloc, reading, name, Op::Set, body.copy()?)?;
    add_flag(alloc, reading, first_part(name), "func")
}

/// A name is unset.
fn add_unset(alloc: Global, reading: &mut Reading, name: &Text) -> Result<(), Mem>
    ensures { OnOk result (reading.new ≡ with_lines (entry.Unset name.now ∷ []) reading.old) }
{
    let line = EntryLine::Unset { name: name.copy()? };
    give(alloc, reading, line)
}

/// A flag of a name is unset.
fn add_unset_flag(alloc: Global, reading: &mut Reading, name: &Text, flag: &Text) -> Result<(), Mem>
    ensures { OnOk result (reading.new ≡ with_lines (entry.UnsetFlag name.now flag.now ∷ []) reading.old) }
{
    let line = EntryLine::UnsetFlag {
        name: name.copy()?,
        flag: flag.copy()?,
    };
    give(alloc, reading, line)
}

/// EXPORT_FUNCTIONS of one function of a class.
fn add_exported(alloc: Global, reading: &mut Reading, class: &str, name: &Text) -> Result<(), Mem>
    ensures { OnOk result (reading.new ≡ with_lines (entry.Exported class.now name.now ∷ []) reading.old) }
{
    let line = EntryLine::Exported {
        class: Text::from_str(alloc, class)?,
        name: name.copy()?,
    };
    give(alloc, reading, line)
}

/// EXPORT_FUNCTIONS of functions of a class.
fn add_exports(alloc: Global, reading: &mut Reading, class: &str, names: &Texts) -> Result<(), Mem>
    ensures { OnOk result (reading.new ≡ with_lines (map (entry.Exported class.now) names.now) reading.old) }
{
    for name in names.as_slice() {
        add_exported(alloc, reading, class, name)?;
    }
    Ok(())
}

/// One task with its order.
fn add_task(
    alloc: Global,
    reading: &mut Reading,
    task: &Text,
    after: &Texts,
    before: &Texts,
) -> Result<(), Mem>
    ensures { OnOk result (reading.new ≡ with_lines (entry.Task task.now after.now before.now ∷ []) reading.old) }
{
    let line = EntryLine::Task {
        task: task.copy()?,
        after: after.copy()?,
        before: before.copy()?,
    };
    give(alloc, reading, line)
}

/// Tasks with their order.
fn add_tasks(
    alloc: Global,
    reading: &mut Reading,
    names: &Texts,
    after: &Texts,
    before: &Texts,
) -> Result<(), Mem>
    ensures { OnOk result (reading.new ≡ with_lines (map (λ name. entry.Task name after.now before.now) names.now)
        reading.old) }
{
    for name in names.as_slice() {
        add_task(alloc, reading, name, after, before)?;
    }
    Ok(())
}

/// One task is taken away.
fn add_no_task(alloc: Global, reading: &mut Reading, task: &Text) -> Result<(), Mem>
    ensures { OnOk result (reading.new ≡ with_lines (entry.NoTask task.now ∷ []) reading.old) }
{
    let line = EntryLine::NoTask { task: task.copy()? };
    give(alloc, reading, line)
}

/// Tasks are taken away.
fn add_no_tasks(alloc: Global, reading: &mut Reading, names: &Texts) -> Result<(), Mem>
    ensures { OnOk result (reading.new ≡ with_lines (map entry.NoTask names.now) reading.old) }
{
    for name in names.as_slice() {
        add_no_task(alloc, reading, name)?;
    }
    Ok(())
}

/// The operator and text of an assignment: `:=` sets its text, expanded over the entries so far ("Immediate variable
/// expansion (:=)"); the others take it as it stands.
fn taken(alloc: Global, reading: &Reading, op: Op, text: &Text) -> Result<(Op, Text), DataFault>
    ensures ok { IfOk result (λ made. entries.taken reading.now.lines op text.now ≡ Ok made) }
    ensures err { IfErr result (λ fault. IsDataFault fault (entries.taken reading.now.lines op text.now)) }
{
    match op {
        Op::Now => match reading.expand(alloc, text.as_str()) {
            Ok(expanded) => Ok((Op::Set, expanded)),
            Err(fault) => Err(fault),
        },
        Op::Set | Op::Soft | Op::Weak | Op::AddBlank | Op::PutBlank | Op::Add | Op::Put => {
            match text.copy() {
                Ok(text) => Ok((op, text)),
                Err(_) => Err(DataFault::Memory),
            }
        }
    }
}

/// An assignment whose text is taken, and the flag of a name that is exported.
fn add_taken(
    alloc: Global,
    reading: &mut Reading,
    export: bool,
    name: &str,
    op: Op,
    text: Text,
) -> Result<(), Mem>
    ensures { OnOk result (reading.new ≡ with_lines (assigned export name.now op text) reading.old) }
{
    add_line(alloc, reading, name, op, text)?;
    if export {
        add_flag(alloc, reading, name, "export")
    } else {
        Ok(())
    }
}

/// An assignment to a name.
pub(crate) fn add_assignment(
    alloc: Global,
    reading: &mut Reading,
    export: bool,
    name: &str,
    op: Op,
    text: &Text,
) -> Result<(), DataFault>
    ensures ok { OnOk result (added reading.old (entries.lines_of [] reading.old.lines
        (statement.Assign export name.now op text.now)) ≡ Ok reading.new) }
    ensures err { IfErr result (λ fault. IsDataFault fault
        (entries.lines_of [] reading.old.lines (statement.Assign export name.now op text.now))) }
{
    let (op, text) = taken(alloc, reading, op, text)?;
    told(add_taken(alloc, reading, export, name, op, text))
}

/// An assignment to a flag whose text is taken.
fn add_taken_flag(
    alloc: Global,
    reading: &mut Reading,
    name: &Text,
    flag: &Text,
    op: Op,
    text: Text,
) -> Result<(), Mem>
    ensures { OnOk result (reading.new ≡ with_lines (entry.Flag name.now flag.now op text ∷ []) reading.old) }
{
    let line = EntryLine::Flag {
        name: name.copy()?,
        flag: flag.copy()?,
        op,
        text,
    };
    give(alloc, reading, line)
}

/// An assignment to a flag.
pub(crate) fn add_flag_assignment(
    alloc: Global,
    reading: &mut Reading,
    name: &Text,
    flag: &Text,
    op: Op,
    text: &Text,
) -> Result<(), DataFault>
    ensures ok { OnOk result (added reading.old (entries.lines_of [] reading.old.lines
        (statement.Flag name.now flag.now op text.now)) ≡ Ok reading.new) }
    ensures err { IfErr result (λ fault. IsDataFault fault
        (entries.lines_of [] reading.old.lines (statement.Flag name.now flag.now op text.now))) }
{
    let (op, text) = taken(alloc, reading, op, text)?;
    told(add_taken_flag(alloc, reading, name, flag, op, text))
}

/// The same answer with want of memory as a fault of a store.
fn told(done: Result<(), Mem>) -> Result<(), DataFault>
    ensures ok { OnOk result (is_ok done ≡ true) }
    ensures err { IfErr result IsWantOfMemory }
{
    match done {
        Ok(()) => Ok(()),
        Err(_) => Err(DataFault::Memory),
    }
}

/// The entries that a statement adds to those before it, in a file whose class has this name. `include`, `require` and
/// `inherit` add none of their own.
///
/// It is refused exactly where the text of `:=` can't be expanded.
pub(crate) fn add_statement(
    alloc: Global,
    reading: &mut Reading,
    class: &str,
    statement: &Statement,
) -> Result<(), DataFault>
    ensures ok { OnOk result (added reading.old (entries.lines_of class.now reading.old.lines statement.now)
        ≡ Ok reading.new) }
    ensures err { IfErr result (λ fault. IsDataFault fault
        (entries.lines_of class.now reading.old.lines statement.now)) }
{
    match statement {
        Statement::Assign {
            export,
            name,
            op,
            text,
        } => add_assignment(alloc, reading, *export, name.as_str(), *op, text),
        Statement::Flag {
            name,
            flag,
            op,
            text,
        } => add_flag_assignment(alloc, reading, name, flag, *op, text),
        Statement::Export { name } => told(add_flag(alloc, reading, name.as_str(), "export")),
        Statement::Unset { name } => told(add_unset(alloc, reading, name)),
        Statement::UnsetFlag { name, flag } => told(add_unset_flag(alloc, reading, name, flag)),
        Statement::Function { name, body } => {
            told(add_function(alloc, reading, name.as_str(), body))
        }
        Statement::ExportFunctions { names } => told(add_exports(alloc, reading, class, names)),
        Statement::AddTask {
            names,
            after,
            before,
        } => told(add_tasks(alloc, reading, names, after, before)),
        Statement::DelTask { names } => told(add_no_tasks(alloc, reading, names)),
        Statement::Include { .. } | Statement::Require { .. } | Statement::Inherit { .. } => Ok(()),
    }
}
