// Copies of entries.
ghost use Rattle.std.specs.Prelude.{◌≡◌, ◌++◌, ◌∷◌, [], IfOk, OnOk, filter};
ghost use Rattle.meta_model.specs.Frozen.{is_task_line};
ghost use Rattle.meta_model.specs.declared.entry.EntryLine.TheVariants.{Set, Later, Flag, UnsetFlag, Exported, Task};

use meta_model::{EntryLine, Late};
use tree_model::{Mem, Text, Texts};
use value_maps::{flag_line, push_line, set_line, unset_flag_line};

/// A late entry with these conditions and copies of these texts.
pub(crate) fn late_line(
    target: &Text,
    kind: Late,
    when: Texts,
    text: &Text,
) -> Result<EntryLine, Mem>
    ensures { IfOk result (λ made. made ≡ Later target.now kind when text.now) }
{
    let target = target.copy()?;
    let text = text.copy()?;
    Ok(EntryLine::Later {
        target,
        kind,
        when,
        text,
    })
}

/// EXPORT_FUNCTIONS with copies of these texts.
fn exported_line(class: &Text, name: &Text) -> Result<EntryLine, Mem>
    ensures { IfOk result (λ made. made ≡ Exported class.now name.now) }
{
    let class = class.copy()?;
    let name = name.copy()?;
    Ok(EntryLine::Exported { class, name })
}

/// A task with copies of these texts.
fn task_line(task: &Text, after: &Texts, before: &Texts) -> Result<EntryLine, Mem>
    ensures { IfOk result (λ made. made ≡ Task task.now after.now before.now) }
{
    let task = task.copy()?;
    let after = after.copy()?;
    let before = before.copy()?;
    Ok(EntryLine::Task {
        task,
        after,
        before,
    })
}

/// The same entry again.
pub(crate) fn copy_line(line: &EntryLine) -> Result<EntryLine, Mem>
    ensures { IfOk result (λ made. made ≡ line.now) }
{
    match line {
        EntryLine::Set { name, op, text } => set_line(name, *op, text),
        EntryLine::Later {
            target,
            kind,
            when,
            text,
        } => late_line(target, *kind, when.copy()?, text),
        EntryLine::Flag {
            name,
            flag,
            op,
            text,
        } => flag_line(name, flag, *op, text),
        EntryLine::Unset { name } => Ok(EntryLine::Unset { name: name.copy()? }),
        EntryLine::UnsetFlag { name, flag } => unset_flag_line(name, flag),
        EntryLine::Exported { class, name } => exported_line(class, name),
        EntryLine::Task {
            task,
            after,
            before,
        } => task_line(task, after, before),
        EntryLine::NoTask { task } => Ok(EntryLine::NoTask { task: task.copy()? }),
    }
}

/// Puts a copy of an entry behind the others, if it is one of a task.
fn push_task(lines: &mut Vec<EntryLine>, line: &EntryLine) -> Result<(), Mem>
    ensures { OnOk result (lines.new.items ≡ lines.old.items ++ filter is_task_line (line.now ∷ [])) }
{
    match line {
        EntryLine::Task { .. } => push_line(lines, copy_line(line)?),
        EntryLine::NoTask { .. } => push_line(lines, copy_line(line)?),
        _ => Ok(()),
    }
}

/// Puts copies of the entries of tasks behind the others.
pub(crate) fn push_tasks(lines: &mut Vec<EntryLine>, all: &[EntryLine]) -> Result<(), Mem>
    ensures { OnOk result (lines.new.items ≡ lines.old.items ++ filter is_task_line all.now) }
{
    for line in all {
        push_task(lines, line)?;
    }
    Ok(())
}
