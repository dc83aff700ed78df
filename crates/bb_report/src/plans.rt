// Plans.
ghost use Rattle.std.specs.Prelude.{◌≡◌, ◌++◌, IfOk, OnOk, flat_map, take};
ghost use Rattle.run_model.specs.Texts as texts;

use itoa::Buffer;
use meta_model::{Plan, PlanTask, TaskId};
use std::alloc::Global;
use tree_model::{Mem, Text};

/// Puts a task at the end, as it is written.
pub fn push_label(made: &mut Text, id: &TaskId) -> Result<(), Mem>
    ensures { OnOk result (made.new ≡ made.old ++ texts.task_label id.now) }
{
    made.push_str(id.pn.as_str())?;
    made.push_str(":")?;
    made.push_str(id.task.as_str())
}

/// Puts the line of a task at the end, where something was left out of its key.
fn push_excluded(made: &mut Text, task: &PlanTask) -> Result<(), Mem>
    ensures { OnOk result (made.new ≡ made.old ++ texts.excluded_line task.now) }
{
    if !task.key.excluded {
        return Ok(());
    }
    made.push_str("excluded ")?;
    push_label(made, &task.id)?;
    made.push_str("\n")
}

/// The first line of a plan.
fn first_line(alloc: Global, tasks: usize, threads: u32) -> Result<Text, Mem>
    ensures { IfOk result (λ made. made ≡ texts.plan_line tasks threads) }
{
    let mut made = Text::from_str(alloc, "plan ")?;
    made.push_str(Buffer::new().format(tasks))?;
    made.push_str(" tasks, ")?;
    made.push_str(Buffer::new().format(threads))?;
    made.push_str(" threads\n")?;
    Ok(made)
}

/// The text of a plan: `plan N tasks, T threads`, and `excluded PN:TASK` for each task of whose key something was left out, in the
/// order of the plan (own rule).
pub fn plan_text(alloc: Global, plan: &Plan) -> Result<Text, Mem>
    ensures { IfOk result (λ made. made ≡ texts.plan_text plan.now) }
{
    let mut made = first_line(alloc, plan.tasks.len(), plan.threads)?;
    for task in plan.tasks.as_slice() {
        push_excluded(&mut made, task)?;
    }
    Ok(made)
}

/// Puts the task with a number at the end, behind a blank.
fn push_need(made: &mut Text, tasks: &[PlanTask], number: u32) -> Result<(), Mem>
    ensures { OnOk result (made.new ≡ made.old ++ texts.need_text tasks.now number) }
{
    made.push_str(" ")?;
    match tasks.get(number as usize) {
        Some(task) => push_label(made, &task.id),
        None => Ok(()),
    }
}

/// Puts the tasks with these numbers at the end, each behind a blank.
fn push_all_needs(made: &mut Text, tasks: &[PlanTask], deps: &[u32]) -> Result<(), Mem>
    ensures { OnOk result (made.new ≡ made.old ++ flat_map (texts.need_text tasks.now) deps.now) }
{
    for number in deps {
        push_need(made, tasks, *number)?;
    }
    Ok(())
}

/// Puts the word `needs` and the tasks with these numbers at the end, each behind a blank; nothing where there is none.
pub fn push_needs(made: &mut Text, tasks: &[PlanTask], deps: &[u32]) -> Result<(), Mem>
    ensures { OnOk result (made.new ≡ made.old ++ texts.needs_text tasks.now deps.now) }
{
    match deps {
        [] => Ok(()),
        _ => {
            made.push_str(" needs")?;
            push_all_needs(made, tasks, deps)
        }
    }
}

/// Puts the line of a task at the end.
fn push_task(made: &mut Text, tasks: &[PlanTask], task: &PlanTask) -> Result<(), Mem>
    ensures { OnOk result (made.new ≡ made.old ++ texts.task_line tasks.now task.now) }
{
    made.push_str("task ")?;
    push_label(made, &task.id)?;
    push_needs(made, tasks, task.deps.as_slice())?;
    made.push_str("\n")
}

/// The text of a dry run: that of the plan, and for each task `task PN:TASK`, with ` needs` and the tasks that it needs directly, each
/// behind a blank, where there are any; all in the order of the plan (own rule; BitBake User Manual, "The bitbake Command", option
/// `-n`).
pub fn dry_text(alloc: Global, plan: &Plan) -> Result<Text, Mem>
    ensures { IfOk result (λ made. made ≡ texts.dry_text plan.now) }
{
    let mut made = plan_text(alloc, plan)?;
    for task in plan.tasks.as_slice() {
        push_task(&mut made, plan.tasks.as_slice(), task)?;
    }
    Ok(made)
}
