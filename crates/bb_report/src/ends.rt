// The last line of a run that no fault ended.
ghost use Rattle.std.specs.Prelude.{◌≡◌, ◌++◌, ◌∷◌, ◌||◌, [], List, IfOk, OnOk, length};
ghost use Rattle.run_model.specs.Texts.{task_label};
ghost use Rattle.std.specs.Fmt.{decimal};
ghost use Rattle.meta_model.specs.declared.event.Logged.{Logged as Entry};
ghost use Rattle.bb_report.specs.Runs as runs;
ghost use Rattle.bb_report.specs.Runs.{AreMarks, marked, name_text};
ghost use Rattle.run_model.specs.Report.{comma_joined, count_events, failed_line, has_failure, is_found, is_restored, is_started, ok_line};

use crate::plans::push_label;
use itoa::Buffer;
use meta_model::{Event, Logged, Plan, PlanTask, TaskId};
use std::alloc::Global;
use tree_model::{Mem, Text};

/// How many events of a tale are that a task was found.
pub fn count_found(tale: &[Logged]) -> usize
    ensures { result ≡ count_events is_found tale.now }
{
    tale.iter()
        .filter(|logged| matches!(logged.event, Event::Found { .. }))
        .count()
}

/// How many events of a tale are that a task was restored.
fn count_restored(tale: &[Logged]) -> usize
    ensures { result ≡ count_events is_restored tale.now }
{
    tale.iter()
        .filter(|logged| matches!(logged.event, Event::Restored { .. }))
        .count()
}

/// How many events of a tale are that a task was started.
pub fn count_started(tale: &[Logged]) -> usize
    ensures { result ≡ count_events is_started tale.now }
{
    tale.iter()
        .filter(|logged| matches!(logged.event, Event::Started { .. }))
        .count()
}

/// Whether a task failed in a tale.
pub fn some_failed(tale: &[Logged]) -> bool
    ensures { result ≡ has_failure tale.now }
{
    tale.iter()
        .any(|logged| matches!(logged.event, Event::Failed { .. }))
}

/// Puts a number at the end, and what it counts.
pub fn push_count(made: &mut Text, count: usize, what: &str) -> Result<(), Mem>
    ensures { OnOk result (made.new ≡ made.old ++ (decimal count ++ what.now)) }
{
    made.push_str(Buffer::new().format(count))?;
    made.push_str(what)
}

/// The last line of a run in which no task failed.
fn line_of_ok(alloc: Global, tale: &[Logged]) -> Result<Text, Mem>
    ensures { IfOk result (λ made. made ≡ ok_line tale.now) }
{
    let mut made = Text::from_str(alloc, "ok ")?;
    push_count(&mut made, count_found(tale), " found, ")?;
    push_count(&mut made, count_restored(tale), " restored, ")?;
    push_count(&mut made, count_started(tale), " started\n")?;
    Ok(made)
}

/// Marks the task of an event, if it is that the task failed.
fn mark(marks: &mut [bool], logged: &Logged)
    ensures { (tale : List Entry) → AreMarks tale (length marks.old) marks.old
        → AreMarks (tale ++ logged.now ∷ []) (length marks.old) marks.new }
{
    if let Event::Failed { task, why: _ } = logged.event {
        let place = task as usize;
        if place < marks.len() {
            marks[place] = true;
        }
    }
}

/// Marks the tasks that failed in a tale.
fn mark_all(marks: &mut [bool], tale: &[Logged])
    requires { AreMarks [] (length marks.old) marks.old }
    ensures { AreMarks tale.now (length marks.old) marks.new }
{
    for logged in tale {
        mark(marks, logged);
    }
}

/// Which of so many tasks failed in a tale.
fn marks_of(alloc: Global, count: usize, tale: &[Logged]) -> Result<Vec<bool>, Mem>
    ensures { IfOk result (λ marks. AreMarks tale.now count marks.items) }
{
    let mut marks = vec![in alloc; false; count]?;
    mark_all(&mut marks, tale);
    Ok(marks)
}

/// Puts a marked task at the end, behind a comma and a blank where it isn't the first, and says whether there is one now.
fn push_name(made: &mut Text, mark: bool, is_later: bool, id: &TaskId) -> Result<bool, Mem>
    ensures name { OnOk result (made.new ≡ made.old ++ name_text mark is_later (task_label id.now)) }
    ensures later { IfOk result (λ later. later ≡ (mark || is_later)) }
{
    if !mark {
        return Ok(is_later);
    }
    if is_later {
        made.push_str(", ")?;
    }
    push_label(made, id)?;
    Ok(true)
}

/// Puts the marked tasks at the end.
fn push_marked(made: &mut Text, tasks: &[PlanTask], marks: &[bool]) -> Result<(), Mem>
    requires { length marks.now ≡ length tasks.now }
    ensures { OnOk result (made.new ≡ made.old ++ comma_joined (marked tasks.now marks.now)) }
{
    let mut is_later = false;
    for (n, task) in tasks.iter().enumerate() {
        is_later = push_name(made, marks[n], is_later, &task.id)?;
    }
    Ok(())
}

/// The last line of a run in which tasks failed.
fn line_of_failed(alloc: Global, tasks: &[PlanTask], tale: &[Logged]) -> Result<Text, Mem>
    ensures { IfOk result (λ made. made ≡ failed_line tasks.now tale.now) }
{
    let marks = marks_of(alloc, tasks.len(), tale)?;
    let mut made = Text::from_str(alloc, "fault 1 failed: ")?;
    push_marked(&mut made, tasks, &marks)?;
    made.push_str("\n")?;
    Ok(made)
}

/// The last line of a run that no fault ended: how many tasks were found, restored and started, as `ok F found, R restored, S
/// started`; or `fault 1 failed: ` and the failed tasks in the order of the plan, between them a comma and a blank (own rule).
pub fn end_text(alloc: Global, plan: &Plan, tale: &[Logged]) -> Result<Text, Mem>
    ensures { IfOk result (λ made. made ≡ runs.end_text plan.now tale.now) }
{
    if some_failed(tale) {
        line_of_failed(alloc, plan.tasks.as_slice(), tale)
    } else {
        line_of_ok(alloc, tale)
    }
}
