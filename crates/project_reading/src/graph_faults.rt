// The statuses of names without a provider, of targets without a graph, and of texts that are no number of threads.
ghost use Rattle.std.specs.Prelude.{◌≡◌, ◌∷◌, true, false, IfOk, map};
ghost use Rattle.meta_model.specs.GraphRefusal.{nothing_provides as nobody, several_provide, no_such_task as no_task};
ghost use Rattle.answer_model.specs.Said as said;
ghost use Rattle.project_reading.specs.Faults.{IsAnswered, fault_status};
ghost use Rattle.answer_model.specs.Answers.{is_refusal};
ghost use Rattle.project_reading.specs.Answered.{is_failed_read};

use crate::said::{limit, metadata, named};
use meta_model::{Status, TaskId};
use std::alloc::Global;
use task_graph::GraphFault;
use tree_model::{Mem, Text, Texts};

/// How a task is written.
fn task_text(alloc: Global, pn: &str, task: &str) -> Result<Text, Mem>
    ensures { IfOk result (λ made. made ≡ said.task_text pn.now task.now) }
{
    let mut made = Text::from_str(alloc, pn)?;
    made.push_str(":")?;
    made.push_str(task)?;
    Ok(made)
}

/// How tasks are written.
fn task_texts(alloc: Global, tasks: &[TaskId]) -> Result<Texts, Mem>
    ensures { IfOk result (λ made. made ≡ map said.id_text tasks.now) }
{
    let mut made = Texts::new(alloc);
    for task in tasks {
        made.push(task_text(alloc, task.pn.as_str(), task.task.as_str())?)?;
    }
    Ok(made)
}

/// A text and others behind it.
fn with_others(alloc: Global, first: Text, others: &[Text]) -> Result<Texts, Mem>
    ensures { IfOk result (λ made. made ≡ first ∷ others.now) }
{
    let mut made = Texts::new(alloc);
    made.push(first)?;
    for other in others {
        made.push(other.copy()?)?;
    }
    Ok(made)
}

/// The status of a cycle of tasks.
fn cycle(alloc: Global, tasks: &[TaskId]) -> Status
    ensures { IsAnswered result (said.cycle_status tasks.now) }
{
    match task_texts(alloc, tasks) {
        Ok(detail) => metadata(alloc, Text::new(alloc), 0, "TaskCycle", detail),
        Err(_) => Status::OutOfMemory,
    }
}

/// The status of a name that several recipes provide.
fn several(alloc: Global, name: Text, pns: &[Text]) -> Status
    ensures { IsAnswered result (said.lack_status (several_provide name pns.now)) }
{
    match with_others(alloc, name, pns) {
        Ok(detail) => metadata(alloc, Text::new(alloc), 0, "SeveralProvide", detail),
        Err(_) => Status::OutOfMemory,
    }
}

/// The status of a task that isn't there.
fn no_such_task(alloc: Global, pn: &str, task: &str) -> Status
    ensures { IsAnswered result (said.lack_status (no_task pn.now task.now)) }
{
    match task_text(alloc, pn, task) {
        Ok(text) => named(alloc, Text::new(alloc), 0, "NoSuchTask", text),
        Err(_) => Status::OutOfMemory,
    }
}

/// The status of a name that nothing provides, or want of memory. It has no place.
pub fn nothing_provides(alloc: Global, name: &str) -> Status
    ensures { IsAnswered result (said.lack_status (nobody name.now)) }
{
    match Text::from_str(alloc, name) {
        Ok(name) => named(alloc, Text::new(alloc), 0, "NothingProvides", name),
        Err(_) => Status::OutOfMemory,
    }
}

/// The status of a name without a provider, of targets that have no graph, or of a text that is no number of threads; want of
/// memory alone is free.
pub fn graph_status(alloc: Global, fault: GraphFault) -> Status
    ensures told { IsAnswered result (fault_status fault) }
    ensures refusal { is_refusal result ≡ true }
    ensures no_failure { is_failed_read result ≡ false }
{
    match fault {
        GraphFault::NoSuchTask { pn, task } => no_such_task(alloc, pn.as_str(), task.as_str()),
        GraphFault::TaskCycle { tasks } => cycle(alloc, tasks.as_slice()),
        GraphFault::NothingProvides { name } => nothing_provides(alloc, name.as_str()),
        GraphFault::SeveralProvide { name, pns } => several(alloc, name, pns.as_slice()),
        GraphFault::Tasks => limit(alloc, "Tasks"),
        GraphFault::BadThreads { text } => named(alloc, Text::new(alloc), 0, "BadThreads", text),
        GraphFault::Memory => Status::OutOfMemory,
    }
}
