// Orders of tasks that aren't there.

use crate::files::Place;
use crate::flags::is_of_tasks;
use crate::kind::RemarkKind;
use crate::near::Near;
use crate::notes::Notes;
use std::alloc::Global;
use tree_model::{Mem, Text};
use value_maps::Names;

/// What is known of the tasks that a file's statements may speak of: those of the recipes that read it, and those that some `deltask`
/// takes away.
#[derive(Drop)]
pub(crate) struct Tasks<'a> {
    pub(crate) there: &'a Names,
    pub(crate) dropped: &'a Names,
}

impl Tasks<'_> {
    /// Whether a task is there, or was taken away on purpose.
    fn has(&self, task: &str) -> bool {
        self.there.get(task).is_some() || self.dropped.get(task).is_some()
    }

    /// What is said of the task that was meant, behind what is said of the one that isn't there.
    fn hint(&self, alloc: Global, task: &str) -> Result<String, Mem> {
        let mut near = Near::to(task);
        for (name, _) in self.there {
            near.look(alloc, name.as_str())?;
        }
        match near.best() {
            "" => Ok(String::new(alloc)),
            best => Ok(format!(in alloc; "; there is {best}")?),
        }
    }
}

/// Remarks on the words of `after` or `before` that name no task.
pub(crate) fn check_order(
    alloc: Global,
    place: &Place<'_>,
    tasks: &Tasks<'_>,
    part: &str,
    words: &[Text],
    notes: &mut Notes,
) -> Result<(), Mem> {
    for word in words {
        let task = word.as_str();
        if !tasks.has(task) {
            let hint = tasks.hint(alloc, task)?;
            let words = format!(in alloc;
                "there is no task {task} for this to come {part}{}",
                hint.as_str()
            )?;
            notes.add(alloc, place, RemarkKind::NoTask, words, "")?;
        }
    }
    Ok(())
}

/// Remarks on a flag of a task that isn't there.
pub(crate) fn check_flag_of_task(
    alloc: Global,
    place: &Place<'_>,
    tasks: &Tasks<'_>,
    task: &str,
    flag: &str,
    notes: &mut Notes,
) -> Result<(), Mem> {
    if !task.starts_with("do_") || task.contains("${") || !is_of_tasks(flag) || tasks.has(task) {
        return Ok(());
    }
    let hint = tasks.hint(alloc, task)?;
    let words = format!(in alloc;
        "there is no task {task} for the flag {flag}{}",
        hint.as_str()
    )?;
    notes.add(alloc, place, RemarkKind::NoTask, words, "")
}
