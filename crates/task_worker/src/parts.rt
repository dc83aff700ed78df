// The outputs of needed tasks, in the order in which they are laid.
ghost use Rattle.std.specs.Prelude.{◌≡◌, ◌++◌, IfOk, OnOk, filter, not};
ghost use Rattle.std.specs.Option.{option_map};
ghost use Rattle.meta_model.specs.Layout.{by_depth, by_name, is_of};
ghost use Rattle.run_model.specs.Layouts.{needed_at, needed_among};
ghost use Rattle.task_worker.specs.Work.{depth_cmp, if_wanted, is_wanted, name_cmp, part_needed, parts_needed};

use meta_model::PlanTask;
use std::alloc::Global;
use std::cmp::Ordering;
use tree_model::{Mem, Tree};

/// A needed task and its output.
#[derive(Clone, Copy)]
pub(crate) struct Part<'a> {
    pub(crate) task: &'a PlanTask,
    pub(crate) output: &'a Tree,
}

/// By depth, then by the task's name.
fn compare_depths(first: &Part, second: &Part) -> Ordering
    ensures { result ≡ depth_cmp (part_needed first.now) (part_needed second.now) }
{
    match first.task.depth.cmp(&second.task.depth) {
        Ordering::Less => Ordering::Less,
        Ordering::Equal => first
            .task
            .id
            .task
            .as_str()
            .cmp(second.task.id.task.as_str()),
        Ordering::Greater => Ordering::Greater,
    }
}

/// By the recipe's name, then by the task's.
fn compare_names(first: &Part, second: &Part) -> Ordering
    ensures { result ≡ name_cmp (part_needed first.now) (part_needed second.now) }
{
    match first.task.id.pn.as_str().cmp(second.task.id.pn.as_str()) {
        Ordering::Less => Ordering::Less,
        Ordering::Equal => first
            .task
            .id
            .task
            .as_str()
            .cmp(second.task.id.task.as_str()),
        Ordering::Greater => Ordering::Greater,
    }
}

/// The task of an output's number, with the output.
fn part_of<'a>(tasks: &'a [PlanTask], output: &'a (u32, Tree)) -> Option<Part<'a>>
    ensures { option_map part_needed result ≡ needed_at tasks.now output.now }
{
    let task = tasks.get(output.0 as usize)?;
    Some(Part {
        task,
        output: &output.1,
    })
}

/// Whether a task is of the recipe, or where `own` is false whether it is of another.
fn is_wanted(part: &Part, pn: &str, own: bool) -> bool
    ensures { result ≡ is_wanted own pn.now (part_needed part.now) }
{
    let is_own = part.task.id.pn.as_str() == pn;
    if own { is_own } else { !is_own }
}

/// Puts the task of an output at the end, if it is wanted.
fn put_part<'a>(
    made: &mut Vec<Part<'a>>,
    tasks: &'a [PlanTask],
    output: &'a (u32, Tree),
    pn: &str,
    own: bool,
) -> Result<(), Mem>
    ensures { OnOk result (parts_needed made.new.items ≡ parts_needed made.old.items
        ++ if_wanted own pn.now (needed_at tasks.now output.now)) }
{
    if let Some(part) = part_of(tasks, output) {
        if is_wanted(&part, pn, own) {
            made.push(part)?;
        }
    }
    Ok(())
}

/// The tasks of a recipe, or where `own` is false those of others, among the outputs.
fn gather<'a>(
    alloc: Global,
    tasks: &'a [PlanTask],
    outputs: &'a [(u32, Tree)],
    pn: &str,
    own: bool,
) -> Result<Vec<Part<'a>>, Mem>
    ensures { IfOk result (λ made. parts_needed made.items
        ≡ filter (is_wanted own pn.now) (needed_among tasks.now outputs.now)) }
{
    let mut made = Vec::new(alloc);
    for output in outputs {
        put_part(&mut made, tasks, output, pn, own)?;
    }
    Ok(made)
}

/// The tasks of the recipe, those laid earlier first.
pub(crate) fn own_parts<'a>(
    alloc: Global,
    tasks: &'a [PlanTask],
    outputs: &'a [(u32, Tree)],
    pn: &str,
) -> Result<Vec<Part<'a>>, Mem>
    ensures { IfOk result (λ made. parts_needed made.items
        ≡ filter (is_of pn.now) (by_depth (needed_among tasks.now outputs.now))) }
{
    let mut made = gather(alloc, tasks, outputs, pn, true)?;
    made.sort_by(|a, b| compare_depths(a, b))?;
    Ok(made)
}

/// The tasks of other recipes, by their names.
pub(crate) fn other_parts<'a>(
    alloc: Global,
    tasks: &'a [PlanTask],
    outputs: &'a [(u32, Tree)],
    pn: &str,
) -> Result<Vec<Part<'a>>, Mem>
    ensures { IfOk result (λ made. parts_needed made.items
        ≡ filter (λ n. not (is_of pn.now n)) (by_name (needed_among tasks.now outputs.now))) }
{
    let mut made = gather(alloc, tasks, outputs, pn, false)?;
    made.sort_by(|a, b| compare_names(a, b))?;
    Ok(made)
}
