// Which tasks of a plan are seen, and what the others wait for.
ghost use Rattle.std.specs.Prelude.{◌≡◌, ◌<◌, ◌&&◌, IfOk, MatchBool, Some, [], filter, length, not, slice_get};
ghost use Rattle.std.specs.List.{list_all};
ghost use Rattle.std.specs.Option.{is_some};
ghost use Rattle.store_model.specs.Rows.{row_at};
ghost use Rattle.setscene_plan.specs.Names.{names_over};
ghost use Rattle.why_model.specs.Seen.{firm, is_seen, seen_over, waits_of};

use crate::rows::Rows;
use meta_model::PlanTask;
use std::alloc::Global;
use tree_model::{Hash, Mem};

/// Whether the task of a number is one of the seen ones.
fn is_seen(seen: &[bool], number: u32) -> bool
    ensures { result ≡ is_seen seen.now number }
{
    match seen.get(number as usize) {
        Some(is) => *is,
        None => false,
    }
}

/// Whether these tasks are all seen.
fn are_seen(seen: &[bool], numbers: &[u32]) -> bool
    ensures { result ≡ list_all (is_seen seen.now) numbers.now }
{
    numbers.iter().all(|number| is_seen(seen, *number))
}

/// Whether a task with this name is seen, for those before it.
fn is_next_seen(rows: &Rows, seen: &[bool], task: &PlanTask, name: &Hash) -> bool
    ensures { result ≡ (list_all (is_seen seen.now) task.now.deps && is_some (row_at rows.now name.now)) }
{
    are_seen(seen, task.deps.as_slice()) && rows.index().row(name).is_some()
}

/// The name at a place.
fn name_at(names: &[Hash], place: usize) -> &Hash
    requires { place < length names.now }
    ensures { slice_get names.now place ≡ Some result.now }
{
    &names[place]
}

/// Which tasks are seen, by their names.
pub(crate) fn seen_over(
    alloc: Global,
    rows: &Rows,
    tasks: &[PlanTask],
    names: &[Hash],
) -> Result<Vec<bool>, Mem>
    requires { names.now ≡ names_over rows.now tasks.now }
    ensures { IfOk result (λ seen. seen.items ≡ seen_over rows.now tasks.now) }
{
    let mut seen = Vec::with_capacity(alloc, tasks.len())?;
    for (place, task) in tasks.iter().enumerate() {
        let is = is_next_seen(rows, seen.as_slice(), task, name_at(names, place));
        seen.push(is)?;
    }
    Ok(seen)
}

/// Those of these tasks that aren't seen.
fn unseen_of(alloc: Global, seen: &[bool], numbers: &[u32]) -> Result<Vec<u32>, Mem>
    ensures { IfOk result (λ made. made.items ≡ filter (λ d. not (is_seen seen.now d)) numbers.now) }
{
    let mut made = Vec::new(alloc);
    for number in numbers {
        if !is_seen(seen, *number) {
            made.push(*number)?;
        }
    }
    Ok(made)
}

/// What a task waits for.
pub(crate) fn waits_of(alloc: Global, seen: &[bool], task: &PlanTask) -> Result<Vec<u32>, Mem>
    ensures { IfOk result (λ made. made.items ≡ waits_of seen.now task.now) }
{
    if task.nostamp {
        return Ok(Vec::new(alloc));
    }
    unseen_of(alloc, seen, task.deps.as_slice())
}

/// Whether there is none of these.
pub(crate) fn are_none(numbers: &[u32]) -> bool
    ensures { MatchBool result (numbers.now ≡ []) (numbers.now ≡ [] → ⊥) }
{
    numbers.is_empty()
}

/// What a task waits for, where it waits; else all that it needs.
pub(crate) fn firm<'a>(deps: &'a [u32], waits: &'a [u32]) -> &'a [u32]
    ensures { result.now ≡ firm deps.now waits.now }
{
    if waits.is_empty() { deps } else { waits }
}
