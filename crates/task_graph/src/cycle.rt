// A cycle of tasks from its least task on.
ghost use Rattle.std.specs.Prelude.{◌≡◌, ◌<◌, IfOk, All, length, slice_get, Some};
ghost use Rattle.std.specs.List.{AllZip};
ghost use Rattle.meta_model.specs.declared.facts.TaskId.{TaskId as Id};
ghost use Rattle.task_graph.specs.Table.{IsTable};
ghost use Rattle.task_graph.specs.Edges.{IsNumbered};
ghost use Rattle.task_graph.specs.Turn.{IsIdAt, IsLeast, IsTurned};

use crate::order::{compare_ids, id_at};
use crate::table::TaskTable;
use meta_model::{FactSet, TaskId};
use std::alloc::Global;
use tree_model::{ListOf, Mem};

/// The tasks at places, as they are written.
fn ids_at(
    alloc: Global,
    facts: &FactSet,
    table: &TaskTable,
    tasks: &[usize],
    places: &[u32],
) -> Result<Vec<TaskId>, Mem>
    requires table { IsTable facts.now table.now }
    requires numbered { All (IsNumbered table.now) tasks.now }
    requires within { All (λ place. place < length tasks.now) places.now }
    ensures { IfOk result (λ made. AllZip (IsIdAt facts.now table.now tasks.now) places.now made.items) }
{
    let mut ids = Vec::with_capacity(alloc, places.len())?;
    for place in places {
        let id = id_at(alloc, facts, table, tasks[*place as usize])?;
        ids.push(id)?;
    }
    Ok(ids)
}

/// The place of the least of these tasks, by PN and task.
fn least_of(ids: &[TaskId]) -> usize
    requires { 0 < length ids.now }
    ensures within { result < length ids.now }
    ensures least { (first : Id) → slice_get ids.now result ≡ Some first → IsLeast ids.now first }
{
    let mut least = 0;
    for (place, id) in ids.iter().enumerate() {
        if compare_ids(id, &ids[least]).is_lt() {
            least = place;
        }
    }
    least
}

/// The tasks at the places of a cycle, from the least task on.
pub(crate) fn turned(
    alloc: Global,
    facts: &FactSet,
    table: &TaskTable,
    tasks: &[usize],
    places: &[u32],
) -> Result<ListOf<TaskId>, Mem>
    requires table { IsTable facts.now table.now }
    requires numbered { All (IsNumbered table.now) tasks.now }
    requires within { All (λ place. place < length tasks.now) places.now }
    requires some { 0 < length places.now }
    ensures { IfOk result (IsTurned facts.now table.now tasks.now places.now) }
{
    let mut ids = ids_at(alloc, facts, table, tasks, places)?;
    let least = least_of(&ids);
    ids.rotate_left(least);
    Ok(ListOf::from_vec(ids))
}
