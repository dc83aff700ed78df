// Tasks in the order of the graph's nodes.
ghost use Rattle.std.specs.Prelude.{◌≡◌, ◌<◌, ◌≤◌, ◌^◌, IfOk, All, length, map, ℕ};
ghost use Rattle.std.specs.List.{range_with_len};
ghost use Rattle.meta_model.specs.TaskGraph.{id_cmp};
ghost use Rattle.task_graph.specs.Table.{IsTable};
ghost use Rattle.task_graph.specs.Edges.{IsNumbered};
ghost use Rattle.task_graph.specs.Order.{IsIdOf, IsRecipeOf, IsDraftOf, IsDraft, AreDrafts, draft_cmp, place_of};

use crate::table::TaskTable;
use meta_model::{FactSet, TaskId};
use std::alloc::Global;
use std::cmp::Ordering;
use tree_model::{Mem, Text};

/// The task at a place, as its node will have it.
#[derive(Drop)]
pub(crate) struct Draft {
    pub(crate) place: u32,
    pub(crate) recipe: u32,
    pub(crate) id: TaskId,
    pub(crate) depth: u32,
}

/// The order of tasks as they are written: by PN, then by task, byte by byte.
pub(crate) fn compare_ids(first: &TaskId, second: &TaskId) -> Ordering
    ensures { result ≡ id_cmp first.now second.now }
{
    match first.pn.as_str().cmp(second.pn.as_str()) {
        Ordering::Equal => first.task.as_str().cmp(second.task.as_str()),
        Ordering::Less => Ordering::Less,
        Ordering::Greater => Ordering::Greater,
    }
}

/// The order of nodes: by depth, then by PN, then by task.
fn compare_drafts(first: &Draft, second: &Draft) -> Ordering
    ensures { result ≡ draft_cmp first.now second.now }
{
    match first.depth.cmp(&second.depth) {
        Ordering::Equal => compare_ids(&first.id, &second.id),
        Ordering::Less => Ordering::Less,
        Ordering::Greater => Ordering::Greater,
    }
}

/// The task with a number, as it is written.
pub(crate) fn id_at(
    alloc: Global,
    facts: &FactSet,
    table: &TaskTable,
    number: usize,
) -> Result<TaskId, Mem>
    requires table { IsTable facts.now table.now }
    requires numbered { IsNumbered table.now number }
    ensures { IfOk result (IsIdOf facts.now table.now number) }
{
    let spot = table.spots[number];
    let recipe = &facts.recipes.as_slice()[spot.recipe];
    let task = &recipe.tasks.as_slice()[spot.place];
    Ok(TaskId {
        mc: Text::new(alloc),
        pn: recipe.pn.copy()?,
        task: task.task.copy()?,
    })
}

/// The number of the recipe of the task with a number.
fn recipe_of(facts: &FactSet, table: &TaskTable, number: usize) -> u32
    requires few { length facts.now.recipes < 2 ^ 32 }
    requires table { IsTable facts.now table.now }
    requires numbered { IsNumbered table.now number }
    ensures { IsRecipeOf table.now number result }
{
    table.spots[number].recipe as u32
}

/// The draft of the task with a number.
fn draft_at(
    alloc: Global,
    facts: &FactSet,
    table: &TaskTable,
    place: usize,
    number: usize,
    depth: u32,
) -> Result<Draft, Mem>
    requires few { length facts.now.recipes < 2 ^ 32 }
    requires table { IsTable facts.now table.now }
    requires numbered { IsNumbered table.now number }
    requires small { place < 2 ^ 32 }
    ensures { IfOk result (IsDraftOf facts.now table.now place number depth) }
{
    Ok(Draft {
        place: place as u32,
        recipe: recipe_of(facts, table, number),
        id: id_at(alloc, facts, table, number)?,
        depth,
    })
}

/// The drafts of tasks, in the order of their places.
fn drafts_of(
    alloc: Global,
    facts: &FactSet,
    table: &TaskTable,
    tasks: &[usize],
    depths: &[u32],
) -> Result<Vec<Draft>, Mem>
    requires few { length facts.now.recipes < 2 ^ 32 }
    requires table { IsTable facts.now table.now }
    requires numbered { All (IsNumbered table.now) tasks.now }
    requires small { length tasks.now ≤ 65536 }
    requires depths { length depths.now ≡ length tasks.now }
    ensures drafts { IfOk result (λ made. All (IsDraft facts.now table.now tasks.now depths.now) made.items) }
    ensures places { IfOk result (λ made. map place_of made.items ≡ range_with_len 0 (length tasks.now)) }
{
    let mut drafts = Vec::with_capacity(alloc, tasks.len())?;
    for (place, number) in tasks.iter().enumerate() {
        let draft = draft_at(alloc, facts, table, place, *number, depths[place])?;
        drafts.push(draft)?;
    }
    Ok(drafts)
}

/// The drafts of tasks, in the order of nodes.
pub(crate) fn ordered_drafts(
    alloc: Global,
    facts: &FactSet,
    table: &TaskTable,
    tasks: &[usize],
    depths: &[u32],
) -> Result<Vec<Draft>, Mem>
    requires few { length facts.now.recipes < 2 ^ 32 }
    requires table { IsTable facts.now table.now }
    requires numbered { All (IsNumbered table.now) tasks.now }
    requires small { length tasks.now ≤ 65536 }
    requires depths { length depths.now ≡ length tasks.now }
    ensures { IfOk result (λ made. AreDrafts facts.now table.now tasks.now depths.now made.items) }
{
    let mut drafts = drafts_of(alloc, facts, table, tasks, depths)?;
    drafts.sort_unstable_by(|a, b| compare_drafts(a, b));
    Ok(drafts)
}
