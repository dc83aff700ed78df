// Where tasks stand among the facts.
ghost use Rattle.std.specs.Prelude.{◌≡◌, ◌<◌, ◌≤◌, ◌+◌, OnOk, IfOk, length, slice_get, Some, ℕ, List};
ghost use Rattle.std.specs.HashMap.{get_by_text};
ghost use Rattle.task_graph.specs.Table.{HasTasks, IsTable, KeepsSpots, number_of_task};

use crate::only::note_first;
use meta_model::{FactSet, TaskFacts};
use std::alloc::Global;
use std::collections::HashMap;
use tree_model::Mem;

/// The place of a task: the number of its recipe, and its place among that recipe's tasks.
#[derive(Clone, Copy)]
pub(crate) struct Spot {
    pub(crate) recipe: usize,
    pub(crate) place: usize,
}

/// All tasks, by numbers; for each recipe the numbers of its tasks by their names.
#[derive(Drop)]
pub(crate) struct TaskTable {
    pub(crate) spots: Vec<Spot>,
    pub(crate) places: Vec<HashMap<String, usize>>,
}

/// Gives the tasks of a recipe the next numbers.
fn number_tasks(
    alloc: Global,
    spots: &mut Vec<Spot>,
    recipe: usize,
    tasks: &[TaskFacts],
) -> Result<HashMap<String, usize>, Mem>
    ensures tasks { IfOk result (λ map. HasTasks spots.new.items recipe (length spots.old.items) tasks.now
        (get_by_text map)) }
    ensures kept { IfOk result (λ map. KeepsSpots spots.old.items spots.new.items) }
{
    let mut map = HashMap::new(alloc);
    for (place, task) in tasks.iter().enumerate() {
        note_first(alloc, &mut map, task.task.as_str(), spots.len())?;
        spots.push(Spot { recipe, place })?;
    }
    Ok(map)
}

impl TaskTable {
    /// The table of all tasks.
    pub(crate) fn new(alloc: Global, facts: &FactSet) -> Result<TaskTable, Mem>
        ensures { IfOk result (IsTable facts.now) }
    {
        let mut spots = Vec::new(alloc);
        let mut places = Vec::new(alloc);
        for (number, recipe) in facts.recipes.as_slice().iter().enumerate() {
            let map = number_tasks(alloc, &mut spots, number, recipe.tasks.as_slice())?;
            places.push(map)?;
        }
        Ok(TaskTable { spots, places })
    }

    /// The number of a recipe's task, where the recipe has it.
    pub(crate) fn find(&self, recipe: usize, task: &str) -> Option<usize>
        ensures { result ≡ number_of_task self.now (recipe, task.now) }
    {
        match self.places.get(recipe) {
            None => None,
            Some(places) => places.get(task).copied(),
        }
    }
}
