// The recipes that a recipe leads to.
ghost use Rattle.std.specs.Prelude.{◌≡◌, ◌<◌, ◌≤◌, ◌^◌, ◌∷◌, ◌++◌, [], OnOk, IfOk, All, length, slice_get, Some, ℕ};
ghost use Rattle.graph_walk.specs.Frontier.{IsFrontier, IsSearch, with_nodes, room, Has};
ghost use Rattle.task_graph.specs.Below.{AreNumbersWithin, RecipeEdge, AreRecipesFrom, edges_of};

use crate::needed::Needed;
use graph_walk::Frontier;
use std::alloc::Global;
use tree_model::Mem;

/// The recipes that one needs at run time.
fn running_of(needed: &Needed) -> &[usize]
    ensures { result.now ≡ needed.now.running.found.items }
{
    needed.running.found.as_slice()
}

/// Finds the recipes that one needs.
fn find_needed(
    alloc: Global,
    all: &[Needed],
    frontier: &mut Frontier,
    recipe: usize,
) -> Result<(), Mem>
    requires numbers { AreNumbersWithin all.now }
    requires within { recipe < length all.now }
    requires count { length frontier.old.numbers.items ≡ length all.now }
    requires frontier { IsFrontier frontier.old.found.items frontier.old.numbers.items }
    ensures frontier { OnOk result (IsFrontier frontier.new.found.items frontier.new.numbers.items) }
    ensures found { OnOk result (frontier.new.found.items
        ≡ with_nodes frontier.old.found.items (edges_of all.now recipe)) }
    ensures count { OnOk result (length frontier.new.numbers.items ≡ length all.now) }
    ensures room { OnOk result (room frontier.new.found.items frontier.new.numbers.items
        ≡ room frontier.old.found.items frontier.old.numbers.items) }
{
    let needed = &all[recipe];
    let _ = frontier.add_all(alloc, needed.building.found.as_slice())?;
    let _ = frontier.add_all(alloc, running_of(needed))?;
    Ok(())
}

/// The recipe itself and all that it leads to, over what is needed to be built and at run time.
pub(crate) fn recipes_from(alloc: Global, all: &[Needed], recipe: usize) -> Result<Vec<usize>, Mem>
    requires numbers { AreNumbersWithin all.now }
    requires within { recipe < length all.now }
    ensures { IfOk result (λ found. AreRecipesFrom all.now recipe found.items) }
{
    let mut frontier = Frontier::new(alloc, all.len())?;
    let _ = frontier.add_all(alloc, &[recipe])?;
    let mut next = 0;
    while next < frontier.found.len() {
        let at = frontier.found[next];
        find_needed(alloc, all, &mut frontier, at)?;
        next += 1;
    }
    Ok(frontier.found)
}
