// How deep the tasks stand that targets reach.
ghost use Rattle.std.specs.Prelude.{◌≡◌, ◌<◌, ◌^◌, IfOk, IfErr, length};
ghost use Rattle.meta_model.specs.TaskGraph.{HasMoreTasks, IsGraphRefusal};
ghost use Rattle.task_graph.specs.Faults.{IsFaultOf};
ghost use Rattle.task_graph.specs.Context.{IsContext};
ghost use Rattle.task_graph.specs.Reached.{AreReached};
ghost use Rattle.task_graph.specs.Levels.{AreLevels};

use crate::context::Context;
use crate::fault::GraphFault;
use crate::reach::{Reached, reach};
use graph_walk::{Depths, depths_of};
use meta_model::{FactSet, Target};
use std::alloc::Global;

/// The tasks that targets reach, and by their places the depth of each; or a cycle.
#[derive(Drop)]
pub(crate) struct Leveled {
    pub(crate) reached: Reached,
    pub(crate) depths: Depths,
}

/// Finds the tasks that targets reach, and how deep each stands.
pub(crate) fn level(
    alloc: Global,
    facts: &FactSet,
    context: &Context,
    targets: &[Target],
) -> Result<Leveled, GraphFault>
    requires few { length facts.now.recipes < 2 ^ 32 }
    requires context { IsContext facts.now context.now }
    ensures reached { IfOk result (λ made. AreReached facts.now context.now.table targets.now made.reached.tasks.items
        made.reached.edges.items made.reached.ends) }
    ensures depths { IfOk result (λ made. AreLevels facts.now context.now.table targets.now made.reached.tasks.items
        made.depths) }
    ensures err { IfErr result (IsFaultOf (IsGraphRefusal facts.now targets.now) (λ ids. ⊥)
        (HasMoreTasks facts.now targets.now 65536)) }
{
    let reached = reach(alloc, facts, context, targets)?;
    let depths = depths_of(alloc, reached.edges.as_slice())?;
    Ok(Leveled { reached, depths })
}
