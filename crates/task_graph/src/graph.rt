// The graph of the tasks that targets reach.
ghost use Rattle.std.specs.Prelude.{◌<◌, ◌≤◌, ◌^◌, IfOk, IfErr, length};
ghost use Rattle.meta_model.specs.TaskGraph.{IsGraph, HasNoRefusal};
ghost use Rattle.task_graph.specs.Context.{IsContext};
ghost use Rattle.task_graph.specs.Levels.{AreLevels};
ghost use Rattle.task_graph.specs.Reached.{AreReached, IsGraphFault};

use crate::context::Context;
use crate::cycle::turned;
use crate::fault::GraphFault;
use crate::levels::{Leveled, level};
use crate::nodes::emit;
use graph_walk::Depths;
use meta_model::{FactSet, Graph, Target};
use std::alloc::Global;

/// The graph of the tasks that targets reach: each task once, ascending by depth, then PN, then task, with the numbers of the
/// nodes that it needs, ascending, and its depth, which is 0 without such nodes and else one more than the deepest of them; and
/// the numbers of the targets' nodes, in the order of the targets. Its configuration is the default one.
///
/// A task needs another one, which is there, by the order of `addtask` and by its flags `depends`, `deptask`, `rdeptask` and
/// `recrdeptask` (BitBake User Manual, "Syntax and Operators", section "Dependencies").
///
/// - `NothingProvides` and `SeveralProvide`: a name has no provider that a target names, a word of `[depends]`, or a flag with a
///   word asks for; `[recrdeptask]` asks for the names of every recipe that it goes through. A word of `[depends]` without a
///   task is `NothingProvides` too (own rule).
/// - `NoSuchTask`: the provider of a target's name, or of a word of `[depends]`, lacks the task.
/// - `TaskCycle`: each of the tasks needs the next and the last one the first, which is the least by PN and task.
/// - `Tasks`: more than 65,536 tasks are reached (own rule).
/// - `Memory`: memory ran out. `BadThreads` never comes.
///
/// Where several causes stand, one of them is told. The condition: there are fewer than 2^32 recipes.
pub fn build(alloc: Global, facts: &FactSet, targets: &[Target]) -> Result<Graph, GraphFault>
    requires { length facts.now.recipes < 2 ^ 32 }
    ensures graph { IfOk result (IsGraph facts.now targets.now) }
    ensures few { IfOk result (λ graph. length graph.nodes ≤ 65536) }
    ensures whole { IfOk result (λ graph. HasNoRefusal facts.now targets.now) }
    ensures err { IfErr result (IsGraphFault facts.now targets.now) }
{
    let context = Context::new(alloc, facts)?;
    let leveled = level(alloc, facts, &context, targets)?;
    graph_of(alloc, facts, &context, targets, &leveled)
}

/// The graph of the tasks that are found, by how deep they stand; or their cycle. Only the contract reads the targets.
fn graph_of(
    alloc: Global,
    facts: &FactSet,
    context: &Context,
    targets: &[Target],
    leveled: &Leveled,
) -> Result<Graph, GraphFault>
    requires few { length facts.now.recipes < 2 ^ 32 }
    requires context { IsContext facts.now context.now }
    requires reached { AreReached facts.now context.now.table targets.now leveled.now.reached.tasks.items
        leveled.now.reached.edges.items leveled.now.reached.ends }
    requires depths { AreLevels facts.now context.now.table targets.now leveled.now.reached.tasks.items
        leveled.now.depths }
    ensures graph { IfOk result (IsGraph facts.now targets.now) }
    ensures few { IfOk result (λ graph. length graph.nodes ≤ 65536) }
    ensures whole { IfOk result (λ graph. HasNoRefusal facts.now targets.now) }
    ensures err { IfErr result (IsGraphFault facts.now targets.now) }
{
    let table = &context.table;
    let reached = &leveled.reached;
    match &leveled.depths {
        Depths::Cycle(places) => Err(GraphFault::TaskCycle {
            tasks: turned(alloc, facts, table, &reached.tasks, places)?,
        }),
        Depths::Found(depths) => Ok(emit(alloc, facts, table, reached, depths)?),
    }
}
