// The tasks that targets reach.
ghost use Rattle.std.specs.Prelude.{◌≡◌, ◌<◌, ◌≤◌, ◌^◌, ◌++◌, [], OnOk, IfOk, IfErr, All, Any, length, Some, Err, ℕ};
ghost use Rattle.std.specs.List.{AllZip};
ghost use Rattle.meta_model.specs.GraphRefusal.{target_task};
ghost use Rattle.meta_model.specs.TaskGraph.{HasMoreTasks, IsGraphRefusal};
ghost use Rattle.task_graph.specs.Faults.{IsRefusalOf, IsFaultOf};
ghost use Rattle.graph_walk.specs.Frontier.{IsFrontier, room, free};
ghost use Rattle.task_graph.specs.Context.{IsContext, IsNumberOf};
ghost use Rattle.task_graph.specs.Edges.{IsNumbered, IsRefusedAt};
ghost use Rattle.task_graph.specs.Reached.{HasFoundNext, GoesBeyond, IsReaching, AreReached};

use crate::context::{Context, find_task};
use crate::edges::edges_of;
use crate::fault::GraphFault;
use graph_walk::Frontier;
use meta_model::{FactSet, Target};
use std::alloc::Global;
use tree_model::{ListOf, Mem};

/// The most tasks that a graph may have.
const TASK_LIMIT: usize = 65_536;

/// The tasks that targets reach, by their numbers and in the order in which they are found; of each the places of those that it
/// needs; and the places of the targets.
#[derive(Drop)]
pub(crate) struct Reached {
    pub(crate) tasks: Vec<usize>,
    pub(crate) edges: Vec<ListOf<usize>>,
    pub(crate) ends: ListOf<usize>,
}

/// The targets' tasks, which are found, and their places.
#[derive(Drop)]
struct Begun {
    frontier: Frontier,
    ends: ListOf<usize>,
}

/// Refuses more tasks than a graph may have.
fn check_limit(count: usize) -> Result<(), GraphFault>
    ensures ok { OnOk result (count ≤ 65536) }
    ensures err { IfErr result (IsFaultOf (λ refusal. ⊥) (λ ids. ⊥) (65536 < count)) }
{
    if count > TASK_LIMIT {
        return Err(GraphFault::Tasks);
    }
    Ok(())
}

/// The numbers of the tasks that targets stand for.
fn numbers_of(
    alloc: Global,
    facts: &FactSet,
    context: &Context,
    targets: &[Target],
) -> Result<Vec<usize>, GraphFault>
    requires few { length facts.now.recipes < 2 ^ 32 }
    requires context { IsContext facts.now context.now }
    ensures ok { IfOk result (λ numbers. AllZip (λ target u. IsNumberOf context.now.table
        (target_task facts.now target) u) targets.now numbers.items) }
    ensures err { IfErr result (IsRefusalOf (λ refusal. Any (λ target. target_task facts.now target ≡ Err refusal)
        targets.now)) }
{
    let mut numbers = Vec::with_capacity(alloc, targets.len())?;
    for target in targets {
        let number = find_task(
            alloc,
            facts,
            context,
            target.name.as_str(),
            target.task.as_str(),
        )?;
        numbers.push(number)?;
    }
    Ok(numbers)
}

/// Finds the tasks that one needs; answers their places.
fn find_next(
    alloc: Global,
    facts: &FactSet,
    context: &Context,
    frontier: &mut Frontier,
    number: usize,
) -> Result<ListOf<usize>, GraphFault>
    requires few { length facts.now.recipes < 2 ^ 32 }
    requires context { IsContext facts.now context.now }
    requires numbered { IsNumbered context.now.table number }
    requires count { length frontier.old.numbers.items ≡ length context.now.table.spots.items }
    requires frontier { IsFrontier frontier.old.found.items frontier.old.numbers.items }
    ensures frontier { IfOk result (λ places. IsFrontier frontier.new.found.items frontier.new.numbers.items) }
    ensures found { IfOk result (λ places. HasFoundNext facts.now context.now.table number frontier.old.found.items
        frontier.new.found.items places) }
    ensures count { IfOk result (λ places. length frontier.new.numbers.items ≡ length context.now.table.spots.items) }
    ensures room { IfOk result (λ places. room frontier.new.found.items frontier.new.numbers.items
        ≡ room frontier.old.found.items frontier.old.numbers.items) }
    ensures within { IfOk result (λ places. length frontier.new.found.items ≤ 65536) }
    ensures err { IfErr result (IsFaultOf (IsRefusedAt facts.now context.now.table number) (λ ids. ⊥)
        (GoesBeyond facts.now context.now.table number frontier.old.found.items)) }
{
    let needed = edges_of(alloc, facts, context, number)?;
    let places = frontier.add_all(alloc, needed.as_slice())?;
    check_limit(frontier.found.len())?;
    Ok(ListOf::from_vec(places))
}

/// Finds the tasks of the targets; answers their places.
fn find_targets(
    alloc: Global,
    facts: &FactSet,
    context: &Context,
    targets: &[Target],
) -> Result<Begun, GraphFault>
    requires few { length facts.now.recipes < 2 ^ 32 }
    requires context { IsContext facts.now context.now }
    ensures ok { IfOk result (λ made. IsReaching facts.now context.now.table targets.now made.frontier.found.items
        made.frontier.numbers.items 0 [] made.ends) }
    ensures err { IfErr result (IsFaultOf (IsGraphRefusal facts.now targets.now) (λ ids. ⊥)
        (HasMoreTasks facts.now targets.now 65536)) }
{
    let starts = numbers_of(alloc, facts, context, targets)?;
    let mut frontier = Frontier::new(alloc, context.table.spots.len())?;
    let places = frontier.add_all(alloc, starts.as_slice())?;
    check_limit(frontier.found.len())?;
    Ok(Begun {
        frontier,
        ends: ListOf::from_vec(places),
    })
}

/// The tasks that targets reach.
pub(crate) fn reach(
    alloc: Global,
    facts: &FactSet,
    context: &Context,
    targets: &[Target],
) -> Result<Reached, GraphFault>
    requires few { length facts.now.recipes < 2 ^ 32 }
    requires context { IsContext facts.now context.now }
    ensures ok { IfOk result (λ made. AreReached facts.now context.now.table targets.now made.tasks.items
        made.edges.items made.ends) }
    ensures err { IfErr result (IsFaultOf (IsGraphRefusal facts.now targets.now) (λ ids. ⊥)
        (HasMoreTasks facts.now targets.now 65536)) }
{
    let begun = find_targets(alloc, facts, context, targets)?;
    let mut frontier = begun.frontier;
    let ends = begun.ends;
    let mut edges = Vec::new(alloc);
    let mut next = 0;
    while next < frontier.found.len() {
        let at = frontier.found[next];
        let places = find_next(alloc, facts, context, &mut frontier, at)?;
        edges.push(places)?;
        next += 1;
    }
    Ok(Reached {
        tasks: frontier.found,
        edges,
        ends,
    })
}
