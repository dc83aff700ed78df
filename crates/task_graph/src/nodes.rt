// The nodes of a graph, with the numbers of their dependencies.
ghost use Rattle.std.specs.Prelude.{◌≡◌, ◌<◌, ◌≤◌, ◌^◌, IfOk, All, length, map, slice_index};
ghost use Rattle.std.specs.List.{AllZip};
ghost use Rattle.graph_walk.specs.Edges.{AreWithin};
ghost use Rattle.task_graph.specs.Table.{IsTable};
ghost use Rattle.task_graph.specs.Edges.{IsNumbered};
ghost use Rattle.task_graph.specs.Order.{AreAllPlaces, AreRanks, AreNumbers, IsNodeOf, IsEmitted, place_of};

use crate::order::{Draft, ordered_drafts};
use crate::reach::Reached;
use crate::table::TaskTable;
use meta_model::{FactSet, Graph, Node};
use std::alloc::Global;
use tree_model::{ListOf, Mem};

/// For each place the number of its node.
fn ranks_of(alloc: Global, drafts: &[Draft]) -> Result<Vec<u32>, Mem>
    requires few { length drafts.now ≤ 65536 }
    requires places { AreAllPlaces (length drafts.now) drafts.now }
    ensures { IfOk result (λ ranks. AreRanks drafts.now ranks.items) }
{
    let mut ranks = vec![in alloc; 0u32; drafts.len()]?;
    for (number, draft) in drafts.iter().enumerate() {
        ranks[draft.place as usize] = number as u32;
    }
    Ok(ranks)
}

/// The numbers of places.
fn ranked(alloc: Global, ranks: &[u32], places: &[usize]) -> Result<Vec<u32>, Mem>
    requires { All (λ place. place < length ranks.now) places.now }
    ensures { IfOk result (λ made. made.items ≡ map (slice_index ranks.now) places.now) }
{
    let mut made = Vec::with_capacity(alloc, places.len())?;
    for place in places {
        made.push(ranks[*place])?;
    }
    Ok(made)
}

/// The numbers of places, ascending and each once.
fn numbers_of(alloc: Global, ranks: &[u32], places: &[usize]) -> Result<ListOf<u32>, Mem>
    requires { All (λ place. place < length ranks.now) places.now }
    ensures { IfOk result (AreNumbers ranks.now places.now) }
{
    let mut numbers = ranked(alloc, ranks, places)?;
    numbers.sort_unstable();
    numbers.dedup();
    Ok(ListOf::from_vec(numbers))
}

/// The node of a draft.
fn node_of(alloc: Global, ranks: &[u32], edges: &[ListOf<usize>], draft: Draft) -> Result<Node, Mem>
    requires edges { AreWithin edges.now }
    requires ranks { length ranks.now ≡ length edges.now }
    requires placed { draft.place < length edges.now }
    ensures { IfOk result (IsNodeOf ranks.now edges.now draft) }
{
    let places = &edges[draft.place as usize];
    let deps = numbers_of(alloc, ranks, places.as_slice())?;
    Ok(Node {
        id: draft.id,
        recipe: draft.recipe,
        deps,
        depth: draft.depth,
    })
}

/// The nodes of drafts.
fn nodes_of(
    alloc: Global,
    ranks: &[u32],
    edges: &[ListOf<usize>],
    drafts: Vec<Draft>,
) -> Result<ListOf<Node>, Mem>
    requires edges { AreWithin edges.now }
    requires ranks { length ranks.now ≡ length edges.now }
    requires placed { All (λ draft. draft.place < length edges.now) drafts.items }
    ensures { IfOk result (AllZip (IsNodeOf ranks.now edges.now) drafts.items) }
{
    let mut nodes = ListOf::new(alloc);
    for draft in drafts {
        let node = node_of(alloc, ranks, edges, draft)?;
        nodes.push(node)?;
    }
    Ok(nodes)
}

/// The graph of the tasks that are found, by their depths.
pub(crate) fn emit(
    alloc: Global,
    facts: &FactSet,
    table: &TaskTable,
    reached: &Reached,
    depths: &[u32],
) -> Result<Graph, Mem>
    requires few { length facts.now.recipes < 2 ^ 32 }
    requires table { IsTable facts.now table.now }
    requires numbered { All (IsNumbered table.now) reached.now.tasks.items }
    requires small { length reached.now.tasks.items ≤ 65536 }
    requires depths { length depths.now ≡ length reached.now.tasks.items }
    requires edges { AreWithin reached.now.edges.items }
    requires long { length reached.now.edges.items ≡ length reached.now.tasks.items }
    requires ends { All (λ place. place < length reached.now.tasks.items) reached.now.ends }
    ensures { IfOk result (IsEmitted facts.now table.now reached.now.tasks.items reached.now.edges.items
        reached.now.ends depths.now) }
{
    let drafts = ordered_drafts(alloc, facts, table, &reached.tasks, depths)?;
    let ranks = ranks_of(alloc, &drafts)?;
    let targets = ranked(alloc, &ranks, reached.ends.as_slice())?;
    let nodes = nodes_of(alloc, &ranks, &reached.edges, drafts)?;
    Ok(Graph {
        nodes,
        targets: ListOf::from_vec(targets),
    })
}
