// How deep the nodes of a graph stand.
ghost use Rattle.std.specs.Prelude.{◌≡◌, ◌<◌, ◌≤◌, ◌^◌, IfOk, All, length, map, drop, ℕ, Contains, slice_index_or};
ghost use Rattle.graph_walk.specs.Edges.{AreWithin};
ghost use Rattle.graph_walk.specs.Marks.{mark_at, depth_at};
ghost use Rattle.graph_walk.specs.Found.{AreDepths};

use crate::marks::{Mark, Walk};
use std::alloc::Global;
use tree_model::{ListOf, Mem};

/// What is found of a graph whose nodes are numbers.
#[derive(Drop)]
pub enum Depths {
    /// Each node's depth, by its number.
    Found(Vec<u32>),
    /// Nodes of which each needs the next, and the last one the first.
    Cycle(Vec<u32>),
}

/// The depths of all nodes, given each one's dependencies; or a cycle.
pub fn depths_of(alloc: Global, edges: &[ListOf<usize>]) -> Result<Depths, Mem>
    requires within { AreWithin edges.now }
    requires few { length edges.now < 2 ^ 32 }
    ensures { IfOk result (AreDepths edges.now) }
{
    let mut walk = Walk::new(alloc, edges)?;
    for root in 0..edges.len() {
        if let Some(met) = walk.visit(edges, root)? {
            return Ok(Depths::Cycle(path_from(alloc, &walk.path, met)?));
        }
    }
    Ok(Depths::Found(depths_in(alloc, &walk.marks)?))
}

/// The nodes of the path from this one on.
fn path_from(alloc: Global, path: &[usize], node: usize) -> Result<Vec<u32>, Mem>
    requires small { All (λ v. v < 2 ^ 32) path.now }
    requires met { Contains path.now node }
    ensures { IfOk result (λ cycle. (place : ℕ) × (place < length path.now) × (slice_index_or path.now place 0 ≡ node)
        × (cycle.items ≡ drop place path.now)) }
{
    let place = place_of(path, node);
    let mut cycle = Vec::with_capacity(alloc, path.len() - place)?;
    for other in &path[place..] {
        cycle.push(*other as u32)?;
    }
    Ok(cycle)
}

fn place_of(path: &[usize], node: usize) -> usize
    requires { Contains path.now node }
    ensures within { result < length path.now }
    ensures met { slice_index_or path.now result 0 ≡ node }
{
    for (place, other) in path.iter().enumerate() {
        if *other == node {
            return place;
        }
    }
    unreachable!()
}

/// The depths of nodes that are done.
fn depths_in(alloc: Global, marks: &[Mark]) -> Result<Vec<u32>, Mem>
    requires { (v depth : ℕ) → mark_at marks.now v ≡ Mark.Done depth → depth < 2 ^ 32 }
    ensures { IfOk result (λ made. made.items ≡ map depth_at marks.now) }
{
    let mut made = Vec::with_capacity(alloc, marks.len())?;
    for mark in marks {
        made.push(depth_of(*mark) as u32)?;
    }
    Ok(made)
}

fn depth_of(mark: Mark) -> usize
    ensures { result ≡ depth_at mark }
{
    match mark {
        Mark::Done(depth) => depth,
        Mark::New => 0,
        Mark::Open => 0,
    }
}
