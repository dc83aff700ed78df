// The nodes of a graph that lead to no ring.
ghost use Rattle.std.specs.Prelude.{◌≡◌, ◌<◌, ◌^◌, [], IfOk, OnOk, length, map};
ghost use Rattle.graph_walk.specs.Edges.{AreWithin};
ghost use Rattle.graph_walk.specs.Rounds.{AreRounds};
ghost use Rattle.graph_walk.specs.Marks.{IsWalk, NeverNew, mark_at, round_at};

use crate::marks::{Mark, Walk};
use std::alloc::Global;
use tree_model::{ListOf, Mem};

/// For each node, given each one's dependencies, the number of the round that settles it; none where it stands in a ring, or
/// leads to one.
pub fn rounds_of(alloc: Global, edges: &[ListOf<usize>]) -> Result<Vec<Option<usize>>, Mem>
    requires within { AreWithin edges.now }
    requires few { length edges.now < 2 ^ 64 }
    ensures { IfOk result (λ made. AreRounds edges.now made.items) }
{
    let mut walk = Walk::new(alloc, edges)?;
    for root in 0..edges.len() {
        settle(&mut walk, edges, root)?;
    }
    rounds_in(alloc, &walk.marks)
}

/// Marks a node and all that it leads to; a path that comes to a ring is given up.
fn settle(walk: &mut Walk, edges: &[ListOf<usize>], root: usize) -> Result<(), Mem>
    requires within { AreWithin edges.now }
    requires few { length edges.now < 2 ^ 64 }
    requires root { root < length edges.now }
    requires walk { IsWalk edges.now walk.old.rings walk.old.marks.items walk.old.left.items walk.old.path.items }
    requires empty { walk.old.path.items ≡ [] }
    ensures walk { OnOk result (IsWalk edges.now walk.new.rings walk.new.marks.items walk.new.left.items walk.new.path.items) }
    ensures empty { OnOk result (walk.new.path.items ≡ []) }
    ensures met { OnOk result (NeverNew walk.old.marks.items walk.new.marks.items) }
    ensures root { OnOk result (mark_at walk.new.marks.items root ≡ Mark.New → ⊥) }
{
    if let Some(_) = walk.visit(edges, root)? {
        walk.give_up();
    }
    Ok(())
}

/// The rounds of nodes that a whole walk has marked.
fn rounds_in(alloc: Global, marks: &[Mark]) -> Result<Vec<Option<usize>>, Mem>
    ensures { IfOk result (λ made. made.items ≡ map round_at marks.now) }
{
    let mut made = Vec::with_capacity(alloc, marks.len())?;
    for mark in marks {
        made.push(round_of(*mark))?;
    }
    Ok(made)
}

fn round_of(mark: Mark) -> Option<usize>
    ensures { result ≡ round_at mark }
{
    match mark {
        Mark::Done(depth) => Some(depth),
        Mark::New => None,
        Mark::Open => None,
    }
}
