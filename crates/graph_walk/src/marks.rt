// A walk down a graph whose nodes are numbers.
ghost use Rattle.std.specs.Prelude.{◌≡◌, ◌+◌, ◌-◌, ◌<◌, ◌≤◌, ◌^◌, ◌∷◌, ◌++◌, [], OnOk, IfOk, MatchOption, length, take, replicate, slice_set, slice_index_or, slice_get, Some, ℕ, map, true, false, IsTrue, ◌↔◌};
ghost use Rattle.graph_walk.specs.Edges.{AreWithin, edges_from};
ghost use Rattle.graph_walk.specs.Marks.{IsWalk, ClosesAt, depth_over, mark_at, work_left, NeverNew};

use std::alloc::Global;
use tree_model::{ListOf, Mem};

/// How far the walk has come with a node.
#[derive(Clone, Copy)]
pub(crate) enum Mark {
    /// It wasn't met.
    New,
    /// It stands on the path, or leads to a ring that the walk has met.
    Open,
    /// All that it leads to is done; it has this depth.
    Done(usize),
}

/// A walk down a graph: each node's mark, how many of its dependencies are still to be looked at, and the path that leads to
/// where the walk stands. A walk that gave up a path because of a ring has nodes off its path that are open.
#[derive(Drop)]
pub(crate) struct Walk {
    pub(crate) rings: bool,
    pub(crate) marks: Vec<Mark>,
    pub(crate) left: Vec<usize>,
    pub(crate) path: Vec<usize>,
}

fn mark_of(marks: &[Mark], node: usize) -> Mark
    ensures { result ≡ mark_at marks.now node }
{
    marks.get(node).copied().unwrap_or(Mark::New)
}

/// 0, or one more than the depth of the deepest of these nodes.
fn depth_of(marks: &[Mark], nodes: &[usize]) -> usize
    requires { (v depth : ℕ) → mark_at marks.now v ≡ Mark.Done depth → depth + 1 < 2 ^ 64 }
    ensures { result ≡ depth_over marks.now nodes.now }
{
    let mut deepest = 0;
    for node in nodes {
        deepest = match mark_of(marks, *node) {
            Mark::Done(depth) => deepest.max(depth + 1),
            Mark::New => deepest,
            Mark::Open => deepest,
        };
    }
    deepest
}

impl Walk {
    /// A walk that has met no node.
    pub(crate) fn new(alloc: Global, edges: &[ListOf<usize>]) -> Result<Walk, Mem>
        ensures walk { IfOk result (λ walk. IsWalk edges.now walk.rings walk.marks.items walk.left.items walk.path.items) }
        ensures new { IfOk result (λ walk. walk.path.items ≡ []) }
        ensures rings { IfOk result (λ walk. walk.rings ≡ false) }
    {
        Ok(Walk {
            rings: false,
            marks: vec![in alloc; Mark::New; edges.len()]?,
            left: lengths(alloc, edges)?,
            path: Vec::new(alloc),
        })
    }

    /// Puts a node on the path.
    fn open(&mut self, node: usize) -> Result<(), Mem>
        requires { node < length self.old.marks.items }
        ensures marks { OnOk result (self.new.marks.items ≡ slice_set self.old.marks.items node Mark.Open) }
        ensures path { OnOk result (self.new.path.items ≡ self.old.path.items ++ node ∷ []) }
        ensures left { self.new.left ≡ self.old.left }
        ensures rings { self.new.rings ≡ self.old.rings }
    {
        self.path.push(node)?;
        self.marks[node] = Mark::Open;
        Ok(())
    }

    /// Takes the last node of the path, of which all dependencies are done, off the path, and gives it its depth.
    fn finish(&mut self, edges: &[ListOf<usize>], node: usize)
        requires walk { IsWalk edges.now self.old.rings self.old.marks.items self.old.left.items self.old.path.items }
        requires within { node < length edges.now }
        requires few { length edges.now < 2 ^ 64 }
        ensures marks { self.new.marks.items ≡ slice_set self.old.marks.items node
            (Mark.Done (depth_over self.old.marks.items (edges_from edges.now node))) }
        ensures path { self.new.path.items ≡ take (length self.old.path.items - 1) self.old.path.items }
        ensures left { self.new.left ≡ self.old.left }
        ensures rings { self.new.rings ≡ self.old.rings }
    {
        let depth = depth_of(&self.marks, edges[node].as_slice());
        self.marks[node] = Mark::Done(depth);
        let _ = self.path.pop();
    }

    /// Looks at the next dependency of the last node of the path, which is open: it takes one step, and where that dependency
    /// is open too it says so.
    fn step(&mut self, edges: &[ListOf<usize>], node: usize) -> Result<Option<usize>, Mem>
        requires within { AreWithin edges.now }
        requires few { length edges.now < 2 ^ 64 }
        requires walk { IsWalk edges.now self.old.rings self.old.marks.items self.old.left.items self.old.path.items }
        requires last { slice_get self.old.path.items (length self.old.path.items - 1) ≡ Some node }
        requires opened { mark_at self.old.marks.items node ≡ Mark.Open }
        ensures walk { IfOk result (λ met. IsWalk edges.now self.new.rings self.new.marks.items self.new.left.items
            self.new.path.items) }
        ensures on { IfOk result (λ met. MatchOption met
            (work_left self.new.marks.items self.new.left.items self.new.path.items < work_left self.old.marks.items
            self.old.left.items self.old.path.items) (ClosesAt edges.now self.new.rings self.new.path.items)) }
        ensures met { IfOk result (λ met. NeverNew self.old.marks.items self.new.marks.items) }
        ensures rings { self.new.rings ≡ self.old.rings }
    {
        let left = self.left[node];
        if left == 0 {
            self.finish(edges, node);
            return Ok(None);
        }
        let next = edges[node].as_slice()[left - 1];
        match self.marks[next] {
            Mark::Done(_) => self.left[node] = left - 1,
            Mark::Open => return Ok(Some(next)),
            Mark::New => self.open(next)?,
        }
        Ok(None)
    }

    /// The last node of the path.
    fn last(&self) -> Option<usize>
        ensures { result ≡ slice_get self.now.path.items (length self.now.path.items - 1) }
    {
        self.path.last().copied()
    }

    fn is_open(&self, node: usize) -> bool
        ensures { IsTrue result ↔ (mark_at self.now.marks.items node ≡ Mark.Open) }
    {
        match self.marks.get(node) {
            Some(Mark::Open) => true,
            Some(Mark::New) => false,
            Some(Mark::Done(_)) => false,
            None => false,
        }
    }

    fn is_new(&self, node: usize) -> bool
        requires { node < length self.now.marks.items }
        ensures { IsTrue result ↔ (mark_at self.now.marks.items node ≡ Mark.New) }
    {
        match self.marks[node] {
            Mark::New => true,
            Mark::Open => false,
            Mark::Done(_) => false,
        }
    }

    /// Takes a last node of the path that isn't open off the path.
    fn leave(&mut self)
        ensures marks { self.new.marks ≡ self.old.marks }
        ensures left { self.new.left ≡ self.old.left }
        ensures path { self.new.path.items ≡ take (length self.old.path.items - 1) self.old.path.items }
        ensures rings { self.new.rings ≡ self.old.rings }
    {
        let _ = self.path.pop();
    }

    /// One step from the last node of the path, as `step`.
    fn turn(&mut self, edges: &[ListOf<usize>], node: usize) -> Result<Option<usize>, Mem>
        requires within { AreWithin edges.now }
        requires few { length edges.now < 2 ^ 64 }
        requires walk { IsWalk edges.now self.old.rings self.old.marks.items self.old.left.items self.old.path.items }
        requires last { slice_get self.old.path.items (length self.old.path.items - 1) ≡ Some node }
        ensures walk { IfOk result (λ met. IsWalk edges.now self.new.rings self.new.marks.items self.new.left.items
            self.new.path.items) }
        ensures on { IfOk result (λ met. MatchOption met
            (work_left self.new.marks.items self.new.left.items self.new.path.items < work_left self.old.marks.items
            self.old.left.items self.old.path.items) (ClosesAt edges.now self.new.rings self.new.path.items)) }
        ensures met { IfOk result (λ met. NeverNew self.old.marks.items self.new.marks.items) }
        ensures rings { self.new.rings ≡ self.old.rings }
    {
        if self.is_open(node) {
            self.step(edges, node)
        } else {
            self.leave();
            Ok(None)
        }
    }

    /// Begins a path at a node, where it wasn't met yet.
    fn start(&mut self, edges: &[ListOf<usize>], root: usize) -> Result<(), Mem>
        requires root { root < length edges.now }
        requires walk { IsWalk edges.now self.old.rings self.old.marks.items self.old.left.items self.old.path.items }
        requires empty { self.old.path.items ≡ [] }
        ensures walk { OnOk result (IsWalk edges.now self.new.rings self.new.marks.items self.new.left.items self.new.path.items) }
        ensures met { OnOk result (NeverNew self.old.marks.items self.new.marks.items) }
        ensures root { OnOk result (mark_at self.new.marks.items root ≡ Mark.New → ⊥) }
        ensures rings { self.new.rings ≡ self.old.rings }
    {
        if self.is_new(root) {
            self.open(root)?;
        }
        Ok(())
    }

    /// Goes down from a node until the path is empty, or an open node is met again.
    pub(crate) fn visit(
        &mut self,
        edges: &[ListOf<usize>],
        root: usize,
    ) -> Result<Option<usize>, Mem>
        requires within { AreWithin edges.now }
        requires few { length edges.now < 2 ^ 64 }
        requires root { root < length edges.now }
        requires walk { IsWalk edges.now self.old.rings self.old.marks.items self.old.left.items self.old.path.items }
        requires empty { self.old.path.items ≡ [] }
        ensures walk { IfOk result (λ met. IsWalk edges.now self.new.rings self.new.marks.items self.new.left.items
            self.new.path.items) }
        ensures closed { IfOk result (λ met. MatchOption met (self.new.path.items ≡ [])
            (ClosesAt edges.now self.new.rings self.new.path.items)) }
        ensures met { IfOk result (λ met. NeverNew self.old.marks.items self.new.marks.items) }
        ensures root { IfOk result (λ met. mark_at self.new.marks.items root ≡ Mark.New → ⊥) }
        ensures rings { self.new.rings ≡ self.old.rings }
    {
        self.start(edges, root)?;
        while let Some(node) = self.last() {
            if let Some(met) = self.turn(edges, node)? {
                return Ok(Some(met));
            }
        }
        Ok(None)
    }

    /// Gives up the path, whose last node needs one that is open: all its nodes lead to a ring, and stay open.
    pub(crate) fn give_up(&mut self)
        ensures marks { self.new.marks ≡ self.old.marks }
        ensures left { self.new.left ≡ self.old.left }
        ensures path { self.new.path.items ≡ [] }
        ensures rings { self.new.rings ≡ true }
    {
        self.path.clear();
        self.rings = true;
    }
}

fn lengths(alloc: Global, edges: &[ListOf<usize>]) -> Result<Vec<usize>, Mem>
    ensures { IfOk result (λ made. made.items ≡ map length edges.now) }
{
    let mut made = Vec::with_capacity(alloc, edges.len())?;
    for list in edges {
        made.push(list.len())?;
    }
    Ok(made)
}
