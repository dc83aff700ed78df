// Nodes in the order in which they are found.
ghost use Rattle.std.specs.Prelude.{◌≡◌, ◌<◌, ◌≤◌, ◌^◌, ◌∷◌, ◌++◌, [], OnOk, IfOk, All, length, slice_get, Some, ℕ};
ghost use Rattle.std.specs.List.{AllZip};
ghost use Rattle.graph_walk.specs.Frontier.{IsFrontier, with_node, with_nodes, room, number_of};

use std::alloc::Global;
use tree_model::{ListOf, Mem};

/// The nodes that were found, in order and each once, and each one's place among them.
#[derive(Drop)]
pub struct Frontier {
    /// The nodes that were found, in order.
    pub found: Vec<usize>,
    /// For each node its place among those that were found, if it was.
    pub numbers: Vec<Option<usize>>,
}

impl Frontier {
    /// Of so many nodes none is found.
    pub fn new(alloc: Global, count: usize) -> Result<Frontier, Mem>
        ensures frontier { IfOk result (λ made. IsFrontier made.found.items made.numbers.items) }
        ensures empty { IfOk result (λ made. made.found.items ≡ []) }
        ensures count { IfOk result (λ made. length made.numbers.items ≡ count) }
    {
        Ok(Frontier {
            found: Vec::new(alloc),
            numbers: vec![in alloc; None; count]?,
        })
    }

    /// Finds a node; answers its place among those that are found.
    pub fn add(&mut self, node: usize) -> Result<usize, Mem>
        requires frontier { IsFrontier self.old.found.items self.old.numbers.items }
        requires within { node < length self.old.numbers.items }
        ensures frontier { IfOk result (λ place. IsFrontier self.new.found.items self.new.numbers.items) }
        ensures found { IfOk result (λ place. self.new.found.items ≡ with_node self.old.found.items node) }
        ensures place { IfOk result (λ place. slice_get self.new.found.items place ≡ Some node) }
        ensures count { IfOk result (λ place. length self.new.numbers.items ≡ length self.old.numbers.items) }
        ensures room { IfOk result (λ place. room self.new.found.items self.new.numbers.items
            ≡ room self.old.found.items self.old.numbers.items) }
    {
        if let Some(place) = self.numbers[node] {
            return Ok(place);
        }
        let place = self.found.len();
        self.found.push(node)?;
        self.numbers[node] = Some(place);
        Ok(place)
    }

    /// Finds nodes; answers their places.
    pub fn add_all(&mut self, alloc: Global, nodes: &[usize]) -> Result<Vec<usize>, Mem>
        requires frontier { IsFrontier self.old.found.items self.old.numbers.items }
        requires within { All (λ node. node < length self.old.numbers.items) nodes.now }
        ensures frontier { IfOk result (λ places. IsFrontier self.new.found.items self.new.numbers.items) }
        ensures found { IfOk result (λ places. self.new.found.items ≡ with_nodes self.old.found.items nodes.now) }
        ensures places { IfOk result (λ places. AllZip
            (λ node place. slice_get self.new.found.items place ≡ Some node) nodes.now places.items) }
        ensures count { IfOk result (λ places. length self.new.numbers.items ≡ length self.old.numbers.items) }
        ensures room { IfOk result (λ places. room self.new.found.items self.new.numbers.items
            ≡ room self.old.found.items self.old.numbers.items) }
    {
        let mut places = Vec::with_capacity(alloc, nodes.len())?;
        for node in nodes {
            let place = self.add(*node)?;
            places.push(place)?;
        }
        Ok(places)
    }
}
