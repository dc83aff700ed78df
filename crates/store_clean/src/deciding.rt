// Which records are kept.
ghost use Rattle.std.specs.Prelude.{◌≡◌, IfOk, false, length, map, replicate};
ghost use Rattle.store_model.specs.Believed.{name_cmp};
ghost use Rattle.store_clean.specs.Deciding.{AreRoots, IsNameOrder};
ghost use Rattle.store_clean.specs.Steps.{AreNamed, IsChosen, IsPlaceTable, IsRootMarked, named_place, node_names};

use crate::edges::edges_of;
use crate::nodes::Node;
use crate::places::{place_of, place_table};
use indexmap::IndexMap;
use std::alloc::Global;
use std::cmp::Ordering;
use store_keep::keep;
use tree_model::{Hash, ListOf, Mem};

/// Marks the place of a name, where it has one.
fn mark_root(table: &IndexMap<[u8; 32], usize>, nodes: &[Node], marks: &mut Vec<bool>, root: &Hash)
    requires table { IsPlaceTable (node_names nodes.now) table.now.entries }
    requires long { length marks.old.items ≡ length nodes.now }
    ensures { IsRootMarked (node_names nodes.now) root.now marks.old.items marks.new.items }
{
    if let Some(place) = place_of(table, root) {
        marks[place] = true;
    }
}

/// So many marks, none of them set.
fn no_marks(alloc: Global, count: usize) -> Result<Vec<bool>, Mem>
    ensures { IfOk result (λ made. made.items ≡ replicate count false) }
{
    let mut made = Vec::with_capacity(alloc, count)?;
    for _ in 0..count {
        made.push(false)?;
    }
    Ok(made)
}

/// Marks of the places of these names.
fn root_marks(
    alloc: Global,
    table: &IndexMap<[u8; 32], usize>,
    nodes: &[Node],
    roots: &[Hash],
) -> Result<Vec<bool>, Mem>
    requires { IsPlaceTable (node_names nodes.now) table.now.entries }
    ensures { IfOk result (λ marks. AreRoots (node_names nodes.now) roots.now marks.items) }
{
    let mut marks = no_marks(alloc, nodes.len())?;
    for root in roots {
        mark_root(table, nodes, &mut marks, root);
    }
    Ok(marks)
}

/// A name with its place.
#[derive(Clone, Copy)]
struct Named {
    name: Hash,
    place: usize,
}

/// The names with their places.
fn named_of(alloc: Global, nodes: &[Node]) -> Result<Vec<Named>, Mem>
    ensures { IfOk result (λ made. AreNamed (node_names nodes.now) made.items) }
{
    let mut made = Vec::with_capacity(alloc, nodes.len())?;
    for (place, node) in nodes.iter().enumerate() {
        made.push(Named {
            name: node.name,
            place,
        })?;
    }
    Ok(made)
}

/// The order of names by their bytes.
fn compare(first: &Named, second: &Named) -> Ordering
    ensures { result ≡ name_cmp first.now.name second.now.name }
{
    first
        .name
        .bytes
        .as_slice()
        .cmp(second.name.bytes.as_slice())
}

/// The places of these names.
fn places_of(alloc: Global, named: &[Named]) -> Result<Vec<usize>, Mem>
    ensures { IfOk result (λ made. made.items ≡ map named_place named.now) }
{
    let mut places = Vec::with_capacity(alloc, named.len())?;
    for one in named {
        places.push(one.place)?;
    }
    Ok(places)
}

/// All places, in ascending order of the names.
fn name_order(alloc: Global, nodes: &[Node]) -> Result<Vec<usize>, Mem>
    ensures { IfOk result (λ order. IsNameOrder (node_names nodes.now) order.items) }
{
    let mut named = named_of(alloc, nodes)?;
    named.sort_unstable_by(|a, b| compare(a, b));
    places_of(alloc, &named)
}

/// What was decided of some records.
#[derive(Drop)]
pub(crate) struct Chosen {
    /// The places of all names.
    pub(crate) table: IndexMap<[u8; 32], usize>,
    /// What each record names among the earlier ones.
    pub(crate) edges: Vec<ListOf<usize>>,
    /// Which records are kept.
    pub(crate) marks: Vec<bool>,
}

/// Decides which records are kept.
pub(crate) fn choose(
    alloc: Global,
    nodes: &[Node],
    roots: &[Hash],
    limit: usize,
) -> Result<Chosen, Mem>
    ensures { IfOk result (IsChosen nodes.now roots.now limit) }
{
    let table = place_table(alloc, nodes)?;
    let edges = edges_of(alloc, &table, nodes)?;
    let first = root_marks(alloc, &table, nodes, roots)?;
    let order = name_order(alloc, nodes)?;
    let marks = keep(alloc, &edges, first, &order, limit)?;
    Ok(Chosen {
        table,
        edges,
        marks,
    })
}
