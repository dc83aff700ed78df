// Which records name which, by their places.
ghost use Rattle.std.specs.Prelude.{◌≡◌, ◌<◌, IfOk, MatchOption, OnOk, Some, ℕ};
ghost use Rattle.store_clean.specs.Naming.{place_in};
ghost use Rattle.store_clean.specs.Steps.{AreNodeEdges, ArePlaces, IsPlaceTable, NotesPlace, node_names};
ghost use Rattle.tree_model.specs.declared.hash.Hash.{Hash as AHash};
ghost use Rattle.std.specs.Prelude.{List};

use crate::nodes::Node;
use crate::places::place_of;
use indexmap::IndexMap;
use std::alloc::Global;
use tree_model::{Hash, ListOf, Mem};

/// The place of a name, where it is below one's own.
fn earlier_of(table: &IndexMap<[u8; 32], usize>, own: usize, name: &Hash) -> Option<usize>
    ensures { (names : List AHash) → IsPlaceTable names table.now.entries → MatchOption result
        ((w : ℕ) → w < own → place_in names name.now ≡ Some w → ⊥) (λ w. (w < own) × (place_in names name.now ≡ Some w)) }
{
    match place_of(table, name) {
        Some(place) if place < own => Some(place),
        _ => None,
    }
}

/// Puts the place of a name to these, where it is below one's own.
fn note_earlier(
    table: &IndexMap<[u8; 32], usize>,
    own: usize,
    name: &Hash,
    places: &mut ListOf<usize>,
) -> Result<(), Mem>
    ensures { OnOk result ((names : List AHash) → IsPlaceTable names table.now.entries → NotesPlace names own name.now places.old places.new) }
{
    match earlier_of(table, own, name) {
        Some(place) => places.push(place),
        None => Ok(()),
    }
}

/// The places below one's own of some names.
fn earlier_places(
    alloc: Global,
    table: &IndexMap<[u8; 32], usize>,
    own: usize,
    needs: &[Hash],
) -> Result<ListOf<usize>, Mem>
    ensures { (names : List AHash) → IsPlaceTable names table.now.entries → IfOk result (ArePlaces names own needs.now) }
{
    let mut places = ListOf::new(alloc);
    for name in needs {
        note_earlier(table, own, name, &mut places)?;
    }
    Ok(places)
}

/// What each record names among the earlier ones.
pub(crate) fn edges_of(
    alloc: Global,
    table: &IndexMap<[u8; 32], usize>,
    nodes: &[Node],
) -> Result<Vec<ListOf<usize>>, Mem>
    requires { IsPlaceTable (node_names nodes.now) table.now.entries }
    ensures { IfOk result (λ edges. AreNodeEdges nodes.now edges.items) }
{
    let mut edges = Vec::with_capacity(alloc, nodes.len())?;
    for (own, node) in nodes.iter().enumerate() {
        edges.push(earlier_places(alloc, table, own, node.needs.as_slice())?)?;
    }
    Ok(edges)
}
