// The places of records, by their names.
ghost use Rattle.std.specs.Prelude.{◌≡◌, IfOk, None, OnOk, Some, if◌then◌else◌};
ghost use Rattle.std.specs.Map.{lookup};
ghost use Rattle.std.specs.Option.{option_or};
ghost use Rattle.std.specs.Str.{bytes_eq};
ghost use Rattle.tree_model.specs.declared.hash.Hash.{Hash as AHash};
ghost use Rattle.store_model.specs.Rows.{hash_eq};
ghost use Rattle.store_clean.specs.Steps.{IsPlaceTable, node_names};

use crate::nodes::Node;
use indexmap::IndexMap;
use std::alloc::Global;
use tree_model::{Hash, Mem};

/// Puts a place under a name, where it has none.
pub(crate) fn put_place(
    table: &mut IndexMap<[u8; 32], usize>,
    name: &Hash,
    place: usize,
) -> Result<(), Mem>
    ensures { OnOk result ((q : AHash) → lookup (bytes_eq q.bytes) table.new.entries
        ≡ option_or (lookup (bytes_eq q.bytes) table.old.entries) (if hash_eq name.now q then Some place else None)) }
{
    if table.contains_key(&name.bytes) {
        return Ok(());
    }
    table.insert(name.bytes, place)?;
    Ok(())
}

/// The place of a name.
pub(crate) fn place_of(table: &IndexMap<[u8; 32], usize>, name: &Hash) -> Option<usize>
    ensures { result ≡ lookup (bytes_eq name.now.bytes) table.now.entries }
{
    match table.get(&name.bytes) {
        Some(place) => Some(*place),
        None => None,
    }
}

/// The places of all names.
pub(crate) fn place_table(alloc: Global, nodes: &[Node]) -> Result<IndexMap<[u8; 32], usize>, Mem>
    ensures { IfOk result (λ table. IsPlaceTable (node_names nodes.now) table.entries) }
{
    let mut table = IndexMap::new(alloc);
    for (place, node) in nodes.iter().enumerate() {
        put_place(&mut table, &node.name, place)?;
    }
    Ok(table)
}
