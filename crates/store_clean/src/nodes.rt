// What is asked of the records of a store.
ghost use Rattle.std.specs.Prelude.{◌≡◌, ◌<◌, IfOk, Some, length, slice_get};
ghost use Rattle.std.specs.List.{AllByRecursion};
ghost use Rattle.outside_traits.specs.Fault.{Counts, disk_failed};
ghost use Rattle.outside_traits.specs.Passes.{Passes, Same};
ghost use Rattle.store_model.specs.declared.signature.EquivRow.{EquivRow as ARow};
ghost use Rattle.store_model.specs.declared.signature.ShortStored.{ShortStored as AShort};
ghost use Rattle.store_model.specs.Paths.{record_path};
ghost use Rattle.store_model.specs.Publication.{short_file};
ghost use Rattle.store_model.specs.Readable.{IsHeld};
ghost use Rattle.store_model.specs.Spelling.{short_record};
ghost use Rattle.store_model.specs.Stored.{SpellsShort};
ghost use Rattle.store_clean.specs.Naming.{names_in};
ghost use Rattle.store_clean.specs.Steps.{AreNodesBy, IsNode, IsNodeOf, IsTitled};

use hash_equiv::Index;
use outside_traits::{Disk, DiskFault};
use sig_gen::{SigFault, decode_short_stored};
use std::alloc::Global;
use store_model::{DepLine, EquivRow, ShortStored};
use store_opening::record_path;
use tree_model::{Entry, Hash, ListOf, Mem};

/// What is asked of a record.
#[derive(Drop)]
pub(crate) struct Node {
    /// Its name.
    pub(crate) name: Hash,
    /// The name under which tasks above name it.
    pub(crate) unihash: Hash,
    /// The name of its key.
    pub(crate) key: Hash,
    /// The names that it has: those of the tasks that it needs, and its unihash.
    pub(crate) needs: ListOf<Hash>,
}

/// The stored record that some bytes are.
fn stored_in(alloc: Global, bytes: &[u8]) -> Result<Option<ShortStored>, Mem>
    ensures { (s : AShort) → SpellsShort bytes.now s → IfOk result (λ found. found ≡ Some s) }
{
    match decode_short_stored(alloc, bytes) {
        Ok(stored) => Ok(Some(stored)),
        Err(SigFault::BadRecord) => Ok(None),
        Err(SigFault::Memory) => Err(Mem),
    }
}

/// The stored record that an entry is.
fn stored_of(alloc: Global, entry: &Entry) -> Result<Option<ShortStored>, Mem>
    ensures { (s : AShort) → SpellsShort (short_record s) s → entry.now ≡ short_file s → IfOk result (λ found. found ≡ Some s) }
{
    match entry {
        Entry::File { exec: false, bytes } => stored_in(alloc, bytes.as_slice()),
        Entry::File {
            exec: true,
            bytes: _,
        } => Ok(None),
        Entry::Link { target: _ } => Ok(None),
    }
}

/// The stored record of a name.
fn read_stored<D: Disk>(
    alloc: Global,
    disk: &mut D,
    name: &Hash,
) -> Result<Option<ShortStored>, DiskFault>
    ensures found { D.tells → (s : AShort) → SpellsShort (short_record s) s → (D.story disk.old).held (record_path name.now) ≡ Some (short_file s)
        → IfOk result (λ found. found ≡ Some s) }
    ensures same { D.tells → Passes (D.story disk.old) (D.story disk.new) Same }
    ensures cause { Counts (D.faults disk.old) (D.faults disk.new) (disk_failed result) }
{
    let path = record_path(alloc, name)?;
    match disk.read(alloc, path.as_str())? {
        Some(entry) => Ok(stored_of(alloc, &entry)?),
        None => Ok(None),
    }
}

/// The names of needed tasks, and one more.
fn needs_of(alloc: Global, stored: &ShortStored) -> Result<ListOf<Hash>, Mem>
    ensures { IfOk result (λ made. made ≡ names_in stored.now) }
{
    let mut names = ListOf::new(alloc);
    for dep in stored.sig.deps.as_slice() {
        names.push(dep.name)?;
    }
    names.push(stored.unihash)?;
    Ok(names)
}

/// What is asked of the record of a row. Where it can't be read it names nothing.
fn node_of(alloc: Global, row: &EquivRow, stored: Option<ShortStored>) -> Result<Node, Mem>
    ensures titled { IfOk result (IsTitled row.now) }
    ensures is { (s : AShort) → stored ≡ Some s → IfOk result (IsNodeOf s) }
{
    match stored {
        Some(stored) => Ok(Node {
            name: row.name,
            unihash: row.unihash,
            key: stored.sig.key,
            needs: needs_of(alloc, &stored)?,
        }),
        None => Ok(Node {
            name: row.name,
            unihash: row.unihash,
            key: row.name,
            needs: ListOf::new(alloc),
        }),
    }
}

/// The row at a place.
fn row_at(index: &Index, place: usize) -> &EquivRow
    requires { place < length index.now }
    ensures { slice_get index.now place ≡ Some result.now }
{
    match index.at(place) {
        Some(row) => row,
        None => unreachable!(),
    }
}

/// What is asked of the record of a row, which is read.
fn read_node<D: Disk>(alloc: Global, disk: &mut D, row: &EquivRow) -> Result<Node, DiskFault>
    ensures titled { IfOk result (IsTitled row.now) }
    ensures node { D.tells → IsHeld (D.story disk.old).held row.now → IfOk result (IsNode row.now) }
    ensures same { D.tells → Passes (D.story disk.old) (D.story disk.new) Same }
    ensures cause { Counts (D.faults disk.old) (D.faults disk.new) (disk_failed result) }
{
    let stored = read_stored(alloc, disk, &row.name)?;
    Ok(node_of(alloc, row, stored)?)
}

/// What is asked of the records of all rows, in their order.
pub(crate) fn read_nodes<D: Disk>(
    alloc: Global,
    disk: &mut D,
    index: &Index,
) -> Result<Vec<Node>, DiskFault>
    ensures titled { IfOk result (λ nodes. AreNodesBy IsTitled index.now nodes.items) }
    ensures nodes { D.tells → AllByRecursion (IsHeld (D.story disk.old).held) index.now → IfOk result (λ nodes. AreNodesBy IsNode index.now nodes.items) }
    ensures same { D.tells → Passes (D.story disk.old) (D.story disk.new) Same }
    ensures cause { Counts (D.faults disk.old) (D.faults disk.new) (disk_failed result) }
{
    let mut nodes = Vec::new(alloc);
    for place in 0..index.len() {
        nodes.push(read_node(alloc, disk, row_at(index, place))?)?;
    }
    Ok(nodes)
}
