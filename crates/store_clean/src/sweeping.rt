// Objects and keys that no record names that stays.
ghost use Rattle.std.specs.Prelude.{◌≡◌, ◌≤◌, ◌++◌, IfNone, IfOk, IfSome, IsSome, List, MatchBool, None, OnOk, codes, length, ℕ};
ghost use Rattle.tree_model.specs.declared.hash.Hash.{Hash as AHash};
ghost use Rattle.tree_model.specs.Hash.{IsHash, hash_text};
ghost use Rattle.tree_model.specs.Path.{BeginsWith, IsAtOrBelow};
ghost use Rattle.outside_traits.specs.Fault.{Counts, disk_failed};
ghost use Rattle.outside_traits.specs.Passes.{EachNow, Passes};
ghost use Rattle.outside_traits.specs.Store.{ChangesAt};
ghost use Rattle.store_clean.specs.Cleared.{gone_path};
ghost use Rattle.store_clean.specs.Steps.{AreUnneeded, IsEnd, IsKeptTable, IsNeeded, NotesUnneeded, PutsKept, SweepsAll, SweepsLeft, Sweeps};

use crate::nodes::Node;
use crate::places::{place_of, put_place};
use crate::stamps::name_by;
use crate::taking::{GONE, sync};
use indexmap::IndexMap;
use outside_traits::{Disk, DiskFault};
use std::alloc::Global;
use store_opening::remove_all;
use tree_model::{Hash, Mem, Text};

/// Puts a place under a name, where it has none, if it is marked.
fn put_kept(
    table: &mut IndexMap<[u8; 32], usize>,
    marked: bool,
    name: &Hash,
    place: usize,
) -> Result<(), Mem>
    ensures { OnOk result (PutsKept marked name.now place table.old.entries table.new.entries) }
{
    if !marked {
        return Ok(());
    }
    put_place(table, name, place)
}

/// The unihashes of the marked records.
fn unihash_table(
    alloc: Global,
    nodes: &[Node],
    marks: &[bool],
) -> Result<IndexMap<[u8; 32], usize>, Mem>
    requires { length marks.now ≡ length nodes.now }
    ensures { IfOk result (λ table. IsKeptTable (λ n. n.unihash) nodes.now marks.now table.entries) }
{
    let mut table = IndexMap::new(alloc);
    for (place, node) in nodes.iter().enumerate() {
        put_kept(&mut table, marks[place], &node.unihash, place)?;
    }
    Ok(table)
}

/// The names of the keys of the marked records.
fn key_table(
    alloc: Global,
    nodes: &[Node],
    marks: &[bool],
) -> Result<IndexMap<[u8; 32], usize>, Mem>
    requires { length marks.now ≡ length nodes.now }
    ensures { IfOk result (λ table. IsKeptTable (λ n. n.key) nodes.now marks.now table.entries) }
{
    let mut table = IndexMap::new(alloc);
    for (place, node) in nodes.iter().enumerate() {
        put_kept(&mut table, marks[place], &node.key, place)?;
    }
    Ok(table)
}

/// Whether a part of a path ends here.
fn is_end(rest: &[u8]) -> bool
    ensures { MatchBool result (IsEnd rest.now) (IsEnd rest.now → ⊥) }
{
    match rest.first() {
        Some(byte) => *byte == b'/',
        None => true,
    }
}

/// The digest at which, or below which, a path is.
fn digest_of(path: &[u8]) -> Option<Hash>
    ensures some { IfSome result (λ name. IsHash name × IsAtOrBelow (hash_text name) path.now) }
    ensures none { IfNone result ((name : AHash) → IsHash name → IsAtOrBelow (hash_text name) path.now → ⊥) }
{
    if path.len() < 64 {
        return None;
    }
    let digits = &path[..64];
    let rest = &path[64..];
    if !is_end(rest) {
        return None;
    }
    name_by(digits)
}

/// Whether a path is at or below one of these digests behind a prefix.
fn is_needed(table: &IndexMap<[u8; 32], usize>, prefix: &str, path: &str) -> bool
    ensures { MatchBool result (IsNeeded prefix.now table.now.entries path.now) (IsNeeded prefix.now table.now.entries path.now → ⊥) }
{
    let Some(rest) = path.strip_prefix(prefix) else {
        return false;
    };
    match digest_of(rest.as_bytes()) {
        Some(name) => place_of(table, &name).is_some(),
        None => false,
    }
}

/// Puts a path to these, if it isn't needed.
fn note_unneeded(
    table: &IndexMap<[u8; 32], usize>,
    prefix: &str,
    path: &Text,
    made: &mut Vec<Text>,
) -> Result<(), Mem>
    ensures { OnOk result (NotesUnneeded prefix.now table.now.entries path.now made.old.items made.new.items) }
{
    if is_needed(table, prefix, path.as_str()) {
        return Ok(());
    }
    made.push(path.copy()?)?;
    Ok(())
}

/// Those of these paths that aren't needed.
fn unneeded(
    alloc: Global,
    table: &IndexMap<[u8; 32], usize>,
    prefix: &str,
    paths: &[Text],
) -> Result<Vec<Text>, Mem>
    ensures { IfOk result (λ made. AreUnneeded prefix.now table.now.entries paths.now made.items) }
{
    let mut made = Vec::new(alloc);
    for path in paths {
        note_unneeded(table, prefix, path, &mut made)?;
    }
    Ok(made)
}

/// Removes what stands behind a prefix and isn't needed.
fn sweep_under<D: Disk>(
    alloc: Global,
    disk: &mut D,
    table: &IndexMap<[u8; 32], usize>,
    prefix: &str,
) -> Result<(), DiskFault>
    ensures left { D.tells → OnOk result ((q : List ℕ) → BeginsWith prefix.now q → IsSome ((D.story disk.new).held q)
        → IsNeeded prefix.now table.now.entries q) }
    ensures sweeps { D.tells → Passes (D.story disk.old) (D.story disk.new) (Sweeps prefix.now table.now.entries) }
    ensures cause { Counts (D.faults disk.old) (D.faults disk.new) (disk_failed result) }
{
    let paths = disk.list(alloc, prefix)?;
    let doomed = unneeded(alloc, table, prefix, paths.as_slice())?;
    remove_all(disk, &doomed)
}

/// Removes what a path holds.
fn remove<D: Disk>(disk: &mut D, path: &str) -> Result<(), DiskFault>
    ensures gone { D.tells → OnOk result ((D.story disk.new).held path.now ≡ None) }
    ensures changes { D.tells → Passes (D.story disk.old) (D.story disk.new) (ChangesAt path.now) }
    ensures cause { Counts (D.faults disk.old) (D.faults disk.new) (disk_failed result) }
{
    disk.remove(path)
}

/// Removes the objects and keys that no marked record names, and what was renamed away, and syncs.
pub(crate) fn sweep<D: Disk>(
    alloc: Global,
    disk: &mut D,
    nodes: &[Node],
    marks: &[bool],
) -> Result<(), DiskFault>
    requires { length marks.now ≡ length nodes.now }
    ensures left { D.tells → OnOk result (SweepsLeft nodes.now marks.now (D.story disk.new).held) }
    ensures durable { D.tells → OnOk result (EachNow (D.story disk.new) (λ image. image ≡ (D.story disk.new).held)) }
    ensures sweeps { D.tells → Passes (D.story disk.old) (D.story disk.new) (SweepsAll nodes.now marks.now) }
    ensures cause { Counts (D.faults disk.old) (D.faults disk.new) (disk_failed result) }
{
    let objects = unihash_table(alloc, nodes, marks)?;
    let keys = key_table(alloc, nodes, marks)?;
    sweep_under(alloc, disk, &objects, "obj/")?;
    sweep_under(alloc, disk, &keys, "key/")?;
    remove(disk, GONE)?;
    sync(disk)
}
