// Objects under their new unihashes.
ghost use Rattle.std.specs.Prelude.{◌↔◌, ◌≤◌, All, Contains, IsTrue, OnOk, codes, length};
ghost use Rattle.outside_traits.specs.Fault.{Counts, disk_failed};
ghost use Rattle.outside_traits.specs.Passes.{Passes};
ghost use Rattle.outside_traits.specs.Store.{AgreesRound, HoldsTree};
ghost use Rattle.record_move.specs.declared.records.MovedRecord.{MovedRecord as Record};
ghost use Rattle.store_model.specs.Available.{Matches, object_folder};
ghost use Rattle.store_model.specs.Readable.{HasShortPaths};
ghost use Rattle.store_upgrade.specs.Steps.{AreNoneInTheWay, IsCopied, KeepsObject, Within};

use crate::calls::known;
use crate::reading::are_short;
use hash_equiv::Index;
use meta_model::MAX_OUTPUT_PATH;
use outside_traits::{Disk, DiskFault};
use record_move::MovedRecord;
use sstate_objects::{put_object, read_verified};
use std::alloc::Global;
use tree_model::{Hash, Manifest, Tree};

/// Whether no path of a tree is too long.
fn is_short(tree: &Tree) -> bool
    ensures { IsTrue result ↔ All (λ e. length e.0 ≤ 3072) tree.now }
{
    tree.entries()
        .iter()
        .all(|entry| entry.0.as_str().len() <= MAX_OUTPUT_PATH)
}

/// Makes the object of a unihash this tree, unless a path of it is too long.
fn put_short<D: Disk>(alloc: Global, disk: &mut D, to: &Hash, tree: &Tree) -> Result<(), DiskFault>
    requires { 3600 ≤ D.reach }
    ensures held { D.tells → OnOk result (All (λ e. length e.0 ≤ 3072) tree.now → HoldsTree (object_folder to.now) tree.now (D.story disk.new).held) }
    ensures round { D.tells → Passes (D.story disk.old) (D.story disk.new) (AgreesRound (object_folder to.now) (D.story disk.old).held) }
    ensures cause { Counts (D.faults disk.old) (D.faults disk.new) (disk_failed result) }
{
    if !is_short(tree) {
        return Ok(());
    }
    known(to.bytes);
    let _entries = tree.entries();
    put_object(alloc, disk, to, tree)
}

/// Makes the object of one unihash that of another too, where it matches a manifest. Where that one matches already nothing is written.
fn copy_object<D: Disk>(
    alloc: Global,
    disk: &mut D,
    from: &Hash,
    to: &Hash,
    manifest: &Manifest,
) -> Result<(), DiskFault>
    requires reach { 3600 ≤ D.reach }
    requires short { HasShortPaths manifest.now }
    ensures copied { D.tells → OnOk result (Matches (D.story disk.old).held (object_folder from.now) manifest.now
        → Matches (D.story disk.new).held (object_folder to.now) manifest.now) }
    ensures kept { D.tells → OnOk result (Matches (D.story disk.old).held (object_folder to.now) manifest.now
        → Matches (D.story disk.new).held (object_folder to.now) manifest.now) }
    ensures round { D.tells → Passes (D.story disk.old) (D.story disk.new) (AgreesRound (object_folder to.now) (D.story disk.old).held) }
    ensures cause { Counts (D.faults disk.old) (D.faults disk.new) (disk_failed result) }
{
    if read_verified(alloc, disk, to, manifest)?.is_some() {
        return Ok(());
    }
    match read_verified(alloc, disk, from, manifest)? {
        Some(tree) => put_short(alloc, disk, to, &tree),
        None => Ok(()),
    }
}

/// Makes the object of a moved record that of its new unihash too, where it matches the record.
fn copy_of<D: Disk>(
    alloc: Global,
    disk: &mut D,
    rows: &Index,
    moved: &MovedRecord,
) -> Result<(), DiskFault>
    requires { 3600 ≤ D.reach }
    ensures copied { D.tells → OnOk result (IsCopied rows.now moved.now (D.story disk.old).held (D.story disk.new).held) }
    ensures kept { D.tells → OnOk result (KeepsObject rows.now moved.now (D.story disk.old).held (D.story disk.new).held) }
    ensures round { D.tells → Passes (D.story disk.old) (D.story disk.new) (AgreesRound (object_folder moved.now.unihash) (D.story disk.old).held) }
    ensures cause { Counts (D.faults disk.old) (D.faults disk.new) (disk_failed result) }
{
    match rows.row(&moved.name) {
        Some(row) if are_short(row.manifest.lines()) => copy_object(
            alloc,
            disk,
            &moved.old_unihash,
            &moved.unihash,
            &row.manifest,
        ),
        _ => Ok(()),
    }
}

/// Makes the objects of moved records those of their new unihashes too. The old ones stay.
pub(crate) fn copy_objects<D: Disk>(
    alloc: Global,
    disk: &mut D,
    rows: &Index,
    moved: &[MovedRecord],
) -> Result<(), DiskFault>
    requires { 3600 ≤ D.reach }
    ensures copied { D.tells → OnOk result (AreNoneInTheWay rows.now moved.now → (m : Record) → Contains moved.now m
        → IsCopied rows.now m (D.story disk.old).held (D.story disk.new).held) }
    ensures within { D.tells → Passes (D.story disk.old) (D.story disk.new) (Within (codes "obj")) }
    ensures cause { Counts (D.faults disk.old) (D.faults disk.new) (disk_failed result) }
{
    for one in moved {
        copy_of(alloc, disk, rows, one)?;
    }
    Ok(())
}
