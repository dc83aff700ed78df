// Objects that are copied from a mirror.
ghost use Rattle.std.specs.Prelude.{◌≡◌, ◌↔◌, ◌+◌, ◌<◌, ◌≤◌, ◌^◌, All, IfErr, IfOk, IsTrue, MatchBool, None, OnOk, codes, false, length};
ghost use Rattle.outside_traits.specs.Fault.{Counts, disk_failed};
ghost use Rattle.outside_traits.specs.Passes.{EachNow, Passes, Same};
ghost use Rattle.outside_traits.specs.Store.{AgreesRound, HoldsTree};
ghost use Rattle.sstate_objects.specs.Matching.{IsMatching};
ghost use Rattle.store_model.specs.Available.{object_folder};
ghost use Rattle.store_model.specs.Readable.{HasShortPaths};
ghost use Rattle.sstate_mirror.specs.Copying.{AreCopied, HaveOneObject, IsCopy, IsCopyOf, IsCopying, PutsOne, PutsUnless, count_with};
ghost use Rattle.sstate_mirror.specs.Faults.{disk_refused, mirror_refused};
ghost use Rattle.sstate_mirror.specs.Refusals.{IsNoFinding};

use crate::fault::{BringFault, of_mirror};
use hash_equiv::Index;
use meta_model::MAX_OUTPUT_PATH;
use outside_traits::{Disk, DiskFault};
use record_move::MovedRecord;
use sstate_objects::{put_object, read_verified};
use std::alloc::Global;
use store_upgrade::known;
use tree_model::{Hash, Manifest, ManifestLine, Tree};

/// Whether no path of a manifest is too long.
fn are_short(lines: &[ManifestLine]) -> bool
    ensures { IsTrue result ↔ HasShortPaths lines.now }
{
    lines
        .iter()
        .all(|line| line.path.as_str().len() <= MAX_OUTPUT_PATH)
}

/// Whether no path of a tree is too long.
fn is_short(tree: &Tree) -> bool
    ensures { IsTrue result ↔ All (λ e. length e.0 ≤ 3072) tree.now }
{
    tree.entries()
        .iter()
        .all(|entry| entry.0.as_str().len() <= MAX_OUTPUT_PATH)
}

/// Makes the object of a unihash this tree, unless a path of it is too long. The answer says whether it was made.
fn put_short<D: Disk>(
    alloc: Global,
    disk: &mut D,
    to: &Hash,
    tree: &Tree,
) -> Result<bool, DiskFault>
    requires { 3600 ≤ D.reach }
    ensures made { D.tells → IfOk result (λ made. MatchBool made (HoldsTree (object_folder to.now) tree.now (D.story disk.new).held)
        ((All (λ e. length e.0 ≤ 3072) tree.now → ⊥) × ((D.story disk.new).held ≡ (D.story disk.old).held))) }
    ensures idle { D.tells → IfOk result (λ made. made ≡ false → Passes (D.story disk.old) (D.story disk.new) Same) }
    ensures round { D.tells → Passes (D.story disk.old) (D.story disk.new) (AgreesRound (object_folder to.now) (D.story disk.old).held) }
    ensures cause { Counts (D.faults disk.old) (D.faults disk.new) (disk_failed result) }
{
    if !is_short(tree) {
        return Ok(false);
    }
    known(to.bytes);
    let _entries = tree.entries();
    put_object(alloc, disk, to, tree)?;
    Ok(true)
}

/// The object of a unihash on the mirror, where it matches a manifest.
fn read_mirror<M: Disk>(
    alloc: Global,
    mirror: &mut M,
    from: &Hash,
    manifest: &Manifest,
) -> Result<Option<Tree>, BringFault>
    ensures found { M.tells → IfOk result (IsMatching (object_folder from.now) manifest.now (M.story mirror.old).held) }
    ensures same { M.tells → Passes (M.story mirror.old) (M.story mirror.new) Same }
    ensures cause { Counts (M.faults mirror.old) (M.faults mirror.new) (mirror_refused result) }
    ensures no_disk { disk_refused result ≡ false }
    ensures none { IfErr result IsNoFinding }
{
    match read_verified(alloc, mirror, from, manifest) {
        Ok(found) => Ok(found),
        Err(fault) => Err(of_mirror(fault)),
    }
}

/// Makes the mirror's object of one unihash the own one of another, where it matches a manifest. Where the own one matches already nothing is written. The
/// answer says whether it was copied.
fn copy_object<D: Disk, M: Disk>(
    alloc: Global,
    disk: &mut D,
    mirror: &mut M,
    from: &Hash,
    to: &Hash,
    manifest: &Manifest,
) -> Result<bool, BringFault>
    requires reach { 3600 ≤ D.reach }
    requires short { HasShortPaths manifest.now }
    ensures copied { D.tells → M.tells → IfOk result (IsCopy (object_folder from.now) (object_folder to.now) manifest.now (M.story mirror.old).held
        (D.story disk.old).held (D.story disk.new).held) }
    ensures puts { D.tells → Passes (D.story disk.old) (D.story disk.new)
        (PutsUnless (object_folder to.now) manifest.now (D.story disk.old).held) }
    ensures idle { D.tells → IfOk result (λ copied. copied ≡ false → Passes (D.story disk.old) (D.story disk.new) Same) }
    ensures same { M.tells → Passes (M.story mirror.old) (M.story mirror.new) Same }
    ensures cause { Counts (D.faults disk.old) (D.faults disk.new) (disk_refused result) }
    ensures mirror_cause { Counts (M.faults mirror.old) (M.faults mirror.new) (mirror_refused result) }
    ensures none { IfErr result IsNoFinding }
{
    if read_verified(alloc, disk, to, manifest)?.is_some() {
        return Ok(false);
    }
    match read_mirror(alloc, mirror, from, manifest)? {
        Some(tree) => Ok(put_short(alloc, disk, to, &tree)?),
        None => Ok(false),
    }
}

/// Makes the mirror's object of a record the own one of the record that stands for it, where it matches. The answer says whether it was copied.
fn copy_of<D: Disk, M: Disk>(
    alloc: Global,
    disk: &mut D,
    mirror: &mut M,
    rows: &Index,
    moved: &MovedRecord,
) -> Result<bool, BringFault>
    requires { 3600 ≤ D.reach }
    ensures copied { D.tells → M.tells → IfOk result (IsCopyOf rows.now moved.now (M.story mirror.old).held (D.story disk.old).held
        (D.story disk.new).held) }
    ensures puts { D.tells → Passes (D.story disk.old) (D.story disk.new) (PutsOne rows.now moved.now (D.story disk.old).held) }
    ensures idle { D.tells → IfOk result (λ copied. copied ≡ false → Passes (D.story disk.old) (D.story disk.new) Same) }
    ensures same { M.tells → Passes (M.story mirror.old) (M.story mirror.new) Same }
    ensures cause { Counts (D.faults disk.old) (D.faults disk.new) (disk_refused result) }
    ensures mirror_cause { Counts (M.faults mirror.old) (M.faults mirror.new) (mirror_refused result) }
    ensures none { IfErr result IsNoFinding }
{
    match rows.row(&moved.name) {
        Some(row) if are_short(row.manifest.lines()) => copy_object(
            alloc,
            disk,
            mirror,
            &moved.old_unihash,
            &row.unihash,
            &row.manifest,
        ),
        _ => Ok(false),
    }
}

/// The number with one more that was copied, or none.
fn counted(count: usize, copied: bool) -> usize
    requires { count + 1 < 2 ^ 64 }
    ensures { result ≡ count_with copied count }
{
    if copied { count + 1 } else { count }
}

/// Copies the objects of these records that match on the mirror and not here. The answer says how many were copied.
pub(crate) fn copy_objects<D: Disk, M: Disk>(
    alloc: Global,
    disk: &mut D,
    mirror: &mut M,
    rows: &Index,
    records: &[MovedRecord],
) -> Result<usize, BringFault>
    requires reach { 3600 ≤ D.reach }
    requires way { D.tells → (D.story disk.old).held (codes "obj") ≡ None }
    requires durable { D.tells → EachNow (D.story disk.old) (λ image. image ≡ (D.story disk.old).held) }
    ensures copied { D.tells → M.tells → HaveOneObject rows.now → IfOk result (AreCopied rows.now records.now (M.story mirror.old).held
        (D.story disk.old).held (D.story disk.new).held) }
    ensures way { D.tells → OnOk result ((D.story disk.new).held (codes "obj") ≡ None) }
    ensures images { D.tells → Passes (D.story disk.old) (D.story disk.new) (λ earlier image. IsCopying rows.now (D.story disk.old).held image) }
    ensures idle { D.tells → IfOk result (λ count. count ≡ 0 → Passes (D.story disk.old) (D.story disk.new) Same) }
    ensures same { M.tells → Passes (M.story mirror.old) (M.story mirror.new) Same }
    ensures cause { Counts (D.faults disk.old) (D.faults disk.new) (disk_refused result) }
    ensures mirror_cause { Counts (M.faults mirror.old) (M.faults mirror.new) (mirror_refused result) }
    ensures none { IfErr result IsNoFinding }
{
    let mut count = 0;
    for one in records {
        count = counted(count, copy_of(alloc, disk, mirror, rows, one)?);
    }
    Ok(count)
}
