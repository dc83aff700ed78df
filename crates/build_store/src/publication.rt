// What a restoring does to a disk, one phase after the other; and how a record's file is written.
ghost use Rattle.std.specs.Prelude.{◌≡◌, ◌≤◌, List, OnOk, None, Some, ℕ};
ghost use Rattle.tree_model.specs.declared.entry.Entry.{Entry as AnEntry};
ghost use Rattle.outside_traits.specs.Fault.{Counts, disk_failed};
ghost use Rattle.outside_traits.specs.Passes.{EachNow, IsBrief, Passes};
ghost use Rattle.outside_traits.specs.Store.{AgreesApart, AgreesRound, ChangesAt, HoldsTree, LaysTree, slashes};
ghost use Rattle.stamp_store.specs.Stamp.{IsFolder, staged_path};
ghost use Rattle.store_opening.specs.Paths.{IsLaidOut, staged_record_path};
ghost use Rattle.store_model.specs.Paths.{record_path};
ghost use Rattle.build_store.specs.Calls.{KeepsAround};
ghost use Rattle.build_store.specs.Keys.{HoldsKeyOf};
ghost use Rattle.build_store.specs.Phases.{put_of};
ghost use Rattle.build_store.specs.Publication.{AreShort, IsPublished, KeepsRight, Publishes};
ghost use Rattle.build_store.specs.Standing.{AddsNoLitter};
ghost use Rattle.store_model.specs.Publication.{stamp_file, work_at};
ghost use Rattle.store_opening.specs.Named.{IsName};

use crate::freeing::free_stamp;
use crate::places::staged_record_path;
use outside_traits::{Disk, DiskFault, put_entry, put_tree};
use stamp_store::{invalidate, stage, stamp};
use std::alloc::Global;
use store_opening::work_at;
use tree_model::{Entry, Hash, Tree};

/// Makes a task's work folder the tree. What is held of it already isn't written again.
fn lay_work<D: Disk>(
    alloc: Global,
    disk: &mut D,
    folder: &str,
    tree: &Tree,
) -> Result<(), DiskFault>
    requires reach { 3600 ≤ D.reach }
    requires folder { IsFolder folder.now }
    requires short { AreShort tree.now }
    ensures held { D.tells → OnOk result (HoldsTree (work_at folder.now) tree.now (D.story disk.new).held) }
    ensures others { D.tells → Passes (D.story disk.old) (D.story disk.new) (AgreesApart (work_at folder.now)) }
    ensures round { D.tells → Passes (D.story disk.old) (D.story disk.new)
        (AgreesRound (work_at folder.now) (D.story disk.old).held) }
    ensures lays { D.tells → Passes (D.story disk.old) (D.story disk.new)
        (LaysTree (work_at folder.now) tree.now (D.story disk.old).held) }
    ensures cause { Counts (D.faults disk.old) (D.faults disk.new) (disk_failed result) }
{
    let work = work_at(alloc, folder)?;
    let _entries = tree.entries();
    put_tree(alloc, disk, work.as_str(), tree)
}

/// Writes a record's file to `tmp/rec2/`.
pub(crate) fn write_record<D: Disk>(
    alloc: Global,
    disk: &mut D,
    name: &Hash,
    entry: &Entry,
) -> Result<(), DiskFault>
    requires reach { 3600 ≤ D.reach }
    requires name { IsName name.now }
    requires laid_out { D.tells → IsLaidOut (D.story disk.old).held }
    ensures staged { D.tells → OnOk result ((D.story disk.new).held (staged_record_path name.now) ≡ Some entry.now) }
    ensures others { D.tells → Passes (D.story disk.old) (D.story disk.new) (ChangesAt (staged_record_path name.now)) }
    ensures brief { D.tells → IsBrief 1 (D.story disk.old) (D.story disk.new) }
    ensures cause { Counts (D.faults disk.old) (D.faults disk.new) (disk_failed result) }
{
    let path = staged_record_path(alloc, name)?;
    disk.write(path.as_str(), entry)
}

/// Writes a stamp under `tmp/`, and syncs.
fn stage_synced<D: Disk>(
    alloc: Global,
    disk: &mut D,
    folder: &str,
    name: &Hash,
) -> Result<(), DiskFault>
    requires reach { 3600 ≤ D.reach }
    requires folder { IsFolder folder.now }
    requires parts { slashes folder.now ≡ 1 }
    requires laid_out { D.tells → IsLaidOut (D.story disk.old).held }
    ensures stamp { D.tells → OnOk result ((D.story disk.new).held (staged_path folder.now)
        ≡ Some (stamp_file name.now)) }
    ensures synced { D.tells → OnOk result (EachNow (D.story disk.new) (λ image. image ≡ (D.story disk.new).held)) }
    ensures others { D.tells → Passes (D.story disk.old) (D.story disk.new) (ChangesAt (staged_path folder.now)) }
    ensures cause { Counts (D.faults disk.old) (D.faults disk.new) (disk_failed result) }
{
    stage(alloc, disk, folder, name)?;
    disk.sync()
}

/// Puts a tree whose record is stored, and whose key is held: what is in the way of its stamp goes, its work folder becomes the tree, and last
/// comes the stamp, which names the record.
///
/// At each moment the stamp is gone, or all that it tells of is there, or nothing was touched yet. What is held of the tree already isn't
/// written again.
pub(crate) fn put<D: Disk>(
    alloc: Global,
    disk: &mut D,
    folder: &str,
    name: &Hash,
    tree: &Tree,
) -> Result<(), DiskFault>
    requires reach { 3600 ≤ D.reach }
    requires folder { IsFolder folder.now }
    requires parts { slashes folder.now ≡ 1 }
    requires short { AreShort tree.now }
    requires laid_out { D.tells → IsLaidOut (D.story disk.old).held }
    ensures published { D.tells → OnOk result ((f : AnEntry) → (D.story disk.old).held (record_path name.now) ≡ Some f
        → (text : List ℕ) → HoldsKeyOf text (D.story disk.old).held
        → EachNow (D.story disk.new) (IsPublished (put_of folder.now name.now tree.now None None f text))) }
    ensures swept { D.tells → OnOk result (AddsNoLitter (D.story disk.old).held (D.story disk.new).held) }
    ensures others { D.tells → (f : AnEntry) → (D.story disk.old).held (record_path name.now) ≡ Some f
        → (text : List ℕ) → HoldsKeyOf text (D.story disk.old).held
        → Passes (D.story disk.old) (D.story disk.new) (Publishes (put_of folder.now name.now tree.now None None f text)) }
    ensures laid_out { D.tells → IsLaidOut (D.story disk.new).held }
    ensures round { D.tells → Passes (D.story disk.old) (D.story disk.new)
        (KeepsAround folder.now (D.story disk.old).held) }
    ensures right { D.tells → Passes (D.story disk.old) (D.story disk.new)
        (KeepsRight folder.now None tree.now (D.story disk.old).held) }
    ensures cause { Counts (D.faults disk.old) (D.faults disk.new) (disk_failed result) }
{
    invalidate(alloc, disk, folder)?;
    free_stamp(alloc, disk, folder)?;
    lay_work(alloc, disk, folder, tree)?;
    stage_synced(alloc, disk, folder, name)?;
    stamp(alloc, disk, folder)
}
