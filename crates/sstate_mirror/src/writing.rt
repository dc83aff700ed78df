// The writing of records that come, with their keys and objects.
ghost use Rattle.std.specs.Prelude.{◌≡◌, ◌↔◌, ◌≤◌, [], IfErr, IfOk, IsTrue, OnOk};
ghost use Rattle.outside_traits.specs.Fault.{Counts};
ghost use Rattle.outside_traits.specs.Passes.{Passes, Same};
ghost use Rattle.store_upgrade.specs.Steps.{AreStaged, HoldsKeys, KeysDiffer, NamesDiffer};
ghost use Rattle.store_upgrade.specs.Writes.{AreWritten};
ghost use Rattle.sstate_mirror.specs.Brought.{IsOpen};
ghost use Rattle.sstate_mirror.specs.Copying.{AreCopied, HaveOneObject};
ghost use Rattle.sstate_mirror.specs.Faults.{disk_refused, mirror_refused};
ghost use Rattle.sstate_mirror.specs.Refusals.{IsNoFinding};
ghost use Rattle.sstate_mirror.specs.Steps.{IsEarlier, IsWriting, IsWritten};

use crate::fault::BringFault;
use crate::objects::copy_objects;
use outside_traits::Disk;
use record_move::Moved;
use std::alloc::Global;
use store_upgrade::{put_keys, put_rounds, stage_records, sync};

/// Whether no record is added.
fn adds_none(moved: &Moved) -> bool
    ensures { IsTrue result ↔ (moved.now.added.items ≡ []) }
{
    moved.added.is_empty()
}

/// Whether there is nothing to write: no object was copied, and no record is added.
fn is_nothing(copied: usize, moved: &Moved) -> bool
    ensures { IsTrue result ↔ ((copied ≡ 0) × (moved.now.added.items ≡ [])) }
{
    copied == 0 && adds_none(moved)
}

/// Writes what no record names yet, and syncs: objects, keys, and the records where they are written first. Where there is none of these it writes nothing. The
/// answer says how many objects were copied.
fn prepare<D: Disk, M: Disk>(
    alloc: Global,
    disk: &mut D,
    mirror: &mut M,
    moved: &Moved,
) -> Result<usize, BringFault>
    requires reach { 3600 ≤ D.reach }
    requires ready { D.tells → IsOpen (D.story disk.old) }
    ensures copied { D.tells → M.tells → HaveOneObject moved.now.rows → IfOk result (AreCopied moved.now.rows moved.now.records.items
        (M.story mirror.old).held (D.story disk.old).held (D.story disk.new).held) }
    ensures keyed { D.tells → OnOk result (KeysDiffer moved.now.added.items → HoldsKeys moved.now.added.items (D.story disk.new).held) }
    ensures staged { D.tells → OnOk result (NamesDiffer moved.now.added.items → AreStaged moved.now.added.items (D.story disk.new).held) }
    ensures spells { OnOk result (AreWritten moved.now) }
    ensures ready { D.tells → OnOk result (IsOpen (D.story disk.new)) }
    ensures idle { D.tells → IfOk result (λ copied. copied ≡ 0 → moved.now.added.items ≡ [] → Passes (D.story disk.old) (D.story disk.new) Same) }
    ensures early { D.tells → Passes (D.story disk.old) (D.story disk.new) (λ earlier image. IsEarlier moved.now (D.story disk.old).held image) }
    ensures same { M.tells → Passes (M.story mirror.old) (M.story mirror.new) Same }
    ensures cause { Counts (D.faults disk.old) (D.faults disk.new) (disk_refused result) }
    ensures mirror_cause { Counts (M.faults mirror.old) (M.faults mirror.new) (mirror_refused result) }
    ensures none { IfErr result IsNoFinding }
{
    let copied = copy_objects(alloc, disk, mirror, &moved.rows, &moved.records)?;
    if is_nothing(copied, moved) {
        return Ok(copied);
    }
    put_keys(alloc, disk, &moved.added)?;
    stage_records(alloc, disk, &moved.added)?;
    sync(disk)?;
    Ok(copied)
}

/// Writes what was found: first all that no record names yet, then the records, round by round. Where nothing comes it writes nothing. The answer says how many
/// objects were copied.
pub(crate) fn write_moved<D: Disk, M: Disk>(
    alloc: Global,
    disk: &mut D,
    mirror: &mut M,
    moved: &Moved,
) -> Result<usize, BringFault>
    requires reach { 3600 ≤ D.reach }
    requires ready { D.tells → IsOpen (D.story disk.old) }
    ensures written { D.tells → M.tells → IfOk result (IsWritten moved.now (M.story mirror.old).held (D.story disk.old).held (D.story disk.new).held) }
    ensures spells { OnOk result (AreWritten moved.now) }
    ensures ready { D.tells → OnOk result (IsOpen (D.story disk.new)) }
    ensures idle { D.tells → IfOk result (λ copied. copied ≡ 0 → moved.now.added.items ≡ [] → Passes (D.story disk.old) (D.story disk.new) Same) }
    ensures images { D.tells → Passes (D.story disk.old) (D.story disk.new) (λ earlier image. IsWriting moved.now (D.story disk.old).held image) }
    ensures same { M.tells → Passes (M.story mirror.old) (M.story mirror.new) Same }
    ensures cause { Counts (D.faults disk.old) (D.faults disk.new) (disk_refused result) }
    ensures mirror_cause { Counts (M.faults mirror.old) (M.faults mirror.new) (mirror_refused result) }
    ensures none { IfErr result IsNoFinding }
{
    let copied = prepare(alloc, disk, mirror, moved)?;
    if adds_none(moved) {
        return Ok(copied);
    }
    put_rounds(alloc, disk, &moved.added)?;
    Ok(copied)
}
