// The upgrade of a store.
ghost use Rattle.std.specs.Prelude.{◌≡◌, ◌≤◌, Contains, IfErr, IfOk, OnOk};
ghost use Rattle.std.specs.List.{AllByRecursion};
ghost use Rattle.outside_traits.specs.Fault.{Counts, disk_failed};
ghost use Rattle.outside_traits.specs.Passes.{EachNow, Passes};
ghost use Rattle.outside_traits.specs.Story.{IsFresh};
ghost use Rattle.meta_model.specs.CleanBuild.{Gives};
ghost use Rattle.store_model.specs.Origins.{Book, Reading};
ghost use Rattle.record_move.specs.declared.records.MovedRecord.{MovedRecord as Record};
ghost use Rattle.store_move.specs.Stores.{IsDone};
ghost use Rattle.store_opening.specs.Paths.{IsLaidOut};
ghost use Rattle.store_upgrade.specs.Faults.{IsCauseOf, upgrade_failed};
ghost use Rattle.store_upgrade.specs.Halfway.{HoldsBoth, IsAlong, Upgrades};
ghost use Rattle.store_upgrade.specs.Upgraded.{IsUpgraded};
ghost use Rattle.store_upgrade.specs.Steps.{AreFolders, AreHeld, AreNoneInTheWay, ArePut, AreStaged, AreStagedStamps, AreStamped, HaveOneName, HoldsKeys, IsCopied, KeysDiffer, NamesDiffer};
ghost use Rattle.store_upgrade.specs.Writes.{ArePrepared, AreWritten, IsEarly, IsWritten, PutsPrepared, Writes};

use crate::calls::sync;
use crate::ending::{is_done, remove_old, write_format};
use crate::fault::UpgradeFault;
use crate::keys::{known_keys, put_keys};
use crate::objects::copy_objects;
use crate::olds::read_olds;
use crate::records::{put_rounds, stage_records};
use crate::stamps::{find_renewed, put_stamps, stage_stamps};
use outside_traits::{Disk, DiskFault};
use record_move::{Moved, move_records};
use std::alloc::Global;
use store_opening::{Ahead, open_disk, read_under};
use tree_model::{Hash, Text};

/// Writes what no record and no stamp names yet, and syncs. The answer is which stamps are renewed.
fn prepare<D: Disk>(
    alloc: Global,
    disk: &mut D,
    moved: &Moved,
) -> Result<Vec<(Text, Hash)>, DiskFault>
    requires reach { 3600 ≤ D.reach }
    requires laid { D.tells → IsLaidOut (D.story disk.old).held }
    requires durable { D.tells → EachNow (D.story disk.old) (λ image. image ≡ (D.story disk.old).held) }
    ensures objects { D.tells → OnOk result (AreNoneInTheWay moved.now.rows moved.now.records.items → (m : Record) → Contains moved.now.records.items m
        → IsCopied moved.now.rows m (D.story disk.old).held (D.story disk.new).held) }
    ensures keyed { D.tells → OnOk result (KeysDiffer moved.now.added.items → HoldsKeys moved.now.added.items (D.story disk.new).held) }
    ensures staged { D.tells → OnOk result (NamesDiffer moved.now.added.items → AreStaged moved.now.added.items (D.story disk.new).held) }
    ensures spells { OnOk result (AreWritten moved.now) }
    ensures folders { IfOk result (λ stamps. AreFolders stamps.items) }
    ensures stamps { D.tells → IfOk result (λ stamps. ArePrepared (D.story disk.old).held (D.story disk.new).held moved.now.records.items stamps.items) }
    ensures laid { D.tells → OnOk result (IsLaidOut (D.story disk.new).held) }
    ensures durable { D.tells → OnOk result (EachNow (D.story disk.new) (λ image. image ≡ (D.story disk.new).held)) }
    ensures early { D.tells → Passes (D.story disk.old) (D.story disk.new) (λ earlier image. IsEarly moved.now.added.items (D.story disk.old).held image) }
    ensures cause { Counts (D.faults disk.old) (D.faults disk.new) (disk_failed result) }
{
    copy_objects(alloc, disk, &moved.rows, &moved.records)?;
    put_keys(alloc, disk, &moved.added)?;
    let stamps = find_renewed(alloc, disk, &moved.records)?;
    stage_stamps(alloc, disk, &stamps)?;
    stage_records(alloc, disk, &moved.added)?;
    sync(disk)?;
    Ok(stamps)
}

/// Puts what was prepared: the records round by round, the stamps, and `format`.
fn put_prepared<D: Disk>(
    alloc: Global,
    disk: &mut D,
    moved: &Moved,
    stamps: &[(Text, Hash)],
) -> Result<(), DiskFault>
    requires reach { 3600 ≤ D.reach }
    requires laid { D.tells → IsLaidOut (D.story disk.old).held }
    requires durable { D.tells → EachNow (D.story disk.old) (λ image. image ≡ (D.story disk.old).held) }
    requires folders { AreFolders stamps.now }
    requires names { D.tells → HaveOneName stamps.now }
    requires held { D.tells → AreHeld stamps.now (D.story disk.old).held }
    requires staged { D.tells → AreStagedStamps stamps.now (D.story disk.old).held }
    ensures put { D.tells → OnOk result (NamesDiffer moved.now.added.items → AreStaged moved.now.added.items (D.story disk.old).held
        → ArePut moved.now.added.items (D.story disk.new).held) }
    ensures stamped { D.tells → OnOk result (AreStamped stamps.now (D.story disk.new).held) }
    ensures done { D.tells → OnOk result (IsDone (D.story disk.new).held) }
    ensures durable { D.tells → OnOk result (EachNow (D.story disk.new) (λ image. image ≡ (D.story disk.new).held)) }
    ensures puts { D.tells → Passes (D.story disk.old) (D.story disk.new) (λ earlier image. PutsPrepared moved.now (D.story disk.old).held image) }
    ensures cause { Counts (D.faults disk.old) (D.faults disk.new) (disk_failed result) }
{
    put_rounds(alloc, disk, &moved.added)?;
    put_stamps(alloc, disk, stamps)?;
    write_format(alloc, disk)
}

/// Writes what a move made: first all that no record and no stamp names yet, then what names it.
fn write_moved<D: Disk>(alloc: Global, disk: &mut D, moved: &Moved) -> Result<(), DiskFault>
    requires reach { 3600 ≤ D.reach }
    requires laid { D.tells → IsLaidOut (D.story disk.old).held }
    requires durable { D.tells → EachNow (D.story disk.old) (λ image. image ≡ (D.story disk.old).held) }
    ensures written { D.tells → OnOk result (IsWritten moved.now (D.story disk.old).held (D.story disk.new).held) }
    ensures readable { OnOk result (AreWritten moved.now) }
    ensures durable { D.tells → OnOk result (EachNow (D.story disk.new) (λ image. image ≡ (D.story disk.new).held)) }
    ensures images { D.tells → Passes (D.story disk.old) (D.story disk.new) (λ earlier image. Writes moved.now (D.story disk.old).held image) }
    ensures cause { Counts (D.faults disk.old) (D.faults disk.new) (disk_failed result) }
{
    let stamps = prepare(alloc, disk, moved)?;
    put_prepared(alloc, disk, moved, &stamps)
}

/// Moves the records of a store that isn't of the present format alone.
fn move_store<D: Disk>(alloc: Global, disk: &mut D) -> Result<(), UpgradeFault>
    requires reach { 3600 ≤ D.reach }
    requires old { D.tells → IsDone (D.story disk.old).held → ⊥ }
    requires durable { D.tells → EachNow (D.story disk.old) (λ image. image ≡ (D.story disk.old).held) }
    ensures moved { D.tells → OnOk result (IsUpgraded (D.story disk.old).held (D.story disk.new).held) }
    ensures durable { D.tells → OnOk result (EachNow (D.story disk.new) (λ image. image ≡ (D.story disk.new).held)) }
    ensures clash { D.tells → IfErr result (λ fault. (gives : Gives) (reading : Reading) (book start : Book)
        → HoldsBoth gives reading (D.story disk.old).held book start → IsCauseOf fault) }
    ensures images { D.tells → Passes (D.story disk.old) (D.story disk.new) (λ earlier image. Upgrades (D.story disk.old).held image) }
    ensures cause { Counts (D.faults disk.old) (D.faults disk.new) (upgrade_failed result) }
{
    let rows = open_disk(alloc, disk, &Ahead::none())?;
    let keys = known_keys(alloc, &read_under(alloc, disk, "key/")?)?;
    let olds = read_olds(alloc, disk)?;
    let moved = move_records(alloc, olds, rows, keys)?;
    write_moved(alloc, disk, &moved)?;
    Ok(())
}

/// Brings a store to the present format: moves what it has of the first one, or, where `format` says that nothing of it counts, removes what is left of it.
/// It may be called over any disk before another call is made. It is needed only where something stands at `rec`.
///
/// The disk is synced after Ok. `Move` comes only where two different signatures, or two keys, have one digest, or memory is wanting; none of the move was
/// written then.
pub fn upgrade<D: Disk>(alloc: Global, disk: &mut D) -> Result<(), UpgradeFault>
    requires reach { 3600 ≤ D.reach }
    requires fresh { D.tells → IsFresh (D.story disk.old) }
    ensures upgraded { D.tells → OnOk result (IsUpgraded (D.story disk.old).held (D.story disk.new).held) }
    ensures durable { D.tells → OnOk result (EachNow (D.story disk.new) (λ image. image ≡ (D.story disk.new).held)) }
    ensures clash { D.tells → IfErr result (λ fault. (gives : Gives) (reading : Reading) (book start : Book)
        → HoldsBoth gives reading (D.story disk.old).held book start → IsCauseOf fault) }

    // Whatever it answers.
    ensures images { D.tells → Passes (D.story disk.old) (D.story disk.new) (λ earlier image. IsAlong (D.story disk.old).held image) }
    ensures cause { Counts (D.faults disk.old) (D.faults disk.new) (upgrade_failed result) }
{
    if is_done(alloc, disk)? {
        remove_old(alloc, disk)?;
        sync(disk)?;
        return Ok(());
    }
    move_store(alloc, disk)
}
