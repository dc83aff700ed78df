// Records that are added.
ghost use Rattle.std.specs.Prelude.{◌≡◌, ◌≤◌, Contains, IfOk, IsSome, OnOk, Some};
ghost use Rattle.outside_traits.specs.Answers.{IsSettled};
ghost use Rattle.outside_traits.specs.Fault.{Counts, disk_failed};
ghost use Rattle.outside_traits.specs.Passes.{EachNow, Passes};
ghost use Rattle.outside_traits.specs.Store.{ChangesAt};
ghost use Rattle.record_move.specs.declared.records.AddedRecord.{AddedRecord as Added};
ghost use Rattle.sig_gen.specs.Stored.{IsInOrder};
ghost use Rattle.store_model.specs.Publication.{record_file};
ghost use Rattle.store_model.specs.Spelling.{record_bytes};
ghost use Rattle.store_model.specs.Stored.{SpellsStored};
ghost use Rattle.store_opening.specs.Paths.{IsLaidOut, staged_record_path};
ghost use Rattle.store_upgrade.specs.Steps.{ArePut, AreStaged, NamesDiffer, PutsOfRound, PutsRecord, PutsRound, PutsRounds, RoundIsPut, StagesRecords};

use crate::calls::{known, put_staged, sync, write};
use outside_traits::{Disk, DiskFault};
use record_move::AddedRecord;
use sig_gen::encode_stored;
use std::alloc::Global;
use store_opening::record_path;
use tree_model::{Entry, Hash, Mem, Text};

/// Where a record is written first.
fn staged_path(alloc: Global, name: &Hash) -> Result<Text, Mem>
    ensures { IfOk result (λ path. path ≡ staged_record_path name.now) }
{
    let mut path = Text::from_str(alloc, "tmp/rec2/")?;
    path.push_str(name.text(alloc)?.as_str())?;
    Ok(path)
}

/// Writes a record where it is written first.
fn stage_record<D: Disk>(alloc: Global, disk: &mut D, added: &AddedRecord) -> Result<(), DiskFault>
    requires reach { 3600 ≤ D.reach }
    requires laid { D.tells → IsLaidOut (D.story disk.old).held }
    ensures staged { D.tells → OnOk result ((D.story disk.new).held (staged_record_path added.now.name) ≡ Some (record_file added.now.stored)) }
    ensures spells { OnOk result (IsInOrder added.now.stored → SpellsStored (record_bytes added.now.stored) added.now.stored) }
    ensures laid { D.tells → OnOk result (IsLaidOut (D.story disk.new).held) }
    ensures changes { D.tells → Passes (D.story disk.old) (D.story disk.new) (ChangesAt (staged_record_path added.now.name)) }
    ensures cause { Counts (D.faults disk.old) (D.faults disk.new) (disk_failed result) }
{
    known(added.name.bytes);
    let path = staged_path(alloc, &added.name)?;
    let bytes = encode_stored(alloc, &added.stored)?;
    let entry = Entry::File { exec: false, bytes };
    write(disk, path.as_str(), &entry)
}

/// Writes records where they are written first. They are to be synced before they are put.
pub fn stage_records<D: Disk>(
    alloc: Global,
    disk: &mut D,
    added: &[AddedRecord],
) -> Result<(), DiskFault>
    requires reach { 3600 ≤ D.reach }
    requires laid { D.tells → IsLaidOut (D.story disk.old).held }
    ensures staged { D.tells → OnOk result (NamesDiffer added.now → AreStaged added.now (D.story disk.new).held) }
    ensures spells { OnOk result ((a : Added) → Contains added.now a → IsInOrder a.stored → SpellsStored (record_bytes a.stored) a.stored) }
    ensures laid { D.tells → OnOk result (IsLaidOut (D.story disk.new).held) }
    ensures stages { D.tells → Passes (D.story disk.old) (D.story disk.new) (StagesRecords added.now) }
    ensures cause { Counts (D.faults disk.old) (D.faults disk.new) (disk_failed result) }
{
    for one in added {
        stage_record(alloc, disk, one)?;
    }
    Ok(())
}

/// Renames a record to its place, if it is held where it was written first.
fn put_record<D: Disk>(alloc: Global, disk: &mut D, name: &Hash) -> Result<(), DiskFault>
    requires reach { 3600 ≤ D.reach }
    requires settled { D.tells → IsSome ((D.story disk.old).held (staged_record_path name.now)) → IsSettled (staged_record_path name.now) (D.story disk.old) }
    requires laid { D.tells → IsLaidOut (D.story disk.old).held }
    ensures puts { D.tells → PutsRecord name.now (D.story disk.old) (D.story disk.new) result }
    ensures laid { D.tells → OnOk result (IsLaidOut (D.story disk.new).held) }
    ensures cause { Counts (D.faults disk.old) (D.faults disk.new) (disk_failed result) }
{
    known(name.bytes);
    let from = staged_path(alloc, name)?;
    let to = record_path(alloc, name)?;
    put_staged(alloc, disk, from.as_str(), to.as_str())
}

/// Renames a record to its place, if it is of a round.
fn put_of_round<D: Disk>(
    alloc: Global,
    disk: &mut D,
    added: &AddedRecord,
    round: usize,
) -> Result<(), DiskFault>
    requires reach { 3600 ≤ D.reach }
    requires settled { D.tells → added.now.round ≡ round → IsSome ((D.story disk.old).held (staged_record_path added.now.name)) → IsSettled (staged_record_path added.now.name) (D.story disk.old) }
    requires laid { D.tells → IsLaidOut (D.story disk.old).held }
    ensures puts { D.tells → PutsOfRound added.now round (D.story disk.old) (D.story disk.new) result }
    ensures laid { D.tells → OnOk result (IsLaidOut (D.story disk.new).held) }
    ensures cause { Counts (D.faults disk.old) (D.faults disk.new) (disk_failed result) }
{
    if added.round == round {
        return put_record(alloc, disk, &added.name);
    }
    Ok(())
}

/// Renames the records of one round to their places. What they name stands there for good.
fn put_round<D: Disk>(
    alloc: Global,
    disk: &mut D,
    added: &[AddedRecord],
    round: usize,
) -> Result<(), DiskFault>
    requires reach { 3600 ≤ D.reach }
    requires laid { D.tells → IsLaidOut (D.story disk.old).held }
    requires durable { D.tells → EachNow (D.story disk.old) (λ image. image ≡ (D.story disk.old).held) }
    ensures put { D.tells → OnOk result (RoundIsPut added.now round (D.story disk.old).held (D.story disk.new).held) }
    ensures laid { D.tells → OnOk result (IsLaidOut (D.story disk.new).held) }
    ensures puts { D.tells → Passes (D.story disk.old) (D.story disk.new) (PutsRound added.now round (D.story disk.old).held) }
    ensures cause { Counts (D.faults disk.old) (D.faults disk.new) (disk_failed result) }
{
    for one in added {
        put_of_round(alloc, disk, one, round)?;
    }
    Ok(())
}

/// Renames the records of one round to their places, and syncs.
fn put_synced<D: Disk>(
    alloc: Global,
    disk: &mut D,
    added: &[AddedRecord],
    round: usize,
) -> Result<(), DiskFault>
    requires reach { 3600 ≤ D.reach }
    requires laid { D.tells → IsLaidOut (D.story disk.old).held }
    requires durable { D.tells → EachNow (D.story disk.old) (λ image. image ≡ (D.story disk.old).held) }
    ensures put { D.tells → OnOk result (RoundIsPut added.now round (D.story disk.old).held (D.story disk.new).held) }
    ensures laid { D.tells → OnOk result (IsLaidOut (D.story disk.new).held) }
    ensures durable { D.tells → OnOk result (EachNow (D.story disk.new) (λ image. image ≡ (D.story disk.new).held)) }
    ensures puts { D.tells → Passes (D.story disk.old) (D.story disk.new) (PutsRound added.now round (D.story disk.old).held) }
    ensures cause { Counts (D.faults disk.old) (D.faults disk.new) (disk_failed result) }
{
    put_round(alloc, disk, added, round)?;
    sync(disk)
}

/// The later one of two rounds.
fn later(first: usize, second: usize) -> usize
    ensures first { first ≤ result }
    ensures second { second ≤ result }
{
    if first < second {
        return second;
    }
    first
}

/// The last round of these records.
fn last_round(added: &[AddedRecord]) -> usize
    ensures { (a : Added) → Contains added.now a → a.round ≤ result }
{
    let mut last = 0;
    for one in added {
        last = later(last, one.round);
    }
    last
}

/// Renames records to their places round by round, and syncs behind each. They are synced where they were written first.
pub fn put_rounds<D: Disk>(
    alloc: Global,
    disk: &mut D,
    added: &[AddedRecord],
) -> Result<(), DiskFault>
    requires reach { 3600 ≤ D.reach }
    requires laid { D.tells → IsLaidOut (D.story disk.old).held }
    requires durable { D.tells → EachNow (D.story disk.old) (λ image. image ≡ (D.story disk.old).held) }
    ensures put { D.tells → OnOk result (NamesDiffer added.now → AreStaged added.now (D.story disk.old).held → ArePut added.now (D.story disk.new).held) }
    ensures laid { D.tells → OnOk result (IsLaidOut (D.story disk.new).held) }
    ensures durable { D.tells → OnOk result (EachNow (D.story disk.new) (λ image. image ≡ (D.story disk.new).held)) }
    ensures puts { D.tells → Passes (D.story disk.old) (D.story disk.new) (λ earlier image. PutsRounds added.now (D.story disk.old).held image) }
    ensures cause { Counts (D.faults disk.old) (D.faults disk.new) (disk_failed result) }
{
    let last = last_round(added);
    for round in 0..last {
        put_synced(alloc, disk, added, round)?;
    }
    put_synced(alloc, disk, added, last)
}
