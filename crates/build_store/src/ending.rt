// The end of an open publication: its record and its stamp are staged, and renamed each once a ticket has ended.
ghost use Rattle.std.specs.Prelude.{◌≡◌, ◌≤◌, ◌⊎◌, ℕ, [], IfOk, None, OnOk, Some, true};
ghost use Rattle.tree_model.specs.declared.entry.Entry.{Entry as AnEntry};
ghost use Rattle.outside_traits.specs.Fault.{Counts, disk_failed};
ghost use Rattle.outside_traits.specs.Passes.{IsBrief, Passes, Same};
ghost use Rattle.outside_traits.specs.Store.{IsFree, slashes};
ghost use Rattle.outside_traits.specs.Phases.{kept, staged, stamped, stored};
ghost use Rattle.stamp_store.specs.Stamp.{IsFolder, staged_path};
ghost use Rattle.store_model.specs.Paths.{record_path};
ghost use Rattle.store_model.specs.Publication.{stamp_at, stamp_file, Publication};
ghost use Rattle.store_opening.specs.Named.{IsName};
ghost use Rattle.store_opening.specs.Paths.{IsLaidOut, staged_record_path};
ghost use Rattle.build_store.specs.Calls.{Finishes, HasFreeStamp, KeepsBut, MovesOnly};
ghost use Rattle.build_store.specs.Drafts.{file_of};
ghost use Rattle.build_store.specs.Ending.{IsAt, IsTicket};
ghost use Rattle.build_store.specs.Halves.{IsHalf, IsOn};
ghost use Rattle.build_store.specs.OpenOnes.{IsFit, IsStaged, KeepsEntries, progress_by, put_by};
ghost use Rattle.build_store.specs.Phases.{AddsStaged, AddsStagedFile, IsFileOf, IsStagedFile};
ghost use Rattle.build_store.specs.Pieces.{IsPublishing};
ghost use Rattle.build_store.specs.Publication.{IsPublished};

use crate::freeing::free_stamp;
use crate::pieces::{OpenPublication, Reached};
use crate::places::{staged_path, staged_record_path, stamp_at};
use crate::publication::write_record;
use outside_traits::{Disk, DiskFault};
use stamp_store::stage;
use std::alloc::Global;
use store_opening::record_path;
use tree_model::Hash;

/// Takes a ticket: a moment up to which all is durable once it has ended. Where a disk counts no further, it syncs.
pub(crate) fn take_ticket<D: Disk>(disk: &mut D) -> Result<u64, DiskFault>
    ensures ticket { D.tells → IfOk result (λ k. IsTicket k (D.story disk.new)) }
    ensures same { D.tells → Passes (D.story disk.old) (D.story disk.new) Same }
    ensures brief { D.tells → IsBrief 1 (D.story disk.old) (D.story disk.new) }
    ensures cause { Counts (D.faults disk.old) (D.faults disk.new) (disk_failed result) }
{
    let now = disk.moment();
    if now < u64::MAX {
        return Ok(now);
    }
    disk.sync()?;
    Ok(now)
}

/// Writes a new record's file to `tmp/rec2/`, if the publication has one.
fn stage_record<D: Disk>(
    alloc: Global,
    disk: &mut D,
    one: &OpenPublication,
) -> Result<(), DiskFault>
    requires reach { 3600 ≤ D.reach }
    requires name { IsName one.now.name }
    requires laid_out { D.tells → IsLaidOut (D.story disk.old).held }
    ensures staged { D.tells → OnOk result (IsStagedFile one.now.name (file_of one.now.new) (D.story disk.new).held) }
    ensures others { D.tells → Passes (D.story disk.old) (D.story disk.new)
        (AddsStagedFile one.now.name (file_of one.now.new)) }
    ensures laid_out { D.tells → IsLaidOut (D.story disk.new).held }
    ensures brief { D.tells → IsBrief 1 (D.story disk.old) (D.story disk.new) }
    ensures cause { Counts (D.faults disk.old) (D.faults disk.new) (disk_failed result) }
{
    match &one.new {
        Some(made) => write_record(alloc, disk, &one.name, &made.file),
        None => Ok(()),
    }
}

/// Writes a new record's file, if the publication has one, and its stamp under `tmp/`.
fn stage_files<D: Disk>(alloc: Global, disk: &mut D, one: &OpenPublication) -> Result<(), DiskFault>
    requires reach { 3600 ≤ D.reach }
    requires fit { IsFit one.now }
    requires laid_out { D.tells → IsLaidOut (D.story disk.old).held }
    ensures staged { D.tells → OnOk result (IsStagedFile one.now.name (file_of one.now.new) (D.story disk.new).held) }
    ensures stamp { D.tells → OnOk result ((D.story disk.new).held (staged_path one.now.folder)
        ≡ Some (stamp_file one.now.name)) }
    ensures others { D.tells → Passes (D.story disk.old) (D.story disk.new)
        (AddsStaged one.now.folder one.now.name (file_of one.now.new)) }
    ensures laid_out { D.tells → IsLaidOut (D.story disk.new).held }
    ensures brief { D.tells → IsBrief 2 (D.story disk.old) (D.story disk.new) }
    ensures cause { Counts (D.faults disk.old) (D.faults disk.new) (disk_failed result) }
{
    stage_record(alloc, disk, one)?;
    stage(alloc, disk, one.folder.as_str(), &one.name)
}

/// Stages the record, if it is new, and the stamp of a publication whose items are done.
pub(crate) fn stage_ending<D: Disk>(
    alloc: Global,
    disk: &mut D,
    one: &OpenPublication,
) -> Result<Reached, DiskFault>
    requires reach { 3600 ≤ D.reach }
    requires fit { IsFit one.now }
    requires laid_out { D.tells → IsLaidOut (D.story disk.old).held }
    ensures at { D.tells → IfOk result (λ reached. (f : AnEntry)
        → IsFileOf one.now.name (file_of one.now.new) one.now.sig (D.story disk.old).held f
        → IsHalf (put_by one.now f) [] (D.story disk.old) → IsOn (put_by one.now f) (progress_by one.now reached) (D.story disk.new)) }
    ensures suits { IfOk result (IsStaged one.now) }
    ensures adds { D.tells → OnOk result (AddsStaged one.now.folder one.now.name (file_of one.now.new)
        (D.story disk.old).held (D.story disk.new).held) }
    ensures finishes { D.tells → (f : AnEntry) → Passes (D.story disk.old) (D.story disk.new) (Finishes (put_by one.now f)) }
    ensures laid_out { D.tells → IsLaidOut (D.story disk.new).held }
    ensures brief { D.tells → IsBrief 3 (D.story disk.old) (D.story disk.new) }
    ensures cause { Counts (D.faults disk.old) (D.faults disk.new) (disk_failed result) }
{
    stage_files(alloc, disk, one)?;
    let ticket = take_ticket(disk)?;
    Ok(if one.new.is_some() {
        Reached::Staged(ticket)
    } else {
        Reached::Kept(ticket)
    })
}

/// Ends the ticket, and renames the record to its place.
pub(crate) fn rename_staged_record<D: Disk>(
    alloc: Global,
    disk: &mut D,
    name: &Hash,
    ticket: u64,
    synced: bool,
) -> Result<u64, DiskFault>
    requires reach { 3600 ≤ D.reach }
    requires name { IsName name.now }
    requires laid_out { D.tells → IsLaidOut (D.story disk.old).held }
    requires at { D.tells → (p : Publication) × (p.name ≡ name.now) × IsAt p (staged ticket) (D.story disk.old) }
    ensures at { D.tells → IfOk result (λ next. (p : Publication) → p.name ≡ name.now
        → IsAt p (staged ticket) (D.story disk.old) → IsAt p (stored next) (D.story disk.new)) }
    ensures finishes { D.tells → (p : Publication) → p.name ≡ name.now → p.is_new ≡ true
        → IsAt p (staged ticket) (D.story disk.old) → Passes (D.story disk.old) (D.story disk.new) (Finishes p) }
    ensures laid_out { D.tells → IsLaidOut (D.story disk.new).held }
    ensures swept { D.tells → OnOk result ((D.story disk.new).held (staged_record_path name.now) ≡ None) }
    ensures moves { D.tells → OnOk result (MovesOnly (staged_record_path name.now) (record_path name.now)
        (D.story disk.old).held (D.story disk.new).held) }
    ensures brief { D.tells → IsBrief 3 (D.story disk.old) (D.story disk.new) }
    ensures cause { Counts (D.faults disk.old) (D.faults disk.new) (disk_failed result) }
{
    let from = staged_record_path(alloc, name)?;
    let to = record_path(alloc, name)?;
    disk.end_sync(ticket, synced)?;
    disk.rename(from.as_str(), to.as_str())?;
    take_ticket(disk)
}

/// Ends the ticket, and renames the stamp to its place, which is free.
fn rename_staged_stamp<D: Disk>(
    alloc: Global,
    disk: &mut D,
    folder: &str,
    ticket: u64,
    synced: bool,
) -> Result<u64, DiskFault>
    requires reach { 3600 ≤ D.reach }
    requires folder { IsFolder folder.now }
    requires parts { slashes folder.now ≡ 1 }
    requires laid_out { D.tells → IsLaidOut (D.story disk.old).held }
    requires free { D.tells → IsFree (D.story disk.old).held (stamp_at folder.now) }
    requires at { D.tells → (p : Publication) × (p.folder ≡ folder.now) × (IsAt p (kept ticket) (D.story disk.old)
        ⊎ IsAt p (stored ticket) (D.story disk.old)) }
    ensures at { D.tells → IfOk result (λ next. (p : Publication) → p.folder ≡ folder.now
        → IsAt p (kept ticket) (D.story disk.old) ⊎ IsAt p (stored ticket) (D.story disk.old)
        → IsAt p (stamped next) (D.story disk.new)) }
    ensures finishes { D.tells → (p : Publication) → p.folder ≡ folder.now
        → IsAt p (kept ticket) (D.story disk.old) ⊎ IsAt p (stored ticket) (D.story disk.old)
        → Passes (D.story disk.old) (D.story disk.new) (Finishes p) }
    ensures laid_out { D.tells → IsLaidOut (D.story disk.new).held }
    ensures swept { D.tells → OnOk result ((D.story disk.new).held (staged_path folder.now) ≡ None) }
    ensures moves { D.tells → OnOk result (MovesOnly (staged_path folder.now) (stamp_at folder.now)
        (D.story disk.old).held (D.story disk.new).held) }
    ensures brief { D.tells → IsBrief 3 (D.story disk.old) (D.story disk.new) }
    ensures cause { Counts (D.faults disk.old) (D.faults disk.new) (disk_failed result) }
{
    let from = staged_path(alloc, folder)?;
    let to = stamp_at(alloc, folder)?;
    disk.end_sync(ticket, synced)?;
    disk.rename(from.as_str(), to.as_str())?;
    take_ticket(disk)
}

/// Removes what is in the way of the stamp, ends the ticket, and renames the stamp to its place.
pub(crate) fn put_stamp<D: Disk>(
    alloc: Global,
    disk: &mut D,
    folder: &str,
    ticket: u64,
    synced: bool,
) -> Result<u64, DiskFault>
    requires reach { 3600 ≤ D.reach }
    requires folder { IsFolder folder.now }
    requires parts { slashes folder.now ≡ 1 }
    requires laid_out { D.tells → IsLaidOut (D.story disk.old).held }
    requires at { D.tells → (p : Publication) × (p.folder ≡ folder.now) × (IsAt p (kept ticket) (D.story disk.old)
        ⊎ IsAt p (stored ticket) (D.story disk.old)) }
    ensures at { D.tells → IfOk result (λ next. (p : Publication) → p.folder ≡ folder.now
        → IsAt p (kept ticket) (D.story disk.old) ⊎ IsAt p (stored ticket) (D.story disk.old)
        → IsAt p (stamped next) (D.story disk.new)) }
    ensures publishing { D.tells → (p : Publication) → p.folder ≡ folder.now
        → IsAt p (kept ticket) (D.story disk.old) ⊎ IsAt p (stored ticket) (D.story disk.old)
        → Passes (D.story disk.old) (D.story disk.new) (IsPublishing p (D.story disk.old).held) }
    ensures keeps { D.tells → (p : Publication) → p.folder ≡ folder.now
        → IsAt p (kept ticket) (D.story disk.old) ⊎ IsAt p (stored ticket) (D.story disk.old)
        → Passes (D.story disk.old) (D.story disk.new) (KeepsEntries p (D.story disk.old).held) }
    ensures laid_out { D.tells → IsLaidOut (D.story disk.new).held }
    ensures swept { D.tells → OnOk result ((D.story disk.new).held (staged_path folder.now) ≡ None) }
    ensures moves { D.tells → OnOk result (KeepsBut (staged_path folder.now) (D.story disk.old).held
        (D.story disk.new).held) }
    ensures brief { D.tells → HasFreeStamp folder.now (D.story disk.old).held
        → IsBrief 10 (D.story disk.old) (D.story disk.new) }
    ensures cause { Counts (D.faults disk.old) (D.faults disk.new) (disk_failed result) }
{
    free_stamp(alloc, disk, folder)?;
    rename_staged_stamp(alloc, disk, folder, ticket, synced)
}
