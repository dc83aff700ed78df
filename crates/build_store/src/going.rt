// An open publication goes on, a call a turn.
ghost use Rattle.std.specs.Prelude.{◌≡◌, ◌≤◌, IfOk, None, OnOk, Some};
ghost use Rattle.tree_model.specs.declared.entry.Entry.{Entry as AnEntry};
ghost use Rattle.outside_traits.specs.Fault.{Counts, disk_failed};
ghost use Rattle.outside_traits.specs.Passes.{IsBrief, Passes};
ghost use Rattle.store_opening.specs.Paths.{IsLaidOut};
ghost use Rattle.build_store.specs.Drafts.{file_of};
ghost use Rattle.stamp_store.specs.Stamp.{old_path};
ghost use Rattle.build_store.specs.Calls.{HasFreeStamp, Opens};
ghost use Rattle.build_store.specs.Halves.{IsAside, IsHalf, IsOn};
ghost use Rattle.build_store.specs.OpenOnes.{IsFit, IsOnOrDone, KeepsEntries, LeadsTo, Suits, Sweeps, items_of, progress_by, progress_of, put_by};
ghost use Rattle.build_store.specs.Phases.{IsFileOf};
ghost use Rattle.build_store.specs.Pieces.{IsPublishing};

use crate::ending::{put_stamp, rename_staged_record, stage_ending};
use crate::opening::take_out;
use crate::pieces::{OpenPublication, Reached, count_items};
use crate::working::step;
use outside_traits::{Disk, DiskFault};
use std::alloc::Global;

/// Does what is next of the items; with none left record and stamp are staged.
fn work_on<D: Disk>(
    alloc: Global,
    disk: &mut D,
    one: &OpenPublication,
    done: usize,
) -> Result<Reached, DiskFault>
    requires reach { 3600 ≤ D.reach }
    requires fit { IsFit one.now }
    requires suits { Suits one.now (Reached.Working done) }
    requires laid_out { D.tells → IsLaidOut (D.story disk.old).held }
    requires on { D.tells → (f : AnEntry) → IsOn (put_by one.now f) (progress_by one.now (Reached.Working done)) (D.story disk.old) }
    ensures leads { IfOk result (λ next. LeadsTo one.now (Reached.Working done) (Some next)) }
    ensures swept { D.tells → IfOk result (λ next. Sweeps one.now (Reached.Working done) (Some next)
        (D.story disk.old).held (D.story disk.new).held) }
    ensures on { D.tells → IfOk result (λ next. (f : AnEntry)
        → IsFileOf one.now.name (file_of one.now.new) one.now.sig (D.story disk.old).held f
        → IsOn (put_by one.now f) (progress_by one.now next) (D.story disk.new)) }
    ensures keeps { D.tells → (f : AnEntry) → Passes (D.story disk.old) (D.story disk.new)
        (KeepsEntries (put_by one.now f) (D.story disk.old).held) }
    ensures publishing { D.tells → (f : AnEntry) → Passes (D.story disk.old) (D.story disk.new)
        (IsPublishing (put_by one.now f) (D.story disk.old).held) }
    ensures laid_out { D.tells → IsLaidOut (D.story disk.new).held }
    ensures brief { D.tells → IsBrief 128 (D.story disk.old) (D.story disk.new) }
    ensures cause { Counts (D.faults disk.old) (D.faults disk.new) (disk_failed result) }
{
    if done < count_items(one) {
        return Ok(Reached::Working(step(alloc, disk, one, done)?));
    }
    stage_ending(alloc, disk, one)
}

/// Takes the stamp out that was put aside, and what is in the way of the folders: the items are next.
fn take_on<D: Disk>(
    alloc: Global,
    disk: &mut D,
    one: &OpenPublication,
    ticket: u64,
    synced: bool,
) -> Result<Reached, DiskFault>
    requires fit { IsFit one.now }
    requires laid_out { D.tells → IsLaidOut (D.story disk.old).held }
    requires at { D.tells → (f : AnEntry) × IsAside (put_by one.now f) ticket (items_of one.now) (D.story disk.old) }
    ensures next { IfOk result (λ next. next ≡ Reached.Working 0) }
    ensures half { D.tells → OnOk result ((f : AnEntry)
        → IsAside (put_by one.now f) ticket (items_of one.now) (D.story disk.old)
        → IsHalf (put_by one.now f) (items_of one.now) (D.story disk.new)) }
    ensures swept { D.tells → OnOk result ((D.story disk.new).held (old_path one.now.folder) ≡ None) }
    ensures opens { D.tells → (f : AnEntry) → IsAside (put_by one.now f) ticket (items_of one.now) (D.story disk.old)
        → Passes (D.story disk.old) (D.story disk.new) (Opens (put_by one.now f) (D.story disk.old).held) }
    ensures laid_out { D.tells → IsLaidOut (D.story disk.new).held }
    ensures brief { D.tells → IsBrief 12 (D.story disk.old) (D.story disk.new) }
    ensures cause { Counts (D.faults disk.old) (D.faults disk.new) (disk_failed result) }
{
    take_out(
        alloc,
        disk,
        one.folder.as_str(),
        &one.object,
        ticket,
        synced,
    )?;
    Ok(Reached::Working(0))
}

/// Goes on with an open publication, by one step or one phase of its end: what it has reached then, or nothing where all is done.
///
/// `synced` says that the system has synced what the disk stands on, and began it no sooner than at the publication's last ticket.
pub(crate) fn go_on<D: Disk>(
    alloc: Global,
    disk: &mut D,
    one: &OpenPublication,
    synced: bool,
) -> Result<Option<Reached>, DiskFault>
    requires reach { 3600 ≤ D.reach }
    requires fit { IsFit one.now }
    requires suits { Suits one.now one.now.reached }
    requires laid_out { D.tells → IsLaidOut (D.story disk.old).held }
    requires on { D.tells → (f : AnEntry) × IsOn (put_by one.now f) (progress_of one.now) (D.story disk.old) }
    ensures leads { IfOk result (LeadsTo one.now one.now.reached) }
    ensures swept { D.tells → IfOk result (λ next. Sweeps one.now one.now.reached next
        (D.story disk.old).held (D.story disk.new).held) }
    ensures on { D.tells → IfOk result (λ next. (f : AnEntry)
        → IsFileOf one.now.name (file_of one.now.new) one.now.sig (D.story disk.old).held f
        → IsOn (put_by one.now f) (progress_of one.now) (D.story disk.old)
        → IsOnOrDone (put_by one.now f) (items_of one.now) next (D.story disk.new)) }
    ensures keeps { D.tells → (f : AnEntry)
        → IsOn (put_by one.now f) (progress_of one.now) (D.story disk.old)
        → Passes (D.story disk.old) (D.story disk.new) (KeepsEntries (put_by one.now f) (D.story disk.old).held) }
    ensures publishing { D.tells → (f : AnEntry)
        → IsOn (put_by one.now f) (progress_of one.now) (D.story disk.old)
        → Passes (D.story disk.old) (D.story disk.new) (IsPublishing (put_by one.now f) (D.story disk.old).held) }
    ensures laid_out { D.tells → IsLaidOut (D.story disk.new).held }
    ensures brief { D.tells → HasFreeStamp one.now.folder (D.story disk.old).held
        → IsBrief 128 (D.story disk.old) (D.story disk.new) }
    ensures cause { Counts (D.faults disk.old) (D.faults disk.new) (disk_failed result) }
{
    match one.reached {
        Reached::Aside(ticket) => Ok(Some(Reached::Taken(ticket))),
        Reached::Taken(ticket) => Ok(Some(take_on(alloc, disk, one, ticket, synced)?)),
        Reached::Working(done) => Ok(Some(work_on(alloc, disk, one, done)?)),
        Reached::Staged(ticket) => {
            let next = rename_staged_record(alloc, disk, &one.name, ticket, synced)?;
            Ok(Some(Reached::Stored(next)))
        }
        Reached::Kept(ticket) => {
            let next = put_stamp(alloc, disk, one.folder.as_str(), ticket, synced)?;
            Ok(Some(Reached::Stamped(next)))
        }
        Reached::Stored(ticket) => {
            let next = put_stamp(alloc, disk, one.folder.as_str(), ticket, synced)?;
            Ok(Some(Reached::Stamped(next)))
        }
        Reached::Stamped(ticket) => {
            disk.end_sync(ticket, synced)?;
            Ok(None)
        }
    }
}
