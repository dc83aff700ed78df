// Steps of an open publication.
ghost use Rattle.std.specs.Prelude.{◌≡◌, ◌≤◌, ◌<◌, ◌+◌, ◌^◌, ℕ, IfOk, OnOk, drop, length, min, take};
ghost use Rattle.tree_model.specs.declared.entry.Entry.{Entry as AnEntry};
ghost use Rattle.outside_traits.specs.Fault.{Counts, disk_failed};
ghost use Rattle.outside_traits.specs.Passes.{IsBrief, Passes};
ghost use Rattle.store_opening.specs.Paths.{IsLaidOut};
ghost use Rattle.build_store.specs.Calls.{Works};
ghost use Rattle.build_store.specs.Halves.{IsHalf};
ghost use Rattle.build_store.specs.OpenOnes.{IsFit, KeepsEntries, items_of, put_by};
ghost use Rattle.build_store.specs.Pieces.{IsPublishing};

use crate::pieces::{OpenPublication, count_items, entry_of, path_of_item};
use outside_traits::{Disk, DiskFault, put_entry};
use std::alloc::Global;

/// Does one item: removes its path, or writes its entry, where that isn't held.
fn do_item<D: Disk>(
    alloc: Global,
    disk: &mut D,
    one: &OpenPublication,
    item: usize,
) -> Result<(), DiskFault>
    requires reach { 3600 ≤ D.reach }
    requires fit { IsFit one.now }
    requires within { item < length (items_of one.now) }
    requires half { D.tells → (f : AnEntry) → IsHalf (put_by one.now f) (drop item (items_of one.now)) (D.story disk.old) }
    ensures half { D.tells → OnOk result ((f : AnEntry) → IsHalf (put_by one.now f) (drop (item + 1) (items_of one.now)) (D.story disk.new)) }
    ensures works { D.tells → Passes (D.story disk.old) (D.story disk.new) (Works (take 1 (drop item (items_of one.now)))) }
    ensures keeps { D.tells → (f : AnEntry) → Passes (D.story disk.old) (D.story disk.new)
        (KeepsEntries (put_by one.now f) (D.story disk.old).held) }
    ensures brief { D.tells → IsBrief 2 (D.story disk.old) (D.story disk.new) }
    ensures cause { Counts (D.faults disk.old) (D.faults disk.new) (disk_failed result) }
{
    let path = path_of_item(alloc, one, item)?;
    match entry_of(one, item) {
        Some(entry) => put_entry(alloc, disk, path.as_str(), entry, true),
        None => disk.remove(path.as_str()),
    }
}

/// Up to where the next items are done, of so many.
fn next_end(done: usize, all: usize) -> usize
    requires { done ≤ all }
    ensures { result ≡ min (done + 64) all }
{
    if all - done < 64 {
        return all;
    }
    done + 64
}

/// Does the next items, at most 64, without a sync, and says how many are done then.
pub(crate) fn step<D: Disk>(
    alloc: Global,
    disk: &mut D,
    one: &OpenPublication,
    done: usize,
) -> Result<usize, DiskFault>
    requires reach { 3600 ≤ D.reach }
    requires fit { IsFit one.now }
    requires within { done ≤ length (items_of one.now) }
    requires half { D.tells → (f : AnEntry) → IsHalf (put_by one.now f) (drop done (items_of one.now)) (D.story disk.old) }
    ensures done { IfOk result (λ next. next ≡ min (done + 64) (length (items_of one.now))) }
    ensures half { D.tells → IfOk result (λ next. (f : AnEntry)
        → IsHalf (put_by one.now f) (drop next (items_of one.now)) (D.story disk.new)) }
    ensures works { D.tells → Passes (D.story disk.old) (D.story disk.new) (Works (take 64 (drop done (items_of one.now)))) }
    ensures keeps { D.tells → (f : AnEntry) → Passes (D.story disk.old) (D.story disk.new)
        (KeepsEntries (put_by one.now f) (D.story disk.old).held) }
    ensures publishing { D.tells → (f : AnEntry) → Passes (D.story disk.old) (D.story disk.new)
        (IsPublishing (put_by one.now f) (D.story disk.old).held) }
    ensures laid_out { D.tells → IsLaidOut (D.story disk.old).held → IsLaidOut (D.story disk.new).held }
    ensures brief { D.tells → IsBrief 128 (D.story disk.old) (D.story disk.new) }
    ensures cause { Counts (D.faults disk.old) (D.faults disk.new) (disk_failed result) }
{
    let end = next_end(done, count_items(one));
    for item in done..end {
        do_item(alloc, disk, one, item)?;
    }
    Ok(end)
}
