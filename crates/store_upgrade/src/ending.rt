// Whether a store is of the present format alone, and what says so.
ghost use Rattle.std.specs.Prelude.{◌≡◌, ◌↔◌, ◌≤◌, IfOk, IsTrue, List, MatchBool, None, OnOk, Some, codes, ℕ};
ghost use Rattle.tree_model.specs.Path.{IsAtOrBelow};
ghost use Rattle.outside_traits.specs.Fault.{Counts, disk_failed};
ghost use Rattle.outside_traits.specs.Passes.{EachNow, Passes, Same};
ghost use Rattle.outside_traits.specs.Store.{ChangesAt, IsFree, Moves};
ghost use Rattle.store_move.specs.Stores.{IsDone};
ghost use Rattle.store_opening.specs.Paths.{IsLaidOut};
ghost use Rattle.store_upgrade.specs.Steps.{Ends, Within, present_format};

use crate::calls::{clear_at, put_staged, remove_below, sync, write};
use outside_traits::{Disk, DiskFault};
use std::alloc::Global;
use store_opening::same_bytes;
use tree_model::{Bytes, Entry, Mem};

/// Whether an entry is the file `format` of the present format: `2` and a newline. One that can be executed isn't.
fn is_present(entry: &Entry) -> bool
    ensures { IsTrue result ↔ (entry.now ≡ present_format) }
{
    match entry {
        Entry::File { exec: false, bytes } => same_bytes(bytes.as_slice(), b"2\n"),
        Entry::File {
            exec: true,
            bytes: _,
        } => false,
        Entry::Link { target: _ } => false,
    }
}

/// Whether `format` says that nothing of the first format counts.
pub(crate) fn is_done<D: Disk>(alloc: Global, disk: &mut D) -> Result<bool, DiskFault>
    ensures done { D.tells → IfOk result (λ done. MatchBool done (IsDone (D.story disk.old).held) (IsDone (D.story disk.old).held → ⊥)) }
    ensures others { D.tells → Passes (D.story disk.old) (D.story disk.new) Same }
    ensures cause { Counts (D.faults disk.old) (D.faults disk.new) (disk_failed result) }
{
    match disk.read(alloc, "format")? {
        Some(entry) => Ok(is_present(&entry)),
        None => Ok(false),
    }
}

/// Removes what is held at `rec` and under it.
pub(crate) fn remove_old<D: Disk>(alloc: Global, disk: &mut D) -> Result<(), DiskFault>
    ensures gone { D.tells → OnOk result ((q : List ℕ) → IsAtOrBelow (codes "rec") q → (D.story disk.new).held q ≡ None) }
    ensures within { D.tells → Passes (D.story disk.old) (D.story disk.new) (Within (codes "rec")) }
    ensures cause { Counts (D.faults disk.old) (D.faults disk.new) (disk_failed result) }
{
    remove_below(alloc, disk, "rec")?;
    clear_at(alloc, disk, "rec")
}

/// The file `format` of the present format.
fn format_entry(alloc: Global) -> Result<Entry, Mem>
    ensures { IfOk result (λ entry. entry ≡ present_format) }
{
    Ok(Entry::File {
        exec: false,
        bytes: Bytes::from_slice(alloc, b"2\n")?,
    })
}

/// Writes `format` where it is written first, and syncs.
fn stage_format<D: Disk>(alloc: Global, disk: &mut D) -> Result<(), DiskFault>
    requires reach { 3600 ≤ D.reach }
    requires free { D.tells → IsFree (D.story disk.old).held (codes "tmp/format") }
    ensures staged { D.tells → OnOk result ((D.story disk.new).held (codes "tmp/format") ≡ Some present_format) }
    ensures durable { D.tells → OnOk result (EachNow (D.story disk.new) (λ image. image ≡ (D.story disk.new).held)) }
    ensures changes { D.tells → Passes (D.story disk.old) (D.story disk.new) (ChangesAt (codes "tmp/format")) }
    ensures cause { Counts (D.faults disk.old) (D.faults disk.new) (disk_failed result) }
{
    let entry = format_entry(alloc)?;
    write(disk, "tmp/format", &entry)?;
    sync(disk)
}

/// Renames `format` to its place, and syncs.
fn put_format<D: Disk>(alloc: Global, disk: &mut D) -> Result<(), DiskFault>
    requires reach { 3600 ≤ D.reach }
    requires free { D.tells → IsFree (D.story disk.old).held (codes "format") }
    requires staged { D.tells → (D.story disk.old).held (codes "tmp/format") ≡ Some present_format }
    requires durable { D.tells → EachNow (D.story disk.old) (λ image. image ≡ (D.story disk.old).held) }
    ensures done { D.tells → OnOk result (IsDone (D.story disk.new).held) }
    ensures durable { D.tells → OnOk result (EachNow (D.story disk.new) (λ image. image ≡ (D.story disk.new).held)) }
    ensures moves { D.tells → Passes (D.story disk.old) (D.story disk.new) (Moves (codes "tmp/format") (codes "format") (Some present_format)) }
    ensures cause { Counts (D.faults disk.old) (D.faults disk.new) (disk_failed result) }
{
    put_staged(alloc, disk, "tmp/format", "format")?;
    sync(disk)
}

/// Writes `format`: first under `tmp/`, where it is synced; then it is renamed to its place, and the disk synced again. What is under `format/` goes before.
pub(crate) fn write_format<D: Disk>(alloc: Global, disk: &mut D) -> Result<(), DiskFault>
    requires reach { 3600 ≤ D.reach }
    requires laid { D.tells → IsLaidOut (D.story disk.old).held }
    ensures done { D.tells → OnOk result (IsDone (D.story disk.new).held) }
    ensures durable { D.tells → OnOk result (EachNow (D.story disk.new) (λ image. image ≡ (D.story disk.new).held)) }
    ensures ends { D.tells → Passes (D.story disk.old) (D.story disk.new) Ends }
    ensures cause { Counts (D.faults disk.old) (D.faults disk.new) (disk_failed result) }
{
    remove_below(alloc, disk, "format")?;
    stage_format(alloc, disk)?;
    put_format(alloc, disk)
}
