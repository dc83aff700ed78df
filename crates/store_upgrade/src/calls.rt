// Calls of a disk, each with what it does to all images.
ghost use Rattle.std.specs.Prelude.{◌≡◌, ◌≢◌, ◌≤◌, IfOk, IsSome, List, None, OnOk, Some, length, ℕ};
ghost use Rattle.hex.specs.Hex.{IsBytes};
ghost use Rattle.tree_model.specs.declared.entry.Entry.{Entry as AnEntry};
ghost use Rattle.tree_model.specs.Path.{IsBelow, IsClean};
ghost use Rattle.outside_traits.specs.Answers.{IsSettled};
ghost use Rattle.outside_traits.specs.Fault.{Counts, disk_failed};
ghost use Rattle.outside_traits.specs.Passes.{EachNow, Passes, Same};
ghost use Rattle.outside_traits.specs.Store.{ChangesAt, IsFree, Moves};
ghost use Rattle.store_upgrade.specs.Steps.{Below};

use outside_traits::{Disk, DiskFault};
use sstate_objects::is_held;
use std::alloc::Global;
use store_opening::remove_all;
use tree_model::{Entry, Text};

/// A digest that is held has 32 bytes.
pub fn known(bytes: [u8; 32])
    ensures size { length bytes ≡ 32 }
    ensures bytes { IsBytes bytes }
{}

/// Makes all that is held durable.
pub fn sync<D: Disk>(disk: &mut D) -> Result<(), DiskFault>
    ensures durable { D.tells → OnOk result (EachNow (D.story disk.new) (λ image. image ≡ (D.story disk.new).held)) }
    ensures same { D.tells → Passes (D.story disk.old) (D.story disk.new) Same }
    ensures cause { Counts (D.faults disk.old) (D.faults disk.new) (disk_failed result) }
{
    disk.sync()
}

/// Writes an entry to a path.
pub fn write<D: Disk>(disk: &mut D, path: &str, entry: &Entry) -> Result<(), DiskFault>
    requires clean { IsClean path.now }
    requires within_reach { length path.now ≤ D.reach }
    requires free { D.tells → IsFree (D.story disk.old).held path.now }
    ensures held { D.tells → OnOk result ((D.story disk.new).held path.now ≡ Some entry.now) }
    ensures changes { D.tells → Passes (D.story disk.old) (D.story disk.new) (ChangesAt path.now) }
    ensures cause { Counts (D.faults disk.old) (D.faults disk.new) (disk_failed result) }
{
    disk.write(path, entry)
}

/// Renames what a path holds, where it holds something.
pub fn put_staged<D: Disk>(
    alloc: Global,
    disk: &mut D,
    from: &str,
    to: &str,
) -> Result<(), DiskFault>
    requires clean { IsClean to.now }
    requires within_reach { length to.now ≤ D.reach }
    requires settled { D.tells → IsSome ((D.story disk.old).held from.now) → IsSettled from.now (D.story disk.old) }
    requires free { D.tells → IsFree (D.story disk.old).held to.now }
    requires apart { from.now ≢ to.now }
    ensures put { D.tells → OnOk result ((e : AnEntry) → (D.story disk.old).held from.now ≡ Some e → (D.story disk.new).held to.now ≡ Some e) }
    ensures gone { D.tells → OnOk result ((D.story disk.new).held from.now ≡ None) }
    ensures moves { D.tells → Passes (D.story disk.old) (D.story disk.new) (Moves from.now to.now ((D.story disk.old).held from.now)) }
    ensures same { D.tells → (D.story disk.old).held from.now ≡ None → Passes (D.story disk.old) (D.story disk.new) Same }
    ensures cause { Counts (D.faults disk.old) (D.faults disk.new) (disk_failed result) }
{
    if is_held(alloc, disk, from)? {
        return disk.rename(from, to);
    }
    Ok(())
}

/// Removes what a path holds, where it holds something.
pub(crate) fn clear_at<D: Disk>(alloc: Global, disk: &mut D, path: &str) -> Result<(), DiskFault>
    ensures gone { D.tells → OnOk result ((D.story disk.new).held path.now ≡ None) }
    ensures changes { D.tells → Passes (D.story disk.old) (D.story disk.new) (ChangesAt path.now) }
    ensures cause { Counts (D.faults disk.old) (D.faults disk.new) (disk_failed result) }
{
    if is_held(alloc, disk, path)? {
        return disk.remove(path);
    }
    Ok(())
}

/// Removes what is held below a folder.
pub(crate) fn remove_below<D: Disk>(
    alloc: Global,
    disk: &mut D,
    folder: &str,
) -> Result<(), DiskFault>
    ensures gone { D.tells → OnOk result ((q : List ℕ) → IsBelow folder.now q → (D.story disk.new).held q ≡ None) }
    ensures within { D.tells → Passes (D.story disk.old) (D.story disk.new) (Below folder.now) }
    ensures cause { Counts (D.faults disk.old) (D.faults disk.new) (disk_failed result) }
{
    let mut prefix = Text::from_str(alloc, folder)?;
    prefix.push_str("/")?;
    let paths = disk.list(alloc, prefix.as_str())?;
    remove_all(disk, paths.as_slice())
}
