// What goes is renamed away.
ghost use Rattle.std.specs.Prelude.{◌≡◌, ◌≢◌, ◌≤◌, ◌<◌, All, Contains, IfOk, IsSome, List, None, OnOk, length, ℕ};
ghost use Rattle.outside_traits.specs.Answers.{IsSettled};
ghost use Rattle.outside_traits.specs.Fault.{Counts, disk_failed};
ghost use Rattle.outside_traits.specs.Passes.{EachNow, Passes, Same};
ghost use Rattle.outside_traits.specs.Store.{IsFree, Moves};
ghost use Rattle.store_clean.specs.Cleared.{gone_path};
ghost use Rattle.store_clean.specs.Steps.{TakesAway};

use outside_traits::{Disk, DiskFault};
use sstate_objects::is_held;
use std::alloc::Global;
use tree_model::Text;

/// Where what goes is renamed to.
pub(crate) const GONE: &str = "tmp/gone";

/// Makes all that is held durable.
pub(crate) fn sync<D: Disk>(disk: &mut D) -> Result<(), DiskFault>
    ensures durable { D.tells → OnOk result (EachNow (D.story disk.new) (λ image. image ≡ (D.story disk.new).held)) }
    ensures same { D.tells → Passes (D.story disk.old) (D.story disk.new) Same }
    ensures cause { Counts (D.faults disk.old) (D.faults disk.new) (disk_failed result) }
{
    disk.sync()
}

/// Renames away what a path holds, where it holds something.
fn take_one<D: Disk>(alloc: Global, disk: &mut D, path: &str) -> Result<(), DiskFault>
    requires reach { 8 ≤ D.reach }
    requires settled { D.tells → IsSome ((D.story disk.old).held path.now) → IsSettled path.now (D.story disk.old) }
    requires free { D.tells → IsFree (D.story disk.old).held gone_path }
    requires apart { D.tells → path.now ≢ gone_path }
    ensures gone { D.tells → OnOk result ((D.story disk.new).held path.now ≡ None) }
    ensures moves { D.tells → Passes (D.story disk.old) (D.story disk.new) (Moves path.now gone_path ((D.story disk.old).held path.now)) }
    ensures cause { Counts (D.faults disk.old) (D.faults disk.new) (disk_failed result) }
{
    if is_held(alloc, disk, path)? {
        return disk.rename(path, GONE);
    }
    Ok(())
}

/// Renames away what these paths hold. What they hold is on the disk for good.
fn take_all<D: Disk>(alloc: Global, disk: &mut D, paths: &[Text]) -> Result<(), DiskFault>
    requires reach { 8 ≤ D.reach }
    requires durable { D.tells → EachNow (D.story disk.old) (λ image. image ≡ (D.story disk.old).held) }
    requires free { D.tells → IsFree (D.story disk.old).held gone_path }
    requires apart { D.tells → Contains paths.now gone_path → ⊥ }
    ensures gone { D.tells → OnOk result ((q : List ℕ) → Contains paths.now q → (D.story disk.new).held q ≡ None) }
    ensures takes { D.tells → Passes (D.story disk.old) (D.story disk.new) (TakesAway (Contains paths.now)) }
    ensures cause { Counts (D.faults disk.old) (D.faults disk.new) (disk_failed result) }
{
    for path in paths {
        take_one(alloc, disk, path.as_str())?;
    }
    Ok(())
}

/// Renames away what these paths hold, and syncs. Where there are none nothing is done.
pub(crate) fn take_away<D: Disk>(
    alloc: Global,
    disk: &mut D,
    paths: &[Text],
) -> Result<(), DiskFault>
    requires reach { 8 ≤ D.reach }
    requires durable { D.tells → EachNow (D.story disk.old) (λ image. image ≡ (D.story disk.old).held) }
    requires free { D.tells → IsFree (D.story disk.old).held gone_path }
    requires apart { D.tells → Contains paths.now gone_path → ⊥ }
    ensures gone { D.tells → OnOk result ((q : List ℕ) → Contains paths.now q → (D.story disk.new).held q ≡ None) }
    ensures durable { D.tells → OnOk result (EachNow (D.story disk.new) (λ image. image ≡ (D.story disk.new).held)) }
    ensures takes { D.tells → Passes (D.story disk.old) (D.story disk.new) (TakesAway (Contains paths.now)) }
    ensures cause { Counts (D.faults disk.old) (D.faults disk.new) (disk_failed result) }
{
    if paths.is_empty() {
        return Ok(());
    }
    take_all(alloc, disk, paths)?;
    sync(disk)
}
