// What is in the way of a stamp.
ghost use Rattle.std.specs.Prelude.{◌≡◌, List, None, OnOk, ℕ};
ghost use Rattle.tree_model.specs.Path.{IsBelow};
ghost use Rattle.outside_traits.specs.Fault.{Counts, disk_failed};
ghost use Rattle.outside_traits.specs.Passes.{IsBrief, Passes};
ghost use Rattle.outside_traits.specs.Store.{IsFree, slashes};
ghost use Rattle.store_model.specs.Publication.{stamp_at};
ghost use Rattle.build_store.specs.Calls.{ClearsBelow, FreesStamp, HasFreeStamp};

use crate::pieces::place_in;
use crate::places::stamp_at;
use outside_traits::{Disk, DiskFault, clear_above};
use std::alloc::Global;
use store_opening::remove_all;

/// Removes what is held below a path.
fn clear_below<D: Disk>(alloc: Global, disk: &mut D, path: &str) -> Result<(), DiskFault>
    ensures gone { D.tells → OnOk result ((q : List ℕ) → IsBelow path.now q → (D.story disk.new).held q ≡ None) }
    ensures clears { D.tells → Passes (D.story disk.old) (D.story disk.new)
        (ClearsBelow path.now (D.story disk.old).held) }
    ensures brief { D.tells → ((q : List ℕ) → IsBelow path.now q → (D.story disk.old).held q ≡ None)
        → IsBrief 1 (D.story disk.old) (D.story disk.new) }
    ensures cause { Counts (D.faults disk.old) (D.faults disk.new) (disk_failed result) }
{
    let prefix = place_in(alloc, path, "")?;
    let paths = disk.list(alloc, prefix.as_str())?;
    if paths.is_empty() {
        return Ok(());
    }
    remove_all(disk, paths.as_slice())
}

/// Removes what is in the way of a folder's stamp, of which none is held: what stands above its path, or below it. Opening a store leaves such there.
pub(crate) fn free_stamp<D: Disk>(
    alloc: Global,
    disk: &mut D,
    folder: &str,
) -> Result<(), DiskFault>
    requires { D.tells → (D.story disk.old).held (stamp_at folder.now) ≡ None }
    ensures free { D.tells → OnOk result (IsFree (D.story disk.new).held (stamp_at folder.now)) }
    ensures frees { D.tells → Passes (D.story disk.old) (D.story disk.new)
        (FreesStamp folder.now (D.story disk.old).held) }
    ensures brief { D.tells → slashes folder.now ≡ 1 → HasFreeStamp folder.now (D.story disk.old).held
        → IsBrief 7 (D.story disk.old) (D.story disk.new) }
    ensures cause { Counts (D.faults disk.old) (D.faults disk.new) (disk_failed result) }
{
    let path = stamp_at(alloc, folder)?;
    clear_above(alloc, disk, path.as_str())?;
    clear_below(alloc, disk, path.as_str())
}
