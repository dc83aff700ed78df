// Clearing a disk by the names of a plan's tasks.
ghost use Rattle.std.specs.Prelude.{◌≤◌, IfOk, option_copied};
ghost use Rattle.outside_traits.specs.Fault.{Counts, disk_failed};
ghost use Rattle.outside_traits.specs.Passes.{Passes, Same};
ghost use Rattle.plan_clean.specs.Along.{IsAlong, IsClearedBy, IsCountedBy, IsOrdered};

use crate::roots::roots_of;
use meta_model::Plan;
use outside_traits::{Disk, DiskFault};
use std::alloc::Global;
use store_clean::{Cleaned, clean_store, count_clean};
use store_opening::{Ahead, judge_disk, open_disk};

/// Opens a disk and clears it. Kept are the records of all tasks of the plan, by their names over the rows as opened, with all that they lead to; without a plan
/// there are none such. Of the others those are kept, in ascending order of their names, each with all that it leads to, that leave no more kept than the
/// limit. The rest goes, with the stamps that name it, and with the objects and keys that no kept record names. Tells how many records are kept and how many went.
///
/// On a disk that holds nothing both numbers are 0, and nothing is put there. `Failed` comes only where its count of faults rose.
pub fn clean_disk<D: Disk>(
    alloc: Global,
    disk: &mut D,
    plan: Option<&Plan>,
    limit: usize,
) -> Result<Cleaned, DiskFault>
    requires reach { 8 ≤ D.reach }
    requires ordered { IsOrdered (option_copied plan) }
    ensures cleared { D.tells → IfOk result (IsClearedBy (option_copied plan.entry) limit (D.story disk.old).held (D.story disk.new)) }

    // Whatever it answers.
    ensures moments { D.tells → Passes (D.story disk.old) (D.story disk.new) (IsAlong (option_copied plan.entry) limit (D.story disk.old).held) }
    ensures cause { Counts (D.faults disk.old) (D.faults disk.new) (disk_failed result) }
{
    let index = open_disk(alloc, disk, &Ahead::none())?;
    let roots = roots_of(alloc, plan, &index)?;
    clean_store(alloc, disk, &index, &roots, limit)
}

/// How many records `clean_disk` would keep, and how many would go. Nothing is changed, and the disk is only listed and read.
pub fn count_disk<D: Disk>(
    alloc: Global,
    disk: &mut D,
    plan: Option<&Plan>,
    limit: usize,
) -> Result<Cleaned, DiskFault>
    requires ordered { IsOrdered (option_copied plan) }
    ensures counted { D.tells → IfOk result (IsCountedBy (option_copied plan.entry) limit (D.story disk.old).held) }

    // Whatever it answers.
    ensures same { D.tells → Passes (D.story disk.old) (D.story disk.new) Same }
    ensures cause { Counts (D.faults disk.old) (D.faults disk.new) (disk_failed result) }
{
    let index = judge_disk(alloc, disk, &Ahead::none())?;
    let roots = roots_of(alloc, plan, &index)?;
    count_clean(alloc, disk, &index, &roots, limit)
}
