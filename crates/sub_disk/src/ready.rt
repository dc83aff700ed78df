// A folder is made ready for a disk of its own.
ghost use Rattle.std.specs.Prelude.{OnOk};
ghost use Rattle.outside_traits.specs.Fault.{Counts, disk_failed};
ghost use Rattle.outside_traits.specs.Passes.{Passes};
ghost use Rattle.outside_traits.specs.Store.{IsOpen, MakesWay};
ghost use Rattle.sub_disk.specs.Sub.{IsSettledWhole};

use outside_traits::{Disk, DiskFault, clear_above};
use std::alloc::Global;

/// Makes a folder ready for a disk of its own: what stands at the folder or above it is removed, and all that is held is made durable. What stands
/// in the folder stays. (Own rule.)
pub fn make_ready<D: Disk>(alloc: Global, disk: &mut D, folder: &str) -> Result<(), DiskFault>
    ensures open { D.tells → OnOk result (IsOpen folder.now (D.story disk.new).held) }
    ensures settled { D.tells → OnOk result (IsSettledWhole (D.story disk.new)) }

    // Whatever it answers.
    ensures way { D.tells → Passes (D.story disk.old) (D.story disk.new) (MakesWay folder.now (D.story disk.old).held) }
    ensures cause { Counts (D.faults disk.old) (D.faults disk.new) (disk_failed result) }
{
    clear_above(alloc, disk, folder)?;
    disk.sync()
}
