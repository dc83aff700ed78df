// Folders at whose own path, and above it, nothing is held.
ghost use Rattle.std.specs.Prelude.{◌≡◌, IfOk, MatchBool, is_some};
ghost use Rattle.outside_traits.specs.Store.{IsOpen};
ghost use Rattle.outside_traits.specs.Passes.{IsBrief, Passes, Same};
ghost use Rattle.outside_traits.specs.Fault.{Counts, disk_failed};

use outside_traits::{Disk, DiskFault};
use std::alloc::Global;

/// Whether something is held at the path. Refused only where the disk fails or memory runs out.
pub fn is_held<D: Disk>(alloc: Global, disk: &mut D, path: &str) -> Result<bool, DiskFault>
    ensures found { D.tells → IfOk result (λ held. held ≡ is_some ((D.story disk.old).held path.now)) }
    ensures others { D.tells → Passes (D.story disk.old) (D.story disk.new) Same }
    ensures brief { D.tells → IsBrief 1 (D.story disk.old) (D.story disk.new) }
    ensures cause { Counts (D.faults disk.old) (D.faults disk.new) (disk_failed result) }
{
    Ok(disk.read(alloc, path)?.is_some())
}

/// Whether nothing is held at the folder or above it.
pub(crate) fn is_open<D: Disk>(alloc: Global, disk: &mut D, folder: &str) -> Result<bool, DiskFault>
    ensures found { D.tells → IfOk result (λ free. MatchBool free (IsOpen folder.now (D.story disk.old).held)
        (IsOpen folder.now (D.story disk.old).held → ⊥)) }
    ensures others { D.tells → Passes (D.story disk.old) (D.story disk.new) Same }
    ensures cause { Counts (D.faults disk.old) (D.faults disk.new) (disk_failed result) }
{
    if is_held(alloc, disk, folder)? {
        return Ok(false);
    }
    let bytes = folder.as_bytes();
    for i in 0..bytes.len() {
        if bytes[i] == b'/' {
            if is_held(alloc, disk, &folder[..i])? {
                return Ok(false);
            }
        }
    }
    Ok(true)
}
