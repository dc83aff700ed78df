// Records of a mirror come to a store that is opened first.
ghost use Rattle.std.specs.Prelude.{◌≤◌, IfErr, IfOk, List};
ghost use Rattle.outside_traits.specs.Fault.{Counts};
ghost use Rattle.outside_traits.specs.Passes.{Passes, Same};
ghost use Rattle.outside_traits.specs.Story.{IsFresh};
ghost use Rattle.meta_model.specs.CleanBuild.{Gives};
ghost use Rattle.store_model.specs.declared.signature.EquivRow.{EquivRow};
ghost use Rattle.store_model.specs.Origins.{Book, Reading};
ghost use Rattle.store_opening.specs.Survey.{AreJudged};
ghost use Rattle.sstate_mirror.specs.Faults.{IsCauseOf, IsDifference, disk_refused, mirror_refused};
ghost use Rattle.sstate_mirror.specs.OnTheWay.{HoldStores, IsBroughtIn, KeepsOnTheWay};

use crate::bringing::{Brought, bring};
use crate::fault::BringFault;
use outside_traits::Disk;
use std::alloc::Global;
use store_opening::{Ahead, open_disk};
use tree_model::Text;

/// Opens the store of a disk, as before a run, and brings records of a mirror to it: those of a wanted PN and task, with all that they name, and their objects. The mirror is
/// only read.
///
/// What `ahead` knows of just the files under the store's `rec2/` and `key/` that are read spares work, and changes nothing.
///
/// After Ok all that is wanted came. Whatever it answers, what is beside stays, and each moment left the store on the way: valid with its old lines, or with these and some of
/// those that come. `bring` says when each fault comes.
pub fn bring_store<D: Disk, M: Disk>(
    alloc: Global,
    ahead: &Ahead,
    disk: &mut D,
    mirror: &mut M,
    wanted: &[(Text, Text)],
) -> Result<Brought, BringFault>
    requires reach { 3600 ≤ D.reach }
    requires fresh { D.tells → IsFresh (D.story disk.old) }
    ensures done { D.tells → M.tells → IfOk result (λ brought. (gives : Gives) (reading : Reading) (start theirs : Book)
        → HoldStores gives reading (D.story disk.old).held (M.story mirror.old).held start theirs
        → IsBroughtIn gives reading wanted.now (M.story mirror.old).held (D.story disk.old).held (D.story disk.new).held start theirs brought) }
    ensures clash { D.tells → M.tells → IfErr result (λ fault. (gives : Gives) (reading : Reading) (start theirs : Book)
        → HoldStores gives reading (D.story disk.old).held (M.story mirror.old).held start theirs → IsCauseOf fault) }
    ensures differs { M.tells → IfErr result (λ fault. (theirs : List EquivRow) → AreJudged (M.story mirror.old).held theirs → IsDifference theirs fault) }
    ensures way { D.tells → KeepsOnTheWay M.tells wanted.now (M.story mirror.old).held (D.story disk.old).held (D.story disk.old) (D.story disk.new) }
    ensures same { M.tells → Passes (M.story mirror.old) (M.story mirror.new) Same }
    ensures cause { Counts (D.faults disk.old) (D.faults disk.new) (disk_refused result) }
    ensures mirror_cause { Counts (M.faults mirror.old) (M.faults mirror.new) (mirror_refused result) }
{
    let own = open_disk(alloc, disk, ahead)?;
    bring(alloc, disk, own, mirror, wanted)
}
