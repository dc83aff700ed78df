// Records and objects of a mirror.
ghost use Rattle.std.specs.Prelude.{◌≡◌, ◌≤◌, IfErr, IfOk, List, OnOk, length};
ghost use Rattle.outside_traits.specs.Fault.{Counts};
ghost use Rattle.outside_traits.specs.Passes.{Passes, Same};
ghost use Rattle.meta_model.specs.CleanBuild.{Gives};
ghost use Rattle.store_model.specs.declared.signature.EquivRow.{EquivRow as ARow};
ghost use Rattle.store_model.specs.Origins.{Book, Reading};
ghost use Rattle.store_opening.specs.Survey.{AreJudged};
ghost use Rattle.sstate_mirror.specs.Brought.{Brings, HoldBoth, IsDone, IsOpen, StaysBeside};
ghost use Rattle.sstate_mirror.specs.Faults.{IsCauseOf, IsDifference, disk_refused, mirror_refused};

use crate::fault::BringFault;
use crate::finding::find;
use crate::writing::write_moved;
use hash_equiv::Index;
use outside_traits::Disk;
use record_move::Moved;
use std::alloc::Global;
use tree_model::Text;

/// What came from a mirror.
#[derive(Drop)]
pub struct Brought {
    /// The rows of all records that the own store has then: those that it had, and behind them those that came.
    pub rows: Index,
    /// How many records were written.
    pub records: usize,
    /// How many objects were copied.
    pub objects: usize,
}

/// What came, of what was written.
fn brought_of(moved: Moved, objects: usize) -> Brought
    ensures rows { result.rows ≡ moved.rows }
    ensures records { result.records ≡ length moved.added.items }
    ensures objects { result.objects ≡ objects }
{
    let Moved {
        rows,
        keys: _,
        records: _,
        added,
    } = moved;
    Brought {
        rows,
        records: added.len(),
        objects,
    }
}

/// Brings records and objects of a mirror, which is only read, to an own store that was opened, whose rows are given: the mirror's believed records of a wanted PN
/// and task, with all that they name, in the names that stand here. Records and objects that are there already aren't written again.
///
/// `Collision` and `KeyCollision` come where two signatures, or two keys, have one digest, `Differs` where a record of one signature has two manifests; nothing
/// was written then. Objects on the mirror that don't match are passed over. Where nothing comes nothing is written.
pub fn bring<D: Disk, M: Disk>(
    alloc: Global,
    disk: &mut D,
    own: Index,
    mirror: &mut M,
    wanted: &[(Text, Text)],
) -> Result<Brought, BringFault>
    requires reach { 3600 ≤ D.reach }
    requires ready { D.tells → IsOpen (D.story disk.old) }
    ensures done { D.tells → M.tells → IfOk result (λ brought. (gives : Gives) (reading : Reading) (start theirs : Book)
        → HoldBoth gives reading own (D.story disk.old).held (M.story mirror.old).held start theirs
        → IsDone gives reading wanted.now own (M.story mirror.old).held (D.story disk.old).held (D.story disk.new).held start theirs brought) }
    ensures ready { D.tells → OnOk result (IsOpen (D.story disk.new)) }
    ensures idle { D.tells → IfOk result (λ brought. brought.records ≡ 0 → brought.objects ≡ 0 → Passes (D.story disk.old) (D.story disk.new) Same) }
    ensures clash { D.tells → M.tells → IfErr result (λ fault. (gives : Gives) (reading : Reading) (start theirs : Book)
        → HoldBoth gives reading own (D.story disk.old).held (M.story mirror.old).held start theirs → IsCauseOf fault) }
    ensures differs { M.tells → IfErr result (λ fault. (theirs : List ARow) → AreJudged (M.story mirror.old).held theirs → IsDifference theirs fault) }

    // Whatever it answers.
    ensures images { D.tells → M.tells → Passes (D.story disk.old) (D.story disk.new)
        (λ earlier image. Brings wanted.now own (M.story mirror.old).held (D.story disk.old).held image) }
    ensures beside { D.tells → Passes (D.story disk.old) (D.story disk.new) (λ earlier image. StaysBeside (D.story disk.old).held image) }
    ensures same { M.tells → Passes (M.story mirror.old) (M.story mirror.new) Same }
    ensures cause { Counts (D.faults disk.old) (D.faults disk.new) (disk_refused result) }
    ensures mirror_cause { Counts (M.faults mirror.old) (M.faults mirror.new) (mirror_refused result) }
{
    let moved = find(alloc, own, mirror, wanted)?;
    let objects = write_moved(alloc, disk, mirror, &moved)?;
    Ok(brought_of(moved, objects))
}
