// What comes of a mirror's wanted records.
ghost use Rattle.std.specs.Prelude.{◌≡◌, Contains, IfErr, IfOk, OnOk, false};
ghost use Rattle.outside_traits.specs.Fault.{Counts};
ghost use Rattle.outside_traits.specs.Passes.{Passes, Same};
ghost use Rattle.record_move.specs.declared.records.MovedRecord.{MovedRecord as Record};
ghost use Rattle.store_opening.specs.Survey.{AreJudged};
ghost use Rattle.sstate_mirror.specs.Faults.{disk_refused, mirror_refused};
ghost use Rattle.sstate_mirror.specs.Refusals.{AgreeAt, Differ, IsDifferOf, IsFindFault, IsNoFinding, IsRefusal};
ghost use Rattle.sstate_mirror.specs.Steps.{IsFound, IsTranslated};

use crate::fault::{BringFault, of_mirror};
use crate::gathering::gather;
use crate::keys::known_keys;
use hash_equiv::{Index, copy_manifest, equal_manifests};
use outside_traits::Disk;
use record_move::{Moved, MovedRecord, move_records};
use std::alloc::Global;
use store_model::EquivRow;
use store_opening::{Ahead, judge_disk};
use tree_model::{Mem, Text};

/// The rows of a mirror's believed records.
fn judged<M: Disk>(alloc: Global, mirror: &mut M) -> Result<Index, BringFault>
    ensures judged { M.tells → IfOk result (AreJudged (M.story mirror.old).held) }
    ensures none { IfErr result IsNoFinding }
    ensures same { M.tells → Passes (M.story mirror.old) (M.story mirror.new) Same }
    ensures cause { Counts (M.faults mirror.old) (M.faults mirror.new) (mirror_refused result) }
    ensures no_disk { disk_refused result ≡ false }
{
    match judge_disk(alloc, mirror, &Ahead::none()) {
        Ok(theirs) => Ok(theirs),
        Err(fault) => Err(of_mirror(fault)),
    }
}

/// What tells of two rows of one signature whose manifests differ, the second of which is the mirror's.
fn difference(alloc: Global, held: &EquivRow, given: &EquivRow) -> Result<BringFault, Mem>
    ensures { IfOk result (IsDifferOf held.now given.now) }
{
    Ok(BringFault::Differs {
        pn: given.pn.copy()?,
        task: given.task.copy()?,
        held: copy_manifest(alloc, &held.manifest)?,
        given: copy_manifest(alloc, &given.manifest)?,
    })
}

/// Two rows of one signature whose manifests differ.
fn differ(alloc: Global, held: &EquivRow, given: &EquivRow) -> BringFault
    ensures { IsDifferOf held.now given.now result }
{
    match difference(alloc, held, given) {
        Ok(fault) => fault,
        Err(_) => BringFault::Memory,
    }
}

/// Whether the record that stands for one of the mirror's has its manifest; refused where it doesn't.
fn agree_at(
    alloc: Global,
    theirs: &Index,
    rows: &Index,
    moved: &MovedRecord,
) -> Result<(), BringFault>
    ensures ok { OnOk result (AgreeAt theirs.now rows.now moved.now) }
    ensures err { IfErr result (Differ theirs.now rows.now moved.now) }
{
    match (rows.row(&moved.name), theirs.row(&moved.old_name)) {
        (Some(held), Some(given)) => {
            if equal_manifests(held.manifest.lines(), given.manifest.lines()) {
                return Ok(());
            }
            Err(differ(alloc, held, given))
        }
        _ => Ok(()),
    }
}

/// Whether each record that stands for one of the mirror's has its manifest; refused where one doesn't.
fn agree(alloc: Global, theirs: &Index, moved: &Moved) -> Result<(), BringFault>
    ensures ok { OnOk result ((m : Record) → Contains moved.now.records.items m → AgreeAt theirs.now moved.now.rows m) }
    ensures err { IfErr result (λ fault. (m : Record) × Contains moved.now.records.items m × Differ theirs.now moved.now.rows m fault) }
{
    for one in &moved.records {
        agree_at(alloc, theirs, &moved.rows, one)?;
    }
    Ok(())
}

/// What becomes of the wanted ones of a mirror's records behind the own ones: by the rows of both.
fn translate(
    alloc: Global,
    theirs: &Index,
    own: Index,
    wanted: &[(Text, Text)],
) -> Result<Moved, BringFault>
    ensures made { IfOk result (IsTranslated wanted.now theirs.now own) }
    ensures refused { IfErr result (IsRefusal wanted.now theirs.now own) }
    ensures no_disk { disk_refused result ≡ false }
    ensures no_mirror { mirror_refused result ≡ false }
{
    let olds = gather(alloc, theirs, wanted)?;
    let keys = known_keys(alloc, &own)?;
    let moved = move_records(alloc, olds, own, keys)?;
    agree(alloc, theirs, &moved)?;
    Ok(moved)
}

/// What becomes of a mirror's wanted records behind the own ones, whose rows are given.
pub(crate) fn find<M: Disk>(
    alloc: Global,
    own: Index,
    mirror: &mut M,
    wanted: &[(Text, Text)],
) -> Result<Moved, BringFault>
    ensures found { M.tells → IfOk result (IsFound wanted.now own (M.story mirror.old).held) }
    ensures refused { M.tells → IfErr result (IsFindFault wanted.now own (M.story mirror.old).held) }
    ensures same { M.tells → Passes (M.story mirror.old) (M.story mirror.new) Same }
    ensures cause { Counts (M.faults mirror.old) (M.faults mirror.new) (mirror_refused result) }
    ensures no_disk { disk_refused result ≡ false }
{
    let theirs = judged(alloc, mirror)?;
    translate(alloc, &theirs, own, wanted)
}
