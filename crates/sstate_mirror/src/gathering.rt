// The wanted records of a mirror, by its rows.
ghost use Rattle.std.specs.Prelude.{◌≡◌, ◌||◌, ◌∷◌, ◌<◌, IfOk, List, OnOk, Some, if◌then◌else◌, length, slice_get};
ghost use Rattle.std.specs.Option.{is_some};
ghost use Rattle.store_model.specs.Origins.{Line};
ghost use Rattle.record_move.specs.declared.records.OldRecord.{OldRecord as AnOldRecord};
ghost use Rattle.record_move.specs.Named.{value_at};
ghost use Rattle.record_move.specs.Wanted.{is_named};
ghost use Rattle.sstate_mirror.specs.Steps.{AreGathered, IsGathered, IsRowOf};
ghost use Rattle.sstate_mirror.specs.Titles.{AreTitles};
ghost use Rattle.sstate_mirror.specs.Wanted.{Titles, record_of};

use crate::titles::{is_asked, titles_by_pn};
use hash_equiv::{Index, copy_manifest};
use indexmap::IndexMap;
use record_move::{OldRecord, note_names};
use sig_gen::{SigFault, decode};
use std::alloc::Global;
use std::collections::BTreeMap;
use store_model::{EquivRow, SigRecord, StoredSig};
use tree_model::{Hash, Mem, Text, Texts};

/// The signature of a row, if it can be read.
fn signature_of(alloc: Global, row: &EquivRow) -> Result<Option<SigRecord>, Mem>
    ensures { (line : Line) → IsRowOf row.now line → IfOk result (λ found. found ≡ Some line.sig) }
{
    match decode(alloc, &row.sig) {
        Ok(sig) => Ok(Some(sig)),
        Err(SigFault::BadRecord) => Ok(None),
        Err(SigFault::Memory) => Err(Mem),
    }
}

/// The record of a row, with this signature.
fn record_with(alloc: Global, row: &EquivRow, sig: SigRecord) -> Result<OldRecord, Mem>
    ensures { (line : Line) → IsRowOf row.now line → sig ≡ line.sig → IfOk result (λ made. made ≡ record_of line) }
{
    Ok(OldRecord {
        name: row.name,
        stored: StoredSig {
            sig,
            manifest: copy_manifest(alloc, &row.manifest)?,
            unihash: row.unihash,
        },
    })
}

/// The record of a row, if its signature can be read.
fn record_of(alloc: Global, row: &EquivRow) -> Result<Option<OldRecord>, Mem>
    ensures { (line : Line) → IsRowOf row.now line → IfOk result (λ found. found ≡ Some (record_of line)) }
{
    match signature_of(alloc, row)? {
        Some(sig) => Ok(Some(record_with(alloc, row, sig)?)),
        None => Ok(None),
    }
}

/// The wanted records, from the last to the first, and the names that they have.
#[derive(Drop)]
pub(crate) struct Gathering {
    pub(crate) found: Vec<OldRecord>,
    pub(crate) noted: IndexMap<[u8; 32], bool>,
}

/// Whether a record is asked for, or its name is noted.
fn is_taken(noted: &IndexMap<[u8; 32], bool>, name: &Hash, asked: bool) -> bool
    ensures { result ≡ (asked || is_some (value_at noted.now.entries name.now)) }
{
    asked || noted.get(&name.bytes).is_some()
}

/// Takes a wanted record.
fn take(gathering: &mut Gathering, old: OldRecord) -> Result<(), Mem>
    ensures { OnOk result ((records : List AnOldRecord) → IsGathered records gathering.old → IsGathered (old ∷ records) gathering.new) }
{
    note_names(&mut gathering.noted, &old.stored)?;
    gathering.found.push(old)?;
    Ok(())
}

/// Takes the record of a row, if it can be read.
fn take_row(alloc: Global, gathering: &mut Gathering, row: &EquivRow) -> Result<(), Mem>
    ensures { (line : Line) → IsRowOf row.now line → OnOk result ((records : List AnOldRecord) → IsGathered records gathering.old
        → IsGathered (record_of line ∷ records) gathering.new) }
{
    match record_of(alloc, row)? {
        Some(old) => take(gathering, old),
        None => Ok(()),
    }
}

/// Takes the record of a row where it is asked for, or named by one that was taken.
fn visit(alloc: Global, gathering: &mut Gathering, row: &EquivRow, asked: bool) -> Result<(), Mem>
    ensures { (line : Line) → IsRowOf row.now line → OnOk result ((records : List AnOldRecord) → IsGathered records gathering.old
        → IsGathered (if asked || is_named (record_of line).name records then record_of line ∷ records else records) gathering.new) }
{
    if is_taken(&gathering.noted, &row.name, asked) {
        return take_row(alloc, gathering, row);
    }
    Ok(())
}

/// The row at a place.
pub(crate) fn row_at(index: &Index, place: usize) -> &EquivRow
    requires { place < length index.now }
    ensures { slice_get index.now place ≡ Some result.now }
{
    match index.at(place) {
        Some(row) => row,
        None => unreachable!(),
    }
}

/// The wanted records of these rows, in their order, where the wanted titles are given by their PNs. Each row stands behind those that its record names, so one
/// pass from the last to the first finds them all.
fn gather_rows(
    alloc: Global,
    theirs: &Index,
    of_pn: &BTreeMap<String, Texts>,
) -> Result<Vec<OldRecord>, Mem>
    ensures { (wanted : Titles) → AreTitles wanted of_pn.now → IfOk result (λ records. AreGathered wanted theirs.now records.items) }
{
    let mut gathering = Gathering {
        found: Vec::new(alloc),
        noted: IndexMap::new(alloc),
    };
    let mut left = theirs.len();
    while left > 0 {
        left -= 1;
        let row = row_at(theirs, left);
        visit(alloc, &mut gathering, row, is_asked(of_pn, row))?;
    }
    let mut found = gathering.found;
    found.reverse();
    Ok(found)
}

/// The wanted records of these rows, in their order: those of a wanted PN and task, and all that wanted ones name.
pub(crate) fn gather(
    alloc: Global,
    theirs: &Index,
    wanted: &[(Text, Text)],
) -> Result<Vec<OldRecord>, Mem>
    ensures { IfOk result (λ records. AreGathered wanted.now theirs.now records.items) }
{
    let of_pn = titles_by_pn(alloc, wanted)?;
    gather_rows(alloc, theirs, &of_pn)
}
