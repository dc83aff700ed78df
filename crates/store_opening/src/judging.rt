// What the files under `rec2/` and `key/` say.
ghost use Rattle.std.specs.Prelude.{◌≡◌, ◌++◌, ◌∷◌, [], IfOk, List, None, OnErr, OnOk};
ghost use Rattle.std.specs.List.{AllByRecursion};
ghost use Rattle.store_model.specs.Believed.{Ascend, AreBelieved};
ghost use Rattle.store_model.specs.Rows.{row_at};
ghost use Rattle.store_model.specs.Opened.{row_of_candidate, rows_at};
ghost use Rattle.store_opening.specs.Survey.{DoomsUnbelieved, HeldFile, IsGood, IsSurveyOf};

use crate::bare::{Bare, bare_of};
use crate::keys::survey_keys;
use crate::records::found_among;
use crate::survey::{doom_unmarked, marks_of};
use hash_equiv::{EquivFault, Index, copy_manifest};
use record_belief::{ascend, believed};
use std::alloc::Global;
use store_model::{Candidate, EquivRow};
use tree_model::{Entry, Mem, Text};

/// The row of a candidate.
fn row_of(alloc: Global, candidate: &Candidate) -> Result<EquivRow, Mem>
    ensures { IfOk result (λ row. row ≡ row_of_candidate candidate.now) }
{
    let stored = &candidate.stored;
    Ok(EquivRow {
        name: candidate.name,
        pn: stored.sig.pn.copy()?,
        task: stored.sig.task.copy()?,
        sig: candidate.sig.copy()?,
        manifest: copy_manifest(alloc, &stored.manifest)?,
        unihash: stored.unihash,
    })
}

/// Adds a row whose name has none.
pub fn add_new(alloc: Global, index: &mut Index, row: EquivRow) -> Result<(), Mem>
    requires { row_at index.old row.name ≡ None }
    ensures ok { OnOk result (index.new ≡ index.old ++ row ∷ []) }
    ensures err { OnErr result (index.new ≡ index.old) }
{
    match index.add(alloc, row) {
        Ok(()) => Ok(()),
        Err(EquivFault::Memory) => Err(Mem),
        Err(EquivFault::Collision { held: _, given: _ }) => unreachable!(),
        Err(EquivFault::Unsteady { held: _, given: _ }) => unreachable!(),
    }
}

/// Adds the row of a candidate whose name has none.
fn add_candidate(alloc: Global, index: &mut Index, candidate: &Candidate) -> Result<(), Mem>
    requires { row_at index.old candidate.now.name ≡ None }
    ensures { OnOk result (index.new ≡ index.old ++ row_of_candidate candidate.now ∷ []) }
{
    let row = row_of(alloc, candidate)?;
    add_new(alloc, index, row)
}

/// The rows of the candidates at these places, in their order.
fn rows_of(alloc: Global, candidates: &[Candidate], places: &[usize]) -> Result<Index, Mem>
    requires ascend { Ascend candidates.now }
    requires believed { AreBelieved candidates.now places.now }
    ensures { IfOk result (λ index. index ≡ rows_at candidates.now places.now) }
{
    let mut index = Index::new(alloc);
    for place in places {
        add_candidate(alloc, &mut index, &candidates[*place])?;
    }
    Ok(index)
}

/// The candidates, where they ascend by name. A disk that doesn't tell what it holds may list them otherwise; then none is.
fn ascending_or_none(alloc: Global, candidates: Vec<Candidate>) -> Vec<Candidate>
    ensures ascend { Ascend result.items }
    ensures same { Ascend candidates.items → result.items ≡ candidates.items }
    ensures good { (keys : List HeldFile) → AllByRecursion (IsGood keys) candidates.items
        → AllByRecursion (IsGood keys) result.items }
{
    if ascend(&candidates) {
        return candidates;
    }
    Vec::new(alloc)
}

/// Puts the records of the candidates that aren't believed to what goes.
fn doom_unbelieved(
    alloc: Global,
    candidates: &[Candidate],
    places: &[usize],
    doomed: &mut Vec<Text>,
) -> Result<(), Mem>
    requires { AreBelieved candidates.now places.now }
    ensures { OnOk result (DoomsUnbelieved candidates.now places.now doomed.old.items doomed.new.items) }
{
    let marks = marks_of(alloc, candidates.len(), places)?;
    doom_unmarked(alloc, candidates, marks.as_slice(), doomed)
}

/// What the files under `rec2/` and `key/` say: the rows of the believed records, the paths of what goes, and the tasks that gave nothing.
#[derive(Drop)]
pub(crate) struct Survey {
    pub(crate) index: Index,
    pub(crate) doomed: Vec<Text>,
    pub(crate) bare: Vec<Bare>,
}

/// What these files say, which are all that stand under `rec2/` and under `key/`.
pub(crate) fn survey_of(
    alloc: Global,
    files: &[(Text, Entry)],
    keys: &[(Text, Entry)],
) -> Result<Survey, Mem>
    ensures { IfOk result (λ survey. IsSurveyOf files.now keys.now survey.index survey.doomed.items survey.bare.items) }
{
    let found = found_among(alloc, files, keys)?;
    let mut doomed = found.rejected;
    let candidates = ascending_or_none(alloc, found.candidates);
    let places = believed(alloc, &candidates)?;
    doom_unbelieved(alloc, &candidates, &places, &mut doomed)?;
    survey_keys(alloc, keys, &mut doomed)?;
    let bare = bare_of(alloc, &candidates)?;
    let index = rows_of(alloc, &candidates, &places)?;
    Ok(Survey {
        index,
        doomed,
        bare,
    })
}
