// What opening a disk finds and what it is to take away.
ghost use Rattle.std.specs.Prelude.{◌≡◌, ◌++◌, ◌<◌, ◌^◌, Contains, IfOk, List, None, OnOk, codes, ◌∷◌, [], length, ℕ};
ghost use Rattle.std.specs.List.{AllByRecursion};
ghost use Rattle.tree_model.specs.Path.{BeginsWith};
ghost use Rattle.outside_traits.specs.Fault.{Counts, disk_failed};
ghost use Rattle.outside_traits.specs.Passes.{Passes, Same};
ghost use Rattle.store_model.specs.Believed.{Ascend, AreBelieved};
ghost use Rattle.store_opening.specs.Survey.{AreMarks, Dooms, DoomsUnless, DoomsUnmarked, TakesOut, IsAt, IsTop, NotesHeld};

use crate::places::record_path;
use outside_traits::{Disk, DiskFault};
use sstate_objects::is_held;
use std::alloc::Global;
use store_model::Candidate;
use tree_model::{Mem, Text};

/// Puts these paths to what goes.
fn doom_all(alloc: Global, paths: &[Text], doomed: &mut Vec<Text>) -> Result<(), Mem>
    ensures { OnOk result (doomed.new.items ≡ doomed.old.items ++ paths.now) }
{
    for path in paths {
        doomed.push(path.copy()?)?;
    }
    Ok(())
}

/// Puts all under `tmp/` to what goes.
pub(crate) fn survey_temporary<D: Disk>(
    alloc: Global,
    disk: &mut D,
    doomed: &mut Vec<Text>,
) -> Result<(), DiskFault>
    ensures dooms { D.tells → OnOk result (Dooms (D.story disk.old).held (BeginsWith (codes "tmp/")) doomed.old.items
        doomed.new.items) }
    ensures others { D.tells → Passes (D.story disk.old) (D.story disk.new) Same }
    ensures cause { Counts (D.faults disk.old) (D.faults disk.new) (disk_failed result) }
{
    let paths = disk.list(alloc, "tmp/")?;
    Ok(doom_all(alloc, paths.as_slice(), doomed)?)
}

/// Puts a path to what goes.
pub(crate) fn doom(alloc: Global, path: &str, doomed: &mut Vec<Text>) -> Result<(), Mem>
    ensures { OnOk result (doomed.new.items ≡ doomed.old.items ++ path.now ∷ []) }
{
    Ok(doomed.push(Text::from_str(alloc, path)?)?)
}

/// Puts a path to what goes, if something is held there.
pub(crate) fn doom_held<D: Disk>(
    alloc: Global,
    disk: &mut D,
    path: &str,
    doomed: &mut Vec<Text>,
) -> Result<(), DiskFault>
    ensures notes { D.tells → OnOk result (NotesHeld (D.story disk.old).held path.now doomed.old.items
        doomed.new.items) }
    ensures others { D.tells → Passes (D.story disk.old) (D.story disk.new) Same }
    ensures cause { Counts (D.faults disk.old) (D.faults disk.new) (disk_failed result) }
{
    if is_held(alloc, disk, path)? {
        doom(alloc, path, doomed)?;
        return Ok(());
    }
    Ok(())
}

/// Puts one of the five folders' own paths to what goes, if something is held there.
pub(crate) fn survey_at<D: Disk>(
    alloc: Global,
    disk: &mut D,
    path: &str,
    doomed: &mut Vec<Text>,
) -> Result<(), DiskFault>
    requires { IsTop path.now }
    ensures dooms { D.tells → OnOk result (Dooms (D.story disk.old).held (IsAt path.now) doomed.old.items
        doomed.new.items) }
    ensures others { D.tells → Passes (D.story disk.old) (D.story disk.new) Same }
    ensures cause { Counts (D.faults disk.old) (D.faults disk.new) (disk_failed result) }
{
    doom_held(alloc, disk, path, doomed)
}

/// Removes what is held at these paths, and nothing else.
pub fn remove_all<D: Disk>(disk: &mut D, paths: &[Text]) -> Result<(), DiskFault>
    ensures gone { D.tells → OnOk result ((q : List ℕ) → Contains paths.now q → (D.story disk.new).held q ≡ None) }
    ensures others { D.tells → Passes (D.story disk.old) (D.story disk.new) (TakesOut paths.now) }
    ensures cause { Counts (D.faults disk.old) (D.faults disk.new) (disk_failed result) }
{
    for path in paths {
        disk.remove(path.as_str())?;
    }
    Ok(())
}

/// Which of so many places are listed.
pub(crate) fn marks_of(alloc: Global, count: usize, places: &[usize]) -> Result<Vec<bool>, Mem>
    requires { (p : ℕ) → Contains places.now p → p < count }
    ensures { IfOk result (λ marks. AreMarks count places.now marks.items) }
{
    let mut marks = vec![in alloc; false; count]?;
    for place in places {
        marks[*place] = true;
    }
    Ok(marks)
}

/// Puts the record of a candidate to what goes, unless it is marked.
fn doom_unless(
    alloc: Global,
    marked: bool,
    candidate: &Candidate,
    doomed: &mut Vec<Text>,
) -> Result<(), Mem>
    ensures { OnOk result (DoomsUnless marked candidate.now doomed.old.items doomed.new.items) }
{
    if marked {
        return Ok(());
    }
    let path = record_path(alloc, &candidate.name)?;
    doom(alloc, path.as_str(), doomed)
}

/// Puts the records of candidates that aren't marked to what goes.
pub(crate) fn doom_unmarked(
    alloc: Global,
    candidates: &[Candidate],
    marks: &[bool],
    doomed: &mut Vec<Text>,
) -> Result<(), Mem>
    requires { length marks.now ≡ length candidates.now }
    ensures { OnOk result (DoomsUnmarked candidates.now marks.now (length candidates.now) doomed.old.items
        doomed.new.items) }
{
    for (place, candidate) in candidates.iter().enumerate() {
        doom_unless(alloc, marks[place], candidate, doomed)?;
    }
    Ok(())
}
