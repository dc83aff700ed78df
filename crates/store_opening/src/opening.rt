// Opening a disk.
ghost use Rattle.std.specs.Prelude.{◌≡◌, IfOk, OnOk};
ghost use Rattle.std.specs.List.{AllByRecursion};
ghost use Rattle.outside_traits.specs.Fault.{Counts, disk_failed};
ghost use Rattle.outside_traits.specs.Passes.{EachNow, Passes, Same};
ghost use Rattle.store_opening.specs.Opening.{Clears};
ghost use Rattle.store_model.specs.Opened.{IsOpened};
ghost use Rattle.store_opening.specs.Sound.{IsKept};
ghost use Rattle.store_model.specs.Readable.{IsRow};
ghost use Rattle.store_opening.specs.Survey.{AreBareIn, Dooms, IsOtherArea, IsRecordSurvey, IsSurveyOf};

use crate::bare::{Bare, survey_blocked};
use crate::judging::{Survey, survey_of};
use crate::known::Ahead;
use crate::records::read_under;
use crate::survey::{remove_all, survey_at, survey_temporary};
use hash_equiv::Index;
use outside_traits::{Disk, DiskFault};
use std::alloc::Global;
use tree_model::{Entry, Mem, Text};

/// What these files under `rec2/` and `key/` say, where it may be known.
fn known_or_survey(
    alloc: Global,
    files: &[(Text, Entry)],
    keys: &[(Text, Entry)],
    ahead: &Ahead,
) -> Result<Survey, Mem>
    ensures { IfOk result (λ survey. IsSurveyOf files.now keys.now survey.index survey.doomed.items survey.bare.items) }
{
    match ahead.survey_of(files, keys) {
        Some(survey) => Ok(survey),
        None => survey_of(alloc, files, keys),
    }
}

/// What the records and the keys of a disk say.
pub(crate) fn survey_records<D: Disk>(
    alloc: Global,
    disk: &mut D,
    ahead: &Ahead,
) -> Result<Survey, DiskFault>
    ensures survey { D.tells → IfOk result (λ survey. IsRecordSurvey (D.story disk.old).held survey.index
        survey.doomed.items survey.bare.items) }
    ensures rows { IfOk result (λ survey. AllByRecursion IsRow survey.index) }
    ensures others { D.tells → Passes (D.story disk.old) (D.story disk.new) Same }
    ensures cause { Counts (D.faults disk.old) (D.faults disk.new) (disk_failed result) }
{
    let keys = read_under(alloc, disk, "key/")?;
    let files = read_under(alloc, disk, "rec2/")?;
    let survey = known_or_survey(alloc, &files, &keys, ahead)?;
    Ok(survey)
}

/// Puts what is to go outside `rec2/` and `key/` to what goes: these are the tasks that gave nothing.
fn survey_others<D: Disk>(
    alloc: Global,
    disk: &mut D,
    bare: &[Bare],
    doomed: &mut Vec<Text>,
) -> Result<(), DiskFault>
    requires { D.tells → AreBareIn (D.story disk.old).held bare.now }
    ensures dooms { D.tells → OnOk result (Dooms (D.story disk.old).held (IsOtherArea (D.story disk.old).held)
        doomed.old.items doomed.new.items) }
    ensures others { D.tells → Passes (D.story disk.old) (D.story disk.new) Same }
    ensures cause { Counts (D.faults disk.old) (D.faults disk.new) (disk_failed result) }
{
    survey_blocked(alloc, disk, bare, doomed)?;
    survey_temporary(alloc, disk, doomed)?;
    survey_at(alloc, disk, "rec2", doomed)?;
    survey_at(alloc, disk, "key", doomed)?;
    survey_at(alloc, disk, "stamp", doomed)?;
    survey_at(alloc, disk, "tmp", doomed)?;
    survey_at(alloc, disk, "obj", doomed)
}

/// Clears a disk up, and gives the rows of its believed records.
pub fn open_disk<D: Disk>(alloc: Global, disk: &mut D, ahead: &Ahead) -> Result<Index, DiskFault>
    ensures opened { D.tells → IfOk result (IsOpened (D.story disk.old).held (D.story disk.new).held) }
    ensures durable { D.tells → OnOk result (EachNow (D.story disk.new) (λ image. image ≡ (D.story disk.new).held)) }
    ensures rows { IfOk result (AllByRecursion IsRow) }
    ensures keeps { D.tells → IfOk result (λ index. IsKept index (D.story disk.new)) }
    ensures images { D.tells → Passes (D.story disk.old) (D.story disk.new) (Clears (D.story disk.old).held) }
    ensures cause { Counts (D.faults disk.old) (D.faults disk.new) (disk_failed result) }
{
    let mut survey = survey_records(alloc, disk, ahead)?;
    survey_others(alloc, disk, &survey.bare, &mut survey.doomed)?;
    remove_all(disk, &survey.doomed)?;
    disk.sync()?;
    Ok(survey.index)
}
