// What a disk holds, while nothing is changed.
ghost use Rattle.std.specs.Prelude.{IfOk};
ghost use Rattle.std.specs.List.{AllByRecursion};
ghost use Rattle.outside_traits.specs.Fault.{Counts, disk_failed};
ghost use Rattle.outside_traits.specs.Passes.{Passes, Same};
ghost use Rattle.store_model.specs.Readable.{IsRow};
ghost use Rattle.store_opening.specs.Survey.{AreJudged};

use crate::known::Ahead;
use crate::opening::survey_records;
use hash_equiv::Index;
use outside_traits::{Disk, DiskFault};
use std::alloc::Global;

/// The rows of a disk's believed records, which opening it would give. Nothing is changed, and nothing but `list` and `read` is called. What `ahead` knows
/// of just the files that are read spares the work on them, and nothing else.
pub fn judge_disk<D: Disk>(alloc: Global, disk: &mut D, ahead: &Ahead) -> Result<Index, DiskFault>
    ensures judged { D.tells → IfOk result (AreJudged (D.story disk.old).held) }
    ensures rows { IfOk result (AllByRecursion IsRow) }

    // Whatever it answers.
    ensures same { D.tells → Passes (D.story disk.old) (D.story disk.new) Same }
    ensures cause { Counts (D.faults disk.old) (D.faults disk.new) (disk_failed result) }
{
    let survey = survey_records(alloc, disk, ahead)?;
    Ok(survey.index)
}
