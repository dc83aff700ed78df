// What a clearing would do.
ghost use Rattle.std.specs.Prelude.{IfOk};
ghost use Rattle.outside_traits.specs.Fault.{Counts, disk_failed};
ghost use Rattle.outside_traits.specs.Passes.{Passes, Same};
ghost use Rattle.store_opening.specs.Survey.{AreJudged};
ghost use Rattle.store_clean.specs.Deciding.{IsNumbered};

use crate::clearing::{Cleaned, numbers};
use crate::deciding::choose;
use crate::nodes::read_nodes;
use hash_equiv::Index;
use outside_traits::{Disk, DiskFault};
use std::alloc::Global;
use tree_model::Hash;

/// How many records a clearing with these roots and this limit would keep, and how many would go. The rows are those of the disk's believed records, as
/// `judge_disk` gives them. Nothing is changed.
pub fn count_clean<D: Disk>(
    alloc: Global,
    disk: &mut D,
    index: &Index,
    roots: &[Hash],
    limit: usize,
) -> Result<Cleaned, DiskFault>
    requires { D.tells → AreJudged (D.story disk.old).held index.now }
    ensures numbered { D.tells → IfOk result (IsNumbered index.now roots.now limit) }

    // Whatever it answers.
    ensures same { D.tells → Passes (D.story disk.old) (D.story disk.new) Same }
    ensures cause { Counts (D.faults disk.old) (D.faults disk.new) (disk_failed result) }
{
    let nodes = read_nodes(alloc, disk, index)?;
    let chosen = choose(alloc, &nodes, roots, limit)?;
    Ok(numbers(&chosen.marks))
}
