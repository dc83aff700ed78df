// Whether the tasks of a plan differ.
ghost use Rattle.std.specs.Prelude.{◌↔◌, IfOk, IsTrue, AllPairs};
ghost use Rattle.store_model.specs.Premises.{Differ};

use meta_model::PlanTask;
use std::alloc::Global;
use std::collections::BTreeSet;
use tree_model::Mem;

/// Whether each two tasks differ in their PN or in their name.
pub(crate) fn all_differ(alloc: Global, tasks: &[PlanTask]) -> Result<bool, Mem>
    ensures { IfOk result (λ differ. IsTrue differ ↔ AllPairs Differ tasks.now) }
{
    let mut seen = BTreeSet::new(alloc);
    for task in tasks {
        if !seen.insert((task.id.pn.as_str(), task.id.task.as_str()))? {
            return Ok(false);
        }
    }
    Ok(true)
}
