// The tasks that a run needs in any case.
ghost use Rattle.std.specs.Prelude.{◌≡◌, ◌<◌, All, IfOk, OnOk, false, length, replicate};
ghost use Rattle.run_core.specs.Need.{AreOrdered};
ghost use Rattle.setscene_plan.specs.Sets.{Adds, IsBelow};
ghost use Rattle.tale_model.specs.Need.{IsNeed};
ghost use Rattle.why_model.specs.Seen.{narrowed};

use crate::judged::task_at;
use crate::seen::{firm, waits_of};
use meta_model::{Avail, Plan};
use setscene_plan::{add_all, add_forced};
use std::alloc::Global;
use tree_model::Mem;

/// Puts what a task waits for into the set, else all that it needs, where it belongs to the set and its output is missing.
fn add_firm(
    alloc: Global,
    set: &mut [bool],
    plan: &Plan,
    avail: &[Avail],
    seen: &[bool],
    place: usize,
) -> Result<(), Mem>
    requires ordered { AreOrdered plan.now.tasks }
    requires place { place < length plan.now.tasks }
    requires set { length set.old ≡ length plan.now.tasks }
    requires avail { length avail.now ≡ length plan.now.tasks }
    ensures { OnOk result (Adds (IsBelow (narrowed seen.now plan.now).tasks avail.now set.old place) set.old set.new) }
{
    if !set[place] {
        return Ok(());
    }
    match avail[place] {
        Avail::Missing => {
            let task = task_at(plan, place);
            let waits = waits_of(alloc, seen, task)?;
            add_all(set, firm(task.deps.as_slice(), waits.as_slice()));
        }
        Avail::Work => {}
        Avail::Object => {}
    }
    Ok(())
}

/// Puts all that a run needs in any case into an empty set.
fn sweep(
    alloc: Global,
    set: &mut [bool],
    plan: &Plan,
    avail: &[Avail],
    seen: &[bool],
) -> Result<(), Mem>
    requires ordered { AreOrdered plan.now.tasks }
    requires targets { All (λ t. t < length plan.now.tasks) plan.now.targets }
    requires avail { length avail.now ≡ length plan.now.tasks }
    requires empty { set.old ≡ replicate (length plan.now.tasks) false }
    ensures { OnOk result (IsNeed (narrowed seen.now plan.now) avail.now set.new) }
{
    add_all(set, plan.targets.as_slice());
    add_forced(set, plan.tasks.as_slice());
    for place in (0..plan.tasks.len()).rev() {
        add_firm(alloc, set, plan, avail, seen, place)?;
    }
    Ok(())
}

/// For each task of the plan whether a run needs it in any case, given which outputs are there and which tasks are seen.
pub(crate) fn certain_of(
    alloc: Global,
    plan: &Plan,
    avail: &[Avail],
    seen: &[bool],
) -> Result<Vec<bool>, Mem>
    requires ordered { AreOrdered plan.now.tasks }
    requires targets { All (λ t. t < length plan.now.tasks) plan.now.targets }
    requires avail { length avail.now ≡ length plan.now.tasks }
    ensures { IfOk result (λ set. IsNeed (narrowed seen.now plan.now) avail.now set.items) }
{
    let mut set = vec![in alloc; false; plan.tasks.len()]?;
    sweep(alloc, &mut set, plan, avail, seen)?;
    Ok(set)
}
