// What a task is given: the outputs of those that it needs, read back from the store, and its layout.
ghost use Rattle.std.specs.Prelude.{◌≡◌, ◌<◌, ◌≤◌, IfErr, IfOk, IfSome, Some, All, false, length, option_map};
ghost use Rattle.std.specs.List.{slice_get};
ghost use Rattle.outside_traits.specs.Fault.{Counts};
ghost use Rattle.outside_traits.specs.Passes.{Passes, Same};
ghost use Rattle.meta_model.specs.declared.plan.PlanTask.{PlanTask as Task};
ghost use Rattle.build_store.specs.Faults.{IsOutside, store_failed};
ghost use Rattle.build_store.specs.View.{SameBooks};
ghost use Rattle.task_worker.specs.Layouts.{AreShort};
ghost use Rattle.task_worker.specs.Runnable.{IsRunnable};
ghost use Rattle.run_queue.specs.Outputs.{AreFound, Finds, IsOver};

use build_store::{Store, StoreFault};
use meta_model::Plan;
use outside_traits::Disk;
use std::alloc::Global;
use task_worker::{Job, job_over as job_of_task, layout};
use tree_model::{Mem, Tree};

/// The outputs of the tasks of these numbers, in their order, or nothing where one of them is beyond the limits.
fn outputs_of<D: Disk>(
    alloc: Global,
    store: &mut Store<D>,
    plan: &Plan,
    numbers: &[u32],
) -> Result<Option<Vec<(u32, Tree)>>, StoreFault>
    requires { All (λ n. n < length plan.now.tasks) numbers.now }
    ensures found { D.tells → IfOk result (λ found. AreFound plan.now.tasks numbers.now (D.story store.old.disk).held
        (option_map (λ v. v.items) found)) }
    ensures short { IfOk result (λ found. IfSome found (λ outputs. AreShort outputs.items)) }
    ensures refused { IfErr result IsOutside }
    ensures books { SameBooks store.old store.new }
    ensures images { D.tells → Passes (D.story store.old.disk) (D.story store.new.disk) Same }
    ensures cause { Counts (D.faults store.old.disk) (D.faults store.new.disk) (store_failed result) }
{
    let mut outputs = Vec::with_capacity(alloc, numbers.len())?;
    for number in numbers {
        match store.output(alloc, &plan.tasks.as_slice()[*number as usize])? {
            Some(output) => outputs.push((*number, output))?,
            None => return Ok(None),
        }
    }
    Ok(Some(outputs))
}

/// The job over these outputs, or nothing where the layout is beyond the limits.
fn job_over(
    alloc: Global,
    plan: &Plan,
    number: u32,
    outputs: &[(u32, Tree)],
) -> Result<Option<Job>, Mem>
    requires number { number < length plan.now.tasks }
    requires runnable { IsRunnable plan.now }
    requires short { AreShort outputs.now }
    ensures found { IfOk result (λ found. (task : Task) → slice_get plan.now.tasks number ≡ Some task
        → IsOver plan.now.tasks task outputs.now found) }
    ensures task { IfOk result (λ found. IfSome found (λ job. job.task ≡ number)) }
{
    match layout(alloc, plan, number, outputs)? {
        Some(layout) => {
            let task = &plan.tasks.as_slice()[number as usize];
            Ok(Some(job_of_task(number, task, layout)?))
        }
        None => Ok(None),
    }
}

/// The job of a task, or nothing where its layout is beyond the limits.
pub(crate) fn job_of<D: Disk>(
    alloc: Global,
    store: &mut Store<D>,
    plan: &Plan,
    number: u32,
) -> Result<Option<Job>, StoreFault>
    requires number { number < length plan.now.tasks }
    requires runnable { IsRunnable plan.now }
    ensures found { D.tells → IfOk result (λ found. (task : Task) → slice_get plan.now.tasks number ≡ Some task
        → Finds plan.now.tasks task (D.story store.old.disk).held found) }
    ensures script { IfOk result (λ found. IfSome found
        (λ job. (job.task ≡ number) × ((task : Task) → slice_get plan.now.tasks number ≡ Some task
        → job.script ≡ task.script))) }
    ensures refused { IfErr result IsOutside }
    ensures books { SameBooks store.old store.new }
    ensures images { D.tells → Passes (D.story store.old.disk) (D.story store.new.disk) Same }
    ensures cause { Counts (D.faults store.old.disk) (D.faults store.new.disk) (store_failed result) }
{
    let tasks = plan.tasks.as_slice();
    let needs = tasks[number as usize].deps.as_slice();
    match outputs_of(alloc, store, plan, needs)? {
        Some(outputs) => Ok(job_over(alloc, plan, number, outputs.as_slice())?),
        None => Ok(None),
    }
}
