// Whether a plan is sound. Layers that tell what they hold have no other plans; of others nothing is known.
ghost use Rattle.std.specs.Prelude.{◌≡◌, ◌≤◌, ◌↔◌, IfErr, IfOk, IsTrue, All, AllPairs, length};
ghost use Rattle.plan_model.specs.Sound.{IsSound};
ghost use Rattle.plan_model.specs.Spellings.{HasSpellings};
ghost use Rattle.target_plan.specs.Checked.{AreChecked, IsInRange, IsTurnedBack};

use crate::differing::all_differ;
use crate::fitting::known_tasks;
use crate::sound_task::{are_below, is_sound_task};
use meta_model::{Plan, PlanTask, Status};
use project_reading::limit;
use std::alloc::Global;
use tree_model::Mem;

/// The most threads of a run.
const MAX_THREADS: u32 = 16;

/// The most tasks of a plan.
const MAX_TASKS: usize = 65_536;

/// Whether the plan has 1 to 16 threads, at most 65,536 tasks, and targets among these.
fn is_in_range(plan: &Plan) -> bool
    ensures { IsTrue result ↔ IsInRange plan.now }
{
    let count = plan.tasks.len();
    plan.threads >= 1
        && plan.threads <= MAX_THREADS
        && count <= MAX_TASKS
        && are_below(plan.targets.as_slice(), count as u32)
}

/// Whether all tasks are of this configuration.
fn are_of(tasks: &[PlanTask], mc: &str) -> bool
    ensures { IsTrue result ↔ All (λ t. t.id.mc ≡ mc.now) tasks.now }
{
    tasks.iter().all(|task| task.id.mc.as_str() == mc)
}

/// Whether all tasks are of one configuration.
fn are_of_one(tasks: &[PlanTask]) -> bool
    ensures { IsTrue result ↔ AllPairs (λ a b. a.id.mc ≡ b.id.mc) tasks.now }
{
    match tasks.first() {
        Some(first) => are_of(tasks, first.id.mc.as_str()),
        None => true,
    }
}

/// Whether each task is sound at its number.
fn are_sound(tasks: &[PlanTask]) -> bool
    requires { length tasks.now ≤ 65536 }
    ensures { IsTrue result ↔ AreChecked tasks.now }
{
    for number in 0..tasks.len() {
        if !is_sound_task(number as u32, &tasks[number]) {
            return false;
        }
    }
    true
}

/// Whether the plan is sound. It reads each text of the plan once, beside what tells the tasks' PNs and names apart.
fn is_sound(alloc: Global, plan: &Plan) -> Result<bool, Mem>
    ensures { IfOk result (λ sound. IsTrue sound ↔ IsSound plan.now) }
{
    if !is_in_range(plan) {
        return Ok(false);
    }
    let tasks = plan.tasks.as_slice();
    if are_of_one(tasks) && are_sound(tasks) {
        all_differ(alloc, tasks)
    } else {
        Ok(false)
    }
}

/// The plan, where it is sound. A plan that isn't is answered as the limit `UnsoundPlan`.
pub(crate) fn checked(alloc: Global, made: Plan) -> Result<Plan, Status>
    ensures same { IfOk result (λ plan. plan ≡ made) }
    ensures sound { IfOk result IsSound }
    ensures spellings { IfOk result HasSpellings }
    ensures err { IfErr result (IsTurnedBack made) }
{
    match is_sound(alloc, &made) {
        Ok(true) => {
            known_tasks(made.tasks.as_slice());
            Ok(made)
        }
        Ok(false) => Err(limit(alloc, "UnsoundPlan")),
        Err(_) => Err(Status::OutOfMemory),
    }
}
