// The plan of words.
ghost use Rattle.std.specs.Prelude.{◌≡◌, [], List, ℕ, Ok, IfOk, IfErr, true, option_copied};
ghost use Rattle.outside_traits.specs.Fault.{Counts};
ghost use Rattle.outside_traits.specs.Store.{IsListing, SameFiles};
ghost use Rattle.answer_model.specs.Answers.{is_refusal};
ghost use Rattle.project_reading.specs.Answered.{mode_failed};
ghost use Rattle.target_graph.specs.Meaning.{asked_meant};
ghost use Rattle.target_graph.specs.Runs.{HasRun};
ghost use Rattle.plan_model.specs.Plans.{IsOver};
ghost use Rattle.plan_model.specs.Sound.{IsSound};
ghost use Rattle.plan_model.specs.Spellings.{HasSpellings};
ghost use Rattle.answer_model.specs.Plans.{HasPlan, plan_under};
ghost use Rattle.target_plan.specs.Plans.{IsNoPlan};
ghost use Rattle.target_plan.specs.Steps.{IsNoPlanOf};

use crate::said::plan_status;
use crate::soundness::checked;
use meta_model::{Plan, Status};
use outside_traits::Layers;
use std::alloc::Global;
use std::thread::Threads;
use target_graph::{Run, find_run};
use task_plan::{forced_plan, plan};
use tree_model::Text;

/// The graph of a run is one of its recipes.
fn graph_is_theirs(found: &Run)
    requires { HasRun (asked_meant found.now.asked) found.now.graph found.now.threads }
    ensures over { IsOver found.now.asked.set.facts found.now.graph }
{}

/// The plan of a run.
pub(crate) fn plan_of<R: Threads + Sync, L: Layers>(
    rt: &R,
    alloc: Global,
    layers: &mut L,
    found: &Run,
    force: bool,
) -> Result<Plan, Status>
    requires { HasRun (asked_meant found.now.asked) found.now.graph found.now.threads }
    ensures ok { IfOk result (λ made. L.tells → plan_under force (L.files layers.old) found.now.asked.set
        found.now.graph found.now.threads ≡ Ok made) }
    ensures err { IfErr result (λ status. L.tells → IsNoPlanOf
        (plan_under force (L.files layers.old) found.now.asked.set found.now.graph found.now.threads) status) }
    ensures refusal { IfErr result (λ status. is_refusal status ≡ true) }
    ensures same { SameFiles L.files layers.old layers.new }
    ensures cause { Counts (L.faults layers.old) (L.faults layers.new) (mode_failed result) }
{
    graph_is_theirs(found);
    let set = &found.asked.set;
    let made = if force {
        forced_plan(rt, alloc, set, layers, &found.graph, found.threads)
    } else {
        plan(rt, alloc, set, layers, &found.graph, found.threads)
    };
    match made {
        Ok(made) => Ok(made),
        Err(fault) => Err(plan_status(alloc, fault)),
    }
}

/// The plan that words have.
fn planned<R: Threads + Sync, L: Layers>(
    rt: &R,
    alloc: Global,
    layers: &mut L,
    words: &[Text],
    task: Option<&Text>,
    force: bool,
) -> Result<Plan, Status>
    ensures ok { IfOk result (λ made. L.tells → (paths : List (List ℕ)) → IsListing [] (L.files layers.old) paths
        → HasPlan (L.files layers.old) paths words.now (option_copied task.entry) force made) }
    ensures err { IfErr result (λ status. L.tells → (paths : List (List ℕ)) → IsListing [] (L.files layers.old) paths
        → IsNoPlan (L.files layers.old) paths words.now (option_copied task.entry) force status) }
    ensures refusal { IfErr result (λ status. is_refusal status ≡ true) }
    ensures same { SameFiles L.files layers.old layers.new }
    ensures cause { Counts (L.faults layers.old) (L.faults layers.new) (mode_failed result) }
{
    match find_run(alloc, layers, words, task) {
        Ok(found) => plan_of(rt, alloc, layers, &found, force),
        Err(status) => Err(status),
    }
}

/// Finds the plan that words have. `task` is the task of targets that name none, as the option `-c` gives it; `force` says whether
/// the tasks of the targets run in any case, as with the option `-f`.
///
/// - `Metadata` and `Limit`: as `answer_model` says (`IsPlanRefused`): what refuses the run, then what refuses the plan.
/// - `ReadFault`: only where the layers' count of faults rose in the call.
/// - `OutOfMemory`: memory ran out.
/// - The limit `UnsoundPlan`: the plan isn't sound. Layers that tell what they hold have no such plan, so of them it never comes.
///
/// No call changes a file. An answered plan is sound, and a program can hold its tasks' signatures, whatever the layers tell.
pub fn find_plan<R: Threads + Sync, L: Layers>(
    rt: &R,
    alloc: Global,
    layers: &mut L,
    words: &[Text],
    task: Option<&Text>,
    force: bool,
) -> Result<Plan, Status>
    ensures ok { IfOk result (λ made. L.tells → (paths : List (List ℕ)) → IsListing [] (L.files layers.old) paths
        → HasPlan (L.files layers.old) paths words.now (option_copied task.entry) force made) }
    ensures err { IfErr result (λ status. L.tells → (paths : List (List ℕ)) → IsListing [] (L.files layers.old) paths
        → IsNoPlan (L.files layers.old) paths words.now (option_copied task.entry) force status) }
    ensures sound { IfOk result IsSound }
    ensures spellings { IfOk result HasSpellings }
    ensures refusal { IfErr result (λ status. is_refusal status ≡ true) }
    ensures same { SameFiles L.files layers.old layers.new }
    ensures cause { Counts (L.faults layers.old) (L.faults layers.new) (mode_failed result) }
{
    match planned(rt, alloc, layers, words, task, force) {
        Ok(made) => checked(alloc, made),
        Err(refused) => Err(refused),
    }
}
