// The plan of a part of a run of several configurations.
ghost use Rattle.std.specs.Prelude.{◌≡◌, [], List, ℕ, IfOk, IfErr, true};
ghost use Rattle.outside_traits.specs.Fault.{Counts};
ghost use Rattle.outside_traits.specs.Store.{IsListing, SameFiles};
ghost use Rattle.answer_model.specs.Answers.{is_refusal};
ghost use Rattle.project_reading.specs.Answered.{mode_failed};
ghost use Rattle.plan_model.specs.Sound.{IsSound};
ghost use Rattle.plan_model.specs.Spellings.{HasSpellings};
ghost use Rattle.multi_config.specs.Plans.{HasPartPlan};
ghost use Rattle.target_plan.specs.Plans.{IsNoPartPlan};

use crate::plan::plan_of;
use crate::soundness::checked;
use meta_model::{Plan, Status};
use multi_config::ConfigTargets;
use outside_traits::Layers;
use std::alloc::Global;
use std::thread::Threads;
use target_graph::find_part_run;

/// The plan that a part has.
fn part_planned<R: Threads + Sync, L: Layers>(
    rt: &R,
    alloc: Global,
    layers: &mut L,
    part: &ConfigTargets,
    force: bool,
) -> Result<Plan, Status>
    ensures ok { IfOk result (λ made. L.tells → (paths : List (List ℕ)) → IsListing [] (L.files layers.old) paths
        → HasPartPlan (L.files layers.old) paths part.now force made) }
    ensures err { IfErr result (λ status. L.tells → (paths : List (List ℕ)) → IsListing [] (L.files layers.old) paths
        → IsNoPartPlan (L.files layers.old) paths part.now force status) }
    ensures refusal { IfErr result (λ status. is_refusal status ≡ true) }
    ensures same { SameFiles L.files layers.old layers.new }
    ensures cause { Counts (L.faults layers.old) (L.faults layers.new) (mode_failed result) }
{
    match find_part_run(alloc, layers, part) {
        Ok(found) => plan_of(rt, alloc, layers, &found, force),
        Err(status) => Err(status),
    }
}

/// Finds the plan that a part has; `force` says whether the tasks of the targets run in any case.
///
/// - `Metadata` and `Limit`: as `multi_config` says (`IsPartRefused` of `Plans`): what refuses the part's run, then what refuses the plan.
/// - `ReadFault`: only where the layers' count of faults rose in the call.
/// - `OutOfMemory`: memory ran out.
/// - The limit `UnsoundPlan`: the plan isn't sound. Layers that tell what they hold have no such plan, so of them it never comes.
///
/// No call changes a file. An answered plan is sound, and a program can hold its tasks' signatures, whatever the layers tell.
pub fn find_part_plan<R: Threads + Sync, L: Layers>(
    rt: &R,
    alloc: Global,
    layers: &mut L,
    part: &ConfigTargets,
    force: bool,
) -> Result<Plan, Status>
    ensures ok { IfOk result (λ made. L.tells → (paths : List (List ℕ)) → IsListing [] (L.files layers.old) paths
        → HasPartPlan (L.files layers.old) paths part.now force made) }
    ensures err { IfErr result (λ status. L.tells → (paths : List (List ℕ)) → IsListing [] (L.files layers.old) paths
        → IsNoPartPlan (L.files layers.old) paths part.now force status) }
    ensures sound { IfOk result IsSound }
    ensures spellings { IfOk result HasSpellings }
    ensures refusal { IfErr result (λ status. is_refusal status ≡ true) }
    ensures same { SameFiles L.files layers.old layers.new }
    ensures cause { Counts (L.faults layers.old) (L.faults layers.new) (mode_failed result) }
{
    match part_planned(rt, alloc, layers, part, force) {
        Ok(made) => checked(alloc, made),
        Err(refused) => Err(refused),
    }
}
