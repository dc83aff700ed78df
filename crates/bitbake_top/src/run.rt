// A run of targets.
ghost use Rattle.std.specs.Prelude.{◌≡◌, ◌≢◌, ◌<◌, ◌≤◌, ◌↔◌, ◌∷◌, ℕ, List, [], All, IfOk, IfErr, true, false, vec_len, map};
ghost use Rattle.outside_traits.specs.Bench.{Gives};
ghost use Rattle.outside_traits.specs.Fault.{Counts, Rose};
ghost use Rattle.outside_traits.specs.Store.{IsListing};
ghost use Rattle.outside_traits.specs.Story.{IsFresh};
ghost use Rattle.meta_model.specs.declared.plan.Plan.{Plan as Whole};
ghost use Rattle.answer_model.specs.Answers.{is_refusal};
ghost use Rattle.project_reading.specs.Answered.{mode_failed};
ghost use Rattle.answer_model.specs.Project.{not_built};
ghost use Rattle.plan_model.specs.Sound.{IsSound};
ghost use Rattle.plan_model.specs.Spellings.{HasSpellings};
ghost use Rattle.store_model.specs.Origins.{Book, Reading};
ghost use Rattle.run_model.specs.Benches.{AtSeats, BreaksByFault, SomeRose};
ghost use Rattle.run_model.specs.Seated.{HaveBenches};
ghost use Rattle.run_model.specs.Build.{TellsDifference};
ghost use Rattle.answer_model.specs.Devices.{AreUnchanged, IsUnchanged};
ghost use Rattle.run_model.specs.Headline.{Keeps, MayBegin};
ghost use Rattle.answer_model.specs.Run.{Concludes, HasBuild, HasCause, IsCertain, IsRunPlan, IsUnrun, RanPrintedCall, WritesCall, is_run_status};

use crate::answer::refuse;
use crate::finish::Finish;
use crate::whole::{Ran, run_whole};
use answer_model::RunRequest;
use build_store::Ahead;
use meta_model::{Plan, Status};
use outside_traits::{Bench, Disk, Layers, Sink};
use std::alloc::Global;
use std::sync::Wait;
use std::thread::Threads;
use target_plan::find_plan;

/// Finds the plan that a request is a run of.
pub(crate) fn find<R: Threads + Sync, L: Layers>(
    rt: &R,
    alloc: Global,
    layers: &mut L,
    request: &RunRequest,
) -> Result<Plan, Status>
    ensures ok { IfOk result (λ plan. L.tells → (paths : List (List ℕ)) → IsListing [] (L.files layers.old) paths
        → IsRunPlan (L.files layers.old) paths request.now plan) }
    ensures sound { IfOk result IsSound }
    ensures spellings { IfOk result HasSpellings }
    ensures err { IfErr result (λ status. L.tells → (paths : List (List ℕ)) → IsListing [] (L.files layers.old) paths
        → IsUnrun (L.files layers.old) paths request.now status) }
    ensures refusal { IfErr result (λ status. is_refusal status ≡ true) }
    ensures cause { Counts (L.faults layers.old) (L.faults layers.new) (mode_failed result) }
{
    find_plan(
        rt,
        alloc,
        layers,
        request.targets.as_slice(),
        request.task.as_ref(),
        request.force,
    )
}

/// Runs what a request asks for, or prints the line of its refusal.
pub fn run<L, D, B, W, R>(
    rt: &R,
    alloc: Global,
    ahead: &Ahead,
    request: &RunRequest,
    mut layers: L,
    disk: D,
    benches: Vec<B>,
    mut sink: W,
) -> Finish<L, D, B, W>
where
    L: Layers,
    D: Disk + Drop + Send,
    B: Bench + Drop + Send,
    W: Sink + Drop + Send,
    R: Threads + Wait + Sync,
    requires bench { 0 < vec_len benches }
    requires reach { 3900 ≤ D.reach }
    requires fresh { D.tells → IsFresh (D.story disk) }
    requires unharmed { D.faults disk ≡ 0 }
    ensures keeps { L.tells → D.tells → B.tells → (paths : List (List ℕ)) → IsListing [] (L.files layers) paths
        → (plan : Whole) → IsRunPlan (L.files layers) paths request.now plan → (gives : Gives)
        → All (λ b. B.gives b ≡ gives) benches.items → (reading : Reading) (book : Book)
        → MayBegin gives reading book (D.story disk).held plan
        → Keeps gives reading book (D.story disk).held plan request.now.options result.tales.items result.status
        (D.story result.disk) (map (λ b. (B.place b).runs) benches.items)
        (map (λ b. (B.place b).runs) result.benches.items) }
    ensures exactly { L.tells → D.tells → B.tells → (paths : List (List ℕ)) → IsListing [] (L.files layers) paths
        → (gives : Gives) → All (λ b. B.gives b ≡ gives) benches.items → (reading : Reading) (book : Book)
        → ((plan : Whole) → IsRunPlan (L.files layers) paths request.now plan
        → MayBegin gives reading book (D.story disk).held plan)
        → IsUnchanged (L.faults layers) (L.faults result.layers) → D.faults result.disk ≡ 0
        → AreUnchanged (map B.faults benches.items) (map B.faults result.benches.items)
        → IsUnchanged (W.faults sink) (W.faults result.sink) → IsCertain result.status
        → ((result.status ≡ Status.Ok) ↔ HasBuild (L.files layers) paths request.now gives) }
    ensures plans { L.tells → (paths : List (List ℕ)) → IsListing [] (L.files layers) paths
        → All (IsRunPlan (L.files layers) paths request.now) result.plans.items }
    ensures found { is_refusal result.status ≡ false → (plan : Whole) × (result.plans.items ≡ plan ∷ []) }
    ensures concludes { Concludes request.now.options result.plans.items result.tales.items result.status }
    ensures begun { result.tales.items ≢ [] → is_run_status result.status ≡ true }
    ensures text { W.tells → WritesCall (Rose (W.faults sink) (W.faults result.sink)) (W.written sink)
        (W.written result.sink) result.plans.items result.tales.items result.status }
    ensures printed { W.tells → B.tells → RanPrintedCall result.plans.items result.tales.items
        (map (λ b. (B.place b).runs) benches.items) (map (λ b. (B.place b).runs) result.benches.items)
        (W.written sink) (W.written result.sink) }
    ensures unrun { result.tales.items ≡ [] → result.status ≢ Status.WriteFault → L.tells
        → (paths : List (List ℕ)) → IsListing [] (L.files layers) paths
        → IsUnrun (L.files layers) paths request.now result.status }
    ensures built { result.status ≡ not_built → L.tells → (paths : List (List ℕ))
        → IsListing [] (L.files layers) paths → ⊥ }
    ensures no_usage { result.status ≢ Status.Usage }
    ensures same_disk { result.tales.items ≡ [] → result.disk ≡ disk }
    ensures same_benches { result.tales.items ≡ [] → result.benches.items ≡ benches.items }
    ensures differs { All (λ p. TellsDifference D.tells p (D.story result.disk) result.status) result.plans.items }
    ensures benches { All (HaveBenches (vec_len benches)) result.tales.items }
    ensures broke { All (λ tale. AtSeats (BreaksByFault tale) (map B.faults benches.items)
        (map B.faults result.benches.items)) result.tales.items }
    ensures causes { HasCause (Rose (L.faults layers) (L.faults result.layers)) (D.faults result.disk)
        (SomeRose (map B.faults benches.items) (map B.faults result.benches.items))
        (Rose (W.faults sink) (W.faults result.sink)) result.status }
{
    match find(rt, alloc, &mut layers, request) {
        Ok(plan) => {
            let Ran {
                status,
                plans,
                tales,
                disk,
                benches,
                sink,
            } = run_whole(rt, alloc, ahead, plan, request.options, disk, benches, sink);
            Finish {
                status,
                plans,
                tales,
                layers,
                disk,
                benches,
                sink,
            }
        }
        Err(status) => Finish {
            status: refuse(alloc, status, &mut sink),
            plans: Vec::new(alloc),
            tales: Vec::new(alloc),
            layers,
            disk,
            benches,
            sink,
        },
    }
}
