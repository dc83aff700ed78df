// A dry run: the plan of targets, printed.
ghost use Rattle.std.specs.Prelude.{◌≡◌, ◌≢◌, ◌++◌, [], ℕ, List, IfOk, IfErr, Ok, true, false};
ghost use Rattle.outside_traits.specs.Fault.{Counts, Rose};
ghost use Rattle.outside_traits.specs.Store.{IsListing};
ghost use Rattle.meta_model.specs.declared.plan.Plan.{Plan as Whole};
ghost use Rattle.answer_model.specs.Answers.{is_refusal, Says, is_read_status};
ghost use Rattle.project_reading.specs.Answered.{mode_failed};
ghost use Rattle.run_model.specs.Texts.{dry_text as text_of, fault_text};
ghost use Rattle.run_model.specs.Written.{WritesFront};
ghost use Rattle.answer_model.specs.Dry.{HasDry, IsDryPlan};
ghost use Rattle.bitbake_top.specs.Dry.{IsDryText};
ghost use Rattle.target_plan.specs.Plans.{IsNoPlan};

use crate::answer::{print, refuse};
use answer_model::DryRequest;
use bb_report::dry_text;
use meta_model::Status;
use outside_traits::{Layers, Sink};
use project_reading::or_status;
use std::alloc::Global;
use std::thread::Threads;
use target_plan::find_plan;
use tree_model::Text;

/// The text of the plan that a request has.
fn dry_run<R: Threads + Sync, L: Layers>(
    rt: &R,
    alloc: Global,
    layers: &mut L,
    request: &DryRequest,
) -> Result<Text, Status>
    ensures ok { IfOk result (λ text. L.tells → (paths : List (List ℕ)) → IsListing [] (L.files layers.old) paths
        → IsDryText (L.files layers.old) paths request.now text) }
    ensures err { IfErr result (λ status. L.tells → (paths : List (List ℕ)) → IsListing [] (L.files layers.old) paths
        → IsNoPlan (L.files layers.old) paths request.now.targets request.now.task false status) }
    ensures refusal { IfErr result (λ status. is_refusal status ≡ true) }
    ensures cause { Counts (L.faults layers.old) (L.faults layers.new) (mode_failed result) }
{
    match find_plan(
        rt,
        alloc,
        layers,
        request.targets.as_slice(),
        request.task.as_ref(),
        false,
    ) {
        Ok(plan) => or_status(dry_text(alloc, &plan)),
        Err(status) => Err(status),
    }
}

/// Prints the plan that a request has, or the line of its refusal.
pub fn dry<R: Threads + Sync, L: Layers, W: Sink>(
    rt: &R,
    alloc: Global,
    request: &DryRequest,
    layers: &mut L,
    sink: &mut W,
) -> Status
    ensures dry { L.tells → (paths : List (List ℕ)) → IsListing [] (L.files layers.old) paths
        → HasDry result (L.files layers.old) paths request.now }
    ensures text { L.tells → W.tells → (paths : List (List ℕ)) → IsListing [] (L.files layers.old) paths
        → (plan : Whole) → IsDryPlan (L.files layers.old) paths request.now plan
        → result ≡ Status.Ok → W.written sink.new ≡ W.written sink.old ++ text_of plan }
    ensures text_front { L.tells → W.tells → (paths : List (List ℕ)) → IsListing [] (L.files layers.old) paths
        → (plan : Whole) → IsDryPlan (L.files layers.old) paths request.now plan
        → result ≡ Status.WriteFault → WritesFront (W.written sink.old) (W.written sink.new) (text_of plan) }
    ensures said { result ≢ Status.Ok → result ≢ Status.WriteFault → W.tells
        → Says (fault_text result) (W.written sink.old) (W.written sink.new) (W.faults sink.old) (W.faults sink.new) }
    ensures read_status { is_read_status result ≡ true }
    ensures read_cause { result ≡ Status.ReadFault → Rose (L.faults layers.old) (L.faults layers.new) }
    ensures write_cause { result ≡ Status.WriteFault → Rose (W.faults sink.old) (W.faults sink.new) }
{
    match dry_run(rt, alloc, layers, request) {
        Ok(text) => print(sink, text.as_str()),
        Err(status) => refuse(alloc, status, sink),
    }
}
