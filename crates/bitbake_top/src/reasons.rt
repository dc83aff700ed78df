// What a run would do, printed before there is one: for a request.
ghost use Rattle.std.specs.Prelude.{◌≡◌, ◌≢◌, ◌⊎◌, ◌++◌, [], IfErr, IfOk, List, ℕ};
ghost use Rattle.outside_traits.specs.Fault.{Rose};
ghost use Rattle.outside_traits.specs.Passes.{Passes, Same};
ghost use Rattle.outside_traits.specs.Store.{IsListing};
ghost use Rattle.meta_model.specs.declared.plan.Plan.{Plan as Whole};
ghost use Rattle.answer_model.specs.declared.asked.RunRequest.{RunRequest as Request};
ghost use Rattle.answer_model.specs.Answers.{Says};
ghost use Rattle.answer_model.specs.Asked.{AskRun};
ghost use Rattle.answer_model.specs.Run.{IsRunPlan};
ghost use Rattle.plan_model.specs.Sound.{IsSound};
ghost use Rattle.run_model.specs.Texts.{fault_text};
ghost use Rattle.run_model.specs.Written.{WritesFront};
ghost use Rattle.bitbake_top.specs.Why.{IsNoRun, IsToldAs, IsWhyStatus};
ghost use Rattle.why_model.specs.Answered.{HasWhy, Prints, PrintsFront, ToldClash};

use crate::answer::{print, refuse};
use crate::asked::asked_of;
use crate::run::find;
use answer_model::{Asked, RunRequest};
use build_resume::status_of_store;
use build_store::StoreFault;
use meta_model::{Plan, Status};
use outside_traits::{Disk, Layers, Sink};
use std::alloc::Global;
use std::thread::Threads;
use tree_model::Text;
use why_text::{Looked, why_text};

/// What is handed back by a call that asks what a run would do.
#[derive(Drop)]
pub struct Told<D> {
    /// How the call ended.
    pub status: Status,

    /// The disk, in which nothing changed.
    pub disk: D,
}

/// Prints the text, or the line of its refusal.
fn print_told<W: Sink>(alloc: Global, text: Result<Text, StoreFault>, sink: &mut W) -> Status
    ensures status { IsToldAs text result }
    ensures whole { IfOk text (λ told. result ≡ Status.Ok → W.tells
        → W.written sink.new ≡ W.written sink.old ++ told) }
    ensures front { IfOk text (λ told. W.tells → WritesFront (W.written sink.old) (W.written sink.new) told) }
    ensures said { result ≢ Status.Ok → result ≢ Status.WriteFault → W.tells
        → Says (fault_text result) (W.written sink.old) (W.written sink.new) (W.faults sink.old) (W.faults sink.new) }
    ensures cause { result ≡ Status.WriteFault → Rose (W.faults sink.old) (W.faults sink.new) }
{
    match text {
        Ok(told) => print(sink, told.as_str()),
        Err(fault) => refuse(alloc, status_of_store(fault), sink),
    }
}

/// Prints what a run of a plan would do, which is that of a request, or the line of a refusal.
fn why_plan<D: Disk, W: Sink>(
    alloc: Global,
    plan: &Plan,
    request: &RunRequest,
    disk: D,
    sink: &mut W,
) -> Told<D>
    requires sound { IsSound plan.now }
    ensures status { IsWhyStatus result.status }
    ensures clash { ToldClash plan.now result.status }
    ensures text { D.tells → W.tells → result.status ≡ Status.Ok
        → Prints request.now plan.now (D.story disk).held (W.written sink.old) (W.written sink.new) }
    ensures front { D.tells → W.tells → result.status ≡ Status.WriteFault
        → PrintsFront request.now plan.now (D.story disk).held (W.written sink.old) (W.written sink.new) }
    ensures said { result.status ≢ Status.Ok → result.status ≢ Status.WriteFault → W.tells
        → Says (fault_text result.status) (W.written sink.old) (W.written sink.new) (W.faults sink.old)
        (W.faults sink.new) }
    ensures same { D.tells → Passes (D.story disk) (D.story result.disk) Same }
    ensures disk_cause { result.status ≡ Status.DiskFault → Rose (D.faults disk) (D.faults result.disk) }
    ensures write_cause { result.status ≡ Status.WriteFault → Rose (W.faults sink.old) (W.faults sink.new) }
{
    let Looked { disk, text } = why_text(
        alloc,
        disk,
        plan,
        request.options.setscene,
        request.force,
    );
    Told {
        status: print_told(alloc, text, sink),
        disk,
    }
}

/// Prints what the run of a request would do, or the line of a refusal.
pub(crate) fn why_run<R: Threads + Sync, L: Layers, D: Disk, W: Sink>(
    rt: &R,
    alloc: Global,
    request: &RunRequest,
    layers: &mut L,
    disk: D,
    sink: &mut W,
) -> Told<D>
    ensures has { L.tells → (paths : List (List ℕ)) → IsListing [] (L.files layers.old) paths
        → HasWhy result.status (L.files layers.old) paths request.now }
    ensures clash { L.tells → (paths : List (List ℕ)) → IsListing [] (L.files layers.old) paths
        → (plan : Whole) → IsRunPlan (L.files layers.old) paths request.now plan → ToldClash plan result.status }
    ensures text { L.tells → D.tells → W.tells → (paths : List (List ℕ)) → IsListing [] (L.files layers.old) paths
        → (plan : Whole) → IsRunPlan (L.files layers.old) paths request.now plan → result.status ≡ Status.Ok
        → Prints request.now plan (D.story disk).held (W.written sink.old) (W.written sink.new) }
    ensures front { L.tells → D.tells → W.tells → (paths : List (List ℕ)) → IsListing [] (L.files layers.old) paths
        → (plan : Whole) → IsRunPlan (L.files layers.old) paths request.now plan → result.status ≡ Status.WriteFault
        → PrintsFront request.now plan (D.story disk).held (W.written sink.old) (W.written sink.new) }
    ensures said { result.status ≢ Status.Ok → result.status ≢ Status.WriteFault → W.tells
        → Says (fault_text result.status) (W.written sink.old) (W.written sink.new) (W.faults sink.old)
        (W.faults sink.new) }
    ensures same { D.tells → Passes (D.story disk) (D.story result.disk) Same }
    ensures read_cause { result.status ≡ Status.ReadFault → Rose (L.faults layers.old) (L.faults layers.new) }
    ensures disk_cause { result.status ≡ Status.DiskFault → Rose (D.faults disk) (D.faults result.disk) }
    ensures write_cause { result.status ≡ Status.WriteFault → Rose (W.faults sink.old) (W.faults sink.new) }
    ensures usage { result.status ≢ Status.Usage }
{
    match find(rt, alloc, layers, request) {
        Ok(plan) => why_plan(alloc, &plan, request, disk, sink),
        Err(status) => Told {
            status: refuse(alloc, status, sink),
            disk,
        },
    }
}

/// The run that the words ask for.
///
/// # Errors
/// `Usage` where they ask for none, `OutOfMemory`.
pub(crate) fn run_asked(alloc: Global, words: &[Text]) -> Result<RunRequest, Status>
    ensures ok { IfOk result (AskRun words.now) }
    ensures err { IfErr result (λ status. IsNoRun words.now status) }
{
    match asked_of(alloc, words)? {
        Asked::Runs(request) => Ok(request),
        _ => Err(Status::Usage),
    }
}
