// Clearing the store.
ghost use Rattle.std.specs.Prelude.{◌≡◌, ◌≢◌, ◌⊎◌, ◌≤◌, [], IfErr, IfOk, List, Some, None, ℕ, true};
ghost use Rattle.outside_traits.specs.Fault.{Rose};
ghost use Rattle.outside_traits.specs.Store.{IsListing};
ghost use Rattle.meta_model.specs.declared.plan.Plan.{Plan as Whole};
ghost use Rattle.answer_model.specs.declared.asked.RunRequest.{RunRequest as Request};
ghost use Rattle.answer_model.specs.Answers.{Says};
ghost use Rattle.answer_model.specs.Run.{IsRunPlan};
ghost use Rattle.run_model.specs.Texts.{fault_text};
ghost use Rattle.bitbake_top.specs.Clean.{AskNoTargets, AskTargets, DidClean, HasClean, IsCleanStatus, is_unclean};

use crate::answer::refuse;
use crate::asked::asked_of;
use crate::cleaning::{Cleared, clear_by};
use crate::run::find;
use answer_model::{Asked, RunRequest};
use meta_model::Status;
use outside_traits::{Disk, Layers, Sink};
use std::alloc::Global;
use std::thread::Threads;
use tree_model::Text;

/// Clears the store by the run of a request, or prints the line of a refusal.
fn clean_run<R: Threads + Sync, L: Layers, D: Disk, W: Sink>(
    rt: &R,
    alloc: Global,
    request: &RunRequest,
    limit: usize,
    dry: bool,
    layers: &mut L,
    disk: &mut D,
    sink: &mut W,
) -> Cleared
    requires reach { 8 ≤ D.reach }
    ensures has { L.tells → (paths : List (List ℕ)) → IsListing [] (L.files layers.old) paths
        → HasClean result.status (L.files layers.old) paths request.now }
    ensures did { L.tells → (paths : List (List ℕ)) → IsListing [] (L.files layers.old) paths
        → (plan : Whole) → IsRunPlan (L.files layers.old) paths request.now plan
        → DidClean (Some plan) limit dry D.tells W.tells (D.story disk.old) (D.story disk.new) result.cleaned
        result.status (W.written sink.old) (W.written sink.new) }
    ensures usage { result.status ≢ Status.Usage }
    ensures same { is_unclean result.status ≡ true → disk.new ≡ disk.old }
    ensures said { result.status ≢ Status.Ok → result.status ≢ Status.WriteFault → W.tells
        → Says (fault_text result.status) (W.written sink.old) (W.written sink.new) (W.faults sink.old)
        (W.faults sink.new) }
    ensures read_cause { result.status ≡ Status.ReadFault → Rose (L.faults layers.old) (L.faults layers.new) }
    ensures disk_cause { result.status ≡ Status.DiskFault → Rose (D.faults disk.old) (D.faults disk.new) }
    ensures write_cause { result.status ≡ Status.WriteFault → Rose (W.faults sink.old) (W.faults sink.new) }
{
    match find(rt, alloc, layers, request) {
        Ok(plan) => clear_by(alloc, Some(&plan), limit, dry, disk, sink),
        Err(status) => Cleared {
            status: refuse(alloc, status, sink),
            cleaned: None,
        },
    }
}

/// The run that words ask for, of which there are some. One of several configurations is taken for one of the default configuration.
///
/// # Errors
/// `Usage` where they ask for none, `OutOfMemory`.
fn targets_asked(alloc: Global, words: &[Text]) -> Result<RunRequest, Status>
    requires { words.now ≢ [] }
    ensures ok { IfOk result (AskTargets words.now) }
    ensures err { IfErr result (AskNoTargets words.now) }
{
    match asked_of(alloc, words)? {
        Asked::Runs(request) | Asked::Configs(request) => Ok(request),
        _ => Err(Status::Usage),
    }
}

/// Clears the store on a disk: removes records, objects and keys that nothing needs, and prints how many records are kept and how many went.
///
/// `words` are those of a run, or none at all. With words the plan of the run is found as for a run, and the records of all its tasks are kept, with all that
/// they lead to; where metadata is refused, so is the clearing, and the disk isn't touched. Without words no metadata is read, and nothing is kept for a plan. Of
/// the other records those are kept, in ascending order of their names, each with all that it leads to, that leave no more kept than `limit`. With `-f` the plan
/// is that of a run with it; `-k` and `--no-setscene` have no bearing. A target that begins with `mc:` is none of the default configuration, whose store alone
/// is cleared. Other words are refused as `Usage`.
///
/// With `dry` the disk is only listed and read, and it is printed what a clearing would do.
///
/// The disk is opened as for a run, whose lock the caller holds, and whose store is one of the present format. What is there at each moment is a store in which a
/// run may begin, and of the plan nothing is lost (`plan_clean`, `clearing_leaves`). Each refusal's line is printed. Want of memory is free. (Own rules: no part of
/// the BitBake User Manual.)
pub fn clean<R: Threads + Sync, L: Layers, D: Disk, W: Sink>(
    rt: &R,
    alloc: Global,
    words: &[Text],
    limit: usize,
    dry: bool,
    layers: &mut L,
    disk: &mut D,
    sink: &mut W,
) -> Cleared
    requires reach { 8 ≤ D.reach }

    // With words: the status fits the plan that they have, or the refusal; and the clearing was by that plan's names.
    ensures has { (request : Request) → AskTargets words.now request → L.tells → (paths : List (List ℕ))
        → IsListing [] (L.files layers.old) paths → HasClean result.status (L.files layers.old) paths request }
    ensures did { (request : Request) → AskTargets words.now request → L.tells → (paths : List (List ℕ))
        → IsListing [] (L.files layers.old) paths → (plan : Whole)
        → IsRunPlan (L.files layers.old) paths request plan
        → DidClean (Some plan) limit dry D.tells W.tells (D.story disk.old) (D.story disk.new) result.cleaned
        result.status (W.written sink.old) (W.written sink.new) }

    // Without words: the clearing was by no plan's names, and no metadata was read.
    ensures alone { words.now ≡ [] → DidClean None limit dry D.tells W.tells (D.story disk.old) (D.story disk.new)
        result.cleaned result.status (W.written sink.old) (W.written sink.new) }
    ensures alone_status { words.now ≡ [] → IsCleanStatus result.status }
    ensures unread { words.now ≡ [] → layers.new ≡ layers.old }

    // Words that ask for no run are refused, or memory was wanting; and no others are refused so.
    ensures refused { words.now ≢ [] → ((request : Request) → AskTargets words.now request → ⊥)
        → (result.status ≡ Status.Usage) ⊎ (result.status ≡ Status.OutOfMemory) }
    ensures usage { (request : Request) → AskTargets words.now request → result.status ≢ Status.Usage }

    // Where words or metadata are refused, the disk isn't touched. Each refusal's line is written, or a front of it where the sink failed.
    ensures same { is_unclean result.status ≡ true → disk.new ≡ disk.old }
    ensures said { result.status ≢ Status.Ok → result.status ≢ Status.WriteFault → W.tells
        → Says (fault_text result.status) (W.written sink.old) (W.written sink.new) (W.faults sink.old)
        (W.faults sink.new) }

    // Each fault has its cause.
    ensures read_cause { result.status ≡ Status.ReadFault → Rose (L.faults layers.old) (L.faults layers.new) }
    ensures disk_cause { result.status ≡ Status.DiskFault → Rose (D.faults disk.old) (D.faults disk.new) }
    ensures write_cause { result.status ≡ Status.WriteFault → Rose (W.faults sink.old) (W.faults sink.new) }
{
    if words.is_empty() {
        return clear_by(alloc, None, limit, dry, disk, sink);
    }
    match targets_asked(alloc, words) {
        Ok(request) => clean_run(rt, alloc, &request, limit, dry, layers, disk, sink),
        Err(status) => Cleared {
            status: refuse(alloc, status, sink),
            cleaned: None,
        },
    }
}
