// What a run would do, printed before there is one.
ghost use Rattle.std.specs.Prelude.{◌≡◌, ◌≢◌, ◌⊎◌, [], List, ℕ};
ghost use Rattle.outside_traits.specs.Fault.{Rose};
ghost use Rattle.outside_traits.specs.Passes.{Passes, Same};
ghost use Rattle.outside_traits.specs.Store.{IsListing};
ghost use Rattle.meta_model.specs.declared.plan.Plan.{Plan as Whole};
ghost use Rattle.answer_model.specs.declared.asked.RunRequest.{RunRequest as Request};
ghost use Rattle.answer_model.specs.Answers.{Says};
ghost use Rattle.answer_model.specs.Asked.{AskRun};
ghost use Rattle.answer_model.specs.Run.{IsRunPlan};
ghost use Rattle.run_model.specs.Texts.{fault_text};
ghost use Rattle.why_model.specs.Answered.{HasWhy, Prints, PrintsFront, ToldClash};

use crate::answer::refuse;
use crate::reasons::{Told, run_asked, why_run};
use meta_model::Status;
use outside_traits::{Disk, Layers, Sink};
use std::alloc::Global;
use std::thread::Threads;
use tree_model::Text;

/// Prints what a run of these words would do with each task that it needs, and why, and changes nothing: no folder, no lock and no bench is touched, and the
/// disk is only listed and read. So it can be asked before a run, and again and again.
///
/// `words` are those of a run: with the options `-f` and `--no-setscene` it is told what a run with these would do, and `-k` has no bearing. Other words are
/// refused as `Usage`. (BitBake User Manual, "The BitBake Command"; that the program tells this, and the text, are own rules.)
///
/// Under `Ok` the text is the one that is meant (`why_model`). Metadata is refused as for a run. It is refused besides where the disk failed, and as
/// `Collision` where the words have a plan and two texts have one digest, of which one is that of a task of the plan. Each refusal's line is printed. Want of
/// memory is free.
pub fn why<R: Threads + Sync, L: Layers, D: Disk, W: Sink>(
    rt: &R,
    alloc: Global,
    words: &[Text],
    layers: &mut L,
    disk: D,
    sink: &mut W,
) -> Told<D>
    // The status fits the plan that the words have, or the refusal.
    ensures has { (request : Request) → AskRun words.now request → L.tells → (paths : List (List ℕ))
        → IsListing [] (L.files layers.old) paths → HasWhy result.status (L.files layers.old) paths request }

    // Of a collision the two texts differ and have one digest, and the one is a signature or a key of a task of the plan.
    ensures clash { (request : Request) → AskRun words.now request → L.tells → (paths : List (List ℕ))
        → IsListing [] (L.files layers.old) paths → (plan : Whole) → IsRunPlan (L.files layers.old) paths request plan
        → ToldClash plan result.status }

    // Under Ok the text was printed, and where the sink failed a front of it.
    ensures text { (request : Request) → AskRun words.now request → L.tells → D.tells → W.tells
        → (paths : List (List ℕ)) → IsListing [] (L.files layers.old) paths
        → (plan : Whole) → IsRunPlan (L.files layers.old) paths request plan → result.status ≡ Status.Ok
        → Prints request plan (D.story disk).held (W.written sink.old) (W.written sink.new) }
    ensures front { (request : Request) → AskRun words.now request → L.tells → D.tells → W.tells
        → (paths : List (List ℕ)) → IsListing [] (L.files layers.old) paths
        → (plan : Whole) → IsRunPlan (L.files layers.old) paths request plan → result.status ≡ Status.WriteFault
        → PrintsFront request plan (D.story disk).held (W.written sink.old) (W.written sink.new) }

    // Words that ask for no run are refused, or memory was wanting; and no others are refused so.
    ensures refused { ((request : Request) → AskRun words.now request → ⊥)
        → (result.status ≡ Status.Usage) ⊎ (result.status ≡ Status.OutOfMemory) }
    ensures usage { (request : Request) → AskRun words.now request → result.status ≢ Status.Usage }

    // Each refusal's line is written, or a front of it where the sink failed.
    ensures said { result.status ≢ Status.Ok → result.status ≢ Status.WriteFault → W.tells
        → Says (fault_text result.status) (W.written sink.old) (W.written sink.new) (W.faults sink.old)
        (W.faults sink.new) }

    // At each moment the disk is as it was, whatever is answered, and each fault has its cause.
    ensures same { D.tells → Passes (D.story disk) (D.story result.disk) Same }
    ensures read_cause { result.status ≡ Status.ReadFault → Rose (L.faults layers.old) (L.faults layers.new) }
    ensures disk_cause { result.status ≡ Status.DiskFault → Rose (D.faults disk) (D.faults result.disk) }
    ensures write_cause { result.status ≡ Status.WriteFault → Rose (W.faults sink.old) (W.faults sink.new) }
{
    match run_asked(alloc, words) {
        Ok(request) => why_run(rt, alloc, &request, layers, disk, sink),
        Err(status) => Told {
            status: refuse(alloc, status, sink),
            disk,
        },
    }
}
