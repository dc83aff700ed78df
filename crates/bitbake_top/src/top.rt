// The top call.
ghost use Rattle.std.specs.Prelude.{◌≡◌, ◌≢◌, ◌<◌, ◌≤◌, ◌↔◌, ◌++◌, ◌∷◌, ℕ, List, [], All, Ok, Err, IsErr, IsOk, true, false, vec_len, map};
ghost use Rattle.outside_traits.specs.Bench.{Gives};
ghost use Rattle.outside_traits.specs.Fault.{Rose};
ghost use Rattle.outside_traits.specs.Store.{IsListing};
ghost use Rattle.load_model.specs.Loading.{sources_of};
ghost use Rattle.run_model.specs.Texts.{fault_text, dry_text};
ghost use Rattle.run_model.specs.Written.{WritesFront};
ghost use Rattle.answer_model.specs.declared.asked.ReadMode.{ReadMode};
ghost use Rattle.answer_model.specs.Answers.{is_refusal, HasRead, IsRefusal, Says, is_read_status};
ghost use Rattle.answer_model.specs.Project.{not_built};
ghost use Rattle.answer_model.specs.Modes.{mode_text};
ghost use Rattle.outside_traits.specs.Story.{IsFresh};
ghost use Rattle.store_model.specs.Origins.{Book, Reading};
ghost use Rattle.run_model.specs.Benches.{AtSeats, BreaksByFault, SomeRose};
ghost use Rattle.run_model.specs.Seated.{HaveBenches};
ghost use Rattle.run_model.specs.Build.{TellsDifference};
ghost use Rattle.answer_model.specs.Devices.{AreUnchanged, IsUnchanged};
ghost use Rattle.run_model.specs.Headline.{Keeps, MayBegin};
ghost use Rattle.meta_model.specs.declared.plan.Plan.{Plan};
ghost use Rattle.answer_model.specs.Dry.{HasDry, IsDryPlan};
ghost use Rattle.answer_model.specs.declared.asked.DryRequest.{DryRequest};
ghost use Rattle.answer_model.specs.declared.asked.RunRequest.{RunRequest as Request};
ghost use Rattle.answer_model.specs.Asked.{AskConfigs, AskDry, AskNoRun, AskReading, AskRun, AskSample, AskShows, asked_of as asked_by};
ghost use Rattle.answer_model.specs.declared.asked.ShowMode.{ShowMode};
ghost use Rattle.answer_model.specs.Sample.{SaysSample};
ghost use Rattle.multi_config.specs.Parts.{RanConfigs, stands};
ghost use Rattle.multi_config.specs.Shown.{ShowsConfigs};
ghost use Rattle.answer_model.specs.Run.{Concludes, HasBuild, HasCause, IsCertain, IsRunPlan, IsUnrun, RanPrintedCall, WritesCall, is_run_status};

use crate::answer::{read, refuse};
use crate::asked::asked_of;
use crate::dry::dry;
use crate::finish::Finish;
use crate::parts::run_configs;
use crate::run::run;
use crate::sample::sample;
use crate::shown::show_configs;
use answer_model::Asked;
use build_store::Ahead;
use meta_model::Status;
use outside_traits::{Bench, Disk, Layers, Sink};
use std::alloc::Global;
use std::sync::Wait;
use std::thread::Threads;
use tree_model::Text;

/// Does all that the program does, and gives the devices back with the status and the tale.
///
/// `words` are those behind the program's name. They ask for a run of targets, for what a mode prints that only reads metadata
/// (`-e`, `-s`, `-p`), for the plan of targets (`-n`), or for the sample (`--sample`), or they have no reading. (BitBake User Manual,
/// "The BitBake Command"; the texts are own rules.)
///
/// A run reads the configuration and all recipes, works out the graph of the tasks that the targets need, the number of threads and
/// the plan, and is refused where one of these is, in this order. It prints the plan, opens the store that earlier runs left, finds and
/// restores what it can trust, and runs what is missing. With `-f` the targets' tasks run in any case, with `-k` it goes on after
/// failures, and with `--no-setscene` it restores no shared state object. The sample is built twice, over devices in memory of its own.
///
/// Another thread may meanwhile leave in `ahead` what the files under `rec2/` and `key/` say. A run takes that only where it reads just these, so
/// every clause holds whatever is left there, and whenever.
pub fn bitbake<L, D, B, W, R>(
    rt: &R,
    alloc: Global,
    ahead: &Ahead,
    words: &[Text],
    mut layers: L,
    disk: D,
    benches: Vec<B>,
    mut sink: W,
) -> Finish<L, D, B, W>
where
    L: Layers,
    D: Disk + Drop + Send,
    B: Bench + Drop + Send,
    W: Sink + Drop + Send,
    R: Threads + Wait + Sync,
    requires bench { 0 < vec_len benches }
    requires reach { 3900 ≤ D.reach }
    requires fresh { D.tells → IsFresh (D.story disk) }
    requires unharmed { D.faults disk ≡ 0 }

    // A run. Whatever runs, edits and crashes came before: where it may begin on what the disk holds, under Ok each target's folder
    // holds exactly its clean output, every crash leaves a store in which the next run may begin, the tale is legal, named failures are
    // real, and the runs of each bench are the tasks that its seat started.
    ensures keeps { (request : Request) → AskRun words.now request → L.tells → D.tells → B.tells
        → (paths : List (List ℕ)) → IsListing [] (L.files layers) paths → (plan : Plan)
        → IsRunPlan (L.files layers) paths request plan → (gives : Gives) → All (λ b. B.gives b ≡ gives) benches.items
        → (reading : Reading) (book : Book) → MayBegin gives reading book (D.story disk).held plan
        → Keeps gives reading book (D.story disk).held plan request.options result.tales.items result.status
        (D.story result.disk) (map (λ b. (B.place b).runs) benches.items)
        (map (λ b. (B.place b).runs) result.benches.items) }

    // Where no device failed, memory wasn't wanting and no two signatures have one digest, a run answers Ok exactly where it has a plan
    // and the clean build of all its tasks succeeds.
    ensures exactly { (request : Request) → AskRun words.now request → L.tells → D.tells → B.tells
        → (paths : List (List ℕ)) → IsListing [] (L.files layers) paths → (gives : Gives)
        → All (λ b. B.gives b ≡ gives) benches.items → (reading : Reading) (book : Book)
        → ((plan : Plan) → IsRunPlan (L.files layers) paths request plan
        → MayBegin gives reading book (D.story disk).held plan)
        → IsUnchanged (L.faults layers) (L.faults result.layers) → D.faults result.disk ≡ 0
        → AreUnchanged (map B.faults benches.items) (map B.faults result.benches.items)
        → IsUnchanged (W.faults sink) (W.faults result.sink) → IsCertain result.status
        → ((result.status ≡ Status.Ok) ↔ HasBuild (L.files layers) paths request gives) }

    // The plan that is handed back is the request's, and each answer but a refusal hands one back. The status fits the tale: Ok comes only
    // where nothing is left to do and no task failed, and neither Ok nor a failed task is answered where a bench broke a task off; where a
    // fault broke one off the status is that of a fault, or want of memory.
    ensures plans { (request : Request) → AskRun words.now request → L.tells → (paths : List (List ℕ))
        → IsListing [] (L.files layers) paths → All (IsRunPlan (L.files layers) paths request) result.plans.items }
    ensures found { (request : Request) → AskRun words.now request → is_refusal result.status ≡ false
        → (plan : Plan) × (result.plans.items ≡ plan ∷ []) }
    ensures concludes { (request : Request) → AskRun words.now request
        → Concludes request.options result.plans.items result.tales.items result.status }

    // A run that was begun isn't refused any more: where there is a tale, the status isn't that words or metadata are refused, that a limit was
    // passed, or that the layers failed.
    ensures begun { (request : Request) → AskRun words.now request
        → result.tales.items ≢ [] → is_run_status result.status ≡ true }

    // What a run wrote is the text of the plan, the tale and the status, whole under Ok and where a task failed; under another status it may be a
    // front of such a text, where the sink failed.
    ensures text { (request : Request) → AskRun words.now request → W.tells
        → WritesCall (Rose (W.faults sink) (W.faults result.sink)) (W.written sink) (W.written result.sink)
        result.plans.items result.tales.items result.status }

    // No script ran before the line of its task's start was printed, whole.
    ensures printed { (request : Request) → AskRun words.now request → W.tells → B.tells
        → RanPrintedCall result.plans.items result.tales.items (map (λ b. (B.place b).runs) benches.items)
        (map (λ b. (B.place b).runs) result.benches.items) (W.written sink) (W.written result.sink) }

    // Why a run isn't begun. It isn't since something isn't built.
    ensures unrun { (request : Request) → AskRun words.now request
        → result.tales.items ≡ [] → result.status ≢ Status.WriteFault → L.tells
        → (paths : List (List ℕ)) → IsListing [] (L.files layers) paths
        → IsUnrun (L.files layers) paths request result.status }
    ensures built { (request : Request) → AskRun words.now request → result.status ≡ not_built → L.tells
        → (paths : List (List ℕ)) → IsListing [] (L.files layers) paths → ⊥ }

    // A run of several configurations, where a word begins with `mc:`. Its words have no parts, and it is refused; or the parts that were reached are those of
    // its words, one after another, each with all that is promised of a run, over the store of its configuration.
    ensures configs { (request : Request) → AskConfigs words.now request
        → RanConfigs L.tells D.tells B.tells W.tells (L.files layers) request
        (stands D.story D.faults B.gives B.place B.faults W.written W.faults (L.faults layers) disk benches.items sink)
        (stands D.story D.faults B.gives B.place B.faults W.written W.faults (L.faults result.layers) result.disk
        result.benches.items result.sink) result.plans.items result.tales.items result.status }

    // What `-n` and `-e` show of several configurations: the words have no parts, and it is refused; or the parts that were reached are those of its words,
    // one after another, each behind its own line. Nothing is run.
    ensures shows { (what : ShowMode) (request : Request) → AskShows words.now what request
        → ShowsConfigs L.tells W.tells what (L.files layers) request
        (stands D.story D.faults B.gives B.place B.faults W.written W.faults (L.faults layers) disk benches.items sink)
        (stands D.story D.faults B.gives B.place B.faults W.written W.faults (L.faults result.layers) result.disk
        result.benches.items result.sink) result.status }
    ensures show_tale { (what : ShowMode) (request : Request) → AskShows words.now what request
        → result.tales.items ≡ [] }

    // A mode that only reads metadata. The status fits the text that is meant, or the refusal.
    ensures read_status { (mode : ReadMode) → (targets : List (List ℕ)) → AskReading words.now mode targets
        → is_read_status result.status ≡ true }
    ensures read { (mode : ReadMode) → (targets : List (List ℕ)) → AskReading words.now mode targets → L.tells
        → (paths : List (List ℕ)) → IsListing [] (L.files layers) paths
        → HasRead result.status (mode_text mode (sources_of (L.files layers)) paths targets) }

    // Where no device failed and memory wasn't wanting, a mode answers Ok exactly where there is a text.
    ensures complete { (mode : ReadMode) → (targets : List (List ℕ)) → AskReading words.now mode targets → L.tells
        → (paths : List (List ℕ)) → IsListing [] (L.files layers) paths
        → IsUnchanged (L.faults layers) (L.faults result.layers)
        → IsUnchanged (W.faults sink) (W.faults result.sink)
        → result.status ≢ Status.OutOfMemory
        → ((result.status ≡ Status.Ok) ↔ IsOk (mode_text mode (sources_of (L.files layers)) paths targets)) }

    // Under Ok a mode wrote its text, and where the sink failed a front of it.
    ensures read_text { (mode : ReadMode) → (targets : List (List ℕ)) → AskReading words.now mode targets → L.tells
        → W.tells → (paths : List (List ℕ)) → IsListing [] (L.files layers) paths → (text : List ℕ)
        → mode_text mode (sources_of (L.files layers)) paths targets ≡ Ok text → result.status ≡ Status.Ok
        → W.written result.sink ≡ W.written sink ++ text }
    ensures read_front { (mode : ReadMode) → (targets : List (List ℕ)) → AskReading words.now mode targets → L.tells
        → W.tells → (paths : List (List ℕ)) → IsListing [] (L.files layers) paths → (text : List ℕ)
        → mode_text mode (sources_of (L.files layers)) paths targets ≡ Ok text → result.status ≡ Status.WriteFault
        → WritesFront (W.written sink) (W.written result.sink) text }

    // A dry run. The status fits the plan that the targets have, or the refusal.
    ensures dry_status { (request : DryRequest) → AskDry words.now request → is_read_status result.status ≡ true }
    ensures dry { (request : DryRequest) → AskDry words.now request → L.tells
        → (paths : List (List ℕ)) → IsListing [] (L.files layers) paths
        → HasDry result.status (L.files layers) paths request }

    // Where no device failed and memory wasn't wanting, a dry run answers Ok exactly where there is a plan.
    ensures dry_complete { (request : DryRequest) → AskDry words.now request → L.tells
        → (paths : List (List ℕ)) → IsListing [] (L.files layers) paths
        → IsUnchanged (L.faults layers) (L.faults result.layers)
        → IsUnchanged (W.faults sink) (W.faults result.sink)
        → result.status ≢ Status.OutOfMemory
        → ((result.status ≡ Status.Ok) ↔ ((plan : Plan) × IsDryPlan (L.files layers) paths request plan)) }

    // Under Ok a dry run wrote the text of the plan, and where the sink failed a front of it.
    ensures dry_text { (request : DryRequest) → AskDry words.now request → L.tells → W.tells
        → (paths : List (List ℕ)) → IsListing [] (L.files layers) paths
        → (plan : Plan) → IsDryPlan (L.files layers) paths request plan
        → result.status ≡ Status.Ok → W.written result.sink ≡ W.written sink ++ dry_text plan }
    ensures dry_front { (request : DryRequest) → AskDry words.now request → L.tells → W.tells
        → (paths : List (List ℕ)) → IsListing [] (L.files layers) paths
        → (plan : Plan) → IsDryPlan (L.files layers) paths request plan
        → result.status ≡ Status.WriteFault → WritesFront (W.written sink) (W.written result.sink) (dry_text plan) }

    // The sample. One line was written, with the counts of the two tales that are handed back; of what was handed in, the sink alone was
    // touched. That the tales are of runs over the sample is no clause.
    ensures sample { (size : ℕ) → AskSample words.now size → W.tells
        → SaysSample size result.plans.items result.tales.items result.status (W.written sink) (W.written result.sink)
        (W.faults sink) (W.faults result.sink) }
    ensures sample_alone { (size : ℕ) → AskSample words.now size
        → (result.disk ≡ disk) × (result.benches.items ≡ benches.items) × (result.layers ≡ layers) }

    // No device of the sample's own fails: of the faults of devices it answers only that of the sink which was handed in, where that failed.
    ensures sample_cause { (size : ℕ) → AskSample words.now size
        → HasCause ⊥ 0 ⊥ (Rose (W.faults sink) (W.faults result.sink)) result.status }

    // Words that are refused: the status is the refusal's, or says that memory was wanting. `Usage` has no other cause.
    ensures refused { IsErr (asked_by words.now) → IsRefusal (asked_by words.now) result.status }
    ensures usage { result.status ≡ Status.Usage → asked_by words.now ≡ Err Status.Usage }

    // Without a run nothing is told, and without a tale neither the disk nor a bench is touched. For words that are refused the
    // layers aren't touched either.
    ensures no_tale { AskNoRun words.now → result.tales.items ≡ [] }
    ensures same_disk { result.tales.items ≡ [] → result.disk ≡ disk }
    ensures same_benches { result.tales.items ≡ [] → result.benches.items ≡ benches.items }
    ensures same_layers { IsErr (asked_by words.now) → result.layers ≡ layers }

    // Without a run each refusal's line is written, or a front of it where the sink failed.
    ensures said { AskNoRun words.now → result.status ≢ Status.Ok → result.status ≢ Status.WriteFault → W.tells
        → Says (fault_text result.status) (W.written sink) (W.written result.sink) (W.faults sink)
        (W.faults result.sink) }

    // What a collision, or an output that isn't steady, tells of two that differ: the one is that of a record that is held, whatever a crash
    // leaves; the other signature is that of a task of the plan that is handed back, and so is the task whose output isn't steady.
    ensures differs { (request : Request) → AskRun words.now request
        → All (λ p. TellsDifference D.tells p (D.story result.disk) result.status) result.plans.items }

    // Each entry of a tale is of a seat that has a bench. So of each task that is told as started, and then ended or failed, `keeps` and `printed`
    // say on which bench it ran; and `concludes` says that at most as many ran at once as the plan has threads.
    ensures benches { (request : Request) → AskRun words.now request
        → All (HaveBenches (vec_len benches)) result.tales.items }

    // Each fault has its cause, and a task broke off since its bench failed only where the count of its seat's bench rose.
    ensures broke { (request : Request) → AskRun words.now request
        → All (λ tale. AtSeats (BreaksByFault tale) (map B.faults benches.items) (map B.faults result.benches.items))
        result.tales.items }
    ensures causes { HasCause (Rose (L.faults layers) (L.faults result.layers)) (D.faults result.disk)
        (SomeRose (map B.faults benches.items) (map B.faults result.benches.items))
        (Rose (W.faults sink) (W.faults result.sink)) result.status }
{
    match asked_of(alloc, words) {
        Ok(Asked::Runs(request)) => run(rt, alloc, ahead, &request, layers, disk, benches, sink),
        Ok(Asked::Configs(request)) => {
            run_configs(rt, alloc, ahead, &request, layers, disk, benches, sink)
        }
        Ok(Asked::Reads { mode, targets }) => Finish {
            status: read(alloc, mode, targets.as_slice(), &mut layers, &mut sink),
            plans: Vec::new(alloc),
            tales: Vec::new(alloc),
            layers,
            disk,
            benches,
            sink,
        },
        Ok(Asked::Plans(request)) => Finish {
            status: dry(rt, alloc, &request, &mut layers, &mut sink),
            plans: Vec::new(alloc),
            tales: Vec::new(alloc),
            layers,
            disk,
            benches,
            sink,
        },
        Ok(Asked::Shows { what, request }) => Finish {
            status: show_configs(rt, alloc, what, &request, &mut layers, &mut sink),
            plans: Vec::new(alloc),
            tales: Vec::new(alloc),
            layers,
            disk,
            benches,
            sink,
        },
        Ok(Asked::Sample(size)) => {
            let (status, plans, tales) = sample(rt, alloc, size, &mut sink);
            Finish {
                status,
                plans,
                tales,
                layers,
                disk,
                benches,
                sink,
            }
        }
        Err(status) => Finish {
            status: refuse(alloc, status, &mut sink),
            plans: Vec::new(alloc),
            tales: Vec::new(alloc),
            layers,
            disk,
            benches,
            sink,
        },
    }
}
