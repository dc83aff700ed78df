// A run of a plan.
ghost use Rattle.std.specs.Prelude.{◌≡◌, ◌≢◌, ◌<◌, ◌≤◌, ◌++◌, ◌∷◌, ◌⊎◌, ◌↔◌, ℕ, [], List, All, None, false, true, length, map, vec_len, vec_capacity};
ghost use Rattle.outside_traits.specs.Bench.{Gives};
ghost use Rattle.outside_traits.specs.Fault.{Counts, Rose};
ghost use Rattle.outside_traits.specs.Story.{IsFresh, IsSound as IsLawful, Story as Told};
ghost use Rattle.meta_model.specs.declared.plan.Options.{Options as Asked};
ghost use Rattle.build_store.specs.Faults.{is_disk_fault, of_disk};
ghost use Rattle.meta_model.specs.declared.event.Status.TheVariants as ends;
ghost use Rattle.plan_model.specs.Sound.{AreWanted, IsSound};
ghost use Rattle.store_model.specs.Origins.{Book, Reading};
ghost use Rattle.run_model.specs.Report.{has_failure, tale_text};
ghost use Rattle.tale_model.specs.Fates.{NoneRuns};
ghost use Rattle.run_queue.specs.Keeps.{IsFront, IsRun, IsSteady, Prints};
ghost use Rattle.run_model.specs.Opening.{Opening};
ghost use Rattle.run_queue.specs.Seen.{seen};
ghost use Rattle.run_queue.specs.Turns.{fates_of};
ghost use Rattle.meta_model.specs.declared.event.Logged.{Logged as Entry};
ghost use Rattle.run_model.specs.Runs.{Runs};
ghost use Rattle.run_model.specs.Benches.{AtSeats, AtWorkers, BreaksByFault, SomeRose};
ghost use Rattle.run_model.specs.Seated.{HaveBenches, IsSeated};
ghost use Rattle.build_resume.specs.Benches.{SomeBreak};
ghost use Rattle.run_model.specs.Build.{AllClean, MayEndSo, RanPrinted, RanStarted, TellsDifference, failed_in, is_unsteady};
ghost use Rattle.build_resume.specs.Build.{IsEntry, Leaves, WritesReport, is_collision};
ghost use Rattle.build_resume.specs.Drive.{RanOn, RanSaid, SaidTo, WentOn};
ghost use Rattle.build_resume.specs.Ends.{EndsBy, status_by};
ghost use Rattle.run_model.specs.Outcome.{EndsAs};
ghost use Rattle.build_resume.specs.Outcome.{KeptTo};

use crate::drive::drive;
use crate::ending::{
    end_wanting, failed_for, halt_of_run, status_of_run, status_of_store, tell_end, tell_unless,
    want_unless,
};
use crate::workers::{take_last, with_workers};
use build_store::{Ahead, OpenRefused, Store, StoreFault, open_store};
use meta_model::{Logged, Options, Plan, Status};
use outside_traits::{Bench, Disk, DiskFault, Sink};
use run_queue::{RunParts, RunState};
use run_workers::Halt;
use std::alloc::Global;
use std::sync::Wait;
use std::thread::Threads;
use tree_model::Mem;

/// How a run ended, and what it leaves.
pub struct Outcome<D, B, W> {
    /// The plan that was run.
    pub plan: Plan,
    /// How it ended.
    pub status: Status,
    /// The tasks that failed, in the order in which they did, where the run ended by that.
    pub failed: Vec<u32>,
    /// The disk.
    pub disk: D,
    /// The benches, in their order.
    pub benches: Vec<B>,
    /// The sink.
    pub sink: W,
    /// What happened.
    pub tale: Vec<Logged>,
}

/// How a run ended, and what it leaves beside its benches.
struct Ended<D, W> {
    plan: Plan,
    status: Status,
    failed: Vec<u32>,
    disk: D,
    sink: W,
    tale: Vec<Logged>,
}

/// Writes the last line of what is left of a run, and says how it ended.
fn conclude<D: Disk, W: Sink>(alloc: Global, parts: RunParts<D, W>, halt: Halt) -> Ended<D, W>
    ensures plan { result.plan ≡ parts.plan }
    ensures disk { result.disk ≡ parts.disk }
    ensures tale { result.tale.items ≡ parts.tale.items }
    ensures status { EndsBy ((parts.sink_failed ≡ true) ⊎ Rose (W.faults parts.sink) (W.faults result.sink))
        (status_by parts.fault halt (has_failure parts.tale.items)) result.status }
    ensures failed { result.status ≡ ends.TaskFailed → result.failed.items ≡ failed_in parts.tale.items }
    ensures text { W.tells → (base : List ℕ) (before : ℕ)
        → Prints base (W.written parts.sink) (tale_text parts.plan.tasks parts.tale.items) parts.sink_failed
        → Counts before (W.faults parts.sink) parts.sink_failed
        → WritesReport (Rose before (W.faults result.sink)) base (W.written result.sink) parts.plan parts.tale.items
        result.status }
    ensures stays { W.tells → (front : List ℕ) → IsFront front (W.written parts.sink)
        → IsFront front (W.written result.sink) }
    ensures later { W.faults parts.sink ≤ W.faults result.sink }
{
    let RunParts {
        plan,
        disk,
        mut sink,
        tale,
        fault,
        sink_failed,
    } = parts;
    let status = status_of_run(fault, halt, tale.as_slice());
    match failed_for(alloc, &status, tale.as_slice()) {
        Ok(failed) => {
            let status = tell_unless(
                alloc,
                &mut sink,
                sink_failed,
                &plan,
                tale.as_slice(),
                status,
            );
            Ended {
                plan,
                status,
                failed,
                disk,
                sink,
                tale,
            }
        }
        Err(Mem) => {
            let status = want_unless(&mut sink, sink_failed);
            Ended {
                plan,
                status,
                failed: Vec::new(alloc),
                disk,
                sink,
                tale,
            }
        }
    }
}

/// Finishes alone what is left of a run in which no task runs: seat 0 takes turns on the last bench until nothing more is done.
fn finish<D: Disk, B: Bench, W: Sink, R: Wait>(
    rt: &R,
    alloc: Global,
    mut state: RunState<D, W>,
    last: &mut B,
) -> Ended<D, W>
    requires reach { 3600 ≤ D.reach }
    requires none { NoneRuns (fates_of state) }
    ensures plan { result.plan ≡ state.plan }
    ensures went { WentOn state.tale result.tale.items (B.faults last.old) (B.faults last.new) }
    ensures ends { EndsAs state.plan state.options result.tale.items result.status }
    ensures failed { result.status ≡ ends.TaskFailed → result.failed.items ≡ failed_in result.tale.items }
    ensures text { W.tells → (base : List ℕ) (before : ℕ)
        → Prints base (W.written state.sink) (tale_text state.plan.tasks state.tale) state.sink_failed
        → Counts before (W.faults state.sink) state.sink_failed
        → WritesReport (Rose before (W.faults result.sink)) base (W.written result.sink) state.plan result.tale.items
        result.status }
    ensures cause { (before : ℕ) → Counts before (W.faults state.sink) state.sink_failed
        → MayEndSo (D.faults result.disk) (Rose (B.faults last.old) (B.faults last.new) ⊎ SomeBreak result.tale.items)
        (Rose before (W.faults result.sink)) result.status }
    ensures differs { TellsDifference D.tells state.plan (D.story result.disk) result.status }
    ensures run { D.tells → B.tells → (o : Opening) → o.gives ≡ B.gives last.old
        → IsRun o (seen D.story W.written state) → KeptTo o state.plan state.options result.tale.items result.status
        (D.story result.disk) × RanOn (B.gives last.old) state.plan state.tale result.tale.items
        (B.place last.old).runs (B.place last.new).runs }
    ensures printed { W.tells → B.tells → (from : List Entry) (base : List ℕ) (before : Runs)
        → RanSaid state.plan None state.fault from state.tale before (B.place last.old).runs base
        (W.written state.sink) → SaidTo state.plan from result.tale.items before (B.place last.new).runs base
        (W.written result.sink) }
    ensures lawful { D.tells → IsLawful (D.story result.disk) }
    ensures steady { D.tells → B.tells → (o : Opening) → o.gives ≡ B.gives last.old
        → IsRun o (seen D.story W.written state) → IsSteady state.fault → is_unsteady result.status ≡ false }
    ensures alike { (B.gives last.new ≡ B.gives last.old) × (B.faults last.old ≤ B.faults last.new) }
    ensures later { (before : ℕ) → Counts before (W.faults state.sink) state.sink_failed → before ≤ W.faults result.sink }
{
    let halt = drive(rt, alloc, &mut state, last);
    state.kept();
    let parts = state.into_parts();
    let halt = halt_of_run(halt, parts.tale.as_slice());
    conclude(alloc, parts, halt)
}

/// Runs what has begun to its end: the workers' turns, and then those of the calling thread on the last bench.
fn run_begun<D, B, W, R>(
    rt: &R,
    alloc: Global,
    state: RunState<D, W>,
    mut benches: Vec<B>,
) -> Outcome<D, B, W>
where
    D: Disk + Drop + Send,
    B: Bench + Drop + Send,
    W: Sink + Drop + Send,
    R: Threads + Wait + Sync,
    requires reach { 3600 ≤ D.reach }
    requires bench { 0 < length benches.items }
    requires none { state.tale ≡ [] }
    requires stands { state.sink_failed ≡ false }
    requires faultless { state.fault ≡ None }
    ensures plan { result.plan ≡ state.plan }
    ensures ends { EndsAs state.plan state.options result.tale.items result.status }
    ensures seated { IsSeated state.plan result.tale.items }
    ensures benches { HaveBenches (length benches.items) result.tale.items }
    ensures failed { result.status ≡ ends.TaskFailed → result.failed.items ≡ failed_in result.tale.items }
    ensures text { W.tells → WritesReport (Rose (W.faults state.sink) (W.faults result.sink)) (W.written state.sink)
        (W.written result.sink) state.plan result.tale.items result.status }
    ensures cause { MayEndSo (D.faults result.disk) (SomeRose (map B.faults benches.items)
        (map B.faults result.benches.items)) (Rose (W.faults state.sink) (W.faults result.sink)) result.status }
    ensures differs { TellsDifference D.tells state.plan (D.story result.disk) result.status }
    ensures broke { AtSeats (BreaksByFault result.tale.items) (map B.faults benches.items)
        (map B.faults result.benches.items) }
    ensures run { D.tells → B.tells → (gives : Gives) → All (λ b. B.gives b ≡ gives) benches.items → (o : Opening)
        → o.gives ≡ gives → IsRun o (seen D.story W.written state)
        → KeptTo o state.plan state.options result.tale.items result.status (D.story result.disk)
        × AtSeats (RanStarted gives state.plan result.tale.items) (map (λ b. (B.place b).runs) benches.items)
        (map (λ b. (B.place b).runs) result.benches.items) }
    ensures printed { W.tells → B.tells → RanPrinted state.plan result.tale.items
        (map (λ b. (B.place b).runs) benches.items) (map (λ b. (B.place b).runs) result.benches.items)
        (W.written state.sink) (W.written result.sink) }
    ensures lawful { D.tells → IsLawful (D.story result.disk) }
    ensures steady { D.tells → B.tells → (gives : Gives) → All (λ b. B.gives b ≡ gives) benches.items → (o : Opening)
        → o.gives ≡ gives → IsRun o (seen D.story W.written state) → is_unsteady result.status ≡ false }
    ensures alike { AtWorkers (λ seat old new. (B.gives new ≡ B.gives old) × (B.faults old ≤ B.faults new)) benches.items
        result.benches.items }
    ensures later { W.faults state.sink ≤ W.faults result.sink }
{
    let mut last = take_last(&mut benches);
    let (state, mut benches, _wanting) = with_workers(rt, alloc, state, benches);
    let Ended {
        plan,
        status,
        failed,
        disk,
        sink,
        tale,
    } = finish(rt, alloc, state, &mut last);
    benches.push_reserved(last);
    Outcome {
        plan,
        status,
        failed,
        disk,
        benches,
        sink,
        tale,
    }
}

/// The outcome of a run that didn't begin.
fn unbegun<D: Disk, B: Bench, W: Sink>(
    alloc: Global,
    plan: Plan,
    status: Status,
    disk: D,
    benches: Vec<B>,
    sink: W,
) -> Outcome<D, B, W>
    ensures plan { result.plan ≡ plan }
    ensures status { result.status ≡ status }
    ensures failed { result.failed.items ≡ [] }
    ensures disk { result.disk ≡ disk }
    ensures benches { result.benches.items ≡ benches.items }
    ensures sink { result.sink ≡ sink }
    ensures tale { result.tale.items ≡ [] }
{
    Outcome {
        plan,
        status,
        failed: Vec::new(alloc),
        disk,
        benches,
        sink,
        tale: Vec::new(alloc),
    }
}

/// A fault of the disk as one of a store.
fn store_fault(fault: DiskFault) -> StoreFault
    ensures { result ≡ of_disk fault }
{
    match fault {
        DiskFault::Failed => StoreFault::Disk,
        DiskFault::Memory => StoreFault::Memory,
    }
}

/// Ends a run of a plan whose folder of the disk couldn't be made ready for a store, by this fault: as one whose store can't be opened.
/// The text of the plan was written before.
pub fn build_unready<D: Disk, B: Bench, W: Sink>(
    alloc: Global,
    plan: Plan,
    fault: DiskFault,
    disk: D,
    benches: Vec<B>,
    mut sink: W,
) -> Outcome<D, B, W>
    requires bench { 0 < length benches.items }
    ensures plan { result.plan ≡ plan }
    ensures disk { result.disk ≡ disk }
    ensures same { result.benches.items ≡ benches.items }
    ensures tale { result.tale.items ≡ [] }
    ensures told { (options : Asked) → EndsAs plan options result.tale.items result.status }
    ensures seated { IsSeated plan result.tale.items }
    ensures benches { HaveBenches (length benches.items) result.tale.items }
    ensures text { W.tells → WritesReport (Rose (W.faults sink) (W.faults result.sink)) (W.written sink)
        (W.written result.sink) plan result.tale.items result.status }
    ensures printed { W.tells → B.tells → RanPrinted plan result.tale.items
        (map (λ b. (B.place b).runs) benches.items) (map (λ b. (B.place b).runs) result.benches.items)
        (W.written sink) (W.written result.sink) }
    ensures ends { (now : ℕ) → (is_disk_fault (of_disk fault) ≡ true → 0 < now)
        → MayEndSo now (SomeRose (map B.faults benches.items) (map B.faults result.benches.items))
        (Rose (W.faults sink) (W.faults result.sink)) result.status }
    ensures none { (result.status ≢ ends.Ok) × (result.status ≢ ends.TaskFailed) }
    ensures memory { is_disk_fault (of_disk fault) ≡ false → result.status ≡ ends.OutOfMemory }
    ensures failed { result.status ≡ ends.DiskFault → is_disk_fault (of_disk fault) ≡ true }
    ensures differs { (story : Told) → TellsDifference D.tells plan story result.status }
    ensures broke { AtSeats (BreaksByFault result.tale.items) (map B.faults benches.items)
        (map B.faults result.benches.items) }
    ensures later { W.faults sink ≤ W.faults result.sink }
{
    let status = tell_end(
        alloc,
        &mut sink,
        &plan,
        &[],
        status_of_store(store_fault(fault)),
    );
    unbegun(alloc, plan, status, disk, benches, sink)
}

/// Runs a plan: finds and restores what it can trust, runs what is missing on the benches, and publishes what that gives. It writes the line
/// of each event, and the last line of its status. The text of the plan was written before. What `ahead` knows of just the
/// files under `rec2/` and `key/` that are read spares work, and changes nothing.
pub fn build<D, B, W, R>(
    rt: &R,
    alloc: Global,
    ahead: &Ahead,
    plan: Plan,
    options: Options,
    disk: D,
    benches: Vec<B>,
    sink: W,
) -> Outcome<D, B, W>
where
    D: Disk + Drop + Send,
    B: Bench + Drop + Send,
    W: Sink + Drop + Send,
    R: Threads + Wait + Sync,
    requires reach { 3600 ≤ D.reach }
    requires bench { 0 < length benches.items }
    requires sound { IsSound plan }
    requires fresh { D.tells → IsFresh (D.story disk) }
    requires unharmed { D.faults disk ≡ 0 }

    // The plan comes back.
    ensures plan { result.plan ≡ plan }

    // What a run leaves where its devices tell, and the benches give the same.
    ensures leaves { D.tells → B.tells → (gives : Gives) → All (λ b. B.gives b ≡ gives) benches.items
        → (reading : Reading) (book : Book) → IsEntry gives reading book (D.story disk).held plan
        → Leaves gives reading book (D.story disk).held plan options result.tale.items result.status
        (D.story result.disk) (map (λ b. (B.place b).runs) benches.items)
        (map (λ b. (B.place b).runs) result.benches.items) }

    // Where no device failed, memory wasn't wanting and no signatures collide, the answer is Ok just where every task of the plan has a clean
    // output.
    ensures exactly { D.tells → B.tells → (gives : Gives) → All (λ b. B.gives b ≡ gives) benches.items
        → (reading : Reading) (book : Book) → IsEntry gives reading book (D.story disk).held plan → AreWanted plan
        → D.faults result.disk ≡ 0 → (SomeRose (map B.faults benches.items) (map B.faults result.benches.items) → ⊥)
        → (Rose (W.faults sink) (W.faults result.sink) → ⊥) → result.status ≢ ends.OutOfMemory
        → is_collision result.status ≡ false → ((result.status ≡ ends.Ok) ↔ AllClean gives plan) }

    // Whatever the disk tells, each bench ran the scripts of just those tasks whose start had been printed.
    ensures printed { W.tells → B.tells → RanPrinted plan result.tale.items
        (map (λ b. (B.place b).runs) benches.items) (map (λ b. (B.place b).runs) result.benches.items)
        (W.written sink) (W.written result.sink) }

    // Whatever the devices tell, Ok comes only where nothing is left to do and no task failed, and where a task failed it is told. Neither
    // comes where a bench that failed, or want of memory, broke a task off. The failed tasks are those of the tale.
    ensures told { EndsAs plan options result.tale.items result.status }
    ensures failed { result.status ≡ ends.TaskFailed → result.failed.items ≡ failed_in result.tale.items }

    // At most as many tasks ran at once as the plan has threads, and each entry is of a seat that has a bench. So of each task that is told as
    // started, and then ended or failed, `leaves` and `printed` say on which bench it ran.
    ensures seated { IsSeated plan result.tale.items }
    ensures benches { HaveBenches (length benches.items) result.tale.items }

    // What was written is the text of the tale and of the status, whole under Ok and where a task failed; under another status it may be a
    // front of one, where the sink failed.
    ensures text { W.tells → WritesReport (Rose (W.faults sink) (W.faults result.sink)) (W.written sink)
        (W.written result.sink) plan result.tale.items result.status }

    // Each status has its cause, and so has each task that broke off since its bench failed. (Of one that broke off by a fault `told` says that
    // a fault is the status.)
    ensures ends { MayEndSo (D.faults result.disk) (SomeRose (map B.faults benches.items)
        (map B.faults result.benches.items)) (Rose (W.faults sink) (W.faults result.sink)) result.status }

    // What a collision, or an output that isn't steady, tells of two that differ: the one is that of a record that is held, whatever a crash
    // leaves; the other signature is that of a task of the plan, and so is the task whose output isn't steady.
    ensures differs { TellsDifference D.tells plan (D.story result.disk) result.status }
    ensures broke { AtSeats (BreaksByFault result.tale.items) (map B.faults benches.items)
        (map B.faults result.benches.items) }

    // The benches are as many, and give what they gave. No count of faults falls.
    ensures alike { AtWorkers (λ seat old new. (B.gives new ≡ B.gives old) × (B.faults old ≤ B.faults new)) benches.items
        result.benches.items }
    ensures later { W.faults sink ≤ W.faults result.sink }
{
    match open_store(alloc, disk, ahead) {
        Ok(store) => match RunState::begin(alloc, plan, options, store, sink) {
            Ok(state) => run_begun(rt, alloc, state, benches),
            Err(
                RunParts {
                    plan,
                    disk,
                    mut sink,
                    tale: _,
                    fault: _,
                    sink_failed: _,
                },
            ) => {
                let status = end_wanting(&mut sink);
                unbegun(alloc, plan, status, disk, benches, sink)
            }
        },
        Err(OpenRefused { disk, fault }) => {
            let mut sink = sink;
            let status = tell_end(alloc, &mut sink, &plan, &[], status_of_store(fault));
            unbegun(alloc, plan, status, disk, benches, sink)
        }
    }
}
