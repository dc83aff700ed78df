// The turns of a run on the calling thread, under seat 0.
ghost use Rattle.std.specs.Prelude.{◌≡◌, ◌<◌, ◌≤◌, ◌⊎◌, ℕ, Contains, List, IfOk, IfSome, IsSome, MatchOption, None, Ok, Some, false};
ghost use Rattle.outside_traits.specs.Fault.{Counts};
ghost use Rattle.meta_model.specs.declared.event.Logged.{Logged as Entry};
ghost use Rattle.tale_model.specs.Fates.{NoneRuns};
ghost use Rattle.task_worker.specs.Jobs.{IsGiven, ran_job};
ghost use Rattle.run_model.specs.Opening.{Opening};
ghost use Rattle.run_queue.specs.Seen.{seen};
ghost use Rattle.run_queue.specs.Keeps.{IsRun, IsSteady, KeepsCount, KeepsFront, PrintsOn};
ghost use Rattle.run_queue.specs.Turns.{AreHandsFree, Claims, ClaimsClean, IsCleanJob, IsGivenBy, RunsUnder, SameRun, fates_of};
ghost use Rattle.run_model.specs.Runs.{Runs};
ghost use Rattle.run_workers.specs.Runs.{by_bench};
ghost use Rattle.run_model.specs.Seats.{own};
ghost use Rattle.run_workers.specs.Worked.{BrokeOff};
ghost use Rattle.build_resume.specs.Drive.{BreaksBy, Broken, ClosesAlone, Drove, GoesOnBehind, Grows, IsHalted, IsTaken, RanSaid, left_over};

use meta_model::Cut;
use outside_traits::{Bench, Disk, Sink};
use run_queue::{Claim, Ending, Mending, RunState};
use run_workers::Halt;
use std::alloc::Global;
use std::sync::Wait;
use task_worker::{Given, Job, WorkFault, do_job};
use tree_model::Mem;

/// Takes turns until a job that is done, and gave this, is closed; between them it waits for the disk where a turn asks for that. Where the run
/// goes on the job's task doesn't wait again, or a fault is kept.
fn close_alone<D: Disk, B: Bench, W: Sink, R: Wait>(
    rt: &R,
    alloc: Global,
    state: &mut RunState<D, W>,
    bench: &mut B,
    job: &Job,
    given: &mut Option<Given>,
) -> Option<Halt>
    requires reach { 3600 ≤ D.reach }
    requires runs { RunsUnder state.old job.now.task 0 }
    requires given { IfSome given.old IsGiven }
    ensures same { SameRun state.old state.new }
    ensures closes { ClosesAlone job.now.task result state.old.tale state.new.tale }
    ensures goes_on { GoesOnBehind job.now.task state.new result }
    ensures stops { BreaksBy result state.new.fault state.old.tale state.new.tale }
    ensures halted { IfSome result (IsHalted state.new) }
    ensures bench { by_bench result ≡ false }
    ensures sink { KeepsCount W.faults state.old state.new }
    ensures text { W.tells → PrintsOn W.written state.old state.new }
    ensures stays { W.tells → KeepsFront W.written state.old state.new }
    ensures gives { B.gives bench.new ≡ B.gives bench.old }
    ensures place { B.tells → B.place bench.new ≡ B.place bench.old }
    ensures faults { B.faults bench.new ≡ B.faults bench.old }
    ensures run { D.tells → (o : Opening) → IsRun o (seen D.story W.written state.old)
        → IfSome given.old (IsGivenBy o.gives job.now) → IsCleanJob o (seen D.story W.written state.old) job.now
        → IsRun o (seen D.story W.written state.new) }
    ensures steady { D.tells → (o : Opening) → IsRun o (seen D.story W.written state.old)
        → IfSome given.old (IsGivenBy o.gives job.now) → IsCleanJob o (seen D.story W.written state.old) job.now
        → IsSteady state.old.fault → IsSteady state.new.fault }
{
    let mut synced = false;
    for _ in rt.forever() {
        match state.ended_turn(alloc, 0, job, given, synced) {
            Ok(Ending::More) => synced = false,
            Ok(Ending::Wait) => synced = bench.wait_synced(),
            Ok(Ending::Closed) => return None,
            Err(Mem) => return Some(Halt::Memory),
        }
    }
    unreachable!()
}

/// Does a job that was claimed, and says how it came to an end. Where a fault is kept, as that the line of its start couldn't be written,
/// its script doesn't run. Where the run goes on its task doesn't wait again, or a fault is kept.
fn do_alone<D: Disk, B: Bench, W: Sink, R: Wait>(
    rt: &R,
    alloc: Global,
    state: &mut RunState<D, W>,
    bench: &mut B,
    job: Job,
) -> Option<Halt>
    requires reach { 3600 ≤ D.reach }
    requires runs { RunsUnder state.old job.task 0 }
    ensures same { SameRun state.old state.new }
    ensures closes { ClosesAlone job.task result state.old.tale state.new.tale }
    ensures goes_on { GoesOnBehind job.task state.new result }
    ensures stops { BreaksBy result state.new.fault state.old.tale state.new.tale }
    ensures fault { IsSome state.old.fault → state.new.fault ≡ state.old.fault }
    ensures halted { IfSome result (IsHalted state.new) }
    ensures sink { KeepsCount W.faults state.old state.new }
    ensures text { W.tells → PrintsOn W.written state.old state.new }
    ensures stays { W.tells → KeepsFront W.written state.old state.new }
    ensures gives { B.gives bench.new ≡ B.gives bench.old }
    ensures ran { B.tells → ((B.place bench.new).runs ≡ ran_job (B.place bench.old).runs job)
        ⊎ (((B.place bench.new).runs ≡ (B.place bench.old).runs)
        × BrokeOff job.task result (own 0 state.new.tale)) }
    ensures unheard { IsSome state.old.fault → IsSome result
        × (B.tells → (B.place bench.new).runs ≡ (B.place bench.old).runs) }
    ensures cause { Counts (B.faults bench.old) (B.faults bench.new) (by_bench result) }
    ensures run { D.tells → B.tells → (o : Opening) → o.gives ≡ B.gives bench.old
        → IsRun o (seen D.story W.written state.old) → IsCleanJob o (seen D.story W.written state.old) job
        → IsRun o (seen D.story W.written state.new) }
    ensures steady { D.tells → B.tells → (o : Opening) → o.gives ≡ B.gives bench.old
        → IsRun o (seen D.story W.written state.old) → IsCleanJob o (seen D.story W.written state.old) job
        → IsSteady state.old.fault → IsSteady state.new.fault }
{
    if state.has_fault() {
        state.broke(alloc, 0, job, Cut::Fault);
        return Some(Halt::Stopped);
    }
    match do_job(alloc, bench, &job) {
        Ok(given) => {
            let mut given = Some(given);
            close_alone(rt, alloc, state, bench, &job, &mut given)
        }
        Err(WorkFault::Bench) => {
            state.broke(alloc, 0, job, Cut::Bench);
            Some(Halt::Bench)
        }
        Err(WorkFault::Memory) => {
            state.broke(alloc, 0, job, Cut::Memory);
            Some(Halt::Memory)
        }
    }
}

/// Takes turns until a task that is to be restored is so, or a fault is kept. Where a turn asks for a wait the next one syncs by itself.
fn restore_alone<D: Disk, W: Sink, R: Wait>(
    rt: &R,
    alloc: Global,
    state: &mut RunState<D, W>,
    task: u32,
) -> Claim
    requires reach { 3600 ≤ D.reach }
    requires none { NoneRuns (fates_of state.old) }
    requires hand { Contains state.old.restoring task }
    ensures claims { Claims 0 state.old state.new (Ok result) }
    ensures ends { (result ≡ Claim.Settled task) ⊎ (result ≡ Claim.Stopped) }
    ensures same { SameRun state.old state.new }
    ensures fault { IsSome state.old.fault → state.new.fault ≡ state.old.fault }
    ensures sink { KeepsCount W.faults state.old state.new }
    ensures text { W.tells → PrintsOn W.written state.old state.new }
    ensures stays { W.tells → KeepsFront W.written state.old state.new }
    ensures steady { IsSteady state.old.fault → IsSteady state.new.fault }
    ensures run { D.tells → (o : Opening) → IsRun o (seen D.story W.written state.old)
        → IsRun o (seen D.story W.written state.new) }
{
    for _ in rt.forever() {
        match state.restore_turn(alloc, 0, task, false) {
            Mending::More | Mending::Wait => {}
            Mending::Closed => return Claim::Settled(task),
            Mending::Stopped => return Claim::Stopped,
        }
    }
    unreachable!()
}

/// What the seat is to do next. A task that is to be restored is so. To wait is for no other seat, since no task runs: where the state says so, which can't come
/// in a run of workers, want of memory is kept as a fault.
fn claim_alone<D: Disk, W: Sink, R: Wait>(
    rt: &R,
    alloc: Global,
    state: &mut RunState<D, W>,
) -> Result<Claim, Mem>
    requires reach { 3600 ≤ D.reach }
    requires none { NoneRuns (fates_of state.old) }
    ensures claims { Claims 0 state.old state.new result }
    ensures taken { IfOk result IsTaken }
    ensures stops { IsSome state.old.fault → result ≡ Ok Claim.Stopped }
    ensures same { SameRun state.old state.new }
    ensures rests { IsSome state.old.fault → state.new.fault ≡ state.old.fault }
    ensures sink { KeepsCount W.faults state.old state.new }
    ensures text { W.tells → PrintsOn W.written state.old state.new }
    ensures stays { W.tells → KeepsFront W.written state.old state.new }
    ensures steady { IsSteady state.old.fault → IsSteady state.new.fault }
    ensures run { D.tells → (o : Opening) → IsRun o (seen D.story W.written state.old)
        → IsRun o (seen D.story W.written state.new) }
    ensures clean { D.tells → (o : Opening) → IsRun o (seen D.story W.written state.old)
        → ClaimsClean o state.old.ends_wait (seen D.story W.written state.old) result }
{
    match state.claim(alloc, 0) {
        Ok(Claim::Restore(task)) => Ok(restore_alone(rt, alloc, state, task)),
        Ok(Claim::Wait) => {
            state.close_restorings();
            Ok(Claim::Stopped)
        }
        Ok(claim) => Ok(claim),
        Err(Mem) => Err(Mem),
    }
}

/// One turn of the seat, and the job that it was given, if it was. `None`: there may be more to do.
fn turn<D: Disk, B: Bench, W: Sink, R: Wait>(
    rt: &R,
    alloc: Global,
    state: &mut RunState<D, W>,
    bench: &mut B,
) -> Option<Halt>
    requires reach { 3600 ≤ D.reach }
    requires none { NoneRuns (fates_of state.old) }
    ensures none { NoneRuns (fates_of state.new) }
    ensures same { SameRun state.old state.new }
    ensures grows { Grows result state.old.tale state.new.tale }
    ensures broken { Broken (IsSome result ⊎ IsSome state.new.fault) state.old.tale state.new.tale }
    ensures rests { IsSome state.old.fault → (state.new.tale ≡ state.old.tale) × IsSome result }
    ensures goes_on { MatchOption result (left_over state.new < left_over state.old) (IsHalted state.new) }
    ensures sink { KeepsCount W.faults state.old state.new }
    ensures text { W.tells → PrintsOn W.written state.old state.new }
    ensures printed { W.tells → B.tells → (from : List Entry) (base : List ℕ) (before : Runs)
        → RanSaid state.old.plan None state.old.fault from state.old.tale before (B.place bench.old).runs base
        (W.written state.old.sink) → RanSaid state.old.plan result state.new.fault from state.new.tale before
        (B.place bench.new).runs base (W.written state.new.sink) }
    ensures gives { B.gives bench.new ≡ B.gives bench.old }
    ensures cause { Counts (B.faults bench.old) (B.faults bench.new) (by_bench result) }
    ensures run { D.tells → B.tells → (o : Opening) → o.gives ≡ B.gives bench.old
        → IsRun o (seen D.story W.written state.old) → IsRun o (seen D.story W.written state.new)
        × Drove (B.gives bench.old) state.old.plan result state.old.tale state.new.tale (B.place bench.old).runs
        (B.place bench.new).runs }
    ensures steady { D.tells → B.tells → (o : Opening) → o.gives ≡ B.gives bench.old
        → IsRun o (seen D.story W.written state.old) → IsSteady state.old.fault → IsSteady state.new.fault }
{
    state.kept();
    match claim_alone(rt, alloc, state) {
        Ok(Claim::Run(job)) => {
            state.kept();
            let halt = do_alone(rt, alloc, state, bench, job);
            state.kept();
            halt
        }
        Ok(Claim::Settled(_)) => {
            state.kept();
            None
        }
        Ok(Claim::Wait) | Ok(Claim::Restore(_)) => unreachable!(),
        Ok(Claim::Finished) => Some(Halt::Finished),
        Ok(Claim::Stopped) => Some(Halt::Stopped),
        Err(Mem) => Some(Halt::Memory),
    }
}

/// Takes turns until nothing more is done.
fn take_turns<D: Disk, B: Bench, W: Sink, R: Wait>(
    rt: &R,
    alloc: Global,
    state: &mut RunState<D, W>,
    bench: &mut B,
) -> Halt
    requires reach { 3600 ≤ D.reach }
    requires none { NoneRuns (fates_of state.old) }
    ensures same { SameRun state.old state.new }
    ensures grows { Grows (Some result) state.old.tale state.new.tale }
    ensures broken { Broken (Unit {0}) state.old.tale state.new.tale }
    ensures halted { IsHalted state.new result }
    ensures none { NoneRuns (fates_of state.new) }
    ensures sink { KeepsCount W.faults state.old state.new }
    ensures text { W.tells → PrintsOn W.written state.old state.new }
    ensures printed { W.tells → B.tells → (from : List Entry) (base : List ℕ) (before : Runs)
        → RanSaid state.old.plan None state.old.fault from state.old.tale before (B.place bench.old).runs base
        (W.written state.old.sink) → RanSaid state.old.plan (Some result) state.new.fault from state.new.tale before
        (B.place bench.new).runs base (W.written state.new.sink) }
    ensures gives { B.gives bench.new ≡ B.gives bench.old }
    ensures cause { Counts (B.faults bench.old) (B.faults bench.new) (by_bench (Some result)) }
    ensures run { D.tells → B.tells → (o : Opening) → o.gives ≡ B.gives bench.old
        → IsRun o (seen D.story W.written state.old) → IsRun o (seen D.story W.written state.new)
        × Drove (B.gives bench.old) state.old.plan (Some result) state.old.tale state.new.tale
        (B.place bench.old).runs (B.place bench.new).runs }
    ensures steady { D.tells → B.tells → (o : Opening) → o.gives ≡ B.gives bench.old
        → IsRun o (seen D.story W.written state.old) → IsSteady state.old.fault → IsSteady state.new.fault }
{
    loop {
        if let Some(halt) = turn(rt, alloc, state, bench) {
            return halt;
        }
    }
}

/// Takes turns until nothing more is done. Then nothing is being restored, or a fault is kept.
pub(crate) fn drive<D: Disk, B: Bench, W: Sink, R: Wait>(
    rt: &R,
    alloc: Global,
    state: &mut RunState<D, W>,
    bench: &mut B,
) -> Halt
    requires reach { 3600 ≤ D.reach }
    requires none { NoneRuns (fates_of state.old) }
    ensures same { SameRun state.old state.new }
    ensures grows { Grows (Some result) state.old.tale state.new.tale }
    ensures broken { Broken (Unit {0}) state.old.tale state.new.tale }
    ensures halted { IsHalted state.new result }
    ensures none { NoneRuns (fates_of state.new) }
    ensures hands { AreHandsFree state.new }
    ensures sink { KeepsCount W.faults state.old state.new }
    ensures text { W.tells → PrintsOn W.written state.old state.new }
    ensures printed { W.tells → B.tells → (from : List Entry) (base : List ℕ) (before : Runs)
        → RanSaid state.old.plan None state.old.fault from state.old.tale before (B.place bench.old).runs base
        (W.written state.old.sink) → RanSaid state.old.plan (Some result) state.new.fault from state.new.tale before
        (B.place bench.new).runs base (W.written state.new.sink) }
    ensures gives { B.gives bench.new ≡ B.gives bench.old }
    ensures cause { Counts (B.faults bench.old) (B.faults bench.new) (by_bench (Some result)) }
    ensures run { D.tells → B.tells → (o : Opening) → o.gives ≡ B.gives bench.old
        → IsRun o (seen D.story W.written state.old) → IsRun o (seen D.story W.written state.new)
        × Drove (B.gives bench.old) state.old.plan (Some result) state.old.tale state.new.tale
        (B.place bench.old).runs (B.place bench.new).runs }
    ensures steady { D.tells → B.tells → (o : Opening) → o.gives ≡ B.gives bench.old
        → IsRun o (seen D.story W.written state.old) → IsSteady state.old.fault → IsSteady state.new.fault }
{
    let halt = take_turns(rt, alloc, state, bench);
    state.close_restorings();
    halt
}
