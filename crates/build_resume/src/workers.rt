// The workers of a run.
ghost use Rattle.std.specs.Prelude.{◌≡◌, ◌≤◌, ◌<◌, ◌++◌, ◌∷◌, [], All, None, false, length, take, vec_capacity, vec_len};
ghost use Rattle.outside_traits.specs.Bench.{Gives};
ghost use Rattle.tale_model.specs.Fates.{NoneRuns};
ghost use Rattle.run_queue.specs.Keeps.{IsRun, IsSteady, KeepsCount, KeepsFront, PrintsOn};
ghost use Rattle.run_model.specs.Opening.{Opening};
ghost use Rattle.run_queue.specs.Seen.{seen};
ghost use Rattle.run_queue.specs.Turns.{SameRun, fates_of};
ghost use Rattle.run_model.specs.Benches.{AtWorkers, BreaksBench, BreaksByFault, started_by};
ghost use Rattle.build_resume.specs.Benches.{HasSeats};
ghost use Rattle.run_model.specs.Build.{RanStarted};
ghost use Rattle.run_model.specs.Seats.{BreaksLast};
ghost use Rattle.build_resume.specs.Drive.{SaidByWorkers};
ghost use Rattle.run_workers.specs.Ended.{AllEnded, WasFaulty};

use outside_traits::{Bench, Disk, Sink};
use run_queue::RunState;
use run_workers::run_workers;
use std::alloc::Global;
use std::sync::Wait;
use std::thread::Threads;

/// Takes the last bench off.
pub(crate) fn take_last<B: Bench>(benches: &mut Vec<B>) -> B
    requires { 0 < length benches.old.items }
    ensures items { benches.old.items ≡ benches.new.items ++ result ∷ [] }
    ensures room { vec_len benches.new < vec_capacity benches.new }
    ensures capacity { vec_capacity benches.new ≡ vec_capacity benches.old }
{
    match benches.pop() {
        Some(bench) => bench,
        None => unreachable!(),
    }
}

/// Does the jobs of a run by workers on the first of these benches, at most so many, and leaves the others alone. Each worker has a seat of its
/// own, the first one seat 1. It returns when no worker finds more to do, and says whether memory was wanting to one.
fn with_at_most<D, B, W, R>(
    rt: &R,
    alloc: Global,
    state: RunState<D, W>,
    mut benches: Vec<B>,
    workers: usize,
) -> (RunState<D, W>, Vec<B>, bool)
where
    D: Disk + Drop + Send,
    B: Bench + Drop + Send,
    W: Sink + Drop + Send,
    R: Threads + Wait + Sync,
    requires few { workers ≤ 60 }
    requires reach { 3600 ≤ D.reach }
    requires none { state.tale ≡ [] }
    ensures same { SameRun state result.0 }
    ensures none { NoneRuns (fates_of result.0) }
    ensures seats { HasSeats (length benches.items) result.0.tale }
    ensures threads { HasSeats workers result.0.tale }
    ensures left { BreaksLast result.0.tale }
    ensures ended { AllEnded (seen D.story W.written state)
        (WasFaulty D.faults W.faults (seen D.story W.written state) (W.faults state.sink)) B.faults result.2
        result.0.tale (take workers benches.items) (take workers result.1.items) }
    ensures sink { KeepsCount W.faults state result.0 }
    ensures text { W.tells → PrintsOn W.written state result.0 }
    ensures stays { W.tells → KeepsFront W.written state result.0 }
    ensures room { vec_capacity result.1 ≡ vec_capacity benches }
    ensures broke { AtWorkers (λ seat old new. BreaksByFault result.0.tale seat (B.faults old) (B.faults new))
        benches.items result.1.items }
    ensures printed { W.tells → B.tells → state.sink_failed ≡ false → state.fault ≡ None
        → SaidByWorkers (λ b. (B.place b).runs) state.plan result.0.fault result.0.tale benches.items result.1.items
        (W.written state.sink) (W.written result.0.sink) }
    ensures run { D.tells → B.tells → (gives : Gives) → All (λ b. B.gives b ≡ gives) benches.items → (o : Opening)
        → o.gives ≡ gives → IsRun o (seen D.story W.written state)
        → IsRun o (seen D.story W.written result.0) × AtWorkers
        (λ seat old new. RanStarted gives state.plan result.0.tale seat (B.place old).runs (B.place new).runs)
        benches.items result.1.items }
    ensures steady { D.tells → B.tells → (gives : Gives) → All (λ b. B.gives b ≡ gives) benches.items → (o : Opening)
        → o.gives ≡ gives → IsRun o (seen D.story W.written state) → IsSteady state.fault → IsSteady result.0.fault }
    ensures alike { AtWorkers (λ seat old new. (B.gives new ≡ B.gives old) × (B.faults old ≤ B.faults new)) benches.items
        result.1.items }
{
    if benches.len() <= workers {
        if benches.is_empty() {
            return (state, benches, false);
        }
        let (state, benches, wanting) = run_workers(rt, alloc, state, benches);
        state.kept();
        return (state, benches, wanting);
    }
    let bench = take_last(&mut benches);
    let (state, mut benches, wanting) = with_at_most(rt, alloc, state, benches, workers);
    benches.push_reserved(bench);
    (state, benches, wanting)
}

/// Does the jobs of a run on these benches, each on a seat of its own, until no worker finds more to do: on as many of the first ones as the plan
/// has threads, or on all. It says whether memory was wanting to a worker.
pub(crate) fn with_workers<D, B, W, R>(
    rt: &R,
    alloc: Global,
    state: RunState<D, W>,
    benches: Vec<B>,
) -> (RunState<D, W>, Vec<B>, bool)
where
    D: Disk + Drop + Send,
    B: Bench + Drop + Send,
    W: Sink + Drop + Send,
    R: Threads + Wait + Sync,
    requires reach { 3600 ≤ D.reach }
    requires none { state.tale ≡ [] }
    ensures same { SameRun state result.0 }
    ensures none { NoneRuns (fates_of result.0) }
    ensures seats { started_by 0 result.0.tale ≡ [] }
    ensures wide { HasSeats (length benches.items) result.0.tale }
    ensures left { BreaksLast result.0.tale }

    // No worker has a seat above the number of threads, and each of the first so many benches had a worker, which ended only for a cause.
    ensures threads { HasSeats state.plan.threads result.0.tale }
    ensures ended { AllEnded (seen D.story W.written state)
        (WasFaulty D.faults W.faults (seen D.story W.written state) (W.faults state.sink)) B.faults result.2
        result.0.tale (take state.plan.threads benches.items) (take state.plan.threads result.1.items) }

    // The run stays the same, and what was kept of it is kept.
    ensures calm { BreaksBench 0 result.0.tale → ⊥ }
    ensures sink { KeepsCount W.faults state result.0 }
    ensures text { W.tells → PrintsOn W.written state result.0 }
    ensures stays { W.tells → KeepsFront W.written state result.0 }
    ensures room { vec_capacity result.1 ≡ vec_capacity benches }
    ensures broke { AtWorkers (λ seat old new. BreaksByFault result.0.tale seat (B.faults old) (B.faults new))
        benches.items result.1.items }
    ensures printed { W.tells → B.tells → state.sink_failed ≡ false → state.fault ≡ None
        → SaidByWorkers (λ b. (B.place b).runs) state.plan result.0.fault result.0.tale benches.items result.1.items
        (W.written state.sink) (W.written result.0.sink) }
    ensures run { D.tells → B.tells → (gives : Gives) → All (λ b. B.gives b ≡ gives) benches.items → (o : Opening)
        → o.gives ≡ gives → IsRun o (seen D.story W.written state)
        → IsRun o (seen D.story W.written result.0) × AtWorkers
        (λ seat old new. RanStarted gives state.plan result.0.tale seat (B.place old).runs (B.place new).runs)
        benches.items result.1.items }
    ensures steady { D.tells → B.tells → (gives : Gives) → All (λ b. B.gives b ≡ gives) benches.items → (o : Opening)
        → o.gives ≡ gives → IsRun o (seen D.story W.written state) → IsSteady state.fault → IsSteady result.0.fault }
    ensures alike { AtWorkers (λ seat old new. (B.gives new ≡ B.gives old) × (B.faults old ≤ B.faults new)) benches.items
        result.1.items }
{
    state.kept();
    let workers = state.plan().threads as usize;
    with_at_most(rt, alloc, state, benches, workers)
}
