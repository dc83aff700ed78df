// The workers of a run, each on its bench.
ghost use Rattle.std.specs.Prelude.{◌≡◌, ◌≤◌, ◌<◌, ◌+◌, ◌++◌, ◌||◌, ℕ, [], All, List, None, Some, length, take, vec_len, vec_capacity};
ghost use Rattle.std.specs.List.{slice_get};
ghost use Rattle.std.specs.Thread.{IsSync};
ghost use Rattle.outside_traits.specs.Fault.{Rose};
ghost use Rattle.run_model.specs.Report.{tale_text};
ghost use Rattle.tale_model.specs.Fates.{NoneRuns};
ghost use Rattle.run_model.specs.Opening.{Opening};
ghost use Rattle.run_queue.specs.Keeps.{IsFront, IsRun, IsSteady, KeepsCount, KeepsFront, Prints};
ghost use Rattle.run_queue.specs.Seen.{seen};
ghost use Rattle.run_queue.specs.Turns.{SameRun, fates_of};
ghost use Rattle.turn_lock.specs.Seats.{view_of, IsFree, IsSeatOf};
ghost use Rattle.run_workers.specs.Worked.{AllWorked, Breaks, HasBegun, IsJoined, RanPrinted};
ghost use Rattle.run_model.specs.Seats.{RanStarted, own};
ghost use Rattle.run_workers.specs.Left.{AllDid};
ghost use Rattle.run_workers.specs.Ended.{AllEnded, WasFaulty};
ghost use Rattle.run_workers.specs.Told.{logged_in};

use crate::began::Began;
use crate::bell::Bell;
use crate::queue::{RunQueue, RunSeat, close, start};
use crate::worker::work;
use outside_traits::{Bench, Disk, Sink};
use run_core::seat_laws;
use run_queue::RunState;
use std::alloc::Global;
use std::marker::Brand;
use std::sync::Wait;
use std::thread::{Threads, join};

/// Whether memory was wanting to one of two.
fn some_wants(one: bool, other: bool) -> bool
    ensures { result ≡ (one || other) }
{
    one || other
}

/// Each bench has a worker, on a thread of its own but for one of them, with a seat that is split off this one. Then the seat takes the
/// others in. The seat of the bench of number k, from 0, is k + 1. It says whether memory was wanting to one of them.
fn spread<K, D, B, W, R>(
    rt: &R,
    alloc: Global,
    queue: &RunQueue<K, D, W>,
    bell: &Bell,
    mut seat: RunSeat<K, D, W>,
    mut benches: Vec<B>,
) -> (RunSeat<K, D, W>, Vec<B>, bool)
where
    K: Began + Send + Sync,
    D: Disk + Drop + Send,
    B: Bench + Drop + Send,
    W: Sink + Drop + Send,
    R: Threads + Wait + Sync,
    requires reach { 3600 ≤ D.reach }
    requires queue { IsSeatOf queue.now seat }
    requires free { IsFree seat }
    requires begins { HasBegun (vec_len benches) (view_of seat) }
    requires gives { K.alike → B.tells × All (λ b. B.gives b ≡ K.gives) benches.items }
    ensures queue { IsSeatOf queue.entry.now result.0 }
    ensures free { IsFree result.0 }
    ensures joined { IsJoined (view_of result.0) }
    ensures worked { AllWorked D.tells B.tells K.alike B.place B.gives B.faults K.first K.gives 1 benches.items
        result.1.items (view_of result.0).others }
    ensures ended { AllEnded K.first (WasFaulty D.faults W.faults K.first K.faults) B.faults result.2
        (logged_in (view_of result.0).seen) benches.items result.1.items }
    ensures many { vec_len result.1 ≡ vec_len benches }
    ensures capacity { vec_capacity result.1 ≡ vec_capacity benches }
{
    let Some(bench) = benches.pop() else {
        return (seat, benches, false);
    };
    let other = queue.split(&mut seat);
    if benches.is_empty() {
        let (other, bench, wanting) = work(rt, alloc, queue, bell, other, bench);
        queue.join(&mut seat, other);
        benches.push_reserved(bench);
        return (seat, benches, wanting);
    }
    let ((mut seat, mut benches, others_want), (other, bench, wanting)) = join(
        rt,
        move || -> (RunSeat<K, D, W>, Vec<B>, bool)
            requires sync { IsSync R.row }
            requires reach { 3600 ≤ D.reach }
            requires queue { IsSeatOf queue.now seat }
            requires free { IsFree seat }
            requires begins { HasBegun (vec_len benches) (view_of seat) }
            requires gives { K.alike → B.tells × All (λ b. B.gives b ≡ K.gives) benches.items }
            ensures queue { IsSeatOf queue.entry.now result.0 }
            ensures free { IsFree result.0 }
            ensures joined { IsJoined (view_of result.0) }
            ensures worked { AllWorked D.tells B.tells K.alike B.place B.gives B.faults K.first K.gives 1
                benches.items result.1.items (view_of result.0).others }
            ensures ended { AllEnded K.first (WasFaulty D.faults W.faults K.first K.faults) B.faults result.2
                (logged_in (view_of result.0).seen) benches.items result.1.items }
            ensures many { vec_len result.1 ≡ vec_len benches }
            ensures capacity { vec_capacity result.1 ≡ vec_capacity benches }
        { spread(rt, alloc, queue, bell, seat, benches) },
        move || work(rt, alloc, queue, bell, other, bench),
    );
    queue.join(&mut seat, other);
    benches.push_reserved(bench);
    (seat, benches, some_wants(others_want, wanting))
}

/// The same over a state, where contracts know by K how the run began. Want of memory for the lock leaves all as it is, and is told.
fn run_shared<K, D, B, W, R>(
    rt: &R,
    alloc: Global,
    state: RunState<D, W>,
    benches: Vec<B>,
) -> (RunState<D, W>, Vec<B>, bool)
where
    K: Began + Send + Sync,
    D: Disk + Drop + Send,
    B: Bench + Drop + Send,
    W: Sink + Drop + Send,
    R: Threads + Wait + Sync,
    requires reach { 3600 ≤ D.reach }
    requires few { vec_len benches ≤ 60 }
    requires none { state.tale ≡ [] }
    requires first { seen D.story W.written state ≡ K.first }
    requires faults { W.faults state.sink ≡ K.faults }
    requires gives { K.alike → B.tells × All (λ b. B.gives b ≡ K.gives) benches.items }
    ensures did { AllDid D.tells B.tells W.tells K.alike D.story B.place B.gives B.faults W.written W.faults K.first
        K.faults K.gives benches.items result.1.items result.0 }
    ensures ended { AllEnded K.first (WasFaulty D.faults W.faults K.first K.faults) B.faults result.2 result.0.tale
        benches.items result.1.items }
    ensures capacity { vec_capacity result.1 ≡ vec_capacity benches }
{
    match start::<K, D, W>(alloc, state, benches.len() as u32 + 1) {
        Ok((queue, seat)) => {
            let bell = Bell::new();
            let (seat, benches, wanting) = spread(rt, alloc, &queue, &bell, seat, benches);
            (close(queue, seat), benches, wanting)
        }
        Err(state) => {
            seat_laws();
            (state, benches, true)
        }
    }
}

/// Does the jobs of a run that has begun, by as many workers as there are benches, until nothing more may be done by them. The worker on the
/// bench of number k, from 0, has the seat k + 1. The benches come back in their order, and with them whether memory was wanting to a worker, or
/// for the lock, which leaves all as it is.
///
/// A worker returns where nothing is left to do, or nothing new may begin, and where memory was wanting or its bench failed; then it marks
/// that the task in its hand broke, and nothing more. The others go on. So whoever calls this finishes what is left by itself.
pub fn run_workers<D, B, W, R>(
    rt: &R,
    alloc: Global,
    state: RunState<D, W>,
    benches: Vec<B>,
) -> (RunState<D, W>, Vec<B>, bool)
where
    D: Disk + Drop + Send,
    B: Bench + Drop + Send,
    W: Sink + Drop + Send,
    R: Threads + Wait + Sync,
    requires reach { 3600 ≤ D.reach }
    requires few { (0 < vec_len benches) × (vec_len benches ≤ 60) }
    requires none { state.tale ≡ [] }

    // The run stays the same, and no task runs.
    ensures same { SameRun state result.0 }
    ensures none { NoneRuns (fates_of result.0) }

    // What was kept of the run, over an opening by which scripts give what they give on all benches, is kept.
    ensures run { D.tells → B.tells → (o : Opening) → All (λ b. B.gives b ≡ o.gives) benches.items
        → IsRun o (seen D.story W.written state) → IsRun o (seen D.story W.written result.0) }
    ensures steady { D.tells → B.tells → (o : Opening) → All (λ b. B.gives b ≡ o.gives) benches.items
        → IsRun o (seen D.story W.written state) → IsSteady state.fault → IsSteady result.0.fault }
    ensures sink { KeepsCount W.faults state result.0 }
    ensures text { W.tells → (base : List ℕ) → Prints base (W.written state.sink)
        (tale_text state.plan.tasks state.tale) state.sink_failed
        → Prints base (W.written result.0.sink) (tale_text result.0.plan.tasks result.0.tale) result.0.sink_failed }
    ensures stays { W.tells → KeepsFront W.written state result.0 }

    // Each entry was marked by the seat of a bench.
    ensures seats { All (λ e. (0 < e.seat) × (e.seat ≤ length benches.items)) result.0.tale }

    // The benches come back in their order, and give what they gave. No count of faults falls.
    ensures benches { length result.1.items ≡ length benches.items }
    ensures capacity { vec_capacity result.1 ≡ vec_capacity benches }
    ensures gives { (k : ℕ) (old new : _) → slice_get benches.items k ≡ Some old
        → slice_get result.1.items k ≡ Some new → (B.gives new ≡ B.gives old) × (B.faults old ≤ B.faults new) }

    // Only the last entry of a seat says that a task broke, and that its bench failed it says only where that bench's count rose.
    ensures breaks { (k : ℕ) (old new : _) → slice_get benches.items k ≡ Some old
        → slice_get result.1.items k ≡ Some new → Breaks (Unit {0}) (Rose (B.faults old) (B.faults new))
        (own (k + 1) result.0.tale) }

    // Each bench had a worker, which ended only for a cause.
    ensures ended { AllEnded (seen D.story W.written state)
        (WasFaulty D.faults W.faults (seen D.story W.written state) (W.faults state.sink)) B.faults result.2
        result.0.tale benches.items result.1.items }

    // Each bench ran the tasks that its seat started, each over the clean outputs of what it needs. Only the last one may have no run, where
    // the last entry of its seat is that it broke off.
    ensures ran { D.tells → B.tells → (o : Opening) → All (λ b. B.gives b ≡ o.gives) benches.items
        → IsRun o (seen D.story W.written state) → (k : ℕ) (old new : _) → slice_get benches.items k ≡ Some old
        → slice_get result.1.items k ≡ Some new → RanStarted o.gives state.plan (own (k + 1) result.0.tale)
        (B.place old).runs (B.place new).runs }

    // The lines of some front of the tale, of all of it where no fault is kept, stand whole behind what was written before, and each bench ran
    // the scripts of just those tasks that its seat started in that front. Only the last of these may have no run, where the last entry of its
    // seat in the whole tale is that it broke off.
    ensures printed { (front : ℕ) × (result.0.fault ≡ None → front ≡ length result.0.tale)
        × (W.tells → (base : List ℕ) → Prints base (W.written state.sink) (tale_text state.plan.tasks state.tale)
        state.sink_failed → IsFront (base ++ tale_text result.0.plan.tasks (take front result.0.tale))
        (W.written result.0.sink)) × ((k : ℕ) (old new : _) → slice_get benches.items k ≡ Some old
        → slice_get result.1.items k ≡ Some new → B.tells
        → RanPrinted state.plan (own (k + 1) result.0.tale) (own (k + 1) (take front result.0.tale))
        (B.place old).runs (B.place new).runs) }
{
    run_shared::<Brand, D, B, W, R>(rt, alloc, state, benches)
}
