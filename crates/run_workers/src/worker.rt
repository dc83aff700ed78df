// One worker of a run.
ghost use Rattle.std.specs.Prelude.{◌≡◌, ◌≤◌, ◌++◌, [], IfSome, List, None, Some, false, true};
ghost use Rattle.outside_traits.specs.Fault.{Counts, Rose};
ghost use Rattle.run_model.specs.Opening.{Opening};
ghost use Rattle.run_queue.specs.Keeps.{IsRun};
ghost use Rattle.run_queue.specs.Turns.{IsCleanJob, IsGivenBy};
ghost use Rattle.task_worker.specs.Jobs.{IsGiven};
ghost use Rattle.turn_lock.specs.Seats.{view_of, IsFree, IsSeatOf};
ghost use Rattle.run_workers.specs.Runs.{by_bench};
ghost use Rattle.run_workers.specs.Seats.{HasUnprinted, Holds, HoldsNone, IsSameSeat, MendAdds};
ghost use Rattle.run_workers.specs.Told.{logged_in};
ghost use Rattle.run_workers.specs.Ended.{Ended, HaltsIn, WasFaulty, by_memory};
ghost use Rattle.run_workers.specs.Worked.{BrokeOff, Closes, IsWorked, RanOnce, Worked};
ghost use Rattle.run_queue.specs.declared.restoring.Mending.{Mending as Turn};
ghost use Rattle.run_workers.specs.declared.shared.Told.{Told as Entry};

use crate::began::Began;
use crate::bell::Bell;
use crate::queue::{RunQueue, RunSeat, broke, claim, ended_turn, restore_turn};
use crate::shared::{Claimed, Closing};
use meta_model::Cut;
use outside_traits::{Bench, Disk, Sink};
use run_queue::{Claim, Mending};
use std::alloc::Global;
use std::sync::Wait;
use task_worker::{Given, Job, WorkFault, do_job};
use tree_model::Mem;

/// Why a worker, or a run, does no more.
#[derive(Clone, Copy, Debug, PartialEq, Eq)]
pub enum Halt {
    /// Nothing is left to do.
    Finished,
    /// Nothing new may begin.
    Stopped,
    /// Memory was wanting.
    Memory,
    /// The bench failed.
    Bench,
}

/// Takes turns until a job that is done, and gave this, is closed. Between them, and outside of the lock, the worker waits for the disk where a
/// turn asks for that; others take turns meanwhile.
fn close_done<K: Began, D: Disk, B: Bench, W: Sink, R: Wait>(
    rt: &R,
    alloc: Global,
    queue: &RunQueue<K, D, W>,
    seat: &mut RunSeat<K, D, W>,
    bench: &mut B,
    job: &Job,
    given: &mut Option<Given>,
) -> Option<Halt>
    requires reach { 3600 ≤ D.reach }
    requires queue { IsSeatOf queue.now seat.old }
    requires free { IsFree seat.old }
    requires holds { Holds job.now.task (view_of seat.old).number (view_of seat.old).own }
    requires given { IfSome given.old IsGiven }
    requires clean { D.tells → K.alike → (o : Opening) → o.gives ≡ K.gives → IsRun o K.first
        → IfSome given.old (IsGivenBy o.gives job.now) × IsCleanJob o K.first job.now }
    ensures queue { IsSeatOf queue.now seat.new }
    ensures free { IsFree seat.new }
    ensures same { IsSameSeat (view_of seat.old) (view_of seat.new) }
    ensures closes { Closes (view_of seat.old).number result (view_of seat.old).own (view_of seat.new).own }
    ensures ends { HaltsIn K.first (WasFaulty D.faults W.faults K.first K.faults) result
        (logged_in (view_of seat.new).seen) }
    ensures place { B.tells → B.place bench.new ≡ B.place bench.old }
    ensures gives { B.gives bench.new ≡ B.gives bench.old }
    ensures faults { B.faults bench.new ≡ B.faults bench.old }
    ensures bench { by_bench result ≡ false }
{
    let mut synced = false;
    for _ in rt.forever() {
        match ended_turn(rt, alloc, queue, seat, job, given, synced) {
            Ok(Closing::More) => synced = false,
            Ok(Closing::Wait) => synced = bench.wait_synced(),
            Ok(Closing::Closed) => return None,
            Ok(Closing::Stopped) => return Some(Halt::Stopped),
            Err(Mem) => return Some(Halt::Memory),
        }
    }
    unreachable!()
}

/// Does a job that was claimed, and says how it came to an end. Where its start hadn't been printed, since a fault is kept, its script
/// doesn't run.
fn do_claimed<K: Began, D: Disk, B: Bench, W: Sink, R: Wait>(
    rt: &R,
    alloc: Global,
    queue: &RunQueue<K, D, W>,
    seat: &mut RunSeat<K, D, W>,
    bench: &mut B,
    job: Job,
    printed: bool,
) -> Option<Halt>
    requires reach { 3600 ≤ D.reach }
    requires queue { IsSeatOf queue.now seat.old }
    requires free { IsFree seat.old }
    requires holds { Holds job.task (view_of seat.old).number (view_of seat.old).own }
    requires unprinted { printed ≡ false → HasUnprinted (view_of seat.old).own }
    requires faulty { printed ≡ false
        → WasFaulty D.faults W.faults K.first K.faults (logged_in (view_of seat.old).seen) }
    requires gives { K.alike → B.tells × (B.gives bench.old ≡ K.gives) }
    requires clean { D.tells → K.alike → (o : Opening) → o.gives ≡ K.gives → IsRun o K.first
        → IsCleanJob o K.first job }
    ensures queue { IsSeatOf queue.now seat.new }
    ensures free { IsFree seat.new }
    ensures same { IsSameSeat (view_of seat.old) (view_of seat.new) }
    ensures closes { Closes (view_of seat.old).number result (view_of seat.old).own (view_of seat.new).own }
    ensures ends { HaltsIn K.first (WasFaulty D.faults W.faults K.first K.faults) result
        (logged_in (view_of seat.new).seen) }
    ensures gives { B.gives bench.new ≡ B.gives bench.old }
    ensures ran { B.tells → RanOnce printed (BrokeOff job.task result (logged_in (view_of seat.new).own))
        (job.script, job.layout) (B.place bench.old).runs (B.place bench.new).runs }
    ensures cause { Counts (B.faults bench.old) (B.faults bench.new) (by_bench result) }
{
    if !printed {
        broke(rt, alloc, queue, seat, job, Cut::Fault);
        return Some(Halt::Stopped);
    }
    match do_job(alloc, bench, &job) {
        Ok(given) => {
            let mut given = Some(given);
            close_done(rt, alloc, queue, seat, bench, &job, &mut given)
        }
        Err(WorkFault::Bench) => {
            broke(rt, alloc, queue, seat, job, Cut::Bench);
            Some(Halt::Bench)
        }
        Err(WorkFault::Memory) => {
            broke(rt, alloc, queue, seat, job, Cut::Memory);
            Some(Halt::Memory)
        }
    }
}

/// Takes turns until a task that is to be restored is so, or a fault is kept. Between them, and outside of the lock, the worker waits for the disk where a turn
/// asks for that; others take turns meanwhile.
fn restore<K: Began, D: Disk, B: Bench, W: Sink, R: Wait>(
    rt: &R,
    alloc: Global,
    queue: &RunQueue<K, D, W>,
    seat: &mut RunSeat<K, D, W>,
    bench: &mut B,
    task: u32,
) -> Option<Halt>
    requires reach { 3600 ≤ D.reach }
    requires queue { IsSeatOf queue.now seat.old }
    requires free { IsFree seat.old }
    requires none { HoldsNone (view_of seat.old).number (view_of seat.old).own }
    ensures queue { IsSeatOf queue.now seat.new }
    ensures free { IsFree seat.new }
    ensures same { IsSameSeat (view_of seat.old) (view_of seat.new) }
    ensures adds { (last : Turn) × (added : List Entry) × MendAdds (view_of seat.old).number task last added
        × ((view_of seat.new).own ≡ (view_of seat.old).own ++ added) }
    ensures ends { HaltsIn K.first (WasFaulty D.faults W.faults K.first K.faults) result
        (logged_in (view_of seat.new).seen) }
    ensures place { B.tells → B.place bench.new ≡ B.place bench.old }
    ensures gives { B.gives bench.new ≡ B.gives bench.old }
    ensures faults { B.faults bench.new ≡ B.faults bench.old }
    ensures bench { by_bench result ≡ false }
{
    let mut synced = false;
    for _ in rt.forever() {
        match restore_turn(rt, alloc, queue, seat, task, synced) {
            Mending::More => synced = false,
            Mending::Wait => synced = bench.wait_synced(),
            Mending::Closed => return None,
            Mending::Stopped => return Some(Halt::Stopped),
        }
    }
    unreachable!()
}

/// One turn of a worker, and the job that it was handed, if it was. `None`: there may be more to do. Where there is nothing to do yet it sleeps
/// until another one has rung. Whoever gets a job, or a task to restore, rings, since there may be more; who brings one to its end claims again itself, so it
/// need not ring.
fn turn<K: Began, D: Disk, B: Bench, W: Sink, R: Wait>(
    rt: &R,
    alloc: Global,
    queue: &RunQueue<K, D, W>,
    bell: &Bell,
    seat: &mut RunSeat<K, D, W>,
    bench: &mut B,
) -> Option<Halt>
    requires reach { 3600 ≤ D.reach }
    requires queue { IsSeatOf queue.now seat.old }
    requires free { IsFree seat.old }
    requires none { HoldsNone (view_of seat.old).number (view_of seat.old).own }
    requires gives { K.alike → B.tells × (B.gives bench.old ≡ K.gives) }
    ensures queue { IsSeatOf queue.now seat.new }
    ensures free { IsFree seat.new }
    ensures same { IsSameSeat (view_of seat.old) (view_of seat.new) }
    ensures gives { B.gives bench.new ≡ B.gives bench.old }
    ensures worked { (old : _) → Worked D.tells B.tells K.alike B.place B.gives B.faults K.first K.gives None
        (view_of seat.old).number (view_of seat.old).own old bench.old
        → Worked D.tells B.tells K.alike B.place B.gives B.faults K.first K.gives result (view_of seat.old).number
        (view_of seat.new).own old bench.new }
    ensures ends { HaltsIn K.first (WasFaulty D.faults W.faults K.first K.faults) result
        (logged_in (view_of seat.new).seen) }
{
    let heard = bell.heard(rt);
    match claim(rt, alloc, queue, seat) {
        Ok(Claimed { claim, printed }) => match claim {
            Claim::Run(job) => {
                bell.ring(rt);
                do_claimed(rt, alloc, queue, seat, bench, job, printed)
            }
            Claim::Settled(_) => None,
            Claim::Restore(task) => {
                bell.ring(rt);
                restore(rt, alloc, queue, seat, bench, task)
            }
            Claim::Wait => {
                bell.sleep(rt, heard);
                None
            }
            Claim::Finished => Some(Halt::Finished),
            Claim::Stopped => Some(Halt::Stopped),
        },
        Err(Mem) => Some(Halt::Memory),
    }
}

/// Whether a worker halts since memory was wanting.
fn wants_memory(halt: Halt) -> bool
    ensures { result ≡ by_memory halt }
{
    match halt {
        Halt::Memory => true,
        Halt::Finished | Halt::Stopped | Halt::Bench => false,
    }
}

/// Takes turns until there is nothing more to do for this worker, and then wakes all others: what ends it may end them. It says whether memory
/// was wanting to it.
pub(crate) fn work<K: Began, D: Disk, B: Bench, W: Sink, R: Wait>(
    rt: &R,
    alloc: Global,
    queue: &RunQueue<K, D, W>,
    bell: &Bell,
    mut seat: RunSeat<K, D, W>,
    mut bench: B,
) -> (RunSeat<K, D, W>, B, bool)
    requires reach { 3600 ≤ D.reach }
    requires queue { IsSeatOf queue.now seat }
    requires free { IsFree seat }
    requires fresh { (view_of seat).own ≡ [] }
    requires gives { K.alike → B.tells × (B.gives bench ≡ K.gives) }
    ensures queue { IsSeatOf queue.entry.now result.0 }
    ensures free { IsFree result.0 }
    ensures same { IsSameSeat (view_of seat) (view_of result.0) }
    ensures worked { IsWorked D.tells B.tells K.alike B.place B.gives B.faults K.first K.gives (view_of seat).number
        (view_of result.0).own bench result.1 }
    ensures ended { Ended K.first (WasFaulty D.faults W.faults K.first K.faults) result.2
        (Rose (B.faults bench) (B.faults result.1)) (logged_in (view_of result.0).seen) }
{
    for _ in rt.forever() {
        if let Some(halt) = turn(rt, alloc, queue, bell, &mut seat, &mut bench) {
            bell.ring_for_all(rt);
            return (seat, bench, wants_memory(halt));
        }
    }
    unreachable!()
}
