// The run that its workers share.
ghost use Rattle.std.specs.Prelude.{◌≡◌, ◌<◌, ◌≤◌, [], List, IfErr, IfOk, IfSome, Ok};
ghost use Rattle.tale_model.specs.Fates.{NoneRuns};
ghost use Rattle.run_model.specs.Opening.{Opening};
ghost use Rattle.run_queue.specs.Keeps.{IsRun};
ghost use Rattle.run_queue.specs.Seen.{seen};
ghost use Rattle.run_queue.specs.Turns.{HandsOn, IsCleanJob, IsGivenBy, fates_of};
ghost use Rattle.task_worker.specs.Jobs.{IsGiven};
ghost use Rattle.turn_lock.specs.Seats.{view_of, seats_of, HasAllNumbers, IsFree, IsSeatOf};
ghost use Rattle.turn_lock.specs.Views.{first_view, records_of};
ghost use Rattle.run_workers.specs.Seats.{BreakAdds, ClaimAdds, EndAdds, HandsClean, HandsScript, HasUnprinted, Holds, HoldsNone, MendAdds, NoneHold, Turned};
ghost use Rattle.run_workers.specs.Left.{IsLeft};
ghost use Rattle.run_workers.specs.Ended.{ClaimSays, WasFaulty};
ghost use Rattle.run_workers.specs.Told.{logged_in};
ghost use Rattle.run_workers.specs.declared.shared.Told.{Told as Entry};

use crate::began::Began;
use crate::shared::{Claimed, Closing, Shared};
use meta_model::Cut;
use outside_traits::{Disk, Sink};
use run_core::seat_laws;
use run_queue::{Mending, RunState};
use std::alloc::Global;
use std::sync::Wait;
use task_worker::{Given, Job};
use tree_model::Mem;
use turn_lock::{LockRefused, Seat, TurnLock};

/// A run whose state its seats take turns with.
pub type RunQueue<K, D, W> = TurnLock<Shared<K, D, W>>;

/// A seat at a run.
pub type RunSeat<K, D, W> = Seat<Shared<K, D, W>>;

/// A run over a state that has begun, for 1 to 64 seats, and its first seat. Want of memory gives the state back.
pub(crate) fn start<K: Began, D: Disk, W: Sink>(
    alloc: Global,
    state: RunState<D, W>,
    seats: u32,
) -> Result<(RunQueue<K, D, W>, RunSeat<K, D, W>), RunState<D, W>>
    requires seats { (0 < seats) × (seats ≤ 64) }
    requires none { state.tale ≡ [] }
    requires first { seen D.story W.written state ≡ K.first }
    requires faults { W.faults state.sink ≡ K.faults }
    ensures queue { IfOk result (λ r. IsSeatOf r.0 r.1 × (seats_of r.0 ≡ seats)) }
    ensures seat { IfOk result (λ r. view_of r.1 ≡ first_view tt seats) }
    ensures free { IfOk result (λ r. IsFree r.1) }
    ensures refused { IfErr result (λ back. back ≡ state) }
{
    match TurnLock::new(alloc, Shared::new(state), seats) {
        Ok((lock, seat)) => Ok((lock, seat)),
        Err(LockRefused { story }) => Err(story.into_state()),
    }
}

/// One turn: what the seat is to do next.
pub(crate) fn claim<K: Began, D: Disk, W: Sink, R: Wait>(
    rt: &R,
    alloc: Global,
    queue: &RunQueue<K, D, W>,
    seat: &mut RunSeat<K, D, W>,
) -> Result<Claimed, Mem>
    requires reach { 3600 ≤ D.reach }
    requires queue { IsSeatOf queue.now seat.old }
    requires free { IsFree seat.old }
    requires none { HoldsNone (view_of seat.old).number (view_of seat.old).own }
    ensures queue { IsSeatOf queue.now seat.new }
    ensures free { IsFree seat.new }
    ensures claims { (added : List Entry) × ClaimAdds (view_of seat.old).number result added
        × Turned (view_of seat.old) (view_of seat.new) added }
    ensures says { ClaimSays K.first (logged_in (view_of seat.new).seen)
        (WasFaulty D.faults W.faults K.first K.faults (logged_in (view_of seat.new).seen)) result }
    ensures script { HandsScript K.first.plan result }
    ensures clean { D.tells → K.alike → (o : Opening) → o.gives ≡ K.gives → IsRun o K.first
        → HandsClean o K.first result }
{
    let mut story = queue.begin(rt, seat);
    story.kept();
    seat_laws();
    let claim = story.claim(alloc, seat.number());
    story.kept();
    queue.end(seat, story);
    claim
}

/// One turn: the seat's job is done, and gave this; nothing, where the state has it from a turn before. A turn behind which more is left marks
/// nothing. `synced` says whether the system has synced since a turn that came to `Wait`.
pub(crate) fn ended_turn<K: Began, D: Disk, W: Sink, R: Wait>(
    rt: &R,
    alloc: Global,
    queue: &RunQueue<K, D, W>,
    seat: &mut RunSeat<K, D, W>,
    job: &Job,
    given: &mut Option<Given>,
    synced: bool,
) -> Result<Closing, Mem>
    requires reach { 3600 ≤ D.reach }
    requires queue { IsSeatOf queue.now seat.old }
    requires free { IsFree seat.old }
    requires holds { Holds job.now.task (view_of seat.old).number (view_of seat.old).own }
    requires given { IfSome given.old IsGiven }
    requires clean { D.tells → K.alike → (o : Opening) → o.gives ≡ K.gives → IsRun o K.first
        → IfSome given.old (IsGivenBy o.gives job.now) × IsCleanJob o K.first job.now }
    ensures queue { IsSeatOf queue.now seat.new }
    ensures free { IsFree seat.new }
    ensures ends { (added : List Entry) × EndAdds (view_of seat.old).number job.now.task given.old result added
        × Turned (view_of seat.old) (view_of seat.new) added }
    ensures handed { HandsOn job.now.task given.old given.new }
    ensures stops { result ≡ Ok Closing.Stopped
        → WasFaulty D.faults W.faults K.first K.faults (logged_in (view_of seat.new).seen) }
{
    let mut story = queue.begin(rt, seat);
    story.kept();
    seat_laws();
    let ended = story.ended_turn(alloc, seat.number(), job, given, synced);
    story.kept();
    queue.end(seat, story);
    ended
}

/// One turn on a task that the seat restores. A turn behind which more is left marks nothing. `synced` says whether the system has synced since a
/// turn that came to `Wait`.
pub(crate) fn restore_turn<K: Began, D: Disk, W: Sink, R: Wait>(
    rt: &R,
    alloc: Global,
    queue: &RunQueue<K, D, W>,
    seat: &mut RunSeat<K, D, W>,
    task: u32,
    synced: bool,
) -> Mending
    requires reach { 3600 ≤ D.reach }
    requires queue { IsSeatOf queue.now seat.old }
    requires free { IsFree seat.old }
    requires none { HoldsNone (view_of seat.old).number (view_of seat.old).own }
    ensures queue { IsSeatOf queue.now seat.new }
    ensures free { IsFree seat.new }
    ensures mends { (added : List Entry) × MendAdds (view_of seat.old).number task result added
        × Turned (view_of seat.old) (view_of seat.new) added }
    ensures stops { result ≡ Mending.Stopped
        → WasFaulty D.faults W.faults K.first K.faults (logged_in (view_of seat.new).seen) }
{
    let mut story = queue.begin(rt, seat);
    story.kept();
    seat_laws();
    let mending = story.restore_turn(alloc, seat.number(), task, synced);
    story.kept();
    queue.end(seat, story);
    mending
}

/// One turn: the seat's job couldn't be done. It is to break by a fault only where an entry of the seat hadn't been printed.
pub(crate) fn broke<K: Began, D: Disk, W: Sink, R: Wait>(
    rt: &R,
    alloc: Global,
    queue: &RunQueue<K, D, W>,
    seat: &mut RunSeat<K, D, W>,
    job: Job,
    cut: Cut,
)
    requires queue { IsSeatOf queue.now seat.old }
    requires free { IsFree seat.old }
    requires holds { Holds job.task (view_of seat.old).number (view_of seat.old).own }
    requires unprinted { cut ≡ Cut.Fault → HasUnprinted (view_of seat.old).own }
    ensures queue { IsSeatOf queue.now seat.new }
    ensures free { IsFree seat.new }
    ensures breaks { (added : List Entry) × BreakAdds (view_of seat.old).number job.task cut added
        × Turned (view_of seat.old) (view_of seat.new) added }
{
    let mut story = queue.begin(rt, seat);
    story.kept();
    seat_laws();
    story.broke(alloc, seat.number(), job, cut);
    queue.end(seat, story);
}

/// The state of the run, once the seat has the numbers of all seats. Where no record has a job in hand, no task runs.
pub(crate) fn close<K: Began, D: Disk, W: Sink>(
    queue: RunQueue<K, D, W>,
    seat: RunSeat<K, D, W>,
) -> RunState<D, W>
    requires queue { IsSeatOf queue seat }
    requires free { IsFree seat }
    requires all { HasAllNumbers seat (seats_of queue) }
    ensures left { IsLeft D.tells W.tells K.alike D.story W.written W.faults K.first K.faults K.gives
        (records_of (view_of seat)) result }
    ensures seen { logged_in (view_of seat).seen ≡ result.tale }
    ensures none { NoneHold (records_of (view_of seat)) → NoneRuns (fates_of result) }
{
    let story = queue.close(seat);
    story.kept();
    seat_laws();
    story.into_state()
}
