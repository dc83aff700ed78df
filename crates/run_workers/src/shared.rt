// The state that seats hand on.
ghost use Rattle.std.specs.Prelude.{◌≡◌, ◌≤◌, [], IfSome, IsSome, List, None, Ok, false, length, true};
ghost use Rattle.meta_model.specs.declared.event.Event.TheVariants as events;
ghost use Rattle.tale_model.specs.Fates.{IsFree};
ghost use Rattle.tale_model.specs.History.{EachAfter};
ghost use Rattle.run_core.specs.History.{IsOrderly};
ghost use Rattle.run_model.specs.Opening.{Opening};
ghost use Rattle.run_queue.specs.Keeps.{IsRun, IsState};
ghost use Rattle.run_queue.specs.Seen.{seen};
ghost use Rattle.run_queue.specs.Turns.{HandsOn, IsCleanJob, IsGivenBy, RunsUnder, fates_of};
ghost use Rattle.task_worker.specs.Jobs.{IsGiven};
ghost use Rattle.run_workers.specs.Seats.{Adds, BreakAdds, ClaimAdds, EndAdds, HandsClean, HandsScript, HeardOn, MendAdds, closing_as, tale_of};
ghost use Rattle.run_workers.specs.Since.{Kept};
ghost use Rattle.run_workers.specs.Ended.{ClaimSays};
ghost use Rattle.run_workers.specs.declared.shared.Told.{Told as Entry};

use crate::began::Began;
use meta_model::{Cut, Logged};
use outside_traits::{Disk, Sink};
use run_queue::{Claim, Ending, Mending, RunState};
use std::alloc::Global;
use std::marker::{Model, PhantomData};
use task_worker::{Given, Job};
use tree_model::Mem;
use turn_lock::Story;

/// An entry of the tale as seats hand it on. No value of it is made.
pub struct Told {
    /// The entry.
    pub logged: Logged,
    /// Whether its line and all lines before it had been printed behind the turn that marked it.
    pub printed: bool,
}

/// A claim, as the queue answers it.
#[derive(Debug, Drop)]
pub struct Claimed {
    /// What the seat is told to do.
    pub claim: Claim,
    /// Whether all that the run marked so far had been printed behind this turn. Where a job comes without, its script is not to run.
    pub printed: bool,
}

/// What a turn of a job that is done came to, as the queue answers it.
#[derive(Clone, Copy, Debug, PartialEq, Eq)]
pub enum Closing {
    /// More is left: another turn is wanted.
    More,
    /// More is left: another turn is wanted, once the system has synced what the disk stands on, begun behind this turn (`Bench::wait_synced`).
    Wait,
    /// The job is closed, and no fault is kept.
    Closed,
    /// The job is closed, and a fault is kept.
    Stopped,
}

/// The state of a run, as seats hand it on.
#[derive(Drop)]
pub struct Shared<K: Began, D: Disk, W: Sink> {
    state: RunState<D, W>,
    /// How many entries of the tale had been printed behind the last turn behind which no fault was kept.
    printed: u64,
    /// Whether that is all of them, and no fault is kept.
    whole: bool,
    of: PhantomData<K>,
}

impl<K: Began, D: Disk, W: Sink> Model for Shared<K, D, W> {
    ghost use Rattle.run_workers.specs.Since.{Kept, SharedView};

    ghost Value = { SharedView D W };

    ghost view = { λ s. record { state = s.state; printed = s.printed; whole = s.whole } };

    ghost invariant = { λ s. Kept D.tells W.tells K.alike D.story W.written W.faults K.first K.faults K.gives
        (record { state = s.state; printed = s.printed; whole = s.whole }) };
}

impl<K: Began, D: Disk, W: Sink> Story for Shared<K, D, W> {
    type Name = ();

    type Entry = Told;

    ghost use Rattle.run_workers.specs.Seats.{tale_of};

    ghost name = { λ s. tt };

    ghost tale = { λ s. tale_of s };

    ghost author = { λ e. e.logged.seat };
}

/// How much of a tale had been printed behind a turn, and whether that is all of it and no fault is kept.
fn heard_on<D: Disk, W: Sink>(state: &RunState<D, W>, printed: u64, whole: bool) -> (u64, bool)
    ensures { HeardOn state.now.fault (length state.now.tale) printed whole result.0 result.1 }
{
    if !whole || state.has_fault() {
        return (printed, false);
    }
    (state.told() as u64, true)
}

/// What a turn came to, by whether a fault is kept behind it.
fn answered(ended: Result<Ending, Mem>, faulty: bool) -> Result<Closing, Mem>
    ensures { result ≡ closing_as ended faulty }
{
    match ended {
        Ok(Ending::More) => Ok(Closing::More),
        Ok(Ending::Wait) => Ok(Closing::Wait),
        Ok(Ending::Closed) => {
            if faulty {
                Ok(Closing::Stopped)
            } else {
                Ok(Closing::Closed)
            }
        }
        Err(Mem) => Err(Mem),
    }
}

impl<K: Began, D: Disk, W: Sink> Shared<K, D, W> {
    /// A run that begins.
    pub(crate) fn new(state: RunState<D, W>) -> Shared<K, D, W>
        requires none { state.tale ≡ [] }
        requires first { seen D.story W.written state ≡ K.first }
        requires faults { W.faults state.sink ≡ K.faults }
        ensures state { result.state ≡ state }
        ensures tale { tale_of result ≡ [] }
    {
        let whole = !state.has_fault();
        Shared {
            state,
            printed: 0,
            whole,
            of: PhantomData,
        }
    }

    /// What the state has of the run as it began, and that its tale is orderly.
    pub(crate) fn kept(&self)
        ensures since { Kept D.tells W.tells K.alike D.story W.written W.faults K.first K.faults K.gives self.now }
        ensures orderly { EachAfter (IsOrderly self.now.state.plan.tasks) self.now.state.tale }
        ensures state { IsState (D.faults self.now.state.store.disk) self.now.state }
    {
        self.state.kept();
    }

    /// A claim on the state.
    pub(crate) fn claim(&mut self, alloc: Global, number: u32) -> Result<Claimed, Mem>
        requires reach { 3600 ≤ D.reach }
        requires free { IsFree (fates_of self.old.state) number }
        ensures adds { (added : List Entry) × Adds number (tale_of self.old) (tale_of self.new) added
            × ClaimAdds number result added }
        ensures says { ClaimSays K.first self.new.state.tale (IsSome self.new.state.fault) result }
        ensures script { HandsScript K.first.plan result }
        ensures clean { D.tells → K.alike → (o : Opening) → o.gives ≡ K.gives → IsRun o K.first
            → HandsClean o K.first result }
    {
        let claim = self.state.claim(alloc, number);
        self.state.kept();
        let (printed, whole) = heard_on(&self.state, self.printed, self.whole);
        self.printed = printed;
        self.whole = whole;
        Ok(Claimed {
            claim: claim?,
            printed: whole,
        })
    }

    /// One turn of a job on the state that is done, and gave this; nothing, where the state has it from a turn before. `synced` says whether the
    /// system has synced since a turn that came to `Wait`.
    pub(crate) fn ended_turn(
        &mut self,
        alloc: Global,
        number: u32,
        job: &Job,
        given: &mut Option<Given>,
        synced: bool,
    ) -> Result<Closing, Mem>
        requires reach { 3600 ≤ D.reach }
        requires runs { RunsUnder self.old.state job.now.task number }
        requires given { IfSome given.old IsGiven }
        requires clean { D.tells → K.alike → (o : Opening) → o.gives ≡ K.gives → IsRun o K.first
            → IfSome given.old (IsGivenBy o.gives job.now) × IsCleanJob o K.first job.now }
        ensures adds { (added : List Entry) × Adds number (tale_of self.old) (tale_of self.new) added
            × EndAdds number job.now.task given.old result added }
        ensures handed { HandsOn job.now.task given.old given.new }
        ensures stops { result ≡ Ok Closing.Stopped → IsSome self.new.state.fault }
    {
        let ended = self.state.ended_turn(alloc, number, job, given, synced);
        self.state.kept();
        let (printed, whole) = heard_on(&self.state, self.printed, self.whole);
        self.printed = printed;
        self.whole = whole;
        answered(ended, self.state.has_fault())
    }

    /// One turn on a task that is being restored. `synced` says whether the system has synced since a turn that came to `Wait`.
    pub(crate) fn restore_turn(
        &mut self,
        alloc: Global,
        number: u32,
        task: u32,
        synced: bool,
    ) -> Mending
        requires reach { 3600 ≤ D.reach }
        requires free { IsFree (fates_of self.old.state) number }
        ensures adds { (added : List Entry) × Adds number (tale_of self.old) (tale_of self.new) added
            × MendAdds number task result added }
        ensures stops { result ≡ Mending.Stopped → IsSome self.new.state.fault }
    {
        let mending = self.state.restore_turn(alloc, number, task, synced);
        self.state.kept();
        let (printed, whole) = heard_on(&self.state, self.printed, self.whole);
        self.printed = printed;
        self.whole = whole;
        mending
    }

    /// A job on the state broke, by a fault only where one is kept.
    pub(crate) fn broke(&mut self, alloc: Global, number: u32, job: Job, cut: Cut)
        requires runs { RunsUnder self.old.state job.task number }
        requires fault { cut ≡ Cut.Fault → IsSome self.old.state.fault }
        ensures adds { (added : List Entry) × Adds number (tale_of self.old) (tale_of self.new) added
            × BreakAdds number job.task cut added }
    {
        self.state.broke(alloc, number, job, cut);
        self.state.kept();
        let (printed, whole) = heard_on(&self.state, self.printed, self.whole);
        self.printed = printed;
        self.whole = whole;
    }

    /// The state itself.
    pub(crate) fn into_state(self) -> RunState<D, W>
        ensures { result ≡ self.state }
    {
        let Shared {
            state,
            printed: _,
            whole: _,
            of: _,
        } = self;
        state
    }
}
