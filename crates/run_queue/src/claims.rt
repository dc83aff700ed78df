// What a seat is to do next.
ghost use Rattle.std.specs.Prelude.{◌≡◌, ◌≢◌, ◌<◌, ◌≤◌, ◌⊎◌, [], IfOk, IfSome, IsSome, IsTrue, MatchBool, None, Ok, Some, false, length, true};
ghost use Rattle.std.specs.List.{slice_get};
ghost use Rattle.meta_model.specs.declared.event.Avail.TheVariants as avails;
ghost use Rattle.tale_model.specs.Fates.{IsFree};
ghost use Rattle.run_core.specs.Fates.{SomeRuns};
ghost use Rattle.run_core.specs.declared.next.Next.TheVariants as next;
ghost use Rattle.run_model.specs.Opening.{Opening};
ghost use Rattle.run_queue.specs.Keeps.{IsRun, IsSteady, KeepsCount, KeepsFront, PrintsOn};
ghost use Rattle.run_queue.specs.Seen.{seen};
ghost use Rattle.run_queue.specs.Turns.{Claims, ClaimsClean, GivesUp, IsHeldUp, MayDo, RestoresBy, RestsAfterFault, SameRun, TurnsClean, TurnsRestore, TurnsTo, fates_of, tries_left};

use crate::restoring::Restoring;
use crate::state::{Claim, RunState};
use meta_model::Avail;
use outside_traits::{Disk, Sink};
use run_core::Next;
use std::alloc::Global;
use tree_model::Mem;

impl<D: Disk, W: Sink> RunState<D, W> {
    /// Whether a fault is kept. Where one is, no script is to run, be it that a job was handed out in the turn that met it.
    pub fn has_fault(&self) -> bool
        ensures { MatchBool result (IsSome self.now.fault) (self.now.fault ≡ None) }
    {
        self.fault.is_some()
    }

    /// What is next, by what is known of the plan's tasks.
    fn next(&self) -> Next
        requires known { IsSome self.now.known }
        ensures { MayDo self.now result }
    {
        match &self.replan {
            Some(known) => {
                self.board.next_beside(
                    &self.plan,
                    known.need(),
                    known.avail(),
                    &self.options,
                    self.restoring.as_slice(),
                )
            }
            None => Next::Stopped,
        }
    }

    /// Whether the output of a task that can be settled is in its work folder. Else there is an object of it.
    fn is_in_work(&self, task: u32) -> bool
        requires answer { MayDo self.now (next.Settle task) }
        ensures { MatchBool result (IfSome self.now.known (λ k. slice_get k.avail task ≡ Some avails.Work))
            (IfSome self.now.known (λ k. slice_get k.avail task ≡ Some avails.Object)) }
    {
        match &self.replan {
            Some(known) => matches!(known.avail()[task as usize], Avail::Work),
            None => false,
        }
    }

    /// Whether no further task is to be restored yet: as many are as there may be, or an end waits for them, or waits still for its turn.
    fn is_held_up(&self) -> bool
        ensures held { IsTrue result → (SomeRuns (fates_of self.now) ⊎ (self.now.restoring ≢ [])) × IsHeldUp self.now }
        ensures waits { IsTrue result → (self.now.restoring ≢ []) ⊎ (self.now.ends_wait ≡ true) }
        ensures room { result ≡ false → length self.now.restoring < self.now.plan.threads }
    {
        if self.restoring.len() >= self.plan.threads as usize {
            return true;
        }
        self.ends_wait && (!self.restoring.is_empty() || self.board.some_runs())
    }

    /// A task whose output is there is found, or its restoring is opened. Nothing where it turned out to have no object.
    fn settle(&mut self, alloc: Global, number: u32, task: u32) -> Result<Option<Claim>, Mem>
        requires reach { 3600 ≤ D.reach }
        requires faultless { self.old.fault ≡ None }
        requires free { IsFree (fates_of self.old) number }
        requires answer { MayDo self.old (next.Settle task) }
        ensures turns { TurnsTo number self.old self.new result }
        ensures restores { TurnsRestore self.old self.new result }
        ensures same { SameRun self.old self.new }
        ensures sink { KeepsCount W.faults self.old self.new }
        ensures text { W.tells → PrintsOn W.written self.old self.new }
        ensures stays { W.tells → KeepsFront W.written self.old self.new }
        ensures steady { IsSteady self.old.fault → IsSteady self.new.fault }

        // Where the disk tells.
        ensures run { D.tells → (o : Opening) → IsRun o (seen D.story W.written self.old)
            → IsRun o (seen D.story W.written self.new) }
        ensures clean { D.tells → (o : Opening) → IsRun o (seen D.story W.written self.old)
            → TurnsClean o self.old.ends_wait (seen D.story W.written self.old) result }
        ensures gives_up { IfOk result (λ done. done ≡ None → GivesUp self.old self.new) }
    {
        if self.is_in_work(task) {
            self.find(number, task)?;
            return Ok(Some(Claim::Settled(task)));
        }
        if self.is_held_up() {
            return Ok(Some(Claim::Wait));
        }
        match self.open_restoring(alloc, task)? {
            Restoring::Opened => Ok(Some(Claim::Restore(task))),
            Restoring::Gone => Ok(None),
            Restoring::Fault => Ok(Some(Claim::Stopped)),
        }
    }

    /// What is to be done by what is known of the plan's tasks. Nothing where a task turned out to have no object.
    fn act(&mut self, alloc: Global, number: u32) -> Result<Option<Claim>, Mem>
        requires reach { 3600 ≤ D.reach }
        requires faultless { self.old.fault ≡ None }
        requires known { IsSome self.old.known }
        requires free { IsFree (fates_of self.old) number }
        ensures turns { TurnsTo number self.old self.new result }
        ensures restores { TurnsRestore self.old self.new result }
        ensures same { SameRun self.old self.new }
        ensures sink { KeepsCount W.faults self.old self.new }
        ensures text { W.tells → PrintsOn W.written self.old self.new }
        ensures stays { W.tells → KeepsFront W.written self.old self.new }
        ensures steady { IsSteady self.old.fault → IsSteady self.new.fault }

        // Where the disk tells.
        ensures run { D.tells → (o : Opening) → IsRun o (seen D.story W.written self.old)
            → IsRun o (seen D.story W.written self.new) }
        ensures clean { D.tells → (o : Opening) → IsRun o (seen D.story W.written self.old)
            → TurnsClean o self.old.ends_wait (seen D.story W.written self.old) result }
        ensures gives_up { IfOk result (λ done. done ≡ None → GivesUp self.old self.new) }
    {
        self.kept();
        match self.next() {
            Next::Settle(task) => self.settle(alloc, number, task),
            Next::Start(task) => Ok(Some(self.start(alloc, number, task)?)),
            Next::Wait => Ok(Some(Claim::Wait)),
            Next::Finished => Ok(Some(Claim::Finished)),
            Next::Stopped => Ok(Some(Claim::Stopped)),
        }
    }

    /// One try of a claim, where no fault is kept. Nothing where a task turned out to have no object.
    fn turn(&mut self, alloc: Global, number: u32) -> Result<Option<Claim>, Mem>
        requires reach { 3600 ≤ D.reach }
        requires faultless { self.old.fault ≡ None }
        requires free { IsFree (fates_of self.old) number }
        ensures turns { TurnsTo number self.old self.new result }
        ensures restores { TurnsRestore self.old self.new result }
        ensures same { SameRun self.old self.new }
        ensures sink { KeepsCount W.faults self.old self.new }
        ensures text { W.tells → PrintsOn W.written self.old self.new }
        ensures stays { W.tells → KeepsFront W.written self.old self.new }
        ensures steady { IsSteady self.old.fault → IsSteady self.new.fault }

        // Where the disk tells.
        ensures run { D.tells → (o : Opening) → IsRun o (seen D.story W.written self.old)
            → IsRun o (seen D.story W.written self.new) }
        ensures clean { D.tells → (o : Opening) → IsRun o (seen D.story W.written self.old)
            → TurnsClean o self.old.ends_wait (seen D.story W.written self.old) result }
        ensures falls { IfOk result (λ done. done ≡ None → tries_left self.new < tries_left self.old) }
    {
        if self.look(alloc)? {
            self.kept();
            return self.act(alloc, number);
        }
        Ok(Some(Claim::Stopped))
    }

    /// What the seat of a number, under which no task runs, is to do next. One turn: it marks that a task was found, that it
    /// failed since its layout is too large, or that it was started, for which the job is handed out; or nothing, where a restoring was opened. Where a task
    /// turns out to have no object, what is next is asked anew.
    ///
    /// Where the sink fails at the event's line the event is marked all the same. Want of memory changes nothing; in the opening of a restoring, which may
    /// have touched its task's folder, it is kept as a fault, and nothing new may begin.
    pub fn claim(&mut self, alloc: Global, number: u32) -> Result<Claim, Mem>
        requires reach { 3600 ≤ D.reach }
        requires free { IsFree (fates_of self.old) number }
        ensures claims { Claims number self.old self.new result }
        ensures restores { RestoresBy self.old self.new result }
        ensures stops { IsSome self.old.fault → result ≡ Ok Claim.Stopped }
        ensures same { SameRun self.old self.new }
        ensures rests { RestsAfterFault self.old self.new }
        ensures sink { KeepsCount W.faults self.old self.new }
        ensures text { W.tells → PrintsOn W.written self.old self.new }
        ensures stays { W.tells → KeepsFront W.written self.old self.new }
        ensures steady { IsSteady self.old.fault → IsSteady self.new.fault }

        // Where the disk tells.
        ensures run { D.tells → (o : Opening) → IsRun o (seen D.story W.written self.old)
            → IsRun o (seen D.story W.written self.new) }
        ensures clean { D.tells → (o : Opening) → IsRun o (seen D.story W.written self.old)
            → ClaimsClean o self.old.ends_wait (seen D.story W.written self.old) result }
    {
        if self.has_fault() {
            return Ok(Claim::Stopped);
        }
        // Each try that answers nothing keeps of one more task that it has no object, but for the first one, of which that may have been kept.
        loop {
            if let Some(claim) = self.turn(alloc, number)? {
                return Ok(claim);
            }
        }
    }
}
