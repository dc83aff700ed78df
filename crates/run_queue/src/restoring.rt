// Tasks whose outputs are there as shared state objects: each is restored in several turns.
ghost use Rattle.std.specs.Prelude.{◌≡◌, ◌≢◌, ◌<◌, ◌≤◌, ◌⊎◌, Contains, IfErr, IfOk, IfSome, IsSome, IsTrue, None, OnErr, OnOk, Some, length};
ghost use Rattle.std.specs.Bool.{OnFalse, OnTrue};
ghost use Rattle.std.specs.List.{slice_get};
ghost use Rattle.outside_traits.specs.Passes.{Passes};
ghost use Rattle.meta_model.specs.CleanBuild.{Entries};
ghost use Rattle.meta_model.specs.declared.event.Avail.TheVariants as avails;
ghost use Rattle.meta_model.specs.declared.event.Event.TheVariants as events;
ghost use Rattle.plan_model.specs.Sound.{IsSound};
ghost use Rattle.tree_model.specs.declared.hash.Hash.{Hash as Name};
ghost use Rattle.store_model.specs.Rows.{row_at};
ghost use Rattle.store_model.specs.Signatures.{Signed};
ghost use Rattle.setscene_plan.specs.Replans.{IsCurrent, names_in};
ghost use Rattle.build_store.specs.Openings.{IsOpen, LandsOn, OpensRestoring, StepsTo};
ghost use Rattle.build_store.specs.Pieces.{IsPublishing};
ghost use Rattle.build_store.specs.Publication.{HasNoObject, publication};
ghost use Rattle.build_store.specs.View.{SameBooks, unshared};
ghost use Rattle.tale_model.specs.Fates.{IsFree};
ghost use Rattle.run_core.specs.declared.next.Next.TheVariants as next;
ghost use Rattle.run_model.specs.Opening.{Opening};
ghost use Rattle.run_queue.specs.Causes.{IsStoreCause};
ghost use Rattle.run_queue.specs.Keeps.{IsRun, IsSteady, IsSteadyAnswer, KeepsCount, KeepsFront, PrintsOn};
ghost use Rattle.run_queue.specs.Puts.{IsSignedAt, PutsObject};
ghost use Rattle.run_queue.specs.Seen.{no_meaning, seen};
ghost use Rattle.run_queue.specs.Turns.{AreHandsFree, Marks, MayDo, MayRestore, MendsTo, OpensTo, RestsAfterFault, SameRun, fates_of, without};

use crate::closing::signature;
use crate::fault::keep;
use crate::state::RunState;
use build_store::{Step, Store, StoreFault};
use meta_model::{Avail, Event, Plan};
use outside_traits::{Disk, Sink};
use setscene_plan::Replan;
use std::alloc::Global;
use tree_model::Mem;

/// What became of the opening of a restoring.
#[derive(Debug, Drop)]
pub(crate) enum Restoring {
    /// The task is being restored.
    Opened,
    /// It has no object. That is kept, and what was known of the plan's tasks isn't.
    Gone,
    /// A fault was met, or memory was wanting, which is kept.
    Fault,
}

/// What a turn of a restoring came to.
#[derive(Clone, Copy, Debug, PartialEq, Eq)]
pub enum Mending {
    /// More is left: another turn is wanted.
    More,
    /// More is left: another turn is wanted, once the system has synced what the disk stands on, begun behind this turn (`Bench::wait_synced`).
    Wait,
    /// The task is being restored no more: it was marked as restored, or it wasn't in hand.
    Closed,
    /// A fault is kept, and nothing new may begin.
    Stopped,
}

/// Opens the restoring of a task of the plan, which has its signature by what is known. Where a publication or a restoring of it is open it is want of memory;
/// over an opening that can't come.
fn restore_open_in<D: Disk>(
    alloc: Global,
    store: &mut Store<D>,
    plan: &Plan,
    replan: &Option<Replan>,
    task: u32,
) -> Result<bool, StoreFault>
    requires reach { 3600 ≤ D.reach }
    requires sound { IsSound plan.now }
    requires task { task < length plan.now.tasks }
    requires current { IfSome replan.now (IsCurrent no_meaning (record { plan = plan.now; rows = store.old.rows })) }
    requires unharmed { D.faults store.old.disk ≡ 0 }
    ensures opens { IfOk result (λ found. OnTrue found ((s : Signed) → IsSignedAt store.old.rows plan.now.tasks task s
        → OpensRestoring D.tells D.story store.old store.new s)) }
    ensures gone { D.tells → IfOk result (λ found. OnFalse found ((s : Signed)
        → IsSignedAt store.old.rows plan.now.tasks task s
        → HasNoObject (D.story store.old.disk).held store.old.rows s)) }
    ensures unchanged { IfOk result (λ found. OnFalse found (SameBooks store.old store.new)) }
    ensures faultless { OnOk result (store.new.faultless ≡ store.old.faultless) }
    ensures cause { IfErr result (IsStoreCause (D.faults store.new.disk) plan.now store.new.rows) }
    ensures steady { IfErr result IsSteadyAnswer }
    ensures unharmed { OnOk result (D.faults store.new.disk ≡ 0) }

    // Whatever it answers.
    ensures rows { store.new.rows ≡ store.old.rows }
    ensures puts { (s : Signed) → IsSignedAt store.old.rows plan.now.tasks task s
        → PutsObject D.tells (D.story store.old.disk) (D.story store.new.disk) store.old.rows s }
{
    let sig = signature(alloc, plan, replan, task)?;
    let task = &plan.tasks.as_slice()[task as usize];
    if store.is_open(task) {
        return Err(StoreFault::Memory);
    }
    store.restore_open(alloc, task, &sig)
}

/// Whether there is an object of a task, by what is known of outputs.
fn is_object(avail: &[Avail], task: u32) -> bool
    requires { task < length avail.now }
    ensures { IsTrue result → slice_get avail.now task ≡ Some avails.Object }
{
    matches!(avail[task as usize], Avail::Object)
}

/// Whether the record of a task is stored, by its name in what is known.
fn is_stored<D: Disk>(store: &Store<D>, replan: &Option<Replan>, task: u32) -> bool
    requires named { IfSome replan.now (λ known. task < length (names_in known)) }
    ensures { IsTrue result → IfSome replan.now (λ known. (name : Name) → slice_get (names_in known) task ≡ Some name
        → row_at store.now.rows name ≢ None) }
{
    match replan {
        Some(known) => store.unihash(&known.names()[task as usize]).is_some(),
        None => false,
    }
}

/// Goes on with the open restoring of a task of the plan, which has its signature by what is known. Where its record isn't stored it is want of memory; over an
/// opening that can't come.
fn restore_step_in<D: Disk>(
    alloc: Global,
    store: &mut Store<D>,
    plan: &Plan,
    replan: &Option<Replan>,
    task: u32,
    synced: bool,
) -> Result<Step, StoreFault>
    requires reach { 3600 ≤ D.reach }
    requires sound { IsSound plan.now }
    requires task { task < length plan.now.tasks }
    requires current { IfSome replan.now (IsCurrent no_meaning (record { plan = plan.now; rows = store.old.rows })) }
    requires unharmed { D.faults store.old.disk ≡ 0 }
    ensures steps { IfOk result (λ step. (s : Signed) → IsSignedAt store.old.rows plan.now.tasks task s
        → StepsTo store.old store.new (unshared s) step) }
    ensures published { D.tells → IfOk result (λ step. (s : Signed) → IsSignedAt store.old.rows plan.now.tasks task s
        → LandsOn (D.story store.new.disk) store.old.rows store.old.opened (unshared s) step) }
    ensures known { OnOk result (IsSome replan.now) }
    ensures faultless { OnOk result (store.new.faultless ≡ store.old.faultless) }
    ensures cause { IfErr result (IsStoreCause (D.faults store.new.disk) plan.now store.new.rows) }
    ensures steady { IfErr result IsSteadyAnswer }
    ensures unharmed { OnOk result (D.faults store.new.disk ≡ 0) }

    // Whatever it answers.
    ensures rows { store.new.rows ≡ store.old.rows }
    ensures unlooked { replan.now ≡ None → store.new ≡ store.old }
    ensures touched { (s : Signed) → IsSignedAt store.old.rows plan.now.tasks task s
        → (store.new ≡ store.old) ⊎ ((tree : Entries) × IsOpen store.old.opened (unshared s) tree) }
    ensures publishing { D.tells → (s : Signed) → IsSignedAt store.old.rows plan.now.tasks task s → (tree : Entries)
        → IsOpen store.old.opened (unshared s) tree → Passes (D.story store.old.disk) (D.story store.new.disk)
        (IsPublishing (publication store.old.rows (unshared s) tree) (D.story store.old.disk).held) }
{
    let sig = signature(alloc, plan, replan, task)?;
    if !is_stored(store, replan, task) {
        return Err(StoreFault::Memory);
    }
    store.restore_step(alloc, &plan.tasks.as_slice()[task as usize], &sig, synced)
}

impl<D: Disk, W: Sink> RunState<D, W> {
    /// Opens the restoring of a task whose output is there as a shared state object: it is in hand from then on. Where it has none that is kept, and what
    /// was known of the plan's tasks isn't. Want of memory is kept as a fault, since the task's folder may have been touched, and no event
    /// tells of it: the run ends by it.
    pub(crate) fn open_restoring(&mut self, alloc: Global, task: u32) -> Result<Restoring, Mem>
        requires reach { 3600 ≤ D.reach }
        requires faultless { self.old.fault ≡ None }
        requires room { length self.old.restoring < self.old.plan.threads }
        requires answer { MayDo self.old (next.Settle task) }
        requires there { IfSome self.old.known (λ k. slice_get k.avail task ≡ Some avails.Object) }
        ensures opens { OpensTo task self.old self.new result }
        ensures same { SameRun self.old self.new }
        ensures sink { KeepsCount W.faults self.old self.new }
        ensures text { W.tells → PrintsOn W.written self.old self.new }
        ensures stays { W.tells → KeepsFront W.written self.old self.new }
        ensures steady { IsSteady self.old.fault → IsSteady self.new.fault }

        // Where the disk tells.
        ensures run { D.tells → (o : Opening) → IsRun o (seen D.story W.written self.old)
            → IsRun o (seen D.story W.written self.new) }
    {
        self.restoring.reserve(1)?;
        self.begun[task as usize] = Some(Avail::Object);
        match restore_open_in(alloc, &mut self.store, &self.plan, &self.replan, task) {
            Ok(true) => {
                self.restoring.push_reserved(task);
                Ok(Restoring::Opened)
            }
            Ok(false) => {
                self.begun[task as usize] = Some(Avail::Missing);
                self.replan = None;
                Ok(Restoring::Gone)
            }
            Err(fault) => {
                self.restoring.push_reserved(task);
                keep(&mut self.fault, fault);
                Ok(Restoring::Fault)
            }
        }
    }

    /// Whether a task that is being restored may be marked so: what is known says that it can be settled, from its object.
    fn may_restore(&self, task: u32) -> bool
        requires task { task < length self.now.plan.tasks }
        ensures { IsTrue result → MayRestore self.now task }
    {
        match &self.replan {
            Some(known) => {
                is_object(known.avail(), task)
                    && self.board.may_settle(
                        &self.plan,
                        known.need(),
                        known.avail(),
                        &self.options,
                        task,
                    )
            }
            None => false,
        }
    }

    /// Want of memory is kept as a fault: what is being restored goes on no further.
    fn stop_restoring(&mut self) -> Mending
        requires faultless { self.old.fault ≡ None }
        ensures stops { (result ≡ Mending.Stopped) × IsSome self.new.fault }
        ensures same { self.new ≡ record self.old { fault = self.new.fault } }
        ensures steady { IsSteady self.new.fault }

        // Where the disk tells.
        ensures run { D.tells → (o : Opening) → IsRun o (seen D.story W.written self.old)
            → IsRun o (seen D.story W.written self.new) }
    {
        keep(&mut self.fault, StoreFault::Memory);
        Mending::Stopped
    }

    /// Goes on with the restoring of a task that is in hand. Behind its end the task is marked as restored, where what is known says still that it can be settled;
    /// else it is want of memory, which is kept as a fault. That can't come while what may end another need for it waits.
    fn step_restoring(&mut self, alloc: Global, number: u32, task: u32, synced: bool) -> Mending
        requires reach { 3600 ≤ D.reach }
        requires faultless { self.old.fault ≡ None }
        requires free { IsFree (fates_of self.old) number }
        requires among { Contains self.old.restoring task }
        ensures mends { MendsTo number task self.old self.new result }
        ensures same { SameRun self.old self.new }
        ensures sink { KeepsCount W.faults self.old self.new }
        ensures text { W.tells → PrintsOn W.written self.old self.new }
        ensures stays { W.tells → KeepsFront W.written self.old self.new }
        ensures steady { IsSteady self.new.fault }

        // Where the disk tells.
        ensures run { D.tells → (o : Opening) → IsRun o (seen D.story W.written self.old)
            → IsRun o (seen D.story W.written self.new) }
    {
        match restore_step_in(
            alloc,
            &mut self.store,
            &self.plan,
            &self.replan,
            task,
            synced,
        ) {
            Ok(Step::More) => Mending::More,
            Ok(Step::Wait) => Mending::Wait,
            Ok(Step::Done(_)) => {
                if !self.may_restore(task) {
                    return self.stop_restoring();
                }
                match self.note_waiting(number, Event::Restored { task }) {
                    Ok(()) => {
                        self.restoring.retain(|one| *one != task);
                        Mending::Closed
                    }
                    Err(Mem) => self.stop_restoring(),
                }
            }
            Ok(Step::NotOpen) => self.stop_restoring(),
            Err(fault) => {
                keep(&mut self.fault, fault);
                Mending::Stopped
            }
        }
    }

    /// One turn of the seat of a number, under which no task runs, on a task that is being restored. `synced` is what `Bench::wait_synced` answered behind a
    /// turn that came to `Wait`. The last turn marks that the task was restored. Where a fault is kept nothing is done.
    pub fn restore_turn(&mut self, alloc: Global, number: u32, task: u32, synced: bool) -> Mending
        requires reach { 3600 ≤ D.reach }
        requires free { IsFree (fates_of self.old) number }
        ensures mends { MendsTo number task self.old self.new result }
        ensures stops { IsSome self.old.fault → result ≡ Mending.Stopped }
        ensures same { SameRun self.old self.new }
        ensures rests { RestsAfterFault self.old self.new }
        ensures sink { KeepsCount W.faults self.old self.new }
        ensures text { W.tells → PrintsOn W.written self.old self.new }
        ensures stays { W.tells → KeepsFront W.written self.old self.new }
        ensures steady { IsSteady self.old.fault → IsSteady self.new.fault }

        // Where the disk tells.
        ensures run { D.tells → (o : Opening) → IsRun o (seen D.story W.written self.old)
            → IsRun o (seen D.story W.written self.new) }
    {
        if self.fault.is_some() {
            return Mending::Stopped;
        }
        if !self.restoring.contains(&task) {
            return Mending::Closed;
        }
        self.step_restoring(alloc, number, task, synced)
    }

    /// At the end of all turns: where a task is still being restored, which can't come in a run of workers, want of memory is kept as a fault.
    pub fn close_restorings(&mut self)
        ensures free { AreHandsFree self.new }
        ensures kept { AreHandsFree self.old → self.new ≡ self.old }
        ensures same { self.new ≡ record self.old { fault = self.new.fault } }
        ensures fault { IsSome self.old.fault → self.new.fault ≡ self.old.fault }
        ensures steady { IsSteady self.old.fault → IsSteady self.new.fault }

        // Where the disk tells.
        ensures run { D.tells → (o : Opening) → IsRun o (seen D.story W.written self.old)
            → IsRun o (seen D.story W.written self.new) }
    {
        if self.restoring.is_empty() {
            return;
        }
        keep(&mut self.fault, StoreFault::Memory);
    }
}
