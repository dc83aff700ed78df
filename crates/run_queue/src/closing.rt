// A job that is done comes to an end, in several turns: its output is published, or it is marked how it failed.
ghost use Rattle.std.specs.Prelude.{◌≡◌, ◌≢◌, ◌<◌, ◌≤◌, ◌⊎◌, [], Bool, true, IfErr, IfOk, IfSome, IsSome, IsTrue, None, OnErr, OnOk, Some, is_some, length};
ghost use Rattle.std.specs.List.{slice_get};
ghost use Rattle.outside_traits.specs.Passes.{Passes, Same};
ghost use Rattle.meta_model.specs.CleanBuild.{Entries};
ghost use Rattle.meta_model.specs.declared.event.Cut.TheVariants as cuts;
ghost use Rattle.meta_model.specs.declared.event.Event.TheVariants as events;
ghost use Rattle.meta_model.specs.declared.plan.PlanTask.{PlanTask as Task};
ghost use Rattle.tree_model.specs.Manifest.{manifest_lines};
ghost use Rattle.tree_model.specs.Tree.{IsTree};
ghost use Rattle.plan_model.specs.Sound.{IsSound};
ghost use Rattle.store_model.specs.Available.{task_folder};
ghost use Rattle.store_model.specs.Signatures.{Signed};
ghost use Rattle.sig_gen.specs.Signing.{signature_by};
ghost use Rattle.setscene_plan.specs.Replans.{IsCurrent, IsSettled, unihashes_in};
ghost use Rattle.build_store.specs.Openings.{IsOpen, LandsOn, OpensTask, StepsTo};
ghost use Rattle.build_store.specs.Pieces.{IsPublishing};
ghost use Rattle.build_store.specs.Keys.{HasNewKey, is_new_key};
ghost use Rattle.build_store.specs.Publication.{AreShort, IsAgreed, first_publication, publication};
ghost use Rattle.build_store.specs.View.{SameBooks, opened_at};
ghost use Rattle.task_worker.specs.Jobs.{IsGiven};
ghost use Rattle.run_model.specs.Opening.{Opening};
ghost use Rattle.run_queue.specs.Asking.{earlier_in, kept_or_meant};
ghost use Rattle.run_queue.specs.Causes.{IsCause, IsOfGiven, IsOfHanded, IsStoreCause, IsStoreOfGiven};
ghost use Rattle.run_queue.specs.Keeps.{IsRun, IsSteady, IsSteadyAnswer, KeepsCount, KeepsFront, PrintsOn};
ghost use Rattle.run_queue.specs.Puts.{IsCleanOutput, IsSignedAt, MayOpen};
ghost use Rattle.run_queue.specs.Seen.{no_meaning, seen};
ghost use Rattle.run_queue.specs.Turns.{EndsTry, EndsTurn, FailsTurn, HandsOn, IsCleanJob, IsFailure, IsGivenBy, Marks, RestsAfterFault, RunsUnder, SameRun};
ghost use Rattle.task_worker.specs.declared.given.Given.{Given as Gave};
ghost use Rattle.task_worker.specs.declared.given.Given.TheVariants as givens;

use crate::fault::{RunFault, keep};
use crate::probe::known_after;
use crate::state::RunState;
use build_store::{Step, Store, StoreFault};
use meta_model::{Avail, Cut, Event, Plan, Why};
use outside_traits::{Disk, Sink};
use setscene_plan::Replan;
use sig_gen::sig_of;
use std::alloc::Global;
use store_model::SigRecord;
use task_worker::{Given, Job};
use tree_model::{Manifest, Mem, Tree};

/// What a turn of a job that is done came to.
#[derive(Clone, Copy, Debug, PartialEq, Eq)]
pub enum Ending {
    /// More is left: another turn is wanted.
    More,
    /// More is left: another turn is wanted, once the system has synced what the disk stands on, begun behind this turn (`Bench::wait_synced`). So it is, too,
    /// where the event waits for tasks that are being restored.
    Wait,
    /// The job is closed: its event was marked.
    Closed,
}

/// The signature of a task by what is known of the plan's tasks. Where that isn't kept it is want of memory.
pub(crate) fn signature(
    alloc: Global,
    plan: &Plan,
    replan: &Option<Replan>,
    task: u32,
) -> Result<SigRecord, StoreFault>
    requires task { task < length plan.now.tasks }
    requires wide { IfSome replan.now (λ known. length (unihashes_in known) ≡ length plan.now.tasks) }
    ensures is { IfOk result (λ sig. IfSome replan.now
        (λ known. (own : Task) → slice_get plan.now.tasks task ≡ Some own
        → sig ≡ signature_by plan.now.tasks (unihashes_in known) own)) }
    ensures known { OnOk result (IsSome replan.now) }
    ensures refused { IfErr result (λ fault. fault ≡ StoreFault.Memory) }
{
    match replan {
        Some(known) => Ok(sig_of(alloc, plan, task, known.unihashes())?),
        None => Err(StoreFault::Memory),
    }
}

/// Opens the publication of the output of a task of the plan, which has its signature by what is known. It is want of memory too where one of the task is
/// open, or where another one has its record or its object: over an opening that comes only where digests meet.
fn open_in<D: Disk>(
    alloc: Global,
    store: &mut Store<D>,
    plan: &Plan,
    replan: &Option<Replan>,
    task: u32,
    tree: Tree,
    manifest: &Manifest,
) -> Result<(), StoreFault>
    requires reach { 3600 ≤ D.reach }
    requires sound { IsSound plan.now }
    requires task { task < length plan.now.tasks }
    requires short { AreShort tree }
    requires listed { manifest.now ≡ manifest_lines tree }
    requires current { IfSome replan.now (IsCurrent no_meaning (record { plan = plan.now; rows = store.old.rows })) }
    requires unharmed { D.faults store.old.disk ≡ 0 }
    ensures opens { OnOk result ((s : Signed) → IsSignedAt store.old.rows plan.now.tasks task s
        → OpensTask store.old store.new s tree × MayOpen store.old.rows store.old.opened s tree) }
    ensures known { OnOk result (IsSome replan.now) }
    ensures unlooked { replan.now ≡ None → store.new ≡ store.old }
    ensures cause { IfErr result (IsStoreCause (D.faults store.new.disk) plan.now store.new.rows) }
    ensures given { IfErr result (IsStoreOfGiven plan.now.tasks task (givens.Tree tree manifest.now)) }
    ensures steady { (IsSome replan.now → (s : Signed) → IsSignedAt store.old.rows plan.now.tasks task s
        → IsAgreed store.old.rows s tree) → IfErr result IsSteadyAnswer }
    ensures unharmed { OnOk result (D.faults store.new.disk ≡ 0) }

    // Whatever it answers.
    ensures rows { store.new.rows ≡ store.old.rows }
    ensures may { (store.new.disk ≡ store.old.disk) ⊎ ((s : Signed) → IsSignedAt store.old.rows plan.now.tasks task s
        → MayOpen store.old.rows store.old.opened s tree) }
    ensures new_key { (store.new ≡ store.old) ⊎ ((s : Signed) → IsSignedAt store.old.rows plan.now.tasks task s
        → is_new_key store.old.keys s.sig ≡ true → HasNewKey store.old.rows store.old.opened s.sig) }
    ensures publishing { D.tells → (s : Signed) → IsSignedAt store.old.rows plan.now.tasks task s
        → Passes (D.story store.old.disk) (D.story store.new.disk)
        (IsPublishing (first_publication store.old.keys store.old.rows s tree) (D.story store.old.disk).held) }
{
    let sig = signature(alloc, plan, replan, task)?;
    let task = &plan.tasks.as_slice()[task as usize];
    if store.is_open(task) {
        return Err(StoreFault::Memory);
    }
    if store.publish_open(alloc, task, &sig, tree, manifest)? {
        return Ok(());
    }
    Err(StoreFault::Memory)
}

/// Goes on with the open publication of a task of the plan, which has its signature by what is known.
fn step_in<D: Disk>(
    alloc: Global,
    store: &mut Store<D>,
    plan: &Plan,
    replan: &Option<Replan>,
    task: u32,
    synced: bool,
) -> Result<Step, StoreFault>
    requires reach { 3600 ≤ D.reach }
    requires sound { IsSound plan.now }
    requires task { task < length plan.now.tasks }
    requires current { IfSome replan.now (IsCurrent no_meaning (record { plan = plan.now; rows = store.old.rows })) }
    requires unharmed { D.faults store.old.disk ≡ 0 }
    ensures steps { IfOk result (λ step. (s : Signed) → IsSignedAt store.old.rows plan.now.tasks task s
        → StepsTo store.old store.new s step) }
    ensures published { D.tells → IfOk result (λ step. (s : Signed) → IsSignedAt store.old.rows plan.now.tasks task s
        → LandsOn (D.story store.new.disk) store.old.rows store.old.opened s step) }
    ensures known { OnOk result (IsSome replan.now) }
    ensures refused_rows { OnErr result (store.new.rows ≡ store.old.rows) }
    ensures cause { IfErr result (IsStoreCause (D.faults store.new.disk) plan.now store.new.rows) }
    ensures steady { IfErr result IsSteadyAnswer }
    ensures unharmed { OnOk result (D.faults store.new.disk ≡ 0) }

    // Whatever it answers.
    ensures unlooked { replan.now ≡ None → store.new ≡ store.old }
    ensures touched { (s : Signed) → IsSignedAt store.old.rows plan.now.tasks task s
        → (store.new ≡ store.old) ⊎ ((tree : Entries) × IsOpen store.old.opened s tree) }
    ensures publishing { D.tells → (s : Signed) → IsSignedAt store.old.rows plan.now.tasks task s → (tree : Entries)
        → IsOpen store.old.opened s tree → Passes (D.story store.old.disk) (D.story store.new.disk)
        (IsPublishing (publication store.old.rows s tree) (D.story store.old.disk).held) }
{
    let sig = signature(alloc, plan, replan, task)?;
    store.publish_step(alloc, &plan.tasks.as_slice()[task as usize], &sig, synced)
}

/// Brings up to date what is known of the plan's tasks, after a task's output was published. Where memory is wanting, or the store meets a
/// fault, which is kept then, nothing is known any more: the next turn that asks looks anew.
fn resettle<D: Disk>(
    alloc: Global,
    store: &mut Store<D>,
    plan: &Plan,
    begun: &[Option<Avail>],
    setscene: bool,
    replan: &mut Option<Replan>,
    fault: &mut Option<RunFault>,
    task: u32,
)
    requires sound { IsSound plan.now }
    requires task { task < length plan.now.tasks }
    requires settled { IfSome replan.old (IsSettled no_meaning (record { plan = plan.now; rows = store.old.rows })
        task) }
    requires faultless { fault.old ≡ None }
    requires unharmed { D.faults store.old.disk ≡ 0 }
    ensures current { IfSome replan.new (λ made. IfSome replan.old
        (λ known. IsCurrent (kept_or_meant (earlier_in known) D.tells (D.story store.old.disk).held store.old.rows
        setscene plan.now.tasks begun.now) (record { plan = plan.now; rows = store.old.rows }) made)) }
    ensures nothing_new { replan.old ≡ None → replan.new ≡ None }
    ensures unharmed { fault.new ≡ None → D.faults store.new.disk ≡ 0 }
    ensures cause { (failed : Bool) → IfSome fault.new (IsCause (D.faults store.new.disk) plan.now store.new.rows
        failed) }
    ensures steady { IsSteady fault.new }
    ensures same { SameBooks store.old store.new }
    ensures images { D.tells → Passes (D.story store.old.disk) (D.story store.new.disk) Same }
{
    match replan.take() {
        None => {}
        Some(known) => match known_after(alloc, plan, store, begun, setscene, known, task) {
            Ok(made) => *replan = Some(made),
            Err(StoreFault::Memory) => {}
            Err(met) => keep(fault, met),
        },
    }
}

impl<D: Disk, W: Sink> RunState<D, W> {
    /// Whether a publication of a task is open.
    pub(crate) fn has_open(&self, task: u32) -> bool
        requires task { task < length self.now.plan.tasks }
        ensures { (own : Task) → slice_get self.now.plan.tasks task ≡ Some own
            → result ≡ is_some (opened_at self.now.store.opened (task_folder own)) }
    {
        self.store
            .is_open(&self.plan.tasks.as_slice()[task as usize])
    }

    /// Want of memory is kept as a fault, and a running task breaks off by it.
    fn wanting(&mut self, number: u32, task: u32)
        requires faultless { self.old.fault ≡ None }
        requires runs { RunsUnder self.old task number }
        ensures marks { Marks number (events.Broke task cuts.Memory) self.old.tale self.new.tale }
        ensures restoring { self.new.restoring ≡ self.old.restoring }
        ensures fault { IsSome self.new.fault }
        ensures same { SameRun self.old self.new }
        ensures sink { KeepsCount W.faults self.old self.new }
        ensures text { W.tells → PrintsOn W.written self.old self.new }
        ensures stays { W.tells → KeepsFront W.written self.old self.new }
        ensures steady { IsSteady self.new.fault }

        // Where the disk tells.
        ensures run { D.tells → (o : Opening) → IsRun o (seen D.story W.written self.old)
            → IsRun o (seen D.story W.written self.new) }
    {
        keep(&mut self.fault, StoreFault::Memory);
        let cut = Cut::Memory;
        self.note(number, Event::Broke { task, cut });
    }

    /// Whether the event that a task failed, without `keep_going`, has to wait for tasks that are being restored, which is kept then: behind it nothing more
    /// is settled.
    pub(crate) fn failure_waits(&mut self) -> bool
        ensures same { self.new ≡ record self.old { ends_wait = self.new.ends_wait } }
        ensures waits { IsTrue result → (self.new.restoring ≢ []) × (self.new.ends_wait ≡ true) }

        // Where the disk tells.
        ensures run { D.tells → (o : Opening) → IsRun o (seen D.story W.written self.old)
            → IsRun o (seen D.story W.written self.new) }
    {
        if self.options.keep_going {
            return false;
        }
        self.ends_wait = !self.restoring.is_empty();
        self.ends_wait
    }

    /// Whether the publication of a task has to wait for tasks that are being restored, which is kept then: behind its end they may be needed no more. So it is
    /// where its record is new and names the output of another.
    fn end_waits(&mut self, task: u32) -> bool
        requires task { task < length self.old.plan.tasks }
        ensures same { self.new ≡ record self.old { ends_wait = self.new.ends_wait } }
        ensures waits { IsTrue result → (self.new.restoring ≢ []) × (self.new.ends_wait ≡ true) }

        // Where the disk tells.
        ensures run { D.tells → (o : Opening) → IsRun o (seen D.story W.written self.old)
            → IsRun o (seen D.story W.written self.new) }
    {
        let own = &self.plan.tasks.as_slice()[task as usize];
        if !self.store.lands_elsewhere(own) {
            return false;
        }
        self.ends_wait = !self.restoring.is_empty();
        self.ends_wait
    }

    /// Marks that a running task failed, unless that waits for tasks that are being restored; where a publication of it is open, which can't come in a run of
    /// workers, it is want of memory.
    fn failed(&mut self, number: u32, job: &Job, why: Why) -> Result<Ending, Mem>
        requires faultless { self.old.fault ≡ None }
        requires runs { RunsUnder self.old job.now.task number }
        ensures fails { FailsTurn number job.now.task why self.old self.new result }
        ensures restoring { self.new.restoring ≡ self.old.restoring }
        ensures same { SameRun self.old self.new }
        ensures sink { KeepsCount W.faults self.old self.new }
        ensures text { W.tells → PrintsOn W.written self.old self.new }
        ensures stays { W.tells → KeepsFront W.written self.old self.new }
        ensures steady { IsSteady self.new.fault }

        // Where the disk tells.
        ensures run { D.tells → (o : Opening) → IsRun o (seen D.story W.written self.old) → (given : Gave)
            → IsFailure job.now.task why given → IsGivenBy o.gives job.now given
            → IsCleanJob o (seen D.story W.written self.old) job.now → IsRun o (seen D.story W.written self.new) }
    {
        let task = job.task;
        if self.has_open(task) {
            self.wanting(number, task);
            return Err(Mem);
        }
        if self.failure_waits() {
            return Ok(Ending::Wait);
        }
        self.note(number, Event::Failed { task, why });
        Ok(Ending::Closed)
    }

    /// Opens the publication of what a running task gave, or marks that the task broke where a fault was met.
    fn open_turn(
        &mut self,
        alloc: Global,
        number: u32,
        task: u32,
        tree: Tree,
        manifest: &Manifest,
    ) -> Result<Ending, Mem>
        requires reach { 3600 ≤ D.reach }
        requires faultless { self.old.fault ≡ None }
        requires runs { RunsUnder self.old task number }
        requires is_tree { IsTree tree }
        requires short { AreShort tree }
        requires listed { manifest.now ≡ manifest_lines tree }
        ensures ends { EndsTurn number task (Some (givens.Tree tree manifest.now)) self.old self.new result }
        ensures restoring { self.new.restoring ≡ self.old.restoring }
        ensures given { IfSome self.new.fault (IsOfGiven self.old.plan.tasks task (givens.Tree tree manifest.now)) }
        ensures same { SameRun self.old self.new }
        ensures sink { KeepsCount W.faults self.old self.new }
        ensures text { W.tells → PrintsOn W.written self.old self.new }
        ensures stays { W.tells → KeepsFront W.written self.old self.new }

        // Where the disk tells.
        ensures run { D.tells → (o : Opening) → IsRun o (seen D.story W.written self.old)
            → IsCleanOutput o.gives self.old.plan.tasks task tree → IsRun o (seen D.story W.written self.new) }
        ensures steady { D.tells → (o : Opening) → IsRun o (seen D.story W.written self.old)
            → IsCleanOutput o.gives self.old.plan.tasks task tree → IsSteady self.new.fault }
    {
        self.begun[task as usize] = Some(Avail::Missing);
        match open_in(
            alloc,
            &mut self.store,
            &self.plan,
            &self.replan,
            task,
            tree,
            manifest,
        ) {
            Ok(()) => Ok(Ending::More),
            Err(StoreFault::Memory) => {
                keep(&mut self.fault, StoreFault::Memory);
                let cut = Cut::Memory;
                self.note(number, Event::Broke { task, cut });
                Err(Mem)
            }
            Err(fault) => {
                keep(&mut self.fault, fault);
                let cut = Cut::Fault;
                self.note(number, Event::Broke { task, cut });
                Ok(Ending::Closed)
            }
        }
    }

    /// Goes on with the open publication of a running task, unless that waits for tasks that are being restored: at its end it marks that the task ended, or that
    /// it broke where a fault was met. One that is met once it was published is kept, and the task has ended. Nothing where none is open.
    fn step_turn(
        &mut self,
        alloc: Global,
        number: u32,
        task: u32,
        synced: bool,
    ) -> Result<Option<Ending>, Mem>
        requires reach { 3600 ≤ D.reach }
        requires faultless { self.old.fault ≡ None }
        requires runs { RunsUnder self.old task number }
        ensures ends { EndsTry number task self.old self.new result }
        ensures restoring { self.new.restoring ≡ self.old.restoring }
        ensures same { SameRun self.old self.new }
        ensures sink { KeepsCount W.faults self.old self.new }
        ensures text { W.tells → PrintsOn W.written self.old self.new }
        ensures stays { W.tells → KeepsFront W.written self.old self.new }
        ensures steady { IsSteady self.new.fault }

        // Where the disk tells.
        ensures run { D.tells → (o : Opening) → IsRun o (seen D.story W.written self.old)
            → IsRun o (seen D.story W.written self.new) }
    {
        if self.end_waits(task) {
            return Ok(Some(Ending::Wait));
        }
        match step_in(
            alloc,
            &mut self.store,
            &self.plan,
            &self.replan,
            task,
            synced,
        ) {
            Ok(Step::NotOpen) => Ok(None),
            Ok(Step::More) => Ok(Some(Ending::More)),
            Ok(Step::Wait) => Ok(Some(Ending::Wait)),
            Ok(Step::Done(_)) => {
                resettle(
                    alloc,
                    &mut self.store,
                    &self.plan,
                    self.begun.as_slice(),
                    self.options.setscene,
                    &mut self.replan,
                    &mut self.fault,
                    task,
                );
                self.note(number, Event::Ended { task });
                Ok(Some(Ending::Closed))
            }
            Err(StoreFault::Memory) => {
                keep(&mut self.fault, StoreFault::Memory);
                let cut = Cut::Memory;
                self.note(number, Event::Broke { task, cut });
                Err(Mem)
            }
            Err(met) => {
                keep(&mut self.fault, met);
                let cut = Cut::Fault;
                self.note(number, Event::Broke { task, cut });
                Ok(Some(Ending::Closed))
            }
        }
    }

    /// One turn of a running task that gave a tree: of its publication, which is opened where it isn't open.
    fn tree_turn(
        &mut self,
        alloc: Global,
        number: u32,
        task: u32,
        tree: Tree,
        manifest: &Manifest,
        synced: bool,
    ) -> Result<Ending, Mem>
        requires reach { 3600 ≤ D.reach }
        requires faultless { self.old.fault ≡ None }
        requires runs { RunsUnder self.old task number }
        requires is_tree { IsTree tree }
        requires short { AreShort tree }
        requires listed { manifest.now ≡ manifest_lines tree }
        ensures ends { EndsTurn number task (Some (givens.Tree tree manifest.now)) self.old self.new result }
        ensures restoring { self.new.restoring ≡ self.old.restoring }
        ensures given { IfSome self.new.fault (IsOfGiven self.old.plan.tasks task (givens.Tree tree manifest.now)) }
        ensures same { SameRun self.old self.new }
        ensures sink { KeepsCount W.faults self.old self.new }
        ensures text { W.tells → PrintsOn W.written self.old self.new }
        ensures stays { W.tells → KeepsFront W.written self.old self.new }

        // Where the disk tells.
        ensures run { D.tells → (o : Opening) → IsRun o (seen D.story W.written self.old)
            → IsCleanOutput o.gives self.old.plan.tasks task tree → IsRun o (seen D.story W.written self.new) }
        ensures steady { D.tells → (o : Opening) → IsRun o (seen D.story W.written self.old)
            → IsCleanOutput o.gives self.old.plan.tasks task tree → IsSteady self.new.fault }
    {
        match self.step_turn(alloc, number, task, synced)? {
            Some(ending) => Ok(ending),
            None => self.open_turn(alloc, number, task, tree, manifest),
        }
    }

    /// One turn of a running task of which nothing is handed over. Where nothing is open of it, it is want of memory.
    fn rest_turn(
        &mut self,
        alloc: Global,
        number: u32,
        task: u32,
        synced: bool,
    ) -> Result<Ending, Mem>
        requires reach { 3600 ≤ D.reach }
        requires faultless { self.old.fault ≡ None }
        requires runs { RunsUnder self.old task number }
        ensures ends { EndsTurn number task None self.old self.new result }
        ensures restoring { self.new.restoring ≡ self.old.restoring }
        ensures same { SameRun self.old self.new }
        ensures sink { KeepsCount W.faults self.old self.new }
        ensures text { W.tells → PrintsOn W.written self.old self.new }
        ensures stays { W.tells → KeepsFront W.written self.old self.new }
        ensures steady { IsSteady self.new.fault }

        // Where the disk tells.
        ensures run { D.tells → (o : Opening) → IsRun o (seen D.story W.written self.old)
            → IsRun o (seen D.story W.written self.new) }
    {
        match self.step_turn(alloc, number, task, synced)? {
            Some(ending) => Ok(ending),
            None => {
                self.wanting(number, task);
                Err(Mem)
            }
        }
    }

    /// One turn of a job of the seat of a number that is done, and gave this; nothing, where the store has it from a turn before. `synced` is
    /// what `Bench::wait_synced` answered behind a turn that came to `Wait`. A tree is published in several turns, of which the last one marks
    /// that the task ended; else it is marked that it failed, or broke.
    pub fn ended_turn(
        &mut self,
        alloc: Global,
        number: u32,
        job: &Job,
        given: &mut Option<Given>,
        synced: bool,
    ) -> Result<Ending, Mem>
        requires reach { 3600 ≤ D.reach }
        requires runs { RunsUnder self.old job.now.task number }
        requires given { IfSome given.old IsGiven }
        ensures ends { EndsTurn number job.now.task given.old self.old self.new result }
        ensures restoring { self.new.restoring ≡ self.old.restoring }
        ensures handed { HandsOn job.now.task given.old given.new }
        ensures cause { self.old.fault ≡ None
            → IfSome self.new.fault (IsOfHanded self.old.plan.tasks job.now.task given.old) }
        ensures same { SameRun self.old self.new }
        ensures rests { RestsAfterFault self.old self.new }
        ensures sink { KeepsCount W.faults self.old self.new }
        ensures text { W.tells → PrintsOn W.written self.old self.new }
        ensures stays { W.tells → KeepsFront W.written self.old self.new }

        // Where the disk tells.
        ensures run { D.tells → (o : Opening) → IsRun o (seen D.story W.written self.old)
            → IfSome given.old (IsGivenBy o.gives job.now) → IsCleanJob o (seen D.story W.written self.old) job.now
            → IsRun o (seen D.story W.written self.new) }
        ensures steady { D.tells → (o : Opening) → IsRun o (seen D.story W.written self.old)
            → IfSome given.old (IsGivenBy o.gives job.now) → IsCleanJob o (seen D.story W.written self.old) job.now
            → IsSteady self.old.fault → IsSteady self.new.fault }
    {
        let task = job.task;
        if self.fault.is_some() {
            let cut = Cut::Fault;
            self.note(number, Event::Broke { task, cut });
            return Ok(Ending::Closed);
        }
        match given.take() {
            Some(Given::Tree { tree, manifest }) => {
                self.tree_turn(alloc, number, task, tree, &manifest, synced)
            }
            Some(Given::Fails { status }) => {
                *given = Some(Given::Fails { status });
                self.failed(number, job, Why::Status(status))
            }
            Some(Given::TooLarge) => {
                *given = Some(Given::TooLarge);
                self.failed(number, job, Why::TooLarge)
            }
            None => self.rest_turn(alloc, number, task, synced),
        }
    }
}
