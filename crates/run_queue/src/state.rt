// The state of a run.
ghost use Rattle.std.specs.Prelude.{◌≡◌, ◌++◌, List, ℕ, true, ◌<◌, ◌≤◌, [], Ok, IfOk, IfErr, OnOk, OnErr, IsSome, Some, None, false, length, replicate};
ghost use Rattle.outside_traits.specs.Fault.{Counts};
ghost use Rattle.tale_model.specs.Fates.{fate_at, fate_by, is_running, task_of};
ghost use Rattle.run_core.specs.History.{IsInOrder};
ghost use Rattle.tale_model.specs.declared.fate.Fate.TheVariants.{Waiting};
ghost use Rattle.plan_model.specs.Sound.{IsSound};
ghost use Rattle.run_model.specs.Opening.{Opening};
ghost use Rattle.run_queue.specs.Opening.{MayRun};
ghost use Rattle.run_queue.specs.Seen.{seen};
ghost use Rattle.store_model.specs.Opened.{HasNoLitter};
ghost use Rattle.store_model.specs.Readable.{HoldsRecords};
ghost use Rattle.build_store.specs.View.{NothingOpen};
ghost use Rattle.run_model.specs.Causes.{is_fault_break};
ghost use Rattle.run_queue.specs.Keeps.{Begun, IsFront, IsOpening, IsRun, IsState, IsSteady, KeepsCount, KeepsFront, Prints, PrintsOn};
ghost use Rattle.run_model.specs.Report.{event_line};
ghost use Rattle.run_queue.specs.Turns.{BreaksBy, BreaksOff, Marks, MarksAt, Notes, RunsUnder, SameButFault, SameButSink, SameRun, fates_of};
ghost use Rattle.meta_model.specs.declared.event.Event.TheVariants as events;

use crate::fault::{RunFault, keep};
use bb_report::write_event;
use build_store::{Store, StoreFault};
use meta_model::{Avail, Cut, Event, Logged, Options, Plan};
use outside_traits::{Disk, Sink};
use run_core::Board;
use setscene_plan::Replan;
use std::alloc::Global;
use std::marker::Model;
use task_worker::Job;
use tree_model::Mem;

/// What a seat is told to do.
#[derive(Debug, Drop)]
pub enum Claim {
    /// Do this job; its task was marked as started.
    Run(Job),
    /// A task was settled, or failed since its layout is too large. Ask again.
    Settled(u32),
    /// Restore this task: its restoring is open.
    Restore(u32),
    /// Another seat's task runs or is being restored, and nothing can be begun until it comes to an end.
    Wait,
    /// Nothing is left to do.
    Finished,
    /// Nothing new may begin.
    Stopped,
}

/// The state of a run, in hand.
#[derive(Drop)]
pub struct RunState<D: Disk, W: Sink> {
    pub(crate) plan: Plan,
    pub(crate) options: Options,
    pub(crate) board: Board,
    pub(crate) replan: Option<Replan>,
    pub(crate) store: Store<D>,
    pub(crate) sink: W,
    pub(crate) sink_failed: bool,
    pub(crate) fault: Option<RunFault>,
    /// Of each task whose publishing or restoring was begun what the store had answered of its output. Of such a one it isn't asked again.
    pub(crate) begun: Vec<Option<Avail>>,
    /// The tasks that are being restored.
    pub(crate) restoring: Vec<u32>,
    /// Whether an event waits for the tasks that are being restored: that a task failed, or that one ended whose output may change what is needed.
    pub(crate) ends_wait: bool,
    pub(crate) tale: Vec<Logged>,
}

impl<D: Disk, W: Sink> Model for RunState<D, W> {
    ghost use Rattle.std.specs.Prelude.{◌≡◌, length};
    ghost use Rattle.run_queue.specs.Seen.{RunView};

    ghost Value = { RunView D W };

    ghost use Rattle.tale_model.specs.Fates.{fates_told};
    ghost use Rattle.std.specs.Prelude.{None, IfSome, vec_capacity};
    ghost use Rattle.std.specs.Option.{option_map};
    ghost use Rattle.setscene_plan.specs.Replans.{IsCurrent};
    ghost use Rattle.run_queue.specs.Keeps.{HasRoom, IsState};
    ghost use Rattle.run_queue.specs.Seen.{known_in, no_meaning};

    ghost view = { λ s. record {
      plan = s.plan;
      options = s.options;
      store = s.store;
      sink = s.sink;
      sink_failed = s.sink_failed;
      fault = s.fault;
      tale = s.tale.items;
      begun = s.begun.items;
      restoring = s.restoring.items;
      ends_wait = s.ends_wait;
      known = option_map known_in s.replan;
    } };

    ghost invariant = { λ s.
        HasRoom (vec_capacity s.tale) (length s.tale.items) (fates_told (length s.plan.tasks) s.tale.items)
        × (s.board ≡ fates_told (length s.plan.tasks) s.tale.items)
        × IfSome s.replan (IsCurrent no_meaning (record { plan = s.plan; rows = s.store.rows }))
        × IsState (D.faults s.store.disk) (record {
          plan = s.plan;
          options = s.options;
          store = s.store;
          sink = s.sink;
          sink_failed = s.sink_failed;
          fault = s.fault;
          tale = s.tale.items;
          begun = s.begun.items;
          restoring = s.restoring.items;
          ends_wait = s.ends_wait;
          known = option_map known_in s.replan;
        }) };
}

/// Writes the line of an event, unless the sink has failed, and says whether it has failed now.
fn write_unless<W: Sink>(sink: &mut W, failed: bool, plan: &Plan, event: &Event) -> bool
    requires { task_of event.now < length plan.now.tasks }
    ensures text { W.tells → (base text : List ℕ) → Prints base (W.written sink.old) text failed
        → Prints base (W.written sink.new) (text ++ event_line plan.now.tasks event.now) result }
    ensures cause { (before : ℕ) → Counts before (W.faults sink.old) failed → Counts before (W.faults sink.new) result }
    ensures front { W.tells → (front : List ℕ) → IsFront front (W.written sink.old)
        → IsFront front (W.written sink.new) }
    ensures stays { failed ≡ true → result ≡ true }
{
    if failed {
        return true;
    }
    write_event(sink, plan, event).is_err()
}

/// Room for what is kept of each task.
struct Room {
    board: Board,
    begun: Vec<Option<Avail>>,
}

/// Room for so many tasks, which all wait.
fn room_for(alloc: Global, tasks: u32) -> Result<Room, Mem>
    ensures { IfOk result (λ r. (r.board ≡ replicate tasks Waiting) × (r.begun.items ≡ replicate tasks None)) }
{
    Ok(Room {
        board: Board::new(alloc, tasks)?,
        begun: vec![in alloc; None; tasks as usize]?,
    })
}

/// What a run leaves.
pub struct RunParts<D, W> {
    /// The plan.
    pub plan: Plan,
    /// The disk.
    pub disk: D,
    /// The sink.
    pub sink: W,
    /// What happened.
    pub tale: Vec<Logged>,
    /// The first fault that was met, if any.
    pub fault: Option<RunFault>,
    /// Whether the sink failed.
    pub sink_failed: bool,
}

impl<D: Disk, W: Sink> RunState<D, W> {
    /// The state of a run that begins, over a store that was just opened. It writes nothing. Want of memory gives disk and sink back.
    pub fn begin(
        alloc: Global,
        plan: Plan,
        options: Options,
        store: Store<D>,
        sink: W,
    ) -> Result<RunState<D, W>, RunParts<D, W>>
        requires reach { 3600 ≤ D.reach }
        requires sound { IsSound plan }
        requires unharmed { D.faults store.disk ≡ 0 }
        requires kept { store.kept ≡ [] }
        requires nothing { NothingOpen store.opened }
        requires faultless { store.faultless ≡ true }
        ensures begun { IfOk result (λ s. Begun plan options store sink s) }
        ensures run { D.tells → IfOk result (λ s. (o : Opening) → IsOpening o (D.story store.disk) store.rows
            → MayRun o plan → IsRun o (seen D.story W.written s)) }
        ensures refused { IfErr result (λ p. (p.disk ≡ store.disk) × (p.sink ≡ sink) × (p.tale.items ≡ [])
            × (p.fault ≡ None)) }
        ensures refused_plan { IfErr result (λ p. p.plan ≡ plan) }
    {
        match room_for(alloc, plan.tasks.len() as u32) {
            Ok(Room { board, begun }) => Ok(RunState {
                plan,
                options,
                board,
                replan: None,
                store,
                sink,
                sink_failed: false,
                fault: None,
                begun,
                restoring: Vec::new(alloc),
                ends_wait: false,
                tale: Vec::new(alloc),
            }),
            Err(Mem) => Err(RunParts {
                plan,
                disk: store.into_disk(),
                sink,
                tale: Vec::new(alloc),
                fault: None,
                sink_failed: false,
            }),
        }
    }

    /// By which cut a running task breaks off, where it is to break off by this one. Where a publication of it is open want of memory is kept as a fault first, and
    /// what a run that met a fault has begun breaks off by that. In a run of workers neither comes: a job that couldn't be done gave nothing to publish.
    fn cut_of(&mut self, task: u32, cut: Cut) -> Cut
        requires task { task < length self.old.plan.tasks }
        ensures same { SameButFault self.old self.new }
        ensures fault { IsSome self.old.fault → self.new.fault ≡ self.old.fault }
        ensures steady { IsSteady self.old.fault → IsSteady self.new.fault }
        ensures cut { BreaksBy task cut result self.old self.new }
    {
        if self.fault.is_some() {
            return match self.begun[task as usize] {
                Some(_) => Cut::Fault,
                None => cut,
            };
        }
        if self.has_open(task) {
            keep(&mut self.fault, StoreFault::Memory);
            return Cut::Memory;
        }
        cut
    }

    /// The job of the seat of a number couldn't be done. One turn: it marks that the task broke, by a fault only where one is kept.
    pub fn broke(&mut self, alloc: Global, number: u32, job: Job, cut: Cut)
        requires runs { RunsUnder self.old job.task number }
        requires fault { cut ≡ Cut.Fault → IsSome self.old.fault }
        ensures marks { BreaksOff number job.task cut self.old self.new }
        ensures same { SameRun self.old self.new }
        ensures store { self.new.store ≡ self.old.store }
        ensures restoring { self.new.restoring ≡ self.old.restoring }
        ensures fault { IsSome self.old.fault → self.new.fault ≡ self.old.fault }
        ensures sink { KeepsCount W.faults self.old self.new }
        ensures text { W.tells → PrintsOn W.written self.old self.new }
        ensures stays { W.tells → KeepsFront W.written self.old self.new }
        ensures steady { IsSteady self.old.fault → IsSteady self.new.fault }

        // Where the disk tells.
        ensures run { D.tells → (o : Opening) → IsRun o (seen D.story W.written self.old)
            → IsRun o (seen D.story W.written self.new) }
    {
        let task = job.task;
        let _alloc = alloc;
        let cut = self.cut_of(task, cut);
        self.note(number, Event::Broke { task, cut });
    }

    /// Marks that a running task came to an end, and writes the event's line, unless the sink has failed.
    pub(crate) fn note(&mut self, number: u32, event: Event)
        requires order { IsInOrder self.old.plan.tasks (fates_of self.old) number event }
        requires runs { is_running (fate_at (fates_of self.old) (task_of event)) ≡ true }
        requires rests { is_running (fate_by event) ≡ false }
        requires unbroken { self.old.fault ≡ None → is_fault_break event ≡ false }
        ensures notes { Notes number event self.old self.new }
        ensures moment { D.tells → MarksAt (D.story self.old.store.disk) number event self.old.tale self.new.tale }
        ensures fault { IsSome self.old.fault → self.new.fault ≡ self.old.fault }
        ensures text { W.tells → (base text : List ℕ) → Prints base (W.written self.old.sink) text
            self.old.sink_failed → Prints base (W.written self.new.sink)
            (text ++ event_line self.old.plan.tasks event) self.new.sink_failed }
        ensures stays { W.tells → KeepsFront W.written self.old self.new }
        ensures steady { IsSteady self.old.fault → IsSteady self.new.fault }
        ensures sink { KeepsCount W.faults self.old self.new }
    {
        self.board.mark(&event);
        self.tale.push_reserved(Logged {
            event,
            seat: number,
            moment: self.store.moment(),
        });
        self.say(&event);
    }

    /// Marks an event of a task that doesn't run, and writes the event's line, unless the sink has failed. Want of memory changes nothing.
    pub(crate) fn note_waiting(&mut self, number: u32, event: Event) -> Result<(), Mem>
        requires order { IsInOrder self.old.plan.tasks (fates_of self.old) number event }
        requires waits { is_running (fate_at (fates_of self.old) (task_of event)) ≡ false }
        ensures notes { OnOk result (Notes number event self.old self.new) }
        ensures moment { D.tells → OnOk result (MarksAt (D.story self.old.store.disk) number event self.old.tale
            self.new.tale) }
        ensures wanting { OnErr result (self.new ≡ self.old) }
        ensures fault { IsSome self.old.fault → self.new.fault ≡ self.old.fault }
        ensures text { W.tells → OnOk result ((base text : List ℕ)
            → Prints base (W.written self.old.sink) text self.old.sink_failed
            → Prints base (W.written self.new.sink) (text ++ event_line self.old.plan.tasks event)
            self.new.sink_failed) }
        ensures stays { W.tells → KeepsFront W.written self.old self.new }
        ensures steady { IsSteady self.old.fault → IsSteady self.new.fault }
        ensures sink { KeepsCount W.faults self.old self.new }
    {
        let more = self.board.running() + 2;
        self.tale.reserve(more)?;
        let moment = self.store.moment();
        self.board.mark(&event);
        self.tale.push_reserved(Logged {
            event,
            seat: number,
            moment,
        });
        self.say(&event);
        Ok(())
    }

    /// Writes the line of an event, unless the sink has failed.
    fn say(&mut self, event: &Event)
        requires { task_of event.now < length self.old.plan.tasks }
        ensures same { SameButSink self.old self.new }
        ensures text { W.tells → (base text : List ℕ) → Prints base (W.written self.old.sink) text
            self.old.sink_failed → Prints base (W.written self.new.sink)
            (text ++ event_line self.old.plan.tasks event.now) self.new.sink_failed }
        ensures stays { W.tells → KeepsFront W.written self.old self.new }
        ensures steady { IsSteady self.old.fault → IsSteady self.new.fault }
        ensures fault { IsSome self.old.fault → self.new.fault ≡ self.old.fault }
        ensures sink { KeepsCount W.faults self.old self.new }
    {
        self.sink_failed = write_unless(&mut self.sink, self.sink_failed, &self.plan, event);
        if self.sink_failed && self.fault.is_none() {
            self.fault = Some(RunFault::Write);
        }
    }

    /// The plan of the run.
    pub fn plan(&self) -> &Plan
        ensures { result.now ≡ self.now.plan }
    {
        &self.plan
    }

    /// How many events the tale has.
    pub fn told(&self) -> usize
        ensures { result ≡ length self.now.tale }
    {
        self.tale.len()
    }

    /// What every state keeps, for whoever holds one. It does nothing.
    pub fn kept(&self)
        ensures { IsState (D.faults self.now.store.disk) self.now }
    {
        let _plan = &self.plan;
    }

    /// What is left of a run. The disk holds the records of all rows, whatever a crash leaves; and nothing under `tmp/`, where nothing is open and no fault is
    /// kept. No memory.
    pub fn into_parts(self) -> RunParts<D, W>
        ensures plan { result.plan ≡ self.plan }
        ensures disk { result.disk ≡ self.store.disk }
        ensures records { D.tells → HoldsRecords (D.story result.disk) self.store.rows }
        ensures swept { D.tells → self.fault ≡ None → NothingOpen self.store.opened
            → HasNoLitter (D.story result.disk).held }
        ensures sink { result.sink ≡ self.sink }
        ensures tale { result.tale.items ≡ self.tale }
        ensures fault { result.fault ≡ self.fault }
        ensures sink_failed { result.sink_failed ≡ self.sink_failed }
    {
        let RunState {
            plan,
            options: _,
            board: _,
            replan: _,
            store,
            sink,
            sink_failed,
            fault,
            begun: _,
            restoring: _,
            ends_wait: _,
            tale,
        } = self;
        RunParts {
            plan,
            disk: store.into_disk(),
            sink,
            tale,
            fault,
            sink_failed,
        }
    }
}
