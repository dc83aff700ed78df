// Runs of one seat.
ghost use Rattle.std.specs.Prelude.{◌≡◌, ◌<◌, IfOk, IfSome, OnOk, length, slice_get};
ghost use Rattle.run_core.specs.Choice.{MayAnswer};
ghost use Rattle.setscene_plan.specs.Replans.{IsCurrent, IsSettled, avail_in, need_in};
ghost use Rattle.sig_gen.specs.Signing.{signature_by};
ghost use Rattle.store_model.specs.Spelling.{name_of, signature_bytes};
ghost use Rattle.run_tests.specs.Index.{no_objects, view_of};
ghost use Rattle.run_tests.specs.Playing.{CanBegin, IsSound, Stands, TellsChanges};

use crate::index::Index;
use meta_model::{Event, Options, Plan, Why};
use run_core::{Board, Front, Next};
use setscene_plan::{ProbeFault, Replan};
use sig_gen::{encode, name_by, sig_of};
use std::alloc::Global;
use store_model::SigText;
use tree_model::{Hash, Mem};

/// What becomes of a task that starts.
#[derive(Clone, Copy, Debug, PartialEq, Eq)]
pub enum Outcome {
    /// It ends, and its record has its own unihash.
    Ends,
    /// It ends, and its record has this unihash.
    EndsAs(Hash),
    /// It fails.
    Fails,
}

/// What a run knows: names, availability and need of the tasks, those that may be able to go on, and what has become of each.
#[derive(Drop)]
pub struct Play {
    pub replan: Replan,
    pub front: Front,
    pub board: Board,
}

/// A run over what the index has.
pub fn begin(alloc: Global, index: &mut Index) -> Result<Play, ProbeFault>
    requires { IsSound index.old.plan.now }
    ensures { IfOk result (Stands (view_of index.new)) }
{
    let plan = index.plan;
    let replan = Replan::new(alloc, plan, index)?;
    let front = Front::new(alloc, plan)?;
    let board = Board::new(alloc, plan.tasks.len() as u32)?;
    Ok(Play {
        replan,
        front,
        board,
    })
}

/// What is next. Nothing changes but how far tasks were looked for.
fn next(index: &Index, play: &mut Play, options: &Options) -> Next
    requires stands { Stands (view_of index.now) play.old }
    ensures stands { Stands (view_of index.now) play.new }
    ensures board { play.new.board ≡ play.old.board }
    ensures answer { MayAnswer options.now index.now.plan.now.tasks (need_in play.new.replan)
        (avail_in play.new.replan) play.new.board result }
{
    play.front.next(
        &play.board,
        index.plan,
        play.replan.need(),
        play.replan.avail(),
        options,
    )
}

/// A task was found.
fn find(index: &Index, play: &mut Play, task: u32)
    requires stands { Stands (view_of index.now) play.old }
    requires can { CanBegin play.old.board task }
    ensures { Stands (view_of index.now) play.new }
{
    let event = Event::Found { task };
    play.board.mark(&event);
    play.front.after(&event, &[]);
}

/// A task was started and failed.
fn fail(index: &Index, play: &mut Play, task: u32)
    requires stands { Stands (view_of index.now) play.old }
    requires can { CanBegin play.old.board task }
    ensures { Stands (view_of index.now) play.new }
{
    let started = Event::Started { task, seat: 0 };
    play.board.mark(&started);
    play.front.after(&started, &[]);
    let failed = Event::Failed {
        task,
        why: Why::Status(1),
    };
    play.board.mark(&failed);
    play.front.after(&failed, &[]);
}

/// The name of a task's signature, by these unihashes, and its whole text.
#[tactic(auto, unfolding(store_model::specs::Spelling::name_of))]
fn sign(alloc: Global, plan: &Plan, task: u32, unihashes: &[Hash]) -> Result<(Hash, SigText), Mem>
    requires task { task < length plan.now.tasks }
    requires unihashes { length unihashes.now ≡ length plan.now.tasks }
    ensures name { IfOk result (λ made. IfSome (slice_get plan.now.tasks task)
        (λ own. made.0 ≡ name_of (signature_by plan.now.tasks unihashes.now own))) }
    ensures bytes { IfOk result (λ made. IfSome (slice_get plan.now.tasks task)
        (λ own. made.1 ≡ signature_bytes (signature_by plan.now.tasks unihashes.now own))) }
{
    let sig = sig_of(alloc, plan, task, unihashes)?;
    let text = encode(alloc, &sig)?;
    Ok((name_by(&text), text))
}

/// Puts the record of a task, which has ended, into the index. Its unihash is this one, or its own name.
fn record(
    alloc: Global,
    index: &mut Index,
    replan: &Replan,
    task: u32,
    unihash: Option<Hash>,
) -> Result<(), ProbeFault>
    requires task { task < length index.old.plan.now.tasks }
    requires current { IsCurrent no_objects (view_of index.old) replan.now }
    ensures plan { index.new.plan.now ≡ index.old.plan.now }
    ensures settled { OnOk result (IsSettled no_objects (view_of index.new) task replan.now) }
{
    let (name, text) = sign(alloc, index.plan, task, replan.unihashes())?;
    index.put(name, text, unihash.unwrap_or(name))?;
    Ok(())
}

/// The same, and brings up to date what the run knows.
fn settle(
    alloc: Global,
    index: &mut Index,
    replan: &mut Replan,
    task: u32,
    unihash: Option<Hash>,
) -> Result<(), ProbeFault>
    requires sound { IsSound index.old.plan.now }
    requires task { task < length index.old.plan.now.tasks }
    requires current { IsCurrent no_objects (view_of index.old) replan.old }
    ensures plan { OnOk result (index.new.plan.now ≡ index.old.plan.now) }
    ensures current { OnOk result (IsCurrent no_objects (view_of index.new) replan.new) }
    ensures told { OnOk result (TellsChanges replan.old replan.new) }
{
    record(alloc, index, replan, task, unihash)?;
    let plan = index.plan;
    replan.settled(alloc, plan, index, task)?;
    Ok(())
}

/// A task was started and ended.
fn end(
    alloc: Global,
    index: &mut Index,
    play: &mut Play,
    task: u32,
    unihash: Option<Hash>,
) -> Result<(), ProbeFault>
    requires stands { Stands (view_of index.old) play.old }
    requires can { CanBegin play.old.board task }
    ensures { OnOk result (Stands (view_of index.new) play.new) }
{
    let started = Event::Started { task, seat: 0 };
    play.board.mark(&started);
    play.front.after(&started, &[]);
    let ended = Event::Ended { task };
    play.board.mark(&ended);
    settle(alloc, index, &mut play.replan, task, unihash)?;
    play.front.after(&ended, play.replan.told());
    Ok(())
}

/// Takes the step that is next, and answers which it was. A task that starts comes to this end.
pub fn step(
    alloc: Global,
    index: &mut Index,
    play: &mut Play,
    options: &Options,
    outcome: Outcome,
) -> Result<Next, ProbeFault>
    requires { Stands (view_of index.old) play.old }
    ensures { OnOk result (Stands (view_of index.new) play.new) }
{
    let next = next(index, play, options);
    match next {
        Next::Settle(task) => find(index, play, task),
        Next::Start(task) => match outcome {
            Outcome::Ends => end(alloc, index, play, task, None)?,
            Outcome::EndsAs(unihash) => end(alloc, index, play, task, Some(unihash))?,
            Outcome::Fails => fail(index, play, task),
        },
        Next::Wait => {}
        Next::Finished => {}
        Next::Stopped => {}
    }
    Ok(next)
}

/// Takes all steps that are left, of a run whose tasks end with their own unihashes. Answers how many there were.
pub fn play_out(
    alloc: Global,
    index: &mut Index,
    play: &mut Play,
    options: &Options,
) -> Result<u32, ProbeFault>
    requires { Stands (view_of index.old) play.old }
    ensures { OnOk result (Stands (view_of index.new) play.new) }
{
    for done in 0..1_000_000 {
        match step(alloc, index, play, options, Outcome::Ends)? {
            Next::Settle(_) | Next::Start(_) => {}
            Next::Wait | Next::Finished | Next::Stopped => return Ok(done),
        }
    }
    Ok(1_000_000)
}
