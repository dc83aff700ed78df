// The run of a plan: its text, its tale and its status.
ghost use Rattle.std.specs.Prelude.{◌≡◌, ◌<◌, ◌≤◌, ◌↔◌, ◌⊎◌, ◌∷◌, ◌++◌, [], ℕ, List, All, IfOk, vec_len, vec_capacity, map};
ghost use Rattle.outside_traits.specs.Bench.{Gives};
ghost use Rattle.outside_traits.specs.Fault.{Rose};
ghost use Rattle.outside_traits.specs.Story.{IsFresh};
ghost use Rattle.run_model.specs.Texts.{plan_text as text_of};
ghost use Rattle.plan_model.specs.Sound.{AreWanted, IsSound};
ghost use Rattle.plan_model.specs.Spellings.{HasSpellings};
ghost use Rattle.store_model.specs.Origins.{Book, Reading};
ghost use Rattle.run_model.specs.Build.{AllClean, MayEndSo, TellsDifference};
ghost use Rattle.run_model.specs.Benches.{AtSeats, BreaksByFault, SomeRose};
ghost use Rattle.run_model.specs.Seated.{HaveBenches};
ghost use Rattle.answer_model.specs.Devices.{AreUnchanged};
ghost use Rattle.run_model.specs.Headline.{Keeps, MayBegin};
ghost use Rattle.answer_model.specs.Run.{Concludes, IsBegun, IsCertain, RanPrintedCall, WritesCall};

use crate::answer::refuse;
use bb_report::{plan_text, write_all};
use build_resume::{Outcome, build};
use build_store::Ahead;
use meta_model::{Logged, Options, Plan, Status};
use outside_traits::{Bench, Disk, Sink};
use std::alloc::Global;
use std::sync::Wait;
use std::thread::Threads;
use tree_model::{ListOf, Mem, Text};

/// What a run of a plan hands back.
#[derive(Drop)]
pub struct Ran<D, B, W> {
    /// How the run ended.
    pub status: Status,

    /// The plan, unless memory was wanting for its text.
    pub plans: Vec<Plan>,

    /// The tale of the run, where it was begun.
    pub tales: Vec<ListOf<Logged>>,

    /// The disk that was handed in, with what the run left on it.
    pub disk: D,

    /// The benches that were handed in, in their order.
    pub benches: Vec<B>,

    /// The sink that was handed in.
    pub sink: W,
}

/// The text of a plan, and room for the plan and for the tale of its run.
#[derive(Drop)]
pub(crate) struct Ready {
    pub(crate) text: Text,
    pub(crate) room: Room,
}

/// Room for a plan, and for the tale of its run.
#[derive(Drop)]
pub(crate) struct Room {
    pub(crate) plans: Vec<Plan>,
    pub(crate) tales: Vec<ListOf<Logged>>,
}

/// Takes what a run needs before it begins.
pub(crate) fn prepare(alloc: Global, plan: &Plan) -> Result<Ready, Mem>
    ensures text { IfOk result (λ ready. ready.text ≡ text_of plan.now) }
    ensures none { IfOk result (λ ready. (ready.room.plans.items ≡ []) × (ready.room.tales.items ≡ [])) }
    ensures room { IfOk result (λ ready. (1 ≤ vec_capacity ready.room.plans) × (1 ≤ vec_capacity ready.room.tales)) }
{
    let text = plan_text(alloc, plan)?;
    let plans = Vec::with_capacity(alloc, 1)?;
    let tales = Vec::with_capacity(alloc, 1)?;
    Ok(Ready {
        text,
        room: Room { plans, tales },
    })
}

/// Runs a plan whose text was printed.
fn run_ready<D, B, W, R>(
    rt: &R,
    alloc: Global,
    ahead: &Ahead,
    room: Room,
    plan: Plan,
    options: Options,
    disk: D,
    benches: Vec<B>,
    sink: W,
) -> Ran<D, B, W>
where
    D: Disk + Drop + Send,
    B: Bench + Drop + Send,
    W: Sink + Drop + Send,
    R: Threads + Wait + Sync,
    requires bench { 0 < vec_len benches }
    requires reach { 3900 ≤ D.reach }
    requires fresh { D.tells → IsFresh (D.story disk) }
    requires unharmed { D.faults disk ≡ 0 }
    requires sound { IsSound plan }
    requires spellings { HasSpellings plan }
    requires none { (room.plans.items ≡ []) × (room.tales.items ≡ []) }
    requires room { (1 ≤ vec_capacity room.plans) × (1 ≤ vec_capacity room.tales) }
    ensures keeps { D.tells → B.tells → (gives : Gives) → All (λ b. B.gives b ≡ gives) benches.items
        → (reading : Reading) (book : Book) → MayBegin gives reading book (D.story disk).held plan
        → Keeps gives reading book (D.story disk).held plan options result.tales.items result.status
        (D.story result.disk) (map (λ b. (B.place b).runs) benches.items)
        (map (λ b. (B.place b).runs) result.benches.items) }
    ensures exactly { D.tells → B.tells → (gives : Gives) → All (λ b. B.gives b ≡ gives) benches.items
        → (reading : Reading) (book : Book) → MayBegin gives reading book (D.story disk).held plan → AreWanted plan
        → D.faults result.disk ≡ 0 → AreUnchanged (map B.faults benches.items) (map B.faults result.benches.items)
        → (Rose (W.faults sink) (W.faults result.sink) → ⊥) → IsCertain result.status
        → ((result.status ≡ Status.Ok) ↔ AllClean gives plan) }
    ensures plans { result.plans.items ≡ plan ∷ [] }
    ensures begun { IsBegun options result.plans.items result.tales.items result.status }
    ensures text { W.tells → (base : List ℕ) (before : ℕ) → before ≤ W.faults sink
        → W.written sink ≡ base ++ text_of plan → WritesCall (Rose before (W.faults result.sink)) base
        (W.written result.sink) result.plans.items result.tales.items result.status }
    ensures printed { W.tells → B.tells → (base : List ℕ) → W.written sink ≡ base ++ text_of plan
        → RanPrintedCall result.plans.items result.tales.items (map (λ b. (B.place b).runs) benches.items)
        (map (λ b. (B.place b).runs) result.benches.items) base (W.written result.sink) }
    ensures differs { All (λ p. TellsDifference D.tells p (D.story result.disk) result.status) result.plans.items }
    ensures benches { All (HaveBenches (vec_len benches)) result.tales.items }
    ensures broke { All (λ tale. AtSeats (BreaksByFault tale) (map B.faults benches.items)
        (map B.faults result.benches.items)) result.tales.items }
    ensures causes { (before : ℕ) → before ≤ W.faults sink
        → MayEndSo (D.faults result.disk) (SomeRose (map B.faults benches.items) (map B.faults result.benches.items))
        (Rose before (W.faults result.sink)) result.status }
{
    let Room {
        mut plans,
        mut tales,
    } = room;
    let Outcome {
        status,
        plan,
        failed: _,
        disk,
        benches,
        sink,
        tale,
    } = build(rt, alloc, ahead, plan, options, disk, benches, sink);
    plans.push_reserved(plan);
    tales.push_reserved(ListOf::from_vec(tale));
    Ran {
        status,
        plans,
        tales,
        disk,
        benches,
        sink,
    }
}

/// Prints a plan and runs it, and gives the devices back with the status and the tale.
///
/// Nothing is begun before the plan's text is printed.
pub fn run_whole<D, B, W, R>(
    rt: &R,
    alloc: Global,
    ahead: &Ahead,
    plan: Plan,
    options: Options,
    disk: D,
    benches: Vec<B>,
    mut sink: W,
) -> Ran<D, B, W>
where
    D: Disk + Drop + Send,
    B: Bench + Drop + Send,
    W: Sink + Drop + Send,
    R: Threads + Wait + Sync,
    requires bench { 0 < vec_len benches }
    requires reach { 3900 ≤ D.reach }
    requires fresh { D.tells → IsFresh (D.story disk) }
    requires unharmed { D.faults disk ≡ 0 }
    requires sound { IsSound plan }
    requires spellings { HasSpellings plan }
    ensures keeps { D.tells → B.tells → (gives : Gives) → All (λ b. B.gives b ≡ gives) benches.items
        → (reading : Reading) (book : Book) → MayBegin gives reading book (D.story disk).held plan
        → Keeps gives reading book (D.story disk).held plan options result.tales.items result.status
        (D.story result.disk) (map (λ b. (B.place b).runs) benches.items)
        (map (λ b. (B.place b).runs) result.benches.items) }
    ensures exactly { D.tells → B.tells → (gives : Gives) → All (λ b. B.gives b ≡ gives) benches.items
        → (reading : Reading) (book : Book) → MayBegin gives reading book (D.story disk).held plan → AreWanted plan
        → D.faults result.disk ≡ 0 → AreUnchanged (map B.faults benches.items) (map B.faults result.benches.items)
        → (Rose (W.faults sink) (W.faults result.sink) → ⊥) → IsCertain result.status
        → ((result.status ≡ Status.Ok) ↔ AllClean gives plan) }
    ensures plans { (result.plans.items ≡ plan ∷ []) ⊎ ((result.plans.items ≡ [])
        × (result.status ≡ Status.OutOfMemory)) }
    ensures concludes { Concludes options result.plans.items result.tales.items result.status }
    ensures unbegun { result.tales.items ≡ [] → (result.status ≡ Status.OutOfMemory)
        ⊎ (result.status ≡ Status.WriteFault) }
    ensures text { W.tells → WritesCall (Rose (W.faults sink) (W.faults result.sink)) (W.written sink)
        (W.written result.sink) result.plans.items result.tales.items result.status }
    ensures printed { W.tells → B.tells → RanPrintedCall result.plans.items result.tales.items
        (map (λ b. (B.place b).runs) benches.items) (map (λ b. (B.place b).runs) result.benches.items)
        (W.written sink) (W.written result.sink) }
    ensures same_disk { result.tales.items ≡ [] → result.disk ≡ disk }
    ensures same_benches { result.tales.items ≡ [] → result.benches.items ≡ benches.items }
    ensures differs { All (λ p. TellsDifference D.tells p (D.story result.disk) result.status) result.plans.items }
    ensures benches { All (HaveBenches (vec_len benches)) result.tales.items }
    ensures broke { All (λ tale. AtSeats (BreaksByFault tale) (map B.faults benches.items)
        (map B.faults result.benches.items)) result.tales.items }
    ensures causes { MayEndSo (D.faults result.disk) (SomeRose (map B.faults benches.items)
        (map B.faults result.benches.items)) (Rose (W.faults sink) (W.faults result.sink)) result.status }
{
    match prepare(alloc, &plan) {
        Ok(Ready { text, mut room }) => match write_all(&mut sink, text.as_str().as_bytes()) {
            Ok(()) => run_ready(rt, alloc, ahead, room, plan, options, disk, benches, sink),
            Err(_) => {
                room.plans.push_reserved(plan);
                Ran {
                    status: Status::WriteFault,
                    plans: room.plans,
                    tales: room.tales,
                    disk,
                    benches,
                    sink,
                }
            }
        },
        Err(Mem) => Ran {
            status: refuse(alloc, Status::OutOfMemory, &mut sink),
            plans: Vec::new(alloc),
            tales: Vec::new(alloc),
            disk,
            benches,
            sink,
        },
    }
}
