// The sample: a generated project that is built twice over devices in memory.
ghost use Rattle.std.specs.Prelude.{◌≡◌, ◌≢◌, ◌<◌, ◌↔◌, ℕ, IfOk, true, vec_len};
ghost use Rattle.outside_traits.specs.Fault.{Rose};
ghost use Rattle.outside_traits.specs.Story.{IsFresh};
ghost use Rattle.outside_mem.specs.Told.{story_of};
ghost use Rattle.answer_model.specs.Run.{Concludes, HasCause};
ghost use Rattle.answer_model.specs.Sample.{IsLine, SaysSample};
ghost use Rattle.bitbake_top.specs.Sample.{MayEnd, answered, plainly};

use crate::answer::{print, refuse};
use crate::finish::Finish;
use crate::run::run;
use answer_model::RunRequest;
use bb_report::{end_text, fault_text};
use build_store::Ahead;
use meta_model::{Logged, Options, Plan, Status};
use outside_mem::{FixedLayers, MemBench, MemDisk, NullSink};
use outside_traits::Sink;
use sample_project::{sample_layers, sample_targets, sample_text};
use std::alloc::Global;
use std::sync::Wait;
use std::thread::Threads;
use tree_model::{ListOf, Mem, Text};

/// How many benches the sample has, as the program has them.
const BENCHES: usize = 17;

/// How a run goes on: it stops at a failure, and shared state counts.
const OPTIONS: Options = Options {
    keep_going: false,
    setscene: true,
};

/// What a run over the sample came to.
#[derive(Drop)]
struct Once {
    status: Status,
    plans: Vec<Plan>,
    tales: Vec<ListOf<Logged>>,
    disk: MemDisk,
}

/// What the two runs came to, and the line that is printed of them.
#[derive(Drop)]
pub struct Sampled {
    /// How they ended.
    pub status: Status,

    /// The plan of each run that was found, in order.
    pub plans: Vec<Plan>,

    /// The tale of each run that was begun, in order.
    pub tales: Vec<ListOf<Logged>>,

    /// The line.
    line: Text,
}

/// The benches of a run.
fn benches(alloc: Global) -> Result<Vec<MemBench>, Mem>
    ensures { IfOk result (λ made. 0 < vec_len made) }
{
    let mut made = Vec::new(alloc);
    for _ in 1..BENCHES {
        made.push(MemBench::new(alloc))?;
    }
    made.push(MemBench::new(alloc))?;
    Ok(made)
}

/// A run of all recipes of the sample, over what the disk holds. No device fails.
fn run_once<R: Threads + Wait + Sync>(
    rt: &R,
    alloc: Global,
    size: u32,
    disk: MemDisk,
) -> Result<Once, Mem>
    requires fresh { IsFresh (story_of disk) }
    ensures concludes { IfOk result (λ once. Concludes plainly once.plans.items once.tales.items once.status) }
    ensures ends { IfOk result (λ once. MayEnd once.status) }
{
    let request = RunRequest {
        targets: sample_targets(alloc, size)?,
        task: None,
        force: false,
        options: OPTIONS,
    };
    let layers = sample_layers(alloc, size)?;
    let benches = benches(alloc)?;
    let Finish {
        status,
        plans,
        tales,
        disk,
        ..
    } = run(
        rt,
        alloc,
        &Ahead::none(),
        &request,
        layers,
        disk,
        benches,
        NullSink,
    );
    Ok(Once {
        status,
        plans,
        tales,
        disk,
    })
}

/// The last line of a run that wasn't well.
fn line_of(
    alloc: Global,
    status: &Status,
    plans: &[Plan],
    tales: &[ListOf<Logged>],
) -> Result<Text, Mem>
    requires concludes { Concludes plainly plans.now tales.now status.now }
    requires other { status.now ≢ Status.Ok }
    ensures { IfOk result (λ text. (size : ℕ) → IsLine size plans.now tales.now status.now text) }
{
    match (status, plans.first(), tales.first()) {
        (Status::TaskFailed, Some(plan), Some(tale)) => end_text(alloc, plan, tale.as_slice()),
        _ => fault_text(alloc, status),
    }
}

/// The line of a run that wasn't well, and what it comes to behind the plans and the tales of the one before it.
fn ended(
    alloc: Global,
    status: Status,
    mut own: Vec<Plan>,
    mut told: Vec<ListOf<Logged>>,
    mut plans: Vec<Plan>,
    mut tales: Vec<ListOf<Logged>>,
) -> Result<Sampled, Mem>
    requires concludes { Concludes plainly own.items told.items status }
    requires ends { MayEnd status }
    requires other { status ≢ Status.Ok }
    ensures line { IfOk result (λ made. (size : ℕ) → IsLine size made.plans.items made.tales.items made.status
        made.line) }
    ensures ends { IfOk result (λ made. MayEnd made.status) }
{
    let line = line_of(alloc, &status, own.as_slice(), told.as_slice())?;
    plans.append(&mut own)?;
    tales.append(&mut told)?;
    Ok(Sampled {
        status,
        plans,
        tales,
        line,
    })
}

/// What two runs come to that were well, of which these are the plans and the tales.
fn joined(
    alloc: Global,
    size: u32,
    mut plans: Vec<Plan>,
    mut tales: Vec<ListOf<Logged>>,
    mut own: Vec<Plan>,
    mut told: Vec<ListOf<Logged>>,
) -> Result<Sampled, Mem>
    requires first { Concludes plainly plans.items tales.items Status.Ok }
    requires second { Concludes plainly own.items told.items Status.Ok }
    ensures line { IfOk result (λ made. IsLine size made.plans.items made.tales.items made.status made.line) }
    ensures ends { IfOk result (λ made. MayEnd made.status) }
{
    plans.append(&mut own)?;
    tales.append(&mut told)?;
    let (first, second) = (tales[0].as_slice(), tales[1].as_slice());
    let line = sample_text(alloc, size, first, second)?;
    Ok(Sampled {
        status: Status::Ok,
        plans,
        tales,
        line,
    })
}

/// Whether all was well.
fn is_ok(status: &Status) -> bool
    ensures { (result ≡ true) ↔ (status.now ≡ Status.Ok) }
{
    matches!(status, Status::Ok)
}

/// The two runs over the sample of so many recipes: the second one over what the first left.
fn both<R: Threads + Wait + Sync>(rt: &R, alloc: Global, size: u32) -> Result<Sampled, Mem>
    ensures line { IfOk result (λ made. IsLine size made.plans.items made.tales.items made.status made.line) }
    ensures ends { IfOk result (λ made. MayEnd made.status) }
{
    let Ok(disk) = MemDisk::new(alloc, Vec::new(alloc)) else {
        // (of no entries only memory can be wanting)
        return Err(Mem);
    };
    let first = run_once(rt, alloc, size, disk)?;
    if !is_ok(&first.status) {
        let (plans, tales) = (Vec::new(alloc), Vec::new(alloc));
        return ended(alloc, first.status, first.plans, first.tales, plans, tales);
    }
    let disk = first.disk.image(0)?;
    let second = run_once(rt, alloc, size, disk)?;
    let Once {
        status,
        plans: own,
        tales: told,
        ..
    } = second;
    if !is_ok(&status) {
        return ended(alloc, status, own, told, first.plans, first.tales);
    }
    joined(alloc, size, first.plans, first.tales, own, told)
}

/// The status that is answered, by how the line was printed.
fn answer(printed: Status, status: Status) -> Status
    ensures { result ≡ answered printed status }
{
    match (printed, status) {
        (Status::WriteFault, Status::Ok | Status::TaskFailed) => Status::WriteFault,
        (_, status) => status,
    }
}

/// Builds the sample of so many recipes twice, over devices in memory of its own, and prints in one line what the runs did.
pub fn sample<W: Sink, R: Threads + Wait + Sync>(
    rt: &R,
    alloc: Global,
    size: u32,
    sink: &mut W,
) -> (Status, Vec<Plan>, Vec<ListOf<Logged>>)
    ensures said { W.tells → SaysSample size result.1.items result.2.items result.0 (W.written sink.old)
        (W.written sink.new) (W.faults sink.old) (W.faults sink.new) }
    ensures cause { HasCause ⊥ 0 ⊥ (Rose (W.faults sink.old) (W.faults sink.new)) result.0 }
    ensures no_usage { result.0 ≢ Status.Usage }
{
    match both(rt, alloc, size) {
        Ok(made) => {
            let Sampled {
                status,
                plans,
                tales,
                line,
            } = made;
            let status = answer(print(sink, line.as_str()), status);
            (status, plans, tales)
        }
        Err(Mem) => {
            let status = refuse(alloc, Status::OutOfMemory, sink);
            (status, Vec::new(alloc), Vec::new(alloc))
        }
    }
}
