// How a run ends, and its last line.
ghost use Rattle.std.specs.Prelude.{◌≡◌, ◌≢◌, ◌≤◌, ◌⊎◌, ◌++◌, ◌∷◌, [], IfOk, OnErr, OnOk, IsTrue, List, false, true, ℕ};
ghost use Rattle.outside_traits.specs.Fault.{Counts, Rose};
ghost use Rattle.meta_model.specs.declared.event.Status.{Status as End};
ghost use Rattle.meta_model.specs.declared.event.Status.TheVariants as ends;
ghost use Rattle.meta_model.specs.declared.event.Logged.{Logged as Entry};
ghost use Rattle.meta_model.specs.declared.plan.Plan.{Plan as ThePlan};
ghost use Rattle.run_model.specs.Report.{has_failure, last_line, tale_text};
ghost use Rattle.run_queue.specs.Keeps.{IsFront, Prints};
ghost use Rattle.build_resume.specs.Build.{WritesReport};
ghost use Rattle.run_model.specs.Build.{failed_by, failed_in};
ghost use Rattle.run_workers.specs.declared.worker.Halt.TheVariants as halts;
ghost use Rattle.build_resume.specs.Benches.{SomeBreak};
ghost use Rattle.build_resume.specs.Ends.{EndsBy, halt_by, status_at, status_by, status_of};
ghost use Rattle.run_model.specs.Ends.{bench_broke, is_plain, memory_broke};

use bb_report::{end_text, fault_text, some_failed, write_all};
use build_store::StoreFault;
use meta_model::{Cut, Event, Logged, Plan, Status};
use outside_traits::Sink;
use run_queue::RunFault;
use run_workers::Halt;
use std::alloc::Global;
use tree_model::{Mem, Text};

/// A fault of the store, as a status.
pub fn status_of_store(fault: StoreFault) -> Status
    ensures { result ≡ status_of fault }
{
    match fault {
        StoreFault::Disk => Status::DiskFault,
        StoreFault::Collision { name, held, given } => Status::Collision { name, held, given },
        StoreFault::Unsteady {
            pn,
            task,
            held,
            given,
        } => Status::Unsteady {
            pn,
            task,
            held,
            given,
        },
        StoreFault::Memory => Status::OutOfMemory,
    }
}

/// Whether a task broke off in a tale since its bench failed.
fn some_by_bench(tale: &[Logged]) -> bool
    ensures { result ≡ bench_broke tale.now }
{
    tale.iter().any(|logged| {
        matches!(
            logged.event,
            Event::Broke {
                task: _,
                cut: Cut::Bench
            }
        )
    })
}

/// Whether a task broke off in a tale since memory was wanting.
fn some_by_memory(tale: &[Logged]) -> bool
    ensures { result ≡ memory_broke tale.now }
{
    tale.iter().any(|logged| {
        matches!(
            logged.event,
            Event::Broke {
                task: _,
                cut: Cut::Memory
            }
        )
    })
}

/// Why a run ends, by why the calling thread halted, and by what broke tasks in the tale: a bench that failed comes first, then want of memory.
pub(crate) fn halt_of_run(halt: Halt, tale: &[Logged]) -> Halt
    ensures is { result ≡ halt_by halt (bench_broke tale.now) (memory_broke tale.now) }
    ensures bench { result ≡ halts.Bench → (halt ≡ halts.Bench) ⊎ SomeBreak tale.now }
{
    if some_by_bench(tale) {
        return Halt::Bench;
    }
    if some_by_memory(tale) {
        return Halt::Memory;
    }
    halt
}

/// How a run ends in which no fault was met.
fn status_without_fault(halt: Halt, failed: bool) -> Status
    ensures { result ≡ status_at halt failed }
{
    match halt {
        Halt::Finished | Halt::Stopped => {
            if failed {
                Status::TaskFailed
            } else {
                Status::Ok
            }
        }
        Halt::Memory => Status::OutOfMemory,
        Halt::Bench => Status::BenchFault,
    }
}

/// The status of a run, by the first fault that it met, by why it halted, and by whether a task failed.
pub(crate) fn status_of_run(fault: Option<RunFault>, halt: Halt, tale: &[Logged]) -> Status
    ensures { result ≡ status_by fault halt (has_failure tale.now) }
{
    match fault {
        Some(RunFault::Store(fault)) => status_of_store(fault),
        Some(RunFault::Write) => Status::WriteFault,
        None => status_without_fault(halt, some_failed(tale)),
    }
}

/// Puts the task of an event at the end, if it is that the task failed.
fn push_failed(failed: &mut Vec<u32>, event: &Event) -> Result<(), Mem>
    ensures { OnOk result (failed.new.items ≡ failed.old.items ++ failed_by event.now []) }
{
    if let Event::Failed { task, why: _ } = *event {
        failed.push(task)?;
    }
    Ok(())
}

/// The tasks that failed in a tale, in its order.
fn failed_tasks(alloc: Global, tale: &[Logged]) -> Result<Vec<u32>, Mem>
    ensures { IfOk result (λ failed. failed.items ≡ failed_in tale.now) }
{
    let mut failed = Vec::new(alloc);
    for logged in tale {
        push_failed(&mut failed, &logged.event)?;
    }
    Ok(failed)
}

/// The tasks that failed in a tale, in its order, where a run ends by that; else none.
pub(crate) fn failed_for(alloc: Global, status: &Status, tale: &[Logged]) -> Result<Vec<u32>, Mem>
    ensures failed { IfOk result (λ failed. status.now ≡ ends.TaskFailed → failed.items ≡ failed_in tale.now) }
    ensures none { IfOk result (λ failed. status.now ≢ ends.TaskFailed → failed.items ≡ []) }
    ensures wanting { OnErr result (status.now ≡ ends.TaskFailed) }
{
    match status {
        Status::TaskFailed => failed_tasks(alloc, tale),
        _ => Ok(Vec::new(alloc)),
    }
}

/// The last line of a run.
fn line_of(alloc: Global, plan: &Plan, tale: &[Logged], status: &Status) -> Result<Text, Mem>
    requires ok { status.now ≡ ends.Ok → has_failure tale.now ≡ false }
    requires failed { status.now ≡ ends.TaskFailed → has_failure tale.now ≡ true }
    ensures { IfOk result (λ made. made ≡ last_line plan.now tale.now status.now) }
{
    match status {
        Status::Ok | Status::TaskFailed => end_text(alloc, plan, tale),
        _ => fault_text(alloc, status),
    }
}

/// The status of a run whose last line couldn't be written.
fn unwritten(status: Status) -> Status
    ensures plain { is_plain status ≡ true → result ≡ ends.WriteFault }
    ensures fault { is_plain status ≡ false → result ≡ status }
{
    match status {
        Status::Ok | Status::TaskFailed => Status::WriteFault,
        _ => status,
    }
}

/// Writes the last line of a run that wanted memory, and says how the run ended by that, be it that the line couldn't be written.
pub(crate) fn end_wanting<W: Sink>(sink: &mut W) -> Status
    ensures text { W.tells → (plan : ThePlan) (tale : List Entry) (base : List ℕ)
        → W.written sink.old ≡ base ++ tale_text plan.tasks tale
        → WritesReport (Rose (W.faults sink.old) (W.faults sink.new)) base (W.written sink.new) plan tale result }
    ensures ends { result ≡ ends.OutOfMemory }
    ensures stays { W.tells → (front : List ℕ) → IsFront front (W.written sink.old)
        → IsFront front (W.written sink.new) }
    ensures later { W.faults sink.old ≤ W.faults sink.new }
{
    let _written = write_all(sink, b"fault 11 memory\n");
    Status::OutOfMemory
}

/// Writes the last line of a run, to a sink that stands, and says how the run ended.
pub(crate) fn tell_end<W: Sink>(
    alloc: Global,
    sink: &mut W,
    plan: &Plan,
    tale: &[Logged],
    status: Status,
) -> Status
    requires ok { status ≡ ends.Ok → has_failure tale.now ≡ false }
    requires failed { status ≡ ends.TaskFailed → has_failure tale.now ≡ true }
    ensures text { W.tells → (base : List ℕ) → W.written sink.old ≡ base ++ tale_text plan.now.tasks tale.now
        → WritesReport (Rose (W.faults sink.old) (W.faults sink.new)) base (W.written sink.new) plan.now tale.now
        result }
    ensures ends { EndsBy (Rose (W.faults sink.old) (W.faults sink.new)) status result }
    ensures stays { W.tells → (front : List ℕ) → IsFront front (W.written sink.old)
        → IsFront front (W.written sink.new) }
    ensures later { W.faults sink.old ≤ W.faults sink.new }
{
    match line_of(alloc, plan, tale, &status) {
        Ok(text) => match write_all(sink, text.as_str().as_bytes()) {
            Ok(()) => status,
            Err(_) => unwritten(status),
        },
        Err(Mem) => end_wanting(sink),
    }
}

/// Writes the last line of a run, unless the sink has failed, and says how the run ended.
pub(crate) fn tell_unless<W: Sink>(
    alloc: Global,
    sink: &mut W,
    sink_failed: bool,
    plan: &Plan,
    tale: &[Logged],
    status: Status,
) -> Status
    requires ok { status ≡ ends.Ok → has_failure tale.now ≡ false }
    requires failed { status ≡ ends.TaskFailed → has_failure tale.now ≡ true }
    ensures text { W.tells → (base : List ℕ) (before : ℕ)
        → Prints base (W.written sink.old) (tale_text plan.now.tasks tale.now) sink_failed
        → Counts before (W.faults sink.old) sink_failed
        → WritesReport (Rose before (W.faults sink.new)) base (W.written sink.new) plan.now tale.now result }
    ensures ends { EndsBy ((sink_failed ≡ true) ⊎ Rose (W.faults sink.old) (W.faults sink.new)) status result }
    ensures stays { W.tells → (front : List ℕ) → IsFront front (W.written sink.old)
        → IsFront front (W.written sink.new) }
    ensures later { W.faults sink.old ≤ W.faults sink.new }
{
    if sink_failed {
        return unwritten(status);
    }
    tell_end(alloc, sink, plan, tale, status)
}

/// The same of a run that wanted memory at its end.
pub(crate) fn want_unless<W: Sink>(sink: &mut W, sink_failed: bool) -> Status
    ensures text { W.tells → (plan : ThePlan) (tale : List Entry) (base : List ℕ) (before : ℕ)
        → Prints base (W.written sink.old) (tale_text plan.tasks tale) sink_failed
        → Counts before (W.faults sink.old) sink_failed
        → WritesReport (Rose before (W.faults sink.new)) base (W.written sink.new) plan tale result }
    ensures ends { (result ≡ ends.OutOfMemory) ⊎ ((result ≡ ends.WriteFault) × (sink_failed ≡ true)) }
    ensures stays { W.tells → (front : List ℕ) → IsFront front (W.written sink.old)
        → IsFront front (W.written sink.new) }
    ensures later { W.faults sink.old ≤ W.faults sink.new }
{
    if sink_failed {
        return Status::WriteFault;
    }
    end_wanting(sink)
}
