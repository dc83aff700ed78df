// The lines of events, as they are written.
ghost use Rattle.std.specs.Prelude.{◌≡◌, ◌++◌, ◌<◌, OnOk, OnErr, codes, length};
ghost use Rattle.outside_traits.specs.Fault.{Counts, sink_failed};
ghost use Rattle.run_model.specs.Texts.{task_label};
ghost use Rattle.run_model.specs.Written.{WritesFront};
ghost use Rattle.run_model.specs.Report.{cut_text, event_line, line_of, task_of, why_text};

use crate::written::write_all;
use itoa::Buffer;
use meta_model::{Cut, Event, Plan, TaskId, Why};
use outside_traits::{Sink, SinkFault};

/// Writes two texts, one behind the other.
fn write_both<W: Sink>(sink: &mut W, first: &[u8], second: &[u8]) -> Result<(), SinkFault>
    ensures ok { OnOk result (W.tells → W.written sink.new ≡ W.written sink.old ++ (first.now ++ second.now)) }
    ensures err { OnErr result (W.tells → WritesFront (W.written sink.old) (W.written sink.new)
        (first.now ++ second.now)) }
    ensures cause { Counts (W.faults sink.old) (W.faults sink.new) (sink_failed result) }
{
    write_all(sink, first)?;
    write_all(sink, second)
}

/// Writes three texts, one behind the other.
fn write_three<W: Sink>(
    sink: &mut W,
    first: &[u8],
    second: &[u8],
    third: &[u8],
) -> Result<(), SinkFault>
    ensures ok { OnOk result (W.tells → W.written sink.new ≡ W.written sink.old
        ++ (first.now ++ (second.now ++ third.now))) }
    ensures err { OnErr result (W.tells → WritesFront (W.written sink.old) (W.written sink.new)
        (first.now ++ (second.now ++ third.now))) }
    ensures cause { Counts (W.faults sink.old) (W.faults sink.new) (sink_failed result) }
{
    write_all(sink, first)?;
    write_both(sink, second, third)
}

/// Writes a task.
fn write_label<W: Sink>(sink: &mut W, id: &TaskId) -> Result<(), SinkFault>
    ensures ok { OnOk result (W.tells → W.written sink.new ≡ W.written sink.old ++ task_label id.now) }
    ensures err { OnErr result (W.tells → WritesFront (W.written sink.old) (W.written sink.new) (task_label id.now)) }
    ensures cause { Counts (W.faults sink.old) (W.faults sink.new) (sink_failed result) }
{
    let (pn, task) = (id.pn.as_str(), id.task.as_str());
    write_three(sink, pn.as_bytes(), b":", task.as_bytes())
}

/// Writes a task and what stands behind it.
fn write_rest<W: Sink>(sink: &mut W, id: &TaskId, end: &[u8]) -> Result<(), SinkFault>
    ensures ok { OnOk result (W.tells → W.written sink.new ≡ W.written sink.old ++ (task_label id.now ++ end.now)) }
    ensures err { OnErr result (W.tells → WritesFront (W.written sink.old) (W.written sink.new)
        (task_label id.now ++ end.now)) }
    ensures cause { Counts (W.faults sink.old) (W.faults sink.new) (sink_failed result) }
{
    write_label(sink, id)?;
    write_all(sink, end)
}

/// Writes a word, a task and what stands behind it.
fn write_line<W: Sink>(sink: &mut W, word: &[u8], id: &TaskId, end: &[u8]) -> Result<(), SinkFault>
    ensures ok { OnOk result (W.tells → W.written sink.new ≡ W.written sink.old
        ++ (word.now ++ (task_label id.now ++ end.now))) }
    ensures err { OnErr result (W.tells → WritesFront (W.written sink.old) (W.written sink.new)
        (word.now ++ (task_label id.now ++ end.now))) }
    ensures cause { Counts (W.faults sink.old) (W.faults sink.new) (sink_failed result) }
{
    write_all(sink, word)?;
    write_rest(sink, id, end)
}

/// Writes the status with which a script ended.
fn write_status<W: Sink>(sink: &mut W, status: u32) -> Result<(), SinkFault>
    ensures ok { OnOk result (W.tells → W.written sink.new ≡ W.written sink.old ++ why_text (Why.Status status)) }
    ensures err { OnErr result (W.tells → WritesFront (W.written sink.old) (W.written sink.new)
        (why_text (Why.Status status))) }
    ensures cause { Counts (W.faults sink.old) (W.faults sink.new) (sink_failed result) }
{
    let mut buffer = Buffer::new();
    let digits = buffer.format(status);
    write_all(sink, b" status ")?;
    write_both(sink, digits.as_bytes(), b"\n")
}

/// Writes why a task failed.
fn write_why<W: Sink>(sink: &mut W, why: Why) -> Result<(), SinkFault>
    ensures ok { OnOk result (W.tells → W.written sink.new ≡ W.written sink.old ++ why_text why) }
    ensures err { OnErr result (W.tells → WritesFront (W.written sink.old) (W.written sink.new) (why_text why)) }
    ensures cause { Counts (W.faults sink.old) (W.faults sink.new) (sink_failed result) }
{
    match why {
        Why::TooLarge => write_all(sink, b" too large\n"),
        Why::Status(status) => write_status(sink, status),
    }
}

/// Writes the line of a task that failed.
fn write_failed<W: Sink>(sink: &mut W, id: &TaskId, why: Why) -> Result<(), SinkFault>
    ensures ok { OnOk result (W.tells → W.written sink.new ≡ W.written sink.old
        ++ (codes "failed " ++ (task_label id.now ++ why_text why))) }
    ensures err { OnErr result (W.tells → WritesFront (W.written sink.old) (W.written sink.new)
        (codes "failed " ++ (task_label id.now ++ why_text why))) }
    ensures cause { Counts (W.faults sink.old) (W.faults sink.new) (sink_failed result) }
{
    write_all(sink, b"failed ")?;
    write_label(sink, id)?;
    write_why(sink, why)
}

/// What stands behind a task that was broken off.
fn cut_end(cut: Cut) -> &'static [u8]
    ensures { result.now ≡ cut_text cut }
{
    match cut {
        Cut::Memory => b" memory\n",
        Cut::Bench => b" bench\n",
        Cut::Fault => b" fault\n",
    }
}

/// The task of an event.
fn task_of_event(event: &Event) -> u32
    ensures { result ≡ task_of event.now }
{
    match event {
        Event::Found { task }
        | Event::Restored { task }
        | Event::Started { task, seat: _ }
        | Event::Ended { task }
        | Event::Failed { task, why: _ }
        | Event::Broke { task, cut: _ } => *task,
    }
}

/// Writes the line of an event of a task.
fn write_of<W: Sink>(sink: &mut W, id: &TaskId, event: &Event) -> Result<(), SinkFault>
    ensures ok { OnOk result (W.tells → W.written sink.new ≡ W.written sink.old
        ++ line_of (task_label id.now) event.now) }
    ensures err { OnErr result (W.tells → WritesFront (W.written sink.old) (W.written sink.new)
        (line_of (task_label id.now) event.now)) }
    ensures cause { Counts (W.faults sink.old) (W.faults sink.new) (sink_failed result) }
{
    match event {
        Event::Found { task: _ } => write_line(sink, b"found ", id, b"\n"),
        Event::Restored { task: _ } => write_line(sink, b"restored ", id, b"\n"),
        Event::Started { task: _, seat: _ } => write_line(sink, b"started ", id, b"\n"),
        Event::Ended { task: _ } => write_line(sink, b"ended ", id, b"\n"),
        Event::Failed { task: _, why } => write_failed(sink, id, *why),
        Event::Broke { task: _, cut } => write_line(sink, b"broke ", id, cut_end(*cut)),
    }
}

/// Writes the line of an event of a run, or a front of it where the sink fails. It takes no memory. The event's task has to be one
/// of the plan. (Own rule.)
pub fn write_event<W: Sink>(sink: &mut W, plan: &Plan, event: &Event) -> Result<(), SinkFault>
    requires { task_of event.now < length plan.now.tasks }
    ensures ok { OnOk result (W.tells → W.written sink.new ≡ W.written sink.old
        ++ event_line plan.now.tasks event.now) }
    ensures err { OnErr result (W.tells → WritesFront (W.written sink.old) (W.written sink.new)
        (event_line plan.now.tasks event.now)) }
    ensures cause { Counts (W.faults sink.old) (W.faults sink.new) (sink_failed result) }
{
    let tasks = plan.tasks.as_slice();
    write_of(sink, &tasks[task_of_event(event) as usize].id, event)
}
