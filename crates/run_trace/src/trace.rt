// The trace of a run, as text.

use meta_model::{Cut, Event, Logged, Plan, PlanTask, Why};
use std::alloc::{AllocError, Global};

/// When things came about, in microseconds of one clock.
#[derive(Clone, Copy, Drop)]
pub struct Times<'a> {
    /// When the program began.
    pub begun: u64,

    /// When each line was written: that of the plan, and behind it one for each event of the tale.
    pub lines: &'a [u64],
}

/// The most workers of a run.
const SEATS: usize = 64;

/// The row of what no worker does.
const MAIN: u32 = 0;

/// The trace of a run of the plan, with this tale: a bar for what was read and planned, and one for the opening of the store; a row for each
/// worker, and there a bar for each task that it ran, with how that ended and which tasks it needs; and a point for each task that was found or
/// restored. The text is JSON.
pub fn trace_text(
    alloc: Global,
    plan: &Plan,
    tale: &[Logged],
    times: &Times<'_>,
) -> Result<String, AllocError> {
    let mut text = String::from_str(alloc, "{\"displayTimeUnit\":\"ms\",\"traceEvents\":[\n")?;
    put_rows(&mut text, plan.threads)?;
    put_main(&mut text, times)?;
    put_tale(&mut text, plan, tale, times)?;
    text.push_str("\n]}\n")?;
    Ok(text)
}

/// Puts the names of the rows. A worker's has the number of its seat; the calling thread's is that of what no worker does.
fn put_rows(text: &mut String, threads: u32) -> Result<(), AllocError> {
    put_row(text, MAIN, "bitbake")?;
    for worker in 0..threads {
        let row = worker.saturating_add(1);
        text.push_str(",\n")?;
        put_worker(text, row)?;
    }
    Ok(())
}

fn put_row(text: &mut String, row: u32, name: &str) -> Result<(), AllocError> {
    write!(
        text,
        "{{\"name\":\"thread_name\",\"ph\":\"M\",\"pid\":1,\"tid\":{row},\"args\":{{\"name\":\"{name}\"}}}}"
    )
}

fn put_worker(text: &mut String, row: u32) -> Result<(), AllocError> {
    write!(
        text,
        "{{\"name\":\"thread_name\",\"ph\":\"M\",\"pid\":1,\"tid\":{row},\"args\":{{\"name\":\"worker {row}\"}}}}"
    )
}

/// Puts the bars of what comes before the first event.
fn put_main(text: &mut String, times: &Times<'_>) -> Result<(), AllocError> {
    if let Some(planned) = times.lines.first() {
        put_bar(
            text,
            "reading and planning",
            MAIN,
            times.begun,
            times,
            *planned,
        )?;
        text.push('}')?;
        if let Some(opened) = times.lines.get(1) {
            put_bar(text, "opening the store", MAIN, *planned, times, *opened)?;
            text.push('}')?;
        }
    }
    Ok(())
}

/// Puts the beginning of a bar, whose last brace is still to come.
fn put_bar(
    text: &mut String,
    name: &str,
    row: u32,
    from: u64,
    times: &Times<'_>,
    to: u64,
) -> Result<(), AllocError> {
    write!(
        text,
        ",\n{{\"name\":\"{name}\",\"ph\":\"X\",\"pid\":1,\"tid\":{row},\"ts\":{},\"dur\":{}",
        from.saturating_sub(times.begun),
        to.saturating_sub(from)
    )
}

/// Puts what the tale tells, as far as its times are known.
fn put_tale(
    text: &mut String,
    plan: &Plan,
    tale: &[Logged],
    times: &Times<'_>,
) -> Result<(), AllocError> {
    let mut begun = [None; SEATS];
    for (entry, at) in tale.iter().zip(times.lines.iter().skip(1)) {
        let seat = (entry.seat as usize).min(SEATS - 1);
        match entry.event {
            Event::Started { task: _, seat: _ } => begun[seat] = Some(*at),
            _ => {
                let from = begun[seat].unwrap_or(*at);
                begun[seat] = None;
                put_end(text, plan, entry, from, times, *at)?;
            }
        }
    }
    Ok(())
}

/// Puts how a task was settled, or came to its end.
fn put_end(
    text: &mut String,
    plan: &Plan,
    entry: &Logged,
    from: u64,
    times: &Times<'_>,
    at: u64,
) -> Result<(), AllocError> {
    let row = entry.seat;
    match entry.event {
        Event::Started { task: _, seat: _ } => Ok(()),
        Event::Found { task } => put_point(text, plan, task, row, "found", times, at),
        Event::Restored { task } => put_point(text, plan, task, row, "restored", times, at),
        Event::Ended { task } => {
            put_task(text, plan, task, row, from, times, at)?;
            text.push_str("\"ended\"}}")
        }
        Event::Failed { task, why } => {
            put_task(text, plan, task, row, from, times, at)?;
            put_why(text, why)
        }
        Event::Broke { task, cut } => {
            put_task(text, plan, task, row, from, times, at)?;
            put_cut(text, cut)
        }
    }
}

/// Puts a point.
fn put_point(
    text: &mut String,
    plan: &Plan,
    task: u32,
    row: u32,
    how: &str,
    times: &Times<'_>,
    at: u64,
) -> Result<(), AllocError> {
    if let Some(own) = plan.tasks.as_slice().get(task as usize) {
        write!(
            text,
            ",\n{{\"name\":\"{}:{}\",\"cat\":\"{how}\",\"ph\":\"i\",\"s\":\"t\",\"pid\":1,\"tid\":{},\"ts\":{}}}",
            own.id.pn.as_str(),
            own.id.task.as_str(),
            row,
            at.saturating_sub(times.begun)
        )?;
    }
    Ok(())
}

/// Puts the bar of a task, up to how it ended, with what it needs.
fn put_task(
    text: &mut String,
    plan: &Plan,
    task: u32,
    row: u32,
    from: u64,
    times: &Times<'_>,
    to: u64,
) -> Result<(), AllocError> {
    let tasks = plan.tasks.as_slice();
    match tasks.get(task as usize) {
        Some(own) => {
            write!(
                text,
                ",\n{{\"name\":\"{}:{}\",\"cat\":\"task\",\"ph\":\"X\",\"pid\":1,\"tid\":{row},\"ts\":{},\"dur\":{},\"args\":{{",
                own.id.pn.as_str(),
                own.id.task.as_str(),
                from.saturating_sub(times.begun),
                to.saturating_sub(from)
            )?;
            put_needs(text, tasks, own)
        }
        None => text.push_str(",\n{\"ph\":\"M\",\"args\":{\"end\":"),
    }
}

/// Puts what a task needs directly.
fn put_needs(text: &mut String, tasks: &[PlanTask], own: &PlanTask) -> Result<(), AllocError> {
    text.push_str("\"needs\":[")?;
    let mut between = "";
    for number in own.deps.as_slice() {
        if let Some(needed) = tasks.get(*number as usize) {
            write!(
                text,
                "{between}\"{}:{}\"",
                needed.id.pn.as_str(),
                needed.id.task.as_str()
            )?;
            between = ",";
        }
    }
    text.push_str("],\"end\":")
}

/// Puts why a task failed, and the end of its bar.
fn put_why(text: &mut String, why: Why) -> Result<(), AllocError> {
    match why {
        Why::Status(status) => write!(text, "\"failed with status {status}\"}}}}"),
        Why::TooLarge => text.push_str("\"failed: too large\"}}"),
    }
}

/// Puts why a task broke off, and the end of its bar.
fn put_cut(text: &mut String, cut: Cut) -> Result<(), AllocError> {
    let why = match cut {
        Cut::Fault => "fault",
        Cut::Bench => "bench",
        Cut::Memory => "memory",
    };
    write!(text, "\"broke off: {why}\"}}}}")
}
