// The trace of the last run.
use host_files::is_memory;
use meta_model::{Logged, Plan};
use run_reasons::{Planned, put_beside};
use run_trace::{Times, trace_text};
use std::io;
use tree_model::ListOf;

/// The file of the trace, in the folder of the store.
const TRACE: &str = "trace.json";

/// When the lines of runs were written, and where among them those of their plans stand.
#[derive(Clone, Copy, Drop)]
pub struct Lines<'r> {
    pub times: &'r [u64],
    pub plans: &'r [usize],
    pub planned: &'r [Planned],
}

/// When the run began whose plan's line stands there: the program for the first, and for another one when the line before it was written.
fn times_at<'r>(lines: &Lines<'r>, begun: u64, is_first: bool, at: usize) -> Times<'r> {
    let times = &lines.times[at.min(lines.times.len())..];
    let before = lines.times.get(at.saturating_sub(1));
    match before {
        Some(before) if !is_first => Times {
            begun: *before,
            lines: times,
        },
        _ => Times {
            begun,
            lines: times,
        },
    }
}

/// Keeps where the time of each run went, in `build/trace.json`, and that of the configuration NAME in `build/mc/NAME/trace.json`. Each tale is that of
/// the plan at its place. Where that can't be, standard error says so, and no status changes.
pub fn keep_trace(
    rt: &HostRuntime,
    plans: &[Plan],
    tales: &[ListOf<Logged>],
    lines: &Lines<'_>,
    begun: u64,
) {
    let mut is_first = true;
    for (((plan, tale), planned), at) in plans
        .iter()
        .zip(tales)
        .zip(lines.planned)
        .zip(lines.plans)
    {
        let times = times_at(lines, begun, is_first, *at);
        is_first = false;
        match write_trace(rt, plan, tale.as_slice(), &times, planned) {
            Err(error) if !is_memory(&error) => {
                let _ = eprintln!(rt;
                    "bitbake: trace: write of {}/{TRACE}: {error}",
                    planned.store.as_str()
                );
            }
            _ => {}
        }
    }
}

/// Writes the trace of a run, in place of that of the one before.
fn write_trace(
    rt: &HostRuntime,
    plan: &Plan,
    tale: &[Logged],
    times: &Times<'_>,
    planned: &Planned,
) -> io::Result<()> {
    let text = trace_text(rt.alloc(), plan, tale, times)?;
    put_beside(rt, planned, TRACE, text)
}
