//! Where the time of a run went: when each line was written, and a trace that profilers open.
//!
//! A sink keeps when each line of what it took ended, whatever these lines are. A run writes its plan as a line and then each event as one,
//! in the order of its tale, so times and tale together say when each event came about. Where there are several runs the lines of their
//! plans are known. The trace has the form that browsers' profilers open ("Trace Event Format", an array of events with times in microseconds).
//!
//! Promised is that the sink is the one below, to its contract's last clause, and that texts are safely made. What they say is shown by
//! `tests/program.sh`. (Own rules: BitBake has `buildstats` for this; Yocto Project Reference Manual, chapter "Classes".)
#![tactic(auto)]

mod timed;
mod trace;

pub use timed::{Timed, micros_now};
pub use trace::{Times, trace_text};
