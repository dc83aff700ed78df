// A sink that keeps when each line was written.

use outside_traits::{Sink, SinkFault};
use std::alloc::Global;
use std::time::Clock;

/// A sink, with the time at which each line that it took had ended. It tells what the sink below tells.
#[derive(Drop)]
pub struct Timed<S, C> {
    /// The sink below.
    pub inner: S,

    /// What was seen of the lines.
    notes: Notes<C>,
}

/// What was seen of the lines that a sink took.
#[derive(Drop)]
struct Notes<C> {
    clock: C,

    /// The times, in microseconds of the system's monotonic clock. They end where there is no room for more.
    lines: Vec<u64>,

    /// The places of the lines that are of a plan.
    plans: Vec<usize>,

    /// How many bytes of `plan ` the line begins with whose end is still to come, if all of it is such.
    front: Option<usize>,
}

/// What the line of a plan begins with.
const PLAN: &[u8] = b"plan ";

/// The time now, in microseconds of the monotonic clock; 0 where the system doesn't say it.
pub fn micros_now<C: Clock>(clock: &C) -> u64 {
    match clock.monotonic() {
        Ok(time) => u64::try_from(time.as_micros()).unwrap_or(u64::MAX),
        Err(_) => 0,
    }
}

impl<S, C> Timed<S, C> {
    /// A sink of which nothing was written so far.
    pub fn new(alloc: Global, inner: S, clock: C) -> Timed<S, C> {
        Timed {
            inner,
            notes: Notes {
                clock,
                lines: Vec::new(alloc),
                plans: Vec::new(alloc),
                front: Some(0),
            },
        }
    }

    /// When each line had ended, in order.
    pub fn lines(&self) -> &[u64] {
        self.notes.lines.as_slice()
    }

    /// Where among them the lines of plans stand, in order.
    pub fn plans(&self) -> &[usize] {
        self.notes.plans.as_slice()
    }
}

/// How much of the begin of a plan's line is there behind one more byte.
fn front_behind(front: Option<usize>, byte: u8) -> Option<usize> {
    match front {
        Some(count) if count >= PLAN.len() => front,
        Some(count) if PLAN.get(count) == Some(&byte) => Some(count.saturating_add(1)),
        _ => None,
    }
}

impl<C: Clock> Notes<C> {
    /// Keeps that a line has ended. Want of memory leaves it untold.
    fn note_end(&mut self, time: u64) {
        if self.front == Some(PLAN.len()) {
            let _ = self.plans.push(self.lines.len());
        }
        self.front = Some(0);
        let _ = self.lines.push(time);
    }

    /// Puts a time behind the others for each line that ends in a piece.
    fn note_lines(&mut self, piece: &[u8]) {
        let mut now = None;
        for byte in piece {
            if *byte == b'\n' {
                let time = match now {
                    Some(time) => time,
                    None => micros_now(&self.clock),
                };
                now = Some(time);
                self.note_end(time);
            } else {
                self.front = front_behind(self.front, *byte);
            }
        }
    }
}

impl<S: Sink, C: Clock> Sink for Timed<S, C> {
    ghost tells = { S.tells };

    ghost written = { λ t. S.written t.inner };

    ghost faults = { λ t. S.faults t.inner };

    fn write(&mut self, piece: &[u8]) -> Result<usize, SinkFault> {
        let taken = self.inner.write(piece)?;
        self.notes.note_lines(&piece[..taken]);
        Ok(taken)
    }
}
