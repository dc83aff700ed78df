// The line, and who draws it.
use crate::line::Line;
use crate::terminal::{ERASE, put};
use std::alloc::Global;
use std::sync::{Condvar, Mutex, MutexGuard, Wait};
use std::time::{Clock, Duration};

/// How long a run lasts at least of which there is a line, and how often the line is drawn; in milliseconds.
const FIRST: u64 = 300;

const BETWEEN: u64 = 200;

/// What is known of the run, and whether the line stands there.
#[derive(Drop)]
pub(crate) struct State {
    line: Line,
    is_drawn: bool,
    is_over: bool,
}

/// The line of a run.
#[derive(Drop)]
pub struct Progress {
    state: Mutex<State>,
    over: Condvar,
}

/// The time now, in microseconds of the monotonic clock; 0 where the system doesn't say it.
pub(crate) fn micros_now(clock: &HostRuntime) -> u64 {
    match clock.monotonic() {
        Ok(time) => u64::try_from(time.as_micros()).unwrap_or(u64::MAX),
        Err(_) => 0,
    }
}

impl State {
    /// Takes the line away, where it stands there.
    pub(crate) fn erase(&mut self, rt: &HostRuntime) {
        if self.is_drawn {
            put(rt, ERASE);
            self.is_drawn = false;
        }
    }

    /// Draws the line as it is now.
    fn draw(&mut self, rt: &HostRuntime) {
        if let Ok(Some(text)) = self.line.text(rt.alloc(), micros_now(rt)) {
            put(rt, text.as_str());
            self.is_drawn = true;
        }
    }

    /// Learns from a piece that a run wrote.
    pub(crate) fn note(&mut self, rt: &HostRuntime, piece: &[u8]) {
        self.line.note(rt.alloc(), piece, micros_now(rt));
    }
}

impl Progress {
    /// The line of a run that began then, in microseconds of the monotonic clock.
    pub fn new(alloc: Global, begun: u64) -> Progress {
        Progress {
            state: Mutex::new(State {
                line: Line::new(alloc, begun),
                is_drawn: false,
                is_over: false,
            }),
            over: Condvar::new(),
        }
    }

    /// The state, which nobody else has meanwhile.
    pub(crate) fn locked<R: Wait>(&self, wait: &R) -> MutexGuard<'_, State> {
        self.state.lock(wait)
    }

    /// Draws the line again and again, until the run is over; then it is gone.
    pub fn tick<R: Wait + Clock>(&self, rt: &HostRuntime, wait: &R) {
        let mut state = self.state.lock(wait);
        let mut pause = FIRST;
        for _ in wait.forever() {
            if state.is_over {
                state.erase(rt);
                return;
            }
            state = self
                .over
                .wait_timeout(wait, state, Duration::from_millis(pause))
                .0;
            pause = BETWEEN;
            if !state.is_over {
                state.draw(rt);
            }
        }
    }

    /// Says that the run is over, and takes the line away.
    pub fn stop<R: Wait>(&self, rt: &HostRuntime, wait: &R) {
        let mut state = self.state.lock(wait);
        state.is_over = true;
        state.erase(rt);
        self.over.notify_all();
    }
}
