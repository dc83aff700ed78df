// Whether scripts run in sandboxes, which is one thing for all benches of a run.
use std::sync::OnceLock;
use std::sync::atomic::{AtomicU32, Ordering};

const UNKNOWN: u32 = 0;

const MADE: u32 = 1;

const REFUSED: u32 = 2;

/// Whether the scripts of a run have sandboxes, which the first bench that is used finds out. Then it holds for all others, so that no
/// output depends on which bench a task had.
#[derive(Drop)]
pub struct Sandboxes {
    state: AtomicU32,
    reason: OnceLock<String>,
}

impl Sandboxes {
    /// Nothing is known yet.
    pub fn unknown() -> Self {
        Sandboxes {
            state: AtomicU32::new(UNKNOWN),
            reason: OnceLock::new(),
        }
    }

    /// Why the system makes no sandbox, where that was found out.
    pub fn reason(&self) -> Option<&str> {
        match self.reason.get() {
            Some(reason) => Some(reason.as_str()),
            None => None,
        }
    }

    /// Whether scripts run without sandboxes.
    pub(crate) fn are_refused(&self) -> bool {
        self.state.load(Ordering::SeqCst) == REFUSED
    }

    /// Says that a sandbox was made, and whether that holds for all benches.
    pub(crate) fn note_made(&self) -> bool {
        self.settle(MADE)
    }

    /// Says why no sandbox was made, and whether that holds for all benches.
    pub(crate) fn note_refusal(&self, reason: String) -> bool {
        let holds = self.settle(REFUSED);
        if holds {
            let _ = self.reason.try_set(reason);
        }
        holds
    }

    fn settle(&self, state: u32) -> bool {
        let _ = self
            .state
            .compare_exchange(UNKNOWN, state, Ordering::SeqCst, Ordering::SeqCst);
        self.state.load(Ordering::SeqCst) == state
    }
}
