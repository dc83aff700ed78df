// Standard error.
use progress_line::tell;

/// A runtime that can write to standard error.
pub trait Telling {
    /// Writes a text all at once, so that what other threads write doesn't stand in the middle of it. Where it can't be written, it isn't.
    fn tell(&self, text: &str);
}

impl Telling for HostRuntime {
    fn tell(&self, text: &str) {
        tell(self, text);
    }
}
