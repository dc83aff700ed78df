// The terminal.
use std::alloc::AllocError;
use std::env;
use std::io::{IsTerminal, Write};

/// Goes to the begin of the row, and takes away what stands there (ECMA-48: CR, EL).
pub(crate) const ERASE: &str = "\r\x1b[K";

/// Writes to standard error, all at once. Where it can't be written, it isn't.
pub(crate) fn put(rt: &HostRuntime, text: &str) {
    let _ = rt.stderr().write_all(text.as_bytes());
}

/// Whether the caller's variable TERM names a terminal that can more than print.
fn can_more(rt: &HostRuntime) -> bool {
    if let Ok(variables) = env::vars(rt) {
        for (name, value) in variables {
            if name.as_str() == "TERM" {
                return !matches!(value.as_str(), "" | "dumb");
            }
        }
    }
    false
}

/// Whether there is a terminal for the line: standard error is one, and can more than print.
pub fn has_place(rt: &HostRuntime) -> bool {
    rt.stderr().is_terminal() && can_more(rt)
}

/// The text behind what takes the line away.
fn behind_erase(rt: &HostRuntime, text: &str) -> Result<String, AllocError> {
    let mut whole = String::from_str(rt.alloc(), ERASE)?;
    whole.push_str(text)?;
    Ok(whole)
}

/// Writes whole lines to standard error, all at once, so that what other threads write doesn't stand in the middle of them. Where there is a place
/// for the line of a run, it is taken away first; it comes again by itself. What can't be written isn't.
pub fn tell(rt: &HostRuntime, text: &str) {
    if has_place(rt) {
        if let Ok(whole) = behind_erase(rt, text) {
            put(rt, whole.as_str());
            return;
        }
    }
    put(rt, text);
}
