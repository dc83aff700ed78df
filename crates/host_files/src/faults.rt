// Counts of faults, what an error of the system is for a device, and what a device says of its first fault.
ghost use Rattle.std.specs.Prelude.{◌≤◌};
ghost use Rattle.outside_traits.specs.Fault.{Rose};

use std::alloc::{AllocError, Global};
use std::io;
use std::io::ErrorKind;

/// One fault more. The count stands still at its last value.
pub fn one_more(count: u64) -> u64
    ensures rose { Rose count result }
    ensures later { count ≤ result }
{
    count.saturating_add(1)
}

/// Whether a call of the system failed for want of memory. That is no fault of a device.
pub fn is_memory(error: &io::Error) -> bool {
    error.kind() == ErrorKind::OutOfMemory
}

/// Bytes as text: those that are no UTF-8, and control characters, as `\xff`; control characters beyond ASCII as `\u{85}`.
pub fn escape(alloc: Global, bytes: &[u8]) -> Result<String, AllocError> {
    let mut text = String::with_capacity(alloc, bytes.len())?;
    put_escaped(&mut text, bytes)?;
    Ok(text)
}

/// Puts bytes as text behind a text.
pub fn put_escaped(text: &mut String, bytes: &[u8]) -> Result<(), AllocError> {
    for chunk in bytes.utf8_chunks() {
        for character in chunk.valid().chars() {
            put_plain(text, character)?;
        }
        for byte in chunk.invalid() {
            write!(text, "\\x{byte:02x}")?;
        }
    }
    Ok(())
}

/// Puts a character behind a text, a control character escaped.
fn put_plain(text: &mut String, character: char) -> Result<(), AllocError> {
    let code = character as u32;
    if code < 32 || code == 127 {
        return write!(text, "\\x{code:02x}");
    }
    if (128..160).contains(&code) {
        return write!(text, "\\u{{{code:x}}}");
    }
    text.push(character)
}

/// What a device says of its first fault: which call it was, at which place, and what the system said. Later faults
/// often follow from the first, so they are counted alone. Where there is no memory for the sentence there is none.
#[derive(Drop)]
pub struct FirstFault {
    sentence: Option<String>,
}

impl FirstFault {
    /// No fault so far.
    pub fn none() -> Self {
        FirstFault { sentence: None }
    }

    /// Keeps the sentence of a fault, if it is the first.
    pub fn keep(&mut self, alloc: Global, call: &str, place: &str, error: &io::Error) {
        if self.sentence.is_none() {
            self.sentence = sentence(alloc, call, place, error).ok();
        }
    }

    /// The sentence of the first fault.
    pub fn as_str(&self) -> Option<&str> {
        match &self.sentence {
            Some(sentence) => Some(sentence.as_str()),
            None => None,
        }
    }
}

/// What was done where, and what the system said.
fn sentence(
    alloc: Global,
    call: &str,
    place: &str,
    error: &io::Error,
) -> Result<String, AllocError> {
    format!(in alloc; "{call} of {place}: {error}")
}
