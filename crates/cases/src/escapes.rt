// Texts with escapes, as the bytes that they stand for.
use crate::wrong::Wrong;
use std::alloc::Global;
use std::{mem, str};

/// Where the reading of a text with escapes stands.
#[derive(Clone, Copy)]
enum State {
    /// Outside an escape.
    Plain,
    /// Behind a backslash.
    Escape,
    /// Behind `\x`.
    FirstDigit,
    /// Behind `\x` and a digit of this value.
    SecondDigit(u8),
    /// In the number of `\{N*TEXT}`.
    Number,
}

/// A text that is read, byte by byte.
#[derive(Drop)]
struct Reader {
    state: State,
    /// What was read, outside a repeated part.
    whole: Vec<u8>,
    /// The part that is repeated, as often as `times` says, while it is read.
    part: Vec<u8>,
    is_part: bool,
    times: u64,
}

impl Reader {
    fn put(&mut self, byte: u8) -> Result<(), Wrong> {
        self.state = State::Plain;
        if self.is_part {
            self.part.push(byte)?;
        } else {
            self.whole.push(byte)?;
        }
        Ok(())
    }

    /// Ends the repeated part.
    fn repeat(&mut self) -> Result<(), Wrong> {
        for _ in 0..self.times {
            self.whole.extend_from_slice(self.part.as_slice())?;
        }
        self.part.clear();
        self.is_part = false;
        Ok(())
    }

    /// A byte outside an escape.
    fn take_plain(&mut self, byte: u8) -> Result<(), Wrong> {
        match byte {
            b'\\' => {
                self.state = State::Escape;
                Ok(())
            }
            b'}' if self.is_part => self.repeat(),
            _ => self.put(byte),
        }
    }

    /// The byte behind a backslash.
    fn take_escape(&mut self, byte: u8) -> Result<(), Wrong> {
        match byte {
            b'n' => self.put(b'\n'),
            b't' => self.put(b'\t'),
            b'r' => self.put(b'\r'),
            b'\\' => self.put(b'\\'),
            b'x' => {
                self.state = State::FirstDigit;
                Ok(())
            }
            b'{' if !self.is_part => {
                self.times = 0;
                self.state = State::Number;
                Ok(())
            }
            _ => Err(Wrong::Says("a backslash begins no escape")),
        }
    }

    /// A byte of the number of a repeated part.
    fn take_number(&mut self, byte: u8) -> Result<(), Wrong> {
        match byte {
            b'0'..=b'9' => {
                let digit = u64::from(byte - b'0');
                self.times = self.times.saturating_mul(10).saturating_add(digit);
                Ok(())
            }
            b'*' => {
                self.is_part = true;
                self.state = State::Plain;
                Ok(())
            }
            _ => Err(Wrong::Says("a repeated text has no number")),
        }
    }

    fn take(&mut self, byte: u8) -> Result<(), Wrong> {
        match self.state {
            State::Plain => self.take_plain(byte),
            State::Escape => self.take_escape(byte),
            State::FirstDigit => {
                self.state = State::SecondDigit(digit_of(byte)?);
                Ok(())
            }
            State::SecondDigit(first) => {
                let second = digit_of(byte)?;
                self.put(first.wrapping_mul(16) | second)
            }
            State::Number => self.take_number(byte),
        }
    }

    /// What was read, once nothing is open.
    fn finish(&mut self, alloc: Global) -> Result<Vec<u8>, Wrong> {
        match self.state {
            State::Plain if !self.is_part => Ok(mem::replace(&mut self.whole, Vec::new(alloc))),
            _ => Err(Wrong::Says("an escape has no end")),
        }
    }
}

/// The value of a hexadecimal digit.
fn digit_of(byte: u8) -> Result<u8, Wrong> {
    match byte {
        b'0'..=b'9' => Ok(byte - b'0'),
        b'a'..=b'f' => Ok(byte - b'a' + 10),
        b'A'..=b'F' => Ok(byte - b'A' + 10),
        _ => Err(Wrong::Says("an escape has no two hexadecimal digits")),
    }
}

/// The bytes that a text with escapes stands for.
pub fn unescaped(alloc: Global, text: &str) -> Result<Vec<u8>, Wrong> {
    let mut reader = Reader {
        state: State::Plain,
        whole: Vec::new(alloc),
        part: Vec::new(alloc),
        is_part: false,
        times: 0,
    };
    for byte in text.as_bytes() {
        reader.take(*byte)?;
    }
    reader.finish(alloc)
}

/// The text that a text with escapes stands for.
pub fn unescaped_text(alloc: Global, text: &str) -> Result<String, Wrong> {
    let bytes = unescaped(alloc, text)?;
    match str::from_utf8(bytes.as_slice()) {
        Ok(text) => Ok(String::from_str(alloc, text)?),
        Err(_) => Err(Wrong::Says("a path or a word isn't UTF-8")),
    }
}
