// Standard output.
ghost use Rattle.std.specs.Prelude.{[]};

use host_files::{FirstFault, one_more};
use outside_traits::{Sink, SinkFault};
use std::io;
use std::io::{ErrorKind, Write};

/// The program's standard output. It tells nothing.
#[derive(Drop)]
pub struct StdSink<R> {
    rt: R,
    faults: u64,
    first: FirstFault,
}

impl<R> StdSink<R> {
    /// Standard output, without a fault so far.
    pub fn new(rt: R) -> Self {
        StdSink {
            rt,
            faults: 0,
            first: FirstFault::none(),
        }
    }

    /// What is said of the first fault.
    pub fn first_fault(&self) -> Option<&str> {
        self.first.as_str()
    }
}

impl<R: AllocGlobal> StdSink<R> {
    ghost use Rattle.std.specs.Prelude.{true};
    ghost use Rattle.outside_traits.specs.Fault.{Counts};

    /// Counts a fault.
    fn fault(&mut self, error: &io::Error) -> SinkFault
        ensures { Counts self.old.faults self.new.faults true }
    {
        self.faults = one_more(self.faults);
        self.first
            .keep(self.rt.alloc(), "write", "standard output", error);
        SinkFault
    }
}

impl<R: Print + AllocGlobal> Sink for StdSink<R> {
    ghost tells = { ⊥ };

    ghost written = { λ _. [] };

    ghost faults = { λ s. s.faults };

    // A piece of which nothing was taken counts as a fault.
    fn write(&mut self, piece: &[u8]) -> Result<usize, SinkFault> {
        match io::writer(&self.rt).write(piece) {
            Ok(taken) if taken > 0 || piece.is_empty() => Ok(taken),
            Ok(_) => Err(self.fault(&io::Error::from(ErrorKind::WriteZero))),
            Err(error) => Err(self.fault(&error)),
        }
    }
}
