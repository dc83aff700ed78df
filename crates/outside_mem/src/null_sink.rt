// A sink that keeps nothing.
ghost use Rattle.std.specs.Prelude.{[]};

use outside_traits::{Sink, SinkFault};

/// A sink that takes all that is written and keeps nothing of it. It never fails, takes no memory, and tells nothing.
#[derive(Clone, Copy, Debug)]
pub struct NullSink;

impl Sink for NullSink {
    ghost tells = { ⊥ };

    ghost written = { λ _. [] };

    ghost faults = { λ _. 0 };

    fn write(&mut self, piece: &[u8]) -> Result<usize, SinkFault> {
        Ok(piece.len())
    }
}
