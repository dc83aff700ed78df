// The sink: where text is written.
ghost use Rattle.std.specs.Prelude.{◌≡◌, ◌<◌, ◌≤◌, ◌++◌, List, ℕ, IfOk, OnErr, length, take};
ghost use Rattle.outside_traits.specs.Fault.{Counts, sink_failed};

use crate::SinkFault;

/// A place where text is written, as standard output.
///
/// A write answers `SinkFault` only where the count of faults rose in it, and else leaves the count as it was. It
/// takes no memory. (Own rule: no part of the BitBake User Manual.)
pub trait Sink {
    /// Sinks of this type tell what was written. Standard output tells nothing.
    ghost tells: { Type 0 };

    /// All bytes that were taken so far.
    ghost written: { Self → List ℕ };

    /// How often the sink has failed, up to 2^64 - 1.
    ghost faults: { Self → ℕ };

    /// Takes some bytes from the front of the piece, at least one of a piece that isn't empty, and says how many.
    /// After a fault nothing of the piece was taken.
    fn write(&mut self, piece: &[u8]) -> Result<usize, SinkFault>
        ensures taken { IfOk result (λ n. tells → written self.new ≡ written self.old ++ take n piece.now) }
        ensures within { IfOk result (λ n. n ≤ length piece.now) }
        ensures some { IfOk result (λ n. 0 < length piece.now → 0 < n) }
        ensures failed { OnErr result (tells → written self.new ≡ written self.old) }
        ensures cause { Counts (faults self.old) (faults self.new) (sink_failed result) };
}
