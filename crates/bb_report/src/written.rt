// How a text is written.
ghost use Rattle.std.specs.Prelude.{◌≡◌, ◌++◌, OnOk, OnErr};
ghost use Rattle.outside_traits.specs.Fault.{Counts, sink_failed};
ghost use Rattle.run_model.specs.Written.{WritesFront};

use outside_traits::{Sink, SinkFault};

/// Writes the whole text, or a front of it where the sink fails. It takes no memory; each turn the sink takes at least one
/// byte or fails.
pub fn write_all<W: Sink>(sink: &mut W, text: &[u8]) -> Result<(), SinkFault>
    ensures ok { OnOk result (W.tells → W.written sink.new ≡ W.written sink.old ++ text.now) }
    ensures err { OnErr result (W.tells → WritesFront (W.written sink.old) (W.written sink.new) text.now) }
    ensures cause { Counts (W.faults sink.old) (W.faults sink.new) (sink_failed result) }
{
    let mut rest = text;
    while !rest.is_empty() {
        let taken = sink.write(rest)?;
        rest = &rest[taken..];
    }
    Ok(())
}
