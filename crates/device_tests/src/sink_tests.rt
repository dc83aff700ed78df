// A sink in memory.
use crate::samples::only;
use outside_mem::MemSink;
use outside_traits::{Sink, SinkFault};
use std::test::Fail;

fn say<S: Sink>(sink: &mut S, piece: &[u8]) -> Result<usize, SinkFault> {
    sink.write(piece)
}

#[test]
fn sink_tells(rt: HostRuntime) -> Result<(), Fail> {
    let alloc = rt.alloc();
    let mut sink = MemSink::new(alloc, only(alloc, 2)?)?;
    assert_eq!(rt; say(&mut sink, b"plan "), Ok(5));
    assert_eq!(rt; say(&mut sink, b"lost"), Err(SinkFault));
    assert_eq!(rt; say(&mut sink, b""), Ok(0));
    assert_eq!(rt; say(&mut sink, b"1 tasks\n"), Ok(8));
    assert_eq!(rt; sink.written(), b"plan 1 tasks\n".as_slice());
    Ok(())
}

/// The room is 4 MiB. A piece that is one byte too long is refused whole, and the last byte fits.
#[test]
fn sink_is_full(rt: HostRuntime) -> Result<(), Fail> {
    let alloc = rt.alloc();
    let mut sink = MemSink::new(alloc, only(alloc, 0)?)?;
    let piece = [b'x'; 4096];
    for _ in 0..1023 {
        assert!(rt; say(&mut sink, &piece).is_ok());
    }
    assert_eq!(rt; say(&mut sink, &piece[1..]), Ok(4095));
    assert_eq!(rt; say(&mut sink, b"yz"), Err(SinkFault));
    assert_eq!(rt; say(&mut sink, b"y"), Ok(1));
    assert_eq!(rt; say(&mut sink, b"z"), Err(SinkFault));
    Ok(())
}
