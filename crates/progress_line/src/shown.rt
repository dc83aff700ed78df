// A sink before whose pieces the line is taken away.
use crate::progress::Progress;
use outside_traits::{Sink, SinkFault};
use std::sync::Wait;

/// A sink, with the line of the run that writes to it, where there is one. It tells what the sink below tells.
#[derive(Drop)]
pub struct Shown<'p, S, R> {
    /// The sink below.
    pub inner: S,
    progress: Option<&'p Progress>,
    rt: HostRuntime,
    wait: &'p R,
}

impl<'p, S, R> Shown<'p, S, R> {
    /// The sink below, with this line.
    pub fn new(
        inner: S,
        progress: Option<&'p Progress>,
        rt: HostRuntime,
        wait: &'p R,
    ) -> Shown<'p, S, R> {
        Shown {
            inner,
            progress,
            rt,
            wait,
        }
    }
}

impl<'p, S: Sink, R: Wait> Sink for Shown<'p, S, R> {
    ghost tells = { S.tells };

    ghost written = { λ t. S.written t.inner };

    ghost faults = { λ t. S.faults t.inner };

    fn write(&mut self, piece: &[u8]) -> Result<usize, SinkFault> {
        let Some(progress) = self.progress else {
            return self.inner.write(piece);
        };
        let mut state = progress.locked(self.wait);
        state.erase(&self.rt);
        let taken = self.inner.write(piece)?;
        state.note(&self.rt, &piece[..taken]);
        Ok(taken)
    }
}
