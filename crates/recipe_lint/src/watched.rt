// Layers that keep what is read of them.
ghost use Rattle.std.specs.Prelude.{List, ℕ, Option};

use crate::files::Files;
use outside_traits::{Layers, ReadFault};
use std::alloc::Global;
use tree_model::{Bytes, Texts};

/// Layers, with the statements of each file that was read of them. They tell what the layers below tell.
#[derive(Drop)]
pub struct Watched<L> {
    /// The layers below.
    pub inner: L,
    pub(crate) files: Files,
}

impl<L> Watched<L> {
    /// Layers of which nothing was read so far.
    pub fn new(alloc: Global, inner: L) -> Watched<L> {
        Watched {
            inner,
            files: Files::new(alloc),
        }
    }
}

impl<L: Layers> Layers for Watched<L> {
    ghost tells = { L.tells };

    ghost files = { λ w. L.files w.inner };

    ghost faults = { λ w. L.faults w.inner };

    ghost clean = { λ w told. L.clean w.inner told };

    fn read(&mut self, alloc: Global, path: &str, max: u64) -> Result<Option<Bytes>, ReadFault> {
        match self.inner.read(alloc, path, max) {
            Ok(Some(bytes)) => match self.files.note(alloc, path, bytes.as_slice()) {
                Ok(()) => Ok(Some(bytes)),
                Err(_) => Err(ReadFault::Memory),
            },
            other => other,
        }
    }

    fn list(&mut self, alloc: Global, prefix: &str) -> Result<Texts, ReadFault> {
        self.inner.list(alloc, prefix)
    }
}
