// Layers that count the lines which show a remark by themselves.

use crate::lines::{Shown, note_lines};
use outside_traits::{Layers, ReadFault};
use std::alloc::Global;
use std::collections::BTreeMap;
use tree_model::{Bytes, Mem, Texts};
use value_maps::{Names, put_name};

/// The ends of the names of files of metadata. Input files are read through the layers too, and aren't looked at.
const METADATA: &[&str] = &[".bb", ".bbappend", ".bbclass", ".conf", ".inc"];

/// Layers, with how many lines of the metadata that was read of them show a remark by themselves: a name in the old spelling of
/// overrides, or a variable that has no effect. Each file is looked at once. They tell what the layers below tell.
#[derive(Drop)]
pub struct Counted<L> {
    /// The layers below.
    pub inner: L,
    seen: Names,
    shown: Shown,
}

impl<L> Counted<L> {
    /// Layers of which nothing was read so far.
    pub fn new(alloc: Global, inner: L) -> Counted<L> {
        Counted {
            inner,
            seen: BTreeMap::new(alloc),
            shown: Shown {
                spelled: 0,
                idle: 0,
                skips_spelled: false,
                skips_idle: false,
            },
        }
    }

    /// How many lines show a remark by themselves, of the kinds that no line switches off.
    pub fn count(&self) -> u64 {
        let Shown {
            spelled,
            idle,
            skips_spelled,
            skips_idle,
        } = self.shown;
        let spelled = if skips_spelled { 0 } else { spelled };
        let idle = if skips_idle { 0 } else { idle };
        spelled.saturating_add(idle)
    }
}

/// Looks at a file, if it is one of metadata and isn't among those that were seen.
fn look(
    seen: &mut Names,
    shown: &mut Shown,
    alloc: Global,
    path: &str,
    bytes: &[u8],
) -> Result<(), Mem> {
    let is_metadata = METADATA.iter().any(|end| path.ends_with(*end));
    if !is_metadata || seen.get(path).is_some() {
        return Ok(());
    }
    put_name(seen, alloc, path)?;
    note_lines(shown, alloc, bytes)
}

impl<L: Layers> Layers for Counted<L> {
    ghost tells = { L.tells };

    ghost files = { λ c. L.files c.inner };

    ghost faults = { λ c. L.faults c.inner };

    ghost clean = { λ c told. L.clean c.inner told };

    fn read(&mut self, alloc: Global, path: &str, max: u64) -> Result<Option<Bytes>, ReadFault> {
        match self.inner.read(alloc, path, max) {
            Ok(Some(bytes)) => {
                let slice = bytes.as_slice();
                match look(&mut self.seen, &mut self.shown, alloc, path, slice) {
                    Ok(()) => Ok(Some(bytes)),
                    Err(_) => Err(ReadFault::Memory),
                }
            }
            other => other,
        }
    }

    fn list(&mut self, alloc: Global, prefix: &str) -> Result<Texts, ReadFault> {
        self.inner.list(alloc, prefix)
    }
}
