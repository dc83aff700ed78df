// Disks that count what a clearing takes away, or would take.
ghost use Rattle.std.specs.Prelude.{[]};

use outside_traits::{Disk, DiskFault, Sink, SinkFault};
use std::alloc::{AllocError, Global};
use std::fs;
use tree_model::{Entry, Texts};

/// Where a clearing puts what goes, before it removes that folder.
const GONE: &str = "tmp/gone";

/// The folders of objects and of keys.
const OBJECTS: &str = "obj/";

const KEYS: &str = "key/";

/// What goes.
#[derive(Drop)]
pub struct Freed<'a> {
    rt: &'a HostRuntime,

    /// How many bytes the files have.
    pub bytes: u64,

    /// Of how many objects, and how many keys there are.
    pub objects: u64,
    pub keys: u64,

    /// The folder of the last object.
    last: String,

    /// Whether all was counted. Want of memory is met where a call needs it.
    pub is_whole: bool,
}

impl<'a> Freed<'a> {
    /// Nothing so far.
    pub fn none(rt: &'a HostRuntime) -> Freed<'a> {
        Freed {
            rt,
            bytes: 0,
            objects: 0,
            keys: 0,
            last: String::new(rt.alloc()),
            is_whole: true,
        }
    }

    /// Counts an object by its folder, where that isn't the one of before: its files go one behind the other.
    fn note_object(&mut self, folder: &str) -> Result<(), AllocError> {
        if self.last.as_str() != folder {
            self.last = String::from_str(self.rt.alloc(), folder)?;
            self.objects = self.objects.saturating_add(1);
        }
        Ok(())
    }

    /// The bytes of the file at a path of the store.
    fn bytes_at(&self, path: &str) -> Result<u64, AllocError> {
        let whole = format!(in self.rt.alloc(); "build/{path}")?;
        match fs::symlink_metadata(self.rt, whole.as_str()) {
            Ok(there) if there.is_file() => Ok(there.len()),
            _ => Ok(0),
        }
    }

    /// Counts what stands at a path.
    fn count(&mut self, path: &str) -> Result<(), AllocError> {
        self.bytes = self.bytes.saturating_add(self.bytes_at(path)?);
        if let Some(rest) = path.strip_prefix(OBJECTS) {
            let (folder, _) = rest.split_once('/').unwrap_or((rest, ""));
            return self.note_object(folder);
        }
        if path.starts_with(KEYS) {
            self.keys = self.keys.saturating_add(1);
        }
        Ok(())
    }

    /// Counts what goes from a path.
    fn note(&mut self, path: &str) {
        if self.count(path).is_err() {
            self.is_whole = false;
        }
    }

    /// What was put aside has been counted by then.
    fn note_removed(&mut self, path: &str) {
        if path != GONE {
            self.note(path);
        }
    }

    /// What is put aside goes.
    fn note_renamed(&mut self, from: &str, to: &str) {
        if to.starts_with(GONE) {
            self.note(from);
        }
    }
}

/// A disk, with what is counted of the calls that take something away. It tells what the disk below tells.
#[derive(Drop)]
pub struct Freeing<'a, D> {
    /// The disk below.
    pub inner: D,

    /// What went.
    pub freed: Freed<'a>,
}

impl<D: Disk> Disk for Freeing<'_, D> {
    ghost tells = { D.tells };

    ghost reach = { D.reach };

    ghost faults = { λ s. D.faults s.inner };

    ghost story = { λ s. D.story s.inner };

    ghost sound = { λ s told. D.sound s.inner told };

    fn read(&mut self, alloc: Global, path: &str) -> Result<Option<Entry>, DiskFault> {
        self.inner.read(alloc, path)
    }

    fn write(&mut self, path: &str, entry: &Entry) -> Result<(), DiskFault> {
        self.inner.write(path, entry)
    }

    fn rename(&mut self, from: &str, to: &str) -> Result<(), DiskFault> {
        self.freed.note_renamed(from, to);
        self.inner.rename(from, to)
    }

    fn remove(&mut self, path: &str) -> Result<(), DiskFault> {
        self.freed.note_removed(path);
        self.inner.remove(path)
    }

    fn list(&mut self, alloc: Global, prefix: &str) -> Result<Texts, DiskFault> {
        self.inner.list(alloc, prefix)
    }

    fn sync(&mut self) -> Result<(), DiskFault> {
        self.inner.sync()
    }

    fn end_sync(&mut self, moment: u64, done: bool) -> Result<(), DiskFault> {
        self.inner.end_sync(moment, done)
    }

    fn moment(&self) -> u64 {
        self.inner.moment()
    }
}

/// A disk of which only lists and entries are asked; what would change it is counted and not done. It tells nothing.
#[derive(Drop)]
pub struct Pretending<'a, D> {
    /// The disk below.
    pub inner: D,

    /// What would go.
    pub freed: Freed<'a>,
}

impl<D: Disk> Disk for Pretending<'_, D> {
    ghost tells = { ⊥ };

    ghost reach = { D.reach };

    ghost faults = { λ s. D.faults s.inner };

    ghost story = { λ s. D.story s.inner };

    ghost sound = { λ _ told. absurd told };

    fn read(&mut self, alloc: Global, path: &str) -> Result<Option<Entry>, DiskFault> {
        self.inner.read(alloc, path)
    }

    fn write(&mut self, _: &str, _: &Entry) -> Result<(), DiskFault> {
        Ok(())
    }

    fn rename(&mut self, from: &str, to: &str) -> Result<(), DiskFault> {
        self.freed.note_renamed(from, to);
        Ok(())
    }

    fn remove(&mut self, path: &str) -> Result<(), DiskFault> {
        self.freed.note_removed(path);
        Ok(())
    }

    fn list(&mut self, alloc: Global, prefix: &str) -> Result<Texts, DiskFault> {
        self.inner.list(alloc, prefix)
    }

    fn sync(&mut self) -> Result<(), DiskFault> {
        Ok(())
    }

    fn end_sync(&mut self, _: u64, _: bool) -> Result<(), DiskFault> {
        Ok(())
    }

    fn moment(&self) -> u64 {
        self.inner.moment()
    }
}

/// A sink that takes all, and shows nothing.
#[derive(Drop)]
pub struct Mute;

impl Sink for Mute {
    ghost tells = { ⊥ };

    ghost written = { λ _. [] };

    ghost faults = { λ _. 0 };

    fn write(&mut self, piece: &[u8]) -> Result<usize, SinkFault> {
        Ok(piece.len())
    }
}
