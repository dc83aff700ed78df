// A disk that says on standard error how far the move of a store's records is.

use outside_traits::{Disk, DiskFault};
use progress_line::tell;
use run_trace::micros_now;
use std::alloc::{AllocError, Global};
use tree_model::{Entry, Texts};

/// The folder of records in the first format.
const OLD: &str = "rec/";

/// .. and that to which they are brought.
const NEW: &str = "rec2/";

/// A line is written after so many microseconds, and so long after each.
const BETWEEN: u64 = 2_000_000;

/// How far a move is.
#[derive(Drop)]
pub struct MoveCount<'a> {
    rt: &'a HostRuntime,

    /// When the last line was written, or the move begun: in microseconds of the monotonic clock.
    last: u64,

    /// Whether lines are written at all.
    is_told: bool,

    /// How many records of the first format there are, how many of them were read or removed, and how many were put in the present one.
    listed: usize,
    read: usize,
    removed: usize,
    put: usize,
}

impl<'a> MoveCount<'a> {
    /// A move that begins now.
    pub fn new(rt: &'a HostRuntime, is_told: bool) -> MoveCount<'a> {
        MoveCount {
            rt,
            last: micros_now(rt),
            is_told,
            listed: 0,
            read: 0,
            removed: 0,
            put: 0,
        }
    }

    /// What the line says.
    fn line(&self) -> Result<String, AllocError> {
        let (listed, read, removed, put) = (self.listed, self.read, self.removed, self.put);
        if removed > 0 {
            return format!(in self.rt.alloc();
                "bitbake: removing the records of the first format: of {listed}, {removed} are gone\n"
            );
        }
        format!(in self.rt.alloc();
            "bitbake: moving the records of the store to the present format: of {listed}, {read} are read and {put} in place\n"
        )
    }

    /// Writes the line, where it is time for one.
    fn note(&mut self) {
        let now = micros_now(self.rt);
        if !self.is_told || now.saturating_sub(self.last) < BETWEEN {
            return;
        }
        self.last = now;
        if let Ok(line) = self.line() {
            tell(self.rt, line.as_str());
        }
    }

    fn note_listed(&mut self, prefix: &str, count: usize) {
        if prefix == OLD {
            self.listed = count;
        }
        self.note();
    }

    fn note_read(&mut self, path: &str) {
        if path.starts_with(OLD) {
            self.read = self.read.saturating_add(1);
        }
        self.note();
    }

    fn note_removed(&mut self, path: &str) {
        if path.starts_with(OLD) {
            self.removed = self.removed.saturating_add(1);
        }
        self.note();
    }

    fn note_renamed(&mut self, to: &str) {
        if to.starts_with(NEW) {
            self.put = self.put.saturating_add(1);
        }
        self.note();
    }
}

/// A disk, with what is told of the calls that a move makes. It tells what the disk below tells.
#[derive(Drop)]
pub struct Watching<'a, D> {
    /// The disk below.
    pub inner: D,

    /// How far the move is.
    pub count: MoveCount<'a>,
}

impl<D: Disk> Disk for Watching<'_, D> {
    ghost tells = { D.tells };

    ghost reach = { D.reach };

    ghost faults = { λ s. D.faults s.inner };

    ghost story = { λ s. D.story s.inner };

    ghost sound = { λ s told. D.sound s.inner told };

    fn read(&mut self, alloc: Global, path: &str) -> Result<Option<Entry>, DiskFault> {
        self.count.note_read(path);
        self.inner.read(alloc, path)
    }

    fn write(&mut self, path: &str, entry: &Entry) -> Result<(), DiskFault> {
        self.count.note();
        self.inner.write(path, entry)
    }

    fn rename(&mut self, from: &str, to: &str) -> Result<(), DiskFault> {
        self.count.note_renamed(to);
        self.inner.rename(from, to)
    }

    fn remove(&mut self, path: &str) -> Result<(), DiskFault> {
        self.count.note_removed(path);
        self.inner.remove(path)
    }

    fn list(&mut self, alloc: Global, prefix: &str) -> Result<Texts, DiskFault> {
        let paths = self.inner.list(alloc, prefix);
        if let Ok(found) = &paths {
            self.count.note_listed(prefix, found.len());
        }
        paths
    }

    fn sync(&mut self) -> Result<(), DiskFault> {
        self.count.note();
        self.inner.sync()
    }

    fn end_sync(&mut self, moment: u64, done: bool) -> Result<(), DiskFault> {
        self.inner.end_sync(moment, done)
    }

    fn moment(&self) -> u64 {
        self.inner.moment()
    }
}
