// What is read of a disk before its first call.
use crate::disk::{ROOT, part_of};
use crate::limits::{KEYS, RECORDS, is_beyond};
use crate::listed::Listing;
use host_files::{list_items, put_joined};
use std::alloc::Global;
use std::io;
use std::rt::Files;
use std::sync::OnceLock;
use tree_model::{Entry, Text};

/// The most bytes that are read ahead of a part.
const MOST: u64 = 268_435_456;

/// What stands under `rec2/` and under `key/`, all of which opening a store reads, read in a thread of its own while the metadata is read. A disk that had its lock
/// before (`FolderDisk::hold_early`) answers from it, until it changes anything: with the lock held nothing else does.
///
/// Nothing is waited for. What isn't there when it is asked for the disk reads by itself, and what can't be read ahead is
/// left to the disk, which counts the fault.
#[derive(Drop)]
pub struct ReadAhead {
    records: OnceLock<Listing>,
    keys: OnceLock<Listing>,
    stopped: OnceLock<()>,
}

impl ReadAhead {
    /// Nothing so far.
    pub fn none() -> Self {
        ReadAhead {
            records: OnceLock::new(),
            keys: OnceLock::new(),
            stopped: OnceLock::new(),
        }
    }

    /// Reads the files under `rec2/` and under `key/`, until it is to stop.
    pub fn read<R: Files + AllocGlobal>(&self, rt: &R) {
        if let Ok(Some(listing)) = self.part(rt, RECORDS) {
            let _ = self.records.try_set(listing);
        }
        if let Ok(Some(listing)) = self.part(rt, KEYS) {
            let _ = self.keys.try_set(listing);
        }
    }

    /// How many files were read so far, and how many bytes these have.
    pub fn size(&self) -> (usize, u64) {
        let mut count = 0usize;
        let mut bytes = 0u64;
        for part in [&self.records, &self.keys] {
            if let Some(listing) = part.get() {
                count = count.saturating_add(listing.count());
                bytes = bytes.saturating_add(listing.size());
            }
        }
        (count, bytes)
    }

    /// Lets no more be read.
    pub fn stop(&self) {
        let _ = self.stopped.try_set(());
    }

    /// The files under `rec2/`, in the order of their paths, where they were read, nothing else stands there, and nothing is to stop.
    pub fn records(&self, alloc: Global) -> io::Result<Option<Vec<(Text, Entry)>>> {
        self.files_of(alloc, &self.records)
    }

    /// The files under `key/`, in the same way.
    pub fn keys(&self, alloc: Global) -> io::Result<Option<Vec<(Text, Entry)>>> {
        self.files_of(alloc, &self.keys)
    }

    /// The files of a part, where it was read and nothing is to stop.
    fn files_of(
        &self,
        alloc: Global,
        part: &OnceLock<Listing>,
    ) -> io::Result<Option<Vec<(Text, Entry)>>> {
        match part.get() {
            Some(listing) if self.stopped.get().is_none() => listing.files(alloc),
            _ => Ok(None),
        }
    }

    /// What was read of a part. Where that isn't all of it yet, no more is read.
    pub(crate) fn listing(&self, prefix: &str) -> Option<&Listing> {
        let part = match prefix {
            RECORDS => &self.records,
            KEYS => &self.keys,
            _ => return None,
        };
        let found = part.get();
        if found.is_none() {
            self.stop();
        }
        found
    }

    /// A part of the disk, or `None` where it is to stop or the part has more bytes than are read ahead.
    fn part<R: Files + AllocGlobal>(&self, rt: &R, prefix: &str) -> io::Result<Option<Listing>> {
        let mut listing = Listing::none(rt.alloc());
        let mut whole = String::new(rt.alloc());
        for item in list_items(rt, &part_of(prefix), u64::MAX)?
            .into_iter()
            .flatten()
        {
            let path = item.path.as_str();
            if is_beyond(path, &item.facts) {
                // (its bytes stand for none, as the disk itself reads it)
                listing.put(path, item.facts)?;
                continue;
            }
            let size = listing.size().saturating_add(item.facts.length);
            if size > MOST || self.stopped.get().is_some() {
                return Ok(None);
            }
            put_joined(&mut whole, ROOT, path)?;
            listing.put_read(rt, whole.as_str(), path, item.facts)?;
        }
        Ok(Some(listing))
    }
}
