// What the store's records tell of tasks: of what they gave, and of earlier runs of them.
use crate::stamped::stamp_of;
use host_files::{is_memory, no_memory};
use meta_model::{PlanTask, TaskId};
use sig_gen::{decode_short_stored, decode_stored};
use std::time::SystemTime;
use std::{fs, io};
use store_model::{ShortStored, StoredSig};
use tree_model::Hash;

/// The most bytes of a record or of a key that is looked at, and how many are looked at where no stamp names one.
const MOST: u64 = 268_435_456;

const MOST_RECORDS: usize = 4096;

/// What a record's file says, if there is one at this path.
fn short_at(rt: &HostRuntime, path: &str) -> io::Result<Option<ShortStored>> {
    let bytes = fs::read(rt, path)?;
    match decode_short_stored(rt.alloc(), bytes.as_slice()) {
        Ok(stored) => Ok(Some(stored)),
        Err(_) => Ok(None),
    }
}

/// The bytes of the key of a record, where a store has it.
fn key_of(rt: &HostRuntime, store: &str, stored: &ShortStored) -> io::Result<Option<Vec<u8>>> {
    let name = match stored.sig.key.text(rt.alloc()) {
        Ok(name) => name,
        Err(wanting) => return Err(no_memory(wanting)),
    };
    let path = format!(in rt.alloc(); "{store}/key/{}", name.as_str())?;
    match written_at(rt, path.as_str())? {
        Some(_) => Ok(Some(fs::read(rt, path.as_str())?)),
        None => Ok(None),
    }
}

/// A record with its key, if both are there.
fn record_at(rt: &HostRuntime, store: &str, path: &str) -> io::Result<Option<StoredSig>> {
    let Some(short) = short_at(rt, path)? else {
        return Ok(None);
    };
    let Some(key) = key_of(rt, store, &short)? else {
        return Ok(None);
    };
    let bytes = fs::read(rt, path)?;
    match decode_stored(rt.alloc(), bytes.as_slice(), key.as_slice()) {
        Ok(stored) => Ok(Some(stored)),
        Err(_) => Ok(None),
    }
}

/// When the file at a path was written, where it may be a record.
fn written_at(rt: &HostRuntime, path: &str) -> io::Result<Option<SystemTime>> {
    let there = fs::symlink_metadata(rt, path)?;
    if !there.is_file() || there.len() > MOST {
        return Ok(None);
    }
    Ok(Some(there.modified()?))
}

/// The path of the record of a name in a store, where one may stand there.
fn record_path(rt: &HostRuntime, store: &str, name: &str) -> io::Result<Option<String>> {
    let path = format!(in rt.alloc(); "{store}/rec2/{name}")?;
    match written_at(rt, path.as_str()) {
        Ok(Some(_)) => Ok(Some(path)),
        _ => Ok(None),
    }
}

/// The record of a name in a store, where it can be read.
pub(crate) fn record_of(
    rt: &HostRuntime,
    store: &str,
    name: &str,
) -> io::Result<Option<StoredSig>> {
    match record_path(rt, store, name)? {
        Some(path) => Ok(record_at(rt, store, path.as_str()).unwrap_or_default()),
        None => Ok(None),
    }
}

/// The unihash of a task's output, as its stamp and its record in a store tell it now. Where one of them can't be read nothing is told.
pub(crate) fn unihash_of(rt: &HostRuntime, store: &str, id: &TaskId) -> io::Result<Option<Hash>> {
    let name = match stamp_of(rt, store, id.pn.as_str(), id.task.as_str()) {
        Ok(Some(name)) => name,
        Err(error) if is_memory(&error) => return Err(error),
        _ => return Ok(None),
    };
    let Some(path) = record_path(rt, store, name.as_str())? else {
        return Ok(None);
    };
    match short_at(rt, path.as_str()).unwrap_or_default() {
        Some(stored) => Ok(Some(stored.unihash)),
        None => Ok(None),
    }
}

/// A task that was started, with what is known of an earlier run of it.
#[derive(Drop)]
pub(crate) struct Started<'p> {
    /// Its number.
    pub(crate) number: u32,

    /// The task.
    pub(crate) task: &'p PlanTask,

    /// The record that its stamp named, or else the newest that was found.
    pub(crate) was: Option<StoredSig>,

    /// When that was written, where it is sought, since no stamp named one: the calendar's begin at first.
    pub(crate) sought: Option<SystemTime>,
}

/// The task that a record is of, where one is sought and the record is newer than the one that was found.
fn newer_of<'a, 'p>(
    started: &'a mut [Started<'p>],
    stored: &ShortStored,
    written: SystemTime,
) -> Option<&'a mut Started<'p>> {
    for one in started {
        let id = &one.task.id;
        if id.task.as_str() == stored.sig.task.as_str()
            && id.pn.as_str() == stored.sig.pn.as_str()
        {
            return one
                .sought
                .is_some_and(|before| before < written)
                .then_some(one);
        }
    }
    None
}

/// Takes what a record at this path tells, where it was written before this time. Its key is read only where it is taken.
fn seek_in(
    rt: &HostRuntime,
    store: &str,
    started: &mut [Started<'_>],
    path: &str,
    begun: SystemTime,
) -> io::Result<()> {
    let Some(written) = written_at(rt, path)? else {
        return Ok(());
    };
    if written >= begun {
        return Ok(());
    }
    let Some(short) = short_at(rt, path)? else {
        return Ok(());
    };
    if let Some(one) = newer_of(started, &short, written) {
        if let Some(stored) = record_at(rt, store, path)? {
            one.sought = Some(written);
            one.was = Some(stored);
        }
    }
    Ok(())
}

/// Looks through records of a store that were written before this time for those of the tasks of which one is sought. What can't be read tells nothing.
pub(crate) fn seek(
    rt: &HostRuntime,
    store: &str,
    started: &mut [Started<'_>],
    begun: SystemTime,
) -> io::Result<()> {
    if started.iter().all(|one| one.sought.is_none()) {
        return Ok(());
    }
    let folder = format!(in rt.alloc(); "{store}/rec2")?;
    for entry in fs::read_dir(rt, folder.as_str())?.take(MOST_RECORDS) {
        let entry = entry?;
        let path = entry.path();
        let _ = seek_in(rt, store, started, path.as_str(), begun);
    }
    Ok(())
}
