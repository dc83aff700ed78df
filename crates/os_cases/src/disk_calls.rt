// The calls of the disk.
use crate::answers::{entry_of, of_a_line, of_entry, of_paths, of_word};
use crate::rooms::no_call;
use crate::watch::Watch;
use host_files::Syncs;
use outside_os::FolderDisk;
use outside_traits::{Disk, DiskFault};
use std::alloc::Global;
use std::cell::RefCell;
use std::io;
use tree_model::{Entry, Texts, is_clean};

/// What the disk answers.
pub fn disk_answer(
    alloc: Global,
    disk: &mut FolderDisk<'_, Watch<'_>>,
    synced: &RefCell<String>,
    call: &str,
) -> io::Result<String> {
    let (word, rest) = call.split_once(' ').unwrap_or((call, ""));
    match word {
        "list" => list_answer(alloc, disk.list(alloc, rest)),
        "read" => read_answer(alloc, disk.read(alloc, rest)),
        "write" => write_answer(alloc, disk, rest),
        "remove" => disk_word(alloc, disk.remove(rest)),
        "rename" => rename_answer(alloc, disk, rest),
        "moment" => Ok(format!(in alloc; "{}", disk.moment())?),
        "sync" => match disk.sync() {
            Ok(()) => take_synced(alloc, synced),
            Err(fault) => disk_word(alloc, Err(fault)),
        },
        "end" => end_answer(alloc, disk, synced, rest),
        "close" => {
            disk.close();
            Ok(of_word(alloc, "closed")?)
        }
        _ => Err(no_call()),
    }
}

/// What the end of a wait answers: what was synced by it.
fn end_answer(
    alloc: Global,
    disk: &mut FolderDisk<'_, Watch<'_>>,
    synced: &RefCell<String>,
    rest: &str,
) -> io::Result<String> {
    let (moment, word) = rest.split_once(' ').unwrap_or((rest, ""));
    let moment = moment.parse::<u64>().map_err(|_| no_call())?;
    match disk.end_sync(moment, word == "yes") {
        Ok(()) => take_synced(alloc, synced),
        Err(fault) => disk_word(alloc, Err(fault)),
    }
}

/// What was synced since the last look.
fn take_synced(alloc: Global, synced: &RefCell<String>) -> io::Result<String> {
    match synced.try_replace(String::new(alloc)) {
        Ok(paths) => Ok(paths),
        Err(_) => Err(no_call()),
    }
}

/// What a call without a value answered.
pub fn disk_word(alloc: Global, done: Result<(), DiskFault>) -> io::Result<String> {
    let word = match done {
        Ok(()) => "ok",
        Err(DiskFault::Failed) => "failed",
        Err(DiskFault::Memory) => "memory",
    };
    Ok(of_word(alloc, word)?)
}

fn list_answer(alloc: Global, listed: Result<Texts, DiskFault>) -> io::Result<String> {
    match listed {
        Ok(paths) => Ok(of_paths(alloc, paths.as_slice())?),
        Err(fault) => disk_word(alloc, Err(fault)),
    }
}

fn read_answer(alloc: Global, found: Result<Option<Entry>, DiskFault>) -> io::Result<String> {
    match found {
        Ok(Some(entry)) => Ok(of_entry(alloc, &entry)?),
        Ok(None) => Ok(of_word(alloc, "nothing")?),
        Err(fault) => disk_word(alloc, Err(fault)),
    }
}

fn write_answer(
    alloc: Global,
    disk: &mut FolderDisk<'_, Watch<'_>>,
    rest: &str,
) -> io::Result<String> {
    let (kind, rest) = rest.split_once(' ').unwrap_or((rest, ""));
    let (path, text) = rest.split_once(' ').unwrap_or((rest, ""));
    let text = of_a_line(alloc, text)?;
    match entry_of(alloc, kind, text.as_str()) {
        Ok(entry) if is_clean(path) => disk_word(alloc, disk.write(path, &entry)),
        Ok(_) => Err(no_call()),
        Err(_) => disk_word(alloc, Err(DiskFault::Memory)),
    }
}

fn rename_answer(
    alloc: Global,
    disk: &mut FolderDisk<'_, Watch<'_>>,
    rest: &str,
) -> io::Result<String> {
    let (from, to) = rest.split_once(' ').unwrap_or((rest, ""));
    if is_clean(to) {
        disk_word(alloc, disk.rename(from, to))
    } else {
        Err(no_call())
    }
}

/// What another disk over the same folder answers, and what it says of its first fault.
pub fn other_answer(
    alloc: Global,
    rt: Watch<'_>,
    syncs: &Syncs,
    synced: &RefCell<String>,
    call: &str,
) -> io::Result<String> {
    let mut disk = FolderDisk::new(rt, syncs);
    let said = disk_answer(alloc, &mut disk, synced, call)?;
    let fault = disk.first_fault().unwrap_or("no fault");
    Ok(format!(in alloc; "{said}: {fault}")?)
}
