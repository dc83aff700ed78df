// Which of the store's records tell what a task gave before.
use sig_gen::{decode_short_stored, encode_manifest};
use std::alloc::Global;
use std::{fs, io};
use tree_model::{Bytes, Manifest};

/// Where the records stand, from the current folder.
const RECORDS: &str = "build/rec2";

/// The most bytes of a record that is looked at.
const MOST: u64 = 268_435_456;

/// Says on standard error which records tell that a task gave this before: to remove its one is enough. Where they can't be read, or
/// there is no memory for it, nothing is said.
pub fn tell_records(rt: &HostRuntime, pn: &str, task: &str, held: &Manifest) {
    if let Ok(Some(sentence)) = sentence(rt, pn, task, held) {
        let _ = eprintln!(rt; "bitbake: record: {}", sentence.as_str());
    }
}

/// The sentence, where there is such a record.
fn sentence(rt: &HostRuntime, pn: &str, task: &str, held: &Manifest) -> io::Result<Option<String>> {
    let found = records_of(rt, pn, task, held)?;
    let mut list = String::new(rt.alloc());
    let mut before = "";
    for path in &found {
        list.push_str(before)?;
        list.push_str(path.as_str())?;
        before = ", ";
    }
    let list = list.as_str();
    match found.len() {
        0 => Ok(None),
        1 => Ok(Some(format!(in rt.alloc();
            "{list} tells what {pn}:{task} gave before: where a tool on the search path has changed, remove this file and run again"
        )?)),
        _ => Ok(Some(format!(in rt.alloc();
            "one of these tells what {pn}:{task} gave before, each for a signature of its own: {list}; where a tool on the search path has changed, remove them and run again"
        )?)),
    }
}

/// The paths of the records of a task with this manifest.
fn records_of(rt: &HostRuntime, pn: &str, task: &str, held: &Manifest) -> io::Result<Vec<String>> {
    let Ok(spelled) = encode_manifest(rt.alloc(), held) else {
        return Err(io::Error::from(io::ErrorKind::OutOfMemory));
    };
    let mut found = Vec::new(rt.alloc());
    for entry in fs::read_dir(rt, RECORDS)? {
        let entry = entry?;
        let path = entry.path();
        let path = path.as_str();
        if holds(rt, path, pn, task, &spelled)? {
            found.push(String::from_str(rt.alloc(), path)?)?;
        }
    }
    found.sort()?;
    Ok(found)
}

/// Whether a record of this task with this manifest stands in a file.
fn holds(rt: &HostRuntime, path: &str, pn: &str, task: &str, spelled: &Bytes) -> io::Result<bool> {
    let there = fs::symlink_metadata(rt, path)?;
    if !there.is_file() || there.len() > MOST {
        return Ok(false);
    }
    let bytes = fs::read(rt, path)?;
    Ok(is_record(rt.alloc(), bytes.as_slice(), pn, task, spelled))
}

/// Whether these bytes are a record of this task with this manifest.
fn is_record(alloc: Global, bytes: &[u8], pn: &str, task: &str, spelled: &Bytes) -> bool {
    let Ok(stored) = decode_short_stored(alloc, bytes) else {
        return false;
    };
    if stored.sig.pn.as_str() != pn || stored.sig.task.as_str() != task {
        return false;
    }
    match encode_manifest(alloc, &stored.manifest) {
        Ok(own) => own.as_slice() == spelled.as_slice(),
        Err(_) => false,
    }
}
