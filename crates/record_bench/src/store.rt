// A store of many records that is opened, and one of files that are none.
use crate::spent;
use anyhow::{Result, bail};
use build_store::{Ahead, open_store};
use outside_mem::MemDisk;
use std::alloc::Global;
use std::time::CpuClock;
use tree_model::{Bytes, Entry, Hash, Text};

/// The 64 digits of a digest.
fn digits(alloc: Global, hash: &Hash) -> Result<String> {
    let Ok(text) = hash.text(alloc) else {
        bail!("out of memory");
    };
    Ok(String::from_str(alloc, text.as_str())?)
}

/// A file that can't be executed.
fn file(alloc: Global, bytes: &[u8]) -> Result<Entry> {
    let Ok(bytes) = Bytes::from_slice(alloc, bytes) else {
        bail!("out of memory");
    };
    Ok(Entry::File { exec: false, bytes })
}

/// The key of each task: no lines.
const KEY: &[u8] = b"0;";

/// The short text of the signature of the task of a number, which needs the task of the number before, if there is one.
fn signature(alloc: Global, number: u32, key: &str, needed: Option<&Hash>) -> Result<String> {
    Ok(match needed {
        Some(hash) => format!(in alloc;
            "6:bbsig2,1:p,10:do_{number:07},64:{key},0;1;1:p,10:do_{:07},64:{},",
            number.saturating_sub(1),
            digits(alloc, hash)?
        )?,
        None => format!(in alloc; "6:bbsig2,1:p,10:do_{number:07},64:{key},0;0;")?,
    })
}

/// So many records of tasks that gave no file, each of which needs the one before; and their key.
fn records(alloc: Global, count: u32) -> Result<Vec<(Text, Entry)>> {
    let mut list = Vec::new(alloc);
    let key = digits(alloc, &Hash::of(KEY))?;
    let path = format!(in alloc; "key/{key}")?;
    list.push((Text::from_string(path), file(alloc, KEY)?))?;
    let mut last = None;
    for number in 0..count {
        let sig = signature(alloc, number, key.as_str(), last.as_ref())?;
        let name = Hash::of(sig.as_bytes());
        let text = digits(alloc, &name)?;
        let record = format!(in alloc; "6:bbrec2,{}:{sig},0;64:{text},", sig.len())?;
        let path = format!(in alloc; "rec2/{text}")?;
        list.push((Text::from_string(path), file(alloc, record.as_bytes())?))?;
        last = Some(name);
    }
    Ok(list)
}

/// Up to 256 bytes that nobody chose: digests of the number of the file and of the place.
fn odd_bytes(alloc: Global, number: u32) -> Result<Vec<u8>> {
    let mut bytes = Vec::new(alloc);
    for place in 0..number % 9 {
        let text = format!(in alloc; "{number} {place}")?;
        bytes.extend_from_slice(&Hash::of(text.as_bytes()).bytes)?;
    }
    Ok(bytes)
}

/// Where such a file stands: each second one as a record, the others as stamps.
fn odd_path(alloc: Global, number: u32) -> Result<Text> {
    if number.is_multiple_of(2) {
        let text = digits(alloc, &Hash::of(&number.to_be_bytes()))?;
        return Ok(Text::from_string(format!(in alloc; "rec2/{text}")?));
    }
    Ok(Text::from_string(format!(in alloc; "stamp/p/do_{number:07}")?))
}

/// So many files of such bytes.
fn odd_files(alloc: Global, count: u32) -> Result<Vec<(Text, Entry)>> {
    let mut list = Vec::new(alloc);
    for number in 0..count {
        let bytes = odd_bytes(alloc, number)?;
        list.push((odd_path(alloc, number)?, file(alloc, &bytes)?))?;
    }
    Ok(list)
}

/// A store that holds these files in memory is opened.
fn open(rt: &HostRuntime, files: Vec<(Text, Entry)>, name: &str, timed: bool) -> Result<()> {
    let count = files.len();
    let Ok(disk) = MemDisk::new(rt.alloc(), files) else {
        bail!("no disk");
    };
    let start = rt.process_cpu_time()?;
    let Ok(store) = open_store(rt.alloc(), disk, &Ahead::none()) else {
        bail!("not opened");
    };
    let took = spent(rt, start)?;
    println!(rt;
        "opened: {count} {name}, {} stay",
        store.into_disk().held().len()
    )?;
    if timed {
        println!(rt; "opening: {took} us")?;
    }
    Ok(())
}

/// A store of so many records is opened, and one of so many files that are no records and no stamps.
pub fn measure(rt: &HostRuntime, count: u32, timed: bool) -> Result<()> {
    open(rt, records(rt.alloc(), count)?, "records and keys", timed)?;
    open(rt, odd_files(rt.alloc(), count)?, "odd files", timed)
}
