// How soon a small file is durable where benches stand.
use host_files::{BENCHES_FOLDER, make_own, remove_place};
use std::fs::{File, OpenOptions};
use std::io;
use std::io::Write;
use std::process::Processes;
use std::rt::Files;
use std::time::{Clock, Duration};

/// What is durable within so many microseconds stands in memory, and not on a disk.
const SOON: u64 = 20;

/// How often it is tried: the least counts, since other threads may be at work.
const TRIES: u32 = 3;

/// Whether a small file, which is written here and goes again, is durable that soon.
pub fn is_soon<R: Files<File = File> + Processes + Clock + AllocGlobal + Clone + Drop>(
    rt: &R,
    number: u32,
) -> io::Result<bool> {
    make_own(rt, BENCHES_FOLDER)?;
    let path = format!(in rt.alloc(); "{BENCHES_FOLDER}/{number}.pace")?;
    for _ in 0..TRIES {
        remove_place(rt, path.as_str())?;
        let spent = time_of(rt, path.as_str())?;
        remove_place(rt, path.as_str())?;
        if spent <= Duration::from_micros(SOON) {
            return Ok(true);
        }
    }
    Ok(false)
}

/// How long it takes until a new file of one byte is durable.
fn time_of<R: Files<File = File> + Clock>(rt: &R, path: &str) -> io::Result<Duration> {
    let mut file = OpenOptions::new()
        .write(true)
        .create_new(true)
        .open(rt, path)?;
    file.write_all(b"\n")?;
    let begun = rt.monotonic()?;
    file.sync_all()?;
    Ok(rt.monotonic()?.saturating_sub(begun))
}
