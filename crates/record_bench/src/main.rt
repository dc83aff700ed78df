//! Measures records, disks, runs and stores.
//!
//! The first word says which, the second how large: `codec` reads and writes a signature of so many key lines; `disk` puts a tree
//! of so many entries to a disk in memory, twice, and reads it again; `board` plays a run of so many tasks to its end, over an
//! index in memory, and then a second one that finds them all; `store` opens a store of so many records, and one of so many files
//! that are none. It prints what came of it; where a third word `time` stands, also the microseconds of the processor. Without
//! words it does a little of each.
#![tactic(auto)]

mod board;
mod codec;
mod disk;
mod store;

use anyhow::{Result, bail};
use std::env;
use std::time::{CpuClock, Duration};

/// The microseconds of the processor since then.
fn spent(rt: &HostRuntime, start: Duration) -> Result<u128> {
    Ok(rt.process_cpu_time()?.saturating_sub(start).as_micros())
}

fn number(word: Option<&String>, default: u32) -> u32 {
    word.and_then(|word| word.parse::<u32>().ok())
        .unwrap_or(default)
}

fn main(rt: HostRuntime) -> Result<()> {
    let words: Vec<String> = env::args(&rt)?.collect(rt.alloc())?;
    let size = number(words.get(2), 20);
    let timed = words.get(3).is_some_and(|word| word.as_str() == "time");
    match words.get(1).map(|word| word.as_str()) {
        None => {
            codec::measure(&rt, size, timed)?;
            disk::measure(&rt, size, timed)?;
            board::measure(&rt, size, timed)?;
            store::measure(&rt, size, timed)
        }
        Some("codec") => codec::measure(&rt, size, timed),
        Some("disk") => disk::measure(&rt, size, timed),
        Some("board") => board::measure(&rt, size, timed),
        Some("store") => store::measure(&rt, size, timed),
        Some(_) => bail!("codec, disk, board or store"),
    }
}
