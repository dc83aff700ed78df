//! The program `os_cases`: makes the calls of the file `calls` on the devices over the real things, and prints each with its answer.
//!
//! These devices tell nothing of what they hold, so no clause says what they list, read, write, run and sync: this program shows it.
//! What it prints is held to what stands in the file `stdout`, which was written by hand. A line of `calls` is one call; a line `room
//! NAME` makes an empty folder, goes there, and begins with new devices. The form of each call stands at `calls.rt`.
//!
//! Nothing is promised of this program but that it is safe and ends.
#![tactic(auto)]

mod answers;
mod calls;
mod disk_calls;
mod rooms;
mod stamp_calls;
mod watch;

use calls::{Beside, answer};
use host_files::Syncs;
use outside_os::{FolderDisk, ReadAhead};
use rooms::enter;
use sh_bench::{Configs, Sandboxes};
use std::cell::RefCell;
use std::process::ExitCode;
use std::{env, fs, io};
use watch::Watch;

/// The file of the calls, in the folder that the program is started in.
const CALLS: &str = "calls";

/// Ends with status 0 where all calls were made, whatever they answered.
fn main(rt: HostRuntime) -> ExitCode {
    match run_all(&rt) {
        Ok(()) => ExitCode::from(0),
        Err(error) => {
            let _ = println!(rt; "the calls can't be made: {error}");
            ExitCode::from(1)
        }
    }
}

/// Makes the calls of all rooms.
fn run_all(rt: &HostRuntime) -> io::Result<()> {
    let home = env::current_dir(rt)?;
    let text = fs::read_to_string(rt, CALLS)?;
    for part in text.as_str().split("room ") {
        if let Some((name, lines)) = part.split_once('\n') {
            println!(rt; "room {name}")?;
            enter(rt, home.as_path().as_str(), name)?;
            run_room(rt, lines)?;
        }
    }
    Ok(())
}

/// Makes the calls of one room on new devices.
fn run_room(rt: &HostRuntime, lines: &str) -> io::Result<()> {
    let beside = Beside {
        ahead: ReadAhead::none(),
        syncs: Syncs::none(),
        sandboxes: Sandboxes::unknown(),
        configs: Configs::of(Vec::new(rt.alloc())),
    };
    run_lines(rt, &beside, lines)
}

/// Makes the calls of these lines on new devices, with this beside them.
fn run_lines(rt: &HostRuntime, beside: &Beside, lines: &str) -> io::Result<()> {
    let synced = RefCell::new(String::new(rt.alloc()));
    let mut disk = FolderDisk::new(Watch::new(rt.clone()?, &synced), &beside.syncs);
    let mut bench = None;
    for line in lines.lines() {
        if !line.is_empty() {
            let said = answer(rt, beside, &mut disk, &mut bench, &synced, line)?;
            println!(rt; "{line} -> {said}")?;
        }
    }
    Ok(())
}
