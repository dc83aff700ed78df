//! The program `cases`: runs the case files of `data/` over devices in memory.
//!
//! A case file is a small project, words for the program, and what is wanted, as text; `docs/CASES.md` has the form. Each file
//! `TOPIC/NAME.case` below the current folder is run through the top call, before which a store of the first format is moved, as the
//! program does it (`upgrading`); nothing else of the repository is called. For a case
//! that goes otherwise its name is printed, what was wanted and what came; the last line is the number of cases. The status is 0
//! where all went as wanted.
//!
//! Nothing is promised of this program but that it is safe and ends: it shows what contracts don't say.
#![tactic(auto)]

mod case;
mod escapes;
mod folder;
mod judge;
mod project;
mod upgrading;
mod words;
mod wrong;

use case::run_case;
use folder::{names_in, read_text};
use std::io;
use std::process::ExitCode;
use std::sync::Wait;
use std::thread::Threads;
use wrong::Wrong;

/// The end of a case file's name.
const ENDING: &str = ".case";

/// How many cases were run, and how many of them went otherwise.
#[derive(Clone, Copy)]
struct Count {
    run: u64,
    wrong: u64,
}

/// Ends with status 0 where all cases went as wanted.
fn main(rt: HostRuntime) -> ExitCode {
    match run_all(&rt, &rt) {
        Ok(Count { run, wrong: 0 }) if println!(rt; "{run} cases").is_ok() => ExitCode::from(0),
        Ok(count) => {
            let _ = println!(rt;
                "{} cases, {} of them went otherwise",
                count.run, count.wrong
            );
            ExitCode::from(1)
        }
        Err(error) => {
            let _ = println!(rt; "the cases can't be read: {error}");
            ExitCode::from(1)
        }
    }
}

/// Runs all cases of all topics.
fn run_all<R: Threads + Wait + Sync>(rt: &HostRuntime, threads: &R) -> io::Result<Count> {
    let mut count = Count { run: 0, wrong: 0 };
    for topic in names_in(rt, ".")?.iter() {
        for file in names_in(rt, topic.as_str())?.iter() {
            let path = format!(in rt.alloc(); "{topic}/{file}")?;
            if let Some(name) = path.as_str().strip_suffix(ENDING) {
                count.run = count.run.saturating_add(1);
                if !goes_as_wanted(rt, threads, name, path.as_str())? {
                    count.wrong = count.wrong.saturating_add(1);
                }
            }
        }
    }
    Ok(count)
}

/// Runs one case, and prints where it went otherwise.
fn goes_as_wanted<R: Threads + Wait + Sync>(
    rt: &HostRuntime,
    threads: &R,
    name: &str,
    path: &str,
) -> io::Result<bool> {
    let text = read_text(rt, path)?;
    match run_case(threads, rt.alloc(), text.as_str()) {
        Ok(()) => Ok(true),
        Err(Wrong::Memory) => {
            println!(rt; "{name}: memory is wanting")?;
            Ok(false)
        }
        Err(Wrong::Says(why)) => {
            println!(rt; "{name}: {why}")?;
            Ok(false)
        }
        Err(Wrong::Told(why)) => {
            println!(rt; "{name}: {why}")?;
            Ok(false)
        }
    }
}
