// The calls that a line can be. In texts `\n` stands for a newline; a path or a prefix may be empty.
//
//   sh SCRIPT                       lets `sh` run the script in the room, and says whether it ended with status 0
//   layers list PREFIX              disk list PREFIX           bench K clear
//   layers read MAX PATH            disk read PATH             bench K put KIND PATH TEXT
//                                   disk write KIND PATH TEXT  bench K run SCRIPT
//   sink TEXT                       disk remove PATH           bench K take ENTRIES LARGEST BYTES
//                                   disk rename FROM TO
//   other CALL                      disk sync                  bench K wait
//                                   disk moment
//                                   disk end MOMENT DONE
//                                   disk close
//
//   ahead hold                      ahead read                 ahead records
//
//   stamp stage FOLDER DIGEST       stamp put FOLDER           stamp current FOLDER       stamp invalidate FOLDER
//
// `ahead hold` lets the disk take its lock before its first call, and says whether it has it; `ahead read` reads ahead for it,
// and `ahead records` answers these files under `rec2/` with what they hold, or nothing where they weren't read or a link stands
// among them. `other` makes a call of the disk on another object over the same folder, and says what that says of its first
// fault. Calls of one bench behind one another are made on one object; a call of another bench begins with a new one. `bench K
// wait` waits for a sync, and says whether it went well. KIND is `file`, `program` or `link`. `disk sync`, and `disk end`, which ends
// the wait for a sync that began at a moment and went well where DONE is `yes`, answer what was synced, each file and folder by its
// path, or `all`. Where the room has a file `no-sync`, the disk has no sync of all, and where it has `failing-sync`, that fails.
use crate::answers::{entry_of, of_a_line, of_files, of_paths, of_tree, of_word, on_a_line};
use crate::disk_calls::{disk_answer, other_answer};
use crate::rooms::{no_call, shell};
use crate::stamp_calls::stamp_answer;
use crate::watch::Watch;
use host_files::Syncs;
use outside_os::{FolderDisk, FolderLayers, ReadAhead, StdSink};
use outside_traits::{Bench, BenchFault, Layers, ReadFault, Sink, Taken};
use sh_bench::{Configs, Sandboxes, ShBench};
use std::cell::RefCell;
use std::io;
use tree_model::{Bytes, Mem, Size, is_clean};

/// What the devices of a room have besides.
#[derive(Drop)]
pub struct Beside {
    pub ahead: ReadAhead,
    pub syncs: Syncs,
    pub sandboxes: Sandboxes,
    pub configs: Configs,
}

/// The bench of the last call that was one of a bench, with its number.
pub type LastBench<'a> = Option<(u32, ShBench<'a, HostRuntime>)>;

/// What the call of a line answers.
pub fn answer<'a>(
    rt: &HostRuntime,
    beside: &'a Beside,
    disk: &mut FolderDisk<'a, Watch<'_>>,
    bench: &mut LastBench<'a>,
    synced: &RefCell<String>,
    line: &str,
) -> io::Result<String> {
    let (device, call) = line.split_once(' ').unwrap_or((line, ""));
    match device {
        "sh" => {
            let script = of_a_line(rt.alloc(), call)?;
            let word = if shell(rt, script.as_str())? {
                "ok"
            } else {
                "failed"
            };
            Ok(of_word(rt.alloc(), word)?)
        }
        "layers" => layers_answer(rt, call),
        "disk" => disk_answer(rt.alloc(), disk, synced, call),
        "stamp" => stamp_answer(rt.alloc(), disk, call),
        "ahead" => ahead_answer(rt, &beside.ahead, disk, call),
        "other" => {
            let watch = Watch::new(rt.clone()?, synced);
            other_answer(rt.alloc(), watch, &beside.syncs, synced, call)
        }
        "bench" => numbered_answer(rt, beside, bench, call),
        "sink" => sink_answer(rt, call),
        _ => Err(no_call()),
    }
}

/// What is read ahead for the disk.
fn ahead_answer<'a>(
    rt: &HostRuntime,
    ahead: &'a ReadAhead,
    disk: &mut FolderDisk<'a, Watch<'_>>,
    call: &str,
) -> io::Result<String> {
    let word = match call {
        "hold" if disk.hold_early(ahead) => "held",
        "hold" => "not held",
        "read" => {
            ahead.read(rt);
            "ok"
        }
        "records" => match ahead.records(rt.alloc())? {
            Some(files) => return Ok(of_files(rt.alloc(), files.as_slice())?),
            None => "nothing",
        },
        _ => return Err(no_call()),
    };
    Ok(of_word(rt.alloc(), word)?)
}

/// What the layers answer.
fn layers_answer(rt: &HostRuntime, call: &str) -> io::Result<String> {
    let mut layers = FolderLayers::new(rt.clone()?);
    match call.split_once(' ') {
        Some(("list", prefix)) => match layers.list(rt.alloc(), prefix) {
            Ok(paths) => Ok(of_paths(rt.alloc(), paths.as_slice())?),
            Err(fault) => Ok(of_word(rt.alloc(), read_word(fault))?),
        },
        Some(("read", rest)) => match rest.split_once(' ') {
            Some((max, path)) => read_answer(rt, &mut layers, number(max)?, path),
            None => Err(no_call()),
        },
        _ => Err(no_call()),
    }
}

fn read_answer(
    rt: &HostRuntime,
    layers: &mut FolderLayers<HostRuntime>,
    max: u64,
    path: &str,
) -> io::Result<String> {
    let found: Result<Option<Bytes>, ReadFault> = layers.read(rt.alloc(), path, max);
    match found {
        Ok(Some(bytes)) => Ok(on_a_line(rt.alloc(), bytes.as_slice())?),
        Ok(None) => Ok(of_word(rt.alloc(), "nothing")?),
        Err(fault) => Ok(of_word(rt.alloc(), read_word(fault))?),
    }
}

fn read_word(fault: ReadFault) -> &'static str {
    match fault {
        ReadFault::Failed => "failed",
        ReadFault::TooLong => "too long",
        ReadFault::Memory => "memory",
    }
}

/// What the bench with a number answers.
fn numbered_answer<'a>(
    rt: &HostRuntime,
    beside: &'a Beside,
    last: &mut LastBench<'a>,
    call: &str,
) -> io::Result<String> {
    let Some((k, call)) = call.split_once(' ') else {
        return Err(no_call());
    };
    let number = u32::try_from(number(k)?).map_err(|_| no_call())?;
    if !matches!(last, Some((before, _)) if *before == number) {
        if let Some((_, before)) = last {
            before.close();
        }
        let bench = ShBench::new(
            rt.clone()?,
            number,
            &beside.sandboxes,
            &beside.syncs,
            &beside.configs,
        );
        *last = Some((number, bench));
    }
    match last {
        Some((_, bench)) => bench_answer(rt, bench, call),
        None => Err(no_call()),
    }
}

fn bench_answer(
    rt: &HostRuntime,
    bench: &mut ShBench<'_, HostRuntime>,
    call: &str,
) -> io::Result<String> {
    let (word, rest) = call.split_once(' ').unwrap_or((call, ""));
    match word {
        "clear" => bench_word(rt, bench.clear(rt.alloc(), "hello", "do_build")),
        "put" => put_answer(rt, bench, rest),
        "run" => {
            let script = of_a_line(rt.alloc(), rest)?;
            match bench.run(rt.alloc(), script.as_str()) {
                Ok(status) => Ok(format!(in rt.alloc(); "{status}")?),
                Err(fault) => bench_word(rt, Err(fault)),
            }
        }
        "take" => take_answer(rt, bench, rest),
        "wait" if bench.wait_synced() => Ok(of_word(rt.alloc(), "synced")?),
        "wait" => Ok(of_word(rt.alloc(), "not synced")?),
        _ => Err(no_call()),
    }
}

fn bench_word(rt: &HostRuntime, done: Result<(), BenchFault>) -> io::Result<String> {
    let word = match done {
        Ok(()) => "ok",
        Err(BenchFault::Failed) => "failed",
        Err(BenchFault::Memory) => "memory",
    };
    Ok(of_word(rt.alloc(), word)?)
}

fn put_answer(
    rt: &HostRuntime,
    bench: &mut ShBench<'_, HostRuntime>,
    rest: &str,
) -> io::Result<String> {
    let alloc = rt.alloc();
    let (kind, rest) = rest.split_once(' ').unwrap_or((rest, ""));
    let (path, text) = rest.split_once(' ').unwrap_or((rest, ""));
    let text = of_a_line(alloc, text)?;
    match entry_of(alloc, kind, text.as_str()) {
        Ok(entry) if is_clean(path) => bench_word(rt, bench.put(alloc, path, &entry)),
        Ok(_) => Err(no_call()),
        Err(Mem) => bench_word(rt, Err(BenchFault::Memory)),
    }
}

fn take_answer(
    rt: &HostRuntime,
    bench: &mut ShBench<'_, HostRuntime>,
    rest: &str,
) -> io::Result<String> {
    let (entries, rest) = rest.split_once(' ').unwrap_or((rest, ""));
    let (largest, bytes) = rest.split_once(' ').unwrap_or((rest, ""));
    let max = Size {
        entries: number(entries)?,
        largest: number(largest)?,
        bytes: number(bytes)?,
    };
    match bench.take(rt.alloc(), max) {
        Ok(Taken::Tree(tree)) => Ok(of_tree(rt.alloc(), &tree)?),
        Ok(Taken::TooLarge) => Ok(of_word(rt.alloc(), "too large")?),
        Err(fault) => bench_word(rt, Err(fault)),
    }
}

/// What standard output answers: whether all of the text was taken at once.
fn sink_answer(rt: &HostRuntime, call: &str) -> io::Result<String> {
    let text = of_a_line(rt.alloc(), call)?;
    let mut sink = StdSink::new(rt.clone()?);
    let word = match sink.write(text.as_bytes()) {
        Ok(taken) if taken == text.len() => "all",
        Ok(_) => "a part",
        Err(_) => "failed",
    };
    Ok(of_word(rt.alloc(), word)?)
}

/// A number in decimal digits.
fn number(text: &str) -> io::Result<u64> {
    text.parse::<u64>().map_err(|_| no_call())
}
