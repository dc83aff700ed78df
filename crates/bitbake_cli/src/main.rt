//! The program `bitbake`: the top call over the real things.
//!
//! What is decided is decided in `bitbake_top`, and what it promises is the promise of this program, whatever another thread reads
//! ahead meanwhile; the devices stand in `outside_os` and `sh_bench`. Here the words are taken from the system and the devices made, and standard
//! error tells of what failed, beside the ends of logs, which the benches show: which tasks gave too much, what is wrong with the metadata
//! and what to do, who asks for what isn't there, and what a device says of its first fault.
//! Where that is a terminal, one line there says what a run is doing (`progress_line`), unless `--quiet` is among the words.
//! Before a run the stores that it will open are brought to the present format of records, where they have any of the first one (`upgrading`).
//! Help, the version, remarks and the graph are modes of this program alone, whose words go to no top call (`own_modes`, `linting` over
//! `recipe_lint`, `graphing` over `target_graph`). What a run would do, and a clearing of the store, are calls of `bitbake_top` of their own (`whying`,
//! `cleaning`).
//! `tests/program.sh` tests it by runs.
#![tactic(auto)]

ghost use Rattle.std.specs.Prelude.{◌≡◌, ◌<◌, IfOk, vec_len};

mod about;
mod ahead;
mod cleaning;
mod failures;
mod faults;
mod freeing;
mod graphing;
mod help;
mod leavings;
mod linting;
mod own_modes;
mod places;
mod records;
mod sentences;
mod streams;
mod traces;
mod upgrading;
mod watching;
mod whying;

use about::tell_about;
use ahead::{configs_in, is_forced, is_run, read_ahead, reads_default};
use bitbake_top::bitbake;
use build_store::Ahead;
use clean_words::{Asks, clean_words};
use cleaning::run_clean;
use failures::tell_too_large;
use faults::{tell_fault, tell_passed};
use graphing::run_graph;
use host_files::{Syncs, is_memory};
use linting::{run_lint, tell_count};
use meta_model::Status;
use outside_os::{FolderDisk, FolderLayers, ReadAhead, StdSink};
use own_modes::{OwnMode, other_words, own_mode, print_refused, run_help, run_version};
use progress_line::{Progress, Shown, has_place};
use recipe_lint::Counted;
use run_reasons::{Known, Stamped, keep_reasons};
use run_trace::{Timed, micros_now};
use sh_bench::{Configs, Sandboxes, ShBench};
use std::process::ExitCode;
use std::sync::Wait;
use std::thread::{Threads, join};
use std::time::{Clock, SystemTime};
use std::{env, io};
use streams::closed_streams;
use traces::{Lines, keep_trace};
use tree_model::Text;
use upgrading::bring_up;
use whying::run_why;

/// The number of the last bench, from 0 on. The folders of benches are made at first use.
const LAST_BENCH: u32 = 16;

/// The exit status for want of memory, as the top call has it.
const OUT_OF_MEMORY: u8 = 11;

/// An option that the command doesn't have. It stands for words that aren't UTF-8, which have no reading either.
const NO_WORD: &str = "--not-utf-8";

/// The words that ask for no line on the terminal.
const QUIET: &[&str] = &["-q", "--quiet"];

/// What the devices of a run have besides.
#[derive(Drop)]
struct Beside {
    syncs: Syncs,
    sandboxes: Sandboxes,
    configs: Configs,

    /// The line on the terminal, and whether it is drawn.
    progress: Progress,
    is_shown: bool,

    /// When the program began: in microseconds of the monotonic clock, and by the calendar.
    begun: u64,
    since: SystemTime,
}

/// Ends with the status of the top call over the current folder and standard output.
fn main(rt: HostRuntime) -> ExitCode {
    // Held until the program ends.
    let _streams = closed_streams(&rt);
    match run(&rt, &rt) {
        Ok(status) => ExitCode::from(status),
        Err(_) => {
            // Of want of memory alone. Where this text can't be written either, the status says it.
            let _ = println!(rt; "fault 11 memory");
            ExitCode::from(OUT_OF_MEMORY)
        }
    }
}

/// The status of a mode of this program alone, or of the call for the words.
fn run<R: Threads + Wait + Clock + Sync>(rt: &HostRuntime, threads: &R) -> io::Result<u8> {
    let begun = micros_now(rt);
    let all = words_of(rt)?;
    match own_mode(&all) {
        Some(OwnMode::Help) => return run_help(rt),
        Some(OwnMode::Version) => return run_version(rt),
        Some(OwnMode::Lint) => return run_lint(rt, &all),
        Some(OwnMode::Why) => return run_why(rt, threads, &all),
        Some(OwnMode::Graph) => return run_graph(rt, &all),
        None => {}
    }
    let words = other_words(rt.alloc(), &all, QUIET)?;
    let is_quiet = words.len() != all.len();
    match clean_words(rt.alloc(), &words)? {
        Asks::NoClearing => run_words(rt, threads, begun, words, is_quiet),
        Asks::Sample(others) => run_words(rt, threads, begun, others, is_quiet),
        Asks::Clearing(asked) => run_clean(rt, threads, &asked, !is_quiet),
        Asks::Wrong => {
            let status = print_refused(rt, Status::Usage)?;
            tell_about(rt, &status);
            Ok(status.code())
        }
    }
}

/// The status of the top call over the current folder, for these words.
fn run_words<R: Threads + Wait + Clock + Sync>(
    rt: &HostRuntime,
    threads: &R,
    begun: u64,
    words: Vec<Text>,
    is_quiet: bool,
) -> io::Result<u8> {
    let is_run = is_run(rt, &words);
    let configs = configs_in(rt.alloc(), &words)?;
    if is_run {
        let status = bring_up(rt, configs.as_slice(), !is_quiet)?;
        if !matches!(status, Status::Ok) {
            return Ok(status.code());
        }
    }
    let beside = Beside {
        syncs: Syncs::none(),
        sandboxes: Sandboxes::unknown(),
        configs: Configs::of(configs),
        progress: Progress::new(rt.alloc(), begun),
        is_shown: is_run && !is_quiet && has_place(rt),
        begun,
        since: SystemTime::now(rt).unwrap_or(SystemTime::UNIX_EPOCH),
    };
    let mut disk = FolderDisk::new(rt.clone()?, &beside.syncs);
    let reading = ReadAhead::none();
    let ahead = Ahead::none();
    if !is_run || !reads_default(rt, &words) || !disk.hold_early(&reading) {
        return call_shown(rt, threads, &ahead, &words, &beside, disk);
    }
    let ((), status) = join(
        threads,
        || read_ahead(rt, &reading, &ahead),
        || -> io::Result<u8>
            requires unharmed { disk.faults ≡ 0 }
        {
            let status = call_shown(rt, threads, &ahead, &words, &beside, disk);
            reading.stop();
            status
        },
    );
    status
}

/// The status of the top call. Where there is a line on the terminal, a thread of its own draws it meanwhile.
fn call_shown<'b, R: Threads + Wait + Clock + Sync>(
    rt: &'b HostRuntime,
    threads: &'b R,
    ahead: &'b Ahead,
    words: &'b [Text],
    beside: &'b Beside,
    disk: FolderDisk<'b, HostRuntime>,
) -> io::Result<u8>
    requires unharmed { disk.faults ≡ 0 }
{
    if !beside.is_shown {
        return call(rt, threads, ahead, words, beside, disk);
    }
    let ((), status) = join(
        threads,
        || beside.progress.tick(rt, threads),
        || -> io::Result<u8>
            requires unharmed { disk.faults ≡ 0 }
        {
            let status = call(rt, threads, ahead, words, beside, disk);
            beside.progress.stop(rt, threads);
            status
        },
    );
    status
}

/// The bench of a number.
fn bench_of<'b>(
    rt: &'b HostRuntime,
    number: u32,
    beside: &'b Beside,
) -> io::Result<ShBench<'b, HostRuntime>> {
    Ok(ShBench::new(
        rt.clone()?,
        number,
        &beside.sandboxes,
        &beside.syncs,
        &beside.configs,
    ))
}

/// The benches. Their folders are made at first use.
fn benches_of<'b>(
    rt: &'b HostRuntime,
    beside: &'b Beside,
) -> io::Result<Vec<ShBench<'b, HostRuntime>>>
    ensures { IfOk result (λ benches. 0 < vec_len benches) }
{
    let mut benches = Vec::new(rt.alloc());
    for number in 0..LAST_BENCH {
        benches.push(bench_of(rt, number, beside)?)?;
    }
    benches.push(bench_of(rt, LAST_BENCH, beside)?)?;
    Ok(benches)
}

/// The status of the top call over the current folder's layers, this disk, the benches and standard output.
fn call<'b, R: Threads + Wait + Clock + Sync>(
    rt: &'b HostRuntime,
    threads: &'b R,
    ahead: &'b Ahead,
    words: &'b [Text],
    beside: &'b Beside,
    disk: FolderDisk<'b, HostRuntime>,
) -> io::Result<u8>
    requires unharmed { disk.faults ≡ 0 }
{
    let benches = benches_of(rt, beside)?;
    let layers = Counted::new(rt.alloc(), FolderLayers::new(rt.clone()?));
    let progress = beside.is_shown.then_some(&beside.progress);
    let shown = Shown::new(StdSink::new(rt.clone()?), progress, rt.clone()?, threads);
    let timed = Timed::new(rt.alloc(), shown, rt.clone()?);
    let sink = Stamped::new(rt.alloc(), timed, rt.clone()?, &beside.configs);
    let mut finish = bitbake(
        threads,
        rt.alloc(),
        ahead,
        words,
        layers,
        disk,
        benches,
        sink,
    );
    for bench in &mut finish.benches {
        bench.close();
    }
    finish.disk.close();
    if finish.disk.is_held() {
        let lines = Lines {
            times: finish.sink.inner.lines(),
            plans: finish.sink.inner.plans(),
            planned: finish.sink.planned(),
        };
        keep_trace(rt, &finish.plans, &finish.tales, &lines, beside.begun);
        let known = Known {
            stamps: finish.sink.stamps(),
            planned: finish.sink.planned(),
            begun: beside.since,
            is_forced: is_forced(rt, words),
        };
        keep_reasons(rt, &finish.plans, &finish.tales, &known);
    }
    tell_too_large(rt, &finish.plans, &finish.tales);
    tell_fault(rt, &finish.status);
    tell_about(rt, &finish.status);
    tell_sandboxes(rt, &beside.sandboxes);
    if !finish.plans.is_empty() {
        tell_count(rt, finish.layers.count());
    }
    tell_passed(rt, &finish.status, &finish.layers.inner);
    tell(rt, "layers", finish.layers.inner.first_fault());
    tell(rt, "disk", finish.disk.first_fault());
    for bench in &finish.benches {
        tell(rt, "bench", bench.first_fault());
    }
    tell(rt, "output", finish.sink.inner.inner.inner.first_fault());
    Ok(finish.status.code())
}

/// Says on standard error that scripts had no sandboxes, and why.
fn tell_sandboxes(rt: &HostRuntime, sandboxes: &Sandboxes) {
    if let Some(reason) = sandboxes.reason() {
        let _ = eprintln!(rt;
            "bitbake: sandbox: none can be made here ({reason}): each task has a place of its own below build/bench/at, \
            whose path its output may hold, and a process that leaves its script's session outlives it"
        );
    }
}

/// Says on standard error what a device says of its first fault. Where that can't be written the status says it alone.
pub(crate) fn tell(rt: &HostRuntime, device: &str, fault: Option<&str>) {
    if let Some(sentence) = fault {
        let _ = eprintln!(rt; "bitbake: {device}: {sentence}");
    }
}

/// The words after the program's name.
fn words_of(rt: &HostRuntime) -> io::Result<Vec<Text>> {
    let mut words = Vec::new(rt.alloc());
    match env::args(rt) {
        Ok(all) => {
            for word in all.skip(1) {
                words.push(Text::from_string(word))?;
            }
        }
        Err(error) if is_memory(&error) => return Err(error),
        Err(_) => words.push(Text::from_string(String::from_str(rt.alloc(), NO_WORD)?))?,
    }
    Ok(words)
}
