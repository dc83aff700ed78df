// A project in memory: its files, what the disk holds, and what its scripts do.
ghost use Rattle.std.specs.Prelude.{◌<◌, IfOk, vec_len};
ghost use Rattle.outside_traits.specs.Story.{IsFresh};
ghost use Rattle.outside_mem.specs.Told.{story_of};

use crate::upgrading::{bring_up, is_old, is_run, left_on, stopped};
use crate::wrong::Wrong;
use bb_report::fault_text;
use bitbake_top::{bitbake, clean};
use build_store::{Ahead, Known};
use clean_words::{Asks, CleanWords, clean_words};
use meta_model::Status;
use outside_mem::{FaultyDisk, Gate, GateBench, MemDisk, MemLayers, MemSink, Rule, ScriptTable};
use std::alloc::Global;
use std::collections::BTreeMap;
use std::mem;
use std::sync::Wait;
use std::thread::Threads;
use tree_model::{Bytes, Entry, Text, Tree};

/// Where the outputs of tasks stand on the disk.
const WORK: &str = "work/";

/// The folder of the stores of configurations that have a name.
const CONFIGS: &str = "mc/";

/// Where records stand on the disk.
const RECORDS: &str = "rec2/";

/// Where the keys of a disk stand.
const KEYS: &str = "key/";

/// Entries by their paths, each as its kind and its content.
pub type Listing = BTreeMap<String, Vec<u8>>;

/// What a script does that holds a text.
#[derive(Drop)]
struct Script {
    needle: String,
    puts: Vec<(Text, Entry)>,
    status: u32,
}

/// Which call of each device fails in the next run, from 1; 0 is none. `bench` is the last bench, `workers` each of the others.
#[derive(Clone, Copy)]
pub struct Fails {
    pub layers: u64,
    pub disk: u64,
    pub bench: u64,
    pub workers: u64,
    pub sink: u64,
}

/// No call of a device fails.
pub const NONE_FAILS: Fails = Fails {
    layers: 0,
    disk: 0,
    bench: 0,
    workers: 0,
    sink: 0,
};

/// How many calls of the disk a run is left, and which of the images that a crash then may leave is held behind it.
#[derive(Clone, Copy)]
pub struct Crash {
    pub calls: u64,
    pub image: u64,
}

/// What a run answered.
#[derive(Drop)]
pub struct Ran {
    pub code: u8,
    pub text: Vec<u8>,
}

/// A project, from run to run.
#[derive(Drop)]
pub struct Project {
    files: BTreeMap<String, Vec<u8>>,
    held: Vec<(Text, Entry)>,
    scripts: Vec<Script>,
    pub fails: Fails,
    pub crash: Option<Crash>,
    /// In the next run the first runs of all benches but the last wait for one another, and look so often; the last one's fail.
    pub gate: Option<u64>,
    /// How many benches there are; of none there is one.
    pub benches: u32,
}

impl Project {
    /// No files, an empty disk, no rules for scripts, and devices that don't fail.
    pub fn new(alloc: Global) -> Project {
        Project {
            files: BTreeMap::new(alloc),
            held: Vec::new(alloc),
            scripts: Vec::new(alloc),
            fails: NONE_FAILS,
            crash: None,
            gate: None,
            benches: 1,
        }
    }

    /// A file of the project, in place of one at that path.
    pub fn put_file(&mut self, path: String, bytes: Vec<u8>) -> Result<(), Wrong> {
        let _ = self.files.insert(path, bytes)?;
        Ok(())
    }

    /// Takes a file away.
    pub fn remove_file(&mut self, path: &str) -> Result<(), Wrong> {
        match self.files.remove(path) {
            Some(_) => Ok(()),
            None => Err(Wrong::Says("there is no such file to remove")),
        }
    }

    /// Something that the disk holds, in place of what it held at that path.
    pub fn hold(&mut self, alloc: Global, path: &str, entry: Entry) -> Result<(), Wrong> {
        self.held.retain(|it| it.0.as_str() != path);
        self.held.push((Text::from_str(alloc, path)?, entry))?;
        Ok(())
    }

    /// A rule for scripts that hold a text: they end well and write nothing, so far.
    pub fn add_script(&mut self, alloc: Global, needle: String) -> Result<(), Wrong> {
        self.scripts.push(Script {
            needle,
            puts: Vec::new(alloc),
            status: 0,
        })?;
        Ok(())
    }

    /// What such scripts write, too.
    pub fn add_output(&mut self, alloc: Global, path: &str, entry: Entry) -> Result<(), Wrong> {
        match self.scripts.last_mut() {
            Some(script) => {
                script.puts.push((Text::from_str(alloc, path)?, entry))?;
                Ok(())
            }
            None => Err(Wrong::Says("there is no script before it")),
        }
    }

    /// The status with which such scripts end.
    pub fn set_exit(&mut self, status: u32) -> Result<(), Wrong> {
        match self.scripts.last_mut() {
            Some(script) => {
                script.status = status;
                Ok(())
            }
            None => Err(Wrong::Says("there is no script before it")),
        }
    }

    /// Calls the program with these words, over devices with what the project has. What it leaves on the disk is held from then on.
    pub fn run<R: Threads + Wait + Sync>(
        &mut self,
        rt: &R,
        alloc: Global,
        words: &Vec<Text>,
    ) -> Result<Ran, Wrong> {
        match clean_words(alloc, words)? {
            Asks::NoClearing => self.run_words(rt, alloc, words),
            Asks::Sample(others) => self.run_words(rt, alloc, &others),
            Asks::Clearing(asked) => self.clear(rt, alloc, &asked),
            Asks::Wrong => refused(alloc, &Status::Usage),
        }
    }

    /// The call for words that ask for no clearing.
    fn run_words<R: Threads + Wait + Sync>(
        &mut self,
        rt: &R,
        alloc: Global,
        words: &Vec<Text>,
    ) -> Result<Ran, Wrong> {
        if is_run(alloc, words) {
            let status = self.upgrade(alloc)?;
            if !matches!(status, Status::Ok) {
                return refused(alloc, &status);
            }
        }
        let held = mem::replace(&mut self.held, Vec::new(alloc));
        let disk = MemDisk::new(alloc, held)?;
        let ahead = Ahead::none();
        let records = files_in(alloc, disk.held(), RECORDS)?;
        let keys = files_in(alloc, disk.held(), KEYS)?;
        ahead.put(Known::of_files(alloc, records, keys)?);
        match self.crash.take() {
            Some(crash) => self.run_into_crash(rt, alloc, &ahead, words, disk, crash),
            None => self.run_to_end(rt, alloc, &ahead, words, disk),
        }
    }

    /// Brings the store to the present format of records, and takes away what it had of the first one.
    fn upgrade_whole(&mut self, alloc: Global) -> Result<Status, Wrong> {
        match self.upgrade(alloc)? {
            Status::Ok => self.upgrade(alloc),
            refused => Ok(refused),
        }
    }

    /// Clears the store, or says what a clearing would do.
    fn clear<R: Threads + Sync>(
        &mut self,
        rt: &R,
        alloc: Global,
        asked: &CleanWords,
    ) -> Result<Ran, Wrong> {
        if !asked.dry {
            let status = self.upgrade_whole(alloc)?;
            if !matches!(status, Status::Ok) {
                return refused(alloc, &status);
            }
        }
        let held = mem::replace(&mut self.held, Vec::new(alloc));
        let fails = mem::replace(&mut self.fails, NONE_FAILS);
        let crash = self.crash.take();
        let mut disk = stopped(MemDisk::new(alloc, held)?, &fails, crash);
        let mut layers = self.layers(alloc, fails.layers)?;
        let mut sink = MemSink::new(alloc, numbers(alloc, fails.sink)?)?;
        let cleared = clean(
            rt,
            alloc,
            &asked.words,
            asked.limit,
            asked.dry,
            &mut layers,
            &mut disk,
            &mut sink,
        );
        self.held = left_on(alloc, &disk.into_disk(), crash)?;
        answer(alloc, &cleared.status, &sink)
    }

    /// Brings the store to the present format of records, where the disk holds something of the first one. The calls of the disk that it
    /// takes are the first ones of the run.
    fn upgrade(&mut self, alloc: Global) -> Result<Status, Wrong> {
        if !is_old(self.held.as_slice()) {
            return Ok(Status::Ok);
        }
        let held = mem::replace(&mut self.held, Vec::new(alloc));
        let disk = MemDisk::new(alloc, held)?;
        let brought = bring_up(alloc, disk, &self.fails, self.crash)?;
        self.held = brought.held;
        if !matches!(brought.status, Status::Ok) {
            self.fails = NONE_FAILS;
            self.crash = None;
        }
        self.fails.disk = self.fails.disk.saturating_sub(brought.calls);
        if let Some(crash) = &mut self.crash {
            crash.calls = crash.calls.saturating_sub(brought.calls);
        }
        Ok(brought.status)
    }

    /// A run that comes to its end.
    fn run_to_end<R: Threads + Wait + Sync>(
        &mut self,
        rt: &R,
        alloc: Global,
        ahead: &Ahead,
        words: &Vec<Text>,
        disk: MemDisk,
    ) -> Result<Ran, Wrong>
        requires { IsFresh (story_of disk) }
    {
        let fails = mem::replace(&mut self.fails, NONE_FAILS);
        let disk = FaultyDisk::failing_once(disk, fails.disk);
        let layers = self.layers(alloc, fails.layers)?;
        let benches = self.benches(alloc, &fails)?;
        let sink = MemSink::new(alloc, numbers(alloc, fails.sink)?)?;
        let finish = bitbake(rt, alloc, ahead, words, layers, disk, benches, sink);
        self.held = copied(alloc, finish.disk.into_disk().held())?;
        answer(alloc, &finish.status, &finish.sink)
    }

    /// A run that a crash ends.
    fn run_into_crash<R: Threads + Wait + Sync>(
        &mut self,
        rt: &R,
        alloc: Global,
        ahead: &Ahead,
        words: &Vec<Text>,
        disk: MemDisk,
        crash: Crash,
    ) -> Result<Ran, Wrong>
        requires { IsFresh (story_of disk) }
    {
        let disk = FaultyDisk::failing_after(disk, crash.calls);
        let layers = self.layers(alloc, 0)?;
        let benches = self.benches(alloc, &NONE_FAILS)?;
        let sink = MemSink::new(alloc, numbers(alloc, 0)?)?;
        let finish = bitbake(rt, alloc, ahead, words, layers, disk, benches, sink);
        let image = finish.disk.into_disk().image(crash.image)?;
        self.held = copied(alloc, image.held())?;
        answer(alloc, &finish.status, &finish.sink)
    }

    fn layers(&self, alloc: Global, fail: u64) -> Result<MemLayers, Wrong> {
        let mut files = Vec::new(alloc);
        for (path, bytes) in &self.files {
            let bytes = Bytes::from_slice(alloc, bytes.as_slice())?;
            files.push((Text::from_str(alloc, path.as_str())?, bytes))?;
        }
        Ok(MemLayers::new(alloc, files, numbers(alloc, fail)?)?)
    }

    /// The benches: those of workers, and the last one.
    fn benches(
        &mut self,
        alloc: Global,
        fails: &Fails,
    ) -> Result<Vec<GateBench<ScriptTable>>, Wrong>
        ensures { IfOk result (λ made. 0 < vec_len made) }
    {
        let gate = match self.gate.take() {
            Some(turns) => Some(Gate::new(alloc, self.workers(), turns)?),
            None => None,
        };
        let mut benches = Vec::new(alloc);
        for _ in 0..self.workers() {
            let table = self.table(alloc, fails.workers)?;
            benches.push(match &gate {
                Some(gate) => GateBench::behind(gate, table)?,
                None => GateBench::open(table),
            })?;
        }
        let last = self.table(alloc, fails.bench)?;
        benches.push(match gate {
            Some(_) => GateBench::shut(last),
            None => GateBench::open(last),
        })?;
        Ok(benches)
    }

    /// How many benches have a worker.
    fn workers(&self) -> u64 {
        u64::from(self.benches).saturating_sub(1)
    }

    /// A bench by the rules for scripts, of which one call fails.
    fn table(&self, alloc: Global, fail: u64) -> Result<ScriptTable, Wrong> {
        Ok(ScriptTable::new(alloc, self.rules(alloc)?, numbers(alloc, fail)?))
    }

    fn rules(&self, alloc: Global) -> Result<Vec<Rule>, Wrong> {
        let mut rules = Vec::new(alloc);
        for script in &self.scripts {
            rules.push(Rule {
                needle: Text::from_str(alloc, script.needle.as_str())?,
                puts: Tree::from_entries(copied(alloc, script.puts.as_slice())?)?,
                status: script.status,
            })?;
        }
        Ok(rules)
    }

    /// What stands on the disk below `work/`, by paths below it; what stands below `mc/NAME/work/` by such paths behind `mc:NAME:`.
    pub fn work(&self, alloc: Global) -> Result<Listing, Wrong> {
        let mut found = BTreeMap::new(alloc);
        for (path, entry) in &self.held {
            if let Some(name) = work_name(alloc, path.as_str())? {
                let _ = found.insert(name, shown(alloc, entry)?)?;
            }
        }
        Ok(found)
    }
}

/// The name of what stands at a path, where that is below the work folders of a store.
fn work_name(alloc: Global, path: &str) -> Result<Option<String>, Wrong> {
    if let Some(inside) = path.strip_prefix(WORK) {
        return Ok(Some(String::from_str(alloc, inside)?));
    }
    match of_config(path) {
        Some((config, inside)) => Ok(Some(format!(in alloc; "mc:{config}:{inside}")?)),
        None => Ok(None),
    }
}

/// The configuration in whose work folders a path is, and the path below them.
fn of_config(path: &str) -> Option<(&str, &str)> {
    let (config, rest) = path.strip_prefix(CONFIGS)?.split_once('/')?;
    Some((config, rest.strip_prefix(WORK)?))
}

/// What a run answered that is refused before it begins.
fn refused(alloc: Global, status: &Status) -> Result<Ran, Wrong> {
    let line = fault_text(alloc, status)?;
    let mut text = Vec::new(alloc);
    text.extend_from_slice(line.as_str().as_bytes())?;
    Ok(Ran {
        code: status.code(),
        text,
    })
}

/// What a run answered and printed.
fn answer(alloc: Global, status: &Status, sink: &MemSink) -> Result<Ran, Wrong> {
    let mut text = Vec::new(alloc);
    text.extend_from_slice(sink.written())?;
    Ok(Ran {
        code: status.code(),
        text,
    })
}

/// The files under a folder, for a run that knows what they say before it opens its store. (The program works that out in a thread
/// of its own meanwhile.)
fn files_in(
    alloc: Global,
    held: &[(Text, Entry)],
    folder: &str,
) -> Result<Vec<(Text, Entry)>, Wrong> {
    let mut files = Vec::new(alloc);
    for (path, entry) in held {
        if path.as_str().starts_with(folder) {
            files.push((path.copy()?, entry.copy()?))?;
        }
    }
    Ok(files)
}

/// The number alone.
fn numbers(alloc: Global, number: u64) -> Result<Vec<u64>, Wrong> {
    let mut list = Vec::new(alloc);
    list.push(number)?;
    Ok(list)
}

/// The same paths and entries again.
pub fn copied(alloc: Global, list: &[(Text, Entry)]) -> Result<Vec<(Text, Entry)>, Wrong> {
    let mut made = Vec::new(alloc);
    for (path, entry) in list {
        made.push((Text::from_str(alloc, path.as_str())?, entry.copy()?))?;
    }
    Ok(made)
}

/// The kind of an entry and its content.
pub fn shown(alloc: Global, entry: &Entry) -> Result<Vec<u8>, Wrong> {
    let mut text = Vec::new(alloc);
    match entry {
        Entry::File { exec, bytes } => {
            text.extend_from_slice(if *exec { b"executable\n" } else { b"file\n" })?;
            text.extend_from_slice(bytes.as_slice())?;
        }
        Entry::Link { target } => {
            text.extend_from_slice(b"link ")?;
            text.extend_from_slice(target.as_str().as_bytes())?;
        }
    }
    Ok(text)
}
