// Folders in which `sh` runs scripts.
ghost use Rattle.std.specs.Prelude.{[], Ok, None, true};

use crate::configs::Configs;
use crate::kept::Kept;
use crate::output::look_over;
use crate::pace::is_soon;
use crate::place::{Place, SCRIPT, WORK};
use crate::sandboxes::Sandboxes;
use crate::supervisor::{Supervisor, Way};
use crate::telling::Telling;
use host_files::{
    BENCHES_FOLDER, FirstFault, Item, Locking, Syncing, Syncs, is_memory, join, make_own, one_more,
    open_up, put_entry, read_entry,
};
use outside_traits::{Bench, BenchFault, Taken};
use std::alloc::{AllocError, Global};
use std::fs::{File, FileTimes, Permissions};
use std::io::ErrorKind;
use std::mem::take;
use std::os::unix::fs::PermissionsExt;
use std::process::Processes;
use std::rt::{Env, Files};
use std::time::{Clock, Duration, UNIX_EPOCH};
use std::{fs, io};
use tree_model::{Entry, Size, Text, Tree, TreeFault};

/// The folder that sandboxes have for their roots to be made in, from the current folder. Nothing ever stands in it.
const ROOTS: &str = "build/bench/root";

/// The time of change of each file that is laid, in seconds since 1970: the year 2000 begins, by UTC.
const LAID_AT: u64 = 946_684_800;

/// A folder below `build/bench`, in which `sh` runs scripts.
///
/// Where the system lets it, scripts run in a sandbox, one for each bench, program and configuration: WORKDIR, DEPSDIR and FILESDIR are
/// `/bitbake/work`, `/bitbake/deps` and `/bitbake/files`, whichever bench and whichever project it is; all else of the machine is there
/// but the project's folder `build`; they have a session of their own, and all that they start is killed when they end. Elsewhere these
/// places are below `build/bench/at/PN/TASK`, and what is left of a script's process group is killed when it ends. `sh` is the one that the
/// search path names, standard input is `/dev/null`, and what a script writes goes to the file `log` beside `work`.
/// Both end where this program dies. All files that are laid have one time of change, so that no script sees when or in which order they
/// were laid; what a script makes has the time of its making. An input file is executable where it begins with `#!`, whatever its own
/// bits are. It tells nothing.
///
/// Each folder has a lock, which the object has, and each script too. A bench with a sandbox passes over folders whose lock somebody has; the
/// folder of a task is waited for, for ten seconds. A bench that was never cleared runs nothing.
///
/// The log of each task is kept until it runs again, and of one that fails all else that it had; then the log's end is shown on standard error
/// at once (`Kept`).
#[derive(Drop)]
pub struct ShBench<'a, R: Processes> {
    site: Site<'a, R>,

    /// The syncs of the run, and whether a file is durable so soon by itself that nobody need wait for one, once that was tried.
    syncs: &'a Syncs,
    is_soon: Option<bool>,

    /// The configuration whose tasks run, and the number of that for whose task it was cleared last.
    configs: &'a Configs,
    config: usize,

    /// What is kept of the task for which it was cleared last.
    kept: Option<Kept>,

    /// The script that ran last.
    script: Option<String>,
    faults: u64,
    first: FirstFault,
}

/// Where the scripts of a bench run.
#[derive(Drop)]
struct Site<'a, R: Processes> {
    rt: R,

    /// The number of the bench.
    number: u32,
    sandboxes: &'a Sandboxes,

    /// The place of the task's work, and whether it is clear, since nothing was laid there and nothing ran behind its last clearing.
    place: Option<Place>,
    is_clear: bool,

    /// The sandbox, which is that of the place.
    sandbox: Option<Supervisor<R::Started>>,

    /// The files and links that the last run left.
    left: Option<Vec<Item>>,
}

impl<'a, R: Processes + AllocGlobal> ShBench<'a, R> {
    ghost use Rattle.outside_traits.specs.Fault.{Counts, bench_failed};

    /// What is said of the first fault.
    pub fn first_fault(&self) -> Option<&str> {
        self.first.as_str()
    }

    /// Ends the sandbox, and waits until that has ended, so that the next run finds its folder free.
    pub fn close(&mut self) {
        self.site.leave_sandbox();
    }

    /// Counts the fault where a call of the system failed, for a call of the bench.
    fn count<T: Drop>(&mut self, call: &str, done: io::Result<T>) -> Result<T, BenchFault>
        ensures { Counts self.old.faults self.new.faults (bench_failed result) }
    {
        match done {
            Ok(value) => Ok(value),
            Err(error) if is_memory(&error) => Err(BenchFault::Memory),
            Err(error) => {
                self.faults = one_more(self.faults);
                self.site.note(&mut self.first, call, &error);
                self.site.release();
                Err(BenchFault::Failed)
            }
        }
    }
}

impl<'a, R: Processes + AllocGlobal> Site<'a, R> {
    /// Gives a task's place up where it has no sandbox, so that another bench may have it. Its files stay.
    fn release(&mut self) {
        if self.sandbox.is_none() {
            self.place = None;
        }
    }

    /// Ends the sandbox. The system kills one where the thread ends that made it, and each configuration's run has threads of its own.
    fn leave_sandbox(&mut self) {
        if let Some(sandbox) = self.sandbox.take() {
            sandbox.end();
            self.place = None;
            self.is_clear = false;
        }
    }

    /// Keeps what is said of a fault, if it is the first.
    fn note(&self, first: &mut FirstFault, call: &str, error: &io::Error) {
        first.keep(self.rt.alloc(), call, self.folder(), error);
    }

    /// The folder of the task's work, from the current folder.
    fn folder(&self) -> &str {
        match &self.place {
            Some(place) => place.folder(),
            None => BENCHES_FOLDER,
        }
    }
}

impl<
    'a,
    R: Files<File = File>
        + Env
        + Processes
        + Clock
        + Locking
        + Syncing
        + Telling
        + AllocGlobal
        + Clone
        + Drop,
> ShBench<'a, R> {
    ghost use Rattle.std.specs.Prelude.{◌≡◌};

    /// The bench of a number, without a fault so far.
    pub fn new(
        rt: R,
        number: u32,
        sandboxes: &'a Sandboxes,
        syncs: &'a Syncs,
        configs: &'a Configs,
    ) -> Self {
        let site = Site {
            rt,
            number,
            sandboxes,
            place: None,
            is_clear: false,
            sandbox: None,
            left: None,
        };
        ShBench {
            site,
            syncs,
            is_soon: None,
            configs,
            config: 0,
            kept: None,
            script: None,
            faults: 0,
            first: FirstFault::none(),
        }
    }

    /// Whether a file is durable so soon by itself that waiting for a sync of all takes longer. It is tried once.
    fn is_soon(&mut self) -> bool
        ensures { self.new.faults ≡ self.old.faults }
    {
        if let Some(is_soon) = self.is_soon {
            return is_soon;
        }
        let is_soon = is_soon(&self.site.rt, self.site.number).unwrap_or(false);
        self.is_soon = Some(is_soon);
        is_soon
    }

    /// Clears the place of a task's work, and forgets what an earlier run kept of it.
    fn begin(&mut self, recipe: &str, task: &str) -> io::Result<()>
        ensures { self.new.faults ≡ self.old.faults }
    {
        self.kept = None;
        self.script = None;
        let config = self.configs.number();
        if config != self.config {
            self.config = config;
            self.site.leave_sandbox();
        }
        let kept = Kept::of(self.site.rt.alloc(), self.configs.current(), recipe, task)?;
        kept.forget(&self.site.rt)?;
        self.kept = Some(kept);
        self.site.clear(recipe, task)
    }

    /// Runs a script. Where it failed, keeps what it had, and shows the end of its log.
    fn run_told(&mut self, script: &str) -> io::Result<u32>
        ensures { self.new.faults ≡ self.old.faults }
    {
        let status = self.site.run(script)?;
        if status == 0 {
            self.script = Some(String::from_str(self.site.rt.alloc(), script)?);
            return Ok(status);
        }
        if let Some(kept) = &self.kept {
            let site = &self.site;
            kept.keep_failed(&site.rt, site.folder(), script, status)?;
        }
        Ok(status)
    }

    /// Takes the output of the work folder, and keeps its log; where that is too large, keeps what the task had.
    fn take_told(&mut self, max: &Size) -> io::Result<Option<Tree>>
        ensures { self.new.faults ≡ self.old.faults }
    {
        let excess = self.site.excess(max)?;
        let taken = self.site.take(max)?;
        if let Some(kept) = &self.kept {
            let site = &self.site;
            match &self.script {
                Some(script) if taken.is_none() => {
                    kept.keep_too_large(
                        &site.rt,
                        site.folder(),
                        script.as_str(),
                        excess.as_deref(),
                    )?;
                }
                _ => kept.keep_log(&site.rt, site.folder())?,
            }
        }
        self.site.leave();
        Ok(taken)
    }
}

impl<'a, R: Files<File = File> + Env + Processes + Clock + AllocGlobal + Clone + Drop> Site<'a, R> {
    /// Clears the place of a task's work.
    fn clear(&mut self, recipe: &str, task: &str) -> io::Result<()> {
        self.left = None;
        if self.sandbox.is_none() && !self.sandboxes.are_refused() {
            self.make_sandbox()?;
        }
        if self.sandboxes.are_refused() {
            self.place = None;
            self.place = Some(Place::of_task(&self.rt, recipe, task)?);
        }
        let is_clear = take(&mut self.is_clear);
        match &mut self.place {
            Some(place) if is_clear => place.check(&self.rt),
            Some(place) => place.clear(&self.rt),
            None => Err(was_never_cleared()),
        }
    }

    /// Makes the sandbox of the bench, or finds out that the system makes none.
    fn make_sandbox(&mut self) -> io::Result<()> {
        let mut place = Place::of_number(&self.rt, self.number)?;
        place.clear(&self.rt)?;
        make_own(&self.rt, ROOTS)?;
        let lock = place.lock().handle()?;
        match Supervisor::start(&self.rt, Way::Sandbox, place.folder(), lock)? {
            Ok(sandbox) => {
                if self.sandboxes.note_made() {
                    self.sandbox = Some(sandbox);
                    self.place = Some(place);
                }
                Ok(())
            }
            Err(reason) => {
                let error = io::Error::new(ErrorKind::Other, reason.as_str());
                if self.sandboxes.note_refusal(reason) {
                    return Ok(());
                }
                Err(error)
            }
        }
    }

    /// Runs a script, and gives its status.
    fn run(&mut self, script: &str) -> io::Result<u32> {
        let Some(place) = &self.place else {
            return Err(was_never_cleared());
        };
        place.check(&self.rt)?;
        let file = join(self.rt.alloc(), place.folder(), SCRIPT)?;
        fs::write(&self.rt, file.as_str(), script)?;
        let status = match &mut self.sandbox {
            Some(sandbox) => sandbox.run(self.rt.alloc())?,
            None => run_in_group(&self.rt, place)?,
        };
        place.check(&self.rt)?;
        if status != 0 {
            return Ok(status);
        }
        let found = look_over(&self.rt, place.folder())?;
        let status = found.status;
        self.left = found.items;
        Ok(status)
    }

    /// Lays an entry.
    fn put(&self, path: &str, entry: &Entry) -> io::Result<()> {
        let folder = self.folder();
        put_entry(&self.rt, folder, path, entry, Some(laid_times()))?;
        if is_program(path, entry) {
            let whole = join(self.rt.alloc(), folder, path)?;
            fs::set_permissions(&self.rt, whole.as_str(), Permissions::from_mode(0o755))?;
        }
        Ok(())
    }

    /// Takes the output of the work folder.
    fn take(&mut self, max: &Size) -> io::Result<Option<Tree>> {
        let Some(place) = &self.place else {
            return Err(was_never_cleared());
        };
        place.check(&self.rt)?;
        let work = join(self.rt.alloc(), place.folder(), WORK)?;
        let left = self.left.take();
        self.tree_at(work.as_str(), left, max)
    }

    /// The tree of the work folder, or `None` where it exceeds the limit. That is told by the number and the lengths
    /// of its entries, before a byte of a file is read.
    fn tree_at(&self, work: &str, left: Option<Vec<Item>>, max: &Size) -> io::Result<Option<Tree>> {
        match left {
            Some(items) if is_within(&items, max) => self.read_items(work, items, max),
            _ => Ok(None),
        }
    }

    /// What of the work folder exceeds the limit, where that is told by what was found there.
    fn excess(&self, max: &Size) -> Result<Option<String>, AllocError> {
        match &self.left {
            Some(items) => excess_of(self.rt.alloc(), items, max),
            None => Ok(None),
        }
    }

    /// Clears the place behind a task, or takes it away where it has no sandbox: before its output is made durable, so that what isn't wanted any more
    /// need not be written to the disk. Where it can't be cleared the next task finds out.
    fn leave(&mut self) {
        if self.sandbox.is_some() {
            if let Some(place) = &mut self.place {
                self.is_clear = place.clear(&self.rt).is_ok();
            }
        } else if let Some(place) = self.place.take() {
            place.remove(&self.rt);
        }
    }

    /// Reads what was found in the work folder, and no more of it than the limit, also where it grew meanwhile.
    fn read_items(&self, root: &str, items: Vec<Item>, max: &Size) -> io::Result<Option<Tree>> {
        let mut entries = Vec::new(self.rt.alloc());
        let mut room = max.bytes;
        for item in items {
            match self.read_item(root, &item, max.largest.min(room))? {
                Some(entry) => {
                    room = room.saturating_sub(entry.len() as u64);
                    entries.push((item.path, entry))?;
                }
                None => return Ok(None),
            }
        }
        tree_of(entries)
    }

    /// The entry of one item, or `None` where it has more bytes than the limit.
    fn read_item(&self, root: &str, item: &Item, limit: u64) -> io::Result<Option<Entry>> {
        let whole = join(self.rt.alloc(), root, item.path.as_str())?;
        open_up(&self.rt, whole.as_str(), &item.facts)?;
        match read_entry(&self.rt, whole.as_str(), &item.facts, limit)? {
            Some(entry) if entry.len() as u64 <= limit => Ok(Some(entry)),
            _ => Ok(None),
        }
    }
}

/// Runs the script of a place without a sandbox.
fn run_in_group<R: Env + Processes + AllocGlobal>(rt: &R, place: &Place) -> io::Result<u32> {
    match Supervisor::start(rt, Way::Groups, place.folder(), place.lock().handle()?)? {
        Ok(mut shell) => {
            let status = shell.run(rt.alloc());
            shell.end();
            status
        }
        Err(reason) => Err(io::Error::new(ErrorKind::Other, reason.as_str())),
    }
}

fn was_never_cleared() -> io::Error {
    io::Error::new(ErrorKind::InvalidInput, "it was never cleared")
}

/// Whether an input file is a script of its own.
fn is_program(path: &str, entry: &Entry) -> bool {
    match entry {
        Entry::File { exec: _, bytes } => {
            path.starts_with("files/") && bytes.as_slice().starts_with(b"#!")
        }
        Entry::Link { target: _ } => false,
    }
}

/// The tree of these entries, or `None` where they are none.
fn tree_of(entries: Vec<(Text, Entry)>) -> io::Result<Option<Tree>> {
    match Tree::from_entries(entries) {
        Ok(tree) => Ok(Some(tree)),
        Err(TreeFault::Memory) => Err(io::Error::from(AllocError)),
        Err(_) => Ok(None),
    }
}

impl<
    'a,
    R: Files<File = File>
        + Env
        + Processes
        + Clock
        + Locking
        + Syncing
        + Telling
        + AllocGlobal
        + Clone
        + Drop,
> Bench for ShBench<'a, R> {
    ghost use Rattle.outside_traits.specs.Bench.{Workplace};

    ghost tells = { ⊥ };

    ghost gives = { λ _ _ _. Ok [] };

    ghost place = { λ _. record { laid = []; cleared = true; output = None; runs = [] } };

    ghost faults = { λ s. s.faults };

    fn clear(&mut self, _alloc: Global, recipe: &str, task: &str) -> Result<(), BenchFault> {
        let done = self.begin(recipe, task);
        self.count("clearing", done)
    }

    fn put(&mut self, _alloc: Global, path: &str, entry: &Entry) -> Result<(), BenchFault> {
        let done = self.site.put(path, entry);
        self.count("laying", done)
    }

    fn run(&mut self, _alloc: Global, script: &str) -> Result<u32, BenchFault> {
        let done = self.run_told(script);
        self.count("run", done)
    }

    fn wait_synced(&mut self) -> bool {
        !self.is_soon() && self.syncs.wait(&self.site.rt)
    }

    fn take(&mut self, _alloc: Global, max: Size) -> Result<Taken, BenchFault> {
        let taken = self.take_told(&max);
        match self.count("taking", taken)? {
            Some(tree) => Ok(Taken::Tree(tree)),
            None => Ok(Taken::TooLarge),
        }
    }
}

/// The times of a file that is laid.
fn laid_times() -> FileTimes {
    FileTimes::new().set_modified(UNIX_EPOCH + Duration::from_secs(LAID_AT))
}

/// What of these exceeds the limit, in words, where something does.
fn excess_of(alloc: Global, items: &[Item], max: &Size) -> Result<Option<String>, AllocError> {
    let number = items.len() as u64;
    if number > max.entries {
        let most = max.entries;
        let said = format!(in alloc; "{number} files and links, of at most {most}")?;
        return Ok(Some(said));
    }
    let mut bytes = 0u64;
    for item in items {
        let length = item.facts.length;
        bytes = bytes.saturating_add(length);
        if length > max.largest {
            let (path, most) = (item.path.as_str(), max.largest);
            let said = format!(in alloc;
                "{length} bytes in {path}, of at most {most} in one file"
            )?;
            return Ok(Some(said));
        }
    }
    if bytes <= max.bytes {
        return Ok(None);
    }
    let most = max.bytes;
    let said = format!(in alloc;
        "{bytes} bytes in {number} files and links, of at most {most} in all"
    )?;
    Ok(Some(said))
}

/// Whether the sum of the lengths, and each of them, is within the limit.
fn is_within(items: &[Item], max: &Size) -> bool {
    let mut bytes = 0u64;
    if items.len() as u64 > max.entries {
        return false;
    }
    for item in items {
        let length = item.facts.length;
        bytes = bytes.saturating_add(length);
        if length > max.largest {
            return false;
        }
    }
    bytes <= max.bytes
}
