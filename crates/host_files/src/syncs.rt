// Making all durable at once that was written below `build`.
use crate::faults::{is_memory, put_escaped};
use crate::lock::{BENCHES_FOLDER, Locking};
use crate::own::{SYSTEM_PATH, make_own};
use crate::syncer::Syncer;
use std::alloc::Global;
use std::fs::OpenOptions;
use std::io;
use std::io::ErrorKind;
use std::process::{Command, Stdio};
use std::rt::Files;
use std::sync::atomic::{AtomicU64, Ordering};
use std::sync::{Mutex, OnceLock};

/// The file whose lock who syncs has, from the current folder.
const LOCK: &str = "build/bench/sync.lock";

/// The folder whose file system is synced, from the current folder.
const SYNCED: &str = "build";

/// A runtime that can write all out that stands on a file system.
pub trait Syncing {
    /// Starts a process that does so as often as it is asked to. `None` where the machine has no such program.
    fn start_syncer(&self, folder: &str) -> io::Result<Option<Syncer>>;

    /// Writes all out to the disk that stands on the file system of a folder, as `sync -f` does, and waits for it. `false` where the
    /// machine has no such program.
    fn sync_all_of(&self, folder: &str) -> io::Result<bool>;
}

impl Syncing for HostRuntime {
    fn start_syncer(&self, folder: &str) -> io::Result<Option<Syncer>> {
        Syncer::start(self, folder)
    }

    fn sync_all_of(&self, folder: &str) -> io::Result<bool> {
        let mut command = Command::new(self.alloc(), "sync")?;
        command.env_clear();
        command.env("PATH", SYSTEM_PATH)?;
        command.arg("-f")?;
        command.arg(folder)?;
        command.stdin(Stdio::null());
        match command.output(self) {
            Ok(done) if done.status.success() => Ok(true),
            Ok(done) => Err(error_of(self.alloc(), done.stderr.as_slice())?),
            Err(error) if error.kind() == ErrorKind::NotFound => Ok(false),
            Err(error) => Err(error),
        }
    }
}

/// The error of a sync that failed, with what it said.
fn error_of(alloc: Global, words: &[u8]) -> io::Result<io::Error> {
    let mut said = String::from_str(alloc, "sync -f failed")?;
    let words = words.strip_suffix(b"\n").unwrap_or(words);
    if !words.is_empty() {
        said.push_str(": ")?;
        put_escaped(&mut said, words)?;
    }
    Ok(io::Error::new(ErrorKind::Other, said.as_str()))
}

/// Whether the folder can be opened, as who syncs its file system has to.
fn may_sync<R: Files>(rt: &R) -> bool {
    OpenOptions::new().read(true).open(rt, SYNCED).is_ok()
}

/// A process that makes syncs, which has made the first one. `None` where none can be started, or where it ended without an answer. What it was told of what
/// couldn't be written nobody is told again, so that is an error.
fn first_sync<R: Syncing + AllocGlobal>(rt: &R) -> io::Result<Option<Syncer>> {
    match rt.start_syncer(SYNCED) {
        Ok(Some(syncer)) => with_first(rt.alloc(), syncer),
        _ => Ok(None),
    }
}

/// The process behind its first sync.
fn with_first(alloc: Global, mut syncer: Syncer) -> io::Result<Option<Syncer>> {
    match syncer.sync(alloc) {
        Ok(()) => Ok(Some(syncer)),
        Err(error) if error.kind() == ErrorKind::UnexpectedEof => Ok(None),
        Err(error) => Err(error),
    }
}

/// The syncs of a run, which its disk and its benches share. They go one after the other: what one of them is told of what couldn't be
/// written, no other is told, and nobody relies on one that began before it was asked for.
///
/// One process makes them all, where the machine has a program that can; else each has a process of its own.
#[derive(Drop)]
pub struct Syncs {
    /// How many asked so far.
    asked: AtomicU64,

    /// How many of them are served: all that asked before the last sync began that went well.
    served: AtomicU64,

    /// Why the first that failed did.
    failure: OnceLock<String>,

    /// What makes them. Only who syncs takes it.
    means: Mutex<Means>,
}

/// What makes syncs.
#[derive(Drop)]
enum Means {
    /// Nothing was tried yet.
    Unknown,

    /// This process.
    One(Syncer),

    /// A process for each.
    Each,
}

impl Syncs {
    /// Nobody asked yet.
    pub fn none() -> Self {
        Syncs {
            asked: AtomicU64::new(0),
            served: AtomicU64::new(0),
            failure: OnceLock::new(),
            means: Mutex::new(Means::Unknown),
        }
    }

    /// Waits until all is durable that was written below `build` so far, and says whether it is. `false` where the machine has no program
    /// for that, or where one failed, now or before.
    pub fn wait<R: Files + Locking + Syncing + AllocGlobal>(&self, rt: &R) -> bool {
        let number = self.asked.fetch_add(1, Ordering::SeqCst).saturating_add(1);
        match self.wait_for(rt, number) {
            Ok(is_served) => is_served,
            Err(error) => {
                if !is_memory(&error) {
                    self.keep(rt.alloc(), &error);
                }
                false
            }
        }
    }

    /// The same, of the one who asked with this number.
    fn wait_for<R: Files + Locking + Syncing + AllocGlobal>(
        &self,
        rt: &R,
        number: u64,
    ) -> io::Result<bool> {
        make_own(rt, BENCHES_FOLDER)?;
        let _lock = rt.wait_lock(LOCK)?;
        if self.failure.get().is_some() {
            return Ok(false);
        }
        if self.served.load(Ordering::SeqCst) >= number {
            return Ok(true);
        }
        let asked = self.asked.load(Ordering::SeqCst);
        if !may_sync(rt) || !self.sync_now(rt)? {
            return Ok(false);
        }
        self.served.store(asked, Ordering::SeqCst);
        Ok(true)
    }

    /// Syncs, and waits for it. `false` where the machine has no program for that.
    fn sync_now<R: Syncing + AllocGlobal>(&self, rt: &R) -> io::Result<bool> {
        let Some(mut means) = self.means.try_lock() else {
            return rt.sync_all_of(SYNCED);
        };
        match &mut *means {
            Means::One(syncer) => {
                syncer.sync(rt.alloc())?;
                return Ok(true);
            }
            Means::Each => return rt.sync_all_of(SYNCED),
            Means::Unknown => {}
        }
        *means = Means::Each;
        if let Some(syncer) = first_sync(rt)? {
            *means = Means::One(syncer);
            return Ok(true);
        }
        rt.sync_all_of(SYNCED)
    }

    /// Keeps why a sync failed, if it is the first.
    fn keep(&self, alloc: Global, error: &io::Error) {
        if let Ok(said) = format!(in alloc; "{error}") {
            let _ = self.failure.try_set(said);
        }
    }

    /// Why a sync failed, if one did.
    pub fn failure(&self) -> Option<&str> {
        match self.failure.get() {
            Some(said) => Some(said.as_str()),
            None => None,
        }
    }
}
