// The lock that one run at a time has on a project's folder `build`, and the locks of the folders in which scripts run.
use crate::folder::look;
use crate::own::{Identity, is_own, make_own};
use std::fs::{File, Metadata, OpenFile, OpenOptions, TryLockError};
use std::io::ErrorKind;
use std::os::unix::fs::{MetadataExt, OpenOptionsExt};
use std::process::Stdio;
use std::rt::Files;
use std::thread::sleep;
use std::time::{Clock, Duration};
use std::{fs, io};

/// The folder of the benches and of the locks, from the current folder.
pub const BENCHES_FOLDER: &str = "build/bench";

/// The file whose lock a run has, from the current folder.
pub const LOCK: &str = "build/bench/lock";

/// How often a lock is asked for where its file is taken away meanwhile, or what stands there has to go first.
const TURNS: u32 = 16;

/// How often a lock is asked for that a dying script still has, 50 ms after each other: ten seconds.
const WAITS: u32 = 200;

/// A runtime that can take a lock on a file.
pub trait Locking {
    /// Opens the file, which is made where it is missing, and takes the exclusive lock on it, which ends when the file
    /// is closed. What stands in its place and is no plain file with one name goes first; the file itself is never cut. The
    /// error is of the kind `ResourceBusy` where another process has the lock.
    fn take_lock(&self, path: &str) -> io::Result<File>;

    /// The same, where the file is there and is a plain one with one name. Nothing is made or taken away.
    fn find_lock(&self, path: &str) -> io::Result<File>;

    /// Opens the file, which is made where it is missing, and takes the exclusive lock on it, for which it waits.
    fn wait_lock(&self, path: &str) -> io::Result<File>;
}

impl Locking for HostRuntime {
    fn take_lock(&self, path: &str) -> io::Result<File> {
        lock_at(self, path, "another run is at work in this folder")
    }

    fn find_lock(&self, path: &str) -> io::Result<File> {
        match look(self, path)? {
            Some(metadata) if is_plain(&metadata) && is_own(self, BENCHES_FOLDER)? => {}
            _ => return Err(io::Error::from(ErrorKind::NotFound)),
        }
        let file = OpenOptions::new().write(true).open(self, path)?;
        lock_file(self, path, file, "another run is at work in this folder")?.ok_or(io::Error::from(
            ErrorKind::NotFound,
        ))
    }

    fn wait_lock(&self, path: &str) -> io::Result<File> {
        make_way(self, path)?;
        let file = open_lock(self, path)?;
        file.lock()?;
        Ok(file)
    }
}

/// Opens a lock's file, which is made where it is missing.
fn open_lock<R: Files<File = File>>(rt: &R, path: &str) -> io::Result<File> {
    OpenOptions::new()
        .read(true)
        .write(true)
        .create(true)
        .mode(0o644)
        .open(rt, path)
}

/// Whether it is a plain file with one name.
fn is_plain(metadata: &Metadata) -> bool {
    metadata.is_file() && metadata.nlink() == 1
}

/// The file at a path, made where it is missing, with the exclusive lock on it.
pub fn lock_at<R: Files<File = File>>(rt: &R, path: &str, busy: &str) -> io::Result<File> {
    for _ in 0..TURNS {
        make_way(rt, path)?;
        let file = open_lock(rt, path)?;
        if let Some(file) = lock_file(rt, path, file, busy)? {
            return Ok(file);
        }
    }
    Err(io::Error::new(ErrorKind::Other, "something else keeps coming to its place"))
}

/// Takes away what stands in a lock's place, unless it is a plain file with one name: no other name of it, and nothing that a link
/// leads to, is touched.
fn make_way<R: Files>(rt: &R, path: &str) -> io::Result<()> {
    match look(rt, path)? {
        Some(metadata) if is_plain(&metadata) => Ok(()),
        Some(metadata) if metadata.is_dir() => fs::remove_dir(rt, path),
        Some(_) => fs::remove_file(rt, path),
        None => Ok(()),
    }
}

/// The file with the exclusive lock on it, which ends when it and all its clones are closed; `None` where it isn't what stands
/// at the path, so that another process may lock that.
fn lock_file<R: Files>(rt: &R, path: &str, file: File, busy: &str) -> io::Result<Option<File>> {
    match file.try_lock() {
        Ok(()) => {}
        Err(TryLockError::WouldBlock) => {
            return Err(io::Error::new(ErrorKind::ResourceBusy, busy));
        }
        Err(TryLockError::Error(error)) => return Err(error),
    }
    let opened = file.metadata()?;
    match look(rt, path)? {
        Some(there) if is_plain(&there) && Identity::of(&there) == Identity::of(&opened) => {
            Ok(Some(file))
        }
        _ => Ok(None),
    }
}

/// The lock of a folder in which scripts run. The bench has it, and each script, so that one of a killed run keeps it.
#[derive(Drop)]
pub struct ScriptLock {
    file: File,
}

impl ScriptLock {
    /// Takes the lock on the file at a path whose folder is `folder`, where no script has it.
    pub fn take<R: Files<File = File> + AllocGlobal>(
        rt: &R,
        folder: &str,
        path: &str,
    ) -> io::Result<Self> {
        make_own(rt, folder)?;
        let file = lock_at(
            rt,
            path,
            "a script of an earlier run is still at work there",
        )?;
        Ok(ScriptLock { file })
    }

    /// The same, and where a script has it, which may be dying, waits for up to ten seconds.
    pub fn wait<R: Files<File = File> + Clock + AllocGlobal>(
        rt: &R,
        folder: &str,
        path: &str,
    ) -> io::Result<Self> {
        for _ in 0..WAITS {
            match ScriptLock::take(rt, folder, path) {
                Err(error) if error.kind() == ErrorKind::ResourceBusy => {
                    sleep(rt, Duration::from_millis(50));
                }
                done => return done,
            }
        }
        ScriptLock::take(rt, folder, path)
    }

    /// What a process is handed to have the lock too.
    pub fn handle(&self) -> io::Result<Stdio> {
        Ok(Stdio::from(self.file.try_clone()?))
    }
}
