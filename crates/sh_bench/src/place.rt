// Where a task's work stands.
use host_files::{
    BENCHES_FOLDER, Identity, ScriptLock, clear_own, lock_at, make_own, remove_place,
};
use std::fs::File;
use std::io::ErrorKind;
use std::process::Processes;
use std::rt::Files;
use std::time::Clock;
use std::{fs, io};

/// The part of a bench in which the script runs, and whose tree is its output.
pub const WORK: &str = "work";

/// The file of a bench that has the script.
pub const SCRIPT: &str = "script";

/// The parts of a bench.
pub const PARTS: [&str; 3] = [WORK, "deps", "files"];

/// How many folders a program's benches have, one after the other: its benches are fewer.
const STEP: u32 = 32;

/// How many folders a bench tries.
const TRIES: u32 = 16;

/// A folder with the three parts of a bench, and its lock.
#[derive(Drop)]
pub struct Place {
    folder: String,
    lock_path: String,
    lock: ScriptLock,

    /// The folder, as it was when it was cleared.
    laid: Option<Identity>,
}

impl Place {
    /// The first folder `build/bench/N` that no script has, of those of the bench with this number.
    pub fn of_number<R: Files<File = File> + AllocGlobal>(rt: &R, bench: u32) -> io::Result<Self> {
        let mut number = bench;
        for _ in 1..TRIES {
            match Place::with_lock(rt, BENCHES_FOLDER, format!(in rt.alloc(); "{number}")?) {
                Err(error) if error.kind() == ErrorKind::ResourceBusy => {
                    number = number.saturating_add(STEP);
                }
                done => return done,
            }
        }
        Place::with_lock(rt, BENCHES_FOLDER, format!(in rt.alloc(); "{number}")?)
    }

    fn with_lock<R: Files<File = File> + AllocGlobal>(
        rt: &R,
        above: &str,
        name: String,
    ) -> io::Result<Self> {
        let folder = format!(in rt.alloc(); "{above}/{}", name.as_str())?;
        let lock_path = format!(in rt.alloc(); "{above}/{}.lock", name.as_str())?;
        let lock = ScriptLock::take(rt, above, lock_path.as_str())?;
        Ok(Place {
            folder,
            lock_path,
            lock,
            laid: None,
        })
    }

    /// The folder `build/bench/at/PN/TASK` of a task. Where a script of a killed run still has it, waits for that, but not for long.
    pub fn of_task<R: Files<File = File> + Clock + AllocGlobal>(
        rt: &R,
        recipe: &str,
        task: &str,
    ) -> io::Result<Self> {
        let above = format!(in rt.alloc(); "{BENCHES_FOLDER}/at/{recipe}")?;
        let folder = format!(in rt.alloc(); "{}/{task}", above.as_str())?;
        let lock_path = format!(in rt.alloc(); "{}.lock", folder.as_str())?;
        let lock = ScriptLock::wait(rt, above.as_str(), lock_path.as_str())?;
        Ok(Place {
            folder,
            lock_path,
            lock,
            laid: None,
        })
    }

    /// The folder, from the current folder.
    pub fn folder(&self) -> &str {
        self.folder.as_str()
    }

    /// Its lock.
    pub fn lock(&self) -> &ScriptLock {
        &self.lock
    }

    /// Makes the folder with its empty parts, and clears all else in it. One that is known already has to be there as it was.
    pub fn clear<R: Files + Processes + AllocGlobal + Clone + Drop>(
        &mut self,
        rt: &R,
    ) -> io::Result<()> {
        if self.laid.is_some() {
            self.check_folder(rt)?;
        }
        lay_parts(rt, self.folder.as_str())?;
        let now = Identity::of_folder(rt, self.folder.as_str())?;
        self.laid = now;
        Ok(())
    }

    /// An error where the folder isn't the one that was cleared.
    fn check_folder<R: Files>(&self, rt: &R) -> io::Result<()> {
        let now = Identity::of_folder(rt, self.folder.as_str())?;
        if now.is_none() || now != self.laid {
            return Err(is_another());
        }
        Ok(())
    }

    /// The same, and where its part `work` is no folder any more.
    pub fn check<R: Files + AllocGlobal>(&self, rt: &R) -> io::Result<()> {
        self.check_folder(rt)?;
        let work = format!(in rt.alloc(); "{}/{WORK}", self.folder.as_str())?;
        match Identity::of_folder(rt, work.as_str())? {
            Some(_) => Ok(()),
            None => Err(is_another()),
        }
    }

    /// Takes the folder away, with the file of its lock, unless a process that a script started still has that.
    pub fn remove<R: Files<File = File> + Processes + AllocGlobal + Clone + Drop>(self, rt: &R) {
        let Place {
            folder,
            lock_path,
            lock,
            laid: _,
        } = self;
        drop(lock);
        // What stays is cleared when the task runs again.
        if let Ok(_held) = lock_at(rt, lock_path.as_str(), "") {
            if remove_place(rt, folder.as_str()).is_ok() {
                let _ = fs::remove_file(rt, lock_path.as_str());
            }
        }
    }
}

/// Makes a folder with the empty parts of a bench, and clears all else in it.
fn lay_parts<R: Files + Processes + AllocGlobal + Clone + Drop>(
    rt: &R,
    folder: &str,
) -> io::Result<()> {
    make_own(rt, folder)?;
    clear_own(rt, folder)?;
    for part in PARTS {
        let whole = format!(in rt.alloc(); "{folder}/{part}")?;
        fs::create_dir(rt, whole.as_str())?;
    }
    Ok(())
}

/// Why nothing is done in a folder.
fn is_another() -> io::Error {
    io::Error::new(
        ErrorKind::Other,
        "its folder isn't the one that was laid any more",
    )
}
