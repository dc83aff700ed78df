// What is kept of a task: its log, whose end is shown where it failed, and then all else that it had, to be tried by hand.
use crate::place::{PARTS, SCRIPT, WORK};
use crate::supervisor::search_path;
use crate::telling::Telling;
use host_files::{
    clear_own, is_absent, is_denied, is_own, join, make_own, put_escaped, remove_place,
};
use std::alloc::{AllocError, Global};
use std::fs::{File, Permissions};
use std::io::{ErrorKind, Read, Seek, SeekFrom};
use std::os::unix::fs::PermissionsExt;
use std::process::Processes;
use std::rt::{Env, Files};
use std::{fs, io};

/// The file of a bench to which its scripts write.
pub const LOG: &str = "log";

/// The folder of the logs of tasks, from the current folder.
const LOGS: &str = "build/log";

/// The folder of what failed tasks had, from the current folder.
const FAILED: &str = "build/failed";

/// How many lines of a log are shown.
const SHOWN_LINES: usize = 20;

/// How many characters of a line are shown.
const SHOWN_COLUMNS: usize = 400;

/// How many bytes of a log are read for them.
const SHOWN_BYTES: u64 = 65_536;

/// How a kept script starts itself again, up to its search path, and behind that.
const AGAIN: &str = "if [ \"$1\" != given ]; then
    here=$(cd \"$(dirname \"$0\")\" && pwd -P) && cd \"$here/work\" || exit
    exec env -i";

const AGAIN_HERE: &str =
    " WORKDIR=\"$here/work\" DEPSDIR=\"$here/deps\" FILESDIR=\"$here/files\" sh ../script given
fi
shift
";

/// How often a log is tried to be moved: another bench may take the folder of their recipe away, while nothing stands in it.
const TRIES: u32 = 4;

/// What is kept of a task until it is started again: its log, in the file `build/log/PN/TASK`, and where it failed what it had, in the
/// folder `build/failed/PN/TASK`. Of a task of the configuration NAME these are `build/log/mc/NAME/PN/TASK` and `build/failed/mc/NAME/PN/TASK`.
#[derive(Drop)]
pub struct Kept {
    /// How messages name the task: `PN:TASK`, and of another configuration `mc:NAME:PN:TASK`.
    task: String,

    /// The folder of the recipe's logs, and in it the file of this one.
    folder: String,
    file: String,

    /// The folder of what the recipe's failed tasks had, and in it that of this one.
    failed_above: String,
    failed: String,
}

impl Kept {
    /// What is kept of a task of a configuration, which has no name where it is the default one.
    pub fn of(alloc: Global, config: &str, recipe: &str, task: &str) -> Result<Self, AllocError> {
        if config.is_empty() {
            return Kept::under(alloc, "", "", recipe, task);
        }
        let place = format!(in alloc; "/mc/{config}")?;
        let front = format!(in alloc; "mc:{config}:")?;
        Kept::under(alloc, place.as_str(), front.as_str(), recipe, task)
    }

    /// What is kept of a task in folders of their own within those of logs and of failed tasks, where messages name it behind this front.
    fn under(
        alloc: Global,
        place: &str,
        front: &str,
        recipe: &str,
        task: &str,
    ) -> Result<Self, AllocError> {
        Ok(Kept {
            task: format!(in alloc; "{front}{recipe}:{task}")?,
            folder: format!(in alloc; "{LOGS}{place}/{recipe}")?,
            file: format!(in alloc; "{LOGS}{place}/{recipe}/{task}")?,
            failed_above: format!(in alloc; "{FAILED}{place}/{recipe}")?,
            failed: format!(in alloc; "{FAILED}{place}/{recipe}/{task}")?,
        })
    }

    /// Removes what an earlier run kept, where no link leads to it. Where it can't be removed, standard error says so.
    pub fn forget<R: Files + Processes + Telling + AllocGlobal + Clone + Drop>(
        &self,
        rt: &R,
    ) -> Result<(), AllocError> {
        if let Err(error) = self.remove_log(rt) {
            say(rt, "log: removal of", self.file.as_str(), &error)?;
        }
        if let Err(error) = self.remove_failed(rt) {
            say(rt, "failed: removal of", self.failed.as_str(), &error)?;
        }
        Ok(())
    }

    fn remove_log<R: Files + AllocGlobal>(&self, rt: &R) -> io::Result<()> {
        if !is_own(rt, self.folder.as_str())? {
            return Ok(());
        }
        match fs::remove_file(rt, self.file.as_str()) {
            Err(error) if is_absent(&error) => Ok(()),
            done => done,
        }
    }

    fn remove_failed<R: Files + Processes + AllocGlobal + Clone + Drop>(
        &self,
        rt: &R,
    ) -> io::Result<()> {
        if !is_own(rt, self.failed_above.as_str())? {
            return Ok(());
        }
        remove_place(rt, self.failed.as_str())?;
        // A folder with another task in it stays.
        let _ = fs::remove_dir(rt, self.failed_above.as_str());
        Ok(())
    }

    /// Keeps the log of a script that ended with 0 in the bench with this folder. Where it can't be kept, standard error says so. What the
    /// script may have put in the place of its log isn't kept.
    pub fn keep_log<R: Files + Telling + AllocGlobal>(
        &self,
        rt: &R,
        bench: &str,
    ) -> Result<(), AllocError> {
        match self.keep(rt, bench) {
            Ok(Some((log, error))) => say(rt, "log: move of", log.as_str(), &error),
            _ => Ok(()),
        }
    }

    /// Keeps the log of a script that failed in the bench with this folder, and all else that the bench has, and shows the end of the log on
    /// standard error.
    pub fn keep_failed<
        R: Files<File = File> + Env + Processes + Telling + AllocGlobal + Clone + Drop,
    >(&self, rt: &R, bench: &str, script: &str, status: u32) -> Result<(), AllocError> {
        let mut said = self.message(rt, bench, status)?;
        said.push_str(self.trial(rt, bench, script)?.as_str())?;
        rt.tell(said.as_str());
        Ok(())
    }

    /// Keeps what a task had whose output is too large, and shows on standard error what of it is, where that is known.
    pub fn keep_too_large<
        R: Files<File = File> + Env + Processes + Telling + AllocGlobal + Clone + Drop,
    >(&self, rt: &R, bench: &str, script: &str, excess: Option<&str>) -> Result<(), AllocError> {
        self.keep_log(rt, bench)?;
        let trial = self.trial(rt, bench, script)?;
        match excess {
            Some(excess) => {
                let mut said = format!(in rt.alloc();
                    "bitbake: limit: {} left ",
                    self.task.as_str()
                )?;
                put_escaped(&mut said, excess.as_bytes())?;
                said.push('\n')?;
                said.push_str(trial.as_str())?;
                rt.tell(said.as_str());
            }
            None => rt.tell(trial.as_str()),
        }
        Ok(())
    }

    /// Keeps all that a bench has, and gives what is said of it: how it is tried by hand.
    fn trial<R: Files + Env + Processes + AllocGlobal + Clone + Drop>(
        &self,
        rt: &R,
        bench: &str,
        script: &str,
    ) -> Result<String, AllocError> {
        let failed = self.failed.as_str();
        match self.keep_bench(rt, bench, script) {
            Ok(()) => format!(in rt.alloc();
                "bitbake: try: cd {failed}/{WORK} && sh ../{SCRIPT}\n"
            ),
            Err(error) => format!(in rt.alloc(); "bitbake: failed: move to {failed}: {error}\n"),
        }
    }

    /// Moves the parts of a bench to their place, and writes the script beside them.
    fn keep_bench<R: Files + Env + Processes + AllocGlobal + Clone + Drop>(
        &self,
        rt: &R,
        bench: &str,
        script: &str,
    ) -> io::Result<()> {
        make_own(rt, self.failed.as_str())?;
        clear_own(rt, self.failed.as_str())?;
        for part in PARTS {
            let from = join(rt.alloc(), bench, part)?;
            let to = join(rt.alloc(), self.failed.as_str(), part)?;
            move_folder(rt, from.as_str(), to.as_str())?;
        }
        let mut text = beginning(rt.alloc(), search_path(rt)?)?;
        text.push_str(script)?;
        let file = join(rt.alloc(), self.failed.as_str(), SCRIPT)?;
        fs::write(rt, file.as_str(), text.as_str())
    }

    /// What is said of a script that failed.
    fn message<R: Files<File = File> + AllocGlobal>(
        &self,
        rt: &R,
        bench: &str,
        status: u32,
    ) -> Result<String, AllocError> {
        let alloc = rt.alloc();
        let task = self.task.as_str();
        match self.keep(rt, bench) {
            Ok(None) => self.with_end(rt, self.file.as_str(), status),
            Ok(Some((log, error))) => {
                let end = self.with_end(rt, log.as_str(), status)?;
                format!(in alloc;
                    "bitbake: log: move of {}: {error}\n{}",
                    log.as_str(),
                    end.as_str()
                )
            }
            Err(error) => format!(in alloc;
                "bitbake: {task} failed with status {status}; its log can't be kept: {error}\n"
            ),
        }
    }

    /// Moves the log of a bench to its place. Where it has none, it stays, and this gives where and why. What the script may have put in
    /// the place of its log isn't kept.
    fn keep<R: Files + AllocGlobal>(
        &self,
        rt: &R,
        bench: &str,
    ) -> io::Result<Option<(String, io::Error)>> {
        let log = join(rt.alloc(), bench, LOG)?;
        if !fs::symlink_metadata(rt, log.as_str())?.is_file() {
            return Err(io::Error::new(ErrorKind::InvalidInput, "it is no file"));
        }
        for _ in 1..TRIES {
            if self.move_here(rt, log.as_str()).is_ok() {
                return Ok(None);
            }
        }
        match self.move_here(rt, log.as_str()) {
            Ok(()) => Ok(None),
            Err(error) => Ok(Some((log, error))),
        }
    }

    fn move_here<R: Files + AllocGlobal>(&self, rt: &R, log: &str) -> io::Result<()> {
        make_own(rt, self.folder.as_str())?;
        fs::rename(rt, log, self.file.as_str())
    }

    /// Where the log of a failed task is, and how it ends.
    fn with_end<R: Files<File = File> + AllocGlobal>(
        &self,
        rt: &R,
        log: &str,
        status: u32,
    ) -> Result<String, AllocError> {
        let alloc = rt.alloc();
        let task = self.task.as_str();
        match end_of(rt, log) {
            Ok(end) if end.is_empty() => format!(in alloc;
                "bitbake: {task} failed with status {status}; its log is {log}, which is empty\n"
            ),
            Ok(end) => {
                let mut said = format!(in alloc;
                    "bitbake: {task} failed with status {status}; its log is {log}, which ends with\n"
                )?;
                put_last_lines(&mut said, alloc, end.as_slice())?;
                Ok(said)
            }
            Err(error) => format!(in alloc;
                "bitbake: {task} failed with status {status}; its log is {log}, which can't be read: {error}\n"
            ),
        }
    }
}

/// Says on standard error what can't be done at a place.
fn say<R: Telling + AllocGlobal>(
    rt: &R,
    what: &str,
    place: &str,
    error: &io::Error,
) -> Result<(), AllocError> {
    let said = format!(in rt.alloc(); "bitbake: {what} {place}: {error}\n")?;
    rt.tell(said.as_str());
    Ok(())
}

/// Moves a folder of a bench, if it is there. One that its owner may not write to can't be moved, so it is opened up first.
fn move_folder<R: Files>(rt: &R, from: &str, to: &str) -> io::Result<()> {
    let mut done = fs::rename(rt, from, to);
    if let Err(error) = &done {
        if is_denied(error) {
            fs::set_permissions(rt, from, Permissions::from_mode(0o700))?;
            done = fs::rename(rt, from, to);
        }
    }
    match done {
        Err(error) if is_absent(&error) => Ok(()),
        done => done,
    }
}

/// What a script that is kept begins with: it starts itself again in its folder `work`, with just the environment that a bench gives it.
fn beginning(alloc: Global, path: Option<String>) -> Result<String, AllocError> {
    let mut text = String::from_str(alloc, AGAIN)?;
    if let Some(path) = path {
        text.push_str(" PATH='")?;
        for (at, piece) in path.as_str().split('\'').enumerate() {
            if at > 0 {
                text.push_str("'\\''")?;
            }
            text.push_str(piece)?;
        }
        text.push('\'')?;
    }
    text.push_str(AGAIN_HERE)?;
    Ok(text)
}

/// The end of a log. However long that is, its end alone is read.
fn end_of<R: Files<File = File> + AllocGlobal>(rt: &R, log: &str) -> io::Result<Vec<u8>> {
    let mut file = fs::open(rt, log)?;
    let length = file.metadata()?.len();
    file.seek(SeekFrom::Start(length.saturating_sub(SHOWN_BYTES)))?;
    let mut end = Vec::new(rt.alloc());
    file.take(SHOWN_BYTES).read_to_end(&mut end)?;
    Ok(end)
}

/// Puts the last lines of a log behind a text, each behind a bar and a blank.
fn put_last_lines(said: &mut String, alloc: Global, log: &[u8]) -> Result<(), AllocError> {
    let log = log.strip_suffix(b"\n").unwrap_or(log);
    let lines = log.split(|byte| *byte == b'\n').count();
    let passed = lines.saturating_sub(SHOWN_LINES);
    for line in log.split(|byte| *byte == b'\n').skip(passed) {
        said.push_str("| ")?;
        put_line(said, alloc, line)?;
        said.push('\n')?;
    }
    Ok(())
}

/// Puts a line of a log behind a text: tabs as they are, other control characters and what is no UTF-8 escaped, and no more of it than is
/// shown of a line.
fn put_line(said: &mut String, alloc: Global, line: &[u8]) -> Result<(), AllocError> {
    let mut shown = String::new(alloc);
    for part in line.split(|byte| *byte == b'\t') {
        put_escaped(&mut shown, part)?;
        shown.push('\t')?;
    }
    let shown = shown.as_str().strip_suffix('\t').unwrap_or("");
    match shown.char_indices().nth(SHOWN_COLUMNS) {
        Some((end, _)) => {
            said.push_str(&shown[..end])?;
            said.push_str(" ..")
        }
        None => said.push_str(shown),
    }
}
