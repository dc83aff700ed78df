// The shell that runs a bench's scripts, one after the other.
use crate::shell::{
    FIND_SHELL, GROUP_JOBS, MAKE_ROOT, NO_SHELL, SANDBOX_JOBS, START_GROUPS, START_SANDBOX,
};
use host_files::SYSTEM_PATH;
use std::alloc::{AllocError, Global};
use std::env::VarError;
use std::io::{ErrorKind, Read, Write};
use std::process::{Child, Command, OpenProcess, Processes, Stdio};
use std::rt::Env;
use std::{env, io};

/// The only variable that a script has from the program's own environment.
const SEARCH_PATH: &str = "PATH";

/// What the shell answers when it can take jobs.
const READY: &str = "ready";

/// What it answers in place of a status where what a script started can't be killed.
const HELD: &str = "held";

/// The most bytes of an answer.
const ANSWER: usize = 4096;

/// How scripts run: in a sandbox, or each in a process group of its own.
#[derive(Clone, Copy, PartialEq, Eq)]
pub enum Way {
    Sandbox,
    Groups,
}

/// A shell that was started for a folder, and takes jobs. It ends where its standard input is closed, and the scripts with it.
#[derive(Drop)]
pub struct Supervisor<P: OpenProcess + Drop> {
    child: Child<P>,

    /// How many jobs it was handed.
    jobs: u64,
}

impl<P: OpenProcess + Drop> Supervisor<P> {
    /// Starts a shell for a folder, with what it hands scripts to have the lock. Where it can't take jobs, gives its words on that.
    pub fn start<R: Env + Processes<Started = P> + AllocGlobal>(
        rt: &R,
        way: Way,
        folder: &str,
        lock: Stdio,
    ) -> io::Result<Result<Self, String>> {
        let mut command = Command::new(rt.alloc(), "sh")?;
        prepare(rt, &mut command, way, folder)?;
        command.stdin(Stdio::piped());
        command.stdout(Stdio::piped());
        command.stderr(lock);
        let mut child = command.spawn(rt)?;
        let words = answer_of(rt.alloc(), &mut child)?;
        if words.as_str() == READY {
            return Ok(Ok(Supervisor { child, jobs: 0 }));
        }
        child.wait()?;
        if words.as_str() == NO_SHELL {
            return Err(io::Error::new(ErrorKind::NotFound, NO_SHELL));
        }
        Ok(Err(words))
    }

    /// Runs the script of the folder, and gives its status: what `sh` gave, or 128 and the number of the signal that ended it.
    pub fn run(&mut self, alloc: Global) -> io::Result<u32> {
        self.jobs = self.jobs.saturating_add(1);
        let job = format!(in alloc; "{}\n", self.jobs)?;
        match &mut self.child.stdin {
            Some(input) => input.write_all(job.as_bytes())?,
            None => return Err(has_ended()),
        }
        let words = answer_of(alloc, &mut self.child)?;
        match words.as_str().split_once(' ') {
            Some((number, status)) if job.as_str().trim_end() == number => status_of(status),
            _ => Err(has_ended()),
        }
    }
}

impl<P: OpenProcess + Drop> Supervisor<P> {
    /// Takes no more jobs, and waits until the shell and all that it started have ended.
    pub fn end(mut self) {
        let _ = self.child.wait();
    }
}

fn has_ended() -> io::Error {
    io::Error::new(
        ErrorKind::UnexpectedEof,
        "the shell that runs scripts has ended",
    )
}

/// The status that an answer has.
fn status_of(words: &str) -> io::Result<u32> {
    match words.parse::<u32>() {
        Ok(status) => Ok(status),
        Err(_) if words == HELD => Err(io::Error::new(
            ErrorKind::ResourceBusy,
            "what a script started there can't be killed",
        )),
        Err(_) => Err(has_ended()),
    }
}

/// The next line that a shell answers, without its end; what it wrote, where it ended.
fn answer_of<P: OpenProcess + Drop>(alloc: Global, child: &mut Child<P>) -> io::Result<String> {
    let mut bytes = Vec::new(alloc);
    if let Some(output) = &mut child.stdout {
        for _ in 0..ANSWER {
            let mut byte = [0u8; 1];
            if output.read(&mut byte)? == 0 || byte[0] == b'\n' {
                break;
            }
            bytes.push(byte[0])?;
        }
    }
    String::from_utf8(bytes).map_err(|_| has_ended())
}

/// Has a command run the shell for a folder.
fn prepare<R: Env + AllocGlobal>(
    rt: &R,
    command: &mut Command,
    way: Way,
    folder: &str,
) -> io::Result<()> {
    let path = search_path(rt)?;
    set_path(rt.alloc(), command, path.as_ref())?;
    let (first, rest): (&str, &[&str]) = match way {
        Way::Sandbox => (START_SANDBOX, &[MAKE_ROOT, SANDBOX_JOBS]),
        Way::Groups => (START_GROUPS, &[GROUP_JOBS]),
    };
    let program = format!(in rt.alloc(); "{FIND_SHELL}{first}")?;
    command.arg("-c")?;
    command.arg(program.as_str())?;
    command.arg("sh")?;
    match &path {
        Some(path) => add_all(command, &["yes", path.as_str()])?,
        None => add_all(command, &["", DEFAULT_PATH])?,
    }
    command.arg(folder)?;
    add_all(command, rest)
}

/// Where `sh` is looked for where the program has no search path.
const DEFAULT_PATH: &str = "/bin:/usr/bin";

fn add_all(command: &mut Command, words: &[&str]) -> io::Result<()> {
    for word in words {
        command.arg(*word)?;
    }
    Ok(())
}

/// The search path that scripts have.
pub fn search_path<R: Env + AllocGlobal>(rt: &R) -> io::Result<Option<String>> {
    match env::var(rt, SEARCH_PATH) {
        Ok(path) => Ok(Some(path)),
        Err(VarError::NotPresent) => Ok(None),
        Err(VarError::OutOfMemory) => Err(io::Error::from(AllocError)),
        Err(VarError::NotUnicode) => Err(io::Error::from(ErrorKind::InvalidData)),
    }
}

/// Has the shell look for the system's tools first, and gives it no other variable.
fn set_path(alloc: Global, command: &mut Command, path: Option<&String>) -> io::Result<()> {
    command.env_clear();
    let whole = match path {
        Some(path) => format!(in alloc; "{SYSTEM_PATH}:{}", path.as_str())?,
        None => String::from_str(alloc, SYSTEM_PATH)?,
    };
    command.env(SEARCH_PATH, whole.as_str())?;
    Ok(())
}
