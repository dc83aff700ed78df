// Folders for the calls, and what is laid into them.
use std::io::ErrorKind;
use std::process::Command;
use std::{env, fs, io};

/// Makes an empty folder in the first one, and goes there.
pub fn enter(rt: &HostRuntime, home: &str, name: &str) -> io::Result<()> {
    env::set_current_dir(rt, home)?;
    fs::create_dir(rt, name)?;
    env::set_current_dir(rt, name)
}

/// Lets the system's `sh` do what the devices have no call for, and says whether it ended with status 0.
pub fn shell(rt: &HostRuntime, script: &str) -> io::Result<bool> {
    let mut command = Command::new(rt.alloc(), "sh")?;
    command.arg("-c")?;
    command.arg(script)?;
    Ok(command.status(rt)?.success())
}

/// A line that is none of the calls.
pub fn no_call() -> io::Error {
    io::Error::from(ErrorKind::InvalidInput)
}
