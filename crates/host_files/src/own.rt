// The program's own folders below `build`, which are reached through no link, and how they are cleared.
use crate::faults::is_memory;
use crate::folder::{is_entry, join, look};
use crate::walk::{Part, list_items};
use std::fs::Metadata;
use std::io::ErrorKind;
use std::os::unix::fs::MetadataExt;
use std::process::{Command, Processes};
use std::rt::Files;
use std::{fs, io};

/// Where the tools of the system stand: these alone are searched for what clears a folder by force.
pub const SYSTEM_PATH: &str = "/usr/sbin:/usr/bin:/sbin:/bin";

/// Gives the owner the rights on all folders inside one, and removes all that stands in it, going down by open folders. No file's
/// mode is changed, since it may have another name elsewhere.
const CLEAR_BY_FORCE: &str =
    "find \"$1\" -type d ! -perm -700 -execdir chmod u+rwx {} \\; 2>/dev/null
find \"$1\" -mindepth 1 -maxdepth 1 -exec rm -rf -- {} +
";

/// Makes a folder below `build`, by a path from the current folder that begins with `build/`, and those above it. A link that
/// stands in the place of one goes, and what it leads to stays; so does what is neither file nor folder. A file there is an error.
pub fn make_own<R: Files + AllocGlobal>(rt: &R, path: &str) -> io::Result<()> {
    let mut whole = String::new(rt.alloc());
    for part in path.split('/') {
        if whole.is_empty() {
            whole.push_str(part)?;
            fs::create_dir_all(rt, whole.as_str())?;
        } else {
            whole.push('/')?;
            whole.push_str(part)?;
            make_one(rt, whole.as_str())?;
        }
    }
    Ok(())
}

/// How often a folder is tried to be made: another bench may make one that they share, or take away what stands there, meanwhile.
const TRIES: u32 = 4;

/// Makes one of these folders, unless it is there.
fn make_one<R: Files>(rt: &R, path: &str) -> io::Result<()> {
    for _ in 1..TRIES {
        if make_once(rt, path).is_ok() {
            return Ok(());
        }
    }
    make_once(rt, path)
}

/// The same, once.
fn make_once<R: Files>(rt: &R, path: &str) -> io::Result<()> {
    match look(rt, path)? {
        Some(metadata) if metadata.is_dir() => return Ok(()),
        Some(metadata) if metadata.is_file() => {
            return Err(io::Error::from(ErrorKind::NotADirectory));
        }
        Some(_) => fs::remove_file(rt, path)?,
        None => {}
    }
    fs::create_dir(rt, path)
}

/// Whether all folders on a path below `build` are there and are no links.
pub fn is_own<R: Files + AllocGlobal>(rt: &R, path: &str) -> io::Result<bool> {
    let mut whole = String::new(rt.alloc());
    for part in path.split('/') {
        let is_root = whole.is_empty();
        if !is_root {
            whole.push('/')?;
        }
        whole.push_str(part)?;
        match look(rt, whole.as_str())? {
            Some(metadata) if metadata.is_dir() || is_root => {}
            _ => return Ok(false),
        }
    }
    Ok(true)
}

/// By which numbers the system knows a folder: that of its device, and its own there.
#[derive(Clone, Copy, PartialEq)]
pub struct Identity {
    device: u64,
    number: u64,
}

impl Identity {
    /// Of what has this metadata.
    pub fn of(metadata: &Metadata) -> Self {
        Identity {
            device: metadata.dev(),
            number: metadata.ino(),
        }
    }

    /// Of the folder at a path, and no link to one; `None` where there is none.
    pub fn of_folder<R: Files>(rt: &R, path: &str) -> io::Result<Option<Self>> {
        match look(rt, path)? {
            Some(metadata) if metadata.is_dir() => Ok(Some(Identity::of(&metadata))),
            _ => Ok(None),
        }
    }
}

/// Removes what stands at a path whose folders are reached through no link, a folder with all that it holds.
pub fn remove_place<R: Files + Processes + AllocGlobal + Clone + Drop>(
    rt: &R,
    path: &str,
) -> io::Result<()> {
    match look(rt, path)? {
        Some(metadata) if metadata.is_dir() => remove_folder(rt, path),
        Some(_) => fs::remove_file(rt, path),
        None => Ok(()),
    }
}

/// Removes a folder with all that it holds.
fn remove_folder<R: Files + Processes + AllocGlobal + Clone + Drop>(
    rt: &R,
    folder: &str,
) -> io::Result<()> {
    match fs::remove_dir_all(rt, folder) {
        Ok(()) => Ok(()),
        Err(error) if is_memory(&error) => Err(error),
        Err(_) => {
            clear_by_force(rt, folder)?;
            fs::remove_dir(rt, folder)
        }
    }
}

/// Removes all that stands in a folder, and leaves the folder.
pub fn clear_own<R: Files + Processes + AllocGlobal + Clone + Drop>(
    rt: &R,
    folder: &str,
) -> io::Result<()> {
    match clear_names(rt, folder) {
        Ok(()) => Ok(()),
        Err(error) if is_memory(&error) => Err(error),
        Err(_) => clear_by_force(rt, folder),
    }
}

/// Removes what stands in a folder, name by name. An error where a name isn't UTF-8.
fn clear_names<R: Files + Processes + AllocGlobal + Clone + Drop>(
    rt: &R,
    folder: &str,
) -> io::Result<()> {
    for entry in fs::read_dir(rt, folder)? {
        let entry = entry?;
        let name = entry.file_name();
        let path = join(rt.alloc(), folder, name)?;
        match fs::symlink_metadata(rt, path.as_str())? {
            metadata if metadata.is_dir() => fs::remove_dir_all(rt, path.as_str())?,
            _ => fs::remove_file(rt, path.as_str())?,
        }
    }
    Ok(())
}

/// Removes all that stands in a folder, whatever its names, its depth and its rights are.
fn clear_by_force<R: Files + Processes + AllocGlobal>(rt: &R, folder: &str) -> io::Result<()> {
    let mut command = Command::new(rt.alloc(), "sh")?;
    command.env_clear();
    command.env("PATH", SYSTEM_PATH)?;
    command.arg("-c")?;
    command.arg(CLEAR_BY_FORCE)?;
    command.arg("sh")?;
    command.arg(folder)?;
    let done = command.output(rt)?;
    if done.status.success() {
        return Ok(());
    }
    Err(io::Error::new(
        ErrorKind::Other,
        "it can't be cleared, not by find and rm either",
    ))
}
