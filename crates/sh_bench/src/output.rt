// What a script left, looked over once when it has ended.
use crate::kept::LOG;
use crate::place::WORK;
use host_files::{Found, Item, WalkFault, is_memory, is_too_long, join, look, walk_output};
use std::alloc::AllocError;
use std::fs::{Metadata, OpenOptions};
use std::io::{ErrorKind, Write};
use std::os::unix::fs::MetadataExt;
use std::rt::Files;
use std::{fs, io};

/// The most files and links of an output that are listed: more are too large for any limit.
const MOST: u64 = 4_194_304;

/// The status of a task whose script ended with 0 and left what can't be an output.
const UNFIT: u32 = 1;

/// What a script that ended with 0 left.
#[derive(Drop)]
pub struct LookedOver {
    /// 0, or 1 where something of it can't be an output. The log's last line says what.
    pub status: u32,

    /// The files and links, in the order of their paths' bytes, unless they are too many or have too long paths.
    pub items: Option<Vec<Item>>,
}

/// Looks over what a script left in the folder of a bench. The log has a line for each kind of what isn't kept, as all know it.
pub fn look_over<R: Files + AllocGlobal>(rt: &R, folder: &str) -> io::Result<LookedOver> {
    let work = join(rt.alloc(), folder, WORK)?;
    match walk_output(rt, work.as_str(), MOST) {
        Ok(Some(found)) => keep_all(rt, folder, found),
        Ok(None) => Ok(too_large()),
        Err(fault) if is_too_long(&fault.error) => Ok(too_large()),
        Err(fault) if can_be_kept(&fault.error) => Err(fault.error),
        Err(fault) => unfit(rt, folder, &fault),
    }
}

/// Nothing that was looked over is known.
fn too_large() -> LookedOver {
    LookedOver {
        status: 0,
        items: None,
    }
}

/// Whether an error is none of what a script left.
fn can_be_kept(error: &io::Error) -> bool {
    is_memory(error)
        || !matches!(
            error.kind(),
            ErrorKind::PermissionDenied | ErrorKind::InvalidFilename
        )
}

/// What can be kept, with what the log says of the rest.
fn keep_all<R: Files + AllocGlobal>(rt: &R, folder: &str, found: Found) -> io::Result<LookedOver> {
    let owner = match look(rt, folder)? {
        Some(metadata) => metadata.uid(),
        None => return Err(io::Error::from(ErrorKind::NotFound)),
    };
    for item in &found.items {
        if let Some(error) = refusal(rt, folder, owner, item)? {
            let fault = WalkFault::at(rt.alloc(), item.path.as_str(), error);
            return unfit(rt, folder, &fault);
        }
    }
    let lines = lines_of(rt, &found)?;
    if !lines.is_empty() {
        tell(rt, folder, lines.as_str())?;
    }
    Ok(LookedOver {
        status: 0,
        items: Some(found.items),
    })
}

/// Why a file can't be read, where its owner may not and it can't be given that right: it may have another name elsewhere, or another owner.
fn refusal<R: Files + AllocGlobal>(
    rt: &R,
    folder: &str,
    owner: u32,
    item: &Item,
) -> io::Result<Option<io::Error>> {
    let facts = &item.facts;
    let is_own = facts.owner == owner;
    let is_mended = is_own && (facts.is_readable() || facts.names == 1);
    if !facts.is_file() || is_mended {
        return Ok(None);
    }
    let whole = format!(in rt.alloc(); "{folder}/{WORK}/{}", item.path.as_str())?;
    match fs::open(rt, whole.as_str()) {
        Ok(_) => Ok(None),
        Err(error) => Ok(Some(error)),
    }
}

/// The task fails, and its log says why.
fn unfit<R: Files + AllocGlobal>(
    rt: &R,
    folder: &str,
    fault: &WalkFault,
) -> io::Result<LookedOver> {
    let place = match &fault.place {
        Some(place) => place.as_str(),
        None => folder,
    };
    let shown = match place.strip_prefix(folder) {
        Some(rest) => rest.strip_prefix("/work/").unwrap_or(rest),
        None => place,
    };
    let line = format!(in rt.alloc();
        "bitbake: {shown} can't be kept as output: {}\n",
        fault.error
    )?;
    tell(rt, folder, line.as_str())?;
    Ok(LookedOver {
        status: UNFIT,
        items: None,
    })
}

/// What the log says of what isn't kept.
fn lines_of<R: AllocGlobal>(rt: &R, found: &Found) -> Result<String, AllocError> {
    let mut lines = String::new(rt.alloc());
    let empty = found.empty.len();
    if let Some(first) = found.empty.first() {
        add_line(&mut lines, "the empty folder", first.as_str(), empty)?;
    }
    let others = found.others.len();
    if let Some(first) = found.others.first() {
        add_line(
            &mut lines,
            "the pipe, socket or device",
            first.as_str(),
            others,
        )?;
    }
    let linked = found.items.iter().filter(|item| is_linked(item)).count();
    if let Some(first) = found.items.iter().find(|item| is_linked(item)) {
        add_line(&mut lines, "the hard link", first.path.as_str(), linked)?;
    }
    let modes = found.items.iter().filter(|item| loses_mode(item)).count();
    if let Some(first) = found.items.iter().find(|item| loses_mode(item)) {
        add_line(&mut lines, "the mode of", first.path.as_str(), modes)?;
    }
    Ok(lines)
}

/// Whether it is a file that has another name too, as which it isn't kept.
fn is_linked(item: &Item) -> bool {
    item.facts.is_file() && item.facts.names > 1
}

/// Whether it is a file whose mode says more than is kept.
fn loses_mode(item: &Item) -> bool {
    item.facts.loses_mode()
}

/// Adds the line on one kind of what isn't kept.
fn add_line(lines: &mut String, kind: &str, first: &str, count: usize) -> Result<(), AllocError> {
    let more = count.saturating_sub(1);
    if more == 0 {
        return write!(lines, "bitbake: not kept of the output: {kind} {first}\n");
    }
    write!(
        lines,
        "bitbake: not kept of the output: {kind} {first} (and {more} more)\n"
    )
}

/// Writes behind the log of a bench, where the script left it there.
fn tell<R: Files + AllocGlobal>(rt: &R, folder: &str, lines: &str) -> io::Result<()> {
    let log = join(rt.alloc(), folder, LOG)?;
    match look(rt, log.as_str())? {
        Some(metadata) if is_log(&metadata) => {
            let mut file = OpenOptions::new().append(true).open(rt, log.as_str())?;
            file.write_all(lines.as_bytes())
        }
        _ => Ok(()),
    }
}

/// Whether it is a file with one name.
fn is_log(metadata: &Metadata) -> bool {
    metadata.is_file() && metadata.nlink() == 1
}
