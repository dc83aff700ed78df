// Files, links and folders of a real file system, by paths inside a root folder.
ghost use Rattle.std.specs.Prelude.{◌≤◌, IfOk, IfSome, length};

use crate::walk::{Part, list_items};
use std::alloc::{AllocError, Global};
use std::fs::{FileTimes, FileType, Metadata, OpenFile, OpenOptions, Permissions};
use std::io::{ErrorKind, Read, Write};
use std::os::unix::fs::{MetadataExt, OpenOptionsExt, PermissionsExt, symlink};
use std::rt::Files;
use std::{fs, io};
use tree_model::{Bytes, Entry, Mem, Text};

/// What Linux answers to a path with more bytes than it can name.
const NAME_TOO_LONG: i32 = 36;

/// The owner's bit that makes a file executable.
const OWNER_RUNS: u32 = 0o100;

const OWNER_READS: u32 = 0o400;

/// An error of the system's kind for want of memory.
pub fn no_memory(_: Mem) -> io::Error {
    io::Error::from(ErrorKind::OutOfMemory)
}

/// Whether an error says that nothing stands at the path.
pub fn is_absent(error: &io::Error) -> bool {
    matches!(error.kind(), ErrorKind::NotFound | ErrorKind::NotADirectory) || is_too_long(error)
}

/// Whether an error says that this user may not do something.
pub fn is_denied(error: &io::Error) -> bool {
    error.kind() == ErrorKind::PermissionDenied
}

/// Whether an error says that the system can't name so long a path. A name that isn't UTF-8 has an error of the
/// same kind and no number of the system's.
pub fn is_too_long(error: &io::Error) -> bool {
    error.raw_os_error() == Some(NAME_TOO_LONG)
}

/// The path of a place in a folder; the empty path is the folder itself.
pub fn join(alloc: Global, folder: &str, path: &str) -> io::Result<String> {
    let room = folder.len().saturating_add(path.len()).saturating_add(1);
    let mut whole = String::with_capacity(alloc, room)?;
    put_joined(&mut whole, folder, path)?;
    Ok(whole)
}

/// Puts the path of a place in a folder in place of a text.
pub fn put_joined(whole: &mut String, folder: &str, path: &str) -> Result<(), AllocError> {
    whole.clear();
    whole.push_str(folder)?;
    if !folder.is_empty() && !path.is_empty() {
        whole.push('/')?;
    }
    whole.push_str(path)
}

/// What the system says of a file, a link or a folder, as far as it is used.
#[derive(Clone, Copy)]
pub struct FileFacts {
    kind: FileType,
    mode: u32,

    /// How many names it has.
    pub names: u64,

    /// The number of the user who owns it.
    pub owner: u32,

    /// How many bytes it has.
    pub length: u64,
}

impl FileFacts {
    /// What the system's answer says.
    pub fn of(metadata: &Metadata) -> Self {
        FileFacts {
            kind: metadata.file_type(),
            mode: metadata.mode(),
            names: metadata.nlink(),
            owner: metadata.uid(),
            length: metadata.len(),
        }
    }

    /// Whether it is a file.
    pub fn is_file(&self) -> bool {
        self.kind.is_file()
    }

    /// Whether it is a file whose mode says what no entry keeps: to run as another user or group, or that others than the owner alone
    /// may run it.
    pub fn loses_mode(&self) -> bool {
        let others_alone = self.mode & 0o111 != 0 && self.mode & OWNER_RUNS == 0;
        self.is_file() && (self.mode & 0o7000 != 0 || others_alone)
    }

    /// Whether the owner may read it.
    pub fn is_readable(&self) -> bool {
        self.mode & OWNER_READS != 0
    }
}

/// The metadata of what stands at a path itself, or `None` where that is nothing. Follows no link at its end.
pub fn look<R: Files>(rt: &R, path: &str) -> io::Result<Option<Metadata>> {
    match fs::symlink_metadata(rt, path) {
        Ok(metadata) => Ok(Some(metadata)),
        Err(error) if is_absent(&error) => Ok(None),
        Err(error) => Err(error),
    }
}

/// Whether it is a file or a link that has this metadata.
pub fn is_entry(metadata: &Metadata) -> bool {
    metadata.is_file() || metadata.is_symlink()
}

/// The metadata of what a path leads to through links, or `None` where that is nothing. A link that leads nowhere, or
/// round in a circle, leads to nothing.
pub fn look_through<R: Files>(rt: &R, path: &str) -> io::Result<Option<Metadata>> {
    match fs::metadata(rt, path) {
        Ok(metadata) => Ok(Some(metadata)),
        Err(error) if is_absent(&error) || error.kind() == ErrorKind::FilesystemLoop => Ok(None),
        Err(error) => Err(error),
    }
}

/// Whether the path and all that it has above it, inside the root, are folders and no links to folders.
pub fn is_folder<R: Files + AllocGlobal>(rt: &R, root: &str, path: &str) -> io::Result<bool> {
    let mut whole = String::from_str(rt.alloc(), root)?;
    for part in path.split('/') {
        whole.push('/')?;
        whole.push_str(part)?;
        match look(rt, whole.as_str())? {
            Some(metadata) if metadata.is_dir() => {}
            _ => return Ok(false),
        }
    }
    Ok(true)
}

/// The bytes of a file that had this size when it was looked at, or `None` where it had or has more than `max`. Reads
/// at most one byte more than `max`.
pub fn read_bytes<R: Files + AllocGlobal>(
    rt: &R,
    path: &str,
    size: u64,
    max: u64,
) -> io::Result<Option<Bytes>>
    ensures { IfOk result (λ found. IfSome found (λ bytes. length bytes ≤ max)) }
{
    if size > max {
        return Ok(None);
    }
    let bytes = read_up_to(rt, path, size, max.saturating_add(1))?;
    if bytes.len() as u64 > max {
        return Ok(None);
    }
    Ok(Some(Bytes::from_vec(bytes)))
}

/// The first bytes of a file that had this size when it was looked at, at most so many.
fn read_up_to<R: Files + AllocGlobal>(
    rt: &R,
    path: &str,
    size: u64,
    most: u64,
) -> io::Result<Vec<u8>> {
    let file = fs::open(rt, path)?;
    // By the room of one byte more the end is seen without growing.
    let mut bytes = Vec::with_capacity(rt.alloc(), size.saturating_add(1) as usize)?;
    file.take(most).read_to_end(&mut bytes)?;
    Ok(bytes)
}

/// Puts the bytes of a file of this length behind others. An error of the kind `UnexpectedEof` where it has fewer.
pub fn read_onto<R: Files + AllocGlobal>(
    rt: &R,
    path: &str,
    length: u64,
    bytes: &mut Vec<u8>,
) -> io::Result<()> {
    let file = fs::open(rt, path)?;
    bytes.reserve(length as usize)?;
    if file.take(length).read_to_end(bytes)? as u64 != length {
        return Err(io::Error::from(ErrorKind::UnexpectedEof));
    }
    Ok(())
}

/// The entry at a path that was looked at, or `None` where its length is above `max`: a file or a link.
pub fn read_entry<R: Files + AllocGlobal>(
    rt: &R,
    path: &str,
    facts: &FileFacts,
    max: u64,
) -> io::Result<Option<Entry>> {
    if facts.kind.is_symlink() {
        return read_link(rt, path, max);
    }
    match read_bytes(rt, path, facts.length, max)? {
        Some(bytes) => Ok(Some(file_entry(facts, bytes))),
        None => Ok(None),
    }
}

/// The entry at a path that was looked at, a file or a link, where nothing else changes it: of a file the bytes up to its
/// length, which takes one call less than to look for its end. `None` where nothing is there any more.
pub fn read_unchanged<R: Files + AllocGlobal>(
    rt: &R,
    path: &str,
    facts: &FileFacts,
) -> io::Result<Option<Entry>> {
    let found = if facts.kind.is_symlink() {
        read_link(rt, path, u64::MAX)
    } else {
        read_file(rt, path, facts)
    };
    match found {
        Err(error) if is_absent(&error) => Ok(None),
        found => found,
    }
}

/// A file that was looked at, with its bytes up to the length.
fn read_file<R: Files + AllocGlobal>(
    rt: &R,
    path: &str,
    facts: &FileFacts,
) -> io::Result<Option<Entry>> {
    let bytes = read_up_to(rt, path, facts.length, facts.length)?;
    Ok(Some(file_entry(facts, Bytes::from_vec(bytes))))
}

/// A file that was looked at, with these bytes, which were read.
pub fn entry_of(alloc: Global, facts: &FileFacts, bytes: &[u8]) -> io::Result<Entry> {
    Ok(file_entry(facts, Bytes::from_slice(alloc, bytes).map_err(no_memory)?))
}

/// A file that was looked at, with these bytes.
fn file_entry(facts: &FileFacts, bytes: Bytes) -> Entry {
    Entry::File {
        exec: facts.mode & OWNER_RUNS != 0,
        bytes,
    }
}

fn read_link<R: Files + AllocGlobal>(rt: &R, path: &str, max: u64) -> io::Result<Option<Entry>> {
    let place = fs::read_link(rt, path)?;
    let target = place.as_path().as_str();
    if target.len() as u64 > max {
        return Ok(None);
    }
    Ok(Some(Entry::Link {
        target: Text::from_str(rt.alloc(), target).map_err(no_memory)?,
    }))
}

/// Lets the owner read a file, or read, write and enter a folder, where its mode forbids that.
pub fn open_up<R: Files>(rt: &R, path: &str, facts: &FileFacts) -> io::Result<()> {
    let wanted = if facts.kind.is_dir() {
        0o700
    } else {
        OWNER_READS
    };
    let mode = facts.mode & 0o7777;
    if facts.kind.is_symlink() || mode & wanted == wanted {
        return Ok(());
    }
    fs::set_permissions(rt, path, Permissions::from_mode(mode | wanted))
}

/// Opens up the folders that a path has above it inside a root, the root among them, which may be a link to a folder. Follows no
/// other link, and says whether all of them are folders.
pub fn open_above<R: Files + AllocGlobal>(rt: &R, root: &str, path: &str) -> io::Result<bool> {
    match look_through(rt, root)? {
        Some(metadata) if metadata.is_dir() => open_up(rt, root, &FileFacts::of(&metadata))?,
        _ => return Ok(false),
    }
    let Some((above, _)) = path.rsplit_once('/') else {
        return Ok(true);
    };
    let mut whole = String::from_str(rt.alloc(), root)?;
    for part in above.split('/') {
        whole.push('/')?;
        whole.push_str(part)?;
        if !open_folder(rt, whole.as_str())? {
            return Ok(false);
        }
    }
    Ok(true)
}

/// Opens a folder up, and says whether it is one.
pub fn open_folder<R: Files>(rt: &R, path: &str) -> io::Result<bool> {
    match look(rt, path)? {
        Some(metadata) if metadata.is_dir() => {
            open_up(rt, path, &FileFacts::of(&metadata))?;
            Ok(true)
        }
        _ => Ok(false),
    }
}

/// Puts an entry at a path inside the root, in place of a file or link that stands there, or of a folder under which
/// no file or link stands. Makes the folders above it where they are missing; a file or link there is an error. A file
/// has these times, if any are given, else that of its making.
pub fn put_entry<R: Files + AllocGlobal + Clone + Drop>(
    rt: &R,
    root: &str,
    path: &str,
    entry: &Entry,
    times: Option<FileTimes>,
) -> io::Result<()> {
    make_above(rt, root, path)?;
    let whole = join(rt.alloc(), root, path)?;
    lay_entry(rt, whole.as_str(), entry, times)
}

/// Puts an entry at a path whose folder is there, in place of a file or link that stands there, or of a folder under which
/// no file or link stands. A file has these times, if any are given, else that of its making.
pub fn lay_entry<R: Files + AllocGlobal + Clone + Drop>(
    rt: &R,
    path: &str,
    entry: &Entry,
    times: Option<FileTimes>,
) -> io::Result<()> {
    clear_place(rt, path)?;
    match entry {
        Entry::File { exec, bytes } => make_file(rt, path, *exec, bytes.as_slice(), times),
        Entry::Link { target } => symlink(rt, target.as_str(), path),
    }
}

/// Moves a file or a link to another path whose folder is there, in place of a file or link that stands there, all at
/// once, or of a folder under which no file or link stands.
pub fn move_entry<R: Files + AllocGlobal + Clone + Drop>(
    rt: &R,
    from: &str,
    to: &str,
) -> io::Result<()> {
    match look(rt, to)? {
        Some(metadata) if metadata.is_dir() => clear_place(rt, to)?,
        Some(metadata) if metadata.nlink() > 1 => return move_over_names(rt, from, to),
        _ => {}
    }
    fs::rename(rt, from, to)
}

/// Moves a file in place of one that has several names. Where the two are one file the system does nothing, and its name goes.
fn move_over_names<R: Files>(rt: &R, from: &str, to: &str) -> io::Result<()> {
    fs::rename(rt, from, to)?;
    match look(rt, from)? {
        Some(_) => fs::remove_file(rt, from),
        None => Ok(()),
    }
}

/// Makes the root and the folders above a path inside it.
fn make_above<R: Files + AllocGlobal>(rt: &R, root: &str, path: &str) -> io::Result<()> {
    fs::create_dir_all(rt, root)?;
    match path.rsplit_once('/') {
        Some((above, _)) => make_folders(rt, root, above),
        None => Ok(()),
    }
}

/// Makes a folder inside the root, and those above it.
fn make_folders<R: Files + AllocGlobal>(rt: &R, root: &str, path: &str) -> io::Result<()> {
    let mut whole = String::from_str(rt.alloc(), root)?;
    for part in path.split('/') {
        whole.push('/')?;
        whole.push_str(part)?;
        make_folder(rt, whole.as_str())?;
    }
    Ok(())
}

/// Makes a folder where none stands, and gives what the system says of one that was there. What is neither file, folder nor link gives
/// way to it.
pub fn make_folder<R: Files>(rt: &R, path: &str) -> io::Result<Option<Metadata>> {
    if let Some(metadata) = look(rt, path)? {
        if metadata.is_dir() {
            return Ok(Some(metadata));
        }
        if is_entry(&metadata) {
            return Err(io::Error::from(ErrorKind::NotADirectory));
        }
        fs::remove_file(rt, path)?;
    }
    fs::create_dir(rt, path)?;
    Ok(None)
}

/// Removes what stands at a path, unless it is a folder under which a file or a link stands.
fn clear_place<R: Files + AllocGlobal + Clone + Drop>(rt: &R, path: &str) -> io::Result<()> {
    match look(rt, path)? {
        Some(metadata) if metadata.is_dir() => {
            if list_items(rt, &Part::whole(path), 0)?.is_none() {
                return Err(io::Error::from(ErrorKind::DirectoryNotEmpty));
            }
            remove_opened(rt, path)
        }
        Some(_) => fs::remove_file(rt, path),
        None => Ok(()),
    }
}

/// Removes a folder with all that it holds. Folders in it that the owner may not change are opened up first, where need be.
fn remove_opened<R: Files + AllocGlobal + Clone + Drop>(rt: &R, folder: &str) -> io::Result<()> {
    match fs::remove_dir_all(rt, folder) {
        Err(error) if is_denied(&error) => {
            list_items(rt, &Part::with_opening(folder), u64::MAX)?;
            fs::remove_dir_all(rt, folder)
        }
        done => done,
    }
}

/// Makes a file where nothing stands, whatever the process's mask of modes, with these times, if any are given.
fn make_file<R: Files>(
    rt: &R,
    path: &str,
    exec: bool,
    bytes: &[u8],
    times: Option<FileTimes>,
) -> io::Result<()> {
    let mode = if exec { 0o755 } else { 0o644 };
    let mut file = OpenOptions::new()
        .write(true)
        .create_new(true)
        .mode(mode)
        .open(rt, path)?;
    file.set_permissions(Permissions::from_mode(mode))?;
    file.write_all(bytes)?;
    match times {
        Some(times) => file.set_times(times),
        None => Ok(()),
    }
}

/// Whether nothing at all stands in a folder. One that can't be read is taken as not empty.
pub fn is_empty<R: Files + AllocGlobal + Clone + Drop>(rt: &R, folder: &str) -> bool {
    match fs::read_dir(rt, folder) {
        Ok(mut entries) => entries.next().is_none(),
        Err(_) => false,
    }
}

/// Removes a folder, and says whether it did: one that isn't empty, or where another file system is mounted, stays.
pub fn remove_folder<R: Files>(rt: &R, folder: &str) -> io::Result<bool> {
    match fs::remove_dir(rt, folder) {
        Ok(()) => Ok(true),
        Err(error) if is_in_use(&error) => Ok(false),
        Err(error) => Err(error),
    }
}

/// Whether an error says that a folder isn't empty, or that something is mounted there.
fn is_in_use(error: &io::Error) -> bool {
    matches!(
        error.kind(),
        ErrorKind::DirectoryNotEmpty | ErrorKind::AlreadyExists | ErrorKind::ResourceBusy
    )
}
