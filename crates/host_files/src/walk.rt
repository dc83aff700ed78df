// The files and links under a folder.
use crate::faults::{escape, put_escaped};
use crate::folder::{
    FileFacts, is_absent, is_denied, is_entry, is_folder, is_too_long, join, look_through,
    no_memory, open_folder, put_joined,
};
use std::alloc::{AllocError, AllocFailed, Global};
use std::fs::Metadata;
use std::io::{ErrorKind, Read};
use std::rt::Files;
use std::{fs, io, str};
use tree_model::{Mem, Text, is_below, is_clean};

/// For how many bytes of names there is room at a time.
const ROOM: usize = 16_384;

/// How many folders have to be seen in a row in a folder before the next name is taken for one too.
const IN_A_ROW: u32 = 8;

/// A part of a real folder: what stands at the paths inside `root` that begin with `prefix`. The folders `hidden` of
/// the root aren't entered. Where `opens` is set, folders that the owner may not read are opened up, and a root that is
/// a link has nothing. Where `mends` is set, the same is done for folders that turn out to be closed, and no root is refused. A
/// name that isn't UTF-8 is an error, or passed over and noted where `notes` is set. Where `follows` is set, the folder in which all paths
/// with the prefix stand is reached through links too; no other is.
#[derive(Clone, Copy)]
pub struct Part<'a> {
    pub root: &'a str,
    pub prefix: &'a str,
    pub hidden: &'a [&'a str],
    pub opens: bool,
    pub mends: bool,
    pub notes: bool,
    pub follows: bool,
}

impl<'a> Part<'a> {
    /// All of a folder.
    pub fn whole(root: &'a str) -> Self {
        Part {
            root,
            prefix: "",
            hidden: &[],
            opens: false,
            mends: true,
            notes: false,
            follows: false,
        }
    }

    /// All of a folder, which is opened up with the folders in it.
    pub fn with_opening(root: &'a str) -> Self {
        Part {
            root,
            prefix: "",
            hidden: &[],
            opens: true,
            mends: false,
            notes: false,
            follows: false,
        }
    }

    /// Whether a path inside the root is that of a folder that isn't entered.
    fn hides(&self, path: &str) -> bool {
        self.hidden.iter().any(|name| path == *name)
    }

    /// Whether it is that of one, or of what stands in one.
    fn hides_all(&self, path: &str) -> bool {
        self.hidden
            .iter()
            .any(|name| path == *name || is_below(*name, path))
    }
}

/// A file or a link, by its path inside the root, as it was seen.
#[derive(Drop)]
pub struct Item {
    pub path: Text,
    pub facts: FileFacts,
}

/// A folder that is still to be entered, by its path inside the root; or what is only taken for one, as what stands beside it is.
#[derive(Drop)]
struct Place {
    path: String,
    is_seen: bool,
}

/// Why a walk ended: what the system said of which place, by its path from the current folder, in which bytes that are no
/// plain text are escaped. Where there is no memory for the path there is none.
#[derive(Drop)]
pub struct WalkFault {
    pub place: Option<String>,
    pub error: io::Error,
}

impl WalkFault {
    /// What the system said of a place.
    pub fn at(alloc: Global, place: &str, error: io::Error) -> Self {
        WalkFault {
            place: escape(alloc, place.as_bytes()).ok(),
            error,
        }
    }
}

impl From<AllocError> for WalkFault {
    fn from(error: AllocError) -> Self {
        WalkFault {
            place: None,
            error: io::Error::from(error),
        }
    }
}

impl<T: Drop> From<AllocFailed<T>> for WalkFault {
    fn from(failed: AllocFailed<T>) -> Self {
        WalkFault::from(AllocError::from(failed))
    }
}

impl From<io::Error> for WalkFault {
    fn from(error: io::Error) -> Self {
        WalkFault { place: None, error }
    }
}

impl From<Mem> for WalkFault {
    fn from(fault: Mem) -> Self {
        WalkFault {
            place: None,
            error: no_memory(fault),
        }
    }
}

/// An error of the system's says nothing of the place, and that of an odd name has as much of the path as there is room for.
impl From<WalkFault> for io::Error {
    fn from(fault: WalkFault) -> Self {
        match fault.place {
            Some(place) if is_odd(&fault.error) => {
                io::Error::new(ErrorKind::InvalidFilename, place.as_str())
            }
            _ => fault.error,
        }
    }
}

/// Whether an error is that of a name that isn't UTF-8.
fn is_odd(error: &io::Error) -> bool {
    error.kind() == ErrorKind::InvalidFilename && !is_too_long(error)
}

/// What a walk has found, and what it has still to enter.
#[derive(Drop)]
struct Walk {
    items: Vec<Item>,
    places: Vec<Place>,

    /// The paths inside the root whose last name isn't UTF-8, escaped, that were passed over.
    odd: Vec<String>,

    /// Where folders are opened up: those that were entered, and what is neither file, folder nor link, by their paths inside the root.
    folders: Vec<String>,
    others: Vec<String>,

    /// How many folders were seen in a row where the walk is.
    in_a_row: u32,

    /// The path, from the current folder, of what is looked at.
    whole: String,
}

/// The files and links of a part, in the order of their paths' bytes, or `None` where they are more than `max`.
/// Follows no link, passes over what is neither file, folder nor link, and enters no folder whose path doesn't begin
/// as the prefix does. A name that isn't UTF-8 is an error whose text is its path, as far as there is room for it.
pub fn list_items<R: Files + AllocGlobal>(
    rt: &R,
    part: &Part<'_>,
    max: u64,
) -> io::Result<Option<Vec<Item>>> {
    Ok(walk_part(rt, part, max)?)
}

/// The same, with the place of an error.
pub fn walk_part<R: Files + AllocGlobal>(
    rt: &R,
    part: &Part<'_>,
    max: u64,
) -> Result<Option<Vec<Item>>, WalkFault> {
    let mut walk = walk_all(rt, part, max)?;
    if walk.items.len() as u64 > max {
        return Ok(None);
    }
    walk.items
        .sort_by(|a, b| a.path.as_str().cmp(b.path.as_str()))?;
    Ok(Some(walk.items))
}

/// All files and links of a part, in the order of their paths' bytes, and the paths that were passed over, escaped, since
/// their last names aren't UTF-8.
pub fn walk_noting<R: Files + AllocGlobal>(
    rt: &R,
    part: &Part<'_>,
) -> Result<(Vec<Item>, Vec<String>), WalkFault> {
    let mut walk = walk_all(rt, part, u64::MAX)?;
    walk.items
        .sort_by(|a, b| a.path.as_str().cmp(b.path.as_str()))?;
    Ok((walk.items, walk.odd))
}

/// What stands in a folder of which an output is taken.
#[derive(Drop)]
pub struct Found {
    /// Its files and links, in the order of their paths' bytes.
    pub items: Vec<Item>,

    /// The folders under which no file and no link stands.
    pub empty: Vec<String>,

    /// What is neither file, folder nor link.
    pub others: Vec<String>,
}

/// What stands in a folder, which is opened up with the folders in it; or `None` where it has more than `max` files and links.
pub fn walk_output<R: Files + AllocGlobal>(
    rt: &R,
    root: &str,
    max: u64,
) -> Result<Option<Found>, WalkFault> {
    let mut walk = walk_all(rt, &Part::with_opening(root), max)?;
    if walk.items.len() as u64 > max {
        return Ok(None);
    }
    walk.items
        .sort_by(|a, b| a.path.as_str().cmp(b.path.as_str()))?;
    let mut empty = Vec::new(rt.alloc());
    for folder in walk.folders {
        if !folder.is_empty() && !has_items(&walk.items, folder.as_str()) {
            empty.push(folder)?;
        }
    }
    Ok(Some(Found {
        items: walk.items,
        empty,
        others: walk.others,
    }))
}

/// Whether one of these items, which are in the order of their paths' bytes, stands below a folder.
fn has_items(items: &[Item], folder: &str) -> bool {
    let first = items.partition_point(|item| !is_behind(item.path.as_str(), folder));
    match items.get(first) {
        Some(item) => is_below(folder, item.path.as_str()),
        None => false,
    }
}

/// Whether a path stands behind all that sort before what is below a folder.
fn is_behind(path: &str, folder: &str) -> bool {
    let (path, folder) = (path.as_bytes(), folder.as_bytes());
    match path.strip_prefix(folder) {
        Some(rest) => rest.first().copied() >= Some(b'/'),
        None => path > folder,
    }
}

/// What stands in a part, or more of it than `max`.
fn walk_all<R: Files + AllocGlobal>(rt: &R, part: &Part<'_>, max: u64) -> Result<Walk, WalkFault> {
    let mut walk = Walk {
        items: Vec::new(rt.alloc()),
        places: Vec::new(rt.alloc()),
        odd: Vec::new(rt.alloc()),
        folders: Vec::new(rt.alloc()),
        others: Vec::new(rt.alloc()),
        in_a_row: 0,
        whole: String::new(rt.alloc()),
    };
    if let Some(path) = first_folder(rt, part)? {
        walk.places.push(Place {
            path,
            is_seen: true,
        })?;
    }
    let mut room = vec![in rt.alloc(); 0; ROOM]?;
    for _ in 0..u64::MAX {
        let Some(place) = walk.places.pop() else {
            break;
        };
        enter(rt, part, &place, max, &mut room, &mut walk)?;
        if walk.items.len() as u64 > max {
            break;
        }
    }
    Ok(walk)
}

/// The folder in which all paths with the prefix stand, if there is such a folder.
fn first_folder<R: Files + AllocGlobal>(
    rt: &R,
    part: &Part<'_>,
) -> Result<Option<String>, WalkFault> {
    let Some((folder, _)) = part.prefix.rsplit_once('/') else {
        return Ok(Some(String::new(rt.alloc())));
    };
    if part.hides_all(folder) || !is_clean(folder) {
        return Ok(None);
    }
    let found = if part.follows {
        leads_to_folder(rt, part.root, folder)
    } else {
        is_folder(rt, part.root, folder)
    };
    match found {
        Ok(true) => Ok(Some(String::from_str(rt.alloc(), folder)?)),
        Ok(false) => Ok(None),
        Err(error) => Err(WalkFault::at(rt.alloc(), folder, error)),
    }
}

/// Whether a path inside a root leads to a folder.
fn leads_to_folder<R: Files + AllocGlobal>(rt: &R, root: &str, path: &str) -> io::Result<bool> {
    let whole = join(rt.alloc(), root, path)?;
    match look_through(rt, whole.as_str())? {
        Some(metadata) => Ok(metadata.is_dir()),
        None => Ok(false),
    }
}

/// Adds what stands in a folder, until more than `max` items are found; or what is no folder after all.
fn enter<R: Files + AllocGlobal>(
    rt: &R,
    part: &Part<'_>,
    place: &Place,
    max: u64,
    room: &mut [u8],
    walk: &mut Walk,
) -> Result<(), WalkFault> {
    let whole = match join(rt.alloc(), part.root, place.path.as_str()) {
        Ok(whole) => whole,
        Err(error) => return Err(WalkFault::at(rt.alloc(), place.path.as_str(), error)),
    };
    match enter_at(rt, part, place, whole.as_str(), walk) {
        Ok(Some(names)) => add_names(rt, part, whole.as_str(), names, max, room, walk),
        Ok(None) => Ok(()),
        Err(error) => Err(WalkFault::at(rt.alloc(), whole.as_str(), error)),
    }
}

/// Opens a folder, or adds what is none after all.
fn enter_at<R: Files + AllocGlobal>(
    rt: &R,
    part: &Part<'_>,
    place: &Place,
    whole: &str,
    walk: &mut Walk,
) -> io::Result<Option<R::Dir>> {
    if part.opens && !open_folder(rt, whole)? {
        return Ok(None);
    }
    if part.opens {
        walk.folders
            .push(String::from_str(rt.alloc(), place.path.as_str())?)?;
    }
    match open_mended(rt, part, whole, place.is_seen) {
        Ok(names) => Ok(Some(names)),
        Err(_) if !place.is_seen => {
            let path = String::from_str(rt.alloc(), place.path.as_str())?;
            add_there(path, fs::symlink_metadata(rt, whole), part, walk)?;
            Ok(None)
        }
        Err(error) if is_absent(&error) && !is_too_long(&error) => Ok(None),
        Err(error) => Err(error),
    }
}

/// Opens a folder; one that is closed is opened up first, where the part says so.
fn open_mended<R: Files + AllocGlobal>(
    rt: &R,
    part: &Part<'_>,
    whole: &str,
    is_seen: bool,
) -> io::Result<R::Dir> {
    match open_names(rt, whole, is_seen) {
        Err(error) if part.mends && is_denied(&error) => match open_folder(rt, whole) {
            Ok(true) => open_names(rt, whole, is_seen),
            _ => Err(error),
        },
        done => done,
    }
}

/// Opens a folder that was seen, also through a link that stands there since; or what may be one, and no link.
fn open_names<R: Files + AllocGlobal>(rt: &R, path: &str, is_seen: bool) -> io::Result<R::Dir> {
    if !is_seen {
        return rt.open_dir(path);
    }
    let mut through = String::with_capacity(rt.alloc(), path.len().saturating_add(1))?;
    through.push_str(path)?;
    through.push('/')?;
    rt.open_dir(through.as_str())
}

/// Adds what stands in an open folder, until more than `max` items are found.
fn add_names<R: Files + AllocGlobal>(
    rt: &R,
    part: &Part<'_>,
    folder: &str,
    mut names: R::Dir,
    max: u64,
    room: &mut [u8],
    walk: &mut Walk,
) -> Result<(), WalkFault> {
    walk.in_a_row = 0;
    for _ in 0..u64::MAX {
        let count = match names.read(room) {
            Ok(count) => count,
            Err(error) => return Err(WalkFault::at(rt.alloc(), folder, error)),
        };
        if count == 0 {
            break;
        }
        match str::from_utf8(&room[..count]) {
            Ok(names) => add_all(rt, part, folder, names, max, walk)?,
            Err(_) => add_each(rt, part, folder, &room[..count], max, walk)?,
        }
        if walk.items.len() as u64 > max {
            break;
        }
    }
    Ok(())
}

/// Adds what has these names in a folder, each with a zero byte behind it, until more than `max` items are found.
fn add_all<R: Files + AllocGlobal>(
    rt: &R,
    part: &Part<'_>,
    folder: &str,
    names: &str,
    max: u64,
    walk: &mut Walk,
) -> Result<(), WalkFault> {
    for name in names.split('\0') {
        if !name.is_empty() && name != "." && name != ".." {
            add_name(rt, part, folder, name, walk)?;
        }
        if walk.items.len() as u64 > max {
            break;
        }
    }
    Ok(())
}

/// The same, where some name isn't UTF-8.
fn add_each<R: Files + AllocGlobal>(
    rt: &R,
    part: &Part<'_>,
    folder: &str,
    names: &[u8],
    max: u64,
    walk: &mut Walk,
) -> Result<(), WalkFault> {
    for name in names.split(|byte| *byte == 0) {
        match str::from_utf8(name) {
            Ok(name) => add_all(rt, part, folder, name, max, walk)?,
            Err(_) => add_odd(rt.alloc(), part, folder, name, walk)?,
        }
        if walk.items.len() as u64 > max {
            break;
        }
    }
    Ok(())
}

/// Notes a name that isn't UTF-8, where its path has the prefix; or that is an error.
fn add_odd(
    alloc: Global,
    part: &Part<'_>,
    folder: &str,
    name: &[u8],
    walk: &mut Walk,
) -> Result<(), WalkFault> {
    let above = inside(part.root, folder);
    if !name.starts_with(rest_of(part.prefix, above).as_bytes()) {
        return Ok(());
    }
    let shown = if part.notes { above } else { folder };
    let mut place = escape(alloc, shown.as_bytes())?;
    if !place.is_empty() {
        place.push('/')?;
    }
    put_escaped(&mut place, name)?;
    if part.notes {
        walk.odd.push(place)?;
        return Ok(());
    }
    Err(WalkFault {
        place: Some(place),
        error: io::Error::new(ErrorKind::InvalidFilename, "its name isn't UTF-8"),
    })
}

/// How a name in a folder has to begin for its path to have the prefix, where some path in that folder has it.
fn rest_of<'a>(prefix: &'a str, folder: &str) -> &'a str {
    if folder.is_empty() {
        return prefix;
    }
    match prefix.strip_prefix(folder) {
        Some(rest) => rest.strip_prefix('/').unwrap_or(""),
        None => "",
    }
}

/// Adds what has a name in a folder, where its path has the prefix.
fn add_name<R: Files + AllocGlobal>(
    rt: &R,
    part: &Part<'_>,
    folder: &str,
    name: &str,
    walk: &mut Walk,
) -> Result<(), WalkFault> {
    put_joined(&mut walk.whole, folder, name)?;
    let path = String::from_str(rt.alloc(), inside(part.root, walk.whole.as_str()))?;
    if !path.as_str().starts_with(part.prefix) {
        return Ok(());
    }
    if walk.in_a_row >= IN_A_ROW && !part.opens && !part.hides(path.as_str()) {
        walk.places.push(Place {
            path,
            is_seen: false,
        })?;
        return Ok(());
    }
    let metadata = look_mended(rt, part, folder, walk.whole.as_str());
    match add_there(path, metadata, part, walk) {
        Ok(()) => Ok(()),
        Err(error) => Err(WalkFault::at(rt.alloc(), walk.whole.as_str(), error)),
    }
}

/// The metadata of what stands in a folder; one that can't be entered is opened up first, where the part says so.
fn look_mended<R: Files>(
    rt: &R,
    part: &Part<'_>,
    folder: &str,
    whole: &str,
) -> io::Result<Metadata> {
    match fs::symlink_metadata(rt, whole) {
        Err(error) if part.mends && is_denied(&error) => match open_folder(rt, folder) {
            Ok(true) => fs::symlink_metadata(rt, whole),
            _ => Err(error),
        },
        done => done,
    }
}

/// A path inside the root, of one from the current folder.
fn inside<'a>(root: &str, whole: &'a str) -> &'a str {
    match whole.strip_prefix(root) {
        Some(path) => path.strip_prefix('/').unwrap_or(path),
        None => whole,
    }
}

/// Adds what has this metadata, unless it is gone.
fn add_there(
    path: String,
    metadata: io::Result<Metadata>,
    part: &Part<'_>,
    walk: &mut Walk,
) -> io::Result<()> {
    match metadata {
        Ok(metadata) => add(path, &metadata, part, walk),
        Err(error) if error.kind() == ErrorKind::NotFound => Ok(()),
        Err(error) => Err(error),
    }
}

/// Adds a file or a link to what is found, and a folder to those that are still to enter.
fn add(path: String, metadata: &Metadata, part: &Part<'_>, walk: &mut Walk) -> io::Result<()> {
    if metadata.is_dir() {
        walk.in_a_row = walk.in_a_row.saturating_add(1);
        if !part.hides(path.as_str()) {
            walk.places.push(Place {
                path,
                is_seen: true,
            })?;
        }
        return Ok(());
    }
    walk.in_a_row = 0;
    if is_entry(metadata) {
        walk.items.push(Item {
            path: Text::from_string(path),
            facts: FileFacts::of(metadata),
        })?;
    } else if part.opens {
        walk.others.push(path)?;
    }
    Ok(())
}
