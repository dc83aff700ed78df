// The current folder, without `build`.
ghost use Rattle.std.specs.Prelude.{None};

use crate::linked::{BUILT, Link, LinkedFolders, ReachedFolders, lost_link};
use host_files::{
    FirstFault, Part, WalkFault, is_memory, look_through, one_more, read_bytes, walk_noting,
};
use outside_traits::{Layers, ReadFault};
use std::alloc::{AllocError, Global};
use std::io;
use std::mem::replace;
use std::rt::Files;
use tree_model::{Bytes, Text, Texts, is_below, is_clean};

/// The current folder, which is the root of the layers.
const HERE: &str = ".";

/// The folders in it that aren't entered.
const HIDDEN: &[&str] = &[BUILT];

/// The most sentences that are kept of one kind.
const MOST_REMARKS: usize = 20;

/// The files of the current folder, without those in its folder `build`.
///
/// A link that leads to a file counts as that file, and one that leads to a folder as that folder, also to one outside of the current
/// folder. A listing has each folder once, however many links lead there, so links can't lead round in a circle: what stands in the
/// folder itself comes first, then what links lead to, by their paths. A folder that holds the current one, or `build`, isn't entered
/// through a link. Each folder is looked at once. A name that isn't UTF-8 is passed over, which a remark says where a listing came by it.
/// It tells nothing.
#[derive(Drop)]
pub struct FolderLayers<R> {
    rt: R,
    faults: u64,
    first: FirstFault,
    passed: Passed,
    seen: ReachedFolders,
}

/// What is said of what listings passed over.
#[derive(Drop)]
struct Passed {
    /// Of names that aren't UTF-8, and of links that lead to nothing in the place of folders that were to be listed.
    remarks: Vec<String>,

    /// Of links to folders that listings came by and didn't enter.
    links: Vec<String>,
}

impl<R: AllocGlobal> FolderLayers<R> {
    ghost use Rattle.std.specs.Prelude.{◌≡◌, IfOk, IsErrOf, Ok};
    ghost use Rattle.outside_traits.specs.Fault.{Counts, read_failed};

    /// The current folder, without a fault so far.
    pub fn new(rt: R) -> Self {
        let passed = Passed {
            remarks: Vec::new(rt.alloc()),
            links: Vec::new(rt.alloc()),
        };
        let seen = ReachedFolders::none(rt.alloc());
        FolderLayers {
            rt,
            faults: 0,
            first: FirstFault::none(),
            passed,
            seen,
        }
    }

    /// What is said of the first fault.
    pub fn first_fault(&self) -> Option<&str> {
        self.first.as_str()
    }

    /// What is said of what was passed over: names that aren't UTF-8, and links that lead to no folder in the place of folders that were
    /// to be listed. At most twenty of them.
    pub fn remarks(&self) -> &[String] {
        self.passed.remarks.as_slice()
    }

    /// What is said of links to folders that listings came by and didn't enter, at most twenty of them.
    pub fn links(&self) -> &[String] {
        self.passed.links.as_slice()
    }

    /// Counts the fault where a listing failed.
    fn count_listing<T: Drop>(
        &mut self,
        prefix: &str,
        done: Result<T, WalkFault>,
    ) -> Result<T, ReadFault>
        ensures cause { Counts self.old.faults self.new.faults (read_failed result) }
        ensures not_long { IsErrOf result ReadFault.TooLong → ⊥ }
    {
        match done {
            Ok(value) => Ok(value),
            Err(fault) => {
                let WalkFault { place, error } = fault;
                match &place {
                    Some(place) => self.count("listing", path_of(place.as_str()), Err(error)),
                    None => self.count("listing", prefix, Err(error)),
                }
            }
        }
    }

    /// Counts the fault where a call of the system failed, for a call at a path.
    fn count<T: Drop>(
        &mut self,
        call: &str,
        path: &str,
        done: io::Result<T>,
    ) -> Result<T, ReadFault>
        ensures cause { Counts self.old.faults self.new.faults (read_failed result) }
        ensures value { IfOk result (λ value. done ≡ Ok value) }
        ensures not_long { IsErrOf result ReadFault.TooLong → ⊥ }
    {
        match done {
            Ok(value) => Ok(value),
            Err(error) if is_memory(&error) => Err(ReadFault::Memory),
            Err(error) => {
                self.faults = one_more(self.faults);
                self.first.keep(self.rt.alloc(), call, path, &error);
                Err(ReadFault::Failed)
            }
        }
    }
}

/// A path from the current folder, as metadata has it.
fn path_of(place: &str) -> &str {
    place.strip_prefix("./").unwrap_or(place)
}

/// The length of the file to which a path leads, or `None` where that is nothing.
fn length_of<R: Files + AllocGlobal>(
    rt: &R,
    seen: &mut ReachedFolders,
    path: &str,
) -> io::Result<Option<u64>> {
    if !is_clean(path) || is_below(BUILT, path) || !seen.is_reached(rt, path)? {
        return Ok(None);
    }
    match look_through(rt, path)? {
        Some(metadata) if metadata.is_file() => Ok(Some(metadata.len())),
        _ => Ok(None),
    }
}

/// What a listing has found so far.
#[derive(Drop)]
struct Listing {
    paths: Vec<Text>,

    /// The links to folders that are still to be looked at.
    links: Vec<Link>,
}

/// The paths of the files of the current folder that begin with the prefix, in the order of their bytes.
fn try_list<R: Files + AllocGlobal + Clone + Drop>(
    rt: &R,
    alloc: Global,
    prefix: &str,
    seen: &mut ReachedFolders,
    passed: &mut Passed,
) -> Result<Texts, WalkFault> {
    let mut listing = Listing {
        paths: Vec::new(alloc),
        links: Vec::new(rt.alloc()),
    };
    if !seen.is_reached(rt, prefix)? {
        let link = lost_link(rt, prefix)?;
        note_lost(rt.alloc(), &mut passed.remarks, link)?;
        return Ok(Texts::new(alloc));
    }
    list_part(rt, prefix, passed, &mut listing)?;
    if !listing.links.is_empty() {
        list_linked(rt, prefix, passed, &mut listing)?;
        listing.paths.sort_by(|a, b| a.as_str().cmp(b.as_str()))?;
    }
    Ok(Texts::from_vec(listing.paths))
}

/// Adds what stands where links lead, round by round: behind each round are the links that it came by.
fn list_linked<R: Files + AllocGlobal + Clone + Drop>(
    rt: &R,
    prefix: &str,
    passed: &mut Passed,
    listing: &mut Listing,
) -> Result<(), WalkFault> {
    let mut folders = LinkedFolders::none(rt.alloc());
    for _ in 0..u64::MAX {
        let mut links = replace(&mut listing.links, Vec::new(rt.alloc()));
        if links.is_empty() {
            break;
        }
        links.sort_by(|a, b| a.order(b))?;
        for link in links {
            let path = link.path.as_str();
            match folders.enters(rt, prefix, &link) {
                Ok(true) => {
                    let inside = format!(in rt.alloc(); "{path}/")?;
                    list_part(rt, inside.as_str(), passed, listing)?;
                }
                Ok(false) => keep_once(&mut passed.links, passed_over(rt.alloc(), path)?)?,
                Err(error) => return Err(WalkFault::at(rt.alloc(), path, error)),
            }
        }
    }
    Ok(())
}

/// Adds the files of the current folder that begin with the prefix, and the links to folders that it comes by.
fn list_part<R: Files + AllocGlobal + Clone + Drop>(
    rt: &R,
    prefix: &str,
    passed: &mut Passed,
    listing: &mut Listing,
) -> Result<(), WalkFault> {
    let part = Part {
        root: HERE,
        prefix,
        hidden: HIDDEN,
        opens: false,
        mends: false,
        notes: true,
        follows: true,
    };
    let (items, odd) = walk_noting(rt, &part)?;
    note_odd(rt.alloc(), &mut passed.remarks, &odd)?;
    for item in items {
        if item.facts.is_file() {
            listing.paths.push(item.path)?;
        } else {
            add_link(rt, item.path, listing)?;
        }
    }
    Ok(())
}

/// Adds what a link leads to: a file, or a folder that is still to be looked at.
fn add_link<R: Files + AllocGlobal>(
    rt: &R,
    path: Text,
    listing: &mut Listing,
) -> Result<(), WalkFault> {
    match look_through(rt, path.as_str()) {
        Ok(Some(metadata)) if metadata.is_dir() => {
            if let Some(link) = Link::of(rt, path)? {
                listing.links.push(link)?;
            }
        }
        Ok(Some(metadata)) if metadata.is_file() => listing.paths.push(path)?,
        Ok(_) => {}
        Err(error) => return Err(WalkFault::at(rt.alloc(), path.as_str(), error)),
    }
    Ok(())
}

/// Keeps what is said of names that aren't UTF-8.
fn note_odd(alloc: Global, remarks: &mut Vec<String>, odd: &[String]) -> Result<(), AllocError> {
    for path in odd {
        let said = format!(in alloc;
            "{}: its name isn't UTF-8, so no pattern names it",
            path.as_str()
        )?;
        keep_once(remarks, said)?;
    }
    Ok(())
}

/// Keeps what is said of a link that leads to no folder, where there is one.
fn note_lost(
    alloc: Global,
    remarks: &mut Vec<String>,
    link: Option<String>,
) -> Result<(), AllocError> {
    if let Some(link) = link {
        keep_once(
            remarks,
            format!(in alloc; "{} is a link that leads to no folder", link.as_str())?,
        )?;
    }
    Ok(())
}

/// What is said of a link to a folder that isn't entered.
fn passed_over(alloc: Global, path: &str) -> Result<String, AllocError> {
    format!(in alloc;
        "{path} is a link to a folder that is listed elsewhere, or that holds the project, and isn't entered"
    )
}

/// Keeps a sentence at the end of a list, once, where there is room.
fn keep_once(list: &mut Vec<String>, said: String) -> Result<(), AllocError> {
    let is_new = !list.iter().any(|old| old.as_str() == said.as_str());
    if is_new && list.len() < MOST_REMARKS {
        list.push(said)?;
    }
    Ok(())
}

impl<R: Files + AllocGlobal + Clone + Drop> Layers for FolderLayers<R> {
    ghost tells = { ⊥ };

    ghost files = { λ _ _. None };

    ghost faults = { λ s. s.faults };

    ghost clean = { λ _ told. absurd told };

    fn read(&mut self, _alloc: Global, path: &str, max: u64) -> Result<Option<Bytes>, ReadFault> {
        let found = length_of(&self.rt, &mut self.seen, path);
        let Some(length) = self.count("read", path, found)? else {
            return Ok(None);
        };
        let bytes = read_bytes(&self.rt, path, length, max);
        match self.count("read", path, bytes)? {
            Some(bytes) => Ok(Some(bytes)),
            None => Err(ReadFault::TooLong),
        }
    }

    fn list(&mut self, alloc: Global, prefix: &str) -> Result<Texts, ReadFault> {
        let paths = try_list(&self.rt, alloc, prefix, &mut self.seen, &mut self.passed);
        self.count_listing(prefix, paths)
    }
}
