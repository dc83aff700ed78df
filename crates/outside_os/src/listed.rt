// What a listing of a disk saw, until it is read.
use host_files::{FileFacts, entry_of, no_memory, read_onto};
use std::alloc::{AllocError, Global};
use std::io;
use std::rt::Files;
use tree_model::{Entry, Text, Texts};

/// A file or a link that a listing saw: what was seen there, and where its path and its bytes end, behind those before it.
#[derive(Clone, Copy)]
struct Item {
    facts: FileFacts,
    path_end: usize,
    bytes_end: usize,
}

/// The files and links that a listing saw, in its order. With their bytes, where these were read too.
#[derive(Drop)]
pub struct Listing {
    paths: String,
    bytes: Vec<u8>,
    items: Vec<Item>,
}

impl Listing {
    /// Nothing so far.
    pub fn none(alloc: Global) -> Self {
        Listing {
            paths: String::new(alloc),
            bytes: Vec::new(alloc),
            items: Vec::new(alloc),
        }
    }

    /// Puts what the listing saw at a path behind what it saw so far.
    pub fn put(&mut self, path: &str, facts: FileFacts) -> Result<(), AllocError> {
        self.paths.push_str(path)?;
        self.items.push(Item {
            facts,
            path_end: self.paths.len(),
            bytes_end: self.bytes.len(),
        })?;
        Ok(())
    }

    /// The same, with the bytes of the file that stands at `whole`.
    pub fn put_read<R: Files + AllocGlobal>(
        &mut self,
        rt: &R,
        whole: &str,
        path: &str,
        facts: FileFacts,
    ) -> io::Result<()> {
        if facts.is_file() {
            read_onto(rt, whole, facts.length, &mut self.bytes)?;
        }
        Ok(self.put(path, facts)?)
    }

    /// How many bytes were read.
    pub fn size(&self) -> u64 {
        self.bytes.len() as u64
    }

    /// How many files and links it saw.
    pub fn count(&self) -> usize {
        self.items.len()
    }

    /// What was seen behind this place, where that is the path.
    fn item_at(&self, place: Place, path: &str) -> Option<Item> {
        let item = *self.items.get(place.count)?;
        if self.paths.as_bytes().get(place.path_end..item.path_end) != Some(path.as_bytes()) {
            return None;
        }
        Some(item)
    }

    /// The path of an item that stands behind this place, and the file there, where it is one.
    fn file_of(
        &self,
        alloc: Global,
        place: Place,
        item: &Item,
    ) -> io::Result<Option<(Text, Entry)>> {
        let path = self.paths.as_str().get(place.path_end..item.path_end);
        let bytes = self.bytes.get(place.bytes_end..item.bytes_end);
        match (path, bytes) {
            (Some(path), Some(bytes)) if item.facts.is_file() => {
                let path = Text::from_str(alloc, path).map_err(no_memory)?;
                Ok(Some((path, entry_of(alloc, &item.facts, bytes)?)))
            }
            _ => Ok(None),
        }
    }

    /// All that it saw, where these are files whose bytes were read.
    pub fn files(&self, alloc: Global) -> io::Result<Option<Vec<(Text, Entry)>>> {
        let mut files = Vec::new(alloc);
        let mut place = Place::START;
        for item in &self.items {
            let Some(file) = self.file_of(alloc, place, item)? else {
                return Ok(None);
            };
            files.push(file)?;
            place = place.behind(item);
        }
        Ok(Some(files))
    }

    /// The paths of all.
    pub fn texts(&self, alloc: Global) -> io::Result<Texts> {
        let mut texts = Texts::new(alloc);
        let mut start = 0;
        for item in &self.items {
            if let Some(path) = self.paths.as_str().get(start..item.path_end) {
                let text = Text::from_str(alloc, path).map_err(no_memory)?;
                texts.push(text).map_err(no_memory)?;
            }
            start = item.path_end;
        }
        Ok(texts)
    }

    /// Forgets all that it saw.
    fn clear(&mut self) {
        self.paths.clear();
        self.bytes.clear();
        self.items.clear();
    }
}

/// What a listing saw at a path, and the bytes of the file, where they were read.
#[derive(Clone, Copy)]
pub struct Seen<'a> {
    pub facts: FileFacts,
    pub bytes: Option<&'a [u8]>,
}

/// How many of a listing were read, and where the path and the bytes of the last of these end.
#[derive(Clone, Copy)]
struct Place {
    count: usize,
    path_end: usize,
    bytes_end: usize,
}

impl Place {
    /// None were read.
    const START: Place = Place {
        count: 0,
        path_end: 0,
        bytes_end: 0,
    };

    /// Behind an item more.
    fn behind(self, item: &Item) -> Place {
        Place {
            count: self.count.saturating_add(1),
            path_end: item.path_end,
            bytes_end: item.bytes_end,
        }
    }
}

/// The bytes between two places, where a listing was read ahead.
fn bytes_of(ahead: Option<&Listing>, start: usize, end: usize) -> Option<&[u8]> {
    ahead?.bytes.get(start..end)
}

/// What the last listing of a disk saw, and how much of it was read since. Who changes anything on the disk has to say so
/// by `forget`.
#[derive(Drop)]
pub struct Listed<'a> {
    own: Listing,

    /// The listing that was read ahead, where the last one was.
    ahead: Option<&'a Listing>,
    place: Place,
}

impl<'a> Listed<'a> {
    /// Nothing so far.
    pub fn none(alloc: Global) -> Self {
        Listed {
            own: Listing::none(alloc),
            ahead: None,
            place: Place::START,
        }
    }

    /// Puts what the listing saw at a path behind what it saw so far.
    pub fn put(&mut self, path: &str, facts: FileFacts) -> Result<(), AllocError> {
        self.own.put(path, facts)
    }

    /// Takes a listing that was read ahead.
    pub fn take(&mut self, ahead: &'a Listing) {
        self.forget();
        self.ahead = Some(ahead);
    }

    /// What the listing saw at a path, where that is the next one behind those that were read.
    pub fn next(&mut self, path: &str) -> Option<Seen<'a>> {
        let place = self.place;
        let item = match self.ahead {
            Some(ahead) => ahead.item_at(place, path)?,
            None => self.own.item_at(place, path)?,
        };
        self.place = place.behind(&item);
        Some(Seen {
            facts: item.facts,
            bytes: bytes_of(self.ahead, place.bytes_end, item.bytes_end),
        })
    }

    /// Forgets all that it saw.
    pub fn forget(&mut self) {
        self.own.clear();
        self.ahead = None;
        self.place = Place::START;
    }
}
