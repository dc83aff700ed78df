// What stands at a path of a tree.
ghost use Rattle.std.specs.Prelude.{◌≡◌, IfOk};
ghost use Rattle.tree_model.specs.Manifest.{content_of, kind_of};
ghost use Rattle.tree_model.specs.Size.{entry_length};
ghost use Rattle.sha2.specs.Sha256.{sha256};

use crate::hash::Hash;
use crate::text::{Bytes, Mem, Text};

/// A file or a link of a tree. Folders are no entries: they stand where a path needs them.
#[derive(Debug, Drop, PartialEq)]
pub enum Entry {
    /// A file: whether its owner may execute it, and what it holds.
    File { exec: bool, bytes: Bytes },
    /// A symbolic link, with its target as written.
    Link { target: Text },
}

impl Entry {
    /// The same entry again.
    pub fn copy(&self) -> Result<Entry, Mem>
        ensures { IfOk result (λ made. made ≡ self.now) }
    {
        match self {
            Entry::File { exec, bytes } => Ok(Entry::File {
                exec: *exec,
                bytes: bytes.copy()?,
            }),
            Entry::Link { target } => Ok(Entry::Link {
                target: target.copy()?,
            }),
        }
    }

    /// The number of bytes of the file, or of the text of the link's target.
    pub fn len(&self) -> usize
        ensures { result ≡ entry_length self.now }
    {
        match self {
            Entry::File { exec: _, bytes } => bytes.as_slice().len(),
            Entry::Link { target } => target.as_str().len(),
        }
    }
    /// What the entry is.
    pub fn kind(&self) -> EntryKind
        ensures { result ≡ kind_of self.now }
    {
        match self {
            Entry::File {
                exec: false,
                bytes: _,
            } => EntryKind::File,
            Entry::File {
                exec: true,
                bytes: _,
            } => EntryKind::Exec,
            Entry::Link { target: _ } => EntryKind::Link,
        }
    }

    /// The digest of what the file holds, or of the text of the link's target. It reads each byte once.
    pub fn hash(&self) -> Hash
        ensures { result.bytes ≡ sha256 (content_of self.now) }
    {
        match self {
            Entry::File { exec: _, bytes } => Hash::of(bytes.as_slice()),
            Entry::Link { target } => Hash::of(target.as_str().as_bytes()),
        }
    }
}

/// What stands at a path, as a manifest tells it.
#[derive(Clone, Copy, Debug, PartialEq, Eq)]
pub enum EntryKind {
    /// A file that its owner may not execute.
    File,
    /// A file that its owner may execute.
    Exec,
    /// A symbolic link.
    Link,
}
