// Manifests: what a tree holds, by lengths and digests.
ghost use Rattle.std.specs.Prelude.{◌≡◌, ◌↔◌, IfOk, IsTrue};
ghost use Rattle.tree_model.specs.Manifest.{line_of, manifest_lines};

use crate::entry::{Entry, EntryKind};
use crate::hash::Hash;
use crate::text::{Mem, Text};
use crate::tree::Tree;
use std::alloc::Global;
use std::marker::Model;

/// One line of a manifest.
#[derive(Debug, Drop)]
pub struct ManifestLine {
    /// The path, relative to the tree.
    pub path: Text,
    /// What stands there.
    pub kind: EntryKind,
    /// The length of the file, or of the text of the link's target, in bytes.
    pub length: u64,
    /// The digest of the same bytes.
    pub hash: Hash,
}

/// The lines of a tree's entries, in their order. Contracts see the list of lines.
#[derive(Debug, Drop)]
pub struct Manifest {
    lines: Vec<ManifestLine>,
}

impl Model for Manifest {
    ghost use Rattle.std.specs.Prelude.{List};
    ghost use Rattle.tree_model.specs.declared.manifest.ManifestLine.{ManifestLine};

    ghost Value = { List ManifestLine };

    ghost view = { λ m. m.lines.items };
}

impl Manifest {
    /// The manifest of these lines; they need not be a tree's.
    pub fn from_lines(lines: Vec<ManifestLine>) -> Manifest
        ensures { result ≡ lines.items }
    {
        Manifest { lines }
    }

    /// The lines, in their order.
    pub fn lines(&self) -> &[ManifestLine]
        ensures { result.now ≡ self.now }
    {
        self.lines.as_slice()
    }
}

/// The manifest of a tree.
pub fn manifest_of(alloc: Global, tree: &Tree) -> Result<Manifest, Mem>
    ensures { IfOk result (λ manifest. manifest ≡ manifest_lines tree.now) }
{
    let mut lines = Vec::new(alloc);
    for (path, entry) in tree.entries() {
        lines.push(ManifestLine {
            path: path.copy()?,
            kind: entry.kind(),
            length: entry.len() as u64,
            hash: entry.hash(),
        })?;
    }
    Ok(Manifest { lines })
}

/// Whether the manifest is the tree's. A file is read only where its path, kind and length agree.
pub fn matches(tree: &Tree, manifest: &Manifest) -> bool
    ensures { IsTrue result ↔ (manifest.now ≡ manifest_lines tree.now) }
{
    let entries = tree.entries();
    let lines = manifest.lines();
    if entries.len() != lines.len() {
        return false;
    }
    for (place, line) in lines.iter().enumerate() {
        let entry = &entries[place];
        if !is_line_of(line, entry.0.as_str(), &entry.1) {
            return false;
        }
    }
    true
}

/// Whether the line is the entry's.
fn is_line_of(line: &ManifestLine, path: &str, entry: &Entry) -> bool
    ensures { IsTrue result ↔ (line.now ≡ line_of (path.now, entry.now)) }
{
    line.path.as_str() == path
        && line.kind == entry.kind()
        && line.length == entry.len() as u64
        && line.hash == entry.hash()
}
