// Trees from tables of paths and contents.
use std::alloc::Global;
use std::process::Abort;
use tree_model::{Bytes, Entry, EntryKind, Manifest, Mem, Text, Tree, TreeFault};

/// The paths of a tree, one behind another, each with a blank behind it.
pub(crate) fn shown(alloc: Global, tree: &Tree) -> Result<String, Mem> {
    let mut out = String::new(alloc);
    for (path, entry) in tree.entries() {
        out.push_str(path.as_str())?;
        match entry {
            Entry::File { exec: _, bytes } => {
                out.push_str(":")?;
                for byte in bytes.as_slice() {
                    out.push(char::from(*byte))?;
                }
            }
            Entry::Link { target } => {
                out.push_str("->")?;
                out.push_str(target.as_str())?;
            }
        }
        out.push_str(" ")?;
    }
    Ok(out)
}

/// A file that holds the text.
pub(crate) fn file(alloc: Global, exec: bool, text: &str) -> Result<Entry, Mem> {
    Ok(Entry::File {
        exec,
        bytes: Bytes::from_slice(alloc, text.as_bytes())?,
    })
}

/// The files of a tree, given as path and content.
pub(crate) fn entries_of(alloc: Global, files: &[(&str, &str)]) -> Result<Vec<(Text, Entry)>, Mem> {
    let mut list = Vec::new(alloc);
    for (path, text) in files {
        list.push((Text::from_str(alloc, path)?, file(alloc, false, text)?))?;
    }
    Ok(list)
}

pub(crate) fn tree_of(alloc: Global, files: &[(&str, &str)]) -> Result<Tree, TreeFault> {
    Tree::from_entries(entries_of(alloc, files)?)
}

/// Whether the list was refused with this path.
pub(crate) fn is_refused_at(made: Result<Tree, TreeFault>, bad: &str) -> bool {
    match made {
        Err(TreeFault::BadPath { path }) => path.as_str() == bad,
        Err(TreeFault::Memory) => false,
        Ok(_) => false,
    }
}

/// The lines of a manifest, each with a newline behind it.
pub(crate) fn shown_lines(alloc: Global, manifest: &Manifest) -> Result<String, Mem> {
    let mut out = String::new(alloc);
    for line in manifest.lines() {
        out.push_str(line.path.as_str())?;
        out.push_str(match line.kind {
            EntryKind::File => " f ",
            EntryKind::Exec => " x ",
            EntryKind::Link => " l ",
        })?;
        let length = line.length;
        out.push_str(format!(in alloc; "{length} ")?.as_str())?;
        out.push_str(line.hash.text(alloc)?.as_str())?;
        out.push_str("\n")?;
    }
    Ok(out)
}

/// Asserts that a text is the one that is wanted. (One assertion is proved once, and not at each place that makes it.)
pub(crate) fn expect_text(rt: &impl Abort, found: &str, want: &str) {
    assert_eq!(rt; found, want);
}

/// Asserts that a test holds.
pub(crate) fn expect(rt: &impl Abort, holds: bool) {
    assert!(rt; holds);
}
