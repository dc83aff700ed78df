// Content for the devices.
use std::alloc::Global;
use tree_model::{Bytes, Entry, Mem, Text, Tree};

/// A file of the layers.
pub fn layer_file(alloc: Global, path: &str, text: &str) -> Result<(Text, Bytes), Mem> {
    let path = Text::from_str(alloc, path)?;
    let bytes = Bytes::from_slice(alloc, text.as_bytes())?;
    Ok((path, bytes))
}

/// A file of a tree.
pub fn tree_file(alloc: Global, path: &str, text: &str) -> Result<(Text, Entry), Mem> {
    let (path, bytes) = layer_file(alloc, path, text)?;
    Ok((path, Entry::File { exec: false, bytes }))
}

/// Two files of a tree.
pub fn tree_files(alloc: Global, first: &str, second: &str) -> Result<Vec<(Text, Entry)>, Mem> {
    let mut files = Vec::new(alloc);
    files.push(tree_file(alloc, first, "text\n")?)?;
    files.push(tree_file(alloc, second, "text\n")?)?;
    Ok(files)
}

/// A list of one number.
pub fn only(alloc: Global, number: u64) -> Result<Vec<u64>, Mem> {
    let mut numbers = Vec::new(alloc);
    numbers.push(number)?;
    Ok(numbers)
}

/// The paths of a tree and what they hold, as `path=text`, each with a blank behind it.
pub fn named(alloc: Global, tree: &Tree) -> Result<Text, Mem> {
    let mut out = String::new(alloc);
    for (path, entry) in tree.entries() {
        out.push_str(path.as_str())?;
        out.push_str("=")?;
        match entry {
            Entry::File { exec: _, bytes } => push_bytes(&mut out, bytes.as_slice())?,
            Entry::Link { target } => out.push_str(target.as_str())?,
        }
        out.push_str(" ")?;
    }
    Ok(Text::from_string(out))
}

fn push_bytes(out: &mut String, bytes: &[u8]) -> Result<(), Mem> {
    for byte in bytes {
        out.push(char::from(*byte))?;
    }
    Ok(())
}
