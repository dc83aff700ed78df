// What calls answered, as text.
use std::alloc::{AllocError, Global};
use std::str;
use tree_model::{Bytes, Entry, Mem, Text, Tree};

/// A text with `\n` for each newline.
pub fn on_a_line(alloc: Global, bytes: &[u8]) -> Result<String, AllocError> {
    let text = str::from_utf8(bytes).unwrap_or("no text");
    let mut shown = String::new(alloc);
    for c in text.chars() {
        match c {
            '\n' => shown.push_str("\\n")?,
            _ => shown.push(c)?,
        }
    }
    Ok(shown)
}

/// The bytes that a text with `\n` for each newline stands for.
pub fn of_a_line(alloc: Global, text: &str) -> Result<String, AllocError> {
    let mut made = String::new(alloc);
    let mut is_first = true;
    for part in text.split("\\n") {
        if !is_first {
            made.push('\n')?;
        }
        made.push_str(part)?;
        is_first = false;
    }
    Ok(made)
}

/// The entry of a kind, `file`, `program` or `link`, with this text.
pub fn entry_of(alloc: Global, kind: &str, text: &str) -> Result<Entry, Mem> {
    match kind {
        "link" => Ok(Entry::Link {
            target: Text::from_str(alloc, text)?,
        }),
        _ => Ok(Entry::File {
            exec: kind == "program",
            bytes: Bytes::from_slice(alloc, text.as_bytes())?,
        }),
    }
}

/// An entry: its kind, and its text or target.
pub fn of_entry(alloc: Global, entry: &Entry) -> Result<String, AllocError> {
    match entry {
        Entry::File { exec, bytes } => {
            let kind = if *exec { "program" } else { "file" };
            let text = on_a_line(alloc, bytes.as_slice())?;
            format!(in alloc; "{kind} {text}")
        }
        Entry::Link { target } => format!(in alloc; "link {}", target.as_str()),
    }
}

/// A tree: each path with its entry.
pub fn of_tree(alloc: Global, tree: &Tree) -> Result<String, AllocError> {
    of_files(alloc, tree.entries())
}

/// Each path with its entry.
pub fn of_files(alloc: Global, files: &[(Text, Entry)]) -> Result<String, AllocError> {
    let mut said = String::new(alloc);
    for (path, entry) in files {
        let shown = of_entry(alloc, entry)?;
        said.push_str(path.as_str())?;
        said.push_str(": ")?;
        said.push_str(shown.as_str())?;
        said.push_str("; ")?;
    }
    Ok(said)
}

/// Paths behind one another.
pub fn of_paths(alloc: Global, paths: &[Text]) -> Result<String, AllocError> {
    let mut said = String::new(alloc);
    for path in paths {
        said.push_str(path.as_str())?;
        said.push(' ')?;
    }
    Ok(said)
}

/// One of two words.
pub fn of_word(alloc: Global, word: &str) -> Result<String, AllocError> {
    String::from_str(alloc, word)
}
