// Paths as metadata writes them.
ghost use Rattle.std.specs.Prelude.{◌≡◌, ◌∷◌, ◌++◌, [], IfOk, Some, None, reverse, if◌then◌else◌};
ghost use Rattle.std.specs.List.{join_with_byte};
ghost use Rattle.load_model.specs.Paths as paths;

use crate::cuts::{cut_at_slash, last_start};
use std::alloc::Global;
use tree_model::{Mem, Text};

/// The folder of a file. That of a file in the project folder itself is `.` (own rule).
pub fn folder_of(path: &str) -> &str
    ensures { result.now ≡ paths.folder_of path.now }
{
    let start = last_start(path.as_bytes());
    if start == 0 {
        return ".";
    }
    &path[..start - 1]
}

/// The last part of a path.
pub fn file_name(path: &str) -> &str
    ensures { result.now ≡ paths.file_name path.now }
{
    &path[last_start(path.as_bytes())..]
}

/// Whether a path begins with `/`.
pub fn is_absolute(path: &str) -> bool
    ensures { result ≡ paths.is_absolute path.now }
{
    path.as_bytes().starts_with(b"/")
}

/// Whether a text ends with the other.
pub fn has_ending(ending: &str, text: &str) -> bool
    ensures { result ≡ paths.has_ending ending.now text.now }
{
    text.as_bytes().ends_with(ending.as_bytes())
}

/// A text without the ending, where it has it.
pub fn without_ending<'a>(ending: &str, text: &'a str) -> &'a str
    ensures { result.now ≡ paths.without_ending ending.now text.now }
{
    match text.strip_suffix(ending) {
        Some(front) => front,
        None => text,
    }
}

/// Goes one part further from the parts so far, from the first to the last: `.` stays, `..` takes the last part away, and an
/// empty part leads nowhere, as `..` does without a part. Whether it leads somewhere.
fn goes_further(parts: &mut Vec<Text>, alloc: Global, part: &str) -> Result<bool, Mem>
    ensures { IfOk result (λ goes. paths.further (Some (reverse parts.old.items)) part.now
        ≡ (if goes then Some (reverse parts.new.items) else None)) }
{
    if part.is_empty() {
        return Ok(false);
    }
    if part == "." {
        return Ok(true);
    }
    if part == ".." {
        return Ok(parts.pop().is_some());
    }
    parts.push(Text::from_str(alloc, part)?)?;
    Ok(true)
}

/// Parts with single slashes between them.
fn joined(alloc: Global, parts: &[Text]) -> Result<Text, Mem>
    ensures { IfOk result (λ made. made ≡ join_with_byte paths.slash parts.now) }
{
    let mut made = Text::new(alloc);
    let mut before = "";
    for part in parts {
        made.push_str(before)?;
        made.push_str(part.as_str())?;
        before = "/";
    }
    Ok(made)
}

/// The path that a text names, below the project folder and without `.` and `..`; the empty path is the project folder. None
/// where the text names nothing: it is empty, begins with `/`, has an empty part, or leaves the project folder (own rule).
pub fn path_named(alloc: Global, text: &str) -> Result<Option<Text>, Mem>
    ensures { IfOk result (λ made. made ≡ paths.path_named text.now) }
{
    let mut parts = Vec::new(alloc);
    let mut rest = text;
    while let Some((part, after)) = cut_at_slash(rest) {
        if !goes_further(&mut parts, alloc, part)? {
            return Ok(None);
        }
        rest = after;
    }
    if goes_further(&mut parts, alloc, rest)? {
        return Ok(Some(joined(alloc, parts.as_slice())?));
    }
    Ok(None)
}
