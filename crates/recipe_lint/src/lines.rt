// What the lines of a file show by themselves.

use crate::flags::effect_of;
use crate::kind::RemarkKind;
use crate::spelling::new_spelling;
use std::alloc::Global;
use std::str;
use tree_model::Mem;

/// Variables without effect that projects often give one by a reference, which no line shows. They aren't counted.
const OFTEN_READ: &[&str] = &[
    "CACHE",
    "DL_DIR",
    "FILESPATH",
    "MIRRORS",
    "PREMIRRORS",
    "SRCREV",
    "SRC_URI",
    "SSTATE_DIR",
    "STAMP",
    "TMPDIR",
];

/// What lines show: how many have the old spelling of overrides, how many set a variable that has no effect, and whether one switches
/// these kinds off.
#[derive(Clone, Copy)]
pub(crate) struct Shown {
    pub(crate) spelled: u64,
    pub(crate) idle: u64,
    pub(crate) skips_spelled: bool,
    pub(crate) skips_idle: bool,
}

/// Where the next line stands.
#[derive(Clone, Copy, PartialEq, Eq)]
enum Standing {
    /// A statement begins there.
    Plain,
    /// It goes on with the line before.
    Joined,
    /// It is in a function's body.
    Body,
}

/// Whether a byte can't stand in a name, or begins an operator.
fn ends_name(byte: u8) -> bool {
    matches!(byte, b' ' | b'\t' | b'=' | b'?' | b'(' | b'[')
}

/// The front of a line up to the first byte that can't stand in a name, without an operator's own front, and what follows.
fn cut_name(line: &[u8]) -> (&[u8], &[u8]) {
    match line.iter().position(|byte| ends_name(*byte)) {
        Some(end) => line.split_at(end),
        None => (line, b"".as_slice()),
    }
}

/// The name that a line assigns to or defines, or no bytes.
fn name_in(line: &[u8]) -> &[u8] {
    let line = line.strip_prefix(b"export ").unwrap_or(line);
    let (front, rest) = cut_name(line);
    if rest.is_empty() || rest.starts_with(b"[") {
        return b"";
    }
    // (of `+=`, `.=` and `:=` the first sign may stand in a name)
    match front {
        [name @ .., b'+' | b'.' | b':'] if rest.starts_with(b"=") => name,
        _ => front,
    }
}

/// The part of a name up to its first colon.
fn first_part_of(name: &[u8]) -> &[u8] {
    match name.iter().position(|byte| *byte == b':') {
        Some(end) => name.split_at(end).0,
        None => name,
    }
}

/// Whether a name may have the old spelling: a small letter or a reference stands behind an underscore.
fn may_be_old(name: &[u8]) -> bool {
    name.windows(2)
        .any(|pair| matches!(pair, [b'_', b'a' | b'p' | b'r' | b'$']))
}

/// Whether a name has the old spelling.
fn is_old(alloc: Global, name: &[u8]) -> Result<bool, Mem> {
    match str::from_utf8(name) {
        Ok(name) => Ok(new_spelling(alloc, name)?.is_some()),
        Err(_) => Ok(false),
    }
}

/// Whether a name is that of a variable without effect to which projects seldom refer.
fn is_idle(name: &[u8]) -> bool {
    effect_of(name).is_some() && !OFTEN_READ.iter().any(|known| known.as_bytes() == name)
}

/// Notes what a line shows at which a statement begins.
fn note_line(shown: &mut Shown, alloc: Global, line: &[u8]) -> Result<(), Mem> {
    let name = name_in(line);
    if name.is_empty() {
        return Ok(());
    }
    if may_be_old(name) && is_old(alloc, name)? {
        shown.spelled = shown.spelled.saturating_add(1);
    }
    let first = first_part_of(name);
    if is_idle(first) {
        shown.idle = shown.idle.saturating_add(1);
    }
    if first == b"BB_LINT_SKIP".as_slice() {
        note_skips(shown, line);
    }
    Ok(())
}

/// Notes which kinds a line switches off.
fn note_skips(shown: &mut Shown, line: &[u8]) {
    let text = str::from_utf8(line).unwrap_or("");
    shown.skips_spelled |= text.contains(RemarkKind::OldOverride.name());
    shown.skips_idle |= text.contains(RemarkKind::NoEffect.name());
}

/// Where the line behind this one stands.
fn after_line(standing: Standing, line: &[u8]) -> Standing {
    match standing {
        Standing::Body if line == b"}".as_slice() => Standing::Plain,
        Standing::Body => Standing::Body,
        _ if line.ends_with(b"\\") => Standing::Joined,
        _ if line.ends_with(b"{") => Standing::Body,
        _ => Standing::Plain,
    }
}

/// Notes what the lines of a file show.
pub(crate) fn note_lines(shown: &mut Shown, alloc: Global, bytes: &[u8]) -> Result<(), Mem> {
    let mut standing = Standing::Plain;
    for line in bytes.split(|byte| *byte == b'\n') {
        let is_name = match line.first() {
            Some(first) => first.is_ascii_alphabetic(),
            None => false,
        };
        if is_name && standing == Standing::Plain {
            note_line(shown, alloc, line)?;
        }
        standing = after_line(standing, line);
    }
    Ok(())
}
