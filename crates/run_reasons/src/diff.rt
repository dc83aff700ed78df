// How two texts differ.

use std::alloc::AllocError;

/// A text with a newline, or with more bytes than these, is told as a diff of lines.
const LONG: usize = 80;

/// Whether a text is told as a diff of lines.
pub(crate) fn is_long(text: &str) -> bool {
    text.len() > LONG || text.as_bytes().contains(&b'\n')
}

/// The line at a place, or the one at a place counted from the end.
fn line_at<'t>(lines: &[&'t str], at: usize, from_end: bool) -> Option<&'t str> {
    let place = if from_end {
        lines.len().checked_sub(at)?.checked_sub(1)?
    } else {
        at
    };
    lines.get(place).copied()
}

/// How many lines are the same at the front of two lists, or at their ends.
fn count_same(was: &[&str], now: &[&str], from_end: bool) -> usize {
    for at in 0..was.len() {
        let one = line_at(was, at, from_end);
        let other = line_at(now, at, from_end);
        if one != other {
            return at;
        }
    }
    was.len()
}

/// Puts lines, each indented behind a sign.
fn put_lines(text: &mut String, sign: &str, lines: &[&str]) -> Result<(), AllocError> {
    for line in lines {
        write!(text, "    {sign} {}\n", *line)?;
    }
    Ok(())
}

/// The lines behind so many at the front and before so many at the end.
fn middle<'a, 't>(lines: &'a [&'t str], front: usize, end: usize) -> &'a [&'t str] {
    let rest = &lines[lines.len().min(front)..];
    &rest[..rest.len().saturating_sub(end)]
}

/// Puts the lines in which two lists of lines differ: those between what both begin with and what both end with.
pub(crate) fn put_diff(
    text: &mut String,
    name: &str,
    was: &[&str],
    now: &[&str],
) -> Result<(), AllocError> {
    let front = count_same(was, now, false);
    let end = count_same(middle(was, front, 0), middle(now, front, 0), true);
    write!(text, "    {name}, from line {}:\n", front.saturating_add(1))?;
    put_lines(text, "-", middle(was, front, end))?;
    put_lines(text, "+", middle(now, front, end))
}
