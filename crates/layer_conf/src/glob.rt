// Whether a path matches a word of BBFILES.
ghost use Rattle.std.specs.Prelude.{◌≡◌, ◌<◌, ◌≤◌, ◌+◌, ◌^◌, ◌==◌, ◌&&◌, ◌∷◌, [], List, ℕ, IfOk, MatchOption, length, false, slice_index_or, if◌then◌else◌};
ghost use Rattle.load_model.specs.Patterns.{goes_on, matches};
ghost use Rattle.layer_conf.specs.Rows.{rows, cell_of};

use std::alloc::Global;
use tree_model::Mem;

/// What is left of a pattern and of a path behind the bytes that they share, up to the pattern's first wildcard. None where they
/// differ before it.
fn behind_shared<'a, 'b>(pattern: &'a [u8], path: &'b [u8]) -> Option<(&'a [u8], &'b [u8])>
    ensures { MatchOption result (matches pattern.now path.now ≡ false)
        (λ left. matches pattern.now path.now ≡ matches left.0.now left.1.now) }
{
    let mut left = pattern;
    let mut rest = path;
    while let [byte, more @ ..] = left {
        if *byte == b'*' || *byte == b'?' {
            break;
        }
        match rest {
            [next, after @ ..] if *byte == *next => {
                left = more;
                rest = after;
            }
            _ => return None,
        }
    }
    Some((left, rest))
}

/// Whether what begins with the byte `next` matches a pattern that begins with `byte`. Behind `next` stand so many bytes, of
/// which `later` are left behind the character that `next` begins. `row` tells of the rest of the pattern, `made` of the
/// pattern itself, for each number of bytes that are left.
fn cell(byte: u8, next: u8, row: &[bool], made: &[bool], left: usize, later: usize) -> bool
    requires row { left + 1 < length row.now }
    requires made { left < length made.now }
    requires later { later ≤ left }
    ensures { result ≡ cell_of byte next (slice_index_or row.now (left + 1) false) (slice_index_or row.now left false)
        (slice_index_or row.now later false) (slice_index_or made.now left false) }
{
    match byte {
        b'*' => row[left + 1] || (next != b'/' && made[left]),
        b'?' => next != b'/' && row[later],
        _ => byte == next && row[left],
    }
}

/// How many bytes are left behind the character that `next` begins, where so many are left behind `next`, and `later` behind the
/// character that begins there.
fn later_of(next: u8, left: usize, later: usize) -> usize
    requires { left < 2 ^ 63 }
    ensures { result ≡ (if goes_on next then later else left + 1) }
{
    if next >= 128 && next < 192 {
        later
    } else {
        left + 1
    }
}

/// Whether the pattern matches where nothing of the path is left.
fn first_cell(byte: u8, row: &[bool]) -> bool
    requires { 0 < length row.now }
    ensures { result ≡ (byte == 42 && slice_index_or row.now 0 false) }
{
    byte == b'*' && row[0]
}

/// The row of a pattern with one byte more in front: whether it matches, for each number of bytes that are left of the path.
fn with_byte(alloc: Global, byte: u8, path: &[u8], row: &[bool]) -> Result<Vec<bool>, Mem>
    requires { length row.now ≡ length path.now + 1 }
    ensures { (pattern : List ℕ) → row.now ≡ rows pattern path.now
        → IfOk result (λ made. made.items ≡ rows (byte ∷ pattern) path.now) }
{
    let mut made = Vec::with_capacity(alloc, row.len())?;
    let first = first_cell(byte, row);
    made.push(first)?;
    let mut later = 0;
    for left in 0..path.len() {
        let next = path[path.len() - 1 - left];
        let matches = cell(byte, next, row, &made, left, later);
        made.push(matches)?;
        later = later_of(next, left, later);
    }
    Ok(made)
}

/// The row of the empty pattern.
fn last_row(alloc: Global, path: &[u8]) -> Result<Vec<bool>, Mem>
    ensures { IfOk result (λ made. made.items ≡ rows [] path.now) }
{
    let mut made = Vec::with_capacity(alloc, path.len() + 1)?;
    made.push(true)?;
    for _ in 0..path.len() {
        made.push(false)?;
    }
    Ok(made)
}

/// Whether a path matches a pattern.
pub(crate) fn matches(alloc: Global, pattern: &[u8], path: &[u8]) -> Result<bool, Mem>
    ensures { IfOk result (λ made. made ≡ matches pattern.now path.now) }
{
    match behind_shared(pattern, path) {
        Some((left, rest)) => matches_left(alloc, left, rest),
        None => Ok(false),
    }
}

/// The same, by the rows of all rests of the pattern, from the last one on.
fn matches_left(alloc: Global, pattern: &[u8], path: &[u8]) -> Result<bool, Mem>
    ensures { IfOk result (λ made. made ≡ matches pattern.now path.now) }
{
    let mut row = last_row(alloc, path)?;
    let mut left = pattern.len();
    while left > 0 {
        left -= 1;
        row = with_byte(alloc, pattern[left], path, &row)?;
    }
    Ok(row[path.len()])
}
