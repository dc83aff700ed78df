// The first word of a line.
ghost use Rattle.std.specs.Prelude.{◌≡◌, ◌≤◌, length, drop};
ghost use Rattle.std.specs.Option.{option_copied};
ghost use Rattle.std.specs.List.{position_or_len};
ghost use Rattle.meta_model.specs.Text.{is_white};
ghost use Rattle.meta_model.specs.Grammar.{behind_word};
ghost use Rattle.meta_model.specs.Statements.{first_word, is_python_word, is_fakeroot};
ghost use Rattle.bb_parser.specs.Words.{skip_white};

use crate::scan::up_to;
use meta_model::{is_a_blank, is_white_space, skipped, white_at};

/// How much white space stands at the front.
fn white_end(line: &[u8]) -> usize
    ensures rest { drop result line.now ≡ skip_white line.now }
    ensures within { result ≤ length line.now }
{
    let mut at = 0;
    while at < line.len() && is_white_space(line[at]) {
        at += 1;
    }
    at
}

/// Where the first white space stands, or else the line ends.
fn word_end(line: &[u8]) -> usize
    ensures end { result ≡ position_or_len is_white line.now }
    ensures within { result ≤ length line.now }
{
    match white_at(line) {
        Some(end) => end,
        None => line.len(),
    }
}

/// The first word, or nothing.
fn front_word(line: &[u8]) -> &[u8]
    ensures { result.now ≡ first_word line.now }
{
    let rest = &line[white_end(line)..];
    &rest[..word_end(rest)]
}

/// What follows the word and at least one blank.
pub fn behind<'a>(word: &[u8], line: &'a str) -> Option<&'a str>
    ensures { behind_word word.now line.now ≡ option_copied result }
{
    let bytes = line.as_bytes();
    if !bytes.starts_with(word) {
        return None;
    }
    if bytes.len() == word.len() || !is_a_blank(bytes[word.len()]) {
        return None;
    }
    Some(skipped(&line[word.len()..]))
}

/// Whether the first word makes the line Python.
pub fn begins_python(line: &[u8]) -> bool
    ensures { result ≡ is_python_word line.now }
{
    let word = up_to(front_word(line), b'(');
    word == b"python".as_slice() || word == b"def".as_slice() || word == b"addhandler".as_slice()
}

/// Whether the first word is `fakeroot`.
pub fn begins_fakeroot(line: &[u8]) -> bool
    ensures { result ≡ is_fakeroot line.now }
{
    front_word(line) == b"fakeroot".as_slice()
}
