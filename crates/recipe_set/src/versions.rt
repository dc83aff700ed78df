// The order of versions.
ghost use Rattle.std.specs.Prelude.{◌≡◌, ◌<◌, ◌≤◌, ◌∷◌, [], List, ℕ, true, length, take, drop};
ghost use Rattle.std.specs.Char.{is_ascii_digit};
ghost use Rattle.std.specs.List.{list_all, prefix_len};
ghost use Rattle.std.specs.Ordering.{nat_cmp};
ghost use Rattle.std.specs.Cmp.Lexicographic.{slice_cmp};
ghost use Rattle.load_model.specs.Versions.{version_cmp, weights_of};
ghost use Rattle.recipe_set.specs.Kinds.{kind_of_byte, kind_of, rank_of, is_of_kind, piece_weight, piece_length};

use crate::numbers::compare_numbers;
use std::cmp::Ordering;

/// What a version, or the rest of one, begins with.
#[derive(Clone, Copy, Debug, PartialEq, Eq)]
pub(crate) enum Kind {
    /// `~`.
    Tilde,
    /// Nothing: it is at its end.
    End,
    /// A digit.
    Digit,
    /// A letter.
    Letter,
    /// Another character.
    Other,
}

impl Kind {
    /// The kind of a byte.
    fn of_byte(byte: u8) -> Kind
        ensures { result ≡ kind_of_byte byte }
    {
        if byte.is_ascii_digit() {
            Kind::Digit
        } else if byte.is_ascii_alphabetic() {
            Kind::Letter
        } else if byte == b'~' {
            Kind::Tilde
        } else {
            Kind::Other
        }
    }

    /// The kind of what a text begins with.
    fn of(text: &[u8]) -> Kind
        ensures { result ≡ kind_of text.now }
    {
        match text.first() {
            Some(byte) => Kind::of_byte(*byte),
            None => Kind::End,
        }
    }

    /// How the kinds rank, from the least.
    fn rank(self) -> u8
        ensures { result ≡ rank_of self }
    {
        match self {
            Kind::Tilde => 0,
            Kind::End => 1,
            Kind::Digit => 2,
            Kind::Letter => 3,
            Kind::Other => 4,
        }
    }
}

/// How many bytes at the front of a text are of a kind.
fn run_length(kind: Kind, text: &[u8]) -> usize
    ensures { result ≡ prefix_len (is_of_kind kind) text.now }
{
    let mut n = 0;
    while n < text.len() && Kind::of_byte(text[n]).rank() == kind.rank() {
        n += 1;
    }
    n
}

/// How many bytes the first piece of a text has, whose kind is given.
fn piece_length(kind: Kind, text: &[u8]) -> usize
    requires { text.now ≡ [] → ⊥ }
    ensures value { result ≡ piece_length kind text.now }
    ensures within { result ≤ length text.now }
{
    match kind {
        Kind::Digit | Kind::Letter => run_length(kind, text),
        _ => 1,
    }
}

/// Which of two pieces of one kind is less.
fn compare_pieces(kind: Kind, a: &[u8], b: &[u8]) -> Ordering
    requires left { rank_of kind ≡ 2 → list_all is_ascii_digit a.now ≡ true }
    requires right { rank_of kind ≡ 2 → list_all is_ascii_digit b.now ≡ true }
    ensures { result ≡ slice_cmp nat_cmp (piece_weight kind a.now) (piece_weight kind b.now) }
{
    match kind {
        Kind::Tilde | Kind::End => Ordering::Equal,
        Kind::Digit => compare_numbers(a, b),
        Kind::Letter | Kind::Other => a.cmp(b),
    }
}

/// The first pieces that differ decide.
fn compare_all(a: &[u8], b: &[u8]) -> Ordering
    ensures { result ≡ slice_cmp (slice_cmp nat_cmp) (weights_of a.now) (weights_of b.now) }
{
    let mut left = a;
    let mut right = b;
    while !left.is_empty() && Kind::of(left).rank() == Kind::of(right).rank() {
        let kind = Kind::of(left);
        let (x, more) = left.split_at(piece_length(kind, left));
        let (y, others) = right.split_at(piece_length(kind, right));
        match compare_pieces(kind, x, y) {
            Ordering::Equal => {}
            decided => return decided,
        }
        left = more;
        right = others;
    }
    Kind::of(left).rank().cmp(&Kind::of(right).rank())
}

/// Which of two versions is less. Versions are cut into runs of ASCII digits, runs of ASCII letters and other single
/// characters, and the first pieces that differ decide. Pieces of different kinds rank, from the least: `~`, the end of the
/// version, digits, letters, any other character. Digits are compared by their value, of any length, other pieces of one kind
/// by their bytes. Where no pieces differ, the bytes of the whole texts decide, so only equal texts are `Equal`.
///
/// It takes no memory, and time in proportion to the texts. (Own rule.)
pub fn compare_versions(a: &str, b: &str) -> Ordering
    ensures { result ≡ version_cmp a.now b.now }
{
    match compare_all(a.as_bytes(), b.as_bytes()) {
        Ordering::Equal => a.cmp(b),
        decided => decided,
    }
}
