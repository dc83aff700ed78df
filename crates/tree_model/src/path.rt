// Paths are texts with `/` between their parts.
ghost use Rattle.std.specs.Prelude.{◌≡◌, ◌≤◌, ◌∷◌, ◌++◌, ◌↔◌, List, ℕ, IsTrue, MatchBool, All, length};
ghost use Rattle.tree_model.specs.Path.{BeginsWith, IsClean, IsPart, IsBelow, parts_of};
ghost use Rattle.tree_model.specs.Reach.{IsCommon, IsReach};

/// The most bytes of a clean path.
const MAX_PATH: usize = 4096;

/// The most bytes of one part of it.
const MAX_PART: usize = 255;

/// Whether the path is clean: it has at most 4,096 bytes, and each part between its slashes has 1 to 255
/// bytes, is not `.` or `..` and holds no zero byte. A clean path names a place inside a folder.
pub fn is_clean(path: &str) -> bool
    ensures { IsTrue result ↔ IsClean path.now }
{
    path.len() <= MAX_PATH && are_parts(path)
}

fn are_parts(path: &str) -> bool
    ensures { IsTrue result ↔ All IsPart (parts_of path.now) }
{
    path.split('/').all(is_part)
}

fn is_part(part: &str) -> bool
    ensures { IsTrue result ↔ IsPart part.now }
{
    !part.is_empty()
        && part.len() <= MAX_PART
        && part != "."
        && part != ".."
        && !part.as_bytes().contains(&0)
}

/// Whether the second path lies below the first: it is the first, a slash and more.
pub fn is_below(folder: &str, path: &str) -> bool
    ensures { IsTrue result ↔ IsBelow folder.now path.now }
{
    match path.as_bytes().strip_prefix(folder.as_bytes()) {
        Some(rest) => starts_with_slash(rest),
        None => false,
    }
}

fn starts_with_slash(bytes: &[u8]) -> bool
    ensures { IsTrue result ↔ ((rest : List ℕ) × (bytes.now ≡ 47 ∷ rest)) }
{
    matches!(bytes, [b'/', ..])
}

/// Whether the path begins with the prefix, byte for byte.
pub fn begins_with(path: &str, prefix: &str) -> bool
    ensures { MatchBool result (BeginsWith prefix.now path.now) (BeginsWith prefix.now path.now → ⊥) }
{
    match path.as_bytes().strip_prefix(prefix.as_bytes()) {
        Some(_) => true,
        None => false,
    }
}

/// How many bytes two texts begin with that are the same.
pub(crate) fn common_length(one: &[u8], other: &[u8]) -> usize
    ensures { IsCommon one.now other.now result }
{
    for (place, byte) in one.iter().enumerate() {
        if place >= other.len() || other[place] != *byte {
            return place;
        }
    }
    one.len()
}

/// How a path stands to one that it may be put over.
#[derive(Clone, Copy, Debug, PartialEq, Eq)]
pub(crate) enum Reach {
    /// It is the path or lies below it.
    Covered,
    /// It begins with the path's bytes, and its part goes on there.
    Longer,
    /// It doesn't begin with the path's bytes.
    Elsewhere,
}

/// How the second path stands to the first.
pub(crate) fn reach_of(path: &str, other: &str) -> Reach
    ensures { IsReach path.now other.now result }
{
    match other.as_bytes().strip_prefix(path.as_bytes()) {
        Some(rest) => reach_behind(rest),
        None => Reach::Elsewhere,
    }
}

fn reach_behind(rest: &[u8]) -> Reach
    ensures { (path : List ℕ) → IsReach path (path ++ rest.now) result }
{
    if rest.is_empty() {
        return Reach::Covered;
    }
    if starts_with_slash(rest) {
        Reach::Covered
    } else {
        Reach::Longer
    }
}
