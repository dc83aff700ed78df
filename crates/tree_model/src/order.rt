// Entries in the order of their paths' bytes.
ghost use Rattle.std.specs.Prelude.{◌≡◌, ◌<◌, ◌≤◌, All, AllPairs, Any, IfNone, IfSome, MatchBool, MatchResult, length};
ghost use Rattle.std.specs.List.{HoldsAt};
ghost use Rattle.tree_model.specs.Path.{IsAtOrBelow, IsBefore, IsBelow, IsUpTo};
ghost use Rattle.tree_model.specs.Tree.{IsAscending, IsGap, IsSortedByPath, IsTree, StandsAt};
ghost use Rattle.tree_model.specs.Refusal.{IsFirstBadPath};

use crate::entry::Entry;
use crate::path::{Reach, is_clean, reach_of};
use crate::text::Text;

/// Where the path stands in entries that ascend by their paths, or else where it is to be put.
pub(crate) fn place_of(entries: &[(Text, Entry)], path: &str) -> Result<usize, usize>
    requires { IsAscending entries.now }
    ensures { MatchResult result (StandsAt entries.now path.now) (IsGap entries.now path.now) }
{
    place_of_bytes(entries, path.as_bytes())
}

fn place_of_bytes(entries: &[(Text, Entry)], path: &[u8]) -> Result<usize, usize>
    requires { IsAscending entries.now }
    ensures { MatchResult result (StandsAt entries.now path.now) (IsGap entries.now path.now) }
{
    entries.binary_search_by(|entry| entry.0.as_str().as_bytes().cmp(path))
}

/// Whether the first path comes before the second in the order of bytes.
pub(crate) fn comes_before(one: &str, other: &str) -> bool
    ensures { MatchBool result (IsBefore one.now other.now) (IsUpTo other.now one.now) }
{
    one < other
}

/// Whether one of the entries has the path.
pub(crate) fn holds_path(entries: &[(Text, Entry)], path: &[u8]) -> bool
    requires { IsAscending entries.now }
    ensures { MatchBool result (Any (λ e. e.0 ≡ path.now) entries.now) (All (λ e. e.0 ≡ path.now → ⊥) entries.now) }
{
    match place_of_bytes(entries, path) {
        Ok(_) => true,
        Err(_) => false,
    }
}

/// Where the first path that keeps sorted entries from being a tree stands.
pub(crate) fn bad_place(entries: &[(Text, Entry)]) -> Option<usize>
    requires { IsSortedByPath entries.now }
    ensures none { IfNone result (IsTree entries.now) }
    ensures within { IfSome result (λ place. place < length entries.now) }
    ensures first { IfSome result (λ place. HoldsAt (λ e. IsFirstBadPath entries.now e.0) entries.now place) }
{
    for (place, entry) in entries.iter().enumerate() {
        let path = entry.0.as_str();
        if !is_clean(path) || stands_over(path, &entries[place + 1..]) {
            return Some(place);
        }
    }
    None
}

/// Whether the path, which comes before sorted entries, is also one of theirs or lies above one.
/// What begins with it, byte for byte, comes next in the order, so the rest isn't read.
pub(crate) fn stands_over(path: &str, later: &[(Text, Entry)]) -> bool
    requires sorted { IsSortedByPath later.now }
    requires first { All (λ e. IsUpTo path.now e.0) later.now }
    ensures { MatchBool result (Any (λ e. IsAtOrBelow path.now e.0) later.now)
        (All (λ e. IsAtOrBelow path.now e.0 → ⊥) later.now) }
{
    for entry in later {
        match reach_of(path, entry.0.as_str()) {
            Reach::Covered => return true,
            Reach::Longer => {}
            Reach::Elsewhere => return false,
        }
    }
    false
}
