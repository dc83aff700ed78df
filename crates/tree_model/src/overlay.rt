// One tree laid over another.
ghost use Rattle.std.specs.Prelude.{◌≡◌, ◌⊎◌, ◌+◌, ◌≤◌, ◌++◌, ◌<◌, length, All, Any, IfNone, IfSome, IsPermutation, MatchBool, OnErr, OnOk, vec_len, vec_capacity};
ghost use Rattle.tree_model.specs.Merge.{EndsLast, IsGreatest};
ghost use Rattle.tree_model.specs.Overlay.{IsFree, IsMet, IsOverlay};
ghost use Rattle.tree_model.specs.Path.{IsBefore, IsBelow, IsUpTo};
ghost use Rattle.tree_model.specs.Tree.{IsSortedByPath, IsStart, IsTree};

use crate::edit::{copies, start_near};
use crate::entry::Entry;
use crate::order::{comes_before, holds_path, stands_over};
use crate::path::common_length;
use crate::text::{Mem, Text};
use crate::tree::Tree;
use std::alloc::Global;

/// Lays later entries over those of a tree.
pub(crate) fn overlay_entries(
    entries: &mut Vec<(Text, Entry)>,
    alloc: Global,
    later: &Tree,
) -> Result<(), Mem>
    requires { IsTree entries.old.items }
    ensures ok { OnOk result (IsOverlay entries.old.items later.now entries.new.items) }
    ensures err { OnErr result (entries.new.items ≡ entries.old.items) }
{
    let mut laid = copies(alloc, later.entries())?;
    let Some(room) = laid.len().checked_add(entries.len()) else {
        // No memory holds so many entries.
        return Err(Mem);
    };
    let mut both = Vec::with_capacity(alloc, room)?;
    let mut near = 0;
    entries.retain(|entry| stays(later, &mut near, entry));
    merge(&mut both, &mut laid, entries);
    *entries = both;
    Ok(())
}

/// Whether an earlier entry stays where the later ones are laid over it. Its place among them is looked for from `near` on,
/// which is that place afterwards: so entries that ascend are found in one pass.
fn stays(later: &Tree, near: &mut usize, entry: &(Text, Entry)) -> bool
    ensures { MatchBool result (IsFree later.now entry.now.0) (IsMet later.now entry.now.0) }
{
    let (entries, path) = (later.entries(), entry.0.as_str());
    *near = start_near(entries, *near, path);
    !is_met(entries, *near, path)
}

/// Whether a path of the tree's entries is this one, or lies above or below it.
fn is_met(entries: &[(Text, Entry)], start: usize, path: &str) -> bool
    requires tree { IsTree entries.now }
    requires start { IsStart entries.now path.now start }
    ensures { MatchBool result (IsMet entries.now path.now) (IsFree entries.now path.now) }
{
    if stands_over(path, &entries[start..]) {
        return true;
    }
    lies_below_one(entries, start, path)
}

/// Whether the path lies below one of the tree's entries. One that it lies below begins the entry before its place, and
/// there the two differ, or end: so that is the one place to look at.
fn lies_below_one(entries: &[(Text, Entry)], start: usize, path: &str) -> bool
    requires tree { IsTree entries.now }
    requires start { IsStart entries.now path.now start }
    ensures { MatchBool result (Any (λ e. IsBelow e.0 path.now) entries.now)
        (All (λ e. IsBelow e.0 path.now → ⊥) entries.now) }
{
    if start == 0 {
        return false;
    }
    let bytes = path.as_bytes();
    let place = common_length(entries[start - 1].0.as_str().as_bytes(), bytes);
    if place >= bytes.len() || bytes[place] != b'/' {
        return false;
    }
    holds_path(entries, &bytes[..place])
}

/// Moves the entries of two sorted lists into an empty one, for which there is room. It takes the greatest first, so each
/// entry is compared and moved once.
fn merge(
    made: &mut Vec<(Text, Entry)>,
    one: &mut Vec<(Text, Entry)>,
    other: &mut Vec<(Text, Entry)>,
)
    requires room { vec_len one.old + vec_len other.old ≤ vec_capacity made.old }
    requires empty { vec_len made.old ≡ 0 }
    requires one { IsSortedByPath one.old.items }
    requires other { IsSortedByPath other.old.items }
    ensures permutation { IsPermutation (one.old.items ++ other.old.items) made.new.items }
    ensures sorted { IsSortedByPath made.new.items }
{
    'merging: while let Some(entry) = take_greatest(one, other) {
        made.push_reserved(entry);
    }
    made.reverse();
}

/// Takes the last of the entries of two sorted lists.
fn take_greatest(
    one: &mut Vec<(Text, Entry)>,
    other: &mut Vec<(Text, Entry)>,
) -> Option<(Text, Entry)>
    requires one { IsSortedByPath one.old.items }
    requires other { IsSortedByPath other.old.items }
    ensures none { IfNone result ((vec_len one.old ≡ 0) × (vec_len other.old ≡ 0)) }
    ensures some { IfSome result (λ e. IsGreatest one.old.items other.old.items e one.new.items other.new.items) }
    ensures length { IfSome result (λ e. vec_len one.new + vec_len other.new + 1
        ≡ vec_len one.old + vec_len other.old) }
{
    if comes_last(one, other) {
        one.pop()
    } else {
        other.pop()
    }
}

/// Whether the last entry of one list comes behind each of the other.
fn comes_last(one: &[(Text, Entry)], other: &[(Text, Entry)]) -> bool
    requires one { IsSortedByPath one.now }
    requires other { IsSortedByPath other.now }
    ensures { MatchBool result (EndsLast one.now other.now) (EndsLast other.now one.now ⊎ (length one.now ≡ 0)) }
{
    let Some(last) = one.last() else {
        return false;
    };
    let Some(other_last) = other.last() else {
        return true;
    };
    !comes_before(last.0.as_str(), other_last.0.as_str())
}
