// Changes to the entries of a tree, and lists of them.
ghost use Rattle.std.specs.Prelude.{◌≡◌, ◌<◌, ◌≤◌, IfOk, None, OnErr, OnOk, Some, ℕ, List, length, slice_index_or};
ghost use Rattle.tree_model.specs.declared.entry.Entry.{Entry as TreeEntry};
ghost use Rattle.tree_model.specs.Path.{IsBefore, IsClean};
ghost use Rattle.tree_model.specs.Tree.{HasRoom, IsAscending, IsListing, IsStart, IsTree, entry_at, put};

use crate::entry::Entry;
use crate::list::Texts;
use crate::order::{comes_before, place_of};
use crate::path::begins_with;
use crate::text::{Mem, Text};
use std::alloc::Global;

/// The same entries again.
pub(crate) fn copies(alloc: Global, entries: &[(Text, Entry)]) -> Result<Vec<(Text, Entry)>, Mem>
    ensures { IfOk result (λ made. made.items ≡ entries.now) }
{
    let mut made = Vec::with_capacity(alloc, entries.len())?;
    for entry in entries {
        made.push((entry.0.copy()?, entry.1.copy()?))?;
    }
    Ok(made)
}

/// Puts an entry at the path into the entries of a tree.
pub(crate) fn put_entry(
    entries: &mut Vec<(Text, Entry)>,
    alloc: Global,
    path: &str,
    entry: Entry,
) -> Result<(), Mem>
    requires tree { IsTree entries.old.items }
    requires clean { IsClean path.now }
    requires room { HasRoom (entry_at entries.old.items) path.now }
    ensures tree { IsTree entries.new.items }
    ensures ok { OnOk result (entry_at entries.new.items ≡ put (entry_at entries.old.items) path.now (Some entry)) }
    ensures err { OnErr result (entries.new.items ≡ entries.old.items) }
{
    match place_of(entries, path) {
        Ok(place) => entries[place].1 = entry,
        Err(place) => {
            let path = Text::from_str(alloc, path)?;
            entries.insert(place, (path, entry))?;
        }
    }
    Ok(())
}

/// Takes out what the path holds of the entries of a tree.
pub(crate) fn take_entry(entries: &mut Vec<(Text, Entry)>, path: &str) -> Option<Entry>
    requires { IsTree entries.old.items }
    ensures tree { IsTree entries.new.items }
    ensures taken { result ≡ entry_at entries.old.items path.now }
    ensures rest { entry_at entries.new.items ≡ put (entry_at entries.old.items) path.now None }
{
    match place_of(entries, path) {
        Ok(place) => Some(entries.remove(place).1),
        Err(_) => None,
    }
}

/// Where the paths that begin with the prefix begin, if there are any.
pub(crate) fn start_of(entries: &[(Text, Entry)], prefix: &str) -> usize
    requires { IsAscending entries.now }
    ensures { IsStart entries.now prefix.now result }
{
    match place_of(entries, prefix) {
        Ok(place) => place,
        Err(place) => place,
    }
}

/// The same, looked for from a place on: of those in front of it none is looked at, where they come before the prefix.
pub(crate) fn start_near(entries: &[(Text, Entry)], near: usize, prefix: &str) -> usize
    requires { IsAscending entries.now }
    ensures { IsStart entries.now prefix.now result }
{
    let from = place_before(entries, near, prefix);
    for place in from..entries.len() {
        if !comes_before(entries[place].0.as_str(), prefix) {
            return place;
        }
    }
    entries.len()
}

/// The place, if all entries in front of it come before the prefix, and else 0.
fn place_before(entries: &[(Text, Entry)], place: usize, prefix: &str) -> usize
    requires { IsAscending entries.now }
    ensures within { result ≤ length entries.now }
    ensures before { (k : ℕ) (d : List ℕ × TreeEntry) → k < result
        → IsBefore (slice_index_or entries.now k d).0 prefix.now }
{
    if place == 0 || place > entries.len() {
        return 0;
    }
    if comes_before(entries[place - 1].0.as_str(), prefix) {
        place
    } else {
        0
    }
}

/// The paths of a tree's entries that begin with the prefix.
pub(crate) fn listing_of(
    alloc: Global,
    entries: &[(Text, Entry)],
    prefix: &str,
) -> Result<Texts, Mem>
    requires { IsTree entries.now }
    ensures { IfOk result (λ paths. IsListing prefix.now (entry_at entries.now) paths) }
{
    let start = start_of(entries, prefix);
    let later = &entries[start..];
    let mut paths = Texts::new(alloc);
    for entry in later {
        if !begins_with(entry.0.as_str(), prefix) {
            return Ok(paths);
        }
        paths.push(entry.0.copy()?)?;
    }
    Ok(paths)
}
