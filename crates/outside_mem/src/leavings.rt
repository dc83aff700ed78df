// What a crash leaves of a disk in memory, picked by a number.
ghost use Rattle.std.specs.Prelude.{◌≡◌, ◌<◌, ◌≤◌, ◌+◌, IfOk, IsSome, None, OnOk, length, reverse, take};
ghost use Rattle.tree_model.specs.Tree.{entry_at};
ghost use Rattle.outside_traits.specs.Store.{ChangesAt};
ghost use Rattle.outside_traits.specs.Story.{unsynced};
ghost use Rattle.outside_mem.specs.Kept.{IsDamaged, IsPicked, touched, touched_by};

use outside_traits::Call;
use std::alloc::Global;
use tree_model::{Bytes, Entry, Mem, Text, Tree};

/// What becomes of a path that isn't durable.
enum Fate {
    Stays,
    Gone,
    Cut,
}

/// The fate of the path with this number, from 0.
fn fate_of(pick: u64, number: usize) -> Fate
    ensures whole { pick ≡ 0 → result ≡ Fate.Stays }
    ensures gone { pick ≡ 1 → result ≡ Fate.Gone }
{
    let digit = match pick {
        0..=2 => pick,
        _ => (pick >> (number % 62)) & 3,
    };
    match digit {
        1 => Fate::Gone,
        2 => Fate::Cut,
        _ => Fate::Stays,
    }
}

/// How many calls were answered since the newest moment that is durable.
fn unsynced_calls(calls: &[Call]) -> usize
    ensures count { result ≡ unsynced (reverse calls.now) }
    ensures within { result ≤ length calls.now }
{
    let mut count = 0;
    for k in 0..calls.len() {
        count = unsynced_after(calls, k, count);
    }
    count
}

/// How many they are behind the call with this number, from 0, where they were so many before it.
fn unsynced_after(calls: &[Call], k: usize, before: usize) -> usize
    requires fits { k < length calls.now }
    requires within { before ≤ k }
    requires count { before ≡ unsynced (reverse (take k calls.now)) }
    ensures count { result ≡ unsynced (reverse (take (k + 1) calls.now)) }
    ensures within { result ≤ k + 1 }
{
    match &calls[k] {
        Call::Looked => before + 1,
        Call::Synced => 0,
        Call::Ended { moment } => k.saturating_sub(*moment as usize).min(before) + 1,
        Call::Put { path: _, was: _ } => before + 1,
        Call::Moved {
            from: _,
            to: _,
            was: _,
            replaced: _,
        } => before + 1,
    }
}

/// The paths that were written or removed since the newest moment that is durable, or since a rename behind it.
pub(crate) fn touched_paths(alloc: Global, calls: &[Call]) -> Result<Vec<Text>, Mem>
    ensures { IfOk result (λ paths. paths.items ≡ touched (unsynced (reverse calls.now)) (reverse calls.now)) }
{
    let durable = calls.len() - unsynced_calls(calls);
    let mut paths = Vec::new(alloc);
    for k in durable..calls.len() {
        touch(&mut paths, &calls[k])?;
    }
    Ok(paths)
}

/// What is touched after one call more.
fn touch(paths: &mut Vec<Text>, call: &Call) -> Result<(), Mem>
    ensures { OnOk result (paths.new.items ≡ touched_by call.now paths.old.items) }
{
    match call {
        Call::Looked => {}
        Call::Synced => {}
        Call::Ended { moment: _ } => {}
        Call::Put { path, was: _ } => paths.push(path.copy()?)?,
        Call::Moved {
            from: _,
            to: _,
            was: _,
            replaced: _,
        } => paths.clear(),
    }
    Ok(())
}

/// Damages the tree at these paths, as the number picks it.
pub(crate) fn damage(alloc: Global, tree: &mut Tree, paths: &[Text], pick: u64) -> Result<(), Mem>
    ensures damaged { OnOk result (IsDamaged paths.now (entry_at tree.old) (entry_at tree.new)) }
    ensures picked { OnOk result (IsPicked pick paths.now (entry_at tree.old) (entry_at tree.new)) }
{
    for number in 0..paths.len() {
        damage_at(alloc, tree, paths[number].as_str(), fate_of(pick, number))?;
    }
    Ok(())
}

/// Damages the tree at a path.
fn damage_at(alloc: Global, tree: &mut Tree, path: &str, fate: Fate) -> Result<(), Mem>
    ensures others { OnOk result (ChangesAt path.now (entry_at tree.old) (entry_at tree.new)) }
    ensures no_more { OnOk result (IsSome (entry_at tree.new path.now) → IsSome (entry_at tree.old path.now)) }
    ensures whole { fate ≡ Fate.Stays → OnOk result (entry_at tree.new ≡ entry_at tree.old) }
    ensures gone { fate ≡ Fate.Gone → OnOk result (entry_at tree.new path.now ≡ None) }
{
    match fate {
        Fate::Stays => Ok(()),
        Fate::Gone => {
            let _ = tree.take(path);
            Ok(())
        }
        Fate::Cut => cut_at(alloc, tree, path),
    }
}

/// Cuts the file at a path in the middle.
fn cut_at(alloc: Global, tree: &mut Tree, path: &str) -> Result<(), Mem>
    ensures others { OnOk result (ChangesAt path.now (entry_at tree.old) (entry_at tree.new)) }
    ensures no_more { OnOk result (IsSome (entry_at tree.new path.now) → IsSome (entry_at tree.old path.now)) }
{
    // What is held is a tree, so there is room where something is held.
    let _ = tree.entries();
    match tree.get(path) {
        Some(entry) => {
            let half = half_of(alloc, entry)?;
            tree.put(alloc, path, half)
        }
        None => Ok(()),
    }
}

/// The entry with the first half of its bytes; a link stays whole.
fn half_of(alloc: Global, entry: &Entry) -> Result<Entry, Mem> {
    match entry {
        Entry::File { exec, bytes } => {
            let all = bytes.as_slice();
            Ok(Entry::File {
                exec: *exec,
                bytes: Bytes::from_slice(alloc, &all[..all.len() / 2])?,
            })
        }
        Entry::Link { target } => Ok(Entry::Link {
            target: target.copy()?,
        }),
    }
}
