// What a disk in memory holds, and the calls that it keeps: they change together.
ghost use Rattle.std.specs.Prelude.{◌≡◌, ◌-◌, None, OnErr, OnOk, IfOk, IsSome, Some, length, take};
ghost use Rattle.std.specs.Str.{bytes_eq};
ghost use Rattle.tree_model.specs.Path.{IsClean};
ghost use Rattle.tree_model.specs.Tree.{entry_at};
ghost use Rattle.outside_traits.specs.Store.{IsFree};
ghost use Rattle.outside_traits.specs.Story.{looked, synced, ended, put_at, moved};
ghost use Rattle.outside_mem.specs.Kept.{story_by};

use outside_traits::Call;
use std::alloc::Global;
use tree_model::{Entry, Mem, Text, Tree};

/// A copy of what the path holds.
pub(crate) fn copy_of(tree: &Tree, path: &str) -> Result<Option<Entry>, Mem>
    ensures { IfOk result (λ found. found ≡ entry_at tree.now path.now) }
{
    match tree.get(path) {
        Some(entry) => Ok(Some(entry.copy()?)),
        None => Ok(None),
    }
}

/// A write or a removal, which is kept before it is made.
fn put_call(alloc: Global, tree: &Tree, path: &str) -> Result<Call, Mem>
    ensures { IfOk result (λ call. call ≡ Call.Put path.now (entry_at tree.now path.now)) }
{
    Ok(Call::Put {
        path: Text::from_str(alloc, path)?,
        was: copy_of(tree, path)?,
    })
}

/// A rename, which is kept before it is made.
fn move_call(alloc: Global, tree: &Tree, from: &str, to: &str) -> Result<Call, Mem>
    ensures { IfOk result (λ call. call ≡ Call.Moved from.now to.now (entry_at tree.now from.now)
        (entry_at tree.now to.now)) }
{
    Ok(Call::Moved {
        from: Text::from_str(alloc, from)?,
        to: Text::from_str(alloc, to)?,
        was: copy_of(tree, from)?,
        replaced: copy_of(tree, to)?,
    })
}

/// Forgets the call that was kept last.
fn take_back(calls: &mut Vec<Call>)
    ensures { calls.new.items ≡ take (length calls.old.items - 1) calls.old.items }
{
    let _ = calls.pop();
}

/// Keeps a call that changes nothing.
pub(crate) fn keep_look(tree: &Tree, calls: &mut Vec<Call>) -> Result<(), Mem>
    ensures ok { OnOk result (story_by tree.now calls.new.items ≡ looked (story_by tree.now calls.old.items)) }
    ensures err { OnErr result (story_by tree.now calls.new.items ≡ story_by tree.now calls.old.items) }
{
    Ok(calls.push(Call::Looked)?)
}

/// Keeps a sync.
pub(crate) fn keep_sync(tree: &Tree, calls: &mut Vec<Call>) -> Result<(), Mem>
    ensures ok { OnOk result (story_by tree.now calls.new.items ≡ synced (story_by tree.now calls.old.items)) }
    ensures err { OnErr result (story_by tree.now calls.new.items ≡ story_by tree.now calls.old.items) }
{
    Ok(calls.push(Call::Synced)?)
}

/// Keeps the end of a ticket.
pub(crate) fn keep_ended(tree: &Tree, calls: &mut Vec<Call>, moment: u64) -> Result<(), Mem>
    ensures ok { OnOk result (story_by tree.now calls.new.items ≡ ended moment (story_by tree.now calls.old.items)) }
    ensures err { OnErr result (story_by tree.now calls.new.items ≡ story_by tree.now calls.old.items) }
{
    Ok(calls.push(Call::Ended { moment })?)
}

/// Keeps a write or a removal that failed, after which the path holds what it held.
pub(crate) fn keep_failed_put(
    alloc: Global,
    tree: &Tree,
    calls: &mut Vec<Call>,
    path: &str,
) -> Result<(), Mem>
    ensures ok { OnOk result (story_by tree.now calls.new.items
        ≡ put_at path.now (entry_at tree.now path.now) (story_by tree.now calls.old.items)) }
    ensures err { OnErr result (story_by tree.now calls.new.items ≡ story_by tree.now calls.old.items) }
{
    Ok(calls.push(put_call(alloc, tree, path)?)?)
}

/// Keeps a rename that failed, after which both paths hold what they held.
pub(crate) fn keep_failed_move(
    alloc: Global,
    tree: &Tree,
    calls: &mut Vec<Call>,
    from: &str,
    to: &str,
) -> Result<(), Mem>
    ensures ok { OnOk result (story_by tree.now calls.new.items
        ≡ moved from.now to.now (entry_at tree.now from.now) (entry_at tree.now to.now)
        (story_by tree.now calls.old.items)) }
    ensures err { OnErr result (story_by tree.now calls.new.items ≡ story_by tree.now calls.old.items) }
{
    Ok(calls.push(move_call(alloc, tree, from, to)?)?)
}

/// The path holds the entry from now on.
pub(crate) fn keep_put(
    alloc: Global,
    tree: &mut Tree,
    calls: &mut Vec<Call>,
    path: &str,
    entry: Entry,
) -> Result<(), Mem>
    requires clean { IsClean path.now }
    requires free { IsFree (entry_at tree.old) path.now }
    ensures ok { OnOk result (story_by tree.new calls.new.items
        ≡ put_at path.now (Some entry) (story_by tree.old calls.old.items)) }
    ensures err { OnErr result (story_by tree.new calls.new.items ≡ story_by tree.old calls.old.items) }
{
    calls.push(put_call(alloc, tree, path)?)?;
    if tree.put(alloc, path, entry).is_err() {
        take_back(calls);
        return Err(Mem);
    }
    Ok(())
}

/// The path holds nothing from now on.
pub(crate) fn keep_removal(
    alloc: Global,
    tree: &mut Tree,
    calls: &mut Vec<Call>,
    path: &str,
) -> Result<(), Mem>
    ensures ok { OnOk result (story_by tree.new calls.new.items
        ≡ put_at path.now None (story_by tree.old calls.old.items)) }
    ensures err { OnErr result (story_by tree.new calls.new.items ≡ story_by tree.old calls.old.items) }
{
    calls.push(put_call(alloc, tree, path)?)?;
    let _ = tree.take(path);
    Ok(())
}

/// What the source held is held at the target from now on.
pub(crate) fn keep_move(
    alloc: Global,
    tree: &mut Tree,
    calls: &mut Vec<Call>,
    from: &str,
    to: &str,
) -> Result<(), Mem>
    requires held { IsSome (entry_at tree.old from.now) }
    requires clean { IsClean to.now }
    requires free { IsFree (entry_at tree.old) to.now }
    ensures ok { OnOk result (story_by tree.new calls.new.items
        ≡ moved from.now to.now None (entry_at tree.old from.now) (story_by tree.old calls.old.items)) }
    ensures err { OnErr result (story_by tree.new calls.new.items ≡ story_by tree.old calls.old.items) }
{
    let Some(entry) = copy_of(tree, from)? else {
        unreachable!()
    };
    calls.push(move_call(alloc, tree, from, to)?)?;
    if tree.put(alloc, to, entry).is_err() {
        take_back(calls);
        return Err(Mem);
    }
    if !is_same(from, to) {
        let _ = tree.take(from);
    }
    Ok(())
}

fn is_same(a: &str, b: &str) -> bool
    ensures { result ≡ bytes_eq a.now b.now }
{
    a == b
}
