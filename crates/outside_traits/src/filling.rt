// Entries come to stand in a folder of a disk.
ghost use Rattle.std.specs.Prelude.{◌≡◌, ◌≤◌, Some, length, All, Contains, IfOk, IsSome, IsTrue, MatchBool, OnOk};
ghost use Rattle.std.specs.Ordering.{nat_cmp};
ghost use Rattle.std.specs.List.Sorted.{IsStrictlySortedBy};
ghost use Rattle.std.specs.Cmp.Lexicographic.{slice_cmp};
ghost use Rattle.tree_model.specs.Path.{IsClean, inside};
ghost use Rattle.tree_model.specs.Tree.{IsTree};
ghost use Rattle.outside_traits.specs.Store.{HoldsTree, IsCleared, IsFree, LaysTree, PutsEntry};
ghost use Rattle.outside_traits.specs.Passes.{IsBrief, Passes, Same};
ghost use Rattle.outside_traits.specs.Fault.{Counts, disk_failed};

use crate::trees::joined;
use crate::{Disk, DiskFault};
use std::alloc::Global;
use tree_model::{Entry, Text};

/// Writes the tree's entries under a folder that holds at no other paths, but for those that are held already. All that is
/// held there is listed.
pub(crate) fn fill<D: Disk>(
    alloc: Global,
    disk: &mut D,
    folder: &str,
    tree: &[(Text, Entry)],
    listed: &[Text],
) -> Result<(), DiskFault>
    requires tree { IsTree tree.now }
    requires clean { All (λ e. IsClean (inside folder.now e.0)) tree.now }
    requires within_reach { All (λ e. length (inside folder.now e.0) ≤ D.reach) tree.now }
    requires cleared { D.tells → IsCleared folder.now tree.now listed.now (D.story disk.old).held }
    ensures held { D.tells → OnOk result (HoldsTree folder.now tree.now (D.story disk.new).held) }
    ensures lays { D.tells → Passes (D.story disk.old) (D.story disk.new)
        (LaysTree folder.now tree.now (D.story disk.old).held) }
    ensures cause { Counts (D.faults disk.old) (D.faults disk.new) (disk_failed result) }
{
    for (path, entry) in tree {
        let full = joined(alloc, folder, path.as_str())?;
        let may_be_held = is_listed(listed, full.as_str());
        put_entry(alloc, disk, full.as_str(), entry, may_be_held)?;
    }
    Ok(())
}

/// Makes a path hold the entry. Where it is held there already nothing changes. The path is read only where something may be
/// held at it. Two calls of the disk at most.
pub fn put_entry<D: Disk>(
    alloc: Global,
    disk: &mut D,
    path: &str,
    entry: &Entry,
    may_be_held: bool,
) -> Result<(), DiskFault>
    requires clean { IsClean path.now }
    requires within_reach { length path.now ≤ D.reach }
    requires free { D.tells → IsFree (D.story disk.old).held path.now }
    requires told { D.tells → IsSome ((D.story disk.old).held path.now) → IsTrue may_be_held }
    ensures held { D.tells → OnOk result ((D.story disk.new).held path.now ≡ Some entry.now) }
    ensures puts { D.tells → Passes (D.story disk.old) (D.story disk.new)
        (PutsEntry path.now entry.now (D.story disk.old).held) }
    ensures brief { D.tells → IsBrief 2 (D.story disk.old) (D.story disk.new) }
    ensures cause { Counts (D.faults disk.old) (D.faults disk.new) (disk_failed result) }
{
    if may_be_held && holds(alloc, disk, path, entry)? {
        return Ok(());
    }
    disk.write(path, entry)
}

/// Whether the path holds this entry. Nothing changes.
fn holds<D: Disk>(alloc: Global, disk: &mut D, path: &str, entry: &Entry) -> Result<bool, DiskFault>
    ensures found { D.tells → IfOk result (λ holds. MatchBool holds
        ((D.story disk.old).held path.now ≡ Some entry.now)
        ((D.story disk.old).held path.now ≡ Some entry.now → ⊥)) }
    ensures held { D.tells → (D.story disk.new).held ≡ (D.story disk.old).held }
    ensures others { D.tells → Passes (D.story disk.old) (D.story disk.new) Same }
    ensures brief { D.tells → IsBrief 1 (D.story disk.old) (D.story disk.new) }
    ensures cause { Counts (D.faults disk.old) (D.faults disk.new) (disk_failed result) }
{
    match disk.read(alloc, path)? {
        Some(held) => Ok(held == *entry),
        None => Ok(false),
    }
}

/// Whether the path is one of these, which ascend by their bytes.
fn is_listed(listed: &[Text], path: &str) -> bool
    ensures { IsStrictlySortedBy (slice_cmp nat_cmp) listed.now
        → MatchBool result (Contains listed.now path.now) (Contains listed.now path.now → ⊥) }
{
    listed
        .binary_search_by(|one| one.as_str().cmp(path))
        .is_ok()
}
