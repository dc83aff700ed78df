// A folder of a disk becomes a tree.
ghost use Rattle.std.specs.Prelude.{◌≡◌, ◌≤◌, ◌+◌, ◌++◌, List, ℕ, length, All, OnOk, IfOk, is_some};
ghost use Rattle.tree_model.specs.Path.{IsClean, inside};
ghost use Rattle.tree_model.specs.Tree.{entry_at};
ghost use Rattle.outside_traits.specs.Store.{AgreesApart, AgreesRound, HoldsTree, IsCleared, IsOpen, LaysTree, MakesWay, slashes};
ghost use Rattle.outside_traits.specs.Passes.{Clears, IsBrief, Passes};
ghost use Rattle.outside_traits.specs.Fault.{Counts, disk_failed};

use crate::filling::fill;
use crate::{Disk, DiskFault};
use std::alloc::Global;
use tree_model::{Mem, Text, Texts, Tree};

/// Makes the folder hold exactly the tree, whatever was held there, and nothing at the folder's own path or above it.
/// What is in the way is removed first, and what the tree hasn't. Only the folder's path, those above it and those under it
/// change, also where the call is refused; and no path changes at which what the tree has was held already, so an entry
/// that is held isn't written again.
///
/// The folder is listed once. What is listed and the tree has is read, and nothing else. The folder is relative to the
/// disk. `Failed` comes only where the disk's count of faults rose. (Own rule.)
pub fn put_tree<D: Disk>(
    alloc: Global,
    disk: &mut D,
    folder: &str,
    tree: &Tree,
) -> Result<(), DiskFault>
    requires clean { All (λ e. IsClean (inside folder.now e.0)) tree.now }
    requires within_reach { All (λ e. length (inside folder.now e.0) ≤ D.reach) tree.now }
    ensures held { D.tells → OnOk result (HoldsTree folder.now tree.now (D.story disk.new).held) }

    // Whatever it answers.
    ensures others { D.tells → Passes (D.story disk.old) (D.story disk.new) (AgreesApart folder.now) }
    ensures round { D.tells → Passes (D.story disk.old) (D.story disk.new)
        (AgreesRound folder.now (D.story disk.old).held) }
    ensures lays { D.tells → Passes (D.story disk.old) (D.story disk.new)
        (LaysTree folder.now tree.now (D.story disk.old).held) }
    ensures cause { Counts (D.faults disk.old) (D.faults disk.new) (disk_failed result) }
{
    clear_above(alloc, disk, folder)?;
    let listed = clear_others(alloc, disk, folder, tree)?;
    fill(alloc, disk, folder, tree.entries(), listed.as_slice())
}

/// Removes what the path holds. Where it holds nothing it isn't touched: after a crash a removed path may hold anything.
fn clear_at<D: Disk>(alloc: Global, disk: &mut D, path: &str) -> Result<(), DiskFault>
    ensures clears { D.tells → Clears path.now (D.story disk.old) (D.story disk.new) result }
    ensures brief { D.tells → IsBrief 2 (D.story disk.old) (D.story disk.new) }
    ensures cause { Counts (D.faults disk.old) (D.faults disk.new) (disk_failed result) }
{
    match disk.read(alloc, path)? {
        Some(_) => disk.remove(path),
        None => Ok(()),
    }
}

/// Removes what stands at the folder or above it, by two calls of the disk at most for each of these paths.
pub fn clear_above<D: Disk>(alloc: Global, disk: &mut D, folder: &str) -> Result<(), DiskFault>
    ensures open { D.tells → OnOk result (IsOpen folder.now (D.story disk.new).held) }
    ensures way { D.tells → Passes (D.story disk.old) (D.story disk.new) (MakesWay folder.now (D.story disk.old).held) }
    ensures brief { D.tells → IsBrief (2 + (slashes folder.now + slashes folder.now)) (D.story disk.old) (D.story disk.new) }
    ensures cause { Counts (D.faults disk.old) (D.faults disk.new) (disk_failed result) }
{
    clear_at(alloc, disk, folder)?;
    let bytes = folder.as_bytes();
    for i in 0..bytes.len() {
        if bytes[i] == b'/' {
            clear_at(alloc, disk, &folder[..i])?;
        }
    }
    Ok(())
}

/// Removes what is held under the folder and the tree hasn't. The answer is all that was held under the folder before.
fn clear_others<D: Disk>(
    alloc: Global,
    disk: &mut D,
    folder: &str,
    tree: &Tree,
) -> Result<Texts, DiskFault>
    requires { D.tells → IsOpen folder.now (D.story disk.old).held }
    ensures cleared { D.tells → IfOk result (λ listed. IsCleared folder.now tree.now listed (D.story disk.new).held) }
    ensures lays { D.tells → Passes (D.story disk.old) (D.story disk.new)
        (LaysTree folder.now tree.now (D.story disk.old).held) }
    ensures cause { Counts (D.faults disk.old) (D.faults disk.new) (disk_failed result) }
{
    let prefix = joined(alloc, folder, "")?;
    let paths = disk.list(alloc, prefix.as_str())?;
    let found = paths.as_slice();
    // From the last on: a disk that keeps its entries in order then moves none of them.
    for k in (0..found.len()).rev() {
        let path = found[k].as_str();
        if !has_rest(tree, prefix.as_str(), path) {
            disk.remove(path)?;
        }
    }
    Ok(paths)
}

/// Whether the tree has what stands behind the prefix of the path.
fn has_rest(tree: &Tree, prefix: &str, path: &str) -> bool
    ensures { (rest : List ℕ) → path.now ≡ prefix.now ++ rest → result ≡ is_some (entry_at tree.now rest) }
{
    match path.strip_prefix(prefix) {
        Some(rest) => tree.get(rest).is_some(),
        None => false,
    }
}

/// The path of a place in a folder.
pub(crate) fn joined(alloc: Global, folder: &str, path: &str) -> Result<Text, Mem>
    ensures { IfOk result (λ whole. whole ≡ inside folder.now path.now) }
{
    let mut whole = Text::from_str(alloc, folder)?;
    whole.push_str("/")?;
    whole.push_str(path)?;
    Ok(whole)
}
