// Whether a folder holds a tree.
ghost use Rattle.std.specs.Prelude.{◌≡◌, ◌↔◌, IfOk, IsTrue, MatchBool};
ghost use Rattle.tree_model.specs.Size.{size_of};
ghost use Rattle.tree_model.specs.Tree.{IsTree as IsATree};
ghost use Rattle.outside_traits.specs.Store.{HoldsTree};
ghost use Rattle.outside_traits.specs.Passes.{Passes, Same};
ghost use Rattle.outside_traits.specs.Fault.{Counts, disk_failed};

use crate::open::is_open;
use outside_traits::{Disk, DiskFault, read_tree};
use std::alloc::Global;
use tree_model::{Entry, Size, Text, Tree};

/// Whether two places hold the same entry at the same path.
fn same_entry(one: &(Text, Entry), other: &(Text, Entry)) -> bool
    ensures { IsTrue result ↔ (one.now ≡ other.now) }
{
    one.0 == other.0 && one.1 == other.1
}

/// Whether two lists have the same entries at the same paths, in the same order.
pub fn same_entries(one: &[(Text, Entry)], other: &[(Text, Entry)]) -> bool
    ensures { IsTrue result ↔ (one.now ≡ other.now) }
{
    if one.len() != other.len() {
        return false;
    }
    for (place, entry) in one.iter().enumerate() {
        if !same_entry(entry, &other[place]) {
            return false;
        }
    }
    true
}

/// Whether two trees are the same.
fn same_tree(one: &Tree, other: &Tree) -> bool
    ensures { IsTrue result ↔ (one.now ≡ other.now) }
{
    same_entries(one.entries(), other.entries())
}

/// The size of a tree.
fn size_of(tree: &Tree) -> Size
    ensures size { result ≡ size_of tree.now }
    ensures tree { IsATree tree.now }
{
    let _entries = tree.entries();
    tree.size()
}

/// Whether exactly the tree is held under the folder, and nothing at the folder or above it.
pub(crate) fn holds_tree<D: Disk>(
    alloc: Global,
    disk: &mut D,
    folder: &str,
    tree: &Tree,
) -> Result<bool, DiskFault>
    ensures found { D.tells → IfOk result (λ holds. MatchBool holds
        (HoldsTree folder.now tree.now (D.story disk.old).held)
        (HoldsTree folder.now tree.now (D.story disk.old).held → ⊥)) }
    ensures others { D.tells → Passes (D.story disk.old) (D.story disk.new) Same }
    ensures cause { Counts (D.faults disk.old) (D.faults disk.new) (disk_failed result) }
{
    if !is_open(alloc, disk, folder)? {
        return Ok(false);
    }
    match read_tree(alloc, disk, folder, size_of(tree))? {
        Some(found) => Ok(same_tree(&found, tree)),
        None => Ok(false),
    }
}
