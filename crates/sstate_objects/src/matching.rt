// A folder is read against a manifest.
ghost use Rattle.std.specs.Prelude.{◌≡◌, IfNone, IfOk, IfSome};
ghost use Rattle.tree_model.specs.Manifest.{manifest_lines};
ghost use Rattle.tree_model.specs.Tree.{IsTree};
ghost use Rattle.outside_traits.specs.Passes.{Passes, Same};
ghost use Rattle.outside_traits.specs.Fault.{Counts, disk_failed};
ghost use Rattle.sstate_objects.specs.Matching.{IsMatching};

use crate::open::is_open;
use crate::sizes::size_told;
use outside_traits::{Disk, DiskFault, read_tree};
use std::alloc::Global;
use tree_model::{Manifest, Tree, matches};

/// The tree, where it has this manifest.
fn matching(tree: Tree, manifest: &Manifest) -> Option<Tree>
    ensures some { IfSome result (λ kept. (kept ≡ tree) × (manifest.now ≡ manifest_lines tree)) }
    ensures none { IfNone result (manifest.now ≡ manifest_lines tree → ⊥) }
    ensures tree { IsTree tree }
{
    if matches(&tree, manifest) {
        return Some(tree);
    }
    None
}

/// What is held under the folder, where it is a tree with this manifest: `None` exactly where what is held doesn't match. Nothing is
/// held then at the folder's own path or above it. Nothing changes.
///
/// No more is kept of a folder than a tree with this manifest has. (Own rule.)
pub fn read_matching<D: Disk>(
    alloc: Global,
    disk: &mut D,
    folder: &str,
    manifest: &Manifest,
) -> Result<Option<Tree>, DiskFault>
    ensures found { D.tells → IfOk result (λ found. IsMatching folder.now manifest.now (D.story disk.old).held found) }

    // Whatever it answers.
    ensures others { D.tells → Passes (D.story disk.old) (D.story disk.new) Same }
    ensures cause { Counts (D.faults disk.old) (D.faults disk.new) (disk_failed result) }
{
    if !is_open(alloc, disk, folder)? {
        return Ok(None);
    }
    let max = size_told(manifest.lines());
    match read_tree(alloc, disk, folder, max)? {
        Some(tree) => Ok(matching(tree, manifest)),
        None => Ok(None),
    }
}
