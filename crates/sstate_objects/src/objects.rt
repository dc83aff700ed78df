// Objects.
ghost use Rattle.std.specs.Prelude.{◌≡◌, ◌≤◌, IfOk, OnOk, All, length};
ghost use Rattle.tree_model.specs.Path.{IsClean, inside};
ghost use Rattle.outside_traits.specs.Store.{AgreesApart, AgreesRound, HoldsTree, LaysTree};
ghost use Rattle.outside_traits.specs.Passes.{Passes, Same};
ghost use Rattle.outside_traits.specs.Fault.{Counts, disk_failed};
ghost use Rattle.store_model.specs.Available.{object_folder};
ghost use Rattle.sstate_objects.specs.Matching.{IsMatching};

use crate::holding::holds_tree;
use crate::matching::read_matching;
use outside_traits::{Disk, DiskFault, put_tree};
use std::alloc::Global;
use tree_model::{Hash, Manifest, Mem, Text, Tree};

/// The folder of an object: `obj/` and its unihash.
pub fn object_folder(alloc: Global, name: &Hash) -> Result<Text, Mem>
    ensures { IfOk result (λ folder. folder ≡ object_folder name.now) }
{
    let mut folder = Text::from_str(alloc, "obj/")?;
    folder.push_str(name.text(alloc)?.as_str())?;
    Ok(folder)
}

/// The object of a unihash, where it is a tree with this manifest: `None` exactly where what is held doesn't match. Nothing changes.
pub fn read_verified<D: Disk>(
    alloc: Global,
    disk: &mut D,
    name: &Hash,
    manifest: &Manifest,
) -> Result<Option<Tree>, DiskFault>
    ensures found { D.tells → IfOk result (λ found. IsMatching (object_folder name.now) manifest.now
        (D.story disk.old).held found) }

    // Whatever it answers.
    ensures others { D.tells → Passes (D.story disk.old) (D.story disk.new) Same }
    ensures cause { Counts (D.faults disk.old) (D.faults disk.new) (disk_failed result) }
{
    let folder = object_folder(alloc, name)?;
    read_matching(alloc, disk, folder.as_str(), manifest)
}

/// Makes the object of a unihash exactly this tree, and nothing else is held at its folder or above it. Where that is so already,
/// nothing is written; and no path of it changes at which what the tree has is held.
pub fn put_object<D: Disk>(
    alloc: Global,
    disk: &mut D,
    name: &Hash,
    tree: &Tree,
) -> Result<(), DiskFault>
    requires clean { All (λ e. IsClean (inside (object_folder name.now) e.0)) tree.now }
    requires within_reach { All (λ e. length (inside (object_folder name.now) e.0) ≤ D.reach) tree.now }
    ensures held { D.tells → OnOk result (HoldsTree (object_folder name.now) tree.now (D.story disk.new).held) }
    ensures unwritten { D.tells → HoldsTree (object_folder name.now) tree.now (D.story disk.old).held
        → Passes (D.story disk.old) (D.story disk.new) Same }

    // Whatever it answers.
    ensures others { D.tells → Passes (D.story disk.old) (D.story disk.new) (AgreesApart (object_folder name.now)) }
    ensures round { D.tells → Passes (D.story disk.old) (D.story disk.new)
        (AgreesRound (object_folder name.now) (D.story disk.old).held) }
    ensures lays { D.tells → Passes (D.story disk.old) (D.story disk.new)
        (LaysTree (object_folder name.now) tree.now (D.story disk.old).held) }
    ensures cause { Counts (D.faults disk.old) (D.faults disk.new) (disk_failed result) }
{
    let folder = object_folder(alloc, name)?;
    if holds_tree(alloc, disk, folder.as_str(), tree)? {
        return Ok(());
    }
    put_tree(alloc, disk, folder.as_str(), tree)
}
