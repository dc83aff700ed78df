// A tree is read from a folder of a disk.
ghost use Rattle.std.specs.Prelude.{◌≡◌, ◌++◌, All, IfOk, IsSome, length, false};
ghost use Rattle.tree_model.specs.Path.{BeginsWith};
ghost use Rattle.tree_model.specs.Tree.{IsTree};
ghost use Rattle.outside_traits.specs.Reading.{IsReading, IsWithin, Stands};
ghost use Rattle.outside_traits.specs.Passes.{Passes, Same};
ghost use Rattle.outside_traits.specs.Fault.{Counts, disk_failed};

use crate::trees::joined;
use crate::{Disk, DiskFault};
use std::alloc::Global;
use tree_model::{Entry, Mem, Size, Text, Tree, TreeFault};

/// What is held under the folder, or `None` exactly where that exceeds `max`. Nothing changes.
///
/// The folder is relative to the disk, and the tree's paths to the folder. `Failed` comes only where the disk's count of
/// faults rose. Where a disk that doesn't tell what it holds lists what is no tree, that is `None` too. (Own rule.)
pub fn read_tree<D: Disk>(
    alloc: Global,
    disk: &mut D,
    folder: &str,
    max: Size,
) -> Result<Option<Tree>, DiskFault>
    ensures found { D.tells → IfOk result (λ found. IsReading folder.now max (D.story disk.old).held found) }

    // Whatever it answers.
    ensures others { D.tells → Passes (D.story disk.old) (D.story disk.new) Same }
    ensures cause { Counts (D.faults disk.old) (D.faults disk.new) (disk_failed result) }
{
    let prefix = joined(alloc, folder, "")?;
    let paths = disk.list(alloc, prefix.as_str())?;
    let entries = read_entries(alloc, disk, prefix.as_str(), paths.as_slice())?;
    tree_within(entries, &max)
}

/// The entries at paths that begin with the prefix, by what stands behind it.
fn read_entries<D: Disk>(
    alloc: Global,
    disk: &mut D,
    prefix: &str,
    paths: &[Text],
) -> Result<Vec<(Text, Entry)>, DiskFault>
    requires { D.tells → All (λ path. BeginsWith prefix.now path × IsSome ((D.story disk.old).held path)) paths.now }
    ensures entries { D.tells → IfOk result (λ entries. Stands prefix.now paths.now (length paths.now)
        (D.story disk.old).held entries.items) }
    ensures others { D.tells → Passes (D.story disk.old) (D.story disk.new) Same }
    ensures cause { Counts (D.faults disk.old) (D.faults disk.new) (disk_failed result) }
{
    let mut entries = Vec::with_capacity(alloc, paths.len())?;
    for path in paths {
        if let Some(entry) = disk.read(alloc, path.as_str())? {
            entries.push((rest_behind(alloc, prefix, path.as_str())?, entry))?;
        }
    }
    Ok(entries)
}

/// What stands behind the prefix; the whole path where it doesn't begin with it.
fn rest_behind(alloc: Global, prefix: &str, path: &str) -> Result<Text, Mem>
    ensures { BeginsWith prefix.now path.now → IfOk result (λ rest. path.now ≡ prefix.now ++ rest) }
{
    match path.strip_prefix(prefix) {
        Some(rest) => Text::from_str(alloc, rest),
        None => Text::from_str(alloc, path),
    }
}

/// The tree of these entries, or `None` where it exceeds the limit, or they are none.
fn tree_within(entries: Vec<(Text, Entry)>, max: &Size) -> Result<Option<Tree>, DiskFault>
    ensures found { IsTree entries.items → IfOk result (λ found. IsWithin entries.items max.now found) }
    ensures cause { disk_failed result ≡ false }
{
    match Tree::from_entries(entries) {
        Ok(tree) => Ok(within(tree, max)),
        Err(TreeFault::Memory) => Err(DiskFault::Memory),
        Err(TreeFault::BadPath { path: _ }) => Ok(None),
    }
}

/// The tree, where it doesn't exceed the limit.
fn within(tree: Tree, max: &Size) -> Option<Tree>
    ensures found { IsWithin tree max.now result }
    ensures tree { IsTree tree }
{
    if tree.size().is_within(max) {
        return Some(tree);
    }
    None
}
