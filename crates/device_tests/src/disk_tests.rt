// Disks in memory.
ghost use Rattle.std.specs.Prelude.{◌≡◌, ◌≤◌, All, IfOk, IsTrue};
ghost use Rattle.tree_model.specs.Path.{IsClean, inside};

use crate::samples::{named, tree_file, tree_files};
use outside_mem::{FaultyDisk, MemDisk};
use outside_traits::{Disk, DiskFault, put_tree, read_tree};
use std::alloc::Global;
use std::test::Fail;
use tree_model::{Mem, Size, Text, Tree, TreeFault, is_clean};

/// A disk with an old output and one of another task.
fn sample(alloc: Global) -> Result<MemDisk, TreeFault> {
    MemDisk::new(
        alloc,
        tree_files(alloc, "work/other/kept", "work/hello/old")?,
    )
}

/// A tree of two files.
pub fn tree(alloc: Global) -> Result<Tree, TreeFault> {
    Tree::from_entries(tree_files(alloc, "b/c", "a")?)
}

/// The path of a place in a folder.
fn joined(alloc: Global, folder: &str, path: &str) -> Result<Text, Mem>
    ensures { IfOk result (λ whole. whole ≡ inside folder.now path.now) }
{
    let mut whole = Text::from_str(alloc, folder)?;
    whole.push_str("/")?;
    whole.push_str(path)?;
    Ok(whole)
}

/// Whether each path of the tree is clean behind the folder.
pub fn fits(alloc: Global, folder: &str, tree: &Tree) -> Result<bool, Mem>
    ensures { IfOk result (λ fits. IsTrue fits → All (λ e. IsClean (inside folder.now e.0)) tree.now) }
{
    for (path, _) in tree.entries() {
        let whole = joined(alloc, folder, path.as_str())?;
        if !is_clean(whole.as_str()) {
            return Ok(false);
        }
    }
    Ok(true)
}

/// Puts the tree into the folder, syncs, and gives the paths that are held then, each with a space behind it.
fn publish<D: Disk>(
    alloc: Global,
    disk: &mut D,
    folder: &str,
    tree: &Tree,
) -> Result<Text, DiskFault>
    requires reach { 4096 ≤ D.reach }
    requires clean { All (λ e. IsClean (inside folder.now e.0)) tree.now }
{
    put_tree(alloc, disk, folder, tree)?;
    disk.sync()?;
    held_paths(alloc, disk)
}

/// The paths that are held, each with a space behind it.
fn held_paths<D: Disk>(alloc: Global, disk: &mut D) -> Result<Text, DiskFault> {
    let mut all = Text::new(alloc);
    for path in disk.list(alloc, "")?.as_slice() {
        if disk.read(alloc, path.as_str())?.is_some() {
            all.push_str(path.as_str())?;
            all.push_str(" ")?;
        }
    }
    Ok(all)
}

const PUBLISHED: &str = "work/hello/a work/hello/b/c work/other/kept ";

#[test]
fn disk_tells(rt: HostRuntime) -> Result<(), Fail> {
    let alloc = rt.alloc();
    let tree = tree(alloc)?;
    let mut disk = sample(alloc)?;
    assert!(rt; fits(alloc, "work/hello", &tree)?);
    let found = publish(alloc, &mut disk, "work/hello", &tree)?;
    assert_eq!(rt; found.as_str(), PUBLISHED);
    assert_eq!(rt; disk.held().len(), 3);
    assert_eq!(rt; disk.moment(), 11);
    Ok(())
}

/// The limit of a tree that is read, but for its number of entries.
fn limit(entries: u64) -> Size {
    Size {
        entries,
        largest: 5,
        bytes: 10,
    }
}

#[test]
fn folder_is_read(rt: HostRuntime) -> Result<(), Fail> {
    let alloc = rt.alloc();
    let mut disk = MemDisk::new(alloc, tree_files(alloc, "a/c/d", "a/b")?)?;
    match read_tree(alloc, &mut disk, "a", limit(2))? {
        Some(tree) => assert_eq!(rt; named(alloc, &tree)?.as_str(), "b=text\n c/d=text\n "),
        None => assert!(rt; false),
    }
    assert!(rt; read_tree(alloc, &mut disk, "a", limit(1))?.is_none());
    Ok(())
}

/// What a crash leaves of a tree that isn't synced yet, and of one that is. (The two paths of the tree, the old one, and
/// the folder's own with the one above it are touched.)
#[test]
fn images_of_a_disk(rt: HostRuntime) -> Result<(), Fail> {
    let alloc = rt.alloc();
    let tree = tree(alloc)?;
    let mut disk = sample(alloc)?;
    assert!(rt; fits(alloc, "work/hello", &tree)?);
    put_tree(alloc, &mut disk, "work/hello", &tree)?;
    for (pick, left) in [(0, 3), (1, 1), (2, 3), (1 << 8, 3)] {
        assert_eq!(rt; disk.image(pick)?.held().len(), left);
    }
    disk.sync()?;
    assert_eq!(rt; disk.image(1)?.held().len(), 3);
    Ok(())
}

/// The tree of `tree`, but that the first file has another text.
fn edited(alloc: Global) -> Result<Tree, TreeFault> {
    let mut files = Vec::new(alloc);
    files.push(tree_file(alloc, "a", "other\n")?)?;
    files.push(tree_file(alloc, "b/c", "text\n")?)?;
    Tree::from_entries(files)
}

/// How many of the held paths a crash may take now: in this image all that was written or removed since the last sync is gone.
fn unsynced(disk: &MemDisk) -> Result<usize, Mem> {
    let left = disk.image(1)?;
    Ok(disk.held().len().saturating_sub(left.held().len()))
}

/// Of a tree that is held nothing is written. Two paths that may be in the way are read, the folder is listed, and its two files are read.
/// Where one of them differs, that one is written.
#[test]
fn what_is_held_is_not_written(rt: HostRuntime) -> Result<(), Fail> {
    let alloc = rt.alloc();
    let tree = tree(alloc)?;
    let edited = edited(alloc)?;
    let mut disk = sample(alloc)?;
    assert!(rt; fits(alloc, "work/hello", &tree)?);
    assert!(rt; fits(alloc, "work/hello", &edited)?);
    put_tree(alloc, &mut disk, "work/hello", &tree)?;
    disk.sync()?;
    assert_eq!(rt; disk.moment(), 7);
    put_tree(alloc, &mut disk, "work/hello", &tree)?;
    assert_eq!(rt; disk.moment(), 12);
    assert_eq!(rt; unsynced(&disk)?, 0);
    put_tree(alloc, &mut disk, "work/hello", &edited)?;
    assert_eq!(rt; disk.moment(), 18);
    assert_eq!(rt; unsynced(&disk)?, 1);
    Ok(())
}

/// A run makes 11 calls. One with fewer fails, and so does the next; each image of what it left is a disk again.
#[test]
fn fuse_disk_fails(rt: HostRuntime) -> Result<(), Fail> {
    let alloc = rt.alloc();
    let tree = tree(alloc)?;
    assert!(rt; fits(alloc, "work/hello", &tree)?);
    for calls in 0..=11 {
        let mut disk = FaultyDisk::failing_after(sample(alloc)?, calls);
        assert_eq!(rt;
            publish(alloc, &mut disk, "work/hello", &tree).is_err(),
            calls < 11
        );
        assert!(rt; publish(alloc, &mut disk, "work/hello", &tree).is_err());
        let mut left = disk.into_disk().image(1)?;
        let found = publish(alloc, &mut left, "work/hello", &tree)?;
        assert_eq!(rt; found.as_str(), PUBLISHED);
    }
    Ok(())
}

/// A run makes 11 calls: it removes two paths that are in the way and what is listed under the folder, writes two
/// entries, syncs, lists and reads three. It fails at each of them, and the next run is through.
#[test]
fn fail_disk_fails(rt: HostRuntime) -> Result<(), Fail> {
    let alloc = rt.alloc();
    let tree = tree(alloc)?;
    assert!(rt; fits(alloc, "work/hello", &tree)?);
    for which in 0..=12 {
        let mut disk = FaultyDisk::failing_once(sample(alloc)?, which);
        let first = publish(alloc, &mut disk, "work/hello", &tree);
        assert_eq!(rt; first.is_err(), 1 <= which && which <= 11);
        if which <= 11 {
            let second = publish(alloc, &mut disk, "work/hello", &tree)?;
            assert_eq!(rt; second.as_str(), PUBLISHED);
        }
        assert_eq!(rt; disk.into_disk().held().len(), 3);
    }
    Ok(())
}
