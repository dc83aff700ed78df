// A disk over a folder of a disk in memory.
ghost use Rattle.std.specs.Prelude.{◌≡◌, ◌≤◌, ◌-◌, min, All, IfOk, IsTrue, length};
ghost use Rattle.tree_model.specs.Path.{IsClean, inside};
ghost use Rattle.outside_traits.specs.Passes.{Passes};
ghost use Rattle.outside_traits.specs.Story.{Story};
ghost use Rattle.sub_disk.specs.Sub.{GoesOn, IsPrefix, IsReachable, IsSettledWhole, SameOutside};

use crate::disk_tests::tree;
use crate::samples::tree_file;
use outside_mem::{FaultyDisk, MemDisk};
use outside_traits::{Disk, DiskFault, put_tree};
use std::alloc::Global;
use std::marker::Brand;
use std::test::Fail;
use sub_disk::{Start, SubDisk, make_ready};
use tree_model::{Mem, Text, Tree, TreeFault, is_clean};

/// Two files outside of the folder `mc/a`, one in it, and one whose path begins as the folder's does.
fn sample(alloc: Global) -> Result<MemDisk, TreeFault> {
    let mut files = Vec::new(alloc);
    files.push(tree_file(alloc, "work/kept", "text\n")?)?;
    files.push(tree_file(alloc, "mc/abc", "text\n")?)?;
    files.push(tree_file(alloc, "mc/a/old", "text\n")?)?;
    MemDisk::new(alloc, files)
}

/// The path of a place in a folder.
fn joined(alloc: Global, folder: &str, path: &str) -> Result<Text, Mem>
    ensures { IfOk result (λ whole. whole ≡ inside folder.now path.now) }
{
    let mut whole = Text::from_str(alloc, folder)?;
    whole.push_str("/")?;
    whole.push_str(path)?;
    Ok(whole)
}

/// Whether each path of the tree is clean behind the folder, and has no more bytes than that.
fn fits(alloc: Global, folder: &str, tree: &Tree, most: usize) -> Result<bool, Mem>
    ensures { IfOk result (λ fits. IsTrue fits → All (λ e. IsClean (inside folder.now e.0)
        × (length (inside folder.now e.0) ≤ most)) tree.now) }
{
    for (path, _) in tree.entries() {
        let whole = joined(alloc, folder, path.as_str())?;
        if !is_clean(whole.as_str()) || whole.as_str().len() > most {
            return Ok(false);
        }
    }
    Ok(true)
}

/// Ends a ticket that isn't of the future.
fn end<D: Disk>(disk: &mut D, ticket: u64) -> Result<(), DiskFault> {
    if ticket > disk.moment() {
        return Ok(());
    }
    disk.end_sync(ticket, true)
}

/// The work of a disk's owner: puts the tree into a folder, ends a ticket of before or one of now, and gives the paths that are held, each with a
/// blank behind it.
fn work<D: Disk>(
    alloc: Global,
    disk: &mut D,
    folder: &str,
    tree: &Tree,
    is_early: bool,
) -> Result<Text, DiskFault>
    requires clean { All (λ e. IsClean (inside folder.now e.0)) tree.now }
    requires within_reach { All (λ e. length (inside folder.now e.0) ≤ D.reach) tree.now }
{
    let before = disk.moment();
    put_tree(alloc, disk, folder, tree)?;
    let ticket = if is_early { before } else { disk.moment() };
    end(disk, ticket)?;
    let mut all = Text::new(alloc);
    for path in disk.list(alloc, "")?.as_slice() {
        all.push_str(path.as_str())?;
        all.push_str(" ")?;
    }
    Ok(all)
}

/// A value that threads may hand on, as those of a run do with its disk.
fn handed<T: Drop + Send>(value: T) -> T
    ensures { result ≡ value }
{
    value
}

/// That work in a folder of the disk, which comes back.
fn part<D: Disk + Drop + Send, K: Start + Send>(
    alloc: Global,
    disk: D,
    prefix: Text,
    folder: Text,
    tree: &Tree,
    is_early: bool,
) -> (Result<Text, DiskFault>, D)
    requires named { prefix ≡ K.prefix }
    requires place { IsPrefix K.prefix }
    requires room { length K.prefix ≤ min D.reach 4096 }
    requires start { D.tells → D.story disk ≡ K.start }
    requires counted { D.faults disk ≡ K.faults }
    requires settled { D.tells → IsSettledWhole K.start }
    requires clear { D.tells → IsReachable K.prefix K.start.held }
    requires clean { All (λ e. IsClean (inside folder e.0)) tree.now }
    requires within_reach { All (λ e. length (inside folder e.0) ≤ min D.reach 4096 - length K.prefix) tree.now }
    ensures { D.tells → (sub : Story) × GoesOn K.prefix K.start (D.story result.1) sub }
{
    let mut own = handed(SubDisk::<D, K>::over(alloc, disk, prefix));
    let found = work(alloc, &mut own, folder.as_str(), tree, is_early);
    (found, own.into_disk())
}

/// That work in a folder of a disk that is ready for it. Outside of the folder nothing changes.
fn in_ready<D: Disk + Drop + Send>(
    alloc: Global,
    disk: D,
    prefix: Text,
    folder: Text,
    tree: &Tree,
    is_early: bool,
) -> (Result<Text, DiskFault>, D)
    requires place { IsPrefix prefix }
    requires room { length prefix ≤ min D.reach 4096 }
    requires settled { D.tells → IsSettledWhole (D.story disk) }
    requires clear { D.tells → IsReachable prefix (D.story disk).held }
    requires clean { All (λ e. IsClean (inside folder e.0)) tree.now }
    requires within_reach { All (λ e. length (inside folder e.0) ≤ min D.reach 4096 - length prefix) tree.now }
    ensures { D.tells → Passes (D.story disk) (D.story result.1) (SameOutside prefix) }
{
    part::<D, Brand>(alloc, disk, prefix, folder, tree, is_early)
}

/// That work in the folder `place`, which is made ready first. Want of memory also where the paths are too long, or not clean.
fn in_folder<D: Disk + Drop + Send>(
    alloc: Global,
    mut disk: D,
    place: &str,
    folder: Text,
    tree: &Tree,
    is_early: bool,
) -> (Result<Text, DiskFault>, D)
    requires reach { 4096 ≤ D.reach }
{
    if !is_clean(place) || place.len() > 95 {
        return (Err(DiskFault::Memory), disk);
    }
    let Ok(true) = fits(alloc, folder.as_str(), tree, 4000) else {
        return (Err(DiskFault::Memory), disk);
    };
    let Ok(prefix) = joined(alloc, place, "") else {
        return (Err(DiskFault::Memory), disk);
    };
    match make_ready(alloc, &mut disk, place) {
        Ok(()) => in_ready(alloc, disk, prefix, folder, tree, is_early),
        Err(fault) => (Err(fault), disk),
    }
}

/// The paths that are held, each with a blank behind it.
fn paths(alloc: Global, disk: &MemDisk) -> Result<Text, Mem> {
    let mut all = Text::new(alloc);
    for (path, _) in disk.held() {
        all.push_str(path.as_str())?;
        all.push_str(" ")?;
    }
    Ok(all)
}

const BEFORE: &str = "mc/a/old mc/abc work/kept ";

const BEHIND: &str = "mc/a/old mc/a/out/a mc/a/out/b/c mc/abc work/kept ";

/// In a folder stands what the disk holds behind its path and a slash. What is done there is done on the disk, and nothing else; a ticket of before makes
/// nothing of it durable, and one of then all.
#[test]
fn folder_is_a_disk(rt: HostRuntime) -> Result<(), Fail> {
    let alloc = rt.alloc();
    let tree = tree(alloc)?;
    for (is_early, durable) in [(true, BEFORE), (false, BEHIND)] {
        let folder = Text::from_str(alloc, "out")?;
        let (found, disk) = in_folder(alloc, sample(alloc)?, "mc/a", folder, &tree, is_early);
        assert_eq!(rt; found?.as_str(), "old out/a out/b/c ");
        assert_eq!(rt; paths(alloc, &disk)?.as_str(), BEHIND);
        assert_eq!(rt; paths(alloc, &disk.image(0)?)?.as_str(), BEHIND);
        assert_eq!(rt; paths(alloc, &disk.image(1)?)?.as_str(), durable);
    }
    Ok(())
}

/// What stands at the folder's path or above it is in the way, and goes.
#[test]
fn folder_is_made_ready(rt: HostRuntime) -> Result<(), Fail> {
    let alloc = rt.alloc();
    let tree = tree(alloc)?;
    let folder = Text::from_str(alloc, "out")?;
    let (found, disk) = in_folder(
        alloc,
        sample(alloc)?,
        "work/kept/here",
        folder,
        &tree,
        false,
    );
    assert_eq!(rt; found?.as_str(), "out/a out/b/c ");
    assert_eq!(rt;
        paths(alloc, &disk)?.as_str(),
        "mc/a/old mc/abc work/kept/here/out/a work/kept/here/out/b/c "
    );
    Ok(())
}

/// Where a call of the disk fails the folder's disk fails, and outside of the folder all stays, whatever a crash leaves. (Three calls make the folder
/// ready; the work has a look at `out`, a list, two writes, the end of a ticket and a list.)
#[test]
fn folder_fails(rt: HostRuntime) -> Result<(), Fail> {
    let alloc = rt.alloc();
    let tree = tree(alloc)?;
    for which in 1..=10 {
        let folder = Text::from_str(alloc, "out")?;
        let faulty = FaultyDisk::failing_once(sample(alloc)?, which);
        let (found, disk) = in_folder(alloc, faulty, "mc/a", folder, &tree, false);
        let left = disk.into_disk();
        assert_eq!(rt; found.is_err(), which <= 9);
        for pick in [0, 1] {
            let held = paths(alloc, &left.image(pick)?)?;
            assert!(rt; held.as_str().ends_with("mc/abc work/kept "));
        }
    }
    Ok(())
}
