// Tickets of disks in memory, and the waits of benches.
ghost use Rattle.std.specs.Prelude.{◌≤◌, All};
ghost use Rattle.tree_model.specs.Path.{IsClean, inside};

use crate::disk_tests::{fits, tree};
use crate::samples::only;
use outside_mem::{FaultyDisk, GateBench, MemBench, MemDisk, ScriptTable};
use outside_traits::{Bench, Disk, DiskFault, put_tree};
use std::alloc::Global;
use std::process::Abort;
use std::test::Fail;
use tree_model::{Mem, Text, Tree, TreeFault};

/// A disk that holds nothing.
fn empty(alloc: Global) -> Result<MemDisk, TreeFault> {
    MemDisk::new(alloc, Vec::new(alloc))
}

/// Puts the tree into two folders, one after the other, and gives the moment between them.
fn put_both<D: Disk>(
    alloc: Global,
    disk: &mut D,
    first: &str,
    second: &str,
    tree: &Tree,
) -> Result<u64, DiskFault>
    requires reach { 4096 ≤ D.reach }
    requires first { All (λ e. IsClean (inside first.now e.0)) tree.now }
    requires second { All (λ e. IsClean (inside second.now e.0)) tree.now }
{
    put_tree(alloc, disk, first, tree)?;
    let ticket = disk.moment();
    put_tree(alloc, disk, second, tree)?;
    Ok(ticket)
}

/// Ends a ticket that isn't of the future. Whether it isn't.
fn end<D: Disk>(disk: &mut D, ticket: u64, done: bool) -> Result<bool, DiskFault> {
    if ticket > disk.moment() {
        return Ok(false);
    }
    disk.end_sync(ticket, done)?;
    Ok(true)
}

/// What the bench's next wait answers.
fn waits<B: Bench>(bench: &mut B) -> bool {
    bench.wait_synced()
}

/// The paths that are held, each with a blank behind it.
fn paths(alloc: Global, disk: &MemDisk) -> Result<Text, Mem> {
    let mut all = Text::new(alloc);
    for (path, _) in disk.held() {
        all.push_str(path.as_str())?;
        all.push_str(" ")?;
    }
    Ok(all)
}

const FIRST: &str = "first/a first/b/c ";

const BOTH: &str = "first/a first/b/c second/a second/b/c ";

/// In one image all that isn't durable is gone, in another all of it is there.
fn assert_images<R: Abort>(
    rt: &R,
    alloc: Global,
    disk: &MemDisk,
    durable: &str,
) -> Result<(), Fail> {
    assert_eq!(rt; paths(alloc, &disk.image(1)?)?.as_str(), durable);
    assert_eq!(rt; paths(alloc, &disk.image(0)?)?.as_str(), BOTH);
    Ok(())
}

/// The end of a ticket makes durable what was called up to it, and nothing behind. One of an older moment changes nothing, before
/// the end of a newer one and behind it.
#[test]
fn tickets_make_durable(rt: HostRuntime) -> Result<(), Fail> {
    let alloc = rt.alloc();
    let tree = tree(alloc)?;
    assert!(rt; fits(alloc, "first", &tree)?);
    assert!(rt; fits(alloc, "second", &tree)?);
    let mut disk = empty(alloc)?;
    let ticket = put_both(alloc, &mut disk, "first", "second", &tree)?;
    let last = disk.moment();
    assert_images(&rt, alloc, &disk, "")?;
    for (moment, durable) in [
        (0, ""),
        (ticket, FIRST),
        (0, FIRST),
        (last, BOTH),
        (ticket, BOTH),
    ] {
        assert!(rt; end(&mut disk, moment, true)?);
        assert_images(&rt, alloc, &disk, durable)?;
    }
    assert_eq!(rt; disk.moment(), last.saturating_add(5));
    Ok(())
}

/// The second wait answers that the system has written nothing. In memory the end of its ticket is one as any other.
#[test]
fn waits_answer(rt: HostRuntime) -> Result<(), Fail> {
    let alloc = rt.alloc();
    let tree = tree(alloc)?;
    assert!(rt; fits(alloc, "first", &tree)?);
    assert!(rt; fits(alloc, "second", &tree)?);
    let mut table = ScriptTable::new(alloc, Vec::new(alloc), Vec::new(alloc));
    assert!(rt; waits(&mut table));
    table.fail_waits(only(alloc, 2)?);
    let mut bench = GateBench::open(table);
    for want in [true, false, true] {
        let mut disk = empty(alloc)?;
        let ticket = put_both(alloc, &mut disk, "first", "second", &tree)?;
        let done = waits(&mut bench);
        assert_eq!(rt; done, want);
        assert!(rt; end(&mut disk, ticket, done)?);
        assert_images(&rt, alloc, &disk, FIRST)?;
    }
    assert!(rt; waits(&mut MemBench::new(alloc)));
    Ok(())
}

/// A disk that fails at the end of a ticket has made nothing durable, and the next end does.
#[test]
fn ends_fail(rt: HostRuntime) -> Result<(), Fail> {
    let alloc = rt.alloc();
    let tree = tree(alloc)?;
    assert!(rt; fits(alloc, "first", &tree)?);
    assert!(rt; fits(alloc, "second", &tree)?);
    let mut whole = empty(alloc)?;
    let _ = put_both(alloc, &mut whole, "first", "second", &tree)?;
    let calls = whole.moment();
    let mut disk = FaultyDisk::failing_once(empty(alloc)?, calls.saturating_add(1));
    let ticket = put_both(alloc, &mut disk, "first", "second", &tree)?;
    assert_eq!(rt; end(&mut disk, ticket, true), Err(DiskFault::Failed));
    assert!(rt; end(&mut disk, 0, true)?);
    let mut left = disk.into_disk();
    assert_images(&rt, alloc, &left, "")?;
    assert!(rt; end(&mut left, ticket, true)?);
    assert_images(&rt, alloc, &left, FIRST)
}
