// Two publications that are open at once.
ghost use Rattle.store_tests.specs.Samples.{IsSample};

use crate::asked::{begin, empty, is_honest, is_there, opened};
use crate::samples::{HELLO, MORE, Sample, sample_from};
use build_store::Store;
use outside_mem::MemDisk;
use std::alloc::Global;
use std::test::Fail;

/// How many steps one publication of one file takes: one for its two entries, one to stage, one for the record, one for the stamp, and the last one.
const STEPS: u64 = 5;

/// Opens the sample's publication.
fn begins(alloc: Global, store: &mut Store<MemDisk>, sample: &Sample) -> Result<(), Fail>
    requires { IsSample sample.now.task sample.now.sig sample.now.tree }
{
    match begin(alloc, store, sample) {
        Ok(true) => Ok(()),
        Ok(false) | Err(_) => Err(Fail::from("not begun")),
    }
}

/// Takes a step of the sample's publication.
fn steps(alloc: Global, store: &mut Store<MemDisk>, sample: &Sample) -> Result<(), Fail>
    requires { IsSample sample.now.task sample.now.sig sample.now.tree }
{
    match store.publish_step(alloc, &sample.task, &sample.sig, true) {
        Ok(_) => Ok(()),
        Err(_) => Err(Fail::from("no step")),
    }
}

/// The disk behind so many steps of two publications, each of which has every other one.
fn disk_behind(alloc: Global, one: &Sample, other: &Sample, count: u64) -> Result<MemDisk, Fail>
    requires one { IsSample one.now.task one.now.sig one.now.tree }
    requires other { IsSample other.now.task other.now.sig other.now.tree }
{
    let mut store = opened(alloc, empty(alloc)?)?;
    begins(alloc, &mut store, one)?;
    begins(alloc, &mut store, other)?;
    for i in 0..count {
        if i % 2 == 0 {
            steps(alloc, &mut store, one)?;
        } else {
            steps(alloc, &mut store, other)?;
        }
    }
    Ok(store.into_disk())
}

/// Whether what a crash leaves tells of neither sample what isn't there.
fn is_left(
    alloc: Global,
    disk: &MemDisk,
    pick: u64,
    one: &Sample,
    other: &Sample,
) -> Result<bool, Fail> {
    let mut store = opened(alloc, disk.image(pick)?)?;
    Ok(is_honest(alloc, &mut store, one) && is_honest(alloc, &mut store, other))
}

/// Whether all is well behind so many steps, whatever of these a crash leaves.
fn is_well(alloc: Global, one: &Sample, other: &Sample, count: u64) -> Result<bool, Fail>
    requires one { IsSample one.now.task one.now.sig one.now.tree }
    requires other { IsSample other.now.task other.now.sig other.now.tree }
{
    let disk = disk_behind(alloc, one, other, count)?;
    for pick in 0..8 {
        if !is_left(alloc, &disk, pick, one, other)? {
            return Ok(false);
        }
    }
    Ok(true)
}

/// Two publications go by turns; whatever a crash leaves behind each step is true, and behind the last one both are there.
#[test]
fn two_go_by_turns(rt: HostRuntime) -> Result<(), Fail> {
    let alloc = rt.alloc();
    let one = sample_from(alloc, HELLO, "hello.txt", b"hello\n")?;
    let other = sample_from(alloc, MORE, "more.txt", b"more\n")?;
    for count in 0..2 * STEPS {
        assert!(rt; is_well(alloc, &one, &other, count)?);
    }
    let disk = disk_behind(alloc, &one, &other, 2 * STEPS)?;
    let mut store = opened(alloc, disk.image(0)?)?;
    assert!(rt; is_there(alloc, &mut store, &one));
    assert!(rt; is_there(alloc, &mut store, &other));
    Ok(())
}
