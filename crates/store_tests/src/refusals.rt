// What a store refuses.
ghost use Rattle.store_tests.specs.Samples.{IsSample};

use crate::asked::{empty, is_there, opened, publish, publish_over};
use crate::samples::{HELLO, Sample, sample_from};
use build_store::{Store, StoreFault};
use outside_mem::MemDisk;
use std::alloc::Global;
use std::test::Fail;

/// Whether the store refuses to publish the sample, since its task gave something else before.
fn tells_unsteady(alloc: Global, store: &mut Store<MemDisk>, sample: &Sample) -> bool
    requires { IsSample sample.now.task sample.now.sig sample.now.tree }
{
    let refused = publish(alloc, store, sample);
    matches!(refused, Err(StoreFault::Unsteady { .. }))
}

/// Whether a store that has the first sample refuses the other one, and has the first sample then.
fn refuses(alloc: Global, first: &Sample, again: &Sample) -> Result<bool, Fail>
    requires first { IsSample first.now.task first.now.sig first.now.tree }
    requires again { IsSample again.now.task again.now.sig again.now.tree }
{
    let disk = publish_over(alloc, empty(alloc)?, first);
    let mut store = opened(alloc, disk.image(0)?)?;
    Ok(tells_unsteady(alloc, &mut store, again) && is_there(alloc, &mut store, first))
}

/// Another output of one signature. (Two signatures of one name nobody has: `rows` shows what an index makes of them.)
#[test]
fn what_differs_is_refused(rt: HostRuntime) -> Result<(), Fail> {
    let first = sample_from(rt.alloc(), HELLO, "hello.txt", b"hello\n")?;
    let again = sample_from(rt.alloc(), HELLO, "hello.txt", b"hallo\n")?;
    assert!(rt; refuses(rt.alloc(), &first, &again)?);
    Ok(())
}
