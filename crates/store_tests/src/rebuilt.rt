// A task whose work folder holds an earlier output.
ghost use Rattle.std.specs.Prelude.{IfOk};
ghost use Rattle.store_tests.specs.Samples.{IsSample};

use crate::asked::{empty, is_there, opened, publish};
use crate::samples::{AGAIN, ANEW, HELLO, Sample, Texts, file, sample_with};
use build_store::Store;
use outside_mem::MemDisk;
use std::alloc::Global;
use std::test::Fail;

/// A task of this signature, which gave three files, the first with this text.
fn sample(alloc: Global, sig: Texts, text: &[u8]) -> Result<Sample, Fail>
    ensures { IfOk result (λ made. IsSample made.task made.sig made.tree) }
{
    let mut files = Vec::new(alloc);
    files.push(file(alloc, "a", text)?)?;
    files.push(file(alloc, "b/c", b"text\n")?)?;
    files.push(file(alloc, "b/d", b"text\n")?)?;
    sample_with(alloc, sig, files)
}

/// How many calls of the disk publishing the sample makes, where it is there behind them.
fn calls(alloc: Global, store: &mut Store<MemDisk>, sample: &Sample) -> Option<u64>
    requires { IsSample sample.now.task sample.now.sig sample.now.tree }
{
    let before = store.moment();
    let published = publish(alloc, store, sample).is_ok();
    let after = store.moment();
    if published && is_there(alloc, store, sample) {
        return after.checked_sub(before);
    }
    None
}

/// An output that is held is read and not written, and of one of which one file is another, that file is written.
///
/// Either time the key, which is a new one, is written: 1 call. The old stamp is looked for and put aside, the ticket of that is ended, and it is removed: 4 calls. Three paths that may be in
/// the work folder's way and two that may be in the object's are read, and the list of each: 7. Record and stamp are staged, a ticket is ended
/// before each is renamed, and one behind that: 7. Three paths that may be in the stamp's way are read, and the list of what is below it: 4.
/// Between them, in the one case, three entries are read in the work folder, and three in the object, which is that of the first signature: 6.
/// In the other case three entries are read in each, and one is written in the work folder and three in the object, which is a new one: 10.
#[test]
fn what_is_held_is_not_written(rt: HostRuntime) -> Result<(), Fail> {
    let alloc = rt.alloc();
    let mut store = opened(alloc, empty(alloc)?)?;
    let first = sample(alloc, HELLO, b"text\n")?;
    let again = sample(alloc, AGAIN, b"text\n")?;
    let edited = sample(alloc, ANEW, b"other\n")?;
    assert!(rt; publish(alloc, &mut store, &first).is_ok());
    assert!(rt; calls(alloc, &mut store, &again) == Some(29));
    assert!(rt; calls(alloc, &mut store, &edited) == Some(33));
    Ok(())
}
