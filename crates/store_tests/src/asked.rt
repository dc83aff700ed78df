// Stores over disks in memory, and what they have of a sample.
ghost use Rattle.std.specs.Prelude.{◌≡◌, ◌≤◌, IfOk, []};
ghost use Rattle.outside_mem.specs.Told.{story_of};
ghost use Rattle.outside_traits.specs.Story.{IsFresh};
ghost use Rattle.store_tests.specs.Samples.{IsSample};

use crate::samples::Sample;
use build_store::{Ahead, Known, Step, Store, StoreFault, open_store};
use meta_model::Avail;
use outside_mem::MemDisk;
use outside_traits::Disk;
use std::alloc::Global;
use std::test::Fail;
use tree_model::{Entry, Hash, Text, manifest_of, matches};

/// A disk that holds nothing.
pub fn empty(alloc: Global) -> Result<MemDisk, Fail>
    ensures { IfOk result (λ disk. IsFresh (story_of disk)) }
{
    match MemDisk::new(alloc, Vec::new(alloc)) {
        Ok(disk) => Ok(disk),
        Err(_) => Err(Fail::from("no disk")),
    }
}

/// The store that a disk holds.
pub fn opened(alloc: Global, disk: MemDisk) -> Result<Store<MemDisk>, Fail>
    requires { IsFresh (story_of disk) }
    ensures { IfOk result (λ store. store.kept ≡ []) }
{
    opened_beside(alloc, disk, Vec::new(alloc), Vec::new(alloc))
}

/// The same, where one thread left what these files say, records and keys.
pub fn opened_beside(
    alloc: Global,
    disk: MemDisk,
    records: Vec<(Text, Entry)>,
    keys: Vec<(Text, Entry)>,
) -> Result<Store<MemDisk>, Fail>
    requires { IsFresh (story_of disk) }
    ensures { IfOk result (λ store. store.kept ≡ []) }
{
    let ahead = Ahead::none();
    ahead.put(Known::of_files(alloc, records, keys)?);
    match open_store(alloc, disk, &ahead) {
        Ok(store) => Ok(store),
        Err(_) => Err(Fail::from("not opened")),
    }
}

/// Opens the sample's publication, unless one of its task is open.
pub fn begin<D: Disk>(
    alloc: Global,
    store: &mut Store<D>,
    sample: &Sample,
) -> Result<bool, StoreFault>
    requires reach { 3600 ≤ D.reach }
    requires sample { IsSample sample.now.task sample.now.sig sample.now.tree }
{
    if store.is_open(&sample.task) {
        return Ok(false);
    }
    let manifest = manifest_of(alloc, &sample.tree)?;
    let tree = sample.tree.copy()?;
    store.publish_open(alloc, &sample.task, &sample.sig, tree, &manifest)
}

/// Takes the steps of the sample's publication, as many as it can want.
fn finish<D: Disk>(alloc: Global, store: &mut Store<D>, sample: &Sample) -> Result<Hash, StoreFault>
    requires reach { 3600 ≤ D.reach }
    requires sample { IsSample sample.now.task sample.now.sig sample.now.tree }
{
    for _ in 0..1000 {
        match store.publish_step(alloc, &sample.task, &sample.sig, true)? {
            Step::Done(unihash) => return Ok(unihash),
            Step::NotOpen | Step::More | Step::Wait => {}
        }
    }
    Err(StoreFault::Memory)
}

/// Publishes the sample: opens its publication, and takes all of its steps.
pub fn publish<D: Disk>(
    alloc: Global,
    store: &mut Store<D>,
    sample: &Sample,
) -> Result<Hash, StoreFault>
    requires reach { 3600 ≤ D.reach }
    requires sample { IsSample sample.now.task sample.now.sig sample.now.tree }
{
    if !begin(alloc, store, sample)? {
        return Err(StoreFault::Memory);
    }
    finish(alloc, store, sample)
}

/// Opens a disk and publishes the sample there, and gives the disk behind it.
pub fn publish_over<D: Disk>(alloc: Global, disk: D, sample: &Sample) -> D
    requires reach { 3600 ≤ D.reach }
    requires fresh { D.tells → IsFresh (D.story disk) }
    requires sample { IsSample sample.now.task sample.now.sig sample.now.tree }
{
    match open_store(alloc, disk, &Ahead::none()) {
        Ok(store) => {
            let mut store = store;
            let _ = publish(alloc, &mut store, sample);
            store.into_disk()
        }
        Err(refused) => refused.disk,
    }
}

/// How the sample's output is there.
fn there(alloc: Global, store: &mut Store<MemDisk>, sample: &Sample) -> Option<Avail> {
    store
        .available(alloc, &sample.task, &sample.sig, false)
        .ok()
}

/// Whether the sample's work folder holds its tree.
fn has_output(alloc: Global, store: &mut Store<MemDisk>, sample: &Sample) -> bool {
    match (
        manifest_of(alloc, &sample.tree),
        store.output(alloc, &sample.task),
    ) {
        (Ok(manifest), Ok(Some(tree))) => matches(&tree, &manifest),
        _ => false,
    }
}

/// Whether the sample is there by its work folder only where that holds its tree.
pub fn is_honest(alloc: Global, store: &mut Store<MemDisk>, sample: &Sample) -> bool {
    there(alloc, store, sample) != Some(Avail::Work) || has_output(alloc, store, sample)
}

/// Whether the sample is there by its work folder, which holds its tree.
pub fn is_there(alloc: Global, store: &mut Store<MemDisk>, sample: &Sample) -> bool {
    there(alloc, store, sample) == Some(Avail::Work) && has_output(alloc, store, sample)
}
