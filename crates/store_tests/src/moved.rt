// A store of the first format of records that is brought to the present one.
ghost use Rattle.std.specs.Prelude.{IfOk};
ghost use Rattle.outside_mem.specs.Told.{story_of};
ghost use Rattle.outside_traits.specs.Story.{IsFresh};

use crate::records::RECORD;
use crate::samples::{HELLO, file};
use config_build::{Upgraded, upgrade_config};
use outside_mem::{FaultyDisk, MemDisk};
use std::alloc::Global;
use std::test::Fail;
use tree_model::Entry;

/// The record of the worked task in the first format, under its name there.
const OLD_RECORD: &[u8] =
    b"6:bbrec1,92:6:bbsig1,5:hello,8:do_build,1;8:do_build,+27:    echo hello > hello.txt\n,0;1;4:func,1:1,0;0;,1;9:hello.txt,f6;64:5891b5b522d5df086d0ff0b110fbd9d21bb4fc7163af34d08286a2e846f6be03,64:eeeec58cdee951dd9059c6053e2d2dfd10f1a534908f27d6241ec8240ad759e9,";

const OLD_PATH: &str = "rec/eeeec58cdee951dd9059c6053e2d2dfd10f1a534908f27d6241ec8240ad759e9";

const OLD_STAMP: &[u8] = b"eeeec58cdee951dd9059c6053e2d2dfd10f1a534908f27d6241ec8240ad759e9\n";

const OLD_OBJECT: &str =
    "obj/eeeec58cdee951dd9059c6053e2d2dfd10f1a534908f27d6241ec8240ad759e9/hello.txt";

/// The places of what stands for it in the present format.
const PATH: &str = "rec2/617b1a5b401514b40f0e8ef3e84800e505c347f13fc45cdb203c8b4d93856c5e";

const KEY: &str = "key/43e50bb16432119eca694814ac2085a3cc481e21c1568579ed352fb3bb91c2cb";

const NEW_STAMP: &[u8] = b"617b1a5b401514b40f0e8ef3e84800e505c347f13fc45cdb203c8b4d93856c5e\n";

const OBJECT: &str =
    "obj/617b1a5b401514b40f0e8ef3e84800e505c347f13fc45cdb203c8b4d93856c5e/hello.txt";

const STAMP: &str = "stamp/hello/do_build";

const OUTPUT: &str = "work/hello/do_build/hello.txt";

/// More calls of the disk than a move makes.
const ALL: u64 = 1_000;

/// The store that a run of the worked task leaves in the first format, where its output is shared.
fn old_store(alloc: Global) -> Result<MemDisk, Fail>
    ensures { IfOk result (λ disk. IsFresh (story_of disk)) }
{
    let mut held = Vec::new(alloc);
    held.push(file(alloc, OLD_PATH, OLD_RECORD)?)?;
    held.push(file(alloc, STAMP, OLD_STAMP)?)?;
    held.push(file(alloc, OUTPUT, b"hello\n")?)?;
    held.push(file(alloc, OLD_OBJECT, b"hello\n")?)?;
    match MemDisk::new(alloc, held) {
        Ok(disk) => Ok(disk),
        Err(_) => Err(Fail::from("no disk")),
    }
}

/// Brings a store to the present format, over a disk that fails behind so many calls; whether that was well, and the disk.
fn moved(alloc: Global, disk: MemDisk, calls: u64) -> (bool, MemDisk)
    requires { IsFresh (story_of disk) }
{
    let disk = FaultyDisk::failing_after(disk, calls);
    let Upgraded { done, disk } = upgrade_config(alloc, disk, "");
    (done.is_ok(), disk.into_disk())
}

/// Whether a disk holds a file at a path.
fn holds(disk: &MemDisk, path: &str, wanted: &[u8]) -> bool {
    for (at, entry) in disk.held() {
        if at.as_str() == path {
            return match entry {
                Entry::File { exec, bytes } => !*exec && bytes.as_slice() == wanted,
                Entry::Link { .. } => false,
            };
        }
    }
    false
}

/// Whether a disk holds what the move of that store makes.
fn is_moved(disk: &MemDisk) -> bool {
    holds(disk, PATH, RECORD)
        && holds(disk, KEY, HELLO.1)
        && holds(disk, "format", b"2\n")
        && holds(disk, STAMP, NEW_STAMP)
        && holds(disk, OUTPUT, b"hello\n")
        && holds(disk, OBJECT, b"hello\n")
}

/// Whether a move that is stopped behind so many calls goes on, whatever of these a crash leaves; nothing where it wasn't stopped.
fn goes_on(alloc: Global, calls: u64) -> Result<Option<bool>, Fail> {
    let (done, disk) = moved(alloc, old_store(alloc)?, calls);
    if done {
        return Ok(None);
    }
    for pick in 0..8 {
        let (done, later) = moved(alloc, disk.image(pick)?, ALL);
        if !done || !is_moved(&later) {
            return Ok(Some(false));
        }
    }
    Ok(Some(true))
}

/// The record, its key and the file `format` stand behind a move, the stamp names the record, and the object stands under the new unihash, too. What is of the first format
/// stays until the next time.
#[test]
fn an_old_store_is_moved(rt: HostRuntime) -> Result<(), Fail> {
    let alloc = rt.alloc();
    let (done, disk) = moved(alloc, old_store(alloc)?, ALL);
    assert!(rt; done);
    assert!(rt; is_moved(&disk));
    assert!(rt; holds(&disk, OLD_PATH, OLD_RECORD));
    assert_eq!(rt; disk.held().len(), 8);
    let (done, later) = moved(alloc, disk.image(0)?, ALL);
    assert!(rt; done);
    assert!(rt; is_moved(&later));
    assert_eq!(rt; later.held().len(), 7);
    Ok(())
}

/// A move that is stopped behind any of its calls goes on, whatever of what wasn't synced a crash leaves.
#[test]
fn a_stopped_move_goes_on(rt: HostRuntime) -> Result<(), Fail> {
    let alloc = rt.alloc();
    for calls in 0..ALL {
        match goes_on(alloc, calls)? {
            Some(is_well) => assert!(rt; is_well),
            None => return Ok(()),
        }
    }
    Err(Fail::from("a move makes fewer calls"))
}
