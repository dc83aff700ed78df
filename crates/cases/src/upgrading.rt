// What a run finds on the disk: a store of the present format of records.
ghost use Rattle.outside_traits.specs.Story.{IsFresh};
ghost use Rattle.outside_mem.specs.Told.{story_of};

use crate::project::{Crash, Fails, copied};
use crate::wrong::Wrong;
use answer_model::Mode;
use command_words::{mode_of, read_words};
use config_build::{Upgraded, status_of_upgrade, upgrade_config};
use meta_model::Status;
use outside_mem::{FaultyDisk, MemDisk};
use outside_traits::Disk;
use std::alloc::Global;
use tree_model::{Entry, Text};

/// The folder of records in the first format.
const OLD: &str = "rec";

/// What came of bringing a store to the present format.
#[derive(Drop)]
pub struct Brought {
    /// Ok, or what a run answers in its place.
    pub status: Status,

    /// How many calls of the disk it took.
    pub calls: u64,

    /// What the disk holds behind it, or a crash left.
    pub held: Vec<(Text, Entry)>,
}

/// Whether words ask for a run.
pub fn is_run(alloc: Global, words: &[Text]) -> bool {
    match read_words(alloc, words) {
        Ok(request) => mode_of(&request) == Mode::Run,
        Err(_) => false,
    }
}

/// Whether a disk holds something of the first format of records.
pub fn is_old(held: &[(Text, Entry)]) -> bool {
    held.iter().any(|it| it.0.as_str() == OLD || it.0.as_str().starts_with("rec/"))
}

/// A disk on which calls fail, or that a crash ends.
pub fn stopped(disk: MemDisk, fails: &Fails, crash: Option<Crash>) -> FaultyDisk
    requires { IsFresh (story_of disk) }
{
    match crash {
        Some(crash) => FaultyDisk::failing_after(disk, crash.calls),
        None => FaultyDisk::failing_once(disk, fails.disk),
    }
}

/// What a disk holds, or a crash leaves.
pub fn left_on(
    alloc: Global,
    disk: &MemDisk,
    crash: Option<Crash>,
) -> Result<Vec<(Text, Entry)>, Wrong> {
    match crash {
        Some(crash) => copied(alloc, disk.image(crash.image)?.held()),
        None => copied(alloc, disk.held()),
    }
}

/// Brings a store to the present format over a disk on which calls fail, or that a crash ends.
pub fn bring_up(
    alloc: Global,
    disk: MemDisk,
    fails: &Fails,
    crash: Option<Crash>,
) -> Result<Brought, Wrong>
    requires { IsFresh (story_of disk) }
{
    let disk = stopped(disk, fails, crash);
    let Upgraded { done, disk } = upgrade_config(alloc, disk, "");
    let calls = disk.moment();
    let disk = disk.into_disk();
    match done {
        Ok(()) => Ok(Brought {
            status: Status::Ok,
            calls,
            held: copied(alloc, disk.held())?,
        }),
        Err(fault) => Ok(Brought {
            status: status_of_upgrade(alloc, fault),
            calls,
            held: match crash {
                Some(crash) => copied(alloc, disk.image(crash.image)?.held())?,
                None => copied(alloc, disk.held())?,
            },
        }),
    }
}
