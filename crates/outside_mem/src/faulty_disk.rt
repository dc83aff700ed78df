// A disk in memory of which calls fail.
ghost use Rattle.std.specs.Prelude.{◌≡◌, ◌≤◌, ◌-◌, length, nat_eq, true, false};
ghost use Rattle.tree_model.specs.Path.{IsClean};
ghost use Rattle.outside_traits.specs.Answers.{Ends, IsSettled, Lists, Reads, Removes, Renames, Syncs, Writes};
ghost use Rattle.outside_traits.specs.Fault.{Counts, disk_failed};
ghost use Rattle.outside_traits.specs.Store.{IsFree};
ghost use Rattle.outside_traits.specs.Story.{moment as moment_of};
ghost use Rattle.outside_mem.specs.Spends.{Spends};

use crate::MemDisk;
use crate::plan::count_fault;
use outside_traits::{Disk, DiskFault};
use std::alloc::Global;
use tree_model::{Entry, Texts};

/// A disk that fails some calls, by their numbers: just one of them, or each from one on. A call that failed has changed nothing,
/// and is a moment as any other.
#[derive(Drop)]
pub struct FaultyDisk {
    disk: MemDisk,
    left: u64,
    due: u64,
    faults: u64,
}

impl FaultyDisk {
    ghost use Rattle.outside_mem.specs.Told.{disk_faults, disk_of, due_at, left_of};

    /// The disk, of which the call with the number `which` fails, from 1. With 0 none does.
    pub fn failing_once(disk: MemDisk, which: u64) -> FaultyDisk
        ensures disk { disk_of result ≡ disk }
        ensures left { left_of result ≡ which }
        ensures due { due_at result ≡ 1 }
        ensures fresh { disk_faults result ≡ 0 }
    {
        FaultyDisk {
            disk,
            left: which,
            due: 1,
            faults: 0,
        }
    }

    /// The disk, of which that many calls pass and all later ones fail.
    pub fn failing_after(disk: MemDisk, calls: u64) -> FaultyDisk
        ensures disk { disk_of result ≡ disk }
        ensures left { left_of result ≡ calls }
        ensures due { due_at result ≡ 0 }
        ensures fresh { disk_faults result ≡ 0 }
    {
        FaultyDisk {
            disk,
            left: calls,
            due: 0,
            faults: 0,
        }
    }

    /// The disk as it is now.
    pub fn into_disk(self) -> MemDisk
        ensures { result ≡ disk_of self }
    {
        self.disk
    }

    /// Counts a call, and says whether it is to fail.
    fn is_to_fail(&mut self) -> bool
        ensures disk { disk_of self.new ≡ disk_of self.old }
        ensures faults { disk_faults self.new ≡ disk_faults self.old }
        ensures left { left_of self.new ≡ left_of self.old - 1 }
        ensures kept { due_at self.new ≡ due_at self.old }
        ensures due { result ≡ nat_eq (left_of self.old) (due_at self.old) }
    {
        let fails = self.left == self.due;
        self.left = self.left.saturating_sub(1);
        fails
    }

    /// Counts a fault.
    fn fault(&mut self) -> DiskFault
        ensures failed { result ≡ DiskFault.Failed }
        ensures disk { disk_of self.new ≡ disk_of self.old }
        ensures left { left_of self.new ≡ left_of self.old }
        ensures kept { due_at self.new ≡ due_at self.old }
        ensures cause { Counts (disk_faults self.old) (disk_faults self.new) true }
    {
        count_fault(&mut self.faults);
        DiskFault::Failed
    }
}

impl Disk for FaultyDisk {
    ghost use Rattle.outside_mem.specs.Told.{disk_faults, disk_of, story_of};

    ghost tells = { Unit {0} };

    ghost reach = { 4096 };

    ghost faults = { disk_faults };

    ghost story = { λ d. story_of (disk_of d) };

    ghost sound = { λ d told. d.disk.sound };

    fn read(&mut self, alloc: Global, path: &str) -> Result<Option<Entry>, DiskFault>
        ensures told { Reads path.now (story_of (disk_of self.old)) (story_of (disk_of self.new)) result }
        ensures cause { Counts (disk_faults self.old) (disk_faults self.new) (disk_failed result) }
        ensures spends { Spends self.old self.new result }
    {
        if self.is_to_fail() {
            self.disk.note_look()?;
            return Err(self.fault());
        }
        self.disk.read(alloc, path)
    }

    fn write(&mut self, path: &str, entry: &Entry) -> Result<(), DiskFault>
        requires clean { IsClean path.now }
        requires within_reach { length path.now ≤ 4096 }
        requires free { IsFree (story_of (disk_of self.old)).held path.now }
        ensures told { Writes path.now entry.now (story_of (disk_of self.old)) (story_of (disk_of self.new)) result }
        ensures cause { Counts (disk_faults self.old) (disk_faults self.new) (disk_failed result) }
        ensures spends { Spends self.old self.new result }
    {
        if self.is_to_fail() {
            self.disk.note_put(path)?;
            return Err(self.fault());
        }
        self.disk.write(path, entry)
    }

    fn rename(&mut self, from: &str, to: &str) -> Result<(), DiskFault>
        requires settled { IsSettled from.now (story_of (disk_of self.old)) }
        requires clean { IsClean to.now }
        requires within_reach { length to.now ≤ 4096 }
        requires free { IsFree (story_of (disk_of self.old)).held to.now }
        ensures told { Renames from.now to.now (story_of (disk_of self.old)) (story_of (disk_of self.new)) result }
        ensures cause { Counts (disk_faults self.old) (disk_faults self.new) (disk_failed result) }
        ensures spends { Spends self.old self.new result }
    {
        if self.is_to_fail() {
            self.disk.note_move(from, to)?;
            return Err(self.fault());
        }
        self.disk.rename(from, to)
    }

    fn remove(&mut self, path: &str) -> Result<(), DiskFault>
        ensures told { Removes path.now (story_of (disk_of self.old)) (story_of (disk_of self.new)) result }
        ensures cause { Counts (disk_faults self.old) (disk_faults self.new) (disk_failed result) }
        ensures spends { Spends self.old self.new result }
    {
        if self.is_to_fail() {
            self.disk.note_put(path)?;
            return Err(self.fault());
        }
        self.disk.remove(path)
    }

    fn list(&mut self, alloc: Global, prefix: &str) -> Result<Texts, DiskFault>
        ensures told { Lists prefix.now (story_of (disk_of self.old)) (story_of (disk_of self.new)) result }
        ensures cause { Counts (disk_faults self.old) (disk_faults self.new) (disk_failed result) }
        ensures spends { Spends self.old self.new result }
    {
        if self.is_to_fail() {
            self.disk.note_look()?;
            return Err(self.fault());
        }
        self.disk.list(alloc, prefix)
    }

    fn sync(&mut self) -> Result<(), DiskFault>
        ensures told { Syncs (story_of (disk_of self.old)) (story_of (disk_of self.new)) result }
        ensures cause { Counts (disk_faults self.old) (disk_faults self.new) (disk_failed result) }
        ensures spends { Spends self.old self.new result }
    {
        if self.is_to_fail() {
            self.disk.note_look()?;
            return Err(self.fault());
        }
        self.disk.sync()
    }

    fn end_sync(&mut self, moment: u64, done: bool) -> Result<(), DiskFault>
        requires past { moment ≤ moment_of (story_of (disk_of self.old)) }
        ensures told { Ends moment (story_of (disk_of self.old)) (story_of (disk_of self.new)) result }
        ensures cause { Counts (disk_faults self.old) (disk_faults self.new) (disk_failed result) }
        ensures spends { Spends self.old self.new result }
    {
        if self.is_to_fail() {
            self.disk.note_look()?;
            return Err(self.fault());
        }
        self.disk.end_sync(moment, done)
    }

    fn moment(&self) -> u64 {
        self.disk.moment()
    }
}
