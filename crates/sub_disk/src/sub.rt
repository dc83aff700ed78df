// A disk over a folder of another disk.
ghost use Rattle.std.specs.Prelude.{◌≡◌, ◌≤◌, ◌-◌, ◌^◌, min, List, ℕ, length};
ghost use Rattle.outside_traits.specs.Story.{Story, moment as moment_of};
ghost use Rattle.sub_disk.specs.Sub.{FaultsSince, GoesOn, IsPlace, IsPrefix, IsReachable, IsKept, IsSettledWhole, shown, sub_story};

use crate::cut::{cut_list, is_list_lost, joined};
use crate::tally::{calls_after, faults_after, room_for};
use outside_traits::{Disk, DiskFault};
use std::alloc::Global;
use std::marker::{Brand, PhantomData};
use tree_model::{Entry, Text, Texts};

/// From where a disk over a folder goes on: the folder's paths begin with `prefix`, and the other disk had the story `start` and `faults` faults.
pub trait Start {
    ghost prefix: { List ℕ };

    ghost start: { Story };

    ghost faults: { ℕ };
}

impl Start for Brand {
    ghost use Rattle.std.specs.Prelude.{[], None};

    ghost prefix = { [] };

    ghost start = { record { held = λ path. None; calls = [] } };

    ghost faults = { 0 };
}

/// A disk over a folder of another disk: what stands in the folder, with a story and a count of faults of its own.
///
/// A call is refused for want of memory also where 2^64 - 1 were made, where a ticket's moment is beyond that number on the other disk, and behind a
/// list that was refused when the other disk had answered it. (Own rule.)
#[derive(Drop)]
pub struct SubDisk<D: Disk, K: Start> {
    alloc: Global,
    disk: D,

    /// The paths of the folder begin with it.
    prefix: Text,

    /// The other disk's moment at the start, as far as a `u64` goes.
    begin: u64,

    /// The calls that were answered.
    made: u64,
    faults: u64,

    /// Whether memory was wanting for a list behind the other disk's answer.
    is_spent: bool,
    of: PhantomData<K>,
    ghost named: { prefix ≡ K.prefix },
    ghost place: { IsPlace K.prefix },
    ghost room: { length K.prefix ≤ min D.reach 4096 },
    ghost begun: { D.tells → begin ≡ min (moment_of K.start) (2 ^ 64 - 1) },
    ghost counts: { FaultsSince K.faults (D.faults disk) faults },
    ghost kept: { D.tells → IsKept K.prefix made is_spent K.start (D.story disk) },
}

impl<D: Disk, K: Start> SubDisk<D, K> {
    /// A disk over the folder whose paths begin with the prefix, from where the other disk stands. All that this holds is there for good, and nothing
    /// is held at the folder's own path or above it (`make_ready`).
    pub fn over(alloc: Global, disk: D, prefix: Text) -> SubDisk<D, K>
        requires named { prefix ≡ K.prefix }
        requires place { IsPrefix K.prefix }
        requires room { length K.prefix ≤ min D.reach 4096 }
        requires start { D.tells → D.story disk ≡ K.start }
        requires counted { D.faults disk ≡ K.faults }
        requires settled { D.tells → IsSettledWhole K.start }
        requires clear { D.tells → IsReachable K.prefix K.start.held }
        ensures fresh { D.tells → ⟦<SubDisk<D, K> as Disk>⟧.story result
            ≡ sub_story K.prefix (moment_of K.start) 0 K.start }
        ensures faults { ⟦<SubDisk<D, K> as Disk>⟧.faults result ≡ 0 }
    {
        let begin = disk.moment();
        SubDisk {
            alloc,
            disk,
            prefix,
            begin,
            made: 0,
            faults: 0,
            is_spent: false,
            of: PhantomData,
        }
    }

    /// The other disk. Where the folder's disk has failed its count of faults rose, and else it stands as at the start.
    pub fn into_disk(self) -> D
        ensures goes_on { D.tells → GoesOn K.prefix K.start (D.story result) (⟦<SubDisk<D, K> as Disk>⟧.story self) }
        ensures faults { FaultsSince K.faults (D.faults result) (⟦<SubDisk<D, K> as Disk>⟧.faults self) }
    {
        let SubDisk {
            alloc: _,
            disk,
            prefix: _,
            begin: _,
            made: _,
            faults: _,
            is_spent: _,
            of: _,
        } = self;
        disk
    }
}

impl<D: Disk, K: Start> Disk for SubDisk<D, K> {
    ghost tells = { D.tells };

    ghost reach = { min D.reach 4096 - length K.prefix };

    ghost faults = { λ s. s.faults };

    ghost story = { λ s. sub_story K.prefix (moment_of K.start) s.made (shown s.is_spent (D.story s.disk)) };

    ghost sound = { λ s told. (s.kept told).lawful };

    fn read(&mut self, alloc: Global, path: &str) -> Result<Option<Entry>, DiskFault> {
        room_for(self.made, self.is_spent)?;
        let whole = joined(self.alloc, self.prefix.as_str(), path)?;
        let answer = self.disk.read(alloc, whole.as_str());
        self.made = calls_after(self.made, &answer);
        self.faults = faults_after(self.faults, &answer);
        answer
    }

    fn write(&mut self, path: &str, entry: &Entry) -> Result<(), DiskFault> {
        room_for(self.made, self.is_spent)?;
        let whole = joined(self.alloc, self.prefix.as_str(), path)?;
        let answer = self.disk.write(whole.as_str(), entry);
        self.made = calls_after(self.made, &answer);
        self.faults = faults_after(self.faults, &answer);
        answer
    }

    fn rename(&mut self, from: &str, to: &str) -> Result<(), DiskFault> {
        room_for(self.made, self.is_spent)?;
        let source = joined(self.alloc, self.prefix.as_str(), from)?;
        let target = joined(self.alloc, self.prefix.as_str(), to)?;
        let answer = self.disk.rename(source.as_str(), target.as_str());
        self.made = calls_after(self.made, &answer);
        self.faults = faults_after(self.faults, &answer);
        answer
    }

    fn remove(&mut self, path: &str) -> Result<(), DiskFault> {
        room_for(self.made, self.is_spent)?;
        let whole = joined(self.alloc, self.prefix.as_str(), path)?;
        let answer = self.disk.remove(whole.as_str());
        self.made = calls_after(self.made, &answer);
        self.faults = faults_after(self.faults, &answer);
        answer
    }

    fn list(&mut self, alloc: Global, prefix: &str) -> Result<Texts, DiskFault> {
        room_for(self.made, self.is_spent)?;
        let whole = joined(self.alloc, self.prefix.as_str(), prefix)?;
        let listed = self.disk.list(alloc, whole.as_str());
        let names = cut_list(alloc, self.prefix.as_str(), &listed);
        self.is_spent = is_list_lost(&listed, &names);
        self.made = calls_after(self.made, &names);
        self.faults = faults_after(self.faults, &names);
        names
    }

    fn sync(&mut self) -> Result<(), DiskFault> {
        room_for(self.made, self.is_spent)?;
        let answer = self.disk.sync();
        self.made = calls_after(self.made, &answer);
        self.faults = faults_after(self.faults, &answer);
        answer
    }

    fn end_sync(&mut self, moment: u64, done: bool) -> Result<(), DiskFault> {
        room_for(self.made, self.is_spent)?;
        let Some(there) = self.begin.checked_add(moment) else {
            return Err(DiskFault::Memory);
        };
        let answer = self.disk.end_sync(there, done);
        self.made = calls_after(self.made, &answer);
        self.faults = faults_after(self.faults, &answer);
        answer
    }

    fn moment(&self) -> u64 {
        self.made
    }
}
