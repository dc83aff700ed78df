// The disk: a map from clean paths to entries, none above another.
ghost use Rattle.std.specs.Prelude.{◌≡◌, ◌≤◌, ◌^◌, ◌-◌, min, List, ℕ, length};
ghost use Rattle.tree_model.specs.Path.{IsClean};
ghost use Rattle.outside_traits.specs.Store.{IsFree};
ghost use Rattle.outside_traits.specs.Story.{Story, IsSound, moment as moment_of};
ghost use Rattle.outside_traits.specs.Answers.{Reads, Lists, Writes, Renames, Removes, Syncs, Ends, IsSettled};
ghost use Rattle.outside_traits.specs.Fault.{Counts, disk_failed};

use crate::DiskFault;
use std::alloc::Global;
use tree_model::{Entry, Texts};

/// A map from clean paths to entries, in which no path is a proper ancestor of another.
///
/// What is built is kept on one. A crash leaves an image of it: `specs/Story.antt` has the model. Moments are numbers of
/// calls. Every call answers `Failed` only where the count of faults rose in it, and leaves
/// the count as it was with any other answer. A call that is refused for want of memory changes nothing, and is no moment.
/// (Own rule: no part of the BitBake User Manual.)
pub trait Disk {
    /// Disks of this type tell what they hold. One over a real folder tells nothing.
    ghost tells: { Type 0 };

    /// The most bytes of a path that is written. It never changes.
    ghost reach: { ℕ };

    /// How often the disk has failed, up to 2^64 - 1.
    ghost faults: { Self → ℕ };

    /// What is held, and the calls so far.
    ghost story: { Self → Story };

    /// What the path holds.
    fn read(&mut self, alloc: Global, path: &str) -> Result<Option<Entry>, DiskFault>
        ensures told { tells → Reads path.now (story self.old) (story self.new) result }
        ensures cause { Counts (faults self.old) (faults self.new) (disk_failed result) };

    /// Puts a whole entry at a path, in place of one that is held there. After `Failed` the path holds any entry or
    /// nothing.
    fn write(&mut self, path: &str, entry: &Entry) -> Result<(), DiskFault>
        requires clean { IsClean path.now }
        requires within_reach { length path.now ≤ reach }
        requires free { tells → IsFree (story self.old).held path.now }
        ensures told { tells → Writes path.now entry.now (story self.old) (story self.new) result }
        ensures cause { Counts (faults self.old) (faults self.new) (disk_failed result) };

    /// Moves the entry of `from` to `to`, in place of one that is held there. What moves must be on the disk for good:
    /// held, and as it is held whatever a crash leaves now. A crash leaves `to` with its whole old or its whole new entry.
    /// After `Failed` too; and `from` with its entry or nothing.
    fn rename(&mut self, from: &str, to: &str) -> Result<(), DiskFault>
        requires settled { tells → IsSettled from.now (story self.old) }
        requires clean { IsClean to.now }
        requires within_reach { length to.now ≤ reach }
        requires free { tells → IsFree (story self.old).held to.now }
        ensures told { tells → Renames from.now to.now (story self.old) (story self.new) result }
        ensures cause { Counts (faults self.old) (faults self.new) (disk_failed result) };

    /// Takes away what the path holds. Ok also where that is nothing. After `Failed` the path holds any entry or
    /// nothing.
    fn remove(&mut self, path: &str) -> Result<(), DiskFault>
        ensures told { tells → Removes path.now (story self.old) (story self.new) result }
        ensures cause { Counts (faults self.old) (faults self.new) (disk_failed result) };

    /// The held paths that begin with the prefix, in byte order.
    fn list(&mut self, alloc: Global, prefix: &str) -> Result<Texts, DiskFault>
        ensures told { tells → Lists prefix.now (story self.old) (story self.new) result }
        ensures cause { Counts (faults self.old) (faults self.new) (disk_failed result) };

    /// Makes all that is held durable: after Ok a crash leaves just that.
    fn sync(&mut self) -> Result<(), DiskFault>
        ensures told { tells → Syncs (story self.old) (story self.new) result }
        ensures cause { Counts (faults self.old) (faults self.new) (disk_failed result) };

    /// Ends a ticket: makes durable all that was called up to a moment that isn't after now. What was called since may be
    /// durable or not. `done` says that the system has synced what the disk stands on, and began it no sooner than at that
    /// moment; where it has not, the disk does what `sync` does.
    fn end_sync(&mut self, moment: u64, done: bool) -> Result<(), DiskFault>
        requires past { tells → moment ≤ moment_of (story self.old) }
        ensures told { tells → Ends moment (story self.old) (story self.new) result }
        ensures cause { Counts (faults self.old) (faults self.new) (disk_failed result) };

    /// The present moment, how many calls were answered, as far as a `u64` goes. Asking for it is no call. A disk that
    /// doesn't tell its moments answers any number.
    fn moment(&self) -> u64
        ensures { tells → result ≡ min (moment_of (story self.now)) (2 ^ 64 - 1) };

    /// What is held, now and at each earlier moment, stands at clean paths, none above another.
    ghost sound: { (disk : Self) → tells → IsSound (story disk) };
}
