// A bench: a place to run one task.
ghost use Rattle.std.specs.Prelude.{◌≡◌, ℕ, IsTrue, IsSome};
ghost use Rattle.tree_model.specs.Path.{IsClean};
ghost use Rattle.outside_traits.specs.Fault.{Counts, bench_failed};
ghost use Rattle.outside_traits.specs.Bench.{Clears, Gives, IsVacant, Puts, Runs, Takes, Workplace};

use crate::BenchFault;
use std::alloc::Global;
use tree_model::{Entry, Size, Tree};

/// What a bench gives of its last run.
#[derive(Debug, Drop)]
pub enum Taken {
    /// The tree that the run gave.
    Tree(Tree),

    /// The tree exceeds the limit that was asked for.
    TooLarge,
}

/// A place where one script at a time is run over a tree that was laid for it.
///
/// Every call answers `Failed` only where the count of faults rose in it, and leaves the count as it was with any
/// other answer. A call that is refused for want of memory changes nothing. (Own rule: no part of the BitBake User
/// Manual.)
pub trait Bench {
    /// Benches of this type tell what they do. One that runs `sh` tells nothing.
    ghost tells: { Type 0 };

    /// What a script gives over a tree: another tree, or the status with which it fails. It never changes.
    ghost gives: { Self → Gives };

    /// What is laid, what the last run gave, and all runs so far.
    ghost place: { Self → Workplace };

    /// How often the bench has failed, up to 2^64 - 1.
    ghost faults: { Self → ℕ };

    /// Takes away all that is laid, and what the last run left, for the work of a task of a recipe. What a script gives doesn't
    /// depend on these names: by them a bench may choose where a task's work stands, the same place each time, and say whose it is.
    fn clear(&mut self, alloc: Global, recipe: &str, task: &str) -> Result<(), BenchFault>
        ensures told { tells → Clears (place self.old) (place self.new) result }
        ensures gives { gives self.new ≡ gives self.old }
        ensures cause { Counts (faults self.old) (faults self.new) (bench_failed result) };

    /// Lays one entry more at a path from the root of the bench, as `work/a` or `files/b`.
    fn put(&mut self, alloc: Global, path: &str, entry: &Entry) -> Result<(), BenchFault>
        requires clean { IsClean path.now }
        requires cleared { tells → IsTrue (place self.old).cleared }
        requires vacant { tells → IsVacant (place self.old).laid path.now }
        ensures told { tells → Puts path.now entry.now (place self.old) (place self.new) result }
        ensures gives { gives self.new ≡ gives self.old }
        ensures cause { Counts (faults self.old) (faults self.new) (bench_failed result) };

    /// Runs a shell script over what is laid, and answers its status: 0 exactly where `gives` is a tree. After
    /// `Failed` it ran or didn't.
    fn run(&mut self, alloc: Global, script: &str) -> Result<u32, BenchFault>
        requires cleared { tells → IsTrue (place self.old).cleared }
        ensures told { tells → Runs (gives self.old) script.now (place self.old) (place self.new) result }
        ensures gives { gives self.new ≡ gives self.old }
        ensures cause { Counts (faults self.old) (faults self.new) (bench_failed result) };

    /// The tree that the last run gave, or `TooLarge` exactly where it exceeds `max`. The last run since the bench
    /// was cleared has to have answered 0.
    fn take(&mut self, alloc: Global, max: Size) -> Result<Taken, BenchFault>
        requires has_output { tells → IsSome (place self.old).output }
        ensures told { tells → Takes max (place self.old) (place self.new) result }
        ensures gives { gives self.new ≡ gives self.old }
        ensures cause { Counts (faults self.old) (faults self.new) (bench_failed result) };

    /// Waits until the system has written what was called so far to its disk, and says whether it has. It is no use of the bench,
    /// and no fault of it where the system hasn't. `Disk::end_sync` is told the answer; no clause speaks of it.
    fn wait_synced(&mut self) -> bool
        ensures place { tells → place self.new ≡ place self.old }
        ensures gives { gives self.new ≡ gives self.old }
        ensures faults { faults self.new ≡ faults self.old };
}
