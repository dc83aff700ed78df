// The faults that end a run.
ghost use Rattle.std.specs.Prelude.{◌≡◌, IsSome, None, Some};
ghost use Rattle.run_queue.specs.Keeps.{IsSteady, IsSteadyAnswer};

use build_store::StoreFault;

/// The first fault that a run met.
#[derive(Debug, Drop)]
pub enum RunFault {
    /// The store answered it: the disk failed, a collision, or an output that isn't steady.
    Store(StoreFault),
    /// The sink failed.
    Write,
}

/// Keeps a fault of the store, unless one is kept.
pub(crate) fn keep(kept: &mut Option<RunFault>, fault: StoreFault)
    ensures first { kept.old ≡ None → kept.new ≡ Some (RunFault.Store fault) }
    ensures later { IsSome kept.old → kept.new ≡ kept.old }
    ensures steady { IsSteadyAnswer fault → IsSteady kept.old → IsSteady kept.new }
{
    if kept.is_none() {
        *kept = Some(RunFault::Store(fault));
    }
}
