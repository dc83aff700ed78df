// How a run began.
use std::marker::Brand;

/// How a run began, for contracts alone. A caller picks it where it makes the run's queue.
pub trait Began {
    ghost use Rattle.meta_model.specs.CleanBuild.{Gives};
    ghost use Rattle.run_queue.specs.Seen.{Seen};
    ghost use Rattle.std.specs.Prelude.{ℕ};

    // What contracts saw of its state.
    ghost first: { Seen };

    // How often its sink had failed.
    ghost faults: { ℕ };

    // What scripts give, where its benches are alike.
    ghost gives: { Gives };

    // Its benches tell what they do, and scripts give the same on all of them.
    ghost alike: { Type 0 };
}

impl Began for Brand {
    ghost use Rattle.run_workers.specs.Nothing.{nothing_given, nothing_seen};

    ghost first = { nothing_seen };

    ghost faults = { 0 };

    ghost gives = { nothing_given };

    ghost alike = { ⊥ };
}
