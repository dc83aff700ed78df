// What is known of the plan's tasks.
ghost use Rattle.std.specs.Prelude.{◌≡◌, IfOk, IsSome, MatchBool, None, OnErr, OnOk};
ghost use Rattle.run_model.specs.Opening.{Opening};
ghost use Rattle.run_queue.specs.Seen.{seen};
ghost use Rattle.run_queue.specs.Keeps.{IsRun, IsSteady};
ghost use Rattle.run_queue.specs.Turns.{Looks, Remembers};

use crate::fault::keep;
use crate::probe::known_of;
use crate::state::RunState;
use build_store::StoreFault;
use outside_traits::{Disk, Sink};
use std::alloc::Global;
use tree_model::Mem;

impl<D: Disk, W: Sink> RunState<D, W> {
    /// Sees to it that it is known of the plan's tasks which are needed and how their outputs are there: where nothing is kept of that, the
    /// store is asked anew. `false` where it met a fault, which is kept then.
    pub(crate) fn look(&mut self, alloc: Global) -> Result<bool, Mem>
        requires faultless { self.old.fault ≡ None }
        ensures looks { Looks self.old self.new }
        ensures found { IfOk result (λ found. MatchBool found (IsSome self.new.known × (self.new.fault ≡ None))
            (IsSome self.new.fault)) }
        ensures wanting { OnErr result (self.new.fault ≡ None) }
        ensures stays { IsSome self.old.known → self.new ≡ self.old }
        ensures steady { IsSteady self.old.fault → IsSteady self.new.fault }
        ensures remembers { OnOk result (self.old.known ≡ None → Remembers self.new) }

        // Where the disk tells.
        ensures run { D.tells → (o : Opening) → IsRun o (seen D.story W.written self.old)
            → IsRun o (seen D.story W.written self.new) }
    {
        if self.replan.is_some() {
            return Ok(true);
        }
        match known_of(
            alloc,
            &self.plan,
            &mut self.store,
            self.begun.as_slice(),
            self.options.setscene,
        ) {
            Ok(replan) => {
                self.replan = Some(replan);
                Ok(true)
            }
            Err(StoreFault::Memory) => Err(Mem),
            Err(fault) => {
                keep(&mut self.fault, fault);
                Ok(false)
            }
        }
    }
}
