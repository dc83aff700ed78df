// A ready task is started.
ghost use Rattle.std.specs.Prelude.{◌≡◌, None};
ghost use Rattle.tale_model.specs.Fates.{IsFree};
ghost use Rattle.run_core.specs.declared.next.Next.TheVariants as next;
ghost use Rattle.run_model.specs.Opening.{Opening};
ghost use Rattle.run_queue.specs.Seen.{seen};
ghost use Rattle.run_queue.specs.Keeps.{IsRun, IsSteady, KeepsCount, KeepsFront, PrintsOn};
ghost use Rattle.run_queue.specs.Turns.{Claims, ClaimsClean, MayDo, RestoresBy, SameRun, fates_of};

use crate::fault::keep;
use crate::outputs::job_of;
use crate::state::{Claim, RunState};
use build_store::StoreFault;
use meta_model::{Event, Why};
use outside_traits::{Disk, Sink};
use std::alloc::Global;
use tree_model::Mem;

impl<D: Disk, W: Sink> RunState<D, W> {
    /// A ready task is started, and its job handed out; or it is marked that it failed, since its layout is too large, unless that waits for tasks that are
    /// being restored.
    pub(crate) fn start(&mut self, alloc: Global, number: u32, task: u32) -> Result<Claim, Mem>
        requires faultless { self.old.fault ≡ None }
        requires free { IsFree (fates_of self.old) number }
        requires answer { MayDo self.old (next.Start task) }
        ensures claims { Claims number self.old self.new result }
        ensures restores { RestoresBy self.old self.new result }
        ensures same { SameRun self.old self.new }
        ensures sink { KeepsCount W.faults self.old self.new }
        ensures text { W.tells → PrintsOn W.written self.old self.new }
        ensures stays { W.tells → KeepsFront W.written self.old self.new }
        ensures steady { IsSteady self.old.fault → IsSteady self.new.fault }

        // Where the disk tells.
        ensures run { D.tells → (o : Opening) → IsRun o (seen D.story W.written self.old)
            → IsRun o (seen D.story W.written self.new) }
        ensures clean { D.tells → (o : Opening) → IsRun o (seen D.story W.written self.old)
            → ClaimsClean o self.old.ends_wait (seen D.story W.written self.old) result }
    {
        match job_of(alloc, &mut self.store, &self.plan, task) {
            Ok(Some(job)) => {
                self.note_waiting(number, Event::Started { task, seat: number })?;
                Ok(Claim::Run(job))
            }
            Ok(None) => {
                if self.failure_waits() {
                    return Ok(Claim::Wait);
                }
                let why = Why::TooLarge;
                self.note_waiting(number, Event::Failed { task, why })?;
                Ok(Claim::Settled(task))
            }
            Err(StoreFault::Memory) => Err(Mem),
            Err(fault) => {
                keep(&mut self.fault, fault);
                Ok(Claim::Stopped)
            }
        }
    }
}
