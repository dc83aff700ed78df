// Tasks whose outputs are there.
ghost use Rattle.std.specs.Prelude.{◌≡◌, IfSome, None, OnErr, OnOk, Some};
ghost use Rattle.std.specs.List.{slice_get};
ghost use Rattle.meta_model.specs.declared.event.Avail.TheVariants as avails;
ghost use Rattle.meta_model.specs.declared.event.Event.TheVariants as events;
ghost use Rattle.tale_model.specs.Fates.{IsFree};
ghost use Rattle.run_core.specs.declared.next.Next.TheVariants as next;
ghost use Rattle.run_model.specs.Opening.{Opening};
ghost use Rattle.run_queue.specs.Seen.{seen};
ghost use Rattle.run_queue.specs.Keeps.{IsRun, IsSteady, KeepsCount, KeepsFront, PrintsOn};
ghost use Rattle.run_queue.specs.Turns.{Marks, MayDo, SameRun, fates_of};

use crate::state::RunState;
use meta_model::Event;
use outside_traits::{Disk, Sink};
use tree_model::Mem;

impl<D: Disk, W: Sink> RunState<D, W> {
    /// A task whose output is in its work folder is marked as found. Want of memory changes nothing.
    pub(crate) fn find(&mut self, number: u32, task: u32) -> Result<(), Mem>
        requires faultless { self.old.fault ≡ None }
        requires free { IsFree (fates_of self.old) number }
        requires answer { MayDo self.old (next.Settle task) }
        requires there { IfSome self.old.known (λ k. slice_get k.avail task ≡ Some avails.Work) }
        ensures marks { OnOk result (Marks number (events.Found task) self.old.tale self.new.tale) }
        ensures wanting { OnErr result (self.new ≡ self.old) }
        ensures same { SameRun self.old self.new }
        ensures store { self.new.store ≡ self.old.store }
        ensures restoring { self.new.restoring ≡ self.old.restoring }
        ensures sink { KeepsCount W.faults self.old self.new }
        ensures text { W.tells → PrintsOn W.written self.old self.new }
        ensures stays { W.tells → KeepsFront W.written self.old self.new }
        ensures steady { IsSteady self.old.fault → IsSteady self.new.fault }

        // Where the disk tells.
        ensures run { D.tells → (o : Opening) → IsRun o (seen D.story W.written self.old)
            → IsRun o (seen D.story W.written self.new) }
    {
        let _ = &self.plan;
        self.note_waiting(number, Event::Found { task })?;
        Ok(())
    }
}
