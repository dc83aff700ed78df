// A disk that is looked at, asked on the tasks of a plan.
ghost use Rattle.std.specs.Prelude.{◌≡◌, ◌<◌, length, slice_get, Some};
ghost use Rattle.why_text.specs.Looks.{Keeps, Looks, fault_count, looked};

use crate::rows::Rows;
use build_store::{StoreFault, available, compare_at};
use meta_model::{Avail, Plan, PlanTask};
use outside_traits::Disk;
use setscene_plan::{Probe, ProbeFault};
use std::alloc::Global;
use store_model::{SigRecord, SigText};
use tree_model::Hash;

/// A disk with the rows of its believed records, asked on the tasks of one plan. Nothing changes in it. It keeps the first fault that it meets, and asks
/// nothing then.
#[derive(Drop)]
pub(crate) struct Judged<'p, D: Disk> {
    pub(crate) alloc: Global,
    pub(crate) plan: &'p Plan,
    pub(crate) disk: D,
    pub(crate) rows: Rows,
    pub(crate) setscene: bool,
    pub(crate) fault: Option<StoreFault>,
}

/// Keeps a fault, unless it is want of memory.
fn keep(kept: &mut Option<StoreFault>, fault: StoreFault) -> ProbeFault
    ensures { Keeps fault kept.old kept.new result }
{
    match fault {
        StoreFault::Memory => ProbeFault::Memory,
        other => {
            *kept = Some(other);
            ProbeFault::Store
        }
    }
}

/// The task of this number.
pub(crate) fn task_at(plan: &Plan, place: usize) -> &PlanTask
    requires { place < length plan.now.tasks }
    ensures { slice_get plan.now.tasks place ≡ Some result.now }
{
    &plan.tasks.as_slice()[place]
}

impl<D: Disk> Probe for Judged<'_, D> {
    ghost use Rattle.std.specs.Prelude.{◌≡◌, refl};
    ghost use Rattle.std.proofs.Common.{◌∙◌, sym, ap};
    ghost use Rattle.meta_model.specs.declared.plan.Plan.{Plan as ThePlan};
    ghost use Rattle.why_text.specs.LookLaws.{looked_follows, looks_itself, looks_on};

    ghost view = { λ p. record { plan = p.plan.now; rows = p.rows } };

    ghost says = { λ p. looked D.tells (D.story p.disk).held p.rows p.setscene p.plan.now.tasks };

    ghost Stays = { λ a b.
        (b.plan.now ≡ a.plan.now) × (b.rows ≡ a.rows) × (b.setscene ≡ a.setscene)
        × Looks a.plan.now a.rows D.tells D.story D.faults a.disk b.disk a.fault b.fault };

    ghost asked = { λ p. 0 };

    ghost faults = { λ p. fault_count p.fault };

    fn unihash(&self, name: &Hash) -> Option<Hash> {
        self.rows.index().unihash_of(name)
    }

    fn known_name(&self, pn: &str, sig: &SigText) -> Option<Hash> {
        self.rows.index().name_of(pn, sig)
    }

    fn compare(&mut self, name: &Hash, sig: &SigText) -> Result<(), ProbeFault> {
        if self.fault.is_some() {
            return Err(ProbeFault::Memory);
        }
        match compare_at(self.alloc, self.rows.index(), name, sig) {
            Ok(()) => Ok(()),
            Err(fault) => Err(keep(&mut self.fault, fault)),
        }
    }

    fn avail(&mut self, plan: &Plan, task: u32, sig: &SigRecord) -> Result<Avail, ProbeFault> {
        if self.fault.is_some() {
            return Err(ProbeFault::Memory);
        }
        let own = task_at(plan, task as usize);
        match available(
            self.alloc,
            &mut self.disk,
            self.rows.index(),
            own,
            sig,
            self.setscene,
        ) {
            Ok(there) => Ok(there),
            Err(fault) => Err(keep(&mut self.fault, fault)),
        }
    }

    ghost stays_itself = { λ p. (refl, refl, refl, looks_itself p.plan.now p.rows D.tells D.story D.faults p.disk p.fault) };

    ghost stays_on = { λ a b c first second. (
      second.0 ∙ first.0,
      second.1 ∙ first.1,
      second.2 ∙ first.2,
      looks_on a.plan.now b.plan.now a.rows b.rows D.tells D.story D.faults a.disk b.disk c.disk a.fault b.fault c.fault first.0 first.1
          first.3 second.3,
    ) };

    ghost says_stays = { λ a b stays. looked_follows D.tells (λ tells. (stays.3.images tells).held) stays.1 stays.2
        (ap (λ (p : ThePlan). p.tasks) stays.0) };

    ghost says_still = { λ a b stays. looked_follows D.tells (λ tells. sym (stays.3.images tells).held) (sym stays.1)
        (sym stays.2) (ap (λ (p : ThePlan). p.tasks) (sym stays.0)) };
}
