// The rows of an index, asked for the names of a plan's tasks.
ghost use Rattle.std.specs.Prelude.{◌≡◌, MatchBool};

use hash_equiv::Index;
use meta_model::{Avail, Plan};
use setscene_plan::{Probe, ProbeFault};
use store_model::{EquivRow, SigRecord, SigText};
use tree_model::Hash;

/// The rows of an index as a probe of one plan's tasks, for their names. No disk stands behind it, so each output is missing.
#[derive(Drop)]
pub(crate) struct OnRows<'r> {
    /// The plan whose tasks it is asked of.
    pub(crate) plan: &'r Plan,
    pub(crate) index: &'r Index,
    /// How often a signature met a row with another one.
    pub(crate) faults: u64,
}

/// Whether this text is that of the row's signature.
fn is_signed(row: &EquivRow, sig: &SigText) -> bool
    ensures { MatchBool result (row.now.sig ≡ sig.now) (row.now.sig ≡ sig.now → ⊥) }
{
    row.sig.is_same(sig)
}

impl Probe for OnRows<'_> {
    ghost use Rattle.std.specs.Prelude.{◌≡◌, refl};
    ghost use Rattle.std.proofs.Common.{◌∙◌};
    ghost use Rattle.setscene_plan.specs.View.{View};
    ghost use Rattle.plan_clean.specs.Along.{none_asked, on_rows};

    ghost view = { λ p. on_rows p.plan.now p.index.now };

    ghost says = { λ _. none_asked };

    ghost Stays = { λ a b. on_rows b.plan.now b.index.now ≡ on_rows a.plan.now a.index.now };

    ghost asked = { λ _. 0 };

    ghost faults = { λ p. p.faults };

    fn unihash(&self, name: &Hash) -> Option<Hash> {
        self.index.unihash_of(name)
    }

    fn known_name(&self, _pn: &str, _sig: &SigText) -> Option<Hash> {
        None
    }

    fn compare(&mut self, name: &Hash, sig: &SigText) -> Result<(), ProbeFault> {
        match self.index.row(name) {
            None => return Ok(()),
            Some(row) => {
                if is_signed(row, sig) {
                    return Ok(());
                }
            }
        }
        match self.faults.checked_add(1) {
            Some(faults) => {
                self.faults = faults;
                Err(ProbeFault::Store)
            }
            None => Err(ProbeFault::Memory),
        }
    }

    fn avail(&mut self, _plan: &Plan, _task: u32, _sig: &SigRecord) -> Result<Avail, ProbeFault> {
        Ok(Avail::Missing)
    }

    ghost stays_itself = { λ p. refl };

    ghost stays_on = { λ a b c first second. second ∙ first };

    ghost says_stays = { λ a b same t sig there says. says };

    ghost says_still = { λ a b same t sig there says. says };
}
