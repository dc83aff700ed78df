// Who is asked what an index and a store have of a plan's tasks.
ghost use Rattle.setscene_plan.specs.declared.probe.ProbeFault.TheVariants as faults_of;
ghost use Rattle.std.specs.Prelude.{◌≡◌};

use meta_model::{Avail, Plan};
use std::alloc::{AllocError, AllocFailed};
use store_model::{SigRecord, SigText};
use tree_model::{Hash, Mem};

/// Why a question isn't answered.
#[derive(Clone, Copy, Debug, PartialEq, Eq)]
pub enum ProbeFault {
    /// What stands behind the probe answered a fault; the probe's count of faults rose.
    Store,
    /// Want of memory.
    Memory,
}

impl From<Mem> for ProbeFault {
    ghost from_gives = { λ _ e. e ≡ faults_of.Memory };

    fn from(_: Mem) -> Self {
        ProbeFault::Memory
    }
}

impl From<AllocError> for ProbeFault {
    ghost from_gives = { λ _ e. e ≡ faults_of.Memory };

    fn from(_: AllocError) -> Self {
        ProbeFault::Memory
    }
}

impl<T: Drop> From<AllocFailed<T>> for ProbeFault {
    ghost from_gives = { λ _ e. e ≡ faults_of.Memory };

    fn from(_: AllocFailed<T>) -> Self {
        ProbeFault::Memory
    }
}

/// Answers what an index of records and a store have of the tasks of one plan. It tells which plan it stands for, which rows the
/// index has, and what its answers of outputs mean. No question changes any of that.
pub trait Probe {
    ghost use Rattle.std.specs.Prelude.{◌≡◌, ◌≢◌, ◌<◌, ◌≤◌, ◌+◌, ℕ, None, IfOk, IfSome, IsErrOf, OnOk, length};
    ghost use Rattle.std.specs.Option.{option_map};
    ghost use Rattle.meta_model.specs.declared.event.Avail.TheVariants as avails;
    ghost use Rattle.store_model.specs.Rows.{row_at, IsClear};
    ghost use Rattle.store_model.specs.Spelling.{name_of};
    ghost use Rattle.sig_gen.specs.Sound.{IsNameBy};
    ghost use Rattle.setscene_plan.specs.View.{Counts, Follows, HasOther, IsAskedOf, IsNamedFor, Says, View, probe_failed};

    /// The plan and the rows that it stands for.
    ghost view: { Self → View };

    /// What its answers of outputs mean.
    ghost says: { Self → Says };

    /// All but what questions cost is the same.
    ghost Stays: { Self → Self → Type 0 };

    /// How often it was asked for an output.
    ghost asked: { Self → ℕ };

    /// How often it has failed.
    ghost faults: { Self → ℕ };

    /// The unihash of the row of this name, if there is one.
    fn unihash(&self, name: &Hash) -> Option<Hash>
        ensures { result ≡ option_map (λ row. row.unihash) (row_at (view self.now).rows name.now) };

    /// The name of a signature, which has this PN, by its whole text, where that is known without a digest.
    fn known_name(&self, pn: &str, sig: &SigText) -> Option<Hash>
        ensures { IfSome result (IsNameBy sig.now) };

    /// Compares the whole text of the signature of a task of the plan with that of the row of its name, if there is one. It looks at
    /// the rows alone.
    ///
    /// `Store` comes only where that row has another signature.
    fn compare(&mut self, name: &Hash, sig: &SigText) -> Result<(), ProbeFault>
        requires { IsNamedFor (view self.old) name.now sig.now }
        ensures clear { OnOk result (IsClear (view self.old).rows name.now sig.now) }
        ensures other { IsErrOf result ProbeFault.Store → HasOther (view self.old).rows name.now sig.now }
        ensures same { view self.new ≡ view self.old }
        ensures stays { Stays self.old self.new }
        ensures asked { asked self.new ≡ asked self.old }
        ensures cause { Counts (faults self.old) (faults self.new) (probe_failed result) };

    /// Whether the output of a task of this plan, which has this signature, is there. It is in a store only where a row has the
    /// signature's name.
    fn avail(&mut self, plan: &Plan, task: u32, sig: &SigRecord) -> Result<Avail, ProbeFault>
        requires plan { (view self.old).plan ≡ plan.now }
        requires task { task < length (view self.old).plan.tasks }
        requires sig { IsAskedOf (view self.old) task sig.now }
        ensures told { IfOk result (λ there. says self.old task sig.now there) }
        ensures stored { IfOk result (λ there. there ≢ avails.Missing
            → row_at (view self.old).rows (name_of sig.now) ≢ None) }
        ensures same { view self.new ≡ view self.old }
        ensures stays { Stays self.old self.new }
        ensures asked { asked self.new ≤ asked self.old + 1 }
        ensures cause { Counts (faults self.old) (faults self.new) (probe_failed result) };

    ghost stays_itself: { (p : Self) → Stays p p };

    ghost stays_on: { (a b c : Self) → Stays a b → Stays b c → Stays a c };

    /// Answers mean the same, whatever was asked between.
    ghost says_stays: { (a b : Self) → Stays a b → Follows (says b) (says a) };

    ghost says_still: { (a b : Self) → Stays a b → Follows (says a) (says b) };
}
