// An index of records in memory.
ghost use Rattle.std.specs.Prelude.{◌≡◌, ◌≢◌, IfOk, MatchBool, None, OnOk, true};
ghost use Rattle.store_model.specs.Rows.{row_at};
ghost use Rattle.store_model.specs.Spelling.{name_of};

use meta_model::{Avail, Plan};
use setscene_plan::{Probe, ProbeFault};
use sig_gen::{encode, name_by};
use std::alloc::Global;
use std::collections::HashMap;
use store_model::{SigRecord, SigText};
use tree_model::{Hash, Mem};

/// What the index keeps of a record, by the bytes of its name.
#[derive(Drop)]
pub struct Row {
    /// The whole text of the signature.
    pub sig: SigText,
    /// The name under which tasks above name it.
    pub unihash: Hash,
}

/// An index of records as a probe of one plan's tasks: the output of a task is in its work folder where there is a record of its
/// signature's name, and nowhere else.
#[derive(Drop)]
pub struct Index<'a> {
    pub alloc: Global,
    /// The plan whose tasks it is asked of.
    pub plan: &'a Plan,
    pub rows: HashMap<[u8; 32], Row>,
    /// How often it was asked for an output.
    pub asked: u64,
    /// How often a signature met a row with another one.
    pub faults: u64,
}

impl<'a> Index<'a> {
    ghost use Rattle.run_tests.specs.Index.{Puts, rows_of};

    /// An index without records.
    pub fn new(alloc: Global, plan: &'a Plan) -> Index<'a>
        ensures { result.plan.now ≡ plan.now }
    {
        Index {
            alloc,
            plan,
            rows: HashMap::new(alloc),
            asked: 0,
            faults: 0,
        }
    }

    /// The same records, asked of another plan's tasks.
    pub fn over<'b>(self, plan: &'b Plan) -> Index<'b>
        ensures { result.plan.now ≡ plan.now }
    {
        let Index {
            alloc,
            plan: _,
            rows,
            asked,
            faults,
        } = self;
        Index {
            alloc,
            plan,
            rows,
            asked,
            faults,
        }
    }

    /// Puts a record in the place of the one of its name.
    pub(crate) fn put(&mut self, name: Hash, sig: SigText, unihash: Hash) -> Result<(), Mem>
        ensures plan { self.new.plan.now ≡ self.old.plan.now }
        ensures puts { OnOk result (Puts name sig self.old.rows self.new.rows) }
    {
        self.rows.insert(name.bytes, Row { sig, unihash })?;
        Ok(())
    }

    /// Whether there is a record of this signature's name.
    fn has(&self, sig: &SigRecord) -> Result<bool, Mem>
        ensures { IfOk result (λ found. found ≡ true → row_at (rows_of self.now.rows) (name_of sig.now) ≢ None) }
    {
        let text = encode(self.alloc, sig)?;
        let name = name_by(&text);
        Ok(self.unihash(&name).is_some())
    }
}

/// Whether this text is that of the row's signature.
fn is_signed(row: &Row, sig: &SigText) -> bool
    ensures { MatchBool result (row.now.sig ≡ sig.now) (row.now.sig ≡ sig.now → ⊥) }
{
    row.sig.is_same(sig)
}

impl Probe for Index<'_> {
    ghost use Rattle.std.specs.Prelude.{◌≡◌, refl};
    ghost use Rattle.std.proofs.Common.{◌∙◌};
    ghost use Rattle.run_tests.specs.Index.{no_objects, view_of};

    ghost view = { view_of };

    ghost says = { λ _. no_objects };

    ghost Stays = { λ a b. view_of b ≡ view_of a };

    ghost asked = { λ i. i.asked };

    ghost faults = { λ i. i.faults };

    fn unihash(&self, name: &Hash) -> Option<Hash> {
        match self.rows.get(&name.bytes) {
            Some(row) => Some(row.unihash),
            None => None,
        }
    }

    fn known_name(&self, _pn: &str, _sig: &SigText) -> Option<Hash> {
        None
    }

    fn compare(&mut self, name: &Hash, sig: &SigText) -> Result<(), ProbeFault> {
        match self.rows.get(&name.bytes) {
            None => return Ok(()),
            Some(row) => {
                if is_signed(row, sig) {
                    return Ok(());
                }
            }
        }
        match self.faults.checked_add(1) {
            Some(faults) => {
                self.faults = faults;
                Err(ProbeFault::Store)
            }
            None => Err(ProbeFault::Memory),
        }
    }

    fn avail(&mut self, _plan: &Plan, _task: u32, sig: &SigRecord) -> Result<Avail, ProbeFault> {
        self.asked = self.asked.saturating_add(1);
        if self.has(sig)? {
            Ok(Avail::Work)
        } else {
            Ok(Avail::Missing)
        }
    }

    ghost stays_itself = { λ p. refl };

    ghost stays_on = { λ a b c first second. second ∙ first };

    ghost says_stays = { λ a b same t sig there says. says };

    ghost says_still = { λ a b same t sig there says. says };
}
