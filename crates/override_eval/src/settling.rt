// The active overrides, which depend on a text that depends on them.
ghost use Rattle.std.specs.Prelude.{◌≡◌, List, ℕ, Option, Result, Ok, Err, IfOk, IfErr, IfSome};
ghost use Rattle.meta_model.specs.Refusal.{Refusal};
ghost use Rattle.meta_model.specs.Text.{texts_eq};
ghost use Rattle.override_eval.specs.Settled.{pass_of, settled_by, active_by};
ghost use Rattle.override_eval.specs.Faults.{IsFaultOf};

use crate::pieces::active;
use std::alloc::Global;
use tree_model::{Text, Texts};

/// A text that is evaluated under active overrides, as the value of OVERRIDES is.
pub trait OverrideText {
    /// Why there is no text.
    type Fault: Drop;

    /// The text under each list of active overrides, or its refusal.
    ghost text: { Self → List (List ℕ) → Result (List ℕ) Refusal };

    /// The refusal that a fault tells of; none where it tells of want of memory.
    ghost told: { Self.Fault → Option Refusal };

    /// The text under these active overrides.
    fn under(&self, alloc: Global, active: &[Text]) -> Result<Text, Self::Fault>
        ensures ok { IfOk result (λ made. text self.now active.now ≡ Ok made) }
        ensures err { IfErr result (λ fault. IfSome (told fault) (λ refusal. text self.now active.now ≡ Err refusal)) };
}

/// Why the active overrides don't settle.
#[derive(Debug, Drop)]
pub enum OverrideFault<F> {
    /// Five passes brought no two equal lists in a row; these are the lists of the last two (own rule).
    Unstable { before: Texts, last: Texts },
    /// A pass had no text.
    Under(F),
    /// Memory ran out.
    Memory,
}

/// Whether two lists have the same texts in the same order.
fn are_same(before: &[Text], last: &[Text]) -> bool
    ensures { result ≡ texts_eq before.now last.now }
{
    before == last
}

/// The pieces of the text under these active overrides.
fn pass<T: OverrideText>(
    alloc: Global,
    source: &T,
    before: &[Text],
) -> Result<Texts, OverrideFault<T::Fault>>
    ensures ok { IfOk result (λ made. pass_of (T.text source.now) before.now ≡ Ok made) }
    ensures err { IfErr result (λ fault. IsFaultOf T.told fault (pass_of (T.text source.now) before.now)) }
{
    match source.under(alloc, before) {
        Ok(text) => match active(alloc, text.as_str()) {
            Ok(pieces) => Ok(pieces),
            Err(_) => Err(OverrideFault::Memory),
        },
        Err(fault) => Err(OverrideFault::Under(fault)),
    }
}

/// The active overrides: the list on which two passes in a row agree, of at most five. Each pass cuts the text under the
/// list of the pass before, and before the first one the list is empty (own rule).
///
/// `Unstable` exactly where five passes don't agree; `Under` exactly where a pass has no text, with its fault.
pub fn settle<T: OverrideText>(alloc: Global, source: &T) -> Result<Texts, OverrideFault<T::Fault>>
    ensures ok { IfOk result (λ made. active_by (pass_of (T.text source.now)) ≡ Ok made) }
    ensures err { IfErr result (λ fault. IsFaultOf T.told fault (active_by (pass_of (T.text source.now)))) }
{
    let mut before = Texts::new(alloc);
    let mut last = match pass(alloc, source, before.as_slice()) {
        Ok(first) => first,
        Err(fault) => return Err(fault),
    };
    let mut left: usize = 4;
    while left > 0 {
        if are_same(before.as_slice(), last.as_slice()) {
            return Ok(last);
        }
        let next = match pass(alloc, source, last.as_slice()) {
            Ok(next) => next,
            Err(fault) => return Err(fault),
        };
        before = last;
        last = next;
        left -= 1;
    }
    if are_same(before.as_slice(), last.as_slice()) {
        Ok(last)
    } else {
        Err(OverrideFault::Unstable { before, last })
    }
}
