// Where the values of names come from.
ghost use Rattle.std.specs.Prelude.{◌≡◌, IfOk, IfErr, Ok};
ghost use Rattle.meta_model.specs.Expansion.{Find};
ghost use Rattle.var_expand.specs.Faults.{IsFaultOf};

use crate::fault::ExpandFault;
use meta_model::Resolved;
use std::alloc::Global;
use tree_model::{Mem, Text, Texts};

/// A map from names to resolved values, as a datastore with its active overrides is one.
pub trait Lookup {
    /// What each name has, or why that can't be said; and which words are told.
    ghost finds: { Self → Find };

    /// What the name has, or `None` where it has no value. Any fault but want of memory is the one that `finds` tells.
    fn find(&self, alloc: Global, name: &str) -> Result<Option<Resolved>, ExpandFault>
        ensures ok { IfOk result (λ found. (finds self.now).at name.now ≡ Ok found) }
        ensures err { IfErr result (λ fault. IsFaultOf fault ((finds self.now).at name.now)) };

    /// Those of the words that are told to stand in the value of the name, where that is told without the value: a key tells it
    /// of a form, and entries don't.
    fn known(&self, alloc: Global, name: &str, wanted: &[Text]) -> Result<Option<Texts>, Mem>
        ensures { IfOk result (λ told. (finds self.now).known name.now wanted.now ≡ told) };
}
