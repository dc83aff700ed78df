// Signatures with their texts and their names.
ghost use Rattle.std.specs.Prelude.{◌≡◌, IfOk};
ghost use Rattle.store_model.specs.Spelled.{IsSpelled};
ghost use Rattle.store_model.specs.Spelling.{name_of, signature_bytes};
ghost use Rattle.sig_gen.specs.Sound.{Spells};

use sig_gen::{encode, name_by};
use std::alloc::Global;
use store_model::{SigRecord, SigText};
use tree_model::{Hash, Mem};

/// A signature's whole text, and the name of its record.
#[derive(Drop)]
pub(crate) struct Named {
    pub(crate) text: SigText,
    pub(crate) name: Hash,
}

/// A signature with its whole text and its name. What was written is read again, where the lists ascend.
pub(crate) fn name_of_sig(alloc: Global, sig: &SigRecord) -> Result<Named, Mem>
    ensures text { IfOk result (λ named. named.text ≡ signature_bytes sig.now) }
    ensures name { IfOk result (λ named. named.name ≡ name_of sig.now) }
    ensures spells { IfOk result (λ named. IsSpelled sig.now → Spells named.text sig.now) }
{
    let text = encode(alloc, sig)?;
    let name = name_by(&text);
    Ok(Named { text, name })
}
