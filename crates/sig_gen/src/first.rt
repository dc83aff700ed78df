// Stored records of the first format, which a move brings to the present one.
ghost use Rattle.std.specs.Prelude.{IfOk, IsErrOf, Some};
ghost use Rattle.store_model.specs.declared.signature.StoredSig.{StoredSig as Record};
ghost use Rattle.store_move.specs.First.{SpellsFirst};
ghost use Rattle.sig_gen.specs.Reading.{Gives};
ghost use Rattle.sig_gen.specs.First.{first_at, first_lists_at, first_stored_at};

use crate::fault::SigFault;
use crate::list::ascending;
use crate::manifest::are_paths;
use crate::netstring::{behind_word, framed, own_text};
use crate::record::with_manifest;
use meta_model::{Key, KeyLine};
use std::alloc::Global;
use store_model::{DepLine, SigRecord, StoredSig};
use tree_model::{Hash, ListOf, Text};

/// The signature of a task whose lists are the bytes.
#[tactic(auto, unfolding(crate::specs::First::first_lists_at))]
fn with_lists(alloc: Global, pn: Text, task: Text, bytes: &[u8]) -> Result<SigRecord, SigFault>
    ensures { Gives (λ x. x) result (first_lists_at pn task bytes.now) }
{
    let (lines, rest) = ascending::<KeyLine>(alloc, bytes)?;
    let (files, rest) = ascending::<(Text, Hash)>(alloc, rest)?;
    let (deps, rest) = ascending::<DepLine>(alloc, rest)?;
    if !rest.is_empty() {
        return Err(SigFault::BadRecord);
    }
    Ok(SigRecord {
        pn,
        task,
        key: Key {
            lines: ListOf::from_vec(lines),
            excluded: false,
        },
        files: ListOf::from_vec(files),
        deps: ListOf::from_vec(deps),
    })
}

/// The signature that all of the bytes are.
#[tactic(auto, unfolding(crate::specs::First::first_at))]
fn signature(alloc: Global, bytes: &[u8]) -> Result<SigRecord, SigFault>
    ensures { Gives (λ x. x) result (first_at bytes.now) }
{
    let rest = behind_word(b"bbsig1", bytes)?;
    let (pn, rest) = own_text(alloc, rest)?;
    let (task, rest) = own_text(alloc, rest)?;
    with_lists(alloc, pn, task, rest)
}

/// The stored record that all of the bytes are, whatever its paths.
#[tactic(auto, unfolding(crate::specs::First::first_stored_at))]
fn stored(alloc: Global, bytes: &[u8]) -> Result<StoredSig, SigFault>
    ensures { Gives (λ x. x) result (first_stored_at bytes.now) }
{
    let rest = behind_word(b"bbrec1", bytes)?;
    let (inner, rest) = framed(rest)?;
    let sig = signature(alloc, inner)?;
    with_manifest(alloc, sig, rest)
}

/// The stored record that the bytes spell in the first format, all of them.
///
/// `BadRecord` comes exactly where they are no stored record's one spelling there.
pub fn decode_first(alloc: Global, bytes: &[u8]) -> Result<StoredSig, SigFault>
    // what is read is spelled so
    ensures found { IfOk result (λ stored. SpellsFirst bytes.now stored) }
    // what is spelled so is read, unless memory runs out
    ensures only { (stored : Record) → SpellsFirst bytes.now stored → Gives (λ x. x) result (Some stored) }
    // and only what is spelled by nothing is refused
    ensures bad { IsErrOf result SigFault.BadRecord → (stored : Record) → SpellsFirst bytes.now stored → ⊥ }
{
    let read = stored(alloc, bytes)?;
    if are_paths(read.manifest.lines()) {
        Ok(read)
    } else {
        Err(SigFault::BadRecord)
    }
}
