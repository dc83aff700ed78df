// A signature is compared with the row of its name.
ghost use Rattle.std.specs.Prelude.{◌≡◌, IfErr, IfOk, IsTrue, OnOk, false};
ghost use Rattle.std.specs.List.{AllByRecursion};
ghost use Rattle.sha2.specs.Sha256.{sha256};
ghost use Rattle.store_model.specs.Rows.{row_at, IsClear};
ghost use Rattle.store_model.specs.Spelling.{text_name};
ghost use Rattle.store_model.specs.Readable.{IsRow};
ghost use Rattle.build_store.specs.Faults.{IsClash, IsOtherSignature, IsTelling, store_failed};

use crate::fault::StoreFault;
use hash_equiv::Index;
use std::alloc::Global;
use store_model::{EquivRow, SigText};
use store_opening::same_bytes;
use tree_model::{Bytes, Hash, Mem};

/// What tells two byte strings apart that have one digest.
pub(crate) fn collision(
    alloc: Global,
    name: Hash,
    held: &[u8],
    given: &[u8],
) -> Result<StoreFault, Mem>
    ensures { IfOk result (IsTelling name held.now given.now) }
{
    Ok(StoreFault::Collision {
        name,
        held: Bytes::from_slice(alloc, held)?,
        given: Bytes::from_slice(alloc, given)?,
    })
}

/// Whether two keys have one digest.
fn is_digest_of(name: &Hash, key: &[u8]) -> bool
    ensures { IsTrue result → name.now.bytes ≡ sha256 key.now }
{
    Hash::of(key) == *name
}

/// What tells the signature of a row and another one of its name apart: their short texts, or, where these are the same, their keys.
///
/// (A short text has the digest of its signature's key, so two that are the same have keys of one digest. Where a text is no signature's and they
/// haven't, there is nothing to tell, and the answer is the refusal.)
fn told_apart(alloc: Global, row: &EquivRow, sig: &SigText) -> Result<StoreFault, Mem>
    requires row { IsRow row.now }
    requires named { row.now.name ≡ text_name sig.now }
    requires other { row.now.sig ≡ sig.now → ⊥ }
    ensures { IfOk result (IsOtherSignature row.now sig.now) }
{
    if !same_bytes(row.sig.short(), sig.short()) {
        return collision(alloc, row.name, row.sig.short(), sig.short());
    }
    let name = Hash::of(sig.key());
    if !is_digest_of(&name, row.sig.key()) {
        return Err(Mem);
    }
    collision(alloc, name, row.sig.key(), sig.key())
}

/// Compares a signature with that of a row of its name.
pub(crate) fn compare_row(alloc: Global, row: &EquivRow, sig: &SigText) -> Result<(), StoreFault>
    requires row { IsRow row.now }
    requires named { row.now.name ≡ text_name sig.now }
    ensures ok { OnOk result (row.now.sig ≡ sig.now) }
    ensures err { IfErr result (IsOtherSignature row.now sig.now) }
    ensures inside { store_failed result ≡ false }
{
    if row.sig.is_same(sig) {
        return Ok(());
    }
    Err(told_apart(alloc, row, sig)?)
}

/// Compares a signature with that of the row of its name, if there is one. It looks at the rows alone.
///
/// `Collision` comes exactly where that row has another signature.
pub fn compare_at(
    alloc: Global,
    index: &Index,
    name: &Hash,
    sig: &SigText,
) -> Result<(), StoreFault>
    requires rows { AllByRecursion IsRow index.now }
    requires named { name.now ≡ text_name sig.now }
    ensures clear { OnOk result (IsClear index.now name.now sig.now) }
    ensures refused { IfErr result (IsClash index.now name.now sig.now) }
    ensures inside { store_failed result ≡ false }
{
    match index.row(name) {
        Some(row) => compare_row(alloc, row, sig),
        None => Ok(()),
    }
}
