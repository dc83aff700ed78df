// What a publication is to put, worked out in memory.
ghost use Rattle.std.specs.Prelude.{◌≡◌, IfErr, IfOk, List, None, OnOk, Some, false, ℕ};
ghost use Rattle.tree_model.specs.Manifest.{manifest_lines};
ghost use Rattle.meta_model.specs.CleanBuild.{Entries};
ghost use Rattle.store_model.specs.Rows.{new_unihash};
ghost use Rattle.store_model.specs.Spelling.{key_part, name_of, record_bytes, signature_bytes, text_name};
ghost use Rattle.record_move.specs.Known.{key_named};
ghost use Rattle.build_store.specs.Keys.{HasNoOtherKey, KnowsRows, text_key};
ghost use Rattle.sig_gen.specs.Sound.{Spells};
ghost use Rattle.sig_gen.specs.Stored.{IsInOrder};
ghost use Rattle.store_model.specs.Stored.{SpellsStored};
ghost use Rattle.build_store.specs.Drafts.{IsDraft, IsKeyClash, IsKeyOther, IsKnownFault, IsNew, IsUnsteadyOf, new_stored};
ghost use Rattle.build_store.specs.Faults.{IsRefusal, store_failed};
ghost use Rattle.store_model.specs.Publication.{record_file};
ghost use Rattle.store_model.specs.Readable.{IsRow, row_of_stored};
ghost use Rattle.build_store.specs.View.{signed_by};
ghost use Rattle.std.specs.List.{AllByRecursion};
ghost use Rattle.store_model.specs.Spelled.{IsSpelled};

use crate::comparing::{collision, compare_row};
use crate::fault::StoreFault;
use crate::naming::{Named, name_of_sig};
use hash_equiv::{Index, copy_manifest, equal_manifests};
use meta_model::PlanTask;
use record_move::KnownKeys;
use sig_gen::{SigFault, decode, encode_stored};
use std::alloc::Global;
use store_model::{EquivRow, SigRecord, SigText, StoredSig};
use store_opening::same_bytes;
use tree_model::{Bytes, Entry, Hash, Manifest, Mem};

/// The same signature again, read from its text.
fn copy_signature(alloc: Global, sig: &SigRecord, text: &SigText) -> Result<SigRecord, Mem>
    requires { Spells text.now sig.now }
    ensures { IfOk result (λ made. made ≡ sig.now) }
{
    match decode(alloc, text) {
        Ok(made) => Ok(made),
        Err(SigFault::Memory) => Err(Mem),
        Err(SigFault::BadRecord) => unreachable!(),
    }
}

/// What tells that a task gave another output than its record says.
fn unsteady(
    alloc: Global,
    task: &PlanTask,
    row: &EquivRow,
    manifest: &Manifest,
) -> Result<StoreFault, Mem>
    ensures { IfOk result (IsUnsteadyOf task.now row.now manifest.now) }
{
    Ok(StoreFault::Unsteady {
        pn: task.id.pn.copy()?,
        task: task.id.task.copy()?,
        held: copy_manifest(alloc, &row.manifest)?,
        given: copy_manifest(alloc, manifest)?,
    })
}

/// The unihash of a task whose record is stored, where that has its signature and its output.
fn known_unihash(
    alloc: Global,
    task: &PlanTask,
    row: &EquivRow,
    sig: &SigText,
    manifest: &Manifest,
) -> Result<Hash, StoreFault>
    requires row { IsRow row.now }
    requires named { row.now.name ≡ text_name sig.now }
    ensures ok { IfOk result (λ unihash. (unihash ≡ row.now.unihash) × (row.now.sig ≡ sig.now)
        × (row.now.manifest ≡ manifest.now)) }
    ensures err { IfErr result (IsKnownFault task.now row.now sig.now manifest.now) }
    ensures inside { store_failed result ≡ false }
{
    compare_row(alloc, row, sig)?;
    if equal_manifests(row.manifest.lines(), manifest.lines()) {
        return Ok(row.unihash);
    }
    Err(unsteady(alloc, task, row, manifest)?)
}

/// A record that is to be stored.
#[derive(Drop)]
pub(crate) struct NewRecord {
    pub(crate) file: Entry,
    pub(crate) row: EquivRow,
}

/// The unihash of a new record.
fn new_unihash(index: &Index, sig: &SigRecord, name: &Hash, manifest: &Manifest) -> Hash
    ensures { result ≡ new_unihash index.now name.now sig.now.pn sig.now.task manifest.now }
{
    match index.first_for(sig.pn.as_str(), sig.task.as_str(), manifest.lines()) {
        Some(unihash) => unihash,
        None => *name,
    }
}

/// The file and the row of a record.
fn record_of(alloc: Global, own: Named, stored: StoredSig) -> Result<NewRecord, Mem>
    requires name { own.name ≡ name_of stored.sig }
    requires text { own.text ≡ signature_bytes stored.sig }
    ensures file { IfOk result (λ made. made.file ≡ record_file stored) }
    ensures row { IfOk result (λ made. made.row ≡ row_of_stored stored) }
    ensures spells { IfOk result (λ made. IsInOrder stored → SpellsStored (record_bytes stored) stored) }
{
    let bytes = encode_stored(alloc, &stored)?;
    let StoredSig {
        sig,
        manifest,
        unihash,
    } = stored;
    let SigRecord {
        pn,
        task,
        key: _,
        files: _,
        deps: _,
    } = sig;
    Ok(NewRecord {
        file: Entry::File { exec: false, bytes },
        row: EquivRow {
            name: own.name,
            pn,
            task,
            sig: own.text,
            manifest,
            unihash,
        },
    })
}

/// The record of a task that none is stored of.
fn new_record(
    alloc: Global,
    index: &Index,
    sig: &SigRecord,
    own: Named,
    manifest: &Manifest,
) -> Result<NewRecord, Mem>
    requires spells { Spells own.text sig.now }
    requires name { own.name ≡ name_of sig.now }
    ensures file { IfOk result (λ made. made.file ≡ record_file (new_stored index.now sig.now manifest.now)) }
    ensures row { IfOk result (λ made. made.row ≡ row_of_stored (new_stored index.now sig.now manifest.now)) }
    ensures spelled { IfOk result (λ made. IsInOrder (new_stored index.now sig.now manifest.now)
        → SpellsStored (record_bytes (new_stored index.now sig.now manifest.now))
        (new_stored index.now sig.now manifest.now)) }
{
    let unihash = new_unihash(index, sig, &own.name, manifest);
    let manifest = copy_manifest(alloc, manifest)?;
    let sig = copy_signature(alloc, sig, &own.text)?;
    record_of(
        alloc,
        own,
        StoredSig {
            sig,
            manifest,
            unihash,
        },
    )
}

/// What a publication is to put, besides the tree.
#[derive(Drop)]
pub(crate) struct Draft {
    /// The name of the task's record.
    pub(crate) name: Hash,
    /// The whole text of its signature.
    pub(crate) text: SigText,
    /// The task's unihash.
    pub(crate) unihash: Hash,
    /// The record's file and its row, where none is stored.
    pub(crate) new: Option<NewRecord>,
}

/// Compares a key with the known one of its name.
fn same_key(alloc: Global, name: Hash, held: &[u8], key: &[u8]) -> Result<(), StoreFault>
    ensures ok { OnOk result (held.now ≡ key.now) }
    ensures err { IfErr result (IsKeyOther name held.now key.now) }
    ensures inside { store_failed result ≡ false }
{
    if same_bytes(held, key) {
        return Ok(());
    }
    Err(collision(alloc, name, held, key)?)
}

/// Compares the key of a signature with the known one of its name, if there is one.
fn check_key(alloc: Global, keys: &KnownKeys, sig: &SigText) -> Result<(), StoreFault>
    ensures ok { OnOk result ((key : List ℕ) → key_named keys.now (text_key sig.now) ≡ Some key → key ≡ key_part sig.now) }
    ensures err { IfErr result (IsKeyClash keys.now sig.now) }
    ensures inside { store_failed result ≡ false }
{
    let name = Hash::of(sig.key());
    match keys.key(&name) {
        Some(held) => same_key(alloc, name, held.as_slice(), sig.key()),
        None => Ok(()),
    }
}

/// What is put for a task whose record is stored.
fn known_draft(
    alloc: Global,
    task: &PlanTask,
    row: &EquivRow,
    own: Named,
    manifest: &Manifest,
) -> Result<Draft, StoreFault>
    requires row { IsRow row.now }
    requires named { row.now.name ≡ text_name own.text }
    ensures name { IfOk result (λ draft. draft.name ≡ own.name) }
    ensures text { IfOk result (λ draft. draft.text ≡ own.text) }
    ensures known { IfOk result (λ draft. (draft.unihash ≡ row.now.unihash) × (draft.new ≡ None)) }
    ensures agrees { OnOk result ((row.now.sig ≡ own.text) × (row.now.manifest ≡ manifest.now)) }
    ensures err { IfErr result (IsKnownFault task.now row.now own.text manifest.now) }
    ensures inside { store_failed result ≡ false }
{
    let unihash = known_unihash(alloc, task, row, &own.text, manifest)?;
    Ok(Draft {
        name: own.name,
        text: own.text,
        unihash,
        new: None,
    })
}

/// What is put for a task of which no record is stored.
fn new_draft(
    alloc: Global,
    index: &Index,
    sig: &SigRecord,
    own: Named,
    manifest: &Manifest,
) -> Result<Draft, Mem>
    requires spells { Spells own.text sig.now }
    requires name { own.name ≡ name_of sig.now }
    ensures name { IfOk result (λ draft. draft.name ≡ own.name) }
    ensures text { IfOk result (λ draft. draft.text ≡ own.text) }
    ensures unihash { IfOk result (λ draft. draft.unihash ≡ (new_stored index.now sig.now manifest.now).unihash) }
    ensures new { IfOk result (λ draft. IsNew draft.new (new_stored index.now sig.now manifest.now)) }
{
    let text = own.text.copy()?;
    let name = own.name;
    let new = new_record(alloc, index, sig, own, manifest)?;
    Ok(Draft {
        name,
        text,
        unihash: new.row.unihash,
        new: Some(new),
    })
}

/// What a publication of a task is to put, for a tree with this manifest. `Collision` where the row of its name has another signature, or where another key is
/// known by the name of its key.
pub(crate) fn draft_of(
    alloc: Global,
    index: &Index,
    keys: &KnownKeys,
    task: &PlanTask,
    sig: &SigRecord,
    manifest: &Manifest,
) -> Result<Draft, StoreFault>
    requires spelled { IsSpelled sig.now }
    requires rows { AllByRecursion IsRow index.now }
    requires known { KnowsRows keys.now index.now }
    ensures text { IfOk result (λ draft. draft.text ≡ signature_bytes sig.now) }
    ensures draft { IfOk result (λ draft. (tree : Entries) → manifest.now ≡ manifest_lines tree
        → IsDraft index.now (signed_by task.now sig.now) tree draft) }
    ensures one_key { OnOk result (HasNoOtherKey keys.now sig.now) }
    ensures refused { IfErr result (λ fault. (tree : Entries) → manifest.now ≡ manifest_lines tree
        → IsRefusal index.now keys.now (signed_by task.now sig.now) tree fault) }
    ensures inside { store_failed result ≡ false }
{
    let own = name_of_sig(alloc, sig)?;
    match index.row(&own.name) {
        Some(row) => known_draft(alloc, task, row, own, manifest),
        None => match check_key(alloc, keys, &own.text) {
            Ok(()) => Ok(new_draft(alloc, index, sig, own, manifest)?),
            Err(fault) => Err(fault),
        },
    }
}
