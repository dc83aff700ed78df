// A record that is added to the new format.
ghost use Rattle.std.specs.Prelude.{◌≡◌, ◌++◌, ◌∷◌, [], IfErr, IfOk, None, OnOk, length};
ghost use Rattle.store_model.specs.Rows.{new_unihash, row_at};
ghost use Rattle.record_move.specs.Adding.{AddsRecord, AreFew, AreRoundsOf, IsFaultOf, IsOther, IsStanding, made_row, made_stored};

use crate::fault::MoveFault;
use crate::records::AddedRecord;
use crate::renaming::put_first;
use crate::rounds::round_of_record;
use hash_equiv::{Index, copy_manifest};
use indexmap::IndexMap;
use std::alloc::Global;
use store_model::{EquivRow, SigRecord, SigText, StoredSig};
use tree_model::{Hash, Manifest, Mem};

/// A signature of a name that another one has.
fn collision(name: &Hash, held: &SigText, given: &SigText) -> MoveFault
    ensures { IsFaultOf name.now held.now given.now result }
{
    match (held.copy(), given.copy()) {
        (Ok(held), Ok(given)) => MoveFault::Collision {
            name: *name,
            held,
            given,
        },
        _ => MoveFault::Memory,
    }
}

/// The unihash of the record of a name, where one stands. One of another signature is a collision.
pub(crate) fn standing(rows: &Index, name: &Hash, sig: &SigText) -> Result<Option<Hash>, MoveFault>
    ensures ok { IfOk result (IsStanding rows.now name.now sig.now) }
    ensures err { IfErr result (IsOther rows.now name.now sig.now) }
{
    match rows.row(name) {
        None => Ok(None),
        Some(row) if row.sig.is_same(sig) => Ok(Some(row.unihash)),
        Some(row) => Err(collision(name, &row.sig, sig)),
    }
}

/// The unihash of a new record: that of the first row with its PN, task and manifest, else its own name.
fn unihash_for(rows: &Index, name: &Hash, sig: &SigRecord, manifest: &Manifest) -> Hash
    ensures { result ≡ new_unihash rows.now name.now sig.now.pn sig.now.task manifest.now }
{
    match rows.first_for(sig.pn.as_str(), sig.task.as_str(), manifest.lines()) {
        Some(unihash) => unihash,
        None => *name,
    }
}

/// Adds the row of a record whose name has none.
fn add_row(
    alloc: Global,
    rows: &mut Index,
    name: &Hash,
    text: SigText,
    stored: &StoredSig,
) -> Result<(), Mem>
    requires { row_at rows.old name.now ≡ None }
    ensures { OnOk result (rows.new ≡ rows.old ++ made_row name.now text stored.now ∷ []) }
{
    let row = EquivRow {
        name: *name,
        pn: stored.sig.pn.copy()?,
        task: stored.sig.task.copy()?,
        sig: text,
        manifest: copy_manifest(alloc, &stored.manifest)?,
        unihash: stored.unihash,
    };
    match rows.add(alloc, row) {
        Ok(()) => Ok(()),
        Err(_) => Err(Mem),
    }
}

/// The records that are added, in their order, and the round of each by its name.
#[derive(Drop)]
pub(crate) struct Adding {
    pub(crate) added: Vec<AddedRecord>,
    pub(crate) rounds: IndexMap<[u8; 32], usize>,
}

/// Puts a record at the end of those that are added.
fn put_record(adding: &mut Adding, name: Hash, stored: StoredSig) -> Result<(), Mem>
    requires { AreFew adding.old.rounds.entries (length adding.old.added.items) }
    ensures adds { OnOk result (AreRoundsOf adding.old.added.items adding.old.rounds.entries
        → AddsRecord adding.old.added.items name stored adding.new.added.items adding.new.rounds.entries) }
    ensures few { OnOk result (AreFew adding.new.rounds.entries (length adding.new.added.items)) }
{
    let round = round_of_record(&adding.rounds, &stored);
    put_first(&mut adding.rounds, &name, round)?;
    adding.added.push(AddedRecord {
        name,
        stored,
        round,
    })?;
    Ok(())
}

/// Adds a record whose name has none, with the unihash of a new one, which is answered.
pub(crate) fn add(
    alloc: Global,
    rows: &mut Index,
    adding: &mut Adding,
    name: Hash,
    text: SigText,
    sig: SigRecord,
    manifest: Manifest,
) -> Result<Hash, Mem>
    requires none { row_at rows.old name ≡ None }
    requires few { AreFew adding.old.rounds.entries (length adding.old.added.items) }
    ensures unihash { IfOk result (λ unihash. unihash ≡ new_unihash rows.old name sig.pn sig.task manifest) }
    ensures rows { IfOk result (λ unihash. rows.new ≡ rows.old ++ made_row name text (made_stored rows.old name sig manifest) ∷ []) }
    ensures adds { OnOk result (AreRoundsOf adding.old.added.items adding.old.rounds.entries
        → AddsRecord adding.old.added.items name (made_stored rows.old name sig manifest) adding.new.added.items
        adding.new.rounds.entries) }
    ensures few { OnOk result (AreFew adding.new.rounds.entries (length adding.new.added.items)) }
{
    let unihash = unihash_for(rows, &name, &sig, &manifest);
    let stored = StoredSig {
        sig,
        manifest,
        unihash,
    };
    add_row(alloc, rows, &name, text, &stored)?;
    put_record(adding, name, stored)?;
    Ok(unihash)
}
