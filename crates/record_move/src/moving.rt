// The move of a store's records.
ghost use Rattle.std.specs.Prelude.{◌≡◌, ◌++◌, ◌∷◌, [], All, IfErr, IfOk, List, OnOk, length, map};
ghost use Rattle.store_model.specs.Origins.{Book, Line};
ghost use Rattle.store_move.specs.Formats.{Format, rows_of};
ghost use Rattle.store_move.specs.Moves.{AreClear, begun, IsClear, Move, moved_from, present, step};
ghost use Rattle.store_model.specs.Sound.{IsSignature};
ghost use Rattle.store_model.specs.Spelled.{IsSpelled};
ghost use Rattle.store_model.specs.Spelling.{key_bytes, name_of, signature_bytes};
ghost use Rattle.record_move.specs.Adding.{AreFew, AreRoundsOf, IsOther, Stands};
ghost use Rattle.record_move.specs.Named.{PutsFirst};
ghost use Rattle.record_move.specs.Known.{IsKnown, KnowMore, KnowsKey};
ghost use Rattle.record_move.specs.Faults.{IsFaultAt, IsKeyFault, IsMoveFault};
ghost use Rattle.record_move.specs.Going.{IsGoing};
ghost use Rattle.record_move.specs.Moved.{AreLinesOf, AreSpelled, IsLineOf, IsMoveOf, StandWell};

use crate::adding::{Adding, add, standing};
use crate::fault::MoveFault;
use crate::keys::KnownKeys;
use crate::records::{AddedRecord, MovedRecord, OldRecord};
use crate::renaming::{put_first, renamed_sig};
use hash_equiv::Index;
use indexmap::IndexMap;
use sig_gen::{encode, encode_key, name_by};
use std::alloc::Global;
use store_model::{SigRecord, StoredSig};
use tree_model::{Bytes, Hash, Manifest, Mem};

/// What a move has made so far.
#[derive(Drop)]
struct Moving {
    rows: Index,
    keys: KnownKeys,
    names: IndexMap<[u8; 32], Hash>,
    records: Vec<MovedRecord>,
    adding: Adding,
}

/// What a move makes, in memory: nothing of it is written.
#[derive(Drop)]
pub struct Moved {
    /// The rows of what stood in the new format, and of what is added.
    pub rows: Index,
    /// The keys that were known, and behind them those of moved records that weren't.
    pub keys: KnownKeys,
    /// What becomes of each old record, in their order.
    pub records: Vec<MovedRecord>,
    /// The records that are added, in their order, each behind those that it names.
    pub added: Vec<AddedRecord>,
}

/// The record that stands for an old one.
#[derive(Clone, Copy)]
struct Standing {
    name: Hash,
    unihash: Hash,
}

/// The key of a signature is known from here on.
fn know_key(alloc: Global, keys: &mut KnownKeys, sig: &SigRecord) -> Result<(), MoveFault>
    ensures known { OnOk result (IsKnown keys.new sig.now.key) }
    ensures more { OnOk result (KnowsKey keys.old sig.now.key keys.new) }
    ensures err { IfErr result (IsKeyFault keys.old (key_bytes sig.now.key)) }
{
    keys.add(encode_key(alloc, &sig.key)?)
}

/// The record that stands for one of this signature: one that is there, or a new one, which is added.
fn stand_for(
    alloc: Global,
    rows: &mut Index,
    adding: &mut Adding,
    sig: SigRecord,
    manifest: Manifest,
) -> Result<Standing, MoveFault>
    requires { AreFew adding.old.rounds.entries (length adding.old.added.items) }
    ensures name { IfOk result (λ stands. stands.name ≡ name_of sig) }
    ensures stands { IfOk result (λ stands. AreRoundsOf adding.old.added.items adding.old.rounds.entries
        → Stands rows.old adding.old sig manifest stands.unihash rows.new adding.new) }
    ensures few { OnOk result (AreFew adding.new.rounds.entries (length adding.new.added.items)) }
    ensures sound { OnOk result (IsSpelled sig → IsSignature sig) }
    ensures err { IfErr result (IsOther rows.old (name_of sig) (signature_bytes sig)) }
{
    let text = encode(alloc, &sig)?;
    let name = name_by(&text);
    match standing(rows, &name, &text)? {
        Some(unihash) => Ok(Standing { name, unihash }),
        None => {
            let unihash = add(alloc, rows, adding, name, text, sig, manifest)?;
            Ok(Standing { name, unihash })
        }
    }
}

/// Notes what became of an old record.
fn note(
    names: &mut IndexMap<[u8; 32], Hash>,
    records: &mut Vec<MovedRecord>,
    moved: MovedRecord,
) -> Result<(), Mem>
    ensures names { OnOk result (PutsFirst names.old.entries names.new.entries moved.old_name moved.unihash) }
    ensures records { OnOk result (records.new.items ≡ records.old.items ++ moved ∷ []) }
{
    put_first(names, &moved.old_name, moved.unihash)?;
    records.push(moved)?;
    Ok(())
}

/// Moves one record behind those that it names.
fn move_one(alloc: Global, moving: &mut Moving, old: OldRecord) -> Result<(), MoveFault>
    requires { AreFew moving.old.adding.rounds.entries (length moving.old.adding.added.items) }
    ensures few { OnOk result (AreFew moving.new.adding.rounds.entries (length moving.new.adding.added.items)) }
    ensures going { OnOk result ((from : Format) (start : Book) (move : Move) (line : Line) → IsGoing from start move moving.old → IsLineOf from old line
        → IsGoing from start (step from present move line) moving.new) }
    ensures clear { OnOk result ((from : Format) (start : Book) (move : Move) (line : Line) → IsGoing from start move moving.old → IsLineOf from old line
        → IsSpelled line.sig → StandWell moving.old.keys move.book → IsClear from present move line) }
    ensures well { OnOk result ((from : Format) (start : Book) (move : Move) (line : Line) → IsGoing from start move moving.old → IsLineOf from old line
        → IsSpelled line.sig → StandWell moving.old.keys move.book
        → StandWell moving.new.keys (step from present move line).book) }
    ensures keys { OnOk result (KnowsKey moving.old.keys old.stored.sig.key moving.new.keys) }
    ensures err { IfErr result (λ fault. (from : Format) (start : Book) (move : Move) (line : Line) → IsGoing from start move moving.old
        → IsLineOf from old line → IsFaultAt from move moving.old.keys line fault) }
{
    let OldRecord {
        name: old_name,
        stored,
    } = old;
    let StoredSig {
        sig,
        manifest,
        unihash: old_unihash,
    } = stored;
    let sig = renamed_sig(alloc, &moving.names, sig)?;
    know_key(alloc, &mut moving.keys, &sig)?;
    let stands = stand_for(alloc, &mut moving.rows, &mut moving.adding, sig, manifest)?;
    let moved = MovedRecord {
        old_name,
        old_unihash,
        name: stands.name,
        unihash: stands.unihash,
    };
    note(&mut moving.names, &mut moving.records, moved)?;
    Ok(())
}

/// Moves records, each of which stands behind those that it names, behind what stands in the present format: by its rows and the known keys. Each
/// gets its needed tasks by the unihashes of the records that stand for those that it named (own rule), and the unihash of a new record; one whose new
/// name stands already with the same signature counts as that record, and none is added for it. The records may have either format, or any: the names
/// alone that they have in theirs are used.
///
/// `Collision` comes where two different signatures have one name, `KeyCollision` where two different keys have one. What was given is let go then.
pub fn move_records(
    alloc: Global,
    olds: Vec<OldRecord>,
    rows: Index,
    keys: KnownKeys,
) -> Result<Moved, MoveFault>
    // the rows, what became of each old record, and what is added, with its rounds: those of the move, whatever book has these records
    ensures moved { IfOk result (λ made. (from : Format) (book start : Book) → AreLinesOf from olds.items book → rows ≡ rows_of present start
        → IsMoveOf from start (moved_from from present (begun start) book) made.rows made.records.items made.added.items) }
    // the move met no collision
    ensures clear { IfOk result (λ made. (from : Format) (book start : Book) → AreLinesOf from olds.items book → rows ≡ rows_of present start
        → AreSpelled book → StandWell keys start → AreClear from present (begun start) book) }
    // its whole book stands well with the keys that are known then
    ensures well { IfOk result (λ made. (from : Format) (book start : Book) → AreLinesOf from olds.items book → rows ≡ rows_of present start
        → AreSpelled book → StandWell keys start
        → StandWell made.keys (moved_from from present (begun start) book).book) }
    ensures keys { IfOk result (λ made. KnowMore keys olds.items made.keys) }
    ensures err { IfErr result (λ fault. (from : Format) (book start : Book) → AreLinesOf from olds.items book → rows ≡ rows_of present start
        → IsMoveFault from start book keys fault) }
{
    let mut moving = Moving {
        rows,
        keys,
        names: IndexMap::new(alloc),
        records: Vec::new(alloc),
        adding: Adding {
            added: Vec::new(alloc),
            rounds: IndexMap::new(alloc),
        },
    };
    for old in olds {
        move_one(alloc, &mut moving, old)?;
    }
    let Moving {
        rows,
        keys,
        names: _,
        records,
        adding,
    } = moving;
    let Adding { added, rounds: _ } = adding;
    Ok(Moved {
        rows,
        keys,
        records,
        added,
    })
}
