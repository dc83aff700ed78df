// The keys that are known.
ghost use Rattle.std.specs.Prelude.{◌≡◌, IfErr, IfOk, List, OnOk, Some, ℕ};
ghost use Rattle.record_move.specs.Known.{digest, key_named};
ghost use Rattle.store_model.specs.Spelling.{key_part};
ghost use Rattle.store_upgrade.specs.Faults.{IsDigestClash};
ghost use Rattle.sstate_mirror.specs.Steps.{AreRowsKnown};

use crate::gathering::row_at;
use hash_equiv::Index;
use record_move::{KnownKeys, MoveFault};
use std::alloc::Global;
use store_model::EquivRow;
use tree_model::Bytes;

/// Knows the key of a row.
fn know_row(alloc: Global, keys: &mut KnownKeys, row: &EquivRow) -> Result<(), MoveFault>
    ensures known { OnOk result (key_named keys.new (digest (key_part row.now.sig)) ≡ Some (key_part row.now.sig)) }
    ensures kept { OnOk result ((bytes : List ℕ) → key_named keys.old (digest bytes) ≡ Some bytes → key_named keys.new (digest bytes) ≡ Some bytes) }
    ensures err { IfErr result IsDigestClash }
{
    keys.add(Bytes::from_slice(alloc, row.sig.key())?)
}

/// The keys of rows, by their digests.
pub(crate) fn known_keys(alloc: Global, rows: &Index) -> Result<KnownKeys, MoveFault>
    ensures known { IfOk result (λ keys. AreRowsKnown keys rows.now) }
    ensures err { IfErr result IsDigestClash }
{
    let mut keys = KnownKeys::new(alloc);
    for place in 0..rows.len() {
        know_row(alloc, &mut keys, row_at(rows, place))?;
    }
    Ok(keys)
}
