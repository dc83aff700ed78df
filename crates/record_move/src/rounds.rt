// In which round an added record is put.
ghost use Rattle.std.specs.Prelude.{◌≡◌, ◌≤◌, ◌<◌, ◌+◌, ◌^◌, List, ℕ, Some, fold, max};
ghost use Rattle.store_model.specs.declared.signature.DepLine.{DepLine as Dep};
ghost use Rattle.record_move.specs.declared.records.AddedRecord.{AddedRecord as Added};
ghost use Rattle.record_move.specs.Named.{value_at};
ghost use Rattle.record_move.specs.Rounds.{behind, round_for, round_of};
ghost use Rattle.tree_model.specs.declared.hash.Hash.{Hash as AHash};

use crate::renaming::value_of;
use indexmap::IndexMap;
use store_model::{DepLine, StoredSig};
use tree_model::Hash;

/// The first round behind that of a name.
fn round_behind(rounds: &IndexMap<[u8; 32], usize>, name: &Hash) -> usize
    requires { (q : AHash) (round : ℕ) → value_at rounds.now.entries q ≡ Some round → round + 1 < 2 ^ 64 }
    ensures { result ≡ behind (value_at rounds.now.entries name.now) }
{
    match value_of(rounds, name) {
        Some(round) => round + 1,
        None => 0,
    }
}

/// The first round behind those of the names of needed tasks.
fn round_behind_all(rounds: &IndexMap<[u8; 32], usize>, deps: &[DepLine]) -> usize
    requires { (q : AHash) (round : ℕ) → value_at rounds.now.entries q ≡ Some round → round + 1 < 2 ^ 64 }
    ensures { result ≡ fold (λ round (dep : Dep). max round (behind (value_at rounds.now.entries dep.name))) 0 deps.now }
{
    let mut round = 0;
    for dep in deps {
        round = round.max(round_behind(rounds, &dep.name));
    }
    round
}

/// The round of a record behind those that were added.
pub(crate) fn round_of_record(rounds: &IndexMap<[u8; 32], usize>, stored: &StoredSig) -> usize
    requires { (q : AHash) (round : ℕ) → value_at rounds.now.entries q ≡ Some round → round + 1 < 2 ^ 64 }
    ensures round { (added : List Added) → ((q : AHash) → value_at rounds.now.entries q ≡ round_of added q)
        → result ≡ round_for added stored.now }
    ensures few { (n : ℕ) → ((q : AHash) (round : ℕ) → value_at rounds.now.entries q ≡ Some round → round < n) → result ≤ n }
{
    round_behind_all(rounds, stored.sig.deps.as_slice()).max(round_behind(rounds, &stored.unihash))
}
