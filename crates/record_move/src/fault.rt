// Why a move is refused.

use store_model::SigText;
use tree_model::{Bytes, Hash, Mem};

/// Why records aren't moved. Nothing was written by then.
#[derive(Debug, Drop)]
pub enum MoveFault {
    /// Two different signatures have one name, which is the digest of the short texts of both.
    Collision {
        /// The name.
        name: Hash,
        /// The whole text of the signature that has it in the new format.
        held: SigText,
        /// That of the one that was to be moved.
        given: SigText,
    },
    /// Two different keys have one name, which is the digest of both.
    KeyCollision {
        /// The name.
        name: Hash,
        /// The bytes of the key that is known by it.
        held: Bytes,
        /// Those of the key of the record that was to be moved.
        given: Bytes,
    },
    /// Memory was wanting.
    Memory,
}

impl From<Mem> for MoveFault {
    ghost use Rattle.std.specs.Prelude.{◌≡◌};
    ghost use Rattle.record_move.specs.declared.fault.MoveFault.TheVariants.{Memory};

    ghost from_gives = { λ _ fault. fault ≡ Memory };

    fn from(_: Mem) -> MoveFault {
        MoveFault::Memory
    }
}
