// Why records aren't brought.
ghost use Rattle.std.specs.Prelude.{◌≡◌};
ghost use Rattle.sstate_mirror.specs.Faults.{of_mirror};

use outside_traits::DiskFault;
use record_move::MoveFault;
use store_model::SigText;
use tree_model::{Bytes, Hash, Manifest, Mem, Text};

/// Why records aren't brought. Where it is neither of the two disks that failed nor memory, nothing was written.
#[derive(Debug, Drop)]
pub enum BringFault {
    /// The mirror failed; its count of faults rose.
    Mirror,
    /// The own disk failed; its count of faults rose. It holds what it held, or some of what comes.
    Disk,
    /// Two different signatures have one name, which is the digest of the short texts of both.
    Collision {
        /// The name.
        name: Hash,
        /// The whole text of the signature that has it in the own store, or of a record that came before.
        held: SigText,
        /// That of the mirror's record, in the names that stand here.
        given: SigText,
    },
    /// Two different keys have one name, which is the digest of both.
    KeyCollision {
        /// The name.
        name: Hash,
        /// The bytes of the key that is known by it.
        held: Bytes,
        /// Those of the key of the mirror's record.
        given: Bytes,
    },
    /// Two records have one signature, in the names that stand here, and different manifests: a task's output differs from one run to another.
    Differs {
        /// The PN of the mirror's record.
        pn: Text,
        /// Its task.
        task: Text,
        /// The manifest of the record that has it in the own store, or of one that came before.
        held: Manifest,
        /// That of the mirror's record.
        given: Manifest,
    },
    /// Memory was wanting.
    Memory,
}

impl From<Mem> for BringFault {
    ghost use Rattle.std.specs.Prelude.{◌≡◌};
    ghost use Rattle.sstate_mirror.specs.declared.fault.BringFault.TheVariants.{Memory};

    ghost from_gives = { λ _ fault. fault ≡ Memory };

    fn from(_: Mem) -> BringFault {
        BringFault::Memory
    }
}

impl From<DiskFault> for BringFault {
    ghost use Rattle.std.specs.Prelude.{◌≡◌};
    ghost use Rattle.sstate_mirror.specs.Faults.{of_disk};

    ghost from_gives = { λ given fault. fault ≡ of_disk given };

    fn from(given: DiskFault) -> BringFault {
        match given {
            DiskFault::Failed => BringFault::Disk,
            DiskFault::Memory => BringFault::Memory,
        }
    }
}

impl From<MoveFault> for BringFault {
    ghost use Rattle.std.specs.Prelude.{◌≡◌};
    ghost use Rattle.sstate_mirror.specs.Faults.{of_move};

    ghost from_gives = { λ given fault. fault ≡ of_move given };

    fn from(given: MoveFault) -> BringFault {
        match given {
            MoveFault::Collision { name, held, given } => BringFault::Collision {
                name,
                held,
                given,
            },
            MoveFault::KeyCollision { name, held, given } => {
                BringFault::KeyCollision { name, held, given }
            }
            MoveFault::Memory => BringFault::Memory,
        }
    }
}

/// What a fault of the mirror's disk is called.
pub(crate) fn of_mirror(given: DiskFault) -> BringFault
    ensures { result ≡ of_mirror given }
{
    match given {
        DiskFault::Failed => BringFault::Mirror,
        DiskFault::Memory => BringFault::Memory,
    }
}
