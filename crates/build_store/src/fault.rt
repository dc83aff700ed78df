// Why a call of a store is refused.
ghost use Rattle.std.specs.Prelude.{◌≡◌};
ghost use Rattle.build_store.specs.declared.fault.StoreFault.TheVariants as faults_of;

use outside_traits::DiskFault;
use std::alloc::{AllocError, AllocFailed};
use tree_model::{Bytes, Hash, Manifest, Mem, Text};

/// Why a call of a store is refused.
#[derive(Debug, Drop)]
pub enum StoreFault {
    /// The disk failed; its count of faults rose.
    Disk,
    /// Two byte strings that differ have one digest: what the store has, and what was given. They are the short texts of two signatures, of which this is the
    /// name, or two keys.
    Collision {
        name: Hash,
        held: Bytes,
        given: Bytes,
    },
    /// The task's record tells of another output than the one that was given: the manifests of the two.
    Unsteady {
        pn: Text,
        task: Text,
        held: Manifest,
        given: Manifest,
    },
    /// Want of memory.
    Memory,
}

impl From<Mem> for StoreFault {
    ghost from_gives = { λ _ e. e ≡ faults_of.Memory };

    fn from(_: Mem) -> Self {
        StoreFault::Memory
    }
}

impl From<AllocError> for StoreFault {
    ghost from_gives = { λ _ e. e ≡ faults_of.Memory };

    fn from(_: AllocError) -> Self {
        StoreFault::Memory
    }
}

impl<T: Drop> From<AllocFailed<T>> for StoreFault {
    ghost from_gives = { λ _ e. e ≡ faults_of.Memory };

    fn from(_: AllocFailed<T>) -> Self {
        StoreFault::Memory
    }
}

impl From<DiskFault> for StoreFault {
    ghost use Rattle.build_store.specs.Faults.{of_disk};

    ghost from_gives = { λ f e. e ≡ of_disk f };

    fn from(fault: DiskFault) -> Self {
        match fault {
            DiskFault::Failed => StoreFault::Disk,
            DiskFault::Memory => StoreFault::Memory,
        }
    }
}
