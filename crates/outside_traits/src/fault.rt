// How a call of a device may be refused.
ghost use Rattle.std.specs.Prelude.{◌≡◌};
ghost use Rattle.outside_traits.specs.declared.fault.ReadFault.TheVariants as read;
ghost use Rattle.outside_traits.specs.declared.fault.DiskFault.TheVariants as disk;
ghost use Rattle.outside_traits.specs.declared.fault.BenchFault.TheVariants as bench;

use std::alloc::{AllocError, AllocFailed};
use tree_model::Mem;

/// Why the layers refuse a call.
#[derive(Clone, Copy, Debug, PartialEq, Eq)]
pub enum ReadFault {
    /// The layers failed; their count of faults rose.
    Failed,

    /// The file has more bytes than were asked for.
    TooLong,

    /// Want of memory.
    Memory,
}

/// Why a disk refuses a call.
#[derive(Clone, Copy, Debug, PartialEq, Eq)]
pub enum DiskFault {
    /// The disk failed; its count of faults rose.
    Failed,

    /// Want of memory.
    Memory,
}

/// Why a bench refuses a call.
#[derive(Clone, Copy, Debug, PartialEq, Eq)]
pub enum BenchFault {
    /// The bench failed; its count of faults rose.
    Failed,

    /// Want of memory.
    Memory,
}

/// The sink failed; its count of faults rose.
#[derive(Clone, Copy, Debug, PartialEq, Eq)]
pub struct SinkFault;

impl From<Mem> for ReadFault {
    ghost from_gives = { λ _ e. e ≡ read.Memory };

    fn from(_: Mem) -> Self {
        ReadFault::Memory
    }
}

impl From<Mem> for DiskFault {
    ghost from_gives = { λ _ e. e ≡ disk.Memory };

    fn from(_: Mem) -> Self {
        DiskFault::Memory
    }
}

impl From<AllocError> for DiskFault {
    ghost from_gives = { λ _ e. e ≡ disk.Memory };

    fn from(_: AllocError) -> Self {
        DiskFault::Memory
    }
}

impl<T: Drop> From<AllocFailed<T>> for DiskFault {
    ghost from_gives = { λ _ e. e ≡ disk.Memory };

    fn from(_: AllocFailed<T>) -> Self {
        DiskFault::Memory
    }
}

impl From<Mem> for BenchFault {
    ghost from_gives = { λ _ e. e ≡ bench.Memory };

    fn from(_: Mem) -> Self {
        BenchFault::Memory
    }
}
