// Why a text is not expanded.
ghost use Rattle.std.specs.Prelude.{◌≡◌};
ghost use Rattle.var_expand.specs.Faults.{IsWantOfMemory};

use std::alloc::{AllocError, AllocFailed};
use tree_model::{Mem, Text, Texts};

/// Why a text isn't read.
#[derive(Clone, Copy, Debug, PartialEq, Eq)]
pub(crate) enum ReadFault {
    /// The text nests references more than 64 deep.
    TooDeep,
    /// Memory ran out.
    Memory,
}

impl From<Mem> for ReadFault {
    ghost use Rattle.std.specs.Prelude.{◌≡◌};
    ghost use Rattle.var_expand.specs.declared.fault.ReadFault.TheVariants.{Memory};

    ghost from_gives = { λ _ fault. fault ≡ Memory };

    fn from(_: Mem) -> ReadFault {
        ReadFault::Memory
    }
}

impl<T: Drop> From<AllocFailed<T>> for ReadFault {
    ghost use Rattle.std.specs.Prelude.{◌≡◌};
    ghost use Rattle.var_expand.specs.declared.fault.ReadFault.TheVariants.{Memory};

    ghost from_gives = { λ _ fault. fault ≡ Memory };

    fn from(_: AllocFailed<T>) -> ReadFault {
        ReadFault::Memory
    }
}

/// Why a text can't be read or expanded, or want of memory. The causes are own rules.
#[derive(Debug, Drop)]
pub enum ExpandFault {
    /// A name is met in the expansion of itself; it is the name that is met.
    ValueCycle { name: Text },
    /// More than 64 names would be in expansion at once, or a text nests references more than 64 deep; the name is the
    /// innermost one in expansion, or empty.
    TooDeep { name: Text },
    /// An expanded text would have more than 1,048,576 bytes; the name is the innermost one in expansion, or empty.
    TooLong { name: Text },
    /// What a name has can't be said, since the active overrides don't settle; these are the lists of the last two passes.
    /// It comes from the look-up alone.
    Unstable { before: Texts, last: Texts },
    /// Memory ran out.
    Memory,
}

impl From<Mem> for ExpandFault {
    ghost from_gives = { λ _ fault. IsWantOfMemory fault };

    fn from(_: Mem) -> ExpandFault {
        ExpandFault::Memory
    }
}

impl From<AllocError> for ExpandFault {
    ghost from_gives = { λ _ fault. IsWantOfMemory fault };

    fn from(_: AllocError) -> ExpandFault {
        ExpandFault::Memory
    }
}

impl<T: Drop> From<AllocFailed<T>> for ExpandFault {
    ghost from_gives = { λ _ fault. IsWantOfMemory fault };

    fn from(_: AllocFailed<T>) -> ExpandFault {
        ExpandFault::Memory
    }
}
