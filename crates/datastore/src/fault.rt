// Why a value can't be given.
ghost use Rattle.std.specs.Prelude.{◌≡◌, IfOk, is_some, not};
ghost use Rattle.var_expand.specs.Faults.{IsFaultOf};
ghost use Rattle.datastore.specs.Faults.{data_refusal, refusal_of, refused_by};

use std::alloc::AllocFailed;
use tree_model::{Mem, Texts};
use var_expand::ExpandFault;

/// Why a store doesn't give a value, or want of memory.
#[derive(Debug, Drop)]
pub enum DataFault {
    /// The active overrides don't settle: five passes brought no two equal lists in a row; these are the lists of the last
    /// two (own rule).
    Unstable { before: Texts, last: Texts },
    /// A text isn't expanded; its own fault tells why.
    Expand(ExpandFault),
    /// Memory ran out.
    Memory,
}

impl DataFault {
    /// Whether it is want of memory, of the store's own or of an expansion's.
    pub fn is_memory(&self) -> bool
        ensures { result ≡ not (is_some (data_refusal self.now)) }
    {
        match self {
            DataFault::Unstable { .. } => false,
            DataFault::Expand(fault) => is_expand_memory(fault),
            DataFault::Memory => true,
        }
    }
}

/// Whether a fault of expansion is want of memory.
fn is_expand_memory(fault: &ExpandFault) -> bool
    ensures { result ≡ not (is_some (refusal_of fault.now)) }
{
    match fault {
        ExpandFault::ValueCycle { .. }
        | ExpandFault::TooDeep { .. }
        | ExpandFault::TooLong { .. }
        | ExpandFault::Unstable { .. } => false,
        ExpandFault::Memory => true,
    }
}

impl From<Mem> for DataFault {
    ghost use Rattle.std.specs.Prelude.{◌≡◌};
    ghost use Rattle.datastore.specs.Faults.{IsWantOfMemory};

    ghost from_gives = { λ _ fault. IsWantOfMemory fault };

    fn from(_: Mem) -> DataFault {
        DataFault::Memory
    }
}

impl<T: Drop> From<AllocFailed<T>> for DataFault {
    ghost use Rattle.std.specs.Prelude.{◌≡◌};
    ghost use Rattle.datastore.specs.Faults.{IsWantOfMemory};

    ghost from_gives = { λ _ fault. IsWantOfMemory fault };

    fn from(_: AllocFailed<T>) -> DataFault {
        DataFault::Memory
    }
}

impl From<ExpandFault> for DataFault {
    ghost use Rattle.std.specs.Prelude.{◌≡◌};
    ghost use Rattle.datastore.specs.Faults.{told_as};

    ghost from_gives = { λ fault made. made ≡ told_as fault };

    fn from(fault: ExpandFault) -> DataFault {
        match fault {
            ExpandFault::ValueCycle { name } => DataFault::Expand(ExpandFault::ValueCycle { name }),
            ExpandFault::TooDeep { name } => DataFault::Expand(ExpandFault::TooDeep { name }),
            ExpandFault::TooLong { name } => DataFault::Expand(ExpandFault::TooLong { name }),
            ExpandFault::Unstable { before, last } => DataFault::Unstable { before, last },
            ExpandFault::Memory => DataFault::Memory,
        }
    }
}

/// The same fault again.
pub fn copy_fault(fault: &ExpandFault) -> Result<ExpandFault, Mem>
    ensures { IfOk result (λ made. made ≡ fault.now) }
{
    Ok(match fault {
        ExpandFault::ValueCycle { name } => ExpandFault::ValueCycle { name: name.copy()? },
        ExpandFault::TooDeep { name } => ExpandFault::TooDeep { name: name.copy()? },
        ExpandFault::TooLong { name } => ExpandFault::TooLong { name: name.copy()? },
        ExpandFault::Unstable { before, last } => ExpandFault::Unstable {
            before: before.copy()?,
            last: last.copy()?,
        },
        ExpandFault::Memory => ExpandFault::Memory,
    })
}

/// The same fault again, or want of memory.
pub(crate) fn copy_or_memory(fault: &ExpandFault) -> ExpandFault
    ensures { IsFaultOf result (refused_by fault.now) }
{
    match copy_fault(fault) {
        Ok(made) => made,
        Err(_) => ExpandFault::Memory,
    }
}
