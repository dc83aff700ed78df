// Why a task has no script.
ghost use Rattle.std.specs.Prelude.{◌≡◌};
ghost use Rattle.script_gen.specs.declared.fault.ScriptFault.TheVariants.{Memory as WantOfMemory};
ghost use Rattle.script_gen.specs.Told.{told, told_by};

use datastore::DataFault;
use std::alloc::AllocFailed;
use tree_model::{Mem, Text};
use var_expand::ExpandFault;

/// Why a task has no script, or no places.
#[derive(Debug, Drop)]
pub enum ScriptFault {
    /// A word of a flag can't be used (own rule): in `[dirs]` or `[cleandirs]` one that isn't `${WORKDIR}` or a clean path of name
    /// characters in it; in `[prefuncs]` or `[postfuncs]` one that is no function, or has a character that no name in a key has; in
    /// `[sstate-inputdirs]` or `[sstate-outputdirs]` one that, without a `${WORKDIR}/` in front, is neither `.` nor such a path, or
    /// the first one without a partner.
    BadFlag { flag: Text, word: Text },
    /// A value that is asked for isn't given.
    Data(DataFault),
    /// Memory ran out.
    Memory,
}

impl From<Mem> for ScriptFault {
    ghost from_gives = { λ _ fault. fault ≡ WantOfMemory };

    fn from(_: Mem) -> ScriptFault {
        ScriptFault::Memory
    }
}

impl<T: Drop> From<AllocFailed<T>> for ScriptFault {
    ghost from_gives = { λ _ fault. fault ≡ WantOfMemory };

    fn from(_: AllocFailed<T>) -> ScriptFault {
        ScriptFault::Memory
    }
}

impl From<DataFault> for ScriptFault {
    ghost from_gives = { λ fault made. made ≡ told fault };

    fn from(fault: DataFault) -> ScriptFault {
        match fault {
            DataFault::Unstable { before, last } => ScriptFault::Data(DataFault::Unstable {
                before,
                last,
            }),
            DataFault::Expand(fault) => ScriptFault::Data(DataFault::Expand(fault)),
            DataFault::Memory => ScriptFault::Memory,
        }
    }
}

impl From<ExpandFault> for ScriptFault {
    ghost from_gives = { λ fault made. made ≡ told_by fault };

    fn from(fault: ExpandFault) -> ScriptFault {
        match fault {
            ExpandFault::ValueCycle { name } => ScriptFault::Data(DataFault::Expand(
                ExpandFault::ValueCycle { name },
            )),
            ExpandFault::TooDeep { name } => ScriptFault::Data(DataFault::Expand(
                ExpandFault::TooDeep { name },
            )),
            ExpandFault::TooLong { name } => ScriptFault::Data(DataFault::Expand(
                ExpandFault::TooLong { name },
            )),
            ExpandFault::Unstable { before, last } => ScriptFault::Data(DataFault::Unstable {
                before,
                last,
            }),
            ExpandFault::Memory => ScriptFault::Memory,
        }
    }
}
