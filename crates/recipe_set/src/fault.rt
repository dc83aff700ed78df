// Why recipes can't be read.
ghost use Rattle.std.specs.Prelude.{◌≡◌, false, Some};
ghost use Rattle.std.specs.Option.{option_map};
ghost use Rattle.load_model.specs.Recipes as meant;
ghost use Rattle.class_inherit.specs.Faults.{is_read, load_refusal};
ghost use Rattle.datastore.specs.Faults.{data_refusal};
ghost use Rattle.recipe_set.specs.Faults.{set_refusal, is_failure, IsTold};

use class_inherit::LoadFault;
use datastore::DataFault;
use std::alloc::Global;
use tree_model::{Mem, Text};

/// Why recipes can't be read.
#[derive(Debug, Drop)]
pub enum SetFault {
    /// The name of the file, or the PN that it has after all files, is none.
    BadName { file: Text },
    /// The append belongs to no recipe.
    DanglingAppend { file: Text },
    /// A file isn't loaded. Its kind is `Read` only where the layers' count of faults rose.
    Load(LoadFault),
    /// There are more than 2,000 recipe files.
    Recipes,
    /// A value of the file, or where the file is empty of the configuration, can't be given.
    Data { file: Text, fault: DataFault },
    /// Memory ran out.
    Memory,
}

impl From<Mem> for SetFault {
    ghost use Rattle.recipe_set.specs.Faults.{IsWantOfMemory};

    ghost from_gives = { λ _ fault. IsWantOfMemory fault };

    fn from(_: Mem) -> SetFault {
        SetFault::Memory
    }
}

/// A name that is none.
pub(crate) fn bad_name(alloc: Global, file: &str) -> SetFault
    ensures told { IsTold result (Some (meant.bad_name file.now)) }
    ensures no_failure { is_failure result ≡ false }
{
    match Text::from_str(alloc, file) {
        Ok(file) => SetFault::BadName { file },
        Err(_) => SetFault::Memory,
    }
}

/// A file that isn't loaded.
pub(crate) fn load_told(fault: LoadFault) -> SetFault
    ensures told { set_refusal result ≡ option_map meant.load (load_refusal fault) }
    ensures failure { is_failure result ≡ is_read fault.kind }
{
    if fault.is_memory() {
        SetFault::Memory
    } else {
        SetFault::Load(fault)
    }
}

/// A value of a file that can't be given.
pub(crate) fn data_told(alloc: Global, file: &str, fault: DataFault) -> SetFault
    ensures told { IsTold result (option_map (meant.no_value file.now) (data_refusal fault)) }
    ensures no_failure { is_failure result ≡ false }
{
    if fault.is_memory() {
        return SetFault::Memory;
    }
    match Text::from_str(alloc, file) {
        Ok(file) => SetFault::Data { file, fault },
        Err(_) => SetFault::Memory,
    }
}
