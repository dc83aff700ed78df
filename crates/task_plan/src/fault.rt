// Why a graph has no plan.
ghost use Rattle.std.specs.Prelude.{◌≡◌, false, Some, IfOk};
ghost use Rattle.std.specs.Option.{option_map};
ghost use Rattle.datastore.specs.Faults.{data_refusal};
ghost use Rattle.script_gen.specs.Faults.{refusal_of};
ghost use Rattle.plan_model.specs.PlanRefusal as meant;
ghost use Rattle.task_plan.specs.declared.fault.PlanFault.TheVariants.{MissingFile as NoFile};
ghost use Rattle.task_plan.specs.Faults.{IsTold, is_failure};

use datastore::DataFault;
use script_gen::ScriptFault;
use std::alloc::Global;
use thiserror::Error;
use tree_model::{Mem, Text};

/// Why a graph has no plan. The causes are own rules.
#[derive(Debug, Drop, Error)]
pub enum PlanFault {
    /// A word of a flag of one of the recipe's tasks can't be used; `script_gen` says which words.
    #[error("{}: [{}] can't have {}", .file.as_str(), .flag.as_str(), .word.as_str())]
    BadFlag { file: Text, flag: Text, word: Text },
    /// A text of the recipe can't be expanded.
    #[error("{}: {fault:?}", .file.as_str())]
    Data { file: Text, fault: DataFault },
    /// A word of `[file-checksums]` names no file; it is the word without `:True`.
    #[error("{}: there is no file {}", .file.as_str(), .word.as_str())]
    MissingFile { file: Text, word: Text },
    /// The input file at this path has more than 16,777,216 bytes.
    #[error("{} has more than 16,777,216 bytes", .path.as_str())]
    InputBytes { path: Text },
    /// The keys' lines and the scripts together have more than 268,435,456 bytes, or the input files have.
    #[error("the plan has more than 268,435,456 bytes")]
    PlanBytes,
    /// The layers failed; their count of faults rose.
    #[error("the layers can't be read")]
    Read,
    /// Memory ran out.
    #[error("out of memory")]
    Memory,
}

impl From<Mem> for PlanFault {
    ghost use Rattle.task_plan.specs.Faults.{IsWantOfMemory};

    ghost from_gives = { λ _ fault. IsWantOfMemory fault };

    fn from(_: Mem) -> PlanFault {
        PlanFault::Memory
    }
}

/// A word that names no file.
pub(crate) fn missing(alloc: Global, file: &str, word: &str) -> PlanFault
    ensures told { IsTold result (Some (meant.missing_file file.now word.now)) }
    ensures no_failure { is_failure result ≡ false }
{
    match missing_file(alloc, file, word) {
        Ok(fault) => fault,
        Err(_) => PlanFault::Memory,
    }
}

fn missing_file(alloc: Global, file: &str, word: &str) -> Result<PlanFault, Mem>
    ensures { IfOk result (λ fault. fault ≡ NoFile file.now word.now) }
{
    Ok(PlanFault::MissingFile {
        file: Text::from_str(alloc, file)?,
        word: Text::from_str(alloc, word)?,
    })
}

/// An input file that is too large.
pub(crate) fn too_large(alloc: Global, path: &str) -> PlanFault
    ensures told { IsTold result (Some (meant.input_bytes path.now)) }
    ensures no_failure { is_failure result ≡ false }
{
    match Text::from_str(alloc, path) {
        Ok(path) => PlanFault::InputBytes { path },
        Err(_) => PlanFault::Memory,
    }
}

/// A text of a recipe that can't be expanded.
pub(crate) fn data_told(alloc: Global, file: &str, fault: DataFault) -> PlanFault
    ensures told { IsTold result (option_map (meant.no_value file.now) (data_refusal fault)) }
    ensures no_failure { is_failure result ≡ false }
{
    if fault.is_memory() {
        return PlanFault::Memory;
    }
    match Text::from_str(alloc, file) {
        Ok(file) => PlanFault::Data { file, fault },
        Err(_) => PlanFault::Memory,
    }
}

/// A script or places that a task doesn't have.
pub(crate) fn script_fault(alloc: Global, file: &str, fault: ScriptFault) -> PlanFault
    ensures told { IsTold result (option_map (meant.told_at file.now) (refusal_of fault)) }
    ensures no_failure { is_failure result ≡ false }
{
    match fault {
        ScriptFault::BadFlag { flag, word } => match Text::from_str(alloc, file) {
            Ok(file) => PlanFault::BadFlag { file, flag, word },
            Err(_) => PlanFault::Memory,
        },
        ScriptFault::Data(fault) => data_told(alloc, file, fault),
        ScriptFault::Memory => PlanFault::Memory,
    }
}
