// The statuses of graphs that have no plan.
ghost use Rattle.std.specs.Prelude.{◌≡◌, ◌∷◌, [], true, false, IfOk};
ghost use Rattle.answer_model.specs.Answers.{is_refusal};
ghost use Rattle.project_reading.specs.Answered.{is_failed_read};
ghost use Rattle.project_reading.specs.Faults.{IsAnswered, IsToldAs};
ghost use Rattle.task_plan.specs.Faults.{plan_refusal, is_failure};
ghost use Rattle.answer_model.specs.PlanStatus.{flag_status, plan_status};

use meta_model::Status;
use project_reading::{limit, metadata, named, value_status};
use std::alloc::Global;
use task_plan::PlanFault;
use tree_model::{Mem, Text, Texts};

/// A flag and a word of it.
fn flag_and_word(alloc: Global, flag: Text, word: Text) -> Result<Texts, Mem>
    ensures { IfOk result (λ made. made ≡ flag ∷ word ∷ []) }
{
    let mut made = Texts::new(alloc);
    made.push(flag)?;
    made.push(word)?;
    Ok(made)
}

/// The status of a word of a flag that can't be used.
fn bad_flag(alloc: Global, file: Text, flag: Text, word: Text) -> Status
    ensures { IsAnswered result (flag_status file flag word) }
{
    match flag_and_word(alloc, flag, word) {
        Ok(detail) => metadata(alloc, file, 0, "BadFlag", detail),
        Err(_) => Status::OutOfMemory,
    }
}

/// The status of a graph that has no plan.
pub(crate) fn plan_status(alloc: Global, fault: PlanFault) -> Status
    ensures told { IsToldAs result plan_status (plan_refusal fault) }
    ensures refusal { is_refusal result ≡ true }
    ensures failure { is_failure fault ≡ is_failed_read result }
{
    match fault {
        PlanFault::BadFlag { file, flag, word } => bad_flag(alloc, file, flag, word),
        PlanFault::Data { file, fault } => value_status(alloc, file, 0, fault),
        PlanFault::MissingFile { file, word } => named(alloc, file, 0, "MissingFile", word),
        PlanFault::InputBytes { path: _ } => limit(alloc, "InputBytes"),
        PlanFault::PlanBytes => limit(alloc, "PlanBytes"),
        PlanFault::Read => Status::ReadFault,
        PlanFault::Memory => Status::OutOfMemory,
    }
}
