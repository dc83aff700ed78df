// The statuses of a project without a configuration, and of recipes that can't be read.
ghost use Rattle.std.specs.Prelude.{◌≡◌, true};
ghost use Rattle.layer_conf.specs.Faults as layers;
ghost use Rattle.recipe_set.specs.Faults as recipes;
ghost use Rattle.answer_model.specs.Said as said;
ghost use Rattle.project_reading.specs.Faults.{IsToldAs};
ghost use Rattle.answer_model.specs.Answers.{is_refusal};
ghost use Rattle.project_reading.specs.Answered.{is_failed_read};

use crate::said::{limit, load_status, named, plain, value_status};
use layer_conf::LayerFault;
use meta_model::Status;
use recipe_set::SetFault;
use std::alloc::Global;
use tree_model::Text;

/// The status of a project that has no configuration.
pub(crate) fn layer_status(alloc: Global, fault: LayerFault) -> Status
    ensures told { IsToldAs result said.layer_status (layers.layer_refusal fault) }
    ensures refusal { is_refusal result ≡ true }
    ensures failure { is_failed_read result ≡ layers.is_failure fault }
{
    match fault {
        LayerFault::NoSuchLayer { path } => named(alloc, Text::new(alloc), 0, "NoSuchLayer", path),
        LayerFault::BadPattern { word } => named(alloc, Text::new(alloc), 0, "BadPattern", word),
        LayerFault::Load(fault) => load_status(alloc, fault),
        LayerFault::Data(fault) => value_status(alloc, Text::new(alloc), 0, fault),
        LayerFault::List => Status::ReadFault,
        LayerFault::Memory => Status::OutOfMemory,
    }
}

/// The status of recipes that can't be read.
pub(crate) fn set_status(alloc: Global, fault: SetFault) -> Status
    ensures told { IsToldAs result said.set_status (recipes.set_refusal fault) }
    ensures refusal { is_refusal result ≡ true }
    ensures failure { is_failed_read result ≡ recipes.is_failure fault }
{
    match fault {
        SetFault::BadName { file } => plain(alloc, file, 0, "BadName"),
        SetFault::DanglingAppend { file } => plain(alloc, file, 0, "DanglingAppend"),
        SetFault::Load(fault) => load_status(alloc, fault),
        SetFault::Recipes => limit(alloc, "Recipes"),
        SetFault::Data { file, fault } => value_status(alloc, file, 0, fault),
        SetFault::Memory => Status::OutOfMemory,
    }
}
