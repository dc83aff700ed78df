// What every run and mode reads first: the configuration, and all recipes.
ghost use Rattle.std.specs.Prelude.{◌≡◌, [], List, ℕ, true, Ok, IfOk, IfErr};
ghost use Rattle.meta_model.specs.declared.event.Status.TheVariants as status;
ghost use Rattle.outside_traits.specs.Fault.{Counts};
ghost use Rattle.outside_traits.specs.Store.{IsListing, SameFiles};
ghost use Rattle.load_model.specs.Loading.{sources_of};
ghost use Rattle.layer_conf.specs.Config.{config_meant};
ghost use Rattle.answer_model.specs.Project as project;
ghost use Rattle.project_reading.specs.Answered.{IsRefusedAs, mode_failed};
ghost use Rattle.answer_model.specs.Answers.{is_refusal};

use crate::refused::{layer_status, set_status};
use layer_conf::{Config, read_layers};
use meta_model::Status;
use outside_traits::Layers;
use recipe_set::{RecipeSet, read_all};
use std::alloc::Global;
use tree_model::Mem;

/// What was made, or the status of want of memory.
pub fn or_status<T>(made: Result<T, Mem>) -> Result<T, Status>
    ensures ok { IfOk result (λ value. made ≡ Ok value) }
    ensures err { IfErr result (λ fault. fault ≡ status.OutOfMemory) }
{
    match made {
        Ok(value) => Ok(value),
        Err(_) => Err(Status::OutOfMemory),
    }
}

/// Reads the configuration.
///
/// Refused as the definition is (`Project` of `answer_model`, `read_config`), over the list of the paths of all files. `ReadFault` comes
/// only where the layers' count of faults rose, and want of memory alone is free. No call changes a file.
pub fn read_config<L: Layers>(alloc: Global, layers: &mut L) -> Result<Config, Status>
    ensures ok { IfOk result (λ made. L.tells → (paths : List (List ℕ)) → IsListing [] (L.files layers.old) paths
        → project.read_config (sources_of (L.files layers.old)) paths ≡ Ok (config_meant made)) }
    ensures err { IfErr result (λ status. L.tells → (paths : List (List ℕ)) → IsListing [] (L.files layers.old) paths
        → IsRefusedAs status (project.read_config (sources_of (L.files layers.old)) paths)) }
    ensures refusal { IfErr result (λ status. is_refusal status ≡ true) }
    ensures same { SameFiles L.files layers.old layers.new }
    ensures cause { Counts (L.faults layers.old) (L.faults layers.new) (mode_failed result) }
{
    match read_layers(alloc, layers) {
        Ok(config) => Ok(config),
        Err(fault) => Err(layer_status(alloc, fault)),
    }
}

/// Reads all recipes of a configuration, and chooses one of each PN.
///
/// Refused as the definition is (`Project` of `answer_model`, `read_recipes`). `ReadFault` comes only where the layers' count of faults
/// rose, and want of memory alone is free. No call changes a file.
pub fn read_recipes<L: Layers>(
    alloc: Global,
    layers: &mut L,
    config: &Config,
) -> Result<RecipeSet, Status>
    ensures ok { IfOk result (λ set. L.tells → project.read_recipes (sources_of (L.files layers.old))
        (config_meant config.now) ≡ Ok set) }
    ensures err { IfErr result (λ status. L.tells → IsRefusedAs status
        (project.read_recipes (sources_of (L.files layers.old)) (config_meant config.now))) }
    ensures refusal { IfErr result (λ status. is_refusal status ≡ true) }
    ensures same { SameFiles L.files layers.old layers.new }
    ensures cause { Counts (L.faults layers.old) (L.faults layers.new) (mode_failed result) }
{
    let recipes = config.recipes.as_slice();
    let appends = config.appends.as_slice();
    match read_all(alloc, layers, &config.store, recipes, appends) {
        Ok(set) => Ok(set),
        Err(fault) => Err(set_status(alloc, fault)),
    }
}
