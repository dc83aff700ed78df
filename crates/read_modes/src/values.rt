// Names with their values, as texts.
ghost use Rattle.std.specs.Prelude.{◌≡◌, ◌<◌, [], ◌++◌, All, length, true, false, Ok, IfOk, IfErr};
ghost use Rattle.meta_model.specs.declared.event.Status.TheVariants as status;
ghost use Rattle.datastore.specs.Faults.{data_refusal};
ghost use Rattle.layer_conf.specs.Config.{config_meant};
ghost use Rattle.run_model.specs.Texts as texts;
ghost use Rattle.answer_model.specs.Said as said;
ghost use Rattle.answer_model.specs.Modes as modes;
ghost use Rattle.project_reading.specs.Faults.{IsAnsweredAs};
ghost use Rattle.project_reading.specs.Answered.{IsRefusedAs, mode_failed};
ghost use Rattle.answer_model.specs.Answers.{is_refusal};

use bb_report::{env_text, recipe_line};
use datastore::{DataFault, Datastore};
use layer_conf::Config;
use meta_model::{RecipeFacts, Status};
use project_reading::{or_status, value_status};
use recipe_facts::environment;
use recipe_set::RecipeSet;
use std::alloc::Global;
use tree_model::{Mem, Text};

/// The status of a value of a file that is refused, or, where the file is empty, of the configuration.
fn refused_value(alloc: Global, file: &str, fault: DataFault) -> Status
    ensures { IsAnsweredAs result (said.value_status file.now 0) (data_refusal fault) }
{
    match Text::from_str(alloc, file) {
        Ok(file) => value_status(alloc, file, 0, fault),
        Err(_) => Status::OutOfMemory,
    }
}

/// The values of a store, which is told of this file.
fn values_at(alloc: Global, file: &str, store: &Datastore) -> Result<Text, Status>
    ensures ok { IfOk result (λ text. modes.values_at file.now store.now ≡ Ok text) }
    ensures err { IfErr result (λ fault. IsRefusedAs fault (modes.values_at file.now store.now)) }
    ensures refusal { IfErr result (λ fault. is_refusal fault ≡ true) }
    ensures no_failure { mode_failed result ≡ false }
{
    match environment(alloc, store) {
        Ok(rows) => or_status(env_text(alloc, rows.as_slice())),
        Err(fault) => Err(refused_value(alloc, file, fault)),
    }
}

/// The values of the configuration, over its entries once names are moved.
fn frozen_values(alloc: Global, frozen: Datastore) -> Result<Text, Status>
    ensures ok { IfOk result (λ text. modes.values_at [] frozen ≡ Ok text) }
    ensures err { IfErr result (λ fault. IsRefusedAs fault (modes.values_at [] frozen)) }
    ensures refusal { IfErr result (λ fault. is_refusal fault ≡ true) }
    ensures no_failure { mode_failed result ≡ false }
{
    let mut store = frozen;
    match store.settle(alloc) {
        Ok(()) => values_at(alloc, "", &store),
        Err(_) => Err(Status::OutOfMemory),
    }
}

/// The values of the configuration, once its names are moved.
pub(crate) fn config_values(alloc: Global, config: Config) -> Result<Text, Status>
    ensures ok { IfOk result (λ text. modes.config_values (config_meant config) ≡ Ok text) }
    ensures err { IfErr result (λ fault. IsRefusedAs fault (modes.config_values (config_meant config))) }
    ensures refusal { IfErr result (λ fault. is_refusal fault ≡ true) }
    ensures no_failure { mode_failed result ≡ false }
{
    match config.store.freeze(alloc) {
        Ok(frozen) => frozen_values(alloc, frozen),
        Err(fault) => Err(refused_value(alloc, "", fault)),
    }
}

/// Values behind the line of their recipe.
fn behind_line(alloc: Global, pn: &str, values: &str) -> Result<Text, Mem>
    ensures { IfOk result (λ made. made ≡ texts.recipe_line pn.now ++ values.now) }
{
    let mut made = recipe_line(alloc, pn)?;
    made.push_str(values)?;
    Ok(made)
}

/// The values of a recipe behind its own line.
fn recipe_values(alloc: Global, recipe: &RecipeFacts, store: &Datastore) -> Result<Text, Status>
    ensures ok { IfOk result (λ text. modes.recipe_values (recipe.now, store.now) ≡ Ok text) }
    ensures err { IfErr result (λ fault. IsRefusedAs fault (modes.recipe_values (recipe.now, store.now))) }
    ensures refusal { IfErr result (λ fault. is_refusal fault ≡ true) }
    ensures no_failure { mode_failed result ≡ false }
{
    match values_at(alloc, recipe.file.as_str(), store) {
        Ok(values) => or_status(behind_line(alloc, recipe.pn.as_str(), values.as_str())),
        Err(fault) => Err(fault),
    }
}

/// The values of the recipe with this number.
fn values_of_number(alloc: Global, set: &RecipeSet, number: u32) -> Result<Text, Status>
    requires { number < length set.now.facts.recipes }
    ensures ok { IfOk result (λ text. modes.values_of_number set.now number ≡ Ok text) }
    ensures err { IfErr result (λ fault. IsRefusedAs fault (modes.values_of_number set.now number)) }
    ensures refusal { IfErr result (λ fault. is_refusal fault ≡ true) }
    ensures no_failure { mode_failed result ≡ false }
{
    let recipe = &set.facts().recipes.as_slice()[number as usize];
    recipe_values(alloc, recipe, set.store_of(number))
}

/// The values of the recipes with these numbers, each behind its own line. Only these are evaluated.
pub(crate) fn all_values(alloc: Global, set: &RecipeSet, numbers: &[u32]) -> Result<Text, Status>
    requires { All (λ number. number < length set.now.facts.recipes) numbers.now }
    ensures ok { IfOk result (λ text. modes.all_values set.now numbers.now ≡ Ok text) }
    ensures err { IfErr result (λ fault. IsRefusedAs fault (modes.all_values set.now numbers.now)) }
    ensures refusal { IfErr result (λ fault. is_refusal fault ≡ true) }
    ensures no_failure { mode_failed result ≡ false }
{
    let mut made = Text::new(alloc);
    for number in numbers {
        let values = values_of_number(alloc, set, *number)?;
        or_status(made.push_str(values.as_str()))?;
    }
    Ok(made)
}
