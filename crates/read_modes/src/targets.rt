// The recipes that targets name.
ghost use Rattle.std.specs.Prelude.{◌≡◌, ◌<◌, ◌≤◌, All, length, true, false, Ok, IfOk, IfErr};
ghost use Rattle.answer_model.specs.Modes as modes;
ghost use Rattle.project_reading.specs.Answered.{IsRefusedAs, mode_failed};
ghost use Rattle.answer_model.specs.Answers.{is_refusal};

use crate::values::all_values;
use meta_model::{FactSet, Status};
use project_reading::{graph_status, nothing_provides, or_status};
use recipe_set::RecipeSet;
use std::alloc::Global;
use target_graph::{is_elsewhere, target_name};
use task_graph::provider;
use tree_model::{ListOf, Text};

/// The number of the recipe that provides a name, found by going through all recipes.
fn provider_number(alloc: Global, facts: &FactSet, name: &str) -> Result<u32, Status>
    requires { length facts.now.recipes ≤ 2000 }
    ensures ok { IfOk result (λ number. modes.provider_number facts.now name.now ≡ Ok number) }
    ensures within { IfOk result (λ number. number < length facts.now.recipes) }
    ensures err { IfErr result (λ fault. IsRefusedAs fault (modes.provider_number facts.now name.now)) }
    ensures refusal { IfErr result (λ fault. is_refusal fault ≡ true) }
    ensures no_failure { mode_failed result ≡ false }
{
    match provider(alloc, facts, name) {
        Ok(number) => Ok(number),
        Err(fault) => Err(graph_status(alloc, fault)),
    }
}

/// The number of a target's recipe. The task of a target isn't looked at, and a word that begins with `mc:` is refused, which
/// asks for another configuration.
fn target_recipe(alloc: Global, facts: &FactSet, word: &str) -> Result<u32, Status>
    requires { length facts.now.recipes ≤ 2000 }
    ensures ok { IfOk result (λ number. modes.target_recipe facts.now word.now ≡ Ok number) }
    ensures within { IfOk result (λ number. number < length facts.now.recipes) }
    ensures err { IfErr result (λ fault. IsRefusedAs fault (modes.target_recipe facts.now word.now)) }
    ensures refusal { IfErr result (λ fault. is_refusal fault ≡ true) }
    ensures no_failure { mode_failed result ≡ false }
{
    if is_elsewhere(word) {
        return Err(nothing_provides(alloc, word));
    }
    provider_number(alloc, facts, target_name(word))
}

/// The numbers of the targets' recipes, in the order of the targets.
fn target_recipes(alloc: Global, facts: &FactSet, targets: &[Text]) -> Result<ListOf<u32>, Status>
    requires { length facts.now.recipes ≤ 2000 }
    ensures ok { IfOk result (λ found. modes.target_recipes facts.now targets.now ≡ Ok found) }
    ensures within { IfOk result (λ found. All (λ number. number < length facts.now.recipes) found) }
    ensures err { IfErr result (λ fault. IsRefusedAs fault (modes.target_recipes facts.now targets.now)) }
    ensures refusal { IfErr result (λ fault. is_refusal fault ≡ true) }
    ensures no_failure { mode_failed result ≡ false }
{
    let mut found = ListOf::new(alloc);
    for target in targets {
        let number = target_recipe(alloc, facts, target.as_str())?;
        or_status(found.push(number))?;
    }
    Ok(found)
}

/// The values of the targets' recipes, each behind its own line, in the order of the targets. All targets are looked up before
/// the first value.
pub(crate) fn values_of_targets(
    alloc: Global,
    set: &RecipeSet,
    targets: &[Text],
) -> Result<Text, Status>
    ensures ok { IfOk result (λ text. modes.values_of_targets set.now targets.now ≡ Ok text) }
    ensures err { IfErr result (λ fault. IsRefusedAs fault (modes.values_of_targets set.now targets.now)) }
    ensures refusal { IfErr result (λ fault. is_refusal fault ≡ true) }
    ensures no_failure { mode_failed result ≡ false }
{
    match target_recipes(alloc, set.facts(), targets) {
        Ok(numbers) => all_values(alloc, set, numbers.as_slice()),
        Err(status) => Err(status),
    }
}
