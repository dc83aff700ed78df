// The chosen recipes, and what they say.
ghost use Rattle.std.specs.Prelude.{◌≡◌, ◌<◌, ◌≤◌, ◌++◌, Ok, IfOk, IfErr, length, map, slice_index_or, [], false};
ghost use Rattle.load_model.specs.Recipes as recipes;
ghost use Rattle.load_model.specs.Facts as meant;
ghost use Rattle.recipe_facts.specs.Recipe.{recipe_meant};
ghost use Rattle.recipe_facts.specs.Wished.{wished};
ghost use Rattle.load_model.specs.Facts.{set_over};
ghost use Rattle.recipe_set.specs.Faults.{IsSetFault, set_failed};

use crate::fault::{SetFault, data_told};
use datastore::Datastore;
use meta_model::{FactSet, RecipeFacts};
use recipe_facts::{Recipe, Wishes, facts_of};
use std::alloc::Global;
use std::marker::Model;
use tree_model::{ListOf, Mem};

/// What all recipes say, and the entries of the chosen recipe of each PN. Contracts see it as the record of `load_model`
/// (`Facts`).
#[derive(Drop)]
pub struct RecipeSet {
    facts: FactSet,
    stores: Vec<Datastore>,
}

impl Model for RecipeSet {
    ghost use Rattle.std.specs.Prelude.{◌≡◌, ◌≤◌, length as len};
    ghost use Rattle.load_model.specs.Facts.{RecipeSet as Meant};

    ghost Value = { Meant };

    ghost view = { λ s. record { facts = s.facts; stores = s.stores.items } };

    ghost invariant = { λ s. (len s.facts.recipes ≡ len s.stores.items) × (len s.facts.recipes ≤ 2000) };
}

/// What a recipe says of itself.
fn facts_at(alloc: Global, recipe: &Recipe) -> Result<RecipeFacts, SetFault>
    ensures ok { IfOk result (λ made. recipes.asked_of recipe.now.file (meant.facts_of (recipe_meant recipe.now))
        ≡ Ok made) }
    ensures err { IfErr result (λ fault. IsSetFault fault
        (recipes.asked_of recipe.now.file (meant.facts_of (recipe_meant recipe.now)))) }
    ensures not_read { set_failed result ≡ false }
{
    match facts_of(alloc, recipe) {
        Ok(made) => Ok(made),
        Err(fault) => Err(data_told(alloc, recipe.file.as_str(), fault)),
    }
}

/// What some recipes say of themselves.
fn all_facts(alloc: Global, recipes: &[Recipe]) -> Result<ListOf<RecipeFacts>, SetFault>
    ensures ok { IfOk result (λ made. meant.all_facts (map recipe_meant recipes.now) ≡ Ok made) }
    ensures err { IfErr result (λ fault. IsSetFault fault (meant.all_facts (map recipe_meant recipes.now))) }
    ensures not_read { set_failed result ≡ false }
{
    let mut made = ListOf::new(alloc);
    for recipe in recipes {
        made.push(facts_at(alloc, recipe)?)?;
    }
    Ok(made)
}

/// The entries of some recipes.
fn stores_of(alloc: Global, recipes: Vec<Recipe>) -> Result<Vec<Datastore>, Mem>
    ensures { IfOk result (λ made. made.items ≡ map (λ r. r.lines) (map recipe_meant recipes.items)) }
{
    let mut made = Vec::with_capacity(alloc, recipes.len())?;
    for recipe in recipes {
        made.push(recipe.store)?;
    }
    Ok(made)
}

/// The set of some recipes whose facts are these.
fn set_with(
    alloc: Global,
    wishes: Wishes,
    facts: ListOf<RecipeFacts>,
    recipes: Vec<Recipe>,
) -> Result<RecipeSet, Mem>
    requires facts { meant.all_facts (map recipe_meant recipes.items) ≡ Ok facts }
    requires few { length recipes.items ≤ 2000 }
    ensures { IfOk result (λ made. set_over (wished wishes) (map recipe_meant recipes.items) ≡ Ok made) }
{
    let stores = stores_of(alloc, recipes)?;
    Ok(RecipeSet {
        facts: FactSet {
            recipes: facts,
            preferred: wishes.providers,
            assumed: wishes.assumed,
        },
        stores,
    })
}

/// The set of some chosen recipes, under what the configuration says of recipes.
pub(crate) fn set_of(
    alloc: Global,
    wishes: Wishes,
    recipes: Vec<Recipe>,
) -> Result<RecipeSet, SetFault>
    requires few { length recipes.items ≤ 2000 }
    ensures ok { IfOk result (λ made. set_over (wished wishes) (map recipe_meant recipes.items) ≡ Ok made) }
    ensures err { IfErr result (λ fault. IsSetFault fault (set_over (wished wishes) (map recipe_meant recipes.items))) }
    ensures not_read { set_failed result ≡ false }
{
    match all_facts(alloc, recipes.as_slice()) {
        Ok(facts) => match set_with(alloc, wishes, facts, recipes) {
            Ok(set) => Ok(set),
            Err(_) => Err(SetFault::Memory),
        },
        Err(fault) => Err(fault),
    }
}

impl RecipeSet {
    /// What all recipes say: the facts of the chosen recipe of each PN, in byte order of the PNs, and what the configuration
    /// prefers and assumes. There are at most 2,000 recipes. It takes no memory.
    pub fn facts(&self) -> &FactSet
        ensures facts { result.now ≡ self.now.facts }
        ensures few { length result.now.recipes ≤ 2000 }
    {
        &self.facts
    }

    /// The entries of a chosen recipe, once its names are moved; it is a number of the facts' recipes, from 0. It takes no
    /// memory.
    pub fn store_of(&self, recipe: u32) -> &Datastore
        requires { recipe < length self.now.facts.recipes }
        ensures { result.now ≡ slice_index_or self.now.stores recipe [] }
    {
        &self.stores[recipe as usize]
    }
}
