// What a recipe says of itself.
ghost use Rattle.std.specs.Prelude.{◌≡◌, IfOk, IfErr, Ok};
ghost use Rattle.datastore.specs.Faults.{IsDataFault};
ghost use Rattle.load_model.specs.Facts as facts;
ghost use Rattle.recipe_facts.specs.Recipe.{recipe_meant, facts_behind};

use crate::asked::words_of;
use crate::packages::packages_of;
use crate::tasks::tasks_of;
use datastore::{DataFault, Datastore};
use meta_model::{Package, RecipeFacts, TaskFacts};
use std::alloc::Global;
use tree_model::{ListOf, Mem, Text, Texts};

/// A recipe that was read.
#[derive(Drop)]
pub struct Recipe {
    /// The path of its file, relative to the project folder.
    pub file: Text,
    /// Its name, expanded.
    pub pn: Text,
    /// Its version, expanded.
    pub pv: Text,
    /// Its revision, expanded.
    pub pr: Text,
    /// Its entries, once names are moved.
    pub store: Datastore,
}

/// Copies of two texts.
fn pair_of(first: &Text, second: &Text) -> Result<(Text, Text), Mem>
    ensures { IfOk result (λ made. made ≡ (first.now, second.now)) }
{
    let first = first.copy()?;
    let second = second.copy()?;
    Ok((first, second))
}

/// What a recipe says of itself, of these parts.
fn facts_made(
    recipe: &Recipe,
    provides: Texts,
    depends: Texts,
    packages: ListOf<Package>,
    tasks: ListOf<TaskFacts>,
) -> Result<RecipeFacts, Mem>
    ensures { IfOk result (λ made. made ≡ record {
      file = recipe.now.file;
      pn = recipe.now.pn;
      pv = recipe.now.pv;
      pr = recipe.now.pr;
      provides = provides;
      depends = depends;
      packages = packages;
      tasks = tasks;
    }) }
{
    let (file, pn) = pair_of(&recipe.file, &recipe.pn)?;
    let (pv, pr) = pair_of(&recipe.pv, &recipe.pr)?;
    Ok(RecipeFacts {
        file,
        pn,
        pv,
        pr,
        provides,
        depends,
        packages,
        tasks,
    })
}

/// What a recipe says of itself, where the words of PROVIDES and DEPENDS are these.
fn facts_behind(
    alloc: Global,
    recipe: &Recipe,
    provides: Texts,
    depends: Texts,
) -> Result<RecipeFacts, DataFault>
    ensures ok { IfOk result (λ made. facts_behind (recipe_meant recipe.now) provides depends ≡ Ok made) }
    ensures err { IfErr result (λ fault. IsDataFault fault (facts_behind (recipe_meant recipe.now) provides depends)) }
{
    let packages = packages_of(alloc, &recipe.store)?;
    let tasks = tasks_of(alloc, &recipe.store)?;
    Ok(facts_made(recipe, provides, depends, packages, tasks)?)
}

/// What a recipe says of itself: the words of PROVIDES and DEPENDS, what it says of its packages, and of its tasks.
///
/// It is refused where one of these values is.
pub fn facts_of(alloc: Global, recipe: &Recipe) -> Result<RecipeFacts, DataFault>
    ensures ok { IfOk result (λ made. facts.facts_of (recipe_meant recipe.now) ≡ Ok made) }
    ensures err { IfErr result (λ fault. IsDataFault fault (facts.facts_of (recipe_meant recipe.now))) }
{
    let store = &recipe.store;
    let provides = words_of(alloc, store, "PROVIDES")?;
    let depends = words_of(alloc, store, "DEPENDS")?;
    facts_behind(alloc, recipe, provides, depends)
}
