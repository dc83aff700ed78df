// The recipes that a recipe needs.
ghost use Rattle.std.specs.Prelude.{◌≡◌, ◌<◌, ◌≤◌, ◌++◌, ◌||◌, OnOk, IfOk, length, slice_get, Some, ℕ, List, option_to_list};
ghost use Rattle.std.specs.Option.{is_none};
ghost use Rattle.meta_model.specs.Providers.{provider, runtime_provider};
ghost use Rattle.meta_model.specs.Needs.{build_names, run_names};
ghost use Rattle.task_graph.specs.Index.{IsIndex};
ghost use Rattle.task_graph.specs.Needed.{resolved, lacks_provider, IsResolved, IsNeeded, AreNeeded, IsResolvedNothing};

use crate::index::NameIndex;
use meta_model::{FactSet, RecipeFacts};
use std::alloc::Global;
use tree_model::{Mem, Text};

/// The providers of names, and whether any name has none.
#[derive(Drop)]
pub(crate) struct Resolved {
    pub(crate) found: Vec<usize>,
    pub(crate) lacks: bool,
}

/// What a recipe needs to be built, and at run time.
#[derive(Drop)]
pub(crate) struct Needed {
    pub(crate) building: Resolved,
    pub(crate) running: Resolved,
}

impl Resolved {
    fn new(alloc: Global) -> Resolved
        ensures { IsResolvedNothing result }
    {
        Resolved {
            found: Vec::new(alloc),
            lacks: false,
        }
    }

    /// Takes one more answer in.
    fn add(&mut self, answer: Option<usize>) -> Result<(), Mem>
        ensures found { OnOk result (self.new.found.items ≡ self.old.found.items ++ option_to_list answer) }
        ensures lacks { OnOk result (self.new.lacks ≡ (self.old.lacks || is_none answer)) }
    {
        match answer {
            Some(number) => self.found.push(number)?,
            None => self.lacks = true,
        }
        Ok(())
    }
}

/// The providers of the names that a recipe needs to be built.
fn resolve_building(
    alloc: Global,
    facts: &FactSet,
    index: &NameIndex,
    recipe: &RecipeFacts,
) -> Result<Resolved, Mem>
    requires { IsIndex facts.now index.now }
    ensures { IfOk result (IsResolved (provider facts.now) (build_names facts.now recipe.now)) }
{
    let mut made = Resolved::new(alloc);
    for name in recipe.depends.as_slice() {
        if !index.is_assumed(facts, name.as_str()) {
            made.add(index.provider(facts, name.as_str()))?;
        }
    }
    Ok(made)
}

/// Takes the providers of names at run time in.
fn resolve_names(
    facts: &FactSet,
    index: &NameIndex,
    names: &[Text],
    made: &mut Resolved,
) -> Result<(), Mem>
    requires { IsIndex facts.now index.now }
    ensures found { OnOk result (made.new.found.items ≡ made.old.found.items
        ++ resolved (runtime_provider facts.now) names.now) }
    ensures lacks { OnOk result (made.new.lacks ≡ (made.old.lacks || lacks_provider (runtime_provider facts.now)
        names.now)) }
{
    for name in names {
        made.add(index.runtime_provider(facts, name.as_str()))?;
    }
    Ok(())
}

/// The providers of the names that a recipe needs at run time.
fn resolve_running(
    alloc: Global,
    facts: &FactSet,
    index: &NameIndex,
    recipe: &RecipeFacts,
) -> Result<Resolved, Mem>
    requires { IsIndex facts.now index.now }
    ensures { IfOk result (IsResolved (runtime_provider facts.now) (run_names recipe.now)) }
{
    let mut made = Resolved::new(alloc);
    for package in recipe.packages.as_slice() {
        resolve_names(facts, index, package.rdepends.as_slice(), &mut made)?;
    }
    Ok(made)
}

/// What each recipe needs.
pub(crate) fn needed_of(
    alloc: Global,
    facts: &FactSet,
    index: &NameIndex,
) -> Result<Vec<Needed>, Mem>
    requires { IsIndex facts.now index.now }
    ensures { IfOk result (λ all. AreNeeded facts.now all.items) }
{
    let mut all = Vec::with_capacity(alloc, facts.recipes.len())?;
    for recipe in facts.recipes.as_slice() {
        let building = resolve_building(alloc, facts, index, recipe)?;
        let running = resolve_running(alloc, facts, index, recipe)?;
        all.push(Needed { building, running })?;
    }
    Ok(all)
}
