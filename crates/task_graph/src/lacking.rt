// Names that have no provider.
ghost use Rattle.std.specs.Prelude.{◌≡◌, ◌<◌, ◌^◌, length, IfSome, IfNone, None, true, false};
ghost use Rattle.std.specs.Result.{result_ok};
ghost use Rattle.meta_model.specs.Text.{is_in};
ghost use Rattle.meta_model.specs.Providers.{provider as provider_of, runtime_provider as runtime_provider_of};
ghost use Rattle.meta_model.specs.Needs.{build_names, run_names};
ghost use Rattle.task_graph.specs.Faults.{IsRefusalOf, IsUnprovided};
ghost use Rattle.task_graph.specs.Index.{IsIndex};
ghost use Rattle.task_graph.specs.Needed.{lacks_provider};
ghost use Rattle.task_graph.specs.Context.{LacksToBuild, LacksToRun};

use crate::fault::GraphFault;
use crate::index::NameIndex;
use crate::providers::{provider, runtime_provider};
use meta_model::{FactSet, RecipeFacts};
use std::alloc::Global;
use tree_model::Text;

/// The refusal of a name without a provider.
pub(crate) fn refuse_name(alloc: Global, facts: &FactSet, name: &str) -> GraphFault
    requires few { length facts.now.recipes < 2 ^ 32 }
    requires none { result_ok (provider_of facts.now name.now) ≡ None }
    ensures { IsRefusalOf (IsUnprovided name.now (provider_of facts.now name.now)) result }
{
    match provider(alloc, facts, name) {
        Err(fault) => fault,
        Ok(_) => unreachable!(),
    }
}

/// The refusal of a name without a runtime provider.
fn refuse_runtime_name(alloc: Global, facts: &FactSet, name: &str) -> GraphFault
    requires few { length facts.now.recipes < 2 ^ 32 }
    requires none { result_ok (runtime_provider_of facts.now name.now) ≡ None }
    ensures { IsRefusalOf (IsUnprovided name.now (runtime_provider_of facts.now name.now)) result }
{
    match runtime_provider(alloc, facts, name) {
        Err(fault) => fault,
        Ok(_) => unreachable!(),
    }
}

/// The refusal of a recipe that lacks a provider of a name that it needs to be built.
pub(crate) fn refuse_building(
    alloc: Global,
    facts: &FactSet,
    index: &NameIndex,
    recipe: &RecipeFacts,
) -> GraphFault
    requires few { length facts.now.recipes < 2 ^ 32 }
    requires index { IsIndex facts.now index.now }
    requires lacks { lacks_provider (provider_of facts.now) (build_names facts.now recipe.now) ≡ true }
    ensures { IsRefusalOf (LacksToBuild facts.now recipe.now) result }
{
    for name in recipe.depends.as_slice() {
        if !index.is_assumed(facts, name.as_str()) {
            match index.provider(facts, name.as_str()) {
                Some(_) => {}
                None => return refuse_name(alloc, facts, name.as_str()),
            }
        }
    }
    unreachable!()
}

/// The first name that has no runtime provider.
fn lacking_name<'a>(facts: &FactSet, index: &NameIndex, names: &'a [Text]) -> Option<&'a Text>
    requires index { IsIndex facts.now index.now }
    ensures none { IfNone result (lacks_provider (runtime_provider_of facts.now) names.now ≡ false) }
    ensures among { IfSome result (λ name. is_in name.now names.now ≡ true) }
    ensures lacks { IfSome result (λ name. result_ok (runtime_provider_of facts.now name.now) ≡ None) }
{
    for name in names {
        match index.runtime_provider(facts, name.as_str()) {
            Some(_) => {}
            None => return Some(name),
        }
    }
    None
}

/// The refusal of a recipe that lacks a provider of a name that it needs at run time.
pub(crate) fn refuse_running(
    alloc: Global,
    facts: &FactSet,
    index: &NameIndex,
    recipe: &RecipeFacts,
) -> GraphFault
    requires few { length facts.now.recipes < 2 ^ 32 }
    requires index { IsIndex facts.now index.now }
    requires lacks { lacks_provider (runtime_provider_of facts.now) (run_names recipe.now) ≡ true }
    ensures { IsRefusalOf (LacksToRun facts.now recipe.now) result }
{
    for package in recipe.packages.as_slice() {
        match lacking_name(facts, index, package.rdepends.as_slice()) {
            Some(name) => return refuse_runtime_name(alloc, facts, name.as_str()),
            None => {}
        }
    }
    unreachable!()
}
