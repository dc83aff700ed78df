// The recipe that a name stands for, found by going through all recipes.
ghost use Rattle.std.specs.Prelude.{◌≡◌, ◌<◌, ◌≤◌, ◌^◌, ◌++◌, [], ◌∷◌, IfOk, IfErr, OnOk, length, map, filter, fold, false, bytes_eq};
ghost use Rattle.std.specs.List.{list_any};
ghost use Rattle.std.specs.Map.{lookup};
ghost use Rattle.std.specs.Option.{option_map_or};
ghost use Rattle.meta_model.specs.Text.{in_byte_order};
ghost use Rattle.meta_model.specs.Providers.{provider as provider_of, runtime_provider as runtime_provider_of, only_one as the_only_one, narrowed, is_named, is_preferred, is_candidate as candidate_test, is_package_for, is_runtime_candidate as runtime_test};
ghost use Rattle.task_graph.specs.Faults.{IsRefusalOf, IsUnprovided};
ghost use Rattle.task_graph.specs.Candidates.{test_of};

use crate::fault::GraphFault;
use meta_model::{FactSet, Package, RecipeFacts, as_texts, is_among, put_in_order};
use std::alloc::Global;
use tree_model::{Mem, Text, Texts};

/// Which recipes are looked for.
#[derive(Clone, Copy)]
enum Test {
    /// Candidates whose PN a preference names.
    Preferred,
    /// Those of that very name.
    Named,
    /// Those that provide the name.
    Candidate,
    /// Those that provide the name at run time.
    RuntimeCandidate,
}

/// Whether the recipe is a candidate for the name.
fn is_candidate(name: &str, recipe: &RecipeFacts) -> bool
    ensures { result ≡ candidate_test name.now recipe.now }
{
    recipe.pn.as_str() == name || is_among(name, recipe.provides.as_slice())
}

fn is_preferred_pn(facts: &FactSet, name: &str, pn: &str) -> bool
    ensures { result ≡ option_map_or (λ wanted. bytes_eq pn.now wanted)
        (lookup (bytes_eq name.now) facts.now.preferred) false }
{
    for preference in facts.preferred.as_slice() {
        if name == preference.0.as_str() {
            return pn == preference.1.as_str();
        }
    }
    false
}

fn has_package_for(packages: &[Package], name: &str) -> bool
    ensures { result ≡ list_any (is_package_for name.now) packages.now }
{
    for package in packages {
        if package.name.as_str() == name || is_among(name, package.rprovides.as_slice()) {
            return true;
        }
    }
    false
}

fn passes(test: Test, facts: &FactSet, name: &str, recipe: &RecipeFacts) -> bool
    ensures { result ≡ test_of test facts.now name.now recipe.now }
{
    match test {
        Test::Preferred => {
            is_candidate(name, recipe) && is_preferred_pn(facts, name, recipe.pn.as_str())
        }
        Test::Named => recipe.pn.as_str() == name,
        Test::Candidate => is_candidate(name, recipe),
        Test::RuntimeCandidate => {
            recipe.pn.as_str() == name || has_package_for(recipe.packages.as_slice(), name)
        }
    }
}

fn any_passes(test: Test, facts: &FactSet, name: &str) -> bool
    ensures { result ≡ list_any (test_of test facts.now name.now) facts.now.recipes }
{
    for recipe in facts.recipes.as_slice() {
        if passes(test, facts, name, recipe) {
            return true;
        }
    }
    false
}

/// The PNs of the recipes that pass, in byte order and each once.
fn passing_pns(alloc: Global, test: Test, facts: &FactSet, name: &str) -> Result<Texts, Mem>
    ensures { IfOk result (λ pns. pns ≡ in_byte_order (map (λ recipe. recipe.pn)
        (filter (test_of test facts.now name.now) facts.now.recipes))) }
{
    let mut pns = Vec::new(alloc);
    for recipe in facts.recipes.as_slice() {
        if passes(test, facts, name, recipe) {
            put_in_order(&mut pns, recipe.pn.copy()?)?;
        }
    }
    as_texts(alloc, pns.as_slice())
}

/// The number of the only recipe that passes.
fn only_one(alloc: Global, test: Test, facts: &FactSet, name: &str) -> Result<u32, GraphFault>
    requires { length facts.now.recipes < 2 ^ 32 }
    ensures ok { IfOk result (λ n. the_only_one facts.now.recipes (test_of test facts.now name.now) ≡ Ok n) }
    ensures err { IfErr result (IsRefusalOf (IsUnprovided name.now
        (the_only_one facts.now.recipes (test_of test facts.now name.now)))) }
{
    let mut found = None;
    for (n, recipe) in facts.recipes.as_slice().iter().enumerate() {
        if passes(test, facts, name, recipe) {
            if found.is_some() {
                return Err(GraphFault::SeveralProvide {
                    name: Text::from_str(alloc, name)?,
                    pns: passing_pns(alloc, test, facts, name)?,
                });
            }
            found = Some(n as u32);
        }
    }
    match found {
        Some(n) => Ok(n),
        None => Err(GraphFault::NothingProvides {
            name: Text::from_str(alloc, name)?,
        }),
    }
}

/// By which test the provider of a name is found.
fn provider_test(facts: &FactSet, name: &str) -> Test
    ensures { test_of result facts.now name.now ≡ narrowed facts.now.recipes (is_preferred facts.now name.now)
        (narrowed facts.now.recipes (is_named name.now) (candidate_test name.now)) }
{
    if any_passes(Test::Preferred, facts, name) {
        Test::Preferred
    } else if any_passes(Test::Named, facts, name) {
        Test::Named
    } else {
        Test::Candidate
    }
}

/// By which test the runtime provider of a name is found.
fn runtime_provider_test(facts: &FactSet, name: &str) -> Test
    ensures { test_of result facts.now name.now ≡ narrowed facts.now.recipes (is_named name.now)
        (runtime_test name.now) }
{
    if any_passes(Test::Named, facts, name) {
        Test::Named
    } else {
        Test::RuntimeCandidate
    }
}

/// The number of the recipe that a name of DEPENDS or a target stands for: of the candidates, which are the recipe of that PN
/// and those that have the name in PROVIDES, the one that PREFERRED_PROVIDER_name picks, else the one of that very name, else
/// the only one (BitBake User Manual, "Execution", section "Providers"; several are refused by an own rule).
///
/// `NothingProvides` comes exactly where there is no candidate, `SeveralProvide` exactly where several are left.
pub fn provider(alloc: Global, facts: &FactSet, name: &str) -> Result<u32, GraphFault>
    requires { length facts.now.recipes < 2 ^ 32 }
    ensures ok { IfOk result (λ n. provider_of facts.now name.now ≡ Ok n) }
    ensures err { IfErr result (IsRefusalOf (IsUnprovided name.now (provider_of facts.now name.now))) }
{
    only_one(alloc, provider_test(facts, name), facts, name)
}

/// The number of the recipe that a name of RDEPENDS stands for: of the recipe of that PN, and those that have a package of the
/// name or one that provides it at run time, the one of that very name, else the only one. No preference counts (own rule).
///
/// `NothingProvides` comes exactly where there is none, `SeveralProvide` exactly where several are left.
pub fn runtime_provider(alloc: Global, facts: &FactSet, name: &str) -> Result<u32, GraphFault>
    requires { length facts.now.recipes < 2 ^ 32 }
    ensures ok { IfOk result (λ n. runtime_provider_of facts.now name.now ≡ Ok n) }
    ensures err { IfErr result (IsRefusalOf (IsUnprovided name.now (runtime_provider_of facts.now name.now))) }
{
    only_one(alloc, runtime_provider_test(facts, name), facts, name)
}
