// The recipes that names stand for, by the names.
ghost use Rattle.std.specs.Prelude.{◌≡◌, ◌&&◌, OnOk, IfOk, bytes_eq, if◌then◌else◌, ℕ, List, slice_get};
ghost use Rattle.std.specs.Option.{option_copied, option_map};
ghost use Rattle.std.specs.Map.{lookup};
ghost use Rattle.std.specs.List.{list_any};
ghost use Rattle.std.specs.HashMap.{get_by_text};
ghost use Rattle.std.specs.HashSet.{contains_text};
ghost use Rattle.std.specs.Result.{result_ok};
ghost use Rattle.meta_model.specs.Text.{is_in};
ghost use Rattle.meta_model.specs.Providers.{numbers_from, is_named, is_candidate as candidate_test, is_runtime_candidate as runtime_test, is_preferred, is_package_for, provider, runtime_provider};
ghost use Rattle.task_graph.specs.Only.{with_number as number_added, only_of, first_place};
ghost use Rattle.task_graph.specs.Index.{IsIndex, HasPreferences, wants};

use crate::only::{Only, note, note_all, note_first, only_number};
use meta_model::{FactSet, Package, RecipeFacts};
use std::alloc::Global;
use std::collections::{HashMap, HashSet};
use tree_model::{Mem, Text};

/// For each name the recipes that may provide it, and those that a preference picks; and the names that count as provided from
/// outside.
#[derive(Drop)]
pub(crate) struct NameIndex {
    pub(crate) named: HashMap<String, Only>,
    pub(crate) building: HashMap<String, Only>,
    pub(crate) running: HashMap<String, Only>,
    pub(crate) preferred: HashMap<String, Only>,
    pub(crate) assumed: HashSet<String>,
}

fn index_named(alloc: Global, recipes: &[RecipeFacts]) -> Result<HashMap<String, Only>, Mem>
    ensures { IfOk result (λ map. (q : List ℕ) → get_by_text map q
        ≡ only_of (numbers_from (is_named q) 0 recipes.now)) }
{
    let mut map = HashMap::new(alloc);
    for (number, recipe) in recipes.iter().enumerate() {
        note(alloc, &mut map, recipe.pn.as_str(), number)?;
    }
    Ok(map)
}

fn index_candidates(alloc: Global, recipes: &[RecipeFacts]) -> Result<HashMap<String, Only>, Mem>
    ensures { IfOk result (λ map. (q : List ℕ) → get_by_text map q
        ≡ only_of (numbers_from (candidate_test q) 0 recipes.now)) }
{
    let mut map = HashMap::new(alloc);
    for (number, recipe) in recipes.iter().enumerate() {
        note(alloc, &mut map, recipe.pn.as_str(), number)?;
        note_all(alloc, &mut map, recipe.provides.as_slice(), number)?;
    }
    Ok(map)
}

fn note_packages(
    alloc: Global,
    map: &mut HashMap<String, Only>,
    packages: &[Package],
    number: usize,
) -> Result<(), Mem>
    ensures { OnOk result ((q : List ℕ) → get_by_text map.new q
        ≡ (if list_any (is_package_for q) packages.now then number_added (get_by_text map.old q) number else
        get_by_text map.old q)) }
{
    for package in packages {
        note(alloc, map, package.name.as_str(), number)?;
        note_all(alloc, map, package.rprovides.as_slice(), number)?;
    }
    Ok(())
}

fn index_runtime(alloc: Global, recipes: &[RecipeFacts]) -> Result<HashMap<String, Only>, Mem>
    ensures { IfOk result (λ map. (q : List ℕ) → get_by_text map q
        ≡ only_of (numbers_from (runtime_test q) 0 recipes.now)) }
{
    let mut map = HashMap::new(alloc);
    for (number, recipe) in recipes.iter().enumerate() {
        note(alloc, &mut map, recipe.pn.as_str(), number)?;
        note_packages(alloc, &mut map, recipe.packages.as_slice(), number)?;
    }
    Ok(map)
}

fn index_preferences(
    alloc: Global,
    preferences: &[(Text, Text)],
) -> Result<HashMap<String, usize>, Mem>
    ensures { IfOk result (λ map. (q : List ℕ) → get_by_text map q
        ≡ first_place (λ p. bytes_eq p.0 q) 0 preferences.now) }
{
    let mut map = HashMap::new(alloc);
    for (place, preference) in preferences.iter().enumerate() {
        note_first(alloc, &mut map, preference.0.as_str(), place)?;
    }
    Ok(map)
}

/// The PN of the preference at a place.
fn preferred_pn<'a>(facts: &'a FactSet, place: usize) -> Option<&'a Text>
    ensures { option_copied result ≡ option_map (λ p. p.1) (slice_get facts.now.preferred place) }
{
    match facts.preferred.as_slice().get(place) {
        None => None,
        Some(preference) => Some(&preference.1),
    }
}

/// The PN that is preferred for a name.
fn wanted<'a>(facts: &'a FactSet, places: &HashMap<String, usize>, name: &str) -> Option<&'a Text>
    requires { HasPreferences facts.now (get_by_text places.now) }
    ensures { option_copied result ≡ lookup (bytes_eq name.now) facts.now.preferred }
{
    match places.get(name).copied() {
        None => None,
        Some(place) => preferred_pn(facts, place),
    }
}

/// Whether the recipe of this PN is preferred for a name.
fn is_wanted(facts: &FactSet, places: &HashMap<String, usize>, name: &str, pn: &str) -> bool
    requires { HasPreferences facts.now (get_by_text places.now) }
    ensures { result ≡ wants facts.now name.now pn.now }
{
    match wanted(facts, places, name) {
        None => false,
        Some(wanted) => pn == wanted.as_str(),
    }
}

/// Notes a number for a name, where the recipe of this PN is preferred for it.
fn note_wanted(
    alloc: Global,
    facts: &FactSet,
    places: &HashMap<String, usize>,
    map: &mut HashMap<String, Only>,
    name: &str,
    pn: &str,
    number: usize,
) -> Result<(), Mem>
    requires { HasPreferences facts.now (get_by_text places.now) }
    ensures { OnOk result ((q : List ℕ) → get_by_text map.new q
        ≡ (if bytes_eq name.now q && wants facts.now q pn.now then number_added (get_by_text map.old q) number else
        get_by_text map.old q)) }
{
    if is_wanted(facts, places, name, pn) {
        note(alloc, map, name, number)?;
    }
    Ok(())
}

/// Notes a recipe's number for each name for which a preference picks it.
fn note_preferred(
    alloc: Global,
    facts: &FactSet,
    places: &HashMap<String, usize>,
    map: &mut HashMap<String, Only>,
    recipe: &RecipeFacts,
    number: usize,
) -> Result<(), Mem>
    requires { HasPreferences facts.now (get_by_text places.now) }
    ensures { OnOk result ((q : List ℕ) → get_by_text map.new q
        ≡ (if is_preferred facts.now q recipe.now then number_added (get_by_text map.old q) number else get_by_text
        map.old q)) }
{
    let pn = recipe.pn.as_str();
    note_wanted(alloc, facts, places, map, pn, pn, number)?;
    for name in recipe.provides.as_slice() {
        note_wanted(alloc, facts, places, map, name.as_str(), pn, number)?;
    }
    Ok(())
}

fn index_preferred(alloc: Global, facts: &FactSet) -> Result<HashMap<String, Only>, Mem>
    ensures { IfOk result (λ map. (q : List ℕ) → get_by_text map q
        ≡ only_of (numbers_from (is_preferred facts.now q) 0 facts.now.recipes)) }
{
    let places = index_preferences(alloc, facts.preferred.as_slice())?;
    let mut map = HashMap::new(alloc);
    for (number, recipe) in facts.recipes.as_slice().iter().enumerate() {
        note_preferred(alloc, facts, &places, &mut map, recipe, number)?;
    }
    Ok(map)
}

fn set_of(alloc: Global, names: &[Text]) -> Result<HashSet<String>, Mem>
    ensures { IfOk result (λ set. (q : List ℕ) → contains_text set q ≡ is_in q names.now) }
{
    let mut set = HashSet::new(alloc);
    for name in names {
        set.insert(String::from_str(alloc, name.as_str())?)?;
    }
    Ok(set)
}

impl NameIndex {
    /// The index of all names.
    pub(crate) fn new(alloc: Global, facts: &FactSet) -> Result<NameIndex, Mem>
        ensures { IfOk result (IsIndex facts.now) }
    {
        let recipes = facts.recipes.as_slice();
        Ok(NameIndex {
            named: index_named(alloc, recipes)?,
            building: index_candidates(alloc, recipes)?,
            running: index_runtime(alloc, recipes)?,
            preferred: index_preferred(alloc, facts)?,
            assumed: set_of(alloc, facts.assumed.as_slice())?,
        })
    }

    /// Whether the name counts as provided from outside. Here and below the facts are those that the index was made from; only
    /// the contract reads them.
    pub(crate) fn is_assumed(&self, facts: &FactSet, name: &str) -> bool
        requires { IsIndex facts.now self.now }
        ensures { result ≡ is_in name.now facts.now.assumed }
    {
        self.assumed.contains(name)
    }

    /// The provider of a name, where it has one.
    pub(crate) fn provider(&self, facts: &FactSet, name: &str) -> Option<usize>
        requires { IsIndex facts.now self.now }
        ensures { result ≡ result_ok (provider facts.now name.now) }
    {
        if let Some(only) = self.preferred.get(name).copied() {
            return only_number(Some(only));
        }
        if let Some(only) = self.named.get(name).copied() {
            return only_number(Some(only));
        }
        only_number(self.building.get(name).copied())
    }

    /// The runtime provider of a name, where it has one.
    pub(crate) fn runtime_provider(&self, facts: &FactSet, name: &str) -> Option<usize>
        requires { IsIndex facts.now self.now }
        ensures { result ≡ result_ok (runtime_provider facts.now name.now) }
    {
        if let Some(only) = self.named.get(name).copied() {
            return only_number(Some(only));
        }
        only_number(self.running.get(name).copied())
    }
}
