// Which appends belong to which recipes.
ghost use Rattle.std.specs.Prelude.{◌≡◌, ◌++◌, ◌∷◌, [], List, ℕ, IfOk, OnOk, filter, true, bytes_eq, if◌then◌else◌};
ghost use Rattle.std.specs.List.{list_any};
ghost use Rattle.load_model.specs.Recipes as recipes;
ghost use Rattle.recipe_set.specs.Stems.{recipe_stem, append_stem, is_open, is_named, named_at};
ghost use Rattle.recipe_set.specs.Appends.{IsIndex};

use path_words::{file_name, has_ending, without_ending};
use std::alloc::Global;
use std::collections::BTreeMap;
use tree_model::{Mem, Text, Texts};

/// Appends by the name that they are for. Those whose name ends with `%`, which may belong to several, are apart.
#[derive(Drop)]
pub(crate) struct Appends {
    named: BTreeMap<String, Texts>,
    apart: Texts,
}

/// The name of a recipe's file, without `.bb`.
pub(crate) fn recipe_stem(recipe: &str) -> &str
    ensures { result.now ≡ recipe_stem recipe.now }
{
    without_ending(".bb", file_name(recipe))
}

/// The name of an append's file, without `.bbappend`.
pub(crate) fn append_stem(append: &str) -> &str
    ensures { result.now ≡ append_stem append.now }
{
    without_ending(".bbappend", file_name(append))
}

/// Whether the append belongs to the recipe: `X.bbappend` to `X.bb`, and `X%.bbappend` to each recipe whose file's name begins
/// with X ("Appending Metadata").
pub(crate) fn belongs(recipe: &str, append: &str) -> bool
    ensures { result ≡ recipes.belongs recipe.now append.now }
{
    let stem = append_stem(append);
    if has_ending("%", stem) {
        let front = &stem.as_bytes()[..stem.len().saturating_sub(1)];
        file_name(recipe).as_bytes().starts_with(front)
    } else {
        stem == recipe_stem(recipe)
    }
}

/// Puts an append at the end of those for a name.
fn put_named(
    named: &mut BTreeMap<String, Texts>,
    alloc: Global,
    stem: &str,
    append: &Text,
) -> Result<(), Mem>
    ensures { OnOk result ((t : List ℕ) → named_at named.new t ≡ named_at named.old t
        ++ (if bytes_eq stem.now t then append.now ∷ [] else [])) }
{
    match named.get_mut(stem) {
        Some(list) => list.push(append.copy()?),
        None => {
            let mut list = Texts::new(alloc);
            list.push(append.copy()?)?;
            named.insert(String::from_str(alloc, stem)?, list)?;
            Ok(())
        }
    }
}

/// Puts an append where it belongs.
fn put_append(
    named: &mut BTreeMap<String, Texts>,
    apart: &mut Texts,
    alloc: Global,
    append: &Text,
) -> Result<(), Mem>
    ensures named { OnOk result ((t : List ℕ) → named_at named.new t ≡ named_at named.old t
        ++ filter (is_named t) (append.now ∷ [])) }
    ensures apart { OnOk result (apart.new ≡ apart.old ++ filter is_open (append.now ∷ [])) }
{
    let stem = append_stem(append.as_str());
    if has_ending("%", stem) {
        apart.push(append.copy()?)
    } else {
        put_named(named, alloc, stem, append)
    }
}

/// Appends by their names.
pub(crate) fn index_of(alloc: Global, appends: &[Text]) -> Result<Appends, Mem>
    ensures { IfOk result (IsIndex appends.now) }
{
    let mut named = BTreeMap::new(alloc);
    let mut apart = Texts::new(alloc);
    for append in appends {
        put_append(&mut named, &mut apart, alloc, append)?;
    }
    Ok(Appends { named, apart })
}

/// Whether one of the appends belongs to the recipe.
pub fn has_any(recipe: &str, appends: &[Text]) -> bool
    ensures { result ≡ list_any (recipes.belongs recipe.now) appends.now }
{
    for append in appends {
        if belongs(recipe, append.as_str()) {
            return true;
        }
    }
    false
}

/// Of all appends those of the recipe, in their order.
fn walked(alloc: Global, recipe: &str, appends: &[Text]) -> Result<Texts, Mem>
    ensures { IfOk result (λ made. made ≡ recipes.appends_of recipe.now appends.now) }
{
    let mut made = Texts::new(alloc);
    for append in appends {
        if belongs(recipe, append.as_str()) {
            made.push(append.copy()?)?;
        }
    }
    Ok(made)
}

impl Appends {
    /// The appends for a name, in their order.
    fn named_for(&self, alloc: Global, stem: &str) -> Result<Texts, Mem>
        ensures { IfOk result (λ made. made ≡ named_at self.now.named stem.now) }
    {
        match self.named.get(stem) {
            Some(list) => list.copy(),
            None => Ok(Texts::new(alloc)),
        }
    }

    /// The appends of the recipe, in their order. All of them are gone through only where one with `%` belongs to it.
    pub(crate) fn of_recipe(
        &self,
        alloc: Global,
        recipe: &str,
        appends: &[Text],
    ) -> Result<Texts, Mem>
        requires { IsIndex appends.now self.now }
        ensures { IfOk result (λ made. made ≡ recipes.appends_of recipe.now appends.now) }
    {
        if has_any(recipe, self.apart.as_slice()) {
            return walked(alloc, recipe, appends);
        }
        self.named_for(alloc, recipe_stem(recipe))
    }
}
