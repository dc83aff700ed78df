// Which of several recipes is chosen.
ghost use Rattle.std.specs.Prelude.{◌≡◌};
ghost use Rattle.std.specs.Ordering.{is_lt};
ghost use Rattle.load_model.specs.Facts as facts;
ghost use Rattle.recipe_facts.specs.Recipe.{recipe_meant};
ghost use Rattle.recipe_set.specs.Held.{gives_way, fits_wish};
ghost use Rattle.std.specs.Option.{option_copied};

use crate::versions::compare_versions;
use path_words::has_ending;
use recipe_facts::Recipe;
use std::cmp::Ordering;
use tree_model::Text;

/// Which of two recipes of one PN is less: by version, then by revision, which is compared as a version, then by the bytes of
/// the path (own rule; "Preferences").
fn compare_recipes(a: &Recipe, b: &Recipe) -> Ordering
    ensures { result ≡ facts.recipe_cmp (recipe_meant a.now) (recipe_meant b.now) }
{
    match compare_versions(a.pv.as_str(), b.pv.as_str()) {
        Ordering::Equal => match compare_versions(a.pr.as_str(), b.pr.as_str()) {
            Ordering::Equal => a.file.as_str().cmp(b.file.as_str()),
            decided => decided,
        },
        decided => decided,
    }
}

/// Whether the first of two recipes of one PN is less than the second.
fn is_less(a: &Recipe, b: &Recipe) -> bool
    ensures { result ≡ is_lt (facts.recipe_cmp (recipe_meant a.now) (recipe_meant b.now)) }
{
    match compare_recipes(a, b) {
        Ordering::Less => true,
        Ordering::Equal | Ordering::Greater => false,
    }
}

/// Whether a preference names the version; a `%` at its end stands for any rest ("Variables Glossary", PREFERRED_VERSION).
fn names_version(preference: &str, recipe: &Recipe) -> bool
    ensures { result ≡ facts.fits preference.now (recipe_meant recipe.now) }
{
    let pv = recipe.pv.as_str();
    if has_ending("%", preference) {
        let front = &preference.as_bytes()[..preference.len().saturating_sub(1)];
        pv.as_bytes().starts_with(front)
    } else {
        preference == pv
    }
}

/// Whether the recipe fits the preference; where there is none, all do.
pub(crate) fn fits_wish(wish: Option<&Text>, recipe: &Recipe) -> bool
    ensures { result ≡ fits_wish (option_copied wish.entry) (recipe_meant recipe.now) }
{
    match wish {
        Some(preference) => names_version(preference.as_str(), recipe),
        None => true,
    }
}

/// The recipe that is chosen so far of its PN.
#[derive(Drop)]
pub(crate) struct Pick {
    pub(crate) recipe: Recipe,
    pub(crate) fits: bool,
}

impl Pick {
    /// Whether it gives way to another recipe: to one that fits the preference if it doesn't itself, and else to a greater one
    /// that fits as well as it does.
    pub(crate) fn gives_way(&self, other: &Recipe, fits: bool) -> bool
        ensures { result ≡ gives_way self.now.fits (recipe_meant self.now.recipe) fits (recipe_meant other.now) }
    {
        if self.fits == fits {
            is_less(&self.recipe, other)
        } else {
            fits
        }
    }
}
