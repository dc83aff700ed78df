// What is remarked on the configuration, and on recipes beside one another.

use crate::files::{Files, Place, Sought};
use crate::kind::RemarkKind;
use crate::notes::Notes;
use crate::recipes::ReadRecipe;
use meta_model::{Op, Statement, is_among};
use recipe_facts::Wishes;
use std::alloc::Global;
use std::collections::BTreeMap;
use tree_model::{Mem, Text};
use value_maps::put_value;

/// Whether a version fits a preference: a `%` at its end stands for any rest.
fn fits(version: &str, wish: &str) -> bool {
    match wish.strip_suffix('%') {
        Some(front) => version.starts_with(front),
        None => version == wish,
    }
}

/// Whether some recipe has this name and a version that fits.
fn has_version(recipes: &[ReadRecipe], pn: &str, wish: &str) -> bool {
    recipes.iter().any(|recipe| recipe.pn.as_str() == pn && fits(recipe.pv.as_str(), wish))
}

/// Whether a recipe of this name provides the other name.
fn does_provide(recipes: &[ReadRecipe], pn: &str, name: &str) -> bool {
    recipes.iter().any(|recipe| {
        recipe.pn.as_str() == pn && (pn == name || is_among(name, recipe.provides.as_slice()))
    })
}

/// Remarks on versions that are preferred and that no recipe has.
pub(crate) fn check_versions(
    alloc: Global,
    files: &Files,
    wishes: &Wishes,
    recipes: &[ReadRecipe],
    notes: &mut Notes,
) -> Result<(), Mem> {
    for (pn, wish) in wishes.versions.as_slice() {
        let name = format!(in alloc; "PREFERRED_VERSION_{}", pn.as_str())?;
        if !has_version(recipes, pn.as_str(), wish.as_str())
            && let Some(place) = files.place_in_config(Sought::Name(name.as_str()))
        {
            let words = format!(in alloc;
                "no recipe {} has the version {}, so all versions count",
                pn.as_str(),
                wish.as_str()
            )?;
            notes.add(alloc, &place, RemarkKind::NoVersion, words, "")?;
        }
    }
    Ok(())
}

/// Remarks on providers that are preferred and that don't provide the name.
pub(crate) fn check_providers(
    alloc: Global,
    files: &Files,
    wishes: &Wishes,
    recipes: &[ReadRecipe],
    notes: &mut Notes,
) -> Result<(), Mem> {
    for (name, pn) in wishes.providers.as_slice() {
        let variable = format!(in alloc; "PREFERRED_PROVIDER_{}", name.as_str())?;
        if !does_provide(recipes, pn.as_str(), name.as_str())
            && let Some(place) = files.place_in_config(Sought::Name(variable.as_str()))
        {
            let words = format!(in alloc;
                "no recipe {} provides {}, so the preference has no effect",
                pn.as_str(),
                name.as_str()
            )?;
            notes.add(alloc, &place, RemarkKind::NoProvider, words, "")?;
        }
    }
    Ok(())
}

/// Remarks on recipes of one name, version and revision, each at the one with the lesser path. The recipes are in byte order of their
/// paths.
pub(crate) fn check_twins(
    alloc: Global,
    files: &Files,
    recipes: &[ReadRecipe],
    notes: &mut Notes,
) -> Result<(), Mem> {
    let mut last: BTreeMap<String, &str> = BTreeMap::new(alloc);
    for recipe in recipes {
        let whole = format!(in alloc;
            "{} {}-{}",
            recipe.pn.as_str(),
            recipe.pv.as_str(),
            recipe.pr.as_str()
        )?;
        let path = recipe.file.as_str();
        if let Some(before) = last.get(whole.as_str())
            && let Some(file) = files.at_path(before)
        {
            let words = format!(in alloc;
                "{} is {path} too, and that one counts: of the same version the greatest path does, whatever the order of BBLAYERS",
                whole.as_str()
            )?;
            let place = file.at(file.first_line());
            notes.add(alloc, &place, RemarkKind::SameVersion, words, "")?;
        }
        put_value(&mut last, alloc, whole.as_str(), path)?;
    }
    Ok(())
}

/// Whether the statement sets this name as a default.
fn is_default(statement: &Statement, name: &str) -> bool {
    match statement {
        Statement::Assign { name: own, op, .. } => {
            own.as_str() == name && (*op == Op::Soft || *op == Op::Weak)
        }
        _ => false,
    }
}

/// Whether the statement sets this name whatever it had.
fn is_plain(statement: &Statement, name: &str) -> bool {
    match statement {
        Statement::Assign { name: own, op, .. } => {
            own.as_str() == name && (*op == Op::Set || *op == Op::Now)
        }
        _ => false,
    }
}

/// Where the configuration sets a name by defaults alone, the place of the first.
fn default_of<'a>(files: &'a Files, name: &str) -> Option<Place<'a>> {
    let mut found = None;
    for file in files.all().iter().filter(|file| file.is_shared) {
        for (line, statement) in file.statements.as_slice() {
            if is_plain(statement, name) {
                return None;
            }
            if found.is_none() && is_default(statement, name) {
                found = Some(file.at(*line));
            }
        }
    }
    found
}

/// Remarks on names of the caller's environment that the configuration sets as defaults.
pub(crate) fn check_environment(
    alloc: Global,
    files: &Files,
    environment: &[Text],
    notes: &mut Notes,
) -> Result<(), Mem> {
    for name in environment {
        if let Some(place) = default_of(files, name.as_str()) {
            let words = format!(in alloc;
                "{} is in the caller's environment, which isn't looked at; set it here with = instead",
                name.as_str()
            )?;
            notes.add(alloc, &place, RemarkKind::Environment, words, "")?;
        }
    }
    Ok(())
}

/// Remarks on `conf/local.conf` where it is among these paths and no file includes it.
pub(crate) fn check_local(
    alloc: Global,
    files: &Files,
    paths: &[Text],
    notes: &mut Notes,
) -> Result<(), Mem> {
    let file = "conf/local.conf";
    if !is_among(file, paths) || files.at_path(file).is_some() {
        return Ok(());
    }
    let words = String::from_str(
        alloc,
        "nothing includes this file; write include conf/local.conf into conf/bitbake.conf",
    )?;
    notes.add(
        alloc,
        &Place { file, line: 1 },
        RemarkKind::NotIncluded,
        words,
        "",
    )
}
