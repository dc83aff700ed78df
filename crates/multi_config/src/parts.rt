// The parts of a run: each configuration that has a target, with its targets.
ghost use Rattle.std.specs.Prelude.{◌≡◌, ◌++◌, ◌∷◌, ◌||◌, [], IfOk, OnOk, bytes_eq, filter, map, if◌then◌else◌};
ghost use Rattle.std.specs.List.{fold, list_any};
ghost use Rattle.meta_model.specs.Text.{is_empty, is_in};
ghost use Rattle.answer_model.specs.Targets.{target_of};
ghost use Rattle.multi_config.specs.Names.{config_of, with_name, with_named};
ghost use Rattle.multi_config.specs.Words.{part_of, reached};

use crate::places::Placed;
use crate::targets::target_of;
use meta_model::Target;
use std::alloc::Global;
use tree_model::{ListOf, Mem, Text};

/// A configuration with its targets.
#[derive(Debug, Drop)]
pub struct ConfigTargets {
    /// The configuration's name. It is empty for the default one.
    pub mc: Text,
    /// Its targets, in the order of the words.
    pub targets: ListOf<Target>,
}

/// Whether a text is one of these.
pub(crate) fn is_among(texts: &[Text], text: &str) -> bool
    ensures { result ≡ is_in text.now texts.now }
{
    for other in texts {
        if text == other.as_str() {
            return true;
        }
    }
    false
}

/// Puts a name at the end, where it isn't there yet.
fn put_name(alloc: Global, names: &mut Vec<Text>, name: &str) -> Result<(), Mem>
    ensures { OnOk result (names.new.items ≡ with_name names.old.items name.now) }
{
    if is_among(names.as_slice(), name) {
        return Ok(());
    }
    Ok(names.push(Text::from_str(alloc, name)?)?)
}

/// Puts the name of a configuration at the end, where it has one, and isn't there yet.
fn put_named(alloc: Global, names: &mut Vec<Text>, name: &str) -> Result<(), Mem>
    ensures { OnOk result (names.new.items ≡ with_named names.old.items name.now) }
{
    if name.is_empty() {
        return Ok(());
    }
    put_name(alloc, names, name)
}

/// The names of the configurations that have one, each where it stands first, behind these.
fn put_all_named(alloc: Global, first: Vec<Text>, places: &[Placed]) -> Result<Vec<Text>, Mem>
    ensures { IfOk result (λ names. names.items ≡ fold with_named first.items (map config_of places.now)) }
{
    let mut names = first;
    for place in places {
        put_named(alloc, &mut names, place.config.as_str())?;
    }
    Ok(names)
}

/// Whether a target is one of the default configuration, or there is no target.
fn has_default(places: &[Placed]) -> bool
    ensures { result ≡ (is_empty places.now || list_any (λ p. is_empty (config_of p)) places.now) }
{
    if places.is_empty() {
        return true;
    }
    for place in places {
        if place.config.as_str().is_empty() {
            return true;
        }
    }
    false
}

/// The default configuration where it is one of those that are reached.
fn default_name(alloc: Global, places: &[Placed]) -> Result<Vec<Text>, Mem>
    ensures { IfOk result (λ names. names.items ≡ (if is_empty places.now || list_any (λ p. is_empty (config_of p)) places.now then [] ∷ [] else [])) }
{
    let mut names = Vec::new(alloc);
    if has_default(places) {
        names.push(Text::new(alloc))?;
    }
    Ok(names)
}

/// The names of the configurations that have a target: the default one first.
fn names_of(alloc: Global, places: &[Placed]) -> Result<Vec<Text>, Mem>
    ensures { IfOk result (λ names. names.items ≡ reached places.now) }
{
    let first = default_name(alloc, places)?;
    put_all_named(alloc, first, places)
}

/// Puts the target of a place at the end, where it is one of this configuration.
fn put_target(
    alloc: Global,
    default: &str,
    made: &mut ListOf<Target>,
    place: &Placed,
    name: &str,
) -> Result<(), Mem>
    ensures { OnOk result (made.new ≡ made.old ++ map (λ t. target_of default.now t.word)
        (filter (λ t. bytes_eq name.now t.config) (place.now ∷ []))) }
{
    if name == place.config.as_str() {
        return made.push(target_of(alloc, default, place.word.as_str())?);
    }
    Ok(())
}

/// A configuration with all its targets, in their order.
fn part_of(
    alloc: Global,
    default: &str,
    places: &[Placed],
    name: Text,
) -> Result<ConfigTargets, Mem>
    ensures { IfOk result (λ part. part ≡ part_of default.now places.now name) }
{
    let mut targets = ListOf::new(alloc);
    for place in places {
        put_target(alloc, default, &mut targets, place, name.as_str())?;
    }
    Ok(ConfigTargets { mc: name, targets })
}

/// The parts of these targets.
pub(crate) fn parts_in(
    alloc: Global,
    default: &str,
    places: &[Placed],
) -> Result<Vec<ConfigTargets>, Mem>
    ensures { IfOk result (λ parts. parts.items ≡ map (part_of default.now places.now)
        (reached places.now)) }
{
    let names = names_of(alloc, places)?;
    let mut parts = Vec::new(alloc);
    for name in &names {
        parts.push(part_of(alloc, default, places, name.copy()?)?)?;
    }
    Ok(parts)
}
