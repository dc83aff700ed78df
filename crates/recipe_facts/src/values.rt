// Names with their values.
ghost use Rattle.std.specs.Prelude.{◌≡◌, ◌∷◌, [], OnOk, IfOk, IfErr, Ok, filter, MatchOption, drop, length, false, true};
ghost use Rattle.meta_model.specs.Text.{begins_with};
ghost use Rattle.datastore.specs.Faults.{IsDataFault};
ghost use Rattle.load_model.specs.Facts as facts;
ghost use Rattle.meta_model.specs.Passing.{behind};

use crate::names::valued_names;
use datastore::{DataFault, Datastore};
use std::alloc::Global;
use tree_model::{ListOf, Text};

/// A name without its front, where it has that front.
fn without_front<'a>(front: &str, name: &'a str) -> Option<&'a str>
    ensures { MatchOption result (begins_with front.now name.now ≡ false)
        (λ key. (begins_with front.now name.now ≡ true) × (key.now ≡ drop (length front.now) name.now)) }
{
    name.strip_prefix(front)
}

/// Puts a name without its front and its expanded value at the end, where it has that front and a value.
fn push_value(
    list: &mut ListOf<(Text, Text)>,
    alloc: Global,
    store: &Datastore,
    front: &str,
    name: &str,
) -> Result<(), DataFault>
    ensures ok { OnOk result (behind list.old (facts.values_behind store.now front.now
        (filter (begins_with front.now) (name.now ∷ []))) ≡ Ok list.new) }
    ensures err { IfErr result (λ fault. IsDataFault fault
        (facts.values_behind store.now front.now (filter (begins_with front.now) (name.now ∷ [])))) }
{
    let Some(key) = without_front(front, name) else {
        return Ok(());
    };
    if let Some(text) = store.value(alloc, name)? {
        list.push((Text::from_str(alloc, key)?, text))?;
    }
    Ok(())
}

/// Of some names those with this front, each without it and with its expanded value, where it has one.
fn values_of(
    alloc: Global,
    store: &Datastore,
    front: &str,
    names: &[Text],
) -> Result<ListOf<(Text, Text)>, DataFault>
    ensures ok { IfOk result (λ made. facts.values_behind store.now front.now
        (filter (begins_with front.now) names.now) ≡ Ok made) }
    ensures err { IfErr result (λ fault. IsDataFault fault
        (facts.values_behind store.now front.now (filter (begins_with front.now) names.now))) }
{
    let mut list = ListOf::new(alloc);
    for name in names {
        push_value(&mut list, alloc, store, front, name.as_str())?;
    }
    Ok(list)
}

/// The names that have a value, in byte order, each with its expanded value (own rule).
///
/// It is refused where one of the values is.
pub fn environment(alloc: Global, store: &Datastore) -> Result<ListOf<(Text, Text)>, DataFault>
    ensures ok { IfOk result (λ made. facts.environment store.now ≡ Ok made) }
    ensures err { IfErr result (λ fault. IsDataFault fault (facts.environment store.now)) }
{
    let names = valued_names(alloc, store)?;
    values_of(alloc, store, "", names.as_slice())
}

/// What a family of names says, as PREFERRED_VERSION_x of each x: in byte order each name with this front that has a value,
/// without the front and with its expanded value.
///
/// It is refused where one of these values is.
pub fn family(
    alloc: Global,
    store: &Datastore,
    front: &str,
) -> Result<ListOf<(Text, Text)>, DataFault>
    ensures ok { IfOk result (λ made. facts.family store.now front.now ≡ Ok made) }
    ensures err { IfErr result (λ fault. IsDataFault fault (facts.family store.now front.now)) }
{
    let names = valued_names(alloc, store)?;
    values_of(alloc, store, front, names.as_slice())
}
