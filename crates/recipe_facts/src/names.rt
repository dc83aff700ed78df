// The names that may have a value.
ghost use Rattle.std.specs.Prelude.{◌≡◌, ◌≤◌, ◌||◌, ◌&&◌, List, ℕ, IfOk, OnOk, is_some, bytes_eq, take, drop, length, flat_map};
ghost use Rattle.std.specs.BTreeMap.{get_by_text};
ghost use Rattle.meta_model.specs.Text.{is_in};
ghost use Rattle.load_model.specs.Facts as facts;
ghost use Rattle.recipe_facts.specs.Fronts.{is_behind};

use datastore::{Datastore, names_of};
use std::alloc::Global;
use std::collections::BTreeMap;
use tree_model::{Mem, Text, Texts};

/// A set of names.
type Names = BTreeMap<String, ()>;

/// Puts a name into the set.
fn put(set: &mut Names, alloc: Global, name: &str) -> Result<(), Mem>
    ensures { OnOk result ((t : List ℕ) → is_some (get_by_text set.new t)
        ≡ (bytes_eq t name.now || is_some (get_by_text set.old t))) }
{
    set.insert(String::from_str(alloc, name)?, ())?;
    Ok(())
}

/// Whether this stands behind a front of a name: nothing, or a colon first.
fn is_behind(rest: &[u8]) -> bool
    ensures { result ≡ is_behind rest.now }
{
    rest.is_empty() || rest.starts_with(b":")
}

/// Puts the front of a name that ends here into the set, where one does.
fn put_front(set: &mut Names, alloc: Global, name: &str, end: usize) -> Result<(), Mem>
    requires { end ≤ length name.now }
    ensures { OnOk result ((t : List ℕ) → is_some (get_by_text set.new t)
        ≡ ((is_behind (drop end name.now) && bytes_eq t (take end name.now)) || is_some (get_by_text set.old t))) }
{
    if is_behind(&name.as_bytes()[end..]) {
        return put(set, alloc, &name[..end]);
    }
    Ok(())
}

/// Puts a name and what stands before each of its colons into the set; the empty name is none.
fn put_fronts(set: &mut Names, alloc: Global, name: &str) -> Result<(), Mem>
    ensures { OnOk result ((t : List ℕ) → is_some (get_by_text set.new t)
        ≡ (is_in t (facts.fronts_of name.now) || is_some (get_by_text set.old t))) }
{
    let mut end = 0;
    while end < name.len() {
        end += 1;
        put_front(set, alloc, name, end)?;
    }
    Ok(())
}

/// The set of these names and of what stands before their colons.
fn fronts_of_all(alloc: Global, names: &[Text]) -> Result<Names, Mem>
    ensures { IfOk result (λ made. (t : List ℕ) → is_some (get_by_text made t)
        ≡ is_in t (flat_map facts.fronts_of names.now)) }
{
    let mut set = BTreeMap::new(alloc);
    for name in names {
        put_fronts(&mut set, alloc, name.as_str())?;
    }
    Ok(set)
}

/// The names that may have a value, in byte order and each once: those of the entries, and what stands before a colon of one,
/// since a name may have a value through a form alone (own rule).
pub fn valued_names(alloc: Global, store: &Datastore) -> Result<Texts, Mem>
    ensures { IfOk result (λ made. made ≡ facts.valued_names store.now) }
{
    let names = store.names(alloc)?;
    let set = fronts_of_all(alloc, names.as_slice())?;
    names_of(alloc, &set)
}
