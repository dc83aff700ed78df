// The names of a store.
ghost use Rattle.std.specs.Prelude.{◌≡◌, ◌++◌, ◌∷◌, [], ◌||◌, List, ℕ, IfOk, OnOk, is_some, filter, if◌then◌else◌};
ghost use Rattle.std.specs.Option.{option_or};
ghost use Rattle.std.specs.BTreeMap.{get_by_text, IsOrdered, values};
ghost use Rattle.std.specs.List.{list_any};
ghost use Rattle.std.specs.String.{string_cmp};
ghost use Rattle.meta_model.specs.declared.entry.EntryLine.{EntryLine as Line};
ghost use Rattle.meta_model.specs.Base as base;
ghost use Rattle.meta_model.specs.Text.{is_in};
ghost use Rattle.value_maps.specs.Maps.{Keeps, named_at, is_anew};
ghost use Rattle.value_maps.specs.Left.{kept_set, named_left};
ghost use Rattle.value_maps.specs.Keys.{AreKeys};

use crate::by_name::{Names, names_of, put_name};
use crate::kept::Kept;
use crate::maps::Maps;
use crate::named::Named;
use crate::special::special_of;
use std::alloc::Global;
use std::collections::BTreeMap;
use tree_model::{Mem, Text, Texts};

/// Whether a flag is set.
fn has_flag(flags: &BTreeMap<String, Kept>) -> bool
    ensures set { result ≡ list_any kept_set (values flags.now) }
    ensures ordered { IsOrdered string_cmp flags.now }
{
    flags.values().any(|kept| kept.is_set())
}

/// The names of a map, in byte order.
pub(crate) fn own_keys(alloc: Global, named: &BTreeMap<String, Named>) -> Result<Texts, Mem>
    ensures { IfOk result (λ made. AreKeys made (λ name. is_some (get_by_text named.now name))) }
{
    names_of(alloc, named)
}

/// Puts names into a set.
fn put_all(set: &mut Names, alloc: Global, names: &[Text]) -> Result<(), Mem>
    ensures { OnOk result ((t : List ℕ) → is_some (get_by_text set.new t)
        ≡ (is_in t names.now || is_some (get_by_text set.old t))) }
{
    for name in names {
        put_name(set, alloc, name.as_str())?;
    }
    Ok(())
}

/// The names of two maps, in byte order and each once.
fn joined_keys(
    alloc: Global,
    own: &BTreeMap<String, Named>,
    shared: &BTreeMap<String, Named>,
) -> Result<Texts, Mem>
    ensures { IfOk result (λ made. AreKeys made (λ name. is_some
        (option_or (get_by_text own.now name) (get_by_text shared.now name)))) }
{
    let first = own_keys(alloc, own)?;
    let second = own_keys(alloc, shared)?;
    let mut set = BTreeMap::new(alloc);
    put_all(&mut set, alloc, first.as_slice())?;
    put_all(&mut set, alloc, second.as_slice())?;
    names_of(alloc, &set)
}

/// The names of two lists, in byte order and each once.
pub(crate) fn joined_names(alloc: Global, first: &[Text], second: &[Text]) -> Result<Texts, Mem>
    ensures { IfOk result (λ made. AreKeys made (λ t. is_in t second.now || is_in t first.now)) }
{
    let mut set = BTreeMap::new(alloc);
    put_all(&mut set, alloc, first)?;
    put_all(&mut set, alloc, second)?;
    names_of(alloc, &set)
}

/// Puts a copy of the text at the end, where it is asked for.
pub fn push_if(list: &mut Texts, text: &Text, asked: bool) -> Result<(), Mem>
    ensures { OnOk result (list.new ≡ list.old ++ (if asked then text.now ∷ [] else [])) }
{
    if asked {
        list.push(text.copy()?)?;
    }
    Ok(())
}

impl Named {
    /// Whether there is a value, a weak default, a late entry or a flag.
    pub(crate) fn is_left(&self) -> bool
        ensures left { result ≡ named_left self.now }
        ensures ordered { IsOrdered string_cmp self.now.flags }
    {
        let flagged = has_flag(&self.flags);
        self.kept.is_set() || !self.lates.is_empty() || flagged
    }
}

impl Maps {
    /// Whether something of the name is left.
    fn is_left(&self, name: &str) -> bool
        ensures { (list : List Line) → Keeps list self.now → result ≡ base.is_left list name.now }
    {
        match self.of(name) {
            Some(named) => named.is_left(),
            None => false,
        }
    }

    /// The names that are a store's own, or shared, in byte order.
    fn keys(&self, alloc: Global) -> Result<Texts, Mem>
        ensures { IfOk result (λ made. AreKeys made (λ name. is_some (named_at self.now name))) }
    {
        match &self.base {
            Some(base) => joined_keys(alloc, &self.named, &base.as_ref().named),
            None => own_keys(alloc, &self.named),
        }
    }

    /// The names that are told again where names are moved, in byte order.
    pub fn anew(&self, alloc: Global) -> Result<Texts, Mem>
        ensures { IfOk result (λ made. AreKeys made (is_anew self.now)) }
    {
        let own = special_of(alloc, &self.named)?;
        joined_names(alloc, own.as_slice(), self.special())
    }

    /// Those of some names of which something is left.
    pub fn left_among(&self, alloc: Global, keys: &[Text]) -> Result<Texts, Mem>
        ensures { (list : List Line) → Keeps list self.now
            → IfOk result (λ made. made ≡ filter (base.is_left list) keys.now) }
    {
        let mut made = Texts::new(alloc);
        for name in keys {
            push_if(&mut made, name, self.is_left(name.as_str()))?;
        }
        Ok(made)
    }

    /// The names of which something is left, in byte order.
    pub fn names(&self, alloc: Global) -> Result<Texts, Mem>
        ensures { (list : List Line) → Keeps list self.now → IfOk result (λ made. made ≡ base.names list) }
    {
        let keys = self.keys(alloc)?;
        self.left_among(alloc, keys.as_slice())
    }
}
