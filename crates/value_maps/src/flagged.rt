// The names that have a flag.
ghost use Rattle.std.specs.Prelude.{◌≡◌, ◌||◌, List, ℕ, IfOk, OnOk, is_some, filter};
ghost use Rattle.std.specs.BTreeMap.{get_by_text, IsOrdered};
ghost use Rattle.std.specs.String.{string_cmp};
ghost use Rattle.meta_model.specs.declared.entry.EntryLine.{EntryLine as Line};
ghost use Rattle.meta_model.specs.Base as base;
ghost use Rattle.meta_model.specs.Text.{is_in};
ghost use Rattle.value_maps.specs.Flagged.{has_flag, is_flagged};
ghost use Rattle.value_maps.specs.Keys.{AreKeys};
ghost use Rattle.value_maps.specs.Maps.{Keeps, named_at, base_of, under_named};
ghost use Rattle.value_maps.specs.Picked.{picked};

use crate::by_name::push_name;
use crate::maps::Maps;
use crate::named::Named;
use crate::names::{joined_names, push_if};
use std::alloc::Global;
use std::collections::BTreeMap;
use tree_model::{Mem, Text, Texts};

impl Named {
    /// Whether a flag has a text.
    fn has_flag(&self, flag: &str) -> bool
        ensures { result ≡ has_flag flag.now self.now }
    {
        match self.flags.get(flag) {
            Some(kept) => kept.at_end().is_some(),
            None => false,
        }
    }
}

/// The names of a map that have the flag, in byte order.
fn picked_names(alloc: Global, named: &BTreeMap<String, Named>, flag: &str) -> Result<Texts, Mem>
    ensures names { IfOk result (λ made. made ≡ picked (has_flag flag.now) named.now.entries) }
    ensures ordered { OnOk result (IsOrdered string_cmp named.now) }
{
    let mut made = Texts::new(alloc);
    for (name, kept) in named {
        push_name(&mut made, alloc, name.as_str(), kept.has_flag(flag))?;
    }
    Ok(made)
}

/// The names of a map that have the flag.
fn flagged_in(alloc: Global, named: &BTreeMap<String, Named>, flag: &str) -> Result<Texts, Mem>
    ensures { IfOk result (λ made. (t : List ℕ) → is_in t made ≡ is_flagged flag.now (get_by_text named.now t)) }
{
    picked_names(alloc, named, flag)
}

impl Maps {
    /// The shared names that have the flag as the shared entries leave it.
    fn flagged_under(&self, alloc: Global, flag: &str) -> Result<Texts, Mem>
        ensures { IfOk result (λ made. (t : List ℕ) → is_in t made
            ≡ is_flagged flag.now (under_named (base_of self.now) t)) }
    {
        match &self.base {
            Some(base) => flagged_in(alloc, &base.as_ref().named, flag),
            None => Ok(Texts::new(alloc)),
        }
    }

    /// Names among which are all that have the flag, in byte order.
    fn flagged_among(&self, alloc: Global, flag: &str) -> Result<Texts, Mem>
        ensures { IfOk result (λ made. AreKeys made (λ t. is_flagged flag.now (under_named (base_of self.now) t)
            || is_flagged flag.now (get_by_text self.now.named t))) }
    {
        let own = flagged_in(alloc, &self.named, flag)?;
        let shared = self.flagged_under(alloc, flag)?;
        joined_names(alloc, own.as_slice(), shared.as_slice())
    }

    /// Those of some names that have the flag.
    fn with_flag(&self, alloc: Global, names: &[Text], flag: &str) -> Result<Texts, Mem>
        ensures { IfOk result (λ made. made ≡ filter (λ t. is_flagged flag.now (named_at self.now t)) names.now) }
    {
        let mut made = Texts::new(alloc);
        for name in names {
            push_if(&mut made, name, self.flag_of(name.as_str(), flag).is_some())?;
        }
        Ok(made)
    }

    /// The names that have the flag, in byte order. It costs a step for each name that is kept, and a look-up for each that has the
    /// flag.
    pub fn flagged(&self, alloc: Global, flag: &str) -> Result<Texts, Mem>
        ensures names { (list : List Line) → Keeps list self.now
            → IfOk result (λ made. made ≡ filter (λ t. is_some (base.flag list t flag.now)) (base.names list)) }
        ensures all { (list : List Line) → Keeps list self.now
            → IfOk result (λ made. (t : List ℕ) → is_in t made ≡ is_some (base.flag list t flag.now)) }
    {
        let names = self.flagged_among(alloc, flag)?;
        self.with_flag(alloc, names.as_slice(), flag)
    }
}
