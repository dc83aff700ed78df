// Values and texts over a store.
ghost use Rattle.std.specs.Prelude.{◌≡◌, List, ℕ, Result, IfOk, IfErr, IfSome, Ok, Err};
ghost use Rattle.meta_model.specs.Refusal.{Refusal};
ghost use Rattle.meta_model.specs.declared.entry.EntryLine.{EntryLine as Line};
ghost use Rattle.meta_model.specs.Active as entries;
ghost use Rattle.meta_model.specs.Expansion.{value_by};
ghost use Rattle.var_expand.specs.Faults.{IsFaultOf};
ghost use Rattle.datastore.specs.Faults.{IsDataFault, refusal_of};
ghost use Rattle.datastore.specs.Looked.{AreOf, IsMeant, found_under};

use crate::fault::{DataFault, copy_or_memory};
use crate::store::Datastore;
use meta_model::Resolved;
use override_eval::{OverrideFault, OverrideText, settle};
use std::alloc::Global;
use tree_model::{Mem, Text, Texts};
use var_expand::{ExpandFault, Lookup, expand, value};

/// The active overrides of a store, or why there are none.
#[derive(Drop)]
pub(crate) enum Overrides {
    /// They settle.
    Settled(Texts),
    /// They don't. It is never want of memory.
    Refused(ExpandFault),
}

/// The active overrides, where there are some.
pub(crate) fn settled_in(overrides: &Overrides) -> Option<&[Text]>
    ensures { (list : List Line) → AreOf list overrides.now → IfSome result (λ active. entries.active list
        ≡ Ok active.now) }
{
    match overrides {
        Overrides::Settled(active) => Some(active.as_slice()),
        Overrides::Refused(_) => None,
    }
}

/// A store as a map from names to what they have under these active overrides.
#[derive(Drop)]
struct Under<'a> {
    store: &'a Datastore,
    active: &'a [Text],
}

impl Lookup for Under<'_> {
    ghost use Rattle.datastore.specs.Looked.{found_under};

    ghost finds = { λ u. found_under u.store.now u.active.now };

    fn find(&self, alloc: Global, name: &str) -> Result<Option<Resolved>, ExpandFault> {
        Ok(self.store.resolved_under(alloc, name, self.active)?)
    }

    fn known(&self, _alloc: Global, _name: &str, _wanted: &[Text]) -> Result<Option<Texts>, Mem> {
        Ok(None)
    }
}

impl OverrideText for Datastore {
    ghost use Rattle.override_eval.specs.Settled.{overrides_under};
    ghost use Rattle.datastore.specs.Faults.{refusal_of};

    type Fault = ExpandFault;

    ghost text = { overrides_under };

    ghost told = { refusal_of };

    fn under(&self, alloc: Global, active: &[Text]) -> Result<Text, ExpandFault> {
        match value_under(alloc, "OVERRIDES", self, active)? {
            Some(text) => Ok(text),
            None => Ok(Text::new(alloc)),
        }
    }
}

/// The expanded value of a name under these active overrides.
fn value_under(
    alloc: Global,
    name: &str,
    store: &Datastore,
    active: &[Text],
) -> Result<Option<Text>, ExpandFault>
    ensures ok { IfOk result (λ made. value_by (found_under store.now active.now) name.now ≡ Ok made) }
    ensures err { IfErr result (λ fault. IsFaultOf fault (value_by (found_under store.now active.now) name.now)) }
{
    value(alloc, name, &Under { store, active })
}

/// No active overrides because of this fault, unless it is want of memory.
fn without_overrides(fault: ExpandFault) -> Result<Overrides, Mem>
    ensures { (meant : Result (List (List ℕ)) Refusal) → IfSome (refusal_of fault) (λ refusal. meant ≡ Err refusal)
        → IfOk result (λ made. IsMeant made meant) }
{
    match fault {
        ExpandFault::Memory => Err(Mem),
        other => Ok(Overrides::Refused(other)),
    }
}

/// The active overrides of a store.
pub(crate) fn overrides_of(alloc: Global, store: &Datastore) -> Result<Overrides, Mem>
    ensures { IfOk result (λ made. AreOf store.now made) }
{
    match settle(alloc, store) {
        Ok(active) => Ok(Overrides::Settled(active)),
        Err(OverrideFault::Unstable { before, last }) => {
            Ok(Overrides::Refused(ExpandFault::Unstable { before, last }))
        }
        Err(OverrideFault::Under(fault)) => without_overrides(fault),
        Err(OverrideFault::Memory) => Err(Mem),
    }
}

/// A store as a map from names to what they have, where its active overrides are worked out.
#[derive(Drop)]
struct Over<'a> {
    store: &'a Datastore,
    overrides: &'a Overrides,
}

impl Lookup for Over<'_> {
    ghost use Rattle.datastore.specs.Looked.{found_over};

    ghost finds = { λ o. found_over o.store.now o.overrides.now };

    fn find(&self, alloc: Global, name: &str) -> Result<Option<Resolved>, ExpandFault> {
        match self.overrides {
            Overrides::Settled(active) => {
                Ok(self.store.resolved_under(alloc, name, active.as_slice())?)
            }
            Overrides::Refused(fault) => Err(copy_or_memory(fault)),
        }
    }

    fn known(&self, _alloc: Global, _name: &str, _wanted: &[Text]) -> Result<Option<Texts>, Mem> {
        Ok(None)
    }
}

/// What a name has.
pub(crate) fn resolved_over(
    alloc: Global,
    name: &str,
    store: &Datastore,
    overrides: &Overrides,
) -> Result<Option<Resolved>, DataFault>
    requires { AreOf store.now overrides.now }
    ensures ok { IfOk result (λ made. (entries.find_in store.now).at name.now ≡ Ok made) }
    ensures err { IfErr result (λ fault. IsDataFault fault ((entries.find_in store.now).at name.now)) }
{
    let over = Over { store, overrides };
    Ok(over.find(alloc, name)?)
}

/// What a name has; the active overrides are worked out for it alone.
pub(crate) fn resolved_anew(
    alloc: Global,
    name: &str,
    store: &Datastore,
) -> Result<Option<Resolved>, DataFault>
    ensures ok { IfOk result (λ made. (entries.find_in store.now).at name.now ≡ Ok made) }
    ensures err { IfErr result (λ fault. IsDataFault fault ((entries.find_in store.now).at name.now)) }
{
    let overrides = overrides_of(alloc, store)?;
    resolved_over(alloc, name, store, &overrides)
}

/// The expanded value of a name.
pub(crate) fn value_over(
    alloc: Global,
    name: &str,
    store: &Datastore,
    overrides: &Overrides,
) -> Result<Option<Text>, DataFault>
    requires { AreOf store.now overrides.now }
    ensures ok { IfOk result (λ made. entries.value store.now name.now ≡ Ok made) }
    ensures err { IfErr result (λ fault. IsDataFault fault (entries.value store.now name.now)) }
{
    Ok(value(alloc, name, &Over { store, overrides })?)
}

/// The expanded value of a name; the active overrides are worked out for it alone.
pub(crate) fn value_anew(
    alloc: Global,
    name: &str,
    store: &Datastore,
) -> Result<Option<Text>, DataFault>
    ensures ok { IfOk result (λ made. entries.value store.now name.now ≡ Ok made) }
    ensures err { IfErr result (λ fault. IsDataFault fault (entries.value store.now name.now)) }
{
    let overrides = overrides_of(alloc, store)?;
    value_over(alloc, name, store, &overrides)
}

/// A text expanded over a store.
pub(crate) fn expand_over(
    alloc: Global,
    text: &str,
    store: &Datastore,
    overrides: &Overrides,
) -> Result<Text, DataFault>
    requires { AreOf store.now overrides.now }
    ensures ok { IfOk result (λ made. entries.expand store.now text.now ≡ Ok made) }
    ensures err { IfErr result (λ fault. IsDataFault fault (entries.expand store.now text.now)) }
{
    Ok(expand(alloc, text, &Over { store, overrides })?)
}

/// A text expanded over a store; the active overrides are worked out for it alone.
pub(crate) fn expand_anew(alloc: Global, text: &str, store: &Datastore) -> Result<Text, DataFault>
    ensures ok { IfOk result (λ made. entries.expand store.now text.now ≡ Ok made) }
    ensures err { IfErr result (λ fault. IsDataFault fault (entries.expand store.now text.now)) }
{
    let overrides = overrides_of(alloc, store)?;
    expand_over(alloc, text, store, &overrides)
}
