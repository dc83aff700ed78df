// What a store keeps of all names, by name.
ghost use Rattle.std.specs.Prelude.{◌≡◌, ◌++◌, [], List, None, IfOk, OnOk, OnErr, MatchOption, true, Some, option_copied};
ghost use Rattle.std.specs.BTreeMap.{get_by_text};
ghost use Rattle.std.specs.Option.{option_map};
ghost use Rattle.std.specs.Arc.{arc_value};
ghost use Rattle.meta_model.specs.declared.entry.EntryLine.{EntryLine as Line};
ghost use Rattle.meta_model.specs.Frozen.{is_task_line};
ghost use Rattle.value_maps.specs.Named.{Steps, subject};
ghost use Rattle.value_maps.specs.Maps.{Goes, Stays, Keeps, KeepsBase, IsHidden, named_at, base_of, under_named, under_entries, under_special};
ghost use Rattle.value_maps.specs.Hidden.{AreEmpty};

use crate::by_name::put_value;
use crate::forms::{Forms, note_forms};
use crate::named::Named;
use crate::special::special_of;
use meta_model::EntryLine;
use std::alloc::Global;
use std::collections::BTreeMap;
use std::sync::Arc;
use tree_model::{Mem, Text, Texts};

/// Entries that stores share, in their order, with what is kept of each name, and which forms it has; and the names that are told
/// again where names are moved.
#[derive(Drop)]
pub struct Base {
    entries: Vec<EntryLine>,
    pub(crate) named: BTreeMap<String, Named>,
    pub(crate) forms: Forms,
    special: Texts,
}

/// What is kept of each name, and which forms it has. What is a store's own of a name stands in place of what is shared.
#[derive(Drop)]
pub struct Maps {
    pub(crate) base: Option<Arc<Base>>,
    pub(crate) named: BTreeMap<String, Named>,
    pub(crate) forms: Forms,
}

/// The name that an entry is of. Entries of tasks are of none.
fn name_of(line: &EntryLine) -> Option<&str>
    ensures { MatchOption result (is_task_line line.now ≡ true) (λ name. name.now ≡ subject line.now) }
{
    match line {
        EntryLine::Set { name, .. } => Some(name.as_str()),
        EntryLine::Later { target, .. } => Some(target.as_str()),
        EntryLine::Flag { name, .. } => Some(name.as_str()),
        EntryLine::Unset { name } => Some(name.as_str()),
        EntryLine::UnsetFlag { name, .. } => Some(name.as_str()),
        EntryLine::Exported { name, .. } => Some(name.as_str()),
        EntryLine::Task { .. } => None,
        EntryLine::NoTask { .. } => None,
    }
}

impl Maps {
    /// Maps without names. They take no memory.
    pub fn new(alloc: Global) -> Maps
        ensures keeps { Keeps [] result }
        ensures alone { base_of result ≡ None }
    {
        Maps {
            base: None,
            named: BTreeMap::new(alloc),
            forms: BTreeMap::new(alloc),
        }
    }

    /// What shared entries give.
    pub fn over(alloc: Global, base: Option<Arc<Base>>) -> Maps
        ensures same { base_of result ≡ option_map arc_value base }
        ensures keeps { KeepsBase (option_map arc_value base) → Keeps (under_entries (option_map arc_value base)) result }
    {
        Maps {
            base,
            named: BTreeMap::new(alloc),
            forms: BTreeMap::new(alloc),
        }
    }

    /// Whether nothing is shared.
    pub fn is_alone(&self) -> bool
        ensures { result ≡ true → base_of self.now ≡ None }
    {
        self.base.is_none()
    }

    /// What is shared, again. It is not copied.
    pub fn copy_base(&self) -> Result<Option<Arc<Base>>, Mem>
        ensures { IfOk result (λ made. option_map arc_value made ≡ base_of self.now) }
    {
        match &self.base {
            Some(base) => Ok(Some(base.clone()?)),
            None => Ok(None),
        }
    }

    /// Entries with the maps that keep what they give, to be shared.
    pub fn share(self, alloc: Global, entries: Vec<EntryLine>) -> Result<Arc<Base>, Mem>
        requires keeps { Keeps entries.items self }
        requires alone { base_of self ≡ None }
        ensures entries { IfOk result (λ made. under_entries (Some (arc_value made)) ≡ entries.items) }
        ensures keeps { IfOk result (λ made. KeepsBase (Some (arc_value made))) }
    {
        let Maps {
            base: _,
            named,
            forms,
        } = self;
        let special = special_of(alloc, &named)?;
        Ok(Arc::new(
            alloc,
            Base {
                entries,
                named,
                forms,
                special,
            },
        )?)
    }

    /// The same maps, in which nothing is kept of these names.
    pub fn hide(self, alloc: Global, names: &[Text]) -> Result<Maps, Mem>
        ensures { IfOk result (λ made. IsHidden self made names.now) }
    {
        let Maps { base, named, forms } = self;
        let named = without(alloc, named, names)?;
        Ok(Maps { base, named, forms })
    }

    /// The shared entries.
    pub fn entries(&self) -> &[EntryLine]
        ensures { result.now ≡ under_entries (base_of self.now) }
    {
        match &self.base {
            Some(base) => base.as_ref().entries.as_slice(),
            None => &[],
        }
    }

    /// The shared names that are told again where names are moved.
    pub(crate) fn special(&self) -> &[Text]
        ensures { result.now ≡ under_special (base_of self.now) }
    {
        match &self.base {
            Some(base) => base.as_ref().special.as_slice(),
            None => &[],
        }
    }

    /// What the shared entries leave of a name.
    fn under(&self, name: &str) -> Option<&Named>
        ensures { option_copied result ≡ under_named (base_of self.now) name.now }
    {
        match &self.base {
            Some(base) => base.as_ref().named.get(name),
            None => None,
        }
    }

    /// What is kept of a name.
    pub(crate) fn of(&self, name: &str) -> Option<&Named>
        ensures { option_copied result ≡ named_at self.now name.now }
    {
        match self.named.get(name) {
            Some(named) => Some(named),
            None => self.under(name),
        }
    }

    /// What an entry makes of what the shared entries leave of its name.
    fn first(&self, alloc: Global, name: &str, line: &EntryLine) -> Result<Named, Mem>
        ensures { IfOk result (λ made. Steps (under_named (base_of self.now) name.now) (Some made) (subject line.now)
            line.now) }
    {
        match self.under(name) {
            Some(named) => named.with_line(alloc, line),
            None => Named::first(alloc, line),
        }
    }

    /// One more entry, of a name of which nothing is a store's own. Where memory is wanting, all is as before.
    fn add(&mut self, alloc: Global, name: &str, line: &EntryLine) -> Result<(), Mem>
        requires name { name.now ≡ subject line.now }
        requires absent { get_by_text self.old.named name.now ≡ None }
        ensures ok { OnOk result (Goes self.old self.new line.now) }
        ensures err { OnErr result (Stays self.old self.new) }
    {
        note_forms(&mut self.forms, alloc, name)?;
        let named = self.first(alloc, name, line)?;
        put_value(&mut self.named, alloc, name, named)
    }

    /// One more entry. Where memory is wanting, all is as before.
    pub fn change(&mut self, alloc: Global, line: &EntryLine) -> Result<(), Mem>
        ensures ok { OnOk result (Goes self.old self.new line.now) }
        ensures err { OnErr result (Stays self.old self.new) }
    {
        let Some(name) = name_of(line) else {
            return Ok(());
        };
        match self.named.get_mut(name) {
            Some(named) => named.change(alloc, line),
            None => self.add(alloc, name, line),
        }
    }

    /// More entries, in their order. Where memory is wanting, some of them may be there.
    pub fn change_all(&mut self, alloc: Global, lines: &[EntryLine]) -> Result<(), Mem>
        ensures same { OnOk result (base_of self.new ≡ base_of self.old) }
        ensures keeps { OnOk result ((list : List Line) → Keeps list self.old → Keeps (list ++ lines.now) self.new) }
    {
        for line in lines {
            self.change(alloc, line)?;
        }
        Ok(())
    }
}

/// The same map, in which nothing is kept of these names.
fn without(
    alloc: Global,
    named: BTreeMap<String, Named>,
    names: &[Text],
) -> Result<BTreeMap<String, Named>, Mem>
    ensures { IfOk result (λ made. AreEmpty (get_by_text named) (get_by_text made) names.now) }
{
    let mut made = named;
    for name in names {
        put_value(&mut made, alloc, name.as_str(), Named::new(alloc))?;
    }
    Ok(made)
}
