// What is found for a name under active overrides.
ghost use Rattle.std.specs.Prelude.{◌≡◌, ◌++◌, ◌∷◌, [], List, IfOk, OnOk, Some, is_some, filter, if◌then◌else◌, option_copied, option_to_list, option_map, codes};
ghost use Rattle.std.specs.BTreeMap.{get_by_text};
ghost use Rattle.meta_model.specs.declared.entry.EntryLine.{EntryLine as Line};
ghost use Rattle.meta_model.specs.Slot.{at_end};
ghost use Rattle.meta_model.specs.Overrides.{winning, resolved};
ghost use Rattle.value_maps.specs.Named.{slot_at, lates_at, flag_at};
ghost use Rattle.value_maps.specs.Forms.{rests};
ghost use Rattle.value_maps.specs.Maps.{Keeps, named_at, base_of, under_noted};
ghost use Rattle.value_maps.specs.Found.{own_at, form_of, is_present, present_forms, own_of, told_flag, joined_at};

use crate::forms::Forms;
use crate::maps::Maps;
use crate::named::Named;
use crate::names::push_if;
use meta_model::{LateLine, Resolved};
use override_eval::{apply_ops, choose, is_counted};
use std::alloc::Global;
use tree_model::{ListOf, Mem, Text, Texts};

/// The name `N:rest` of a form.
fn form_of(alloc: Global, name: &str, rest: &str) -> Result<Text, Mem>
    ensures { IfOk result (λ made. made ≡ form_of name.now rest.now) }
{
    let mut made = Text::from_str(alloc, name)?;
    made.push_str(":")?;
    made.push_str(rest)?;
    Ok(made)
}

/// The texts that are noted behind a name and a colon.
fn noted_in<'a>(forms: &'a Forms, name: &str) -> &'a [Text]
    ensures { result.now ≡ rests (get_by_text forms.now name.now) }
{
    match forms.get(name) {
        Some(noted) => noted.as_slice(),
        None => &[],
    }
}

/// Puts copies of texts at the end.
fn push_all(list: &mut Texts, more: &[Text]) -> Result<(), Mem>
    ensures { OnOk result (list.new ≡ list.old ++ more.now) }
{
    for text in more {
        list.push(text.copy()?)?;
    }
    Ok(())
}

/// The value of a name of which this is kept as assignments leave it, without late entries.
fn base_in(named: Option<&Named>) -> Option<&str>
    ensures { option_copied result ≡ at_end (slot_at (option_copied named.entry)) }
{
    match named {
        Some(named) => named.kept.at_end(),
        None => None,
    }
}

/// The late entries of a name of which this is kept.
fn lates_in(named: Option<&Named>) -> &[LateLine]
    ensures { result.now ≡ lates_at (option_copied named.entry) }
{
    match named {
        Some(named) => named.lates.as_slice(),
        None => &[],
    }
}

/// A flag of a name of which this is kept, unexpanded.
pub(crate) fn flag_in<'a>(named: Option<&'a Named>, flag: &str) -> Option<&'a str>
    ensures { option_copied result ≡ at_end (flag_at (option_copied named.entry) flag.now) }
{
    match named {
        Some(named) => match named.flags.get(flag) {
            Some(kept) => kept.at_end(),
            None => None,
        },
        None => None,
    }
}

/// The own value of a name of which this is kept.
fn own_in(alloc: Global, named: Option<&Named>, active: &[Text]) -> Result<Option<Resolved>, Mem>
    ensures { IfOk result (λ made. made ≡ own_at active.now (option_copied named.entry)) }
{
    apply_ops(alloc, base_in(named), lates_in(named), active)
}

/// The flags that are told with a value.
fn told_flags(alloc: Global, named: Option<&Named>) -> Result<ListOf<(Text, Text)>, Mem>
    ensures { IfOk result (λ made. made ≡ told_flag (option_copied named.entry) (codes "export")
        ++ told_flag (option_copied named.entry) (codes "func")) }
{
    let mut made = ListOf::new(alloc);
    push_flag(&mut made, alloc, "export", flag_in(named, "export"))?;
    push_flag(&mut made, alloc, "func", flag_in(named, "func"))?;
    Ok(made)
}

/// A text and removes with the flags of a name of which this is kept.
fn with_flags(
    alloc: Global,
    named: Option<&Named>,
    text: Text,
    removes: Texts,
) -> Result<Option<Resolved>, Mem>
    ensures { IfOk result (λ made. made ≡ Some (record {
      text = text;
      removes = removes;
      flags = told_flag (option_copied named.entry) (codes "export")
          ++ told_flag (option_copied named.entry) (codes "func");
    })) }
{
    let flags = told_flags(alloc, named)?;
    Ok(Some(Resolved {
        text,
        removes,
        flags,
    }))
}

/// A value with the late entries of a name of which this is kept, and the removes behind these.
fn with_lates(
    alloc: Global,
    named: Option<&Named>,
    value: Option<&str>,
    removes: Texts,
    active: &[Text],
) -> Result<Option<Resolved>, Mem>
    ensures { IfOk result (λ made. made ≡ joined_at active.now (option_copied named.entry) (option_copied value.entry)
        removes) }
{
    match apply_ops(alloc, value, lates_in(named), active)? {
        Some(own) => {
            let (text, removes) = parts_behind(own, removes)?;
            with_flags(alloc, named, text, removes)
        }
        None => Ok(None),
    }
}

/// The text of a value, and its removes behind others.
fn parts_behind(own: Resolved, removes: Texts) -> Result<(Text, Texts), Mem>
    ensures text { IfOk result (λ made. made.0 ≡ own.text) }
    ensures removes { IfOk result (λ made. made.1 ≡ removes ++ own.removes) }
{
    let mut all = removes;
    push_all(&mut all, own.removes.as_slice())?;
    Ok((own.text, all))
}

impl Maps {
    /// The late entries of a name.
    pub fn lates_of(&self, name: &str) -> &[LateLine]
        ensures { result.now ≡ lates_at (named_at self.now name.now) }
    {
        lates_in(self.of(name))
    }

    /// A flag, unexpanded.
    pub fn flag_of(&self, name: &str, flag: &str) -> Option<&str>
        ensures { option_copied result ≡ at_end (flag_at (named_at self.now name.now) flag.now) }
    {
        flag_in(self.of(name), flag)
    }

    /// The own value of a name.
    fn own(&self, alloc: Global, name: &str, active: &[Text]) -> Result<Option<Resolved>, Mem>
        ensures { IfOk result (λ made. made ≡ own_at active.now (named_at self.now name.now)) }
    {
        own_in(alloc, self.of(name), active)
    }

    /// Whether a name has an own value.
    fn has_own(&self, alloc: Global, name: &str, active: &[Text]) -> Result<bool, Mem>
        ensures { IfOk result (λ there. there ≡ is_some (own_at active.now (named_at self.now name.now))) }
    {
        let own = self.own(alloc, name, active)?;
        Ok(own.is_some())
    }

    /// Whether the name `N:rest` is a form of N.
    fn is_present(
        &self,
        alloc: Global,
        name: &str,
        rest: &str,
        active: &[Text],
    ) -> Result<bool, Mem>
        ensures { IfOk result (λ there. there ≡ is_present self.now active.now name.now rest.now) }
    {
        if !is_counted(rest, active) {
            return Ok(false);
        }
        let form = form_of(alloc, name, rest)?;
        self.has_own(alloc, form.as_str(), active)
    }

    /// The texts that the shared entries let be noted behind a name and a colon.
    fn noted_under(&self, name: &str) -> &[Text]
        ensures { result.now ≡ under_noted (base_of self.now) name.now }
    {
        match &self.base {
            Some(base) => noted_in(&base.as_ref().forms, name),
            None => &[],
        }
    }

    /// Puts the text at the end, where the name `N:rest` is a form of N.
    fn push_present(
        &self,
        list: &mut Texts,
        alloc: Global,
        name: &str,
        rest: &Text,
        active: &[Text],
    ) -> Result<(), Mem>
        ensures { OnOk result (list.new ≡ list.old ++ (if is_present self.now active.now name.now rest.now then
            rest.now ∷ [] else [])) }
    {
        let asked = self.is_present(alloc, name, rest.as_str(), active)?;
        push_if(list, rest, asked)
    }

    /// Puts those texts at the end of which the name `N:rest` is a form of N.
    fn push_presents(
        &self,
        list: &mut Texts,
        alloc: Global,
        name: &str,
        rests: &[Text],
        active: &[Text],
    ) -> Result<(), Mem>
        ensures { OnOk result (list.new ≡ list.old ++ filter (is_present self.now active.now name.now) rests.now) }
    {
        for rest in rests {
            self.push_present(list, alloc, name, rest, active)?;
        }
        Ok(())
    }

    /// The forms of a name.
    fn present_forms(&self, alloc: Global, name: &str, active: &[Text]) -> Result<Texts, Mem>
        ensures { IfOk result (λ made. made ≡ present_forms self.now active.now name.now) }
    {
        let mut made = Texts::new(alloc);
        let own = noted_in(&self.forms, name);
        self.push_presents(&mut made, alloc, name, self.noted_under(name), active)?;
        self.push_presents(&mut made, alloc, name, own, active)?;
        Ok(made)
    }

    /// The own value of the winning form of a name, where it has one.
    fn winner(&self, alloc: Global, name: &str, active: &[Text]) -> Result<Option<Resolved>, Mem>
        ensures { (list : List Line) → Keeps list self.now
            → IfOk result (λ won. won ≡ own_of list active.now (winning list active.now name.now)) }
    {
        let forms = self.present_forms(alloc, name, active)?;
        let all = forms.as_slice();
        match choose(all, active) {
            Some(place) => {
                let form = form_of(alloc, name, all[place].as_str())?;
                self.own(alloc, form.as_str(), active)
            }
            None => Ok(None),
        }
    }

    /// The resolved value of a name.
    pub fn resolve(
        &self,
        alloc: Global,
        name: &str,
        active: &[Text],
    ) -> Result<Option<Resolved>, Mem>
        ensures { (list : List Line) → Keeps list self.now
            → IfOk result (λ made. made ≡ resolved list active.now name.now) }
    {
        let named = self.of(name);
        match self.winner(alloc, name, active)? {
            Some(own) => {
                let Resolved {
                    text,
                    removes,
                    flags: _,
                } = own;
                with_lates(alloc, named, Some(text.as_str()), removes, active)
            }
            None => with_lates(alloc, named, base_in(named), Texts::new(alloc), active),
        }
    }
}

/// Puts a flag with its name at the end, where there is one.
fn push_flag(
    list: &mut ListOf<(Text, Text)>,
    alloc: Global,
    flag: &str,
    text: Option<&str>,
) -> Result<(), Mem>
    ensures { OnOk result (list.new ≡ list.old ++ option_to_list
        (option_map (λ t. (flag.now, t)) (option_copied text.entry))) }
{
    match text {
        Some(text) => list.push((Text::from_str(alloc, flag)?, Text::from_str(alloc, text)?)),
        None => Ok(()),
    }
}
