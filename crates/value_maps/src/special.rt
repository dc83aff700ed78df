// Shared names that are told again where names are moved.
ghost use Rattle.std.specs.Prelude.{◌≡◌, ℕ, List, IfOk, not};
ghost use Rattle.std.specs.List.{list_all};
ghost use Rattle.std.specs.BTreeMap.{get_by_text};
ghost use Rattle.meta_model.specs.Text.{is_in};
ghost use Rattle.value_maps.specs.Plain.{is_plain_text, is_plain_late, is_plain_named, is_plain};

use crate::named::Named;
use crate::names::{own_keys, push_if};
use meta_model::LateLine;
use std::alloc::Global;
use std::collections::BTreeMap;
use tree_model::{Mem, Text, Texts};
use var_expand::{LONGEST, holds_opening};

/// Whether expansion leaves the text as it is.
fn is_plain_text(text: &str) -> bool
    ensures { result ≡ is_plain_text text.now }
{
    !holds_opening(text.as_bytes()) && text.len() <= LONGEST
}

/// Whether expansion leaves the conditions of the late entry as they are.
fn is_plain_late(late: &LateLine) -> bool
    ensures { result ≡ is_plain_late late.now }
{
    are_plain(late.when.as_slice())
}

/// Whether expansion leaves the texts as they are.
fn are_plain(texts: &[Text]) -> bool
    ensures { result ≡ list_all is_plain_text texts.now }
{
    texts.iter().all(|text| is_plain_text(text.as_str()))
}

/// Whether expansion leaves the conditions of the late entries as they are.
fn are_plain_lates(lates: &[LateLine]) -> bool
    ensures { result ≡ list_all is_plain_late lates.now }
{
    lates.iter().all(|late| is_plain_late(late))
}

impl Named {
    /// Whether what is told of the name is what it has.
    fn is_plain(&self, name: &str) -> bool
        ensures { result ≡ is_plain_named name.now self.now }
    {
        !holds_opening(name.as_bytes())
            && (!self.kept.exported && are_plain_lates(self.lates.as_slice()))
    }
}

/// Whether the name has to be told again where names are moved.
fn is_special(named: &BTreeMap<String, Named>, name: &str) -> bool
    ensures { result ≡ not (is_plain name.now (get_by_text named.now name.now)) }
{
    match named.get(name) {
        Some(named) => !named.is_plain(name),
        None => false,
    }
}

/// The names that have to be told again where names are moved.
pub(crate) fn special_of(alloc: Global, named: &BTreeMap<String, Named>) -> Result<Texts, Mem>
    ensures { IfOk result (λ made. (name : List ℕ) → is_in name made
        ≡ not (is_plain name (get_by_text named.now name))) }
{
    let names = own_keys(alloc, named)?;
    let mut made = Texts::new(alloc);
    for name in names.as_slice() {
        push_if(&mut made, name, is_special(named, name.as_str()))?;
    }
    Ok(made)
}
