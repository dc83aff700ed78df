// The forms of names: which names `N:p1:..:pk` there are for a name N.
ghost use Rattle.std.specs.Prelude.{◌≡◌, ◌<◌, ◌+◌, ◌++◌, ◌∷◌, [], ℕ, List, true, OnOk, OnErr, IfOk, length, take, drop, slice_index};
ghost use Rattle.std.specs.BTreeMap.{get_by_text};
ghost use Rattle.meta_model.specs.Text.{colon, is_in};
ghost use Rattle.value_maps.specs.Forms.{rests, KeepsRests, HasForms};

use crate::by_name::put_value;
use std::alloc::Global;
use std::collections::BTreeMap;
use tree_model::{Mem, Text};

/// For each name N the texts behind `N:` of names.
pub(crate) type Forms = BTreeMap<String, Vec<Text>>;

/// Puts a copy of the text behind the others. Where memory is wanting, they are as before.
fn push_rest(rests: &mut Vec<Text>, alloc: Global, rest: &str) -> Result<(), Mem>
    ensures ok { OnOk result (rests.new.items ≡ rests.old.items ++ rest.now ∷ []) }
    ensures err { OnErr result (rests.new.items ≡ rests.old.items) }
{
    let text = Text::from_str(alloc, rest)?;
    Ok(rests.push(text)?)
}

/// A list with a copy of the text alone.
fn first_rest(alloc: Global, rest: &str) -> Result<Vec<Text>, Mem>
    ensures { IfOk result (λ made. made.items ≡ rest.now ∷ []) }
{
    let mut made = Vec::new(alloc);
    push_rest(&mut made, alloc, rest)?;
    Ok(made)
}

/// Notes one text behind a name and a colon. None is lost, also where memory is wanting.
fn note_form(forms: &mut Forms, alloc: Global, front: &str, rest: &str) -> Result<(), Mem>
    ensures keeps { KeepsRests (λ name. rests (get_by_text forms.old name))
        (λ name. rests (get_by_text forms.new name)) }
    ensures ok { OnOk result (is_in rest.now (rests (get_by_text forms.new front.now)) ≡ true) }
{
    match forms.get_mut(front) {
        Some(rests) => push_rest(rests, alloc, rest),
        None => {
            let rests = first_rest(alloc, rest)?;
            put_value(forms, alloc, front, rests)
        }
    }
}

/// Notes a name where it is cut at one colon.
fn note_cut(forms: &mut Forms, alloc: Global, name: &str, place: usize) -> Result<(), Mem>
    requires within { place < length name.now }
    requires colon { slice_index name.now place ≡ colon }
    ensures keeps { KeepsRests (λ name. rests (get_by_text forms.old name))
        (λ name. rests (get_by_text forms.new name)) }
    ensures ok { OnOk result (is_in (drop (place + 1) name.now) (rests (get_by_text forms.new (take place name.now)))
        ≡ true) }
{
    note_form(forms, alloc, &name[..place], &name[place + 1..])
}

/// Notes a name for each part of it that a colon follows. None is lost, also where memory is wanting.
pub(crate) fn note_forms(forms: &mut Forms, alloc: Global, name: &str) -> Result<(), Mem>
    ensures keeps { KeepsRests (λ name. rests (get_by_text forms.old name))
        (λ name. rests (get_by_text forms.new name)) }
    ensures ok { OnOk result (HasForms (λ name. rests (get_by_text forms.new name)) name.now) }
{
    let bytes = name.as_bytes();
    for place in 0..bytes.len() {
        if bytes[place] == b':' {
            note_cut(forms, alloc, name, place)?;
        }
    }
    Ok(())
}
