// The names that a text looks up.
ghost use Rattle.std.specs.Prelude.{◌≡◌, IfOk, IfErr, OnOk, Ok};
ghost use Rattle.meta_model.specs.Expansion.{values_by};
ghost use Rattle.meta_model.specs.Parts.{end, reference, form as form'};
ghost use Rattle.meta_model.specs.Forms.{told_name};
ghost use Rattle.meta_model.specs.Text.{into_order};
ghost use Rattle.var_expand.specs.Faults.{IsFaultOf, IsWantOfMemory};
ghost use Rattle.var_expand.specs.Pieces.{part_before, parts_in};
ghost use Rattle.meta_model.specs.References.{looked_up, noted};

use crate::expansion::expand_name;
use crate::fault::ExpandFault;
use crate::lookup::Lookup;
use crate::parts::{Part, Parts};
use crate::reading::parse_refs;
use meta_model::{Form, are_name_bytes, as_texts, put_in_order, told_name};
use std::alloc::Global;
use tree_model::{Text, Texts};

/// Notes the names that a reference looks up: those of its name's parts, and its name.
#[cycle(noting)]
fn note_reference<L: Lookup>(
    alloc: Global,
    from: &L,
    names: &mut Vec<Text>,
    name: &Parts,
) -> Result<(), ExpandFault>
    ensures ok { OnOk result (noted (values_by (L.finds from.now)) (reference (parts_in name.now) end) names.old.items
        ≡ Ok names.new.items) }
    ensures err { IfErr result (λ fault. IsFaultOf fault
        (noted (values_by (L.finds from.now)) (reference (parts_in name.now) end) names.old.items)) }
{
    let looked = expand_name(alloc, from, name)?;
    note_parts(alloc, from, names, name)?;
    if are_name_bytes(looked.as_str().as_bytes()) {
        put_in_order(names, looked)?;
    }
    Ok(())
}

/// Notes what a form asks for, by the name under which a key tells what it finds.
fn note_form(alloc: Global, names: &mut Vec<Text>, form: &Form) -> Result<(), ExpandFault>
    ensures ok { OnOk result (names.new.items ≡ into_order names.old.items (told_name form.now.name form.now.words)) }
    ensures err { IfErr result IsWantOfMemory }
{
    Ok(put_in_order(
        names,
        told_name(alloc, form.name.as_str(), form.words.as_slice())?,
    )?)
}

/// Notes the names that a part looks up.
#[cycle(noting)]
fn note_part<L: Lookup>(
    alloc: Global,
    from: &L,
    names: &mut Vec<Text>,
    part: &Part,
) -> Result<(), ExpandFault>
    ensures ok { OnOk result (noted (values_by (L.finds from.now)) (part_before part.now end) names.old.items
        ≡ Ok names.new.items) }
    ensures err { IfErr result (λ fault. IsFaultOf fault
        (noted (values_by (L.finds from.now)) (part_before part.now end) names.old.items)) }
{
    match part {
        Part::Plain(_) => Ok(()),
        Part::Ref(name) => note_reference(alloc, from, names, name),
        Part::Call(form) => note_form(alloc, names, form),
    }
}

/// Notes the names that parts look up.
#[cycle(noting)]
fn note_parts<L: Lookup>(
    alloc: Global,
    from: &L,
    names: &mut Vec<Text>,
    parts: &Parts,
) -> Result<(), ExpandFault>
    ensures ok { OnOk result (noted (values_by (L.finds from.now)) (parts_in parts.now) names.old.items
        ≡ Ok names.new.items) }
    ensures err { IfErr result (λ fault. IsFaultOf fault
        (noted (values_by (L.finds from.now)) (parts_in parts.now) names.old.items)) }
{
    for part in &parts.list {
        note_part(alloc, from, names, part)?;
    }
    Ok(())
}

/// The names that the references of a text look up, in byte order, each once. Names that stand in the names of references
/// are among them, and are expanded; the values of the others are not (own rule). A form stands among them by `@`, its name and
/// its words, each behind a blank, as a key tells what it finds.
///
/// Faults are those of these expansions, and `TooDeep` with an empty name, before any other, where the text nests
/// references more than 64 deep.
pub fn references<L: Lookup>(alloc: Global, text: &str, from: &L) -> Result<Texts, ExpandFault>
    ensures ok { IfOk result (λ made. looked_up (L.finds from.now) text.now ≡ Ok made) }
    ensures err { IfErr result (λ fault. IsFaultOf fault (looked_up (L.finds from.now) text.now)) }
{
    let parts = parse_refs(alloc, text)?;
    let mut names = Vec::new(alloc);
    note_parts(alloc, from, &mut names, &parts)?;
    Ok(as_texts(alloc, names.as_slice())?)
}
