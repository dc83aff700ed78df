// Expansion of references.
ghost use Rattle.std.specs.Prelude.{◌≡◌, [], ◌∷◌, ◌≤◌, ◌-◌, ◌++◌, IfOk, IfErr, OnOk, MatchOption, None, Ok, codes, length};
ghost use Rattle.meta_model.specs.Expansion.{Values, deepest, longest, expanded_parts, expanded, expanded_value, expand_by, value_by, values_by, words_there};
ghost use Rattle.meta_model.specs.Forms.{words_in};
ghost use Rattle.meta_model.specs.Parts.{depth};
ghost use Rattle.var_expand.specs.Faults.{IsFaultOf};
ghost use Rattle.var_expand.specs.Pieces.{parts_in};
ghost use Rattle.var_expand.specs.Expanding.{call_text, fitting, grown, known, last_name, reference_text, removed};
ghost use Rattle.var_expand.specs.Going.{AllTelling, Grew, IsGoing};

use crate::fault::{ExpandFault, ReadFault};
use crate::going::{AtHand, Going, LONGEST, at_hand, enter, innermost_name, leave};
use crate::lookup::Lookup;
use crate::parts::{Part, Parts};
use crate::reading::read;
use crate::scan::holds_opening;
use meta_model::{Form, Resolved, are_name_bytes, drop_words, push_words, words_in};
use std::alloc::Global;
use tree_model::{Mem, Text, Texts};

/// The most names in expansion at once.
const DEEPEST: usize = 64;

/// Refuses more bytes than there is room for.
fn fit(alloc: Global, within: &[Text], room: usize, more: usize) -> Result<(), ExpandFault>
    ensures ok { OnOk result (more ≤ room) }
    ensures err { IfErr result (λ fault. IsFaultOf fault (fitting within.now room more)) }
{
    if more > room {
        return Err(ExpandFault::TooLong {
            name: innermost_name(alloc, within)?,
        });
    }
    Ok(())
}

/// The reference to a name.
fn as_reference(alloc: Global, name: &str) -> Result<Text, Mem>
    ensures { IfOk result (λ made. made ≡ codes "${" ++ (name.now ++ codes "}")) }
{
    let mut made = Text::from_str(alloc, "${")?;
    made.push_str(name)?;
    made.push_str("}")?;
    Ok(made)
}

/// Puts a piece behind what is expanded so far, where there is room for it.
fn put_piece(alloc: Global, within: &[Text], out: &mut Text, piece: &str) -> Result<(), ExpandFault>
    requires { length out.old ≤ longest }
    ensures fits { OnOk result (length piece.now ≤ longest - length out.old) }
    ensures ok { OnOk result (out.new ≡ out.old ++ piece.now) }
    ensures err { IfErr result (λ fault. IsFaultOf fault
        (fitting within.now (longest - length out.old) (length piece.now))) }
{
    fit(alloc, within, LONGEST - out.as_str().len(), piece.len())?;
    Ok(out.push_str(piece)?)
}

/// Puts what a part becomes behind what is expanded so far.
#[cycle(expansion)]
fn expand_part<L: Lookup>(
    alloc: Global,
    from: &L,
    going: &mut Going,
    left: usize,
    out: &mut Text,
    part: &Part,
) -> Result<(), ExpandFault>
    requires room { length out.old ≤ longest }
    requires going { IsGoing (L.finds from.now) left going.old }
    ensures ok { OnOk result (grown (known (L.finds from.now) left going.old.within.items)
        (last_name going.old.within.items) part.now out.old ≡ Ok out.new) }
    ensures room { OnOk result (length out.new ≤ longest) }
    ensures err { IfErr result (λ fault. IsFaultOf fault
        (grown (known (L.finds from.now) left going.old.within.items) (last_name going.old.within.items) part.now
        out.old)) }
    ensures same { OnOk result (going.new.within.items ≡ going.old.within.items) }
    ensures grew { OnOk result (Grew (L.finds from.now) left going.old going.new) }
    ensures told { OnOk result (AllTelling (L.finds from.now) going.new
        (λ values. grown values (last_name going.old.within.items) part.now out.old ≡ Ok out.new)) }
{
    match part {
        Part::Plain(text) => put_piece(alloc, going.within.as_slice(), out, text.as_str()),
        Part::Ref(name) => {
            let piece = expand_reference(alloc, from, going, left, name)?;
            put_piece(alloc, going.within.as_slice(), out, piece.as_str())
        }
        Part::Call(form) => {
            let piece = expand_form(alloc, from, going, left, form)?;
            put_piece(alloc, going.within.as_slice(), out, piece.as_str())
        }
    }
}

/// Parts expanded.
#[cycle(expansion)]
fn expand_parts<L: Lookup>(
    alloc: Global,
    from: &L,
    going: &mut Going,
    left: usize,
    parts: &Parts,
) -> Result<Text, ExpandFault>
    requires going { IsGoing (L.finds from.now) left going.old }
    ensures ok { IfOk result (λ made. expanded_parts (known (L.finds from.now) left going.old.within.items)
        (last_name going.old.within.items) (parts_in parts.now) longest ≡ Ok made) }
    ensures err { IfErr result (λ fault. IsFaultOf fault
        (expanded_parts (known (L.finds from.now) left going.old.within.items) (last_name going.old.within.items)
        (parts_in parts.now) longest)) }
    ensures same { OnOk result (going.new.within.items ≡ going.old.within.items) }
    ensures grew { OnOk result (Grew (L.finds from.now) left going.old going.new) }
    ensures told { IfOk result (λ made. AllTelling (L.finds from.now) going.new
        (λ values. expanded_parts values (last_name going.old.within.items) (parts_in parts.now) longest ≡ Ok made)) }
{
    let mut out = Text::new(alloc);
    for part in &parts.list {
        expand_part(alloc, from, going, left, &mut out, part)?;
    }
    Ok(out)
}

/// What a reference becomes: the value of its name, or, where there is none, the reference with its inner parts expanded.
#[cycle(expansion)]
fn expand_reference<L: Lookup>(
    alloc: Global,
    from: &L,
    going: &mut Going,
    left: usize,
    name: &Parts,
) -> Result<Text, ExpandFault>
    requires going { IsGoing (L.finds from.now) left going.old }
    ensures ok { IfOk result (λ made. reference_text (known (L.finds from.now) left going.old.within.items)
        (last_name going.old.within.items) (parts_in name.now) ≡ Ok made) }
    ensures err { IfErr result (λ fault. IsFaultOf fault
        (reference_text (known (L.finds from.now) left going.old.within.items) (last_name going.old.within.items)
        (parts_in name.now))) }
    ensures same { OnOk result (going.new.within.items ≡ going.old.within.items) }
    ensures grew { OnOk result (Grew (L.finds from.now) left going.old going.new) }
    ensures told { IfOk result (λ made. AllTelling (L.finds from.now) going.new
        (λ values. reference_text values (last_name going.old.within.items) (parts_in name.now) ≡ Ok made)) }
{
    let looked = expand_parts(alloc, from, going, left, name)?;
    if !are_name_bytes(looked.as_str().as_bytes()) {
        return Ok(as_reference(alloc, looked.as_str())?);
    }
    match value_within(alloc, from, going, left, looked.as_str())? {
        Some(value) => Ok(value),
        None => Ok(as_reference(alloc, looked.as_str())?),
    }
}

/// Those of the words that stand in a value; none where there is no value.
fn found_words(alloc: Global, wanted: &[Text], value: Option<Text>) -> Result<Texts, Mem>
    ensures { IfOk result (λ made. made ≡ words_in wanted.now value) }
{
    match value {
        Some(text) => words_in(alloc, wanted, text.as_str()),
        None => Ok(Texts::new(alloc)),
    }
}

/// The words of a form that are told to be there.
fn told_words<L: Lookup>(alloc: Global, from: &L, form: &Form) -> Result<Option<Texts>, Mem>
    ensures { IfOk result (λ told. (L.finds from.now).known form.now.name form.now.words ≡ told) }
{
    from.known(alloc, form.name.as_str(), form.words.as_slice())
}

/// The words of a form that are there: as they are told, or else those that stand in the expanded value of its name.
#[cycle(expansion)]
fn words_there<L: Lookup>(
    alloc: Global,
    from: &L,
    going: &mut Going,
    left: usize,
    form: &Form,
) -> Result<Texts, ExpandFault>
    requires going { IsGoing (L.finds from.now) left going.old }
    ensures ok { IfOk result (λ made. words_there (known (L.finds from.now) left going.old.within.items) form.now ≡ Ok made) }
    ensures err { IfErr result (λ fault. IsFaultOf fault (words_there (known (L.finds from.now) left going.old.within.items) form.now)) }
    ensures same { OnOk result (going.new.within.items ≡ going.old.within.items) }
    ensures grew { OnOk result (Grew (L.finds from.now) left going.old going.new) }
    ensures told { IfOk result (λ made. AllTelling (L.finds from.now) going.new
        (λ values. words_there values form.now ≡ Ok made)) }
{
    if let Some(told) = told_words(alloc, from, form)? {
        return Ok(told);
    }
    let value = value_within(alloc, from, going, left, form.name.as_str())?;
    Ok(found_words(alloc, form.words.as_slice(), value)?)
}

/// What a form becomes.
#[cycle(expansion)]
fn expand_form<L: Lookup>(
    alloc: Global,
    from: &L,
    going: &mut Going,
    left: usize,
    form: &Form,
) -> Result<Text, ExpandFault>
    requires going { IsGoing (L.finds from.now) left going.old }
    ensures ok { IfOk result (λ made. call_text (known (L.finds from.now) left going.old.within.items) form.now ≡ Ok made) }
    ensures err { IfErr result (λ fault. IsFaultOf fault (call_text (known (L.finds from.now) left going.old.within.items) form.now)) }
    ensures same { OnOk result (going.new.within.items ≡ going.old.within.items) }
    ensures grew { OnOk result (Grew (L.finds from.now) left going.old going.new) }
    ensures told { IfOk result (λ made. AllTelling (L.finds from.now) going.new
        (λ values. call_text values form.now ≡ Ok made)) }
{
    let there = words_there(alloc, from, going, left, form)?;
    Ok(form.text(alloc, there.as_slice())?)
}

/// The expanded value of a name in the expansion of others.
#[cycle(expansion)]
fn value_within<L: Lookup>(
    alloc: Global,
    from: &L,
    going: &mut Going,
    left: usize,
    name: &str,
) -> Result<Option<Text>, ExpandFault>
    requires going { IsGoing (L.finds from.now) left going.old }
    ensures ok { IfOk result (λ made. (known (L.finds from.now) left going.old.within.items).at name.now ≡ Ok made) }
    ensures err { IfErr result (λ fault. IsFaultOf fault
        ((known (L.finds from.now) left going.old.within.items).at name.now)) }
    ensures same { OnOk result (going.new.within.items ≡ going.old.within.items) }
    ensures grew { OnOk result (Grew (L.finds from.now) left going.old going.new) }
    ensures told { IfOk result (λ made. AllTelling (L.finds from.now) going.new (λ values. values.at name.now ≡ Ok made)) }
{
    let found = match at_hand(alloc, from, going, left, name)? {
        AtHand::Value(made) => return Ok(made),
        AtHand::Deeper(found) => found,
    };
    let names = going.within.len();
    let outer = enter(alloc, going, name)?;
    let value = expand_value(alloc, from, going, left - 1, found)?;
    leave(alloc, going, names, outer, name, &value)?;
    Ok(Some(value))
}

/// A resolved value expanded, without the words of its expanded removes.
#[cycle(expansion)]
fn expand_value<L: Lookup>(
    alloc: Global,
    from: &L,
    going: &mut Going,
    left: usize,
    found: Resolved,
) -> Result<Text, ExpandFault>
    requires going { IsGoing (L.finds from.now) left going.old }
    ensures ok { IfOk result (λ made. expanded_value (known (L.finds from.now) left going.old.within.items)
        (last_name going.old.within.items) found ≡ Ok made) }
    ensures err { IfErr result (λ fault. IsFaultOf fault
        (expanded_value (known (L.finds from.now) left going.old.within.items) (last_name going.old.within.items)
        found)) }
    ensures same { OnOk result (going.new.within.items ≡ going.old.within.items) }
    ensures grew { OnOk result (Grew (L.finds from.now) left going.old going.new) }
    ensures told { IfOk result (λ made. AllTelling (L.finds from.now) going.new
        (λ values. expanded_value values (last_name going.old.within.items) found ≡ Ok made)) }
{
    let Resolved {
        text,
        removes,
        flags,
    } = found;
    drop(flags);
    let value = expand_owned(alloc, from, going, left, text)?;
    if removes.is_empty() {
        return Ok(value);
    }
    let words = removed_words(alloc, from, going, left, removes.as_slice())?;
    Ok(drop_words(alloc, value.as_str(), words.as_slice())?)
}

/// The words of the removes, expanded.
#[cycle(expansion)]
fn removed_words<L: Lookup>(
    alloc: Global,
    from: &L,
    going: &mut Going,
    left: usize,
    removes: &[Text],
) -> Result<Texts, ExpandFault>
    requires going { IsGoing (L.finds from.now) left going.old }
    ensures ok { IfOk result (λ made. removed (known (L.finds from.now) left going.old.within.items)
        (last_name going.old.within.items) removes.now ≡ Ok made) }
    ensures err { IfErr result (λ fault. IsFaultOf fault
        (removed (known (L.finds from.now) left going.old.within.items) (last_name going.old.within.items)
        removes.now)) }
    ensures same { OnOk result (going.new.within.items ≡ going.old.within.items) }
    ensures grew { OnOk result (Grew (L.finds from.now) left going.old going.new) }
    ensures told { IfOk result (λ made. AllTelling (L.finds from.now) going.new
        (λ values. removed values (last_name going.old.within.items) removes.now ≡ Ok made)) }
{
    let mut words = Texts::new(alloc);
    for remove in removes {
        let text = expand_text(alloc, from, going, left, remove.as_str())?;
        push_words(&mut words, alloc, text.as_str())?;
    }
    Ok(words)
}

/// A text expanded, that is not copied where it has no reference.
#[cycle(expansion)]
fn expand_owned<L: Lookup>(
    alloc: Global,
    from: &L,
    going: &mut Going,
    left: usize,
    text: Text,
) -> Result<Text, ExpandFault>
    requires going { IsGoing (L.finds from.now) left going.old }
    ensures ok { IfOk result (λ made. expanded (known (L.finds from.now) left going.old.within.items)
        (last_name going.old.within.items) text ≡ Ok made) }
    ensures err { IfErr result (λ fault. IsFaultOf fault
        (expanded (known (L.finds from.now) left going.old.within.items) (last_name going.old.within.items) text)) }
    ensures same { OnOk result (going.new.within.items ≡ going.old.within.items) }
    ensures grew { OnOk result (Grew (L.finds from.now) left going.old going.new) }
    ensures told { IfOk result (λ made. AllTelling (L.finds from.now) going.new
        (λ values. expanded values (last_name going.old.within.items) text ≡ Ok made)) }
{
    if holds_opening(text.as_str().as_bytes()) {
        return expand_text(alloc, from, going, left, text.as_str());
    }
    fit(alloc, going.within.as_slice(), LONGEST, text.as_str().len())?;
    Ok(text)
}

/// The parts of a text, in the expansion of these names.
fn read_within(alloc: Global, within: &[Text], text: &str) -> Result<Parts, ExpandFault>
    ensures ok { IfOk result (λ made. (values : Values)
        → expanded values (last_name within.now) text.now
        ≡ expanded_parts values (last_name within.now) (parts_in made) longest) }
    ensures shallow { IfOk result (λ made. depth (parts_in made) ≤ deepest) }
    ensures err { IfErr result (λ fault. (values : Values)
        → IsFaultOf fault (expanded values (last_name within.now) text.now)) }
{
    match read(alloc, text) {
        Ok(parts) => Ok(parts),
        Err(ReadFault::TooDeep) => Err(ExpandFault::TooDeep {
            name: innermost_name(alloc, within)?,
        }),
        Err(ReadFault::Memory) => Err(ExpandFault::Memory),
    }
}

/// A text expanded.
#[cycle(expansion)]
fn expand_text<L: Lookup>(
    alloc: Global,
    from: &L,
    going: &mut Going,
    left: usize,
    text: &str,
) -> Result<Text, ExpandFault>
    requires going { IsGoing (L.finds from.now) left going.old }
    ensures ok { IfOk result (λ made. expanded (known (L.finds from.now) left going.old.within.items)
        (last_name going.old.within.items) text.now ≡ Ok made) }
    ensures err { IfErr result (λ fault. IsFaultOf fault
        (expanded (known (L.finds from.now) left going.old.within.items) (last_name going.old.within.items)
        text.now)) }
    ensures same { OnOk result (going.new.within.items ≡ going.old.within.items) }
    ensures grew { OnOk result (Grew (L.finds from.now) left going.old going.new) }
    ensures told { IfOk result (λ made. AllTelling (L.finds from.now) going.new
        (λ values. expanded values (last_name going.old.within.items) text.now ≡ Ok made)) }
{
    let parts = read_within(alloc, going.within.as_slice(), text)?;
    expand_parts(alloc, from, going, left, &parts)
}

/// The parts of a name expanded, in the expansion of no other.
pub(crate) fn expand_name<L: Lookup>(
    alloc: Global,
    from: &L,
    name: &Parts,
) -> Result<Text, ExpandFault>
    ensures ok { IfOk result (λ made. expanded_parts (values_by (L.finds from.now)) [] (parts_in name.now) longest
        ≡ Ok made) }
    ensures err { IfErr result (λ fault. IsFaultOf fault
        (expanded_parts (values_by (L.finds from.now)) [] (parts_in name.now) longest)) }
{
    let mut going = Going::new(alloc);
    expand_parts(alloc, from, &mut going, DEEPEST, name)
}

/// A text with its references replaced by the values of their names, as `from` finds them ("Syntax and Operators", "Variable
/// Expansion").
///
/// Where a name has no value, or holds a character that no name of a reference has, the reference stays, with its inner
/// parts expanded. A form becomes what it gives of those of its words that `from` tells, or else that stand in the value of its name. What is put in isn't read again, so that glued text makes no reference (own rule). A value's removes
/// take their words out of it after both are expanded. Each expanded text has at most 1,048,576 bytes, asked before removes
/// are applied, and at most 64 names are in expansion at once (own rules).
///
/// Of several faults the earliest in the text comes, and a value's text comes before its removes; but that a text nests too
/// deep is asked before anything of it is expanded. A text without references looks nothing up.
pub fn expand<L: Lookup>(alloc: Global, text: &str, from: &L) -> Result<Text, ExpandFault>
    ensures ok { IfOk result (λ made. expand_by (L.finds from.now) text.now ≡ Ok made) }
    ensures err { IfErr result (λ fault. IsFaultOf fault (expand_by (L.finds from.now) text.now)) }
{
    let mut going = Going::new(alloc);
    expand_text(alloc, from, &mut going, DEEPEST, text)
}

/// The expanded value of a name, or `None` where it has none. The rules and faults are those of `expand`.
pub fn value<L: Lookup>(alloc: Global, name: &str, from: &L) -> Result<Option<Text>, ExpandFault>
    ensures ok { IfOk result (λ made. value_by (L.finds from.now) name.now ≡ Ok made) }
    ensures err { IfErr result (λ fault. IsFaultOf fault (value_by (L.finds from.now) name.now)) }
{
    let mut going = Going::new(alloc);
    value_within(alloc, from, &mut going, DEEPEST, name)
}
