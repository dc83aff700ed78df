// Late operations.
ghost use Rattle.std.specs.Prelude.{◌≡◌, ◌++◌, ◌∷◌, ◌||◌, [], not, IfOk, OnOk, is_some, unwrap_or, reverse, option_copied};
ghost use Rattle.std.specs.List.{concat, list_any};
ghost use Rattle.meta_model.specs.declared.entry.Late.TheVariants.{Append, Prepend, Remove};
ghost use Rattle.meta_model.specs.Overrides.{is_kind, all_active, counts, texts_of};
ghost use Rattle.override_eval.specs.LateValue.{late_value};

use meta_model::{Late, LateLine, Resolved, is_among};
use std::alloc::Global;
use tree_model::{ListOf, Mem, Text, Texts};

/// Whether the two kinds are one.
fn is_kind(kind: Late, other: Late) -> bool
    ensures { result ≡ is_kind kind other }
{
    match kind {
        Late::Append => matches!(other, Late::Append),
        Late::Prepend => matches!(other, Late::Prepend),
        Late::Remove => matches!(other, Late::Remove),
    }
}

/// Whether each of these parts is an active override.
fn are_active(parts: &[Text], active: &[Text]) -> bool
    ensures { result ≡ all_active active.now parts.now }
{
    parts.iter().all(|part| is_among(part.as_str(), active))
}

/// Whether the line is of this kind and its conditions are all active.
fn counts(line: &LateLine, kind: Late, active: &[Text]) -> bool
    ensures { result ≡ counts active.now kind line.now }
{
    is_kind(kind, line.kind) && are_active(line.when.as_slice(), active)
}

/// Whether a line of this kind counts.
fn has(ops: &[LateLine], kind: Late, active: &[Text]) -> bool
    ensures { result ≡ list_any (counts active.now kind) ops.now }
{
    ops.iter().any(|line| counts(line, kind, active))
}

/// Puts the text of the line at the end, where the line is of this kind and counts.
fn push_text(text: &mut Text, line: &LateLine, kind: Late, active: &[Text]) -> Result<(), Mem>
    ensures { OnOk result (text.new ≡ text.old ++ concat (texts_of kind active.now (line.now ∷ []))) }
{
    if counts(line, kind, active) {
        text.push_str(line.text.as_str())?;
    }
    Ok(())
}

/// Puts the texts of the prepends that count at the end, the last one first.
fn push_prepends(text: &mut Text, ops: &[LateLine], active: &[Text]) -> Result<(), Mem>
    ensures { OnOk result (text.new ≡ text.old ++ concat (reverse (texts_of Prepend active.now ops.now))) }
{
    let mut left = ops.len();
    while left > 0 {
        left -= 1;
        push_text(text, &ops[left], Late::Prepend, active)?;
    }
    Ok(())
}

/// Puts the texts of the appends that count at the end, in order.
fn push_appends(text: &mut Text, ops: &[LateLine], active: &[Text]) -> Result<(), Mem>
    ensures { OnOk result (text.new ≡ text.old ++ concat (texts_of Append active.now ops.now)) }
{
    for line in ops {
        push_text(text, line, Late::Append, active)?;
    }
    Ok(())
}

/// Puts a copy of the text of the line into the list, where the line is a remove that counts.
fn push_remove(removes: &mut Texts, line: &LateLine, active: &[Text]) -> Result<(), Mem>
    ensures { OnOk result (removes.new ≡ removes.old ++ texts_of Remove active.now (line.now ∷ [])) }
{
    if counts(line, Late::Remove, active) {
        removes.push(line.text.copy()?)?;
    }
    Ok(())
}

/// The texts of the removes that count, in order.
fn removes_of(alloc: Global, ops: &[LateLine], active: &[Text]) -> Result<Texts, Mem>
    ensures { IfOk result (λ made. made ≡ texts_of Remove active.now ops.now) }
{
    let mut removes = Texts::new(alloc);
    for line in ops {
        push_remove(&mut removes, line, active)?;
    }
    Ok(removes)
}

/// Whether there is neither a base nor an append or prepend that counts.
fn is_absent(base: Option<&str>, ops: &[LateLine], active: &[Text]) -> bool
    ensures { result
        ≡ not (is_some base.entry || (list_any (counts active.now Append) ops.now || list_any
        (counts active.now Prepend) ops.now)) }
{
    base.is_none() && !has(ops, Late::Append, active) && !has(ops, Late::Prepend, active)
}

/// The text, or the empty one where there is none.
fn text_or_empty(base: Option<&str>) -> &str
    ensures { result.now ≡ unwrap_or (option_copied base.entry) [] }
{
    match base {
        Some(text) => text,
        None => "",
    }
}

/// A value with late operations: behind the base come the texts of the appends in order, then each prepend in order is put
/// in front, and the texts of the removes are kept beside it, unexpanded ("Appending and Prepending (Override Style
/// Syntax)", "Removal (Override Style Syntax)").
///
/// An operation counts where its conditions are all active ("Conditional Metadata"). None where there is neither a base nor
/// an append or prepend that counts. The answer has no flags. It fails for want of memory alone.
pub fn apply_ops(
    alloc: Global,
    base: Option<&str>,
    ops: &[LateLine],
    active: &[Text],
) -> Result<Option<Resolved>, Mem>
    ensures { IfOk result (λ made. made ≡ late_value active.now (option_copied base.entry) ops.now) }
{
    if is_absent(base, ops, active) {
        return Ok(None);
    }
    let mut text = Text::new(alloc);
    push_prepends(&mut text, ops, active)?;
    text.push_str(text_or_empty(base))?;
    push_appends(&mut text, ops, active)?;
    let removes = removes_of(alloc, ops, active)?;
    Ok(Some(Resolved {
        text,
        removes,
        flags: ListOf::new(alloc),
    }))
}
