// Late names.
ghost use Rattle.std.specs.Prelude.{◌≡◌, ◌∷◌, ◌++◌, ◌<◌, [], IfOk, OnOk, IfSome, Some, MatchOption, length, option_map};
ghost use Rattle.std.specs.List.{slice_split};
ghost use Rattle.meta_model.specs.Text.{colon, is_colon};
ghost use Rattle.meta_model.specs.Names as names;
ghost use Rattle.class_inherit.specs.Late.{late_meant};

use meta_model::Late;
use std::alloc::Global;
use tree_model::{Mem, Text, Texts};

/// What a late name says: the name that its entry goes to, the operation, and the conditions under which it counts.
#[derive(Debug, Drop)]
pub(crate) struct LateName {
    pub(crate) target: Text,
    pub(crate) kind: Late,
    pub(crate) when: Texts,
}

/// The part before the first colon and what stands behind the colon, where there is one.
fn cut_at_colon(text: &str) -> Option<(&str, &str)>
    ensures parts { MatchOption result (slice_split is_colon text.now ≡ text.now ∷ [])
        (λ cut. slice_split is_colon text.now ≡ cut.0.now ∷ slice_split is_colon cut.1.now) }
    ensures shorter { IfSome result (λ cut. length cut.1.now < length text.now) }
{
    text.split_once(':')
}

/// The part of a name up to its first colon.
pub(crate) fn first_part(name: &str) -> &str
    ensures { result.now ≡ names.first_part name.now }
{
    match name.split_once(':') {
        Some((first, _)) => first,
        None => name,
    }
}

/// The late keyword that a part of a name is.
fn keyword(part: &str) -> Option<Late>
    ensures { result ≡ names.keyword part.now }
{
    if part == "append" {
        return Some(Late::Append);
    }
    if part == "prepend" {
        return Some(Late::Prepend);
    }
    if part == "remove" {
        return Some(Late::Remove);
    }
    None
}

/// Puts a copy of a text at the end.
fn push_text(alloc: Global, parts: &mut Texts, part: &str) -> Result<(), Mem>
    ensures { OnOk result (parts.new ≡ parts.old ++ part.now ∷ []) }
{
    parts.push(Text::from_str(alloc, part)?)
}

/// The parts of a text between its colons, the empty ones too.
fn parts_of(alloc: Global, text: &str) -> Result<Texts, Mem>
    ensures { IfOk result (λ made. made ≡ slice_split is_colon text.now) }
{
    let mut parts = Texts::new(alloc);
    let mut rest = text;
    while let Some((part, after)) = cut_at_colon(rest) {
        push_text(alloc, &mut parts, part)?;
        rest = after;
    }
    push_text(alloc, &mut parts, rest)?;
    Ok(parts)
}

/// Puts a colon and a part behind a target.
fn push_part(target: &mut Text, part: &str) -> Result<(), Mem>
    ensures { OnOk result (target.new ≡ (target.old ++ colon ∷ []) ++ part.now) }
{
    target.push_str(":")?;
    target.push_str(part)
}

/// What a name says that has a keyword behind `target`, and behind that the parts of a text.
fn late_at(alloc: Global, target: Text, kind: Late, behind: &str) -> Result<Option<LateName>, Mem>
    ensures { IfOk result (λ made. option_map late_meant made
        ≡ Some (record { target = target; kind = kind; when = slice_split is_colon behind.now })) }
{
    match parts_of(alloc, behind) {
        Ok(when) => Ok(Some(LateName { target, kind, when })),
        Err(_) => Err(Mem),
    }
}

/// What a name says whose parts behind `front` are those of a text.
fn late_from(alloc: Global, front: Text, behind: &str) -> Result<Option<LateName>, Mem>
    ensures { IfOk result (λ made. option_map late_meant made
        ≡ names.late_from front (slice_split is_colon behind.now)) }
{
    let mut target = front;
    let mut rest = behind;
    while let Some((part, after)) = cut_at_colon(rest) {
        if let Some(kind) = keyword(part) {
            return late_at(alloc, target, kind, after);
        }
        push_part(&mut target, part)?;
        rest = after;
    }
    Ok(late_at_end(alloc, target, rest))
}

/// What a name says that has one part behind `target`.
fn late_at_end(alloc: Global, target: Text, part: &str) -> Option<LateName>
    ensures { option_map late_meant result ≡ names.late_from target (part.now ∷ []) }
{
    match keyword(part) {
        Some(kind) => Some(LateName {
            target,
            kind,
            when: Texts::new(alloc),
        }),
        None => None,
    }
}

/// What a late name says: where a part behind the first is `append`, `prepend` or `remove`, what stands before it is the
/// target, and each part behind it a condition ("Appending and Prepending (Override Style Syntax)", "Removal (Override Style
/// Syntax)", "Conditional Metadata"). None where the name has no such part.
pub(crate) fn late_name(alloc: Global, name: &str) -> Result<Option<LateName>, Mem>
    ensures { IfOk result (λ made. option_map late_meant made ≡ names.late_name name.now) }
{
    match cut_at_colon(name) {
        Some((first, behind)) => late_from(alloc, Text::from_str(alloc, first)?, behind),
        None => Ok(None),
    }
}
