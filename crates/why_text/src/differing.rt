// In what two signatures differ.
ghost use Rattle.std.specs.Prelude.{◌≡◌, ◌++◌, ◌∷◌, [], IfOk, OnOk, filter, map, not};
ghost use Rattle.std.specs.List.{list_any};
ghost use Rattle.why_model.specs.Differing.{changed, differing};

use crate::parts::Part;
use std::alloc::Global;
use store_model::SigRecord;
use tree_model::{Mem, Text, Texts};

/// Whether the list has the same as this one: it is looked for at its own place first, since most are there.
fn has_same<P: Part>(list: &[P], one: &P, place: usize) -> bool
    ensures { result ≡ list_any (P.same one.now) list.now }
{
    if let Some(other) = list.get(place) {
        if one.is_same(other) {
            return true;
        }
    }
    list.iter().any(|other| one.is_same(other))
}

/// Whether the list has a namesake of this one: it is looked for at its own place first, since most are there.
fn has_namesake<P: Part>(list: &[P], one: &P, place: usize) -> bool
    ensures { result ≡ list_any (P.named one.now) list.now }
{
    if let Some(other) = list.get(place) {
        if one.is_namesake(other) {
            return true;
        }
    }
    list.iter().any(|other| one.is_namesake(other))
}

/// Puts what is told of one at the end of a list.
fn put_told<P: Part>(alloc: Global, made: &mut Texts, one: &P) -> Result<(), Mem>
    ensures { OnOk result (made.new ≡ made.old ++ P.told one.now ∷ []) }
{
    let mut text = Text::new(alloc);
    one.put_told(&mut text)?;
    made.push(text)
}

/// Puts those of the list that the other one has not.
fn put_changed<P: Part>(alloc: Global, made: &mut Texts, now: &[P], was: &[P]) -> Result<(), Mem>
    ensures { OnOk result (made.new ≡ made.old ++ map P.told (filter (λ x. not (list_any (P.same x) was.now)) now.now)) }
{
    for (place, one) in now.iter().enumerate() {
        if !has_same(was, one, place) {
            put_told(alloc, made, one)?;
        }
    }
    Ok(())
}

/// Puts those of the list that have no namesake in the other one.
fn put_gone<P: Part>(alloc: Global, made: &mut Texts, was: &[P], now: &[P]) -> Result<(), Mem>
    ensures { OnOk result (made.new ≡ made.old ++ map P.told (filter (λ x. not (list_any (P.named x) now.now)) was.now)) }
{
    for (place, one) in was.iter().enumerate() {
        if !has_namesake(now, one, place) {
            put_told(alloc, made, one)?;
        }
    }
    Ok(())
}

/// Puts in what two lists differ.
fn put_differing<P: Part>(alloc: Global, made: &mut Texts, now: &[P], was: &[P]) -> Result<(), Mem>
    ensures { OnOk result (made.new ≡ made.old ++ changed P.same P.named P.told now.now was.now) }
{
    put_changed(alloc, made, now, was)?;
    put_gone(alloc, made, was, now)
}

/// In what a signature differs from an earlier one.
pub(crate) fn differing(alloc: Global, sig: &SigRecord, was: &SigRecord) -> Result<Texts, Mem>
    ensures { IfOk result (λ made. made ≡ differing sig.now was.now) }
{
    let mut made = Texts::new(alloc);
    put_differing(
        alloc,
        &mut made,
        sig.key.lines.as_slice(),
        was.key.lines.as_slice(),
    )?;
    put_differing(alloc, &mut made, sig.files.as_slice(), was.files.as_slice())?;
    put_differing(alloc, &mut made, sig.deps.as_slice(), was.deps.as_slice())?;
    Ok(made)
}
