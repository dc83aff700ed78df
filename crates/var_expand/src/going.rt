// What stands while texts are expanded, and the values that are known by then.
ghost use Rattle.std.specs.Prelude.{◌≡◌, ◌++◌, ◌∷◌, [], ◌≤◌, ◌<◌, ◌-◌, ◌^◌, List, ℕ, Some, None, Ok, IfOk, IfErr, OnOk, IfSome, MatchOption, true, nat_le, length, take};
ghost use Rattle.meta_model.specs.Expansion.{longest};
ghost use Rattle.meta_model.specs.Refusal.{require, too_long};
ghost use Rattle.var_expand.specs.Faults.{IsFaultOf};
ghost use Rattle.var_expand.specs.Expanding.{known, last_name};
ghost use Rattle.var_expand.specs.Going.{IsAtHand, IsBeyond, IsFresh, IsGoing, IsLeft, IsPut, has_no_more, higher, joined, kept_in, kept_of};

use crate::fault::ExpandFault;
use crate::lookup::Lookup;
use crate::scan::holds_opening;
use meta_model::{Resolved, is_among};
use std::alloc::Global;
use std::collections::BTreeMap;
use tree_model::{Mem, Text};

/// The most bytes of an expanded text (own rule).
pub const LONGEST: usize = 1_048_576;

/// The expanded value of a name, and how deep its references go: its height is greater than those of all names that its expansion
/// meets.
#[derive(Drop)]
pub(crate) struct Known {
    pub(crate) height: usize,
    pub(crate) value: Text,
}

/// What stands while texts are expanded: the names in expansion, the values that are kept, and the greatest height of the names that
/// were met since the innermost of them, where that is known.
#[derive(Drop)]
pub(crate) struct Going {
    pub(crate) within: Vec<Text>,
    pub(crate) values: BTreeMap<String, Known>,
    pub(crate) height: Option<usize>,
}

/// The value of a name, where it is at hand.
#[derive(Drop)]
pub(crate) enum AtHand {
    /// It is, or that there is none.
    Value(Option<Text>),
    /// What the name has is to be expanded.
    Deeper(Resolved),
}

impl Going {
    /// No name is in expansion, and no value is kept.
    pub(crate) fn new(alloc: Global) -> Going
        ensures within { result.within.items ≡ [] }
        ensures values { (name : List ℕ) → kept_in result.values name ≡ None }
        ensures height { result.height ≡ Some 0 }
    {
        Going {
            within: Vec::new(alloc),
            values: BTreeMap::new(alloc),
            height: Some(0),
        }
    }
}

/// The greater height, where one is known.
fn higher(sofar: Option<usize>, height: usize) -> Option<usize>
    ensures { result ≡ higher sofar height }
{
    match sofar {
        Some(most) => Some(most.max(height)),
        None => None,
    }
}

/// The greater height of two, where both are known.
fn joined(one: Option<usize>, other: Option<usize>) -> Option<usize>
    ensures { result ≡ joined one other }
{
    match other {
        Some(height) => higher(one, height),
        None => None,
    }
}

/// The last of the names, or the empty text.
pub(crate) fn innermost_name(alloc: Global, within: &[Text]) -> Result<Text, Mem>
    ensures { IfOk result (λ made. made ≡ last_name within.now) }
{
    match within.last() {
        Some(name) => name.copy(),
        None => Ok(Text::new(alloc)),
    }
}

/// The value that is kept of a name, where there is room for its height.
fn kept_value(
    values: &BTreeMap<String, Known>,
    left: usize,
    name: &str,
) -> Result<Option<Known>, Mem>
    ensures { IfOk result (λ made. MatchOption made (IsBeyond (kept_in values.now) left name.now)
        (λ kept. (kept_in values.now name.now ≡ Some (kept_of kept)) × (kept.height ≤ left))) }
{
    let Some(kept) = values.get(name) else {
        return Ok(None);
    };
    if kept.height > left {
        return Ok(None);
    }
    Ok(Some(Known {
        height: kept.height,
        value: kept.value.copy()?,
    }))
}

/// What a name has, unless it is in expansion already, or too many are.
fn find_fresh<L: Lookup>(
    alloc: Global,
    from: &L,
    within: &[Text],
    left: usize,
    name: &str,
) -> Result<Option<Resolved>, ExpandFault>
    ensures ok { IfOk result (λ made. IsFresh (L.finds from.now) left within.now name.now made) }
    ensures err { IfErr result (λ fault. IsFaultOf fault ((known (L.finds from.now) left within.now).at name.now)) }
{
    if is_among(name, within) {
        return Err(ExpandFault::ValueCycle {
            name: Text::from_str(alloc, name)?,
        });
    }
    let Some(found) = from.find(alloc, name)? else {
        return Ok(None);
    };
    if left == 0 {
        return Err(ExpandFault::TooDeep {
            name: innermost_name(alloc, within)?,
        });
    }
    Ok(Some(found))
}

/// Whether a value has neither references nor removes.
fn has_no_more(found: &Resolved) -> bool
    ensures { result ≡ has_no_more found.now }
{
    !holds_opening(found.text.as_str().as_bytes()) && found.removes.is_empty()
}

/// The text of a value, where it isn't too long for one.
fn plain_value(alloc: Global, name: &str, found: Resolved) -> Result<Text, ExpandFault>
    ensures ok { IfOk result (λ made. made ≡ found.text) }
    ensures fits { OnOk result (length found.text ≤ longest) }
    ensures err { IfErr result (λ fault. IsFaultOf fault
        (require (nat_le (length found.text) longest) (too_long name.now))) }
{
    if found.text.as_str().len() > LONGEST {
        return Err(ExpandFault::TooLong {
            name: Text::from_str(alloc, name)?,
        });
    }
    Ok(found.text)
}

/// The value of a name, where it is kept or meets no other name, or what the name has.
pub(crate) fn at_hand<L: Lookup>(
    alloc: Global,
    from: &L,
    going: &mut Going,
    left: usize,
    name: &str,
) -> Result<AtHand, ExpandFault>
    requires { IsGoing (L.finds from.now) left going.old }
    ensures ok { IfOk result (λ made. IsAtHand (L.finds from.now) left going.old going.new name.now made) }
    ensures err { IfErr result (λ fault. IsFaultOf fault
        ((known (L.finds from.now) left going.old.within.items).at name.now)) }
{
    if let Some(kept) = kept_value(&going.values, left, name)? {
        going.height = higher(going.height, kept.height);
        return Ok(AtHand::Value(Some(kept.value)));
    }
    let Some(found) = find_fresh(alloc, from, going.within.as_slice(), left, name)? else {
        return Ok(AtHand::Value(None));
    };
    if !has_no_more(&found) {
        return Ok(AtHand::Deeper(found));
    }
    let value = plain_value(alloc, name, found)?;
    going.height = higher(going.height, 1);
    Ok(AtHand::Value(Some(value)))
}

/// Puts a name behind those in expansion, and answers the height of what was met before: from then on what that name meets counts.
pub(crate) fn enter(alloc: Global, going: &mut Going, name: &str) -> Result<Option<usize>, Mem>
    ensures within { OnOk result (going.new.within.items ≡ going.old.within.items ++ name.now ∷ []) }
    ensures values { going.new.values ≡ going.old.values }
    ensures height { OnOk result (going.new.height ≡ Some 0) }
    ensures before { IfOk result (λ outer. outer ≡ going.old.height) }
{
    going.within.push(Text::from_str(alloc, name)?)?;
    let outer = going.height;
    going.height = Some(0);
    Ok(outer)
}

/// Keeps the value of a name under its height, one more than that of the names that its expansion met, and answers the height. Where
/// that isn't known, or a value is kept of the name, all stays as it is.
fn keep(
    alloc: Global,
    values: &mut BTreeMap<String, Known>,
    name: &str,
    met: Option<usize>,
    value: &Text,
) -> Result<Option<usize>, Mem>
    requires { IfSome met (λ height. height < 2 ^ 64 - 1) }
    ensures { IfOk result (λ made. IsPut values.old values.new name.now met value.now made) }
{
    if values.contains_key(name) {
        return Ok(None);
    }
    let Some(most) = met else {
        return Ok(None);
    };
    let height = most + 1;
    let value = value.copy()?;
    values.insert(String::from_str(alloc, name)?, Known { height, value })?;
    Ok(Some(height))
}

/// Takes the names behind so many out of those in expansion, and keeps the value of the innermost.
pub(crate) fn leave(
    alloc: Global,
    going: &mut Going,
    names: usize,
    outer: Option<usize>,
    name: &str,
    value: &Text,
) -> Result<(), Mem>
    requires { IfSome going.old.height (λ height. height < 2 ^ 64 - 1) }
    ensures within { OnOk result (going.new.within.items ≡ take names going.old.within.items) }
    ensures kept { OnOk result (IsLeft going.old going.new outer name.now value.now) }
{
    going.within.truncate(names);
    let met = going.height;
    let height = keep(alloc, &mut going.values, name, met, value)?;
    going.height = joined(outer, height);
    Ok(())
}
