// What one record leads to besides those that are marked.
ghost use Rattle.std.specs.Prelude.{◌≡◌, ◌⊎◌, ◌<◌, ◌≤◌, ◌+◌, ◌∷◌, [], ℕ, All, Bool, Contains, false, length, List, OnOk, IfOk, slice_index_or};
ghost use Rattle.store_keep.specs.Keep.{IsMarked, LeadsTo, NameEarlier, Names, named_by};
ghost use Rattle.store_keep.specs.Passes.{AreDone, IsGrown, IsTakenBack, IsTrail};

use std::alloc::Global;
use tree_model::{ListOf, Mem};

/// The places that a record names.
fn names_of(edges: &[ListOf<usize>], place: usize) -> &[usize]
    requires { place < length edges.now }
    ensures { result.now ≡ named_by edges.now place }
{
    edges[place].as_slice()
}

/// Marks one record, and notes it, where it isn't marked.
fn mark_new(marks: &mut Vec<bool>, trail: &mut Vec<usize>, place: usize) -> Result<(), Mem>
    requires { place < length marks.old.items }
    ensures trail { OnOk result ((edges : List (List ℕ)) (first : List Bool) (start : ℕ)
        → IsTrail edges first start trail.old.items marks.old.items → LeadsTo edges start place
        → IsTrail edges first start trail.new.items marks.new.items) }
    ensures marked { OnOk result (IsMarked marks.new.items place) }
    ensures grows { OnOk result (IsGrown trail.old.items marks.old.items trail.new.items marks.new.items) }
{
    if !marks[place] {
        marks[place] = true;
        trail.push(place)?;
    }
    Ok(())
}

/// Marks the records at some places, and notes those that weren't marked.
fn mark_all_new(marks: &mut Vec<bool>, trail: &mut Vec<usize>, places: &[usize]) -> Result<(), Mem>
    requires { All (λ v. v < length marks.old.items) places.now }
    ensures trail { OnOk result ((edges : List (List ℕ)) (first : List Bool) (start : ℕ)
        → IsTrail edges first start trail.old.items marks.old.items → All (LeadsTo edges start) places.now
        → IsTrail edges first start trail.new.items marks.new.items) }
    ensures marked { OnOk result (All (IsMarked marks.new.items) places.now) }
    ensures grows { OnOk result (IsGrown trail.old.items marks.old.items trail.new.items marks.new.items) }
{
    for place in places {
        mark_new(marks, trail, *place)?;
    }
    Ok(())
}

/// Marks a record that isn't marked and what it leads to, until there is no more, or more than `room` were marked. Gives those that were.
pub(crate) fn marked_from(
    alloc: Global,
    edges: &[ListOf<usize>],
    marks: &mut Vec<bool>,
    start: usize,
    room: usize,
) -> Result<Vec<usize>, Mem>
    requires long { length marks.old.items ≡ length edges.now }
    requires within { start < length edges.now }
    requires new { slice_index_or marks.old.items start false ≡ false }
    requires earlier { NameEarlier edges.now }
    ensures trail { IfOk result (λ trail. IsTrail edges.now marks.old.items start trail.items marks.new.items) }
    ensures start { IfOk result (λ trail. IsMarked marks.new.items start) }
    ensures done { IfOk result (λ trail. length trail.items ≤ room
        → AreDone edges.now trail.items (length trail.items) marks.new.items) }
{
    let mut trail = Vec::new(alloc);
    mark_new(marks, &mut trail, start)?;
    let mut next = 0;
    while next < trail.len() && trail.len() <= room {
        let place = trail[next];
        mark_all_new(marks, &mut trail, names_of(edges, place))?;
        next += 1;
    }
    Ok(trail)
}

/// Takes marks away.
pub(crate) fn take_back(marks: &mut Vec<bool>, trail: &[usize])
    requires { All (λ v. v < length marks.old.items) trail.now }
    ensures { (first : List Bool) → length marks.old.items ≡ length first
        → ((v : ℕ) → IsMarked first v → IsMarked marks.old.items v)
        → ((v : ℕ) → Contains trail.now v → slice_index_or first v false ≡ false)
        → IsTakenBack first marks.old.items trail.now (length trail.now) marks.new.items }
{
    for place in trail {
        marks[*place] = false;
    }
}
