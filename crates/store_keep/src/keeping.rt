// Which records are kept.
ghost use Rattle.std.specs.Prelude.{◌≡◌, ◌≤◌, ◌<◌, All, IfOk, OnOk, false, length, slice_index_or, slice_set, true};
ghost use Rattle.store_keep.specs.Keep.{AreClosed, IsClosure, NameEarlier};
ghost use Rattle.store_keep.specs.Tries.{AreKept, IsTried, marked_in};

use crate::closing::closure;
use crate::walking::{marked_from, take_back};
use std::alloc::Global;
use tree_model::{ListOf, Mem};

/// How many are marked.
fn count_of(marks: &[bool]) -> usize
    ensures { result ≡ marked_in marks.now }
{
    let mut count = 0;
    for mark in marks {
        if *mark {
            count += 1;
        }
    }
    count
}

/// The marks of the records that are kept, and how many they are.
#[derive(Drop)]
struct Kept {
    marks: Vec<bool>,
    count: usize,
}

/// Tries one record that isn't kept: it is kept, with all that it leads to, where no more than the limit are kept then.
fn try_new(
    alloc: Global,
    edges: &[ListOf<usize>],
    kept: &mut Kept,
    place: usize,
    limit: usize,
) -> Result<(), Mem>
    requires long { length kept.old.marks.items ≡ length edges.now }
    requires within { place < length edges.now }
    requires new { slice_index_or kept.old.marks.items place false ≡ false }
    requires fewer { kept.old.count < limit }
    requires earlier { NameEarlier edges.now }
    requires count { kept.old.count ≡ marked_in kept.old.marks.items }
    requires closed { AreClosed edges.now kept.old.marks.items }
    ensures tried { OnOk result (IsTried edges.now limit kept.old.marks.items place kept.new.marks.items) }
    ensures long { OnOk result (length kept.new.marks.items ≡ length edges.now) }
    ensures count { OnOk result (kept.new.count ≡ marked_in kept.new.marks.items) }
    ensures closed { OnOk result (AreClosed edges.now kept.new.marks.items) }
{
    let room = limit - kept.count;
    let trail = marked_from(alloc, edges, &mut kept.marks, place, room)?;
    if trail.len() > room {
        take_back(&mut kept.marks, &trail);
        return Ok(());
    }
    kept.count += trail.len();
    Ok(())
}

/// Tries one record: nothing is done where it is kept already, or where as many are kept as may be.
fn try_record(
    alloc: Global,
    edges: &[ListOf<usize>],
    kept: &mut Kept,
    place: usize,
    limit: usize,
) -> Result<(), Mem>
    requires long { length kept.old.marks.items ≡ length edges.now }
    requires within { place < length edges.now }
    requires earlier { NameEarlier edges.now }
    requires count { kept.old.count ≡ marked_in kept.old.marks.items }
    requires closed { AreClosed edges.now kept.old.marks.items }
    ensures tried { OnOk result (IsTried edges.now limit kept.old.marks.items place kept.new.marks.items) }
    ensures long { OnOk result (length kept.new.marks.items ≡ length edges.now) }
    ensures count { OnOk result (kept.new.count ≡ marked_in kept.new.marks.items) }
    ensures closed { OnOk result (AreClosed edges.now kept.new.marks.items) }
{
    if kept.marks[place] || limit <= kept.count {
        return Ok(());
    }
    try_new(alloc, edges, kept, place, limit)
}

/// The records that are kept, by their places: those that the roots lead to, and then of the others, in this order, each with all that it
/// leads to, where no more than the limit are kept then. `edges` has what each record names, by places below its own; `roots` says of each
/// record whether it is a root.
///
/// The roots' part looks at each record and each name once, and so do all the tries together that are kept. A record that is passed over costs
/// a walk that ends as soon as it has found more than may still be kept; none is made where as many are kept as may be. So it is linear where
/// the limit is no higher than the number that the roots lead to, and where it is no lower than that of all records.
pub fn keep(
    alloc: Global,
    edges: &[ListOf<usize>],
    roots: Vec<bool>,
    order: &[usize],
    limit: usize,
) -> Result<Vec<bool>, Mem>
    requires long { length roots.items ≡ length edges.now }
    requires earlier { NameEarlier edges.now }
    requires within { All (λ k. k < length edges.now) order.now }
    ensures { IfOk result (λ made. AreKept edges.now roots.items order.now limit made.items) }
{
    let marks = closure(edges, roots);
    let count = count_of(&marks);
    let mut kept = Kept { marks, count };
    for place in order {
        try_record(alloc, edges, &mut kept, *place, limit)?;
    }
    Ok(kept.marks)
}
