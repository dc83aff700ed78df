// What records lead to.
ghost use Rattle.std.specs.Prelude.{◌≡◌, ◌<◌, ◌≤◌, ℕ, All, length};
ghost use Rattle.store_keep.specs.Keep.{IsClosure, NameEarlier};
ghost use Rattle.store_keep.specs.Passes.{IsMarkedWith};

use tree_model::ListOf;

/// Marks the records at some places.
fn mark_all(marks: &mut Vec<bool>, places: &[usize])
    requires within { All (λ v. v < length marks.old.items) places.now }
    ensures { IsMarkedWith marks.old.items places.now marks.new.items }
{
    for place in places {
        marks[*place] = true;
    }
}

/// The records that those which are marked lead to, marked too. `edges` has what each record names, by places below its own.
/// Each record and each name is looked at once, from the last record to the first. No memory.
pub fn closure(edges: &[ListOf<usize>], roots: Vec<bool>) -> Vec<bool>
    requires long { length roots.items ≡ length edges.now }
    requires earlier { NameEarlier edges.now }
    ensures { IsClosure edges.now roots.items result.items }
{
    let mut marks = roots;
    let mut next = edges.len();
    while next > 0 {
        next -= 1;
        if marks[next] {
            mark_all(&mut marks, edges[next].as_slice());
        }
    }
    marks
}
