// Clearing a disk that was just opened.
ghost use Rattle.std.specs.Prelude.{◌≡◌, ◌+◌, ◌≤◌, IfOk, OnOk, List, length};
ghost use Rattle.outside_traits.specs.Fault.{Counts, disk_failed};
ghost use Rattle.outside_traits.specs.Passes.{EachNow, Passes};
ghost use Rattle.outside_traits.specs.Store.{IsFree};
ghost use Rattle.store_keep.specs.Keep.{NameEarlier};
ghost use Rattle.store_keep.specs.Tries.{marked_in};
ghost use Rattle.store_model.specs.declared.signature.EquivRow.{EquivRow as ARow};
ghost use Rattle.store_clean.specs.Cleared.{IsClearing, IsCleared, IsDone, IsJustOpened, IsMoment, gone_path};
ghost use Rattle.store_clean.specs.Deciding.{keeps};
ghost use Rattle.store_clean.specs.Steps.{IsPlaceTable, IsReady, node_names};

use crate::deciding::{Chosen, choose};
use crate::going::take_records;
use crate::nodes::{Node, read_nodes};
use crate::rounds::rounds_of;
use crate::stamps::take_stamps;
use crate::sweeping::sweep;
use hash_equiv::Index;
use outside_traits::{Disk, DiskFault};
use std::alloc::Global;
use tree_model::Hash;

/// How many records a clearing keeps and how many go.
#[derive(Clone, Copy, Debug, PartialEq, Eq)]
pub struct Cleaned {
    /// How many are kept.
    pub kept: usize,
    /// How many go.
    pub gone: usize,
}

/// How many are marked, and how many aren't.
pub(crate) fn numbers(marks: &[bool]) -> Cleaned
    ensures kept { result.kept ≡ marked_in marks.now }
    ensures all { result.kept + result.gone ≡ length marks.now }
{
    let mut kept = 0;
    for mark in marks {
        if *mark {
            kept += 1;
        }
    }
    Cleaned {
        kept,
        gone: marks.len() - kept,
    }
}

/// Clears a disk by what was decided of its records.
fn clear_chosen<D: Disk>(
    alloc: Global,
    disk: &mut D,
    nodes: &[Node],
    chosen: &Chosen,
) -> Result<(), DiskFault>
    requires reach { 8 ≤ D.reach }
    requires durable { D.tells → EachNow (D.story disk.old) (λ image. image ≡ (D.story disk.old).held) }
    requires free { D.tells → IsFree (D.story disk.old).held gone_path }
    requires table { IsPlaceTable (node_names nodes.now) chosen.now.table.entries }
    requires earlier { NameEarlier chosen.now.edges.items }
    requires long { length chosen.now.marks.items ≡ length nodes.now }
    requires edges { length chosen.now.edges.items ≡ length nodes.now }
    ensures cleared { D.tells → (rows : List ARow) → IsReady rows nodes.now chosen.now (D.story disk.old).held
        → OnOk result (IsCleared rows (keeps rows chosen.now.marks.items) (D.story disk.old).held (D.story disk.new).held) }
    ensures durable { D.tells → OnOk result (EachNow (D.story disk.new) (λ image. image ≡ (D.story disk.new).held)) }
    ensures images { D.tells → (rows : List ARow) → IsReady rows nodes.now chosen.now (D.story disk.old).held
        → Passes (D.story disk.old) (D.story disk.new) (λ earlier image. IsClearing rows (keeps rows chosen.now.marks.items) (D.story disk.old).held image) }
    ensures cause { Counts (D.faults disk.old) (D.faults disk.new) (disk_failed result) }
{
    let rounds = rounds_of(alloc, &chosen.edges, &chosen.marks)?;
    take_stamps(alloc, disk, nodes, chosen)?;
    take_records(alloc, disk, nodes, &rounds)?;
    sweep(alloc, disk, nodes, &chosen.marks)
}

/// Clears a store: keeps the records of these names with all that they lead to, and of the others, in ascending order of their names, each with all that it
/// leads to, as long as no more are kept than the limit says. Names that have no row are none. The other records go, with the stamps that name them, and the
/// objects and keys that no record names that stays.
///
/// The disk was just opened, with the rows of the index. `Failed` comes only where its count of faults rose.
pub fn clean_store<D: Disk>(
    alloc: Global,
    disk: &mut D,
    index: &Index,
    roots: &[Hash],
    limit: usize,
) -> Result<Cleaned, DiskFault>
    requires reach { 8 ≤ D.reach }
    requires opened { D.tells → IsJustOpened index.now (D.story disk.old) }
    ensures done { D.tells → IfOk result (IsDone index.now roots.now limit (D.story disk.old).held (D.story disk.new)) }

    // Whatever it answers.
    ensures images { D.tells → Passes (D.story disk.old) (D.story disk.new)
        (λ earlier image. IsMoment index.now roots.now limit (D.story disk.old).held image) }
    ensures cause { Counts (D.faults disk.old) (D.faults disk.new) (disk_failed result) }
{
    let nodes = read_nodes(alloc, disk, index)?;
    let chosen = choose(alloc, &nodes, roots, limit)?;
    clear_chosen(alloc, disk, &nodes, &chosen)?;
    Ok(numbers(&chosen.marks))
}
