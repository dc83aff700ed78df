// Records that go, round by round.
ghost use Rattle.std.specs.Prelude.{◌≡◌, ◌≤◌, ◌<◌, All, Contains, IfOk, List, None, OnOk, length, ℕ};
ghost use Rattle.std.specs.List.{AllByRecursion};
ghost use Rattle.outside_traits.specs.Fault.{Counts, disk_failed};
ghost use Rattle.outside_traits.specs.Passes.{EachNow, Passes};
ghost use Rattle.outside_traits.specs.Store.{IsFree};
ghost use Rattle.store_clean.specs.Cleared.{gone_path};
ghost use Rattle.store_clean.specs.Steps.{AreInRounds, IsRecordOf, TakesAway, round_at};

use crate::nodes::Node;
use crate::taking::take_away;
use outside_traits::{Disk, DiskFault};
use std::alloc::Global;
use store_opening::record_path;
use tree_model::{ListOf, Mem, Text};

/// The paths of the records at these places.
fn record_paths(alloc: Global, nodes: &[Node], places: &[usize]) -> Result<Vec<Text>, Mem>
    requires { All (λ p. p < length nodes.now) places.now }
    ensures sound { IfOk result (λ paths. (q : List ℕ) → Contains paths.items q → IsRecordOf nodes.now places.now q) }
    ensures whole { IfOk result (λ paths. (q : List ℕ) → IsRecordOf nodes.now places.now q → Contains paths.items q) }
{
    let mut paths = Vec::with_capacity(alloc, places.len())?;
    for place in places {
        paths.push(record_path(alloc, &nodes[*place].name)?)?;
    }
    Ok(paths)
}

/// Takes the records at these places away, and syncs.
fn take_round<D: Disk>(
    alloc: Global,
    disk: &mut D,
    nodes: &[Node],
    places: &[usize],
) -> Result<(), DiskFault>
    requires reach { 8 ≤ D.reach }
    requires durable { D.tells → EachNow (D.story disk.old) (λ image. image ≡ (D.story disk.old).held) }
    requires free { D.tells → IsFree (D.story disk.old).held gone_path }
    requires within { All (λ p. p < length nodes.now) places.now }
    ensures gone { D.tells → OnOk result ((q : List ℕ) → IsRecordOf nodes.now places.now q → (D.story disk.new).held q ≡ None) }
    ensures durable { D.tells → OnOk result (EachNow (D.story disk.new) (λ image. image ≡ (D.story disk.new).held)) }
    ensures takes { D.tells → Passes (D.story disk.old) (D.story disk.new) (TakesAway (IsRecordOf nodes.now places.now)) }
    ensures cause { Counts (D.faults disk.old) (D.faults disk.new) (disk_failed result) }
{
    let paths = record_paths(alloc, nodes, places)?;
    take_away(alloc, disk, &paths)
}

/// Takes records away round by round, from the last round down, and syncs behind each.
pub(crate) fn take_records<D: Disk>(
    alloc: Global,
    disk: &mut D,
    nodes: &[Node],
    rounds: &[ListOf<usize>],
) -> Result<(), DiskFault>
    requires reach { 8 ≤ D.reach }
    requires durable { D.tells → EachNow (D.story disk.old) (λ image. image ≡ (D.story disk.old).held) }
    requires free { D.tells → IsFree (D.story disk.old).held gone_path }
    requires within { AllByRecursion (All (λ p. p < length nodes.now)) rounds.now }
    ensures gone { D.tells → OnOk result ((k : ℕ) (q : List ℕ) → k < length rounds.now → IsRecordOf nodes.now (round_at rounds.now k) q
        → (D.story disk.new).held q ≡ None) }
    ensures durable { D.tells → OnOk result (EachNow (D.story disk.new) (λ image. image ≡ (D.story disk.new).held)) }
    ensures takes { D.tells → Passes (D.story disk.old) (D.story disk.new)
        (λ earlier image. AreInRounds nodes.now rounds.now (D.story disk.old).held image) }
    ensures cause { Counts (D.faults disk.old) (D.faults disk.new) (disk_failed result) }
{
    let mut next = rounds.len();
    while next > 0 {
        next -= 1;
        take_round(alloc, disk, nodes, rounds[next].as_slice())?;
    }
    Ok(())
}
