// The run of a plan over a disk in a folder.
ghost use Rattle.std.specs.Prelude.{◌≡◌, ◌≢◌, ◌<◌, ◌≤◌, ◌↔◌, ℕ, All, false, length, map};
ghost use Rattle.outside_traits.specs.Bench.{Gives};
ghost use Rattle.outside_traits.specs.Fault.{Rose};
ghost use Rattle.meta_model.specs.declared.event.Status.TheVariants as ends;
ghost use Rattle.plan_model.specs.Sound.{AreWanted, IsSound};
ghost use Rattle.store_model.specs.Origins.{Book, Reading};
ghost use Rattle.run_model.specs.Benches.{AtSeats, AtWorkers, BreaksByFault, SomeRose};
ghost use Rattle.run_model.specs.Build.{AllClean, MayEndSo, RanPrinted};
ghost use Rattle.run_model.specs.Outcome.{EndsAs};
ghost use Rattle.run_model.specs.Seated.{HaveBenches, IsSeated};
ghost use Rattle.build_resume.specs.Build.{IsEntry, WritesReport, is_collision};
ghost use Rattle.sub_disk.specs.Sub.{IsPrefix, IsReachable, IsSettledWhole, below};
ghost use Rattle.config_build.specs.Below.{LeavesStory, WentOn};

use build_resume::{Outcome, build};
use build_store::Ahead;
use meta_model::{Options, Plan};
use outside_traits::{Bench, Disk, Sink};
use std::alloc::Global;
use std::marker::Brand;
use std::sync::Wait;
use std::thread::Threads;
use sub_disk::{Start, SubDisk};
use tree_model::Text;

/// Runs a plan over the disk in a folder, from where the whole disk stands.
fn build_below<D, B, W, R, K>(
    rt: &R,
    alloc: Global,
    ahead: &Ahead,
    plan: Plan,
    options: Options,
    disk: D,
    prefix: Text,
    benches: Vec<B>,
    sink: W,
) -> Outcome<D, B, W>
where
    D: Disk + Drop + Send,
    B: Bench + Drop + Send,
    W: Sink + Drop + Send,
    R: Threads + Wait + Sync,
    K: Start + Send,
    requires named { prefix ≡ K.prefix }
    requires place { IsPrefix K.prefix }
    requires short { length K.prefix ≤ 259 }
    requires reach { 3900 ≤ D.reach }
    requires start { D.tells → D.story disk ≡ K.start }
    requires counted { D.faults disk ≡ K.faults }
    requires settled { D.tells → IsSettledWhole K.start }
    requires clear { D.tells → IsReachable K.prefix K.start.held }
    requires bench { 0 < length benches.items }
    requires sound { IsSound plan }
    ensures plan { result.plan ≡ plan }
    ensures folder { D.tells → WentOn K.prefix K.start (D.story result.disk) (LeavesStory D.tells B.tells
        (map B.gives benches.items) plan options result.tale.items result.status (below K.prefix K.start.held)
        (map (λ b. (B.place b).runs) benches.items) (map (λ b. (B.place b).runs) result.benches.items)) }
    ensures exactly { D.tells → B.tells → (gives : Gives) → All (λ g. g ≡ gives) (map B.gives benches.items)
        → (reading : Reading) (book : Book) → IsEntry gives reading book (below K.prefix K.start.held) plan → AreWanted plan
        → (Rose K.faults (D.faults result.disk) → ⊥)
        → (SomeRose (map B.faults benches.items) (map B.faults result.benches.items) → ⊥)
        → (Rose (W.faults sink) (W.faults result.sink) → ⊥) → result.status ≢ ends.OutOfMemory
        → is_collision result.status ≡ false → ((result.status ≡ ends.Ok) ↔ AllClean gives plan) }
    ensures count { K.faults ≤ D.faults result.disk }
    ensures disk_cause { result.status ≡ ends.DiskFault → Rose K.faults (D.faults result.disk) }
    ensures printed { W.tells → B.tells → RanPrinted plan result.tale.items
        (map (λ b. (B.place b).runs) benches.items) (map (λ b. (B.place b).runs) result.benches.items)
        (W.written sink) (W.written result.sink) }
    ensures told { EndsAs plan options result.tale.items result.status }
    ensures seated { IsSeated plan result.tale.items }
    ensures benches { HaveBenches (length benches.items) result.tale.items }
    ensures text { W.tells → WritesReport (Rose (W.faults sink) (W.faults result.sink)) (W.written sink)
        (W.written result.sink) plan result.tale.items result.status }
    ensures ends { MayEndSo (D.faults result.disk) (SomeRose (map B.faults benches.items)
        (map B.faults result.benches.items)) (Rose (W.faults sink) (W.faults result.sink)) result.status }
    ensures broke { AtSeats (BreaksByFault result.tale.items) (map B.faults benches.items)
        (map B.faults result.benches.items) }
    ensures alike { AtWorkers (λ seat old new. (B.gives new ≡ B.gives old) × (B.faults old ≤ B.faults new)) benches.items
        result.benches.items }
    ensures later { W.faults sink ≤ W.faults result.sink }
{
    let own = SubDisk::<D, K>::over(alloc, disk, prefix);
    let Outcome {
        plan,
        status,
        failed,
        disk,
        benches,
        sink,
        tale,
    } = build(rt, alloc, ahead, plan, options, own, benches, sink);
    Outcome {
        plan,
        status,
        failed,
        disk: disk.into_disk(),
        benches,
        sink,
        tale,
    }
}

/// Runs a plan over the disk in a folder that is ready for it. The prefix of the folder's paths is given.
pub(crate) fn build_in<D, B, W, R>(
    rt: &R,
    alloc: Global,
    ahead: &Ahead,
    plan: Plan,
    options: Options,
    disk: D,
    prefix: Text,
    benches: Vec<B>,
    sink: W,
) -> Outcome<D, B, W>
where
    D: Disk + Drop + Send,
    B: Bench + Drop + Send,
    W: Sink + Drop + Send,
    R: Threads + Wait + Sync,
    requires place { IsPrefix prefix }
    requires short { length prefix ≤ 259 }
    requires reach { 3900 ≤ D.reach }
    requires settled { D.tells → IsSettledWhole (D.story disk) }
    requires clear { D.tells → IsReachable prefix (D.story disk).held }
    requires bench { 0 < length benches.items }
    requires sound { IsSound plan }
    ensures plan { result.plan ≡ plan }
    ensures folder { D.tells → WentOn prefix (D.story disk) (D.story result.disk) (LeavesStory D.tells B.tells
        (map B.gives benches.items) plan options result.tale.items result.status (below prefix (D.story disk).held)
        (map (λ b. (B.place b).runs) benches.items) (map (λ b. (B.place b).runs) result.benches.items)) }
    ensures exactly { D.tells → B.tells → (gives : Gives) → All (λ g. g ≡ gives) (map B.gives benches.items)
        → (reading : Reading) (book : Book) → IsEntry gives reading book (below prefix (D.story disk).held) plan
        → AreWanted plan → (Rose (D.faults disk) (D.faults result.disk) → ⊥)
        → (SomeRose (map B.faults benches.items) (map B.faults result.benches.items) → ⊥)
        → (Rose (W.faults sink) (W.faults result.sink) → ⊥) → result.status ≢ ends.OutOfMemory
        → is_collision result.status ≡ false → ((result.status ≡ ends.Ok) ↔ AllClean gives plan) }
    ensures count { D.faults disk ≤ D.faults result.disk }
    ensures disk_cause { result.status ≡ ends.DiskFault → Rose (D.faults disk) (D.faults result.disk) }
    ensures printed { W.tells → B.tells → RanPrinted plan result.tale.items
        (map (λ b. (B.place b).runs) benches.items) (map (λ b. (B.place b).runs) result.benches.items)
        (W.written sink) (W.written result.sink) }
    ensures told { EndsAs plan options result.tale.items result.status }
    ensures seated { IsSeated plan result.tale.items }
    ensures benches { HaveBenches (length benches.items) result.tale.items }
    ensures text { W.tells → WritesReport (Rose (W.faults sink) (W.faults result.sink)) (W.written sink)
        (W.written result.sink) plan result.tale.items result.status }
    ensures ends { MayEndSo (D.faults result.disk) (SomeRose (map B.faults benches.items)
        (map B.faults result.benches.items)) (Rose (W.faults sink) (W.faults result.sink)) result.status }
    ensures broke { AtSeats (BreaksByFault result.tale.items) (map B.faults benches.items)
        (map B.faults result.benches.items) }
    ensures alike { AtWorkers (λ seat old new. (B.gives new ≡ B.gives old) × (B.faults old ≤ B.faults new)) benches.items
        result.benches.items }
    ensures later { W.faults sink ≤ W.faults result.sink }
{
    build_below::<D, B, W, R, Brand>(rt, alloc, ahead, plan, options, disk, prefix, benches, sink)
}
