// The run of a plan over the store of a configuration.
ghost use Rattle.std.specs.Prelude.{◌≡◌, ◌≢◌, ◌<◌, ◌≤◌, ◌↔◌, ℕ, All, IfOk, IfErr, OnOk, [], false, length, map};
ghost use Rattle.outside_traits.specs.Bench.{Gives};
ghost use Rattle.outside_traits.specs.Fault.{Counts, Rose, disk_failed};
ghost use Rattle.outside_traits.specs.Passes.{Passes};
ghost use Rattle.meta_model.specs.declared.event.Status.TheVariants as ends;
ghost use Rattle.plan_model.specs.Sound.{AreWanted, IsSound};
ghost use Rattle.store_model.specs.Origins.{Book, Reading};
ghost use Rattle.run_model.specs.Benches.{AtSeats, AtWorkers, BreaksByFault, SomeRose};
ghost use Rattle.run_model.specs.Build.{AllClean, MayEndSo, RanPrinted};
ghost use Rattle.run_model.specs.Outcome.{EndsAs};
ghost use Rattle.run_model.specs.Seated.{HaveBenches, IsSeated};
ghost use Rattle.build_resume.specs.Build.{IsEntry, WritesReport, is_collision};
ghost use Rattle.sub_disk.specs.Sub.{IsReachable, IsSettledWhole, below};
ghost use Rattle.multi_config.specs.Configs.{store_prefix};
ghost use Rattle.multi_config.specs.Named.{IsNamed};
ghost use Rattle.multi_config.specs.Parts.{DidFolder, MakesReady, store_folder};
ghost use Rattle.config_build.specs.Below.{LeavesStory};

use crate::below::build_in;
use build_resume::{Outcome, build_unready};
use build_store::Ahead;
use meta_model::{Options, Plan};
use outside_traits::{Bench, Disk, DiskFault, Sink};
use std::alloc::Global;
use std::sync::Wait;
use std::thread::Threads;
use sub_disk::make_ready;
use tree_model::{Mem, Text};

/// The folder of a configuration that has a name.
fn folder_of(alloc: Global, mc: &str) -> Result<Text, Mem>
    ensures { IfOk result (λ folder. folder ≡ store_folder mc.now) }
{
    let mut folder = Text::from_str(alloc, "mc/")?;
    folder.push_str(mc)?;
    Ok(folder)
}

/// The prefix of its paths; nothing for the default configuration.
fn prefix_of(alloc: Global, mc: &str) -> Result<Text, Mem>
    ensures { IfOk result (λ prefix. prefix ≡ store_prefix mc.now) }
{
    if mc.is_empty() {
        return Ok(Text::new(alloc));
    }
    let mut prefix = folder_of(alloc, mc)?;
    prefix.push_str("/")?;
    Ok(prefix)
}

/// Makes the folder of a configuration ready for a disk of its own.
fn ready_folder<D: Disk>(alloc: Global, disk: &mut D, mc: &str) -> Result<(), DiskFault>
    requires { mc.now ≢ [] }
    ensures settled { D.tells → OnOk result (IsSettledWhole (D.story disk.new)) }
    ensures clear { D.tells → OnOk result (IsReachable (store_prefix mc.now) (D.story disk.new).held) }
    ensures way { D.tells → Passes (D.story disk.old) (D.story disk.new) (MakesReady mc.now (D.story disk.old).held) }
    ensures cause { Counts (D.faults disk.old) (D.faults disk.new) (disk_failed result) }
{
    let folder = folder_of(alloc, mc)?;
    make_ready(alloc, disk, folder.as_str())
}

/// Makes the disk ready for the store of a configuration: what is in the way of its folder goes, and all that is held is made durable.
fn ready_for<D: Disk>(alloc: Global, disk: &mut D, mc: &str) -> Result<(), DiskFault>
    ensures settled { D.tells → OnOk result (IsSettledWhole (D.story disk.new)) }
    ensures clear { D.tells → OnOk result (IsReachable (store_prefix mc.now) (D.story disk.new).held) }
    ensures way { D.tells → Passes (D.story disk.old) (D.story disk.new) (MakesReady mc.now (D.story disk.old).held) }
    ensures cause { Counts (D.faults disk.old) (D.faults disk.new) (disk_failed result) }
{
    if mc.is_empty() {
        return disk.sync();
    }
    ready_folder(alloc, disk, mc)
}

/// The prefix of a configuration's paths, once the disk is ready for its store.
pub(crate) fn prefix_ready<D: Disk>(
    alloc: Global,
    disk: &mut D,
    mc: &str,
) -> Result<Text, DiskFault>
    ensures prefix { IfOk result (λ prefix. prefix ≡ store_prefix mc.now) }
    ensures settled { D.tells → OnOk result (IsSettledWhole (D.story disk.new)) }
    ensures clear { D.tells → OnOk result (IsReachable (store_prefix mc.now) (D.story disk.new).held) }
    ensures way { D.tells → Passes (D.story disk.old) (D.story disk.new) (MakesReady mc.now (D.story disk.old).held) }
    ensures cause { Counts (D.faults disk.old) (D.faults disk.new) (disk_failed result) }
{
    let prefix = prefix_of(alloc, mc)?;
    ready_for(alloc, disk, mc)?;
    Ok(prefix)
}

/// Runs a plan over the store of a configuration: finds and restores what it can trust there, runs what is missing on the benches, and publishes what that
/// gives. It writes the line of each event, and the last line of its status; the text of the plan was written before. The store of the configuration
/// NAME stands in the folder `mc/NAME`, which is made ready first; that of the default configuration, whose name is empty, is the whole disk.
///
/// What `ahead` knows of just the files under the store's `rec2/` and `key/` that are read spares work, and changes nothing.
pub fn build_config<D, B, W, R>(
    rt: &R,
    alloc: Global,
    ahead: &Ahead,
    plan: Plan,
    options: Options,
    mc: &str,
    mut disk: D,
    benches: Vec<B>,
    sink: W,
) -> Outcome<D, B, W>
where
    D: Disk + Drop + Send,
    B: Bench + Drop + Send,
    W: Sink + Drop + Send,
    R: Threads + Wait + Sync,
    requires name { IsNamed mc.now }
    requires reach { 3900 ≤ D.reach }
    requires bench { 0 < length benches.items }
    requires sound { IsSound plan }

    // The plan comes back.
    ensures plan { result.plan ≡ plan }

    // The run was over a disk of its own, whose story it left as `build` promises; outside of the folder nothing changed but what was in its way.
    ensures folder { D.tells → DidFolder mc.now result.tale.items result.status (D.story disk) (D.story result.disk)
        (LeavesStory D.tells B.tells (map B.gives benches.items) plan options result.tale.items result.status
        (below (store_prefix mc.now) (D.story disk).held)
        (map (λ b. (B.place b).runs) benches.items) (map (λ b. (B.place b).runs) result.benches.items)) }

    // Where no device failed, memory wasn't wanting and no signatures collide, the answer is Ok just where every task of the plan has a clean output.
    ensures exactly { D.tells → B.tells → (gives : Gives) → All (λ g. g ≡ gives) (map B.gives benches.items)
        → (reading : Reading) (book : Book) → IsEntry gives reading book (below (store_prefix mc.now) (D.story disk).held) plan
        → AreWanted plan → (Rose (D.faults disk) (D.faults result.disk) → ⊥)
        → (SomeRose (map B.faults benches.items) (map B.faults result.benches.items) → ⊥)
        → (Rose (W.faults sink) (W.faults result.sink) → ⊥) → result.status ≢ ends.OutOfMemory
        → is_collision result.status ≡ false → ((result.status ≡ ends.Ok) ↔ AllClean gives plan) }

    // The rest as `build` says it.
    ensures count { D.faults disk ≤ D.faults result.disk }
    ensures disk_cause { result.status ≡ ends.DiskFault → Rose (D.faults disk) (D.faults result.disk) }
    ensures printed { W.tells → B.tells → RanPrinted plan result.tale.items
        (map (λ b. (B.place b).runs) benches.items) (map (λ b. (B.place b).runs) result.benches.items)
        (W.written sink) (W.written result.sink) }
    ensures told { EndsAs plan options result.tale.items result.status }
    ensures seated { IsSeated plan result.tale.items }
    ensures benches { HaveBenches (length benches.items) result.tale.items }
    ensures text { W.tells → WritesReport (Rose (W.faults sink) (W.faults result.sink)) (W.written sink)
        (W.written result.sink) plan result.tale.items result.status }
    ensures ends { MayEndSo (D.faults result.disk) (SomeRose (map B.faults benches.items)
        (map B.faults result.benches.items)) (Rose (W.faults sink) (W.faults result.sink)) result.status }
    ensures broke { AtSeats (BreaksByFault result.tale.items) (map B.faults benches.items)
        (map B.faults result.benches.items) }
    ensures alike { AtWorkers (λ seat old new. (B.gives new ≡ B.gives old) × (B.faults old ≤ B.faults new)) benches.items
        result.benches.items }
    ensures later { W.faults sink ≤ W.faults result.sink }
{
    match prefix_ready(alloc, &mut disk, mc) {
        Ok(prefix) => build_in(rt, alloc, ahead, plan, options, disk, prefix, benches, sink),
        Err(fault) => build_unready(alloc, plan, fault, disk, benches, sink),
    }
}
