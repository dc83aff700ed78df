// What a run would do with a task that it needs.
ghost use Rattle.std.specs.Prelude.{◌≡◌, ◌<◌, All, IfOk, OnOk, Some, false, length, slice_get};
ghost use Rattle.outside_traits.specs.Fault.{Counts, disk_failed};
ghost use Rattle.outside_traits.specs.Passes.{Passes, Same};
ghost use Rattle.meta_model.specs.declared.plan.PlanTask.{PlanTask};
ghost use Rattle.run_core.specs.Need.{AreOrdered};
ghost use Rattle.sig_gen.specs.Signing.{signature_by};
ghost use Rattle.why_text.specs.Telling.{AreKnown, AreMarked, IsCauseAt, IsCauseBy, IsChangedCause, IsFateAt, IsObjectFate, PutsLine, told_of};

use crate::differing::differing;
use crate::earlier::earlier_of;
use crate::judged::task_at;
use crate::lines::put_line;
use crate::rows::Rows;
use crate::seen::{are_none, waits_of};
use meta_model::{Avail, Plan};
use outside_traits::{Disk, DiskFault};
use setscene_plan::add_all;
use sig_gen::sig_of;
use std::alloc::Global;
use store_model::SigRecord;
use tree_model::{Hash, ListOf, Mem, Text};
use why_model::{Cause, Fate};

/// What is known of a plan's tasks: of each its unihash, how its output is there, and whether it is seen, needed in any case, and a target that the option
/// `-f` asks for.
#[derive(Clone, Copy)]
pub(crate) struct Known<'k> {
    pub(crate) plan: &'k Plan,
    pub(crate) unihashes: &'k [Hash],
    pub(crate) avail: &'k [Avail],
    pub(crate) seen: &'k [bool],
    pub(crate) certain: &'k [bool],
    pub(crate) forced: &'k [bool],
}

/// The targets, where the option `-f` is given; else none.
pub(crate) fn forced_of(alloc: Global, plan: &Plan, force: bool) -> Result<Vec<bool>, Mem>
    requires targets { All (λ t. t < length plan.now.tasks) plan.now.targets }
    ensures { IfOk result (λ marks. AreMarked force plan.now marks.items) }
{
    let mut marks = vec![in alloc; false; plan.tasks.len()]?;
    if !force {
        return Ok(marks);
    }
    add_all(&mut marks, plan.targets.as_slice());
    Ok(marks)
}

/// Why a task would run that doesn't run in each run: by the signature that its stamp leads to.
fn cause_by(alloc: Global, sig: &SigRecord, was: &SigRecord) -> Result<Cause, Mem>
    ensures { IfOk result (IsCauseBy sig.now was.now) }
{
    let names = differing(alloc, sig, was)?;
    if names.is_empty() {
        return Ok(Cause::Gone);
    }
    Ok(Cause::Differs(names))
}

/// Why a task would run that doesn't run in each run.
fn changed_cause<D: Disk>(
    alloc: Global,
    disk: &mut D,
    rows: &Rows,
    known: &Known<'_>,
    place: u32,
) -> Result<Cause, DiskFault>
    requires place { place < length known.now.plan.now.tasks }
    requires wide { length known.now.unihashes.now ≡ length known.now.plan.now.tasks }
    ensures why { D.tells → IfOk result (λ why. (own : PlanTask) → slice_get known.now.plan.now.tasks place ≡ Some own
        → IsChangedCause (D.story disk.old).held rows.now own
        (signature_by known.now.plan.now.tasks known.now.unihashes.now own) why) }
    ensures same { D.tells → Passes (D.story disk.old) (D.story disk.new) Same }
    ensures cause { Counts (D.faults disk.old) (D.faults disk.new) (disk_failed result) }
{
    let task = task_at(known.plan, place as usize);
    match earlier_of(alloc, disk, rows, task)? {
        Some(was) => {
            let sig = sig_of(alloc, known.plan, place, known.unihashes)?;
            Ok(cause_by(alloc, &sig, &was)?)
        }
        None => Ok(Cause::New),
    }
}

/// Why a task would run.
fn cause_of<D: Disk>(
    alloc: Global,
    disk: &mut D,
    rows: &Rows,
    known: &Known<'_>,
    place: u32,
    force: bool,
) -> Result<Cause, DiskFault>
    requires ordered { AreOrdered known.now.plan.now.tasks }
    requires place { place < length known.now.plan.now.tasks }
    requires known { AreKnown rows.now known.now.plan.now force known.now.unihashes.now known.now.avail.now
        known.now.seen.now known.now.certain.now known.now.forced.now }
    ensures why { D.tells → IfOk result (IsCauseAt (told_of (D.story disk.old).held rows.now known.now.plan.now
        known.now.avail.now known.now.certain.now force) place) }
    ensures same { D.tells → Passes (D.story disk.old) (D.story disk.new) Same }
    ensures cause { Counts (D.faults disk.old) (D.faults disk.new) (disk_failed result) }
{
    let task = task_at(known.plan, place as usize);
    if !task.nostamp {
        return changed_cause(alloc, disk, rows, known, place);
    }
    if known.forced[place as usize] {
        return Ok(Cause::Forced);
    }
    Ok(Cause::Always)
}

/// What a run would do with a task whose output is missing.
fn missing_fate<D: Disk>(
    alloc: Global,
    disk: &mut D,
    rows: &Rows,
    known: &Known<'_>,
    place: u32,
    force: bool,
) -> Result<Fate, DiskFault>
    requires ordered { AreOrdered known.now.plan.now.tasks }
    requires place { place < length known.now.plan.now.tasks }
    requires missing { slice_get known.now.avail.now place ≡ Some Avail.Missing }
    requires known { AreKnown rows.now known.now.plan.now force known.now.unihashes.now known.now.avail.now
        known.now.seen.now known.now.certain.now known.now.forced.now }
    ensures fate { D.tells → IfOk result (IsFateAt (told_of (D.story disk.old).held rows.now known.now.plan.now
        known.now.avail.now known.now.certain.now force) place) }
    ensures same { D.tells → Passes (D.story disk.old) (D.story disk.new) Same }
    ensures cause { Counts (D.faults disk.old) (D.faults disk.new) (disk_failed result) }
{
    let waits = waits_of(alloc, known.seen, task_at(known.plan, place as usize))?;
    if !are_none(waits.as_slice()) {
        return Ok(Fate::MayRun(ListOf::from_vec(waits)));
    }
    if !known.certain[place as usize] {
        return Ok(Fate::MayNeed);
    }
    Ok(Fate::Runs(cause_of(alloc, disk, rows, known, place, force)?))
}

/// What a run would do with a task that it needs, whose object is there.
fn object_fate(is_certain: bool) -> Fate
    ensures { IsObjectFate is_certain result }
{
    if is_certain {
        Fate::Restored
    } else {
        Fate::MayRestore
    }
}

/// What a run would do with a task that it needs.
fn fate_of<D: Disk>(
    alloc: Global,
    disk: &mut D,
    rows: &Rows,
    known: &Known<'_>,
    place: u32,
    force: bool,
) -> Result<Fate, DiskFault>
    requires ordered { AreOrdered known.now.plan.now.tasks }
    requires place { place < length known.now.plan.now.tasks }
    requires known { AreKnown rows.now known.now.plan.now force known.now.unihashes.now known.now.avail.now
        known.now.seen.now known.now.certain.now known.now.forced.now }
    ensures fate { D.tells → IfOk result (IsFateAt (told_of (D.story disk.old).held rows.now known.now.plan.now
        known.now.avail.now known.now.certain.now force) place) }
    ensures same { D.tells → Passes (D.story disk.old) (D.story disk.new) Same }
    ensures cause { Counts (D.faults disk.old) (D.faults disk.new) (disk_failed result) }
{
    match known.avail[place as usize] {
        Avail::Work => Ok(Fate::Found),
        Avail::Object => Ok(object_fate(known.certain[place as usize])),
        Avail::Missing => missing_fate(alloc, disk, rows, known, place, force),
    }
}

/// Puts the line of a task, where a run needs it.
pub(crate) fn put_task<D: Disk>(
    alloc: Global,
    disk: &mut D,
    rows: &Rows,
    known: &Known<'_>,
    need: &[bool],
    place: u32,
    force: bool,
    text: &mut Text,
) -> Result<(), DiskFault>
    requires ordered { AreOrdered known.now.plan.now.tasks }
    requires place { place < length known.now.plan.now.tasks }
    requires need { length need.now ≡ length known.now.plan.now.tasks }
    requires known { AreKnown rows.now known.now.plan.now force known.now.unihashes.now known.now.avail.now
        known.now.seen.now known.now.certain.now known.now.forced.now }
    ensures line { D.tells → OnOk result (PutsLine (told_of (D.story disk.old).held rows.now known.now.plan.now
        known.now.avail.now known.now.certain.now force) need.now place text.old text.new) }
    ensures same { D.tells → Passes (D.story disk.old) (D.story disk.new) Same }
    ensures cause { Counts (D.faults disk.old) (D.faults disk.new) (disk_failed result) }
{
    if !need[place as usize] {
        return Ok(());
    }
    let what = fate_of(alloc, disk, rows, known, place, force)?;
    let tasks = known.plan.tasks.as_slice();
    Ok(put_line(text, tasks, task_at(known.plan, place as usize), &what)?)
}
