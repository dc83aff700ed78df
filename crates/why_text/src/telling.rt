// What is told of a plan before a run.
ghost use Rattle.std.specs.Prelude.{◌≡◌, ◌<◌, ◌≤◌, All, IfErr, IfOk, None, length};
ghost use Rattle.outside_traits.specs.Fault.{Counts, disk_failed};
ghost use Rattle.outside_traits.specs.Passes.{Passes, Same};
ghost use Rattle.run_core.specs.Need.{AreOrdered};
ghost use Rattle.setscene_plan.specs.Names.{names_over, unihashes_over};
ghost use Rattle.why_model.specs.Judged.{IsJudged};
ghost use Rattle.setscene_plan.specs.Replans.{IsCurrent, avail_in, names_in, need_in, unihashes_in};
ghost use Rattle.build_store.specs.Faults.{store_failed};
ghost use Rattle.why_model.specs.Why.{AreLines, IsLine, IsWhyText};
ghost use Rattle.why_text.specs.Looks.{IsWhyFault, looked};
ghost use Rattle.why_text.specs.Telling.{AreKnown, AreTold, told_of};

use crate::certain::certain_of;
use crate::fates::{Known, forced_of, put_task};
use crate::judged::Judged;
use crate::rows::Rows;
use crate::seen::seen_over;
use build_store::StoreFault;
use meta_model::Plan;
use outside_traits::{Disk, DiskFault};
use setscene_plan::Replan;
use std::alloc::Global;
use store_opening::{Ahead, judge_disk};
use tree_model::Text;

/// A disk that was looked at, and what is told of it.
#[derive(Drop)]
pub struct Looked<D> {
    /// The disk, in which nothing changed.
    pub disk: D,

    /// The text, or why there is none.
    pub text: Result<Text, StoreFault>,
}

/// The lines of all tasks that a run needs.
fn lines_of<D: Disk>(
    alloc: Global,
    disk: &mut D,
    rows: &Rows,
    known: &Known<'_>,
    need: &[bool],
    force: bool,
) -> Result<Text, DiskFault>
    requires few { length known.now.plan.now.tasks ≤ 65536 }
    requires ordered { AreOrdered known.now.plan.now.tasks }
    requires need { length need.now ≡ length known.now.plan.now.tasks }
    requires known { AreKnown rows.now known.now.plan.now force known.now.unihashes.now known.now.avail.now
        known.now.seen.now known.now.certain.now known.now.forced.now }
    ensures lines { D.tells → IfOk result (AreLines (IsLine (told_of (D.story disk.old).held rows.now known.now.plan.now
        known.now.avail.now known.now.certain.now force) need.now) (length known.now.plan.now.tasks)) }
    ensures same { D.tells → Passes (D.story disk.old) (D.story disk.new) Same }
    ensures cause { Counts (D.faults disk.old) (D.faults disk.new) (disk_failed result) }
{
    let mut text = Text::new(alloc);
    for place in 0..known.plan.tasks.len() as u32 {
        put_task(alloc, disk, rows, known, need, place, force, &mut text)?;
    }
    Ok(text)
}

/// What is told of a plan, by what a run that begins knows of it.
fn told<D: Disk>(
    alloc: Global,
    disk: &mut D,
    rows: &Rows,
    plan: &Plan,
    replan: &Replan,
    force: bool,
) -> Result<Text, DiskFault>
    requires few { length plan.now.tasks ≤ 65536 }
    requires ordered { AreOrdered plan.now.tasks }
    requires targets { All (λ t. t < length plan.now.tasks) plan.now.targets }
    requires names { names_in replan.now ≡ names_over rows.now plan.now.tasks }
    requires over { unihashes_in replan.now ≡ unihashes_over rows.now plan.now.tasks }
    requires there { length (avail_in replan.now) ≡ length plan.now.tasks }
    requires need { length (need_in replan.now) ≡ length plan.now.tasks }
    ensures told { D.tells → IfOk result (AreTold (D.story disk.old).held rows.now plan.now (avail_in replan.now)
        (need_in replan.now) force) }
    ensures same { D.tells → Passes (D.story disk.old) (D.story disk.new) Same }
    ensures cause { Counts (D.faults disk.old) (D.faults disk.new) (disk_failed result) }
{
    let seen = seen_over(alloc, rows, plan.tasks.as_slice(), replan.names())?;
    let certain = certain_of(alloc, plan, replan.avail(), seen.as_slice())?;
    let forced = forced_of(alloc, plan, force)?;
    let known = Known {
        plan,
        unihashes: replan.unihashes(),
        avail: replan.avail(),
        seen: seen.as_slice(),
        certain: certain.as_slice(),
        forced: forced.as_slice(),
    };
    lines_of(alloc, disk, rows, &known, replan.need(), force)
}

/// What a run that begins knows of a plan's tasks.
fn known_of<D: Disk>(
    alloc: Global,
    judged: &mut Judged<'_, D>,
    plan: &Plan,
) -> Result<Replan, StoreFault>
    requires few { length plan.now.tasks ≤ 65536 }
    requires ordered { AreOrdered plan.now.tasks }
    requires targets { All (λ t. t < length plan.now.tasks) plan.now.targets }
    requires plan { judged.old.plan.now ≡ plan.now }
    requires fault { judged.old.fault ≡ None }
    ensures current { IfOk result (IsCurrent (looked D.tells (D.story judged.old.disk).held judged.old.rows
        judged.old.setscene plan.now.tasks) (record { plan = plan.now; rows = judged.old.rows })) }
    ensures names { IfOk result (λ made. names_in made ≡ names_over judged.old.rows plan.now.tasks) }
    ensures refused { IfErr result (IsWhyFault plan.now) }
    ensures rows { judged.new.rows ≡ judged.old.rows }
    ensures same { D.tells → Passes (D.story judged.old.disk) (D.story judged.new.disk) Same }
    ensures cause { Counts (D.faults judged.old.disk) (D.faults judged.new.disk) (store_failed result) }
{
    match Replan::new(alloc, plan, judged) {
        Ok(replan) => Ok(replan),
        Err(_) => Err(judged.fault.take().unwrap_or(StoreFault::Memory)),
    }
}

/// The text over the rows of a disk's believed records.
fn text_over<D: Disk>(
    alloc: Global,
    disk: D,
    rows: Rows,
    plan: &Plan,
    setscene: bool,
    force: bool,
) -> Looked<D>
    requires few { length plan.now.tasks ≤ 65536 }
    requires ordered { AreOrdered plan.now.tasks }
    requires targets { All (λ t. t < length plan.now.tasks) plan.now.targets }
    ensures text { D.tells → IfOk result.text (λ text. IsJudged (D.story disk).held rows
        → IsWhyText plan.now (D.story disk).held setscene force text) }
    ensures refused { IfErr result.text (IsWhyFault plan.now) }
    ensures same { D.tells → Passes (D.story disk) (D.story result.disk) Same }
    ensures cause { Counts (D.faults disk) (D.faults result.disk) (store_failed result.text) }
{
    let mut judged = Judged {
        alloc,
        plan,
        disk,
        rows,
        setscene,
        fault: None,
    };
    let known = known_of(alloc, &mut judged, plan);
    let Judged {
        alloc: _,
        plan: _,
        mut disk,
        rows,
        setscene: _,
        fault: _,
    } = judged;
    match known {
        Ok(replan) => match told(alloc, &mut disk, &rows, plan, &replan, force) {
            Ok(text) => Looked {
                disk,
                text: Ok(text),
            },
            Err(fault) => Looked {
                disk,
                text: Err(StoreFault::from(fault)),
            },
        },
        Err(fault) => Looked {
            disk,
            text: Err(fault),
        },
    }
}

/// The text that says, of each task that a run of the plan over this disk would need, whether it would find, restore or run it, and why; and where it would
/// first have to see what an earlier task gives, that it may run. It is the definition's (`why_model`). Shared state objects count where `setscene` is set,
/// and `force` says that the plan is one of the option `-f`. (Own rule.)
///
/// Nothing changes, whatever it answers: the disk is only listed and read. Refused only where the disk failed, where two signatures have one digest, or
/// where memory is wanting.
pub fn why_text<D: Disk>(
    alloc: Global,
    disk: D,
    plan: &Plan,
    setscene: bool,
    force: bool,
) -> Looked<D>
    requires few { length plan.now.tasks ≤ 65536 }
    requires ordered { AreOrdered plan.now.tasks }
    requires targets { All (λ t. t < length plan.now.tasks) plan.now.targets }
    ensures text { D.tells → IfOk result.text (IsWhyText plan.now (D.story disk).held setscene force) }
    ensures refused { IfErr result.text (IsWhyFault plan.now) }

    // Whatever it answers.
    ensures same { D.tells → Passes (D.story disk) (D.story result.disk) Same }
    ensures cause { Counts (D.faults disk) (D.faults result.disk) (store_failed result.text) }
{
    let mut disk = disk;
    match judge_disk(alloc, &mut disk, &Ahead::none()) {
        Ok(index) => text_over(alloc, disk, Rows::new(index), plan, setscene, force),
        Err(fault) => Looked {
            disk,
            text: Err(StoreFault::from(fault)),
        },
    }
}
