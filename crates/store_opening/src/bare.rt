// Tasks that gave nothing: their stamps go where no folder can be at their work folders.
ghost use Rattle.std.specs.Prelude.{◌≡◌, IfOk, OnOk, is_some};
ghost use Rattle.outside_traits.specs.Fault.{Counts, disk_failed};
ghost use Rattle.outside_traits.specs.Passes.{Passes, Same};
ghost use Rattle.store_model.specs.Believed.{AreBelieved};
ghost use Rattle.store_opening.specs.Survey.{AreBare, Dooms, IsBlockedOf, NotesBare, NotesBlocked, NotesHeld, stamp_of};
ghost use Rattle.std.specs.Prelude.{codes};

use crate::places::work_at;
use crate::survey::doom_held;
use outside_traits::{Disk, DiskFault};
use sstate_objects::is_held;
use std::alloc::Global;
use store_model::Candidate;
use tree_model::{Mem, Text};

/// A task that gave nothing, by its record: its PN and its name.
#[derive(Drop)]
pub(crate) struct Bare {
    pub(crate) pn: Text,
    pub(crate) task: Text,
}

/// Puts the task of a record to these, if it gave nothing.
fn note_bare(candidate: &Candidate, bare: &mut Vec<Bare>) -> Result<(), Mem>
    ensures { OnOk result (NotesBare candidate.now bare.old.items bare.new.items) }
{
    if candidate.stored.manifest.lines().is_empty() {
        bare.push(Bare {
            pn: candidate.stored.sig.pn.copy()?,
            task: candidate.stored.sig.task.copy()?,
        })?;
    }
    Ok(())
}

/// The tasks of these records that gave nothing.
pub(crate) fn bare_of(alloc: Global, candidates: &[Candidate]) -> Result<Vec<Bare>, Mem>
    ensures { IfOk result (λ bare. AreBare candidates.now bare.items) }
{
    let mut bare = Vec::new(alloc);
    for candidate in candidates {
        note_bare(candidate, &mut bare)?;
    }
    Ok(bare)
}

/// Where the stamp of a task stands.
fn stamp_of(alloc: Global, one: &Bare) -> Result<Text, Mem>
    ensures { IfOk result (λ path. path ≡ stamp_of one.now) }
{
    let mut path = Text::from_str(alloc, "stamp/")?;
    path.push_str(one.pn.as_str())?;
    path.push_str("/")?;
    path.push_str(one.task.as_str())?;
    Ok(path)
}

/// Puts the stamp of a task to what goes, if something is held there.
fn doom_stamp<D: Disk>(
    alloc: Global,
    disk: &mut D,
    one: &Bare,
    doomed: &mut Vec<Text>,
) -> Result<(), DiskFault>
    ensures notes { D.tells → OnOk result (NotesHeld (D.story disk.old).held (stamp_of one.now) doomed.old.items
        doomed.new.items) }
    ensures others { D.tells → Passes (D.story disk.old) (D.story disk.new) Same }
    ensures cause { Counts (D.faults disk.old) (D.faults disk.new) (disk_failed result) }
{
    let path = stamp_of(alloc, one)?;
    doom_held(alloc, disk, path.as_str(), doomed)
}

/// Puts the stamp of a task to what goes, where no folder can be at its work folder: something is held at `work`, or at `work/PN`.
fn doom_blocked<D: Disk>(
    alloc: Global,
    disk: &mut D,
    one: &Bare,
    closed: bool,
    doomed: &mut Vec<Text>,
) -> Result<(), DiskFault>
    requires { D.tells → closed ≡ is_some ((D.story disk.old).held (codes "work")) }
    ensures notes { D.tells → OnOk result (NotesBlocked (D.story disk.old).held one.now doomed.old.items
        doomed.new.items) }
    ensures others { D.tells → Passes (D.story disk.old) (D.story disk.new) Same }
    ensures cause { Counts (D.faults disk.old) (D.faults disk.new) (disk_failed result) }
{
    if closed {
        return doom_stamp(alloc, disk, one, doomed);
    }
    let work = work_at(alloc, one.pn.as_str())?;
    if is_held(alloc, disk, work.as_str())? {
        return doom_stamp(alloc, disk, one, doomed);
    }
    Ok(())
}

/// Puts the stamps of those of these tasks to what goes at whose work folders no folder can be. So each task's PN is looked at, and nothing else, unless
/// something is in the way.
pub(crate) fn survey_blocked<D: Disk>(
    alloc: Global,
    disk: &mut D,
    bare: &[Bare],
    doomed: &mut Vec<Text>,
) -> Result<(), DiskFault>
    ensures dooms { D.tells → OnOk result (Dooms (D.story disk.old).held (IsBlockedOf (D.story disk.old).held bare.now)
        doomed.old.items doomed.new.items) }
    ensures others { D.tells → Passes (D.story disk.old) (D.story disk.new) Same }
    ensures cause { Counts (D.faults disk.old) (D.faults disk.new) (disk_failed result) }
{
    let closed = is_held(alloc, disk, "work")?;
    for one in bare {
        doom_blocked(alloc, disk, one, closed, doomed)?;
    }
    Ok(())
}
