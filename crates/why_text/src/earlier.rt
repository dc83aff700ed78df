// The signature of what a task gave before, by its stamp.
ghost use Rattle.std.specs.Prelude.{◌≡◌, IfOk, option_copied};
ghost use Rattle.std.specs.Option.{option_and_then};
ghost use Rattle.outside_traits.specs.Fault.{Counts, disk_failed};
ghost use Rattle.outside_traits.specs.Passes.{Passes, Same};
ghost use Rattle.stamp_store.specs.Stamp.{IsCurrent};
ghost use Rattle.store_model.specs.Available.{stamp_path, task_folder};
ghost use Rattle.store_model.specs.Rows.{row_at};
ghost use Rattle.why_text.specs.Telling.{IsEarlierOf, IsRead};

use crate::rows::Rows;
use hash_equiv::Index;
use meta_model::PlanTask;
use outside_traits::{Disk, DiskFault};
use sig_gen::{SigFault, decode};
use stamp_store::current;
use std::alloc::Global;
use store_model::{EquivRow, SigRecord};
use tree_model::{Hash, Mem, Text};

/// A task's folder: its PN and its name.
fn task_folder(alloc: Global, task: &PlanTask) -> Result<Text, Mem>
    ensures { IfOk result (λ folder. folder ≡ task_folder task.now) }
{
    let mut folder = Text::from_str(alloc, task.id.pn.as_str())?;
    folder.push_str("/")?;
    folder.push_str(task.id.task.as_str())?;
    Ok(folder)
}

/// The name of the record that a task's stamp names.
fn stamped<D: Disk>(alloc: Global, disk: &mut D, task: &PlanTask) -> Result<Option<Hash>, DiskFault>
    ensures found { D.tells → IfOk result (IsCurrent ((D.story disk.old).held (stamp_path task.now))) }
    ensures same { D.tells → Passes (D.story disk.old) (D.story disk.new) Same }
    ensures cause { Counts (D.faults disk.old) (D.faults disk.new) (disk_failed result) }
{
    let folder = task_folder(alloc, task)?;
    current(alloc, disk, folder.as_str())
}

/// The signature of a row; none where its text is no signature's.
fn sig_in(alloc: Global, row: &EquivRow) -> Result<Option<SigRecord>, Mem>
    ensures { IfOk result (IsRead row.now.sig) }
{
    match decode(alloc, &row.sig) {
        Ok(sig) => Ok(Some(sig)),
        Err(SigFault::Memory) => Err(Mem),
        Err(SigFault::BadRecord) => Ok(None),
    }
}

/// The row of a name, where there is a name.
fn row_named<'r>(index: &'r Index, name: Option<&Hash>) -> Option<&'r EquivRow>
    ensures { option_copied result ≡ option_and_then (row_at index.now) (option_copied name.entry) }
{
    match name {
        Some(name) => index.row(name),
        None => None,
    }
}

/// The signature of the row that a task's stamp names; none where it names no row, or one whose text is no signature's.
pub(crate) fn earlier_of<D: Disk>(
    alloc: Global,
    disk: &mut D,
    rows: &Rows,
    task: &PlanTask,
) -> Result<Option<SigRecord>, DiskFault>
    ensures found { D.tells → IfOk result (IsEarlierOf (D.story disk.old).held rows.now task.now) }
    ensures same { D.tells → Passes (D.story disk.old) (D.story disk.new) Same }
    ensures cause { Counts (D.faults disk.old) (D.faults disk.new) (disk_failed result) }
{
    let name = stamped(alloc, disk, task)?;
    match row_named(rows.index(), name.as_ref()) {
        Some(row) => Ok(sig_in(alloc, row)?),
        None => Ok(None),
    }
}
