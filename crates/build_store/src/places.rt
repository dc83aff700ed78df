// Where a task's files stand.
ghost use Rattle.std.specs.Prelude.{◌≡◌, IfOk};
ghost use Rattle.stamp_store.specs.Stamp.{old_path, staged_path};
ghost use Rattle.store_model.specs.Available.{task_folder, work_folder};
ghost use Rattle.store_model.specs.Paths.{key_path};
ghost use Rattle.store_model.specs.Publication.{stamp_at};
ghost use Rattle.store_opening.specs.Paths.{staged_record_path};

use meta_model::PlanTask;
use std::alloc::Global;
use store_opening::work_at;
use tree_model::{Hash, Mem, Text};

/// A task's folder: its PN and its name.
pub(crate) fn task_folder(alloc: Global, task: &PlanTask) -> Result<Text, Mem>
    ensures { IfOk result (λ folder. folder ≡ task_folder task.now) }
{
    let mut folder = Text::from_str(alloc, task.id.pn.as_str())?;
    folder.push_str("/")?;
    folder.push_str(task.id.task.as_str())?;
    Ok(folder)
}

/// Where a task's stamp stands.
pub(crate) fn stamp_at(alloc: Global, folder: &str) -> Result<Text, Mem>
    ensures { IfOk result (λ path. path ≡ stamp_at folder.now) }
{
    let mut path = Text::from_str(alloc, "stamp/")?;
    path.push_str(folder)?;
    Ok(path)
}

/// Where a stamp goes as it is taken away.
pub(crate) fn old_path(alloc: Global, folder: &str) -> Result<Text, Mem>
    ensures { IfOk result (λ path. path ≡ old_path folder.now) }
{
    let mut path = Text::from_str(alloc, "tmp/old/")?;
    path.push_str(folder)?;
    Ok(path)
}

/// Where a stamp is written first.
pub(crate) fn staged_path(alloc: Global, folder: &str) -> Result<Text, Mem>
    ensures { IfOk result (λ path. path ≡ staged_path folder.now) }
{
    let mut path = Text::from_str(alloc, "tmp/stamp/")?;
    path.push_str(folder)?;
    Ok(path)
}

/// The work folder of a task.
pub(crate) fn work_folder(alloc: Global, task: &PlanTask) -> Result<Text, Mem>
    ensures { IfOk result (λ path. path ≡ work_folder task.now) }
{
    let folder = task_folder(alloc, task)?;
    work_at(alloc, folder.as_str())
}

/// Where a record is written first.
pub(crate) fn staged_record_path(alloc: Global, name: &Hash) -> Result<Text, Mem>
    ensures { IfOk result (λ path. path ≡ staged_record_path name.now) }
{
    let mut path = Text::from_str(alloc, "tmp/rec2/")?;
    path.push_str(name.text(alloc)?.as_str())?;
    Ok(path)
}

/// Where a key stands.
pub(crate) fn key_path(alloc: Global, name: &Hash) -> Result<Text, Mem>
    ensures { IfOk result (λ path. path ≡ key_path name.now) }
{
    let mut path = Text::from_str(alloc, "key/")?;
    path.push_str(name.text(alloc)?.as_str())?;
    Ok(path)
}
