// Where a store keeps what opening looks at.
ghost use Rattle.std.specs.Prelude.{◌≡◌, IfOk};
ghost use Rattle.store_model.specs.Paths.{record_path};
ghost use Rattle.store_model.specs.Publication.{work_at};

use std::alloc::Global;
use tree_model::{Hash, Mem, Text};

/// Where a record stands.
pub fn record_path(alloc: Global, name: &Hash) -> Result<Text, Mem>
    ensures { IfOk result (λ path. path ≡ record_path name.now) }
{
    let mut path = Text::from_str(alloc, "rec2/")?;
    path.push_str(name.text(alloc)?.as_str())?;
    Ok(path)
}

/// Where the output of a task's folder stands.
pub fn work_at(alloc: Global, folder: &str) -> Result<Text, Mem>
    ensures { IfOk result (λ path. path ≡ work_at folder.now) }
{
    let mut path = Text::from_str(alloc, "work/")?;
    path.push_str(folder)?;
    Ok(path)
}
