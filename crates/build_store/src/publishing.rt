// Parts of what is published of a task.
ghost use Rattle.std.specs.Prelude.{◌≡◌, IfSome, None, OnErr, OnOk, Some, if◌then◌else◌};
ghost use Rattle.store_model.specs.Rows.{row_at};
ghost use Rattle.build_store.specs.Drafts.{file_of, row_of_new, rows_behind};

use crate::drafting::NewRecord;
use hash_equiv::Index;
use std::alloc::Global;
use store_model::EquivRow;
use store_opening::add_new;
use tree_model::{Entry, Hash, Mem};

/// Adds a row, if there is one.
pub(crate) fn add_row(alloc: Global, index: &mut Index, row: Option<EquivRow>) -> Result<(), Mem>
    requires { IfSome row (λ new. row_at index.old new.name ≡ None) }
    ensures ok { OnOk result (index.new ≡ rows_behind index.old row) }
    ensures err { OnErr result (index.new ≡ index.old) }
{
    match row {
        Some(row) => add_new(alloc, index, row),
        None => Ok(()),
    }
}

/// The file and the row of a new record, if there is one.
pub(crate) fn parts_of(new: Option<NewRecord>) -> (Option<Entry>, Option<EquivRow>)
    ensures file { result.0 ≡ file_of new }
    ensures row { result.1 ≡ row_of_new new }
{
    match new {
        Some(made) => (Some(made.file), Some(made.row)),
        None => (None, None),
    }
}

/// The object that is written, if one is.
pub(crate) fn object_of(shared: bool, unihash: Hash) -> Option<Hash>
    ensures { result ≡ (if shared then Some unihash else None) }
{
    if shared {
        return Some(unihash);
    }
    None
}
