// Which of the open publications is meant.
ghost use Rattle.std.specs.Prelude.{◌≡◌, ◌<◌, ◌∷◌, IfNone, IfOk, IfSome, IsTrue, OnSome, length, position};
ghost use Rattle.std.specs.List.{list_any};
ghost use Rattle.std.specs.Option.{is_some};
ghost use Rattle.std.specs.Str.{bytes_eq};
ghost use Rattle.meta_model.specs.CleanBuild.{Entries};
ghost use Rattle.store_model.specs.Available.{task_folder};
ghost use Rattle.store_model.specs.Rows.{hash_eq};
ghost use Rattle.store_model.specs.Spelled.{IsSpelled};
ghost use Rattle.store_model.specs.Spelling.{signature_bytes};
ghost use Rattle.sig_gen.specs.Sound.{Spells};
ghost use Rattle.build_store.specs.Openings.{IsOpen};
ghost use Rattle.build_store.specs.Standing.{StandsAt, meets, objects_meet};
ghost use Rattle.build_store.specs.View.{open_in, signed_as};

use crate::pieces::OpenPublication;
use meta_model::PlanTask;
use sig_gen::encode;
use std::alloc::Global;
use store_model::{SigRecord, SigText};
use tree_model::{Hash, Mem};

/// Whether what stands behind the PN in a folder is a slash and this name.
fn is_behind(rest: &str, name: &str) -> bool
    ensures { result ≡ bytes_eq rest.now (47 ∷ name.now) }
{
    match rest.strip_prefix("/") {
        Some(found) => found == name,
        None => false,
    }
}

/// Whether the folder is that of the task.
fn is_folder_of(folder: &str, task: &PlanTask) -> bool
    ensures { result ≡ bytes_eq folder.now (task_folder task.now) }
{
    match folder.strip_prefix(task.id.pn.as_str()) {
        Some(rest) => is_behind(rest, task.id.task.as_str()),
        None => false,
    }
}

/// The place of the publication of a task, whatever its signature, if one is open.
pub(crate) fn place_of(open_ones: &[OpenPublication], task: &PlanTask) -> Option<usize>
    ensures { result ≡ position (λ one. bytes_eq one.folder (task_folder task.now)) open_ones.now }
{
    open_ones
        .iter()
        .position(|one| is_folder_of(one.folder.as_str(), task))
}

/// Whether one of them is of the task, and has a new record that names the output of another one.
pub(crate) fn is_elsewhere(open_ones: &[OpenPublication], task: &PlanTask) -> bool {
    open_ones.iter().any(|one| {
        is_folder_of(one.folder.as_str(), task) && one.new.is_some() && one.unihash != one.name
    })
}

/// Whether the publication has this signature, and an object just where it is to write one.
fn is_signed(one: &OpenPublication, sig: &SigText, shared: bool) -> bool
    ensures is { IsTrue result → (one.now.sig ≡ sig.now) × (is_some one.now.object ≡ shared) }
    ensures tells { one.now.sig ≡ sig.now → is_some one.now.object ≡ shared → IsTrue result }
{
    one.sig.is_same(sig) && one.object.is_some() == shared
}

/// The place of the publication of a task that has this signature, and writes an object or not, if it is open.
pub(crate) fn place_signed(
    alloc: Global,
    open_ones: &[OpenPublication],
    task: &PlanTask,
    sig: &SigRecord,
    shared: bool,
) -> Result<Option<usize>, Mem>
    ensures within { IfOk result (λ found. IfSome found (λ place. place < length open_ones.now)) }
    ensures stands { IfOk result (λ found. IfSome found (StandsAt (signed_as shared task.now sig.now) open_ones.now)) }
    ensures spells { IfOk result (λ found. OnSome found (IsSpelled sig.now → Spells (signature_bytes sig.now) sig.now)) }
    ensures none { IfOk result (λ found. IfNone found ((tree : Entries)
        → IsOpen (open_in open_ones.now) (signed_as shared task.now sig.now) tree → ⊥)) }
{
    match place_of(open_ones, task) {
        Some(place) => {
            let own = encode(alloc, sig)?;
            if is_signed(&open_ones[place], &own, shared) {
                return Ok(Some(place));
            }
            Ok(None)
        }
        None => Ok(None),
    }
}

/// Whether two digests are one.
fn is_same(one: &Hash, other: &Hash) -> bool
    ensures { result ≡ hash_eq one.now other.now }
{
    one.bytes.as_slice() == other.bytes.as_slice()
}

/// Whether two publications have an object in common.
fn objects_meet(one: &Option<Hash>, other: &Option<Hash>) -> bool
    ensures { result ≡ objects_meet one.now other.now }
{
    match (one, other) {
        (Some(one), Some(other)) => is_same(one, other),
        _ => false,
    }
}

/// Whether the open publication has this record, or this object.
fn meets(name: &Hash, object: &Option<Hash>, one: &OpenPublication) -> bool
    ensures { result ≡ meets name.now object.now one.now }
{
    is_same(&one.name, name) || objects_meet(&one.object, object)
}

/// Whether one of those that are open has this record, or this object.
pub(crate) fn is_busy(open_ones: &[OpenPublication], name: &Hash, object: &Option<Hash>) -> bool
    ensures { result ≡ list_any (meets name.now object.now) open_ones.now }
{
    open_ones.iter().any(|one| meets(name, object, one))
}
