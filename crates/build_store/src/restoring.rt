// Restoring outputs from objects.
ghost use Rattle.std.specs.Prelude.{◌≡◌, ◌≤◌, IfErr, IfNone, IfOk, IfSome, List, MatchBool, MatchOption, None, OnOk, Some, ℕ};
ghost use Rattle.tree_model.specs.Manifest.{manifest_lines};
ghost use Rattle.std.specs.Bool.{OnFalse};
ghost use Rattle.std.specs.List.{AllByRecursion};
ghost use Rattle.tree_model.specs.Tree.{IsTree};
ghost use Rattle.outside_traits.specs.Fault.{Counts, disk_failed};
ghost use Rattle.outside_traits.specs.Passes.{EachNow, Passes, Same};
ghost use Rattle.sstate_objects.specs.Matching.{IsMatching};
ghost use Rattle.store_model.specs.Available.{IsStored, Matches, object_folder, task_folder};
ghost use Rattle.store_model.specs.Spelled.{IsSpelled};
ghost use Rattle.store_model.specs.Spelling.{name_of, signature_bytes, text_name};
ghost use Rattle.build_store.specs.Keys.{HoldsKeyOf};
ghost use Rattle.store_model.specs.Rows.{IsClear, row_at};
ghost use Rattle.store_model.specs.declared.signature.EquivRow.{EquivRow as ARow};
ghost use Rattle.build_store.specs.Faults.{IsClash, IsOutside, store_failed};
ghost use Rattle.build_store.specs.Finding.{IsOtherOrOutside};
ghost use Rattle.build_store.specs.Restoring.{IsFoundBy, IsFoundIn, IsObject, IsPutBack, PutsBack};
ghost use Rattle.store_opening.specs.Paths.{HasPlace, IsLaidOut};
ghost use Rattle.build_store.specs.Publication.{AreShort, HasNoObject, IsPublished, IsRestored, KeepsCopied, KeepsRight, Publishes, Restores};
ghost use Rattle.tree_model.specs.declared.entry.Entry.{Entry as AnEntry};
ghost use Rattle.store_model.specs.Paths.{record_path};
ghost use Rattle.build_store.specs.Calls.{KeepsAround};
ghost use Rattle.build_store.specs.Phases.{put_of};
ghost use Rattle.build_store.specs.Standing.{AddsNoLitter};
ghost use Rattle.store_model.specs.Readable.{HasShortPaths, IsRow};
ghost use Rattle.store_opening.specs.Sound.{IsKept};
ghost use Rattle.build_store.specs.View.{signed_by};

use crate::comparing::compare_row;
use crate::fault::StoreFault;
use crate::finding::are_short;
use crate::naming::name_of_sig;
use crate::places::task_folder;
use crate::publication::put;
use hash_equiv::{Index, copy_manifest};
use meta_model::PlanTask;
use outside_traits::{Disk, DiskFault};
use sstate_objects::read_verified;
use std::alloc::Global;
use store_model::{EquivRow, SigRecord, SigText};
use tree_model::{Hash, Manifest, Mem, Tree, matches};

/// The tree, where its paths are short.
fn short_only(tree: Tree) -> Option<Tree>
    ensures some { IfSome result (λ kept. (kept ≡ tree) × AreShort tree) }
    ensures none { IfNone result (AreShort tree → ⊥) }
    ensures tree { IsTree tree }
{
    if are_short(&tree) {
        return Some(tree);
    }
    None
}

/// The object of a record, where it matches.
fn object_of<D: Disk>(
    alloc: Global,
    disk: &mut D,
    row: &EquivRow,
) -> Result<Option<Tree>, DiskFault>
    requires { HasShortPaths row.now.manifest }
    ensures found { D.tells → IfOk result (IsMatching (object_folder row.now.unihash) row.now.manifest
        (D.story disk.old).held) }
    ensures short { IfOk result (λ found. IfSome found AreShort) }
    ensures others { D.tells → Passes (D.story disk.old) (D.story disk.new) Same }
    ensures cause { Counts (D.faults disk.old) (D.faults disk.new) (disk_failed result) }
{
    match read_verified(alloc, disk, &row.unihash, &row.manifest)? {
        Some(tree) => Ok(short_only(tree)),
        None => Ok(None),
    }
}

/// Puts a task's tree, under the name of its record, which is stored.
fn put_task<D: Disk>(
    alloc: Global,
    disk: &mut D,
    task: &PlanTask,
    name: &Hash,
    tree: &Tree,
) -> Result<(), StoreFault>
    requires reach { 3600 ≤ D.reach }
    requires place { HasPlace task.now }
    requires short { AreShort tree.now }
    requires laid_out { D.tells → IsLaidOut (D.story disk.old).held }
    ensures published { D.tells → OnOk result ((f : AnEntry) → (D.story disk.old).held (record_path name.now) ≡ Some f
        → (text : List ℕ) → HoldsKeyOf text (D.story disk.old).held
        → EachNow (D.story disk.new) (IsPublished (put_of (task_folder task.now) name.now tree.now None None f text))) }
    ensures swept { D.tells → OnOk result (AddsNoLitter (D.story disk.old).held (D.story disk.new).held) }
    ensures others { D.tells → (f : AnEntry) → (D.story disk.old).held (record_path name.now) ≡ Some f
        → (text : List ℕ) → HoldsKeyOf text (D.story disk.old).held → Passes (D.story disk.old) (D.story disk.new)
        (Publishes (put_of (task_folder task.now) name.now tree.now None None f text)) }
    ensures laid_out { D.tells → IsLaidOut (D.story disk.new).held }
    ensures refused { IfErr result IsOutside }
    ensures round { D.tells → Passes (D.story disk.old) (D.story disk.new)
        (KeepsAround (task_folder task.now) (D.story disk.old).held) }
    ensures right { D.tells → Passes (D.story disk.old) (D.story disk.new)
        (KeepsRight (task_folder task.now) None tree.now (D.story disk.old).held) }
    ensures cause { Counts (D.faults disk.old) (D.faults disk.new) (store_failed result) }
{
    let folder = task_folder(alloc, task)?;
    match put(alloc, disk, folder.as_str(), name, tree) {
        Ok(()) => Ok(()),
        Err(DiskFault::Failed) => Err(StoreFault::Disk),
        Err(DiskFault::Memory) => Err(StoreFault::Memory),
    }
}

/// Restores a task whose record has this row.
fn restore_by<D: Disk>(
    alloc: Global,
    disk: &mut D,
    task: &PlanTask,
    row: &EquivRow,
) -> Result<bool, StoreFault>
    requires reach { 3600 ≤ D.reach }
    requires place { HasPlace task.now }
    requires row { IsRow row.now }
    requires laid_out { D.tells → IsLaidOut (D.story disk.old).held }
    ensures restored { D.tells → IfOk result (λ found. MatchBool found
        (IsPutBack task.now row.now (D.story disk.old) (D.story disk.new))
        (Matches (D.story disk.old).held (object_folder row.now.unihash) row.now.manifest → ⊥)) }
    ensures unchanged { D.tells → IfOk result (λ found. OnFalse found
        (Passes (D.story disk.old) (D.story disk.new) Same)) }
    ensures swept { D.tells → OnOk result (AddsNoLitter (D.story disk.old).held (D.story disk.new).held) }
    ensures images { D.tells → PutsBack task.now row.now (D.story disk.old) (D.story disk.new) }
    ensures laid_out { D.tells → IsLaidOut (D.story disk.new).held }
    ensures refused { IfErr result IsOutside }
    ensures round { D.tells → Passes (D.story disk.old) (D.story disk.new)
        (KeepsAround (task_folder task.now) (D.story disk.old).held) }
    ensures right { D.tells → Passes (D.story disk.old) (D.story disk.new)
        (KeepsCopied (task_folder task.now) row.now.unihash (D.story disk.old).held) }
    ensures cause { Counts (D.faults disk.old) (D.faults disk.new) (store_failed result) }
{
    match object_of(alloc, disk, row) {
        Ok(Some(tree)) => {
            put_task(alloc, disk, task, &row.name, &tree)?;
            Ok(true)
        }
        Ok(None) => Ok(false),
        Err(DiskFault::Failed) => Err(StoreFault::Disk),
        Err(DiskFault::Memory) => Err(StoreFault::Memory),
    }
}

/// Restores a task whose record has this row, where that has its signature.
fn restore_at<D: Disk>(
    alloc: Global,
    disk: &mut D,
    task: &PlanTask,
    row: &EquivRow,
    sig: &SigText,
) -> Result<bool, StoreFault>
    requires reach { 3600 ≤ D.reach }
    requires place { HasPlace task.now }
    requires row { IsRow row.now }
    requires named { row.now.name ≡ text_name sig.now }
    requires laid_out { D.tells → IsLaidOut (D.story disk.old).held }
    ensures restored { D.tells → IfOk result (λ found. MatchBool found
        (IsPutBack task.now row.now (D.story disk.old) (D.story disk.new))
        (Matches (D.story disk.old).held (object_folder row.now.unihash) row.now.manifest → ⊥)) }
    ensures unchanged { D.tells → IfOk result (λ found. OnFalse found
        (Passes (D.story disk.old) (D.story disk.new) Same)) }
    ensures swept { D.tells → OnOk result (AddsNoLitter (D.story disk.old).held (D.story disk.new).held) }
    ensures clear { OnOk result (row.now.sig ≡ sig.now) }
    ensures images { D.tells → PutsBack task.now row.now (D.story disk.old) (D.story disk.new) }
    ensures other { D.tells → (row.now.sig ≡ sig.now → ⊥) → Passes (D.story disk.old) (D.story disk.new) Same }
    ensures laid_out { D.tells → IsLaidOut (D.story disk.new).held }
    ensures refused { IfErr result (IsOtherOrOutside row.now sig.now) }
    ensures round { D.tells → Passes (D.story disk.old) (D.story disk.new)
        (KeepsAround (task_folder task.now) (D.story disk.old).held) }
    ensures right { D.tells → Passes (D.story disk.old) (D.story disk.new)
        (KeepsCopied (task_folder task.now) row.now.unihash (D.story disk.old).held) }
    ensures cause { Counts (D.faults disk.old) (D.faults disk.new) (store_failed result) }
{
    compare_row(alloc, row, sig)?;
    restore_by(alloc, disk, task, row)
}

/// Restores a task from its object.
pub(crate) fn restore<D: Disk>(
    alloc: Global,
    disk: &mut D,
    index: &Index,
    task: &PlanTask,
    sig: &SigRecord,
) -> Result<bool, StoreFault>
    requires reach { 3600 ≤ D.reach }
    requires place { HasPlace task.now }
    requires spelled { IsSpelled sig.now }
    requires rows { AllByRecursion IsRow index.now }
    requires keeps { D.tells → IsKept index.now (D.story disk.old) }
    ensures restored { D.tells → IfOk result (λ found. MatchBool found
        (EachNow (D.story disk.new) (IsRestored (D.story disk.old).held index.now (signed_by task.now sig.now)))
        (HasNoObject (D.story disk.old).held index.now (signed_by task.now sig.now))) }
    ensures unchanged { D.tells → IfOk result (λ found. OnFalse found
        (Passes (D.story disk.old) (D.story disk.new) Same)) }
    ensures swept { D.tells → OnOk result (AddsNoLitter (D.story disk.old).held (D.story disk.new).held) }
    ensures clear { OnOk result (IsClear index.now (name_of sig.now) (signature_bytes sig.now)) }
    ensures refused { IfErr result (IsClash index.now (name_of sig.now) (signature_bytes sig.now)) }
    ensures images { D.tells → Passes (D.story disk.old) (D.story disk.new)
        (Restores (D.story disk.old).held index.now (signed_by task.now sig.now)) }
    ensures keeps { D.tells → IsKept index.now (D.story disk.new) }
    ensures round { D.tells → Passes (D.story disk.old) (D.story disk.new)
        (KeepsAround (task_folder task.now) (D.story disk.old).held) }
    ensures right { D.tells → (row : ARow) → row_at index.now (name_of sig.now) ≡ Some row
        → Passes (D.story disk.old) (D.story disk.new)
        (KeepsCopied (task_folder task.now) row.unihash (D.story disk.old).held) }
    ensures cause { Counts (D.faults disk.old) (D.faults disk.new) (store_failed result) }
{
    let own = name_of_sig(alloc, sig)?;
    match index.row(&own.name) {
        Some(row) => restore_at(alloc, disk, task, row, &own.text),
        None => Ok(false),
    }
}

/// The object of a task, with the manifest of its record, which it has.
#[derive(Drop)]
pub(crate) struct FoundObject {
    pub(crate) tree: Tree,
    pub(crate) manifest: Manifest,
}

/// The tree, where it has this manifest, with a copy of that.
fn with_manifest(alloc: Global, tree: Tree, manifest: &Manifest) -> Result<Option<FoundObject>, Mem>
    requires { AreShort tree }
    ensures some { IfOk result (λ found. IfSome found (λ f. (f.tree ≡ tree) × (f.manifest ≡ manifest.now)
        × (manifest.now ≡ manifest_lines tree))) }
    ensures none { IfOk result (λ found. IfNone found (manifest.now ≡ manifest_lines tree → ⊥)) }
    ensures tree { IsTree tree }
{
    let _entries = tree.entries();
    if matches(&tree, manifest) {
        let manifest = copy_manifest(alloc, manifest)?;
        return Ok(Some(FoundObject { tree, manifest }));
    }
    Ok(None)
}

/// The object of a row's record, where it matches, with the row's manifest.
fn found_by<D: Disk>(
    alloc: Global,
    disk: &mut D,
    row: &EquivRow,
) -> Result<Option<FoundObject>, StoreFault>
    requires row { IsRow row.now }
    ensures by_row { IfOk result (λ found. IfSome found (IsFoundBy row.now)) }
    ensures found { D.tells → IfOk result (λ found. MatchOption found (Matches (D.story disk.old).held
        (object_folder row.now.unihash) row.now.manifest → ⊥) (λ f. IsObject row.now (D.story disk.old).held f.tree)) }
    ensures refused { IfErr result IsOutside }
    ensures others { D.tells → Passes (D.story disk.old) (D.story disk.new) Same }
    ensures cause { Counts (D.faults disk.old) (D.faults disk.new) (store_failed result) }
{
    match object_of(alloc, disk, row) {
        Ok(Some(tree)) => Ok(with_manifest(alloc, tree, &row.manifest)?),
        Ok(None) => Ok(None),
        Err(DiskFault::Failed) => Err(StoreFault::Disk),
        Err(DiskFault::Memory) => Err(StoreFault::Memory),
    }
}

/// The same, where the row has this signature.
fn found_at<D: Disk>(
    alloc: Global,
    disk: &mut D,
    row: &EquivRow,
    sig: &SigText,
) -> Result<Option<FoundObject>, StoreFault>
    requires row { IsRow row.now }
    requires named { row.now.name ≡ text_name sig.now }
    ensures by_row { IfOk result (λ found. IfSome found (IsFoundBy row.now)) }
    ensures found { D.tells → IfOk result (λ found. MatchOption found (Matches (D.story disk.old).held
        (object_folder row.now.unihash) row.now.manifest → ⊥) (λ f. IsObject row.now (D.story disk.old).held f.tree)) }
    ensures clear { OnOk result (row.now.sig ≡ sig.now) }
    ensures refused { IfErr result (IsOtherOrOutside row.now sig.now) }
    ensures others { D.tells → Passes (D.story disk.old) (D.story disk.new) Same }
    ensures cause { Counts (D.faults disk.old) (D.faults disk.new) (store_failed result) }
{
    match compare_row(alloc, row, sig) {
        Ok(()) => found_by(alloc, disk, row),
        Err(fault) => Err(fault),
    }
}

/// The object of a task with this signature, with its record's manifest: nothing where the record isn't stored, or the object doesn't match.
pub(crate) fn found_object<D: Disk>(
    alloc: Global,
    disk: &mut D,
    index: &Index,
    task: &PlanTask,
    sig: &SigRecord,
) -> Result<Option<FoundObject>, StoreFault>
    requires rows { AllByRecursion IsRow index.now }
    ensures of { IfOk result (λ found. IfSome found (λ f. (row : ARow)
        × IsStored index.now (signed_by task.now sig.now) row × IsFoundBy row f)) }
    ensures found { D.tells → IfOk result (IsFoundIn (D.story disk.old).held index.now (signed_by task.now sig.now)) }
    ensures clear { OnOk result (IsClear index.now (name_of sig.now) (signature_bytes sig.now)) }
    ensures refused { IfErr result (IsClash index.now (name_of sig.now) (signature_bytes sig.now)) }
    ensures others { D.tells → Passes (D.story disk.old) (D.story disk.new) Same }
    ensures cause { Counts (D.faults disk.old) (D.faults disk.new) (store_failed result) }
{
    let own = name_of_sig(alloc, sig)?;
    match index.row(&own.name) {
        Some(row) => found_at(alloc, disk, row, &own.text),
        None => Ok(None),
    }
}
