// What a store finds of a task.
ghost use Rattle.std.specs.Prelude.{◌≡◌, ◌≤◌, ◌↔◌, All, IfErr, IfOk, IfSome, IsTrue, List, OnOk, MatchBool, Some, false, length, ℕ};
ghost use Rattle.std.specs.List.{AllByRecursion};
ghost use Rattle.tree_model.specs.Tree.{IsTree};
ghost use Rattle.outside_traits.specs.Fault.{Counts, disk_failed};
ghost use Rattle.outside_traits.specs.Passes.{Passes, Same};
ghost use Rattle.outside_traits.specs.Reading.{IsReading};
ghost use Rattle.outside_traits.specs.Store.{Store};
ghost use Rattle.meta_model.specs.CleanBuild.{output_limit};
ghost use Rattle.store_model.specs.Available.{IsAvailable, Matches, object_folder, stamp_path, work_folder};
ghost use Rattle.store_model.specs.Spelling.{name_of, signature_bytes, text_name};
ghost use Rattle.build_store.specs.Faults.{IsClash, IsOutside, of_disk, store_failed};
ghost use Rattle.build_store.specs.Finding.{IsAnswered, IsOtherOrOutside, IsOutput, IsSharedOf, IsStampedFor, IsThere, IsThereAtAll, IsWorkOf};
ghost use Rattle.build_store.specs.Publication.{AreShort};
ghost use Rattle.store_model.specs.Publication.{stamp_at, stamp_file, stamp_text};
ghost use Rattle.store_model.specs.Readable.{IsRow};
ghost use Rattle.build_store.specs.View.{signed_by};

use crate::comparing::compare_row;
use crate::fault::StoreFault;
use crate::naming::name_of_sig;
use crate::places::{stamp_at, task_folder, work_folder};
use hash_equiv::Index;
use meta_model::{Avail, MAX_OUTPUT_PATH, PlanTask};
use outside_traits::{Disk, DiskFault, read_tree};
use sstate_objects::{read_matching, read_verified};
use std::alloc::Global;
use store_model::{EquivRow, SigRecord, SigText};
use store_opening::same_bytes;
use tree_model::{Entry, Hash, Manifest, Size, Tree};

/// The most of an output: entries, bytes of one entry, bytes of all together.
const MAX_OUTPUT: Size = Size {
    entries: 16_384,
    largest: 16_777_216,
    bytes: 33_554_432,
};

/// Whether no path of a tree has more bytes than an output may have.
pub(crate) fn are_short(tree: &Tree) -> bool
    ensures short { IsTrue result ↔ All (λ e. length e.0 ≤ 3072) tree.now }
    ensures tree { IsTree tree.now }
{
    tree.entries()
        .iter()
        .all(|entry| entry.0.as_str().len() <= MAX_OUTPUT_PATH)
}

/// The tree, where no path is too long.
fn short_enough(tree: Tree) -> Option<Tree>
    ensures output { (folder : List ℕ) (held : Store) → IsReading folder output_limit held (Some tree)
        → IsOutput folder held result }
    ensures short { IfSome result AreShort }
{
    if are_short(&tree) {
        return Some(tree);
    }
    None
}

/// What is held in a task's work folder, within the limits of an output.
pub(crate) fn output<D: Disk>(
    alloc: Global,
    disk: &mut D,
    task: &PlanTask,
) -> Result<Option<Tree>, DiskFault>
    ensures found { D.tells → IfOk result (IsOutput (work_folder task.now) (D.story disk.old).held) }
    ensures short { IfOk result (λ found. IfSome found AreShort) }
    ensures others { D.tells → Passes (D.story disk.old) (D.story disk.new) Same }
    ensures cause { Counts (D.faults disk.old) (D.faults disk.new) (disk_failed result) }
{
    let work = work_folder(alloc, task)?;
    match read_tree(alloc, disk, work.as_str(), MAX_OUTPUT)? {
        Some(tree) => Ok(short_enough(tree)),
        None => Ok(None),
    }
}

/// Whether an entry is the stamp that names a record: a file that can't be executed, with the digits of the name and a newline.
pub(crate) fn is_stamp_of(entry: &Entry, name: &Hash) -> bool
    ensures { IsTrue result ↔ (entry.now ≡ stamp_file name.now) }
{
    match entry {
        Entry::File { exec, bytes } => !*exec && is_stamp_text(bytes.as_slice(), name),
        Entry::Link { target: _ } => false,
    }
}

/// Whether the bytes are the digits of a name and a newline.
fn is_stamp_text(bytes: &[u8], name: &Hash) -> bool
    ensures { IsTrue result ↔ (bytes.now ≡ stamp_text name.now) }
{
    match bytes.split_last() {
        Some((last, front)) => *last == b'\n' && same_bytes(front, name.digits().as_slice()),
        None => false,
    }
}

/// Whether a folder's stamp names a record.
fn is_stamped<D: Disk>(
    alloc: Global,
    disk: &mut D,
    folder: &str,
    name: &Hash,
) -> Result<bool, DiskFault>
    ensures found { D.tells → IfOk result (λ is. MatchBool is
        (IsStampedFor folder.now name.now (D.story disk.old).held)
        (IsStampedFor folder.now name.now (D.story disk.old).held → ⊥)) }
    ensures others { D.tells → Passes (D.story disk.old) (D.story disk.new) Same }
    ensures cause { Counts (D.faults disk.old) (D.faults disk.new) (disk_failed result) }
{
    let path = stamp_at(alloc, folder)?;
    match disk.read(alloc, path.as_str())? {
        Some(entry) => Ok(is_stamp_of(&entry, name)),
        None => Ok(false),
    }
}

/// What a folder holds, compared with a manifest.
fn is_matching<D: Disk>(
    alloc: Global,
    disk: &mut D,
    folder: &str,
    manifest: &Manifest,
) -> Result<bool, DiskFault>
    ensures found { D.tells → IfOk result (λ is. MatchBool is
        (Matches (D.story disk.old).held folder.now manifest.now)
        (Matches (D.story disk.old).held folder.now manifest.now → ⊥)) }
    ensures others { D.tells → Passes (D.story disk.old) (D.story disk.new) Same }
    ensures cause { Counts (D.faults disk.old) (D.faults disk.new) (disk_failed result) }
{
    Ok(read_matching(alloc, disk, folder, manifest)?.is_some())
}

/// Whether an object matches a manifest.
fn is_object<D: Disk>(
    alloc: Global,
    disk: &mut D,
    unihash: &Hash,
    manifest: &Manifest,
) -> Result<bool, DiskFault>
    ensures found { D.tells → IfOk result (λ is. MatchBool is
        (Matches (D.story disk.old).held (object_folder unihash.now) manifest.now)
        (Matches (D.story disk.old).held (object_folder unihash.now) manifest.now → ⊥)) }
    ensures others { D.tells → Passes (D.story disk.old) (D.story disk.new) Same }
    ensures cause { Counts (D.faults disk.old) (D.faults disk.new) (disk_failed result) }
{
    Ok(read_verified(alloc, disk, unihash, manifest)?.is_some())
}

/// Whether a folder's stamp names a record and its work folder has the manifest. The work folder is read only where the stamp does.
fn is_in_work<D: Disk>(
    alloc: Global,
    disk: &mut D,
    task: &PlanTask,
    row: &EquivRow,
) -> Result<bool, DiskFault>
    ensures found { D.tells → IfOk result (λ is. MatchBool is (IsWorkOf task.now row.now (D.story disk.old).held)
        (IsWorkOf task.now row.now (D.story disk.old).held → ⊥)) }
    ensures others { D.tells → Passes (D.story disk.old) (D.story disk.new) Same }
    ensures cause { Counts (D.faults disk.old) (D.faults disk.new) (disk_failed result) }
{
    let folder = task_folder(alloc, task)?;
    if !is_stamped(alloc, disk, folder.as_str(), &row.name)? {
        return Ok(false);
    }
    let work = work_folder(alloc, task)?;
    is_matching(alloc, disk, work.as_str(), &row.manifest)
}

/// Whether the object of a task counts and matches.
fn is_in_object<D: Disk>(
    alloc: Global,
    disk: &mut D,
    counts: bool,
    row: &EquivRow,
) -> Result<bool, DiskFault>
    ensures found { D.tells → IfOk result (λ is. MatchBool is (IsSharedOf counts row.now (D.story disk.old).held)
        (IsSharedOf counts row.now (D.story disk.old).held → ⊥)) }
    ensures others { D.tells → Passes (D.story disk.old) (D.story disk.new) Same }
    ensures cause { Counts (D.faults disk.old) (D.faults disk.new) (disk_failed result) }
{
    if !counts {
        return Ok(false);
    }
    is_object(alloc, disk, &row.unihash, &row.manifest)
}

/// How the output of a task, which has this row, is there.
fn available_by<D: Disk>(
    alloc: Global,
    disk: &mut D,
    task: &PlanTask,
    row: &EquivRow,
    setscene: bool,
) -> Result<Avail, DiskFault>
    ensures found { D.tells → IfOk result (IsThere task.now row.now setscene (D.story disk.old).held) }
    ensures others { D.tells → Passes (D.story disk.old) (D.story disk.new) Same }
    ensures cause { Counts (D.faults disk.old) (D.faults disk.new) (disk_failed result) }
{
    if is_in_work(alloc, disk, task, row)? {
        return Ok(Avail::Work);
    }
    if is_in_object(alloc, disk, setscene && task.sstate, row)? {
        return Ok(Avail::Object);
    }
    Ok(Avail::Missing)
}

/// How the output of a task, which has a row of its name, is there, where the row has its signature.
fn available_at<D: Disk>(
    alloc: Global,
    disk: &mut D,
    task: &PlanTask,
    row: &EquivRow,
    sig: &SigText,
    setscene: bool,
) -> Result<Avail, StoreFault>
    requires row { IsRow row.now }
    requires named { row.now.name ≡ text_name sig.now }
    ensures found { D.tells → IfOk result (IsThereAtAll task.now row.now setscene (D.story disk.old).held) }
    ensures clear { OnOk result (row.now.sig ≡ sig.now) }
    ensures refused { IfErr result (IsOtherOrOutside row.now sig.now) }
    ensures others { D.tells → Passes (D.story disk.old) (D.story disk.new) Same }
    ensures cause { Counts (D.faults disk.old) (D.faults disk.new) (store_failed result) }
{
    compare_row(alloc, row, sig)?;
    if task.nostamp {
        return Ok(Avail::Missing);
    }
    match available_by(alloc, disk, task, row, setscene) {
        Ok(there) => Ok(there),
        Err(DiskFault::Failed) => Err(StoreFault::Disk),
        Err(DiskFault::Memory) => Err(StoreFault::Memory),
    }
}

/// How the output of a task is there, by the row of its signature's name: in its work folder, else, where shared state objects count, as an object.
/// Nothing changes.
///
/// `Collision` comes exactly where that row has another signature.
pub fn available<D: Disk>(
    alloc: Global,
    disk: &mut D,
    index: &Index,
    task: &PlanTask,
    sig: &SigRecord,
    setscene: bool,
) -> Result<Avail, StoreFault>
    requires rows { AllByRecursion IsRow index.now }
    ensures found { D.tells → IfOk result (IsAvailable (D.story disk.old).held index.now setscene
        (signed_by task.now sig.now)) }
    ensures answered { IfOk result (IsAnswered index.now (signed_by task.now sig.now)) }
    ensures refused { IfErr result (IsClash index.now (name_of sig.now) (signature_bytes sig.now)) }
    ensures others { D.tells → Passes (D.story disk.old) (D.story disk.new) Same }
    ensures cause { Counts (D.faults disk.old) (D.faults disk.new) (store_failed result) }
{
    let own = name_of_sig(alloc, sig)?;
    match index.row(&own.name) {
        Some(row) => available_at(alloc, disk, task, row, &own.text, setscene),
        None => Ok(Avail::Missing),
    }
}
