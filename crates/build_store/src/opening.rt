// Opening a publication that is put in pieces.
ghost use Rattle.std.specs.Bool.{OnFalse};
ghost use Rattle.std.specs.Prelude.{◌≡◌, ◌⊎◌, ◌≤◌, ◌<◌, ◌+◌, ◌^◌, ◌++◌, ◌∷◌, [], List, ℕ, All, IfOk, IsTrue, None, OnOk, Some, if◌then◌else◌, is_none, length};
ghost use Rattle.tree_model.specs.Path.{BeginsWith, inside};
ghost use Rattle.tree_model.specs.Tree.{IsTree, entry_at};
ghost use Rattle.tree_model.specs.declared.entry.Entry.{Entry as AnEntry};
ghost use Rattle.tree_model.specs.declared.hash.Hash.{Hash as AHash};
ghost use Rattle.outside_traits.specs.Fault.{Counts, disk_failed};
ghost use Rattle.outside_traits.specs.Passes.{EachNow, IsBrief, Passes, Same};
ghost use Rattle.outside_traits.specs.Store.{IsOpen, slashes};
ghost use Rattle.stamp_store.specs.Stamp.{IsFolder, TakesAway, old_path};
ghost use Rattle.store_model.specs.Available.{object_folder};
ghost use Rattle.store_model.specs.Publication.{stamp_at, work_at, Publication};
ghost use Rattle.store_opening.specs.Named.{IsName};
ghost use Rattle.store_opening.specs.Paths.{IsLaidOut};
ghost use Rattle.build_store.specs.Calls.{Opens};
ghost use Rattle.build_store.specs.Drafts.{file_of};
ghost use Rattle.build_store.specs.Halves.{IsAside, IsHalf, IsOn};
ghost use Rattle.build_store.specs.declared.pieces.Reached.{Reached as AReached};
ghost use Rattle.build_store.specs.Items.{Item as AnItem};
ghost use Rattle.build_store.specs.Noting.{AreNoted};
ghost use Rattle.build_store.specs.OpenOnes.{AddsOwn, HasPlainName, IsAsideAt, IsFirst, IsFit, MakesRoom, NotesIn, extras, items_by, items_of, opened_by, progress_at, progress_of, put_by};
ghost use Rattle.build_store.specs.Phases.{put_of};
ghost use Rattle.build_store.specs.Pieces.{IsPublishing};
ghost use Rattle.build_store.specs.Publication.{AreShort};

use crate::drafting::Draft;
use crate::ending::take_ticket;
use crate::pieces::{OpenPublication, Reached, place_in};
use crate::places::{old_path, stamp_at};
use outside_traits::{Disk, DiskFault, clear_above};
use sstate_objects::object_folder;
use std::alloc::Global;
use store_opening::work_at;
use tree_model::{Hash, Mem, Text, Texts, Tree};

/// Puts the stamp of a folder aside, if one is held; each crash leaves it as it is held. Says whether one was.
///
/// No sync: a crash may leave the stamp in its place, until the rename to `tmp/old/` is durable.
fn put_aside<D: Disk>(alloc: Global, disk: &mut D, folder: &str) -> Result<bool, DiskFault>
    requires reach { 3600 ≤ D.reach }
    requires folder { IsFolder folder.now }
    requires parts { slashes folder.now ≡ 1 }
    requires laid_out { D.tells → IsLaidOut (D.story disk.old).held }
    requires settled { D.tells → EachNow (D.story disk.old)
        (λ image. image (stamp_at folder.now) ≡ (D.story disk.old).held (stamp_at folder.now)) }
    ensures none { D.tells → IfOk result (λ put. OnFalse put (EachNow (D.story disk.new)
        (λ image. image (stamp_at folder.now) ≡ None))) }
    ensures same { D.tells → IfOk result (λ put. OnFalse put (Passes (D.story disk.old) (D.story disk.new) Same)) }
    ensures gone { D.tells → OnOk result ((D.story disk.new).held (stamp_at folder.now) ≡ None) }
    ensures images { D.tells → Passes (D.story disk.old) (D.story disk.new) (TakesAway folder.now) }
    ensures brief { D.tells → IsBrief 2 (D.story disk.old) (D.story disk.new) }
    ensures cause { Counts (D.faults disk.old) (D.faults disk.new) (disk_failed result) }
{
    let path = stamp_at(alloc, folder)?;
    let aside = old_path(alloc, folder)?;
    if disk.read(alloc, path.as_str())?.is_none() {
        return Ok(false);
    }
    disk.rename(path.as_str(), aside.as_str())?;
    Ok(true)
}

/// Removes what stands at the object's folder or above it, if there is an object.
fn make_way_of_object<D: Disk>(
    alloc: Global,
    disk: &mut D,
    object: &Option<Hash>,
) -> Result<(), DiskFault>
    ensures free { D.tells → OnOk result ((unihash : AHash) → object.now ≡ Some unihash
        → IsOpen (object_folder unihash) (D.story disk.new).held) }
    ensures way { D.tells → (p : Publication) → p.object ≡ object.now
        → Passes (D.story disk.old) (D.story disk.new) (MakesRoom p (D.story disk.old).held) }
    ensures work { D.tells → (folder : List ℕ) → IsOpen (work_at folder) (D.story disk.old).held
        → IsOpen (work_at folder) (D.story disk.new).held }
    ensures brief { D.tells → HasPlainName object.now → IsBrief 4 (D.story disk.old) (D.story disk.new) }
    ensures cause { Counts (D.faults disk.old) (D.faults disk.new) (disk_failed result) }
{
    match object {
        Some(unihash) => {
            let folder = object_folder(alloc, unihash)?;
            clear_above(alloc, disk, folder.as_str())
        }
        None => Ok(()),
    }
}

/// Removes what stands at the two folders or above them.
fn make_way<D: Disk>(
    alloc: Global,
    disk: &mut D,
    folder: &str,
    object: &Option<Hash>,
) -> Result<(), DiskFault>
    ensures work { D.tells → OnOk result (IsOpen (work_at folder.now) (D.story disk.new).held) }
    ensures shared { D.tells → OnOk result ((unihash : AHash) → object.now ≡ Some unihash
        → IsOpen (object_folder unihash) (D.story disk.new).held) }
    ensures way { D.tells → (p : Publication) → p.folder ≡ folder.now → p.object ≡ object.now
        → Passes (D.story disk.old) (D.story disk.new) (MakesRoom p (D.story disk.old).held) }
    ensures brief { D.tells → slashes folder.now ≡ 1 → HasPlainName object.now → IsBrief 10 (D.story disk.old) (D.story disk.new) }
    ensures cause { Counts (D.faults disk.old) (D.faults disk.new) (disk_failed result) }
{
    let work = work_at(alloc, folder)?;
    clear_above(alloc, disk, work.as_str())?;
    make_way_of_object(alloc, disk, object)
}

/// Puts the stamp aside, or, where none is held, removes what is in the way of the two folders.
fn begin<D: Disk>(
    alloc: Global,
    disk: &mut D,
    folder: &str,
    object: &Option<Hash>,
) -> Result<Reached, DiskFault>
    requires reach { 3600 ≤ D.reach }
    requires folder { IsFolder folder.now }
    requires parts { slashes folder.now ≡ 1 }
    requires laid_out { D.tells → IsLaidOut (D.story disk.old).held }
    requires settled { D.tells → EachNow (D.story disk.old)
        (λ image. image (stamp_at folder.now) ≡ (D.story disk.old).held (stamp_at folder.now)) }
    ensures first { IfOk result IsFirst }
    ensures on { D.tells → IfOk result (λ now. (p : Publication) → p.folder ≡ folder.now → p.object ≡ object.now
        → IsTree p.tree → (items : List AnItem) → AreNoted p items (D.story disk.old).held
        → IsOn p (progress_at items now) (D.story disk.new)) }
    ensures noted { D.tells → (p : Publication) → p.folder ≡ folder.now → p.object ≡ object.now
        → (items : List AnItem) → AreNoted p items (D.story disk.old).held → AreNoted p items (D.story disk.new).held }
    ensures swept { D.tells → IfOk result (λ now. (D.story disk.old).held (old_path folder.now) ≡ None
        → IsAsideAt now ⊎ ((D.story disk.new).held (old_path folder.now) ≡ None)) }
    ensures opens { D.tells → (p : Publication) → p.folder ≡ folder.now → p.object ≡ object.now
        → Passes (D.story disk.old) (D.story disk.new) (Opens p (D.story disk.old).held) }
    ensures laid_out { D.tells → IsLaidOut (D.story disk.new).held }
    ensures brief { D.tells → HasPlainName object.now → IsBrief 12 (D.story disk.old) (D.story disk.new) }
    ensures cause { Counts (D.faults disk.old) (D.faults disk.new) (disk_failed result) }
{
    if put_aside(alloc, disk, folder)? {
        return Ok(Reached::Aside(take_ticket(disk)?));
    }
    make_way(alloc, disk, folder, object)?;
    Ok(Reached::Working(0))
}

/// Ends the ticket of a publication whose stamp was put aside: then no crash leaves it. Removes it there, and what is in the way of the two folders.
pub(crate) fn take_out<D: Disk>(
    alloc: Global,
    disk: &mut D,
    folder: &str,
    object: &Option<Hash>,
    ticket: u64,
    synced: bool,
) -> Result<(), DiskFault>
    requires parts { slashes folder.now ≡ 1 }
    requires laid_out { D.tells → IsLaidOut (D.story disk.old).held }
    requires at { D.tells → (p : Publication) × ((items : List AnItem) × (p.folder ≡ folder.now)
        × IsAside p ticket items (D.story disk.old)) }
    ensures half { D.tells → OnOk result ((p : Publication) → p.folder ≡ folder.now → p.object ≡ object.now
        → IsTree p.tree → (items : List AnItem) → IsAside p ticket items (D.story disk.old)
        → IsHalf p items (D.story disk.new)) }
    ensures swept { D.tells → OnOk result ((D.story disk.new).held (old_path folder.now) ≡ None) }
    ensures opens { D.tells → (p : Publication) → p.folder ≡ folder.now → p.object ≡ object.now
        → (items : List AnItem) → IsAside p ticket items (D.story disk.old)
        → Passes (D.story disk.old) (D.story disk.new) (Opens p (D.story disk.old).held) }
    ensures laid_out { D.tells → IsLaidOut (D.story disk.new).held }
    ensures brief { D.tells → HasPlainName object.now → IsBrief 12 (D.story disk.old) (D.story disk.new) }
    ensures cause { Counts (D.faults disk.old) (D.faults disk.new) (disk_failed result) }
{
    let aside = old_path(alloc, folder)?;
    disk.end_sync(ticket, synced)?;
    disk.remove(aside.as_str())?;
    make_way(alloc, disk, folder, object)
}

/// Whether the tree hasn't what stands behind the prefix of the path.
fn is_extra(tree: &Tree, prefix: &str, path: &str) -> bool
    ensures { (rest : List ℕ) → path.now ≡ prefix.now ++ rest → result ≡ is_none (entry_at tree.now rest) }
{
    match path.strip_prefix(prefix) {
        Some(rest) => tree.get(rest).is_none(),
        None => true,
    }
}

/// Adds the path, where the tree hasn't what stands behind the prefix.
fn note_path(tree: &Tree, prefix: &str, path: &Text, extra: &mut Texts) -> Result<(), Mem>
    ensures { (rest : List ℕ) → path.now ≡ prefix.now ++ rest
        → OnOk result (extra.new ≡ extra.old ++ (if is_none (entry_at tree.now rest) then path.now ∷ [] else [])) }
{
    if is_extra(tree, prefix, path.as_str()) {
        return extra.push(path.copy()?);
    }
    Ok(())
}

/// Adds those of the paths that the tree hasn't, by what stands behind the prefix.
fn note_extra(tree: &Tree, prefix: &str, paths: &[Text], extra: &mut Texts) -> Result<(), Mem>
    ensures { All (BeginsWith prefix.now) paths.now
        → OnOk result (extra.new ≡ extra.old ++ extras prefix.now tree.now paths.now) }
{
    for path in paths.iter() {
        note_path(tree, prefix, path, extra)?;
    }
    Ok(())
}

/// Adds the paths that are held under a folder and that the tree hasn't.
fn note_in<D: Disk>(
    alloc: Global,
    disk: &mut D,
    folder: &str,
    tree: &Tree,
    extra: &mut Texts,
) -> Result<(), DiskFault>
    ensures noted { D.tells → OnOk result (NotesIn folder.now tree.now (D.story disk.old).held extra.old extra.new) }
    ensures same { D.tells → Passes (D.story disk.old) (D.story disk.new) Same }
    ensures brief { D.tells → IsBrief 1 (D.story disk.old) (D.story disk.new) }
    ensures cause { Counts (D.faults disk.old) (D.faults disk.new) (disk_failed result) }
{
    let prefix = place_in(alloc, folder, "")?;
    let paths = disk.list(alloc, prefix.as_str())?;
    note_extra(tree, prefix.as_str(), paths.as_slice(), extra)?;
    Ok(())
}

/// Adds the paths that are held under the object's folder and that the tree hasn't, if there is an object.
fn note_object<D: Disk>(
    alloc: Global,
    disk: &mut D,
    object: &Option<Hash>,
    tree: &Tree,
    extra: &mut Texts,
) -> Result<(), DiskFault>
    ensures none { OnOk result (object.now ≡ None → extra.new ≡ extra.old) }
    ensures noted { D.tells → OnOk result ((unihash : AHash) → object.now ≡ Some unihash
        → NotesIn (object_folder unihash) tree.now (D.story disk.old).held extra.old extra.new) }
    ensures same { D.tells → Passes (D.story disk.old) (D.story disk.new) Same }
    ensures brief { D.tells → IsBrief 1 (D.story disk.old) (D.story disk.new) }
    ensures cause { Counts (D.faults disk.old) (D.faults disk.new) (disk_failed result) }
{
    match object {
        Some(unihash) => {
            let folder = object_folder(alloc, unihash)?;
            note_in(alloc, disk, folder.as_str(), tree, extra)
        }
        None => Ok(()),
    }
}

/// The paths that are held under the two folders and that the tree hasn't. Two listings, and nothing else.
fn note<D: Disk>(
    alloc: Global,
    disk: &mut D,
    folder: &str,
    object: &Option<Hash>,
    tree: &Tree,
) -> Result<Texts, DiskFault>
    ensures noted { D.tells → IfOk result (λ extra. (p : Publication) → p.folder ≡ folder.now → p.object ≡ object.now
        → p.tree ≡ tree.now → AreNoted p (items_by p extra) (D.story disk.new).held) }
    ensures same { D.tells → Passes (D.story disk.old) (D.story disk.new) Same }
    ensures brief { D.tells → IsBrief 2 (D.story disk.old) (D.story disk.new) }
    ensures cause { Counts (D.faults disk.old) (D.faults disk.new) (disk_failed result) }
{
    let mut extra = Texts::new(alloc);
    let work = work_at(alloc, folder)?;
    note_in(alloc, disk, work.as_str(), tree, &mut extra)?;
    note_object(alloc, disk, object, tree, &mut extra)?;
    Ok(extra)
}

/// Whether a machine's number counts so many paths, and each entry twice.
fn are_few(paths: usize, entries: usize) -> bool
    ensures { IsTrue result → paths + (entries + entries) < 2 ^ 64 }
{
    match entries.checked_add(entries) {
        Some(both) => paths.checked_add(both).is_some(),
        None => false,
    }
}

/// The paths that are held under the two folders and that the tree hasn't, where a machine's number counts all items.
fn note_few<D: Disk>(
    alloc: Global,
    disk: &mut D,
    folder: &str,
    object: &Option<Hash>,
    tree: &Tree,
) -> Result<Texts, DiskFault>
    ensures few { IfOk result (λ extra. length extra + (length tree.now + length tree.now) < 2 ^ 64) }
    ensures noted { D.tells → IfOk result (λ extra. (p : Publication) → p.folder ≡ folder.now → p.object ≡ object.now
        → p.tree ≡ tree.now → AreNoted p (items_by p extra) (D.story disk.new).held) }
    ensures same { D.tells → Passes (D.story disk.old) (D.story disk.new) Same }
    ensures brief { D.tells → IsBrief 2 (D.story disk.old) (D.story disk.new) }
    ensures cause { Counts (D.faults disk.old) (D.faults disk.new) (disk_failed result) }
{
    let extra = note(alloc, disk, folder, object, tree)?;
    if are_few(extra.len(), tree.entries().len()) {
        return Ok(extra);
    }
    Err(DiskFault::Memory)
}

/// What a draft says, in pieces.
fn opened_by(
    folder: Text,
    object: Option<Hash>,
    draft: Draft,
    tree: Tree,
    extra: Texts,
    reached: Reached,
) -> OpenPublication
    ensures { result ≡ opened_by folder object draft tree extra reached }
{
    let Draft {
        name,
        text,
        unihash,
        new,
    } = draft;
    OpenPublication {
        folder,
        name,
        sig: text,
        tree,
        unihash,
        object,
        new,
        extra,
        reached,
    }
}

/// Opens a publication: its items are noted, by what is listed of its two folders, and its stamp is put aside; where none is held, what is in the way of
/// the folders goes. No sync.
///
/// Each crash is known to leave the folder's stamp as it is held.
pub(crate) fn open_publication<D: Disk>(
    alloc: Global,
    disk: &mut D,
    folder: Text,
    object: Option<Hash>,
    draft: Draft,
    tree: Tree,
) -> Result<OpenPublication, DiskFault>
    requires reach { 3600 ≤ D.reach }
    requires folder { IsFolder folder }
    requires parts { slashes folder ≡ 1 }
    requires name { IsName draft.name }
    requires object { (unihash : AHash) → object ≡ Some unihash → IsName unihash }
    requires short { AreShort tree }
    requires laid_out { D.tells → IsLaidOut (D.story disk.old).held }
    requires settled { D.tells → EachNow (D.story disk.old)
        (λ image. image (stamp_at folder) ≡ (D.story disk.old).held (stamp_at folder)) }
    ensures parts { IfOk result (λ one. (extra : List (List ℕ)) × ((now : AReached) × IsFirst now
        × (one ≡ opened_by folder object draft tree extra now))) }
    ensures fit { IfOk result IsFit }
    ensures noted { D.tells → IfOk result (λ one. (f : AnEntry) → AreNoted (put_by one f) (items_of one) (D.story disk.new).held) }
    ensures opened { D.tells → IfOk result (λ one. (f : AnEntry) → IsOn (put_by one f) (progress_of one) (D.story disk.new)) }
    ensures swept { D.tells → IfOk result (λ one. AddsOwn one (D.story disk.old).held (D.story disk.new).held) }
    ensures opens { D.tells → (f : AnEntry) → Passes (D.story disk.old) (D.story disk.new)
        (Opens (put_of folder draft.name tree object (file_of draft.new) f draft.text) (D.story disk.old).held) }
    ensures publishing { D.tells → (f : AnEntry) → Passes (D.story disk.old) (D.story disk.new)
        (IsPublishing (put_of folder draft.name tree object (file_of draft.new) f draft.text) (D.story disk.old).held) }
    ensures laid_out { D.tells → IsLaidOut (D.story disk.new).held }
    ensures brief { D.tells → IsBrief 14 (D.story disk.old) (D.story disk.new) }
    ensures cause { Counts (D.faults disk.old) (D.faults disk.new) (disk_failed result) }
{
    let _entries = tree.entries();
    let extra = note_few(alloc, disk, folder.as_str(), &object, &tree)?;
    let reached = begin(alloc, disk, folder.as_str(), &object)?;
    Ok(opened_by(folder, object, draft, tree, extra, reached))
}
