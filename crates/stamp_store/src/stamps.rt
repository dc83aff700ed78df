// Stamps on a disk.
ghost use Rattle.std.specs.Prelude.{◌≡◌, ◌≤◌, ◌++◌, ◌∷◌, [], IfNone, IfOk, IfSome, None, OnOk, Some, length};
ghost use Rattle.tree_model.specs.declared.hash.Hash.{Hash as AHash};
ghost use Rattle.tree_model.specs.Hash.{IsHash, hash_text};
ghost use Rattle.outside_traits.specs.Answers.{IsSettled};
ghost use Rattle.outside_traits.specs.Fault.{Counts, disk_failed};
ghost use Rattle.outside_traits.specs.Passes.{EachNow, IsBrief, Passes, Same};
ghost use Rattle.outside_traits.specs.Store.{ChangesAt, IsFree, Moves, put};
ghost use Rattle.stamp_store.specs.Stamp.{IsCurrent, IsFolder, TakesAway, old_path, stamp_bytes, stamp_of, stamp_path, staged_path};

use outside_traits::{Disk, DiskFault};
use std::alloc::Global;
use std::str;
use tree_model::{Bytes, Entry, Hash, Mem, Text};

/// Takes the stamp of a folder away, where one is held. After Ok no image has a stamp there.
///
/// It syncs, renames the stamp to `tmp/old/` and the folder, syncs, and removes it there, which no sync follows. Whatever
/// it answers, in each image since its entry the stamp's path holds what it held in an image at the entry, or nothing.
/// (Own rule.)
pub fn invalidate<D: Disk>(alloc: Global, disk: &mut D, folder: &str) -> Result<(), DiskFault>
    requires reach { 3600 ≤ D.reach }
    requires folder { IsFolder folder.now }
    requires free { D.tells → IsFree (D.story disk.old).held (old_path folder.now) }
    ensures gone { D.tells → OnOk result (EachNow (D.story disk.new) (λ image. image (stamp_path folder.now) ≡ None)) }
    ensures synced { D.tells → OnOk result (EachNow (D.story disk.new)
        (ChangesAt (old_path folder.now) (D.story disk.new).held)) }
    ensures swept { D.tells → OnOk result ((D.story disk.old).held (old_path folder.now) ≡ None
        → (D.story disk.new).held (old_path folder.now) ≡ None) }

    // Whatever it answers.
    ensures images { D.tells → Passes (D.story disk.old) (D.story disk.new) (TakesAway folder.now) }
    ensures cause { Counts (D.faults disk.old) (D.faults disk.new) (disk_failed result) }
{
    let path = join_texts(alloc, "stamp/", folder)?;
    let aside = join_texts(alloc, "tmp/old/", folder)?;
    if disk.read(alloc, path.as_str())?.is_none() {
        return disk.sync();
    }
    disk.sync()?;
    disk.rename(path.as_str(), aside.as_str())?;
    disk.sync()?;
    disk.remove(aside.as_str())
}

/// Writes the stamp that names a record to `tmp/stamp/` and the folder. It is to be synced before it is renamed.
/// (Own rule.)
pub fn stage<D: Disk>(
    alloc: Global,
    disk: &mut D,
    folder: &str,
    name: &Hash,
) -> Result<(), DiskFault>
    requires reach { 3600 ≤ D.reach }
    requires folder { IsFolder folder.now }
    requires free { D.tells → IsFree (D.story disk.old).held (staged_path folder.now) }
    ensures staged { D.tells → OnOk result ((D.story disk.new).held
        ≡ put (D.story disk.old).held (staged_path folder.now) (Some (stamp_of name.now))) }

    // Whatever it answers.
    ensures images { D.tells → Passes (D.story disk.old) (D.story disk.new) (ChangesAt (staged_path folder.now)) }
    ensures brief { D.tells → IsBrief 1 (D.story disk.old) (D.story disk.new) }
    ensures cause { Counts (D.faults disk.old) (D.faults disk.new) (disk_failed result) }
{
    let path = join_texts(alloc, "tmp/stamp/", folder)?;
    let entry = stamp_entry(alloc, name)?;
    disk.write(path.as_str(), &entry)
}

/// Renames the staged stamp of a folder to its place, and syncs. After Ok each image has it.
///
/// The stamp has to be staged and synced. Whatever it answers, in each image since its entry the stamp's path holds
/// what it held in an image at the entry, or the whole staged stamp. (Own rule.)
pub fn stamp<D: Disk>(alloc: Global, disk: &mut D, folder: &str) -> Result<(), DiskFault>
    requires reach { 3600 ≤ D.reach }
    requires folder { IsFolder folder.now }
    requires staged { D.tells → IsSettled (staged_path folder.now) (D.story disk.old) }
    requires free { D.tells → IsFree (D.story disk.old).held (stamp_path folder.now) }
    ensures stamped { D.tells → OnOk result (EachNow (D.story disk.new)
        (λ image. image (stamp_path folder.now) ≡ (D.story disk.old).held (staged_path folder.now))) }
    ensures synced { D.tells → OnOk result (EachNow (D.story disk.new) (λ image. image ≡ (D.story disk.new).held)) }
    ensures swept { D.tells → OnOk result ((D.story disk.new).held (staged_path folder.now) ≡ None) }

    // Whatever it answers.
    ensures images { D.tells → Passes (D.story disk.old) (D.story disk.new)
        (Moves (staged_path folder.now) (stamp_path folder.now) ((D.story disk.old).held (staged_path folder.now))) }
    ensures cause { Counts (D.faults disk.old) (D.faults disk.new) (disk_failed result) }
{
    let from = join_texts(alloc, "tmp/stamp/", folder)?;
    let to = join_texts(alloc, "stamp/", folder)?;
    disk.rename(from.as_str(), to.as_str())?;
    disk.sync()
}

/// The hash in the stamp of a folder: `None` exactly where no file with 64 lower-case hexadecimal digits and a newline
/// is held. Nothing changes. (Own rule.)
pub fn current<D: Disk>(
    alloc: Global,
    disk: &mut D,
    folder: &str,
) -> Result<Option<Hash>, DiskFault>
    ensures found { D.tells → IfOk result (λ found. IsCurrent ((D.story disk.old).held (stamp_path folder.now)) found) }

    // Whatever it answers.
    ensures images { D.tells → Passes (D.story disk.old) (D.story disk.new) Same }
    ensures cause { Counts (D.faults disk.old) (D.faults disk.new) (disk_failed result) }
{
    let path = join_texts(alloc, "stamp/", folder)?;
    match disk.read(alloc, path.as_str())? {
        Some(entry) => Ok(hash_of(&entry)),
        None => Ok(None),
    }
}

/// Two texts side by side.
fn join_texts(alloc: Global, front: &str, back: &str) -> Result<Text, Mem>
    ensures { IfOk result (λ whole. whole ≡ front.now ++ back.now) }
{
    let mut whole = Text::from_str(alloc, front)?;
    whole.push_str(back)?;
    Ok(whole)
}

/// The stamp that names a record.
fn stamp_entry(alloc: Global, name: &Hash) -> Result<Entry, Mem>
    ensures { IfOk result (λ entry. entry ≡ stamp_of name.now) }
{
    let mut text = name.text(alloc)?;
    text.push_str("\n")?;
    Ok(Entry::File {
        exec: false,
        bytes: Bytes::from_slice(alloc, text.as_str().as_bytes())?,
    })
}

/// The hash in a stamp.
fn hash_of(entry: &Entry) -> Option<Hash>
    ensures { IsCurrent (Some entry.now) result }
{
    match entry {
        Entry::File { exec: _, bytes } => hash_in(bytes.as_slice()),
        Entry::Link { target: _ } => None,
    }
}

/// The hash whose digits the bytes are, with a newline behind them.
fn hash_in(bytes: &[u8]) -> Option<Hash>
    ensures some { IfSome result (λ hash. bytes.now ≡ stamp_bytes hash) }
    ensures none { IfNone result ((hash : AHash) → IsHash hash → bytes.now ≡ stamp_bytes hash → ⊥) }
{
    let Some((last, digits)) = bytes.split_last() else {
        return None;
    };
    if *last != b'\n' {
        return None;
    }
    hash_by(digits)
}

/// The hash whose digits the bytes are.
fn hash_by(digits: &[u8]) -> Option<Hash>
    ensures some { IfSome result (λ hash. digits.now ≡ hash_text hash) }
    ensures none { IfNone result ((hash : AHash) → IsHash hash → digits.now ≡ hash_text hash → ⊥) }
{
    match str::from_utf8(digits) {
        Ok(text) => Hash::read(text),
        Err(_) => None,
    }
}
