// Stamps that say the names of records that were moved.
ghost use Rattle.std.specs.Prelude.{◌≡◌, ◌≤◌, ◌↔◌, ◌++◌, ◌∷◌, [], IfNone, IfOk, IfSome, IsSome, IsTrue, List, OnOk, Some, bytes_eq, codes, length, ℕ};
ghost use Rattle.std.specs.Map.{lookup};
ghost use Rattle.std.specs.Option.{option_or};
ghost use Rattle.tree_model.specs.declared.hash.Hash.{Hash as AHash};
ghost use Rattle.tree_model.specs.Hash.{IsHash, hash_text};
ghost use Rattle.outside_traits.specs.Answers.{IsSettled};
ghost use Rattle.outside_traits.specs.Fault.{Counts, disk_failed};
ghost use Rattle.outside_traits.specs.Passes.{EachNow, Passes, Same};
ghost use Rattle.outside_traits.specs.Store.{slashes};
ghost use Rattle.stamp_store.specs.Stamp.{IsFolder, stamp_bytes, stamp_of, stamp_path, staged_path};
ghost use Rattle.store_opening.specs.Paths.{IsLaidOut};
ghost use Rattle.store_upgrade.specs.Stamps.{AreRenewed, IsRenewedAt, TakesRenewed, renewed};
ghost use Rattle.store_upgrade.specs.Steps.{AreFolders, AreHeld, AreStagedStamps, AreStamped, HaveOneName, PutsOne, PutsStamps, Within};

use crate::calls::{known, put_staged};
use indexmap::IndexMap;
use outside_traits::{Disk, DiskFault};
use record_move::MovedRecord;
use stamp_store::stage;
use std::alloc::Global;
use std::str;
use store_opening::read_under;
use tree_model::{Entry, Hash, Mem, Text, is_clean};

/// The most bytes of a folder whose stamp is renewed: two parts of a path and the slash between them.
const MAX_FOLDER: usize = 511;

/// Notes the name that stands for a moved record, where there is none for its old name.
fn note_name(names: &mut IndexMap<[u8; 32], Hash>, moved: &MovedRecord) -> Result<(), Mem>
    ensures { OnOk result ((q : AHash) → lookup (bytes_eq q.bytes) names.new.entries
        ≡ option_or (lookup (bytes_eq q.bytes) names.old.entries) (renewed (moved.now ∷ []) q)) }
{
    if names.contains_key(&moved.old_name.bytes) {
        return Ok(());
    }
    names.insert(moved.old_name.bytes, moved.name)?;
    Ok(())
}

/// The names that stand for the old ones of moved records.
fn names_of(alloc: Global, moved: &[MovedRecord]) -> Result<IndexMap<[u8; 32], Hash>, Mem>
    ensures { IfOk result (λ names. (q : AHash) → lookup (bytes_eq q.bytes) names.entries ≡ renewed moved.now q) }
{
    let mut names = IndexMap::new(alloc);
    for one in moved {
        note_name(&mut names, one)?;
    }
    Ok(names)
}

/// The hash that a file says which is a stamp: 64 lower-case hexadecimal digits and a newline; it can't be executed.
fn stamp_name(entry: &Entry) -> Option<Hash>
    ensures some { IfSome result (λ name. IsHash name × (entry.now ≡ stamp_of name)) }
    ensures none { IfNone result ((name : AHash) → IsHash name → entry.now ≡ stamp_of name → ⊥) }
{
    match entry {
        Entry::File { exec: false, bytes } => name_in(bytes.as_slice()),
        Entry::File {
            exec: true,
            bytes: _,
        } => None,
        Entry::Link { target: _ } => None,
    }
}

/// The hash whose digits the bytes are, with a newline behind them.
fn name_in(bytes: &[u8]) -> Option<Hash>
    ensures some { IfSome result (λ name. IsHash name × (bytes.now ≡ stamp_bytes name)) }
    ensures none { IfNone result ((name : AHash) → IsHash name → bytes.now ≡ stamp_bytes name → ⊥) }
{
    let Some((last, digits)) = bytes.split_last() else {
        return None;
    };
    if *last != b'\n' {
        return None;
    }
    name_by(digits)
}

/// The hash whose digits the bytes are.
fn name_by(digits: &[u8]) -> Option<Hash>
    ensures some { IfSome result (λ name. IsHash name × (digits.now ≡ hash_text name)) }
    ensures none { IfNone result ((name : AHash) → IsHash name → digits.now ≡ hash_text name → ⊥) }
{
    match str::from_utf8(digits) {
        Ok(text) => name_of(text),
        Err(_) => None,
    }
}

/// The hash with this text.
fn name_of(text: &str) -> Option<Hash>
    ensures some { IfSome result (λ name. IsHash name × (text.now ≡ hash_text name)) }
    ensures none { IfNone result ((name : AHash) → IsHash name → text.now ≡ hash_text name → ⊥) }
{
    match Hash::read(text) {
        Some(name) => {
            known(name.bytes);
            Some(name)
        }
        None => None,
    }
}

/// Whether a folder is two parts of a path that a stamp can be renewed of.
fn is_folder(folder: &str) -> bool
    ensures { IsTrue result ↔ (IsFolder folder.now × (slashes folder.now ≡ 1)) }
{
    let bytes = folder.as_bytes();
    let mut slashes: usize = 0;
    for byte in bytes {
        if *byte == b'/' {
            slashes += 1;
        }
    }
    slashes == 1 && bytes.len() <= MAX_FOLDER && is_clean(folder)
}

/// The new name that the stamp at a path is to say, if it is to be renewed.
fn renewal(names: &IndexMap<[u8; 32], Hash>, entry: &Entry) -> Option<Hash>
    ensures some { IfSome result (λ name. (old : AHash) × IsHash old × (entry.now ≡ stamp_of old) × (lookup (bytes_eq old.bytes) names.now.entries ≡ Some name)) }
    ensures none { IfNone result ((old name : AHash) → IsHash old → entry.now ≡ stamp_of old → lookup (bytes_eq old.bytes) names.now.entries ≡ Some name → ⊥) }
{
    let old = stamp_name(entry)?;
    match names.get(&old.bytes) {
        Some(name) => Some(*name),
        None => None,
    }
}

/// The folder whose stamp stands at a path.
fn folder_in(path: &str) -> Option<&str>
    ensures some { IfSome result (λ folder. path.now ≡ stamp_path folder.now) }
    ensures none { IfNone result ((folder : List ℕ) → path.now ≡ stamp_path folder → ⊥) }
{
    path.strip_prefix("stamp/")
}

/// Puts the folder of a stamp with its new name to those that are renewed, if this is.
fn put_renewed(
    alloc: Global,
    names: &IndexMap<[u8; 32], Hash>,
    file: &(Text, Entry),
    found: &mut Vec<(Text, Hash)>,
) -> Result<(), Mem>
    ensures takes { OnOk result (TakesRenewed names.now.entries file.now found.old.items found.new.items) }
    ensures folders { AreFolders found.old.items → OnOk result (AreFolders found.new.items) }
{
    let Some(folder) = folder_in(file.0.as_str()) else {
        return Ok(());
    };
    if !is_folder(folder) {
        return Ok(());
    }
    match renewal(names, &file.1) {
        Some(name) => Ok(found.push((Text::from_str(alloc, folder)?, name))?),
        None => Ok(()),
    }
}

/// The folders of these stamps that are to be renewed, and what each is to say.
fn renewed_among(
    alloc: Global,
    names: &IndexMap<[u8; 32], Hash>,
    files: &[(Text, Entry)],
) -> Result<Vec<(Text, Hash)>, Mem>
    ensures at { IfOk result (λ found. IsRenewedAt names.now.entries files.now found.items) }
    ensures folders { IfOk result (λ found. AreFolders found.items) }
{
    let mut found = Vec::new(alloc);
    for file in files {
        put_renewed(alloc, names, file, &mut found)?;
    }
    Ok(found)
}

/// Reads the stamps, and finds those that say the old names of moved records.
pub(crate) fn find_renewed<D: Disk>(
    alloc: Global,
    disk: &mut D,
    moved: &[MovedRecord],
) -> Result<Vec<(Text, Hash)>, DiskFault>
    ensures folders { IfOk result (λ stamps. AreFolders stamps.items) }
    ensures renewed { D.tells → IfOk result (λ stamps. AreRenewed (D.story disk.old).held moved.now stamps.items) }
    ensures others { D.tells → Passes (D.story disk.old) (D.story disk.new) Same }
    ensures cause { Counts (D.faults disk.old) (D.faults disk.new) (disk_failed result) }
{
    let names = names_of(alloc, moved)?;
    let files = read_under(alloc, disk, "stamp/")?;
    Ok(renewed_among(alloc, &names, &files)?)
}

/// Writes stamps where they are written first. They are to be synced before they are put.
pub(crate) fn stage_stamps<D: Disk>(
    alloc: Global,
    disk: &mut D,
    stamps: &[(Text, Hash)],
) -> Result<(), DiskFault>
    requires reach { 3600 ≤ D.reach }
    requires laid { D.tells → IsLaidOut (D.story disk.old).held }
    requires folders { AreFolders stamps.now }
    requires names { D.tells → HaveOneName stamps.now }
    ensures staged { D.tells → OnOk result (AreStagedStamps stamps.now (D.story disk.new).held) }
    ensures laid { D.tells → OnOk result (IsLaidOut (D.story disk.new).held) }
    ensures within { D.tells → Passes (D.story disk.old) (D.story disk.new) (Within (codes "tmp")) }
    ensures cause { Counts (D.faults disk.old) (D.faults disk.new) (disk_failed result) }
{
    for stamp in stamps {
        stage(alloc, disk, stamp.0.as_str(), &stamp.1)?;
    }
    Ok(())
}

/// Two texts side by side.
fn joined(alloc: Global, front: &str, back: &str) -> Result<Text, Mem>
    ensures { IfOk result (λ whole. whole ≡ front.now ++ back.now) }
{
    let mut whole = Text::from_str(alloc, front)?;
    whole.push_str(back)?;
    Ok(whole)
}

/// Renames a stamp to its place, if it is held where it was written first.
fn put_stamp<D: Disk>(alloc: Global, disk: &mut D, folder: &str) -> Result<(), DiskFault>
    requires reach { 3600 ≤ D.reach }
    requires folder { IsFolder folder.now }
    requires settled { D.tells → IsSome ((D.story disk.old).held (staged_path folder.now)) → IsSettled (staged_path folder.now) (D.story disk.old) }
    requires held { D.tells → IsSome ((D.story disk.old).held (stamp_path folder.now)) }
    requires laid { D.tells → IsLaidOut (D.story disk.old).held }
    ensures puts { D.tells → PutsOne (staged_path folder.now) (stamp_path folder.now) (D.story disk.old) (D.story disk.new) result }
    ensures laid { D.tells → OnOk result (IsLaidOut (D.story disk.new).held) }
    ensures cause { Counts (D.faults disk.old) (D.faults disk.new) (disk_failed result) }
{
    let from = joined(alloc, "tmp/stamp/", folder)?;
    let to = joined(alloc, "stamp/", folder)?;
    put_staged(alloc, disk, from.as_str(), to.as_str())
}

/// Renames stamps to their places. They are synced where they were written first.
pub(crate) fn put_stamps<D: Disk>(
    alloc: Global,
    disk: &mut D,
    stamps: &[(Text, Hash)],
) -> Result<(), DiskFault>
    requires reach { 3600 ≤ D.reach }
    requires laid { D.tells → IsLaidOut (D.story disk.old).held }
    requires folders { AreFolders stamps.now }
    requires names { D.tells → HaveOneName stamps.now }
    requires held { D.tells → AreHeld stamps.now (D.story disk.old).held }
    requires staged { D.tells → AreStagedStamps stamps.now (D.story disk.old).held }
    requires durable { D.tells → EachNow (D.story disk.old) (λ image. image ≡ (D.story disk.old).held) }
    ensures stamped { D.tells → OnOk result (AreStamped stamps.now (D.story disk.new).held) }
    ensures laid { D.tells → OnOk result (IsLaidOut (D.story disk.new).held) }
    ensures puts { D.tells → Passes (D.story disk.old) (D.story disk.new) (PutsStamps stamps.now) }
    ensures cause { Counts (D.faults disk.old) (D.faults disk.new) (disk_failed result) }
{
    for stamp in stamps {
        put_stamp(alloc, disk, stamp.0.as_str())?;
    }
    Ok(())
}
