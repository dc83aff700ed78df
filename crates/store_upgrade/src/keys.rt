// The keys of records that are added.
ghost use Rattle.std.specs.Prelude.{◌≡◌, ◌≤◌, IfOk, IfErr, List, OnOk, Some, Contains, false, ℕ};
ghost use Rattle.outside_traits.specs.Fault.{Counts, disk_failed};
ghost use Rattle.outside_traits.specs.Passes.{Passes};
ghost use Rattle.outside_traits.specs.Store.{PutsEntry};
ghost use Rattle.record_move.specs.Known.{digest, key_named};
ghost use Rattle.store_model.specs.Paths.{key_path};
ghost use Rattle.store_model.specs.Spelling.{key_name};
ghost use Rattle.store_opening.specs.Paths.{IsLaidOut};
ghost use Rattle.tree_model.specs.declared.entry.Entry.TheVariants.{File};
ghost use Rattle.store_upgrade.specs.Faults.{IsDigestClash};
ghost use Rattle.store_upgrade.specs.Steps.{HoldsKeys, KeysDiffer, PutsKeys, key_of};

use outside_traits::{Disk, DiskFault, put_entry};
use record_move::{AddedRecord, KnownKeys, MoveFault};
use sig_gen::encode_key;
use std::alloc::Global;
use tree_model::{Entry, Hash, Mem, Text};

/// Where a key stands.
fn key_path(alloc: Global, name: &Hash) -> Result<Text, Mem>
    ensures { IfOk result (λ path. path ≡ key_path name.now) }
{
    let mut path = Text::from_str(alloc, "key/")?;
    path.push_str(name.text(alloc)?.as_str())?;
    Ok(path)
}

/// Knows the bytes of a file that can't be executed.
fn know_file(keys: &mut KnownKeys, entry: &Entry) -> Result<(), MoveFault>
    ensures known { OnOk result ((bytes : List ℕ) → entry.now ≡ File false bytes → key_named keys.new (digest bytes) ≡ Some bytes) }
    ensures kept { OnOk result ((bytes : List ℕ) → key_named keys.old (digest bytes) ≡ Some bytes → key_named keys.new (digest bytes) ≡ Some bytes) }
    ensures err { IfErr result IsDigestClash }
{
    match entry {
        Entry::File { exec: false, bytes } => keys.add(bytes.copy()?),
        Entry::File {
            exec: true,
            bytes: _,
        } => Ok(()),
        Entry::Link { target: _ } => Ok(()),
    }
}

/// The bytes of the files under `key/`, by their digests: keys, and what else stands there.
pub(crate) fn known_keys(alloc: Global, files: &[(Text, Entry)]) -> Result<KnownKeys, MoveFault>
    ensures known { IfOk result (λ keys. (path bytes : List ℕ) → Contains files.now (path, File false bytes) → key_named keys (digest bytes) ≡ Some bytes) }
    ensures err { IfErr result IsDigestClash }
{
    let mut keys = KnownKeys::new(alloc);
    for file in files {
        know_file(&mut keys, &file.1)?;
    }
    Ok(keys)
}

/// Writes the key of a record to its place, unless it is held there.
fn put_key<D: Disk>(alloc: Global, disk: &mut D, added: &AddedRecord) -> Result<(), DiskFault>
    requires reach { 3600 ≤ D.reach }
    requires laid { D.tells → IsLaidOut (D.story disk.old).held }
    ensures held { D.tells → OnOk result ((D.story disk.new).held (key_path (key_name added.now.stored.sig.key)) ≡ Some (key_of added.now)) }
    ensures laid { D.tells → OnOk result (IsLaidOut (D.story disk.new).held) }
    ensures puts { D.tells → Passes (D.story disk.old) (D.story disk.new)
        (PutsEntry (key_path (key_name added.now.stored.sig.key)) (key_of added.now) (D.story disk.old).held) }
    ensures cause { Counts (D.faults disk.old) (D.faults disk.new) (disk_failed result) }
{
    let bytes = encode_key(alloc, &added.stored.sig.key)?;
    let path = key_path(alloc, &Hash::of(bytes.as_slice()))?;
    let entry = Entry::File { exec: false, bytes };
    put_entry(alloc, disk, path.as_str(), &entry, true)
}

/// Writes the keys of these records to their places, but for those that are held there.
pub fn put_keys<D: Disk>(
    alloc: Global,
    disk: &mut D,
    added: &[AddedRecord],
) -> Result<(), DiskFault>
    requires reach { 3600 ≤ D.reach }
    requires laid { D.tells → IsLaidOut (D.story disk.old).held }
    ensures held { D.tells → OnOk result (KeysDiffer added.now → HoldsKeys added.now (D.story disk.new).held) }
    ensures laid { D.tells → OnOk result (IsLaidOut (D.story disk.new).held) }
    ensures puts { D.tells → Passes (D.story disk.old) (D.story disk.new) (PutsKeys added.now (D.story disk.old).held) }
    ensures cause { Counts (D.faults disk.old) (D.faults disk.new) (disk_failed result) }
{
    for one in added {
        put_key(alloc, disk, one)?;
    }
    Ok(())
}
