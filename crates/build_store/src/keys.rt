// Keys of signatures: which are known, and how one is put.
ghost use Rattle.std.specs.Prelude.{◌≡◌, ◌≤◌, ◌<◌, List, OnErr, OnOk, IfOk, Some, false, length, ℕ};
ghost use Rattle.tree_model.specs.declared.entry.Entry.TheVariants.{File};
ghost use Rattle.outside_traits.specs.Fault.{Counts, disk_failed};
ghost use Rattle.outside_traits.specs.Passes.{IsBrief, Passes};
ghost use Rattle.outside_traits.specs.Store.{ChangesAt};
ghost use Rattle.store_model.specs.Paths.{key_path};
ghost use Rattle.store_model.specs.Spelling.{key_part};
ghost use Rattle.store_opening.specs.Named.{IsName};
ghost use Rattle.store_opening.specs.Paths.{IsLaidOut};
ghost use Rattle.record_move.specs.Known.{key_named};
ghost use Rattle.build_store.specs.Keys.{AreOfRows, HoldsKeyOf, HoldsKeys, KnowsKeyOf, KnowsRowAt, KnowsRows, PutsKey, keys_behind, text_key};

use crate::places::key_path;
use hash_equiv::Index;
use outside_traits::{Disk, DiskFault};
use record_move::KnownKeys;
use std::alloc::Global;
use store_model::SigText;
use tree_model::{Bytes, Entry, Hash, Mem};

/// Knows a key, where no other one of its name is known.
fn know(alloc: Global, keys: &mut KnownKeys, sig: &SigText) -> Result<(), Mem>
    ensures knows { OnOk result (KnowsKeyOf keys.new sig.now) }
    ensures behind { OnOk result (keys.new ≡ keys_behind keys.old sig.now) }
    ensures same { OnErr result (keys.new ≡ keys.old) }
{
    match keys.add(Bytes::from_slice(alloc, sig.key())?) {
        Ok(()) => Ok(()),
        Err(_) => Err(Mem),
    }
}

/// Knows the key of the row at a place.
fn know_at(alloc: Global, keys: &mut KnownKeys, index: &Index, place: usize) -> Result<(), Mem>
    requires { place < length index.now }
    ensures { OnOk result (KnowsRowAt index.now place keys.old keys.new) }
{
    match index.at(place) {
        Some(row) => know(alloc, keys, &row.sig),
        None => unreachable!(),
    }
}

/// The keys of the rows of an index. (Two of one name can't both be held under it, so no store that was opened has them.)
pub(crate) fn keys_of(alloc: Global, index: &Index) -> Result<KnownKeys, Mem>
    ensures knows { IfOk result (λ keys. KnowsRows keys index.now) }
    ensures of { IfOk result (AreOfRows index.now) }
{
    let mut keys = KnownKeys::new(alloc);
    for place in 0..index.len() {
        know_at(alloc, &mut keys, index, place)?;
    }
    Ok(keys)
}

/// Writes a key under its name.
fn write_key<D: Disk>(alloc: Global, disk: &mut D, name: &Hash, key: &[u8]) -> Result<(), DiskFault>
    requires reach { 3600 ≤ D.reach }
    requires name { IsName name.now }
    requires laid_out { D.tells → IsLaidOut (D.story disk.old).held }
    ensures held { D.tells → OnOk result ((D.story disk.new).held (key_path name.now) ≡ Some (File false key.now)) }
    ensures others { D.tells → Passes (D.story disk.old) (D.story disk.new) (ChangesAt (key_path name.now)) }
    ensures brief { D.tells → IsBrief 1 (D.story disk.old) (D.story disk.new) }
    ensures cause { Counts (D.faults disk.old) (D.faults disk.new) (disk_failed result) }
{
    let path = key_path(alloc, name)?;
    let entry = Entry::File {
        exec: false,
        bytes: Bytes::from_slice(alloc, key)?,
    };
    disk.write(path.as_str(), &entry)
}

/// Puts the key of a signature: it is written under its name, unless it is known, and is known then. No other one of its name is known.
pub(crate) fn put_key<D: Disk>(
    alloc: Global,
    disk: &mut D,
    keys: &mut KnownKeys,
    sig: &SigText,
) -> Result<(), DiskFault>
    requires reach { 3600 ≤ D.reach }
    requires laid_out { D.tells → IsLaidOut (D.story disk.old).held }
    requires one { (key : List ℕ) → key_named keys.old (text_key sig.now) ≡ Some key → key ≡ key_part sig.now }
    ensures knows { OnOk result (KnowsKeyOf keys.new sig.now) }
    ensures behind { OnOk result (keys.new ≡ keys_behind keys.old sig.now) }
    ensures same { OnErr result (keys.new ≡ keys.old) }
    ensures held { D.tells → OnOk result (HoldsKeys keys.old (D.story disk.old).held
        → HoldsKeyOf sig.now (D.story disk.new).held) }
    ensures puts { D.tells → Passes (D.story disk.old) (D.story disk.new) (PutsKey keys.old sig.now) }
    ensures brief { D.tells → IsBrief 1 (D.story disk.old) (D.story disk.new) }
    ensures cause { Counts (D.faults disk.old) (D.faults disk.new) (disk_failed result) }
{
    let name = Hash::of(sig.key());
    match keys.key(&name) {
        Some(_) => Ok(()),
        None => {
            write_key(alloc, disk, &name, sig.key())?;
            Ok(know(alloc, keys, sig)?)
        }
    }
}
