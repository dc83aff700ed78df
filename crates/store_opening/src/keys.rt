// The files under `key/`: keys under their names.
ghost use Rattle.std.specs.Prelude.{◌≡◌, ◌↔◌, ◌⊎◌, ◌++◌, ◌<◌, ◌∷◌, [], IfNone, IfOk, IfSome, IsTrue, List, None, OnOk, Some, codes, false, if◌then◌else◌, ℕ};
ghost use Rattle.std.specs.Prelude.{length};
ghost use Rattle.hex.specs.Hex.{IsBytes};
ghost use Rattle.tree_model.specs.Hash.{IsHash, hash_text};
ghost use Rattle.std.specs.Map.{lookup};
ghost use Rattle.std.specs.Option.{option_or};
ghost use Rattle.std.specs.Str.{bytes_eq};
ghost use Rattle.tree_model.specs.declared.hash.Hash.{Hash as AHash};
ghost use Rattle.tree_model.specs.declared.entry.Entry.TheVariants.{File};
ghost use Rattle.tree_model.specs.Path.{BeginsWith};
ghost use Rattle.outside_traits.specs.Store.{Store as AStore};
ghost use Rattle.store_model.specs.Rows.{hash_eq};
ghost use Rattle.store_model.specs.Opened.{IsKeyPlace};
ghost use Rattle.store_model.specs.Paths.{key_path};
ghost use Rattle.store_opening.specs.Survey.{AreKeys, Dooms, IsKeyFile, IsKeyIn, IsKeyTable, PutsKey};

use crate::records::same_bytes;
use crate::survey::doom;
use indexmap::IndexMap;
use std::alloc::Global;
use tree_model::{Entry, Hash, Mem, Text};

/// Whether a path is that of the key of a name.
fn is_path_of(path: &str, name: &Hash) -> bool
    ensures { IsTrue result ↔ (path.now ≡ key_path name.now) }
{
    match path.as_bytes().strip_prefix(b"key/") {
        Some(digits) => same_bytes(digits, name.digits().as_slice()),
        None => false,
    }
}

/// The bytes of a file that can't be executed.
fn plain(entry: &Entry) -> Option<&[u8]>
    ensures some { IfSome result (λ bytes. entry.now ≡ File false bytes.now) }
    ensures none { IfNone result ((bytes : List ℕ) → entry.now ≡ File false bytes → ⊥) }
{
    match entry {
        Entry::File { exec: false, bytes } => Some(bytes.as_slice()),
        Entry::File {
            exec: true,
            bytes: _,
        } => None,
        Entry::Link { target: _ } => None,
    }
}

/// The name of the key that an entry is, which was read at a path: it is the digest of the entry's bytes.
fn name_of_key(path: &str, entry: &Entry) -> Option<Hash>
    ensures some { IfSome result (IsKeyFile (path.now, entry.now)) }
    ensures none { IfNone result ((name : AHash) → IsKeyFile (path.now, entry.now) name → ⊥) }
{
    let bytes = plain(entry)?;
    let name = Hash::of(bytes);
    if is_path_of(path, &name) {
        return Some(name);
    }
    None
}

/// Puts a place under a name, where it has none.
fn put_place(table: &mut IndexMap<[u8; 32], usize>, name: &Hash, place: usize) -> Result<(), Mem>
    ensures { OnOk result ((q : AHash) → lookup (bytes_eq q.bytes) table.new.entries
        ≡ option_or (lookup (bytes_eq q.bytes) table.old.entries) (if hash_eq name.now q then Some place else None)) }
{
    if table.contains_key(&name.bytes) {
        return Ok(());
    }
    table.insert(name.bytes, place)?;
    Ok(())
}

/// Puts the place of a file under the name of the key that it is, if it is one.
fn put_key(
    table: &mut IndexMap<[u8; 32], usize>,
    file: &(Text, Entry),
    place: usize,
) -> Result<(), Mem>
    ensures { OnOk result (PutsKey file.now place table.old.entries table.new.entries) }
{
    match name_of_key(file.0.as_str(), &file.1) {
        Some(name) => put_place(table, &name, place),
        None => Ok(()),
    }
}

/// The places of the keys among these files, which stand under `key/`, by their names. Each file is digested once.
pub(crate) fn key_table(
    alloc: Global,
    files: &[(Text, Entry)],
) -> Result<IndexMap<[u8; 32], usize>, Mem>
    ensures { IfOk result (λ table. IsKeyTable files.now table.entries) }
{
    let mut table = IndexMap::new(alloc);
    for (place, file) in files.iter().enumerate() {
        put_key(&mut table, file, place)?;
    }
    Ok(table)
}

/// The place of the file that has the key of a name among these files.
fn place_of(
    files: &[(Text, Entry)],
    table: &IndexMap<[u8; 32], usize>,
    name: &Hash,
) -> Option<usize>
    requires { IsKeyTable files.now table.now.entries }
    ensures some { IfSome result (λ place. lookup (bytes_eq name.now.bytes) table.now.entries ≡ Some place) }
    ensures within { IfSome result (λ place. place < length files.now) }
    ensures none { IfNone result (lookup (bytes_eq name.now.bytes) table.now.entries ≡ None) }
{
    match table.get(&name.bytes) {
        Some(place) => Some(*place),
        None => None,
    }
}

/// The bytes of the key of a name among these files.
pub(crate) fn key_in<'a>(
    files: &'a [(Text, Entry)],
    table: &IndexMap<[u8; 32], usize>,
    name: &Hash,
) -> Option<&'a [u8]>
    requires { IsKeyTable files.now table.now.entries }
    ensures some { IfSome result (λ key. IsKeyIn files.now name.now key.now) }
    ensures none { IfNone result ((key : List ℕ) → IsKeyIn files.now name.now key → ⊥) }
{
    match place_of(files, table, name) {
        Some(place) => plain(&files[place].1),
        None => None,
    }
}

/// A digest that is held has 32 bytes.
fn known(bytes: [u8; 32])
    ensures size { length bytes ≡ 32 }
    ensures bytes { IsBytes bytes }
{}

/// Whether a text is that of a digest.
fn is_digest(text: &str) -> bool
    ensures { IsTrue result ↔ ((hash : AHash) × IsHash hash × (text.now ≡ hash_text hash)) }
{
    match Hash::read(text) {
        Some(hash) => {
            known(hash.bytes);
            true
        }
        None => false,
    }
}

/// Whether a path may be a key's.
fn is_place(path: &str) -> bool
    ensures { IsTrue result ↔ IsKeyPlace path.now }
{
    match path.strip_prefix("key/") {
        Some(digits) => is_digest(digits),
        None => false,
    }
}

/// Puts a path to what goes, unless a key may stand there.
fn doom_misplaced(alloc: Global, path: &str, doomed: &mut Vec<Text>) -> Result<(), Mem>
    ensures { OnOk result ((IsKeyPlace path.now × (doomed.new.items ≡ doomed.old.items))
        ⊎ ((IsKeyPlace path.now → ⊥) × (doomed.new.items ≡ doomed.old.items ++ path.now ∷ []))) }
{
    if is_place(path) {
        return Ok(());
    }
    doom(alloc, path, doomed)
}

/// Puts the paths of these files, which stand under `key/`, to what goes, but for those at which a key may stand.
pub(crate) fn survey_keys(
    alloc: Global,
    files: &[(Text, Entry)],
    doomed: &mut Vec<Text>,
) -> Result<(), Mem>
    ensures { OnOk result ((held : AStore) → AreKeys held files.now
        → Dooms held (BeginsWith (codes "key/")) doomed.old.items doomed.new.items) }
{
    for file in files {
        doom_misplaced(alloc, file.0.as_str(), doomed)?;
    }
    Ok(())
}
