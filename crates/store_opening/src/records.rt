// The files under `rec2/` that may be believed.
ghost use Rattle.std.specs.Prelude.{◌≡◌, ◌≤◌, ◌↔◌, All, Contains, IfNone, IfOk, IfSome, IsSome, IsTrue, List, OnOk, ℕ};
ghost use Rattle.std.specs.List.{AllByRecursion};
ghost use Rattle.outside_traits.specs.Fault.{Counts, disk_failed};
ghost use Rattle.outside_traits.specs.Passes.{Passes, Same};
ghost use Rattle.outside_traits.specs.Store.{Store};
ghost use Rattle.store_model.specs.declared.candidate.Candidate.{Candidate as ACandidate};
ghost use Rattle.store_model.specs.Stored.{SpellsShort};
ghost use Rattle.store_model.specs.Spelling.{short_bytes, short_name, short_record, whole_text};
ghost use Rattle.store_model.specs.Paths.{record_path};
ghost use Rattle.store_model.specs.Publication.{short_file};
ghost use Rattle.store_model.specs.Readable.{HasShortPaths};
ghost use Rattle.store_opening.specs.Survey.{AreKeys, AreRead, AreRecords, AreUnder, HasRead, IsFoundIn, IsGood, IsKeyTable, Visits};

use crate::keys::{key_in, key_table};
use indexmap::IndexMap;
use meta_model::MAX_OUTPUT_PATH;
use outside_traits::{Disk, DiskFault};
use sig_gen::{SigFault, decode_short_stored, signature_in};
use std::alloc::Global;
use store_model::{Candidate, ShortStored, SigText};
use tree_model::{Entry, Hash, ManifestLine, Mem, Text};

/// Whether two byte strings are the same.
pub fn same_bytes(one: &[u8], other: &[u8]) -> bool
    ensures { IsTrue result ↔ (one.now ≡ other.now) }
{
    one == other
}

/// Whether no path of a manifest is too long.
fn are_short(lines: &[ManifestLine]) -> bool
    ensures { IsTrue result ↔ HasShortPaths lines.now }
{
    lines
        .iter()
        .all(|line| line.path.as_str().len() <= MAX_OUTPUT_PATH)
}

/// Whether a path is that of the record of a name.
fn is_path_of(path: &str, name: &Hash) -> bool
    ensures { IsTrue result ↔ (path.now ≡ record_path name.now) }
{
    match path.as_bytes().strip_prefix(b"rec2/") {
        Some(digits) => same_bytes(digits, name.digits().as_slice()),
        None => false,
    }
}

/// The short text of a record's signature, among the bytes that spell the record.
fn short_in<'a>(bytes: &'a [u8], stored: &ShortStored) -> Result<&'a [u8], Mem>
    requires { SpellsShort bytes.now stored.now }
    ensures { IfOk result (λ short. short.now ≡ short_bytes stored.now.sig) }
{
    match signature_in(bytes) {
        Ok(short) => Ok(short),
        Err(SigFault::Memory) => Err(Mem),
        Err(SigFault::BadRecord) => unreachable!(),
    }
}

/// A record with its key.
#[tactic(auto, unfolding(store_model::specs::Spelling::short_name))]
fn with_key(alloc: Global, bytes: &[u8], stored: ShortStored, key: &[u8]) -> Result<Candidate, Mem>
    requires { SpellsShort bytes.now stored }
    ensures stored { IfOk result (λ c. c.stored ≡ stored) }
    ensures name { IfOk result (λ c. c.name ≡ short_name stored.sig) }
    ensures text { IfOk result (λ c. c.sig ≡ whole_text (short_bytes stored.sig) key.now) }
{
    let short = short_in(bytes, &stored)?;
    let name = Hash::of(short);
    let sig = SigText::new(short.to_vec(alloc)?, key)?;
    Ok(Candidate { name, stored, sig })
}

/// The keys that were read: the files under `key/`, and the place of each key by its name.
#[derive(Drop)]
pub(crate) struct Keys<'a> {
    pub(crate) files: &'a [(Text, Entry)],
    pub(crate) table: &'a IndexMap<[u8; 32], usize>,
}

/// The candidate that a record is, which was read from these bytes, unless a path of its manifest is long, or its key isn't there.
fn candidate_by(
    alloc: Global,
    bytes: &[u8],
    stored: ShortStored,
    keys: &Keys,
) -> Result<Option<Candidate>, Mem>
    requires spells { SpellsShort bytes.now stored }
    requires keys { IsKeyTable keys.now.files.now keys.now.table.now.entries }
    ensures some { IfOk result (λ found. IfSome found (λ c. (c.stored ≡ stored) × IsGood keys.now.files.now c)) }
    ensures none { IfOk result (λ found. IfNone found ((c : ACandidate) → IsGood keys.now.files.now c → c.stored ≡ stored → ⊥)) }
{
    if !are_short(stored.manifest.lines()) {
        return Ok(None);
    }
    match key_in(keys.files, keys.table, &stored.sig.key) {
        Some(key) => Ok(Some(with_key(alloc, bytes, stored, key)?)),
        None => Ok(None),
    }
}

/// The candidate that some bytes are, wherever they stand.
fn record_in(alloc: Global, bytes: &[u8], keys: &Keys) -> Result<Option<Candidate>, Mem>
    requires { IsKeyTable keys.now.files.now keys.now.table.now.entries }
    ensures some { IfOk result (λ found. IfSome found (λ c. IsGood keys.now.files.now c
        × (bytes.now ≡ short_record c.stored))) }
    ensures none { IfOk result (λ found. IfNone found ((c : ACandidate) → IsGood keys.now.files.now c
        → bytes.now ≡ short_record c.stored → ⊥)) }
{
    match decode_short_stored(alloc, bytes) {
        Ok(stored) => candidate_by(alloc, bytes, stored, keys),
        Err(SigFault::BadRecord) => Ok(None),
        Err(SigFault::Memory) => Err(Mem),
    }
}

/// A candidate, if it stands at a path.
fn at_its_path(path: &str, candidate: Candidate) -> Option<Candidate>
    ensures some { IfSome result (λ c. (c ≡ candidate) × (path.now ≡ record_path candidate.name)) }
    ensures none { IfNone result (path.now ≡ record_path candidate.name → ⊥) }
{
    if is_path_of(path, &candidate.name) {
        return Some(candidate);
    }
    None
}

/// The candidate that some bytes are, which were read at a path.
fn candidate_in(
    alloc: Global,
    path: &str,
    bytes: &[u8],
    keys: &Keys,
) -> Result<Option<Candidate>, Mem>
    requires { IsKeyTable keys.now.files.now keys.now.table.now.entries }
    ensures some { IfOk result (λ found. IfSome found (λ c. IsGood keys.now.files.now c × (path.now ≡ record_path c.name)
        × (bytes.now ≡ short_record c.stored))) }
    ensures none { IfOk result (λ found. IfNone found ((c : ACandidate) → IsGood keys.now.files.now c
        → path.now ≡ record_path c.name → bytes.now ≡ short_record c.stored → ⊥)) }
{
    match record_in(alloc, bytes, keys)? {
        Some(candidate) => Ok(at_its_path(path, candidate)),
        None => Ok(None),
    }
}

/// The candidate that an entry is, which was read at a path.
fn candidate_of(
    alloc: Global,
    path: &str,
    entry: &Entry,
    keys: &Keys,
) -> Result<Option<Candidate>, Mem>
    requires { IsKeyTable keys.now.files.now keys.now.table.now.entries }
    ensures some { IfOk result (λ found. IfSome found (λ c. IsGood keys.now.files.now c × (path.now ≡ record_path c.name)
        × (entry.now ≡ short_file c.stored))) }
    ensures none { IfOk result (λ found. IfNone found ((c : ACandidate) → IsGood keys.now.files.now c
        → path.now ≡ record_path c.name → entry.now ≡ short_file c.stored → ⊥)) }
{
    match entry {
        Entry::File { exec: false, bytes } => candidate_in(alloc, path, bytes.as_slice(), keys),
        Entry::File {
            exec: true,
            bytes: _,
        } => Ok(None),
        Entry::Link { target: _ } => Ok(None),
    }
}

/// What is found under `rec2/`: the candidates, and the paths of all else.
#[derive(Drop)]
pub(crate) struct Found {
    pub(crate) candidates: Vec<Candidate>,
    pub(crate) rejected: Vec<Text>,
}

/// Puts what an entry is, which was read at a path, to what is found.
fn put_found(
    alloc: Global,
    path: &str,
    entry: &Entry,
    keys: &Keys,
    found: &mut Found,
) -> Result<(), Mem>
    requires { IsKeyTable keys.now.files.now keys.now.table.now.entries }
    ensures visits { OnOk result (Visits keys.now.files.now path.now entry.now found.old found.new) }
    ensures good { AllByRecursion (IsGood keys.now.files.now) found.old.candidates.items
        → AllByRecursion (IsGood keys.now.files.now) found.new.candidates.items }
{
    match candidate_of(alloc, path, entry, keys)? {
        Some(candidate) => found.candidates.push(candidate)?,
        None => found.rejected.push(Text::from_str(alloc, path)?)?,
    }
    Ok(())
}

/// What these files are, which are all that stand under `rec2/`; and these, all that stand under `key/`.
pub(crate) fn found_among(
    alloc: Global,
    files: &[(Text, Entry)],
    keys: &[(Text, Entry)],
) -> Result<Found, Mem>
    ensures found { IfOk result (λ found. (held : Store) → AreRecords held files.now → AreKeys held keys.now
        → IsFoundIn held found.candidates.items found.rejected.items) }
    ensures good { IfOk result (λ found. AllByRecursion (IsGood keys.now) found.candidates.items) }
{
    let table = key_table(alloc, keys)?;
    let keys = Keys {
        files: keys,
        table: &table,
    };
    let mut found = Found {
        candidates: Vec::with_capacity(alloc, files.len())?,
        rejected: Vec::new(alloc),
    };
    for file in files {
        put_found(alloc, file.0.as_str(), &file.1, &keys, &mut found)?;
    }
    Ok(found)
}

/// Reads a path, and puts it with what stands there to the files.
fn read_onto<D: Disk>(
    alloc: Global,
    disk: &mut D,
    path: &Text,
    files: &mut Vec<(Text, Entry)>,
) -> Result<(), DiskFault>
    ensures read { D.tells → OnOk result (HasRead (D.story disk.old).held path.now files.old.items files.new.items) }
    ensures others { D.tells → Passes (D.story disk.old) (D.story disk.new) Same }
    ensures cause { Counts (D.faults disk.old) (D.faults disk.new) (disk_failed result) }
{
    match disk.read(alloc, path.as_str())? {
        Some(entry) => Ok(files.push((path.copy()?, entry))?),
        None => Ok(()),
    }
}

/// Reads these paths.
fn read_all<D: Disk>(
    alloc: Global,
    disk: &mut D,
    paths: &[Text],
) -> Result<Vec<(Text, Entry)>, DiskFault>
    requires { D.tells → (q : List ℕ) → Contains paths.now q → IsSome ((D.story disk.old).held q) }
    ensures read { D.tells → IfOk result (λ files. AreRead (D.story disk.old).held paths.now files.items) }
    ensures others { D.tells → Passes (D.story disk.old) (D.story disk.new) Same }
    ensures cause { Counts (D.faults disk.old) (D.faults disk.new) (disk_failed result) }
{
    let mut files = Vec::with_capacity(alloc, paths.len())?;
    for path in paths {
        read_onto(alloc, disk, path, &mut files)?;
    }
    Ok(files)
}

/// Reads what stands at paths that begin with a prefix.
pub fn read_under<D: Disk>(
    alloc: Global,
    disk: &mut D,
    prefix: &str,
) -> Result<Vec<(Text, Entry)>, DiskFault>
    ensures read { D.tells → IfOk result (λ files. AreUnder prefix.now (D.story disk.old).held files.items) }
    ensures others { D.tells → Passes (D.story disk.old) (D.story disk.new) Same }
    ensures cause { Counts (D.faults disk.old) (D.faults disk.new) (disk_failed result) }
{
    let paths = disk.list(alloc, prefix)?;
    read_all(alloc, disk, paths.as_slice())
}
