// The files under `rec/` that may be believed.
ghost use Rattle.std.specs.Prelude.{◌≡◌, ◌↔◌, IfNone, IfOk, IfSome, IsTrue, OnOk, codes, false};
ghost use Rattle.std.specs.List.{AllByRecursion};
ghost use Rattle.outside_traits.specs.Store.{Store as AStore};
ghost use Rattle.store_model.specs.Readable.{HasShortPaths};
ghost use Rattle.record_move.specs.declared.records.OldRecord.{OldRecord as Old};
ghost use Rattle.store_move.specs.First.{SpellsFirst, first_name, first_record};
ghost use Rattle.store_opening.specs.Survey.{AreUnder};
ghost use Rattle.tree_model.specs.declared.entry.Entry.TheVariants.{File};
ghost use Rattle.store_upgrade.specs.Old.{AreOldFound, IsGoodOld, IsOldIn, TakesOld, old_path};

use crate::text::name_in;
use meta_model::MAX_OUTPUT_PATH;
use record_move::OldRecord;
use sig_gen::{SigFault, decode_first};
use std::alloc::Global;
use store_model::StoredSig;
use store_opening::same_bytes;
use tree_model::{Entry, Hash, ManifestLine, Mem, Text};

/// Whether no path of a manifest is too long.
pub(crate) fn are_short(lines: &[ManifestLine]) -> bool
    ensures { IsTrue result ↔ HasShortPaths lines.now }
{
    lines
        .iter()
        .all(|line| line.path.as_str().len() <= MAX_OUTPUT_PATH)
}

/// Whether a path is that of the old record of a name.
fn is_path_of(path: &str, name: &Hash) -> bool
    ensures { IsTrue result ↔ (path.now ≡ old_path name.now) }
{
    match path.as_bytes().strip_prefix(b"rec/") {
        Some(digits) => same_bytes(digits, name.digits().as_slice()),
        None => false,
    }
}

/// The old record with what it stores, which was read from these bytes, unless a path of its manifest is long.
fn good_old(alloc: Global, bytes: &[u8], stored: StoredSig) -> Result<Option<OldRecord>, Mem>
    requires { SpellsFirst bytes.now stored }
    ensures some { IfOk result (λ found. IfSome found (λ old. IsGoodOld old × (bytes.now ≡ first_record old.stored))) }
    ensures none { IfOk result (λ found. IfNone found ((old : Old) → IsGoodOld old → bytes.now ≡ first_record old.stored → ⊥)) }
{
    if !are_short(stored.manifest.lines()) {
        return Ok(None);
    }
    let name = name_in(alloc, bytes, &stored)?;
    Ok(Some(OldRecord { name, stored }))
}

/// The old record that some bytes are, wherever they stand.
fn old_in(alloc: Global, bytes: &[u8]) -> Result<Option<OldRecord>, Mem>
    ensures some { IfOk result (λ found. IfSome found (λ old. IsGoodOld old × (bytes.now ≡ first_record old.stored))) }
    ensures none { IfOk result (λ found. IfNone found ((old : Old) → IsGoodOld old → bytes.now ≡ first_record old.stored → ⊥)) }
{
    match decode_first(alloc, bytes) {
        Ok(stored) => good_old(alloc, bytes, stored),
        Err(SigFault::BadRecord) => Ok(None),
        Err(SigFault::Memory) => Err(Mem),
    }
}

/// An old record, if it stands at a path.
fn at_its_path(path: &str, old: OldRecord) -> Option<OldRecord>
    ensures some { IfSome result (λ kept. (kept ≡ old) × (path.now ≡ old_path old.name)) }
    ensures none { IfNone result (path.now ≡ old_path old.name → ⊥) }
{
    if is_path_of(path, &old.name) {
        return Some(old);
    }
    None
}

/// The old record that some bytes are, which were read at a path.
fn old_at(alloc: Global, path: &str, bytes: &[u8]) -> Result<Option<OldRecord>, Mem>
    ensures some { IfOk result (λ found. IfSome found (IsOldIn (path.now, File false bytes.now))) }
    ensures none { IfOk result (λ found. IfNone found ((old : Old) → IsOldIn (path.now, File false bytes.now) old → ⊥)) }
{
    match old_in(alloc, bytes)? {
        Some(old) => Ok(at_its_path(path, old)),
        None => Ok(None),
    }
}

/// The old record that a file is, which was read.
fn old_of(alloc: Global, path: &str, entry: &Entry) -> Result<Option<OldRecord>, Mem>
    ensures some { IfOk result (λ found. IfSome found (IsOldIn (path.now, entry.now))) }
    ensures none { IfOk result (λ found. IfNone found ((old : Old) → IsOldIn (path.now, entry.now) old → ⊥)) }
{
    match entry {
        Entry::File { exec: false, bytes } => old_at(alloc, path, bytes.as_slice()),
        Entry::File {
            exec: true,
            bytes: _,
        } => Ok(None),
        Entry::Link { target: _ } => Ok(None),
    }
}

/// Puts the old record that a file is, if it is one, to those that were found.
fn put_old(alloc: Global, file: &(Text, Entry), found: &mut Vec<OldRecord>) -> Result<(), Mem>
    ensures { OnOk result (TakesOld file.now found.old.items found.new.items) }
{
    match old_of(alloc, file.0.as_str(), &file.1)? {
        Some(old) => Ok(found.push(old)?),
        None => Ok(()),
    }
}

/// The old records that these files are, which are all that stand under `rec/`.
pub(crate) fn olds_among(alloc: Global, files: &[(Text, Entry)]) -> Result<Vec<OldRecord>, Mem>
    ensures found { IfOk result (λ found. (held : AStore) → AreUnder (codes "rec/") held files.now → AreOldFound held found.items) }
    ensures good { IfOk result (λ found. AllByRecursion IsGoodOld found.items) }
{
    let mut found = Vec::with_capacity(alloc, files.len())?;
    for file in files {
        put_old(alloc, file, &mut found)?;
    }
    Ok(found)
}
