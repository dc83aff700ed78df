// Which of the old records are believed, in their order.
ghost use Rattle.std.specs.Prelude.{◌≡◌, IfOk, List, codes, map, ℕ};
ghost use Rattle.std.specs.List.{AllByRecursion};
ghost use Rattle.outside_traits.specs.Fault.{Counts, disk_failed};
ghost use Rattle.outside_traits.specs.Passes.{Passes, Same};
ghost use Rattle.outside_traits.specs.Store.{Store as AStore};
ghost use Rattle.store_model.specs.Believed.{AreBelieved, Ascend};
ghost use Rattle.store_model.specs.Spelling.{short_stored_of};
ghost use Rattle.store_opening.specs.Survey.{AreUnder};
ghost use Rattle.store_upgrade.specs.Old.{AreOlds, IsGoodOld, candidate_of, olds_at};

use crate::reading::olds_among;
use outside_traits::{Disk, DiskFault};
use record_belief::{ascend, believed};
use record_move::OldRecord;
use sig_gen::{SigFault, decode_short_stored, decode_stored, encode_key, encode_stored};
use std::alloc::Global;
use store_model::{Candidate, ShortStored, SigText, StoredSig};
use store_opening::read_under;
use tree_model::{Entry, Mem, Text};

/// What a stored record is with its key's name.
fn shortened(alloc: Global, old: &OldRecord) -> Result<ShortStored, Mem>
    requires { IsGoodOld old.now }
    ensures { IfOk result (λ short. short ≡ short_stored_of old.now.stored) }
{
    let bytes = encode_stored(alloc, &old.stored)?;
    match decode_short_stored(alloc, bytes.as_slice()) {
        Ok(short) => Ok(short),
        Err(SigFault::Memory) => Err(Mem),
        Err(SigFault::BadRecord) => unreachable!(),
    }
}

/// A stored record again.
fn stored_again(alloc: Global, old: &OldRecord) -> Result<StoredSig, Mem>
    requires { IsGoodOld old.now }
    ensures { IfOk result (λ made. made ≡ old.now.stored) }
{
    let bytes = encode_stored(alloc, &old.stored)?;
    let key = encode_key(alloc, &old.stored.sig.key)?;
    match decode_stored(alloc, bytes.as_slice(), key.as_slice()) {
        Ok(stored) => Ok(stored),
        Err(SigFault::Memory) => Err(Mem),
        Err(SigFault::BadRecord) => unreachable!(),
    }
}

/// What an old record is among candidates.
fn candidate_of(alloc: Global, old: &OldRecord) -> Result<Candidate, Mem>
    requires { IsGoodOld old.now }
    ensures { IfOk result (λ c. c ≡ candidate_of old.now) }
{
    let stored = shortened(alloc, old)?;
    let sig = SigText::new(Vec::new(alloc), &[])?;
    Ok(Candidate {
        name: old.name,
        stored,
        sig,
    })
}

/// What old records are among candidates.
fn candidates_of(alloc: Global, olds: &[OldRecord]) -> Result<Vec<Candidate>, Mem>
    requires { AllByRecursion IsGoodOld olds.now }
    ensures { IfOk result (λ made. made.items ≡ map candidate_of olds.now) }
{
    let mut made = Vec::with_capacity(alloc, olds.len())?;
    for old in olds {
        made.push(candidate_of(alloc, old)?)?;
    }
    Ok(made)
}

/// The old records at these places, in their order.
fn olds_at(alloc: Global, olds: &[OldRecord], places: &[usize]) -> Result<Vec<OldRecord>, Mem>
    requires good { AllByRecursion IsGoodOld olds.now }
    requires believed { AreBelieved (map candidate_of olds.now) places.now }
    ensures at { IfOk result (λ made. made.items ≡ olds_at olds.now places.now) }
    ensures good { IfOk result (λ made. AllByRecursion IsGoodOld made.items) }
{
    let mut made = Vec::with_capacity(alloc, places.len())?;
    for place in places {
        let old = &olds[*place];
        let stored = stored_again(alloc, old)?;
        made.push(OldRecord {
            name: old.name,
            stored,
        })?;
    }
    Ok(made)
}

/// The believed ones of these old records, in their order. A disk that doesn't tell what it holds may list them otherwise than by name; then none is.
fn believed_of(alloc: Global, olds: &[OldRecord]) -> Result<Vec<OldRecord>, Mem>
    requires { AllByRecursion IsGoodOld olds.now }
    ensures olds { IfOk result (λ made. Ascend (map candidate_of olds.now)
        → (places : List ℕ) × AreBelieved (map candidate_of olds.now) places × (made.items ≡ olds_at olds.now places)) }
    ensures good { IfOk result (λ made. AllByRecursion IsGoodOld made.items) }
{
    let candidates = candidates_of(alloc, olds)?;
    if !ascend(&candidates) {
        return Ok(Vec::new(alloc));
    }
    let places = believed(alloc, &candidates)?;
    olds_at(alloc, olds, &places)
}

/// What these files say, which are all that stand under `rec/`.
fn olds_in(alloc: Global, files: &[(Text, Entry)]) -> Result<Vec<OldRecord>, Mem>
    ensures olds { IfOk result (λ olds. (held : AStore) → AreUnder (codes "rec/") held files.now → AreOlds held olds.items) }
    ensures good { IfOk result (λ olds. AllByRecursion IsGoodOld olds.items) }
{
    let found = olds_among(alloc, files)?;
    believed_of(alloc, &found)
}

/// Reads the believed records of the first format, in their order.
pub(crate) fn read_olds<D: Disk>(alloc: Global, disk: &mut D) -> Result<Vec<OldRecord>, DiskFault>
    ensures olds { D.tells → IfOk result (λ olds. AreOlds (D.story disk.old).held olds.items) }
    ensures good { IfOk result (λ olds. AllByRecursion IsGoodOld olds.items) }
    ensures others { D.tells → Passes (D.story disk.old) (D.story disk.new) Same }
    ensures cause { Counts (D.faults disk.old) (D.faults disk.new) (disk_failed result) }
{
    let files = read_under(alloc, disk, "rec/")?;
    Ok(olds_in(alloc, &files)?)
}
