// The index.
ghost use Rattle.std.specs.Prelude.{◌≡◌, ◌++◌, ◌∷◌, [], Some, None, OnOk, OnErr, IfErr, IfSome, IsTrue, ◌↔◌, find, length, option_copied, slice_get};
ghost use Rattle.std.specs.Option.{option_map};
ghost use Rattle.std.specs.Map.{values_of};
ghost use Rattle.store_model.specs.declared.signature.EquivRow.{EquivRow};
ghost use Rattle.store_model.specs.Rows.{row_at, first_for, is_row_for, manifest_eq};
ghost use Rattle.hash_equiv.specs.Index.{IsNameIn, rows_at};
ghost use Rattle.hash_equiv.specs.Added.{IsEquivFault, IsDifference};

use crate::copies::copy_row;
use crate::equal::equal_manifests;
use crate::places::{places_for, put_place};
use indexmap::IndexMap;
use std::alloc::Global;
use std::collections::BTreeMap;
use std::marker::Model;
use store_model::{EquivRow, SigText};
use tree_model::{Hash, ListOf, ManifestLine, Mem};

/// Why a row isn't added.
#[derive(Debug, Drop)]
pub enum EquivFault {
    /// The index has a row of that name with another signature. Two signatures have one digest.
    Collision {
        /// The whole text of the signature of the index.
        held: SigText,
        /// That of the row that was given.
        given: SigText,
    },
    /// The index has a row of that name and signature with another manifest: the task's output differs from one run to another.
    Unsteady {
        /// The row of the index.
        held: EquivRow,
        /// The row that was given.
        given: EquivRow,
    },
    /// Memory was wanting.
    Memory,
}

impl From<Mem> for EquivFault {
    ghost use Rattle.std.specs.Prelude.{◌≡◌};
    ghost use Rattle.hash_equiv.specs.declared.index.EquivFault.TheVariants.{Memory};

    ghost from_gives = { λ _ fault. fault ≡ Memory };

    fn from(_: Mem) -> EquivFault {
        EquivFault::Memory
    }
}

/// The rows of stored records. Contracts see the list of the rows, in the order in which they were added.
#[derive(Drop)]
pub struct Index {
    rows: IndexMap<[u8; 32], EquivRow>,
    of_pn: BTreeMap<String, ListOf<usize>>,
}

impl Model for Index {
    ghost use Rattle.std.specs.Prelude.{List};
    ghost use Rattle.std.specs.Map.{values_of};
    ghost use Rattle.store_model.specs.declared.signature.EquivRow.{EquivRow};

    ghost Value = { List EquivRow };

    ghost use Rattle.hash_equiv.specs.Index.{IsIndex};

    ghost view = { λ s. values_of s.rows.entries };

    ghost invariant = { λ s. IsIndex s.rows.entries s.of_pn };
}

/// What a row says to that of the same name: nothing where both are the same.
fn compared(alloc: Global, held: &EquivRow, given: EquivRow) -> Result<(), EquivFault>
    ensures ok { OnOk result ((held.now.sig ≡ given.sig) × (held.now.manifest ≡ given.manifest)) }
    ensures err { IfErr result (IsDifference held.now given) }
{
    if !held.sig.is_same(&given.sig) {
        let held = held.sig.copy()?;
        let given = given.sig;
        return Err(EquivFault::Collision { held, given });
    }
    if equal_manifests(held.manifest.lines(), given.manifest.lines()) {
        return Ok(());
    }
    let held = copy_row(alloc, held)?;
    Err(EquivFault::Unsteady { held, given })
}

/// Whether a row has this manifest.
fn has_manifest(row: &EquivRow, manifest: &[ManifestLine]) -> bool
    ensures { result ≡ manifest_eq row.now.manifest manifest.now }
{
    equal_manifests(row.manifest.lines(), manifest)
}

/// Whether a row is of this PN and task, and has this manifest.
fn is_row_for(row: &EquivRow, pn: &str, task: &str, manifest: &[ManifestLine]) -> bool
    ensures { result ≡ is_row_for pn.now task.now manifest.now row.now }
{
    row.pn.as_str() == pn && row.task.as_str() == task && has_manifest(row, manifest)
}

/// The unihash of the row at a place, where it is of this PN and task and has this manifest.
fn unihash_at(
    rows: &IndexMap<[u8; 32], EquivRow>,
    place: usize,
    pn: &str,
    task: &str,
    manifest: &[ManifestLine],
) -> Option<Hash>
    ensures { result ≡ option_map (λ r. r.unihash) (find (is_row_for pn.now task.now manifest.now)
        (rows_at (values_of rows.now.entries) (place ∷ []))) }
{
    match rows.get_index(place) {
        Some((_, row)) if is_row_for(row, pn, task, manifest) => Some(row.unihash),
        _ => None,
    }
}

/// The unihash of the first row at these places that is of this PN and task and has this manifest.
fn first_at(
    rows: &IndexMap<[u8; 32], EquivRow>,
    places: &[usize],
    pn: &str,
    task: &str,
    manifest: &[ManifestLine],
) -> Option<Hash>
    ensures { result ≡ option_map (λ r. r.unihash) (find (is_row_for pn.now task.now manifest.now)
        (rows_at (values_of rows.now.entries) places.now)) }
{
    for place in places {
        let found = unihash_at(rows, *place, pn, task, manifest);
        if found.is_some() {
            return found;
        }
    }
    None
}

/// How many rows of a PN a signature is compared with, at most. Most differ in their lengths, so that many should cost less than a
/// digest of its bytes.
const COMPARED: usize = 64;

/// The name of the row at a place, where it has this signature.
fn name_at(rows: &IndexMap<[u8; 32], EquivRow>, place: usize, sig: &SigText) -> Option<Hash>
    ensures { IfSome result (IsNameIn (values_of rows.now.entries) sig.now) }
{
    match rows.get_index(place) {
        Some((_, row)) if row.sig.is_same(sig) => Some(row.name),
        _ => None,
    }
}

/// The name of the first row at these places that has this signature.
fn first_name(rows: &IndexMap<[u8; 32], EquivRow>, places: &[usize], sig: &SigText) -> Option<Hash>
    ensures { IfSome result (IsNameIn (values_of rows.now.entries) sig.now) }
{
    for place in places {
        match name_at(rows, *place, sig) {
            Some(name) => return Some(name),
            None => {}
        }
    }
    None
}

impl Index {
    /// The index without rows. It takes no memory.
    pub fn new(alloc: Global) -> Index
        ensures { result ≡ [] }
    {
        Index {
            rows: IndexMap::new(alloc),
            of_pn: BTreeMap::new(alloc),
        }
    }

    /// The row of a name.
    pub fn row(&self, name: &Hash) -> Option<&EquivRow>
        ensures { option_copied result ≡ row_at self.now name.now }
    {
        self.rows.get(&name.bytes)
    }

    /// How many rows there are.
    pub fn len(&self) -> usize
        ensures { result ≡ length self.now }
    {
        self.rows.len()
    }

    /// The row at a place, in the order in which rows were added; none beyond the last.
    pub fn at(&self, place: usize) -> Option<&EquivRow>
        ensures { option_copied result ≡ slice_get self.now place }
    {
        match self.rows.get_index(place) {
            Some((_, row)) => Some(row),
            None => None,
        }
    }

    /// The unihash of a name that has a row.
    pub fn unihash_of(&self, name: &Hash) -> Option<Hash>
        ensures { result ≡ option_map (λ r. r.unihash) (row_at self.now name.now) }
    {
        match self.row(name) {
            Some(row) => Some(row.unihash),
            None => None,
        }
    }

    /// The name of a row that has this signature, if it is one of the first rows of this PN: what it is known by is not digested
    /// again. It looks at 64 rows at most, so `None` says nothing.
    pub fn name_of(&self, pn: &str, sig: &SigText) -> Option<Hash>
        ensures { IfSome result (IsNameIn self.now sig.now) }
    {
        let places = places_for(&self.of_pn, pn);
        first_name(&self.rows, &places[..places.len().min(COMPARED)], sig)
    }

    /// The unihash of the first row with this PN, task and manifest. It looks at the rows of the PN alone.
    pub fn first_for(&self, pn: &str, task: &str, manifest: &[ManifestLine]) -> Option<Hash>
        ensures { result ≡ first_for self.now pn.now task.now manifest.now }
    {
        let places = places_for(&self.of_pn, pn);
        first_at(&self.rows, places, pn, task, manifest)
    }

    /// Adds a row, where its name has none. A row that is there changes nothing; where a call is refused, the index is as before.
    pub fn add(&mut self, alloc: Global, row: EquivRow) -> Result<(), EquivFault>
        ensures added { row_at self.old row.name ≡ None → OnOk result (self.new ≡ self.old ++ row ∷ []) }
        ensures known { (held : EquivRow) → row_at self.old row.name ≡ Some held
            → OnOk result ((held.sig ≡ row.sig) × (held.manifest ≡ row.manifest) × (self.new ≡ self.old)) }
        ensures err { IfErr result (IsEquivFault self.old row) }
        ensures same { OnErr result (self.new ≡ self.old) }
    {
        match self.row(&row.name) {
            Some(held) => compared(alloc, held, row),
            None => Ok(self.put(alloc, row)?),
        }
    }

    /// Puts a row at the end whose name has none.
    fn put(&mut self, alloc: Global, row: EquivRow) -> Result<(), Mem>
        requires { row_at self.old row.name ≡ None }
        ensures ok { OnOk result (self.new ≡ self.old ++ row ∷ []) }
        ensures err { OnErr result (self.new ≡ self.old) }
    {
        self.rows.reserve(1)?;
        put_place(&mut self.of_pn, alloc, row.pn.as_str(), self.rows.len())?;
        self.rows.insert(row.name.bytes, row)?;
        Ok(())
    }
}
