// Files of metadata in memory.
ghost use Rattle.std.specs.Prelude.{◌≡◌, ◌<◌, ◌≤◌, List, ℕ, IfOk, IfSome, IsSome, IsSomeAnd, false, IsErrOf, OnOk, length, map};
ghost use Rattle.std.specs.BTreeMap.{get_by_text};
ghost use Rattle.tree_model.specs.Path.{IsClean};
ghost use Rattle.outside_traits.specs.Fault.{Counts, read_failed};
ghost use Rattle.outside_traits.specs.Store.{IsListing};
ghost use Rattle.outside_mem.specs.Layers.{AreFrom, with_file};

use crate::plan::{FaultPlan, count_fault};
use outside_traits::{Layers, ReadFault};
use std::alloc::Global;
use std::collections::BTreeMap;
use tree_model::{Bytes, Mem, Text, Texts, begins_with, is_clean};

/// Layers that hold files in memory. They never change, and never fail.
#[derive(Drop)]
pub struct FixedLayers {
    files: BTreeMap<String, Bytes>,
    ghost clean: { (path : List ℕ) → IsSome (get_by_text files path) → IsClean path },
}

impl FixedLayers {
    ghost use Rattle.outside_mem.specs.Told.{fixed_at};

    /// Layers with these files, by their paths. Where a path stands twice the first file counts, and a path that isn't
    /// clean names nothing.
    pub fn new(alloc: Global, files: Vec<(Text, Bytes)>) -> Result<FixedLayers, Mem>
        ensures { IfOk result (λ layers. AreFrom files.items (fixed_at layers)) }
    {
        Ok(FixedLayers {
            files: first_files(alloc, files)?,
        })
    }

    /// The bytes of a file, unless there are more than `max`.
    fn find(&self, path: &str, max: u64) -> Result<Option<Bytes>, ReadFault>
        ensures found { IfOk result (λ found. found ≡ fixed_at self.now path.now) }
        ensures within { IfOk result (λ found. IfSome found (λ bytes. length bytes ≤ max)) }
        ensures too_long { IsErrOf result ReadFault.TooLong
            → IsSomeAnd (fixed_at self.now path.now) (λ bytes. max < length bytes) }
        ensures not_failed { read_failed result ≡ false }
    {
        match self.files.get(path) {
            Some(bytes) => Ok(Some(copy_within(bytes, max)?)),
            None => Ok(None),
        }
    }

    /// The paths that begin with the prefix.
    fn paths(&self, alloc: Global, prefix: &str) -> Result<Texts, Mem>
        ensures { IfOk result (λ paths. IsListing prefix.now (fixed_at self.now) paths) }
    {
        listed(alloc, &self.files, prefix)
    }
}

impl Layers for FixedLayers {
    ghost use Rattle.outside_mem.specs.Told.{fixed_at};

    ghost tells = { Unit {0} };

    ghost files = { fixed_at };

    ghost faults = { λ l. 0 };

    ghost clean = { λ l told. l.clean };

    fn read(&mut self, alloc: Global, path: &str, max: u64) -> Result<Option<Bytes>, ReadFault> {
        self.find(path, max)
    }

    fn list(&mut self, alloc: Global, prefix: &str) -> Result<Texts, ReadFault> {
        Ok(self.paths(alloc, prefix)?)
    }
}

/// Layers that hold files in memory, of which some calls fail. They never change.
#[derive(Drop)]
pub struct MemLayers {
    held: FixedLayers,
    plan: FaultPlan,
    faults: u64,
}

impl MemLayers {
    ghost use Rattle.outside_mem.specs.Plan.{fresh_plan};
    ghost use Rattle.outside_mem.specs.Told.{file_at, layers_faults, layers_plan};

    /// Layers with these files, as `FixedLayers::new` has them. The calls with the numbers of `fail`, from 1, fail.
    pub fn new(alloc: Global, files: Vec<(Text, Bytes)>, fail: Vec<u64>) -> Result<MemLayers, Mem>
        ensures files { IfOk result (λ layers. AreFrom files.items (file_at layers)) }
        ensures plan { IfOk result (λ layers. layers_plan layers ≡ fresh_plan fail) }
        ensures fresh { IfOk result (λ layers. layers_faults layers ≡ 0) }
    {
        Ok(MemLayers {
            held: FixedLayers::new(alloc, files)?,
            plan: FaultPlan::new(fail),
            faults: 0,
        })
    }
}

impl Layers for MemLayers {
    ghost use Rattle.outside_mem.specs.Plan.{Follows};
    ghost use Rattle.outside_mem.specs.Told.{file_at, layers_faults, layers_plan};

    ghost tells = { Unit {0} };

    ghost files = { file_at };

    ghost faults = { layers_faults };

    ghost clean = { λ l told. l.held.clean };

    /// Fails just where the plan says so.
    fn read(&mut self, alloc: Global, path: &str, max: u64) -> Result<Option<Bytes>, ReadFault>
        ensures found { IfOk result (λ found. found ≡ file_at self.old path.now) }
        ensures within { IfOk result (λ found. IfSome found (λ bytes. length bytes ≤ max)) }
        ensures too_long { IsErrOf result ReadFault.TooLong
            → IsSomeAnd (file_at self.old path.now) (λ bytes. max < length bytes) }
        ensures same { file_at self.new ≡ file_at self.old }
        ensures cause { Counts (layers_faults self.old) (layers_faults self.new) (read_failed result) }
        ensures plan { Follows (layers_plan self.old) (layers_plan self.new) (read_failed result) }
    {
        if self.plan.next_fails() {
            count_fault(&mut self.faults);
            return Err(ReadFault::Failed);
        }
        self.held.find(path, max)
    }

    /// Fails just where the plan says so.
    fn list(&mut self, alloc: Global, prefix: &str) -> Result<Texts, ReadFault>
        ensures paths { IfOk result (λ paths. IsListing prefix.now (file_at self.old) paths) }
        ensures not_long { IsErrOf result ReadFault.TooLong → ⊥ }
        ensures same { file_at self.new ≡ file_at self.old }
        ensures cause { Counts (layers_faults self.old) (layers_faults self.new) (read_failed result) }
        ensures plan { Follows (layers_plan self.old) (layers_plan self.new) (read_failed result) }
    {
        if self.plan.next_fails() {
            count_fault(&mut self.faults);
            return Err(ReadFault::Failed);
        }
        Ok(self.held.paths(alloc, prefix)?)
    }
}

/// The first file at each clean path.
fn first_files(alloc: Global, files: Vec<(Text, Bytes)>) -> Result<BTreeMap<String, Bytes>, Mem>
    ensures { IfOk result (λ held. AreFrom files.items (get_by_text held)) }
{
    let mut held = BTreeMap::new(alloc);
    for (path, bytes) in files {
        if is_clean(path.as_str()) {
            keep_first(alloc, &mut held, path.as_str(), bytes)?;
        }
    }
    Ok(held)
}

/// Puts a file at its path, unless one stands there.
fn keep_first(
    alloc: Global,
    held: &mut BTreeMap<String, Bytes>,
    path: &str,
    bytes: Bytes,
) -> Result<(), Mem>
    ensures { OnOk result (get_by_text held.new ≡ with_file path.now bytes (get_by_text held.old)) }
{
    if !held.contains_key(path) {
        let _ = held.insert(String::from_str(alloc, path)?, bytes)?;
    }
    Ok(())
}

/// A copy of bytes, unless there are more than `max`.
fn copy_within(bytes: &Bytes, max: u64) -> Result<Bytes, ReadFault>
    ensures copied { IfOk result (λ made. made ≡ bytes.now) }
    ensures within { IfOk result (λ made. length made ≤ max) }
    ensures too_long { IsErrOf result ReadFault.TooLong → max < length bytes.now }
    ensures not_failed { read_failed result ≡ false }
{
    if bytes.as_slice().len() as u64 > max {
        return Err(ReadFault::TooLong);
    }
    Ok(bytes.copy()?)
}

/// The paths that begin with the prefix. They stand together in the map.
fn listed(alloc: Global, files: &BTreeMap<String, Bytes>, prefix: &str) -> Result<Texts, Mem>
    ensures { IfOk result (λ found. IsListing prefix.now (get_by_text files.now) found) }
{
    let mut found = Texts::new(alloc);
    for (path, _) in files.range(String::from_str(alloc, prefix)?..) {
        if !begins_with(path.as_str(), prefix) {
            break;
        }
        found.push(Text::from_str(alloc, path.as_str())?)?;
    }
    Ok(found)
}
