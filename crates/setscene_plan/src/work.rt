// Names that are worked out anew.
ghost use Rattle.std.specs.Prelude.{◌≡◌, ◌≢◌, ◌<◌, ◌≤◌, ◌⊎◌, ℕ, [], true, false, IfOk, MatchBool, OnOk, Some, Contains, List, All, length, slice_get, slice_set};
ghost use Rattle.run_core.specs.Above.{IsAbove, above_of};
ghost use Rattle.run_core.specs.Need.{AreOrdered};
ghost use Rattle.setscene_plan.specs.Names.{IsHashed};
ghost use Rattle.setscene_plan.specs.Owners.{IsOwned};
ghost use Rattle.setscene_plan.specs.Reworks.{Changes, HaveOneName, IsFound, IsRightAt, IsWorkable, IsWorked, PutsAll, Renames, Steps};
ghost use Rattle.setscene_plan.specs.View.{Counts, probe_failed};

use crate::names::{no_hashes, sign, unihash_of};
use crate::probe::{Probe, ProbeFault};
use meta_model::Plan;
use std::alloc::Global;
use std::collections::{BTreeSet, HashMap};
use tree_model::{Hash, ListOf, Mem};

/// For each task its name and its unihash, and an index of the names.
#[derive(Drop)]
pub(crate) struct Names {
    pub(crate) names: Vec<Hash>,
    pub(crate) unihashes: Vec<Hash>,
    /// For the bytes of each name a task that has it, or had it.
    pub(crate) owners: HashMap<[u8; 32], u32>,
    /// Whether the names are known to differ. Then the index finds each task.
    pub(crate) distinct: bool,
}

/// Whether two digests are one.
fn are_same(one: &Hash, other: &Hash) -> bool
    ensures { MatchBool result (one.now ≡ other.now) (one.now ≡ other.now → ⊥) }
{
    one == other
}

/// The digest at a place.
fn hash_at(names: &[Hash], place: usize) -> Hash
    requires { place < length names.now }
    ensures { slice_get names.now place ≡ Some result }
{
    names[place]
}

/// Whether two tasks have one name.
fn is_namesake(names: &[Hash], first: usize, second: usize) -> bool
    requires first { first < length names.now }
    requires second { second < length names.now }
    ensures { MatchBool result (HaveOneName names.now first second) (HaveOneName names.now first second → ⊥) }
{
    let one = hash_at(names, first);
    let other = hash_at(names, second);
    if are_same(&one, &other) { true } else { false }
}

/// Whether a name belongs to another task than this one.
fn is_taken(owner: Option<u32>, names: &[Hash], place: u32, name: &Hash) -> bool
    ensures { result ≡ false → (t : ℕ) → owner ≡ Some t → slice_get names.now t ≡ Some name.now → t ≡ place }
{
    match owner {
        Some(other) => {
            other != place
                && (other as usize) < names.len()
                && are_same(&names[other as usize], name)
        }
        None => false,
    }
}

/// Puts the name of a task into the index.
fn claim(
    owners: &mut HashMap<[u8; 32], u32>,
    distinct: &mut bool,
    names: &[Hash],
    place: u32,
) -> Result<(), Mem>
    requires { place < length names.now }
    ensures here { OnOk result (IsOwned distinct.new owners.new names.now place) }
    ensures others { OnOk result ((t : ℕ) → t ≢ place → IsOwned distinct.old owners.old names.now t
        → IsOwned distinct.new owners.new names.now t) }
{
    let name = names[place as usize];
    let owner = owners.get(&name.bytes).copied();
    if is_taken(owner, names, place, &name) {
        *distinct = false;
        return Ok(());
    }
    owners.insert(name.bytes, place)?;
    Ok(())
}

impl Names {
    /// Puts the name of a task.
    fn put(&mut self, place: u32, name: Hash) -> Result<(), Mem>
        requires { place < length self.old.names.items }
        ensures names { self.new.names.items ≡ slice_set self.old.names.items place name }
        ensures unihashes { self.new.unihashes.items ≡ self.old.unihashes.items }
        ensures found { OnOk result (IsFound self.new place) }
        ensures others { OnOk result ((t : ℕ) → t ≢ place → IsFound self.old t → IsFound self.new t) }
    {
        self.names[place as usize] = name;
        claim(
            &mut self.owners,
            &mut self.distinct,
            self.names.as_slice(),
            place,
        )
    }

    /// Puts the unihash of a task. Answers whether it changed.
    fn put_unihash(&mut self, place: u32, unihash: Hash) -> bool
        requires { place < length self.old.unihashes.items }
        ensures unihashes { self.new ≡ record self.old { unihashes = self.new.unihashes } }
        ensures put { self.new.unihashes.items ≡ slice_set self.old.unihashes.items place unihash }
        ensures changed { Changes place self.old self.new result }
    {
        let place = place as usize;
        if are_same(&self.unihashes[place], &unihash) {
            return false;
        }
        self.unihashes[place] = unihash;
        true
    }

    /// Works out the name of a task by the unihashes that are kept, and its unihash, once those before it have theirs. Answers whether
    /// its unihash changed.
    ///
    /// `Store` comes only where the row of the name has another signature.
    fn rename<P: Probe>(
        &mut self,
        alloc: Global,
        plan: &Plan,
        probe: &mut P,
        place: u32,
    ) -> Result<bool, ProbeFault>
        requires plan { (P.view probe.old).plan ≡ plan.now }
        requires ordered { AreOrdered plan.now.tasks }
        requires place { place < length plan.now.tasks }
        requires names { length self.old.names.items ≡ length plan.now.tasks }
        requires unihashes { length self.old.unihashes.items ≡ length plan.now.tasks }
        requires before { (t : ℕ) → t < place → IsRightAt (P.view probe.old).rows plan.now.tasks self.old t }
        ensures renamed { OnOk result (Renames (P.view probe.old).rows plan.now.tasks place self.old self.new) }
        ensures changed { IfOk result (λ changed. Changes place self.old self.new changed) }
        ensures same { P.view probe.new ≡ P.view probe.old }
        ensures stays { P.Stays probe.old probe.new }
        ensures asked { P.asked probe.new ≡ P.asked probe.old }
        ensures cause { Counts (P.faults probe.old) (P.faults probe.new) (probe_failed result) }
    {
        let made = sign(alloc, plan, probe, place, self.unihashes.as_slice())?;
        probe.compare(&made.name, &made.text)?;
        self.put(place, made.name)?;
        Ok(self.put_unihash(place, unihash_of(probe, &made.name)))
    }

    /// The names of all tasks of a plan.
    pub(crate) fn of_plan<P: Probe>(
        alloc: Global,
        plan: &Plan,
        probe: &mut P,
    ) -> Result<Names, ProbeFault>
        requires plan { (P.view probe.old).plan ≡ plan.now }
        requires few { length plan.now.tasks ≤ 65536 }
        requires ordered { AreOrdered plan.now.tasks }
        ensures right { IfOk result (λ made. (t : ℕ) → IsRightAt (P.view probe.old).rows plan.now.tasks made t) }
        ensures found { IfOk result (λ made. (t : ℕ) → IsFound made t) }
        ensures names { IfOk result (λ made. length made.names.items ≡ length plan.now.tasks) }
        ensures unihashes { IfOk result (λ made. length made.unihashes.items ≡ length plan.now.tasks) }
        ensures same { P.view probe.new ≡ P.view probe.old }
        ensures stays { P.Stays probe.old probe.new }
        ensures asked { P.asked probe.new ≡ P.asked probe.old }
        ensures cause { Counts (P.faults probe.old) (P.faults probe.new) (probe_failed result) }
    {
        let count = plan.tasks.len();
        let mut made = Names {
            names: no_hashes(alloc, count)?,
            unihashes: no_hashes(alloc, count)?,
            owners: HashMap::with_capacity(alloc, count)?,
            distinct: true,
        };
        for place in 0..count as u32 {
            made.rename(alloc, plan, probe, place)?;
        }
        Ok(made)
    }

    /// Whether names are known to differ, and the unihash of a task's name is the one that is kept.
    pub(crate) fn is_kept<P: Probe>(&self, probe: &P, task: u32) -> bool
        requires names { task < length self.now.names.items }
        requires unihashes { task < length self.now.unihashes.items }
        ensures distinct { result ≡ true → self.now.distinct ≡ true }
        ensures hashed { result ≡ true → IsHashed (P.view probe.now).rows self.now.names.items
            self.now.unihashes.items task }
    {
        let place = task as usize;
        let name = hash_at(self.names.as_slice(), place);
        let kept = hash_at(self.unihashes.as_slice(), place);
        if !self.distinct {
            return false;
        }
        let unihash = unihash_of(probe, &name);
        if are_same(&kept, &unihash) {
            true
        } else {
            false
        }
    }

    /// The tasks that have the name of a task.
    pub(crate) fn namesakes(&self, alloc: Global, task: u32) -> Result<BTreeSet<u32>, Mem>
        requires task { task < length self.now.names.items }
        requires few { length self.now.names.items ≤ 65536 }
        requires found { (t : ℕ) → IsFound self.now t }
        ensures only { IfOk result (λ made. (t : ℕ) → Contains made.keys t → HaveOneName self.now.names.items t task) }
        ensures within { IfOk result (λ made. (t : ℕ) → Contains made.keys t → t < length self.now.names.items) }
        ensures whole { IfOk result (λ made. (t : ℕ) → t < length self.now.names.items
            → HaveOneName self.now.names.items t task → Contains made.keys t) }
    {
        let mut made = BTreeSet::new(alloc);
        if self.distinct {
            made.insert(task)?;
            return Ok(made);
        }
        let names = self.names.as_slice();
        for place in 0..names.len() {
            if is_namesake(names, place, task as usize) {
                made.insert(place as u32)?;
            }
        }
        Ok(made)
    }

    /// Works out anew the name of a task. Where its unihash changed by it, the tasks that need it directly are put into the set.
    fn step<P: Probe>(
        &mut self,
        alloc: Global,
        above: &[ListOf<u32>],
        dirty: &mut BTreeSet<u32>,
        plan: &Plan,
        probe: &mut P,
        place: u32,
    ) -> Result<(), ProbeFault>
        requires plan { (P.view probe.old).plan ≡ plan.now }
        requires ordered { AreOrdered plan.now.tasks }
        requires place { place < length plan.now.tasks }
        requires names { length self.old.names.items ≡ length plan.now.tasks }
        requires unihashes { length self.old.unihashes.items ≡ length plan.now.tasks }
        requires before { (t : ℕ) → t < place → IsRightAt (P.view probe.old).rows plan.now.tasks self.old t }
        ensures steps { OnOk result (Steps (P.view probe.old).rows plan.now.tasks above.now place self.old self.new
            dirty.old.keys dirty.new.keys) }
        ensures same { P.view probe.new ≡ P.view probe.old }
        ensures stays { P.Stays probe.old probe.new }
        ensures asked { P.asked probe.new ≡ P.asked probe.old }
        ensures cause { Counts (P.faults probe.old) (P.faults probe.new) (probe_failed result) }
    {
        if !self.rename(alloc, plan, probe, place)? {
            return Ok(());
        }
        put_above(dirty, above, place)?;
        Ok(())
    }

    /// Works out anew the names of these tasks, and of those above a task whose unihash changed by it, each once, from the first to
    /// the last. Puts those that it worked out at the end of the list.
    pub(crate) fn rework<P: Probe>(
        &mut self,
        alloc: Global,
        above: &[ListOf<u32>],
        dirty: &mut BTreeSet<u32>,
        changed: &mut Vec<u32>,
        plan: &Plan,
        probe: &mut P,
    ) -> Result<(), ProbeFault>
        requires plan { (P.view probe.old).plan ≡ plan.now }
        requires few { length plan.now.tasks ≤ 65536 }
        requires ordered { AreOrdered plan.now.tasks }
        requires above { IsAbove plan.now.tasks above.now }
        requires workable { IsWorkable (P.view probe.old).rows plan.now.tasks self.old dirty.old.keys }
        requires empty { changed.old.items ≡ [] }
        ensures worked { OnOk result (IsWorked (P.view probe.old).rows plan.now.tasks self.old self.new dirty.old.keys
            changed.new.items) }
        ensures same { P.view probe.new ≡ P.view probe.old }
        ensures stays { P.Stays probe.old probe.new }
        ensures asked { P.asked probe.new ≡ P.asked probe.old }
        ensures cause { Counts (P.faults probe.old) (P.faults probe.new) (probe_failed result) }
    {
        while let Some(place) = dirty.pop_first() {
            changed.push(place)?;
            self.step(alloc, above, dirty, plan, probe, place)?;
        }
        Ok(())
    }
}

/// Puts the tasks that need a task directly into the set.
fn put_above(dirty: &mut BTreeSet<u32>, above: &[ListOf<u32>], task: u32) -> Result<(), Mem>
    ensures { OnOk result (PutsAll (above_of above.now task) dirty.old.keys dirty.new.keys) }
{
    if let Some(list) = above.get(task as usize) {
        put_all(dirty, list.as_slice())?;
    }
    Ok(())
}

/// Puts these tasks into the set.
fn put_all(dirty: &mut BTreeSet<u32>, tasks: &[u32]) -> Result<(), Mem>
    ensures { OnOk result (PutsAll tasks.now dirty.old.keys dirty.new.keys) }
{
    for task in tasks {
        dirty.insert(*task)?;
    }
    Ok(())
}
