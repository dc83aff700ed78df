// A bench in memory, that looks scripts up in a table.
ghost use Rattle.std.specs.Prelude.{◌≡◌, IfOk, IsTrue, IsSome, [], codes, not, true, None};
ghost use Rattle.std.specs.Option.{option_copied};
ghost use Rattle.tree_model.specs.Folder.{picked};
ghost use Rattle.tree_model.specs.Overlay.{overlaid};
ghost use Rattle.tree_model.specs.Path.{IsClean};
ghost use Rattle.outside_traits.specs.Fault.{Counts, bench_failed};
ghost use Rattle.outside_traits.specs.Bench.{Clears, Gave, IsVacant, Puts, Runs, Takes};
ghost use Rattle.outside_mem.specs.Scripts.{outcome_of, rule_for, stands_in};

use crate::place::Place;
use crate::plan::{FaultPlan, count_fault};
use outside_traits::{Bench, BenchFault, Taken};
use std::alloc::Global;
use tree_model::{Entry, Mem, Size, Text, Tree, pick_is_picked};

/// What is done with the scripts that hold a text.
#[derive(Debug, Drop)]
pub struct Rule {
    /// The text that has to stand somewhere in the script.
    pub needle: Text,

    /// What the script lays over its work tree, where its status is 0.
    pub puts: Tree,

    /// The status of the script's run. One that isn't 0 fails.
    pub status: u32,
}

/// A bench that runs no script, but takes what it does from the first rule whose needle stands in it: it lays a tree over
/// what is laid under `work/`, or fails. With no such rule it gives what is laid there. (Own rule.)
#[derive(Drop)]
pub struct ScriptTable {
    rules: Vec<Rule>,
    plan: FaultPlan,
    waits: FaultPlan,
    faults: u64,
    place: Place,
}

impl ScriptTable {
    ghost use Rattle.outside_mem.specs.Plan.{fresh_plan};
    ghost use Rattle.outside_mem.specs.Scripts.{gives_by};
    ghost use Rattle.outside_mem.specs.Told.{table_faults, table_gives, table_place, table_plan, table_waits};

    /// A bench on which nothing is laid and nothing ran. Its calls with the numbers of `fail`, from 1, fail: each call
    /// of `clear`, `put`, `run` and `take` counts. What it waits for is always written.
    pub fn new(alloc: Global, rules: Vec<Rule>, fail: Vec<u64>) -> ScriptTable
        ensures gives { table_gives result ≡ gives_by rules.items }
        ensures place { table_place result ≡ record { laid = []; cleared = true; output = None; runs = [] } }
        ensures plan { table_plan result ≡ fresh_plan fail }
        ensures waits { (table_waits result).numbers.items ≡ [] }
        ensures fresh { table_faults result ≡ 0 }
    {
        ScriptTable {
            rules,
            plan: FaultPlan::new(fail),
            waits: FaultPlan::new(Vec::new(alloc)),
            faults: 0,
            place: Place::new(alloc),
        }
    }

    /// Its waits with these numbers, from 1, answer from now on that the system hasn't written what was called.
    pub fn fail_waits(&mut self, numbers: Vec<u64>)
        ensures waits { table_waits self.new ≡ fresh_plan numbers }
        ensures gives { table_gives self.new ≡ table_gives self.old }
        ensures place { table_place self.new ≡ table_place self.old }
        ensures plan { table_plan self.new ≡ table_plan self.old }
        ensures faults { table_faults self.new ≡ table_faults self.old }
    {
        self.waits = FaultPlan::new(numbers);
    }
}

impl Bench for ScriptTable {
    ghost use Rattle.outside_mem.specs.Plan.{Follows};
    ghost use Rattle.outside_mem.specs.Told.{table_faults, table_gives, table_place, table_plan, table_waits};

    ghost tells = { Unit {0} };

    ghost gives = { table_gives };

    ghost place = { table_place };

    ghost faults = { table_faults };

    fn clear(&mut self, alloc: Global, _recipe: &str, _task: &str) -> Result<(), BenchFault>
        ensures told { Clears (table_place self.old) (table_place self.new) result }
        ensures gives { table_gives self.new ≡ table_gives self.old }
        ensures cause { Counts (table_faults self.old) (table_faults self.new) (bench_failed result) }
        ensures plan { Follows (table_plan self.old) (table_plan self.new) (bench_failed result) }
        ensures waits { table_waits self.new ≡ table_waits self.old }
    {
        if self.plan.next_fails() {
            count_fault(&mut self.faults);
            return Err(BenchFault::Failed);
        }
        self.place.clear(alloc);
        Ok(())
    }

    fn put(&mut self, alloc: Global, path: &str, entry: &Entry) -> Result<(), BenchFault>
        requires clean { IsClean path.now }
        requires cleared { IsTrue (table_place self.old).cleared }
        requires vacant { IsVacant (table_place self.old).laid path.now }
        ensures told { Puts path.now entry.now (table_place self.old) (table_place self.new) result }
        ensures gives { table_gives self.new ≡ table_gives self.old }
        ensures cause { Counts (table_faults self.old) (table_faults self.new) (bench_failed result) }
        ensures plan { Follows (table_plan self.old) (table_plan self.new) (bench_failed result) }
        ensures waits { table_waits self.new ≡ table_waits self.old }
    {
        if self.plan.next_fails() {
            count_fault(&mut self.faults);
            return Err(BenchFault::Failed);
        }
        Ok(self.place.put(alloc, path, entry)?)
    }

    fn run(&mut self, alloc: Global, script: &str) -> Result<u32, BenchFault>
        requires cleared { IsTrue (table_place self.old).cleared }
        ensures told { Runs (table_gives self.old) script.now (table_place self.old) (table_place self.new) result }
        ensures gives { table_gives self.new ≡ table_gives self.old }
        ensures cause { Counts (table_faults self.old) (table_faults self.new) (bench_failed result) }
        ensures plan { Follows (table_plan self.old) (table_plan self.new) (bench_failed result) }
        ensures waits { table_waits self.new ≡ table_waits self.old }
    {
        if self.plan.next_fails() {
            count_fault(&mut self.faults);
            return Err(BenchFault::Failed);
        }
        let (status, output) = outcome(alloc, &self.rules, script, self.place.laid())?;
        self.place.keep_run(alloc, script, output)?;
        Ok(status)
    }

    fn take(&mut self, alloc: Global, max: Size) -> Result<Taken, BenchFault>
        requires has_output { IsSome (table_place self.old).output }
        ensures told { Takes max (table_place self.old) (table_place self.new) result }
        ensures gives { table_gives self.new ≡ table_gives self.old }
        ensures cause { Counts (table_faults self.old) (table_faults self.new) (bench_failed result) }
        ensures plan { Follows (table_plan self.old) (table_plan self.new) (bench_failed result) }
        ensures waits { table_waits self.new ≡ table_waits self.old }
    {
        if self.plan.next_fails() {
            count_fault(&mut self.faults);
            return Err(BenchFault::Failed);
        }
        Ok(self.place.take(&max))
    }

    fn wait_synced(&mut self) -> bool
        ensures place { table_place self.new ≡ table_place self.old }
        ensures gives { table_gives self.new ≡ table_gives self.old }
        ensures faults { table_faults self.new ≡ table_faults self.old }
        ensures plan { table_plan self.new ≡ table_plan self.old }
        ensures waits { Follows (table_waits self.old) (table_waits self.new) (not result) }
    {
        !self.waits.next_fails()
    }
}

/// The status with which a script ends over what is laid, and its output where that is 0.
fn outcome(
    alloc: Global,
    rules: &[Rule],
    script: &str,
    laid: &Tree,
) -> Result<(u32, Option<Tree>), Mem>
    ensures { IfOk result (λ ended. Gave (outcome_of (rule_for rules.now script.now) (picked (codes "work") laid.now))
        ended.0 ended.1) }
{
    match rule_of(rules, script) {
        None => Ok((0, Some(work_part(alloc, laid)?))),
        Some(rule) => {
            if rule.status == 0 {
                Ok((0, Some(work_under(alloc, laid, &rule.puts)?)))
            } else {
                Ok((rule.status, None))
            }
        }
    }
}

/// What is laid under `work/`.
fn work_part(alloc: Global, laid: &Tree) -> Result<Tree, Mem>
    ensures { IfOk result (λ part. part ≡ picked (codes "work") laid.now) }
{
    let part = laid.pick(alloc, "work")?;
    pick_is_picked("work", laid, &part);
    Ok(part)
}

/// A tree over what is laid under `work/`.
fn work_under(alloc: Global, laid: &Tree, puts: &Tree) -> Result<Tree, Mem>
    ensures { IfOk result (λ both. both ≡ overlaid (picked (codes "work") laid.now) puts.now) }
{
    let mut tree = work_part(alloc, laid)?;
    // Both are trees.
    let (_tree, _puts) = (tree.entries(), puts.entries());
    tree.overlay(alloc, puts)?;
    Ok(tree)
}

/// The first rule whose needle stands in the script.
fn rule_of<'a>(rules: &'a [Rule], script: &str) -> Option<&'a Rule>
    ensures { option_copied result ≡ rule_for rules.now script.now }
{
    rules
        .iter()
        .find(|rule| stands(rule.needle.as_str(), script))
}

/// Whether the needle stands somewhere in the text.
fn stands(needle: &str, text: &str) -> bool
    ensures { result ≡ stands_in needle.now text.now }
{
    text.contains(needle)
}
