// What a run knows of a plan's tasks, kept up to date.
ghost use Rattle.std.specs.Prelude.{◌≡◌, ◌<◌, ◌≤◌, ◌+◌, ◌⊎◌, ℕ, [], true, false, All, Contains, IfOk, OnOk, length};
ghost use Rattle.run_core.specs.Need.{AreOrdered};
ghost use Rattle.setscene_plan.specs.Names.{names_over};
ghost use Rattle.setscene_plan.specs.View.{Counts, probe_failed};
ghost use Rattle.setscene_plan.specs.Asked.{SameAt, members, members_beyond, members_of_either};

use crate::asking::{Needs, after_change, plan_need};
use crate::probe::{Probe, ProbeFault};
use crate::work::Names;
use meta_model::{Avail, Plan};
use run_core::all_above;
use std::alloc::Global;
use tree_model::{Hash, ListOf};

/// For each task of a plan its name, whether it is needed, and for each needed one whether its output is there. It is brought up to
/// date after each task that is settled, at the cost of what changes by it.
#[derive(Drop)]
pub struct Replan {
    pub(crate) names: Names,
    /// For each task those that need it directly.
    pub(crate) above: Vec<ListOf<u32>>,
    pub(crate) needs: Needs,
    /// The tasks whose names were worked out anew by the last call of `settled`.
    pub(crate) changed: Vec<u32>,
    /// The tasks of which it changed whether they are needed, or whether their output is there.
    pub(crate) told: Vec<u32>,
}

impl Replan {
    ghost use Rattle.setscene_plan.specs.Replans.{AreReworked, AsksNeeds, IsAsBefore, IsAskable, IsCurrent, IsSettled, ReworksNames, avail_in, names_in, need_in, reworked_in, told_in, unihashes_in};

    /// What a run that begins knows. The probe is asked for the outputs of needed tasks alone, for each at most once.
    ///
    /// `Store` comes only where the probe answered a fault.
    pub fn new<P: Probe>(alloc: Global, plan: &Plan, probe: &mut P) -> Result<Replan, ProbeFault>
        requires plan { (P.view probe.old).plan ≡ plan.now }
        requires few { length plan.now.tasks ≤ 65536 }
        requires ordered { AreOrdered plan.now.tasks }
        requires targets { All (λ t. t < length plan.now.tasks) plan.now.targets }
        ensures current { IfOk result (IsCurrent (P.says probe.old) (P.view probe.old)) }
        ensures names { IfOk result (λ made. names_in made ≡ names_over (P.view probe.old).rows plan.now.tasks) }
        ensures asked { IfOk result (λ made. P.asked probe.new ≤ P.asked probe.old + members (need_in made)) }
        ensures same { P.view probe.new ≡ P.view probe.old }
        ensures stays { P.Stays probe.old probe.new }
        ensures cause { Counts (P.faults probe.old) (P.faults probe.new) (probe_failed result) }
    {
        let names = Names::of_plan(alloc, plan, probe)?;
        let needs = plan_need(alloc, plan, names.unihashes.as_slice(), probe)?;
        let above = all_above(alloc, plan.tasks.as_slice())?;
        Ok(Replan {
            names,
            above,
            needs,
            changed: Vec::new(alloc),
            told: Vec::new(alloc),
        })
    }

    /// The names of the tasks, by their numbers.
    pub fn names(&self) -> &[Hash]
        ensures { result.now ≡ names_in self.now }
    {
        self.names.names.as_slice()
    }

    /// The unihashes of the tasks, by their numbers: what `sig_of` asks for.
    pub fn unihashes(&self) -> &[Hash]
        ensures { result.now ≡ unihashes_in self.now }
    {
        self.names.unihashes.as_slice()
    }

    /// Of each needed task whether its output is there. Of others it says nothing.
    pub fn avail(&self) -> &[Avail]
        ensures { result.now ≡ avail_in self.now }
    {
        self.needs.avail.as_slice()
    }

    /// For each task whether it is needed.
    pub fn need(&self) -> &[bool]
        ensures { result.now ≡ need_in self.now }
    {
        self.needs.need.as_slice()
    }

    /// The tasks of which the last call of `settled` changed whether they are needed, or whether their output is there; some
    /// may stand there twice, or without a change.
    pub fn told(&self) -> &[u32]
        ensures { result.now ≡ told_in self.now }
    {
        self.told.as_slice()
    }

    /// Works out anew the names of the tasks that have a task's name, and of those above a task whose unihash changed by it.
    fn rework<P: Probe>(
        &mut self,
        alloc: Global,
        plan: &Plan,
        probe: &mut P,
        task: u32,
    ) -> Result<(), ProbeFault>
        requires plan { (P.view probe.old).plan ≡ plan.now }
        requires few { length plan.now.tasks ≤ 65536 }
        requires ordered { AreOrdered plan.now.tasks }
        requires task { task < length plan.now.tasks }
        requires settled { IsSettled (P.says probe.old) (P.view probe.old) task self.old }
        requires empty { self.old.changed.items ≡ [] }
        ensures reworks { OnOk result (ReworksNames (P.view probe.old) task self.old self.new) }
        ensures same { P.view probe.new ≡ P.view probe.old }
        ensures stays { P.Stays probe.old probe.new }
        ensures asked { P.asked probe.new ≡ P.asked probe.old }
        ensures cause { Counts (P.faults probe.old) (P.faults probe.new) (probe_failed result) }
    {
        let mut dirty = self.names.namesakes(alloc, task)?;
        self.names.rework(
            alloc,
            self.above.as_slice(),
            &mut dirty,
            &mut self.changed,
            plan,
            probe,
        )?;
        Ok(())
    }

    /// Asks for the outputs of the needed ones of the tasks whose names were worked out anew, and of those that come to be needed.
    fn ask_changed<P: Probe>(
        &mut self,
        alloc: Global,
        plan: &Plan,
        probe: &mut P,
    ) -> Result<(), ProbeFault>
        requires plan { (P.view probe.old).plan ≡ plan.now }
        requires few { length plan.now.tasks ≤ 65536 }
        requires ordered { AreOrdered plan.now.tasks }
        requires targets { All (λ t. t < length plan.now.tasks) plan.now.targets }
        requires askable { IsAskable (P.says probe.old) (P.view probe.old) self.old }
        ensures asks { OnOk result (AsksNeeds (P.says probe.old) (P.view probe.old) self.old self.new) }
        ensures same { P.view probe.new ≡ P.view probe.old }
        ensures stays { P.Stays probe.old probe.new }
        ensures asked { OnOk result (P.asked probe.new ≤ P.asked probe.old +
            (members_beyond (need_in self.new) (need_in self.old) + members_of_either (need_in self.old)
            (need_in self.new) (reworked_in self.old))) }
        ensures cause { Counts (P.faults probe.old) (P.faults probe.new) (probe_failed result) }
    {
        let told = after_change(
            alloc,
            &mut self.needs,
            plan,
            self.names.unihashes.as_slice(),
            probe,
            self.changed.as_slice(),
        )?;
        self.told = told;
        Ok(())
    }

    /// Brings it up to date after a task was settled: after an event by which the row of the task's name, and no other, may have
    /// come to be. It works out anew the names of the tasks that have that name, where its unihash changed or another task has it,
    /// and of the tasks above those whose unihash changed. It asks for the outputs of those of them that are needed, and of the
    /// tasks that come to be needed. Where no unihash changed it looks at no other task, and asks for nothing. It answers whether
    /// anything was worked out anew; else all is as before.
    ///
    /// `Store` comes only where the probe answered a fault. After a refusal the value has to be made anew.
    pub fn settled<P: Probe>(
        &mut self,
        alloc: Global,
        plan: &Plan,
        probe: &mut P,
        task: u32,
    ) -> Result<bool, ProbeFault>
        requires plan { (P.view probe.old).plan ≡ plan.now }
        requires few { length plan.now.tasks ≤ 65536 }
        requires ordered { AreOrdered plan.now.tasks }
        requires targets { All (λ t. t < length plan.now.tasks) plan.now.targets }
        requires task { task < length plan.now.tasks }
        requires settled { IsSettled (P.says probe.old) (P.view probe.old) task self.old }
        ensures current { OnOk result (IsCurrent (P.says probe.old) (P.view probe.old) self.new) }
        ensures names { OnOk result (names_in self.new ≡ names_over (P.view probe.old).rows plan.now.tasks) }
        ensures reworked { OnOk result (AreReworked plan.now.tasks task self.old self.new) }
        ensures asked { OnOk result (P.asked probe.new ≤ P.asked probe.old +
            (members_beyond (need_in self.new) (need_in self.old) + members_of_either (need_in self.old)
            (need_in self.new) (reworked_in self.new))) }
        ensures kept { IfOk result (λ anew. anew ≡ false → IsAsBefore self.old self.new) }
        ensures anew { IfOk result (λ anew. anew ≡ true → Contains (reworked_in self.new) task) }
        ensures told { OnOk result ((t : ℕ) → Contains (told_in self.new) t
            ⊎ SameAt (need_in self.old) (need_in self.new) (avail_in self.old) (avail_in self.new) t) }
        ensures same { P.view probe.new ≡ P.view probe.old }
        ensures stays { P.Stays probe.old probe.new }
        ensures cause { Counts (P.faults probe.old) (P.faults probe.new) (probe_failed result) }
    {
        self.changed.clear();
        self.told.clear();
        if self.names.is_kept(probe, task) {
            return Ok(false);
        }
        self.rework(alloc, plan, probe, task)?;
        self.ask_changed(alloc, plan, probe)?;
        Ok(true)
    }
}
