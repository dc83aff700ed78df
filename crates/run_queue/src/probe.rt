// The store, asked on the tasks of a plan.
ghost use Rattle.std.specs.Prelude.{◌≡◌, ◌<◌, ◌≤◌, All, IfOk, IfErr, None, OnOk, Some, length, slice_get, unwrap_or};
ghost use Rattle.outside_traits.specs.Passes.{Passes, Same};
ghost use Rattle.run_core.specs.Need.{AreOrdered};
ghost use Rattle.setscene_plan.specs.Names.{names_over};
ghost use Rattle.setscene_plan.specs.Replans.{IsCurrent, IsSettled, names_in};
ghost use Rattle.build_store.specs.View.{SameBooks};
ghost use Rattle.run_queue.specs.Asking.{Asks, IsUnknown, Keeps, answered_of, begun_as, earlier_in, fault_count, kept_or_meant, meant};
ghost use Rattle.run_queue.specs.Seen.{no_meaning};

use build_store::{Store, StoreFault};
use meta_model::{Avail, Plan, PlanTask};
use outside_traits::Disk;
use setscene_plan::{Probe, ProbeFault, Replan};
use sig_gen::{encode, name_by};
use std::alloc::Global;
use std::marker::{Brand, PhantomData};
use store_model::{SigRecord, SigText};
use tree_model::{Hash, Mem};

/// What was kept of a plan's tasks before a store is asked.
pub(crate) trait Before {
    ghost use Rattle.run_queue.specs.Asking.{Earlier};

    /// The unihashes of the tasks, which were needed, and how their outputs were there.
    ghost earlier: { Earlier };
}

/// Nothing was kept, unless a call says otherwise.
impl Before for Brand {
    ghost use Rattle.run_queue.specs.Asking.{nothing_earlier};

    ghost earlier = { nothing_earlier };
}

/// A store that is asked on the tasks of one plan. Of tasks whose publishing or restoring was begun it isn't asked: what was answered
/// before still counts. It keeps the first fault that it meets, and asks nothing then.
#[derive(Drop)]
pub(crate) struct Asking<'a, D: Disk, E: Before> {
    alloc: Global,
    plan: &'a Plan,
    store: &'a mut Store<D>,
    /// Of each task that was begun what the store had answered of it.
    begun: &'a [Option<Avail>],
    setscene: bool,
    fault: &'a mut Option<StoreFault>,
    /// What was kept before; an answer that is kept still means what it meant.
    earlier: PhantomData<E>,
}

/// Keeps a fault, unless it is want of memory.
fn keep(kept: &mut Option<StoreFault>, fault: StoreFault) -> ProbeFault
    ensures { Keeps fault kept.old kept.new result }
{
    match fault {
        StoreFault::Memory => ProbeFault::Memory,
        other => {
            *kept = Some(other);
            ProbeFault::Store
        }
    }
}

/// What had been answered of a task that was begun.
fn answered(begun: &[Option<Avail>], place: usize) -> Option<Avail>
    ensures { result ≡ answered_of begun.now place }
{
    match begun.get(place) {
        Some(before) => *before,
        None => None,
    }
}

/// The task of this number.
fn task_at(plan: &Plan, place: usize) -> &PlanTask
    requires { place < length plan.now.tasks }
    ensures { slice_get plan.now.tasks place ≡ Some result.now }
{
    &plan.tasks.as_slice()[place]
}

/// How a task is there that was begun, which had been answered so before.
fn as_begun<D: Disk>(
    alloc: Global,
    store: &Store<D>,
    sig: &SigRecord,
    before: Avail,
) -> Result<Avail, Mem>
    ensures { IfOk result (λ there. there ≡ begun_as store.now.rows sig.now before) }
{
    let text = encode(alloc, sig)?;
    let name = name_by(&text);
    match store.unihash(&name) {
        Some(_) => Ok(before),
        None => Ok(Avail::Missing),
    }
}

impl<D: Disk, E: Before> Probe for Asking<'_, D, E> {
    ghost use Rattle.std.specs.Prelude.{◌≡◌, refl};
    ghost use Rattle.std.proofs.Common.{◌∙◌, sym, ap};
    ghost use Rattle.meta_model.specs.declared.plan.Plan.{Plan as ThePlan};
    ghost use Rattle.run_queue.specs.AskingLaws.{asks_itself, asks_on, kept_or_meant_follows};

    ghost view = { λ p. record { plan = p.plan.now; rows = p.store.now.rows } };

    ghost says = { λ p. kept_or_meant E.earlier D.tells (D.story p.store.now.disk).held p.store.now.rows p.setscene
        p.plan.now.tasks p.begun.now };

    ghost Stays = { λ a b.
        (b.plan.now ≡ a.plan.now) × (b.begun.now ≡ a.begun.now) × (b.setscene ≡ a.setscene)
        × (b.store.ghost_name ≡ a.store.ghost_name) × (b.fault.ghost_name ≡ a.fault.ghost_name)
        × Asks a.plan.now D.tells D.story D.faults a.store.now b.store.now a.fault.now b.fault.now };

    ghost asked = { λ p. 0 };

    ghost faults = { λ p. fault_count p.fault.now };

    fn unihash(&self, name: &Hash) -> Option<Hash> {
        self.store.unihash(name)
    }

    fn known_name(&self, pn: &str, sig: &SigText) -> Option<Hash> {
        self.store.known_name(pn, sig)
    }

    fn compare(&mut self, name: &Hash, sig: &SigText) -> Result<(), ProbeFault> {
        match self.fault {
            Some(_) => return Err(ProbeFault::Memory),
            None => {}
        }
        match self.store.compare(self.alloc, name, sig) {
            Ok(()) => Ok(()),
            Err(fault) => Err(keep(self.fault, fault)),
        }
    }

    fn avail(&mut self, plan: &Plan, task: u32, sig: &SigRecord) -> Result<Avail, ProbeFault> {
        match self.fault {
            Some(_) => return Err(ProbeFault::Memory),
            None => {}
        }
        match answered(self.begun, task as usize) {
            Some(before) => return Ok(as_begun(self.alloc, self.store, sig, before)?),
            None => {}
        }
        let own = task_at(plan, task as usize);
        match self.store.available(self.alloc, own, sig, self.setscene) {
            Ok(there) => Ok(there),
            Err(fault) => Err(keep(self.fault, fault)),
        }
    }

    ghost stays_itself = { λ p.
        (refl, refl, refl, refl, refl, asks_itself p.plan.now D.tells D.story D.faults p.store.now p.fault.now) };

    ghost stays_on = { λ a b c first second. (
      second.0 ∙ first.0,
      second.1 ∙ first.1,
      second.2 ∙ first.2,
      second.3 ∙ first.3,
      second.4 ∙ first.4,
      asks_on a.plan.now D.tells D.story D.faults b.plan.now a.store.now b.store.now c.store.now a.fault.now
          b.fault.now c.fault.now first.0 first.5 second.5,
    ) };

    ghost says_stays = { λ a b stays. kept_or_meant_follows E.earlier D.tells
        (λ tells. (stays.5.images tells).held) stays.5.rows stays.2 (ap (λ (p : ThePlan). p.tasks) stays.0) stays.1 };

    ghost says_still = { λ a b stays. kept_or_meant_follows E.earlier D.tells
        (λ tells. sym (stays.5.images tells).held) (sym stays.5.rows) (sym stays.2)
        (ap (λ (p : ThePlan). p.tasks) (sym stays.0)) (sym stays.1) };
}

/// What a run knows of a plan's tasks, asked of a store that had met no fault.
fn ask_all<D: Disk>(asking: &mut Asking<D, Brand>, plan: &Plan) -> Result<Replan, ProbeFault>
    requires plan { asking.old.plan.now ≡ plan.now }
    requires few { length plan.now.tasks ≤ 65536 }
    requires ordered { AreOrdered plan.now.tasks }
    requires targets { All (λ t. t < length plan.now.tasks) plan.now.targets }
    requires fault { asking.old.fault.now ≡ None }
    ensures current { IfOk result (λ made. IsCurrent (meant D.tells (D.story asking.old.store.now.disk).held
        asking.old.store.now.rows asking.old.setscene plan.now.tasks asking.old.begun.now)
        (record { plan = plan.now; rows = asking.old.store.now.rows }) made) }
    ensures names { IfOk result (λ made. names_in made ≡ names_over asking.old.store.now.rows plan.now.tasks) }
    ensures fine { OnOk result (asking.new.fault.now ≡ None) }
    ensures refused { IsUnknown asking.old.plan.now asking.new.store.now.rows (D.faults asking.old.store.now.disk)
        (D.faults asking.new.store.now.disk) (unwrap_or asking.new.fault.now StoreFault.Memory) }
    ensures asks { Asks asking.old.plan.now D.tells D.story D.faults asking.old.store.now asking.new.store.now None
        asking.new.fault.now }
    ensures same_store { asking.new.store.ghost_name ≡ asking.old.store.ghost_name }
    ensures same_fault { asking.new.fault.ghost_name ≡ asking.old.fault.ghost_name }
{
    Replan::new(asking.alloc, plan, asking)
}

/// What a run knows, brought up to date after a task was settled, by a store that had met no fault.
fn ask_changed<D: Disk, E: Before>(
    known: &mut Replan,
    asking: &mut Asking<D, E>,
    plan: &Plan,
    task: u32,
) -> Result<bool, ProbeFault>
    requires plan { asking.old.plan.now ≡ plan.now }
    requires few { length plan.now.tasks ≤ 65536 }
    requires ordered { AreOrdered plan.now.tasks }
    requires targets { All (λ t. t < length plan.now.tasks) plan.now.targets }
    requires task { task < length plan.now.tasks }
    requires fault { asking.old.fault.now ≡ None }
    requires earlier { E.earlier ≡ earlier_in known.old }
    requires settled { IsSettled no_meaning (record { plan = plan.now; rows = asking.old.store.now.rows }) task
        known.old }
    ensures current { OnOk result (IsCurrent (kept_or_meant E.earlier D.tells (D.story asking.old.store.now.disk).held
        asking.old.store.now.rows asking.old.setscene plan.now.tasks asking.old.begun.now)
        (record { plan = plan.now; rows = asking.old.store.now.rows }) known.new) }
    ensures fine { OnOk result (asking.new.fault.now ≡ None) }
    ensures refused { IsUnknown asking.old.plan.now asking.new.store.now.rows (D.faults asking.old.store.now.disk)
        (D.faults asking.new.store.now.disk) (unwrap_or asking.new.fault.now StoreFault.Memory) }
    ensures asks { Asks asking.old.plan.now D.tells D.story D.faults asking.old.store.now asking.new.store.now None
        asking.new.fault.now }
    ensures same_store { asking.new.store.ghost_name ≡ asking.old.store.ghost_name }
    ensures same_fault { asking.new.fault.ghost_name ≡ asking.old.fault.ghost_name }
{
    known.settled(asking.alloc, plan, asking, task)
}

/// What a run knows of a plan's tasks, made anew: the store is asked of needed tasks alone that weren't begun. Nothing changes.
pub(crate) fn known_of<D: Disk>(
    alloc: Global,
    plan: &Plan,
    store: &mut Store<D>,
    begun: &[Option<Avail>],
    setscene: bool,
) -> Result<Replan, StoreFault>
    requires few { length plan.now.tasks ≤ 65536 }
    requires ordered { AreOrdered plan.now.tasks }
    requires targets { All (λ t. t < length plan.now.tasks) plan.now.targets }
    ensures current { IfOk result (λ made. IsCurrent (meant D.tells (D.story store.old.disk).held store.old.rows
        setscene plan.now.tasks begun.now) (record { plan = plan.now; rows = store.old.rows }) made) }
    ensures names { IfOk result (λ made. names_in made ≡ names_over store.old.rows plan.now.tasks) }
    ensures refused { IfErr result (IsUnknown plan.now store.new.rows (D.faults store.old.disk)
        (D.faults store.new.disk)) }
    ensures fine { OnOk result (D.faults store.new.disk ≡ D.faults store.old.disk) }

    // Whatever it answers.
    ensures same { SameBooks store.old store.new }
    ensures images { D.tells → Passes (D.story store.old.disk) (D.story store.new.disk) Same }
{
    let mut fault = None;
    let mut asking = Asking {
        alloc,
        plan,
        store,
        begun,
        setscene,
        fault: &mut fault,
        earlier: PhantomData::<Brand>,
    };
    match ask_all(&mut asking, plan) {
        Ok(replan) => Ok(replan),
        Err(_) => Err(fault.unwrap_or(StoreFault::Memory)),
    }
}

/// What a run knew of a plan's tasks, brought up to date by a store after a task was settled; `E` stands for what it knew.
fn settled_by<D: Disk, E: Before>(
    alloc: Global,
    plan: &Plan,
    store: &mut Store<D>,
    begun: &[Option<Avail>],
    setscene: bool,
    known: Replan,
    task: u32,
) -> Result<Replan, StoreFault>
    requires few { length plan.now.tasks ≤ 65536 }
    requires ordered { AreOrdered plan.now.tasks }
    requires targets { All (λ t. t < length plan.now.tasks) plan.now.targets }
    requires task { task < length plan.now.tasks }
    requires earlier { E.earlier ≡ earlier_in known }
    requires settled { IsSettled no_meaning (record { plan = plan.now; rows = store.old.rows }) task known }
    ensures current { IfOk result (λ made. IsCurrent (kept_or_meant E.earlier D.tells (D.story store.old.disk).held
        store.old.rows setscene plan.now.tasks begun.now) (record { plan = plan.now; rows = store.old.rows }) made) }
    ensures refused { IfErr result (IsUnknown plan.now store.new.rows (D.faults store.old.disk)
        (D.faults store.new.disk)) }
    ensures fine { OnOk result (D.faults store.new.disk ≡ D.faults store.old.disk) }
    ensures same { SameBooks store.old store.new }
    ensures images { D.tells → Passes (D.story store.old.disk) (D.story store.new.disk) Same }
{
    let mut known = known;
    let mut fault = None;
    let mut asking = Asking {
        alloc,
        plan,
        store,
        begun,
        setscene,
        fault: &mut fault,
        earlier: PhantomData::<E>,
    };
    match ask_changed(&mut known, &mut asking, plan, task) {
        Ok(_) => Ok(known),
        Err(_) => Err(fault.unwrap_or(StoreFault::Memory)),
    }
}

/// What a run knew of a plan's tasks, brought up to date after a task was settled: the store is asked of needed tasks alone that weren't
/// begun, where their signatures changed or they came to be needed. Nothing changes in it.
pub(crate) fn known_after<D: Disk>(
    alloc: Global,
    plan: &Plan,
    store: &mut Store<D>,
    begun: &[Option<Avail>],
    setscene: bool,
    known: Replan,
    task: u32,
) -> Result<Replan, StoreFault>
    requires few { length plan.now.tasks ≤ 65536 }
    requires ordered { AreOrdered plan.now.tasks }
    requires targets { All (λ t. t < length plan.now.tasks) plan.now.targets }
    requires task { task < length plan.now.tasks }
    requires settled { IsSettled no_meaning (record { plan = plan.now; rows = store.old.rows }) task known }
    ensures current { IfOk result (λ made. IsCurrent (kept_or_meant (earlier_in known) D.tells
        (D.story store.old.disk).held store.old.rows setscene plan.now.tasks begun.now)
        (record { plan = plan.now; rows = store.old.rows }) made) }
    ensures refused { IfErr result (IsUnknown plan.now store.new.rows (D.faults store.old.disk)
        (D.faults store.new.disk)) }
    ensures fine { OnOk result (D.faults store.new.disk ≡ D.faults store.old.disk) }

    // Whatever it answers.
    ensures same { SameBooks store.old store.new }
    ensures images { D.tells → Passes (D.story store.old.disk) (D.story store.new.disk) Same }
{
    settled_by::<D, Brand>(alloc, plan, store, begun, setscene, known, task)
}
