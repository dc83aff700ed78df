// What a run needs, asked of a probe.
ghost use Rattle.std.specs.Prelude.{List, Bool, ◌≡◌, ◌≢◌, ◌<◌, ◌≤◌, ◌+◌, ℕ, ◌⊎◌, IfOk, OnErr, OnOk, All, Contains, None, Some, drop, unwrap_or, true, length, replicate, false, slice_get};
ghost use Rattle.meta_model.specs.declared.event.Avail.TheVariants as avails;
ghost use Rattle.run_core.specs.Need.{AreOrdered};
ghost use Rattle.tale_model.specs.Need.{IsIn, IsNeed};
ghost use Rattle.setscene_plan.specs.Sets.{Adds, IsBelow};
ghost use Rattle.setscene_plan.specs.Names.{unihashes_over};
ghost use Rattle.setscene_plan.specs.View.{Counts, IsKnown, probe_failed};
ghost use Rattle.setscene_plan.specs.Asked.{AreNeeds, AsksAll, AsksOne, Knows, SameAt, SameMissing, TakesOut, asks_once, members, members_among, members_beyond, members_of_either};

use crate::probe::{Probe, ProbeFault};
use crate::sweep::{add_all, add_forced};
use meta_model::{Avail, Plan};
use sig_gen::sig_of;
use std::alloc::Global;
use tree_model::{Hash, Mem};

/// For each task of a plan whether it is needed, and for each needed one whether its output is there.
#[derive(Drop)]
pub(crate) struct Needs {
    /// Whether the task is needed.
    pub(crate) need: Vec<bool>,
    /// Of a needed task whether its output is there. Of others it says nothing.
    pub(crate) avail: Vec<Avail>,
}

/// Whether the output of a task is there, asked of the probe.
fn ask<P: Probe>(
    alloc: Global,
    plan: &Plan,
    unihashes: &[Hash],
    probe: &mut P,
    task: u32,
) -> Result<Avail, ProbeFault>
    requires plan { (P.view probe.old).plan ≡ plan.now }
    requires ordered { AreOrdered plan.now.tasks }
    requires task { task < length plan.now.tasks }
    requires unihashes { length unihashes.now ≡ length plan.now.tasks }
    requires over { unihashes.now ≡ unihashes_over (P.view probe.old).rows plan.now.tasks }
    ensures known { IfOk result (λ there. IsKnown (P.says probe.old) (P.view probe.old) unihashes.now task
        (Some there)) }
    ensures same { P.view probe.new ≡ P.view probe.old }
    ensures stays { P.Stays probe.old probe.new }
    ensures asked { P.asked probe.new ≤ P.asked probe.old + 1 }
    ensures cause { Counts (P.faults probe.old) (P.faults probe.new) (probe_failed result) }
{
    let sig = sig_of(alloc, plan, task, unihashes)?;
    probe.avail(plan, task, &sig)
}

/// Whether the output of a task is there, asked where it isn't known.
fn learn<P: Probe>(
    alloc: Global,
    avail: &mut [Avail],
    known: &[bool],
    plan: &Plan,
    unihashes: &[Hash],
    probe: &mut P,
    place: usize,
) -> Result<Avail, ProbeFault>
    requires plan { (P.view probe.old).plan ≡ plan.now }
    requires few { length plan.now.tasks ≤ 65536 }
    requires ordered { AreOrdered plan.now.tasks }
    requires place { place < length plan.now.tasks }
    requires unihashes { length unihashes.now ≡ length plan.now.tasks }
    requires over { unihashes.now ≡ unihashes_over (P.view probe.old).rows plan.now.tasks }
    requires avail { length avail.old ≡ length plan.now.tasks }
    requires long { length known.now ≡ length plan.now.tasks }
    requires known { IsIn known.now place → IsKnown (P.says probe.old) (P.view probe.old) unihashes.now place
        (slice_get avail.old place) }
    ensures here { OnOk result (IsKnown (P.says probe.old) (P.view probe.old) unihashes.now place
        (slice_get avail.new place)) }
    ensures there { IfOk result (λ there. slice_get avail.new place ≡ Some there) }
    ensures elsewhere { (t : ℕ) → t ≢ place → slice_get avail.new t ≡ slice_get avail.old t }
    ensures same { P.view probe.new ≡ P.view probe.old }
    ensures stays { P.Stays probe.old probe.new }
    ensures asked { P.asked probe.new ≤ P.asked probe.old + asks_once (Some true) (slice_get known.now place) }
    ensures cause { Counts (P.faults probe.old) (P.faults probe.new) (probe_failed result) }
{
    if known[place] {
        return Ok(avail[place]);
    }
    let there = ask(alloc, plan, unihashes, probe, place as u32)?;
    avail[place] = there;
    Ok(there)
}

/// One task's turn: where it is needed, it is asked for unless it is known, and where its output is missing, what it needs
/// directly is needed too.
fn visit<P: Probe>(
    alloc: Global,
    set: &mut [bool],
    avail: &mut [Avail],
    known: &[bool],
    plan: &Plan,
    unihashes: &[Hash],
    probe: &mut P,
    place: usize,
) -> Result<(), ProbeFault>
    requires plan { (P.view probe.old).plan ≡ plan.now }
    requires few { length plan.now.tasks ≤ 65536 }
    requires ordered { AreOrdered plan.now.tasks }
    requires place { place < length plan.now.tasks }
    requires unihashes { length unihashes.now ≡ length plan.now.tasks }
    requires over { unihashes.now ≡ unihashes_over (P.view probe.old).rows plan.now.tasks }
    requires set { length set.old ≡ length plan.now.tasks }
    requires avail { length avail.old ≡ length plan.now.tasks }
    requires long { length known.now ≡ length plan.now.tasks }
    requires known { IsIn known.now place → IsKnown (P.says probe.old) (P.view probe.old) unihashes.now place
        (slice_get avail.old place) }
    ensures set { OnOk result (Adds (IsBelow plan.now.tasks avail.new set.old place) set.old set.new) }
    ensures here { OnOk result (IsIn set.old place → IsKnown (P.says probe.old) (P.view probe.old) unihashes.now place
        (slice_get avail.new place)) }
    ensures elsewhere { (t : ℕ) → t ≢ place → slice_get avail.new t ≡ slice_get avail.old t }
    ensures same { P.view probe.new ≡ P.view probe.old }
    ensures stays { P.Stays probe.old probe.new }
    ensures asked { P.asked probe.new ≤ P.asked probe.old + asks_once (slice_get set.old place)
        (slice_get known.now place) }
    ensures cause { Counts (P.faults probe.old) (P.faults probe.new) (probe_failed result) }
{
    if !set[place] {
        return Ok(());
    }
    let tasks = plan.tasks.as_slice();
    match learn(alloc, avail, known, plan, unihashes, probe, place)? {
        Avail::Missing => add_all(set, tasks[place].deps.as_slice()),
        Avail::Work => {}
        Avail::Object => {}
    }
    Ok(())
}

/// Puts all that is needed into an empty set, and asks for those tasks of it that aren't known.
fn sweep_asking<P: Probe>(
    alloc: Global,
    set: &mut [bool],
    avail: &mut [Avail],
    known: &[bool],
    plan: &Plan,
    unihashes: &[Hash],
    probe: &mut P,
) -> Result<(), ProbeFault>
    requires plan { (P.view probe.old).plan ≡ plan.now }
    requires few { length plan.now.tasks ≤ 65536 }
    requires ordered { AreOrdered plan.now.tasks }
    requires targets { All (λ t. t < length plan.now.tasks) plan.now.targets }
    requires unihashes { length unihashes.now ≡ length plan.now.tasks }
    requires over { unihashes.now ≡ unihashes_over (P.view probe.old).rows plan.now.tasks }
    requires avail { length avail.old ≡ length plan.now.tasks }
    requires long { length known.now ≡ length plan.now.tasks }
    requires known { Knows (P.says probe.old) (P.view probe.old) unihashes.now avail.old known.now }
    requires empty { set.old ≡ replicate (length plan.now.tasks) false }
    ensures needs { OnOk result (AreNeeds (P.says probe.old) (P.view probe.old) unihashes.now set.new avail.new) }
    ensures same { P.view probe.new ≡ P.view probe.old }
    ensures stays { P.Stays probe.old probe.new }
    ensures asked { OnOk result (P.asked probe.new ≤ P.asked probe.old + members_beyond set.new known.now) }
    ensures cause { Counts (P.faults probe.old) (P.faults probe.new) (probe_failed result) }
{
    let tasks = plan.tasks.as_slice();
    add_all(set, plan.targets.as_slice());
    add_forced(set, tasks);
    for place in (0..tasks.len()).rev() {
        visit(alloc, set, avail, known, plan, unihashes, probe, place)?;
    }
    Ok(())
}

/// What a run needs, by what the probe answers. It asks for needed tasks alone, for each at most once.
pub(crate) fn plan_need<P: Probe>(
    alloc: Global,
    plan: &Plan,
    unihashes: &[Hash],
    probe: &mut P,
) -> Result<Needs, ProbeFault>
    requires plan { (P.view probe.old).plan ≡ plan.now }
    requires few { length plan.now.tasks ≤ 65536 }
    requires ordered { AreOrdered plan.now.tasks }
    requires targets { All (λ t. t < length plan.now.tasks) plan.now.targets }
    requires unihashes { length unihashes.now ≡ length plan.now.tasks }
    requires over { unihashes.now ≡ unihashes_over (P.view probe.old).rows plan.now.tasks }
    ensures needs { IfOk result (λ made. AreNeeds (P.says probe.old) (P.view probe.old) unihashes.now made.need.items
        made.avail.items) }
    ensures same { P.view probe.new ≡ P.view probe.old }
    ensures stays { P.Stays probe.old probe.new }
    ensures asked { IfOk result (λ made. P.asked probe.new ≤ P.asked probe.old + members made.need.items) }
    ensures cause { Counts (P.faults probe.old) (P.faults probe.new) (probe_failed result) }
{
    let count = plan.tasks.len();
    let mut need = vec![in alloc; false; count]?;
    let mut avail = vec![in alloc; Avail::Missing; count]?;
    let known = vec![in alloc; false; count]?;
    sweep_asking(
        alloc,
        &mut need,
        &mut avail,
        known.as_slice(),
        plan,
        unihashes,
        probe,
    )?;
    Ok(Needs { need, avail })
}

/// Takes these tasks out of the set.
fn take_out(set: &mut [bool], tasks: &[u32])
    requires { All (λ t. t < length set.old) tasks.now }
    ensures { TakesOut tasks.now set.old set.new }
{
    for task in tasks {
        set[*task as usize] = false;
    }
}

/// The same flags.
fn copy_flags(alloc: Global, flags: &[bool]) -> Result<Vec<bool>, Mem>
    ensures { IfOk result (λ made. made.items ≡ flags.now) }
{
    let mut made = Vec::new(alloc);
    made.extend_from_slice(flags)?;
    Ok(made)
}

/// The same availability.
fn copy_avail(alloc: Global, avail: &[Avail]) -> Result<Vec<Avail>, Mem>
    ensures { IfOk result (λ made. made.items ≡ avail.now) }
{
    let mut made = Vec::new(alloc);
    made.extend_from_slice(avail)?;
    Ok(made)
}

/// Whether both are the same.
fn is_same(one: Avail, other: Avail) -> bool
    ensures { result ≡ true → one ≡ other }
{
    match one {
        Avail::Missing => matches!(other, Avail::Missing),
        Avail::Work => matches!(other, Avail::Work),
        Avail::Object => matches!(other, Avail::Object),
    }
}

/// Whether two lists differ at a place, or two others.
fn differ_at(
    need: &[bool],
    new_need: &[bool],
    avail: &[Avail],
    new_avail: &[Avail],
    place: usize,
) -> bool
    requires place { place < length need.now }
    requires new_need { length new_need.now ≡ length need.now }
    requires avail { length avail.now ≡ length need.now }
    requires new_avail { length new_avail.now ≡ length need.now }
    ensures { result ≡ false → SameAt need.now new_need.now avail.now new_avail.now place }
{
    need[place] != new_need[place] || !is_same(avail[place], new_avail[place])
}

/// The places at which two lists differ, or two others.
fn differences(
    alloc: Global,
    need: &[bool],
    new_need: &[bool],
    avail: &[Avail],
    new_avail: &[Avail],
) -> Result<Vec<u32>, Mem>
    requires few { length need.now ≤ 65536 }
    requires new_need { length new_need.now ≡ length need.now }
    requires avail { length avail.now ≡ length need.now }
    requires new_avail { length new_avail.now ≡ length need.now }
    ensures { IfOk result (λ told. (t : ℕ) → Contains told.items t
        ⊎ SameAt need.now new_need.now avail.now new_avail.now t) }
{
    let mut told = Vec::new(alloc);
    for place in 0..need.len() {
        if differ_at(need, new_need, avail, new_avail, place) {
            told.push(place as u32)?;
        }
    }
    Ok(told)
}

/// Works out anew what a run needs. It asks for those of these tasks that are needed, and for those tasks that came to be needed.
/// It answers at least all tasks of which something changed; where it refuses, nothing is changed.
fn sweep_again<P: Probe>(
    alloc: Global,
    needs: &mut Needs,
    plan: &Plan,
    unihashes: &[Hash],
    probe: &mut P,
    changed: &[u32],
) -> Result<Vec<u32>, ProbeFault>
    requires plan { (P.view probe.old).plan ≡ plan.now }
    requires few { length plan.now.tasks ≤ 65536 }
    requires ordered { AreOrdered plan.now.tasks }
    requires targets { All (λ t. t < length plan.now.tasks) plan.now.targets }
    requires unihashes { length unihashes.now ≡ length plan.now.tasks }
    requires over { unihashes.now ≡ unihashes_over (P.view probe.old).rows plan.now.tasks }
    requires need { length needs.old.need.items ≡ length plan.now.tasks }
    requires avail { length needs.old.avail.items ≡ length plan.now.tasks }
    requires within { All (λ t. t < length plan.now.tasks) changed.now }
    requires others { (t : ℕ) → IsIn needs.old.need.items t
        → Contains changed.now t ⊎ IsKnown (P.says probe.old) (P.view probe.old) unihashes.now t
        (slice_get needs.old.avail.items t) }
    ensures needs { OnOk result (AreNeeds (P.says probe.old) (P.view probe.old) unihashes.now needs.new.need.items
        needs.new.avail.items) }
    ensures same { P.view probe.new ≡ P.view probe.old }
    ensures stays { P.Stays probe.old probe.new }
    ensures asked { OnOk result (P.asked probe.new ≤ P.asked probe.old +
        (members_beyond needs.new.need.items needs.old.need.items + members_among needs.new.need.items changed.now)) }
    ensures told { IfOk result (λ told. (t : ℕ) → Contains told.items t
        ⊎ SameAt needs.old.need.items needs.new.need.items needs.old.avail.items needs.new.avail.items t) }
    ensures refused { OnErr result (needs.new ≡ needs.old) }
    ensures cause { Counts (P.faults probe.old) (P.faults probe.new) (probe_failed result) }
{
    let mut known = copy_flags(alloc, needs.need.as_slice())?;
    take_out(&mut known, changed);
    let mut need = vec![in alloc; false; plan.tasks.len()]?;
    let mut avail = copy_avail(alloc, needs.avail.as_slice())?;
    sweep_asking(
        alloc,
        &mut need,
        &mut avail,
        known.as_slice(),
        plan,
        unihashes,
        probe,
    )?;
    let told = differences(
        alloc,
        needs.need.as_slice(),
        need.as_slice(),
        needs.avail.as_slice(),
        avail.as_slice(),
    )?;
    needs.need = need;
    needs.avail = avail;
    Ok(told)
}

/// Asks for a task, if it is needed. Answers whether it turned from missing to there or back.
fn ask_one<P: Probe>(
    alloc: Global,
    need: &[bool],
    avail: &mut [Avail],
    told: &mut Vec<u32>,
    plan: &Plan,
    unihashes: &[Hash],
    probe: &mut P,
    task: u32,
) -> Result<bool, ProbeFault>
    requires plan { (P.view probe.old).plan ≡ plan.now }
    requires ordered { AreOrdered plan.now.tasks }
    requires place { task < length plan.now.tasks }
    requires unihashes { length unihashes.now ≡ length plan.now.tasks }
    requires over { unihashes.now ≡ unihashes_over (P.view probe.old).rows plan.now.tasks }
    requires need { length need.now ≡ length plan.now.tasks }
    requires long { length avail.old ≡ length need.now }
    ensures one { IfOk result (λ turned. AsksOne (P.says probe.old) (P.view probe.old) unihashes.now need.now task
        avail.old avail.new told.old.items told.new.items turned) }
    ensures same { P.view probe.new ≡ P.view probe.old }
    ensures stays { P.Stays probe.old probe.new }
    ensures asked { P.asked probe.new ≤ P.asked probe.old + asks_once (slice_get need.now task) None }
    ensures cause { Counts (P.faults probe.old) (P.faults probe.new) (probe_failed result) }
{
    let place = task as usize;
    if !need[place] {
        return Ok(false);
    }
    let before = avail[place];
    let there = ask(alloc, plan, unihashes, probe, task)?;
    if is_same(before, there) {
        return Ok(false);
    }
    avail[place] = there;
    told.push(task)?;
    Ok(turns(before, there))
}

/// Whether one of both is missing and the other is there.
fn turns(before: Avail, there: Avail) -> bool
    ensures { result ≡ false → (before ≡ avails.Missing → there ≡ avails.Missing)
        × (there ≡ avails.Missing → before ≡ avails.Missing) }
{
    matches!(before, Avail::Missing) != matches!(there, Avail::Missing)
}

/// Asks for the needed ones of these tasks, from the last one on, up to one that turned from missing to there or back. Answers
/// how many are left, if one turned.
fn ask_again<P: Probe>(
    alloc: Global,
    need: &[bool],
    avail: &mut [Avail],
    told: &mut Vec<u32>,
    plan: &Plan,
    unihashes: &[Hash],
    probe: &mut P,
    changed: &[u32],
) -> Result<Option<usize>, ProbeFault>
    requires plan { (P.view probe.old).plan ≡ plan.now }
    requires ordered { AreOrdered plan.now.tasks }
    requires unihashes { length unihashes.now ≡ length plan.now.tasks }
    requires over { unihashes.now ≡ unihashes_over (P.view probe.old).rows plan.now.tasks }
    requires need { length need.now ≡ length plan.now.tasks }
    requires within { All (λ t. t < length plan.now.tasks) changed.now }
    requires long { length avail.old ≡ length need.now }
    requires others { (t : ℕ) → IsIn need.now t → Contains changed.now t
        ⊎ IsKnown (P.says probe.old) (P.view probe.old) unihashes.now t (slice_get avail.old t) }
    ensures all { IfOk result (λ turned. AsksAll (P.says probe.old) (P.view probe.old) unihashes.now need.now
        changed.now (unwrap_or turned 0) avail.old avail.new told.new.items) }
    ensures missing { IfOk result (λ turned. turned ≡ None → SameMissing avail.old avail.new) }
    ensures within { IfOk result (λ turned. unwrap_or turned 0 ≤ length changed.now) }
    ensures same { P.view probe.new ≡ P.view probe.old }
    ensures stays { P.Stays probe.old probe.new }
    ensures asked { IfOk result (λ turned. P.asked probe.new ≤ P.asked probe.old + members_among need.now
        (drop (unwrap_or turned 0) changed.now)) }
    ensures cause { Counts (P.faults probe.old) (P.faults probe.new) (probe_failed result) }
{
    for place in (0..changed.len()).rev() {
        if ask_one(
            alloc,
            need,
            avail,
            told,
            plan,
            unihashes,
            probe,
            changed[place],
        )? {
            return Ok(Some(place));
        }
    }
    Ok(None)
}

/// Brings up to date what a run needs, after the probe's answers changed for these tasks alone, of those that were needed. Where
/// none of them turned from missing to there or back, no other task is looked at.
pub(crate) fn after_change<P: Probe>(
    alloc: Global,
    needs: &mut Needs,
    plan: &Plan,
    unihashes: &[Hash],
    probe: &mut P,
    changed: &[u32],
) -> Result<Vec<u32>, ProbeFault>
    requires plan { (P.view probe.old).plan ≡ plan.now }
    requires few { length plan.now.tasks ≤ 65536 }
    requires ordered { AreOrdered plan.now.tasks }
    requires targets { All (λ t. t < length plan.now.tasks) plan.now.targets }
    requires unihashes { length unihashes.now ≡ length plan.now.tasks }
    requires over { unihashes.now ≡ unihashes_over (P.view probe.old).rows plan.now.tasks }
    requires own { IsNeed plan.now needs.old.avail.items needs.old.need.items }
    requires avail { length needs.old.avail.items ≡ length plan.now.tasks }
    requires within { All (λ t. t < length plan.now.tasks) changed.now }
    requires others { (t : ℕ) → IsIn needs.old.need.items t
        → Contains changed.now t ⊎ IsKnown (P.says probe.old) (P.view probe.old) unihashes.now t
        (slice_get needs.old.avail.items t) }
    ensures needs { OnOk result (AreNeeds (P.says probe.old) (P.view probe.old) unihashes.now needs.new.need.items
        needs.new.avail.items) }
    ensures same { P.view probe.new ≡ P.view probe.old }
    ensures stays { P.Stays probe.old probe.new }
    ensures asked { OnOk result (P.asked probe.new ≤ P.asked probe.old +
        (members_beyond needs.new.need.items needs.old.need.items + members_of_either needs.old.need.items
        needs.new.need.items changed.now)) }
    ensures told { IfOk result (λ told. (t : ℕ) → Contains told.items t
        ⊎ SameAt needs.old.need.items needs.new.need.items needs.old.avail.items needs.new.avail.items t) }
    ensures cause { Counts (P.faults probe.old) (P.faults probe.new) (probe_failed result) }
{
    let mut told = Vec::new(alloc);
    match ask_again(
        alloc,
        needs.need.as_slice(),
        &mut needs.avail,
        &mut told,
        plan,
        unihashes,
        probe,
        changed,
    )? {
        None => Ok(told),
        Some(left) => {
            let more = sweep_again(alloc, needs, plan, unihashes, probe, &changed[..left])?;
            told.extend_from_slice(more.as_slice())?;
            Ok(told)
        }
    }
}
