// The tasks that may be able to go on.
ghost use Rattle.std.specs.Prelude.{◌≡◌, ◌⊎◌, ◌<◌, ◌≤◌, ◌↔◌, ◌++◌, [], ℕ, Bool, true, false, List, All, Contains, IfOk, OnOk, MatchOption, length, replicate};
ghost use Rattle.meta_model.specs.declared.event.Avail.{Avail as Availability};
ghost use Rattle.tale_model.specs.declared.fate.Fate.{Fate as TaskFate};
ghost use Rattle.meta_model.specs.declared.plan.PlanTask.{PlanTask as Task};
ghost use Rattle.run_core.specs.Fates.{CanMark};
ghost use Rattle.tale_model.specs.Fates.{fates_by};
ghost use Rattle.run_core.specs.Need.{AreOrdered};
ghost use Rattle.tale_model.specs.Need.{HasDependencies, deps_of};
ghost use Rattle.run_core.specs.Choice.{CannotGoOn, MayAnswer, MayGoOn};
ghost use Rattle.tale_model.specs.Choice.{IsFinished};
ghost use Rattle.run_core.specs.Above.{IsAbove, IsListed, PutAbove};

use crate::board::Board;
use crate::next::Next;
use crate::scan::{find_any, way_on};
use meta_model::{Avail, Event, Options, Plan, PlanTask};
use std::alloc::Global;
use tale_model::Fate;
use tree_model::{ListOf, Mem};

/// The tasks that may be able to go on, with the tasks above each task. It answers what is next without looking at all tasks:
/// each task is looked at once, and once more for each task that it needs directly and for each change of its own.
#[derive(Drop)]
pub struct Front {
    /// For each task those that need it directly.
    pub(crate) above: Vec<ListOf<u32>>,
    /// The tasks that may be able to go on, in the order in which they are looked at; some may stand there more than once.
    pub(crate) listed: Vec<u32>,
    /// How many of these were looked at.
    pub(crate) head: usize,
    /// Whether memory was wanting for the list, so that others may be able to go on too.
    pub(crate) lossy: bool,
}

/// How a task that may be none of the plan can go on, if it can.
fn way_on_of(
    tasks: &[PlanTask],
    need: &[bool],
    avail: &[Avail],
    fates: &[Fate],
    task: u32,
) -> Option<Next>
    requires few { length tasks.now ≤ 65536 }
    requires need { length need.now ≡ length tasks.now }
    requires avail { length avail.now ≡ length tasks.now }
    requires fates { length fates.now ≡ length tasks.now }
    ensures { MatchOption result (CannotGoOn tasks.now need.now avail.now fates.now task)
        (MayGoOn tasks.now need.now avail.now fates.now) }
{
    let place = task as usize;
    if place >= tasks.len() {
        return None;
    }
    way_on(tasks, need, avail, fates, place)
}

/// The first listed task from a place on that can go on, if there is one. The place moves past those before it, which can't.
fn find_listed(
    listed: &[u32],
    head: &mut usize,
    tasks: &[PlanTask],
    need: &[bool],
    avail: &[Avail],
    fates: &[Fate],
) -> Option<Next>
    requires few { length tasks.now ≤ 65536 }
    requires need { length need.now ≡ length tasks.now }
    requires avail { length avail.now ≡ length tasks.now }
    requires fates { length fates.now ≡ length tasks.now }
    ensures found { MatchOption result (length listed.now ≤ head.new) (MayGoOn tasks.now need.now avail.now fates.now) }
    ensures within { head.old ≤ length listed.now → head.new ≤ length listed.now }
    ensures left { (t : ℕ) → IsListed listed.now head.old t
        → IsListed listed.now head.new t ⊎ CannotGoOn tasks.now need.now avail.now fates.now t }
{
    while *head < listed.len() {
        if let Some(next) = way_on_of(tasks, need, avail, fates, listed[*head]) {
            return Some(next);
        }
        *head += 1;
    }
    None
}

/// Puts tasks on the list, or says that it isn't whole.
fn list_all(listed: &mut Vec<u32>, lossy: &mut bool, tasks: &[u32])
    ensures { lossy.new ≡ false → (lossy.old ≡ false) × (listed.new.items ≡ listed.old.items ++ tasks.now) }
{
    if listed.extend_from_slice(tasks).is_err() {
        *lossy = true;
    }
}

impl Front {
    ghost use Rattle.run_core.specs.Candidates.{ChangesOnly, Covers, Lists, woken};
    ghost use Rattle.run_core.specs.Above.{above_of};

    /// The list of a run in which nothing has happened yet: each task stands on it.
    pub fn new(alloc: Global, plan: &Plan) -> Result<Front, Mem>
        requires ordered { AreOrdered plan.now.tasks }
        requires few { length plan.now.tasks ≤ 65536 }
        ensures { IfOk result (λ front. (need : List Bool) (avail : List Availability) (fates : List TaskFate)
            → length need ≡ length plan.now.tasks → Covers plan.now.tasks need avail fates front) }
    {
        let tasks = plan.tasks.as_slice();
        Ok(Front {
            above: all_above(alloc, tasks)?,
            listed: all_listed(alloc, tasks.len() as u32)?,
            head: 0,
            lossy: false,
        })
    }

    /// Lists the tasks that may be able to go on by an event that was marked.
    fn wake(&mut self, event: &Event)
        ensures { Lists (woken self.old.above.items event.now) self.old self.new }
    {
        match *event {
            Event::Found { task } => self.wake_above(task),
            Event::Restored { task } => self.wake_above(task),
            Event::Started { task: _, seat: _ } => {}
            Event::Ended { task } => self.wake_above(task),
            Event::Failed { task: _, why: _ } => {}
            Event::Broke { task, cut: _ } => list_all(&mut self.listed, &mut self.lossy, &[task]),
        }
    }

    /// Lists the tasks that need this one directly.
    fn wake_above(&mut self, task: u32)
        ensures { Lists (above_of self.old.above.items task) self.old self.new }
    {
        if let Some(above) = self.above.get(task as usize) {
            list_all(&mut self.listed, &mut self.lossy, above.as_slice());
        }
    }

    /// Keeps the list up to date after an event was marked, and after of the waiting tasks these alone came to be needed or
    /// changed whether their output is there.
    pub fn after(&mut self, event: &Event, changed: &[u32])
        ensures { (tasks : List Task) (need new_need : List Bool) (avail new_avail : List Availability)
            (fates : List TaskFate) → Covers tasks need avail fates self.old → CanMark fates event.now
            → ChangesOnly need avail new_need new_avail (fates_by fates event.now) changed.now
            → Covers tasks new_need new_avail (fates_by fates event.now) self.new }
    {
        self.wake(event);
        list_all(&mut self.listed, &mut self.lossy, changed);
    }

    /// A task that can go on, if there is one.
    fn find(
        &mut self,
        tasks: &[PlanTask],
        need: &[bool],
        avail: &[Avail],
        fates: &[Fate],
    ) -> Option<Next>
        requires few { length tasks.now ≤ 65536 }
        requires need { length need.now ≡ length tasks.now }
        requires avail { length avail.now ≡ length tasks.now }
        requires fates { length fates.now ≡ length tasks.now }
        requires covers { Covers tasks.now need.now avail.now fates.now self.old }
        ensures covers { Covers tasks.now need.now avail.now fates.now self.new }
        ensures found { MatchOption result ((t : ℕ) → CannotGoOn tasks.now need.now avail.now fates.now t)
            (MayGoOn tasks.now need.now avail.now fates.now) }
    {
        let found = find_listed(&self.listed, &mut self.head, tasks, need, avail, fates);
        if found.is_some() {
            return found;
        }
        if self.lossy {
            return find_any(tasks, need, avail, fates);
        }
        self.listed.clear();
        self.head = 0;
        None
    }

    /// What is next: the same that `Board::next` may answer.
    pub fn next(
        &mut self,
        board: &Board,
        plan: &Plan,
        need: &[bool],
        avail: &[Avail],
        options: &Options,
    ) -> Next
        requires ordered { AreOrdered plan.now.tasks }
        requires few { length plan.now.tasks ≤ 65536 }
        requires fates { length board.now ≡ length plan.now.tasks }
        requires need { length need.now ≡ length plan.now.tasks }
        requires avail { length avail.now ≡ length plan.now.tasks }
        requires closed { HasDependencies plan.now.tasks avail.now need.now }
        requires covers { Covers plan.now.tasks need.now avail.now board.now self.old }
        ensures covers { Covers plan.now.tasks need.now avail.now board.now self.new }
        ensures answer { MayAnswer options.now plan.now.tasks need.now avail.now board.now result }
        ensures finished { (result ≡ Next.Finished) ↔ IsFinished options.now plan.now.tasks need.now avail.now
            board.now }
    {
        let found = self.find(plan.tasks.as_slice(), need, avail, board.fates());
        board.answer(plan, need, avail, options, found)
    }
}

/// Says of a task that it stands above those that it needs directly.
fn put_above(above: &mut Vec<ListOf<u32>>, deps: &[u32], task: u32) -> Result<(), Mem>
    requires { All (λ d. d < length above.old.items) deps.now }
    ensures { OnOk result (PutAbove above.old.items above.new.items deps.now task) }
{
    for dep in deps {
        above[*dep as usize].push(task)?;
    }
    Ok(())
}

/// For each task those that need it directly.
pub fn all_above(alloc: Global, tasks: &[PlanTask]) -> Result<Vec<ListOf<u32>>, Mem>
    requires ordered { AreOrdered tasks.now }
    requires few { length tasks.now ≤ 65536 }
    ensures { IfOk result (λ above. IsAbove tasks.now above.items) }
{
    let mut above = no_lists(alloc, tasks.len())?;
    for place in 0..tasks.len() {
        put_above(&mut above, tasks[place].deps.as_slice(), place as u32)?;
    }
    Ok(above)
}

/// So many empty lists.
fn no_lists(alloc: Global, count: usize) -> Result<Vec<ListOf<u32>>, Mem>
    ensures { IfOk result (λ made. made.items ≡ replicate count []) }
{
    let mut made = Vec::with_capacity(alloc, count)?;
    for _ in 0..count {
        made.push(ListOf::new(alloc))?;
    }
    Ok(made)
}

/// The numbers below this one.
fn all_listed(alloc: Global, count: u32) -> Result<Vec<u32>, Mem>
    ensures { IfOk result (λ made. (t : ℕ) → t < count → IsListed made.items 0 t) }
{
    let mut made = Vec::with_capacity(alloc, count as usize)?;
    for task in 0..count {
        made.push(task)?;
    }
    Ok(made)
}
