// Which tasks come after which. Entries are gone through from the last to the first: an order counts where neither of its
// tasks is taken away later.
ghost use Rattle.std.specs.Prelude.{◌≡◌, ◌||◌, ◌&&◌, List, ℕ, OnOk, IfOk, true, false, filter, is_some, bytes_eq};
ghost use Rattle.std.specs.BTreeMap.{get_by_text, IsOrdered};
ghost use Rattle.std.specs.String.{string_cmp};
ghost use Rattle.meta_model.specs.declared.entry.EntryLine.{EntryLine as Line};
ghost use Rattle.meta_model.specs.declared.entry.EntryLine.TheVariants.{Task};
ghost use Rattle.meta_model.specs.Text.{is_in};
ghost use Rattle.meta_model.specs.Tasks as tasks;
ghost use Rattle.value_maps.specs.Picked.{picked};
ghost use Rattle.datastore.specs.Orders.{goes, comes, stay, IsOrderOf};

use meta_model::EntryLine;
use std::alloc::Global;
use std::collections::BTreeMap;
use tree_model::{Mem, Text, Texts};
use value_maps::{Names, names_of, push_if, put_name, put_value};

/// For each task the set of those that it comes after.
pub(crate) type Orders = BTreeMap<String, Names>;

/// A set of one name.
fn first_of(alloc: Global, name: &str) -> Result<Names, Mem>
    ensures { IfOk result (λ made. (b : List ℕ) → is_some (get_by_text made b) ≡ bytes_eq name.now b) }
{
    let mut made = BTreeMap::new(alloc);
    put_name(&mut made, alloc, name)?;
    Ok(made)
}

/// Notes that a task comes after another.
fn put_order(orders: &mut Orders, alloc: Global, task: &str, other: &str) -> Result<(), Mem>
    ensures { OnOk result ((a b : List ℕ) → comes orders.new a b
        ≡ ((bytes_eq task.now a && bytes_eq other.now b) || comes orders.old a b)) }
{
    match orders.get_mut(task) {
        Some(set) => put_name(set, alloc, other),
        None => {
            let set = first_of(alloc, other)?;
            put_value(orders, alloc, task, set)
        }
    }
}

/// Whether one of two tasks goes.
fn goes_one(gone: &Names, task: &str, other: &str) -> bool
    ensures { result ≡ (is_some (get_by_text gone.now task.now) || is_some (get_by_text gone.now other.now)) }
{
    gone.contains_key(task) || gone.contains_key(other)
}

/// Notes that a task comes after another, unless one of them goes.
fn note_pair(
    orders: &mut Orders,
    gone: &Names,
    alloc: Global,
    task: &str,
    other: &str,
) -> Result<(), Mem>
    ensures { OnOk result ((a b : List ℕ) → comes orders.new a b
        ≡ (((bytes_eq task.now a && bytes_eq other.now b) && stay gone.now a b) || comes orders.old a b)) }
{
    if goes_one(gone, task, other) {
        return Ok(());
    }
    put_order(orders, alloc, task, other)
}

/// Notes that a task comes after others.
fn note_after(
    orders: &mut Orders,
    gone: &Names,
    alloc: Global,
    task: &str,
    after: &[Text],
) -> Result<(), Mem>
    ensures { OnOk result ((a b : List ℕ) → comes orders.new a b
        ≡ (((bytes_eq task.now a && is_in b after.now) && stay gone.now a b) || comes orders.old a b)) }
{
    for other in after {
        note_pair(orders, gone, alloc, task, other.as_str())?;
    }
    Ok(())
}

/// Notes that others come after a task.
fn note_before(
    orders: &mut Orders,
    gone: &Names,
    alloc: Global,
    task: &str,
    before: &[Text],
) -> Result<(), Mem>
    ensures { OnOk result ((a b : List ℕ) → comes orders.new a b
        ≡ (((bytes_eq task.now b && is_in a before.now) && stay gone.now a b) || comes orders.old a b)) }
{
    for other in before {
        note_pair(orders, gone, alloc, other.as_str(), task)?;
    }
    Ok(())
}

/// Notes the orders of a task that is added.
fn note_added(
    orders: &mut Orders,
    gone: &Names,
    alloc: Global,
    task: &str,
    after: &[Text],
    before: &[Text],
) -> Result<(), Mem>
    ensures { OnOk result ((a b : List ℕ) → comes orders.new a b
        ≡ ((tasks.comes_after_line a b false (Task task.now after.now before.now) && stay gone.now a b) || comes
        orders.old a b)) }
{
    note_after(orders, gone, alloc, task, after)?;
    note_before(orders, gone, alloc, task, before)
}

/// Notes what an entry says of orders and of tasks that go.
fn note_line(
    orders: &mut Orders,
    gone: &mut Names,
    alloc: Global,
    line: &EntryLine,
) -> Result<(), Mem>
    ensures orders { OnOk result ((a b : List ℕ) → comes orders.new a b
        ≡ ((tasks.comes_after_line a b false line.now && stay gone.old a b) || comes orders.old a b)) }
    ensures gone { OnOk result ((t : List ℕ) → is_some (get_by_text gone.new t)
        ≡ (goes t line.now || is_some (get_by_text gone.old t))) }
{
    match line {
        EntryLine::Task {
            task,
            after,
            before,
        } => note_added(
            orders,
            gone,
            alloc,
            task.as_str(),
            after.as_slice(),
            before.as_slice(),
        ),
        EntryLine::NoTask { task } => put_name(gone, alloc, task.as_str()),
        _ => Ok(()),
    }
}

/// The orders that entries leave.
pub(crate) fn orders_of(alloc: Global, lines: &[EntryLine]) -> Result<Orders, Mem>
    ensures { IfOk result (IsOrderOf lines.now) }
{
    let mut orders = BTreeMap::new(alloc);
    let mut gone = BTreeMap::new(alloc);
    let mut left = lines.len();
    while left > 0 {
        left -= 1;
        note_line(&mut orders, &mut gone, alloc, &lines[left])?;
    }
    Ok(orders)
}

/// The names of a set that are tasks, in byte order.
fn tasks_among(alloc: Global, set: &Names, all: &Names) -> Result<Texts, Mem>
    ensures names { IfOk result (λ made. made ≡ filter (λ t. is_some (get_by_text all.now t))
        (picked (λ there. true) set.now.entries)) }
    ensures ordered { OnOk result (IsOrdered string_cmp set.now) }
{
    let names = names_of(alloc, set)?;
    let mut made = Texts::new(alloc);
    for name in names.as_slice() {
        push_if(&mut made, name, all.contains_key(name.as_str()))?;
    }
    Ok(made)
}

/// The tasks that a task comes after, in byte order.
pub(crate) fn order_of(
    alloc: Global,
    orders: &Orders,
    all: &Names,
    task: &str,
) -> Result<Texts, Mem>
    ensures { (list : List Line) → IsOrderOf list orders.now
        → ((t : List ℕ) → is_some (get_by_text all.now t) ≡ tasks.is_task list t)
        → IfOk result (λ made. made ≡ filter (tasks.comes_after list task.now) (tasks.task_names list)) }
{
    match orders.get(task) {
        Some(set) => Ok(tasks_among(alloc, set, all)?),
        None => Ok(Texts::new(alloc)),
    }
}
