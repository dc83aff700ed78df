// The tasks that entries add and take away.
ghost use Rattle.std.specs.Prelude.{◌≡◌, ◌++◌, ◌∷◌, [], ◌&&◌, not, map, filter, List, ℕ, OnOk, IfOk, true, is_some, bytes_eq};
ghost use Rattle.std.specs.BTreeMap.{get_by_text, IsOrdered};
ghost use Rattle.std.specs.String.{string_cmp};
ghost use Rattle.meta_model.specs.Frozen.{is_task_line};
ghost use Rattle.meta_model.specs.Tasks as tasks;
ghost use Rattle.meta_model.specs.declared.entry.EntryLine.{EntryLine as Line};
ghost use Rattle.datastore.specs.Orders.{IsOrderOf, with_order};

use crate::order::{Orders, order_of, orders_of};
use meta_model::EntryLine;
use std::alloc::Global;
use std::collections::BTreeMap;
use tree_model::{Mem, Text, Texts};
use value_maps::{Names, drop_value, names_of, put_name};

/// Takes a name out of the set.
fn drop_name(set: &mut Names, name: &str)
    ensures { (b : List ℕ) → is_some (get_by_text set.new b)
        ≡ (not (bytes_eq name.now b) && is_some (get_by_text set.old b)) }
{
    drop_value(set, name);
}

/// What an entry makes of the set of tasks.
fn note_task(set: &mut Names, alloc: Global, line: &EntryLine) -> Result<(), Mem>
    ensures { OnOk result ((t : List ℕ) → is_some (get_by_text set.new t)
        ≡ tasks.is_task_after t (is_some (get_by_text set.old t)) line.now) }
{
    match line {
        EntryLine::Task { task, .. } => put_name(set, alloc, task.as_str()),
        EntryLine::NoTask { task } => {
            drop_name(set, task.as_str());
            Ok(())
        }
        _ => Ok(()),
    }
}

/// The set of tasks.
fn tasks_of(alloc: Global, lines: &[EntryLine]) -> Result<Names, Mem>
    ensures { IfOk result (λ made. (t : List ℕ) → is_some (get_by_text made t) ≡ tasks.is_task lines.now t) }
{
    let mut set = BTreeMap::new(alloc);
    for line in lines {
        note_task(&mut set, alloc, line)?;
    }
    Ok(set)
}

/// Puts a task at the end, with those that it comes after.
fn push_task(
    made: &mut Vec<(Text, Texts)>,
    alloc: Global,
    set: &Names,
    orders: &Orders,
    task: &Text,
) -> Result<(), Mem>
    ensures { (list : List Line) → IsOrderOf list orders.now
        → ((t : List ℕ) → is_some (get_by_text set.now t) ≡ tasks.is_task list t)
        → OnOk result (made.new.items ≡ made.old.items ++ with_order list task.now ∷ []) }
{
    let before = order_of(alloc, orders, set, task.as_str())?;
    let task = task.copy()?;
    Ok(made.push((task, before))?)
}

/// Puts tasks at the end, each with those that it comes after.
fn push_tasks(
    made: &mut Vec<(Text, Texts)>,
    alloc: Global,
    set: &Names,
    orders: &Orders,
    all: &[Text],
) -> Result<(), Mem>
    ensures { (list : List Line) → IsOrderOf list orders.now
        → ((t : List ℕ) → is_some (get_by_text set.now t) ≡ tasks.is_task list t)
        → OnOk result (made.new.items ≡ made.old.items ++ map (with_order list) all.now) }
{
    for task in all {
        push_task(made, alloc, set, orders, task)?;
    }
    Ok(())
}

/// The tasks of a set in byte order, each with those that it comes after.
fn with_orders(alloc: Global, set: &Names, orders: &Orders) -> Result<Vec<(Text, Texts)>, Mem>
    ensures { (list : List Line) → IsOrderOf list orders.now
        → ((t : List ℕ) → is_some (get_by_text set.now t) ≡ tasks.is_task list t)
        → IfOk result (λ made. made.items ≡ tasks.tasks list) }
{
    let all = names_of(alloc, set)?;
    let mut made = Vec::new(alloc);
    push_tasks(&mut made, alloc, set, orders, all.as_slice())?;
    Ok(made)
}

/// The tasks in byte order, each with those that it comes after. The lines are all entries of tasks.
pub(crate) fn ordered_tasks(alloc: Global, lines: &[EntryLine]) -> Result<Vec<(Text, Texts)>, Mem>
    ensures { (list : List Line) → lines.now ≡ filter is_task_line list
        → IfOk result (λ made. made.items ≡ tasks.tasks list) }
{
    let set = tasks_of(alloc, lines)?;
    let orders = orders_of(alloc, lines)?;
    with_orders(alloc, &set, &orders)
}
