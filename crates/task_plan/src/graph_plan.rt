// The plan of a graph.
ghost use Rattle.std.specs.Prelude.{◌≡◌, ◌<◌, [], false, length, nat_eq, All, Ok, IfOk, IfErr};
ghost use Rattle.std.specs.List.{list_any};
ghost use Rattle.outside_traits.specs.Fault.{Counts};
ghost use Rattle.outside_traits.specs.Store.{SameFiles};
ghost use Rattle.plan_model.specs.Plans as plans;
ghost use Rattle.task_plan.specs.Faults.{IsPlanFault, IsWantOfMemory, plan_failed};
ghost use Rattle.task_plan.specs.Steps.{forced_tasks};

use crate::ahead::{make_ahead, take};
use crate::fault::PlanFault;
use crate::planned::{Sums, copy_numbers, planned_node};
use meta_model::{Graph, Node, Plan, PlanTask};
use outside_traits::Layers;
use recipe_set::RecipeSet;
use std::alloc::Global;
use std::collections::BTreeMap;
use std::thread::Threads;
use tree_model::ListOf;

/// Whether the task with this number is one of these.
fn is_one_of(numbers: &[u32], number: usize) -> bool
    ensures { result ≡ list_any (nat_eq number) numbers.now }
{
    numbers.iter().any(|n| number == *n as usize)
}

/// The tasks of some nodes, of which so many threads make ahead what they can. Those with these numbers run in each run.
fn tasks_of<R: Threads + Sync, L: Layers>(
    rt: &R,
    alloc: Global,
    layers: &mut L,
    set: &RecipeSet,
    nodes: &[Node],
    forced: &[u32],
    threads: u32,
) -> Result<ListOf<PlanTask>, PlanFault>
    requires { All (λ node. node.recipe < length set.now.facts.recipes) nodes.now }
    ensures ok { IfOk result (λ made. L.tells → forced_tasks (L.files layers.old) set.now plans.no_sums 0 forced.now
        nodes.now ≡ Ok made) }
    ensures err { IfErr result (λ fault. L.tells → IsPlanFault fault
        (forced_tasks (L.files layers.old) set.now plans.no_sums 0 forced.now nodes.now)) }
    ensures same { SameFiles L.files layers.old layers.new }
    ensures cause { Counts (L.faults layers.old) (L.faults layers.new) (plan_failed result) }
{
    let mut shares = make_ahead(rt, alloc, set, nodes, threads);
    let ahead = shares.as_mut_slice();
    let mut kept = BTreeMap::new(alloc);
    let mut sums = Sums {
        texts: 0,
        inputs: 0,
    };
    let mut tasks = ListOf::new(alloc);
    for (number, node) in nodes.iter().enumerate() {
        let made = take(ahead, node.recipe, number);
        let mut task = planned_node(alloc, layers, set, &mut kept, made, node, &mut sums)?;
        task.nostamp = task.nostamp || is_one_of(forced, number);
        tasks.push(task)?;
    }
    Ok(tasks)
}

/// A plan of these tasks.
fn plan_with(
    alloc: Global,
    graph: &Graph,
    threads: u32,
    tasks: ListOf<PlanTask>,
) -> Result<Plan, PlanFault>
    ensures ok { IfOk result (λ made. made ≡ record { threads = threads; targets = graph.now.targets; tasks = tasks }) }
    ensures err { IfErr result IsWantOfMemory }
    ensures not_read { plan_failed result ≡ false }
{
    match copy_numbers(alloc, graph.targets.as_slice()) {
        Ok(targets) => Ok(Plan {
            threads,
            targets,
            tasks,
        }),
        Err(_) => Err(PlanFault::Memory),
    }
}

/// The plan of a graph of these recipes, with this number of threads: the tasks of its nodes, in their order.
///
/// Refused as the definition is, with the refusal of the earliest task, of which the first in this order counts: its key (`Data`),
/// the expansion of `[file-checksums]` (`Data`), its words in their order (`MissingFile`, `InputBytes`, or `PlanBytes` where all
/// input files so far have more than 268,435,456 bytes), its script and its places (`BadFlag`, `Data`), `[nostamp]` (`Data`), and
/// `PlanBytes` where the keys' lines and the scripts so far have more than 268,435,456 bytes (own rules). `Read` comes only where the
/// layers' count of faults rose, `Memory` where memory ran out. No call changes a file.
///
/// Each word of `[file-checksums]` is read once for each task that has it. As many threads as the plan has make keys and scripts where
/// there are many tasks; the result doesn't depend on them.
pub fn plan<R: Threads + Sync, L: Layers>(
    rt: &R,
    alloc: Global,
    set: &RecipeSet,
    layers: &mut L,
    graph: &Graph,
    threads: u32,
) -> Result<Plan, PlanFault>
    // the graph was built from these facts
    requires over { plans.IsOver set.now.facts graph.now }
    ensures ok { IfOk result (λ made. L.tells → plans.plan_of (L.files layers.old) set.now graph.now threads
        ≡ Ok made) }
    ensures err { IfErr result (λ fault. L.tells → IsPlanFault fault
        (plans.plan_of (L.files layers.old) set.now graph.now threads)) }
    ensures same { SameFiles L.files layers.old layers.new }
    ensures cause { Counts (L.faults layers.old) (L.faults layers.new) (plan_failed result) }
{
    let nodes = graph.nodes.as_slice();
    match tasks_of(rt, alloc, layers, set, nodes, &[], threads) {
        Ok(tasks) => plan_with(alloc, graph, threads, tasks),
        Err(fault) => Err(fault),
    }
}

/// The plan with the option `-f`: the tasks of the graph's targets run in this run, as those with `[nostamp]` do. It is refused as
/// `plan` is.
pub fn forced_plan<R: Threads + Sync, L: Layers>(
    rt: &R,
    alloc: Global,
    set: &RecipeSet,
    layers: &mut L,
    graph: &Graph,
    threads: u32,
) -> Result<Plan, PlanFault>
    // the graph was built from these facts
    requires over { plans.IsOver set.now.facts graph.now }
    ensures ok { IfOk result (λ made. L.tells → plans.forced_plan_of (L.files layers.old) set.now graph.now threads
        ≡ Ok made) }
    ensures err { IfErr result (λ fault. L.tells → IsPlanFault fault
        (plans.forced_plan_of (L.files layers.old) set.now graph.now threads)) }
    ensures same { SameFiles L.files layers.old layers.new }
    ensures cause { Counts (L.faults layers.old) (L.faults layers.new) (plan_failed result) }
{
    let nodes = graph.nodes.as_slice();
    match tasks_of(
        rt,
        alloc,
        layers,
        set,
        nodes,
        graph.targets.as_slice(),
        threads,
    ) {
        Ok(tasks) => plan_with(alloc, graph, threads, tasks),
        Err(fault) => Err(fault),
    }
}
