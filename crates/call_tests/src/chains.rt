// Long chains of tasks.
use crate::facts::{empty_task, facts_of, read_recipe, targets};
use meta_model::{FactSet, TaskFacts};
use std::alloc::Global;
use std::process::Abort;
use std::test::Fail;
use task_graph::{GraphFault, build};
use tree_model::{ListOf, Mem, Text};

fn name(alloc: Global, number: usize) -> Result<Text, Mem> {
    Ok(Text::from_string(format!(in alloc; "do_{number}").map_err(Mem::from)?))
}

/// A task that comes after the one before it.
fn link(alloc: Global, number: usize) -> Result<TaskFacts, Mem> {
    let mut task = empty_task(alloc);
    task.task = name(alloc, number)?;
    if number > 0 {
        task.after.push(name(alloc, number - 1)?)?;
    }
    Ok(task)
}

/// So many tasks in a row.
fn links(alloc: Global, count: usize) -> Result<ListOf<TaskFacts>, Mem> {
    let mut tasks = ListOf::new(alloc);
    for number in 0..count {
        tasks.push(link(alloc, number)?)?;
    }
    Ok(tasks)
}

/// A recipe of so many tasks in a row.
fn chain(alloc: Global, count: usize) -> Result<FactSet, Mem> {
    let mut recipes = Vec::new(alloc);
    recipes.push(read_recipe(alloc, "recipe x", links(alloc, count)?)?)?;
    Ok(facts_of(alloc, recipes))
}

/// The number of nodes of the graph of a target, and the depth of the deepest; nothing where there are too many tasks.
fn size_of(
    rt: &impl Abort,
    alloc: Global,
    facts: &FactSet,
    word: &str,
) -> Result<Option<(usize, u32)>, GraphFault> {
    assert!(rt; facts.recipes.len() < 100);
    let targets = targets(alloc, word)?;
    match build(alloc, facts, targets.as_slice()) {
        Ok(graph) => {
            let deepest = graph.nodes.as_slice().last().map_or(0, |node| node.depth);
            Ok(Some((graph.nodes.len(), deepest)))
        }
        Err(GraphFault::Tasks) => Ok(None),
        Err(fault) => Err(fault),
    }
}

#[test]
fn most_tasks(rt: HostRuntime) -> Result<(), Fail> {
    let alloc = rt.alloc();
    let facts = chain(alloc, 65536)?;
    let size = size_of(&rt, alloc, &facts, "x:do_65535")?;
    assert!(rt; size == Some((65536, 65535)));
    Ok(())
}

#[test]
fn one_task_too_many(rt: HostRuntime) -> Result<(), Fail> {
    let alloc = rt.alloc();
    let facts = chain(alloc, 65537)?;
    let size = size_of(&rt, alloc, &facts, "x:do_65536")?;
    assert!(rt; size.is_none());
    // those that aren't reached don't count
    let size = size_of(&rt, alloc, &facts, "x:do_65535")?;
    assert!(rt; size == Some((65536, 65535)));
    Ok(())
}
