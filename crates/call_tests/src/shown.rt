// Graphs as texts.
use crate::facts::{facts, targets};
use meta_model::{FactSet, Graph, Node, Target};
use std::alloc::Global;
use task_graph::build;
use tree_model::Mem;

fn push_numbers(alloc: Global, out: &mut String, numbers: &[u32]) -> Result<(), Mem> {
    for number in numbers {
        let text = format!(in alloc; " {number}")?;
        out.push_str(text.as_str())?;
    }
    Ok(())
}

fn push_node(alloc: Global, out: &mut String, node: &Node) -> Result<(), Mem> {
    let (pn, task) = (node.id.pn.as_str(), node.id.task.as_str());
    let text = format!(in alloc; "{} {pn}:{task}", node.depth)?;
    out.push_str(text.as_str())?;
    push_numbers(alloc, out, node.deps.as_slice())?;
    Ok(out.push_str("; ")?)
}

/// Each node's depth, task and dependencies, and then the targets.
fn show_graph(alloc: Global, graph: &Graph) -> Result<String, Mem> {
    let mut out = String::new(alloc);
    for node in graph.nodes.as_slice() {
        push_node(alloc, &mut out, node)?;
    }
    out.push_str("targets")?;
    push_numbers(alloc, &mut out, graph.targets.as_slice())?;
    Ok(out)
}

/// What `build` answers, as a text; an empty one for a refusal, which cases show.
fn show(alloc: Global, facts: &FactSet, targets: &[Target]) -> Result<String, Mem> {
    if facts.recipes.len() > 1000 {
        return Ok(String::new(alloc));
    }
    match build(alloc, facts, targets) {
        Ok(graph) => show_graph(alloc, &graph),
        Err(_) => Ok(String::new(alloc)),
    }
}

/// What `build` answers for the facts of a text.
pub fn built(alloc: Global, text: &str, words: &str) -> Result<String, Mem> {
    let facts = facts(alloc, text)?;
    let targets = targets(alloc, words)?;
    show(alloc, &facts, targets.as_slice())
}
