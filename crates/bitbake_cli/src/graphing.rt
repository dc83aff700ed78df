// The mode that prints the graph of the targets' tasks.
use crate::own_modes::{other_words, print_answer, refused};
use answer_model::{Mode, Request};
use command_words::{WordsFault, mode_of, read_words};
use meta_model::{Graph, Node, Status, TaskId};
use multi_config::{ConfigTargets, has_elsewhere};
use outside_os::FolderLayers;
use std::alloc::{AllocError, Global};
use std::io;
use target_graph::{find_part_run, find_parts, find_run};
use tree_model::Text;

/// The words that ask for the mode.
const GRAPH: &[&str] = &["-g", "--graphviz"];

/// The request of words that ask for the mode: those of a run, with targets and the option `-c` alone.
fn request_of(alloc: Global, words: &[Text]) -> Result<Request, Status> {
    match read_words(alloc, words) {
        Ok(request) => {
            if mode_of(&request) != Mode::Run
                || request.force
                || request.keep_going
                || !request.setscene
            {
                return Err(Status::Usage);
            }
            Ok(request)
        }
        Err(WordsFault::Usage) => Err(Status::Usage),
        Err(WordsFault::Memory) => Err(Status::OutOfMemory),
    }
}

/// Puts a task between quotes, behind `mc:NAME:` where it is one of a configuration that has a name.
fn put_id(text: &mut String, config: &str, id: &TaskId) -> Result<(), AllocError> {
    text.push('"')?;
    if !config.is_empty() {
        write!(text, "mc:{config}:")?;
    }
    put_escaped(text, id.pn.as_str())?;
    text.push(':')?;
    put_escaped(text, id.task.as_str())?;
    text.push('"')
}

/// Puts a name, with a backslash before each quote and each backslash.
fn put_escaped(text: &mut String, name: &str) -> Result<(), AllocError> {
    for sign in name.chars() {
        if sign == '"' || sign == '\\' {
            text.push('\\')?;
        }
        text.push(sign)?;
    }
    Ok(())
}

/// Puts a task, and an arrow to each that it needs directly.
fn put_node(
    text: &mut String,
    config: &str,
    nodes: &[Node],
    node: &Node,
) -> Result<(), AllocError> {
    put_id(text, config, &node.id)?;
    text.push('\n')?;
    for number in node.deps.as_slice() {
        if let Some(needed) = nodes.get(*number as usize) {
            put_id(text, config, &node.id)?;
            text.push_str(" -> ")?;
            put_id(text, config, &needed.id)?;
            text.push('\n')?;
        }
    }
    Ok(())
}

/// Puts the tasks of a configuration's graph.
fn put_graph(text: &mut String, config: &str, graph: &Graph) -> Result<(), Status> {
    let nodes = graph.nodes.as_slice();
    for node in nodes {
        or_memory(put_node(text, config, nodes, node))?;
    }
    Ok(())
}

/// The status of want of memory, where there is no answer.
fn or_memory<T>(answer: Result<T, AllocError>) -> Result<T, Status> {
    match answer {
        Ok(value) => Ok(value),
        Err(_) => Err(Status::OutOfMemory),
    }
}

/// Puts the graphs of parts, one after another.
fn put_parts(
    alloc: Global,
    layers: &mut FolderLayers<HostRuntime>,
    parts: &[ConfigTargets],
    text: &mut String,
) -> Result<(), Status> {
    for part in parts {
        let run = find_part_run(alloc, layers, part)?;
        put_graph(text, part.mc.as_str(), &run.graph)?;
    }
    Ok(())
}

/// Puts the graph that a request asks for; of several configurations those of all of them.
fn put_asked(
    alloc: Global,
    layers: &mut FolderLayers<HostRuntime>,
    request: &Request,
    text: &mut String,
) -> Result<(), Status> {
    let targets = request.targets.as_slice();
    let task = request.task.as_ref();
    if has_elsewhere(targets) {
        let parts = find_parts(alloc, layers, targets, task)?;
        return put_parts(alloc, layers, parts.as_slice(), text);
    }
    let run = find_run(alloc, layers, targets, task)?;
    put_graph(text, "", &run.graph)
}

/// The graph that words ask for, in the language of `dot`.
fn dot_text(
    alloc: Global,
    layers: &mut FolderLayers<HostRuntime>,
    words: &[Text],
) -> Result<Text, Status> {
    let request = request_of(alloc, words)?;
    let mut text = or_memory(String::from_str(alloc, "digraph bitbake {\n"))?;
    put_asked(alloc, layers, &request, &mut text)?;
    or_memory(text.push_str("}\n"))?;
    Ok(Text::from_string(text))
}

/// How the mode ends, and what it prints: the graph, or the line of a fault as a run would print it.
fn answer(alloc: Global, layers: &mut FolderLayers<HostRuntime>, words: &[Text]) -> (Status, Text) {
    match dot_text(alloc, layers, words) {
        Ok(text) => (Status::Ok, text),
        Err(status) => refused(alloc, status),
    }
}

/// Prints the graph of the targets' tasks, and gives the exit status.
pub fn run_graph(rt: &HostRuntime, words: &[Text]) -> io::Result<u8> {
    let others = other_words(rt.alloc(), words, GRAPH)?;
    let mut layers = FolderLayers::new(rt.clone()?);
    let (answered, text) = answer(rt.alloc(), &mut layers, &others);
    let status = print_answer(rt, answered, &text, &layers)?;
    Ok(status.code())
}
