// What is remarked on a recipe, from its own entries and what it says of itself.

use crate::files::{Files, Sought, first_part};
use crate::kind::RemarkKind;
use crate::near::Near;
use crate::notes::Notes;
use datastore::{DataFault, Datastore};
use meta_model::{RecipeFacts, Statement, TaskFacts};
use path_words::file_name;
use recipe_facts::flag_words;
use std::alloc::Global;
use std::collections::BTreeMap;
use tree_model::{Mem, Text, Texts};
use value_maps::put_value;

/// A recipe while its entries are there.
#[derive(Drop)]
pub(crate) struct Own<'a> {
    /// What it says of itself.
    pub(crate) facts: &'a RecipeFacts,
    /// Its entries.
    pub(crate) store: &'a Datastore,
    /// All files.
    pub(crate) files: &'a Files,
    /// The numbers of its files.
    pub(crate) reads: &'a [usize],
}

impl<'a> Own<'a> {
    /// The recipe's name.
    fn pn(&self) -> &'a str {
        self.facts.pn.as_str()
    }

    /// Whether a flag of a task counts: its expanded text is neither empty nor `0`. One that can't be expanded does.
    fn has_flag(&self, alloc: Global, task: &str, flag: &str) -> Result<bool, Mem> {
        let Some(text) = self.store.flag(task, flag) else {
            return Ok(false);
        };
        match self.store.expand(alloc, text) {
            Ok(text) => Ok(!text.as_str().is_empty() && text.as_str() != "0"),
            Err(DataFault::Memory) => Err(Mem),
            Err(_) => Ok(true),
        }
    }

    /// Whether the recipe has this task.
    fn has_task(&self, name: &str) -> bool {
        self.facts
            .tasks
            .as_slice()
            .iter()
            .any(|task| task.task.as_str() == name)
    }

    /// The function of the recipe's files that is nearest to a task's name and is no task's, or an empty text.
    fn near_function(&self, alloc: Global, task: &str) -> Result<&'a str, Mem> {
        let mut near = Near::to(task);
        for number in self.reads {
            if let Some(file) = self.files.get(*number) {
                for (_, statement) in file.statements.as_slice() {
                    if let Statement::Function { name, .. } = statement
                        && !self.has_task(first_part(name.as_str()))
                    {
                        near.look(alloc, first_part(name.as_str()))?;
                    }
                }
            }
        }
        Ok(near.best())
    }
}

/// Remarks on a task without a function that isn't `[noexec]`. Of one that a class adds it is for the recipe to have a function or none, so
/// there it is remarked only where a function's name is near.
fn check_function(alloc: Global, own: &Own<'_>, task: &str, notes: &mut Notes) -> Result<(), Mem> {
    if own.has_flag(alloc, task, "func")? || own.has_flag(alloc, task, "noexec")? {
        return Ok(());
    }
    let Some(place) = own.files.place_in(own.reads, Sought::Task(task)) else {
        return Ok(());
    };
    let words = match own.near_function(alloc, task)? {
        "" if place.file.ends_with(".bbclass") => return Ok(()),
        "" => format!(in alloc;
            "the task {task} has no function, so it runs nothing; write {task}() {{, or set {task}[noexec] = \"1\""
        )?,
        best => format!(in alloc;
            "the task {task} has no function, so it runs nothing; there is a function {best}, which is no task"
        )?,
    };
    notes.add(alloc, &place, RemarkKind::NoFunction, words, own.pn())
}

/// The path that a word of `[file-checksums]` names; an empty text where the word is passed over.
fn input_path(word: &str) -> &str {
    if word.ends_with(":False") {
        return "";
    }
    word.strip_suffix(":True").unwrap_or(word)
}

/// Remarks on input files of a task that have one name.
fn check_inputs(
    alloc: Global,
    own: &Own<'_>,
    task: &str,
    words: &[Text],
    notes: &mut Notes,
) -> Result<(), Mem> {
    let mut paths: BTreeMap<String, &str> = BTreeMap::new(alloc);
    for word in words {
        let path = input_path(word.as_str());
        let name = file_name(path);
        if let Some(before) = paths.get(name)
            && *before != path
            && let Some(place) = own
                .files
                .place_in(own.reads, Sought::Flag(task, "file-checksums"))
        {
            let words = format!(in alloc;
                "{task} has two input files of the name {name}: {before} and {path}; it finds the last one alone"
            )?;
            notes.add(alloc, &place, RemarkKind::SameInput, words, own.pn())?;
        }
        put_value(&mut paths, alloc, name, path)?;
    }
    Ok(())
}

/// The words of a flag of a task; none where they are refused.
fn words_of_flag(alloc: Global, own: &Own<'_>, task: &str, flag: &str) -> Result<Texts, Mem> {
    match flag_words(alloc, own.store, task, flag) {
        Ok(words) => Ok(words),
        Err(DataFault::Memory) => Err(Mem),
        Err(_) => Ok(Texts::new(alloc)),
    }
}

/// Whether a task of the recipe needs a task of what has this name in DEPENDS.
fn is_needed(tasks: &[TaskFacts], name: &str) -> bool {
    tasks.iter().any(|task| {
        !task.deptask.is_empty()
            || !task.recrdeptask.is_empty()
            || task
                .depends
                .as_slice()
                .iter()
                .any(|word| word.0.as_str() == name)
    })
}

/// Remarks on a recipe's DEPENDS of which no task needs anything.
fn check_depends(alloc: Global, own: &Own<'_>, notes: &mut Notes) -> Result<(), Mem> {
    let tasks = own.facts.tasks.as_slice();
    let Some(unused) = own
        .facts
        .depends
        .as_slice()
        .iter()
        .find(|name| !is_needed(tasks, name.as_str()))
    else {
        return Ok(());
    };
    let Some(place) = own.files.place_in(own.reads, Sought::Name("DEPENDS")) else {
        return Ok(());
    };
    let words = format!(in alloc;
        "no task has [deptask], so {} in DEPENDS is never built; name there the task that is needed of it",
        unused.as_str()
    )?;
    notes.add(alloc, &place, RemarkKind::UnusedDepends, words, own.pn())
}

/// Remarks on a recipe.
pub(crate) fn check_own(alloc: Global, own: &Own<'_>, notes: &mut Notes) -> Result<(), Mem> {
    for task in own.facts.tasks.as_slice() {
        let name = task.task.as_str();
        check_function(alloc, own, name, notes)?;
        let words = words_of_flag(alloc, own, name, "file-checksums")?;
        check_inputs(alloc, own, name, words.as_slice(), notes)?;
    }
    check_depends(alloc, own, notes)
}
