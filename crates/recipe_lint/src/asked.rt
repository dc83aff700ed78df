// What asks for a name or a task, by what recipes say of themselves.

use crate::files::Sought;
use meta_model::{FactSet, RecipeFacts, TaskFacts, is_among};
use std::alloc::Global;
use tree_model::{Mem, Text};

/// A way of asking: by a variable, by a flag of a task, or by an order of two tasks.
#[derive(Clone, Copy)]
enum Way<'a> {
    Variable(&'a str),
    Flag(&'a str, &'a str),
    Order(&'a str, &'a str),
}

/// A recipe, by its number, that asks for something, and how.
#[derive(Clone, Copy)]
pub(crate) struct Ask<'a> {
    pub(crate) recipe: usize,
    way: Way<'a>,
}

impl<'a> Ask<'a> {
    /// The statement that asks.
    pub(crate) fn sought(&self) -> Sought<'a> {
        match self.way {
            Way::Variable(name) => Sought::Name(name),
            Way::Flag(task, flag) => Sought::Flag(task, flag),
            Way::Order(later, earlier) => Sought::Order(later, earlier),
        }
    }
}

/// What is said of one who asks.
pub(crate) fn words_of(alloc: Global, facts: &FactSet, ask: &Ask<'_>) -> Result<String, Mem> {
    let pn = match facts.recipes.as_slice().get(ask.recipe) {
        Some(recipe) => recipe.pn.as_str(),
        None => "",
    };
    Ok(match ask.way {
        Way::Variable(name) => format!(in alloc; "{pn} asks for it in {name}")?,
        Way::Flag(task, flag) => format!(in alloc; "{pn} asks for it in {task}[{flag}]")?,
        Way::Order(later, earlier) => {
            format!(in alloc; "{pn}:{later} comes after {pn}:{earlier} by this line")?
        }
    })
}

/// Puts the ways in which a recipe asks for a name at the end.
fn put_name_asks<'a>(
    list: &mut Vec<Ask<'a>>,
    number: usize,
    recipe: &'a RecipeFacts,
    name: &str,
) -> Result<(), Mem> {
    if is_among(name, recipe.depends.as_slice()) {
        list.push(Ask {
            recipe: number,
            way: Way::Variable("DEPENDS"),
        })?;
    }
    let at_run_time = recipe
        .packages
        .as_slice()
        .iter()
        .any(|package| is_among(name, package.rdepends.as_slice()));
    if at_run_time {
        list.push(Ask {
            recipe: number,
            way: Way::Variable("RDEPENDS"),
        })?;
    }
    for task in recipe.tasks.as_slice() {
        let names_it = task
            .depends
            .as_slice()
            .iter()
            .any(|word| word.0.as_str() == name);
        if names_it {
            list.push(Ask {
                recipe: number,
                way: Way::Flag(task.task.as_str(), "depends"),
            })?;
        }
    }
    Ok(())
}

/// Whether a word of `[depends]` is this task of this recipe, by its name or by one that it provides.
fn is_task_of(facts: &FactSet, word: &(Text, Text), pn: &str, task: &str) -> bool {
    if word.1.as_str() != task {
        return false;
    }
    let name = word.0.as_str();
    name == pn
        || facts.recipes.as_slice().iter().any(|recipe| {
            recipe.pn.as_str() == pn && is_among(name, recipe.provides.as_slice())
        })
}

/// Puts the flags by which a recipe asks for a task at the end.
fn put_task_asks<'a>(
    list: &mut Vec<Ask<'a>>,
    facts: &FactSet,
    number: usize,
    recipe: &'a RecipeFacts,
    pn: &str,
    asked: &str,
) -> Result<(), Mem> {
    for task in recipe.tasks.as_slice() {
        let names_it = task
            .depends
            .as_slice()
            .iter()
            .any(|word| is_task_of(facts, word, pn, asked));
        if names_it {
            list.push(Ask {
                recipe: number,
                way: Way::Flag(task.task.as_str(), "depends"),
            })?;
        }
    }
    Ok(())
}

/// How a task needs another one.
fn way_to<'a>(
    facts: &FactSet,
    task: &'a TaskFacts,
    is_same: bool,
    pn: &str,
    other: &str,
) -> Way<'a> {
    let name = task.task.as_str();
    for earlier in task.after.as_slice() {
        if is_same && earlier.as_str() == other {
            return Way::Order(name, earlier.as_str());
        }
    }
    let by_depends = task
        .depends
        .as_slice()
        .iter()
        .any(|word| is_task_of(facts, word, pn, other));
    let flag = if by_depends {
        "depends"
    } else if is_among(other, task.deptask.as_slice()) {
        "deptask"
    } else if is_among(other, task.rdeptask.as_slice()) {
        "rdeptask"
    } else {
        "recrdeptask"
    };
    Way::Flag(name, flag)
}

/// Puts how one task needs another at the end; both are written with their recipes.
fn put_need<'a>(
    list: &mut Vec<Ask<'a>>,
    facts: &'a FactSet,
    id: &str,
    needed: &str,
) -> Result<(), Mem> {
    let (Some((pn, name)), Some((other_pn, other))) = (id.split_once(':'), needed.split_once(':'))
    else {
        return Ok(());
    };
    for (number, recipe) in facts.recipes.as_slice().iter().enumerate() {
        if recipe.pn.as_str() == pn {
            for task in recipe.tasks.as_slice() {
                if task.task.as_str() == name {
                    let way = way_to(facts, task, pn == other_pn, other_pn, other);
                    list.push(Ask {
                        recipe: number,
                        way,
                    })?;
                }
            }
        }
    }
    Ok(())
}

/// Puts how the tasks of a ring need each other at the end.
fn put_ring<'a>(list: &mut Vec<Ask<'a>>, facts: &'a FactSet, ids: &[Text]) -> Result<(), Mem> {
    for pair in ids.windows(2) {
        if let [id, needed] = pair {
            put_need(list, facts, id.as_str(), needed.as_str())?;
        }
    }
    match ids {
        [first, .., last] => put_need(list, facts, last.as_str(), first.as_str()),
        [only] => put_need(list, facts, only.as_str(), only.as_str()),
        [] => Ok(()),
    }
}

/// Who asks for what a refusal of this kind speaks of.
pub(crate) fn asks_of<'a>(
    alloc: Global,
    facts: &'a FactSet,
    kind: &str,
    texts: &[Text],
) -> Result<Vec<Ask<'a>>, Mem> {
    let mut list = Vec::new(alloc);
    if kind == "TaskCycle" {
        put_ring(&mut list, facts, texts)?;
        return Ok(list);
    }
    let Some(first) = texts.first() else {
        return Ok(list);
    };
    for (number, recipe) in facts.recipes.as_slice().iter().enumerate() {
        match kind {
            "NothingProvides" | "SeveralProvide" => {
                put_name_asks(&mut list, number, recipe, first.as_str())?;
            }
            "NoSuchTask" => {
                if let Some((pn, task)) = first.as_str().split_once(':') {
                    put_task_asks(&mut list, facts, number, recipe, pn, task)?;
                }
            }
            _ => {}
        }
    }
    Ok(list)
}
