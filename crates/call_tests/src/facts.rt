// Facts that are read from lines, so that a test shows them as a text.
use meta_model::{FactSet, Package, RecipeFacts, Target, TaskFacts};
use std::alloc::Global;
use tree_model::{ListOf, Mem, Text, Texts};

/// Whether a word begins a part of a line.
fn is_key(word: &str) -> bool {
    matches!(
        word,
        "recipe"
            | "task"
            | "depends"
            | "rdepends"
            | "provides"
            | "after"
            | "deptask"
            | "rdeptask"
            | "recrdeptask"
    )
}

/// The words of a line behind this key.
fn behind(alloc: Global, line: &str, key: &str) -> Result<Texts, Mem> {
    let mut made = Texts::new(alloc);
    let mut is_here = false;
    for word in line.split_whitespace() {
        if is_key(word) {
            is_here = word == key;
        } else if is_here {
            made.push(Text::from_str(alloc, word)?)?;
        }
    }
    Ok(made)
}

/// The first of the words behind this key, or an empty text.
fn name_behind(alloc: Global, line: &str, key: &str) -> Result<Text, Mem> {
    match behind(alloc, line, key)?.as_slice().first() {
        Some(name) => name.copy(),
        None => Ok(Text::new(alloc)),
    }
}

/// The words NAME:TASK behind `depends`.
fn task_words(alloc: Global, line: &str) -> Result<ListOf<(Text, Text)>, Mem> {
    let mut made = ListOf::new(alloc);
    for word in behind(alloc, line, "depends")?.as_slice() {
        made.push(parts_of(alloc, word.as_str())?)?;
    }
    Ok(made)
}

/// The two parts of a word around its colon; without one the second is empty.
fn parts_of(alloc: Global, word: &str) -> Result<(Text, Text), Mem> {
    match word.split_once(':') {
        Some((name, task)) => Ok((Text::from_str(alloc, name)?, Text::from_str(alloc, task)?)),
        None => Ok((Text::from_str(alloc, word)?, Text::new(alloc))),
    }
}

/// A task of no name, which needs nothing.
pub fn empty_task(alloc: Global) -> TaskFacts {
    TaskFacts {
        task: Text::new(alloc),
        after: Texts::new(alloc),
        depends: ListOf::new(alloc),
        deptask: Texts::new(alloc),
        rdeptask: Texts::new(alloc),
        recrdeptask: Texts::new(alloc),
    }
}

fn fill_task(alloc: Global, task: &mut TaskFacts, line: &str) -> Result<(), Mem> {
    task.task = name_behind(alloc, line, "task")?;
    task.after = behind(alloc, line, "after")?;
    task.depends = task_words(alloc, line)?;
    task.deptask = behind(alloc, line, "deptask")?;
    task.rdeptask = behind(alloc, line, "rdeptask")?;
    task.recrdeptask = behind(alloc, line, "recrdeptask")?;
    Ok(())
}

/// A task, from `task NAME after .. depends NAME:TASK .. deptask .. rdeptask .. recrdeptask ..`.
fn read_task(alloc: Global, line: &str) -> Result<TaskFacts, Mem> {
    let mut task = empty_task(alloc);
    fill_task(alloc, &mut task, line)?;
    Ok(task)
}

/// The one package of a recipe, of its own name.
fn package_of(alloc: Global, line: &str) -> Result<Package, Mem> {
    Ok(Package {
        name: name_behind(alloc, line, "recipe")?,
        rdepends: behind(alloc, line, "rdepends")?,
        rprovides: Texts::new(alloc),
    })
}

/// A recipe of no name, with these tasks.
fn empty_recipe(alloc: Global, tasks: ListOf<TaskFacts>) -> RecipeFacts {
    RecipeFacts {
        file: Text::new(alloc),
        pn: Text::new(alloc),
        pv: Text::new(alloc),
        pr: Text::new(alloc),
        provides: Texts::new(alloc),
        depends: Texts::new(alloc),
        packages: ListOf::new(alloc),
        tasks,
    }
}

fn fill_recipe(alloc: Global, recipe: &mut RecipeFacts, line: &str) -> Result<(), Mem> {
    recipe.file = Text::from_str(alloc, "recipes/x.bb")?;
    recipe.pn = name_behind(alloc, line, "recipe")?;
    recipe.pv = Text::from_str(alloc, "1.0")?;
    recipe.pr = Text::from_str(alloc, "r0")?;
    recipe.provides = behind(alloc, line, "provides")?;
    recipe.depends = behind(alloc, line, "depends")?;
    recipe.packages.push(package_of(alloc, line)?)
}

/// A recipe with these tasks, from `recipe PN provides .. depends .. rdepends ..`.
pub fn read_recipe(
    alloc: Global,
    line: &str,
    tasks: ListOf<TaskFacts>,
) -> Result<RecipeFacts, Mem> {
    let mut recipe = empty_recipe(alloc, tasks);
    fill_recipe(alloc, &mut recipe, line)?;
    Ok(recipe)
}

/// The facts of some recipes.
pub fn facts_of(alloc: Global, recipes: Vec<RecipeFacts>) -> FactSet {
    FactSet {
        recipes: ListOf::from_vec(recipes),
        preferred: ListOf::new(alloc),
        assumed: Texts::new(alloc),
    }
}

/// Puts a line's recipe behind the others, or its task into the last one.
fn put_line(alloc: Global, recipes: &mut Vec<RecipeFacts>, line: &str) -> Result<(), Mem> {
    if line.starts_with("recipe") {
        Ok(recipes.push(read_recipe(alloc, line, ListOf::new(alloc))?)?)
    } else {
        match recipes.last_mut() {
            Some(recipe) => recipe.tasks.push(read_task(alloc, line)?),
            None => Ok(()),
        }
    }
}

/// The facts of a text: a recipe on each line, and its tasks in the lines behind it.
pub fn facts(alloc: Global, text: &str) -> Result<FactSet, Mem> {
    let mut recipes = Vec::new(alloc);
    for line in text.split('\n') {
        put_line(alloc, &mut recipes, line)?;
    }
    Ok(facts_of(alloc, recipes))
}

/// Targets, from words NAME:TASK.
pub fn targets(alloc: Global, words: &str) -> Result<ListOf<Target>, Mem> {
    let mut made = ListOf::new(alloc);
    for word in words.split_whitespace() {
        let (name, task) = parts_of(alloc, word)?;
        made.push(Target { name, task })?;
    }
    Ok(made)
}
