// What a recipe says of its tasks.
ghost use Rattle.std.specs.Prelude.{◌≡◌, IfOk, IfErr, Ok, Some, map};
ghost use Rattle.datastore.specs.Faults.{IsDataFault};
ghost use Rattle.meta_model.specs.Tasks as meant;
ghost use Rattle.load_model.specs.Facts as facts;

use crate::asked::flag_words;
use datastore::{DataFault, Datastore};
use meta_model::TaskFacts;
use std::alloc::Global;
use tree_model::{ListOf, Mem, Text, Texts};

/// What a word says whose parts before and behind its first colon are these.
fn parts_of_word<'a>(word: &'a str, name: &'a str, task: &'a str) -> (&'a str, &'a str)
    ensures name { result.0.now ≡ (facts.pair_of word.now (Some (name.now, task.now))).0 }
    ensures task { result.1.now ≡ (facts.pair_of word.now (Some (name.now, task.now))).1 }
{
    if task.is_empty() {
        (word, "")
    } else {
        (name, task)
    }
}

/// A word NAME:TASK, cut at its first colon. One without a colon, or with nothing behind it, names no task (own rule).
fn cut_word(word: &str) -> (&str, &str)
    ensures name { result.0.now ≡ (facts.named_task word.now).0 }
    ensures task { result.1.now ≡ (facts.named_task word.now).1 }
{
    match word.split_once(':') {
        Some((name, task)) => parts_of_word(word, name, task),
        None => (word, ""),
    }
}

/// The words of the flag `depends`, each cut.
fn named_tasks(alloc: Global, words: &[Text]) -> Result<ListOf<(Text, Text)>, Mem>
    ensures { IfOk result (λ made. made ≡ map facts.named_task words.now) }
{
    let mut made = ListOf::new(alloc);
    for word in words {
        let (name, task) = cut_word(word.as_str());
        made.push((Text::from_str(alloc, name)?, Text::from_str(alloc, task)?))?;
    }
    Ok(made)
}

/// What a recipe says of a task, of the words of its flags.
fn task_made(
    alloc: Global,
    task: &Text,
    after: &Texts,
    depends: &[Text],
    deptask: Texts,
    rdeptask: Texts,
    recrdeptask: Texts,
) -> Result<TaskFacts, Mem>
    ensures { IfOk result (λ made. made ≡ record {
      task = task.now;
      after = after.now;
      depends = map facts.named_task depends.now;
      deptask = deptask;
      rdeptask = rdeptask;
      recrdeptask = recrdeptask;
    }) }
{
    let depends = named_tasks(alloc, depends)?;
    let task = task.copy()?;
    let after = after.copy()?;
    Ok(TaskFacts {
        task,
        after,
        depends,
        deptask,
        rdeptask,
        recrdeptask,
    })
}

/// What a recipe says of a task that comes after these ones ("Dependencies").
fn task_facts(
    alloc: Global,
    store: &Datastore,
    task: &Text,
    after: &Texts,
) -> Result<TaskFacts, DataFault>
    ensures ok { IfOk result (λ made. facts.task_facts store.now (task.now, after.now) ≡ Ok made) }
    ensures err { IfErr result (λ fault. IsDataFault fault (facts.task_facts store.now (task.now, after.now))) }
{
    let name = task.as_str();
    let depends = flag_words(alloc, store, name, "depends")?;
    let deptask = flag_words(alloc, store, name, "deptask")?;
    let rdeptask = flag_words(alloc, store, name, "rdeptask")?;
    let recrdeptask = flag_words(alloc, store, name, "recrdeptask")?;
    Ok(task_made(
        alloc,
        task,
        after,
        depends.as_slice(),
        deptask,
        rdeptask,
        recrdeptask,
    )?)
}

/// What a recipe says of these tasks.
fn all_tasks(
    alloc: Global,
    store: &Datastore,
    tasks: &[(Text, Texts)],
) -> Result<ListOf<TaskFacts>, DataFault>
    ensures ok { IfOk result (λ made. facts.all_tasks store.now tasks.now ≡ Ok made) }
    ensures err { IfErr result (λ fault. IsDataFault fault (facts.all_tasks store.now tasks.now)) }
{
    let mut made = ListOf::new(alloc);
    for task in tasks {
        made.push(task_facts(alloc, store, &task.0, &task.1)?)?;
    }
    Ok(made)
}

/// What a recipe says of its tasks, in byte order of their names.
pub(crate) fn tasks_of(alloc: Global, store: &Datastore) -> Result<ListOf<TaskFacts>, DataFault>
    ensures ok { IfOk result (λ made. facts.all_tasks store.now (meant.tasks store.now) ≡ Ok made) }
    ensures err { IfErr result (λ fault. IsDataFault fault (facts.all_tasks store.now (meant.tasks store.now))) }
{
    let tasks = store.tasks(alloc)?;
    all_tasks(alloc, store, tasks.as_slice())
}
