// What is looked up for tasks.
ghost use Rattle.std.specs.Prelude.{◌≡◌, ◌<◌, ◌≤◌, ◌^◌, ◌++◌, OnOk, OnErr, IfOk, IfErr, All, Any, length, slice_get, Some, None, ℕ, List, true, Ok, Err, option_to_list};
ghost use Rattle.std.specs.List.{filter_map};
ghost use Rattle.std.specs.Result.{result_ok};
ghost use Rattle.meta_model.specs.Providers.{provider as provider_of, runtime_provider as runtime_provider_of};
ghost use Rattle.meta_model.specs.Needs.{Task, build_names, run_names};
ghost use Rattle.meta_model.specs.GraphRefusal.{task_there, word_task, pn_of};
ghost use Rattle.task_graph.specs.Faults.{IsRefusalOf, IsUnprovided};
ghost use Rattle.task_graph.specs.Index.{IsIndex};
ghost use Rattle.task_graph.specs.Table.{number_of_task};
ghost use Rattle.task_graph.specs.Needed.{lacks_provider};
ghost use Rattle.task_graph.specs.Context.{IsContext, IsNumberOf, number_of_word, numbers_of_tasks};

use crate::fault::GraphFault;
use crate::index::NameIndex;
use crate::lacking::refuse_name;
use crate::needed::{Needed, needed_of};
use crate::table::TaskTable;
use meta_model::FactSet;
use std::alloc::Global;
use tree_model::{Mem, Text};

/// All that is known before tasks are gone through.
#[derive(Drop)]
pub(crate) struct Context {
    pub(crate) index: NameIndex,
    pub(crate) table: TaskTable,
    pub(crate) needed: Vec<Needed>,
}

impl Context {
    /// What is known of the facts.
    pub(crate) fn new(alloc: Global, facts: &FactSet) -> Result<Context, Mem>
        ensures { IfOk result (IsContext facts.now) }
    {
        let index = NameIndex::new(alloc, facts)?;
        let table = TaskTable::new(alloc, facts)?;
        let needed = needed_of(alloc, facts, &index)?;
        Ok(Context {
            index,
            table,
            needed,
        })
    }
}

/// The refusal of a task that a recipe lacks.
fn refuse_task(alloc: Global, facts: &FactSet, recipe: usize, task: &str) -> Result<GraphFault, Mem>
    ensures { IfOk result (λ fault. fault ≡ GraphFault.NoSuchTask (pn_of facts.now recipe) task.now) }
{
    let pn = match facts.recipes.as_slice().get(recipe) {
        Some(found) => found.pn.copy()?,
        None => Text::new(alloc),
    };
    Ok(GraphFault::NoSuchTask {
        pn,
        task: Text::from_str(alloc, task)?,
    })
}

/// The number of a task of the provider of a name.
pub(crate) fn find_task(
    alloc: Global,
    facts: &FactSet,
    context: &Context,
    name: &str,
    task: &str,
) -> Result<usize, GraphFault>
    requires few { length facts.now.recipes < 2 ^ 32 }
    requires context { IsContext facts.now context.now }
    ensures ok { IfOk result (IsNumberOf context.now.table
        (task_there facts.now name.now task.now (provider_of facts.now name.now))) }
    ensures err { IfErr result (IsRefusalOf (λ refusal. task_there facts.now name.now task.now
        (provider_of facts.now name.now) ≡ Err refusal)) }
{
    match context.index.provider(facts, name) {
        None => Err(refuse_name(alloc, facts, name)),
        Some(recipe) => match context.table.find(recipe, task) {
            Some(number) => Ok(number),
            None => Err(refuse_task(alloc, facts, recipe, task)?),
        },
    }
}

/// The number of the task that a word of `[depends]` stands for.
fn find_word(
    alloc: Global,
    facts: &FactSet,
    context: &Context,
    word: &(Text, Text),
) -> Result<usize, GraphFault>
    requires few { length facts.now.recipes < 2 ^ 32 }
    requires context { IsContext facts.now context.now }
    ensures ok { IfOk result (IsNumberOf context.now.table (word_task facts.now word.now)) }
    ensures err { IfErr result (IsRefusalOf (λ refusal. word_task facts.now word.now ≡ Err refusal)) }
{
    if word.1.as_str().is_empty() {
        return Err(GraphFault::NothingProvides {
            name: word.0.copy()?,
        });
    }
    find_task(alloc, facts, context, word.0.as_str(), word.1.as_str())
}

/// Puts the tasks that words of `[depends]` stand for behind others.
pub(crate) fn push_words(
    alloc: Global,
    facts: &FactSet,
    context: &Context,
    words: &[(Text, Text)],
    out: &mut Vec<usize>,
) -> Result<(), GraphFault>
    requires few { length facts.now.recipes < 2 ^ 32 }
    requires context { IsContext facts.now context.now }
    ensures ok { OnOk result (out.new.items ≡ out.old.items
        ++ filter_map (number_of_word facts.now context.now.table) words.now) }
    ensures resolved { OnOk result (All (λ w. (b : Task) × (word_task facts.now w ≡ Ok b)) words.now) }
    ensures err { IfErr result (IsRefusalOf (λ refusal. Any (λ w. word_task facts.now w ≡ Err refusal) words.now)) }
{
    for word in words {
        let number = find_word(alloc, facts, context, word)?;
        out.push(number)?;
    }
    Ok(())
}

/// Puts the tasks of some names that recipes have behind others.
pub(crate) fn push_tasks(
    table: &TaskTable,
    recipes: &[usize],
    names: &[Text],
    out: &mut Vec<usize>,
) -> Result<(), Mem>
    ensures { OnOk result (out.new.items ≡ out.old.items ++ numbers_of_tasks table.now recipes.now names.now) }
{
    for name in names {
        push_task(table, recipes, name.as_str(), out)?;
    }
    Ok(())
}

fn push_task(
    table: &TaskTable,
    recipes: &[usize],
    name: &str,
    out: &mut Vec<usize>,
) -> Result<(), Mem>
    ensures { OnOk result (out.new.items ≡ out.old.items
        ++ filter_map (λ r. number_of_task table.now (r, name.now)) recipes.now) }
{
    for recipe in recipes {
        push_found(table.find(*recipe, name), out)?;
    }
    Ok(())
}

fn push_found(found: Option<usize>, out: &mut Vec<usize>) -> Result<(), Mem>
    ensures { OnOk result (out.new.items ≡ out.old.items ++ option_to_list found) }
{
    if let Some(number) = found {
        out.push(number)?;
    }
    Ok(())
}
