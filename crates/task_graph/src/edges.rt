// The tasks that a task needs.
ghost use Rattle.std.specs.Prelude.{◌≡◌, ◌<◌, ◌≤◌, ◌^◌, ◌++◌, OnOk, IfOk, IfErr, All, length, slice_get, Some, None, ℕ, List, true, false, ◌⊎◌};
ghost use Rattle.std.specs.Option.{option_copied};
ghost use Rattle.meta_model.specs.declared.facts.RecipeFacts.{RecipeFacts as Recipe};
ghost use Rattle.meta_model.specs.Providers.{provider, runtime_provider};
ghost use Rattle.meta_model.specs.Needs.{build_names, run_names};
ghost use Rattle.task_graph.specs.Faults.{IsRefusalOf};
ghost use Rattle.task_graph.specs.Needed.{IsNeeded, resolved, lacks_provider};
ghost use Rattle.graph_walk.specs.Frontier.{Has};
ghost use Rattle.task_graph.specs.Context.{IsContext, LacksToBuild, LacksToRun, numbers_of_tasks};
ghost use Rattle.task_graph.specs.Edges.{others_of, LacksBelow, LacksAt, LacksFrom, HasAllProviders, PutsBelow, HasPushed, LacksOf, IsNumbered, HasEdges, IsRefusedAt};

use crate::closure::recipes_from;
use crate::context::{Context, push_tasks, push_words};
use crate::fault::GraphFault;
use crate::lacking::{refuse_building, refuse_running};
use crate::needed::Needed;
use crate::table::Spot;
use meta_model::{FactSet, RecipeFacts, TaskFacts};
use std::alloc::Global;
use tree_model::{Mem, Texts};

/// Puts the tasks behind others that a recipe needs to be built, by the words of a flag.
fn push_built(
    alloc: Global,
    facts: &FactSet,
    context: &Context,
    recipe: &RecipeFacts,
    needed: &Needed,
    words: &Texts,
    out: &mut Vec<usize>,
) -> Result<(), GraphFault>
    requires few { length facts.now.recipes < 2 ^ 32 }
    requires context { IsContext facts.now context.now }
    requires needed { IsNeeded facts.now recipe.now needed.now }
    ensures ok { OnOk result (out.new.items ≡ out.old.items
        ++ numbers_of_tasks context.now.table (resolved (provider facts.now) (build_names facts.now recipe.now))
        words.now) }
    ensures whole { OnOk result ((length words.now ≡ 0 → ⊥)
        → lacks_provider (provider facts.now) (build_names facts.now recipe.now) ≡ false) }
    ensures asked { IfErr result (IsRefusalOf (λ refusal. length words.now ≡ 0 → ⊥)) }
    ensures err { IfErr result (IsRefusalOf (LacksToBuild facts.now recipe.now)) }
{
    if words.is_empty() {
        return Ok(());
    }
    if needed.building.lacks {
        return Err(refuse_building(alloc, facts, &context.index, recipe));
    }
    Ok(push_tasks(
        &context.table,
        needed.building.found.as_slice(),
        words.as_slice(),
        out,
    )?)
}

/// Puts the tasks behind others that a recipe needs at run time, by the words of a flag.
fn push_run(
    alloc: Global,
    facts: &FactSet,
    context: &Context,
    recipe: &RecipeFacts,
    needed: &Needed,
    words: &Texts,
    out: &mut Vec<usize>,
) -> Result<(), GraphFault>
    requires few { length facts.now.recipes < 2 ^ 32 }
    requires context { IsContext facts.now context.now }
    requires needed { IsNeeded facts.now recipe.now needed.now }
    ensures ok { OnOk result (out.new.items ≡ out.old.items
        ++ numbers_of_tasks context.now.table (resolved (runtime_provider facts.now) (run_names recipe.now))
        words.now) }
    ensures whole { OnOk result ((length words.now ≡ 0 → ⊥)
        → lacks_provider (runtime_provider facts.now) (run_names recipe.now) ≡ false) }
    ensures asked { IfErr result (IsRefusalOf (λ refusal. length words.now ≡ 0 → ⊥)) }
    ensures err { IfErr result (IsRefusalOf (LacksToRun facts.now recipe.now)) }
{
    if words.is_empty() {
        return Ok(());
    }
    if needed.running.lacks {
        return Err(refuse_running(alloc, facts, &context.index, recipe));
    }
    Ok(push_tasks(
        &context.table,
        needed.running.found.as_slice(),
        words.as_slice(),
        out,
    )?)
}

/// Refuses a recipe that lacks a provider of one of its names.
fn check_recipe(
    alloc: Global,
    facts: &FactSet,
    context: &Context,
    number: usize,
) -> Result<(), GraphFault>
    requires few { length facts.now.recipes < 2 ^ 32 }
    requires context { IsContext facts.now context.now }
    ensures ok { OnOk result ((recipe : Recipe) → slice_get facts.now.recipes number ≡ Some recipe
        → HasAllProviders facts.now recipe) }
    ensures err { IfErr result (IsRefusalOf (LacksAt facts.now number)) }
{
    match recipe_at(facts, number) {
        None => Ok(()),
        Some(recipe) => match needed_at(&context.needed, number) {
            None => Ok(()),
            Some(needed) => check_needed(alloc, facts, context, recipe, needed),
        },
    }
}

/// The recipe with a number.
fn recipe_at(facts: &FactSet, number: usize) -> Option<&RecipeFacts>
    ensures { option_copied result ≡ slice_get facts.now.recipes number }
{
    facts.recipes.as_slice().get(number)
}

/// What the recipe with a number needs.
fn needed_at(all: &[Needed], number: usize) -> Option<&Needed>
    ensures { option_copied result ≡ slice_get all.now number }
{
    all.get(number)
}

fn check_needed(
    alloc: Global,
    facts: &FactSet,
    context: &Context,
    recipe: &RecipeFacts,
    needed: &Needed,
) -> Result<(), GraphFault>
    requires few { length facts.now.recipes < 2 ^ 32 }
    requires context { IsContext facts.now context.now }
    requires needed { IsNeeded facts.now recipe.now needed.now }
    ensures ok { OnOk result (HasAllProviders facts.now recipe.now) }
    ensures err { IfErr result (IsRefusalOf (λ refusal. LacksToBuild facts.now recipe.now refusal
        ⊎ LacksToRun facts.now recipe.now refusal)) }
{
    if needed.building.lacks {
        return Err(refuse_building(alloc, facts, &context.index, recipe));
    }
    if needed.running.lacks {
        return Err(refuse_running(alloc, facts, &context.index, recipe));
    }
    Ok(())
}

/// Refuses recipes of which one lacks a provider of one of its names.
fn check_below(
    alloc: Global,
    facts: &FactSet,
    context: &Context,
    below: &[usize],
) -> Result<(), GraphFault>
    requires few { length facts.now.recipes < 2 ^ 32 }
    requires context { IsContext facts.now context.now }
    ensures ok { OnOk result ((n : ℕ) (recipe : Recipe) → Has below.now n
        → slice_get facts.now.recipes n ≡ Some recipe → HasAllProviders facts.now recipe) }
    ensures err { IfErr result (IsRefusalOf (LacksBelow facts.now below.now)) }
{
    for number in below {
        check_recipe(alloc, facts, context, *number)?;
    }
    Ok(())
}

/// Puts all numbers but one behind others.
fn push_others(numbers: &[usize], but: usize, out: &mut Vec<usize>) -> Result<(), Mem>
    ensures { OnOk result (out.new.items ≡ out.old.items ++ others_of but numbers.now) }
{
    for number in numbers {
        if *number != but {
            out.push(*number)?;
        }
    }
    Ok(())
}

/// Puts the tasks of the recipes behind others that a recipe leads to, but for one, by the words of a flag.
fn push_below(
    alloc: Global,
    facts: &FactSet,
    context: &Context,
    spot: Spot,
    but: usize,
    words: &Texts,
    out: &mut Vec<usize>,
) -> Result<(), GraphFault>
    requires few { length facts.now.recipes < 2 ^ 32 }
    requires context { IsContext facts.now context.now }
    requires within { spot.recipe < length facts.now.recipes }
    ensures ok { OnOk result (PutsBelow facts.now context.now.table context.now.needed.items but spot.recipe words.now
        out.old.items out.new.items) }
    ensures asked { IfErr result (IsRefusalOf (λ refusal. length words.now ≡ 0 → ⊥)) }
    ensures err { IfErr result (IsRefusalOf (LacksFrom facts.now context.now.needed.items spot.recipe)) }
{
    if words.is_empty() {
        return Ok(());
    }
    let below = recipes_from(alloc, &context.needed, spot.recipe)?;
    check_below(alloc, facts, context, below.as_slice())?;
    let mut numbers = Vec::new(alloc);
    push_tasks(
        &context.table,
        below.as_slice(),
        words.as_slice(),
        &mut numbers,
    )?;
    Ok(push_others(numbers.as_slice(), but, out)?)
}

/// Puts the tasks behind others that a task needs, by what its recipe says of it.
fn push_edges(
    alloc: Global,
    facts: &FactSet,
    context: &Context,
    spot: Spot,
    number: usize,
    recipe: &RecipeFacts,
    task: &TaskFacts,
    needed: &Needed,
) -> Result<Vec<usize>, GraphFault>
    requires few { length facts.now.recipes < 2 ^ 32 }
    requires context { IsContext facts.now context.now }
    requires needed { IsNeeded facts.now recipe.now needed.now }
    requires within { spot.recipe < length facts.now.recipes }
    ensures ok { IfOk result (λ out. HasPushed facts.now context.now.table context.now.needed.items number spot.recipe
        recipe.now task.now out.items) }
    ensures err { IfErr result (IsRefusalOf (LacksOf facts.now context.now.needed.items spot.recipe recipe.now
        task.now)) }
{
    let mut out = Vec::new(alloc);
    push_tasks(
        &context.table,
        &[spot.recipe],
        task.after.as_slice(),
        &mut out,
    )?;
    push_words(alloc, facts, context, task.depends.as_slice(), &mut out)?;
    push_built(
        alloc,
        facts,
        context,
        recipe,
        needed,
        &task.deptask,
        &mut out,
    )?;
    push_run(
        alloc,
        facts,
        context,
        recipe,
        needed,
        &task.rdeptask,
        &mut out,
    )?;
    push_below(
        alloc,
        facts,
        context,
        spot,
        number,
        &task.recrdeptask,
        &mut out,
    )?;
    Ok(out)
}

/// The numbers of the tasks that the task with a number needs.
pub(crate) fn edges_of(
    alloc: Global,
    facts: &FactSet,
    context: &Context,
    number: usize,
) -> Result<Vec<usize>, GraphFault>
    requires few { length facts.now.recipes < 2 ^ 32 }
    requires context { IsContext facts.now context.now }
    requires numbered { IsNumbered context.now.table number }
    ensures ok { IfOk result (λ out. HasEdges facts.now context.now.table number out.items) }
    ensures err { IfErr result (IsRefusalOf (IsRefusedAt facts.now context.now.table number)) }
{
    let spot = context.table.spots[number];
    let recipe = &facts.recipes.as_slice()[spot.recipe];
    let task = &recipe.tasks.as_slice()[spot.place];
    let needed = &context.needed[spot.recipe];
    push_edges(alloc, facts, context, spot, number, recipe, task, needed)
}
