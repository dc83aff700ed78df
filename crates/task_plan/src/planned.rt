// The tasks of a plan.
ghost use Rattle.std.specs.Prelude.{◌≡◌, ◌<◌, [], ℕ, false, nat_eq, length, Ok, Some, IfOk, IfErr, OnOk, IfSome, slice_index_or};
ghost use Rattle.std.specs.Ordering.{nat_cmp};
ghost use Rattle.std.specs.BTreeMap.{get};
ghost use Rattle.std.specs.Map.{update};
ghost use Rattle.outside_traits.specs.Fault.{Counts};
ghost use Rattle.outside_traits.specs.Store.{SameFiles};
ghost use Rattle.plan_model.specs.Plans as plans;
ghost use Rattle.task_plan.specs.Ahead.{IsMade, IsMadeOf};
ghost use Rattle.task_plan.specs.Faults.{IsPlanFault, plan_failed};
ghost use Rattle.task_plan.specs.Steps.{IsFaultOfKeys};
ghost use Rattle.task_plan.specs.Meant.{parts_meant, sums_meant, AreKept};

use crate::fault::{PlanFault, data_told};
use crate::inputs::Inputs;
use crate::parts::{Made, Parts, parts_made, parts_of};
use crate::shell::Shell;
use crate::texts::texts_of;
use datastore::Datastore;
use meta_model::{Node, PlanTask};
use outside_traits::Layers;
use recipe_set::RecipeSet;
use std::alloc::Global;
use std::collections::BTreeMap;
use tree_model::{ListOf, Mem};
use var_deps::StoreKeys;

/// The most bytes of the keys' lines and the scripts of a plan together (own rule).
pub(crate) const MOST_OF_TEXTS: u64 = 268_435_456;

/// The bytes of a plan so far: of keys and scripts, and of input files.
#[derive(Drop)]
pub(crate) struct Sums {
    pub(crate) texts: u64,
    pub(crate) inputs: u64,
}

/// What is kept of recipes for their tasks, by their numbers.
pub(crate) type Kept<'a> = BTreeMap<u32, StoreKeys<'a>>;

/// The same numbers again.
pub(crate) fn copy_numbers(alloc: Global, numbers: &[u32]) -> Result<ListOf<u32>, Mem>
    ensures { IfOk result (λ made. made ≡ numbers.now) }
{
    let mut made = ListOf::new(alloc);
    for number in numbers {
        made.push(*number)?;
    }
    Ok(made)
}

/// A node with what is worked out for its task.
fn with_parts(alloc: Global, node: &Node, parts: Parts) -> Result<PlanTask, Mem>
    ensures { IfOk result (λ made. made ≡ plans.with_parts node.now (parts_meant parts)) }
{
    let id = node.id.copy()?;
    let deps = copy_numbers(alloc, node.deps.as_slice())?;
    let Parts {
        key,
        inputs,
        shell,
        sstate,
    } = parts;
    let Inputs { tree, bytes: _ } = inputs;
    let Shell {
        script,
        places,
        nostamp,
    } = shell;
    Ok(PlanTask {
        id,
        deps,
        depth: node.depth,
        key,
        files: tree,
        script,
        nostamp,
        sstate,
        places,
    })
}

/// The task of a node, unless the plan has too many bytes with it.
fn counted(alloc: Global, node: &Node, parts: Parts, sums: &mut Sums) -> Result<PlanTask, PlanFault>
    ensures ok { IfOk result (λ task. plans.planned_with node.now (sums_meant sums.old) (parts_meant parts)
        ≡ Ok (record { task = task; sums = sums_meant sums.new })) }
    ensures err { IfErr result (λ fault. IsPlanFault fault
        (plans.planned_with node.now (sums_meant sums.old) (parts_meant parts))) }
    ensures not_read { plan_failed result ≡ false }
{
    let more = texts_of(&parts.key, parts.shell.script.as_str());
    let texts = sums.texts.saturating_add(more);
    if texts > MOST_OF_TEXTS {
        return Err(PlanFault::PlanBytes);
    }
    sums.texts = texts;
    sums.inputs = parts.inputs.bytes;
    Ok(with_parts(alloc, node, parts)?)
}

/// The task of a node, over the entries of its recipe, whose file is told where it is refused.
fn planned<L: Layers>(
    alloc: Global,
    layers: &mut L,
    file: &str,
    keys: &mut StoreKeys,
    node: &Node,
    sums: &mut Sums,
) -> Result<PlanTask, PlanFault>
    ensures ok { IfOk result (λ task. L.tells → plans.planned (L.files layers.old) file.now keys.old node.now
        (sums_meant sums.old) ≡ Ok (record { task = task; sums = sums_meant sums.new })) }
    ensures err { IfErr result (λ fault. L.tells → IsPlanFault fault
        (plans.planned (L.files layers.old) file.now keys.old node.now (sums_meant sums.old))) }
    ensures keys { keys.new ≡ keys.old }
    ensures same { SameFiles L.files layers.old layers.new }
    ensures cause { Counts (L.faults layers.old) (L.faults layers.new) (plan_failed result) }
{
    match parts_of(
        alloc,
        layers,
        file,
        keys,
        node.id.task.as_str(),
        sums.inputs,
    ) {
        Ok(parts) => counted(alloc, node, parts, sums),
        Err(fault) => Err(fault),
    }
}

/// The keys of the tasks of a recipe, of which nothing is kept yet.
fn new_keys<'a>(alloc: Global, file: &str, store: &'a Datastore) -> Result<StoreKeys<'a>, PlanFault>
    ensures ok { IfOk result (λ keys. keys ≡ store.now) }
    ensures err { IfErr result (λ fault. IsFaultOfKeys fault file.now store.now) }
    ensures not_read { plan_failed result ≡ false }
{
    match StoreKeys::new(alloc, store) {
        Ok(keys) => Ok(keys),
        Err(fault) => Err(data_told(alloc, file, fault)),
    }
}

/// The keys of the tasks of a recipe: those that are kept, or new ones.
pub(crate) fn keys_of<'a>(
    alloc: Global,
    file: &str,
    set: &'a RecipeSet,
    kept: &mut Kept<'a>,
    recipe: u32,
) -> Result<StoreKeys<'a>, PlanFault>
    requires within { recipe < length set.now.facts.recipes }
    requires kept { AreKept set.now.stores (get nat_cmp kept.old) }
    ensures kept { AreKept set.now.stores (get nat_cmp kept.new) }
    ensures ok { IfOk result (λ keys. keys ≡ slice_index_or set.now.stores recipe []) }
    ensures err { IfErr result (λ fault. IsFaultOfKeys fault file.now (slice_index_or set.now.stores recipe [])) }
    ensures not_read { plan_failed result ≡ false }
{
    match kept.remove(&recipe) {
        Some(keys) => Ok(keys),
        None => new_keys(alloc, file, set.store_of(recipe)),
    }
}

/// Keeps the keys of the tasks of a recipe.
pub(crate) fn keep<'a>(kept: &mut Kept<'a>, recipe: u32, keys: StoreKeys<'a>) -> Result<(), Mem>
    ensures { OnOk result ((q : ℕ) → get nat_cmp kept.new q
        ≡ update nat_eq (get nat_cmp kept.old) recipe (Some keys.entry) q) }
{
    kept.insert(recipe, keys)?;
    Ok(())
}

/// The task of a node with the keys of its recipe, which are kept.
fn planned_with<'a, L: Layers>(
    alloc: Global,
    layers: &mut L,
    file: &str,
    keys: StoreKeys<'a>,
    kept: &mut Kept<'a>,
    node: &Node,
    sums: &mut Sums,
) -> Result<PlanTask, PlanFault>
    ensures kept { OnOk result ((q : ℕ) → get nat_cmp kept.new q
        ≡ update nat_eq (get nat_cmp kept.old) node.now.recipe (Some keys.entry) q) }
    ensures ok { IfOk result (λ task. L.tells → plans.planned (L.files layers.old) file.now keys.entry node.now
        (sums_meant sums.old) ≡ Ok (record { task = task; sums = sums_meant sums.new })) }
    ensures err { IfErr result (λ fault. L.tells → IsPlanFault fault
        (plans.planned (L.files layers.old) file.now keys.entry node.now (sums_meant sums.old))) }
    ensures same { SameFiles L.files layers.old layers.new }
    ensures cause { Counts (L.faults layers.old) (L.faults layers.new) (plan_failed result) }
{
    let mut keys = keys;
    match planned(alloc, layers, file, &mut keys, node, sums) {
        Ok(task) => match keep(kept, node.recipe, keys) {
            Ok(()) => Ok(task),
            Err(_) => Err(PlanFault::Memory),
        },
        Err(fault) => Err(fault),
    }
}

/// The file of a recipe.
pub(crate) fn file_of(set: &RecipeSet, recipe: u32) -> &str
    requires { recipe < length set.now.facts.recipes }
    ensures { result.now ≡ plans.file_at set.now.facts recipe }
{
    let recipes = set.facts().recipes.as_slice();
    recipes[recipe as usize].file.as_str()
}

/// The task of a node of which nothing is made.
fn planned_anew<'a, L: Layers>(
    alloc: Global,
    layers: &mut L,
    set: &'a RecipeSet,
    kept: &mut Kept<'a>,
    node: &Node,
    sums: &mut Sums,
) -> Result<PlanTask, PlanFault>
    requires within { node.now.recipe < length set.now.facts.recipes }
    requires kept { AreKept set.now.stores (get nat_cmp kept.old) }
    ensures kept { OnOk result (AreKept set.now.stores (get nat_cmp kept.new)) }
    ensures ok { IfOk result (λ task. L.tells → plans.planned_node (L.files layers.old) set.now node.now
        (sums_meant sums.old) ≡ Ok (record { task = task; sums = sums_meant sums.new })) }
    ensures err { IfErr result (λ fault. L.tells → IsPlanFault fault
        (plans.planned_node (L.files layers.old) set.now node.now (sums_meant sums.old))) }
    ensures same { SameFiles L.files layers.old layers.new }
    ensures cause { Counts (L.faults layers.old) (L.faults layers.new) (plan_failed result) }
{
    let file = file_of(set, node.recipe);
    match keys_of(alloc, file, set, kept, node.recipe) {
        Ok(keys) => planned_with(alloc, layers, file, keys, kept, node, sums),
        Err(fault) => Err(fault),
    }
}

/// The task of a node of which this is made.
fn planned_made<L: Layers>(
    alloc: Global,
    layers: &mut L,
    file: &str,
    store: &Datastore,
    made: Made,
    node: &Node,
    sums: &mut Sums,
) -> Result<PlanTask, PlanFault>
    requires { IsMade file.now store.now node.now.id.task made }
    ensures ok { IfOk result (λ task. L.tells → plans.planned (L.files layers.old) file.now store.now node.now
        (sums_meant sums.old) ≡ Ok (record { task = task; sums = sums_meant sums.new })) }
    ensures err { IfErr result (λ fault. L.tells → IsPlanFault fault
        (plans.planned (L.files layers.old) file.now store.now node.now (sums_meant sums.old))) }
    ensures same { SameFiles L.files layers.old layers.new }
    ensures cause { Counts (L.faults layers.old) (L.faults layers.new) (plan_failed result) }
{
    match parts_made(
        alloc,
        layers,
        file,
        store,
        made,
        node.id.task.as_str(),
        sums.inputs,
    ) {
        Ok(parts) => counted(alloc, node, parts, sums),
        Err(fault) => Err(fault),
    }
}

/// The task of a node, and what is made of it ahead, if anything is.
pub(crate) fn planned_node<'a, L: Layers>(
    alloc: Global,
    layers: &mut L,
    set: &'a RecipeSet,
    kept: &mut Kept<'a>,
    made: Option<Made>,
    node: &Node,
    sums: &mut Sums,
) -> Result<PlanTask, PlanFault>
    requires within { node.now.recipe < length set.now.facts.recipes }
    requires kept { AreKept set.now.stores (get nat_cmp kept.old) }
    requires made { IfSome made (IsMadeOf set.now node.now) }
    ensures kept { OnOk result (AreKept set.now.stores (get nat_cmp kept.new)) }
    ensures ok { IfOk result (λ task. L.tells → plans.planned_node (L.files layers.old) set.now node.now
        (sums_meant sums.old) ≡ Ok (record { task = task; sums = sums_meant sums.new })) }
    ensures err { IfErr result (λ fault. L.tells → IsPlanFault fault
        (plans.planned_node (L.files layers.old) set.now node.now (sums_meant sums.old))) }
    ensures same { SameFiles L.files layers.old layers.new }
    ensures cause { Counts (L.faults layers.old) (L.faults layers.new) (plan_failed result) }
{
    let file = file_of(set, node.recipe);
    match made {
        Some(made) => planned_made(
            alloc,
            layers,
            file,
            set.store_of(node.recipe),
            made,
            node,
            sums,
        ),
        None => planned_anew(alloc, layers, set, kept, node, sums),
    }
}
