// Keys and scripts that several threads make before the plan is made of them.
ghost use Rattle.std.specs.Prelude.{◌≡◌, ◌<◌, ℕ, List, Some, length, nat_eq, All, IfOk, IfSome, OnOk};
ghost use Rattle.std.specs.Ordering.{nat_cmp};
ghost use Rattle.std.specs.BTreeMap.{get};
ghost use Rattle.std.specs.Map.{update};
ghost use Rattle.meta_model.specs.declared.facts.Node.{Node as GraphNode};
ghost use Rattle.load_model.specs.Facts.{RecipeSet as Recipes};
ghost use Rattle.script_gen.specs.Given.{IsKeyOf};
ghost use Rattle.task_plan.specs.declared.parts.Made.{Made as AMade};
ghost use Rattle.task_plan.specs.Ahead.{IsMade, IsMadeAt, IsMadeOf, AreAhead};
ghost use Rattle.task_plan.specs.Meant.{AreKept};

use crate::parts::Made;
use crate::planned::{Kept, MOST_OF_TEXTS, file_of, keep, keys_of};
use crate::shell::{key_of, shell_parts};
use crate::texts::texts_of;
use meta_model::{Key, Node};
use recipe_set::RecipeSet;
use std::alloc::{AllocError, Global};
use std::collections::BTreeMap;
use std::thread;
use std::thread::Threads;
use tree_model::Mem;
use var_deps::StoreKeys;

/// Fewer tasks are planned as fast by one thread.
const FEW: usize = 64;

/// What one thread makes, by the numbers of the nodes.
pub(crate) type Share = BTreeMap<usize, Made>;

/// What is made of a task with this key; nothing where it is refused.
fn with_shell(alloc: Global, file: &str, keys: &StoreKeys, key: Key, task: &str) -> Option<Made>
    requires { IsKeyOf keys.now task.now key }
    ensures { IfSome result (IsMade file.now keys.now task.now) }
{
    match shell_parts(alloc, file, keys, &key, task) {
        Ok(shell) => Some(Made { key, shell }),
        Err(_) => None,
    }
}

/// What is made of a task; nothing where it is refused.
fn make(alloc: Global, file: &str, keys: &mut StoreKeys, task: &str) -> Option<Made>
    ensures made { IfSome result (IsMade file.now keys.old task.now) }
    ensures keys { keys.new ≡ keys.old }
{
    match key_of(alloc, file, keys, task) {
        Ok(key) => with_shell(alloc, file, keys, key, task),
        Err(_) => None,
    }
}

/// What is made of a node's task with the keys of its recipe, which are kept; nothing where it is refused.
fn make_node<'a>(
    alloc: Global,
    set: &'a RecipeSet,
    kept: &mut Kept<'a>,
    node: &Node,
) -> Result<Option<Made>, Mem>
    requires within { node.now.recipe < length set.now.facts.recipes }
    requires kept { AreKept set.now.stores (get nat_cmp kept.old) }
    ensures kept { OnOk result (AreKept set.now.stores (get nat_cmp kept.new)) }
    ensures made { IfOk result (λ made. IfSome made (IsMadeOf set.now node.now)) }
{
    let file = file_of(set, node.recipe);
    match keys_of(alloc, file, set, kept, node.recipe) {
        Ok(keys) => {
            let mut keys = keys;
            let made = make(alloc, file, &mut keys, node.id.task.as_str());
            keep(kept, node.recipe, keys)?;
            Ok(made)
        }
        Err(_) => Ok(None),
    }
}

/// Puts what is made of the node with this number.
fn put(share: &mut Share, number: usize, made: Made) -> Result<(), Mem>
    ensures { OnOk result ((q : ℕ) → get nat_cmp share.new q
        ≡ update nat_eq (get nat_cmp share.old) number (Some made) q) }
{
    share.insert(number, made)?;
    Ok(())
}

/// Makes what can be made of the node with this number, and counts the bytes of its texts.
fn make_at<'a>(
    alloc: Global,
    set: &'a RecipeSet,
    nodes: &[Node],
    number: usize,
    kept: &mut Kept<'a>,
    share: &mut Share,
    texts: &mut u64,
) -> Result<(), Mem>
    requires within { All (λ node. node.recipe < length set.now.facts.recipes) nodes.now }
    requires number { number < length nodes.now }
    requires kept { AreKept set.now.stores (get nat_cmp kept.old) }
    requires ahead { AreAhead set.now nodes.now (get nat_cmp share.old) }
    ensures kept { OnOk result (AreKept set.now.stores (get nat_cmp kept.new)) }
    ensures ahead { OnOk result (AreAhead set.now nodes.now (get nat_cmp share.new)) }
{
    match make_node(alloc, set, kept, &nodes[number])? {
        Some(made) => {
            let more = texts_of(&made.key, made.shell.script.as_str());
            *texts = texts.saturating_add(more);
            put(share, number, made)
        }
        None => Ok(()),
    }
}

/// What one of so many threads makes: the tasks of the recipes whose number leaves its own as the remainder, until there are too many texts.
fn share_of(
    alloc: Global,
    set: &RecipeSet,
    nodes: &[Node],
    shares: usize,
    own: usize,
) -> Result<Share, Mem>
    requires within { All (λ node. node.recipe < length set.now.facts.recipes) nodes.now }
    requires some { 0 < shares }
    ensures { IfOk result (λ share. AreAhead set.now nodes.now (get nat_cmp share)) }
{
    let most = MOST_OF_TEXTS / shares as u64;
    let mut kept = BTreeMap::new(alloc);
    let mut share = BTreeMap::new(alloc);
    let mut texts = 0;
    for (number, node) in nodes.iter().enumerate() {
        let wanted = node.recipe as usize % shares == own && texts < most;
        if wanted {
            make_at(alloc, set, nodes, number, &mut kept, &mut share, &mut texts)?;
        }
    }
    Ok(share)
}

/// The same; nothing where memory runs out.
fn share_or_none(alloc: Global, set: &RecipeSet, nodes: &[Node], shares: usize, own: usize) -> Share
    requires within { All (λ node. node.recipe < length set.now.facts.recipes) nodes.now }
    requires some { 0 < shares }
    ensures { AreAhead set.now nodes.now (get nat_cmp result) }
{
    match share_of(alloc, set, nodes, shares, own) {
        Ok(share) => share,
        Err(_) => BTreeMap::new(alloc),
    }
}

/// What so many threads make of the tasks of these nodes, in a share for each; nothing where that isn't worth while or memory runs out.
pub(crate) fn make_ahead<R: Threads + Sync>(
    rt: &R,
    alloc: Global,
    set: &RecipeSet,
    nodes: &[Node],
    threads: u32,
) -> Vec<Share>
    requires { All (λ node. node.recipe < length set.now.facts.recipes) nodes.now }
    ensures { All (λ share. AreAhead set.now nodes.now (get nat_cmp share)) result.items }
{
    if threads < 2 || nodes.len() < FEW {
        return Vec::new(alloc);
    }
    let shares = threads as usize;
    match thread::map_indices(
        rt,
        alloc,
        shares,
        &|own| { share_or_none(alloc, set, nodes, shares, own) },
    ) {
        Ok(made) => made,
        Err(AllocError) => Vec::new(alloc),
    }
}

/// Takes what stands under a number, if anything does.
fn take_from(share: &mut Share, number: usize) -> Option<Made>
    ensures value { result ≡ get nat_cmp share.old number }
    ensures left { (q : ℕ) (made : AMade) → get nat_cmp share.new q ≡ Some made → get nat_cmp share.old q ≡ Some made }
{
    share.remove(&number)
}

/// Takes what is made of the node with this number, which is one of this recipe; nothing where nothing is.
pub(crate) fn take(ahead: &mut [Share], recipe: u32, number: usize) -> Option<Made>
    ensures made { (set : Recipes) (nodes : List GraphNode) → All (λ share. AreAhead set nodes (get nat_cmp share)) ahead.old
        → IfSome result (IsMadeAt set nodes number) }
    ensures left { (set : Recipes) (nodes : List GraphNode) → All (λ share. AreAhead set nodes (get nat_cmp share)) ahead.old
        → All (λ share. AreAhead set nodes (get nat_cmp share)) ahead.new }
{
    let shares = ahead.len();
    if shares == 0 {
        return None;
    }
    take_from(&mut ahead[recipe as usize % shares], number)
}
