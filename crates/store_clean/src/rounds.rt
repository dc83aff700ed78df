// The rounds in which records go: each before what it names.
ghost use Rattle.std.specs.Prelude.{◌≡◌, ◌<◌, ◌≤◌, ◌^◌, [], All, Contains, IfOk, OnOk, length, replicate, ℕ};
ghost use Rattle.store_keep.specs.Keep.{NameEarlier};
ghost use Rattle.store_clean.specs.Steps.{AreLayers, AreRounds, IsPutIn, PutsUnless, layer_at};

use std::alloc::Global;
use tree_model::{ListOf, Mem};

/// The higher one of two layers: this one, or that above the other one.
fn higher(above: usize, layer: usize, bound: usize) -> usize
    requires layer { layer < bound }
    requires above { above ≤ bound }
    ensures over { layer < result }
    ensures no_less { above ≤ result }
    ensures low { result ≤ bound }
{
    if above <= layer {
        return layer + 1;
    }
    above
}

/// The layer above those of these places.
fn layer_above(layers: &[usize], places: &[usize]) -> usize
    requires within { All (λ w. w < length layers.now) places.now }
    requires low { (w : ℕ) → layer_at layers.now w ≤ w }
    ensures above { (w : ℕ) → Contains places.now w → layer_at layers.now w < result }
    ensures low { result ≤ length layers.now }
{
    let mut above = 0;
    for place in places {
        above = higher(above, layers[*place], layers.len());
    }
    above
}

/// The layer of each record, above those of what it names.
fn layers_of(alloc: Global, edges: &[ListOf<usize>]) -> Result<Vec<usize>, Mem>
    requires { NameEarlier edges.now }
    ensures { IfOk result (λ layers. AreLayers edges.now layers.items) }
{
    let mut layers = Vec::with_capacity(alloc, edges.len())?;
    for places in edges {
        let layer = layer_above(&layers, places.as_slice());
        layers.push(layer)?;
    }
    Ok(layers)
}

/// So many empty lists.
fn no_lists(alloc: Global, count: usize) -> Result<Vec<ListOf<usize>>, Mem>
    ensures { IfOk result (λ made. made.items ≡ replicate count []) }
{
    let mut made = Vec::with_capacity(alloc, count)?;
    for _ in 0..count {
        made.push(ListOf::new(alloc))?;
    }
    Ok(made)
}

/// Puts a place into a round.
fn put_in(rounds: &mut Vec<ListOf<usize>>, round: usize, place: usize) -> Result<(), Mem>
    requires { round < length rounds.old.items }
    ensures { OnOk result (IsPutIn round place rounds.old.items rounds.new.items) }
{
    rounds[round].push(place)
}

/// Puts a place into a round, unless it is marked.
fn put_unless(
    rounds: &mut Vec<ListOf<usize>>,
    marked: bool,
    round: usize,
    place: usize,
) -> Result<(), Mem>
    requires { round < length rounds.old.items }
    ensures { OnOk result (PutsUnless marked round place rounds.old.items rounds.new.items) }
{
    if marked {
        return Ok(());
    }
    put_in(rounds, round, place)
}

/// The places that aren't marked, in rounds, of which the last goes first.
pub(crate) fn rounds_of(
    alloc: Global,
    edges: &[ListOf<usize>],
    marks: &[bool],
) -> Result<Vec<ListOf<usize>>, Mem>
    requires earlier { NameEarlier edges.now }
    requires long { length marks.now ≡ length edges.now }
    ensures { IfOk result (λ rounds. AreRounds edges.now marks.now rounds.items) }
{
    let layers = layers_of(alloc, edges)?;
    let mut rounds = no_lists(alloc, edges.len())?;
    for (place, mark) in marks.iter().enumerate() {
        put_unless(&mut rounds, *mark, layers[place], place)?;
    }
    Ok(rounds)
}
