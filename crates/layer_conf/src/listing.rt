// The files that the patterns of BBFILES may name.
ghost use Rattle.std.specs.Prelude.{◌≡◌, ◌++◌, None, IfOk, IfErr};
ghost use Rattle.outside_traits.specs.Fault.{Counts};
ghost use Rattle.outside_traits.specs.Store.{SameFiles};
ghost use Rattle.layer_conf.specs.Faults.{layer_refusal, layers_failed};
ghost use Rattle.layer_conf.specs.Globs.{IsCover, IsFound, IsJoined};

use crate::fault::LayerFault;
use crate::heads::heads_of;
use outside_traits::{Layers, ReadFault};
use std::alloc::Global;
use tree_model::{Mem, Text, Texts};

/// Some paths, and others behind them.
fn put_behind(mut found: Texts, more: &[Text]) -> Result<Texts, Mem>
    ensures { IfOk result (λ made. made ≡ found ++ more.now) }
{
    for path in more {
        found.push(path.copy()?)?;
    }
    Ok(found)
}

/// The same; where there are no other paths before them nothing is copied.
fn joined(found: Texts, more: Texts) -> Result<Texts, Mem>
    ensures { IfOk result (λ made. made ≡ found ++ more) }
{
    if found.is_empty() {
        return Ok(more);
    }
    put_behind(found, more.as_slice())
}

/// Some paths, and behind them those of the files that begin with a head.
fn with_head<L: Layers>(
    alloc: Global,
    layers: &mut L,
    found: Texts,
    head: &str,
) -> Result<Texts, LayerFault>
    ensures paths { IfOk result (λ made. L.tells → IsJoined head.now (L.files layers.old) found made) }
    ensures free { IfErr result (λ fault. layer_refusal fault ≡ None) }
    ensures same { SameFiles L.files layers.old layers.new }
    ensures cause { Counts (L.faults layers.old) (L.faults layers.new) (layers_failed result) }
{
    match layers.list(alloc, head) {
        Ok(paths) => match joined(found, paths) {
            Ok(made) => Ok(made),
            Err(_) => Err(LayerFault::Memory),
        },
        Err(ReadFault::Failed) => Err(LayerFault::List),
        Err(ReadFault::TooLong) | Err(ReadFault::Memory) => Err(LayerFault::Memory),
    }
}

/// The paths of the files that begin with one of these heads; one that begins with several may stand there several times.
fn listed_by<L: Layers>(alloc: Global, layers: &mut L, heads: &[Text]) -> Result<Texts, LayerFault>
    ensures paths { IfOk result (λ paths. L.tells → IsFound heads.now (L.files layers.old) paths) }
    ensures free { IfErr result (λ fault. layer_refusal fault ≡ None) }
    ensures same { SameFiles L.files layers.old layers.new }
    ensures cause { Counts (L.faults layers.old) (L.faults layers.new) (layers_failed result) }
{
    let mut found = Texts::new(alloc);
    for head in heads {
        found = match with_head(alloc, layers, found, head.as_str()) {
            Ok(made) => made,
            Err(fault) => return Err(fault),
        };
    }
    Ok(found)
}

/// The paths of all files that one of these patterns matches, among others. Only what begins as a pattern does, up to its first
/// wildcard, is listed: nothing else in a project's folder is looked at.
pub(crate) fn listed<L: Layers>(
    alloc: Global,
    layers: &mut L,
    globs: &[Text],
) -> Result<Texts, LayerFault>
    ensures paths { IfOk result (λ paths. L.tells → IsCover globs.now (L.files layers.old) paths) }
    ensures free { IfErr result (λ fault. layer_refusal fault ≡ None) }
    ensures same { SameFiles L.files layers.old layers.new }
    ensures cause { Counts (L.faults layers.old) (L.faults layers.new) (layers_failed result) }
{
    match heads_of(alloc, globs) {
        Ok(heads) => listed_by(alloc, layers, heads.as_slice()),
        Err(_) => Err(LayerFault::Memory),
    }
}
