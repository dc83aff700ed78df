// The parts of words.
ghost use Rattle.std.specs.Prelude.{◌≡◌, Ok, IfOk, IfErr};
ghost use Rattle.std.specs.List.{AllByRecursion};
ghost use Rattle.meta_model.specs.Passing.{IsRefused};
ghost use Rattle.multi_config.specs.Faults.{word_refusal};
ghost use Rattle.multi_config.specs.Named.{IsNamed};
ghost use Rattle.multi_config.specs.Words.{parts_of};

use crate::fault::SplitFault;
use crate::parts::{ConfigTargets, parts_in};
use crate::places::places_of;
use std::alloc::Global;
use tree_model::Text;

/// The parts of a run of these words, each configuration once, over the names of the further configurations. `task` is the task of targets that name
/// none.
///
/// # Errors
/// The first word at fault: `NoSuchConfig`, `NothingProvides`. `Memory`.
#[tactic(auto, unfolding(crate::specs::Words::parts_of))]
pub fn split(
    alloc: Global,
    words: &[Text],
    task: &str,
    configs: &[Text],
) -> Result<Vec<ConfigTargets>, SplitFault>
    ensures ok { IfOk result (λ parts. parts_of configs.now task.now words.now ≡ Ok parts.items) }
    ensures names { IfOk result (λ parts. AllByRecursion (λ p. IsNamed p.mc) parts.items) }
    ensures err { IfErr result (λ fault. IsRefused (word_refusal fault) (parts_of configs.now task.now words.now)) }
{
    match places_of(alloc, configs, words) {
        Ok(places) => Ok(parts_in(alloc, task, places.as_slice())?),
        Err(fault) => Err(fault),
    }
}
