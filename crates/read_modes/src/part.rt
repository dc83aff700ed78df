// The values of a part of what is shown of several configurations.
ghost use Rattle.std.specs.Prelude.{◌≡◌, [], List, ℕ, true, Ok, IfOk, IfErr, map};
ghost use Rattle.outside_traits.specs.Fault.{Counts};
ghost use Rattle.outside_traits.specs.Store.{IsListing, SameFiles};
ghost use Rattle.load_model.specs.Loading.{sources_of};
ghost use Rattle.layer_conf.specs.Config.{config_meant};
ghost use Rattle.answer_model.specs.Answers.{is_refusal};
ghost use Rattle.multi_config.specs.Shown as meant;
ghost use Rattle.project_reading.specs.Answered.{IsRefusedAs, mode_failed};

use crate::modes::target_values;
use layer_conf::Config;
use meta_model::{Status, Target};
use multi_config::ConfigTargets;
use outside_traits::Layers;
use project_reading::or_status;
use std::alloc::Global;
use target_graph::named_config;
use tree_model::{Mem, Text};

/// The names of targets.
fn names_of(alloc: Global, targets: &[Target]) -> Result<Vec<Text>, Mem>
    ensures { IfOk result (λ names. names.items ≡ map (λ t. t.name) targets.now) }
{
    let mut names = Vec::new(alloc);
    for target in targets {
        names.push(target.name.copy()?)?;
    }
    Ok(names)
}

/// The values of the recipes of targets in a configuration.
fn values_under<L: Layers>(
    alloc: Global,
    layers: &mut L,
    config: &Config,
    targets: &[Target],
) -> Result<Text, Status>
    ensures ok { IfOk result (λ text. L.tells → meant.values_under (sources_of (L.files layers.old)) targets.now
        (config_meant config.now) ≡ Ok text) }
    ensures err { IfErr result (λ status. L.tells → IsRefusedAs status
        (meant.values_under (sources_of (L.files layers.old)) targets.now (config_meant config.now))) }
    ensures refusal { IfErr result (λ status. is_refusal status ≡ true) }
    ensures same { SameFiles L.files layers.old layers.new }
    ensures cause { Counts (L.faults layers.old) (L.faults layers.new) (mode_failed result) }
{
    match or_status(names_of(alloc, targets)) {
        Ok(names) => target_values(alloc, layers, config, names.as_slice()),
        Err(status) => Err(status),
    }
}

/// Reads the configuration of a part and all recipes, and gives the values of the recipes of its targets, or the status that they are refused with
/// (`part_values` of `Shown` of `multi_config`). `ReadFault` comes only where the layers' count of faults rose, and want of memory alone is free. No call
/// changes a file.
pub fn read_part<L: Layers>(
    alloc: Global,
    layers: &mut L,
    part: &ConfigTargets,
) -> Result<Text, Status>
    ensures ok { IfOk result (λ text. L.tells → (paths : List (List ℕ)) → IsListing [] (L.files layers.old) paths
        → meant.part_values (sources_of (L.files layers.old)) paths part.now ≡ Ok text) }
    ensures err { IfErr result (λ status. L.tells → (paths : List (List ℕ)) → IsListing [] (L.files layers.old) paths
        → IsRefusedAs status (meant.part_values (sources_of (L.files layers.old)) paths part.now)) }
    ensures refusal { IfErr result (λ status. is_refusal status ≡ true) }
    ensures same { SameFiles L.files layers.old layers.new }
    ensures cause { Counts (L.faults layers.old) (L.faults layers.new) (mode_failed result) }
{
    match named_config(alloc, layers, part.mc.as_str()) {
        Ok(config) => values_under(alloc, layers, &config, part.targets.as_slice()),
        Err(status) => Err(status),
    }
}
