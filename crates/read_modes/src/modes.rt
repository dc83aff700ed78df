// The modes that only read metadata.
ghost use Rattle.std.specs.Prelude.{◌≡◌, [], List, ℕ, true, Ok, IfOk, IfErr};
ghost use Rattle.outside_traits.specs.Fault.{Counts};
ghost use Rattle.outside_traits.specs.Store.{IsListing, SameFiles};
ghost use Rattle.load_model.specs.Loading.{sources_of};
ghost use Rattle.layer_conf.specs.Config.{config_meant};
ghost use Rattle.answer_model.specs.Modes as modes;
ghost use Rattle.project_reading.specs.Answered.{IsRefusedAs, mode_failed};
ghost use Rattle.answer_model.specs.Answers.{is_refusal};

use crate::targets::values_of_targets;
use crate::values::config_values;
use answer_model::ReadMode;
use bb_report::{parsed_text, versions_text};
use layer_conf::Config;
use meta_model::Status;
use outside_traits::Layers;
use project_reading::{or_status, read_config, read_recipes};
use std::alloc::Global;
use tree_model::Text;

/// How many recipe files were read.
fn parsed<L: Layers>(alloc: Global, layers: &mut L, config: &Config) -> Result<Text, Status>
    ensures ok { IfOk result (λ text. L.tells → modes.parsed_over (sources_of (L.files layers.old))
        (config_meant config.now) ≡ Ok text) }
    ensures err { IfErr result (λ status. L.tells → IsRefusedAs status
        (modes.parsed_over (sources_of (L.files layers.old)) (config_meant config.now))) }
    ensures refusal { IfErr result (λ status. is_refusal status ≡ true) }
    ensures same { SameFiles L.files layers.old layers.new }
    ensures cause { Counts (L.faults layers.old) (L.faults layers.new) (mode_failed result) }
{
    match read_recipes(alloc, layers, config) {
        Ok(_) => or_status(parsed_text(alloc, config.recipes.len())),
        Err(status) => Err(status),
    }
}

/// The chosen versions.
fn versions<L: Layers>(alloc: Global, layers: &mut L, config: &Config) -> Result<Text, Status>
    ensures ok { IfOk result (λ text. L.tells → modes.versions_over (sources_of (L.files layers.old))
        (config_meant config.now) ≡ Ok text) }
    ensures err { IfErr result (λ status. L.tells → IsRefusedAs status
        (modes.versions_over (sources_of (L.files layers.old)) (config_meant config.now))) }
    ensures refusal { IfErr result (λ status. is_refusal status ≡ true) }
    ensures same { SameFiles L.files layers.old layers.new }
    ensures cause { Counts (L.faults layers.old) (L.faults layers.new) (mode_failed result) }
{
    match read_recipes(alloc, layers, config) {
        Ok(set) => or_status(versions_text(alloc, set.facts())),
        Err(status) => Err(status),
    }
}

/// The values of the targets' recipes.
pub(crate) fn target_values<L: Layers>(
    alloc: Global,
    layers: &mut L,
    config: &Config,
    targets: &[Text],
) -> Result<Text, Status>
    ensures ok { IfOk result (λ text. L.tells → modes.targets_over (sources_of (L.files layers.old))
        (config_meant config.now) targets.now ≡ Ok text) }
    ensures err { IfErr result (λ status. L.tells → IsRefusedAs status
        (modes.targets_over (sources_of (L.files layers.old)) (config_meant config.now) targets.now)) }
    ensures refusal { IfErr result (λ status. is_refusal status ≡ true) }
    ensures same { SameFiles L.files layers.old layers.new }
    ensures cause { Counts (L.faults layers.old) (L.faults layers.new) (mode_failed result) }
{
    match read_recipes(alloc, layers, config) {
        Ok(set) => values_of_targets(alloc, &set, targets),
        Err(status) => Err(status),
    }
}

/// The values of the targets' recipes; without targets those of the configuration, for which no recipe is read.
fn environment_of<L: Layers>(
    alloc: Global,
    layers: &mut L,
    config: Config,
    targets: &[Text],
) -> Result<Text, Status>
    ensures ok { IfOk result (λ text. L.tells → modes.environment_of (sources_of (L.files layers.old))
        (config_meant config) targets.now ≡ Ok text) }
    ensures err { IfErr result (λ status. L.tells → IsRefusedAs status
        (modes.environment_of (sources_of (L.files layers.old)) (config_meant config) targets.now)) }
    ensures refusal { IfErr result (λ status. is_refusal status ≡ true) }
    ensures same { SameFiles L.files layers.old layers.new }
    ensures cause { Counts (L.faults layers.old) (L.faults layers.new) (mode_failed result) }
{
    match targets {
        [] => config_values(alloc, config),
        _ => target_values(alloc, layers, &config, targets),
    }
}

/// The text of a mode over a configuration.
fn text_of<L: Layers>(
    alloc: Global,
    layers: &mut L,
    mode: ReadMode,
    config: Config,
    targets: &[Text],
) -> Result<Text, Status>
    ensures ok { IfOk result (λ text. L.tells → modes.text_of mode (sources_of (L.files layers.old))
        (config_meant config) targets.now ≡ Ok text) }
    ensures err { IfErr result (λ status. L.tells → IsRefusedAs status
        (modes.text_of mode (sources_of (L.files layers.old)) (config_meant config) targets.now)) }
    ensures refusal { IfErr result (λ status. is_refusal status ≡ true) }
    ensures same { SameFiles L.files layers.old layers.new }
    ensures cause { Counts (L.faults layers.old) (L.faults layers.new) (mode_failed result) }
{
    match mode {
        ReadMode::Parse => parsed(alloc, layers, &config),
        ReadMode::Versions => versions(alloc, layers, &config),
        ReadMode::Environment => environment_of(alloc, layers, config, targets),
    }
}

/// Reads what a mode needs, and gives the text that it prints, or the status that it is refused with.
///
/// Which text or status is a definition (`Modes` of `answer_model`, `mode_text`) over the files of the layers and the list of their
/// paths: each once and in byte order, so there is one such list. `ReadFault` comes only where the layers' count of faults rose,
/// and want of memory alone is free. No call changes a file.
///
/// For `-e` a target's recipe is the provider of its name (BitBake User Manual, "Execution", section "Providers"). Only the values
/// of the targets' recipes are worked out, once all recipes are read and all targets are found.
pub fn read_mode<L: Layers>(
    alloc: Global,
    layers: &mut L,
    mode: ReadMode,
    targets: &[Text],
) -> Result<Text, Status>
    ensures ok { IfOk result (λ text. L.tells → (paths : List (List ℕ)) → IsListing [] (L.files layers.old) paths
        → modes.mode_text mode (sources_of (L.files layers.old)) paths targets.now ≡ Ok text) }
    ensures err { IfErr result (λ status. L.tells → (paths : List (List ℕ)) → IsListing [] (L.files layers.old) paths
        → IsRefusedAs status (modes.mode_text mode (sources_of (L.files layers.old)) paths targets.now)) }
    ensures refusal { IfErr result (λ status. is_refusal status ≡ true) }
    ensures same { SameFiles L.files layers.old layers.new }
    ensures cause { Counts (L.faults layers.old) (L.faults layers.new) (mode_failed result) }
{
    match read_config(alloc, layers) {
        Ok(config) => text_of(alloc, layers, mode, config, targets),
        Err(status) => Err(status),
    }
}
