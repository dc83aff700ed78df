// The parts of a run of several configurations, which words have.
ghost use Rattle.std.specs.Prelude.{◌≡◌, [], List, ℕ, true, false, Ok, IfOk, IfErr};
ghost use Rattle.std.specs.List.{AllByRecursion};
ghost use Rattle.std.specs.Option.{option_copied};
ghost use Rattle.outside_traits.specs.Fault.{Counts};
ghost use Rattle.outside_traits.specs.Store.{IsListing, SameFiles};
ghost use Rattle.load_model.specs.Loading.{sources_of};
ghost use Rattle.layer_conf.specs.Config.{config_meant};
ghost use Rattle.answer_model.specs.Answers.{is_refusal};
ghost use Rattle.multi_config.specs.Faults.{word_refusal};
ghost use Rattle.multi_config.specs.Named.{IsNamed};
ghost use Rattle.multi_config.specs.Project as meant;
ghost use Rattle.project_reading.specs.Answered.{IsRefusedAs, is_failed_read, mode_failed};
ghost use Rattle.project_reading.specs.Faults.{IsAnsweredAs};
ghost use Rattle.target_graph.specs.Parts.{parts_moved};

use crate::asked::{default_task, moved};
use datastore::Datastore;
use layer_conf::Config;
use meta_model::Status;
use multi_config::{ConfigTargets, SplitFault, split};
use outside_traits::Layers;
use project_reading::{config_names, named, nothing_provides, read_config};
use std::alloc::Global;
use tree_model::Text;

/// The status of a word that names no configuration's target.
fn word_status(alloc: Global, fault: SplitFault) -> Status
    ensures told { IsAnsweredAs result meant.word_status (word_refusal fault) }
    ensures refusal { is_refusal result ≡ true }
    ensures no_failure { is_failed_read result ≡ false }
{
    match fault {
        SplitFault::NoSuchConfig { name } => {
            named(alloc, Text::new(alloc), 0, "NoSuchConfig", name)
        }
        SplitFault::NothingProvides { word } => nothing_provides(alloc, word.as_str()),
        SplitFault::Memory => Status::OutOfMemory,
    }
}

/// The parts of words among these configurations.
fn parts_among(
    alloc: Global,
    configs: &[Text],
    words: &[Text],
    default: &str,
) -> Result<Vec<ConfigTargets>, Status>
    ensures ok { IfOk result (λ parts. meant.parts_among configs.now words.now default.now ≡ Ok parts.items) }
    ensures names { IfOk result (λ parts. AllByRecursion (λ p. IsNamed p.mc) parts.items) }
    ensures err { IfErr result (λ status. IsRefusedAs status (meant.parts_among configs.now words.now default.now)) }
    ensures refusal { IfErr result (λ status. is_refusal status ≡ true) }
    ensures no_failure { mode_failed result ≡ false }
{
    match split(alloc, words, default, configs) {
        Ok(parts) => Ok(parts),
        Err(fault) => Err(word_status(alloc, fault)),
    }
}

/// The same over the entries of the default configuration, once its names are moved.
fn parts_over(
    alloc: Global,
    configs: &[Text],
    words: &[Text],
    task: Option<&Text>,
    store: &Datastore,
) -> Result<Vec<ConfigTargets>, Status>
    ensures ok { IfOk result (λ parts. meant.parts_over configs.now words.now (option_copied task.entry) store.now
        ≡ Ok parts.items) }
    ensures names { IfOk result (λ parts. AllByRecursion (λ p. IsNamed p.mc) parts.items) }
    ensures err { IfErr result (λ status. IsRefusedAs status
        (meant.parts_over configs.now words.now (option_copied task.entry) store.now)) }
    ensures refusal { IfErr result (λ status. is_refusal status ≡ true) }
    ensures no_failure { mode_failed result ≡ false }
{
    match default_task(alloc, store, task) {
        Ok(default) => parts_among(alloc, configs, words, default.as_str()),
        Err(status) => Err(status),
    }
}

/// The same over its entries as they are written.
fn parts_moved(
    alloc: Global,
    configs: &[Text],
    words: &[Text],
    task: Option<&Text>,
    store: Datastore,
) -> Result<Vec<ConfigTargets>, Status>
    ensures ok { IfOk result (λ parts. parts_moved configs.now words.now (option_copied task.entry) store
        ≡ Ok parts.items) }
    ensures names { IfOk result (λ parts. AllByRecursion (λ p. IsNamed p.mc) parts.items) }
    ensures err { IfErr result (λ status. IsRefusedAs status
        (parts_moved configs.now words.now (option_copied task.entry) store)) }
    ensures refusal { IfErr result (λ status. is_refusal status ≡ true) }
    ensures no_failure { mode_failed result ≡ false }
{
    match moved(alloc, store) {
        Ok(store) => parts_over(alloc, configs, words, task, &store),
        Err(status) => Err(status),
    }
}

/// The parts of words over the default configuration.
fn parts_under(
    alloc: Global,
    config: Config,
    words: &[Text],
    task: Option<&Text>,
) -> Result<Vec<ConfigTargets>, Status>
    ensures ok { IfOk result (λ parts. meant.parts_under words.now (option_copied task.entry) (config_meant config)
        ≡ Ok parts.items) }
    ensures names { IfOk result (λ parts. AllByRecursion (λ p. IsNamed p.mc) parts.items) }
    ensures err { IfErr result (λ status. IsRefusedAs status
        (meant.parts_under words.now (option_copied task.entry) (config_meant config))) }
    ensures refusal { IfErr result (λ status. is_refusal status ≡ true) }
    ensures no_failure { mode_failed result ≡ false }
{
    match config_names(alloc, &config) {
        Ok(configs) => parts_moved(alloc, configs.as_slice(), words, task, config.store),
        Err(status) => Err(status),
    }
}

/// Finds the parts of words, each configuration once: the default one first, then the others in the order of their first targets. `task` is the task of
/// targets that name none, as the option `-c` gives it; where it isn't given, BB_DEFAULT_TASK of the default configuration counts, for all parts.
///
/// - `Metadata`: as `multi_config` says (`parts_asked` of `Project`): the default configuration, BBMULTICONFIG, the configuration's names, the default task,
///   the words, in this order. No recipe is read.
/// - `ReadFault`: only where the layers' count of faults rose in the call.
/// - `OutOfMemory`: memory ran out.
///
/// No call changes a file.
pub fn find_parts<L: Layers>(
    alloc: Global,
    layers: &mut L,
    words: &[Text],
    task: Option<&Text>,
) -> Result<Vec<ConfigTargets>, Status>
    ensures ok { IfOk result (λ parts. L.tells → (paths : List (List ℕ)) → IsListing [] (L.files layers.old) paths
        → meant.parts_asked (sources_of (L.files layers.old)) paths words.now (option_copied task.entry) ≡ Ok parts.items) }
    ensures names { IfOk result (λ parts. AllByRecursion (λ p. IsNamed p.mc) parts.items) }
    ensures err { IfErr result (λ status. L.tells → (paths : List (List ℕ)) → IsListing [] (L.files layers.old) paths
        → IsRefusedAs status (meant.parts_asked (sources_of (L.files layers.old)) paths words.now
        (option_copied task.entry))) }
    ensures refusal { IfErr result (λ status. is_refusal status ≡ true) }
    ensures same { SameFiles L.files layers.old layers.new }
    ensures cause { Counts (L.faults layers.old) (L.faults layers.new) (mode_failed result) }
{
    match read_config(alloc, layers) {
        Ok(config) => parts_under(alloc, config, words, task),
        Err(status) => Err(status),
    }
}
