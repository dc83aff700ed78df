// What a run is asked for.
ghost use Rattle.std.specs.Prelude.{◌≡◌, [], List, ℕ, true, false, Ok, IfOk, IfErr};
ghost use Rattle.std.specs.Option.{option_copied};
ghost use Rattle.outside_traits.specs.Fault.{Counts};
ghost use Rattle.outside_traits.specs.Store.{IsListing, SameFiles};
ghost use Rattle.load_model.specs.Loading.{sources_of};
ghost use Rattle.layer_conf.specs.Config.{config_meant};
ghost use Rattle.project_reading.specs.Answered.{IsRefusedAs, mode_failed};
ghost use Rattle.answer_model.specs.Answers.{is_refusal};
ghost use Rattle.answer_model.specs.RunAsked as meant;
ghost use Rattle.target_graph.specs.Meaning.{asked_meant};

use crate::targets::targets_of;
use datastore::Datastore;
use layer_conf::Config;
use meta_model::{Status, Target};
use outside_traits::Layers;
use project_reading::{or_status, read_config, read_recipes, value_status};
use recipe_facts::text_of;
use recipe_set::RecipeSet;
use std::alloc::Global;
use tree_model::{ListOf, Text, Texts};

/// What a run is asked for.
#[derive(Drop)]
pub struct Asked {
    /// All recipes.
    pub set: RecipeSet,
    /// The entries of the configuration, once its names are moved.
    pub store: Datastore,
    /// The paths of the appends.
    pub appends: Texts,
    /// The targets, in the order of the words.
    pub targets: ListOf<Target>,
}

/// A value of the configuration, or the empty text.
pub(crate) fn config_text(alloc: Global, store: &Datastore, name: &str) -> Result<Text, Status>
    ensures ok { IfOk result (λ text. meant.config_text store.now name.now ≡ Ok text) }
    ensures err { IfErr result (λ status. IsRefusedAs status (meant.config_text store.now name.now)) }
    ensures refusal { IfErr result (λ status. is_refusal status ≡ true) }
    ensures no_failure { mode_failed result ≡ false }
{
    match text_of(alloc, store, name) {
        Ok(text) => Ok(text),
        Err(fault) => Err(value_status(alloc, Text::new(alloc), 0, fault)),
    }
}

/// The entries of the configuration, once its names are moved.
pub(crate) fn moved(alloc: Global, store: Datastore) -> Result<Datastore, Status>
    ensures ok { IfOk result (λ made. meant.moved store ≡ Ok made) }
    ensures err { IfErr result (λ status. IsRefusedAs status (meant.moved store)) }
    ensures refusal { IfErr result (λ status. is_refusal status ≡ true) }
    ensures no_failure { mode_failed result ≡ false }
{
    match store.freeze(alloc) {
        Ok(made) => Ok(made),
        Err(fault) => Err(value_status(alloc, Text::new(alloc), 0, fault)),
    }
}

/// The task of targets that name none: this one, where it is given, or that of the configuration.
pub(crate) fn default_task(
    alloc: Global,
    store: &Datastore,
    task: Option<&Text>,
) -> Result<Text, Status>
    ensures ok { IfOk result (λ text. meant.default_task store.now (option_copied task.entry) ≡ Ok text) }
    ensures err { IfErr result (λ status. IsRefusedAs status
        (meant.default_task store.now (option_copied task.entry))) }
    ensures refusal { IfErr result (λ status. is_refusal status ≡ true) }
    ensures no_failure { mode_failed result ≡ false }
{
    match task {
        Some(task) => or_status(task.copy()),
        None => config_text(alloc, store, "BB_DEFAULT_TASK"),
    }
}

/// The targets of words over the configuration.
fn targets_in(
    alloc: Global,
    store: &Datastore,
    words: &[Text],
    task: Option<&Text>,
) -> Result<ListOf<Target>, Status>
    ensures ok { IfOk result (λ targets. meant.targets_in store.now words.now (option_copied task.entry) ≡ Ok targets) }
    ensures err { IfErr result (λ status. IsRefusedAs status
        (meant.targets_in store.now words.now (option_copied task.entry))) }
    ensures refusal { IfErr result (λ status. is_refusal status ≡ true) }
    ensures no_failure { mode_failed result ≡ false }
{
    match default_task(alloc, store, task) {
        Ok(default) => targets_of(alloc, default.as_str(), words),
        Err(status) => Err(status),
    }
}

/// What words ask for over all recipes and the configuration, once its names are moved.
fn asked_with(
    alloc: Global,
    set: RecipeSet,
    appends: Texts,
    store: Datastore,
    words: &[Text],
    task: Option<&Text>,
) -> Result<Asked, Status>
    ensures ok { IfOk result (λ asked. meant.asked_with set appends store words.now (option_copied task.entry)
        ≡ Ok (asked_meant asked)) }
    ensures err { IfErr result (λ status. IsRefusedAs status
        (meant.asked_with set appends store words.now (option_copied task.entry))) }
    ensures refusal { IfErr result (λ status. is_refusal status ≡ true) }
    ensures no_failure { mode_failed result ≡ false }
{
    match targets_in(alloc, &store, words, task) {
        Ok(targets) => Ok(Asked {
            set,
            store,
            appends,
            targets,
        }),
        Err(status) => Err(status),
    }
}

/// What words ask for over all recipes and the configuration.
fn asked_over(
    alloc: Global,
    config: Config,
    set: RecipeSet,
    words: &[Text],
    task: Option<&Text>,
) -> Result<Asked, Status>
    ensures ok { IfOk result (λ asked. meant.asked_over (config_meant config) set words.now (option_copied task.entry)
        ≡ Ok (asked_meant asked)) }
    ensures err { IfErr result (λ status. IsRefusedAs status
        (meant.asked_over (config_meant config) set words.now (option_copied task.entry))) }
    ensures refusal { IfErr result (λ status. is_refusal status ≡ true) }
    ensures no_failure { mode_failed result ≡ false }
{
    let Config { store, appends, .. } = config;
    match moved(alloc, store) {
        Ok(store) => asked_with(alloc, set, appends, store, words, task),
        Err(status) => Err(status),
    }
}

/// Reads all recipes of a configuration, and works out what words ask for.
fn read_under<L: Layers>(
    alloc: Global,
    layers: &mut L,
    config: Config,
    words: &[Text],
    task: Option<&Text>,
) -> Result<Asked, Status>
    ensures ok { IfOk result (λ asked. L.tells → meant.asked_under (sources_of (L.files layers.old))
        (config_meant config) words.now (option_copied task.entry) ≡ Ok (asked_meant asked)) }
    ensures err { IfErr result (λ status. L.tells → IsRefusedAs status
        (meant.asked_under (sources_of (L.files layers.old)) (config_meant config) words.now
        (option_copied task.entry))) }
    ensures refusal { IfErr result (λ status. is_refusal status ≡ true) }
    ensures same { SameFiles L.files layers.old layers.new }
    ensures cause { Counts (L.faults layers.old) (L.faults layers.new) (mode_failed result) }
{
    match read_recipes(alloc, layers, &config) {
        Ok(set) => asked_over(alloc, config, set, words, task),
        Err(status) => Err(status),
    }
}

/// Reads the configuration and all recipes, and works out what words ask for.
pub(crate) fn read_asked<L: Layers>(
    alloc: Global,
    layers: &mut L,
    words: &[Text],
    task: Option<&Text>,
) -> Result<Asked, Status>
    ensures ok { IfOk result (λ asked. L.tells → (paths : List (List ℕ)) → IsListing [] (L.files layers.old) paths
        → meant.asked (sources_of (L.files layers.old)) paths words.now (option_copied task.entry)
        ≡ Ok (asked_meant asked)) }
    ensures err { IfErr result (λ status. L.tells → (paths : List (List ℕ)) → IsListing [] (L.files layers.old) paths
        → IsRefusedAs status (meant.asked (sources_of (L.files layers.old)) paths words.now
        (option_copied task.entry))) }
    ensures refusal { IfErr result (λ status. is_refusal status ≡ true) }
    ensures same { SameFiles L.files layers.old layers.new }
    ensures cause { Counts (L.faults layers.old) (L.faults layers.new) (mode_failed result) }
{
    match read_config(alloc, layers) {
        Ok(config) => read_under(alloc, layers, config, words, task),
        Err(status) => Err(status),
    }
}
