// The run of a part.
ghost use Rattle.std.specs.Prelude.{◌≡◌, [], List, ℕ, true, false, Ok, IfOk, IfErr};
ghost use Rattle.outside_traits.specs.Fault.{Counts};
ghost use Rattle.outside_traits.specs.Store.{IsListing, SameFiles};
ghost use Rattle.load_model.specs.Loading.{sources_of};
ghost use Rattle.layer_conf.specs.Config.{config_meant};
ghost use Rattle.answer_model.specs.Answers.{is_refusal};
ghost use Rattle.multi_config.specs.Plans.{IsPartRun};
ghost use Rattle.multi_config.specs.Project as meant;
ghost use Rattle.project_reading.specs.Answered.{IsRefusedAs, mode_failed};
ghost use Rattle.target_graph.specs.Meaning.{asked_meant};
ghost use Rattle.target_graph.specs.Runs.{HasRun, IsNoPartRun};

use crate::asked::{Asked, moved};
use crate::run::{Run, run_of};
use layer_conf::Config;
use meta_model::{Status, Target};
use multi_config::ConfigTargets;
use outside_traits::Layers;
use project_reading::{or_status, read_config, read_named, read_recipes};
use recipe_set::RecipeSet;
use std::alloc::Global;
use tree_model::{ListOf, Mem};

/// The same target again.
fn target_again(target: &Target) -> Result<Target, Mem>
    ensures { IfOk result (λ made. made ≡ target.now) }
{
    Ok(Target {
        name: target.name.copy()?,
        task: target.task.copy()?,
    })
}

/// The same targets again.
fn targets_again(alloc: Global, targets: &[Target]) -> Result<ListOf<Target>, Mem>
    ensures { IfOk result (λ made. made ≡ targets.now) }
{
    let mut made = ListOf::new(alloc);
    for target in targets {
        made.push(target_again(target)?)?;
    }
    Ok(made)
}

/// What targets ask for over all recipes of a configuration.
fn asked_over(
    alloc: Global,
    config: Config,
    set: RecipeSet,
    targets: &[Target],
) -> Result<Asked, Status>
    ensures ok { IfOk result (λ asked. meant.asked_over (config_meant config) targets.now set ≡ Ok (asked_meant asked)) }
    ensures err { IfErr result (λ status. IsRefusedAs status (meant.asked_over (config_meant config) targets.now set)) }
    ensures refusal { IfErr result (λ status. is_refusal status ≡ true) }
    ensures no_failure { mode_failed result ≡ false }
{
    let Config { store, appends, .. } = config;
    match moved(alloc, store) {
        Ok(store) => Ok(Asked {
            set,
            store,
            appends,
            targets: or_status(targets_again(alloc, targets))?,
        }),
        Err(status) => Err(status),
    }
}

/// Reads all recipes of a configuration, and works out what targets ask for.
fn asked_under<L: Layers>(
    alloc: Global,
    layers: &mut L,
    config: Config,
    targets: &[Target],
) -> Result<Asked, Status>
    ensures ok { IfOk result (λ asked. L.tells → meant.asked_under (sources_of (L.files layers.old)) targets.now
        (config_meant config) ≡ Ok (asked_meant asked)) }
    ensures err { IfErr result (λ status. L.tells → IsRefusedAs status
        (meant.asked_under (sources_of (L.files layers.old)) targets.now (config_meant config))) }
    ensures refusal { IfErr result (λ status. is_refusal status ≡ true) }
    ensures same { SameFiles L.files layers.old layers.new }
    ensures cause { Counts (L.faults layers.old) (L.faults layers.new) (mode_failed result) }
{
    match read_recipes(alloc, layers, &config) {
        Ok(set) => asked_over(alloc, config, set, targets),
        Err(status) => Err(status),
    }
}

/// Reads the configuration of a name, over the default one; without a name it is that.
pub fn named_config<L: Layers>(alloc: Global, layers: &mut L, name: &str) -> Result<Config, Status>
    ensures ok { IfOk result (λ made. L.tells → (paths : List (List ℕ)) → IsListing [] (L.files layers.old) paths
        → meant.read_named (sources_of (L.files layers.old)) paths name.now ≡ Ok (config_meant made)) }
    ensures err { IfErr result (λ status. L.tells → (paths : List (List ℕ)) → IsListing [] (L.files layers.old) paths
        → IsRefusedAs status (meant.read_named (sources_of (L.files layers.old)) paths name.now)) }
    ensures refusal { IfErr result (λ status. is_refusal status ≡ true) }
    ensures same { SameFiles L.files layers.old layers.new }
    ensures cause { Counts (L.faults layers.old) (L.faults layers.new) (mode_failed result) }
{
    match read_config(alloc, layers) {
        Ok(config) => read_named(alloc, layers, config, name),
        Err(status) => Err(status),
    }
}

/// Reads the configuration of a part and all recipes, and works out what its targets ask for.
fn read_part<L: Layers>(
    alloc: Global,
    layers: &mut L,
    part: &ConfigTargets,
) -> Result<Asked, Status>
    ensures ok { IfOk result (λ asked. L.tells → (paths : List (List ℕ)) → IsListing [] (L.files layers.old) paths
        → meant.asked_part (sources_of (L.files layers.old)) paths part.now ≡ Ok (asked_meant asked)) }
    ensures err { IfErr result (λ status. L.tells → (paths : List (List ℕ)) → IsListing [] (L.files layers.old) paths
        → IsRefusedAs status (meant.asked_part (sources_of (L.files layers.old)) paths part.now)) }
    ensures refusal { IfErr result (λ status. is_refusal status ≡ true) }
    ensures same { SameFiles L.files layers.old layers.new }
    ensures cause { Counts (L.faults layers.old) (L.faults layers.new) (mode_failed result) }
{
    match named_config(alloc, layers, part.mc.as_str()) {
        Ok(config) => asked_under(alloc, layers, config, part.targets.as_slice()),
        Err(status) => Err(status),
    }
}

/// Finds the run of a part. Its configuration is read over the default one, which is read again.
///
/// - `Metadata` and `Limit`: as `multi_config` says (`IsPartRunRefused` of `Plans`).
/// - `ReadFault`: only where the layers' count of faults rose in the call.
/// - `OutOfMemory`: memory ran out.
///
/// No call changes a file.
pub fn find_part_run<L: Layers>(
    alloc: Global,
    layers: &mut L,
    part: &ConfigTargets,
) -> Result<Run, Status>
    ensures ok { IfOk result (λ run. L.tells → (paths : List (List ℕ)) → IsListing [] (L.files layers.old) paths
        → IsPartRun (sources_of (L.files layers.old)) paths part.now (asked_meant run.asked) run.graph run.threads) }
    ensures whole { IfOk result (λ run. HasRun (asked_meant run.asked) run.graph run.threads) }
    ensures err { IfErr result (λ status. L.tells → (paths : List (List ℕ)) → IsListing [] (L.files layers.old) paths
        → IsNoPartRun (sources_of (L.files layers.old)) paths part.now status) }
    ensures refusal { IfErr result (λ status. is_refusal status ≡ true) }
    ensures same { SameFiles L.files layers.old layers.new }
    ensures cause { Counts (L.faults layers.old) (L.faults layers.new) (mode_failed result) }
{
    match read_part(alloc, layers, part) {
        Ok(asked) => run_of(alloc, asked),
        Err(status) => Err(status),
    }
}
