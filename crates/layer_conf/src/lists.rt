// The configuration with its lists.
ghost use Rattle.std.specs.Prelude.{◌≡◌, [], List, ℕ, Ok, IfOk, IfErr, codes, filter_map, false};
ghost use Rattle.outside_traits.specs.Fault.{Counts};
ghost use Rattle.outside_traits.specs.Store.{IsListing, SameFiles};
ghost use Rattle.load_model.specs.Paths.{path_named};
ghost use Rattle.load_model.specs.Loading.{sources_of};
ghost use Rattle.load_model.specs.Layers as meant;
ghost use Rattle.layer_conf.specs.Faults.{IsLayerFault, layers_failed};
ghost use Rattle.layer_conf.specs.Config.{config_meant, configured_meant, listed_meant, AreGlobs};
ghost use Rattle.load_model.specs.Layers.{patterns_over, with_lists};

use crate::fault::{LayerFault, data_told};
use crate::files::named_files;
use crate::listing::listed;
use crate::order::in_layer_order;
use crate::patterns::{bad_pattern, globs_of};
use crate::reads::{Config, Configured, read_configured};
use datastore::Datastore;
use outside_traits::Layers;
use recipe_facts::words_of;
use std::alloc::Global;
use tree_model::{Mem, Text, Texts};

/// The paths that these words of BBFILES name.
fn good_globs(alloc: Global, words: &[Text]) -> Result<Vec<Text>, LayerFault>
    ensures ok { IfOk result (λ made. AreGlobs made.items (meant.patterns words.now)) }
    ensures err { IfErr result (λ fault. IsLayerFault fault (meant.patterns words.now)) }
    ensures no_failure { layers_failed result ≡ false }
{
    match bad_pattern(words) {
        Ok(Some(word)) => Err(LayerFault::BadPattern { word }),
        Ok(None) => match globs_of(alloc, words) {
            Ok(globs) => Ok(globs),
            Err(_) => Err(LayerFault::Memory),
        },
        Err(_) => Err(LayerFault::Memory),
    }
}

/// The paths that the words of BBFILES name.
fn globs_over(alloc: Global, store: &Datastore) -> Result<Vec<Text>, LayerFault>
    ensures ok { IfOk result (λ made. AreGlobs made.items (patterns_over store.now)) }
    ensures err { IfErr result (λ fault. IsLayerFault fault (patterns_over store.now)) }
    ensures no_failure { layers_failed result ≡ false }
{
    match words_of(alloc, store, "BBFILES") {
        Ok(words) => good_globs(alloc, words.as_slice()),
        Err(fault) => Err(data_told(fault)),
    }
}

/// The appends among some paths, in the order of these layers.
fn appends_of(alloc: Global, layers: &[Text], globs: &[Text], paths: &[Text]) -> Result<Texts, Mem>
    ensures { IfOk result (λ appends. (words : List (List ℕ)) → globs.now ≡ filter_map path_named words → appends
        ≡ meant.in_layer_order layers.now (meant.named_files words (codes ".bbappend") paths.now)) }
{
    let appends = named_files(alloc, globs, ".bbappend", paths)?;
    in_layer_order(alloc, layers, appends.as_slice())
}

/// The lists over some paths: the recipes and the appends.
fn lists_of(
    alloc: Global,
    layers: &[Text],
    globs: &[Text],
    paths: &[Text],
) -> Result<(Texts, Texts), Mem>
    ensures recipes { IfOk result (λ lists. (words : List (List ℕ)) → globs.now ≡ filter_map path_named words → lists.0 ≡ meant.named_files words (codes ".bb") paths.now) }
    ensures appends { IfOk result (λ lists. (words : List (List ℕ)) → globs.now ≡ filter_map path_named words → lists.1
        ≡ meant.in_layer_order layers.now (meant.named_files words (codes ".bbappend") paths.now)) }
{
    let recipes = named_files(alloc, globs, ".bb", paths)?;
    let appends = appends_of(alloc, layers, globs, paths)?;
    Ok((recipes, appends))
}

/// The lists that a configuration has over its files, of which those are listed that they may hold.
fn lists_over<L: Layers>(
    alloc: Global,
    layers: &mut L,
    made: &Configured,
) -> Result<(Texts, Texts), LayerFault>
    ensures ok { IfOk result (λ lists. L.tells → (paths : List (List ℕ)) → IsListing [] (L.files layers.old) paths
        → with_lists paths (configured_meant made.now) ≡ Ok (listed_meant made.now lists.0 lists.1)) }
    ensures err { IfErr result (λ fault. L.tells → (paths : List (List ℕ)) → IsListing [] (L.files layers.old) paths
        → IsLayerFault fault (with_lists paths (configured_meant made.now))) }
    ensures same { SameFiles L.files layers.old layers.new }
    ensures cause { Counts (L.faults layers.old) (L.faults layers.new) (layers_failed result) }
{
    let globs = match globs_over(alloc, &made.store) {
        Ok(globs) => globs,
        Err(fault) => return Err(fault),
    };
    let paths = match listed(alloc, layers, globs.as_slice()) {
        Ok(paths) => paths,
        Err(fault) => return Err(fault),
    };
    match lists_of(
        alloc,
        made.layers.as_slice(),
        globs.as_slice(),
        paths.as_slice(),
    ) {
        Ok(lists) => Ok(lists),
        Err(_) => Err(LayerFault::Memory),
    }
}

/// The configuration with its lists.
fn with_lists<L: Layers>(
    alloc: Global,
    layers: &mut L,
    made: Configured,
) -> Result<Config, LayerFault>
    ensures ok { IfOk result (λ config. L.tells → (paths : List (List ℕ)) → IsListing [] (L.files layers.old) paths
        → with_lists paths (configured_meant made) ≡ Ok (config_meant config)) }
    ensures err { IfErr result (λ fault. L.tells → (paths : List (List ℕ)) → IsListing [] (L.files layers.old) paths
        → IsLayerFault fault (with_lists paths (configured_meant made))) }
    ensures same { SameFiles L.files layers.old layers.new }
    ensures cause { Counts (L.faults layers.old) (L.faults layers.new) (layers_failed result) }
{
    match lists_over(alloc, layers, &made) {
        Ok((recipes, appends)) => Ok(Config {
            store: made.store,
            layers: made.layers,
            recipes,
            appends,
        }),
        Err(fault) => Err(fault),
    }
}

/// Reads the configuration of a project: with layers `conf/bblayers.conf`, then `conf/layer.conf` of each word of BBLAYERS, then
/// `conf/bitbake.conf`, which has to be there; without `conf/bblayers.conf` that last file, which may be missing ("Parsing the
/// Base Configuration Metadata"; the rest is own). Then files are listed and taken as BBFILES says; what no pattern can lead to isn't looked at. The store isn't frozen.
///
/// The definition is meant for the paths of all files, each once and in byte order: there is one such list.
///
/// Refused as the definition is: NoSuchLayer, BadPattern, Load and Data, each with its place; `List`, and `Load` of the kind
/// `Read`, only where the layers' count of faults rose; `Memory`. No call changes a file.
pub fn read_layers<L: Layers>(alloc: Global, layers: &mut L) -> Result<Config, LayerFault>
    ensures ok { IfOk result (λ made. L.tells → (paths : List (List ℕ)) → IsListing [] (L.files layers.old) paths
        → meant.config (sources_of (L.files layers.old)) paths ≡ Ok (config_meant made)) }
    ensures err { IfErr result (λ fault. L.tells → (paths : List (List ℕ)) → IsListing [] (L.files layers.old) paths
        → IsLayerFault fault (meant.config (sources_of (L.files layers.old)) paths)) }
    ensures same { SameFiles L.files layers.old layers.new }
    ensures cause { Counts (L.faults layers.old) (L.faults layers.new) (layers_failed result) }
{
    match read_configured(alloc, layers) {
        Ok(made) => with_lists(alloc, layers, made),
        Err(fault) => Err(fault),
    }
}
