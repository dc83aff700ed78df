// The configuration.
ghost use Rattle.std.specs.Prelude.{◌≡◌, ◌++◌, ◌∷◌, [], Ok, Some, IfOk, IfErr, OnOk, map};
ghost use Rattle.meta_model.specs.declared.entry.EntryLine.TheVariants.{Set};
ghost use Rattle.outside_traits.specs.Fault.{Counts};
ghost use Rattle.outside_traits.specs.Store.{SameFiles};
ghost use Rattle.load_model.specs.Loading.{sources_of};
ghost use Rattle.load_model.specs.Layers as meant;
ghost use Rattle.layer_conf.specs.Faults.{IsLayerFault, layers_failed};
ghost use Rattle.layer_conf.specs.Config.{configured_meant};
ghost use Rattle.load_model.specs.Layers.{layer_named, layered_from, layered_over};

use crate::fault::{LayerFault, data_told, load_told, no_such_layer};
use crate::order::{layer_file, layers_named};
use class_inherit::Reading;
use datastore::Datastore;
use meta_model::{EntryLine, Kind, Op};
use outside_traits::{Layers, ReadFault};
use recipe_facts::words_of;
use std::alloc::Global;
use tree_model::{Mem, Text, Texts};

/// The configuration of a project.
#[derive(Drop)]
pub struct Config {
    /// Its entries, with names that hold references as they are written.
    pub store: Datastore,
    /// The layers as BBLAYERS names them.
    pub layers: Texts,
    /// The paths of the recipe files, in byte order.
    pub recipes: Texts,
    /// The paths of the appends, in the order of their layers and in byte order within one.
    pub appends: Texts,
}

/// The entries of the configuration, and the layers.
#[derive(Drop)]
pub(crate) struct Configured {
    pub(crate) store: Datastore,
    pub(crate) layers: Texts,
}

/// Applies an entry, which is given away.
fn give(store: &mut Datastore, alloc: Global, line: EntryLine) -> Result<(), Mem>
    ensures { OnOk result (store.new ≡ store.old ++ line ∷ []) }
{
    store.apply(alloc, &line)
}

/// Applies an assignment.
fn set(store: &mut Datastore, alloc: Global, name: &str, op: Op, text: &str) -> Result<(), Mem>
    ensures { OnOk result (store.new ≡ store.old ++ Set name.now op text.now ∷ []) }
{
    let line = EntryLine::Set {
        name: Text::from_str(alloc, name)?,
        op,
        text: Text::from_str(alloc, text)?,
    };
    give(store, alloc, line)
}

/// Applies what is there before the first file is read (own rule).
fn set_built_in(store: &mut Datastore, alloc: Global) -> Result<(), Mem>
    ensures { OnOk result (store.old ≡ [] → store.new ≡ meant.built_in) }
{
    set(store, alloc, "TOPDIR", Op::Set, ".")?;
    set(store, alloc, "BB_DEFAULT_TASK", Op::Weak, "build")?;
    set(store, alloc, "BB_NUMBER_THREADS", Op::Weak, "4")?;
    set(store, alloc, "PACKAGES", Op::Weak, "${PN}")
}

/// What is there before the first file is read.
fn built_in(alloc: Global) -> Result<Datastore, Mem>
    ensures { IfOk result (λ made. made ≡ meant.built_in) }
{
    let mut store = Datastore::new(alloc);
    match set_built_in(&mut store, alloc) {
        Ok(()) => Ok(store),
        Err(_) => Err(Mem),
    }
}

/// The same without layers: the recipes stand in one folder (own rule).
fn built_in_flat(alloc: Global) -> Result<Datastore, Mem>
    ensures { IfOk result (λ made. made ≡ meant.built_in ++ meant.flat_files) }
{
    let mut store = built_in(alloc)?;
    set(
        &mut store,
        alloc,
        "BBFILES",
        Op::Weak,
        "recipes/*.bb recipes/*.bbappend",
    )?;
    Ok(store)
}

/// Reads `conf/bitbake.conf`, which is searched, and has to be there or may be missing.
fn bitbake_conf<L: Layers>(
    alloc: Global,
    layers: &mut L,
    reading: Reading,
    must: bool,
) -> Result<Reading, LayerFault>
    ensures ok { IfOk result (λ made. L.tells → meant.bitbake_conf (sources_of (L.files layers.old)) must reading
        ≡ Ok made) }
    ensures err { IfErr result (λ fault. L.tells → IsLayerFault fault
        (meant.bitbake_conf (sources_of (L.files layers.old)) must reading)) }
    ensures same { SameFiles L.files layers.old layers.new }
    ensures cause { Counts (L.faults layers.old) (L.faults layers.new) (layers_failed result) }
{
    match reading.searched(alloc, layers, "conf/bitbake.conf", Kind::Conf, must) {
        Ok(made) => Ok(made),
        Err(fault) => Err(load_told(fault)),
    }
}

/// Reads the file of this layer, which is the word, at this path, where it is there.
fn layer_for<L: Layers>(
    alloc: Global,
    layers: &mut L,
    layer: &Option<Text>,
    word: &str,
    path: &str,
    reading: Reading,
) -> Result<Reading, LayerFault>
    requires { layer.now ≡ Some word.now }
    ensures ok { IfOk result (λ made. L.tells → meant.layer_at (sources_of (L.files layers.old)) word.now
        (Some path.now) reading ≡ Ok made) }
    ensures err { IfErr result (λ fault. L.tells → IsLayerFault fault
        (meant.layer_at (sources_of (L.files layers.old)) word.now (Some path.now) reading)) }
    ensures same { SameFiles L.files layers.old layers.new }
    ensures cause { Counts (L.faults layers.old) (L.faults layers.new) (layers_failed result) }
{
    match reading.file_if_there(alloc, layers, layer, path, Kind::Conf) {
        Ok(Some(made)) => Ok(made),
        Ok(None) => Err(no_such_layer(alloc, word)),
        Err(fault) => Err(load_told(fault)),
    }
}

/// Reads the file of a layer at this path, where it is there.
fn layer_there<L: Layers>(
    alloc: Global,
    layers: &mut L,
    word: &Text,
    path: &str,
    reading: Reading,
) -> Result<Reading, LayerFault>
    ensures ok { IfOk result (λ made. L.tells → meant.layer_at (sources_of (L.files layers.old)) word.now
        (Some path.now) reading ≡ Ok made) }
    ensures err { IfErr result (λ fault. L.tells → IsLayerFault fault
        (meant.layer_at (sources_of (L.files layers.old)) word.now (Some path.now) reading)) }
    ensures same { SameFiles L.files layers.old layers.new }
    ensures cause { Counts (L.faults layers.old) (L.faults layers.new) (layers_failed result) }
{
    match word.copy() {
        Ok(layer) => layer_for(alloc, layers, &Some(layer), word.as_str(), path, reading),
        Err(_) => Err(LayerFault::Memory),
    }
}

/// Reads the file of a layer at the path that its word names, if any.
fn layer_named<L: Layers>(
    alloc: Global,
    layers: &mut L,
    word: &Text,
    path: Option<Text>,
    reading: Reading,
) -> Result<Reading, LayerFault>
    ensures ok { IfOk result (λ made. L.tells → meant.layer_at (sources_of (L.files layers.old)) word.now path reading
        ≡ Ok made) }
    ensures err { IfErr result (λ fault. L.tells → IsLayerFault fault
        (meant.layer_at (sources_of (L.files layers.old)) word.now path reading)) }
    ensures same { SameFiles L.files layers.old layers.new }
    ensures cause { Counts (L.faults layers.old) (L.faults layers.new) (layers_failed result) }
{
    match path {
        Some(path) => layer_there(alloc, layers, word, path.as_str(), reading),
        None => Err(no_such_layer(alloc, word.as_str())),
    }
}

/// Reads `conf/layer.conf` of a layer, whose words have `${LAYERDIR}` replaced by it.
fn layer_at<L: Layers>(
    alloc: Global,
    layers: &mut L,
    word: &Text,
    reading: Reading,
) -> Result<Reading, LayerFault>
    ensures ok { IfOk result (λ made. L.tells → meant.layer_at (sources_of (L.files layers.old)) word.now
        (meant.layer_file word.now) reading ≡ Ok made) }
    ensures err { IfErr result (λ fault. L.tells → IsLayerFault fault
        (meant.layer_at (sources_of (L.files layers.old)) word.now (meant.layer_file word.now) reading)) }
    ensures same { SameFiles L.files layers.old layers.new }
    ensures cause { Counts (L.faults layers.old) (L.faults layers.new) (layers_failed result) }
{
    match layer_file(alloc, word.as_str()) {
        Ok(path) => layer_named(alloc, layers, word, path, reading),
        Err(_) => Err(LayerFault::Memory),
    }
}

/// Reads the files of layers, in their order.
fn layers_after<L: Layers>(
    alloc: Global,
    layers: &mut L,
    words: &[Text],
    first: Reading,
) -> Result<Reading, LayerFault>
    ensures ok { IfOk result (λ made. L.tells → meant.layers_after (sources_of (L.files layers.old)) words.now first
        ≡ Ok made) }
    ensures err { IfErr result (λ fault. L.tells → IsLayerFault fault
        (meant.layers_after (sources_of (L.files layers.old)) words.now first)) }
    ensures same { SameFiles L.files layers.old layers.new }
    ensures cause { Counts (L.faults layers.old) (L.faults layers.new) (layers_failed result) }
{
    let mut reading = first;
    for word in words {
        reading = match layer_at(alloc, layers, word, reading) {
            Ok(next) => next,
            Err(fault) => return Err(fault),
        };
    }
    Ok(reading)
}

/// The configuration behind `conf/bblayers.conf`, once its layers are known.
fn with_layers<L: Layers>(
    alloc: Global,
    layers: &mut L,
    first: Reading,
    words: Texts,
) -> Result<Configured, LayerFault>
    ensures ok { IfOk result (λ made. L.tells → layered_over (sources_of (L.files layers.old)) first words
        ≡ Ok (configured_meant made)) }
    ensures err { IfErr result (λ fault. L.tells → IsLayerFault fault
        (layered_over (sources_of (L.files layers.old)) first words)) }
    ensures same { SameFiles L.files layers.old layers.new }
    ensures cause { Counts (L.faults layers.old) (L.faults layers.new) (layers_failed result) }
{
    let all = match layers_after(alloc, layers, words.as_slice(), first) {
        Ok(all) => all,
        Err(fault) => return Err(fault),
    };
    match bitbake_conf(alloc, layers, all, true) {
        Ok(last) => Ok(Configured {
            store: last.raw(),
            layers: words,
        }),
        Err(fault) => Err(fault),
    }
}

/// The configuration behind `conf/bblayers.conf`, once the words of BBLAYERS are known.
fn with_words<L: Layers>(
    alloc: Global,
    layers: &mut L,
    first: Reading,
    words: &[Text],
) -> Result<Configured, LayerFault>
    ensures ok { IfOk result (λ made. L.tells → layered_over (sources_of (L.files layers.old)) first
        (map layer_named words.now) ≡ Ok (configured_meant made)) }
    ensures err { IfErr result (λ fault. L.tells → IsLayerFault fault
        (layered_over (sources_of (L.files layers.old)) first (map layer_named words.now))) }
    ensures same { SameFiles L.files layers.old layers.new }
    ensures cause { Counts (L.faults layers.old) (L.faults layers.new) (layers_failed result) }
{
    match layers_named(alloc, words) {
        Ok(named) => with_layers(alloc, layers, first, named),
        Err(_) => Err(LayerFault::Memory),
    }
}

/// The configuration behind `conf/bblayers.conf`.
fn layered<L: Layers>(
    alloc: Global,
    layers: &mut L,
    first: Reading,
) -> Result<Configured, LayerFault>
    ensures ok { IfOk result (λ made. L.tells → layered_from (sources_of (L.files layers.old)) first
        ≡ Ok (configured_meant made)) }
    ensures err { IfErr result (λ fault. L.tells → IsLayerFault fault
        (layered_from (sources_of (L.files layers.old)) first)) }
    ensures same { SameFiles L.files layers.old layers.new }
    ensures cause { Counts (L.faults layers.old) (L.faults layers.new) (layers_failed result) }
{
    match words_of(alloc, first.store(), "BBLAYERS") {
        Ok(words) => with_words(alloc, layers, first, words.as_slice()),
        Err(fault) => Err(data_told(fault)),
    }
}

/// The configuration without layers.
fn flat<L: Layers>(alloc: Global, layers: &mut L) -> Result<Configured, LayerFault>
    ensures ok { IfOk result (λ made. L.tells → meant.flat (sources_of (L.files layers.old))
        ≡ Ok (configured_meant made)) }
    ensures err { IfErr result (λ fault. L.tells → IsLayerFault fault (meant.flat (sources_of (L.files layers.old)))) }
    ensures same { SameFiles L.files layers.old layers.new }
    ensures cause { Counts (L.faults layers.old) (L.faults layers.new) (layers_failed result) }
{
    let store = match built_in_flat(alloc) {
        Ok(store) => store,
        Err(_) => return Err(LayerFault::Memory),
    };
    match bitbake_conf(alloc, layers, Reading::new(alloc, store), false) {
        Ok(last) => Ok(Configured {
            store: last.raw(),
            layers: Texts::new(alloc),
        }),
        Err(fault) => Err(fault),
    }
}

/// The entries of the configuration, and its layers.
pub(crate) fn read_configured<L: Layers>(
    alloc: Global,
    layers: &mut L,
) -> Result<Configured, LayerFault>
    ensures ok { IfOk result (λ made. L.tells → meant.configured (sources_of (L.files layers.old))
        ≡ Ok (configured_meant made)) }
    ensures err { IfErr result (λ fault. L.tells → IsLayerFault fault
        (meant.configured (sources_of (L.files layers.old)))) }
    ensures same { SameFiles L.files layers.old layers.new }
    ensures cause { Counts (L.faults layers.old) (L.faults layers.new) (layers_failed result) }
{
    let store = match built_in(alloc) {
        Ok(store) => store,
        Err(_) => return Err(LayerFault::Memory),
    };
    let start = Reading::new(alloc, store);
    match start.file_if_there(alloc, layers, &None, "conf/bblayers.conf", Kind::Conf) {
        Ok(Some(first)) => layered(alloc, layers, first),
        Ok(None) => flat(alloc, layers),
        Err(fault) => Err(load_told(fault)),
    }
}
