// The configuration of a name, over the default one.
ghost use Rattle.std.specs.Prelude.{◌≡◌, ◌++◌, ◌∷◌, [], true, codes, false, Ok, IfOk, IfErr, OnOk};
ghost use Rattle.meta_model.specs.declared.entry.EntryLine.TheVariants.{Set};
ghost use Rattle.meta_model.specs.declared.entry.Op.TheVariants.{Set as Assigned};
ghost use Rattle.meta_model.specs.declared.line.Kind.TheVariants.{Conf};
ghost use Rattle.outside_traits.specs.Fault.{Counts};
ghost use Rattle.outside_traits.specs.Store.{SameFiles};
ghost use Rattle.load_model.specs.LoadRefusal.{refused_as};
ghost use Rattle.load_model.specs.Loading.{searched_entries, sources_of};
ghost use Rattle.load_model.specs.Layers.{load, starting_with};
ghost use Rattle.layer_conf.specs.Config.{config_meant};
ghost use Rattle.answer_model.specs.Answers.{is_refusal};
ghost use Rattle.answer_model.specs.Said as said;
ghost use Rattle.multi_config.specs.Project as meant;
ghost use Rattle.multi_config.specs.Reading.{config_file};
ghost use Rattle.project_reading.specs.Answered.{IsRefusedAs, mode_failed};
ghost use Rattle.project_reading.specs.Named.{entries_named};

use crate::reads::or_status;
use crate::refused::layer_status;
use crate::said::value_status;
use class_inherit::Reading;
use datastore::Datastore;
use layer_conf::{Config, LayerFault};
use meta_model::{EntryLine, Kind, Op, Status};
use outside_traits::Layers;
use recipe_facts::words_of;
use std::alloc::Global;
use tree_model::{Mem, Text, Texts};

/// The path of a configuration's file, as it is searched.
fn config_file(alloc: Global, name: &str) -> Result<Text, Mem>
    ensures { IfOk result (λ path. path ≡ config_file name.now) }
{
    let mut path = Text::from_str(alloc, "conf/multiconfig/")?;
    path.push_str(name)?;
    path.push_str(".conf")?;
    Ok(path)
}

/// Applies an entry, which is given away.
fn give(store: &mut Datastore, alloc: Global, line: EntryLine) -> Result<(), Mem>
    ensures { OnOk result (store.new ≡ store.old ++ line ∷ []) }
{
    store.apply_line(alloc, line)
}

/// Applies an assignment.
fn set(store: &mut Datastore, alloc: Global, name: &str, text: &str) -> Result<(), Mem>
    ensures { OnOk result (store.new ≡ store.old ++ Set name.now Assigned text.now ∷ []) }
{
    let line = EntryLine::Set {
        name: Text::from_str(alloc, name)?,
        op: Op::Set,
        text: Text::from_str(alloc, text)?,
    };
    give(store, alloc, line)
}

/// Reading that goes on behind the default configuration and the name.
fn before_file(alloc: Global, mut store: Datastore, name: &str) -> Result<Reading, Mem>
    ensures { IfOk result (λ reading. reading
        ≡ starting_with (store ++ Set (codes "BB_CURRENT_MC") Assigned name.now ∷ [])) }
{
    match set(&mut store, alloc, "BB_CURRENT_MC", name) {
        Ok(()) => Ok(Reading::new(alloc, store)),
        Err(fault) => Err(fault),
    }
}

/// Reads a file that is searched and has to be there.
fn read_file<L: Layers>(
    alloc: Global,
    layers: &mut L,
    reading: Reading,
    path: &str,
) -> Result<Reading, Status>
    ensures ok { IfOk result (λ made. L.tells → refused_as said.layer_status (refused_as load
        (searched_entries (sources_of (L.files layers.old)) Conf true path.now reading)) ≡ Ok made) }
    ensures err { IfErr result (λ status. L.tells → IsRefusedAs status (refused_as said.layer_status (refused_as load
        (searched_entries (sources_of (L.files layers.old)) Conf true path.now reading)))) }
    ensures refusal { IfErr result (λ status. is_refusal status ≡ true) }
    ensures same { SameFiles L.files layers.old layers.new }
    ensures cause { Counts (L.faults layers.old) (L.faults layers.new) (mode_failed result) }
{
    match reading.searched(alloc, layers, path, Kind::Conf, true) {
        Ok(made) => Ok(made),
        Err(fault) => Err(layer_status(alloc, LayerFault::Load(fault))),
    }
}

/// What stands before the file, and the file's path.
fn ready(alloc: Global, store: Datastore, name: &str) -> Result<(Reading, Text), Mem>
    ensures reading { IfOk result (λ made. made.0
        ≡ starting_with (store ++ Set (codes "BB_CURRENT_MC") Assigned name.now ∷ [])) }
    ensures path { IfOk result (λ made. made.1 ≡ config_file name.now) }
{
    let path = config_file(alloc, name)?;
    let reading = before_file(alloc, store, name)?;
    Ok((reading, path))
}

/// The entries of a configuration that has a name, over those of the default one.
fn read_entries<L: Layers>(
    alloc: Global,
    layers: &mut L,
    store: Datastore,
    name: &str,
) -> Result<Datastore, Status>
    ensures ok { IfOk result (λ made. L.tells → entries_named (sources_of (L.files layers.old)) name.now store ≡ Ok made) }
    ensures err { IfErr result (λ status. L.tells
        → IsRefusedAs status (entries_named (sources_of (L.files layers.old)) name.now store)) }
    ensures refusal { IfErr result (λ status. is_refusal status ≡ true) }
    ensures same { SameFiles L.files layers.old layers.new }
    ensures cause { Counts (L.faults layers.old) (L.faults layers.new) (mode_failed result) }
{
    match ready(alloc, store, name) {
        Ok((reading, path)) => match read_file(alloc, layers, reading, path.as_str()) {
            Ok(made) => Ok(made.raw()),
            Err(status) => Err(status),
        },
        Err(_) => Err(Status::OutOfMemory),
    }
}

/// Reads the configuration of a name over the default one, which has the empty name: `conf/multiconfig/NAME.conf` behind its entries and `BB_CURRENT_MC`.
/// The layers and the lists of recipes and appends stay.
///
/// Refused as the definition is (`Project` of `multi_config`, `named_over`). `ReadFault` comes only where the layers' count of faults rose, and want of
/// memory alone is free. No call changes a file.
pub fn read_named<L: Layers>(
    alloc: Global,
    layers: &mut L,
    config: Config,
    name: &str,
) -> Result<Config, Status>
    ensures ok { IfOk result (λ made. L.tells → meant.named_over (sources_of (L.files layers.old)) name.now
        (config_meant config) ≡ Ok (config_meant made)) }
    ensures err { IfErr result (λ status. L.tells
        → IsRefusedAs status (meant.named_over (sources_of (L.files layers.old)) name.now (config_meant config))) }
    ensures refusal { IfErr result (λ status. is_refusal status ≡ true) }
    ensures same { SameFiles L.files layers.old layers.new }
    ensures cause { Counts (L.faults layers.old) (L.faults layers.new) (mode_failed result) }
{
    if name.is_empty() {
        return Ok(config);
    }
    let Config {
        store,
        layers: names,
        recipes,
        appends,
    } = config;
    match read_entries(alloc, layers, store, name) {
        Ok(store) => Ok(Config {
            store,
            layers: names,
            recipes,
            appends,
        }),
        Err(status) => Err(status),
    }
}

/// The names of the further configurations that the default one names.
pub fn config_names(alloc: Global, config: &Config) -> Result<Texts, Status>
    ensures ok { IfOk result (λ names. meant.config_names (config_meant config.now) ≡ Ok names) }
    ensures err { IfErr result (λ status. IsRefusedAs status (meant.config_names (config_meant config.now))) }
    ensures refusal { IfErr result (λ status. is_refusal status ≡ true) }
    ensures no_failure { mode_failed result ≡ false }
{
    match words_of(alloc, &config.store, "BBMULTICONFIG") {
        Ok(names) => Ok(names),
        Err(fault) => Err(value_status(alloc, Text::new(alloc), 0, fault)),
    }
}
