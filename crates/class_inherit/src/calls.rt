// Reading files and classes by name.
ghost use Rattle.std.specs.Prelude.{◌≡◌, true, false, is_ok, Ok, Err, IfOk, IfErr, IfSome, is_some, option_map, codes};
ghost use Rattle.outside_traits.specs.Fault.{Counts};
ghost use Rattle.outside_traits.specs.Store.{SameFiles};
ghost use Rattle.datastore.specs.Faults.{IsDataFault};
ghost use Rattle.load_model.specs.LoadRefusal.{asked_at, nowhere};
ghost use Rattle.load_model.specs.Layers.{words_of};
ghost use Rattle.load_model.specs.Loading.{sources_of, origin_of, read_first, file_found, entries, searched_entries, class_entries, classes_after};
ghost use Rattle.load_model.specs.Recipes.{with_inherit};
ghost use Rattle.class_inherit.specs.Faults.{cause_of, where_is, IsLoadFault, load_failed};
ghost use Rattle.class_inherit.specs.Reading.{contents_meant, contents_for, found_meant, sources_for};

use crate::contents::{Contents, Found, contents_at};
use crate::fault::{LoadFault, Place, refused_value};
use crate::load::{Origin, inherit_word, inherit_words, missing_file, pass_file, read_found};
use crate::paths::class_of;
use crate::reading::Reading;
use crate::search::search;
use datastore::DataFault;
use meta_model::Kind;
use outside_traits::Layers;
use std::alloc::Global;
use tree_model::{Text, Texts};
use var_expand::words;

/// The most files that are nested, the one that is read first among them (own rule).
const MOST_NESTED: usize = 32;

/// Where no file is at fault.
fn nowhere() -> Place<'static>
    ensures { where_is result ≡ nowhere }
{
    Place { file: "", line: 0 }
}

/// What was read, unless a fault ended it.
fn finished(reading: Reading, done: Result<(), LoadFault>) -> Result<Reading, LoadFault>
    ensures ok { IfOk result (λ made. (made ≡ reading) × (is_ok done ≡ true)) }
    ensures err { IfErr result (λ fault. done ≡ Err fault) }
    ensures failed { load_failed result ≡ load_failed done }
{
    match done {
        Ok(()) => Ok(reading),
        Err(fault) => Err(fault),
    }
}

/// A file that no statement names.
fn read_first<L: Layers>(
    alloc: Global,
    layers: &mut L,
    layer: &Option<Text>,
    reading: Reading,
    kind: Kind,
    path: &str,
    contents: Contents,
) -> Result<Reading, LoadFault>
    ensures ok { IfOk result (λ made. L.tells → read_first (sources_for layer.now (L.files layers.old)) nowhere
        (origin_of kind path.now) (contents_for layer.now (contents_meant contents)) reading ≡ Ok made) }
    ensures err { IfErr result (λ fault. L.tells → IsLoadFault fault
        (read_first (sources_for layer.now (L.files layers.old)) nowhere (origin_of kind path.now)
        (contents_for layer.now (contents_meant contents)) reading)) }
    ensures same { SameFiles L.files layers.old layers.new }
    ensures cause { Counts (L.faults layers.old) (L.faults layers.new) (load_failed result) }
{
    let mut reading = reading;
    let place = nowhere();
    let origin = Origin {
        path,
        kind,
        class: class_of(path),
    };
    let done = read_found(
        alloc,
        layers,
        layer,
        &mut reading,
        MOST_NESTED,
        &place,
        &origin,
        &contents,
    );
    finished(reading, done)
}

/// A file that was searched. Where there is none, it is passed over or refused.
fn read_searched<L: Layers>(
    alloc: Global,
    layers: &mut L,
    reading: Reading,
    kind: Kind,
    must: bool,
    path: &str,
    found: Option<Found>,
) -> Result<Reading, LoadFault>
    ensures ok { IfOk result (λ made. L.tells → file_found (sources_of (L.files layers.old)) kind must path.now
        (option_map found_meant found) reading ≡ Ok made) }
    ensures err { IfErr result (λ fault. L.tells → IsLoadFault fault
        (file_found (sources_of (L.files layers.old)) kind must path.now (option_map found_meant found) reading)) }
    ensures same { SameFiles L.files layers.old layers.new }
    ensures cause { Counts (L.faults layers.old) (L.faults layers.new) (load_failed result) }
{
    match found {
        Some(found) => {
            let contents = found.contents;
            let path = found.path.as_str();
            read_first(alloc, layers, &None, reading, kind, path, contents)
        }
        None => match pass_file(alloc, &nowhere(), must, path) {
            Ok(()) => Ok(reading),
            Err(fault) => Err(fault),
        },
    }
}

/// The words of an expanded value, or none where it is absent.
fn words_of_value(alloc: Global, reading: &Reading, name: &str) -> Result<Texts, DataFault>
    ensures ok { IfOk result (λ made. words_of reading.now.lines name.now ≡ Ok made) }
    ensures err { IfErr result (λ fault. IsDataFault fault (words_of reading.now.lines name.now)) }
{
    match reading.store().value(alloc, name) {
        Ok(Some(text)) => Ok(words(alloc, text.as_str())?),
        Ok(None) => Ok(Texts::new(alloc)),
        Err(fault) => Err(fault),
    }
}

/// The classes that INHERIT names.
fn inherited(alloc: Global, reading: &Reading) -> Result<Texts, LoadFault>
    ensures ok { IfOk result (λ made. asked_at nowhere (words_of reading.now.lines (codes "INHERIT")) ≡ Ok made) }
    ensures err { IfErr result (λ fault. IsLoadFault fault
        (asked_at nowhere (words_of reading.now.lines (codes "INHERIT")))) }
    ensures not_read { load_failed result ≡ false }
{
    match words_of_value(alloc, reading, "INHERIT") {
        Ok(names) => Ok(names),
        Err(fault) => Err(refused_value(alloc, &nowhere(), fault)),
    }
}

/// The classes of these names, which no statement names; each has to be there.
fn read_inherited<L: Layers>(
    alloc: Global,
    layers: &mut L,
    reading: Reading,
    names: &[Text],
) -> Result<Reading, LoadFault>
    ensures ok { IfOk result (λ made. L.tells → classes_after (read_first (sources_of (L.files layers.old)))
        (sources_of (L.files layers.old)) nowhere true names.now reading ≡ Ok made) }
    ensures err { IfErr result (λ fault. L.tells → IsLoadFault fault
        (classes_after (read_first (sources_of (L.files layers.old))) (sources_of (L.files layers.old)) nowhere true
        names.now reading)) }
    ensures same { SameFiles L.files layers.old layers.new }
    ensures cause { Counts (L.faults layers.old) (L.faults layers.new) (load_failed result) }
{
    let mut reading = reading;
    let place = nowhere();
    let done = inherit_words(
        alloc,
        layers,
        &None,
        &mut reading,
        MOST_NESTED,
        &place,
        names,
    );
    finished(reading, done)
}

impl Reading {
    /// Reads a file, with all that it includes and inherits in place. The path is relative to the project folder, and the file
    /// has to be there. (BitBake User Manual, "Syntax and Operators", section "Sharing Functionality".)
    ///
    /// Refused where the definition is: MissingRequired, MissingClass, IncludeDepth, Parse, Data, FileBytes, each with its file
    /// and line; `Read` only where the layers' count of faults rose; `Memory`.
    pub fn file<L: Layers>(
        self,
        alloc: Global,
        layers: &mut L,
        path: &str,
        kind: Kind,
    ) -> Result<Reading, LoadFault>
        ensures ok { IfOk result (λ made. L.tells → entries (sources_of (L.files layers.old)) kind path.now self
            ≡ Ok made) }
        ensures err { IfErr result (λ fault. L.tells → IsLoadFault fault
            (entries (sources_of (L.files layers.old)) kind path.now self)) }
        ensures same { SameFiles L.files layers.old layers.new }
        ensures cause { Counts (L.faults layers.old) (L.faults layers.new) (load_failed result) }
    {
        match contents_at(alloc, layers, kind, path) {
            Ok(Some(contents)) => read_first(alloc, layers, &None, self, kind, path, contents),
            Ok(None) => Err(missing_file(alloc, &nowhere(), path)),
            Err(fault) => Err(fault),
        }
    }

    /// Reads a file where it is there, for a layer or for none: for a layer `${LAYERDIR}` is replaced by it in all that is read.
    /// `None` where there is no such file. The file itself is read once.
    ///
    /// Refused as `file` is.
    pub fn file_if_there<L: Layers>(
        self,
        alloc: Global,
        layers: &mut L,
        layer: &Option<Text>,
        path: &str,
        kind: Kind,
    ) -> Result<Option<Reading>, LoadFault>
        ensures there { IfOk result (λ made. L.tells → is_some (sources_of (L.files layers.old) path.now kind)
            ≡ is_some made) }
        ensures ok { IfOk result (λ made. L.tells → IfSome made
            (λ reading. entries (sources_for layer.now (L.files layers.old)) kind path.now self ≡ Ok reading)) }
        ensures err { IfErr result (λ fault. L.tells → IsLoadFault fault
            (entries (sources_for layer.now (L.files layers.old)) kind path.now self)) }
        ensures refused { IfErr result (λ fault. L.tells → is_some (cause_of fault.kind) ≡ true
            → is_some (sources_of (L.files layers.old) path.now kind) ≡ true) }
        ensures same { SameFiles L.files layers.old layers.new }
        ensures cause { Counts (L.faults layers.old) (L.faults layers.new) (load_failed result) }
    {
        match contents_at(alloc, layers, kind, path) {
            Ok(Some(contents)) => {
                match read_first(alloc, layers, layer, self, kind, path, contents) {
                    Ok(reading) => Ok(Some(reading)),
                    Err(fault) => Err(fault),
                }
            }
            Ok(None) => Ok(None),
            Err(fault) => Err(fault),
        }
    }

    /// Reads a file that is searched in the project folder and then in the folders of BBPATH. Where there is none, it is
    /// refused if it has to be there, and else passed over.
    ///
    /// Refused as `file` is.
    pub fn searched<L: Layers>(
        self,
        alloc: Global,
        layers: &mut L,
        path: &str,
        kind: Kind,
        must: bool,
    ) -> Result<Reading, LoadFault>
        ensures ok { IfOk result (λ made. L.tells → searched_entries (sources_of (L.files layers.old)) kind must
            path.now self ≡ Ok made) }
        ensures err { IfErr result (λ fault. L.tells → IsLoadFault fault
            (searched_entries (sources_of (L.files layers.old)) kind must path.now self)) }
        ensures same { SameFiles L.files layers.old layers.new }
        ensures cause { Counts (L.faults layers.old) (L.faults layers.new) (load_failed result) }
    {
        match search(alloc, layers, &self, &nowhere(), kind, None, path) {
            Ok(found) => read_searched(alloc, layers, self, kind, must, path, found),
            Err(fault) => Err(fault),
        }
    }

    /// Reads a class by its name, unless its reading has begun. Where there is none, it is refused if it has to be there, and
    /// else passed over. ("inherit Directive".)
    ///
    /// Refused as `file` is.
    pub fn class<L: Layers>(
        self,
        alloc: Global,
        layers: &mut L,
        name: &str,
        must: bool,
    ) -> Result<Reading, LoadFault>
        ensures ok { IfOk result (λ made. L.tells → class_entries (sources_of (L.files layers.old)) must name.now self
            ≡ Ok made) }
        ensures err { IfErr result (λ fault. L.tells → IsLoadFault fault
            (class_entries (sources_of (L.files layers.old)) must name.now self)) }
        ensures same { SameFiles L.files layers.old layers.new }
        ensures cause { Counts (L.faults layers.old) (L.faults layers.new) (load_failed result) }
    {
        let mut reading = self;
        let place = nowhere();
        let done = inherit_word(
            alloc,
            layers,
            &None,
            &mut reading,
            MOST_NESTED,
            &place,
            must,
            name,
        );
        finished(reading, done)
    }

    /// Reads the classes that INHERIT names, which is expanded once over the entries so far; each has to be there (own rule).
    ///
    /// Refused as `file` is.
    pub fn inherit<L: Layers>(self, alloc: Global, layers: &mut L) -> Result<Reading, LoadFault>
        ensures ok { IfOk result (λ made. L.tells → with_inherit (sources_of (L.files layers.old)) self ≡ Ok made) }
        ensures err { IfErr result (λ fault. L.tells → IsLoadFault fault
            (with_inherit (sources_of (L.files layers.old)) self)) }
        ensures same { SameFiles L.files layers.old layers.new }
        ensures cause { Counts (L.faults layers.old) (L.faults layers.new) (load_failed result) }
    {
        match inherited(alloc, &self) {
            Ok(names) => read_inherited(alloc, layers, self, names.as_slice()),
            Err(fault) => Err(fault),
        }
    }
}
