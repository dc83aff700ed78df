// The search for files.
ghost use Rattle.std.specs.Prelude.{◌≡◌, ◌∷◌, ◌++◌, [], IfOk, IfErr, Ok, option_map, option_to_list, codes};
ghost use Rattle.std.specs.Option.{option_copied};
ghost use Rattle.outside_traits.specs.Fault.{Counts};
ghost use Rattle.outside_traits.specs.Store.{SameFiles};
ghost use Rattle.datastore.specs.Faults.{IsDataFault};
ghost use Rattle.load_model.specs.Paths.{paths_in};
ghost use Rattle.load_model.specs.LoadRefusal.{asked_at};
ghost use Rattle.load_model.specs.Loading.{sources_of, first_found, searched, class_searched};
ghost use Rattle.class_inherit.specs.Faults.{where_is, IsUntold, IsLoadFault, load_failed};
ghost use Rattle.class_inherit.specs.Reading.{found_meant, path_folders};

use crate::contents::{Found, contents_at};
use crate::fault::{LoadFault, Place, out_of_memory, refused_value};
use crate::paths::{class_path, path_in};
use crate::reading::Reading;
use datastore::DataFault;
use meta_model::Kind;
use outside_traits::Layers;
use override_eval::active;
use path_words::is_absolute;
use std::alloc::Global;
use tree_model::{Text, Texts};

/// The file that a word names in a folder.
fn found_in<L: Layers>(
    alloc: Global,
    layers: &mut L,
    kind: Kind,
    folder: &str,
    word: &str,
) -> Result<Option<Found>, LoadFault>
    ensures ok { IfOk result (λ found. L.tells → option_map found_meant found
        ≡ first_found (sources_of (L.files layers.old)) kind (paths_in (folder.now ∷ []) word.now)) }
    ensures err { IfErr result IsUntold }
    ensures same { SameFiles L.files layers.old layers.new }
    ensures cause { Counts (L.faults layers.old) (L.faults layers.new) (load_failed result) }
{
    let path = match path_in(alloc, folder, word) {
        Ok(Some(path)) => path,
        Ok(None) => return Ok(None),
        Err(_) => return Err(out_of_memory(alloc)),
    };
    match contents_at(alloc, layers, kind, path.as_str()) {
        Ok(Some(contents)) => Ok(Some(Found { path, contents })),
        Ok(None) => Ok(None),
        Err(fault) => Err(fault),
    }
}

/// The first file that a word names in some folders.
fn first_in<L: Layers>(
    alloc: Global,
    layers: &mut L,
    kind: Kind,
    folders: &[Text],
    word: &str,
) -> Result<Option<Found>, LoadFault>
    ensures ok { IfOk result (λ found. L.tells → option_map found_meant found
        ≡ first_found (sources_of (L.files layers.old)) kind (paths_in folders.now word.now)) }
    ensures err { IfErr result IsUntold }
    ensures same { SameFiles L.files layers.old layers.new }
    ensures cause { Counts (L.faults layers.old) (L.faults layers.new) (load_failed result) }
{
    for folder in folders {
        if let Some(found) = found_in(alloc, layers, kind, folder.as_str(), word)? {
            return Ok(Some(found));
        }
    }
    Ok(None)
}

/// The first file that a word names in the project folder, and then in some folders.
fn first_in_project<L: Layers>(
    alloc: Global,
    layers: &mut L,
    kind: Kind,
    folders: &[Text],
    word: &str,
) -> Result<Option<Found>, LoadFault>
    ensures ok { IfOk result (λ found. L.tells → option_map found_meant found
        ≡ first_found (sources_of (L.files layers.old)) kind (paths_in (codes "." ∷ folders.now) word.now)) }
    ensures err { IfErr result IsUntold }
    ensures same { SameFiles L.files layers.old layers.new }
    ensures cause { Counts (L.faults layers.old) (L.faults layers.new) (load_failed result) }
{
    match found_in(alloc, layers, kind, ".", word)? {
        Some(found) => Ok(Some(found)),
        None => first_in(alloc, layers, kind, folders, word),
    }
}

/// The first file that a word names in the first folder, where there is one, then in the project folder, and then in some
/// folders.
fn first_from<L: Layers>(
    alloc: Global,
    layers: &mut L,
    kind: Kind,
    first: Option<&str>,
    folders: &[Text],
    word: &str,
) -> Result<Option<Found>, LoadFault>
    ensures ok { IfOk result (λ found. L.tells → option_map found_meant found
        ≡ first_found (sources_of (L.files layers.old)) kind
        (paths_in (option_to_list (option_copied first.entry) ++ codes "." ∷ folders.now) word.now)) }
    ensures err { IfErr result IsUntold }
    ensures same { SameFiles L.files layers.old layers.new }
    ensures cause { Counts (L.faults layers.old) (L.faults layers.new) (load_failed result) }
{
    let Some(folder) = first else {
        return first_in_project(alloc, layers, kind, folders, word);
    };
    match found_in(alloc, layers, kind, folder, word)? {
        Some(found) => Ok(Some(found)),
        None => first_in_project(alloc, layers, kind, folders, word),
    }
}

/// The folders of BBPATH, expanded over the entries so far; an empty piece is none (BitBake User Manual, "Variables
/// Glossary", BBPATH).
fn path_folders(alloc: Global, reading: &Reading) -> Result<Texts, DataFault>
    ensures ok { IfOk result (λ made. path_folders reading.now.lines ≡ Ok made) }
    ensures err { IfErr result (λ fault. IsDataFault fault (path_folders reading.now.lines)) }
{
    match reading.store().value(alloc, "BBPATH") {
        Ok(Some(path)) => Ok(active(alloc, path.as_str())?),
        Ok(None) => Ok(Texts::new(alloc)),
        Err(fault) => Err(fault),
    }
}

/// The file that a word names: the first one in these folders, in order: `first`, the project folder, those of BBPATH. An
/// absolute word names none (own rule).
pub(crate) fn search<L: Layers>(
    alloc: Global,
    layers: &mut L,
    reading: &Reading,
    place: &Place,
    kind: Kind,
    first: Option<&str>,
    word: &str,
) -> Result<Option<Found>, LoadFault>
    ensures ok { IfOk result (λ found. L.tells → asked_at (where_is place.now)
        (searched (sources_of (L.files layers.old)) kind reading.now.lines
        (option_to_list (option_copied first.entry)) word.now) ≡ Ok (option_map found_meant found)) }
    ensures err { IfErr result (λ fault. L.tells → IsLoadFault fault
        (asked_at (where_is place.now) (searched (sources_of (L.files layers.old)) kind reading.now.lines
        (option_to_list (option_copied first.entry)) word.now))) }
    ensures same { SameFiles L.files layers.old layers.new }
    ensures cause { Counts (L.faults layers.old) (L.faults layers.new) (load_failed result) }
{
    if is_absolute(word) {
        return Ok(None);
    }
    match path_folders(alloc, reading) {
        Ok(folders) => first_from(alloc, layers, kind, first, folders.as_slice(), word),
        Err(fault) => Err(refused_value(alloc, place, fault)),
    }
}

/// The file of a class ("inherit Directive"). An absolute name names none (own rule).
pub(crate) fn search_class<L: Layers>(
    alloc: Global,
    layers: &mut L,
    reading: &Reading,
    place: &Place,
    name: &str,
) -> Result<Option<Found>, LoadFault>
    ensures ok { IfOk result (λ found. L.tells → asked_at (where_is place.now)
        (class_searched (sources_of (L.files layers.old)) reading.now.lines name.now)
        ≡ Ok (option_map found_meant found)) }
    ensures err { IfErr result (λ fault. L.tells → IsLoadFault fault
        (asked_at (where_is place.now) (class_searched (sources_of (L.files layers.old)) reading.now.lines
        name.now))) }
    ensures same { SameFiles L.files layers.old layers.new }
    ensures cause { Counts (L.faults layers.old) (L.faults layers.new) (load_failed result) }
{
    if is_absolute(name) {
        return Ok(None);
    }
    match class_path(alloc, name) {
        Ok(path) => search(
            alloc,
            layers,
            reading,
            place,
            Kind::Class,
            None,
            path.as_str(),
        ),
        Err(_) => Err(out_of_memory(alloc)),
    }
}
