// The order of layers.
ghost use Rattle.std.specs.Prelude.{◌≡◌, ◌++◌, ◌∷◌, ◌==◌, [], List, ℕ, IfOk, OnOk, map, filter, length};
ghost use Rattle.meta_model.specs.Text.{begins_with};
ghost use Rattle.load_model.specs.Paths.{slash, path_named};
ghost use Rattle.load_model.specs.Layers as meant;
ghost use Rattle.layer_conf.specs.Places.{length_in, place_in};

use path_words::{path_named, without_ending};
use std::alloc::Global;
use tree_model::{Mem, Text, Texts};

/// The file that makes a folder a layer; None where the layer names no folder.
pub(crate) fn layer_file(alloc: Global, layer: &str) -> Result<Option<Text>, Mem>
    ensures { IfOk result (λ made. made ≡ meant.layer_file layer.now) }
{
    let mut path = Text::from_str(alloc, layer)?;
    path.push_str("/conf/layer.conf")?;
    path_named(alloc, path.as_str())
}

/// The layers that these words of BBLAYERS name.
pub(crate) fn layers_named(alloc: Global, words: &[Text]) -> Result<Texts, Mem>
    ensures { IfOk result (λ made. made ≡ map meant.layer_named words.now) }
{
    let mut made = Texts::new(alloc);
    for word in words {
        made.push(Text::from_str(alloc, without_ending("/", word.as_str()))?)?;
    }
    Ok(made)
}

/// The folders that layers name.
fn folders_of(alloc: Global, layers: &[Text]) -> Result<Vec<Option<Text>>, Mem>
    ensures { IfOk result (λ made. made.items ≡ map path_named layers.now) }
{
    let mut made = Vec::new(alloc);
    for layer in layers {
        made.push(path_named(alloc, layer.as_str())?)?;
    }
    Ok(made)
}

/// Whether the folder, which isn't the project folder, holds the path.
fn holds(folder: &[u8], path: &[u8]) -> bool
    ensures { result ≡ begins_with (folder.now ++ slash ∷ []) path.now }
{
    path.starts_with(folder) && path[folder.len()..].starts_with(b"/")
}

/// The length of the layer's folder, where it holds the path; the project folder holds all paths.
fn held_by(path: &str, folder: &str) -> Option<usize>
    ensures { result ≡ meant.held_by path.now folder.now }
{
    if folder.is_empty() {
        return Some(0);
    }
    if holds(folder.as_bytes(), path.as_bytes()) {
        Some(folder.len())
    } else {
        None
    }
}

/// The same of a layer that may name no folder.
fn length_in(path: &str, folder: &Option<Text>) -> Option<usize>
    ensures { result ≡ length_in path.now folder.now }
{
    match folder {
        Some(folder) => held_by(path, folder.as_str()),
        None => None,
    }
}

/// The greater number, of equal ones the first, with its place.
fn longer(k: usize, length: Option<usize>, later: Option<(usize, usize)>) -> Option<(usize, usize)>
    ensures { result ≡ meant.longer k length later }
{
    match (length, later) {
        (None, later) => later,
        (Some(n), None) => Some((k, n)),
        (Some(n), Some(later)) => {
            if n < later.1 {
                Some(later)
            } else {
                Some((k, n))
            }
        }
    }
}

/// The place of a file's layer among the folders of the layers: the one with the longest folder that holds the file, of two
/// spellings of one folder the first. A file of no layer comes behind all of them (own rule).
fn place_of(folders: &[Option<Text>], path: &str) -> usize
    ensures { result ≡ place_in folders.now path.now }
{
    let mut found = None;
    let mut left = folders.len();
    while left > 0 {
        left -= 1;
        found = longer(left, length_in(path, &folders[left]), found);
    }
    match found {
        Some((place, _)) => place,
        None => folders.len(),
    }
}

/// The places of these paths.
fn places_of(alloc: Global, folders: &[Option<Text>], paths: &[Text]) -> Result<Vec<usize>, Mem>
    ensures { IfOk result (λ made. made.items ≡ map (place_in folders.now) paths.now) }
{
    let mut made = Vec::new(alloc);
    for path in paths {
        made.push(place_of(folders, path.as_str()))?;
    }
    Ok(made)
}

/// Puts those paths at the end whose place is this one, as they are given.
fn push_placed(made: &mut Texts, paths: &[Text], places: &[usize], k: usize) -> Result<(), Mem>
    requires { length paths.now ≡ length places.now }
    ensures { OnOk result ((place : List ℕ → ℕ) → places.now ≡ map place paths.now
        → made.new ≡ made.old ++ filter (λ path. place path == k) paths.now) }
{
    for (i, path) in paths.iter().enumerate() {
        if places[i] == k {
            made.push(path.copy()?)?;
        }
    }
    Ok(())
}

/// Paths in the order of their layers, and as they are given within one. Each path is placed once; the places are gone through
/// once for each layer.
pub(crate) fn in_layer_order(alloc: Global, layers: &[Text], paths: &[Text]) -> Result<Texts, Mem>
    ensures { IfOk result (λ made. made ≡ meant.in_layer_order layers.now paths.now) }
{
    let folders = folders_of(alloc, layers)?;
    let places = places_of(alloc, folders.as_slice(), paths)?;
    let mut made = Texts::new(alloc);
    for k in 0..layers.len() {
        push_placed(&mut made, paths, places.as_slice(), k)?;
    }
    push_placed(&mut made, paths, places.as_slice(), layers.len())?;
    Ok(made)
}
