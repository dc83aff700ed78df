// The files that the words of BBFILES name.
ghost use Rattle.std.specs.Prelude.{◌≡◌, ◌&&◌, ◌∷◌, [], List, ℕ, IfOk, OnOk, filter, filter_map};
ghost use Rattle.std.specs.List.{fold, list_any};
ghost use Rattle.meta_model.specs.Text.{into_order, in_byte_order};
ghost use Rattle.load_model.specs.Paths.{path_named, has_ending};
ghost use Rattle.load_model.specs.Patterns as patterns;
ghost use Rattle.load_model.specs.Layers as layers;
ghost use Rattle.layer_conf.specs.Globs.{matches_any, is_wanted};

use crate::glob::matches;
use name_walk::place_of;
use path_words::has_ending;
use std::alloc::Global;
use tree_model::{Mem, Text, Texts};

/// Whether the path matches one of these patterns.
fn matches_any(alloc: Global, globs: &[Text], path: &str) -> Result<bool, Mem>
    ensures { IfOk result (λ made. made ≡ matches_any globs.now path.now) }
{
    for glob in globs {
        if matches(alloc, glob.as_str().as_bytes(), path.as_bytes())? {
            return Ok(true);
        }
    }
    Ok(false)
}

/// Whether the path has the ending and matches one of these patterns.
fn is_wanted(alloc: Global, globs: &[Text], ending: &str, path: &str) -> Result<bool, Mem>
    ensures { IfOk result (λ made. made ≡ is_wanted globs.now ending.now path.now) }
{
    if !has_ending(ending, path) {
        return Ok(false);
    }
    matches_any(alloc, globs, path)
}

/// Puts a path into its place among paths in byte order, where it isn't there yet.
fn put_in_order(made: &mut Vec<Text>, path: Text) -> Result<(), Mem>
    requires { in_byte_order made.old.items ≡ made.old.items }
    ensures { OnOk result (made.new.items ≡ into_order made.old.items path) }
{
    match place_of(made.as_slice(), path.as_str()) {
        Ok(_) => Ok(()),
        Err(place) => Ok(made.insert(place, path)?),
    }
}

/// Puts a path into its place if it matches one of these patterns and has the ending.
fn put_wanted(
    alloc: Global,
    made: &mut Vec<Text>,
    globs: &[Text],
    ending: &str,
    path: &Text,
) -> Result<(), Mem>
    requires { in_byte_order made.old.items ≡ made.old.items }
    ensures { OnOk result (made.new.items
        ≡ fold into_order made.old.items (filter (is_wanted globs.now ending.now) (path.now ∷ []))) }
{
    if is_wanted(alloc, globs, ending, path.as_str())? {
        return put_in_order(made, path.copy()?);
    }
    Ok(())
}

/// Of some paths those that match one of these patterns and have the ending, each once and in byte order.
fn wanted_files(
    alloc: Global,
    globs: &[Text],
    ending: &str,
    paths: &[Text],
) -> Result<Vec<Text>, Mem>
    ensures { IfOk result (λ made. made.items ≡ in_byte_order (filter (is_wanted globs.now ending.now) paths.now)) }
{
    let mut made = Vec::new(alloc);
    for path in paths {
        put_wanted(alloc, &mut made, globs, ending, path)?;
    }
    Ok(made)
}

/// Of some paths those that the words of BBFILES name and that have the ending, each once and in byte order (own rule). The
/// patterns are the paths that the words name.
pub(crate) fn named_files(
    alloc: Global,
    globs: &[Text],
    ending: &str,
    paths: &[Text],
) -> Result<Texts, Mem>
    ensures { IfOk result (λ made. (words : List (List ℕ)) → globs.now ≡ filter_map path_named words
        → made ≡ layers.named_files words ending.now paths.now) }
{
    Ok(Texts::from_vec(wanted_files(alloc, globs, ending, paths)?))
}
