// The words of BBFILES.
ghost use Rattle.std.specs.Prelude.{◌≡◌, ◌==◌, ◌++◌, IfOk, OnOk, MatchOption, Ok, Err, filter_map};
ghost use Rattle.std.specs.List.{list_any};
ghost use Rattle.std.specs.Option.{option_to_list};
ghost use Rattle.meta_model.specs.Text.{open_bracket};
ghost use Rattle.load_model.specs.Paths.{path_named};
ghost use Rattle.load_model.specs.Layers as layers;

use path_words::path_named;
use std::alloc::Global;
use tree_model::{Mem, Text};

/// Whether the word holds a `[`.
fn has_bracket(word: &str) -> bool
    ensures { result ≡ list_any (λ c. c == open_bracket) word.now }
{
    for byte in word.as_bytes() {
        if *byte == b'[' {
            return true;
        }
    }
    false
}

/// The first word with a `[`, which is refused: it begins a set of characters elsewhere (own rule).
pub(crate) fn bad_pattern(words: &[Text]) -> Result<Option<Text>, Mem>
    ensures { IfOk result (λ found. MatchOption found (layers.patterns words.now ≡ Ok words.now)
        (λ word. layers.patterns words.now ≡ Err (layers.bad_pattern word))) }
{
    for word in words {
        if has_bracket(word.as_str()) {
            return Ok(Some(word.copy()?));
        }
    }
    Ok(None)
}

/// Puts the path that a word names at the end, where it names one.
fn push_path(made: &mut Vec<Text>, alloc: Global, word: &str) -> Result<(), Mem>
    ensures { OnOk result (made.new.items ≡ made.old.items ++ option_to_list (path_named word.now)) }
{
    if let Some(path) = path_named(alloc, word)? {
        made.push(path)?;
    }
    Ok(())
}

/// The paths that words name, without `.` and `..`. A word that names none matches no path.
pub(crate) fn globs_of(alloc: Global, words: &[Text]) -> Result<Vec<Text>, Mem>
    ensures { IfOk result (λ made. made.items ≡ filter_map path_named words.now) }
{
    let mut made = Vec::new(alloc);
    for word in words {
        push_path(&mut made, alloc, word.as_str())?;
    }
    Ok(made)
}
