// The configuration that each word names, and its target there.
ghost use Rattle.std.specs.Prelude.{◌≡◌, ◌++◌, ◌∷◌, [], Ok, IfOk, IfErr, OnOk, MatchOption, None, Some, codes};
ghost use Rattle.std.specs.List.{list_all};
ghost use Rattle.meta_model.specs.Passing.{IsRefused};
ghost use Rattle.meta_model.specs.Text.{colon, is_letter_digit_or, split_at_first};
ghost use Rattle.multi_config.specs.Faults.{word_refusal};
ghost use Rattle.multi_config.specs.Words as meant;

use crate::fault::{SplitFault, no_such_config, nothing_provides};
use crate::parts::is_among;
use crate::targets::{is_elsewhere, target_name};
use meta_model::split_at;
use std::alloc::Global;
use tree_model::{Mem, Text};

/// A word as a target of a configuration, which has no name where it is the default one.
#[derive(Debug, Drop)]
pub(crate) struct Placed {
    pub(crate) config: Text,
    pub(crate) word: Text,
}

/// Whether a name may have the byte.
fn is_name_byte(byte: &u8) -> bool
    ensures { result ≡ is_letter_digit_or (codes "-_") byte.now }
{
    byte.is_ascii_alphanumeric() || b"-_".contains(byte)
}

/// Whether all bytes are such ones.
fn are_name_bytes(bytes: &[u8]) -> bool
    ensures { result ≡ list_all (is_letter_digit_or (codes "-_")) bytes.now }
{
    for byte in bytes {
        if !is_name_byte(byte) {
            return false;
        }
    }
    true
}

/// Whether the text may be a configuration's name: it has letters, digits, `-` and `_`, at least one and at most 255 (own rule).
pub fn is_config_name(name: &str) -> bool
    ensures { result ≡ meant.is_config_name name.now }
{
    !name.is_empty() && are_name_bytes(name.as_bytes()) && name.len() <= 255
}

/// Whether this is the default configuration, or one of those that are named.
fn is_config(configs: &[Text], name: &str) -> bool
    ensures { result ≡ meant.is_config configs.now name.now }
{
    name.is_empty() || (is_config_name(name) && is_among(configs, name))
}

/// What stands behind `mc:`, cut at its first colon, where the recipe behind that isn't empty.
fn place_cut(rest: &str) -> Option<(&str, &str)>
    ensures { MatchOption result (meant.placed_cut (split_at_first colon rest.now) ≡ None)
        (λ cut. meant.placed_cut (split_at_first colon rest.now) ≡ Some (record { config = cut.0.now; word = cut.1.now })) }
{
    match split_at(rest, b':') {
        Some((config, word)) => {
            if target_name(word).is_empty() {
                return None;
            }
            Some((config, word))
        }
        None => None,
    }
}

/// The configuration and the target that a word names, if it is of such a form.
fn place_words(word: &str) -> Option<(&str, &str)>
    ensures { MatchOption result (meant.placed word.now ≡ None)
        (λ cut. meant.placed word.now ≡ Some (record { config = cut.0.now; word = cut.1.now })) }
{
    match word.strip_prefix("mc:") {
        Some(rest) => place_cut(rest),
        None => Some(("", word)),
    }
}

/// A place with a name and a word.
fn place(alloc: Global, config: &str, word: &str) -> Result<Placed, Mem>
    ensures { IfOk result (λ made. made ≡ record { config = config.now; word = word.now }) }
{
    Ok(Placed {
        config: Text::from_str(alloc, config)?,
        word: Text::from_str(alloc, word)?,
    })
}

/// The place of a word that has such a form, where there is a configuration of that name.
fn place_in(alloc: Global, configs: &[Text], config: &str, word: &str) -> Result<Placed, SplitFault>
    ensures ok { IfOk result (λ made. meant.place_in configs.now [] (Some (record { config = config.now; word = word.now })) ≡ Ok made) }
    ensures err { IfErr result (λ fault. IsRefused (word_refusal fault)
        (meant.place_in configs.now [] (Some (record { config = config.now; word = word.now })))) }
{
    if !is_config(configs, config) {
        return Err(no_such_config(alloc, config));
    }
    Ok(place(alloc, config, word)?)
}

/// The word as a target, where a configuration of that name is there.
fn place_of(alloc: Global, configs: &[Text], word: &str) -> Result<Placed, SplitFault>
    ensures ok { IfOk result (λ made. meant.place_of configs.now word.now ≡ Ok made) }
    ensures err { IfErr result (λ fault. IsRefused (word_refusal fault) (meant.place_of configs.now word.now)) }
{
    match place_words(word) {
        Some((config, rest)) => place_in(alloc, configs, config, rest),
        None => Err(nothing_provides(alloc, word)),
    }
}

/// Puts a place at the end.
fn put_place(made: &mut Vec<Placed>, place: Placed) -> Result<(), Mem>
    ensures { OnOk result (made.new.items ≡ made.old.items ++ place ∷ []) }
{
    Ok(made.push(place)?)
}

/// All words as targets, or why the first that is none is refused.
pub(crate) fn places_of(
    alloc: Global,
    configs: &[Text],
    words: &[Text],
) -> Result<Vec<Placed>, SplitFault>
    ensures ok { IfOk result (λ made. meant.places_of configs.now words.now ≡ Ok made.items) }
    ensures err { IfErr result (λ fault. IsRefused (word_refusal fault) (meant.places_of configs.now words.now)) }
{
    let mut made = Vec::new(alloc);
    for word in words {
        let place = match place_of(alloc, configs, word.as_str()) {
            Ok(place) => place,
            Err(fault) => return Err(fault),
        };
        put_place(&mut made, place)?;
    }
    Ok(made)
}
