// The names of recipes' files.
ghost use Rattle.std.specs.Prelude.{◌≡◌, ◌∷◌, [], IfOk, MatchOption, codes};
ghost use Rattle.std.specs.Option.{option_map};
ghost use Rattle.std.specs.List.{slice_split, list_all};
ghost use Rattle.meta_model.specs.Text.{is_letter_digit_or, is_made_of};
ghost use Rattle.load_model.specs.Recipes as recipes;
ghost use Rattle.recipe_set.specs.Names.{name_meant};

use path_words::{file_name, without_ending};
use std::alloc::Global;
use tree_model::{Mem, Text};

/// What the name of a recipe's file says.
#[derive(Debug, Drop)]
pub(crate) struct FileName {
    pub(crate) pn: Text,
    pub(crate) pv: Text,
    pub(crate) pr: Text,
}

/// The part before the first underscore and what stands behind it, where there is one.
fn cut_at_underscore(text: &str) -> Option<(&str, &str)>
    ensures { MatchOption result (slice_split recipes.is_underscore text.now ≡ text.now ∷ [])
        (λ cut. slice_split recipes.is_underscore text.now ≡ cut.0.now
        ∷ slice_split recipes.is_underscore cut.1.now) }
{
    text.split_once('_')
}

/// A name of these parts, none of which may be empty.
fn named(alloc: Global, pn: &str, pv: &str, pr: &str) -> Result<Option<FileName>, Mem>
    ensures { IfOk result (λ made. option_map name_meant made ≡ recipes.named pn.now pv.now pr.now) }
{
    if pn.is_empty() || pv.is_empty() || pr.is_empty() {
        return Ok(None);
    }
    Ok(Some(FileName {
        pn: Text::from_str(alloc, pn)?,
        pv: Text::from_str(alloc, pv)?,
        pr: Text::from_str(alloc, pr)?,
    }))
}

/// A name of these parts, the last of which may hold no underscore.
fn named_with_revision(
    alloc: Global,
    pn: &str,
    pv: &str,
    rest: &str,
) -> Result<Option<FileName>, Mem>
    ensures { IfOk result (λ made. option_map name_meant made
        ≡ recipes.name_of_parts (pn.now ∷ (pv.now ∷ slice_split recipes.is_underscore rest.now))) }
{
    match cut_at_underscore(rest) {
        Some(_) => Ok(None),
        None => named(alloc, pn, pv, rest),
    }
}

/// A name of this part and those of the rest.
fn named_with_version(alloc: Global, pn: &str, rest: &str) -> Result<Option<FileName>, Mem>
    ensures { IfOk result (λ made. option_map name_meant made
        ≡ recipes.name_of_parts (pn.now ∷ slice_split recipes.is_underscore rest.now)) }
{
    match cut_at_underscore(rest) {
        Some((pv, more)) => named_with_revision(alloc, pn, pv, more),
        None => named(alloc, pn, rest, "r0"),
    }
}

/// What the name of a recipe's file says: `PN.bb`, `PN_PV.bb` or `PN_PV_PR.bb`, with the defaults `1.0` and `r0` ("Variables
/// Glossary", PN, PV and PR). None where there are more underscores or a part is empty (own rule).
pub(crate) fn name_of_file(alloc: Global, path: &str) -> Result<Option<FileName>, Mem>
    ensures { IfOk result (λ made. option_map name_meant made ≡ recipes.name_of_file path.now) }
{
    let name = without_ending(".bb", file_name(path));
    match cut_at_underscore(name) {
        Some((pn, rest)) => named_with_version(alloc, pn, rest),
        None => named(alloc, name, "1.0", "r0"),
    }
}

/// Whether a PN may hold the byte.
fn is_pn_byte(byte: &u8) -> bool
    ensures { result ≡ is_letter_digit_or (codes "+-.") byte.now }
{
    byte.is_ascii_alphanumeric() || b"+-.".contains(byte)
}

/// Whether all bytes are such ones.
fn all_pn_bytes(bytes: &[u8]) -> bool
    ensures { result ≡ list_all (is_letter_digit_or (codes "+-.")) bytes.now }
{
    for byte in bytes {
        if !is_pn_byte(byte) {
            return false;
        }
    }
    true
}

/// Whether the bytes are some, and such ones.
fn are_pn_bytes(bytes: &[u8]) -> bool
    ensures { result ≡ is_made_of (codes "+-.") bytes.now }
{
    !bytes.is_empty() && all_pn_bytes(bytes)
}

/// Whether the text may be a PN: it is made of letters, digits, `+`, `-` and `.`, is neither `.` nor `..`, and has at most 255
/// bytes (own rule).
pub fn is_pn(pn: &str) -> bool
    ensures { result ≡ recipes.is_pn pn.now }
{
    are_pn_bytes(pn.as_bytes()) && pn.len() <= 255 && pn != "." && pn != ".."
}
