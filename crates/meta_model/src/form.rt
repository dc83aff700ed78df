// The two literal forms of Python.
ghost use Rattle.std.specs.Prelude.{◌≡◌, ◌∷◌, ◌<◌, [], IfOk, MatchOption, None, Some, is_some, option_map, true};
ghost use Rattle.std.specs.Option.{option_copied};
ghost use Rattle.std.specs.List.{list_all, list_any};
ghost use Rattle.meta_model.specs.Text.{is_quote, in_byte_order};
ghost use Rattle.meta_model.specs.Forms.{behind, literal, argument, ends_call, contains_call, filter_call, call_of, is_sound, sound_form, kind_of, is_form_character, form_of, form_text, told_name};
ghost use Rattle.meta_model.specs.FormCalls.{call_meant, given_meant};

use crate::blanks::skipped;
use crate::cuts::split_at;
use crate::in_order::in_byte_order;
use crate::task_words::are_name_bytes;
use crate::word_list::{are_among, has_word, push_spaced, spaced, words};
use std::alloc::Global;
use tree_model::{Mem, Text, Texts};

/// What a form gives.
#[derive(Debug, Drop)]
pub enum FormKind {
    /// `bb.utils.contains`: one text where all words are there, else another.
    Contains {
        /// The text where all words are there.
        full: Text,
        /// The text where one isn't.
        short: Text,
    },
    /// `bb.utils.filter`: the words that are there, joined by single blanks.
    Filter,
}

/// One of the two literal forms of Python: it asks which of some words stand in the value of a name.
#[derive(Debug, Drop)]
pub struct Form {
    /// The name.
    pub name: Text,
    /// The words, in byte order, each once; at least one.
    pub words: Texts,
    /// What the form gives.
    pub kind: FormKind,
}

/// A call, by its literals as they are written.
#[derive(Drop)]
struct Call<'a> {
    name: &'a str,
    wanted: &'a str,
    /// What `bb.utils.contains` gives where all words are there, and where one isn't.
    given: Option<(&'a str, &'a str)>,
}

/// What stands behind a character, where it stands at the front behind blanks.
fn behind(sign: u8, text: &str) -> Option<&str>
    requires { sign < 128 }
    ensures { option_copied result ≡ behind sign text.now }
{
    let rest = skipped(text);
    if rest.is_empty() || rest.as_bytes()[0] != sign {
        return None;
    }
    Some(&rest[1..])
}

/// Whether the byte is a quote of either kind.
fn is_quote(byte: &u8) -> bool
    ensures { result ≡ is_quote byte.now }
{
    *byte == b'"' || *byte == b'\''
}

/// Whether one of the bytes is a quote.
fn holds_quote(bytes: &[u8]) -> bool
    ensures { result ≡ list_any is_quote bytes.now }
{
    bytes.iter().any(is_quote)
}

/// A literal at the front, and what stands behind it.
fn literal(text: &str) -> Option<(&str, &str)>
    ensures { option_map (λ p. (p.0.now, p.1.now)) result ≡ literal text.now }
{
    if text.is_empty() {
        return None;
    }
    let quote = text.as_bytes()[0];
    if !is_quote(&quote) {
        return None;
    }
    let (inside, rest) = split_at(&text[1..], quote)?;
    if holds_quote(inside.as_bytes()) {
        return None;
    }
    Some((inside, rest))
}

/// An argument at the front, which is a literal with a comma behind it, and what stands behind that.
fn argument(text: &str) -> Option<(&str, &str)>
    ensures { option_map (λ p. (p.0.now, p.1.now)) result ≡ argument text.now }
{
    let (inside, rest) = literal(skipped(text))?;
    let after = behind(b',', rest)?;
    Some((inside, after))
}

/// Whether the bare `d` and a bracket close the call there, and nothing follows.
fn ends_call(text: &str) -> bool
    ensures { result ≡ ends_call text.now }
{
    let Some(after) = behind(b'd', text) else {
        return false;
    };
    let Some(rest) = behind(b')', after) else {
        return false;
    };
    skipped(rest).is_empty()
}

/// What stands behind the opening bracket of `bb.utils.contains`, read.
fn contains_call(text: &str) -> Option<Call<'_>>
    ensures { option_map call_meant result ≡ contains_call text.now }
{
    let (name, rest) = argument(text)?;
    let (wanted, rest) = argument(rest)?;
    let (full, rest) = argument(rest)?;
    let (short, rest) = argument(rest)?;
    if !ends_call(rest) {
        return None;
    }
    Some(Call {
        name,
        wanted,
        given: Some((full, short)),
    })
}

/// What stands behind the opening bracket of `bb.utils.filter`, read.
fn filter_call(text: &str) -> Option<Call<'_>>
    ensures { option_map call_meant result ≡ filter_call text.now }
{
    let (name, rest) = argument(text)?;
    let (wanted, rest) = argument(rest)?;
    if !ends_call(rest) {
        return None;
    }
    Some(Call {
        name,
        wanted,
        given: None,
    })
}

/// The call that stands between `${` and `}`.
fn call_of(inside: &str) -> Option<Call<'_>>
    ensures { option_map call_meant result ≡ call_of inside.now }
{
    if inside.as_bytes().starts_with(b"@bb.utils.contains(") {
        return contains_call(&inside[19..]);
    }
    if inside.as_bytes().starts_with(b"@bb.utils.filter(") {
        return filter_call(&inside[17..]);
    }
    None
}

/// Whether a byte may stand between the braces of a form.
fn is_form_byte(byte: &u8) -> bool
    ensures { result ≡ is_form_character byte.now }
{
    !b"$\\{}".contains(byte)
}

/// Whether all bytes may stand there.
fn are_form_bytes(bytes: &[u8]) -> bool
    ensures { result ≡ list_all is_form_character bytes.now }
{
    bytes.iter().all(is_form_byte)
}

/// Whether a call is a form: its name is one or more name characters, and there is a word.
fn is_sound(call: &Call<'_>) -> bool
    ensures { result ≡ is_sound (call_meant call.now) }
{
    !call.name.is_empty() && are_name_bytes(call.name.as_bytes()) && has_word(call.wanted)
}

/// The form's call that stands between `${` and `}`, if one does.
fn form_call(inside: &str) -> Option<Call<'_>>
    ensures { MatchOption result (form_of inside.now ≡ None) (λ call. (form_of inside.now ≡ sound_form (call_meant call))
        × (is_sound (call_meant call) ≡ true)) }
{
    if !are_form_bytes(inside.as_bytes()) {
        return None;
    }
    let call = call_of(inside)?;
    if !is_sound(&call) {
        return None;
    }
    Some(call)
}

/// Whether one of the two literal forms of Python stands between `${` and `}`:
/// `@bb.utils.contains('V', 'W ..', 'FULL', 'SHORT', d)` or `@bb.utils.filter('V', 'W ..', d)`, with quotes of either kind, and
/// blanks around each argument and at the end. V is one or more name characters, there is at least one word, and no literal holds
/// a quote, a backslash, `$` or a brace (own rules).
pub fn is_form(inside: &str) -> bool
    ensures { result ≡ is_some (form_of inside.now) }
{
    form_call(inside).is_some()
}

/// What a call gives.
fn kind_of(alloc: Global, given: Option<(&str, &str)>) -> Result<FormKind, Mem>
    ensures { IfOk result (λ made. made ≡ kind_of (given_meant given.entry)) }
{
    match given {
        Some((full, short)) => Ok(FormKind::Contains {
            full: Text::from_str(alloc, full)?,
            short: Text::from_str(alloc, short)?,
        }),
        None => Ok(FormKind::Filter),
    }
}

/// The form that a call says.
fn form_with(alloc: Global, call: Call<'_>) -> Result<Form, Mem>
    requires { is_sound (call_meant call) ≡ true }
    ensures { IfOk result (λ made. sound_form (call_meant call.entry) ≡ Some made) }
{
    let name = Text::from_str(alloc, call.name)?;
    let wanted = words(alloc, call.wanted)?;
    let words = in_byte_order(alloc, wanted.as_slice())?;
    let kind = kind_of(alloc, call.given)?;
    Ok(Form { name, words, kind })
}

/// The form that stands between `${` and `}`, if one does (`is_form`).
pub fn form_of(alloc: Global, inside: &str) -> Result<Option<Form>, Mem>
    ensures { IfOk result (λ made. form_of inside.now ≡ made) }
{
    match form_call(inside) {
        Some(call) => Ok(Some(form_with(alloc, call)?)),
        None => Ok(None),
    }
}

/// The name under which a key tells which of these words stand in the value of the name: `@` and the name, and the words, each
/// behind a blank.
pub fn told_name(alloc: Global, name: &str, wanted: &[Text]) -> Result<Text, Mem>
    ensures { IfOk result (λ made. made ≡ told_name name.now wanted.now) }
{
    let mut made = Text::from_str(alloc, "@")?;
    made.push_str(name)?;
    push_spaced(&mut made, wanted)?;
    Ok(made)
}

impl Form {
    /// What the form gives where these of its words are there.
    pub fn text(&self, alloc: Global, there: &[Text]) -> Result<Text, Mem>
        ensures { IfOk result (λ made. made ≡ form_text self.now there.now) }
    {
        match &self.kind {
            FormKind::Contains { full, short } => {
                if are_among(self.words.as_slice(), there) {
                    full.copy()
                } else {
                    short.copy()
                }
            }
            FormKind::Filter => spaced(alloc, there),
        }
    }
}
