// What stands before and behind characters, and Python in texts.
ghost use Rattle.std.specs.Prelude.{◌≡◌, ◌==◌, ◌+◌, drop, position, option_map, codes, true};
ghost use Rattle.std.specs.Option.{option_copied};
ghost use Rattle.std.specs.List.{before_first};
ghost use Rattle.meta_model.specs.Text.{begins_with, is_empty};
ghost use Rattle.meta_model.specs.Statements.{begins_form, holds_python};

use meta_model::{is_form, place_of, split_at};

/// What stands behind the first byte like this.
pub fn after(bytes: &[u8], byte: u8) -> Option<&[u8]>
    ensures { option_copied result ≡ option_map (λ i. drop (i + 1) bytes.now) (position (λ b. b == byte) bytes.now) }
{
    match place_of(bytes, byte) {
        Some(at) => Some(&bytes[at + 1..]),
        None => None,
    }
}

/// What stands before the first byte like this, or everything.
pub fn up_to(bytes: &[u8], byte: u8) -> &[u8]
    ensures { result.now ≡ before_first (λ b. b == byte) bytes.now }
{
    match place_of(bytes, byte) {
        Some(end) => &bytes[..end],
        None => bytes,
    }
}

/// Whether nothing is there.
pub fn has_nothing(bytes: &[u8]) -> bool
    ensures { result ≡ is_empty bytes.now }
{
    bytes.is_empty()
}

/// Whether a form stands at the front of a text that begins with `${`.
fn begins_form(text: &str) -> bool
    requires { begins_with (codes "${") text.now ≡ true }
    ensures { result ≡ begins_form text.now }
{
    match split_at(&text[2..], b'}') {
        Some((inside, _)) => is_form(inside),
        None => false,
    }
}

/// Whether a `${@` that begins no form stands in the text.
pub fn holds_python(text: &str) -> bool
    ensures { result ≡ holds_python text.now }
{
    let bytes = text.as_bytes();
    let mut at = 0;
    while at < bytes.len() {
        if bytes[at..].starts_with(b"${@") && !begins_form(&text[at..]) {
            return true;
        }
        at += 1;
    }
    false
}
