// What the bytes of a text say of its references.
ghost use Rattle.std.specs.Prelude.{◌≡◌, ◌+◌, ◌≤◌, ◌<◌, ◌||◌, length, take, drop, slice_index, codes, false};
ghost use Rattle.meta_model.specs.Text.{begins_with, holds};
ghost use Rattle.meta_model.specs.Parts.{end};
ghost use Rattle.var_expand.specs.Pieces.{text_before};
ghost use Rattle.var_expand.specs.Standing.{levels, in_front};

use meta_model::place_of;

/// Whether a brace or an opening stands at the front.
fn ends_run(bytes: &[u8]) -> bool
    ensures { result ≡ (begins_with (codes "}") bytes.now || begins_with (codes "${") bytes.now) }
{
    bytes.starts_with(b"}") || bytes.starts_with(b"${")
}

/// How many bytes stand before the first `}` or `${`.
pub(crate) fn run_len(bytes: &[u8]) -> usize
    ensures within { result ≤ length bytes.now }
    ensures read { levels bytes.now ≡ in_front (text_before (take result bytes.now) end)
        (levels (drop result bytes.now)) }
    ensures stands { result < length bytes.now → slice_index bytes.now result < 128 }
    ensures moves { 0 < length bytes.now → begins_with (codes "}") bytes.now ≡ false
        → begins_with (codes "${") bytes.now ≡ false → 0 < result }
{
    let mut at = 0;
    while at < bytes.len() && !ends_run(&bytes[at..]) {
        at += 1;
    }
    at
}

/// Whether `${` stands there.
fn opens_at(bytes: &[u8], at: usize) -> bool
    requires { at ≤ length bytes.now }
    ensures { result ≡ begins_with (codes "${") (drop at bytes.now) }
{
    bytes[at..].starts_with(b"${")
}

/// What stands behind the byte there.
fn behind(bytes: &[u8], at: usize) -> &[u8]
    requires { at < length bytes.now }
    ensures { result.now ≡ drop (at + 1) bytes.now }
{
    &bytes[at + 1..]
}

/// Whether `${` stands somewhere, so that there may be a reference. Each `$` is looked at, and else nothing.
pub fn holds_opening(bytes: &[u8]) -> bool
    ensures { result ≡ holds (codes "${") bytes.now }
{
    let mut rest = bytes;
    while let Some(at) = place_of(rest, b'$') {
        if opens_at(rest, at) {
            return true;
        }
        rest = behind(rest, at);
    }
    false
}
