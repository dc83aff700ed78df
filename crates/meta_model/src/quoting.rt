// Values between double quotes.
ghost use Rattle.std.specs.Prelude.{◌≡◌, ◌<◌, ◌++◌, IfSome, OnOk, length, position, slice_index, true};
ghost use Rattle.meta_model.specs.Quoting.{escape, escaped, is_special};

use tree_model::{Mem, Text};

/// For whom a value stands between double quotes, which decides how some of its bytes are written.
#[derive(Clone, Copy)]
pub enum Quoting {
    /// For the shell: a backslash, a double quote and a backquote have a backslash in front.
    Shell,
    /// For people: a backslash and a double quote have a backslash in front, and a newline is `\n`.
    Print,
}

/// Whether a byte means something to the shell between double quotes, where it isn't meant to.
fn is_special_to_shell(byte: &u8) -> bool
    ensures { result ≡ is_special Quoting.Shell byte.now }
{
    *byte == b'\\' || *byte == b'"' || *byte == b'`'
}

/// Whether a byte isn't printed as it stands.
fn is_special_in_print(byte: &u8) -> bool
    ensures { result ≡ is_special Quoting.Print byte.now }
{
    *byte == b'\\' || *byte == b'"' || *byte == b'\n'
}

/// The place of the first byte that doesn't stand as it is.
fn special_at(bytes: &[u8], quoting: Quoting) -> Option<usize>
    ensures first { result ≡ position (is_special quoting) bytes.now }
    ensures within { IfSome result (λ i. i < length bytes.now) }
    ensures stands { IfSome result (λ i. slice_index bytes.now i < 128) }
{
    match quoting {
        Quoting::Shell => bytes.iter().position(is_special_to_shell),
        Quoting::Print => bytes.iter().position(is_special_in_print),
    }
}

/// What such a byte is written as.
fn escape(byte: u8, quoting: Quoting) -> &'static str
    requires { is_special quoting byte ≡ true }
    ensures { result.now ≡ escape quoting byte }
{
    match byte {
        b'\\' => "\\\\",
        b'"' => "\\\"",
        _ => match quoting {
            Quoting::Shell => "\\`",
            Quoting::Print => "\\n",
        },
    }
}

/// Puts a value at the end as it stands between double quotes. Where memory is wanting a part of it may stand there.
pub fn push_escaped(out: &mut Text, value: &str, quoting: Quoting) -> Result<(), Mem>
    ensures { OnOk result (out.new ≡ out.old ++ escaped quoting value.now) }
{
    let mut rest = value;
    while let Some(place) = special_at(rest.as_bytes(), quoting) {
        out.push_str(&rest[..place])?;
        out.push_str(escape(rest.as_bytes()[place], quoting))?;
        rest = &rest[place + 1..];
    }
    out.push_str(rest)?;
    Ok(())
}
