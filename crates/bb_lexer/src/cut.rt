// Where a text is cut into physical lines, and what a line's ends say.
ghost use Rattle.std.specs.Prelude.{◌≡◌, ◌<◌, ◌||◌, ◌==◌, ◌∷◌, length, IfSome, is_some, position};
ghost use Rattle.std.specs.Option.{option_copied};
ghost use Rattle.std.specs.List.{list_any};
ghost use Rattle.meta_model.specs.Text.{newline, carriage_return, equals, is_blank, is_quote, is_empty, without_end, without_last};
ghost use Rattle.meta_model.specs.Lines.{pieces, is_comment, is_joined, without_opening, opens_body};

use byte_scan::first_of;
use meta_model::{after_blanks, kept_len, unblanked};

/// The place of the first newline.
fn newline_at(bytes: &[u8]) -> Option<usize>
    ensures { result ≡ position (λ b. b == newline) bytes.now }
{
    first_of(bytes, b"\n")
}

/// The first physical line of a text, and what follows its newline.
pub(crate) fn first_piece(text: &str) -> (&str, &str)
    requires { 0 < length text.now }
    ensures cut { pieces text.now ≡ result.0.now ∷ pieces result.1.now }
    ensures shorter { length result.1.now < length text.now }
{
    match newline_at(text.as_bytes()) {
        Some(end) => (&text[..end], &text[end + 1..]),
        None => (text, ""),
    }
}

/// The line without the blanks and carriage returns at its end.
pub(crate) fn trimmed(line: &str) -> &str
    ensures { result.now ≡ without_end (λ c. is_blank c || c == carriage_return) line.now }
{
    let end = kept_len(line.as_bytes(), b" \t\r");
    &line[..end]
}

/// Whether a `#` is the line's first byte that isn't a blank.
pub(crate) fn begins_comment(line: &str) -> bool
    ensures { result ≡ is_comment line.now }
{
    after_blanks(line.as_bytes()).starts_with(b"#")
}

/// Whether nothing or a comment stands on the line.
pub(crate) fn is_dropped(line: &str) -> bool
    ensures { result ≡ (is_empty line.now || is_comment line.now) }
{
    line.is_empty() || begins_comment(line)
}

/// What stands before the backslash that ends the line, where one does.
pub(crate) fn before_join(line: &str) -> Option<&str>
    ensures joined { is_some result ≡ is_joined line.now }
    ensures front { IfSome result (λ front. front.now ≡ without_last line.now) }
{
    if line.as_bytes().ends_with(b"\\") {
        Some(&line[..line.len() - 1])
    } else {
        None
    }
}

/// Whether the line holds a `=` or a quote.
fn holds_sign(line: &[u8]) -> bool
    ensures { result ≡ list_any (λ c. c == equals || is_quote c) line.now }
{
    first_of(line, b"=\"'").is_some()
}

/// What stands before `()`, optional blanks and `{`, where the line ends so.
pub fn before_opening(line: &str) -> Option<&str>
    ensures { option_copied result ≡ without_opening line.now }
{
    if !line.as_bytes().ends_with(b"{") {
        return None;
    }
    let head = unblanked(&line[..line.len() - 1]);
    if !head.as_bytes().ends_with(b"()") {
        return None;
    }
    Some(&head[..head.len() - 2])
}

/// Whether the line opens a function body: it ends with `()`, optional blanks and `{`, and holds neither `=` nor a quote.
pub fn opens(line: &str) -> bool
    ensures { result ≡ opens_body line.now }
{
    before_opening(line).is_some() && !holds_sign(line.as_bytes())
}
