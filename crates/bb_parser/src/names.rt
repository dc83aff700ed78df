// Names, flags and operators.
ghost use Rattle.std.specs.Prelude.{◌≡◌, ◌&&◌, take, drop, is_some, find, IfSome, option_map, codes};
ghost use Rattle.std.specs.List.{list_all};
ghost use Rattle.std.specs.Str.{IsUtf8, IsCharBoundary};
ghost use Rattle.meta_model.specs.Text.{cuts, is_letter_digit_or};
ghost use Rattle.meta_model.specs.Names.{is_name, is_flag, is_late, keyword};
ghost use Rattle.meta_model.specs.Grammar.{operator, operator_here};
ghost use Rattle.meta_model.specs.Statements.{is_reserved};

use crate::scan::{after, has_nothing, up_to};
use meta_model::{Op, after_blanks, skipped};

/// Whether a character can stand in a name.
fn is_in_name(c: u8) -> bool
    ensures { result ≡ is_letter_digit_or (codes "-_+.${}/~:") c }
{
    c.is_ascii_alphanumeric()
        || matches!(
            c,
            b'-' | b'_' | b'+' | b'.' | b'$' | b'{' | b'}' | b'/' | b'~' | b':'
        )
}

/// Whether a character can stand in the name of a flag.
fn is_in_flag(c: u8) -> bool
    ensures { result ≡ is_letter_digit_or (codes "-_+.@") c }
{
    c.is_ascii_alphanumeric() || matches!(c, b'-' | b'_' | b'+' | b'.' | b'@')
}

/// Whether each character can stand in a name.
fn are_in_name(text: &[u8]) -> bool
    ensures { result ≡ list_all (is_letter_digit_or (codes "-_+.${}/~:")) text.now }
{
    text.iter().all(|c| is_in_name(*c))
}

/// Whether each character can stand in the name of a flag.
fn are_in_flag(text: &[u8]) -> bool
    ensures { result ≡ list_all (is_letter_digit_or (codes "-_+.@")) text.now }
{
    text.iter().all(|c| is_in_flag(*c))
}

/// Whether a text is a name.
pub fn is_a_name(text: &[u8]) -> bool
    ensures { result ≡ is_name text.now }
{
    !has_nothing(text) && are_in_name(text)
}

/// Whether a text is the name of a flag.
pub fn is_a_flag(text: &[u8]) -> bool
    ensures { result ≡ is_flag text.now }
{
    !has_nothing(text) && are_in_flag(text) && !text.starts_with(b"@")
}

/// The operator at the front, and how many characters it has.
fn operator_at(text: &[u8]) -> Option<(Op, usize)>
    ensures found { operator_here text.now ≡ option_map (λ r. (r.0, drop r.1 text.now)) result }
    ensures cut { IfSome result (λ r. IsUtf8 text.now → IsCharBoundary text.now r.1) }
{
    if text.starts_with(b"??=") {
        return Some((Op::Weak, 3));
    }
    if text.starts_with(b":=") {
        return Some((Op::Now, 2));
    }
    if text.starts_with(b"?=") {
        return Some((Op::Soft, 2));
    }
    if text.starts_with(b"+=") {
        return Some((Op::AddBlank, 2));
    }
    if text.starts_with(b"=+") {
        return Some((Op::PutBlank, 2));
    }
    if text.starts_with(b".=") {
        return Some((Op::Add, 2));
    }
    if text.starts_with(b"=.") {
        return Some((Op::Put, 2));
    }
    if text.starts_with(b"=") {
        return Some((Op::Set, 1));
    }
    None
}

/// Whether an operator stands at the front, behind blanks.
fn has_operator(line: &[u8]) -> bool
    ensures { result ≡ is_some (operator line.now) }
{
    operator_at(after_blanks(line)).is_some()
}

/// Where the name of an assignment ends: it is the shortest that an operator follows.
pub fn name_end(line: &[u8]) -> Option<usize>
    ensures shortest { find (λ c. is_name c.0 && is_some (operator c.1)) (cuts line.now)
        ≡ option_map (λ n. (take n line.now, drop n line.now)) result }
    ensures cut { IfSome result (λ n. IsUtf8 line.now → IsCharBoundary line.now n) }
{
    let mut end = 0;
    while end < line.len() && is_in_name(line[end]) {
        end += 1;
        if has_operator(&line[end..]) {
            return Some(end);
        }
    }
    None
}

/// The operator at the front, behind blanks, and what follows it.
pub fn first_operator(line: &str) -> Option<(Op, &str)>
    ensures { operator line.now ≡ option_map (λ r. (r.0, r.1.now)) result }
{
    let rest = skipped(line);
    let (op, length) = operator_at(rest.as_bytes())?;
    Some((op, &rest[length..]))
}

/// Whether the program sets the name.
pub fn is_set_by_program(name: &[u8]) -> bool
    ensures { result ≡ is_reserved name.now }
{
    let first = up_to(name, b':');
    first == b"WORKDIR".as_slice()
        || first == b"DEPSDIR".as_slice()
        || first == b"FILESDIR".as_slice()
}

/// Whether a part of a name is a late keyword.
fn is_keyword(part: &[u8]) -> bool
    ensures { result ≡ is_some (keyword part.now) }
{
    part == b"append".as_slice() || part == b"prepend".as_slice() || part == b"remove".as_slice()
}

/// Whether a part behind the first colon is a late keyword.
pub fn has_keyword(name: &[u8]) -> bool
    ensures { result ≡ is_late name.now }
{
    let mut rest = name;
    while let Some(next) = after(rest, b':') {
        rest = next;
        if is_keyword(up_to(rest, b':')) {
            return true;
        }
    }
    false
}
