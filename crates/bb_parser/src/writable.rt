// Whether a statement can be written.
ghost use Rattle.std.specs.Prelude.{◌≡◌, ◌&&◌, not, false, codes, is_some, bytes_eq, length, slice_index, ◌-◌, option_map};
ghost use Rattle.std.specs.List.{list_all};
ghost use Rattle.meta_model.specs.Text.{newline, is_empty, is_white, without_end, split_at_first};
ghost use Rattle.meta_model.specs.Names.{is_flag, is_late};
ghost use Rattle.meta_model.specs.Grammar.{assignment};
ghost use Rattle.meta_model.specs.Statements.{is_weak};
ghost use Rattle.bb_parser.specs.Written.{is_one_line, is_quotable, is_free_name, is_refused_name, is_python_name, is_word, is_task, is_body_line, is_body_text, begins_unblank, can_follow, line_of_text, is_dropped, are_whole_lines};

use crate::names::{has_keyword, is_a_flag, is_a_name, is_set_by_program, name_end};
use crate::quotes::{operator_and_text, times};
use crate::scan::{has_nothing, holds_python};
use crate::tasks::can_be_task;
use bb_lexer::opens;
use meta_model::{Op, is_a_blank, is_white_space, place_of};
use tree_model::Text;

/// Whether no newline stands in a text.
fn is_on_one_line(text: &[u8]) -> bool
    ensures { result ≡ is_one_line text.now }
{
    text.iter().all(|c| *c != b'\n')
}

/// Whether a text can be quoted.
fn can_be_quoted(text: &str) -> bool
    ensures { result ≡ is_quotable text.now }
{
    let bytes = text.as_bytes();
    is_on_one_line(bytes)
        && !holds_python(text)
        && !(times(bytes, b'"') == 1 && times(bytes, b'\'') == 1)
}

/// Whether a statement may give something to the name.
pub fn is_free(name: &[u8]) -> bool
    ensures { result ≡ is_free_name name.now }
{
    is_a_name(name) && !is_set_by_program(name)
}

/// Whether an assignment can be written.
pub fn can_be_assigned(name: &[u8], op: Op, text: &str) -> bool
    ensures { result ≡ (is_free_name name.now && is_quotable text.now && not (is_weak op && is_late name.now)) }
{
    is_free(name) && can_be_quoted(text) && !(op == Op::Weak && has_keyword(name))
}

/// Whether the name and its flag can be written.
pub fn can_be_flagged(name: &[u8], flag: &[u8]) -> bool
    ensures { result ≡ (is_free_name name.now && is_flag flag.now) }
{
    is_free(name) && is_a_flag(flag)
}

/// Whether an assignment to a flag can be written.
pub fn can_assign_flag(name: &[u8], flag: &[u8], text: &str) -> bool
    ensures { result ≡ (is_free_name name.now && is_flag flag.now && is_quotable text.now) }
{
    can_be_flagged(name, flag) && can_be_quoted(text)
}

/// Whether a line is an assignment.
pub fn is_assignment(line: &str) -> bool
    ensures { result ≡ is_some (assignment false line.now) }
{
    match name_end(line.as_bytes()) {
        Some(end) => operator_and_text(&line[end..]).is_some(),
        None => false,
    }
}

/// Whether a text begins with a character that is no blank.
fn begins_with_no_blank(text: &[u8]) -> bool
    ensures { result ≡ begins_unblank text.now }
{
    match text {
        [first, ..] => !is_a_blank(*first),
        [] => false,
    }
}

/// Whether a text can stand behind a word; `line` is the line of both.
pub fn can_stand_behind(word: &str, text: &str, line: &str) -> bool
    requires { line.now ≡ line_of_text word.now text.now }
    ensures { result ≡ can_follow word.now text.now }
{
    begins_with_no_blank(text.as_bytes())
        && is_on_one_line(text.as_bytes())
        && !holds_python(text)
        && !is_assignment(line)
        && !opens(line)
}

/// Whether the name is that of a line's first word which makes it Python.
pub fn names_python(name: &[u8]) -> bool
    ensures { result ≡ is_python_name name.now }
{
    name == b"python".as_slice() || name == b"def".as_slice() || name == b"addhandler".as_slice()
}

/// Whether a line can't begin with the name and a blank.
pub fn is_refused(name: &[u8]) -> bool
    ensures { result ≡ is_refused_name name.now }
{
    names_python(name) || name == b"fakeroot".as_slice()
}

/// Whether no white space stands in a text.
fn has_no_white_space(text: &[u8]) -> bool
    ensures { result ≡ list_all (λ c. not (is_white c)) text.now }
{
    text.iter().all(|c| !is_white_space(*c))
}

/// Whether a text is one word.
fn is_one_word(word: &Text) -> bool
    ensures { result ≡ is_word word.now }
{
    let bytes = word.as_str().as_bytes();
    !has_nothing(bytes) && has_no_white_space(bytes)
}

/// Whether there is no text.
pub fn has_none(names: &[Text]) -> bool
    ensures { result ≡ is_empty names.now }
{
    names.is_empty()
}

/// Whether each text is one word.
fn are_all_words(names: &[Text]) -> bool
    ensures { result ≡ list_all is_word names.now }
{
    names.iter().all(|name| is_one_word(name))
}

/// Whether there are texts, and each is one word.
pub fn are_words(names: &[Text]) -> bool
    ensures { result ≡ (not (is_empty names.now) && list_all is_word names.now) }
{
    !has_none(names) && are_all_words(names)
}

/// Whether a text is the name of a task as a statement has it.
fn is_task_of_statement(name: &Text) -> bool
    ensures { result ≡ is_task name.now }
{
    let bytes = name.as_str().as_bytes();
    bytes.starts_with(b"do_") && can_be_task(bytes)
}

/// Whether each text is the name of a task as a statement has it.
pub fn are_tasks(names: &[Text]) -> bool
    ensures { result ≡ list_all is_task names.now }
{
    names.iter().all(|name| is_task_of_statement(name))
}

/// Whether a character is dropped at the end of a line.
pub fn is_dropped_at_end(c: u8) -> bool
    ensures { result ≡ is_dropped c }
{
    is_a_blank(c) || c == b'\r'
}

/// Whether the last character of a line is one that is dropped there.
fn has_dropped_end(line: &[u8]) -> bool
    ensures { result ≡ is_dropped (slice_index line.now (length line.now - 1)) }
{
    match line.last() {
        Some(c) => is_dropped_at_end(*c),
        None => false,
    }
}

/// Whether nothing is dropped at the end of a line.
fn keeps_end(line: &[u8]) -> bool
    ensures { result ≡ bytes_eq (without_end is_dropped line.now) line.now }
{
    !has_dropped_end(line)
}

/// Whether a line can stand in a body.
fn is_in_body(line: &[u8]) -> bool
    ensures { result ≡ is_body_line line.now }
{
    keeps_end(line) && line != b"}".as_slice()
}

/// What stands before the first newline, and what stands behind it.
fn line_and_rest(bytes: &[u8]) -> Option<(&[u8], &[u8])>
    ensures { split_at_first newline bytes.now ≡ option_map (λ p. (p.0.now, p.1.now)) result }
{
    match place_of(bytes, b'\n') {
        Some(at) => Some((&bytes[..at], &bytes[at + 1..])),
        None => None,
    }
}

/// Whether the text is whole lines of a body.
fn are_body_lines(body: &[u8]) -> bool
    ensures { result ≡ are_whole_lines body.now }
{
    let mut rest = body;
    while !rest.is_empty() {
        let Some((line, next)) = line_and_rest(rest) else {
            return false;
        };
        if !is_in_body(line) {
            return false;
        }
        rest = next;
    }
    true
}

/// Whether a function can be written.
pub fn can_be_function(name: &[u8], body: &str) -> bool
    ensures { result ≡ (is_free_name name.now && not (is_python_name name.now) && is_body_text body.now) }
{
    is_free(name) && !names_python(name) && are_body_lines(body.as_bytes()) && !holds_python(body)
}
