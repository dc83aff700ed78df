// From bytes to logical lines.
ghost use Rattle.std.specs.Prelude.{◌≡◌, ◌^◌, ◌<◌, ◌≤◌, ◌==◌, length, count_by, IfOk, IfErr};
ghost use Rattle.meta_model.specs.Text.{newline};
ghost use Rattle.meta_model.specs.Lines.{lines_of_text, logical_lines};
ghost use Rattle.bb_lexer.specs.Faults.{IsFaultOf};

use crate::cut::{first_piece, trimmed};
use crate::fault::{LexFault, LexKind};
use crate::step::{Stand, step};
use byte_scan::count_of;
use meta_model::Line;
use std::alloc::Global;
use tree_model::ListOf;

/// The logical lines of a text, or its first fault.
fn text_lines(alloc: Global, text: &str) -> Result<ListOf<Line>, LexFault>
    requires { length text.now < 2 ^ 32 }
    ensures ok { IfOk result (λ made. lines_of_text text.now ≡ Ok made) }
    ensures err { IfErr result (λ fault. IsFaultOf fault (lines_of_text text.now)) }
{
    let mut out = ListOf::new(alloc);
    let mut stand = Stand::Outside;
    let mut number = 0;
    let mut rest = text;
    while !rest.is_empty() {
        number += 1;
        let (line, after) = first_piece(rest);
        stand = step(alloc, &mut out, stand, number, trimmed(line))?;
        rest = after;
    }
    match stand {
        Stand::Joining(begun, _) => Err(LexFault {
            line: begun,
            kind: LexKind::DanglingJoin,
        }),
        _ => Ok(out),
    }
}

/// The logical lines of a file, or its first fault against the line rules.
///
/// `bytes` is the whole file, and there are fewer than 2^32 of them, so that a `u32` counts its lines.
///
/// The rules, in the order in which they are applied:
/// - The file is UTF-8, else the answer is NotUtf8 before any other fault (own rule).
/// - Physical lines end at a newline, and what follows the last newline is a line unless it is empty; spaces, tabs
///   and carriage returns at a line's end are dropped (own rule).
/// - Outside of function bodies a line that ends with a backslash goes on in the next one ("Syntax and Operators",
///   "Line Joining"), also in an empty one, which ends the join; DanglingJoin where there is no next one. Empty
///   lines and comments are dropped, a backslash at a comment's end included; a comment that goes on with a join
///   is CommentInJoin (own rules). A logical line has the number of its first physical line.
/// - A logical line without `=` and quotes that ends with `()`, optional blanks and `{` opens a function body, whose
///   lines are taken as they are up to a line that is `}` alone ("Syntax and Operators", "Shell Functions").
///
/// A file that ends inside of a body is no fault here: its last line isn't a Close.
pub fn lines(alloc: Global, bytes: &[u8]) -> Result<ListOf<Line>, LexFault>
    requires { length bytes.now < 2 ^ 32 }
    ensures ok { IfOk result (λ made. logical_lines bytes.now ≡ Ok made) }
    ensures err { IfErr result (λ fault. IsFaultOf fault (logical_lines bytes.now)) }
{
    match str::from_utf8(bytes) {
        Ok(text) => text_lines(alloc, text),
        Err(e) => Err(LexFault {
            line: 1 + newlines(&bytes[..e.valid_up_to()]),
            kind: LexKind::NotUtf8,
        }),
    }
}

/// How many newlines there are.
fn newlines(bytes: &[u8]) -> u32
    requires { length bytes.now < 2 ^ 32 }
    ensures count { result ≡ count_by (λ b. b == newline) bytes.now }
    ensures most { result ≤ length bytes.now }
{
    count_of(bytes, b'\n') as u32
}
