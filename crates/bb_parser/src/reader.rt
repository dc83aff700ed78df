// The statements of a file.
ghost use Rattle.std.specs.Prelude.{◌≡◌, ◌<◌, ◌^◌, ◌∷◌, length, IfOk, IfErr, OnOk, Ok};
ghost use Rattle.meta_model.specs.Lines.{logical_lines};
ghost use Rattle.meta_model.specs.Statements.{AreStatements, statements, statements_of_lines, body_of, ends_in_body};
ghost use Rattle.bb_parser.specs.Faults.{IsFaultOf, IsFaultAt, line_of_kind};
ghost use Rattle.bb_parser.specs.Reading.{statement_at, kind_of_lines, is_body, is_plain, onto};

use crate::fault::{ParseFault, ParseKind};
use crate::line_statement::statement_of_line;
use bb_lexer::{LexFault, LexKind, Line, Place, lines, opens};
use meta_model::{Kind, Statement};
use std::alloc::Global;
use tree_model::{ListOf, Mem, Text};

/// Statements, each with the number of the line at which it begins. Contracts see a list of pairs.
pub type Statements = ListOf<(u32, Statement)>;

/// The fault of the parser that a fault of the lines is.
fn fault_of_lines(fault: LexFault) -> ParseFault
    ensures line { result.line ≡ fault.line }
    ensures kind { result.kind ≡ kind_of_lines fault.kind }
{
    let kind = match fault.kind {
        LexKind::NotUtf8 => ParseKind::NotUtf8,
        LexKind::DanglingJoin => ParseKind::DanglingJoin,
        LexKind::CommentInJoin => ParseKind::CommentInJoin,
        LexKind::Memory => ParseKind::Memory,
    };
    ParseFault {
        line: fault.line,
        kind,
    }
}

/// Whether the line stands in a body.
fn is_in_body(line: &Line) -> bool
    ensures { result ≡ is_body line.now.place }
{
    match line.place {
        Place::Body => true,
        Place::Plain | Place::Close => false,
    }
}

/// Whether the line stands outside of bodies.
fn stands_outside(line: &Line) -> bool
    ensures { result ≡ is_plain line.now.place }
{
    match line.place {
        Place::Plain => true,
        Place::Body | Place::Close => false,
    }
}

/// The text of the body that the lines begin with: each of its lines, with a newline.
fn body_text(alloc: Global, lines: &[Line]) -> Result<Text, Mem>
    ensures { IfOk result (λ text. text ≡ body_of lines.now) }
{
    let mut text = Text::new(alloc);
    for line in lines {
        if !is_in_body(line) {
            return Ok(text);
        }
        text.push_str(line.text.as_str())?;
        text.push_str("\n")?;
    }
    Ok(text)
}

/// Whether the file ends in the body that the lines begin with.
fn file_ends_in_body(lines: &[Line]) -> bool
    ensures { result ≡ ends_in_body lines.now }
{
    for line in lines {
        if !is_in_body(line) {
            return false;
        }
    }
    true
}

/// The statement of a line, before which lines of its body may stand.
fn statement_before(
    alloc: Global,
    kind: Kind,
    line: &Line,
    rest: &[Line],
) -> Result<Statement, ParseFault>
    ensures ok { IfOk result (λ s. statement_at kind line.now rest.now ≡ Ok s) }
    ensures err { IfErr result (λ e. IsFaultAt e line.now.number (statement_at kind line.now rest.now)) }
{
    let Ok(body) = body_text(alloc, rest) else {
        return Err(ParseFault {
            line: 0,
            kind: ParseKind::Memory,
        });
    };
    let text = line.text.as_str();
    let is_open = opens(text) && file_ends_in_body(rest);
    match statement_of_line(alloc, kind, text, body.as_str(), is_open) {
        Ok(statement) => Ok(statement),
        Err(found) => Err(fault_at(line.number, found)),
    }
}

/// The fault of a kind at a line; want of memory has no line.
fn fault_at(line: u32, kind: ParseKind) -> ParseFault
    ensures kind { result.kind ≡ kind }
    ensures line { result.line ≡ line_of_kind line kind }
{
    let line = if kind == ParseKind::Memory { 0 } else { line };
    ParseFault { line, kind }
}

/// Takes the statement of a line, where it has one; these lines follow.
fn take_line(
    alloc: Global,
    kind: Kind,
    list: &mut Statements,
    line: &Line,
    rest: &[Line],
) -> Result<(), ParseFault>
    ensures ok { OnOk result (onto list.new (statements_of_lines kind rest.now)
        ≡ onto list.old (statements_of_lines kind (line.now ∷ rest.now))) }
    ensures err { IfErr result (λ e. IsFaultOf e (statements_of_lines kind (line.now ∷ rest.now))) }
{
    if !stands_outside(line) {
        return Ok(());
    }
    match statement_before(alloc, kind, line, rest) {
        Ok(statement) => Ok(list.push((line.number, statement))?),
        Err(fault) => Err(fault),
    }
}

/// The statements of logical lines.
fn statements_of(alloc: Global, kind: Kind, lines: &[Line]) -> Result<Statements, ParseFault>
    ensures ok { IfOk result (λ list. statements_of_lines kind lines.now ≡ Ok list) }
    ensures err { IfErr result (λ e. IsFaultOf e (statements_of_lines kind lines.now)) }
{
    let mut list = Statements::new(alloc);
    for (at, line) in lines.iter().enumerate() {
        take_line(alloc, kind, &mut list, line, &lines[at + 1..])?;
    }
    Ok(list)
}

/// The statements of a file, each with the number of the line at which it begins, from 1. They stand in the order of
/// their lines.
///
/// The answer is exactly that of the definitions, for all bytes: the statements where each line has one, else the
/// first fault with its line. NotUtf8 comes first, then the CommentInJoin or DanglingJoin of the least line, then
/// the fault of the least line. `Memory` alone says nothing of the file.
pub fn parse(alloc: Global, kind: Kind, bytes: &[u8]) -> Result<Statements, ParseFault>
    requires { length bytes.now < 2 ^ 32 }
    ensures statements { IfOk result (λ list. AreStatements kind bytes.now list) }
    ensures fault { IfErr result (λ e. IsFaultOf e (statements kind bytes.now)) }
{
    match lines(alloc, bytes) {
        Ok(found) => statements_of(alloc, kind, found.as_slice()),
        Err(fault) => Err(fault_of_lines(fault)),
    }
}
