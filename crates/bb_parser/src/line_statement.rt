// The statement of a logical line, or its first fault.
ghost use Rattle.std.specs.Prelude.{◌≡◌, ◌==◌, not, IfOk, IfErr, Ok, Some, None, option_map};
ghost use Rattle.meta_model.specs.Statements.{statement_of, statement_of_fit, is_python, statement_holds_python, has_one_inner_quote, statement_is_reserved, has_reserved_name, is_allowed};
ghost use Rattle.bb_parser.specs.Faults.{IsKindOf};
ghost use Rattle.bb_parser.specs.Forms.{fit_of_found};
ghost use Rattle.bb_parser.specs.LineFaults.{text_fault, place_fault};

use crate::fault::ParseKind;
use crate::forms::{LineFit, first_fit};
use crate::names::{has_keyword, is_set_by_program};
use crate::scan::holds_python;
use crate::word_list::{begins_fakeroot, begins_python};
use meta_model::{Kind, Op, Statement};
use std::alloc::Global;

/// Whether a text of the statement holds a `${@` that begins no form.
fn has_python_text(statement: &Statement) -> bool
    ensures { result ≡ statement_holds_python statement.now }
{
    match statement {
        Statement::Assign {
            export: _,
            name: _,
            op: _,
            text,
        } => holds_python(text.as_str()),
        Statement::Flag {
            name: _,
            flag: _,
            op: _,
            text,
        } => holds_python(text.as_str()),
        Statement::Include { path } => holds_python(path.as_str()),
        Statement::Require { path } => holds_python(path.as_str()),
        Statement::Inherit { names } => holds_python(names.as_str()),
        _ => false,
    }
}

/// Whether the line is Python, or holds a piece of it.
fn is_python_line(text: &str, body: &str, fit: &Option<LineFit>) -> bool
    ensures { result ≡ is_python text.now body.now (option_map fit_of_found fit.now) }
{
    if begins_python(text.as_bytes()) || holds_python(body) {
        return true;
    }
    match fit {
        Some(found) => has_python_text(&found.statement),
        None => false,
    }
}

/// Whether the quoted text holds exactly one quote of the kind that ends it.
fn has_one_quote(fit: &Option<LineFit>) -> bool
    ensures { result ≡ has_one_inner_quote (option_map fit_of_found fit.now) }
{
    match fit {
        Some(found) => found.inner == 1,
        None => false,
    }
}

/// Whether the statement gives something to a name that the program sets.
fn sets_reserved(statement: &Statement) -> bool
    ensures { result ≡ statement_is_reserved statement.now }
{
    match statement {
        Statement::Assign {
            export: _,
            name,
            op: _,
            text: _,
        } => is_set_by_program(name.as_str().as_bytes()),
        Statement::Flag {
            name,
            flag: _,
            op: _,
            text: _,
        } => is_set_by_program(name.as_str().as_bytes()),
        Statement::Export { name } => is_set_by_program(name.as_str().as_bytes()),
        Statement::Unset { name } => is_set_by_program(name.as_str().as_bytes()),
        Statement::UnsetFlag { name, flag: _ } => is_set_by_program(name.as_str().as_bytes()),
        Statement::Function { name, body: _ } => is_set_by_program(name.as_str().as_bytes()),
        _ => false,
    }
}

/// Whether the fit gives something to a name that the program sets.
fn has_set_name(fit: &Option<LineFit>) -> bool
    ensures { result ≡ has_reserved_name (option_map fit_of_found fit.now) }
{
    match fit {
        Some(found) => sets_reserved(&found.statement),
        None => false,
    }
}

/// Whether the statement may stand in a file of this kind.
fn may_stand(kind: Kind, statement: &Statement) -> bool
    ensures { result ≡ is_allowed kind statement.now }
{
    match statement {
        Statement::Assign {
            export: _,
            name,
            op,
            text: _,
        } => { *op != Op::Weak || !has_keyword(name.as_str().as_bytes()) }
        Statement::Inherit { names: _ } => kind != Kind::Conf,
        Statement::Function { name: _, body: _ } => kind != Kind::Conf,
        Statement::ExportFunctions { names: _ } => kind == Kind::Class,
        Statement::AddTask {
            names: _,
            after: _,
            before: _,
        } => kind != Kind::Conf,
        Statement::DelTask { names: _ } => kind != Kind::Conf,
        _ => true,
    }
}

/// What is wrong where a statement stands in a file of this kind; `is_open` says that the file ends in its body.
fn fault_of_place(kind: Kind, is_open: bool, statement: &Statement) -> Option<ParseKind>
    ensures { result ≡ place_fault kind is_open statement.now }
{
    if !may_stand(kind, statement) {
        Some(ParseKind::BadLine)
    } else if is_open {
        Some(ParseKind::OpenFunction)
    } else {
        None
    }
}

/// The statement of a fit in which nothing else is wrong.
fn allowed_statement(
    kind: Kind,
    is_open: bool,
    fit: Option<LineFit>,
) -> Result<Statement, ParseKind>
    ensures ok { IfOk result (λ s. statement_of_fit kind is_open (option_map fit_of_found fit) ≡ Ok s) }
    ensures err { IfErr result (λ e. IsKindOf e (statement_of_fit kind is_open (option_map fit_of_found fit))) }
{
    match fit {
        Some(found) => placed_statement(kind, is_open, found.statement),
        None => Err(ParseKind::BadLine),
    }
}

/// The statement, where it may stand in a file of this kind.
fn placed_statement(kind: Kind, is_open: bool, statement: Statement) -> Result<Statement, ParseKind>
    ensures ok { IfOk result (λ s. (place_fault kind is_open statement ≡ None) × (s ≡ statement)) }
    ensures err { IfErr result (λ e. place_fault kind is_open statement ≡ Some e) }
{
    match fault_of_place(kind, is_open, &statement) {
        Some(fault) => {
            drop(statement);
            Err(fault)
        }
        None => Ok(statement),
    }
}

/// What is wrong with a logical line before its form is looked at, in the order of the faults.
fn fault_of_text(text: &str, body: &str, fit: &Option<LineFit>) -> Option<ParseKind>
    ensures { result ≡ text_fault text.now body.now (option_map fit_of_found fit.now) }
{
    if is_python_line(text, body, fit) {
        Some(ParseKind::Python)
    } else if begins_fakeroot(text.as_bytes()) {
        Some(ParseKind::Fakeroot)
    } else if has_one_quote(fit) {
        Some(ParseKind::OneInnerQuote)
    } else if has_set_name(fit) {
        Some(ParseKind::ReservedName)
    } else {
        None
    }
}

/// The statement of a logical line, or its first fault. `body` is the text of the lines up to the `}`; `is_open` says
/// that the file ends before it.
pub fn statement_of_line(
    alloc: Global,
    kind: Kind,
    text: &str,
    body: &str,
    is_open: bool,
) -> Result<Statement, ParseKind>
    ensures ok { IfOk result (λ s. statement_of kind text.now body.now is_open ≡ Ok s) }
    ensures err { IfErr result (λ e. IsKindOf e (statement_of kind text.now body.now is_open)) }
{
    let Ok(fit) = first_fit(alloc, text, body) else {
        return Err(ParseKind::Memory);
    };
    match fault_of_text(text, body, &fit) {
        Some(fault) => {
            drop(fit);
            Err(fault)
        }
        None => allowed_statement(kind, is_open, fit),
    }
}
