// The forms of a logical line.
ghost use Rattle.std.specs.Prelude.{◌≡◌, codes, IfOk, Some, option_map};
ghost use Rattle.meta_model.specs.Grammar.{assignment, flag_of_name, flag_assignment, with_name, flag_unset, with_text, with_words, task_parts, task_names, function_head, fit_of, plain_fit, exported_assignment, name_behind_word, text_behind_word, words_behind_word, value_forms_of, later_value_forms_of, directive_forms_of, word_forms_of};
ghost use Rattle.meta_model.specs.declared.statement.Statement.TheVariants.{Export, Unset, Include, Require, Inherit, ExportFunctions};
ghost use Rattle.bb_parser.specs.Forms.{GivesFit, fit_of_found, name_and_flag};

use crate::names::{is_a_flag, is_a_name, name_end};
use crate::quotes::operator_and_text;
use crate::scan::has_nothing;
use crate::tasks::{added_tasks, deleted_tasks};
use crate::word_list::behind;
use bb_lexer::{before_opening, opens};
use meta_model::{Statement, skipped, split_at, unblanked, words};
use std::alloc::Global;
use tree_model::{Mem, Text, Texts};

/// A statement that a line fits.
#[derive(Drop)]
pub struct LineFit {
    /// The statement.
    pub statement: Statement,
    /// How often the quote that ends its text stands in the text.
    pub inner: usize,
}

/// `NAME OP QUOTED`.
fn assigned(alloc: Global, export: bool, line: &str) -> Result<Option<LineFit>, Mem>
    ensures { GivesFit result (assignment export line.now) }
{
    let Some(end) = name_end(line.as_bytes()) else {
        return Ok(None);
    };
    let Some((op, quoted)) = operator_and_text(&line[end..]) else {
        return Ok(None);
    };
    Ok(Some(LineFit {
        statement: Statement::Assign {
            export,
            name: Text::from_str(alloc, &line[..end])?,
            op,
            text: Text::from_str(alloc, quoted.text)?,
        },
        inner: quoted.inner,
    }))
}

/// `export NAME OP QUOTED`.
fn exported(alloc: Global, line: &str) -> Result<Option<LineFit>, Mem>
    ensures { GivesFit result (exported_assignment line.now) }
{
    match behind(b"export", line) {
        Some(rest) => assigned(alloc, true, rest),
        None => Ok(None),
    }
}

/// A name, a flag of it, and what follows.
#[derive(Clone, Copy)]
pub struct FlagOfName<'a> {
    pub name: &'a str,
    pub flag: &'a str,
    pub rest: &'a str,
}

/// `NAME[FLAG]`, and what follows it.
fn named_flag(line: &str) -> Option<FlagOfName<'_>>
    ensures { flag_of_name line.now ≡ option_map name_and_flag result }
{
    let (name, behind_name) = split_at(line, b'[')?;
    let (flag, rest) = split_at(behind_name, b']')?;
    if is_a_name(name.as_bytes()) && is_a_flag(flag.as_bytes()) {
        Some(FlagOfName { name, flag, rest })
    } else {
        None
    }
}

/// `NAME[FLAG] OP QUOTED`.
fn flagged(alloc: Global, line: &str) -> Result<Option<LineFit>, Mem>
    ensures { GivesFit result (flag_assignment line.now) }
{
    let Some(found) = named_flag(line) else {
        return Ok(None);
    };
    let Some((op, quoted)) = operator_and_text(found.rest) else {
        return Ok(None);
    };
    Ok(Some(LineFit {
        statement: Statement::Flag {
            name: Text::from_str(alloc, found.name)?,
            flag: Text::from_str(alloc, found.flag)?,
            op,
            text: Text::from_str(alloc, quoted.text)?,
        },
        inner: quoted.inner,
    }))
}

/// A statement without a quoted text.
fn plain(statement: Statement) -> LineFit
    ensures { fit_of_found result ≡ plain_fit statement }
{
    LineFit {
        statement,
        inner: 0,
    }
}

/// The word and a name, which is answered.
fn name_behind(alloc: Global, word: &[u8], line: &str) -> Result<Option<Text>, Mem>
    ensures { IfOk result (λ name. name ≡ name_behind_word word.now line.now) }
{
    let Some(name) = behind(word, line) else {
        return Ok(None);
    };
    if is_a_name(name.as_bytes()) {
        Ok(Some(Text::from_str(alloc, name)?))
    } else {
        Ok(None)
    }
}

/// `export NAME`.
fn export_of_name(alloc: Global, line: &str) -> Result<Option<LineFit>, Mem>
    ensures { GivesFit result (with_name (codes "export") Export line.now) }
{
    match name_behind(alloc, b"export", line)? {
        Some(name) => Ok(Some(plain(Statement::Export { name }))),
        None => Ok(None),
    }
}

/// `unset NAME`.
fn unset_of_name(alloc: Global, line: &str) -> Result<Option<LineFit>, Mem>
    ensures { GivesFit result (with_name (codes "unset") Unset line.now) }
{
    match name_behind(alloc, b"unset", line)? {
        Some(name) => Ok(Some(plain(Statement::Unset { name }))),
        None => Ok(None),
    }
}

/// `unset NAME[FLAG]`.
fn unset_of_flag(alloc: Global, line: &str) -> Result<Option<LineFit>, Mem>
    ensures { GivesFit result (flag_unset line.now) }
{
    let Some(rest) = behind(b"unset", line) else {
        return Ok(None);
    };
    let Some(found) = named_flag(rest) else {
        return Ok(None);
    };
    if !has_nothing(found.rest.as_bytes()) {
        return Ok(None);
    }
    Ok(Some(plain(Statement::UnsetFlag {
        name: Text::from_str(alloc, found.name)?,
        flag: Text::from_str(alloc, found.flag)?,
    })))
}

/// The word and a text of at least one character, which is answered.
fn text_behind(alloc: Global, word: &[u8], line: &str) -> Result<Option<Text>, Mem>
    ensures { IfOk result (λ text. text ≡ text_behind_word word.now line.now) }
{
    let Some(text) = behind(word, line) else {
        return Ok(None);
    };
    if has_nothing(text.as_bytes()) {
        Ok(None)
    } else {
        Ok(Some(Text::from_str(alloc, text)?))
    }
}

/// `include TEXT`.
fn included(alloc: Global, line: &str) -> Result<Option<LineFit>, Mem>
    ensures { GivesFit result (with_text (codes "include") Include line.now) }
{
    match text_behind(alloc, b"include", line)? {
        Some(path) => Ok(Some(plain(Statement::Include { path }))),
        None => Ok(None),
    }
}

/// `require TEXT`.
fn required(alloc: Global, line: &str) -> Result<Option<LineFit>, Mem>
    ensures { GivesFit result (with_text (codes "require") Require line.now) }
{
    match text_behind(alloc, b"require", line)? {
        Some(path) => Ok(Some(plain(Statement::Require { path }))),
        None => Ok(None),
    }
}

/// `inherit TEXT`.
fn inherited(alloc: Global, line: &str) -> Result<Option<LineFit>, Mem>
    ensures { GivesFit result (with_text (codes "inherit") Inherit line.now) }
{
    match text_behind(alloc, b"inherit", line)? {
        Some(names) => Ok(Some(plain(Statement::Inherit { names }))),
        None => Ok(None),
    }
}

/// The word and at least one word, which are answered.
fn words_behind(alloc: Global, word: &[u8], line: &str) -> Result<Option<Texts>, Mem>
    ensures { IfOk result (λ list. list ≡ words_behind_word word.now line.now) }
{
    let Some(text) = behind(word, line) else {
        return Ok(None);
    };
    let list = words(alloc, text)?;
    if list.as_slice().is_empty() {
        Ok(None)
    } else {
        Ok(Some(list))
    }
}

/// `EXPORT_FUNCTIONS WORDS`.
fn functions_exported(alloc: Global, line: &str) -> Result<Option<LineFit>, Mem>
    ensures { GivesFit result (with_words (codes "EXPORT_FUNCTIONS") (λ ws. Some (ExportFunctions ws)) line.now) }
{
    match words_behind(alloc, b"EXPORT_FUNCTIONS", line)? {
        Some(names) => Ok(Some(plain(Statement::ExportFunctions { names }))),
        None => Ok(None),
    }
}

/// `addtask WORDS after WORDS before WORDS`.
fn task_added(alloc: Global, line: &str) -> Result<Option<LineFit>, Mem>
    ensures { GivesFit result (with_words (codes "addtask") task_parts line.now) }
{
    let Some(list) = words_behind(alloc, b"addtask", line)? else {
        return Ok(None);
    };
    match added_tasks(alloc, list.as_slice())? {
        Some(statement) => Ok(Some(plain(statement))),
        None => Ok(None),
    }
}

/// `deltask WORDS`.
fn task_deleted(alloc: Global, line: &str) -> Result<Option<LineFit>, Mem>
    ensures { GivesFit result (with_words (codes "deltask") task_names line.now) }
{
    let Some(list) = words_behind(alloc, b"deltask", line)? else {
        return Ok(None);
    };
    match deleted_tasks(alloc, list.as_slice())? {
        Some(statement) => Ok(Some(plain(statement))),
        None => Ok(None),
    }
}

/// `NAME() {`, with the body's text.
fn function(alloc: Global, body: &str, line: &str) -> Result<Option<LineFit>, Mem>
    ensures { GivesFit result (function_head body.now line.now) }
{
    let Some(head) = before_opening(line) else {
        return Ok(None);
    };
    let name = unblanked(head);
    if !is_a_name(name.as_bytes()) {
        return Ok(None);
    }
    Ok(Some(plain(Statement::Function {
        name: Text::from_str(alloc, name)?,
        body: Text::from_str(alloc, body)?,
    })))
}

/// The first form that a line fits, of those that don't begin with a word of the language alone.
fn value_forms(alloc: Global, line: &str) -> Result<Option<LineFit>, Mem>
    ensures { GivesFit result (value_forms_of line.now) }
{
    if let Some(fit) = assigned(alloc, false, line)? {
        return Ok(Some(fit));
    }
    if let Some(fit) = exported(alloc, line)? {
        return Ok(Some(fit));
    }
    later_value_forms(alloc, line)
}

/// The same of the forms behind an assignment's.
fn later_value_forms(alloc: Global, line: &str) -> Result<Option<LineFit>, Mem>
    ensures { GivesFit result (later_value_forms_of line.now) }
{
    if let Some(fit) = flagged(alloc, line)? {
        return Ok(Some(fit));
    }
    if let Some(fit) = export_of_name(alloc, line)? {
        return Ok(Some(fit));
    }
    if let Some(fit) = unset_of_name(alloc, line)? {
        return Ok(Some(fit));
    }
    unset_of_flag(alloc, line)
}

/// The first form that a line fits, of those with a text or words behind a word of the language.
fn directive_forms(alloc: Global, line: &str) -> Result<Option<LineFit>, Mem>
    ensures { GivesFit result (directive_forms_of line.now) }
{
    if let Some(fit) = included(alloc, line)? {
        return Ok(Some(fit));
    }
    if let Some(fit) = required(alloc, line)? {
        return Ok(Some(fit));
    }
    if let Some(fit) = inherited(alloc, line)? {
        return Ok(Some(fit));
    }
    word_forms(alloc, line)
}

/// The same of the forms with words.
fn word_forms(alloc: Global, line: &str) -> Result<Option<LineFit>, Mem>
    ensures { GivesFit result (word_forms_of line.now) }
{
    if let Some(fit) = functions_exported(alloc, line)? {
        return Ok(Some(fit));
    }
    if let Some(fit) = task_added(alloc, line)? {
        return Ok(Some(fit));
    }
    task_deleted(alloc, line)
}

/// The statement of a line, whatever the kind of the file: the first form that the line fits. `body` is the text of
/// the body that the line opens.
pub fn first_fit(alloc: Global, text: &str, body: &str) -> Result<Option<LineFit>, Mem>
    ensures { GivesFit result (fit_of text.now body.now) }
{
    let line = skipped(text);
    if opens(text) {
        return function(alloc, body, line);
    }
    match value_forms(alloc, line)? {
        Some(fit) => Ok(Some(fit)),
        None => directive_forms(alloc, line),
    }
}
