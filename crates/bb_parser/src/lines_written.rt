// The texts of statements. Each call tells first whether the statement can be written.
ghost use Rattle.std.specs.Prelude.{◌≡◌, ◌&&◌, ◌++◌, ◌∷◌, [], not, true, codes, length, slice_index, OnOk, IfOk, IfErr};
ghost use Rattle.std.specs.List.{list_all};
ghost use Rattle.meta_model.specs.Text.{space, newline, close_brace, is_empty};
ghost use Rattle.meta_model.specs.Names.{is_flag, is_late};
ghost use Rattle.meta_model.specs.Statements.{is_weak};
ghost use Rattle.bb_parser.specs.declared.fault.PrintFault.TheVariants.{Memory};
ghost use Rattle.bb_parser.specs.Written.{is_free_name, is_quotable, can_follow, is_word, is_task, is_python_name, is_body_text, operator_text, quote_of, operation_text, export_text, gap_text, assignment_text, name_and_flag_text, flag_text, line_of_text, words_text, part_words, task_words, exports_text, function_text, needs_join, whole_line, text_of, can_be_written, Writes, Refuses};

use crate::fault::PrintFault;
use crate::quotes::times;
use crate::writable::{
    are_tasks, are_words, can_assign_flag, can_be_assigned, can_be_flagged, can_be_function,
    can_stand_behind, has_none, is_assignment, is_dropped_at_end, is_free, is_refused,
};
use bb_lexer::opens;
use meta_model::{Op, Statement};
use std::alloc::Global;
use tree_model::{Mem, Text, Texts};

/// The operator as it is written.
fn written_operator(op: Op) -> &'static str
    ensures { result.now ≡ operator_text op }
{
    match op {
        Op::Set => "=",
        Op::Now => ":=",
        Op::Soft => "?=",
        Op::Weak => "??=",
        Op::AddBlank => "+=",
        Op::PutBlank => "=+",
        Op::Add => ".=",
        Op::Put => "=.",
    }
}

/// The quote that a text is put in: a double one, but for a text that holds exactly one of them.
fn written_quote(text: &str) -> &'static str
    ensures { result.now ≡ quote_of text.now ∷ [] }
{
    if times(text.as_bytes(), b'"') == 1 {
        "'"
    } else {
        "\""
    }
}

/// Writes the operator, a blank and the text in quotes.
fn push_operation(line: &mut Text, op: Op, text: &str) -> Result<(), Mem>
    ensures { OnOk result (line.new ≡ line.old ++ operation_text op text.now) }
{
    let quote = written_quote(text);
    line.push_str(written_operator(op))?;
    line.push_str(" ")?;
    line.push_str(quote)?;
    line.push_str(text)?;
    line.push_str(quote)
}

/// The word in front of an assignment.
fn written_export(export: bool) -> &'static str
    ensures { result.now ≡ export_text export }
{
    if export { "export " } else { "" }
}

/// What stands between a name and an operator. A blank keeps the name's last character from the operator; a name that
/// would make the line Python or fakeroot as its first word has none.
fn written_gap(export: bool, name: &str) -> &'static str
    ensures { result.now ≡ gap_text export name.now }
{
    if export || !is_refused(name.as_bytes()) {
        " "
    } else {
        ""
    }
}

/// Whether the end of a line would be dropped, or would join it with the next.
fn ends_joined(line: &[u8]) -> bool
    ensures { result ≡ needs_join line.now }
{
    match line.last() {
        Some(c) => is_dropped_at_end(*c) || *c == b'\\',
        None => false,
    }
}

/// The end of a line. A line whose end would be dropped or would join it with the next is joined with an empty line,
/// which keeps its end.
fn written_end(line: &[u8]) -> &'static str
    ensures { line.now ++ result.now ≡ whole_line line.now }
{
    if ends_joined(line) { "\\\n\n" } else { "\n" }
}

/// The line with its end.
fn ended(line: Text) -> Result<Text, PrintFault>
    ensures ok { IfOk result (λ text. text ≡ whole_line line) }
    ensures err { IfErr result (λ e. e ≡ Memory) }
{
    let end = written_end(line.as_str().as_bytes());
    let mut text = line;
    text.push_str(end)?;
    Ok(text)
}

/// The line of an assignment.
fn assignment_line(alloc: Global, export: bool, name: &str, op: Op, text: &str) -> Result<Text, Mem>
    ensures { IfOk result (λ line. line ≡ assignment_text export name.now op text.now) }
{
    let mut line = Text::from_str(alloc, written_export(export))?;
    line.push_str(name)?;
    line.push_str(written_gap(export, name))?;
    push_operation(&mut line, op, text)?;
    Ok(line)
}

/// `NAME OP QUOTED`, with `export` or without.
fn written_assignment(
    alloc: Global,
    export: bool,
    name: &str,
    op: Op,
    text: &str,
) -> Result<Text, PrintFault>
    ensures ok { Writes result (is_free_name name.now && is_quotable text.now && not (is_weak op && is_late name.now))
        (whole_line (assignment_text export name.now op text.now)) }
    ensures err { Refuses result (is_free_name name.now && is_quotable text.now && not
        (is_weak op && is_late name.now)) }
{
    if !can_be_assigned(name.as_bytes(), op, text) {
        return Err(PrintFault::NoText);
    }
    ended(assignment_line(alloc, export, name, op, text)?)
}

/// The line of an assignment to a flag.
fn flag_line(alloc: Global, name: &str, flag: &str, op: Op, text: &str) -> Result<Text, Mem>
    ensures { IfOk result (λ line. line ≡ flag_text name.now flag.now op text.now) }
{
    let mut line = Text::from_str(alloc, name)?;
    push_flag(&mut line, flag)?;
    line.push_str(" ")?;
    push_operation(&mut line, op, text)?;
    Ok(line)
}

/// `NAME[FLAG] OP QUOTED`.
fn written_flag(
    alloc: Global,
    name: &str,
    flag: &str,
    op: Op,
    text: &str,
) -> Result<Text, PrintFault>
    ensures ok { Writes result (is_free_name name.now && is_flag flag.now && is_quotable text.now)
        (whole_line (flag_text name.now flag.now op text.now)) }
    ensures err { Refuses result (is_free_name name.now && is_flag flag.now && is_quotable text.now) }
{
    if !can_assign_flag(name.as_bytes(), flag.as_bytes(), text) {
        return Err(PrintFault::NoText);
    }
    ended(flag_line(alloc, name, flag, op, text)?)
}

/// Writes `[FLAG]`.
fn push_flag(line: &mut Text, flag: &str) -> Result<(), Mem>
    ensures { OnOk result (line.new ≡ line.old ++ codes "[" ++ flag.now ++ codes "]") }
{
    line.push_str("[")?;
    line.push_str(flag)?;
    line.push_str("]")
}

/// The word, a blank and a text.
fn written_behind(alloc: Global, word: &str, text: &str) -> Result<Text, Mem>
    ensures { IfOk result (λ line. line ≡ line_of_text word.now text.now) }
{
    let mut line = Text::from_str(alloc, word)?;
    line.push_str(" ")?;
    line.push_str(text)?;
    Ok(line)
}

/// `export NAME` or `unset NAME`.
fn written_name(alloc: Global, word: &str, name: &str) -> Result<Text, PrintFault>
    ensures ok { Writes result (is_free_name name.now) (whole_line (line_of_text word.now name.now)) }
    ensures err { Refuses result (is_free_name name.now) }
{
    if !is_free(name.as_bytes()) {
        return Err(PrintFault::NoText);
    }
    ended(written_behind(alloc, word, name)?)
}

/// The line that unsets a flag.
fn unset_flag_line(alloc: Global, name: &str, flag: &str) -> Result<Text, Mem>
    ensures { IfOk result (λ line. line ≡ line_of_text (codes "unset") (name_and_flag_text name.now flag.now)) }
{
    let mut line = written_behind(alloc, "unset", name)?;
    push_flag(&mut line, flag)?;
    Ok(line)
}

/// `unset NAME[FLAG]`.
fn written_unset_flag(alloc: Global, name: &str, flag: &str) -> Result<Text, PrintFault>
    ensures ok { Writes result (is_free_name name.now && is_flag flag.now)
        (whole_line (line_of_text (codes "unset") (name_and_flag_text name.now flag.now))) }
    ensures err { Refuses result (is_free_name name.now && is_flag flag.now) }
{
    if !can_be_flagged(name.as_bytes(), flag.as_bytes()) {
        return Err(PrintFault::NoText);
    }
    ended(unset_flag_line(alloc, name, flag)?)
}

/// `include TEXT`, `require TEXT` or `inherit TEXT`.
fn written_text(alloc: Global, word: &str, text: &str) -> Result<Text, PrintFault>
    ensures ok { Writes result (can_follow word.now text.now) (whole_line (line_of_text word.now text.now)) }
    ensures err { Refuses result (can_follow word.now text.now) }
{
    let line = written_behind(alloc, word, text)?;
    if !can_stand_behind(word, text, line.as_str()) {
        return Err(PrintFault::NoText);
    }
    ended(line)
}

/// The head, the body and the closing `}` of a function.
fn function_lines(alloc: Global, name: &str, body: &str) -> Result<Text, Mem>
    ensures { IfOk result (λ text. text ≡ function_text name.now ++ newline
        ∷ (body.now ++ close_brace ∷ newline ∷ [])) }
{
    let mut text = Text::from_str(alloc, name)?;
    text.push_str("() {\n")?;
    text.push_str(body)?;
    text.push_str("}\n")?;
    Ok(text)
}

/// `NAME() {`, the body and `}`.
fn written_function(alloc: Global, name: &str, body: &str) -> Result<Text, PrintFault>
    ensures ok { Writes result (is_free_name name.now && not (is_python_name name.now) && is_body_text body.now)
        (function_text name.now ++ newline ∷ (body.now ++ close_brace ∷ newline ∷ [])) }
    ensures err { Refuses result (is_free_name name.now && not (is_python_name name.now) && is_body_text body.now) }
{
    if !can_be_function(name.as_bytes(), body) {
        return Err(PrintFault::NoText);
    }
    Ok(function_lines(alloc, name, body)?)
}

/// Writes words, each behind a blank.
fn push_words(line: &mut Text, words: &[Text]) -> Result<(), Mem>
    ensures { OnOk result (line.new ≡ line.old ++ words_text words.now) }
{
    for word in words {
        line.push_str(" ")?;
        line.push_str(word.as_str())?;
    }
    Ok(())
}

/// The word and the words behind it.
fn written_list(alloc: Global, word: &str, words: &[Text]) -> Result<Text, Mem>
    ensures { IfOk result (λ line. line ≡ word.now ++ words_text words.now) }
{
    let mut line = Text::from_str(alloc, word)?;
    push_words(&mut line, words)?;
    Ok(line)
}

/// Writes a part of `addtask`, where it has words.
fn push_part(line: &mut Text, word: &str, names: &[Text]) -> Result<(), Mem>
    ensures { OnOk result (line.new ≡ line.old ++ words_text (part_words word.now names.now)) }
{
    if has_none(names) {
        return Ok(());
    }
    line.push_str(" ")?;
    line.push_str(word)?;
    push_words(line, names)
}

/// The line of `EXPORT_FUNCTIONS` and the words.
fn exports_line(alloc: Global, names: &[Text]) -> Result<Text, Mem>
    ensures { IfOk result (λ line. line ≡ exports_text names.now) }
{
    let line = written_list(alloc, "EXPORT_FUNCTIONS", names)?;
    if !is_assignment(line.as_str()) && !opens(line.as_str()) {
        return Ok(line);
    }
    let mut odd = written_list(alloc, "EXPORT_FUNCTIONS \r", names)?;
    odd.push_str(" ")?;
    Ok(odd)
}

/// `EXPORT_FUNCTIONS WORDS`.
fn written_exports(alloc: Global, names: &[Text]) -> Result<Text, PrintFault>
    ensures ok { Writes result (not (is_empty names.now) && list_all is_word names.now)
        (whole_line (exports_text names.now)) }
    ensures err { Refuses result (not (is_empty names.now) && list_all is_word names.now) }
{
    if !are_words(names) {
        return Err(PrintFault::NoText);
    }
    ended(exports_line(alloc, names)?)
}

/// The line of `addtask`, with its parts.
fn tasks_line(alloc: Global, names: &[Text], after: &[Text], before: &[Text]) -> Result<Text, Mem>
    ensures { IfOk result (λ line. line ≡ codes "addtask" ++ words_text (task_words names.now after.now before.now)) }
{
    let mut line = written_list(alloc, "addtask", names)?;
    push_part(&mut line, "after", after)?;
    push_part(&mut line, "before", before)?;
    Ok(line)
}

/// Whether `addtask` can have these parts.
fn can_be_added(names: &[Text], after: &[Text], before: &[Text]) -> bool
    ensures { result ≡ (not (is_empty names.now) && list_all is_task names.now && list_all is_task after.now &&
        list_all is_task before.now) }
{
    !has_none(names) && are_tasks(names) && are_tasks(after) && are_tasks(before)
}

/// `addtask WORDS after WORDS before WORDS`.
fn written_tasks(
    alloc: Global,
    names: &[Text],
    after: &[Text],
    before: &[Text],
) -> Result<Text, PrintFault>
    ensures ok { Writes result (not (is_empty names.now) && list_all is_task names.now && list_all is_task after.now
        && list_all is_task before.now) (whole_line (codes "addtask"
        ++ words_text (task_words names.now after.now before.now))) }
    ensures err { Refuses result (not (is_empty names.now) && list_all is_task names.now && list_all is_task after.now
        && list_all is_task before.now) }
{
    if !can_be_added(names, after, before) {
        return Err(PrintFault::NoText);
    }
    ended(tasks_line(alloc, names, after, before)?)
}

/// `deltask WORDS`.
fn written_deletions(alloc: Global, names: &[Text]) -> Result<Text, PrintFault>
    ensures ok { Writes result (not (is_empty names.now) && list_all is_task names.now)
        (whole_line (codes "deltask" ++ words_text names.now)) }
    ensures err { Refuses result (not (is_empty names.now) && list_all is_task names.now) }
{
    if has_none(names) || !are_tasks(names) {
        return Err(PrintFault::NoText);
    }
    ended(written_list(alloc, "deltask", names)?)
}

/// The text of a statement.
pub fn written(alloc: Global, statement: &Statement) -> Result<Text, PrintFault>
    ensures ok { Writes result (can_be_written statement.now) (text_of statement.now) }
    ensures err { Refuses result (can_be_written statement.now) }
{
    match statement {
        Statement::Assign {
            export,
            name,
            op,
            text,
        } => { written_assignment(alloc, *export, name.as_str(), *op, text.as_str()) }
        Statement::Flag {
            name,
            flag,
            op,
            text,
        } => { written_flag(alloc, name.as_str(), flag.as_str(), *op, text.as_str()) }
        Statement::Export { name } => written_name(alloc, "export", name.as_str()),
        Statement::Unset { name } => written_name(alloc, "unset", name.as_str()),
        Statement::UnsetFlag { name, flag } => {
            written_unset_flag(alloc, name.as_str(), flag.as_str())
        }
        Statement::Include { path } => written_text(alloc, "include", path.as_str()),
        Statement::Require { path } => written_text(alloc, "require", path.as_str()),
        Statement::Inherit { names } => written_text(alloc, "inherit", names.as_str()),
        Statement::Function { name, body } => written_function(alloc, name.as_str(), body.as_str()),
        Statement::ExportFunctions { names } => written_exports(alloc, names.as_slice()),
        Statement::AddTask {
            names,
            after,
            before,
        } => { written_tasks(alloc, names.as_slice(), after.as_slice(), before.as_slice()) }
        Statement::DelTask { names } => written_deletions(alloc, names.as_slice()),
    }
}
