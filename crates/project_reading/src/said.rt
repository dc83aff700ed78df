// The statuses that refusals of metadata are answered as.
ghost use Rattle.std.specs.Prelude.{◌≡◌, ◌∷◌, [], IfOk};
ghost use Rattle.std.specs.List.{join_with_byte};
ghost use Rattle.meta_model.specs.Text.{colon};
ghost use Rattle.meta_model.specs.declared.event.Status.TheVariants as status;
ghost use Rattle.meta_model.specs.Refusal.{unstable};
ghost use Rattle.datastore.specs.Faults.{refusal_of, data_refusal};
ghost use Rattle.answer_model.specs.Said as said;
ghost use Rattle.project_reading.specs.Faults.{IsAnswered, IsAnsweredAs, IsLoadAnswer};

use class_inherit::{LoadFault, LoadKind};
use datastore::DataFault;
use meta_model::{Status, SyntaxFault};
use std::alloc::Global;
use tree_model::{Mem, Text, Texts};
use var_expand::ExpandFault;

/// The name of a fault of the language, as it is printed.
fn syntax_name(fault: SyntaxFault) -> &'static str
    ensures { result.now ≡ said.syntax_name fault }
{
    match fault {
        SyntaxFault::NotUtf8 => "NotUtf8",
        SyntaxFault::DanglingJoin => "DanglingJoin",
        SyntaxFault::CommentInJoin => "CommentInJoin",
        SyntaxFault::Python => "Python",
        SyntaxFault::Fakeroot => "Fakeroot",
        SyntaxFault::OneInnerQuote => "OneInnerQuote",
        SyntaxFault::ReservedName => "ReservedName",
        SyntaxFault::BadLine => "BadLine",
        SyntaxFault::OpenFunction => "OpenFunction",
    }
}

/// A fault of metadata of this kind, with texts.
pub fn metadata(alloc: Global, file: Text, line: u32, kind: &str, detail: Texts) -> Status
    ensures { IsAnswered result (status.Metadata file line kind.now detail) }
{
    match Text::from_str(alloc, kind) {
        Ok(kind) => Status::Metadata {
            file,
            line,
            kind,
            detail,
        },
        Err(_) => Status::OutOfMemory,
    }
}

/// A list of one text.
fn one(alloc: Global, text: Text) -> Result<Texts, Mem>
    ensures { IfOk result (λ made. made ≡ text ∷ []) }
{
    let mut made = Texts::new(alloc);
    made.push(text)?;
    Ok(made)
}

/// A list of two texts.
fn two(alloc: Global, first: Text, second: Text) -> Result<Texts, Mem>
    ensures { IfOk result (λ made. made ≡ first ∷ second ∷ []) }
{
    let mut made = Texts::new(alloc);
    made.push(first)?;
    made.push(second)?;
    Ok(made)
}

/// A fault of metadata of this kind, with one text.
pub fn named(alloc: Global, file: Text, line: u32, kind: &str, name: Text) -> Status
    ensures { IsAnswered result (status.Metadata file line kind.now (name ∷ [])) }
{
    match one(alloc, name) {
        Ok(detail) => metadata(alloc, file, line, kind, detail),
        Err(_) => Status::OutOfMemory,
    }
}

/// A fault of metadata of this kind alone.
pub(crate) fn plain(alloc: Global, file: Text, line: u32, kind: &str) -> Status
    ensures { IsAnswered result (status.Metadata file line kind.now []) }
{
    metadata(alloc, file, line, kind, Texts::new(alloc))
}

/// A limit of this kind that was passed.
pub fn limit(alloc: Global, kind: &str) -> Status
    ensures { IsAnswered result (status.Limit kind.now) }
{
    match Text::from_str(alloc, kind) {
        Ok(kind) => Status::Limit { kind },
        Err(_) => Status::OutOfMemory,
    }
}

/// Texts with colons between them.
fn joined(alloc: Global, texts: &[Text]) -> Result<Text, Mem>
    ensures { IfOk result (λ made. made ≡ join_with_byte colon texts.now) }
{
    let mut made = Text::new(alloc);
    let mut before = "";
    for text in texts {
        made.push_str(before)?;
        made.push_str(text.as_str())?;
        before = ":";
    }
    Ok(made)
}

/// The texts of overrides that don't settle.
fn unsettled_texts(alloc: Global, before: &[Text], last: &[Text]) -> Result<Texts, Mem>
    ensures { IfOk result (λ made. made ≡ join_with_byte colon before.now ∷ join_with_byte colon last.now ∷ []) }
{
    let first = joined(alloc, before)?;
    let second = joined(alloc, last)?;
    two(alloc, first, second)
}

/// Overrides that don't settle.
fn unsettled(alloc: Global, file: Text, line: u32, before: &[Text], last: &[Text]) -> Status
    ensures { IsAnswered result (said.value_status file line (unstable before.now last.now)) }
{
    match unsettled_texts(alloc, before, last) {
        Ok(detail) => metadata(alloc, file, line, "Unstable", detail),
        Err(_) => Status::OutOfMemory,
    }
}

/// A text that can't be expanded.
fn expand_status(alloc: Global, file: Text, line: u32, fault: ExpandFault) -> Status
    ensures { IsAnsweredAs result (said.value_status file line) (refusal_of fault) }
{
    match fault {
        ExpandFault::ValueCycle { name } => named(alloc, file, line, "ValueCycle", name),
        ExpandFault::TooDeep { name } => named(alloc, file, line, "TooDeep", name),
        ExpandFault::TooLong { name } => named(alloc, file, line, "TooLong", name),
        ExpandFault::Unstable { before, last } => {
            unsettled(alloc, file, line, before.as_slice(), last.as_slice())
        }
        ExpandFault::Memory => Status::OutOfMemory,
    }
}

/// The status of a value that is refused, at a place; without a file the path is empty, and without a line it is 0. Want of
/// memory alone is free.
pub fn value_status(alloc: Global, file: Text, line: u32, fault: DataFault) -> Status
    ensures { IsAnsweredAs result (said.value_status file line) (data_refusal fault) }
{
    match fault {
        DataFault::Unstable { before, last } => {
            unsettled(alloc, file, line, before.as_slice(), last.as_slice())
        }
        DataFault::Expand(fault) => expand_status(alloc, file, line, fault),
        DataFault::Memory => Status::OutOfMemory,
    }
}

/// The status of files that can't be loaded.
pub(crate) fn load_status(alloc: Global, fault: LoadFault) -> Status
    ensures { IsLoadAnswer fault result }
{
    let LoadFault { file, line, kind } = fault;
    match kind {
        LoadKind::MissingRequired { path } => named(alloc, file, line, "MissingRequired", path),
        LoadKind::MissingClass { name } => named(alloc, file, line, "MissingClass", name),
        LoadKind::IncludeDepth => plain(alloc, file, line, "IncludeDepth"),
        LoadKind::Read => Status::ReadFault,
        LoadKind::Parse(fault) => plain(alloc, file, line, syntax_name(fault)),
        LoadKind::Data(fault) => value_status(alloc, file, line, fault),
        LoadKind::FileBytes => limit(alloc, "FileBytes"),
        LoadKind::Memory => Status::OutOfMemory,
    }
}
