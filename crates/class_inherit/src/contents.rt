// What files hold.
ghost use Rattle.std.specs.Prelude.{◌≡◌, ◌≤◌, IfOk, IfErr, option_map, length};
ghost use Rattle.bb_parser.specs.Faults.{named};
ghost use Rattle.outside_traits.specs.Fault.{Counts};
ghost use Rattle.outside_traits.specs.Store.{SameFiles};
ghost use Rattle.load_model.specs.Loading.{most_bytes, contents_of, sources_of};
ghost use Rattle.class_inherit.specs.Faults.{IsUntold, load_failed};
ghost use Rattle.class_inherit.specs.Reading.{contents_meant};

use crate::fault::{LoadFault, layers_failed, out_of_memory};
use bb_parser::{ParseFault, ParseKind, Statements, parse};
use meta_model::{Kind, SyntaxFault};
use outside_traits::{Layers, ReadFault};
use std::alloc::Global;
use tree_model::{Mem, Text};

/// The most bytes of a file (own rule).
const MOST_BYTES: u64 = 1_048_576;

/// What a file holds.
#[derive(Drop)]
pub(crate) enum Contents {
    /// Its statements.
    Whole(Statements),
    /// It has this first fault, at this line.
    Faulty { line: u32, wrong: SyntaxFault },
    /// It has more than 1,048,576 bytes.
    TooLong,
}

/// A file that was found.
#[derive(Drop)]
pub(crate) struct Found {
    pub(crate) path: Text,
    pub(crate) contents: Contents,
}

/// What is wrong with a file, unless memory ran out.
fn syntax_fault(kind: ParseKind) -> Option<SyntaxFault>
    ensures { result ≡ named kind }
{
    match kind {
        ParseKind::BadLine => Some(SyntaxFault::BadLine),
        ParseKind::OpenFunction => Some(SyntaxFault::OpenFunction),
        ParseKind::Python => Some(SyntaxFault::Python),
        ParseKind::Fakeroot => Some(SyntaxFault::Fakeroot),
        ParseKind::ReservedName => Some(SyntaxFault::ReservedName),
        ParseKind::OneInnerQuote => Some(SyntaxFault::OneInnerQuote),
        ParseKind::NotUtf8 => Some(SyntaxFault::NotUtf8),
        ParseKind::DanglingJoin => Some(SyntaxFault::DanglingJoin),
        ParseKind::CommentInJoin => Some(SyntaxFault::CommentInJoin),
        ParseKind::Memory => None,
    }
}

/// What the bytes of a file hold.
fn contents_of(alloc: Global, kind: Kind, bytes: &[u8]) -> Result<Contents, Mem>
    requires { length bytes.now ≤ most_bytes }
    ensures { IfOk result (λ made. contents_meant made ≡ contents_of kind bytes.now) }
{
    match parse(alloc, kind, bytes) {
        Ok(list) => Ok(Contents::Whole(list)),
        Err(ParseFault { line, kind }) => match syntax_fault(kind) {
            Some(wrong) => Ok(Contents::Faulty { line, wrong }),
            None => Err(Mem),
        },
    }
}

/// What a file at a path holds; None where there is no file. The file is read once.
pub(crate) fn contents_at<L: Layers>(
    alloc: Global,
    layers: &mut L,
    kind: Kind,
    path: &str,
) -> Result<Option<Contents>, LoadFault>
    ensures ok { IfOk result (λ found. L.tells → option_map contents_meant found
        ≡ sources_of (L.files layers.old) path.now kind) }
    ensures err { IfErr result IsUntold }
    ensures same { SameFiles L.files layers.old layers.new }
    ensures cause { Counts (L.faults layers.old) (L.faults layers.new) (load_failed result) }
{
    match layers.read(alloc, path, MOST_BYTES) {
        Ok(Some(bytes)) => match contents_of(alloc, kind, bytes.as_slice()) {
            Ok(contents) => Ok(Some(contents)),
            Err(_) => Err(out_of_memory(alloc)),
        },
        Ok(None) => Ok(None),
        Err(ReadFault::TooLong) => Ok(Some(Contents::TooLong)),
        Err(ReadFault::Failed) => Err(layers_failed(alloc)),
        Err(ReadFault::Memory) => Err(out_of_memory(alloc)),
    }
}
