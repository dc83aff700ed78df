// What is wrong with a file.
ghost use Rattle.std.specs.Prelude.{◌≡◌};
ghost use Rattle.bb_parser.specs.declared.fault.ParseKind.TheVariants.{Memory};
ghost use Rattle.bb_parser.specs.declared.fault.PrintFault.TheVariants as unwritten;
ghost use Rattle.bb_parser.specs.Faults.{is_memory};

use std::fmt;
use std::fmt::Formatter;
use thiserror::Error;
use tree_model::Mem;

/// The kind of a fault. On one line the first in this order is answered: Python, Fakeroot, OneInnerQuote,
/// ReservedName, BadLine, OpenFunction (own rule).
#[derive(Clone, Copy, PartialEq, Eq)]
pub enum ParseKind {
    /// The line has no form of the file's kind.
    BadLine,
    /// The file ends in the body of a function; the line is that of the function's head.
    OpenFunction,
    /// The line, or the body that it opens, is Python or holds a piece of it.
    Python,
    /// The first word of the line is `fakeroot`.
    Fakeroot,
    /// The statement gives something to a name that the program sets.
    ReservedName,
    /// A quoted text holds exactly one quote of the kind that ends it.
    OneInnerQuote,
    /// The file isn't UTF-8; the line is that of the first byte that is no part of a character.
    NotUtf8,
    /// The last line of the file ends with a backslash; the line is the first of those that are joined.
    DanglingJoin,
    /// A comment stands where a joined line goes on.
    CommentInJoin,
    /// Memory ran out.
    Memory,
}

impl ParseKind {
    /// What is wrong, in words.
    fn message(self) -> &'static str {
        match self {
            ParseKind::BadLine => "no statement of this kind of file",
            ParseKind::OpenFunction => "the function has no end",
            ParseKind::Python => "Python is not supported",
            ParseKind::Fakeroot => "fakeroot is not supported",
            ParseKind::ReservedName => "the name is set by the program",
            ParseKind::OneInnerQuote => "one quote inside a quoted text",
            ParseKind::NotUtf8 => "the file is not UTF-8",
            ParseKind::DanglingJoin => "nothing follows the last backslash",
            ParseKind::CommentInJoin => "a comment inside a joined line",
            ParseKind::Memory => "out of memory",
        }
    }
}

impl fmt::Display for ParseKind {
    fn fmt<W: fmt::Write>(&self, f: &mut Formatter<W>) -> fmt::Result {
        f.write_str(self.message())
    }
}

impl fmt::Debug for ParseKind {
    fn fmt<W: fmt::Write>(&self, f: &mut Formatter<W>) -> fmt::Result {
        f.write_str(self.message())
    }
}

impl std::error::Error for ParseKind {}

/// The first fault of a file.
#[derive(Clone, Copy, Debug, PartialEq, Eq, Error)]
#[error("line {line}: {kind}")]
pub struct ParseFault {
    /// The number of the line at fault, from 1; 0 where memory ran out.
    pub line: u32,
    /// What is wrong.
    pub kind: ParseKind,
}

impl From<Mem> for ParseFault {
    ghost from_gives = { λ _ e. is_memory e };

    fn from(_: Mem) -> ParseFault {
        ParseFault {
            line: 0,
            kind: ParseKind::Memory,
        }
    }
}

impl From<Mem> for ParseKind {
    ghost from_gives = { λ _ e. e ≡ Memory };

    fn from(_: Mem) -> ParseKind {
        ParseKind::Memory
    }
}

/// Why a statement isn't written.
#[derive(Clone, Copy, Debug, PartialEq, Eq, Error)]
pub enum PrintFault {
    /// No text gives the statement, as where its name has a newline.
    #[error("no text gives the statement")]
    NoText,
    /// Memory ran out.
    #[error("out of memory")]
    Memory,
}

impl From<Mem> for PrintFault {
    ghost from_gives = { λ _ e. e ≡ unwritten.Memory };

    fn from(_: Mem) -> PrintFault {
        PrintFault::Memory
    }
}
