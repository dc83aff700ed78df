// Why a file has no logical lines.
ghost use Rattle.std.specs.Prelude.{◌≡◌};
ghost use Rattle.bb_lexer.specs.Faults.{IsWantOfMemory};

use thiserror::Error;
use tree_model::Mem;

/// What was wrong.
#[derive(Clone, Copy, Debug, PartialEq, Eq, Error)]
pub enum LexKind {
    /// The file isn't UTF-8; the line is that of the first byte that is no part of a character (own rule).
    #[error("the file isn't UTF-8")]
    NotUtf8,
    /// The last line of the file ends with a backslash ("Syntax and Operators", "Line Joining"); the line is the
    /// first one of the join.
    #[error("a join goes on behind the end of the file")]
    DanglingJoin,
    /// A comment stands where a joined line goes on (own rule); the line is the comment's.
    #[error("a comment stands inside a join")]
    CommentInJoin,
    /// Memory ran out. The fault has no line.
    #[error("memory ran out")]
    Memory,
}

/// The first fault of a file against the line rules, or want of memory.
#[derive(Clone, Copy, Debug, PartialEq, Eq, Error)]
#[error("{kind}")]
pub struct LexFault {
    /// The number of the physical line at fault, from 1; 0 where memory ran out.
    pub line: u32,
    /// What was wrong.
    pub kind: LexKind,
}

impl From<Mem> for LexFault {
    ghost from_gives = { λ _ fault. IsWantOfMemory fault };

    fn from(_: Mem) -> LexFault {
        LexFault {
            line: 0,
            kind: LexKind::Memory,
        }
    }
}
