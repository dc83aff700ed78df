// Files, their lines, and what can be wrong with them.
use tree_model::Text;

/// What a file of metadata is. It decides which statements may stand in it.
#[derive(Clone, Copy, Debug, PartialEq, Eq)]
pub enum Kind {
    /// A configuration file, as `conf/bitbake.conf`.
    Conf,
    /// A recipe, or an append of one.
    Recipe,
    /// A class.
    Class,
}

/// Where a logical line stands.
#[derive(Clone, Copy, Debug, PartialEq, Eq)]
pub enum Place {
    /// Outside function bodies.
    Plain,
    /// In a function body.
    Body,
    /// The `}` that ends a function body.
    Close,
}

/// A logical line of a file: physical lines, joined where a backslash ends them.
#[derive(Debug, Drop)]
pub struct Line {
    /// The number of its first physical line, from 1.
    pub number: u32,
    /// Where it stands.
    pub place: Place,
    /// Its text, in UTF-8, without the blanks and carriage returns at the ends of its physical lines.
    pub text: Text,
}

/// What can be wrong with the lines of a file.
#[derive(Clone, Copy, Debug, PartialEq, Eq)]
pub enum SyntaxFault {
    /// The file isn't UTF-8.
    NotUtf8,
    /// The last line of the file ends with a backslash.
    DanglingJoin,
    /// A comment stands where a joined line goes on.
    CommentInJoin,
    /// The line is Python, or holds a piece of it.
    Python,
    /// The line begins with `fakeroot`.
    Fakeroot,
    /// A quoted text holds exactly one quote of the kind that ends it.
    OneInnerQuote,
    /// The statement gives something to a name that the program sets.
    ReservedName,
    /// The line has no form of the file's kind.
    BadLine,
    /// The file ends in a function body.
    OpenFunction,
}
