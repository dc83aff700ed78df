// Statements.
use crate::entry::Op;
use tree_model::{Text, Texts};

/// A statement of a file. Texts are as they are written, unexpanded; a name may hold references and colons.
#[derive(Debug, Drop)]
pub enum Statement {
    /// `NAME = "TEXT"`, with any operator; `export` says that `export` stands in front.
    Assign {
        export: bool,
        name: Text,
        op: Op,
        text: Text,
    },
    /// `NAME[FLAG] = "TEXT"`, with any operator.
    Flag {
        name: Text,
        flag: Text,
        op: Op,
        text: Text,
    },
    /// `export NAME`.
    Export {
        name: Text,
    },
    /// `unset NAME`.
    Unset {
        name: Text,
    },
    /// `unset NAME[FLAG]`.
    UnsetFlag {
        name: Text,
        flag: Text,
    },
    /// `include TEXT`.
    Include {
        path: Text,
    },
    /// `require TEXT`.
    Require {
        path: Text,
    },
    /// `inherit TEXT`.
    Inherit {
        names: Text,
    },
    /// `NAME() {`, a body and `}`. The body has each of its lines with a newline.
    Function {
        name: Text,
        body: Text,
    },
    /// `EXPORT_FUNCTIONS WORDS`.
    ExportFunctions {
        names: Texts,
    },
    /// `addtask WORDS after WORDS before WORDS`. Each name begins with `do_`; a part that isn't written is empty.
    AddTask {
        names: Texts,
        after: Texts,
        before: Texts,
    },
    /// `deltask WORDS`. Each name begins with `do_`.
    DelTask {
        names: Texts,
    },
}
