// The entries that statements add.
use tree_model::{Text, Texts};

/// How an assignment changes what stands.
#[derive(Clone, Copy, Debug, PartialEq, Eq)]
pub enum Op {
    /// `=` sets the value.
    Set,
    /// `:=` sets the value to its text, expanded at once.
    Now,
    /// `?=` sets the value where there is none.
    Soft,
    /// `??=` sets the weak default.
    Weak,
    /// `+=` puts a blank and the text behind the value.
    AddBlank,
    /// `=+` puts the text and a blank in front of the value.
    PutBlank,
    /// `.=` puts the text behind the value.
    Add,
    /// `=.` puts the text in front of the value.
    Put,
}

/// An operation that counts when the value is read: the late keywords `append`, `prepend` and `remove`.
#[derive(Clone, Copy, Debug, PartialEq, Eq)]
pub enum Late {
    /// Puts its text behind the value.
    Append,
    /// Puts its text in front of the value.
    Prepend,
    /// Takes its words out of the expanded value.
    Remove,
}

/// An entry of metadata: what one statement, or a part of it, does to the names. Entries are given in the order in
/// which the statements stand. All names are exact: parts behind colons are no conditions here.
#[derive(Debug, Drop)]
pub enum EntryLine {
    /// An assignment to a name. The operation is never `Now`: its text is expanded where the entry is made.
    Set {
        name: Text,
        op: Op,
        text: Text,
    },
    /// A late operation on the target, which counts where each text of `when` is an active override.
    Later {
        target: Text,
        kind: Late,
        when: Texts,
        text: Text,
    },
    /// An assignment to a flag of a name. The operation is never `Now`.
    Flag {
        name: Text,
        flag: Text,
        op: Op,
        text: Text,
    },
    /// Takes away all that the name has.
    Unset {
        name: Text,
    },
    /// Takes away a flag of a name.
    UnsetFlag {
        name: Text,
        flag: Text,
    },
    /// EXPORT_FUNCTIONS of a function, in a class.
    Exported {
        class: Text,
        name: Text,
    },
    /// A task, with the tasks that it comes after and those that it comes before. Each name begins with `do_`.
    Task {
        task: Text,
        after: Texts,
        before: Texts,
    },
    /// Takes away a task.
    NoTask {
        task: Text,
    },
}

/// A late operation on one name, which counts where each text of `when` is an active override.
#[derive(Debug, Drop)]
pub struct LateLine {
    /// What it does.
    pub kind: Late,
    /// Its conditions.
    pub when: Texts,
    /// Its text, unexpanded.
    pub text: Text,
}
