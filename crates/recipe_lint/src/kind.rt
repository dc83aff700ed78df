// The kinds of remarks.

/// What a remark is about. A kind is switched off where BB_LINT_SKIP of the configuration has its name.
#[derive(Clone, Copy, Debug, PartialEq, Eq, PartialOrd, Ord)]
pub enum RemarkKind {
    /// A task has no function of its name, and isn't `[noexec]`.
    NoFunction,
    /// An order or a flag is of a task that isn't there.
    NoTask,
    /// Nothing reads a flag, whose name is near to one that is read.
    UnknownFlag,
    /// A name has the old spelling of an override.
    OldOverride,
    /// A variable or a flag of BitBake's has no effect here.
    NoEffect,
    /// Nothing includes `conf/local.conf`.
    NotIncluded,
    /// No task builds what DEPENDS names.
    UnusedDepends,
    /// No recipe has the version that is preferred.
    NoVersion,
    /// The recipe that is preferred doesn't provide the name.
    NoProvider,
    /// Two recipes have one name, version and revision.
    SameVersion,
    /// Two input files of a task have one name.
    SameInput,
    /// A name in a value is set nowhere.
    UnsetName,
    /// The caller's environment has a name that the configuration sets as a default.
    Environment,
}

impl RemarkKind {
    /// The kind's name, as it is printed and as BB_LINT_SKIP has it.
    pub fn name(self) -> &'static str {
        match self {
            RemarkKind::NoFunction => "no-function",
            RemarkKind::NoTask => "no-task",
            RemarkKind::UnknownFlag => "unknown-flag",
            RemarkKind::OldOverride => "old-override",
            RemarkKind::NoEffect => "no-effect",
            RemarkKind::NotIncluded => "not-included",
            RemarkKind::UnusedDepends => "unused-depends",
            RemarkKind::NoVersion => "no-version",
            RemarkKind::NoProvider => "no-provider",
            RemarkKind::SameVersion => "same-version",
            RemarkKind::SameInput => "same-input",
            RemarkKind::UnsetName => "unset-name",
            RemarkKind::Environment => "environment",
        }
    }
}
