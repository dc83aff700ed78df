// What words ask for.

use meta_model::Options;
use tree_model::{Text, Texts};

/// A mode that only reads metadata, and touches neither disk nor bench.
#[derive(Clone, Copy, Debug, PartialEq, Eq)]
pub enum ReadMode {
    /// Reads everything, and prints how many recipe files there were (`-p`).
    Parse,
    /// Prints the chosen version of each recipe (`-s`).
    Versions,
    /// Prints the values of the targets' recipes, or of the configuration (`-e`).
    Environment,
}

/// What is shown of targets of several configurations without a run.
#[derive(Clone, Copy, Debug, PartialEq, Eq)]
pub enum ShowMode {
    /// The plan of each configuration's targets (`-n`).
    Plan,
    /// The values of the recipes of each configuration's targets (`-e`).
    Values,
}

/// What words ask for.
#[derive(Debug, Drop)]
pub enum Asked {
    /// A run of targets of the default configuration.
    Runs(RunRequest),

    /// A run of targets of several configurations: a word begins with `mc:`.
    Configs(RunRequest),

    /// What a mode that only reads metadata prints of these targets.
    Reads { mode: ReadMode, targets: Texts },

    /// The plan of targets.
    Plans(DryRequest),

    /// What is shown of targets of several configurations: a word begins with `mc:`.
    Shows { what: ShowMode, request: RunRequest },

    /// The sample of so many recipes.
    Sample(u32),
}

/// What a dry run is asked for.
#[derive(Debug, Drop)]
pub struct DryRequest {
    /// The targets, `NAME` or `NAME:TASK`.
    pub targets: Texts,

    /// The task of the targets that name none, where one was given.
    pub task: Option<Text>,
}

/// What a run is asked for, or what is shown of several configurations.
#[derive(Debug, Drop)]
pub struct RunRequest {
    /// The targets, `NAME` or `NAME:TASK`, and of other configurations `mc:CONFIG:NAME` or `mc:CONFIG:NAME:TASK`.
    pub targets: Texts,

    /// The task of the targets that name none, where one was given.
    pub task: Option<Text>,

    /// Whether the tasks of the targets run in any case.
    pub force: bool,

    /// How the run goes on.
    pub options: Options,
}
