// What the program is asked to do.

use tree_model::{Text, Texts};

/// What the words behind the program's name ask for. Each field says what stood there; which mode counts says `specs/RequestModes`.
#[derive(Debug, Drop)]
pub struct Request {
    /// The words that belong to no option, `NAME` or `NAME:TASK`, in their order and as they were written.
    pub targets: Texts,
    /// `-c TASK`: the task of the targets that name none.
    pub task: Option<Text>,
    /// `-f`: the targets' tasks run even where nothing changed.
    pub force: bool,
    /// `-k`: go on after failures.
    pub keep_going: bool,
    /// `-n`: print the plan.
    pub dry: bool,
    /// `-e`: print the values of the targets' recipes, or of the configuration.
    pub env: bool,
    /// `-s`: print the chosen versions.
    pub show: bool,
    /// `-p`: read everything.
    pub parse_only: bool,
    /// False with `--no-setscene`: objects don't count as available.
    pub setscene: bool,
    /// `--sample N`: run the generated input of this size, 1 to 1,000.
    pub sample: Option<u32>,
}

/// What a request is for.
#[derive(Clone, Copy, Debug, PartialEq, Eq)]
pub enum Mode {
    /// Run the generated input of this size, 1 to 1,000.
    Sample(u32),
    /// Read everything.
    Parse,
    /// Print the chosen versions.
    Versions,
    /// Print values.
    Environment,
    /// Print the plan.
    Dry,
    /// Run the targets.
    Run,
}
