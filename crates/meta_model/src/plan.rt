// Plans of runs.
use crate::facts::TaskId;
use crate::value::Key;
use tree_model::{ListOf, Text, Tree};

/// The most bytes of a path of an output. (Own rule.)
pub const MAX_OUTPUT_PATH: usize = 3072;

/// A task of a plan.
#[derive(Debug, Drop)]
pub struct PlanTask {
    /// The task.
    pub id: TaskId,
    /// The numbers of the tasks that it needs directly. Each is less than its own.
    pub deps: ListOf<u32>,
    /// 0 without such tasks, else one more than the deepest of them.
    pub depth: u32,
    /// What decides whether it has to run again.
    pub key: Key,
    /// Its input files, at paths of one part.
    pub files: Tree,
    /// The text that `sh` runs.
    pub script: Text,
    /// Whether it runs in each run that needs it.
    pub nostamp: bool,
    /// Whether its output is kept as a shared state object.
    pub sstate: bool,
    /// The pairs of a folder of its work tree and the folder of its output to which the first one's content goes.
    pub places: ListOf<(Text, Text)>,
}

/// What a run has to do.
#[derive(Debug, Drop)]
pub struct Plan {
    /// How many workers there are, 1 to 16.
    pub threads: u32,
    /// The numbers of the target tasks.
    pub targets: ListOf<u32>,
    /// The tasks, ascending by depth, then PN, then task.
    pub tasks: ListOf<PlanTask>,
}

/// How a run goes on.
#[derive(Clone, Copy, Debug, PartialEq, Eq)]
pub struct Options {
    /// Whether tasks that don't stand above a failed one still run.
    pub keep_going: bool,
    /// Whether shared state objects are restored.
    pub setscene: bool,
}
