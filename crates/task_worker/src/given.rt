// A job, and what comes of it.
use meta_model::TaskId;
use outside_traits::BenchFault;
use tree_model::{ListOf, Manifest, Mem, Text, Tree};

/// Whose work a job is, and how the task's output is taken from its work tree.
#[derive(Debug, Drop)]
pub struct Placing {
    /// The task, by which a bench may choose a place for its work.
    pub id: TaskId,
    /// Whether the output is kept as a shared state object.
    pub sstate: bool,
    /// Of such a task: folders of the work tree, each with the folder of the output to which it goes.
    pub places: ListOf<(Text, Text)>,
}

/// One task's work: the number of the task, its script, what is laid out for it, and how its output is taken.
#[derive(Debug, Drop)]
pub struct Job {
    /// The number of the task in its plan.
    pub task: u32,
    /// The text that `sh` runs.
    pub script: Text,
    /// The tree that the script is run over.
    pub layout: Tree,
    /// How the output is taken.
    pub placing: Placing,
}

/// What a job gives.
#[derive(Debug, Drop)]
pub enum Given {
    /// The task's output, and its manifest, so that nobody has to read it again to have that.
    Tree {
        /// The output.
        tree: Tree,
        /// Its manifest.
        manifest: Manifest,
    },
    /// The script failed with this status, which isn't 0.
    Fails {
        status: u32,
    },
    /// The script's tree or the output is beyond the limits.
    TooLarge,
}

/// Why a job wasn't done.
#[derive(Clone, Copy, Debug, PartialEq, Eq)]
pub enum WorkFault {
    /// Want of memory.
    Memory,
    /// The bench failed; its count of faults rose.
    Bench,
}

impl From<Mem> for WorkFault {
    ghost use Rattle.std.specs.Prelude.{◌≡◌};
    ghost use Rattle.task_worker.specs.declared.given.WorkFault.TheVariants as work;

    ghost from_gives = { λ _ e. e ≡ work.Memory };

    fn from(_: Mem) -> Self {
        WorkFault::Memory
    }
}
