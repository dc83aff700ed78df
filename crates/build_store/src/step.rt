// What a step of an open publication came to.
use tree_model::Hash;

/// What a step of an open publication came to.
#[derive(Clone, Copy, Debug, PartialEq, Eq)]
pub enum Step {
    /// No publication of the task with this signature is open. Nothing was changed.
    NotOpen,
    /// More is left: another step is wanted.
    More,
    /// More is left: another step is wanted, once the system has synced what the disk stands on, begun behind this call.
    Wait,
    /// All is done: the task's unihash.
    Done(Hash),
}
