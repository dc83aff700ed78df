// What is next in a run.

/// What is next in a run.
#[derive(Clone, Copy, Debug, PartialEq, Eq)]
pub enum Next {
    /// The output of this task is there, and it can be found or restored.
    Settle(u32),
    /// This task can be started.
    Start(u32),
    /// Nothing, until a task that runs ends, fails or breaks off.
    Wait,
    /// Nothing is left to do.
    Finished,
    /// Nothing, since a task failed.
    Stopped,
}
