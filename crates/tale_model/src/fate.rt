// What has become of a task.

/// What has become of a task in a run.
#[derive(Clone, Copy, Debug, PartialEq, Eq)]
pub enum Fate {
    /// It was neither settled nor started, or it broke off.
    Waiting,
    /// It runs under the seat of this number.
    Running { seat: u32 },
    /// Its work folder had its output.
    Found,
    /// Its output was restored.
    Restored,
    /// It ran to its end.
    Ended,
    /// It failed.
    Failed,
}
