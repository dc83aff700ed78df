// What a run would do with a task that it needs.
use tree_model::{ListOf, Texts};

/// Why a run would run a task.
#[derive(Debug, Drop)]
pub enum Cause {
    /// It is a target's task, and the option `-f` is given.
    Forced,

    /// It runs in each run that needs it.
    Always,

    /// Its stamp names no record that is believed.
    New,

    /// Its stamp names a record from whose signature its own differs in nothing: what that tells of isn't there.
    Gone,

    /// Its stamp names a record, from whose signature its own differs in these: names of the key's lines, files, needed tasks.
    Differs(Texts),
}

/// What a run would do with a task that it needs.
#[derive(Debug, Drop)]
pub enum Fate {
    /// Its output is in its work folder.
    Found,

    /// Its output is put there from a shared state object.
    Restored,

    /// It is so where a task that needs it runs, which isn't known yet.
    MayRestore,

    /// It runs.
    Runs(Cause),

    /// It may run: its name depends on what these needed tasks will give, by their numbers.
    MayRun(ListOf<u32>),

    /// It runs where a task that needs it runs, which isn't known yet.
    MayNeed,
}
