// Why there is no task graph.
ghost use Rattle.std.specs.Prelude.{◌≡◌};
ghost use Rattle.task_graph.specs.Faults.{IsWantOfMemory};

use meta_model::TaskId;
use std::alloc::{AllocError, AllocFailed};
use std::error::Error;
use std::fmt;
use std::fmt::Formatter;
use tree_model::{ListOf, Mem, Text, Texts};

/// Why a name has no provider, why there is no task graph, why a text is no number of threads; or want of memory.
#[derive(Drop)]
pub enum GraphFault {
    /// The provider of a name lacks this task, which a target or a word of `[depends]` names.
    NoSuchTask { pn: Text, task: Text },
    /// Each of these tasks needs the next one, and the last one needs the first, which is the least by PN and task.
    TaskCycle { tasks: ListOf<TaskId> },
    /// No recipe provides this name; or the word of `[depends]` has no colon.
    NothingProvides { name: Text },
    /// Several recipes provide this name and none is preferred; their PNs, in byte order.
    SeveralProvide { name: Text, pns: Texts },
    /// More than 65,536 tasks are reached (own rule).
    Tasks,
    /// The text is no number of threads, which is 1 to 16 (own rule).
    BadThreads { text: Text },
    /// Memory ran out.
    Memory,
}

impl GraphFault {
    /// What is wrong, in words.
    fn message(&self) -> &'static str {
        match self {
            GraphFault::NoSuchTask { pn: _, task: _ } => "there is no such task",
            GraphFault::TaskCycle { tasks: _ } => "tasks need each other",
            GraphFault::NothingProvides { name: _ } => "nothing provides the name",
            GraphFault::SeveralProvide { name: _, pns: _ } => "several recipes provide the name",
            GraphFault::Tasks => "too many tasks",
            GraphFault::BadThreads { text: _ } => "no number of threads",
            GraphFault::Memory => "out of memory",
        }
    }
}

impl fmt::Display for GraphFault {
    fn fmt<W: fmt::Write>(&self, f: &mut Formatter<W>) -> fmt::Result {
        f.write_str(self.message())
    }
}

impl fmt::Debug for GraphFault {
    fn fmt<W: fmt::Write>(&self, f: &mut Formatter<W>) -> fmt::Result {
        f.write_str(self.message())
    }
}

impl Error for GraphFault {}

impl From<Mem> for GraphFault {
    ghost from_gives = { λ _ fault. IsWantOfMemory fault };

    fn from(_: Mem) -> GraphFault {
        GraphFault::Memory
    }
}

impl From<AllocError> for GraphFault {
    ghost from_gives = { λ _ fault. IsWantOfMemory fault };

    fn from(_: AllocError) -> GraphFault {
        GraphFault::Memory
    }
}

impl<T: Drop> From<AllocFailed<T>> for GraphFault {
    ghost from_gives = { λ _ fault. IsWantOfMemory fault };

    fn from(_: AllocFailed<T>) -> GraphFault {
        GraphFault::Memory
    }
}
