// What is wrong with a case, or with what came of it.
use std::alloc::{AllocError, AllocFailed};
use tree_model::{Mem, TreeFault};

/// Why a case didn't go as wanted.
#[derive(Drop)]
pub enum Wrong {
    /// There was no memory to find out.
    Memory,
    /// A fixed sentence.
    Says(&'static str),
    /// A sentence with what was wanted and what came.
    Told(String),
}

impl From<AllocError> for Wrong {
    fn from(_: AllocError) -> Self {
        Wrong::Memory
    }
}

impl<T: Drop> From<AllocFailed<T>> for Wrong {
    fn from(_: AllocFailed<T>) -> Self {
        Wrong::Memory
    }
}

impl From<Mem> for Wrong {
    fn from(_: Mem) -> Self {
        Wrong::Memory
    }
}

impl From<TreeFault> for Wrong {
    fn from(fault: TreeFault) -> Self {
        match fault {
            TreeFault::Memory => Wrong::Memory,
            _ => Wrong::Says("a path is no clean path, or a file stands above another"),
        }
    }
}
