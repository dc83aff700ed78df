// What happens in a run, and how it ends.
use tree_model::{Bytes, Hash, Manifest, Text, Texts};

/// Whether the output of a task is there already.
#[derive(Clone, Copy, Debug, PartialEq, Eq)]
pub enum Avail {
    /// It isn't.
    Missing,
    /// In the task's work folder.
    Work,
    /// As a shared state object.
    Object,
}

/// Why a task failed.
#[derive(Clone, Copy, Debug, PartialEq, Eq)]
pub enum Why {
    /// Its script ended with this status, which isn't 0.
    Status(u32),
    /// Its layout or its output passes a limit.
    TooLarge,
}

/// Why a task was broken off.
#[derive(Clone, Copy, Debug, PartialEq, Eq)]
pub enum Cut {
    /// Memory was wanting.
    Memory,
    /// Its bench failed.
    Bench,
    /// The run ended by another fault.
    Fault,
}

/// An event of a run. Tasks are numbers of the plan, from 0.
#[derive(Clone, Copy, Debug, PartialEq, Eq)]
pub enum Event {
    /// The task's work folder has its output already.
    Found { task: u32 },
    /// The task's output was restored from its object.
    Restored { task: u32 },
    /// The task began to run at a seat.
    Started { task: u32, seat: u32 },
    /// The task ran to its end, and its output is kept.
    Ended { task: u32 },
    /// The task failed.
    Failed { task: u32, why: Why },
    /// The task was broken off. It may be started again.
    Broke { task: u32, cut: Cut },
}

/// An entry of a run's tale.
#[derive(Clone, Copy, Debug, PartialEq, Eq)]
pub struct Logged {
    /// The event.
    pub event: Event,
    /// The number of the seat that marked it.
    pub seat: u32,
    /// The disk's moment at the end of its turn.
    pub moment: u64,
}

/// How a run ended.
#[derive(Debug, Drop)]
pub enum Status {
    /// All that was asked for is there.
    Ok,
    /// A task failed.
    TaskFailed,
    /// The command's words can't be read.
    Usage,
    /// The metadata is at fault: the path of the file, or an empty text, and the number of the line, or 0; the kind of the
    /// fault, and the texts that belong to it.
    Metadata {
        file: Text,
        line: u32,
        kind: Text,
        detail: Texts,
    },
    /// The disk failed.
    DiskFault,
    /// A bench failed.
    BenchFault,
    /// The layers could not be read.
    ReadFault,
    /// The output could not be written.
    WriteFault,
    /// Two different signatures have one hash as their name: the one that the store holds and the one of a task of the plan,
    /// each as it is encoded. Its line is `fault 8 collision`, a blank and the text of the hash.
    Collision {
        name: Hash,
        held: Bytes,
        given: Bytes,
    },
    /// A task gave another output than the one that its stored record tells of: the manifests of the two. Its line is
    /// `fault 9 unsteady`, a blank, the PN, a colon and the task.
    Unsteady {
        pn: Text,
        task: Text,
        held: Manifest,
        given: Manifest,
    },
    /// A limit of this kind was passed.
    Limit {
        kind: Text,
    },
    /// Memory was wanting.
    OutOfMemory,
    /// The mirror of shared state failed.
    MirrorFault,
}

impl Status {
    ghost use Rattle.std.specs.Prelude.{◌≡◌};
    ghost use Rattle.meta_model.specs.ExitStatus.{exit_status};

    /// The exit status of the program.
    pub fn code(&self) -> u8
        ensures { result ≡ exit_status self.now }
    {
        match self {
            Status::Ok => 0,
            Status::TaskFailed => 1,
            Status::Usage => 2,
            Status::Metadata { .. } => 3,
            Status::DiskFault => 4,
            Status::BenchFault => 5,
            Status::ReadFault => 6,
            Status::WriteFault => 7,
            Status::Collision { .. } => 8,
            Status::Unsteady { .. } => 9,
            Status::Limit { .. } => 10,
            Status::OutOfMemory => 11,
            Status::MirrorFault => 12,
        }
    }
}
