// A call of a disk, as a story keeps it.
use tree_model::{Entry, Text};

/// A call that a disk answered, with what its paths held before it. By the calls of a disk its story tells what a crash
/// may leave. A call that was refused for want of memory is none of them. (Own rule.)
#[derive(Debug, Drop)]
pub enum Call {
    /// A read or a list, or a sync or the end of a ticket that failed.
    Looked,

    /// A sync that answered Ok.
    Synced,

    /// The end of a ticket that answered Ok: all that was called up to this moment is durable.
    Ended {
        moment: u64,
    },

    /// A write or a removal at the path, which answered Ok or failed; `was` is what the path held before.
    Put {
        path: Text,
        was: Option<Entry>,
    },

    /// A rename, which answered Ok or failed; `was` is what the source held before, and `replaced` what the target did.
    Moved {
        from: Text,
        to: Text,
        was: Option<Entry>,
        replaced: Option<Entry>,
    },
}
