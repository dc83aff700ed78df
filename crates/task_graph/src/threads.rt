// The number of threads.
ghost use Rattle.std.specs.Prelude.{IfOk, IfErr};
ghost use Rattle.meta_model.specs.Threads.{AreThreads};
ghost use Rattle.task_graph.specs.Faults.{IsNoNumberOfThreads};

use crate::fault::GraphFault;
use meta_model::{skipped, unblanked};
use std::alloc::Global;
use tree_model::Text;

/// How many threads a text asks for: decimal digits of a number from 1 to 16, without a sign or leading zeros; blanks (spaces
/// and tabs) around them don't count (own rule).
///
/// `BadThreads`, with the text as it is, comes exactly where the text is no such number.
pub fn threads_of(alloc: Global, text: &str) -> Result<u32, GraphFault>
    ensures ok { IfOk result (λ threads. AreThreads text.now threads) }
    ensures err { IfErr result (IsNoNumberOfThreads text.now) }
{
    let digits = unblanked(skipped(text)).as_bytes();
    for threads in 1u32..17 {
        if threads.to_string(alloc)?.as_bytes() == digits {
            return Ok(threads);
        }
    }
    Err(GraphFault::BadThreads {
        text: Text::from_str(alloc, text)?,
    })
}
