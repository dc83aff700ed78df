// The graph of the targets, and the number of threads.
ghost use Rattle.std.specs.Prelude.{◌≡◌, ◌⊎◌, ℕ, true, false, IfOk, IfErr};
ghost use Rattle.meta_model.specs.declared.event.Status.TheVariants.{OutOfMemory};
ghost use Rattle.meta_model.specs.Threads.{AreThreads};
ghost use Rattle.answer_model.specs.Answers.{is_refusal};
ghost use Rattle.project_reading.specs.Answered.{mode_failed};
ghost use Rattle.answer_model.specs.Said.{threads_status};
ghost use Rattle.answer_model.specs.GraphStatus.{IsGraphStatus};
ghost use Rattle.target_graph.specs.Meaning.{asked_meant};
ghost use Rattle.answer_model.specs.Runs.{HasGraph, HasThreads};
ghost use Rattle.target_graph.specs.Runs.{HasNoThreads, IsDeviceStatus};

use crate::asked::{Asked, config_text};
use meta_model::{Graph, Status};
use project_reading::graph_status;
use std::alloc::Global;
use task_graph::{build, threads_of};

/// The graph of the targets.
pub(crate) fn graph_of(alloc: Global, asked: &Asked) -> Result<Graph, Status>
    ensures ok { IfOk result (HasGraph (asked_meant asked.now)) }
    ensures err { IfErr result (λ status. (status ≡ OutOfMemory)
        ⊎ IsGraphStatus asked.now.set.facts asked.now.targets status) }
    ensures refusal { IfErr result (λ status. is_refusal status ≡ true) }
    ensures no_failure { mode_failed result ≡ false }
{
    match build(alloc, asked.set.facts(), asked.targets.as_slice()) {
        Ok(graph) => Ok(graph),
        Err(fault) => Err(graph_status(alloc, fault)),
    }
}

/// The number of threads that a text stands for.
fn threads_in(alloc: Global, text: &str) -> Result<u32, Status>
    ensures ok { IfOk result (λ threads. AreThreads text.now threads) }
    ensures err { IfErr result (λ status. (status ≡ OutOfMemory)
        ⊎ (((threads : ℕ) → AreThreads text.now threads → ⊥) × (status ≡ threads_status text.now))) }
    ensures refusal { IfErr result (λ status. is_refusal status ≡ true) }
    ensures no_failure { mode_failed result ≡ false }
{
    match threads_of(alloc, text) {
        Ok(threads) => Ok(threads),
        Err(fault) => Err(graph_status(alloc, fault)),
    }
}

/// The number of threads of a run.
pub(crate) fn number_of_threads(alloc: Global, asked: &Asked) -> Result<u32, Status>
    ensures ok { IfOk result (λ threads. HasThreads (asked_meant asked.now) threads) }
    ensures err { IfErr result (λ status. IsDeviceStatus status ⊎ HasNoThreads (asked_meant asked.now) status) }
    ensures refusal { IfErr result (λ status. is_refusal status ≡ true) }
    ensures no_failure { mode_failed result ≡ false }
{
    match config_text(alloc, &asked.store, "BB_NUMBER_THREADS") {
        Ok(text) => threads_in(alloc, text.as_str()),
        Err(status) => Err(status),
    }
}
