// The run that words have.
ghost use Rattle.std.specs.Prelude.{◌≡◌, [], List, ℕ, true, false, IfOk, IfErr};
ghost use Rattle.std.specs.Option.{option_copied};
ghost use Rattle.outside_traits.specs.Fault.{Counts};
ghost use Rattle.outside_traits.specs.Store.{IsListing, SameFiles};
ghost use Rattle.load_model.specs.Loading.{sources_of};
ghost use Rattle.answer_model.specs.Answers.{is_refusal};
ghost use Rattle.project_reading.specs.Answered.{mode_failed};
ghost use Rattle.target_graph.specs.Meaning.{asked_meant};
ghost use Rattle.target_graph.specs.Runs.{HasNoRun, HasRun, IsNoRun};
ghost use Rattle.answer_model.specs.Runs.{IsRun};

use crate::asked::{Asked, read_asked};
use crate::graph::{graph_of, number_of_threads};
use meta_model::{Graph, Status};
use outside_traits::Layers;
use std::alloc::Global;
use tree_model::Text;

/// A run: what is asked for, the graph of the targets' tasks, and the number of threads.
#[derive(Drop)]
pub struct Run {
    /// What is asked for.
    pub asked: Asked,
    /// The tasks that the targets reach; at most 65,536.
    pub graph: Graph,
    /// The number of threads, 1 to 16.
    pub threads: u32,
}

/// The graph of the targets, and the number of threads.
fn graph_and_threads(alloc: Global, asked: &Asked) -> Result<(Graph, u32), Status>
    ensures ok { IfOk result (λ found. HasRun (asked_meant asked.now) found.0 found.1) }
    ensures err { IfErr result (HasNoRun (asked_meant asked.now)) }
    ensures refusal { IfErr result (λ status. is_refusal status ≡ true) }
    ensures no_failure { mode_failed result ≡ false }
{
    match graph_of(alloc, asked) {
        Ok(graph) => match number_of_threads(alloc, asked) {
            Ok(threads) => Ok((graph, threads)),
            Err(status) => Err(status),
        },
        Err(status) => Err(status),
    }
}

/// The run of what is asked for.
pub(crate) fn run_of(alloc: Global, asked: Asked) -> Result<Run, Status>
    ensures asked { IfOk result (λ run. asked_meant run.asked ≡ asked_meant asked) }
    ensures ok { IfOk result (λ run. HasRun (asked_meant asked) run.graph run.threads) }
    ensures whole { IfOk result (λ run. HasRun (asked_meant run.asked) run.graph run.threads) }
    ensures err { IfErr result (HasNoRun (asked_meant asked)) }
    ensures refusal { IfErr result (λ status. is_refusal status ≡ true) }
    ensures no_failure { mode_failed result ≡ false }
{
    match graph_and_threads(alloc, &asked) {
        Ok((graph, threads)) => Ok(Run {
            asked,
            graph,
            threads,
        }),
        Err(status) => Err(status),
    }
}

/// Finds the run that words have. `task` is the task of targets that name none, as the option `-c` gives it; where it isn't given,
/// BB_DEFAULT_TASK of the configuration counts.
///
/// - `Metadata` and `Limit`: as `answer_model` says (`IsRunRefused`): the configuration, the recipes, the default task, a word of
///   another configuration, the graph and the number of threads, in this order.
/// - `ReadFault`: only where the layers' count of faults rose in the call.
/// - `OutOfMemory`: memory ran out.
///
/// No call changes a file.
pub fn find_run<L: Layers>(
    alloc: Global,
    layers: &mut L,
    words: &[Text],
    task: Option<&Text>,
) -> Result<Run, Status>
    ensures ok { IfOk result (λ run. L.tells → (paths : List (List ℕ)) → IsListing [] (L.files layers.old) paths
        → IsRun (sources_of (L.files layers.old)) paths words.now (option_copied task.entry) (asked_meant run.asked)
        run.graph run.threads) }
    ensures whole { IfOk result (λ run. HasRun (asked_meant run.asked) run.graph run.threads) }
    ensures err { IfErr result (λ status. L.tells → (paths : List (List ℕ)) → IsListing [] (L.files layers.old) paths
        → IsNoRun (sources_of (L.files layers.old)) paths words.now (option_copied task.entry) status) }
    ensures refusal { IfErr result (λ status. is_refusal status ≡ true) }
    ensures same { SameFiles L.files layers.old layers.new }
    ensures cause { Counts (L.faults layers.old) (L.faults layers.new) (mode_failed result) }
{
    match read_asked(alloc, layers, words, task) {
        Ok(asked) => run_of(alloc, asked),
        Err(status) => Err(status),
    }
}
