// One run of a bench.
ghost use Rattle.std.specs.Prelude.{◌≡◌, ◌⊎◌, [], true, IfOk, OnOk, Ok, IsTrue, not, ◌↔◌, All, length, ◌≤◌};
ghost use Rattle.tree_model.specs.Tree.{IsTree};
ghost use Rattle.outside_traits.specs.Fault.{Counts, bench_failed};
ghost use Rattle.outside_traits.specs.Bench.{Gave, IsTaken};
ghost use Rattle.meta_model.specs.CleanBuild.{Entries, clean_output, is_beyond, limited, output_limit};
ghost use Rattle.task_worker.specs.Jobs.{IsLaid, RanJob};
ghost use Rattle.task_worker.specs.Left.{IsLeft, left_outcome};

use crate::given::Job;
use meta_model::MAX_OUTPUT_PATH;
use outside_traits::{Bench, BenchFault, Taken};
use std::alloc::Global;
use tree_model::{Size, Tree};

/// The most of an output: entries, bytes of one entry, bytes of all together.
const MAX_OUTPUT: Size = Size {
    entries: 16_384,
    largest: 16_777_216,
    bytes: 33_554_432,
};

/// What a script leaves.
#[derive(Debug, Drop)]
pub(crate) enum Left {
    /// Its work tree.
    Tree(Tree),
    /// The script failed with this status, which isn't 0.
    Fails { status: u32 },
    /// Its work tree is beyond the limits.
    TooLarge,
}

/// Lays the entries of a tree, of which nothing is laid yet.
fn put_all<B: Bench>(alloc: Global, bench: &mut B, layout: &Tree) -> Result<(), BenchFault>
    requires empty { B.tells → IsLaid [] (B.place bench.old) }
    ensures laid { OnOk result (B.tells → IsLaid layout.now (B.place bench.new)) }
    ensures runs { B.tells → (B.place bench.new).runs ≡ (B.place bench.old).runs }
    ensures gives { B.gives bench.new ≡ B.gives bench.old }
    ensures cause { Counts (B.faults bench.old) (B.faults bench.new) (bench_failed result) }
{
    let entries = layout.entries();
    for entry in entries {
        bench.put(alloc, entry.0.as_str(), &entry.1)?;
    }
    Ok(())
}

/// Takes away what the last run left, and lays a job's layout.
fn lay<B: Bench>(alloc: Global, bench: &mut B, job: &Job) -> Result<(), BenchFault>
    ensures laid { OnOk result (B.tells → IsLaid job.now.layout (B.place bench.new)) }
    ensures runs { B.tells → (B.place bench.new).runs ≡ (B.place bench.old).runs }
    ensures gives { B.gives bench.new ≡ B.gives bench.old }
    ensures cause { Counts (B.faults bench.old) (B.faults bench.new) (bench_failed result) }
{
    let id = &job.placing.id;
    bench.clear(alloc, id.pn.as_str(), id.task.as_str())?;
    put_all(alloc, bench, &job.layout)
}

/// Runs the job's script over its layout.
fn run_once<B: Bench>(alloc: Global, bench: &mut B, job: &Job) -> Result<u32, BenchFault>
    ensures gave { IfOk result (λ status. B.tells → Gave (B.gives bench.old job.now.script job.now.layout) status
        (B.place bench.new).output) }
    ensures ran { B.tells → RanJob (B.place bench.old).runs (B.place bench.new).runs job.now result }
    ensures gives { B.gives bench.new ≡ B.gives bench.old }
    ensures cause { Counts (B.faults bench.old) (B.faults bench.new) (bench_failed result) }
{
    lay(alloc, bench, job)?;
    bench.run(alloc, job.script.as_str())
}

/// Whether each path of an output has at most 3,072 bytes.
pub(crate) fn are_short(tree: &Tree) -> bool
    ensures short { IsTrue result ↔ All (λ e. length e.0 ≤ 3072) tree.now }
    ensures tree { IsTree tree.now }
{
    tree.entries()
        .iter()
        .all(|entry| entry.0.as_str().len() <= MAX_OUTPUT_PATH)
}

/// Whether a tree is within the limits of an output.
pub(crate) fn is_fit(tree: &Tree) -> bool
    ensures fit { result ≡ not (is_beyond tree.now) }
    ensures tree { IsTree tree.now }
{
    are_short(tree) && tree.size().is_within(&MAX_OUTPUT)
}

/// Whether what was taken is within the limits of an output.
fn judge(taken: Taken) -> Left
    ensures fit { IsLeft result }
    ensures judged { (output : Entries) → IsTaken output output_limit taken
        → limited (Ok output) ≡ left_outcome result }
{
    match taken {
        Taken::Tree(tree) => {
            if is_fit(&tree) {
                Left::Tree(tree)
            } else {
                Left::TooLarge
            }
        }
        Taken::TooLarge => Left::TooLarge,
    }
}

/// Runs the job, and takes what its script gives: the work tree, where it is within the limits.
pub(crate) fn ran<B: Bench>(alloc: Global, bench: &mut B, job: &Job) -> Result<Left, BenchFault>
    ensures left { IfOk result (λ left. B.tells → clean_output (B.gives bench.old) job.now.script job.now.layout
        ≡ left_outcome left) }
    ensures fit { IfOk result IsLeft }
    ensures ran { B.tells → RanJob (B.place bench.old).runs (B.place bench.new).runs job.now result }
    ensures gives { B.gives bench.new ≡ B.gives bench.old }
    ensures cause { Counts (B.faults bench.old) (B.faults bench.new) (bench_failed result) }
{
    let status = run_once(alloc, bench, job)?;
    if status != 0 {
        return Ok(Left::Fails { status });
    }
    let taken = bench.take(alloc, MAX_OUTPUT)?;
    Ok(judge(taken))
}
