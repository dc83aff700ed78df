// One job, from its layout to the task's output.
ghost use Rattle.std.specs.Prelude.{◌≡◌, ◌<◌, IfOk, None, Ok, length};
ghost use Rattle.outside_traits.specs.Fault.{Counts};
ghost use Rattle.meta_model.specs.CleanBuild.{limited, output_of, part_at};
ghost use Rattle.task_worker.specs.Jobs.{IsGiven, RanJob, job_output, outcome_of, work_failed};
ghost use Rattle.task_worker.specs.Parts.{AreJoined, IsOutput, IsShortPart};
ghost use Rattle.task_worker.specs.Left.{IsLeft, left_outcome};
ghost use Rattle.task_worker.specs.OneTask.{job_of};

use crate::given::{Given, Job, Placing, WorkFault};
use crate::laying::lay_over;
use crate::running::{Left, are_short, is_fit, ran};
use meta_model::{MAX_OUTPUT_PATH, PlanTask};
use outside_traits::{Bench, BenchFault};
use std::alloc::Global;
use tree_model::{Mem, Text, Tree, TreeFault, manifest_of};

/// The part, where none of its paths is too long.
fn short_part(part: Tree) -> Option<Tree>
    ensures { IsShortPart part result }
{
    if are_short(&part) {
        return Some(part);
    }
    None
}

/// What a path says that can't be placed: too long a one is that of a part that is too large.
fn refuse_path(path: &Text) -> Result<Option<Tree>, Mem>
    ensures ok { IfOk result (λ made. (made ≡ None) × (3072 < length path.now)) }
{
    if path.as_str().len() > MAX_OUTPUT_PATH {
        return Ok(None);
    }
    Err(Mem)
}

/// What stands under a folder of the work tree, under the folder of the output to which it goes; nothing where a path of it has more
/// than 3,072 bytes.
///
/// A folder at which nothing can stand, as no sound plan has one, is answered as want of memory.
fn move_part(alloc: Global, tree: &Tree, place: &(Text, Text)) -> Result<Option<Tree>, Mem>
    ensures { IfOk result (IsShortPart (part_at tree.now place.now)) }
{
    let _tree = tree.entries().len();
    let part = tree.pick(alloc, place.0.as_str())?;
    match part.place(alloc, place.1.as_str()) {
        Ok(made) => Ok(short_part(made)),
        Err(TreeFault::Memory) => Err(Mem),
        Err(TreeFault::BadPath { path }) => refuse_path(&path),
    }
}

/// The parts of the work tree, each laid over those before it; nothing where one has too long a path.
fn join_parts(alloc: Global, tree: &Tree, places: &[(Text, Text)]) -> Result<Option<Tree>, Mem>
    ensures { IfOk result (AreJoined tree.now places.now) }
{
    let mut made = Tree::empty(alloc);
    for place in places {
        let Some(part) = move_part(alloc, tree, place)? else {
            return Ok(None);
        };
        lay_over(&mut made, alloc, &part)?;
    }
    Ok(Some(made))
}

/// The output of a work tree; nothing where a part of it has too long a path.
fn output(
    alloc: Global,
    tree: Tree,
    places: &[(Text, Text)],
    sstate: bool,
) -> Result<Option<Tree>, Mem>
    ensures { IfOk result (IsOutput sstate places.now tree) }
{
    if sstate && !places.is_empty() {
        return join_parts(alloc, &tree, places);
    }
    Ok(Some(tree))
}

/// An output with its manifest, where it is within the limits.
fn limited_output(alloc: Global, tree: Tree) -> Result<Given, Mem>
    ensures fit { IfOk result IsGiven }
    ensures limited { IfOk result (λ given. limited (Ok tree) ≡ outcome_of given) }
{
    if !is_fit(&tree) {
        return Ok(Given::TooLarge);
    }
    let manifest = manifest_of(alloc, &tree)?;
    Ok(Given::Tree { tree, manifest })
}

/// What a script's tree gives.
fn given_tree(alloc: Global, tree: Tree, placing: &Placing) -> Result<Given, Mem>
    ensures fit { IfOk result IsGiven }
    ensures given { IfOk result (λ given. output_of placing.now.sstate placing.now.places (Ok tree)
        ≡ outcome_of given) }
{
    match output(alloc, tree, placing.places.as_slice(), placing.sstate)? {
        Some(made) => limited_output(alloc, made),
        None => Ok(Given::TooLarge),
    }
}

/// The output of what a script left.
fn output_left(alloc: Global, left: Left, placing: &Placing) -> Result<Given, Mem>
    requires { IsLeft left }
    ensures fit { IfOk result IsGiven }
    ensures given { IfOk result (λ given. output_of placing.now.sstate placing.now.places (left_outcome left)
        ≡ outcome_of given) }
{
    match left {
        Left::Tree(tree) => given_tree(alloc, tree, placing),
        Left::Fails { status } => Ok(Given::Fails { status }),
        Left::TooLarge => Ok(Given::TooLarge),
    }
}

/// The job of a task of a plan over its layout.
pub fn job_over(number: u32, task: &PlanTask, layout: Tree) -> Result<Job, Mem>
    ensures { IfOk result (λ job. job ≡ job_of number task.now layout) }
{
    let script = task.script.copy()?;
    let places = task.places.copy()?;
    let id = task.id.copy()?;
    let placing = Placing {
        id,
        sstate: task.sstate,
        places,
    };
    Ok(Job {
        task: number,
        script,
        layout,
        placing,
    })
}

/// Does a job: runs its script once over its layout on the bench, and takes the task's output. Of a task that is kept as a shared
/// state object that is what stands at its places, the pairs of a folder of the work tree and a folder of the output; of any
/// other, and of one without places, the whole work tree. `TooLarge` comes exactly where the work tree or the output is beyond
/// the limits of an output: 16,384 entries, 16 MiB for one of them, 32 MiB in all, and 3,072 bytes for a path; or where what stands at
/// one place has too long a path, be it that another covers it.
///
/// `Bench` comes only where the bench's count of faults rose. Whatever is answered, the bench ran nothing but this script over
/// this layout, at most once. (Own rule; the places are `[sstate-inputdirs]` and `[sstate-outputdirs]` of the BitBake User
/// Manual's setscene tasks.)
pub fn do_job<B: Bench>(alloc: Global, bench: &mut B, job: &Job) -> Result<Given, WorkFault>
    ensures given { IfOk result (λ given. B.tells → job_output (B.gives bench.old) job.now ≡ outcome_of given) }
    ensures fit { IfOk result IsGiven }
    ensures ran { B.tells → RanJob (B.place bench.old).runs (B.place bench.new).runs job.now result }
    ensures gives { B.gives bench.new ≡ B.gives bench.old }
    ensures cause { Counts (B.faults bench.old) (B.faults bench.new) (work_failed result) }
{
    match ran(alloc, bench, job) {
        Ok(left) => Ok(output_left(alloc, left, &job.placing)?),
        Err(BenchFault::Failed) => Err(WorkFault::Bench),
        Err(BenchFault::Memory) => Err(WorkFault::Memory),
    }
}
