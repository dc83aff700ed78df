// What is laid out for a task.
ghost use Rattle.std.specs.Prelude.{◌≡◌, ◌<◌, ℕ, [], Some, All, IfOk, OnOk, false, filter, length, map, not, codes};
ghost use Rattle.std.specs.List.{slice_get};
ghost use Rattle.std.specs.Str.{bytes_eq};
ghost use Rattle.tree_model.specs.Overlay.{overlaid};
ghost use Rattle.tree_model.specs.Path.{IsClean, inside};
ghost use Rattle.meta_model.specs.declared.plan.PlanTask.{PlanTask as TaskOfPlan};
ghost use Rattle.meta_model.specs.CleanBuild.{Entries};
ghost use Rattle.meta_model.specs.Layout.{by_depth, by_name, dependency_part, files_part, is_of, overlaid_all, overlaid_onto, put_inside};
ghost use Rattle.plan_model.specs.Sound.{IsOnePart};
ghost use Rattle.task_worker.specs.Layouts.{AreShort, IsWithinLayout};
ghost use Rattle.run_model.specs.Layouts.{layout_over, needed_among};
ghost use Rattle.task_worker.specs.Runnable.{IsRunnable};
ghost use Rattle.task_worker.specs.Work.{HasNames, IsLayable, part_needed, parts_needed};

use crate::parts::{Part, other_parts, own_parts};
use meta_model::{Plan, PlanTask};
use std::alloc::Global;
use tree_model::{Mem, Size, Text, Tree, TreeFault};

/// The most of a layout: entries, and bytes of all together.
const MAX_LAYOUT: Size = Size {
    entries: 65_536,
    largest: 67_108_864,
    bytes: 67_108_864,
};

/// Lays a later tree over one.
pub(crate) fn lay_over(tree: &mut Tree, alloc: Global, later: &Tree) -> Result<(), Mem>
    ensures { OnOk result (tree.new ≡ overlaid tree.old later.now) }
{
    let _tree = tree.entries().len();
    let _later = later.entries().len();
    tree.overlay(alloc, later)
}

/// The outputs of a recipe's own tasks, each laid over those before it.
fn laid_own(alloc: Global, parts: &[Part]) -> Result<Tree, Mem>
    ensures { IfOk result (λ tree. tree ≡ overlaid_all (map (λ p. (part_needed p).output) parts.now)) }
{
    let mut tree = Tree::empty(alloc);
    for part in parts {
        lay_over(&mut tree, alloc, part.output)?;
    }
    Ok(tree)
}

/// The tree with the folder's name in front of its paths.
fn moved_into(alloc: Global, tree: &Tree, folder: &str) -> Result<Tree, Mem>
    requires folder { bytes_eq folder.now (codes ".") ≡ false }
    requires clean { All (λ e. IsClean (inside folder.now e.0)) tree.now }
    ensures { IfOk result (λ made. made ≡ put_inside folder.now tree.now) }
{
    match tree.place(alloc, folder) {
        Ok(made) => Ok(made),
        Err(TreeFault::Memory) => Err(Mem),
        Err(TreeFault::BadPath { path: _ }) => unreachable!(),
    }
}

/// Lays a tree in a folder over one.
fn lay_inside(tree: &mut Tree, alloc: Global, later: &Tree, folder: &str) -> Result<(), Mem>
    requires folder { bytes_eq folder.now (codes ".") ≡ false }
    requires clean { All (λ e. IsClean (inside folder.now e.0)) later.now }
    ensures { OnOk result (tree.new ≡ overlaid tree.old (put_inside folder.now later.now)) }
{
    let part = moved_into(alloc, later, folder)?;
    lay_over(tree, alloc, &part)
}

/// The folder of a needed task of another recipe.
fn folder_of(alloc: Global, task: &PlanTask) -> Result<Text, Mem>
    ensures { IfOk result (λ made. made ≡ inside (codes "deps") (inside task.now.id.pn task.now.id.task)) }
{
    let mut folder = Text::from_str(alloc, "deps/")?;
    folder.push_str(task.id.pn.as_str())?;
    folder.push_str("/")?;
    folder.push_str(task.id.task.as_str())?;
    Ok(folder)
}

/// Lays the output of a needed task of another recipe in its folder.
fn lay_part(tree: &mut Tree, alloc: Global, part: &Part) -> Result<(), Mem>
    requires { IsLayable (part_needed part.now) }
    ensures { OnOk result (tree.new ≡ overlaid tree.old (dependency_part (part_needed part.now))) }
{
    let folder = folder_of(alloc, part.task)?;
    let _output = part.output.entries().len();
    lay_inside(tree, alloc, part.output, folder.as_str())
}

/// Lays the outputs of all needed tasks of other recipes.
fn lay_parts(tree: &mut Tree, alloc: Global, parts: &[Part]) -> Result<(), Mem>
    requires { All (λ p. IsLayable (part_needed p)) parts.now }
    ensures { OnOk result (tree.new ≡ overlaid_onto tree.old (map dependency_part (parts_needed parts.now))) }
{
    for part in parts {
        lay_part(tree, alloc, part)?;
    }
    Ok(())
}

/// The part `work/`: the outputs of the recipe's own tasks.
fn work_of(
    alloc: Global,
    tasks: &[PlanTask],
    task: &PlanTask,
    outputs: &[(u32, Tree)],
) -> Result<Tree, Mem>
    requires { AreShort outputs.now }
    ensures { IfOk result (λ tree. tree ≡ put_inside (codes "work")
        (overlaid_all (map (λ n. n.output) (filter (is_of task.now.id.pn)
        (by_depth (needed_among tasks.now outputs.now)))))) }
{
    let parts = own_parts(alloc, tasks, outputs, task.id.pn.as_str())?;
    let own = laid_own(alloc, &parts)?;
    let _own = own.entries().len();
    moved_into(alloc, &own, "work")
}

/// What is laid out for a task, whatever its size.
fn laid_out(
    alloc: Global,
    tasks: &[PlanTask],
    task: &PlanTask,
    outputs: &[(u32, Tree)],
) -> Result<Tree, Mem>
    requires names { All HasNames tasks.now }
    requires files { All (λ e. IsOnePart e.0) task.now.files }
    requires short { AreShort outputs.now }
    ensures { IfOk result (λ tree. tree ≡ layout_over tasks.now task.now outputs.now) }
{
    let others = other_parts(alloc, tasks, outputs, task.id.pn.as_str())?;
    let mut tree = work_of(alloc, tasks, task, outputs)?;
    lay_parts(&mut tree, alloc, &others)?;
    let _files = task.files.entries().len();
    lay_inside(&mut tree, alloc, &task.files, "files")?;
    Ok(tree)
}

/// The tree, where it is within the limits of a layout.
fn within_layout(tree: Tree) -> Option<Tree>
    ensures { IsWithinLayout tree result }
{
    if tree.size().is_within(&MAX_LAYOUT) {
        Some(tree)
    } else {
        None
    }
}

/// What is laid out for a task of a plan, from the outputs of the tasks that it needs directly, each with its number: under
/// `work/` those of its own recipe, laid over each other by their depths and then by their names; under `deps/PN/TASK/` those of
/// others; under `files/` its input files. `None` comes exactly where that is beyond the limits of a layout: 65,536 entries, and
/// 64 MiB in all. (Own rule.)
pub fn layout(
    alloc: Global,
    plan: &Plan,
    task: u32,
    outputs: &[(u32, Tree)],
) -> Result<Option<Tree>, Mem>
    requires runnable { IsRunnable plan.now }
    requires task { task < length plan.now.tasks }
    requires short { AreShort outputs.now }
    ensures { IfOk result (λ made. (t : TaskOfPlan) → slice_get plan.now.tasks task ≡ Some t
        → IsWithinLayout (layout_over plan.now.tasks t outputs.now) made) }
{
    let tasks = plan.tasks.as_slice();
    let tree = laid_out(alloc, tasks, &tasks[task as usize], outputs)?;
    Ok(within_layout(tree))
}
