// Whether a task is sound at its number in a plan.
ghost use Rattle.std.specs.Prelude.{◌≡◌, ◌<◌, ◌↔◌, IsTrue, All};
ghost use Rattle.std.specs.List.Sorted.{IsStrictlyIncreasing};
ghost use Rattle.plan_model.specs.Names.{is_task_name as is_name};
ghost use Rattle.plan_model.specs.Sound.{IsFolder};
ghost use Rattle.target_plan.specs.Checked.{AreEarlier, AreFolders, HasGoodNames, IsChecked};

use crate::sound_files::are_sound_files;
use crate::sound_lines::are_sound_lines;
use meta_model::{PlanTask, TaskId, is_shell_name};
use recipe_set::is_pn;
use tree_model::{Text, is_clean};

/// Whether it is the name of a task: a shell name of at most 255 bytes that begins with `do_`.
fn is_task_name(name: &[u8]) -> bool
    ensures { result ≡ is_name name.now }
{
    name.starts_with(b"do_") && is_shell_name(name) && name.len() <= 255
}

/// Whether the PN and the name are such as recipes and tasks may have.
fn has_good_names(id: &TaskId) -> bool
    ensures { IsTrue result ↔ HasGoodNames id.now }
{
    is_pn(id.pn.as_str()) && is_task_name(id.task.as_str().as_bytes())
}

/// Whether all numbers are below this one.
pub(crate) fn are_below(numbers: &[u32], number: u32) -> bool
    ensures { IsTrue result ↔ All (λ n. n < number) numbers.now }
{
    numbers.iter().all(|n| *n < number)
}

/// Whether each number is below the next.
fn are_rising(numbers: &[u32]) -> bool
    ensures { IsTrue result ↔ IsStrictlyIncreasing numbers.now }
{
    for place in 1..numbers.len() {
        if numbers[place - 1] >= numbers[place] {
            return false;
        }
    }
    true
}

/// Whether the numbers ascend strictly and are below this one.
fn are_earlier(numbers: &[u32], number: u32) -> bool
    ensures { IsTrue result ↔ AreEarlier number numbers.now }
{
    are_rising(numbers) && are_below(numbers, number)
}

/// Whether it is a folder of a work tree or of an output: `.` or a clean path.
fn is_folder(path: &str) -> bool
    ensures { IsTrue result ↔ IsFolder path.now }
{
    path == "." || is_clean(path)
}

/// Whether the first of each pair is a folder.
fn are_inner_folders(places: &[(Text, Text)]) -> bool
    ensures { IsTrue result ↔ All (λ p. IsFolder p.0) places.now }
{
    places.iter().all(|place| is_folder(place.0.as_str()))
}

/// Whether the second of each pair is a folder.
fn are_outer_folders(places: &[(Text, Text)]) -> bool
    ensures { IsTrue result ↔ All (λ p. IsFolder p.1) places.now }
{
    places.iter().all(|place| is_folder(place.1.as_str()))
}

/// Whether they are pairs of folders.
fn are_folders(places: &[(Text, Text)]) -> bool
    ensures { IsTrue result ↔ AreFolders places.now }
{
    are_inner_folders(places) && are_outer_folders(places)
}

/// Whether the task is sound at this number.
pub(crate) fn is_sound_task(number: u32, task: &PlanTask) -> bool
    ensures { IsTrue result ↔ IsChecked number task.now }
{
    has_good_names(&task.id)
        && are_earlier(task.deps.as_slice(), number)
        && are_sound_lines(task.key.lines.as_slice())
        && are_sound_files(&task.files)
        && are_folders(task.places.as_slice())
}
