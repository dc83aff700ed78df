// What is printed of the sample.
ghost use Rattle.std.specs.Prelude.{◌≡◌, ◌++◌, IfOk, OnOk};
ghost use Rattle.answer_model.specs.Sample as sample;

use bb_report::{count_found, count_started, push_count};
use meta_model::Logged;
use std::alloc::Global;
use tree_model::{Mem, Text};

/// How many recipes and tasks the sample has.
fn size_text(alloc: Global, size: u32) -> Result<Text, Mem>
    ensures { IfOk result (λ made. made ≡ sample.size_text size) }
{
    let recipes = size as usize;
    let mut made = Text::from_str(alloc, "sample ")?;
    push_count(&mut made, recipes, ": ")?;
    push_count(&mut made, recipes, " recipes, ")?;
    push_count(&mut made, 2 * recipes, " tasks; ")?;
    Ok(made)
}

/// Puts at the end what two runs did.
fn push_runs(made: &mut Text, first: &[Logged], second: &[Logged]) -> Result<(), Mem>
    ensures { OnOk result (made.new ≡ made.old ++ sample.runs_text first.now second.now) }
{
    made.push_str("first run ")?;
    push_count(made, count_started(first), " started; second run ")?;
    push_count(made, count_found(second), " found, ")?;
    push_count(made, count_started(second), " started\n")
}

/// The line of two runs over the sample of so many recipes, as `sample 50: 50 recipes, 100 tasks; first run 100 started; second
/// run 50 found, 0 started`.
pub fn sample_text(
    alloc: Global,
    size: u32,
    first: &[Logged],
    second: &[Logged],
) -> Result<Text, Mem>
    ensures { IfOk result (λ made. made ≡ sample.sample_text size first.now second.now) }
{
    let mut made = size_text(alloc, size)?;
    push_runs(&mut made, first, second)?;
    Ok(made)
}
