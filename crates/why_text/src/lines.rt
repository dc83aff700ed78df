// The lines of tasks.
ghost use Rattle.std.specs.Prelude.{◌≡◌, ◌++◌, OnOk, flat_map, codes};
ghost use Rattle.why_model.specs.Why as texts;

use bb_report::{push_label, push_needs};
use meta_model::PlanTask;
use tree_model::{Mem, Text};
use why_model::{Cause, Fate};

/// Puts a text behind a comma.
fn put_behind_comma(made: &mut Text, text: &Text) -> Result<(), Mem>
    ensures { OnOk result (made.new ≡ made.old ++ (codes ", " ++ text.now)) }
{
    made.push_str(", ")?;
    made.push_str(text.as_str())
}

/// Puts texts, each behind a comma.
fn put_more(made: &mut Text, list: &[Text]) -> Result<(), Mem>
    ensures { OnOk result (made.new ≡ made.old ++ flat_map (λ text. codes ", " ++ text) list.now) }
{
    for text in list {
        put_behind_comma(made, text)?;
    }
    Ok(())
}

/// Puts texts with commas between them.
fn put_list(made: &mut Text, list: &[Text]) -> Result<(), Mem>
    ensures { OnOk result (made.new ≡ made.old ++ texts.comma_text list.now) }
{
    match list {
        [] => Ok(()),
        [first, more @ ..] => {
            made.push_str(first.as_str())?;
            put_more(made, more)
        }
    }
}

/// Puts why a task would run.
fn put_cause(made: &mut Text, why: &Cause) -> Result<(), Mem>
    ensures { OnOk result (made.new ≡ made.old ++ texts.cause_text why.now) }
{
    match why {
        Cause::Forced => made.push_str("forced"),
        Cause::Always => made.push_str("runs each time"),
        Cause::New => made.push_str("nothing recorded before"),
        Cause::Gone => made.push_str("its output is gone"),
        Cause::Differs(names) => {
            made.push_str("differs in ")?;
            put_list(made, names.as_slice())
        }
    }
}

/// Puts what a run would do with a task.
fn put_fate(made: &mut Text, tasks: &[PlanTask], what: &Fate) -> Result<(), Mem>
    ensures { OnOk result (made.new ≡ made.old ++ texts.fate_text tasks.now what.now) }
{
    match what {
        Fate::Found => made.push_str("found"),
        Fate::Restored => made.push_str("restored"),
        Fate::MayRestore => made.push_str("may be restored: if a task that needs it runs"),
        Fate::Runs(why) => {
            made.push_str("run: ")?;
            put_cause(made, why)
        }
        Fate::MayRun(waits) => {
            made.push_str("may run:")?;
            push_needs(made, tasks, waits.as_slice())
        }
        Fate::MayNeed => made.push_str("may run: if a task that needs it runs"),
    }
}

/// Puts the line of a task.
pub(crate) fn put_line(
    made: &mut Text,
    tasks: &[PlanTask],
    task: &PlanTask,
    what: &Fate,
) -> Result<(), Mem>
    ensures { OnOk result (made.new ≡ made.old ++ texts.fate_line tasks.now task.now what.now) }
{
    push_label(made, &task.id)?;
    made.push_str(": ")?;
    put_fate(made, tasks, what)?;
    made.push_str("\n")
}
