// What a program holds has lengths that it can tell: facts of the values' types, which these functions hand on.
ghost use Rattle.store_model.specs.OneSpelling.{AllFit, Fits, FlagFits, LineFits, ResolvedFits, ValueFits};
ghost use Rattle.std.specs.List.{AllByRecursion};
ghost use Rattle.plan_model.specs.Spellings.{TaskFits};

use meta_model::{KeyLine, PlanTask, Resolved};
use tree_model::Text;

/// The length of a text fits.
fn known_text(text: &str)
    ensures { Fits text.now }
{
    let _length = text.len();
}

/// The lengths of a list and of its texts.
fn known_texts(texts: &[Text])
    ensures { AllFit Fits texts.now }
{
    let _length = texts.len();
    for text in texts {
        known_text(text.as_str());
    }
}

/// The lengths of flags and of their texts.
fn known_flags(flags: &[(Text, Text)])
    ensures { AllFit FlagFits flags.now }
{
    let _length = flags.len();
    for flag in flags {
        known_text(flag.0.as_str());
        known_text(flag.1.as_str());
    }
}

/// The lengths of a value.
fn known_resolved(value: &Resolved)
    ensures { ResolvedFits value.now }
{
    known_text(value.text.as_str());
    known_texts(value.removes.as_slice());
    known_flags(value.flags.as_slice());
}

/// The lengths of a value that may be absent.
fn known_value(value: &Option<Resolved>)
    ensures { ValueFits value.now }
{
    if let Some(value) = value {
        known_resolved(value);
    }
}

/// The lengths of a line.
fn known_line(line: &KeyLine)
    ensures { LineFits line.now }
{
    known_text(line.name.as_str());
    known_value(&line.value);
}

/// The lengths of lines.
fn known_lines(lines: &[KeyLine])
    ensures { AllByRecursion LineFits lines.now }
{
    for line in lines {
        known_line(line);
    }
}

/// A program can hold the lines of a task's key, and one more, and its files.
fn known_task(task: &PlanTask)
    ensures { TaskFits task.now }
{
    let lines = task.key.lines.as_slice();
    let _more = lines.len() + 1;
    known_lines(lines);
    let _files = task.files.entries().len();
}

/// A program can hold each task.
pub(crate) fn known_tasks(tasks: &[PlanTask])
    ensures { AllByRecursion TaskFits tasks.now }
{
    for task in tasks {
        known_task(task);
    }
}
