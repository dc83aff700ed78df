// The last line of a run that has no end.
ghost use Rattle.std.specs.Prelude.{◌≡◌, ◌++◌, IfOk, OnOk, codes};
ghost use Rattle.run_model.specs.Texts as texts;

use itoa::Buffer;
use meta_model::Status;
use std::alloc::Global;
use tree_model::{Hash, Mem, Text};

/// The words that the program takes.
const USAGE: &str =
    "usage: bitbake [-c TASK] [-f] [-k] [-n] [-e] [-s] [-p] [--no-setscene] [--sample N] [--clean N] [TARGET..]\n";

/// Puts the place of a fault at the end: a file and a line, a file alone where the line is 0, or nothing where the file is
/// empty.
fn push_place(made: &mut Text, file: &str, line: u32) -> Result<(), Mem>
    ensures { OnOk result (made.new ≡ made.old ++ texts.place_text file.now line) }
{
    if file.is_empty() {
        return Ok(());
    }
    made.push_str(file)?;
    if line > 0 {
        made.push_str(":")?;
        made.push_str(Buffer::new().format(line))?;
    }
    made.push_str(": ")
}

/// Puts each text at the end, behind one blank.
fn push_detail(made: &mut Text, detail: &[Text]) -> Result<(), Mem>
    ensures { OnOk result (made.new ≡ made.old ++ texts.behind_blanks detail.now) }
{
    for text in detail {
        made.push_str(" ")?;
        made.push_str(text.as_str())?;
    }
    Ok(())
}

/// Puts the line of a fault of metadata at the end.
fn push_metadata(
    made: &mut Text,
    file: &str,
    line: u32,
    kind: &str,
    detail: &[Text],
) -> Result<(), Mem>
    ensures { OnOk result (made.new ≡ made.old ++ texts.metadata_line file.now line kind.now detail.now) }
{
    made.push_str("fault 3 ")?;
    push_place(made, file, line)?;
    made.push_str(kind)?;
    push_detail(made, detail)?;
    made.push_str("\n")
}

/// The line of a fault of metadata.
fn metadata_line(
    alloc: Global,
    file: &str,
    line: u32,
    kind: &str,
    detail: &[Text],
) -> Result<Text, Mem>
    ensures { IfOk result (λ made. made ≡ texts.metadata_line file.now line kind.now detail.now) }
{
    let mut made = Text::new(alloc);
    push_metadata(&mut made, file, line, kind, detail)?;
    Ok(made)
}

/// A text between a front and the end of its line.
fn line_of(alloc: Global, front: &str, rest: &str) -> Result<Text, Mem>
    ensures { IfOk result (λ made. made ≡ front.now ++ (rest.now ++ codes "\n")) }
{
    let mut made = Text::from_str(alloc, front)?;
    made.push_str(rest)?;
    made.push_str("\n")?;
    Ok(made)
}

/// The line of two signatures that have one hash as their name.
fn collision_line(alloc: Global, name: &Hash) -> Result<Text, Mem>
    ensures { IfOk result (λ made. made ≡ texts.collision_line name.now) }
{
    let digits = name.text(alloc)?;
    line_of(alloc, "fault 8 collision ", digits.as_str())
}

/// The line of a task that gave another output than before.
fn unsteady_line(alloc: Global, pn: &str, task: &str) -> Result<Text, Mem>
    ensures { IfOk result (λ made. made ≡ texts.unsteady_line pn.now task.now) }
{
    let mut made = Text::from_str(alloc, "fault 9 unsteady ")?;
    made.push_str(pn)?;
    made.push_str(":")?;
    made.push_str(task)?;
    made.push_str("\n")?;
    Ok(made)
}

/// The line of a limit that was passed.
fn limit_line(alloc: Global, kind: &str) -> Result<Text, Mem>
    ensures { IfOk result (λ made. made ≡ texts.limit_line kind.now) }
{
    line_of(alloc, "fault 10 ", kind)
}

/// The last line of a status that isn't `Ok` or `TaskFailed`; that of `WriteFault` is empty (own rule).
pub fn fault_text(alloc: Global, status: &Status) -> Result<Text, Mem>
    ensures { IfOk result (λ made. made ≡ texts.fault_text status.now) }
{
    match status {
        Status::Ok | Status::TaskFailed | Status::WriteFault => Ok(Text::new(alloc)),
        Status::Usage => Text::from_str(alloc, USAGE),
        Status::Metadata {
            file,
            line,
            kind,
            detail,
        } => metadata_line(
            alloc,
            file.as_str(),
            *line,
            kind.as_str(),
            detail.as_slice(),
        ),
        Status::DiskFault => Text::from_str(alloc, "fault 4 disk\n"),
        Status::BenchFault => Text::from_str(alloc, "fault 5 bench\n"),
        Status::ReadFault => Text::from_str(alloc, "fault 6 read\n"),
        Status::Collision { name, .. } => collision_line(alloc, name),
        Status::Unsteady { pn, task, .. } => unsteady_line(alloc, pn.as_str(), task.as_str()),
        Status::Limit { kind } => limit_line(alloc, kind.as_str()),
        Status::OutOfMemory => Text::from_str(alloc, "fault 11 memory\n"),
        Status::MirrorFault => Text::from_str(alloc, "fault 12 mirror\n"),
    }
}
