// The text of a script, piece by piece.
ghost use Rattle.std.specs.Prelude.{◌≡◌, ◌++◌, ◌∷◌, IfOk, OnOk, codes, flat_map};
ghost use Rattle.meta_model.specs.Script.{function_text, function_texts};
ghost use Rattle.task_model.specs.Scripts.{call_lines, cd_line, clean_lines, ended, ended_bodies, export_line, export_lines, last_of, make_line, work_folder};
ghost use Rattle.script_gen.specs.Steps.{text_of};
ghost use Rattle.script_gen.specs.Frames.{frame_of};

use crate::frame::Frame;
use meta_model::{Quoting, push_escaped};
use std::alloc::Global;
use tree_model::{Mem, Text};

/// Puts the line of an exported name at the end.
fn push_export(out: &mut Text, name: &str, value: &str) -> Result<(), Mem>
    ensures { OnOk result (out.new ≡ out.old ++ export_line name.now value.now) }
{
    out.push_str("export ")?;
    out.push_str(name)?;
    out.push_str("=\"")?;
    push_escaped(out, value, Quoting::Shell)?;
    out.push_str("\"\n")
}

/// Puts the lines of exported names at the end.
fn push_exports(out: &mut Text, values: &[(Text, Text)]) -> Result<(), Mem>
    ensures { OnOk result (out.new ≡ out.old ++ export_lines values.now) }
{
    for value in values {
        push_export(out, value.0.as_str(), value.1.as_str())?;
    }
    Ok(())
}

/// Puts a text at the end, with a newline behind it where it lacks one.
fn push_ended(out: &mut Text, text: &str) -> Result<(), Mem>
    ensures { OnOk result (out.new ≡ out.old ++ ended text.now) }
{
    out.push_str(text)?;
    if text.as_bytes().ends_with(b"\n") {
        return Ok(());
    }
    out.push_str("\n")
}

/// Puts a function at the end.
fn push_function(out: &mut Text, name: &str, body: &str) -> Result<(), Mem>
    ensures { OnOk result (out.new ≡ out.old ++ function_text name.now (ended body.now)) }
{
    out.push_str(name)?;
    out.push_str("() {\n:\n")?;
    push_ended(out, body)?;
    out.push_str("}\n")
}

/// Puts functions at the end.
fn push_functions(out: &mut Text, bodies: &[(Text, Text)]) -> Result<(), Mem>
    ensures { OnOk result (out.new ≡ out.old ++ function_texts (ended_bodies bodies.now)) }
{
    for body in bodies {
        push_function(out, body.0.as_str(), body.1.as_str())?;
    }
    Ok(())
}

/// Puts the line at the end that makes a folder.
fn push_make(out: &mut Text, folder: &str) -> Result<(), Mem>
    ensures { OnOk result (out.new ≡ out.old ++ make_line folder.now) }
{
    out.push_str("mkdir -p \"")?;
    out.push_str(folder)?;
    out.push_str("\"\n")
}

/// Puts the lines at the end that make folders.
fn push_makes(out: &mut Text, folders: &[Text]) -> Result<(), Mem>
    ensures { OnOk result (out.new ≡ out.old ++ flat_map make_line folders.now) }
{
    for folder in folders {
        push_make(out, folder.as_str())?;
    }
    Ok(())
}

/// Puts the lines at the end that empty a folder.
fn push_clean(out: &mut Text, folder: &str) -> Result<(), Mem>
    ensures { OnOk result (out.new ≡ out.old ++ clean_lines folder.now) }
{
    out.push_str("rm -rf \"")?;
    out.push_str(folder)?;
    out.push_str("\"\n")?;
    push_make(out, folder)
}

/// Puts the lines at the end that empty folders.
fn push_cleans(out: &mut Text, folders: &[Text]) -> Result<(), Mem>
    ensures { OnOk result (out.new ≡ out.old ++ flat_map clean_lines folders.now) }
{
    for folder in folders {
        push_clean(out, folder.as_str())?;
    }
    Ok(())
}

/// The folder that the task runs in: the last one of `[dirs]`, or the work folder.
fn last_folder(dirs: &[Text]) -> &str
    ensures { result.now ≡ last_of work_folder dirs.now }
{
    match dirs.last() {
        Some(dir) => dir.as_str(),
        None => "${WORKDIR}",
    }
}

/// Puts the line at the end that goes to the folder that the task runs in.
fn push_cd(out: &mut Text, dirs: &[Text]) -> Result<(), Mem>
    ensures { OnOk result (out.new ≡ out.old ++ cd_line dirs.now) }
{
    out.push_str("cd \"")?;
    out.push_str(last_folder(dirs))?;
    out.push_str("\"\n")
}

/// Puts the line of a call at the end.
fn push_call(out: &mut Text, name: &str) -> Result<(), Mem>
    ensures { OnOk result (out.new ≡ out.old ++ (name.now ++ codes "\n")) }
{
    out.push_str(name)?;
    out.push_str("\n")
}

/// Puts the lines of calls at the end.
fn push_calls(out: &mut Text, names: &[Text]) -> Result<(), Mem>
    ensures { OnOk result (out.new ≡ out.old ++ call_lines names.now) }
{
    for name in names {
        push_call(out, name.as_str())?;
    }
    Ok(())
}

/// Puts the lines at the end that run the task: the functions before it, its own one, and those behind it.
fn push_runs(out: &mut Text, task: &str, frame: &Frame) -> Result<(), Mem>
    ensures { OnOk result (out.new ≡ out.old ++ call_lines (frame.now.before ++ task.now ∷ frame.now.after)) }
{
    push_calls(out, frame.before.as_slice())?;
    push_call(out, task)?;
    push_calls(out, frame.after.as_slice())
}

/// Puts the lines at the end that make the folders of a task and run it.
fn push_frame(out: &mut Text, task: &str, frame: &Frame) -> Result<(), Mem>
    ensures { OnOk result (out.new ≡ out.old ++ (flat_map clean_lines frame.now.cleandirs
        ++ (flat_map make_line frame.now.dirs ++ (cd_line frame.now.dirs
        ++ call_lines (frame.now.before ++ task.now ∷ frame.now.after))))) }
{
    push_cleans(out, frame.cleandirs.as_slice())?;
    push_makes(out, frame.dirs.as_slice())?;
    push_cd(out, frame.dirs.as_slice())?;
    push_runs(out, task, frame)
}

/// The text of a script: it stops at the first command that fails; it has these exported names and these functions.
pub(crate) fn text_of(
    alloc: Global,
    exports: &[(Text, Text)],
    bodies: &[(Text, Text)],
    task: &str,
    frame: &Frame,
) -> Result<Text, Mem>
    ensures { IfOk result (λ made. made ≡ text_of exports.now bodies.now task.now (frame_of frame.now)) }
{
    let mut out = Text::from_str(alloc, "set -e\n")?;
    push_exports(&mut out, exports)?;
    push_functions(&mut out, bodies)?;
    push_frame(&mut out, task, frame)?;
    Ok(out)
}
