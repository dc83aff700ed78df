// What the flags of a task say of its script.
ghost use Rattle.std.specs.Prelude.{◌≡◌, IfOk, IfErr, Ok, option_map, Option};
ghost use Rattle.task_model.specs.Scripts.{is_on};
ghost use Rattle.script_gen.specs.Faults.{IsScriptFault};
ghost use Rattle.script_gen.specs.Frames.{frame_of};
ghost use Rattle.script_gen.specs.Steps.{framed, begun};

use crate::calls::{found_is_function, functions_in};
use crate::fault::ScriptFault;
use crate::flags::{flag_text, folders};
use crate::sight::Sight;
use std::alloc::Global;
use tree_model::{Text, Texts};

/// The folders that are emptied, those that are made, and the functions that are called before and behind the task.
#[derive(Drop)]
pub(crate) struct Frame {
    pub(crate) cleandirs: Texts,
    pub(crate) dirs: Texts,
    pub(crate) before: Texts,
    pub(crate) after: Texts,
}

/// Whether a flag with this text counts: it is neither empty nor `0` (own rule).
pub fn is_on(text: &str) -> bool
    ensures { result ≡ is_on text.now }
{
    !(text.is_empty() || text == "0")
}

/// What the flags of a task say of its script, and the text of `[noexec]`.
fn framed<S: Sight>(alloc: Global, from: &S) -> Result<(Frame, Text), ScriptFault>
    ensures ok { IfOk result (λ made. framed (S.finds from.now) (S.flags from.now) ≡ Ok (frame_of made.0, made.1)) }
    ensures err { IfErr result (λ fault. IsScriptFault fault (framed (S.finds from.now) (S.flags from.now))) }
{
    let cleandirs = folders(alloc, from, "cleandirs")?;
    let dirs = folders(alloc, from, "dirs")?;
    let noexec = flag_text(alloc, from, "noexec")?;
    let after = functions_in(alloc, from, "postfuncs")?;
    let before = functions_in(alloc, from, "prefuncs")?;
    let frame = Frame {
        cleandirs,
        dirs,
        before,
        after,
    };
    Ok((frame, noexec))
}

/// What the flags of a task say of its script, unless it is `noexec` or no function.
pub(crate) fn begun<S: Sight>(
    alloc: Global,
    from: &S,
    task: &str,
) -> Result<Option<Frame>, ScriptFault>
    ensures ok { IfOk result (λ made. begun (S.finds from.now) (S.flags from.now) task.now
        ≡ Ok (option_map frame_of made)) }
    ensures err { IfErr result (λ fault. IsScriptFault fault (begun (S.finds from.now) (S.flags from.now) task.now)) }
{
    let (frame, noexec) = framed(alloc, from)?;
    let own = from.find(alloc, task)?;
    if found_is_function(own) && !is_on(noexec.as_str()) {
        return Ok(Some(frame));
    }
    Ok(None)
}
