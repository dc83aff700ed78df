// The flags of a task, and the folders that they name.
ghost use Rattle.std.specs.Prelude.{◌≡◌, ◌==◌, IfOk, IfErr, OnOk, Ok, true, option_copied};
ghost use Rattle.std.specs.List.{list_all, slice_split};
ghost use Rattle.task_model.specs.TaskRefusal.{bad_flag, require};
ghost use Rattle.task_model.specs.Scripts.{all_folders, behind_work_folder, flag_text, folders, is_folder, is_part, is_path};
ghost use Rattle.script_gen.specs.Faults.{IsScriptFault};

use crate::fault::ScriptFault;
use crate::sight::Sight;
use std::alloc::Global;
use tree_model::{Text, Texts};
use var_expand::{are_name_bytes, expand, words};

/// The most bytes of a path in a work folder.
const MOST_OF_PATH: usize = 4096;

/// The most bytes of one part of it.
const MOST_OF_PART: usize = 255;

/// The expanded text of a flag, empty where it isn't set.
pub(crate) fn flag_text<S: Sight>(alloc: Global, from: &S, flag: &str) -> Result<Text, ScriptFault>
    ensures ok { IfOk result (λ made. flag_text (S.finds from.now) (S.flags from.now) flag.now ≡ Ok made) }
    ensures err { IfErr result (λ fault. IsScriptFault fault
        (flag_text (S.finds from.now) (S.flags from.now) flag.now)) }
{
    Ok(expand(alloc, from.flag(flag).unwrap_or(""), from)?)
}

/// A part of a path in a work folder: 1 to 255 name characters, neither `.` nor `..`.
fn is_part(part: &str) -> bool
    ensures { result ≡ is_part part.now }
{
    !part.is_empty()
        && part.len() <= MOST_OF_PART
        && are_name_bytes(part.as_bytes())
        && part != "."
        && part != ".."
}

/// A path in a work folder: up to 4,096 bytes, and such parts between its slashes.
pub(crate) fn is_path(path: &str) -> bool
    ensures { result ≡ is_path path.now }
{
    path.len() <= MOST_OF_PATH && are_parts(path)
}

/// Whether such parts stand between the slashes.
fn are_parts(path: &str) -> bool
    ensures { result ≡ list_all is_part (slice_split (λ c. c == 47) path.now) }
{
    path.split('/').all(is_part)
}

/// What stands behind `${WORKDIR}/`.
pub(crate) fn behind_work_folder(word: &str) -> Option<&str>
    ensures { option_copied result ≡ behind_work_folder word.now }
{
    word.strip_prefix("${WORKDIR}/")
}

/// The work folder, or a path in it.
fn is_folder(word: &str) -> bool
    ensures { result ≡ is_folder word.now }
{
    word == "${WORKDIR}" || is_path(behind_work_folder(word).unwrap_or(""))
}

/// Refuses a word of a flag, unless it fits.
pub(crate) fn must_fit(
    alloc: Global,
    fits: bool,
    flag: &str,
    word: &Text,
) -> Result<(), ScriptFault>
    ensures ok { OnOk result (fits ≡ true) }
    ensures err { IfErr result (λ fault. IsScriptFault fault (require fits (bad_flag flag.now word.now))) }
{
    if fits {
        return Ok(());
    }
    Err(ScriptFault::BadFlag {
        flag: Text::from_str(alloc, flag)?,
        word: word.copy()?,
    })
}

/// Refuses the first word that is no folder.
fn all_folders(alloc: Global, flag: &str, words: &[Text]) -> Result<(), ScriptFault>
    ensures ok { OnOk result (all_folders flag.now words.now ≡ Ok words.now) }
    ensures err { IfErr result (λ fault. IsScriptFault fault (all_folders flag.now words.now)) }
{
    for word in words {
        must_fit(alloc, is_folder(word.as_str()), flag, word)?;
    }
    Ok(())
}

/// The folders of `[dirs]` or `[cleandirs]`.
pub(crate) fn folders<S: Sight>(alloc: Global, from: &S, flag: &str) -> Result<Texts, ScriptFault>
    ensures ok { IfOk result (λ made. folders (S.finds from.now) (S.flags from.now) flag.now ≡ Ok made) }
    ensures err { IfErr result (λ fault. IsScriptFault fault (folders (S.finds from.now) (S.flags from.now) flag.now)) }
{
    let text = flag_text(alloc, from, flag)?;
    let list = words(alloc, text.as_str())?;
    all_folders(alloc, flag, list.as_slice())?;
    Ok(list)
}
