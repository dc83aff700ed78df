// The functions that are called before and behind a task.
ghost use Rattle.std.specs.Prelude.{◌≡◌, IfOk, IfErr, OnOk, Ok};
ghost use Rattle.task_model.specs.Views.{is_function};
ghost use Rattle.task_model.specs.Scripts.{all_functions, functions_in};
ghost use Rattle.script_gen.specs.Faults.{IsScriptFault};
ghost use Rattle.script_gen.specs.Steps.{called};

use crate::fault::ScriptFault;
use crate::flags::{flag_text, must_fit};
use crate::sight::Sight;
use meta_model::Resolved;
use std::alloc::Global;
use tree_model::{Text, Texts};
use var_deps::is_function;
use var_expand::{are_name_bytes, words};

/// Whether what was found is a function.
pub(crate) fn found_is_function(found: Option<Resolved>) -> bool
    ensures { result ≡ is_function found }
{
    match found {
        Some(found) => is_function(&found),
        None => false,
    }
}

/// Refuses a word that is no function, or has a character that no name in a key has.
fn must_call<S: Sight>(alloc: Global, from: &S, flag: &str, word: &Text) -> Result<(), ScriptFault>
    ensures ok { OnOk result (called (S.finds from.now) flag.now word.now ≡ Ok word.now) }
    ensures err { IfErr result (λ fault. IsScriptFault fault (called (S.finds from.now) flag.now word.now)) }
{
    must_fit(alloc, are_name_bytes(word.as_str().as_bytes()), flag, word)?;
    let found = from.find(alloc, word.as_str())?;
    must_fit(alloc, found_is_function(found), flag, word)
}

/// Refuses the first word that can't be called.
fn all_functions<S: Sight>(
    alloc: Global,
    from: &S,
    flag: &str,
    words: &[Text],
) -> Result<(), ScriptFault>
    ensures ok { OnOk result (all_functions (S.finds from.now) flag.now words.now ≡ Ok words.now) }
    ensures err { IfErr result (λ fault. IsScriptFault fault (all_functions (S.finds from.now) flag.now words.now)) }
{
    for word in words {
        must_call(alloc, from, flag, word)?;
    }
    Ok(())
}

/// The functions of `[prefuncs]` or `[postfuncs]`.
pub(crate) fn functions_in<S: Sight>(
    alloc: Global,
    from: &S,
    flag: &str,
) -> Result<Texts, ScriptFault>
    ensures ok { IfOk result (λ made. functions_in (S.finds from.now) (S.flags from.now) flag.now ≡ Ok made) }
    ensures err { IfErr result (λ fault. IsScriptFault fault
        (functions_in (S.finds from.now) (S.flags from.now) flag.now)) }
{
    let text = flag_text(alloc, from, flag)?;
    let list = words(alloc, text.as_str())?;
    all_functions(alloc, from, flag, list.as_slice())?;
    Ok(list)
}
