// The script of a task.
ghost use Rattle.std.specs.Prelude.{◌≡◌, IfOk, IfErr, Ok, codes, filter, is_some, map, option_map};
ghost use Rattle.meta_model.specs.Base.{flag, names};
ghost use Rattle.task_model.specs.Scripts.{script, script_of, told_names};
ghost use Rattle.script_gen.specs.Faults.{IsScriptFault};
ghost use Rattle.script_gen.specs.Given.{IsKeyOf};
ghost use Rattle.script_gen.specs.Frames.{frame_of};
ghost use Rattle.script_gen.specs.Steps.{finished, written};

use crate::fault::ScriptFault;
use crate::frame::{Frame, begun};
use crate::of_key::OfKey;
use crate::sight::{OfStore, Sight};
use crate::text::text_of;
use crate::told::{told_lines, told_names, told_values};
use datastore::Datastore;
use meta_model::{Key, KeyLine};
use std::alloc::Global;
use tree_model::Text;
use var_deps::StoreKeys;

/// The script of a task that isn't `noexec` and has a function, with these exported names, and the functions of these lines.
fn finished<L: Sight>(
    alloc: Global,
    from: &L,
    exports: &[Text],
    lines: &[KeyLine],
    task: &str,
    frame: &Frame,
) -> Result<Text, ScriptFault>
    ensures ok { IfOk result (λ made. finished (L.finds from.now) exports.now
        (told_names (codes "func") (L.finds from.now) (map (λ line. line.name) lines.now)) task.now
        (frame_of frame.now) ≡ Ok made) }
    ensures err { IfErr result (λ fault. IsScriptFault fault
        (finished (L.finds from.now) exports.now (told_names (codes "func") (L.finds from.now)
        (map (λ line. line.name) lines.now)) task.now (frame_of frame.now))) }
{
    let functions = told_lines(alloc, from, "func", lines)?;
    let values = told_values(alloc, from, exports)?;
    let bodies = told_values(alloc, from, functions.as_slice())?;
    Ok(text_of(alloc, values.as_slice(), bodies.as_slice(), task, frame)?)
}

/// The script of a task with these exported names, and the functions of these lines: it does nothing where there is no frame.
fn written<L: Sight>(
    alloc: Global,
    from: &L,
    exports: &[Text],
    lines: &[KeyLine],
    task: &str,
    frame: &Option<Frame>,
) -> Result<Text, ScriptFault>
    ensures ok { IfOk result (λ made. written (L.finds from.now) exports.now
        (told_names (codes "func") (L.finds from.now) (map (λ line. line.name) lines.now)) task.now
        (option_map frame_of frame.now) ≡ Ok made) }
    ensures err { IfErr result (λ fault. IsScriptFault fault
        (written (L.finds from.now) exports.now (told_names (codes "func") (L.finds from.now)
        (map (λ line. line.name) lines.now)) task.now (option_map frame_of frame.now))) }
{
    match frame {
        Some(frame) => finished(alloc, from, exports, lines, task, frame),
        None => Ok(Text::from_str(alloc, ":\n")?),
    }
}

/// The script of a task in a store, with the names that are exported there and the task's key.
fn script_in(
    alloc: Global,
    store: &Datastore,
    exported: &[Text],
    key: &Key,
    task: &str,
) -> Result<Text, ScriptFault>
    requires key { IsKeyOf store.now task.now key.now }
    requires exported { exported.now ≡ filter (λ n. is_some (flag store.now n (codes "export"))) (names store.now) }
    ensures ok { IfOk result (λ made. script store.now task.now ≡ Ok made) }
    ensures err { IfErr result (λ fault. IsScriptFault fault (script store.now task.now)) }
{
    let from = OfStore { store, task };
    let frame = begun(alloc, &from, task)?;
    let exports = told_names(alloc, &from, "export", exported)?;
    let lines = key.lines.as_slice();
    written(alloc, &from, exports.as_slice(), lines, task, &frame)
}

/// The script of a task whose key is given: what its shell runs. Several tasks of a store share the keys of the store.
///
/// It stops at the first command that fails; then come the exported shell names with a value, the functions of the key that are
/// shell names, each in byte order, the folders of `[cleandirs]` and `[dirs]`, the last of which it runs in, the functions of
/// `[prefuncs]`, the task and those of `[postfuncs]`. A task that is `noexec` or no function has a script that does nothing (BitBake
/// User Manual, "Execution", section "Executing Tasks"; the text is an own rule).
///
/// Of several refusals the flags' come first, in byte order, each its expansion and then its words, then those of exported names,
/// then those of functions (own rule).
pub fn script_with(
    alloc: Global,
    keys: &StoreKeys,
    key: &Key,
    task: &str,
) -> Result<Text, ScriptFault>
    requires { IsKeyOf keys.now task.now key.now }
    ensures ok { IfOk result (λ made. script keys.now task.now ≡ Ok made) }
    ensures err { IfErr result (λ fault. IsScriptFault fault (script keys.now task.now)) }
{
    script_in(alloc, keys.store(), keys.exported(), key, task)
}

/// The script of a task, as `script_with` makes it. It is refused where the key of the task is.
pub fn script(alloc: Global, store: &Datastore, task: &str) -> Result<Text, ScriptFault>
    ensures ok { IfOk result (λ made. script store.now task.now ≡ Ok made) }
    ensures err { IfErr result (λ fault. IsScriptFault fault (script store.now task.now)) }
{
    let mut keys = StoreKeys::new(alloc, store)?;
    let key = keys.key(alloc, task)?;
    script_with(alloc, &keys, &key, task)
}

/// The script that the lines of a key alone tell; a name without a line is absent.
pub fn script_of(alloc: Global, key: &Key, task: &str) -> Result<Text, ScriptFault>
    ensures ok { IfOk result (λ made. script_of key.now task.now ≡ Ok made) }
    ensures err { IfErr result (λ fault. IsScriptFault fault (script_of key.now task.now)) }
{
    let from = OfKey::new(alloc, key, task)?;
    let frame = begun(alloc, &from, task)?;
    let lines = key.lines.as_slice();
    let exports = told_lines(alloc, &from, "export", lines)?;
    written(alloc, &from, exports.as_slice(), lines, task, &frame)
}
