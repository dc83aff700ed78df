// The line of a name, and what is known of a name.
ghost use Rattle.std.specs.Prelude.{◌≡◌, ◌++◌, ◌<◌, ◌||◌, ◌&&◌, [], true, false, Bool, List, ℕ, Some, None, IfOk, IfErr, OnOk, Ok, codes, length, is_some, unwrap_or, Result, option_copied, slice_index_or};
ghost use Rattle.meta_model.specs.Base.{flag};
ghost use Rattle.meta_model.specs.Refusal.{Refusal};
ghost use Rattle.var_expand.specs.Faults.{IsFaultOf};
ghost use Rattle.datastore.specs.Faults.{refusal_of};
ghost use Rattle.task_model.specs.Leads.{Led as LedNames};
ghost use Rattle.task_model.specs.Keys.{Told, kept_flag, kept_flags, line_value, own_value, task_value, told_flags};
ghost use Rattle.var_deps.specs.FlagsOf.{AreFlags};
ghost use Rattle.var_deps.specs.Seen.{seen_with};
ghost use Rattle.var_deps.specs.Reading.{view_by, led_behind, line_behind, told_value};
ghost use Rattle.var_deps.specs.Led.{led_of};
ghost use Rattle.var_deps.specs.Known.{IsKnown, IsLine, read_led, told_at};

use crate::asked::asked_value;
use crate::led::{Led, leads};
use crate::seen::{Seen, flag_in, flags_of};
use datastore::{AllFlags, Datastore};
use meta_model::Resolved;
use std::alloc::Global;
use tree_model::{ListOf, Mem, Text, Texts};
use var_expand::{ExpandFault, Lookup, expand};

/// The line of a name, or why there is none.
#[derive(Drop)]
pub(crate) enum Line {
    /// The value, where there is one, and whether something of the name was left out.
    Told {
        value: Option<Resolved>,
        left_out: bool,
    },
    /// A text can't be read. It is never want of memory.
    Refused(ExpandFault),
}

/// What is known of a name: what it leads to, and its line.
#[derive(Drop)]
pub(crate) struct Known {
    pub(crate) led: Vec<Text>,
    pub(crate) line: Line,
}

/// A flag that the line of a task keeps, by its place in byte order.
fn kept_name(place: usize) -> &'static str
    requires { place < length kept_flags }
    ensures { (d : List ℕ) → result.now ≡ slice_index_or kept_flags place d }
{
    match place {
        0 => "cleandirs",
        1 => "dirs",
        2 => "export",
        3 => "func",
        4 => "noexec",
        5 => "postfuncs",
        6 => "prefuncs",
        7 => "sstate",
        8 => "sstate-inputdirs",
        _ => "sstate-outputdirs",
    }
}

/// What the line of a task keeps of a flag: its text, unexpanded; `sstate` is `1` where the task is one of the shared state, and
/// a task without a value has no `func`.
fn kept_text<'a>(
    store: &Datastore,
    task: &str,
    flags: &AllFlags<'a>,
    sstate: bool,
    valued: bool,
    which: &str,
) -> Option<&'a str>
    requires { AreFlags flags.now store.now task.now }
    ensures { option_copied result ≡ kept_flag (view_by store.now None [] sstate task.now) valued which.now }
{
    if which == "sstate" {
        return if sstate { Some("1") } else { None };
    }
    if which == "func" && !valued {
        return None;
    }
    flag_in(store, task, flags, which)
}

/// Puts a flag with its text at the end, where it has one.
fn push_flag(
    list: &mut ListOf<(Text, Text)>,
    alloc: Global,
    which: &str,
    text: Option<&str>,
) -> Result<(), Mem>
    ensures { OnOk result (list.new ≡ list.old ++ told_at which.now (option_copied text.entry)) }
{
    match text {
        Some(text) => list.push((Text::from_str(alloc, which)?, Text::from_str(alloc, text)?)),
        None => Ok(()),
    }
}

/// The flags of the line of a task, in byte order.
fn task_flags(
    alloc: Global,
    store: &Datastore,
    task: &str,
    flags: &AllFlags,
    sstate: bool,
    valued: bool,
) -> Result<ListOf<(Text, Text)>, Mem>
    requires { AreFlags flags.now store.now task.now }
    ensures { IfOk result (λ made. made ≡ told_flags (kept_flag (view_by store.now None [] sstate task.now) valued)
        kept_flags) }
{
    let mut list = ListOf::new(alloc);
    for place in 0..10 {
        let which = kept_name(place);
        push_flag(
            &mut list,
            alloc,
            which,
            kept_text(store, task, flags, sstate, valued, which),
        )?;
    }
    Ok(list)
}

/// The value of the line of a task, which is never absent.
fn task_value(
    alloc: Global,
    store: &Datastore,
    task: &str,
    flags: &AllFlags,
    sstate: bool,
    value: Option<Resolved>,
) -> Result<Resolved, Mem>
    requires { AreFlags flags.now store.now task.now }
    ensures { IfOk result (λ made. made ≡ task_value (view_by store.now None [] sstate task.now) value) }
{
    let flags = task_flags(alloc, store, task, flags, sstate, value.is_some())?;
    match value {
        Some(found) => Ok(Resolved {
            text: found.text,
            removes: found.removes,
            flags,
        }),
        None => Ok(Resolved {
            text: Text::new(alloc),
            removes: Texts::new(alloc),
            flags,
        }),
    }
}

/// The value of a line: `[vardepvalue]`, expanded, stands in place of the text.
fn line_value(
    alloc: Global,
    seen: &Seen,
    name: &str,
    flags: &AllFlags,
    found: Option<Resolved>,
) -> Result<Option<Resolved>, ExpandFault>
    requires { AreFlags flags.now seen.now.store.now name.now }
    ensures ok { IfOk result (λ made. line_value (view_by seen.now.store.now seen.now.task [] false []) name.now found
        ≡ Ok made) }
    ensures err { IfErr result (λ fault. IsFaultOf fault
        (line_value (view_by seen.now.store.now seen.now.task [] false []) name.now found)) }
{
    match found {
        Some(found) => match flag_in(seen.store, name, flags, "vardepvalue") {
            Some(text) => Ok(Some(Resolved {
                text: expand(alloc, text, seen)?,
                removes: found.removes,
                flags: found.flags,
            })),
            None => Ok(Some(found)),
        },
        None => Ok(None),
    }
}

/// The value of a line; of the task it is never absent. `sstate` says whether the task is one of the shared state.
fn own_value(
    alloc: Global,
    store: &Datastore,
    name: &str,
    flags: &AllFlags,
    sstate: Option<bool>,
    value: Option<Resolved>,
) -> Result<Option<Resolved>, Mem>
    requires { AreFlags flags.now store.now name.now }
    ensures { IfOk result (λ made. made ≡ own_value (view_by store.now None [] (unwrap_or sstate false) name.now)
        (is_some sstate) value) }
{
    match sstate {
        Some(sstate) => Ok(Some(task_value(alloc, store, name, flags, sstate, value)?)),
        None => Ok(value),
    }
}

/// The value of a line as it is told: of a form that is what it finds.
fn told_value(
    alloc: Global,
    seen: &Seen,
    name: &str,
    flags: &AllFlags,
    found: Option<Resolved>,
) -> Result<Option<Resolved>, ExpandFault>
    requires { AreFlags flags.now seen.now.store.now name.now }
    ensures ok { IfOk result (λ made. told_value (view_by seen.now.store.now seen.now.task [] false []) name.now found
        ≡ Ok made) }
    ensures err { IfErr result (λ fault. IsFaultOf fault
        (told_value (view_by seen.now.store.now seen.now.task [] false []) name.now found)) }
{
    let value = line_value(alloc, seen, name, flags, found)?;
    asked_value(alloc, seen, name, value)
}

/// The line of a name of which this is found and of whose names some were left out, or why there is none.
fn line_of(
    alloc: Global,
    seen: &Seen,
    sstate: Option<bool>,
    name: &str,
    flags: &AllFlags,
    found: Option<Resolved>,
    left_out: bool,
) -> Result<Line, Mem>
    requires { AreFlags flags.now seen.now.store.now name.now }
    ensures { (led : LedNames) → led.left_out ≡ left_out
        → IfOk result (λ made. IsLine made name.now (line_behind
        (view_by seen.now.store.now seen.now.task [] (unwrap_or sstate false) name.now) (is_some sstate) name.now
        found led)) }
{
    let told = flag_in(seen.store, name, flags, "vardepvalue");
    let replaced = found.is_some() && told.is_some();
    match told_value(alloc, seen, name, flags, found) {
        Ok(value) => Ok(Line::Told {
            value: own_value(alloc, seen.store, name, flags, sstate, value)?,
            left_out: left_out || replaced,
        }),
        Err(fault) => refused(fault),
    }
}

/// No line because of this fault, unless it is want of memory.
fn refused(fault: ExpandFault) -> Result<Line, Mem>
    ensures line { (name : List ℕ) (meant : Result Told Refusal) → IsFaultOf fault meant
        → IfOk result (λ made. IsLine made name meant) }
    ensures refused { OnOk result (is_some (refusal_of fault) ≡ true) }
{
    match fault {
        ExpandFault::Memory => Err(Mem),
        other => Ok(Line::Refused(other)),
    }
}

/// What is found of a name, and what it leads to.
fn read_name(
    alloc: Global,
    seen: &Seen,
    ignored: &[Text],
    own: bool,
    name: &str,
    flags: &AllFlags,
) -> Result<(Option<Resolved>, Led), ExpandFault>
    requires { AreFlags flags.now seen.now.store.now name.now }
    ensures found { IfOk result (λ made. (seen_with seen.now.store.now seen.now.task).at name.now ≡ Ok made.0) }
    ensures led { IfOk result (λ made. led_behind (view_by seen.now.store.now seen.now.task ignored.now false
        name.now) own name.now made.0 ≡ Ok (led_of made.1)) }
    ensures err { IfErr result (λ fault. IsFaultOf fault
        (read_led (view_by seen.now.store.now seen.now.task ignored.now false name.now) own name.now)) }
{
    let found = seen.find(alloc, name)?;
    let led = leads(alloc, seen, ignored, own, name, flags, &found)?;
    Ok((found, led))
}

/// What is known of a name: where a text can't be read it leads nowhere and has no line. `sstate` says of the task whether it is
/// one of the shared state; other names have none.
pub(crate) fn know(
    alloc: Global,
    seen: &Seen,
    ignored: &[Text],
    sstate: Option<bool>,
    name: &str,
) -> Result<Known, Mem>
    ensures { IfOk result (λ made. IsKnown (view_by seen.now.store.now seen.now.task ignored.now
        (unwrap_or sstate false) name.now) (is_some sstate) name.now made) }
{
    let flags = flags_of(seen.store, name);
    match read_name(alloc, seen, ignored, sstate.is_some(), name, &flags) {
        Ok((found, led)) => {
            let line = line_of(alloc, seen, sstate, name, &flags, found, led.left_out)?;
            Ok(Known {
                led: led.names,
                line,
            })
        }
        Err(fault) => Ok(Known {
            led: Vec::new(alloc),
            line: refused(fault)?,
        }),
    }
}
