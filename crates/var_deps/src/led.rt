// What a name leads to.
ghost use Rattle.std.specs.Prelude.{◌≡◌, ◌++◌, ◌∷◌, [], ◌<◌, true, false, List, ℕ, Some, None, IfOk, IfErr, OnOk, Ok, length, codes, slice_index_or};
ghost use Rattle.meta_model.specs.Base.{flag};
ghost use Rattle.var_expand.specs.Faults.{IsFaultOf};
ghost use Rattle.meta_model.specs.References.{looked_up};
ghost use Rattle.task_model.specs.Views.{is_function};
ghost use Rattle.task_model.specs.Leads.{flag_words, all_looked_up, functions_of, called_by, by_text, by_value, by_flags, read_flags, without};
ghost use Rattle.var_deps.specs.FlagsOf.{AreFlags};
ghost use Rattle.var_deps.specs.Seen.{seen_with};
ghost use Rattle.var_deps.specs.Reading.{view_by, function_named, flag_looked_up, all_led, led_behind};
ghost use Rattle.meta_model.specs.Passing.{behind};
ghost use Rattle.var_deps.specs.Led.{led_of, kept_more};

use crate::asked::{asked_by, is_omitted};
use crate::runs::runs;
use crate::seen::{Seen, flag_in, is_function};
use datastore::AllFlags;
use meta_model::Resolved;
use std::alloc::Global;
use tree_model::{Mem, Text, Texts};
use var_expand::{ExpandFault, Lookup, are_name_bytes, expand, references, value, words};

/// Names that are led to, and whether one was left out.
#[derive(Drop)]
pub(crate) struct Led {
    pub(crate) names: Vec<Text>,
    pub(crate) left_out: bool,
}

/// Puts copies of texts at the end.
pub(crate) fn push_all(list: &mut Vec<Text>, more: &[Text]) -> Result<(), Mem>
    ensures { OnOk result (list.new.items ≡ list.old.items ++ more.now) }
{
    for text in more {
        list.push(text.copy()?)?;
    }
    Ok(())
}

/// The texts of two lists, one behind the other.
pub(crate) fn all_of(alloc: Global, first: &[Text], second: &[Text]) -> Result<Vec<Text>, Mem>
    ensures { IfOk result (λ made. made.items ≡ first.now ++ second.now) }
{
    let mut list = Vec::new(alloc);
    push_all(&mut list, first)?;
    push_all(&mut list, second)?;
    Ok(list)
}

/// Puts the names that a text looks up at the end.
fn push_looked_up(
    list: &mut Vec<Text>,
    alloc: Global,
    seen: &Seen,
    text: &str,
) -> Result<(), ExpandFault>
    ensures ok { OnOk result (behind list.old.items (looked_up (seen_with seen.now.store.now seen.now.task) text.now)
        ≡ Ok list.new.items) }
    ensures err { IfErr result (λ fault. IsFaultOf fault
        (looked_up (seen_with seen.now.store.now seen.now.task) text.now)) }
{
    let names = references(alloc, text, seen)?;
    push_all(list, names.as_slice())?;
    Ok(())
}

/// Puts the names that texts look up at the end.
fn push_all_looked_up(
    list: &mut Vec<Text>,
    alloc: Global,
    seen: &Seen,
    texts: &[Text],
) -> Result<(), ExpandFault>
    ensures ok { OnOk result (behind list.old.items (all_looked_up (seen_with seen.now.store.now seen.now.task)
        texts.now) ≡ Ok list.new.items) }
    ensures err { IfErr result (λ fault. IsFaultOf fault
        (all_looked_up (seen_with seen.now.store.now seen.now.task) texts.now)) }
{
    for text in texts {
        push_looked_up(list, alloc, seen, text.as_str())?;
    }
    Ok(())
}

/// Whether what was found is a function.
fn found_is_function(found: Option<Resolved>) -> bool
    ensures { result ≡ is_function found }
{
    match found {
        Some(found) => is_function(&found),
        None => false,
    }
}

/// Puts a name at the end, where it is a function.
fn push_if_function(
    list: &mut Vec<Text>,
    alloc: Global,
    seen: &Seen,
    name: &Text,
) -> Result<(), ExpandFault>
    ensures ok { OnOk result (behind list.old.items (function_named (seen_with seen.now.store.now seen.now.task)
        name.now) ≡ Ok list.new.items) }
    ensures err { IfErr result (λ fault. IsFaultOf fault
        (function_named (seen_with seen.now.store.now seen.now.task) name.now)) }
{
    if found_is_function(seen.find(alloc, name.as_str())?) {
        list.push(name.copy()?)?;
    }
    Ok(())
}

/// Puts those of the names at the end that are functions.
fn push_functions(
    list: &mut Vec<Text>,
    alloc: Global,
    seen: &Seen,
    names: &[Text],
) -> Result<(), ExpandFault>
    ensures ok { OnOk result (behind list.old.items (functions_of (seen_with seen.now.store.now seen.now.task)
        names.now) ≡ Ok list.new.items) }
    ensures err { IfErr result (λ fault. IsFaultOf fault
        (functions_of (seen_with seen.now.store.now seen.now.task) names.now)) }
{
    for name in names {
        push_if_function(list, alloc, seen, name)?;
    }
    Ok(())
}

/// Puts the functions at the end that the expanded text of a function names.
fn push_called(
    list: &mut Vec<Text>,
    alloc: Global,
    seen: &Seen,
    name: &str,
) -> Result<(), ExpandFault>
    ensures ok { OnOk result (behind list.old.items (called_by (seen_with seen.now.store.now seen.now.task) name.now
        true) ≡ Ok list.new.items) }
    ensures err { IfErr result (λ fault. IsFaultOf fault
        (called_by (seen_with seen.now.store.now seen.now.task) name.now true)) }
{
    let text = value(alloc, name, seen)?;
    match text {
        Some(text) => {
            let names = runs(alloc, seen, text.as_str())?;
            push_functions(list, alloc, seen, names.as_slice())
        }
        None => Ok(()),
    }
}

/// Puts what the text of a value leads to at the end. Where `[vardepvalue]` stands in place of it that is nothing.
fn push_by_text(
    list: &mut Vec<Text>,
    alloc: Global,
    seen: &Seen,
    name: &str,
    flags: &AllFlags,
    found: &Resolved,
) -> Result<(), ExpandFault>
    requires { AreFlags flags.now seen.now.store.now name.now }
    ensures ok { OnOk result (behind list.old.items (by_text (view_by seen.now.store.now seen.now.task [] false [])
        name.now found.now (flag seen.now.store.now name.now (codes "vardepvalue"))) ≡ Ok list.new.items) }
    ensures err { IfErr result (λ fault. IsFaultOf fault
        (by_text (view_by seen.now.store.now seen.now.task [] false []) name.now found.now
        (flag seen.now.store.now name.now (codes "vardepvalue")))) }
{
    if flag_in(seen.store, name, flags, "vardepvalue").is_some() {
        return Ok(());
    }
    push_looked_up(list, alloc, seen, found.text.as_str())?;
    if is_function(found) {
        return push_called(list, alloc, seen, name);
    }
    Ok(())
}

/// Puts what a value leads to at the end.
fn push_by_value(
    list: &mut Vec<Text>,
    alloc: Global,
    seen: &Seen,
    name: &str,
    flags: &AllFlags,
    found: &Option<Resolved>,
) -> Result<(), ExpandFault>
    requires { AreFlags flags.now seen.now.store.now name.now }
    ensures ok { OnOk result (behind list.old.items (by_value (view_by seen.now.store.now seen.now.task [] false [])
        name.now found.now) ≡ Ok list.new.items) }
    ensures err { IfErr result (λ fault. IsFaultOf fault
        (by_value (view_by seen.now.store.now seen.now.task [] false []) name.now found.now)) }
{
    match found {
        Some(found) => {
            push_by_text(list, alloc, seen, name, flags, found)?;
            push_all_looked_up(list, alloc, seen, found.removes.as_slice())
        }
        None => Ok(()),
    }
}

/// A flag of a task that its script and its places are made from, by its place in byte order.
fn read_flag(place: usize) -> &'static str
    requires { place < length read_flags }
    ensures { (d : List ℕ) → result.now ≡ slice_index_or read_flags place d }
{
    match place {
        0 => "cleandirs",
        1 => "dirs",
        2 => "noexec",
        3 => "postfuncs",
        4 => "prefuncs",
        5 => "sstate-inputdirs",
        _ => "sstate-outputdirs",
    }
}

/// Puts what the text of a flag looks up at the end.
fn push_flag(
    list: &mut Vec<Text>,
    alloc: Global,
    seen: &Seen,
    name: &str,
    flags: &AllFlags,
    which: &str,
) -> Result<(), ExpandFault>
    requires { AreFlags flags.now seen.now.store.now name.now }
    ensures ok { OnOk result (behind list.old.items (flag_looked_up (seen_with seen.now.store.now seen.now.task)
        (flag seen.now.store.now name.now which.now)) ≡ Ok list.new.items) }
    ensures err { IfErr result (λ fault. IsFaultOf fault
        (flag_looked_up (seen_with seen.now.store.now seen.now.task) (flag seen.now.store.now name.now which.now))) }
{
    match flag_in(seen.store, name, flags, which) {
        Some(text) => push_looked_up(list, alloc, seen, text),
        None => Ok(()),
    }
}

/// Puts what the flags of a task look up at the end.
fn push_flags(
    list: &mut Vec<Text>,
    alloc: Global,
    seen: &Seen,
    task: &str,
    flags: &AllFlags,
) -> Result<(), ExpandFault>
    requires { AreFlags flags.now seen.now.store.now task.now }
    ensures ok { OnOk result (behind list.old.items (by_flags
        (view_by seen.now.store.now seen.now.task [] false task.now) true) ≡ Ok list.new.items) }
    ensures err { IfErr result (λ fault. IsFaultOf fault
        (by_flags (view_by seen.now.store.now seen.now.task [] false task.now) true)) }
{
    for place in 0..7 {
        push_flag(list, alloc, seen, task, flags, read_flag(place))?;
    }
    Ok(())
}

/// Puts what the flags of a name look up at the end, where it is the task's own.
fn push_by_flags(
    list: &mut Vec<Text>,
    alloc: Global,
    seen: &Seen,
    own: bool,
    name: &str,
    flags: &AllFlags,
) -> Result<(), ExpandFault>
    requires { AreFlags flags.now seen.now.store.now name.now }
    ensures ok { OnOk result (behind list.old.items (by_flags
        (view_by seen.now.store.now seen.now.task [] false name.now) own) ≡ Ok list.new.items) }
    ensures err { IfErr result (λ fault. IsFaultOf fault
        (by_flags (view_by seen.now.store.now seen.now.task [] false name.now) own)) }
{
    if own {
        return push_flags(list, alloc, seen, name, flags);
    }
    Ok(())
}

/// The words of the expanded text of a flag, none where it isn't set.
pub(crate) fn words_of_flag(
    alloc: Global,
    seen: &Seen,
    name: &str,
    flags: &AllFlags,
    which: &str,
) -> Result<Texts, ExpandFault>
    requires { AreFlags flags.now seen.now.store.now name.now }
    ensures ok { IfOk result (λ made. flag_words (view_by seen.now.store.now seen.now.task [] false []) name.now
        which.now ≡ Ok made) }
    ensures err { IfErr result (λ fault. IsFaultOf fault
        (flag_words (view_by seen.now.store.now seen.now.task [] false []) name.now which.now)) }
{
    let told = flag_in(seen.store, name, flags, which);
    let text = expand(alloc, told.unwrap_or(""), seen)?;
    Ok(words(alloc, text.as_str())?)
}

/// Puts the words of a flag at the end.
fn push_words(
    list: &mut Vec<Text>,
    alloc: Global,
    seen: &Seen,
    name: &str,
    flags: &AllFlags,
    which: &str,
) -> Result<(), ExpandFault>
    requires { AreFlags flags.now seen.now.store.now name.now }
    ensures ok { OnOk result (behind list.old.items (flag_words (view_by seen.now.store.now seen.now.task [] false [])
        name.now which.now) ≡ Ok list.new.items) }
    ensures err { IfErr result (λ fault. IsFaultOf fault
        (flag_words (view_by seen.now.store.now seen.now.task [] false []) name.now which.now)) }
{
    let more = words_of_flag(alloc, seen, name, flags, which)?;
    push_all(list, more.as_slice())?;
    Ok(())
}

/// Puts what a name leads to at the end, whether it is left out or not; of the task also what its flags look up.
fn push_led(
    list: &mut Vec<Text>,
    alloc: Global,
    seen: &Seen,
    own: bool,
    name: &str,
    flags: &AllFlags,
    found: &Option<Resolved>,
) -> Result<(), ExpandFault>
    requires { AreFlags flags.now seen.now.store.now name.now }
    ensures ok { OnOk result (behind list.old.items (all_led
        (view_by seen.now.store.now seen.now.task [] false name.now) own name.now found.now) ≡ Ok list.new.items) }
    ensures err { IfErr result (λ fault. IsFaultOf fault
        (all_led (view_by seen.now.store.now seen.now.task [] false name.now) own name.now found.now)) }
{
    push_by_value(list, alloc, seen, name, flags, found)?;
    push_by_flags(list, alloc, seen, own, name, flags)?;
    push_words(list, alloc, seen, name, flags, "vardeps")
}

/// Takes a name up, unless it is left out on request. One that has no part in keys isn't counted.
fn keep(
    alloc: Global,
    led: &mut Led,
    ignored: &[Text],
    excluded: &[Text],
    name: Text,
) -> Result<(), Mem>
    ensures { OnOk result (led_of led.new ≡ kept_more (ignored.now ++ excluded.now) name (led_of led.old)) }
{
    let asked = asked_by(alloc, name.as_str())?;
    if asked.is_none() && !are_name_bytes(name.as_str().as_bytes()) {
        return Ok(());
    }
    if is_omitted(name.as_str(), &asked, ignored, excluded) {
        led.left_out = true;
        return Ok(());
    }
    Ok(led.names.push(name)?)
}

/// The names that aren't left out, and whether one is.
pub(crate) fn without(
    alloc: Global,
    names: Vec<Text>,
    ignored: &[Text],
    excluded: &[Text],
) -> Result<Led, Mem>
    ensures { IfOk result (λ made. led_of made ≡ without (ignored.now ++ excluded.now) names.items) }
{
    let mut led = Led {
        names: Vec::new(alloc),
        left_out: false,
    };
    for name in names {
        keep(alloc, &mut led, ignored, excluded, name)?;
    }
    Ok(led)
}

/// What a name leads to, where this is found of it.
pub(crate) fn leads(
    alloc: Global,
    seen: &Seen,
    ignored: &[Text],
    own: bool,
    name: &str,
    flags: &AllFlags,
    found: &Option<Resolved>,
) -> Result<Led, ExpandFault>
    requires { AreFlags flags.now seen.now.store.now name.now }
    ensures ok { IfOk result (λ made. led_behind (view_by seen.now.store.now seen.now.task ignored.now false name.now)
        own name.now found.now ≡ Ok (led_of made)) }
    ensures err { IfErr result (λ fault. IsFaultOf fault
        (led_behind (view_by seen.now.store.now seen.now.task ignored.now false name.now) own name.now found.now)) }
{
    let mut list = Vec::new(alloc);
    push_led(&mut list, alloc, seen, own, name, flags, found)?;
    let excluded = words_of_flag(alloc, seen, name, flags, "vardepsexclude")?;
    Ok(without(alloc, list, ignored, excluded.as_slice())?)
}
