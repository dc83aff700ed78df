// What forms ask for, by the names under which keys tell what they find.
ghost use Rattle.std.specs.Prelude.{◌≡◌, ◌∷◌, ◌++◌, ◌||◌, [], IfOk, IfErr, Ok, Some, Option, false, is_some};
ghost use Rattle.meta_model.specs.declared.value.Resolved.{Resolved as Has};
ghost use Rattle.meta_model.specs.Forms.{as_asked, asked_by, words_in};
ghost use Rattle.task_model.specs.Leads.{is_omitted};
ghost use Rattle.task_model.specs.Keys.{asked_value};
ghost use Rattle.var_expand.specs.Faults.{IsFaultOf};
ghost use Rattle.var_deps.specs.Reading.{view_by};

use crate::seen::Seen;
use meta_model::{Resolved, as_texts, is_among, spaced, words_in};
use std::alloc::Global;
use tree_model::{ListOf, Mem, Text, Texts};
use var_expand::{ExpandFault, value, words};

/// A name with at least one word behind it.
fn as_asked(alloc: Global, pieces: &[Text]) -> Result<Option<(Text, Texts)>, Mem>
    ensures { IfOk result (λ made. as_asked pieces.now ≡ made) }
{
    match pieces {
        [name, _, ..] => Ok(Some((name.copy()?, as_texts(alloc, &pieces[1..])?))),
        _ => Ok(None),
    }
}

/// The name and the words that a form asks for, where a name is one under which a key tells what it finds.
pub(crate) fn asked_by(alloc: Global, name: &str) -> Result<Option<(Text, Texts)>, Mem>
    ensures { IfOk result (λ made. asked_by name.now ≡ made) }
{
    if name.is_empty() || name.as_bytes()[0] != b'@' {
        return Ok(None);
    }
    let pieces = words(alloc, &name[1..])?;
    as_asked(alloc, pieces.as_slice())
}

/// Whether something is left out of the key of a task: of one whose own name is one under which a key tells what a form finds
/// something always is.
pub(crate) fn is_left_out(alloc: Global, task: &str, left_out: bool) -> Result<bool, Mem>
    ensures { IfOk result (λ made. made ≡ (is_some (asked_by task.now) || left_out)) }
{
    Ok(asked_by(alloc, task)?.is_some() || left_out)
}

/// Whether a name, or the one that a form asks for, is among these.
pub(crate) fn is_omitted(
    name: &str,
    asked: &Option<(Text, Texts)>,
    ignored: &[Text],
    excluded: &[Text],
) -> bool
    requires { asked_by name.now ≡ asked.now }
    ensures { result ≡ is_omitted (ignored.now ++ excluded.now) name.now }
{
    let own = match asked {
        Some(asked) => asked.0.as_str(),
        None => name,
    };
    is_among(own, ignored) || is_among(own, excluded)
}

/// Those of the words that stand in a value; none where there is no value.
fn found_words(alloc: Global, wanted: &[Text], value: Option<Text>) -> Result<Texts, Mem>
    ensures { IfOk result (λ made. made ≡ words_in wanted.now value) }
{
    match value {
        Some(text) => words_in(alloc, wanted, text.as_str()),
        None => Ok(Texts::new(alloc)),
    }
}

/// The value of the line of a form that asks for these words of a name.
fn found_value(
    alloc: Global,
    seen: &Seen,
    name: &str,
    wanted: &[Text],
) -> Result<Resolved, ExpandFault>
    ensures ok { IfOk result (λ made. (read : Option Has) → asked_value
        (view_by seen.now.store.now seen.now.task [] false []) (Some (name.now, wanted.now)) read ≡ Ok (Some made)) }
    ensures err { IfErr result (λ fault. (read : Option Has) → IsFaultOf fault (asked_value
        (view_by seen.now.store.now seen.now.task [] false []) (Some (name.now, wanted.now)) read)) }
{
    let found = value(alloc, name, seen)?;
    let there = found_words(alloc, wanted, found)?;
    Ok(Resolved {
        text: spaced(alloc, there.as_slice())?,
        removes: Texts::new(alloc),
        flags: ListOf::new(alloc),
    })
}

/// The value of a line: that of a form tells which of its words stand in the value of its name.
pub(crate) fn asked_value(
    alloc: Global,
    seen: &Seen,
    name: &str,
    read: Option<Resolved>,
) -> Result<Option<Resolved>, ExpandFault>
    ensures ok { IfOk result (λ made. asked_value (view_by seen.now.store.now seen.now.task [] false [])
        (asked_by name.now) read ≡ Ok made) }
    ensures err { IfErr result (λ fault. IsFaultOf fault
        (asked_value (view_by seen.now.store.now seen.now.task [] false []) (asked_by name.now) read)) }
{
    match asked_by(alloc, name)? {
        Some((asked, wanted)) => Ok(Some(found_value(
            alloc,
            seen,
            asked.as_str(),
            wanted.as_slice(),
        )?)),
        None => Ok(read),
    }
}
