// The lines of a key as a task sees them.
ghost use Rattle.std.specs.Prelude.{◌≡◌, ◌++◌, ◌∷◌, [], IfOk, map, option_copied};
ghost use Rattle.std.specs.Bool.{OnTrue};
ghost use Rattle.meta_model.specs.Text.{in_byte_order};
ghost use Rattle.task_model.specs.Scripts.{value_at, words_of_line};
ghost use Rattle.script_gen.specs.Index.{IsIndex};

use crate::sight::Sight;
use meta_model::{Key, KeyLine, Resolved, copy_value, told_name, words};
use name_walk::place_of;
use std::alloc::Global;
use tree_model::{Mem, Text, Texts};
use var_deps::{flag_of, unless_bare};
use var_expand::{ExpandFault, Lookup};

/// The lines of a key as a task sees them, and their names where these ascend, as those of a key do: then a line is found in
/// steps of halving.
#[derive(Drop)]
pub(crate) struct OfKey<'a> {
    lines: &'a [KeyLine],
    names: Option<Texts>,
    task: &'a str,
    ghost index: { IsIndex lines.now names },
}

/// Whether a name comes behind all of these, which are in byte order.
fn goes_last(names: &[Text], name: &str) -> bool
    requires { in_byte_order names.now ≡ names.now }
    ensures { OnTrue result (in_byte_order (names.now ++ name.now ∷ []) ≡ names.now ++ name.now ∷ []) }
{
    match place_of(names, name) {
        Ok(_) => false,
        Err(place) => place == names.len(),
    }
}

/// The names of lines, where they ascend strictly.
fn names_of(alloc: Global, lines: &[KeyLine]) -> Result<Option<Texts>, Mem>
    ensures { IfOk result (λ made. IsIndex lines.now made) }
{
    let mut names = Texts::new(alloc);
    for line in lines {
        if !goes_last(names.as_slice(), line.name.as_str()) {
            return Ok(None);
        }
        names.push(line.name.copy()?)?;
    }
    Ok(Some(names))
}

/// What the line of a name has: the first line that has the name.
fn value_at<'a>(lines: &'a [KeyLine], name: &str) -> Option<&'a Resolved>
    ensures { option_copied result ≡ value_at lines.now name.now }
{
    for line in lines {
        if line.name.as_str() == name {
            return line.value.as_ref();
        }
    }
    None
}

/// What the line of a name has, where the names of the lines ascend.
fn found_at<'a>(lines: &'a [KeyLine], names: &[Text], name: &str) -> Option<&'a Resolved>
    requires names { names.now ≡ map (λ line. line.name) lines.now }
    requires ordered { in_byte_order names.now ≡ names.now }
    ensures { option_copied result ≡ value_at lines.now name.now }
{
    match place_of(names, name) {
        Ok(place) => lines[place].value.as_ref(),
        Err(_) => None,
    }
}

impl OfKey<'_> {
    /// The lines of a key for a task.
    pub(crate) fn new<'a>(alloc: Global, key: &'a Key, task: &'a str) -> Result<OfKey<'a>, Mem>
        ensures lines { IfOk result (λ made. made.lines.now ≡ key.now.lines) }
        ensures task { IfOk result (λ made. made.task.now ≡ task.now) }
    {
        let lines = key.lines.as_slice();
        Ok(OfKey {
            lines,
            names: names_of(alloc, lines)?,
            task,
        })
    }

    /// What the line of a name has.
    fn value_of(&self, name: &str) -> Option<&Resolved>
        ensures { option_copied result ≡ value_at self.now.lines.now name.now }
    {
        match &self.names {
            Some(names) => found_at(self.lines, names.as_slice(), name),
            None => value_at(self.lines, name),
        }
    }
}

/// The words that the line of a form tells.
fn words_of_line(alloc: Global, found: Option<&Resolved>) -> Result<Texts, Mem>
    ensures { IfOk result (λ made. made ≡ words_of_line (option_copied found.entry)) }
{
    match found {
        Some(found) => words(alloc, found.text.as_str()),
        None => Ok(Texts::new(alloc)),
    }
}

impl Lookup for OfKey<'_> {
    ghost use Rattle.task_model.specs.Views.{seen_by};
    ghost use Rattle.task_model.specs.Scripts.{find_at};

    ghost finds = { λ s. seen_by s.task.now (find_at s.lines.now) };

    fn find(&self, alloc: Global, name: &str) -> Result<Option<Resolved>, ExpandFault> {
        let found = copy_value(self.value_of(name))?;
        Ok(unless_bare(found, name == self.task))
    }

    fn known(&self, alloc: Global, name: &str, wanted: &[Text]) -> Result<Option<Texts>, Mem> {
        let line = told_name(alloc, name, wanted)?;
        Ok(Some(words_of_line(alloc, self.value_of(line.as_str()))?))
    }
}

impl Sight for OfKey<'_> {
    ghost use Rattle.task_model.specs.Scripts.{flag_at, value_at};

    ghost flags = { λ s f. flag_at f (value_at s.lines.now s.task.now) };

    fn flag(&self, name: &str) -> Option<&str> {
        match self.value_of(self.task) {
            Some(found) => flag_of(found, name),
            None => None,
        }
    }

    fn lacks(&self, _name: &str, _flag: &str) -> bool {
        false
    }
}
