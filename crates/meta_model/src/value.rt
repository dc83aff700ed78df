// Values before expansion, and the keys of tasks.
ghost use Rattle.std.specs.Option.{option_copied};
ghost use Rattle.std.specs.Prelude.{◌≡◌, IfOk};

use tree_model::{ListOf, Mem, Text, Texts};

/// The value of a name under the active overrides, before expansion.
#[derive(Debug, Drop)]
pub struct Resolved {
    /// The text, with the appends and prepends that count.
    pub text: Text,
    /// The texts of the removes that count, unexpanded.
    pub removes: Texts,
    /// Flags of the name with their texts, unexpanded.
    pub flags: ListOf<(Text, Text)>,
}

impl Resolved {
    /// The same value again.
    pub fn copy(&self) -> Result<Resolved, Mem>
        ensures { IfOk result (λ made. made ≡ self.now) }
    {
        Ok(Resolved {
            text: self.text.copy()?,
            removes: self.removes.copy()?,
            flags: self.flags.copy()?,
        })
    }
}

/// The same value again, where there is one.
pub fn copy_value(value: Option<&Resolved>) -> Result<Option<Resolved>, Mem>
    ensures { IfOk result (λ made. made ≡ option_copied value.entry) }
{
    match value {
        Some(value) => Ok(Some(value.copy()?)),
        None => Ok(None),
    }
}

/// A line of a key: a name and what it has, or that it has no value.
#[derive(Debug, Drop)]
pub struct KeyLine {
    /// The name.
    pub name: Text,
    /// Its resolved value, where it has one.
    pub value: Option<Resolved>,
}

/// What decides whether a task has to run again: the names that it reads, directly or through others, and their values.
#[derive(Debug, Drop)]
pub struct Key {
    /// The lines, ascending strictly by the bytes of their names.
    pub lines: ListOf<KeyLine>,
    /// Whether a name or a text was left out on request.
    pub excluded: bool,
}
