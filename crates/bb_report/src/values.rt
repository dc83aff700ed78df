// Names with their values.
ghost use Rattle.std.specs.Prelude.{◌≡◌, ◌++◌, IfOk, OnOk};
ghost use Rattle.run_model.specs.Texts as texts;

use meta_model::{Quoting, push_escaped};
use std::alloc::Global;
use tree_model::{Mem, Text};

/// Puts the line of a name and its value at the end.
fn push_line(made: &mut Text, name: &str, value: &str) -> Result<(), Mem>
    ensures { OnOk result (made.new ≡ made.old ++ texts.value_line (name.now, value.now)) }
{
    made.push_str(name)?;
    made.push_str("=\"")?;
    push_escaped(made, value, Quoting::Print)?;
    made.push_str("\"\n")
}

/// The lines of names and their values, in their order: `NAME="VALUE"`, in which a backslash, a quote and a newline have a
/// backslash in front, the newline as `\n` (own rule; BitBake User Manual, "The BitBake Command", option `-e`).
pub fn env_text(alloc: Global, rows: &[(Text, Text)]) -> Result<Text, Mem>
    ensures { IfOk result (λ made. made ≡ texts.env_text rows.now) }
{
    let mut made = Text::new(alloc);
    for row in rows {
        push_line(&mut made, row.0.as_str(), row.1.as_str())?;
    }
    Ok(made)
}

/// The line in front of the values of a target's recipe.
pub fn recipe_line(alloc: Global, pn: &str) -> Result<Text, Mem>
    ensures { IfOk result (λ made. made ≡ texts.recipe_line pn.now) }
{
    let mut made = Text::from_str(alloc, "# ")?;
    made.push_str(pn)?;
    made.push_str("\n")?;
    Ok(made)
}
