// What was read, in a few words.
ghost use Rattle.std.specs.Prelude.{◌≡◌, ◌++◌, IfOk, OnOk};
ghost use Rattle.run_model.specs.Texts as texts;

use itoa::Buffer;
use meta_model::{FactSet, RecipeFacts};
use std::alloc::Global;
use tree_model::{Mem, Text};

/// Puts the line of a recipe's version at the end.
fn push_version(made: &mut Text, recipe: &RecipeFacts) -> Result<(), Mem>
    ensures { OnOk result (made.new ≡ made.old ++ texts.version_line recipe.now) }
{
    made.push_str(recipe.pn.as_str())?;
    made.push_str(" ")?;
    made.push_str(recipe.pv.as_str())?;
    made.push_str("-")?;
    made.push_str(recipe.pr.as_str())?;
    made.push_str("\n")
}

/// The lines of the chosen versions, in the order of the recipes: `PN PV-PR` (own rule; BitBake User Manual, "The BitBake
/// Command", option `-s`).
pub fn versions_text(alloc: Global, facts: &FactSet) -> Result<Text, Mem>
    ensures { IfOk result (λ made. made ≡ texts.versions_text facts.now.recipes) }
{
    let mut made = Text::new(alloc);
    for recipe in facts.recipes.as_slice() {
        push_version(&mut made, recipe)?;
    }
    Ok(made)
}

/// The line of a reading of so many recipe files (BitBake User Manual, "The BitBake Command", option `-p`; the text is an own
/// rule).
pub fn parsed_text(alloc: Global, count: usize) -> Result<Text, Mem>
    ensures { IfOk result (λ made. made ≡ texts.parsed_text count) }
{
    let mut made = Text::from_str(alloc, "parsed ")?;
    made.push_str(Buffer::new().format(count))?;
    made.push_str(" recipes\n")?;
    Ok(made)
}
