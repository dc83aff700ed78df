// Entries made of copies of texts.
ghost use Rattle.std.specs.Prelude.{◌≡◌, ◌++◌, ◌∷◌, [], IfOk, OnOk, OnErr};
ghost use Rattle.meta_model.specs.declared.entry.EntryLine.TheVariants.{Set, Flag, UnsetFlag};

use meta_model::{EntryLine, Op};
use tree_model::{Mem, Text};

/// An assignment with copies of these texts.
pub fn set_line(name: &Text, op: Op, text: &Text) -> Result<EntryLine, Mem>
    ensures { IfOk result (λ made. made ≡ Set name.now op text.now) }
{
    let name = name.copy()?;
    let text = text.copy()?;
    Ok(EntryLine::Set { name, op, text })
}

/// An assignment to a flag with copies of these texts.
pub fn flag_line(name: &Text, flag: &Text, op: Op, text: &Text) -> Result<EntryLine, Mem>
    ensures { IfOk result (λ made. made ≡ Flag name.now flag.now op text.now) }
{
    let name = name.copy()?;
    let flag = flag.copy()?;
    let text = text.copy()?;
    Ok(EntryLine::Flag {
        name,
        flag,
        op,
        text,
    })
}

/// The end of the use of a flag, with copies of these texts.
pub fn unset_flag_line(name: &Text, flag: &Text) -> Result<EntryLine, Mem>
    ensures { IfOk result (λ made. made ≡ UnsetFlag name.now flag.now) }
{
    let name = name.copy()?;
    let flag = flag.copy()?;
    Ok(EntryLine::UnsetFlag { name, flag })
}

/// Puts an entry behind the others. Where memory is wanting, they are as before.
pub fn push_line(lines: &mut Vec<EntryLine>, line: EntryLine) -> Result<(), Mem>
    ensures ok { OnOk result (lines.new.items ≡ lines.old.items ++ line ∷ []) }
    ensures err { OnErr result (lines.new.items ≡ lines.old.items) }
{
    Ok(lines.push(line)?)
}
