// Lines that tell what is kept of a name.
ghost use Rattle.std.specs.Prelude.{◌≡◌, ◌++◌, ◌∷◌, [], List, OnOk, IfOk, flat_map};
ghost use Rattle.std.specs.BTreeMap.{IsOrdered};
ghost use Rattle.std.specs.String.{string_cmp};
ghost use Rattle.meta_model.specs.declared.entry.EntryLine.TheVariants.{Set, Flag};
ghost use Rattle.meta_model.specs.declared.entry.EntryLine.{EntryLine as Line};
ghost use Rattle.meta_model.specs.Frozen.{given};
ghost use Rattle.value_maps.specs.Telling.{move_of, value_lines, flag_lines, told_kept, named_lines};
ghost use Rattle.value_maps.specs.Maps.{Keeps};
ghost use Rattle.value_maps.specs.Kept.{slot_of};
ghost use Rattle.value_maps.specs.Left.{kept_set};
ghost use Rattle.value_maps.specs.Picked.{picked};

use crate::by_name::push_name;
use crate::kept::Kept;
use crate::line::{flag_line, push_line, set_line, unset_flag_line};
use crate::maps::Maps;
use meta_model::{EntryLine, Op};
use std::alloc::Global;
use std::collections::BTreeMap;
use tree_model::{Mem, Text, Texts};

/// Puts an assignment behind the lines.
fn push_set(lines: &mut Vec<EntryLine>, target: &Text, op: Op, text: &Text) -> Result<(), Mem>
    ensures { OnOk result (lines.new.items ≡ lines.old.items ++ Set target.now op text.now ∷ []) }
{
    push_line(lines, set_line(target, op, text)?)
}

/// An assignment behind the lines, where there is a text.
fn push_text(
    lines: &mut Vec<EntryLine>,
    target: &Text,
    op: Op,
    text: &Option<Text>,
) -> Result<(), Mem>
    ensures { OnOk result (lines.new.items ≡ lines.old.items ++ given (Set target.now op) text.now) }
{
    match text {
        Some(text) => push_set(lines, target, op, text),
        None => Ok(()),
    }
}

/// The value and the weak default as lines of a name, behind the lines.
fn push_value(lines: &mut Vec<EntryLine>, target: &Text, kept: &Kept) -> Result<(), Mem>
    ensures { OnOk result (lines.new.items ≡ lines.old.items ++ value_lines target.now (slot_of kept.now)) }
{
    push_text(lines, target, Op::Set, &kept.value)?;
    push_text(lines, target, Op::Weak, &kept.weak)
}

/// Puts an assignment to a flag behind the lines.
fn push_set_flag(
    lines: &mut Vec<EntryLine>,
    target: &Text,
    flag: &Text,
    op: Op,
    text: &Text,
) -> Result<(), Mem>
    ensures { OnOk result (lines.new.items ≡ lines.old.items ++ Flag target.now flag.now op text.now ∷ []) }
{
    push_line(lines, flag_line(target, flag, op, text)?)
}

/// An assignment to a flag behind the lines, where there is a text.
fn push_flag_text(
    lines: &mut Vec<EntryLine>,
    target: &Text,
    flag: &Text,
    op: Op,
    text: &Option<Text>,
) -> Result<(), Mem>
    ensures { OnOk result (lines.new.items ≡ lines.old.items ++ given (Flag target.now flag.now op) text.now) }
{
    match text {
        Some(text) => push_set_flag(lines, target, flag, op, text),
        None => Ok(()),
    }
}

/// A flag as lines of a name, behind the lines.
fn push_flag(lines: &mut Vec<EntryLine>, target: &Text, flag: &Text, kept: &Kept) -> Result<(), Mem>
    ensures { OnOk result (lines.new.items ≡ lines.old.items ++ flag_lines target.now flag.now (slot_of kept.now)) }
{
    push_line(lines, unset_flag_line(target, flag)?)?;
    push_flag_text(lines, target, flag, Op::Set, &kept.value)?;
    push_flag_text(lines, target, flag, Op::Weak, &kept.weak)
}

/// The flags that are set, in byte order.
fn flags_of(alloc: Global, flags: &BTreeMap<String, Kept>) -> Result<Texts, Mem>
    ensures flags { IfOk result (λ made. made ≡ picked kept_set flags.now.entries) }
    ensures ordered { OnOk result (IsOrdered string_cmp flags.now) }
{
    let mut made = Texts::new(alloc);
    for (flag, kept) in flags {
        push_name(&mut made, alloc, flag.as_str(), kept.is_set())?;
    }
    Ok(made)
}

/// A flag that is kept as lines of a name, behind the lines.
fn push_kept(
    lines: &mut Vec<EntryLine>,
    target: &Text,
    flags: &BTreeMap<String, Kept>,
    flag: &Text,
) -> Result<(), Mem>
    ensures { OnOk result (lines.new.items ≡ lines.old.items ++ told_kept target.now flags.now flag.now) }
{
    match flags.get(flag.as_str()) {
        Some(kept) => push_flag(lines, target, flag, kept),
        None => Ok(()),
    }
}

/// The set flags as lines of a name, behind the lines.
fn push_flags(
    lines: &mut Vec<EntryLine>,
    target: &Text,
    flags: &BTreeMap<String, Kept>,
    names: &[Text],
) -> Result<(), Mem>
    ensures { OnOk result (lines.new.items ≡ lines.old.items ++ flat_map (told_kept target.now flags.now) names.now) }
{
    for name in names {
        push_kept(lines, target, flags, name)?;
    }
    Ok(())
}

impl Maps {
    /// The value and the flags of a name as lines of another, behind the lines.
    pub fn push_named(
        &self,
        lines: &mut Vec<EntryLine>,
        alloc: Global,
        source: &str,
        target: &Text,
    ) -> Result<(), Mem>
        ensures { (list : List Line) → Keeps list self.now
            → OnOk result (lines.new.items ≡ lines.old.items ++ named_lines list (move_of (source.now, target.now))) }
    {
        match self.of(source) {
            Some(named) => {
                let flags = flags_of(alloc, &named.flags)?;
                push_value(lines, target, &named.kept)?;
                push_flags(lines, target, &named.flags, flags.as_slice())
            }
            None => Ok(()),
        }
    }
}
