// Copies of what is kept of a name.
ghost use Rattle.std.specs.Prelude.{◌≡◌, ◌++◌, ◌∷◌, [], List, ℕ, Some, IfOk, OnOk, if◌then◌else◌, bytes_eq};
ghost use Rattle.std.specs.BTreeMap.{get_by_text};
ghost use Rattle.value_maps.specs.Kept.{slot_of, flag_kept};
ghost use Rattle.value_maps.specs.Named.{Steps, IsAlike, subject};

use crate::by_name::{drop_value, names_of, put_value};
use crate::kept::Kept;
use crate::named::Named;
use meta_model::{EntryLine, LateLine};
use std::alloc::Global;
use std::collections::BTreeMap;
use tree_model::{Mem, Text};

/// The same text again, where there is one.
fn copy_text(text: &Option<Text>) -> Result<Option<Text>, Mem>
    ensures { IfOk result (λ made. made ≡ text.now) }
{
    match text {
        Some(text) => Ok(Some(text.copy()?)),
        None => Ok(None),
    }
}

impl Kept {
    /// The same again.
    fn copy(&self) -> Result<Kept, Mem>
        ensures { IfOk result (λ made. slot_of made ≡ slot_of self.now) }
    {
        let value = copy_text(&self.value)?;
        let weak = copy_text(&self.weak)?;
        Ok(Kept {
            value,
            weak,
            exported: self.exported,
        })
    }
}

/// Puts a copy of a late entry behind the others.
fn push_late(made: &mut Vec<LateLine>, late: &LateLine) -> Result<(), Mem>
    ensures { OnOk result (made.new.items ≡ made.old.items ++ late.now ∷ []) }
{
    let when = late.when.copy()?;
    let text = late.text.copy()?;
    Ok(made.push(LateLine {
        kind: late.kind,
        when,
        text,
    })?)
}

/// The same late entries again.
fn copy_lates(alloc: Global, lates: &[LateLine]) -> Result<Vec<LateLine>, Mem>
    ensures { IfOk result (λ made. made.items ≡ lates.now) }
{
    let mut made = Vec::new(alloc);
    for late in lates {
        push_late(&mut made, late)?;
    }
    Ok(made)
}

/// Puts a copy of a flag among others, in place of one of its name.
fn put_flag(
    made: &mut BTreeMap<String, Kept>,
    alloc: Global,
    flags: &BTreeMap<String, Kept>,
    flag: &str,
) -> Result<(), Mem>
    ensures { OnOk result ((f : List ℕ) → flag_kept (get_by_text made.new f)
        ≡ (if bytes_eq flag.now f then flag_kept (get_by_text flags.now flag.now) else flag_kept
        (get_by_text made.old f))) }
{
    match flags.get(flag) {
        Some(kept) => {
            let kept = kept.copy()?;
            put_value(made, alloc, flag, kept)
        }
        None => {
            drop_value(made, flag);
            Ok(())
        }
    }
}

/// The same flags again.
fn copy_flags(alloc: Global, flags: &BTreeMap<String, Kept>) -> Result<BTreeMap<String, Kept>, Mem>
    ensures { IfOk result (λ made. (f : List ℕ) → flag_kept (get_by_text made f)
        ≡ flag_kept (get_by_text flags.now f)) }
{
    let names = names_of(alloc, flags)?;
    let mut made = BTreeMap::new(alloc);
    for name in names.as_slice() {
        put_flag(&mut made, alloc, flags, name.as_str())?;
    }
    Ok(made)
}

impl Named {
    /// The same again.
    fn copy(&self, alloc: Global) -> Result<Named, Mem>
        ensures { IfOk result (λ made. IsAlike (Some self.now) (Some made)) }
    {
        let kept = self.kept.copy()?;
        let lates = copy_lates(alloc, self.lates.as_slice())?;
        let flags = copy_flags(alloc, &self.flags)?;
        Ok(Named { kept, lates, flags })
    }

    /// What one more entry of this name makes of a copy.
    pub(crate) fn with_line(&self, alloc: Global, line: &EntryLine) -> Result<Named, Mem>
        ensures { IfOk result (λ made. Steps (Some self.now) (Some made) (subject line.now) line.now) }
    {
        let mut made = self.copy(alloc)?;
        made.change(alloc, line)?;
        Ok(made)
    }
}
