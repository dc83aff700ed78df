// All that a store keeps of one name.
ghost use Rattle.std.specs.Prelude.{◌≡◌, ◌++◌, ◌∷◌, [], ℕ, List, IfOk, OnOk, OnErr, Some, None, codes, bytes_eq, if◌then◌else◌};
ghost use Rattle.std.specs.BTreeMap.{get_by_text};
ghost use Rattle.meta_model.specs.Slot.{nothing, assigned};
ghost use Rattle.meta_model.specs.Base.{exported_call};
ghost use Rattle.meta_model.specs.declared.entry.EntryLine.TheVariants.{Exported};
ghost use Rattle.value_maps.specs.Kept.{slot_of, flag_kept};
ghost use Rattle.value_maps.specs.Named.{slot_at, lates_at, flag_at, Steps, IsAlike, subject};

use crate::by_name::{drop_value, put_value};
use crate::kept::{Kept, join};
use meta_model::{EntryLine, Late, LateLine, Op};
use std::alloc::Global;
use std::collections::BTreeMap;
use tree_model::{Mem, Text, Texts};

/// The value, the late entries and the flags of a name.
#[derive(Drop)]
pub(crate) struct Named {
    pub(crate) kept: Kept,
    pub(crate) lates: Vec<LateLine>,
    pub(crate) flags: BTreeMap<String, Kept>,
}

/// An assignment to a flag. Where memory is wanting, all flags are as before.
fn assign_flag(
    flags: &mut BTreeMap<String, Kept>,
    alloc: Global,
    flag: &str,
    op: Op,
    text: &str,
) -> Result<(), Mem>
    ensures ok { OnOk result ((f : List ℕ) → flag_kept (get_by_text flags.new f)
        ≡ (if bytes_eq flag.now f then assigned op text.now (flag_kept (get_by_text flags.old f)) else flag_kept
        (get_by_text flags.old f))) }
    ensures err { OnErr result ((f : List ℕ) → flag_kept (get_by_text flags.new f)
        ≡ flag_kept (get_by_text flags.old f)) }
{
    match flags.get_mut(flag) {
        Some(kept) => kept.assign(alloc, op, text),
        None => {
            let kept = Kept::first(alloc, op, text)?;
            put_value(flags, alloc, flag, kept)
        }
    }
}

/// Takes a flag away.
fn drop_flag(flags: &mut BTreeMap<String, Kept>, flag: &str)
    ensures { (f : List ℕ) → flag_kept (get_by_text flags.new f)
        ≡ (if bytes_eq flag.now f then nothing else flag_kept (get_by_text flags.old f)) }
{
    drop_value(flags, flag);
}

/// The value that EXPORT_FUNCTIONS of a class gives to a function.
fn exported_call(alloc: Global, class: &str, name: &str) -> Result<Text, Mem>
    ensures { IfOk result (λ made. made ≡ exported_call class.now name.now) }
{
    let mut made = join(alloc, "    ", class)?;
    made.push_str("_")?;
    made.push_str(name)?;
    made.push_str("\n")?;
    Ok(made)
}

impl Named {
    /// Nothing yet. It takes no memory.
    pub(crate) fn new(alloc: Global) -> Named
        ensures value { slot_at (Some result) ≡ nothing }
        ensures late { lates_at (Some result) ≡ [] }
        ensures flags { (f : List ℕ) → flag_at (Some result) f ≡ nothing }
    {
        Named {
            kept: Kept::new(),
            lates: Vec::new(alloc),
            flags: BTreeMap::new(alloc),
        }
    }

    /// What a first entry makes.
    pub(crate) fn first(alloc: Global, line: &EntryLine) -> Result<Named, Mem>
        ensures { IfOk result (λ made. Steps None (Some made) (subject line.now) line.now) }
    {
        let mut made = Named::new(alloc);
        made.change(alloc, line)?;
        Ok(made)
    }

    /// A late entry behind the others.
    fn put_late(&mut self, kind: Late, when: &Texts, text: &Text) -> Result<(), Mem>
        ensures ok { OnOk result (self.new ≡ record self.old { lates = self.new.lates }) }
        ensures lates { OnOk result (self.new.lates.items ≡ self.old.lates.items
            ++ record { kind = kind; when = when.now; text = text.now } ∷ []) }
        ensures err { OnErr result (self.new ≡ record self.old { lates = self.new.lates }) }
        ensures same { OnErr result (self.new.lates.items ≡ self.old.lates.items) }
    {
        let when = when.copy()?;
        let text = text.copy()?;
        Ok(self.lates.push(LateLine { kind, when, text })?)
    }

    /// EXPORT_FUNCTIONS of a class, where the name may get a value from it. Where memory is wanting, all is as before.
    fn export(&mut self, alloc: Global, class: &str, name: &str) -> Result<(), Mem>
        ensures ok { OnOk result (Steps (Some self.old) (Some self.new) name.now (Exported class.now name.now)) }
        ensures err { OnErr result (IsAlike (Some self.old) (Some self.new)) }
    {
        if !self.kept.may_export() {
            return Ok(());
        }
        let call = exported_call(alloc, class, name)?;
        assign_flag(&mut self.flags, alloc, "func", Op::Set, "1")?;
        self.kept.export(call);
        Ok(())
    }

    /// Takes all away.
    fn clear(&mut self)
        ensures value { slot_at (Some self.new) ≡ nothing }
        ensures late { lates_at (Some self.new) ≡ [] }
        ensures flags { (f : List ℕ) → flag_at (Some self.new) f ≡ nothing }
    {
        self.kept = Kept::new();
        self.lates.clear();
        self.flags.clear();
    }

    /// One more entry, of this name. Where memory is wanting, all is as before.
    pub(crate) fn change(&mut self, alloc: Global, line: &EntryLine) -> Result<(), Mem>
        ensures ok { OnOk result (Steps (Some self.old) (Some self.new) (subject line.now) line.now) }
        ensures err { OnErr result (IsAlike (Some self.old) (Some self.new)) }
    {
        match line {
            EntryLine::Set { op, text, .. } => self.kept.assign(alloc, *op, text.as_str()),
            EntryLine::Later {
                kind,
                when,
                text,
                ..
            } => self.put_late(*kind, when, text),
            EntryLine::Flag { flag, op, text, .. } => assign_flag(
                &mut self.flags,
                alloc,
                flag.as_str(),
                *op,
                text.as_str(),
            ),
            EntryLine::Unset { .. } => {
                self.clear();
                Ok(())
            }
            EntryLine::UnsetFlag { flag, .. } => {
                drop_flag(&mut self.flags, flag.as_str());
                Ok(())
            }
            EntryLine::Exported { class, name } => {
                self.export(alloc, class.as_str(), name.as_str())
            }
            EntryLine::Task { .. } => Ok(()),
            EntryLine::NoTask { .. } => Ok(()),
        }
    }
}
