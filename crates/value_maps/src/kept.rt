// What assignments made of a value or of a flag.
ghost use Rattle.std.specs.Prelude.{◌≡◌, ◌++◌, IfOk, OnOk, OnErr, option_copied};
ghost use Rattle.meta_model.specs.Slot.{nothing, assigned, with_value, old, at_end, is_set};
ghost use Rattle.meta_model.specs.Base.{may_export};
ghost use Rattle.meta_model.specs.declared.entry.Op.TheVariants.{Soft, Weak};
ghost use Rattle.value_maps.specs.Kept.{slot_of, with_call};

use meta_model::Op;
use std::alloc::Global;
use tree_model::{Mem, Text};

/// A value, its weak default, and whether EXPORT_FUNCTIONS put the value there.
#[derive(Drop)]
pub(crate) struct Kept {
    pub(crate) value: Option<Text>,
    pub(crate) weak: Option<Text>,
    pub(crate) exported: bool,
}

impl Kept {
    /// Nothing yet.
    pub(crate) fn new() -> Kept
        ensures { slot_of result ≡ nothing }
    {
        Kept {
            value: None,
            weak: None,
            exported: false,
        }
    }

    /// Whether a value or a weak default is there.
    pub(crate) fn is_set(&self) -> bool
        ensures { result ≡ is_set (slot_of self.now) }
    {
        self.value.is_some() || self.weak.is_some()
    }

    /// Whether EXPORT_FUNCTIONS gives a value here.
    pub(crate) fn may_export(&self) -> bool
        ensures { result ≡ may_export (slot_of self.now) }
    {
        self.exported || self.value.is_none()
    }

    /// The value, or the weak default where there is none.
    pub(crate) fn at_end(&self) -> Option<&str>
        ensures { option_copied result ≡ at_end (slot_of self.now) }
    {
        match &self.value {
            Some(value) => Some(value.as_str()),
            None => match &self.weak {
                Some(weak) => Some(weak.as_str()),
                None => None,
            },
        }
    }

    /// Another value.
    fn set(&mut self, value: Text)
        ensures { slot_of self.new ≡ with_value value (slot_of self.old) }
    {
        self.value = Some(value);
        self.exported = false;
    }

    /// A copy of the text as the value. Where memory is wanting, all is as before.
    fn set_copy(&mut self, alloc: Global, text: &str) -> Result<(), Mem>
        ensures ok { OnOk result (slot_of self.new ≡ with_value text.now (slot_of self.old)) }
        ensures err { OnErr result (slot_of self.new ≡ slot_of self.old) }
    {
        self.set(Text::from_str(alloc, text)?);
        Ok(())
    }

    /// A copy of the text as the value, where there is none. Where memory is wanting, all is as before.
    fn set_soft(&mut self, alloc: Global, text: &str) -> Result<(), Mem>
        ensures ok { OnOk result (slot_of self.new ≡ assigned Soft text.now (slot_of self.old)) }
        ensures err { OnErr result (slot_of self.new ≡ slot_of self.old) }
    {
        if self.value.is_none() {
            return self.set_copy(alloc, text);
        }
        Ok(())
    }

    /// A copy of the text as the weak default. Where memory is wanting, all is as before.
    fn set_weak(&mut self, alloc: Global, text: &str) -> Result<(), Mem>
        ensures ok { OnOk result (slot_of self.new ≡ assigned Weak text.now (slot_of self.old)) }
        ensures err { OnErr result (slot_of self.new ≡ slot_of self.old) }
    {
        self.weak = Some(Text::from_str(alloc, text)?);
        Ok(())
    }

    /// The value that EXPORT_FUNCTIONS gives.
    pub(crate) fn export(&mut self, call: Text)
        ensures { slot_of self.new ≡ with_call call (slot_of self.old) }
    {
        self.value = Some(call);
        self.exported = true;
    }

    /// The text behind the value. Where memory is wanting, all is as before.
    fn put_behind(&mut self, more: Text) -> Result<(), Mem>
        ensures ok { OnOk result (slot_of self.new ≡ with_value (old (slot_of self.old) ++ more) (slot_of self.old)) }
        ensures err { OnErr result (slot_of self.new ≡ slot_of self.old) }
    {
        match &mut self.value {
            Some(value) => value.push_str(more.as_str())?,
            None => self.value = Some(more),
        }
        self.exported = false;
        Ok(())
    }

    /// The text in front of the value. Where memory is wanting, all is as before.
    fn put_in_front(&mut self, more: Text) -> Result<(), Mem>
        ensures ok { OnOk result (slot_of self.new ≡ with_value (more ++ old (slot_of self.old)) (slot_of self.old)) }
        ensures err { OnErr result (slot_of self.new ≡ slot_of self.old) }
    {
        let mut front = more;
        match &self.value {
            Some(value) => front.push_str(value.as_str())?,
            None => (),
        }
        self.set(front);
        Ok(())
    }

    /// An assignment ("Syntax and Operators"). Where memory is wanting, all is as before.
    pub(crate) fn assign(&mut self, alloc: Global, op: Op, text: &str) -> Result<(), Mem>
        ensures ok { OnOk result (slot_of self.new ≡ assigned op text.now (slot_of self.old)) }
        ensures err { OnErr result (slot_of self.new ≡ slot_of self.old) }
    {
        match op {
            Op::Set => self.set_copy(alloc, text),
            Op::Now => self.set_copy(alloc, text),
            Op::Soft => self.set_soft(alloc, text),
            Op::Weak => self.set_weak(alloc, text),
            Op::AddBlank => self.put_behind(join(alloc, " ", text)?),
            Op::PutBlank => self.put_in_front(join(alloc, text, " ")?),
            Op::Add => self.put_behind(Text::from_str(alloc, text)?),
            Op::Put => self.put_in_front(Text::from_str(alloc, text)?),
        }
    }

    /// What a first assignment makes.
    pub(crate) fn first(alloc: Global, op: Op, text: &str) -> Result<Kept, Mem>
        ensures { IfOk result (λ made. slot_of made ≡ assigned op text.now nothing) }
    {
        let mut made = Kept::new();
        made.assign(alloc, op, text)?;
        Ok(made)
    }
}

/// One text behind the other.
pub(crate) fn join(alloc: Global, first: &str, second: &str) -> Result<Text, Mem>
    ensures { IfOk result (λ made. made ≡ first.now ++ second.now) }
{
    let mut made = Text::from_str(alloc, first)?;
    made.push_str(second)?;
    Ok(made)
}
