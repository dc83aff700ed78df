// What is read of a text between two openings.
ghost use Rattle.std.specs.Prelude.{◌≡◌, ◌≤◌, ◌<◌, IfOk};
ghost use Rattle.std.specs.List.{list_all, list_any};
ghost use Rattle.meta_model.specs.Parts.{end, reference, form as form', joined_with, form_in, is_name, plain_bytes, depth};
ghost use Rattle.var_expand.specs.Pieces.{text_before, parts_in, parts_in_list, is_name_part, is_something};

use crate::parts::{Part, Parts};
use meta_model::{Form, are_name_bytes, form_of};
use std::alloc::Global;
use tree_model::{Mem, Text};

/// Parts, and how deep references nest in them: 64 at most.
#[derive(Drop)]
pub(crate) struct Frame {
    pub(crate) parts: Parts,
    pub(crate) nested: usize,
    ghost exact: { nested ≡ depth (parts_in parts) },
    ghost shallow: { nested ≤ 64 },
}

/// Whether the part may stand in a reference.
fn is_name_part(part: &Part) -> bool
    ensures { result ≡ is_name_part part.now }
{
    match part {
        Part::Plain(text) => are_name_bytes(text.as_str().as_bytes()),
        Part::Ref(_) => true,
        Part::Call(_) => false,
    }
}

/// Whether the part isn't an empty text.
fn is_something(part: &Part) -> bool
    ensures { result ≡ is_something part.now }
{
    match part {
        Part::Plain(text) => !text.as_str().is_empty(),
        Part::Ref(_) | Part::Call(_) => true,
    }
}

/// Whether one of the parts isn't an empty text.
fn hold_something(parts: &[Part]) -> bool
    ensures { result ≡ list_any is_something parts.now }
{
    parts.iter().any(is_something)
}

/// Whether all parts may stand in a reference.
fn are_name_parts(parts: &[Part]) -> bool
    ensures { result ≡ list_all is_name_part parts.now }
{
    parts.iter().all(is_name_part)
}

/// The bytes of the parts, where all are plain.
fn plain_text(alloc: Global, parts: &[Part]) -> Result<Option<Text>, Mem>
    ensures { IfOk result (λ made. plain_bytes (parts_in_list parts.now) ≡ made) }
{
    let mut made = Text::new(alloc);
    for part in parts {
        match part {
            Part::Plain(text) => made.push_str(text.as_str())?,
            Part::Ref(_) | Part::Call(_) => return Ok(None),
        }
    }
    Ok(Some(made))
}

impl Frame {
    /// No parts.
    pub(crate) fn new(alloc: Global) -> Frame
        ensures { parts_in result.parts ≡ end }
    {
        Frame {
            parts: Parts {
                list: Vec::new(alloc),
            },
            nested: 0,
        }
    }

    /// Whether the parts may stand in a reference: one or more name characters or references.
    pub(crate) fn is_name(&self) -> bool
        ensures { result ≡ is_name (parts_in self.now.parts) }
    {
        let list = self.parts.list.as_slice();
        hold_something(list) && are_name_parts(list)
    }

    /// The form that the parts are the inside of, if one is.
    pub(crate) fn form(&self, alloc: Global) -> Result<Option<Form>, Mem>
        ensures { IfOk result (λ made. form_in (parts_in self.now.parts) ≡ made) }
    {
        match plain_text(alloc, self.parts.list.as_slice())? {
            Some(inside) => form_of(alloc, inside.as_str()),
            None => Ok(None),
        }
    }

    /// The parts with a form behind them.
    pub(crate) fn with_form(self, form: Form) -> Result<Frame, Mem>
        ensures { IfOk result (λ made. parts_in made.parts
            ≡ joined_with (parts_in self.parts) (form' form end)) }
    {
        let mut list = self.parts.list;
        list.push(Part::Call(form))?;
        Ok(Frame {
            parts: Parts { list },
            nested: self.nested,
        })
    }

    /// The parts with plain text behind them.
    pub(crate) fn with_text(self, alloc: Global, text: &str) -> Result<Frame, Mem>
        ensures { IfOk result (λ made. parts_in made.parts
            ≡ joined_with (parts_in self.parts) (text_before text.now end)) }
    {
        let mut list = self.parts.list;
        list.push(Part::Plain(Text::from_str(alloc, text)?))?;
        Ok(Frame {
            parts: Parts { list },
            nested: self.nested,
        })
    }

    /// The parts with a reference behind them, that has the other parts as its name.
    pub(crate) fn with_reference(self, name: Frame) -> Result<Frame, Mem>
        requires { name.nested < 64 }
        ensures { IfOk result (λ made. parts_in made.parts
            ≡ joined_with (parts_in self.parts) (reference (parts_in name.parts) end)) }
    {
        let mut list = self.parts.list;
        list.push(Part::Ref(name.parts))?;
        Ok(Frame {
            parts: Parts { list },
            nested: self.nested.max(name.nested + 1),
        })
    }

    /// The parts with others behind them.
    pub(crate) fn with_frame(self, more: Frame) -> Result<Frame, Mem>
        ensures { IfOk result (λ made. parts_in made.parts ≡ joined_with (parts_in self.parts) (parts_in more.parts)) }
    {
        let mut list = self.parts.list;
        let mut behind = more.parts.list;
        list.append(&mut behind)?;
        Ok(Frame {
            parts: Parts { list },
            nested: self.nested.max(more.nested),
        })
    }
}
