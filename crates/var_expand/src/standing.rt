// Where the reading of a text stands.
ghost use Rattle.std.specs.Prelude.{◌≡◌, ◌<◌, IfOk, IfErr, [], true, false, Some, ◌⊎◌, length, map};
ghost use Rattle.meta_model.specs.Parts.{Levels, end, opened, before_brace, last, with_braces, joined_with, form_in, is_name, depth};
ghost use Rattle.meta_model.specs.Expansion.{deepest};
ghost use Rattle.var_expand.specs.Pieces.{text_before};
ghost use Rattle.var_expand.specs.Standing.{IsPlainInside, in_front, flattened};
ghost use Rattle.var_expand.specs.ReadOn.{held, read_on};

use crate::fault::ReadFault;
use crate::frame::Frame;
use meta_model::Form;
use std::alloc::Global;
use tree_model::Mem;

/// What is read so far: what stands before each reference that is open, the outermost first, and what stands behind the
/// last opening.
#[derive(Drop)]
pub(crate) struct Standing {
    outer: Vec<Frame>,
    inner: Frame,
}

/// All frames as one, with their openings as plain text.
fn flat(alloc: Global, outer: Vec<Frame>, inner: Frame) -> Result<Frame, Mem>
    ensures { IfOk result (λ made. held made ≡ joined_with (flattened (map held outer.items)) (held inner)) }
{
    let mut rest = outer;
    rest.reverse();
    let Some(mut whole) = rest.pop() else {
        return Ok(inner);
    };
    while let Some(frame) = rest.pop() {
        whole = whole.with_text(alloc, "${")?.with_frame(frame)?;
    }
    whole.with_text(alloc, "${")?.with_frame(inner)
}

impl Standing {
    /// The front of a text.
    pub(crate) fn new(alloc: Global) -> Standing
        ensures { (rest : Levels) → read_on result rest ≡ with_braces rest }
    {
        Standing {
            outer: Vec::new(alloc),
            inner: Frame::new(alloc),
        }
    }

    /// Behind one more opening.
    pub(crate) fn with_opening(self, alloc: Global) -> Result<Standing, Mem>
        ensures { IfOk result (λ made. (rest : Levels) → read_on made rest ≡ read_on self (opened rest)) }
    {
        let mut outer = self.outer;
        outer.push(self.inner)?;
        Ok(Standing {
            outer,
            inner: Frame::new(alloc),
        })
    }

    /// Behind plain text.
    pub(crate) fn with_run(self, alloc: Global, text: &str) -> Result<Standing, Mem>
        ensures { IfOk result (λ made. (rest : Levels)
            → read_on made rest ≡ read_on self (in_front (text_before text.now end) rest)) }
    {
        Ok(Standing {
            outer: self.outer,
            inner: self.inner.with_text(alloc, text)?,
        })
    }

    /// Behind a brace that closes the innermost reference.
    fn with_closing(self) -> Result<Standing, ReadFault>
        requires name { is_name (held self.inner) ≡ true }
        requires open { 0 < length self.outer.items }
        ensures ok { IfOk result (λ made. (rest : Levels) → read_on made rest ≡ read_on self (before_brace end rest)) }
        ensures deep { IfErr result (λ fault. fault ≡ ReadFault.TooDeep → (rest : Levels)
            → deepest < depth (read_on self (before_brace end rest))) }
    {
        if self.inner.nested == 64 {
            return Err(ReadFault::TooDeep);
        }
        let mut outer = self.outer;
        match outer.pop() {
            Some(frame) => Ok(Standing {
                outer,
                inner: frame.with_reference(self.inner)?,
            }),
            None => unreachable!(),
        }
    }

    /// Behind a brace that closes a form.
    fn with_form(self, form: Form) -> Result<Standing, Mem>
        requires name { is_name (held self.inner) ≡ false }
        requires form { form_in (held self.inner) ≡ Some form }
        requires open { 0 < length self.outer.items }
        ensures { IfOk result (λ made. (rest : Levels) → read_on made rest ≡ read_on self (before_brace end rest)) }
    {
        let mut outer = self.outer;
        match outer.pop() {
            Some(frame) => Ok(Standing {
                outer,
                inner: frame.with_form(form)?,
            }),
            None => unreachable!(),
        }
    }

    /// Behind a brace that closes nothing.
    fn with_plain_brace(self, alloc: Global) -> Result<Standing, Mem>
        requires { IsPlainInside (held self.inner) ⊎ (self.outer.items ≡ []) }
        ensures { IfOk result (λ made. (rest : Levels) → read_on made rest ≡ read_on self (before_brace end rest)) }
    {
        let whole = flat(alloc, self.outer, self.inner)?;
        Ok(Standing {
            outer: Vec::new(alloc),
            inner: whole.with_text(alloc, "}")?,
        })
    }

    /// Behind a brace. Where what stands behind the last opening is no name and no form, no reference that is open is one.
    pub(crate) fn with_brace(self, alloc: Global) -> Result<Standing, ReadFault>
        ensures ok { IfOk result (λ made. (rest : Levels) → read_on made rest ≡ read_on self (before_brace end rest)) }
        ensures deep { IfErr result (λ fault. fault ≡ ReadFault.TooDeep → (rest : Levels)
            → deepest < depth (read_on self (before_brace end rest))) }
    {
        if self.outer.is_empty() {
            return Ok(self.with_plain_brace(alloc)?);
        }
        if self.inner.is_name() {
            return self.with_closing();
        }
        match self.inner.form(alloc)? {
            Some(form) => Ok(self.with_form(form)?),
            None => Ok(self.with_plain_brace(alloc)?),
        }
    }

    /// The parts of the text that ends here.
    pub(crate) fn finished(self, alloc: Global) -> Result<Frame, Mem>
        ensures { IfOk result (λ made. held made ≡ read_on self (last end)) }
    {
        flat(alloc, self.outer, self.inner)
    }
}
