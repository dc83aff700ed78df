// From a text to its parts.
ghost use Rattle.std.specs.Prelude.{◌≡◌, ◌<◌, ◌≤◌, IfOk, IfErr, Ok, length, drop};
ghost use Rattle.std.specs.Str.{IsCharBoundary};
ghost use Rattle.meta_model.specs.Parts.{parts_of, depth};
ghost use Rattle.meta_model.specs.Expansion.{deepest};
ghost use Rattle.var_expand.specs.Faults.{IsFaultOf};
ghost use Rattle.var_expand.specs.Pieces.{parts_in, shallow_parts};
ghost use Rattle.var_expand.specs.Standing.{levels};
ghost use Rattle.var_expand.specs.ReadOn.{read_on};

use crate::fault::{ExpandFault, ReadFault};
use crate::parts::Parts;
use crate::scan::run_len;
use crate::standing::Standing;
use std::alloc::Global;
use tree_model::Text;

/// Reads what stands at the front of the rest: an opening, a brace, or plain text up to the next of these. The number is
/// that of the bytes that are read.
fn step(standing: Standing, alloc: Global, rest: &str) -> Result<(Standing, usize), ReadFault>
    requires { 0 < length rest.now }
    ensures moves { IfOk result (λ made. 0 < made.1) }
    ensures within { IfOk result (λ made. made.1 ≤ length rest.now) }
    ensures cut { IfOk result (λ made. IsCharBoundary rest.now made.1) }
    ensures reads { IfOk result (λ made. read_on made.0 (levels (drop made.1 rest.now))
        ≡ read_on standing (levels rest.now)) }
    ensures deep { IfErr result (λ fault. fault ≡ ReadFault.TooDeep
        → deepest < depth (read_on standing (levels rest.now))) }
{
    let bytes = rest.as_bytes();
    if bytes.starts_with(b"${") {
        return Ok((standing.with_opening(alloc)?, 2));
    }
    if bytes.starts_with(b"}") {
        return Ok((standing.with_brace(alloc)?, 1));
    }
    let run = run_len(bytes);
    Ok((standing.with_run(alloc, &rest[..run])?, run))
}

/// The parts of a text, unless they nest more than 64 deep.
pub(crate) fn read(alloc: Global, text: &str) -> Result<Parts, ReadFault>
    ensures ok { IfOk result (λ made. parts_in made ≡ parts_of text.now) }
    ensures shallow { IfOk result (λ made. depth (parts_of text.now) ≤ deepest) }
    ensures deep { IfErr result (λ fault. fault ≡ ReadFault.TooDeep → deepest < depth (parts_of text.now)) }
{
    let mut standing = Standing::new(alloc);
    let mut rest = text;
    while !rest.is_empty() {
        let (next, used) = step(standing, alloc, rest)?;
        standing = next;
        rest = &rest[used..];
    }
    let whole = standing.finished(alloc)?;
    Ok(whole.parts)
}

/// The parts of a text: plain text, and references with the parts of their names.
///
/// A reference is `${`, one or more name characters (letters, digits and `- _ + . / ~ :`) or references, and `}`
/// ("Syntax and Operators", "Variable Expansion"; references in a reference's name are an own rule). Everything else is plain
/// text. No reading of the text has more references.
///
/// The answer is `TooDeep` with an empty name exactly where more than 64 references stand in one another, and no other fault
/// but `Memory`. Time and memory are linear in the bytes of the text.
pub fn parse_refs(alloc: Global, text: &str) -> Result<Parts, ExpandFault>
    ensures ok { IfOk result (λ made. shallow_parts text.now ≡ Ok (parts_in made)) }
    ensures err { IfErr result (λ fault. IsFaultOf fault (shallow_parts text.now)) }
{
    match read(alloc, text) {
        Ok(parts) => Ok(parts),
        Err(ReadFault::TooDeep) => Err(ExpandFault::TooDeep {
            name: Text::new(alloc),
        }),
        Err(ReadFault::Memory) => Err(ExpandFault::Memory),
    }
}
