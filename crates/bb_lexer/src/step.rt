// What one physical line does.
ghost use Rattle.meta_model.specs.Lines.{outside, joining, inside};
ghost use Rattle.bb_lexer.specs.Steps.{standing_of, IsWhole, Steps};

use crate::cut::{before_join, begins_comment, is_dropped, opens};
use crate::fault::{LexFault, LexKind};
use meta_model::{Line, Place};
use std::alloc::Global;
use tree_model::{ListOf, Text};

/// Where the next physical line stands: outside of bodies and joins; behind a backslash, with the number at which
/// the logical line begins and its text so far; inside a body.
#[derive(Drop)]
pub(crate) enum Stand {
    Outside,
    Joining(u32, Text),
    Inside,
}

/// Takes a whole logical line that begins at a number.
fn whole(out: &mut ListOf<Line>, number: u32, text: Text) -> Result<Stand, LexFault>
    ensures { IsWhole number text out.old out.new result }
{
    let next = if opens(text.as_str()) {
        Stand::Inside
    } else {
        Stand::Outside
    };
    out.push(Line {
        number,
        place: Place::Plain,
        text,
    })?;
    Ok(next)
}

/// Takes a line that stands outside.
fn outside_step(
    alloc: Global,
    out: &mut ListOf<Line>,
    number: u32,
    line: &str,
) -> Result<Stand, LexFault>
    ensures { Steps outside number line.now out.old out.new result }
{
    if is_dropped(line) {
        return Ok(Stand::Outside);
    }
    match before_join(line) {
        Some(front) => Ok(Stand::Joining(number, Text::from_str(alloc, front)?)),
        None => whole(out, number, Text::from_str(alloc, line)?),
    }
}

/// Takes a line that goes on with the text of a logical line that began at a number.
fn joining_step(
    out: &mut ListOf<Line>,
    begun: u32,
    text: Text,
    number: u32,
    line: &str,
) -> Result<Stand, LexFault>
    ensures { Steps (joining begun text) number line.now out.old out.new result }
{
    let mut text = text;
    if begins_comment(line) {
        return Err(LexFault {
            line: number,
            kind: LexKind::CommentInJoin,
        });
    }
    match before_join(line) {
        Some(front) => {
            text.push_str(front)?;
            Ok(Stand::Joining(begun, text))
        }
        None => {
            text.push_str(line)?;
            whole(out, begun, text)
        }
    }
}

/// Takes a line of a body.
fn inside_step(
    alloc: Global,
    out: &mut ListOf<Line>,
    number: u32,
    line: &str,
) -> Result<Stand, LexFault>
    ensures { Steps inside number line.now out.old out.new result }
{
    let (place, next) = if line == "}" {
        (Place::Close, Stand::Outside)
    } else {
        (Place::Body, Stand::Inside)
    };
    out.push(Line {
        number,
        place,
        text: Text::from_str(alloc, line)?,
    })?;
    Ok(next)
}

/// Takes the physical line of a number, which stands so.
pub(crate) fn step(
    alloc: Global,
    out: &mut ListOf<Line>,
    stand: Stand,
    number: u32,
    line: &str,
) -> Result<Stand, LexFault>
    ensures { Steps (standing_of stand) number line.now out.old out.new result }
{
    match stand {
        Stand::Outside => outside_step(alloc, out, number, line),
        Stand::Joining(begun, text) => joining_step(out, begun, text, number, line),
        Stand::Inside => inside_step(alloc, out, number, line),
    }
}
