// The pieces of OVERRIDES.
ghost use Rattle.std.specs.Prelude.{◌≡◌, IfOk};
ghost use Rattle.meta_model.specs.Text.{colon_pieces};

use crate::cut::cut_at_colon;
use meta_model::push_piece;
use std::alloc::Global;
use tree_model::{Mem, Texts};

/// The pieces of a list that colons separate, in order, without the empty ones ("Conditional Metadata").
///
/// `list` is the expanded text of OVERRIDES. A piece that is given twice stands twice. It fails for want of memory alone.
pub fn active(alloc: Global, list: &str) -> Result<Texts, Mem>
    ensures { IfOk result (λ made. made ≡ colon_pieces list.now) }
{
    let mut pieces = Texts::new(alloc);
    let mut rest = list;
    while let Some((piece, after)) = cut_at_colon(rest) {
        push_piece(&mut pieces, alloc, piece)?;
        rest = after;
    }
    push_piece(&mut pieces, alloc, rest)?;
    Ok(pieces)
}
