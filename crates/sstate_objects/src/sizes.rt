// How large a tree is, by its manifest.
ghost use Rattle.std.specs.Prelude.{◌≡◌, max};
ghost use Rattle.sstate_objects.specs.Matching.{size_told};

use tree_model::{ManifestLine, Size};

/// The larger one of two numbers.
fn larger(one: u64, other: u64) -> u64
    ensures { result ≡ max one other }
{
    if one < other {
        return other;
    }
    one
}

/// The three numbers of a tree with this manifest.
pub(crate) fn size_told(lines: &[ManifestLine]) -> Size
    ensures { result ≡ size_told lines.now }
{
    let mut largest = 0;
    let mut bytes: u64 = 0;
    for line in lines {
        largest = larger(largest, line.length);
        bytes = bytes.saturating_add(line.length);
    }
    Size {
        entries: lines.len() as u64,
        largest,
        bytes,
    }
}
