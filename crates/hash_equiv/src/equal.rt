// When two manifests are the same.
ghost use Rattle.std.specs.Prelude.{◌≡◌, ◌↔◌, IsTrue};

use tree_model::ManifestLine;

/// Whether two lines are the same.
fn equal_lines(one: &ManifestLine, other: &ManifestLine) -> bool
    ensures { IsTrue result ↔ (one.now ≡ other.now) }
{
    one.path == other.path
        && one.kind == other.kind
        && one.length == other.length
        && one.hash == other.hash
}

/// Whether two manifests have the same lines.
pub fn equal_manifests(one: &[ManifestLine], other: &[ManifestLine]) -> bool
    ensures { IsTrue result ↔ (one.now ≡ other.now) }
{
    if one.len() != other.len() {
        return false;
    }
    for (place, line) in one.iter().enumerate() {
        if !equal_lines(line, &other[place]) {
            return false;
        }
    }
    true
}
