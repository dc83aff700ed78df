// The place of a character, and what stands before and behind it.
ghost use Rattle.std.specs.Prelude.{◌≡◌, ◌<◌, ◌==◌, length, position, slice_index, IfSome, option_map};
ghost use Rattle.meta_model.specs.Text.{split_at_first};

use byte_scan::first_of;

/// The place of the first byte like this.
pub fn place_of(bytes: &[u8], byte: u8) -> Option<usize>
    ensures first { result ≡ position (λ b. b == byte) bytes.now }
    ensures stands { IfSome result (λ i. (i < length bytes.now) × (slice_index bytes.now i ≡ byte)) }
{
    first_of(bytes, &[byte])
}

/// What stands before the first character like this, and what stands behind it.
pub fn split_at(line: &str, byte: u8) -> Option<(&str, &str)>
    requires { byte < 128 }
    ensures { split_at_first byte line.now ≡ option_map (λ p. (p.0.now, p.1.now)) result }
{
    match place_of(line.as_bytes(), byte) {
        Some(at) => Some((&line[..at], &line[at + 1..])),
        None => None,
    }
}
