// Blanks and white space, and texts without those at their front or end.
ghost use Rattle.std.specs.Prelude.{◌≡◌, ◌≤◌, ◌<◌, length, take, drop, position, slice_index, IfSome, IsTrue};
ghost use Rattle.std.specs.Str.{IsUtf8, IsCharBoundary};
ghost use Rattle.meta_model.specs.Text.{is_blank, is_white, is_one_of, skip_blanks, without_end};

/// Whether a character is a blank: a space or a tab.
pub fn is_a_blank(c: u8) -> bool
    ensures { result ≡ is_blank c }
{
    c == b' ' || c == b'\t'
}

/// Whether a character is a space, a tab, a newline or a carriage return.
pub fn is_white_space(c: u8) -> bool
    ensures { result ≡ is_white c }
{
    is_a_blank(c) || c == b'\n' || c == b'\r'
}

/// The place of the first white space, which is ASCII.
pub fn white_at(bytes: &[u8]) -> Option<usize>
    ensures first { result ≡ position is_white bytes.now }
    ensures within { IfSome result (λ i. i < length bytes.now) }
    ensures stands { IfSome result (λ i. slice_index bytes.now i < 128) }
{
    bytes.iter().position(|c| is_white_space(*c))
}

/// How many blanks stand at the front.
fn blanks(line: &[u8]) -> usize
    ensures rest { drop result line.now ≡ skip_blanks line.now }
    ensures within { result ≤ length line.now }
    ensures cut { IsUtf8 line.now → IsCharBoundary line.now result }
{
    let mut at = 0;
    while at < line.len() && is_a_blank(line[at]) {
        at += 1;
    }
    at
}

/// The bytes from the first that isn't a blank.
pub fn after_blanks(line: &[u8]) -> &[u8]
    ensures { result.now ≡ skip_blanks line.now }
{
    &line[blanks(line)..]
}

/// The text from its first character that isn't a blank.
pub fn skipped(line: &str) -> &str
    ensures { result.now ≡ skip_blanks line.now }
{
    &line[blanks(line.as_bytes())..]
}

/// How many bytes are left without those of the set at the end.
pub fn kept_len(line: &[u8], ends: &[u8]) -> usize
    ensures within { result ≤ length line.now }
    ensures kept { take result line.now ≡ without_end (is_one_of ends.now) line.now }
    ensures stop { result < length line.now → IsTrue (is_one_of ends.now (slice_index line.now result)) }
{
    let mut end = line.len();
    while end > 0 && ends.contains(&line[end - 1]) {
        end -= 1;
    }
    end
}

/// The text without the blanks at its end.
pub fn unblanked(line: &str) -> &str
    ensures { result.now ≡ without_end is_blank line.now }
{
    let end = kept_len(line.as_bytes(), b" \t");
    &line[..end]
}
