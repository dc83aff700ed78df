// Where a path is cut at its slashes.
ghost use Rattle.std.specs.Prelude.{◌≡◌, ◌<◌, ◌≤◌, ◌∷◌, [], IfSome, MatchOption, ◌-◌, length, not, false, slice_index};
ghost use Rattle.std.specs.List.{suffix_len, list_any};
ghost use Rattle.std.specs.Str.{IsUtf8, IsCharBoundary};
ghost use Rattle.tree_model.specs.Path.{parts_of};
ghost use Rattle.load_model.specs.Paths.{slash, is_slash};

/// The part before the first slash and what stands behind the slash, where there is one.
pub(crate) fn cut_at_slash(text: &str) -> Option<(&str, &str)>
    ensures parts { MatchOption result (parts_of text.now ≡ text.now ∷ [])
        (λ cut. parts_of text.now ≡ cut.0.now ∷ parts_of cut.1.now) }
    ensures shorter { IfSome result (λ cut. length cut.1.now < length text.now) }
{
    text.split_once('/')
}

/// Where the text behind the last slash begins: 0 where there is none.
pub(crate) fn last_start(text: &[u8]) -> usize
    ensures place { result ≡ length text.now - suffix_len (λ c. not (is_slash c)) text.now }
    ensures none { result ≡ 0 → list_any is_slash text.now ≡ false }
    ensures within { result ≤ length text.now }
    ensures slash { 0 < result → slice_index text.now (result - 1) ≡ slash }
    ensures cut { IsUtf8 text.now → IsCharBoundary text.now result }
{
    let mut start = text.len();
    while start > 0 {
        if text[start - 1] == b'/' {
            return start;
        }
        start -= 1;
    }
    0
}
