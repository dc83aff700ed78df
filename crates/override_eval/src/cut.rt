// Where a text is cut at its first colon.
ghost use Rattle.std.specs.Prelude.{◌≡◌, ◌<◌, ◌∷◌, [], IfSome, MatchOption, length};
ghost use Rattle.std.specs.List.{slice_split};
ghost use Rattle.meta_model.specs.Text.{is_colon};

/// The part before the first colon and what stands behind the colon, where there is one.
pub(crate) fn cut_at_colon(text: &str) -> Option<(&str, &str)>
    ensures parts { MatchOption result (slice_split is_colon text.now ≡ text.now ∷ [])
        (λ cut. slice_split is_colon text.now ≡ cut.0.now ∷ slice_split is_colon cut.1.now) }
    ensures shorter { IfSome result (λ cut. length cut.1.now < length text.now) }
{
    text.split_once(':')
}
