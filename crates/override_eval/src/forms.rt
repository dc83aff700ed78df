// The winning form of a name.
ghost use Rattle.std.specs.Prelude.{◌≡◌, ◌<◌, ◌+◌, ◌==◌, ◌&&◌, ◌||◌, nat_lt, true, length, Some, slice_index_or, []};
ghost use Rattle.meta_model.specs.Overrides.{place, beats};
ghost use Rattle.override_eval.specs.Winner.{parts, is_counted, IsBestOf, IsWinner};

use crate::cut::cut_at_colon;
use meta_model::is_among;
use tree_model::Text;

/// Whether all parts of the form are active overrides, so that it counts ("Conditional Metadata"). A form is what stands
/// behind the name and a colon in `N:p1:..:pk`. It takes no memory.
pub fn is_counted(form: &str, active: &[Text]) -> bool
    ensures { result ≡ is_counted active.now form.now }
{
    let mut rest = form;
    while let Some((part, after)) = cut_at_colon(rest) {
        if !is_among(part, active) {
            return false;
        }
        rest = after;
    }
    is_among(rest, active)
}

/// The last place of the part among the active overrides, counted from 0; 0 where it isn't one.
fn place(part: &str, active: &[Text]) -> usize
    ensures { result ≡ place active.now part.now }
{
    let mut left = active.len();
    while left > 0 {
        left -= 1;
        if part == active[left].as_str() {
            return left;
        }
    }
    0
}

/// Whether the places up to here are greater, where those before were or weren't: the last difference decides.
fn is_greater(before: bool, place: usize, other: usize) -> bool
    ensures { result ≡ (nat_lt other place || ((place == other) && before)) }
{
    other < place || (place == other && before)
}

/// Whether the form beats the other one. Both are gone through once, from the front.
fn beats(form: &str, other: &str, active: &[Text]) -> bool
    ensures { result ≡ beats active.now (parts form.now) (parts other.now) }
{
    let mut greater = false;
    let mut left = form;
    let mut right = other;
    while let Some((part, after)) = cut_at_colon(left) {
        match cut_at_colon(right) {
            Some((other_part, other_after)) => {
                greater = is_greater(greater, place(part, active), place(other_part, active));
                left = after;
                right = other_after;
            }
            None => return true,
        }
    }
    match cut_at_colon(right) {
        Some(_) => false,
        None => is_greater(greater, place(left, active), place(right, active)),
    }
}

/// The form at this place.
fn form_at(forms: &[Text], place: usize) -> &str
    requires { place < length forms.now }
    ensures { result.now ≡ slice_index_or forms.now place [] }
{
    forms[place].as_str()
}

/// The better one of the best form so far and the form at this place, which counts.
fn better_place(forms: &[Text], best: usize, place: usize, active: &[Text]) -> usize
    requires within { place < length forms.now }
    requires before { best < place }
    requires best { IsBestOf active.now forms.now place (Some best) }
    requires counted { is_counted active.now (slice_index_or forms.now place []) ≡ true }
    ensures { IsBestOf active.now forms.now (place + 1) (Some result) }
{
    if beats(form_at(forms, place), form_at(forms, best), active) {
        place
    } else {
        best
    }
}

/// The best form up to this place, whose form counts, where the best one before it is known.
fn best_counted(forms: &[Text], best: Option<usize>, place: usize, active: &[Text]) -> usize
    requires within { place < length forms.now }
    requires best { IsBestOf active.now forms.now place best }
    requires counted { is_counted active.now (slice_index_or forms.now place []) ≡ true }
    ensures { IsBestOf active.now forms.now (place + 1) (Some result) }
{
    match best {
        Some(other) => better_place(forms, other, place, active),
        None => place,
    }
}

/// The best form up to this place, where the best one before it is known.
fn best_with(forms: &[Text], best: Option<usize>, place: usize, active: &[Text]) -> Option<usize>
    requires within { place < length forms.now }
    requires best { IsBestOf active.now forms.now place best }
    ensures { IsBestOf active.now forms.now (place + 1) result }
{
    if is_counted(form_at(forms, place), active) {
        Some(best_counted(forms, best, place, active))
    } else {
        best
    }
}

/// The winning form, as its index in `forms`: a form whose parts are all active overrides and that no other such form
/// beats. None where no form has all parts active ("Conditional Metadata").
///
/// Each form is what stands behind the name and a colon in `N:p1:..:pk`, the text `p1:..:pk`. More parts win; then the
/// places in `active` are compared from the last part to the first, and the greater wins (own rule). Where the forms
/// differ, the winning one is the only form that none beats. It takes no memory.
pub fn choose(forms: &[Text], active: &[Text]) -> Option<usize>
    ensures { IsWinner active.now forms.now result }
{
    let mut best = None;
    for place in 0..forms.len() {
        best = best_with(forms, best, place, active);
    }
    best
}
