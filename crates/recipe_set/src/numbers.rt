// Numbers of any length, as runs of digits.
ghost use Rattle.std.specs.Prelude.{◌≡◌, ◌∷◌, List, ℕ, true};
ghost use Rattle.std.specs.Char.{is_ascii_digit};
ghost use Rattle.std.specs.List.{list_all};
ghost use Rattle.std.specs.Ordering.{nat_cmp};
ghost use Rattle.load_model.specs.Versions.{number_of};

use std::cmp::Ordering;

/// The digits from the first one on that isn't `0`.
fn without_zeros(digits: &[u8]) -> &[u8]
    ensures value { number_of result.now ≡ number_of digits.now }
    ensures digits { list_all is_ascii_digit digits.now ≡ true → list_all is_ascii_digit result.now ≡ true }
    ensures front { (more : List ℕ) → result.now ≡ 48 ∷ more → ⊥ }
{
    let mut rest = digits;
    while let [b'0', more @ ..] = rest {
        rest = more;
    }
    rest
}

/// Which of two numbers is less. Of numbers without leading zeros the one with fewer digits is; of those with as many the
/// first digit that differs decides.
pub(crate) fn compare_numbers(a: &[u8], b: &[u8]) -> Ordering
    requires left { list_all is_ascii_digit a.now ≡ true }
    requires right { list_all is_ascii_digit b.now ≡ true }
    ensures { result ≡ nat_cmp (number_of a.now) (number_of b.now) }
{
    let left = without_zeros(a);
    let right = without_zeros(b);
    match left.len().cmp(&right.len()) {
        Ordering::Equal => left.cmp(right),
        decided => decided,
    }
}
