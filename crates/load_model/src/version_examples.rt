// Worked versions: which is less. Each expected answer is derived from the rules by hand; the comment above it says why.
ghost use Rattle.std.specs.Prelude.{◌≡◌, codes};
ghost use Rattle.std.specs.declared.cmp.Ordering.TheVariants.{Less, Equal, Greater};
ghost use Rattle.load_model.specs.Versions.{version_cmp};

/// Which of two versions is less.
pub fn example_of_version_order()
    // 9 is less than 10
    ensures numbers { version_cmp (codes "1.9") (codes "1.10") ≡ Less }
    // the end comes before any piece but `~`
    ensures shorter { version_cmp (codes "1.0") (codes "1.0.1") ≡ Less }
    // ... before letters too
    ensures letter_behind { version_cmp (codes "1.0") (codes "1.0a") ≡ Less }
    // the numbers are equal, so the texts decide
    ensures zero_and_zeros { version_cmp (codes "1.0") (codes "1.00") ≡ Less }
    // `~` comes before the end
    ensures candidate { version_cmp (codes "1.0~rc1") (codes "1.0") ≡ Less }
    // ... and before everything else
    ensures candidate_before_letter { version_cmp (codes "1.0~z") (codes "1.0a") ≡ Less }
    // two `~` come before one
    ensures two_tildes { version_cmp (codes "1~~") (codes "1~") ≡ Less }
    // digits rank before letters
    ensures digits_before_letters { version_cmp (codes "1.2") (codes "1.a") ≡ Less }
    // letters rank before other characters
    ensures letters_before_others { version_cmp (codes "1z") (codes "1.") ≡ Less }
    // a run of letters is compared by bytes, as a whole: `ab` before `b`
    ensures letters_by_bytes { version_cmp (codes "1.ab9") (codes "1.b1") ≡ Less }
    // ... a run that another one begins with comes first, whatever follows
    ensures shorter_run { version_cmp (codes "a9") (codes "ab") ≡ Less }
    // capital letters come before small ones
    ensures capital_first { version_cmp (codes "1B") (codes "1a") ≡ Less }
    // `+` is 43, `-` is 45
    ensures others_by_bytes { version_cmp (codes "1+1") (codes "1-1") ≡ Less }
    // leading zeros don't count: 8 is less than 9
    ensures leading_zeros { version_cmp (codes "0008") (codes "9") ≡ Less }
    // ... unless all pieces are equal: `01` comes before `1` as a text
    ensures tie { version_cmp (codes "01") (codes "1") ≡ Less }
    // the tie counts only behind all pieces
    ensures tie_last { version_cmp (codes "01.2") (codes "1.1") ≡ Greater }
    // digits have any length
    ensures long_numbers { version_cmp (codes "99999999999999999999999999999999999999998")
        (codes "99999999999999999999999999999999999999999") ≡ Less }
    // one text
    ensures same { version_cmp (codes "1.2~rc3+git") (codes "1.2~rc3+git") ≡ Equal }
    // nothing is less than a digit
    ensures empty { version_cmp (codes "") (codes "0") ≡ Less }
    // ... and greater than `~`
    ensures empty_and_tilde { version_cmp (codes "") (codes "~") ≡ Greater }
{}
