// Worked values: what texts mean where no file is read. Each expected answer is derived from the rules by hand; the
// comment above it says why. A definition of `specs/` is tried here before anything rests on it.
#![tactic(auto, unfolding(crate::specs::Statements::statement_of, crate::specs::Grammar::fit_of, crate::specs::Grammar::operator, crate::specs::Grammar::quoted))]

ghost use Rattle.std.specs.Prelude.{◌≡◌, ◌∷◌, [], codes, Some, None, ◌++◌};
ghost use Rattle.meta_model.specs.declared.entry.EntryLine.TheVariants as entry;
ghost use Rattle.meta_model.specs.declared.entry.Op.TheVariants.{Soft, Weak, Add};
ghost use Rattle.meta_model.specs.Refusal.{value_cycle, too_deep, too_long, unstable};
ghost use Rattle.meta_model.specs.Base.{base};
ghost use Rattle.meta_model.specs.Evaluated.{gives, refused, value_in, frozen_value_in, frozen_names_in, removes_in, value_within, expanded_to, nested, expanded_in, flag_in, frozen_flag_in, names_in, active_in, tasks_in, read};

/// Appends and prepends count behind the whole base value.
pub fn example_of_environment_of_appends()
    // the base value is `1`, then `1 4`, then `1 45`; then come the appends in order
    ensures appends { value_in (codes "A = \"1\"\nA:append = \"2\"\nA:append = \"3\"\nA += \"4\"\nA .= \"5\"")
        (codes "A") ≡ gives (Some (codes "1 4523")) }
    // each prepend is put in front of what stands: `1`, `21`, `321`
    ensures prepends { value_in (codes "A = \"1\"\nA:prepend = \"2\"\nA:prepend = \"3\"") (codes "A")
        ≡ gives (Some (codes "321")) }
    // base value `0 1`; the append behind it; then the prepend in front of all
    ensures both { value_in (codes "A = \"1\"\nA:append = \"2\"\nA:prepend = \"3\"\nA =+ \"0\"") (codes "A")
        ≡ gives (Some (codes "30 12")) }
    // `1`, `01`, `012`, `012 3`, `4 012 3`
    ensures operators { value_in (codes "A = \"1\"\nA =. \"0\"\nA .= \"2\"\nA += \"3\"\nA =+ \"4\"") (codes "A")
        ≡ gives (Some (codes "4 012 3")) }
    // the old value is empty, the blank comes all the same
    ensures add_blank_to_nothing { value_in (codes "A += \"1\"") (codes "A") ≡ gives (Some (codes " 1")) }
    // ... and behind
    ensures put_blank_before_nothing { value_in (codes "A =+ \"1\"") (codes "A") ≡ gives (Some (codes "1 ")) }
    // an append counts at the end, wherever it stands
    ensures append_before_value { value_in (codes "A:append = \"x\"\nA = \"1\"") (codes "A")
        ≡ gives (Some (codes "1x")) }
    // an append is enough for a value
    ensures append_alone { value_in (codes "A:append = \"1\"") (codes "A") ≡ gives (Some (codes "1")) }
    // a prepend too; appends come first
    ensures prepend_alone { value_in (codes "A:prepend = \"2\"\nA:append = \"1\"") (codes "A")
        ≡ gives (Some (codes "21")) }
    // `+=` puts a blank in front of the text of an append
    ensures append_with_add_blank { value_in (codes "A = \"a\"\nA:append += \"x\"") (codes "A")
        ≡ gives (Some (codes "a x")) }
    // `=+` puts one behind it
    ensures append_with_put_blank { value_in (codes "A = \"a\"\nA:append =+ \"x\"") (codes "A")
        ≡ gives (Some (codes "ax ")) }
    // ... of a prepend alike
    ensures prepend_with_add_blank { value_in (codes "A = \"a\"\nA:prepend += \"x\"") (codes "A")
        ≡ gives (Some (codes " xa")) }
    // ... and behind
    ensures prepend_with_put_blank { value_in (codes "A = \"a\"\nA:prepend =+ \"x\"") (codes "A")
        ≡ gives (Some (codes "x a")) }
    // the other operators take the text as it stands
    ensures append_with_add { value_in (codes "A = \"a\"\nA:append .= \"x\"\nA:append =. \"y\"\nA:append ?= \"z\"")
        (codes "A") ≡ gives (Some (codes "axyz")) }
    // a late entry counts where all its conditions are active
    ensures no_conditions_met { value_in (codes "A = \"1\"\nA:append:a:b = \"2\"\nOVERRIDES = \"a\"") (codes "A")
        ≡ gives (Some (codes "1")) }
    // here they are
    ensures conditions_met { value_in (codes "A = \"1\"\nA:append:a:b = \"2\"\nOVERRIDES = \"b:a\"") (codes "A")
        ≡ gives (Some (codes "12")) }
    // the first keyword counts; `remove` and `b` are conditions
    ensures several_keywords { value_in (codes "A = \"1\"\nA:append:remove:b = \"x\"\nOVERRIDES = \"remove:b\"")
        (codes "A") ≡ gives (Some (codes "1x")) }
    // ... and `remove` isn't active here
    ensures keyword_is_a_condition { value_in (codes "A = \"1\"\nA:append:remove:b = \"x\"\nOVERRIDES = \"b\"")
        (codes "A") ≡ gives (Some (codes "1")) }
    // an empty part is no override, so this never counts
    ensures empty_condition { value_in (codes "A = \"1\"\nA:append: = \"x\"\nOVERRIDES = \":\"") (codes "A")
        ≡ gives (Some (codes "1")) }
    // the target of `A::append` is `A:`
    ensures empty_part_of_target { value_in (codes "A = \"1\"\nA::append = \"x\"") (codes "A")
        ≡ gives (Some (codes "1")) }
    // ... which has this value
    ensures value_of_that_target { value_in (codes "A = \"1\"\nA::append = \"x\"") (codes "A:")
        ≡ gives (Some (codes "x")) }
    // a colon inside a reference cuts the name like others: the target is `A${B`, the condition `c}`
    ensures colon_in_reference_cuts { names_in (codes "A${B:append:c} = \"x\"") ≡ gives ((codes "A${B") ∷ []) }
    // `append` in the first place is a name
    ensures keyword_in_first_place { value_in (codes "append = \"x\"") (codes "append") ≡ gives (Some (codes "x")) }
    // a keyword is a whole part
    ensures keyword_as_piece { value_in (codes "A = \"1\"\nA:appendix = \"x\"") (codes "A") ≡ gives (Some (codes "1")) }
{}

/// Examples of the BitBake User Manual, chapter "Syntax and Operators".
pub fn example_of_users_manual()
    // "Variable Expansion": C is `foo` when A is read
    ensures expansion_when_read { value_in (codes "A = \"${B} baz\"\nB = \"${C} bar\"\nC = \"foo\"") (codes "A")
        ≡ gives (Some (codes "foo bar baz")) }
    // ... `qux` where C is changed
    ensures expansion_after_change { value_in (codes "A = \"${B} baz\"\nB = \"${C} bar\"\nC = \"foo\"\nC = \"qux\"")
        (codes "A") ≡ gives (Some (codes "qux bar baz")) }
    // ... and B may be too
    ensures expansion_after_all_changes { value_in
        (codes "A = \"${B} baz\"\nB = \"${C} bar\"\nC = \"foo\"\nC = \"qux\"\nB = \"norf\"") (codes "A")
        ≡ gives (Some (codes "norf baz")) }
    // "Appending (+=) and prepending (=+) With Spaces"
    ensures append_with_space { value_in (codes "B = \"bval\"\nB += \"additional data\"") (codes "B")
        ≡ gives (Some (codes "bval additional data")) }
    // ... and in front
    ensures prepend_with_space { value_in (codes "C = \"cval\"\nC =+ \"test\"") (codes "C")
        ≡ gives (Some (codes "test cval")) }
    // "Appending (.=) and Prepending (=.) Without Spaces"
    ensures append_without_space { value_in (codes "B = \"bval\"\nB .= \"additional data\"") (codes "B")
        ≡ gives (Some (codes "bvaladditional data")) }
    // ... and in front
    ensures prepend_without_space { value_in (codes "C = \"cval\"\nC =. \"test\"") (codes "C")
        ≡ gives (Some (codes "testcval")) }
    // "Appending and Prepending (Override Style Syntax)": no blank is put there
    ensures append_override_style { value_in (codes "D = \"dval\"\nD:append = \"additional data\"") (codes "D")
        ≡ gives (Some (codes "dvaladditional data")) }
    // ... in front
    ensures prepend_override_style { value_in (codes "C = \"cval\"\nC:prepend = \"additional data \"") (codes "C")
        ≡ gives (Some (codes "additional data cval")) }
    // "Removal (Override Style Syntax)": nine blanks stay, four before `abcdef` and five behind it
    ensures remove_several { value_in
        (codes "FOO2 = \" abc def ghi abcdef abc def abc def def\"\nFOO2:remove = \"\\\n    def \\\n    abc \\\n"
        ++ codes "    ghi \\\n    \"") (codes "FOO2") ≡ gives (Some (codes "    abcdef     ")) }
    // "Variable Flag Syntax"
    ensures flag_syntax { flag_in (codes "FOO[a] = \"abc\"\nFOO[b] = \"123\"\nFOO[a] += \"456\"") (codes "FOO")
        (codes "a") ≡ gives (Some (codes "abc 456")) }
    // "Conditional Metadata": `os` is active, `nooverride` isn't
    ensures condition { value_in
        (codes "OVERRIDES = \"architecture:os:machine\"\nTEST = \"default\"\nTEST:os = \"osspecific\"\n"
        ++ codes "TEST:nooverride = \"othercondvalue\"") (codes "TEST") ≡ gives (Some (codes "osspecific")) }
    // ... an append under a condition
    ensures append_by_machine { value_in
        (codes "DEPENDS = \"glibc ncurses\"\nOVERRIDES = \"machine:local\"\nDEPENDS:append:machine = \" libmad\"")
        (codes "DEPENDS") ≡ gives (Some (codes "glibc ncurses libmad")) }
    // "Examples": both appends are those of the form
    ensures appends_of_a_form { value_in
        (codes "OVERRIDES = \"foo\"\nA = \"Y\"\nA:foo:append = \"Z\"\nA:foo:append = \"X\"") (codes "A")
        ≡ gives (Some (codes "ZX")) }
    // "Key Expansion": `A${B}` becomes `A2` at the end, and its value stands in place of `Y`
    ensures key_expansion { frozen_value_in (codes "A${B} = \"X\"\nB = \"2\"\nA2 = \"Y\"") (codes "A2")
        ≡ gives (Some (codes "X")) }
{}

/// Weak defaults stand at the end where no value does.
pub fn example_of_weak_and_immediate_defaults()
    // expanded at once, over the first weak default
    ensures first_weak { value_in
        (codes "W ??= \"x\"\nA := \"${W}\"\nW ??= \"y\"\nB := \"${W}\"\nW ??= \"z\"\nC = \"${W}\"\nW ?= \"i\"")
        (codes "A") ≡ gives (Some (codes "x")) }
    // ... over the second, which replaced it
    ensures second_weak { value_in
        (codes "W ??= \"x\"\nA := \"${W}\"\nW ??= \"y\"\nB := \"${W}\"\nW ??= \"z\"\nC = \"${W}\"\nW ?= \"i\"")
        (codes "B") ≡ gives (Some (codes "y")) }
    // expanded when it is read: the weak default is no value, so `?=` sets `i`
    ensures reference_to_soft { value_in
        (codes "W ??= \"x\"\nA := \"${W}\"\nW ??= \"y\"\nB := \"${W}\"\nW ??= \"z\"\nC = \"${W}\"\nW ?= \"i\"")
        (codes "C") ≡ gives (Some (codes "i")) }
    // ... here too
    ensures soft_after_weak { value_in
        (codes "W ??= \"x\"\nA := \"${W}\"\nW ??= \"y\"\nB := \"${W}\"\nW ??= \"z\"\nC = \"${W}\"\nW ?= \"i\"")
        (codes "W") ≡ gives (Some (codes "i")) }
    // the old value is empty, and never the weak default
    ensures add_blank_after_weak { value_in (codes "W ??= \"x\"\nW += \"y\"") (codes "W") ≡ gives (Some (codes " y")) }
    // the weak default is the base value at the end, and the append comes behind it
    ensures append_after_weak { value_in (codes "W ??= \"x\"\nW:append = \"y\"") (codes "W")
        ≡ gives (Some (codes "xy")) }
    // a prepend in front of it
    ensures prepend_after_weak { value_in (codes "W ??= \"x\"\nW:prepend = \"y\"") (codes "W")
        ≡ gives (Some (codes "yx")) }
    // the first `?=` sets the value
    ensures first_soft { value_in (codes "A ?= \"x\"\nA ?= \"y\"") (codes "A") ≡ gives (Some (codes "x")) }
    // the last `??=` sets the weak default
    ensures last_weak { value_in (codes "A ??= \"x\"\nA ??= \"y\"") (codes "A") ≡ gives (Some (codes "y")) }
    // `?=` gave a value
    ensures weak_after_soft { value_in (codes "A ?= \"x\"\nA ??= \"y\"") (codes "A") ≡ gives (Some (codes "x")) }
    // an empty value is a value
    ensures soft_after_empty { value_in (codes "A = \"\"\nA ?= \"x\"") (codes "A") ≡ gives (Some []) }
    // `.=` puts its text behind nothing
    ensures add_after_weak { value_in (codes "A ??= \"x\"\nA .= \"y\"") (codes "A") ≡ gives (Some (codes "y")) }
    // `=.` in front of nothing
    ensures put_after_weak { value_in (codes "A ??= \"x\"\nA =. \"y\"") (codes "A") ≡ gives (Some (codes "y")) }
    // `=+` too
    ensures put_blank_after_weak { value_in (codes "A ??= \"x\"\nA =+ \"y\"") (codes "A") ≡ gives (Some (codes "y ")) }
    // an append is no value for `?=`
    ensures soft_beside_append { value_in (codes "A:append = \"y\"\nA ?= \"x\"") (codes "A")
        ≡ gives (Some (codes "xy")) }
    // flags fold alike
    ensures weak_flag { flag_in (codes "A[f] ??= \"x\"\nA[f] += \"y\"") (codes "A") (codes "f")
        ≡ gives (Some (codes " y")) }
    // ... and have weak defaults
    ensures weak_flag_alone { flag_in (codes "A[f] ??= \"x\"") (codes "A") (codes "f") ≡ gives (Some (codes "x")) }
{}

/// `:=` sees the entries before it.
pub fn example_of_immediate_expansion_order()
    // T is `123` there
    ensures first { value_in
        (codes "T = \"123\"\nA := \"test ${T}\"\nT = \"456\"\nB := \"${T} ${C}\"\nC = \"cval\"\nC := \"${C}append\"")
        (codes "A") ≡ gives (Some (codes "test 123")) }
    // C has no value there, so its reference stays and is expanded when B is read
    ensures absent_then { value_in
        (codes "T = \"123\"\nA := \"test ${T}\"\nT = \"456\"\nB := \"${T} ${C}\"\nC = \"cval\"\nC := \"${C}append\"")
        (codes "B") ≡ gives (Some (codes "456 cvalappend")) }
    // C is `cval` there
    ensures of_itself { value_in
        (codes "T = \"123\"\nA := \"test ${T}\"\nT = \"456\"\nB := \"${T} ${C}\"\nC = \"cval\"\nC := \"${C}append\"")
        (codes "C") ≡ gives (Some (codes "cvalappend")) }
    // the text of an append too; what comes later doesn't change it
    ensures late_text { value_in (codes "B = \"1\"\nA:append := \"${B}\"\nB = \"2\"\nA = \"x\"") (codes "A")
        ≡ gives (Some (codes "x1")) }
    // ... and that of a flag
    ensures flag_text { flag_in (codes "B = \"1\"\nA[f] := \"${B}\"\nB = \"2\"") (codes "A") (codes "f")
        ≡ gives (Some (codes "1")) }
    // a flag's text isn't expanded elsewhere
    ensures plain_flag { flag_in (codes "B = \"1\"\nA[f] = \"${B}\"") (codes "A") (codes "f")
        ≡ gives (Some (codes "${B}")) }
    // A has no value there, the reference stays, and is met when A is read
    ensures itself_absent { value_in (codes "A := \"${A}x\"") (codes "A") ≡ refused (value_cycle (codes "A")) }
    // a refusal of `:=` refuses the text
    ensures itself_cyclic { value_in (codes "A = \"${A}\"\nB := \"${A}\"") (codes "C")
        ≡ refused (value_cycle (codes "A")) }
    // each `:=` is among the entries of the next
    ensures later_now_sees_earlier { value_in (codes "A := \"1\"\nA := \"${A}2\"\nA := \"${A}3\"") (codes "A")
        ≡ gives (Some (codes "123")) }
    // a text without references looks nothing up, so OVERRIDES doesn't matter there
    ensures unstable_and_plain { value_in (codes "OVERRIDES = \"a\"\nOVERRIDES:a = \"b\"\nA := \"plain\"")
        (codes "NONE") ≡ refused (unstable (codes "b" ∷ []) (codes "a" ∷ [])) }
    // ... and the entries stand
    ensures unstable_and_plain_flag { flag_in (codes "OVERRIDES = \"a\"\nOVERRIDES:a = \"b\"\nA[f] := \"plain\"")
        (codes "A") (codes "f") ≡ gives (Some (codes "plain")) }
{}

/// Removed words go, and the white space round them stays.
pub fn example_of_remove_keeps_white_space()
    // pieces between the eight single blanks: `123` and `456` go at six places, the blanks stay
    ensures words { value_in
        (codes "FOO = \"123 456 789 123456 123 456 123 456\"\nFOO:remove = \"123\"\nFOO:remove = \"456\"")
        (codes "FOO") ≡ gives (Some (codes "  789 123456    ")) }
    // the words of a remove go one by one
    ensures two_words { value_in (codes "A = \"a b\"\nA:remove = \"a b\"") (codes "A") ≡ gives (Some (codes " ")) }
    // the text of a remove is expanded: `b` and `c` go, three blanks stay
    ensures reference_in_remove { value_in (codes "R = \"b c\"\nA = \"a b c d\"\nA:remove = \"${R}\"") (codes "A")
        ≡ gives (Some (codes "a   d")) }
    // only whole pieces go
    ensures whole_pieces { value_in (codes "A = \"ab b\"\nA:remove = \"b\"") (codes "A") ≡ gives (Some (codes "ab ")) }
    // the value is expanded first
    ensures after_expansion { value_in (codes "B = \"x y\"\nA = \"${B} x\"\nA:remove = \"x\"") (codes "A")
        ≡ gives (Some (codes " y ")) }
    // each white space character cuts
    ensures tab { value_in (codes "A = \"a\tb\"\nA:remove = \"a\"") (codes "A") ≡ gives (Some (codes "\tb")) }
    // appends come before
    ensures appended_word { value_in (codes "A = \"x\"\nA:append = \" y\"\nA:remove = \"y\"") (codes "A")
        ≡ gives (Some (codes "x ")) }
    // a reference has the value without the words
    ensures seen_by_reference { value_in (codes "A = \"x y\"\nA:remove = \"x\"\nB = \"${A}\"") (codes "B")
        ≡ gives (Some (codes " y")) }
    // a remove alone gives no value
    ensures absent { value_in (codes "A:remove = \"x\"") (codes "A") ≡ gives None }
    // a remove without words takes nothing
    ensures nothing { value_in (codes "A = \"a  b\"\nA:remove = \"\"") (codes "A") ≡ gives (Some (codes "a  b")) }
    // a remove counts where its conditions are active
    ensures on_condition { value_in (codes "A = \"x\"\nA:remove:a = \"x\"") (codes "A") ≡ gives (Some (codes "x")) }
    // the blank of `+=` is no word
    ensures remove_with_add_blank { value_in (codes "A = \"x y\"\nA:remove += \"y\"") (codes "A")
        ≡ gives (Some (codes "x ")) }
    // the newlines of a function's body cut too
    ensures newline { value_in (codes "f() {\na b\n}\nf:remove = \"b\"") (codes "f") ≡ gives (Some (codes "a \n")) }
    // removes are kept beside the value, those of the form first
    ensures kept_apart { removes_in (codes "OVERRIDES = \"a\"\nV:remove = \"${X}\"\nV:a = \"1\"\nV:a:remove = \"y\"")
        (codes "V") ≡ gives ((codes "y") ∷ (codes "${X}") ∷ []) }
{}

/// Forms win over the base value, and one form over the others.
pub fn example_of_override_order()
    // `A:foo` has an own value by its append alone, and is a form
    ensures form_by_append { value_in (codes "OVERRIDES = \"foo\"\nA = \"Z\"\nA:foo:append = \"X\"") (codes "A")
        ≡ gives (Some (codes "X")) }
    // ... and here the append is one of `A`
    ensures append_on_condition { value_in (codes "OVERRIDES = \"foo\"\nA = \"Z\"\nA:append:foo = \"X\"") (codes "A")
        ≡ gives (Some (codes "ZX")) }
    // `b` comes last in OVERRIDES; the order of the entries doesn't matter
    ensures later_override { value_in (codes "OVERRIDES = \"a:b\"\nV = \"0\"\nV:b = \"2\"\nV:a = \"1\"") (codes "V")
        ≡ gives (Some (codes "2")) }
    // two parts win over one
    ensures more_parts { value_in (codes "OVERRIDES = \"a:b\"\nV = \"0\"\nV:b = \"2\"\nV:a = \"1\"\nV:a:b = \"3\"")
        (codes "V") ≡ gives (Some (codes "3")) }
    // the last parts are compared first: `b` is greater than `a`
    ensures last_parts_first { value_in (codes "OVERRIDES = \"a:b\"\nV:a:b = \"1\"\nV:b:a = \"2\"") (codes "V")
        ≡ gives (Some (codes "1")) }
    // equal last parts: the parts before decide
    ensures then_those_before { value_in (codes "OVERRIDES = \"a:b:c\"\nV:b:c = \"2\"\nV:a:c = \"1\"") (codes "V")
        ≡ gives (Some (codes "2")) }
    // more parts win over a greater place
    ensures parts_before_places { value_in (codes "OVERRIDES = \"a:b:c\"\nV:c = \"1\"\nV:a:b = \"2\"") (codes "V")
        ≡ gives (Some (codes "2")) }
    // the place of `a` is its last one, behind `b`
    ensures repeated_override { value_in (codes "OVERRIDES = \"a:b:a\"\nV:a = \"1\"\nV:b = \"2\"") (codes "V")
        ≡ gives (Some (codes "1")) }
    // the list holds repeated pieces, and no empty ones
    ensures repeated_pieces { active_in (codes "OVERRIDES = \":a::b:a:\"")
        ≡ gives ((codes "a") ∷ (codes "b") ∷ (codes "a") ∷ []) }
    // an absent OVERRIDES has no pieces
    ensures no_overrides { active_in (codes "A = \"1\"") ≡ gives [] }
    // a form's parts are all active
    ensures inactive_form { value_in (codes "OVERRIDES = \"a\"\nV = \"0\"\nV:b = \"1\"\nV:a:b = \"2\"") (codes "V")
        ≡ gives (Some (codes "0")) }
    // `V:a` has no own value where its append doesn't count
    ensures absent_own_value { value_in (codes "OVERRIDES = \"a\"\nV = \"0\"\nV:a:append:b = \"1\"") (codes "V")
        ≡ gives (Some (codes "0")) }
    // the name's own appends and prepends come behind the form's
    ensures name_appends_to_form { value_in
        (codes "OVERRIDES = \"a\"\nV = \"0\"\nV:a = \"1\"\nV:a:append = \"2\"\nV:append = \"3\"\nV:prepend = \"4\"")
        (codes "V") ≡ gives (Some (codes "4123")) }
    // no base value is needed
    ensures value_by_form_alone { value_in (codes "OVERRIDES = \"a\"\nV:a = \"1\"") (codes "V")
        ≡ gives (Some (codes "1")) }
    // `V:a:b` is a form of `V:a` too
    ensures form_of_a_form { value_in (codes "OVERRIDES = \"b\"\nV:a = \"1\"\nV:a:b = \"2\"") (codes "V:a")
        ≡ gives (Some (codes "2")) }
    // the removes of the winning form count
    ensures removes_of_form { value_in (codes "OVERRIDES = \"a\"\nV:a = \"x y\"\nV:a:remove = \"x\"") (codes "V")
        ≡ gives (Some (codes " y")) }
    // ... and those of another form don't
    ensures removes_of_loser { value_in (codes "OVERRIDES = \"a:b\"\nV:a = \"x\"\nV:a:remove = \"x\"\nV:b = \"x y\"")
        (codes "V") ≡ gives (Some (codes "x y")) }
    // the name's own removes count for a form
    ensures removes_of_name { value_in (codes "OVERRIDES = \"a\"\nV:remove = \"x\"\nV:a = \"x y\"") (codes "V")
        ≡ gives (Some (codes " y")) }
    // letters of either case
    ensures upper_case { value_in (codes "OVERRIDES = \"Big\"\nV:Big = \"1\"\nV:big = \"2\"") (codes "V")
        ≡ gives (Some (codes "1")) }
    // a weak default makes a form
    ensures weak_form { value_in (codes "OVERRIDES = \"a\"\nV = \"0\"\nV:a ??= \"1\"") (codes "V")
        ≡ gives (Some (codes "1")) }
    // an empty value too
    ensures empty_form { value_in (codes "OVERRIDES = \"a\"\nV = \"0\"\nV:a = \"\"") (codes "V") ≡ gives (Some []) }
    // `unset` of a form leaves the name
    ensures unset_form { value_in (codes "OVERRIDES = \"a\"\nV = \"0\"\nV:a = \"1\"\nunset V:a") (codes "V")
        ≡ gives (Some (codes "0")) }
    // OVERRIDES is expanded
    ensures reference_in_overrides { active_in (codes "OVERRIDES = \"${M}:b\"\nM = \"a\"")
        ≡ gives ((codes "a") ∷ (codes "b") ∷ []) }
    // pass one gives `a`, pass two `a` and `b`, pass three the same
    ensures overrides_by_override { active_in (codes "OVERRIDES = \"a\"\nOVERRIDES:append:a = \":b\"")
        ≡ gives ((codes "a") ∷ (codes "b") ∷ []) }
    // ... and values are read under the last list
    ensures value_under_them { value_in
        (codes "OVERRIDES = \"a\"\nOVERRIDES:append:a = \":b\"\nV = \"0\"\nV:b = \"2\"") (codes "V")
        ≡ gives (Some (codes "2")) }
    // pass four gives four pieces, and pass five the same
    ensures fifth_pass { active_in
        (codes "OVERRIDES = \"a\"\nOVERRIDES:append:a = \":b\"\nOVERRIDES:append:b = \":c\"\n"
        ++ codes "OVERRIDES:append:c = \":d\"") ≡ gives ((codes "a") ∷ (codes "b") ∷ (codes "c") ∷ (codes "d") ∷ []) }
    // one pass more would be needed
    ensures sixth_pass { active_in
        (codes "OVERRIDES = \"a\"\nOVERRIDES:append:a = \":b\"\nOVERRIDES:append:b = \":c\"\n"
        ++ codes "OVERRIDES:append:c = \":d\"\nOVERRIDES:append:d = \":e\"") ≡ refused
        (unstable ((codes "a") ∷ (codes "b") ∷ (codes "c") ∷ (codes "d") ∷ []) ((codes "a") ∷ (codes "b") ∷ (codes "c")
        ∷ (codes "d") ∷ (codes "e") ∷ [])) }
    // the passes give `a`, `b`, `a`, `b`, `a`
    ensures unsteady { value_in (codes "OVERRIDES = \"${X}\"\nX = \"a\"\nX:a = \"b\"\nX:b = \"a\"") (codes "X")
        ≡ refused (unstable (codes "b" ∷ []) (codes "a" ∷ [])) }
    // a refusal of a pass
    ensures overrides_of_themselves { active_in (codes "OVERRIDES = \"${OVERRIDES}\"")
        ≡ refused (value_cycle (codes "OVERRIDES")) }
{}

/// References to absent names stay, and cycles are refused.
pub fn example_of_absent_and_cyclic_references()
    // the reference stays as it is
    ensures absent { value_in (codes "X = \"pre ${NONE}\"") (codes "X") ≡ gives (Some (codes "pre ${NONE}")) }
    // X is met in its own expansion
    ensures cycle { value_in (codes "X = \"${Y}\"\nY = \"${X}\"") (codes "X") ≡ refused (value_cycle (codes "X")) }
    // from Y it is Y
    ensures cycle_from_the_other { value_in (codes "X = \"${Y}\"\nY = \"${X}\"") (codes "Y")
        ≡ refused (value_cycle (codes "Y")) }
    // Z leads to a cycle of which it is no part: X is met again
    ensures cycle_below { value_in (codes "Z = \"${X}\"\nX = \"${Y}\"\nY = \"${X}\"") (codes "Z")
        ≡ refused (value_cycle (codes "X")) }
    // a cycle of one
    ensures itself { value_in (codes "X = \"${X}\"") (codes "X") ≡ refused (value_cycle (codes "X")) }
    // only what is read is refused
    ensures cycle_elsewhere { value_in (codes "X = \"${X}\"\nA = \"1\"") (codes "A") ≡ gives (Some (codes "1")) }
    // the text of a remove is within the name's expansion
    ensures cycle_in_remove { value_in (codes "X = \"a\"\nX:remove = \"${X}\"") (codes "X")
        ≡ refused (value_cycle (codes "X")) }
    // two references side by side are no cycle
    ensures twice { value_in (codes "X = \"${Y}${Y}\"\nY = \"1\"") (codes "X") ≡ gives (Some (codes "11")) }
    // the inner reference gives the name
    ensures reference_in_a_name { value_in (codes "A = \"B\"\nB = \"1\"\nX = \"${${A}}\"") (codes "X")
        ≡ gives (Some (codes "1")) }
    // ... or a part of it
    ensures part_of_a_name { value_in (codes "N = \"1\"\nA1 = \"y\"\nX = \"${A${N}}\"") (codes "X")
        ≡ gives (Some (codes "y")) }
    // the inner reference is expanded where the outer one stays
    ensures absent_outside { value_in (codes "N = \"1\"\nX = \"${A${N}}\"") (codes "X") ≡ gives (Some (codes "${A1}")) }
    // the inner one stays, and `$` is in no name
    ensures absent_inside { value_in (codes "X = \"${A${N}}\"") (codes "X") ≡ gives (Some (codes "${A${N}}")) }
    // a name with a blank has no value
    ensures blank_in_name { value_in (codes "N = \"a b\"\nX = \"${${N}}\"") (codes "X")
        ≡ gives (Some (codes "${a b}")) }
    // what is put together is not read again
    ensures glued_text { value_in (codes "P = \"$\"\nY = \"1\"\nX = \"${P}{Y}\"") (codes "X")
        ≡ gives (Some (codes "${Y}")) }
    // ... nor is an absent reference that a value brings
    ensures glued_by_value { value_in (codes "A = \"${${P}}\"\nP = \"NONE\"\nX = \"${A}\"") (codes "X")
        ≡ gives (Some (codes "${NONE}")) }
    // the empty name is looked up, and is absent
    ensures empty_name { value_in (codes "E = \"\"\nX = \"${${E}}\"") (codes "X") ≡ gives (Some (codes "${}")) }
    // `${}` is plain text
    ensures empty_reference { value_in (codes "X = \"${}\"") (codes "X") ≡ gives (Some (codes "${}")) }
    // an empty value is a value
    ensures empty_value { value_in (codes "E = \"\"\nX = \"a${E}b\"") (codes "X") ≡ gives (Some (codes "ab")) }
    // a text that is no name's
    ensures text { expanded_in (codes "A = \"1\"") (codes "${A} ${B}") ≡ gives (codes "1 ${B}") }
    // a reference reads values under the active overrides
    ensures overrides_in_text { expanded_in (codes "OVERRIDES = \"a\"\nA = \"1\"\nA:a = \"2\"") (codes "${A}")
        ≡ gives (codes "2") }
    // a reference may name a form
    ensures colon_in_reference { value_in (codes "A:b = \"1\"\nX = \"${A:b}\"") (codes "X") ≡ gives (Some (codes "1")) }
{}

/// The bounds of expansion, tried at small sizes.
pub fn example_of_bounds()
    // three names may be in expansion
    ensures three_names { value_within 3 (codes "A = \"${B}\"\nB = \"${C}\"\nC = \"x\"") (codes "A")
        ≡ gives (Some (codes "x")) }
    // C would be the third; B is the innermost
    ensures two_names { value_within 2 (codes "A = \"${B}\"\nB = \"${C}\"\nC = \"x\"") (codes "A")
        ≡ refused (too_deep (codes "B")) }
    // an absent name beyond the bound is no fault
    ensures absent_beyond { value_within 2 (codes "A = \"${B}\"\nB = \"${C}\"") (codes "A")
        ≡ gives (Some (codes "${C}")) }
    // a name met again is a cycle also there
    ensures cycle_at_the_bound { value_within 2 (codes "A = \"${B}\"\nB = \"${A}\"") (codes "A")
        ≡ refused (value_cycle (codes "A")) }
    // 64 references may nest; nothing has a value, so all stays
    ensures nested_64 { expanded_in [] (nested 64) ≡ gives (nested 64) }
    // 65 may not; no name is in expansion
    ensures nested_65 { expanded_in [] (nested 65) ≡ refused (too_deep []) }
    // `a` and `xyz` are four bytes
    ensures room { expanded_to 4 (codes "B = \"xyz\"") (codes "A") (codes "a${B}") ≡ gives (codes "axyz") }
    // three are too few; the innermost name is A
    ensures no_room { expanded_to 3 (codes "B = \"xyz\"") (codes "A") (codes "a${B}") ≡ refused (too_long (codes "A")) }
    // the cycle comes before the place where the room ends
    ensures earlier_place_first { expanded_to 3 (codes "C = \"${C}\"") (codes "A") (codes "${C}abcd")
        ≡ refused (value_cycle (codes "C")) }
{}

/// Names that hold references are moved behind the last file.
pub fn example_of_expanded_names_join()
    // in byte order `RDEPENDS:${PN}` comes first of the moved names: its value replaces `y`, its append goes along
    ensures joined { frozen_value_in
        (codes "PN = \"foo\"\nRDEPENDS:${PN} = \"x\"\nRDEPENDS:foo = \"y\"\nRDEPENDS:${PN}:append = \" z\"")
        (codes "RDEPENDS:foo") ≡ gives (Some (codes "x z")) }
    // before that they are names of their own
    ensures read_before { frozen_value_in (codes "PN = \"foo\"\nOVERRIDES = \"foo\"\nA:${PN} = \"x\"") (codes "A")
        ≡ gives (Some (codes "x")) }
    // ... which no reference reaches
    ensures not_yet { value_in (codes "PN = \"foo\"\nOVERRIDES = \"foo\"\nA:${PN} = \"x\"\nA = \"y\"") (codes "A")
        ≡ gives (Some (codes "y")) }
    // a name that still holds a reference keeps its spelling
    ensures stays { frozen_value_in (codes "A${NONE} = \"1\"") (codes "A${NONE}") ≡ gives (Some (codes "1")) }
    // ... also where a part of it would expand
    ensures half_expanded { frozen_value_in (codes "B = \"b\"\nA${B}${NONE} = \"1\"") (codes "A${B}${NONE}")
        ≡ gives (Some (codes "1")) }
    // a name with a blank would be none, so it stays
    ensures blank_in_target { frozen_value_in (codes "N = \"x y\"\nA${N} = \"1\"") (codes "A${N}")
        ≡ gives (Some (codes "1")) }
    // both go to `Ab`; `A${Y}` comes later in byte order
    ensures byte_order { frozen_value_in (codes "Y = \"b\"\nX = \"b\"\nA${Y} = \"2\"\nA${X} = \"1\"") (codes "Ab")
        ≡ gives (Some (codes "2")) }
    // late entries go behind the target's
    ensures late_behind { frozen_value_in (codes "P = \"b\"\nA${P}:append = \"1\"\nAb:append = \"2\"\nAb = \"0\"")
        (codes "Ab") ≡ gives (Some (codes "021")) }
    // the weak default replaces the target's weak default, and no value
    ensures weak_replaces_weak { frozen_value_in (codes "P = \"b\"\nA${P} ??= \"2\"\nAb = \"1\"\nAb ??= \"3\"")
        (codes "Ab") ≡ gives (Some (codes "1")) }
    // ... and stands where there is no value
    ensures weak_alone { frozen_value_in (codes "P = \"b\"\nA${P} ??= \"2\"\nAb ??= \"3\"") (codes "Ab")
        ≡ gives (Some (codes "2")) }
    // flags go along
    ensures flag_goes_along { frozen_flag_in (codes "P = \"b\"\nA${P}[f] = \"1\"") (codes "Ab") (codes "f")
        ≡ gives (Some (codes "1")) }
    // a flag that the source has replaces the target's value too
    ensures flag_replaces_whole { frozen_flag_in (codes "P = \"b\"\nA${P}[f] ??= \"2\"\nAb[f] = \"1\"") (codes "Ab")
        (codes "f") ≡ gives (Some (codes "2")) }
    // the target's other flags stay
    ensures other_flags_stay { frozen_flag_in (codes "P = \"b\"\nA${P}[f] = \"2\"\nAb[g] = \"1\"") (codes "Ab")
        (codes "g") ≡ gives (Some (codes "1")) }
    // conditions are expanded
    ensures condition { frozen_value_in (codes "PN = \"foo\"\nOVERRIDES = \"foo\"\nA = \"1\"\nA:append:${PN} = \"2\"")
        (codes "A") ≡ gives (Some (codes "12")) }
    // a condition that gets a colon is one piece, and never active
    ensures condition_with_colon { frozen_value_in
        (codes "P = \"a:b\"\nOVERRIDES = \"a:b\"\nA = \"1\"\nA:append:${P} = \"2\"") (codes "A")
        ≡ gives (Some (codes "1")) }
    // `A:append` is an exact name now
    ensures no_keyword_again { frozen_value_in (codes "K = \"append\"\nA:${K} = \"x\"\nA = \"y\"") (codes "A")
        ≡ gives (Some (codes "y")) }
    // ... and has its value
    ensures exact_name { frozen_value_in (codes "K = \"append\"\nA:${K} = \"x\"\nA = \"y\"") (codes "A:append")
        ≡ gives (Some (codes "x")) }
    // the names after the move; `A${N}` stays
    ensures names { frozen_names_in (codes "P = \"b\"\nA${P} = \"1\"\nA${N}[f] = \"1\"\nC:append = \"x\"")
        ≡ gives ((codes "A${N}") ∷ (codes "Ab") ∷ (codes "C") ∷ (codes "P") ∷ []) }
    // a name of which nothing is left isn't expanded
    ensures unset_name { frozen_names_in (codes "B = \"${B}\"\nA${B} = \"1\"\nunset A${B}") ≡ gives ((codes "B") ∷ []) }
    // ... and else it is
    ensures cyclic_name { frozen_names_in (codes "B = \"${B}\"\nA${B} = \"1\"") ≡ refused (value_cycle (codes "B")) }
    // nor are the conditions that `unset` took away
    ensures unset_condition { frozen_names_in (codes "B = \"${B}\"\nA:append:${B} = \"1\"\nunset A")
        ≡ gives ((codes "B") ∷ []) }
    // the faults of names come before those of conditions
    ensures names_first { frozen_names_in (codes "X = \"${X}\"\nY = \"${Y}\"\nA:append:${X} = \"1\"\nZ${Y} = \"1\"")
        ≡ refused (value_cycle (codes "Y")) }
    // ... and among names that of the least
    ensures least_name_first { frozen_names_in (codes "X = \"${X}\"\nY = \"${Y}\"\nZ${Y} = \"1\"\nA${X} = \"1\"")
        ≡ refused (value_cycle (codes "X")) }
    // ... and among conditions that of the least name, moved or not
    ensures conditions_by_name { frozen_names_in
        (codes "P = \"p\"\nX = \"${X}\"\nY = \"${Y}\"\nZ:append:${Y} = \"1\"\nA${P}:append:${X} = \"1\"")
        ≡ refused (value_cycle (codes "X")) }
    // a name is expanded as it is after the last file: `A${P}` isn't `Ab` yet when the others are expanded
    ensures two_steps { frozen_value_in (codes "P = \"b\"\nA${P} = \"x\"\nC${Ab} = \"1\"") (codes "C${Ab}")
        ≡ gives (Some (codes "1")) }
    // a name may expand to the empty one
    ensures empty_target { frozen_value_in (codes "E = \"\"\n${E} = \"1\"") [] ≡ gives (Some (codes "1")) }
{}

/// What `unset` takes away, and what flags are.
pub fn example_of_unset_and_flags()
    // nothing is left
    ensures unset { value_in (codes "A = \"1\"\nA ??= \"0\"\nA:append = \"2\"\nunset A") (codes "A") ≡ gives None }
    // entries that come later count again
    ensures later_entries { value_in (codes "A = \"1\"\nunset A\nA:append = \"2\"") (codes "A")
        ≡ gives (Some (codes "2")) }
    // ... and there is no value for `?=`
    ensures soft_after_unset { value_in (codes "A = \"1\"\nunset A\nA ?= \"2\"") (codes "A")
        ≡ gives (Some (codes "2")) }
    // a form is another name
    ensures exactly_that_name { value_in (codes "OVERRIDES = \"b\"\nA:b = \"1\"\nunset A") (codes "A")
        ≡ gives (Some (codes "1")) }
    // late entries of exactly that name go, those of a form stay
    ensures late_of_that_name { value_in
        (codes "OVERRIDES = \"b\"\nA:b = \"1\"\nA:append = \"2\"\nA:b:append = \"3\"\nunset A") (codes "A")
        ≡ gives (Some (codes "13")) }
    // flags go with the name
    ensures flags_go { flag_in (codes "A[f] = \"1\"\nunset A") (codes "A") (codes "f") ≡ gives None }
    // a flag goes alone
    ensures one_flag { flag_in (codes "A[f] = \"1\"\nA[g] = \"2\"\nunset A[f]") (codes "A") (codes "g")
        ≡ gives (Some (codes "2")) }
    // this one
    ensures that_flag { flag_in (codes "A[f] = \"1\"\nA[f] ??= \"0\"\nA[g] = \"2\"\nunset A[f]") (codes "A")
        (codes "f") ≡ gives None }
    // `1`, `1 2`, `01 2`
    ensures flag_operators { flag_in (codes "A[f] = \"1\"\nA[f] += \"2\"\nA[f] =. \"0\"") (codes "A") (codes "f")
        ≡ gives (Some (codes "01 2")) }
    // flags have no overrides
    ensures no_overrides { flag_in (codes "OVERRIDES = \"a\"\nA[f] = \"1\"\nA:a[f] = \"2\"") (codes "A") (codes "f")
        ≡ gives (Some (codes "1")) }
    // a name may have flags alone
    ensures flag_makes_no_value { names_in (codes "A[f] = \"1\"") ≡ gives ((codes "A") ∷ []) }
    // ... and no value
    ensures flag_is_no_value { value_in (codes "A[f] = \"1\"") (codes "A") ≡ gives None }
    // `export` sets a flag
    ensures export { flag_in (codes "export A = \"1\"") (codes "A") (codes "export") ≡ gives (Some (codes "1")) }
    // ... also alone
    ensures export_alone { flag_in (codes "export A") (codes "A") (codes "export") ≡ gives (Some (codes "1")) }
    // of the name as it is written
    ensures export_late { flag_in (codes "export A:append = \"1\"") (codes "A:append") (codes "export")
        ≡ gives (Some (codes "1")) }
    // ... and not of the target
    ensures export_late_not { flag_in (codes "export A:append = \"1\"") (codes "A") (codes "export") ≡ gives None }
    // the append is one of `A`
    ensures export_late_value { value_in (codes "export A:append = \"1\"") (codes "A") ≡ gives (Some (codes "1")) }
    // a function sets `func`
    ensures function { flag_in (codes "f() {\n x\n}") (codes "f") (codes "func") ≡ gives (Some (codes "1")) }
    // ... of the name up to its first colon
    ensures late_function { flag_in (codes "f:append:a() {\n x\n}") (codes "f") (codes "func")
        ≡ gives (Some (codes "1")) }
    // a body is a value like others
    ensures function_value { value_in (codes "f() {\n a\n}\nf:prepend() {\n b\n}") (codes "f")
        ≡ gives (Some (codes " b\n a\n")) }
    // a function sets by `=`
    ensures function_twice { value_in (codes "f() {\n a\n}\nf() {\n b\n}") (codes "f") ≡ gives (Some (codes " b\n")) }
    // late entries of functions
    ensures function_appended { value_in (codes "f() {\n a\n}\nf:append() {\n ${X}\n}\nX = \"1\"") (codes "f")
        ≡ gives (Some (codes " a\n 1\n")) }
    // names in byte order, each once
    ensures in_byte_order { names_in (codes "b = \"1\"\nB = \"2\"\na:c = \"3\"\na = \"4\"\nb = \"5\"")
        ≡ gives ((codes "B") ∷ (codes "a") ∷ (codes "a:c") ∷ (codes "b") ∷ []) }
{}

/// EXPORT_FUNCTIONS gives a call of the class's own function.
pub fn example_of_export_functions()
    // four spaces, class, `_`, function, newline
    ensures call { value_in (codes "EXPORT_FUNCTIONS do_a") (codes "do_a") ≡ gives (Some (codes "    c_do_a\n")) }
    // it is a function
    ensures func { flag_in (codes "EXPORT_FUNCTIONS do_a") (codes "do_a") (codes "func") ≡ gives (Some (codes "1")) }
    // a value stays
    ensures own_value { value_in (codes "do_a() {\n x\n}\nEXPORT_FUNCTIONS do_a") (codes "do_a")
        ≡ gives (Some (codes " x\n")) }
    // a weak default alone is no value
    ensures weak_is_none { value_in (codes "do_a ??= \"w\"\nEXPORT_FUNCTIONS do_a") (codes "do_a")
        ≡ gives (Some (codes "    c_do_a\n")) }
    // where it gives no value it sets no flag
    ensures func_not_set { flag_in (codes "do_a = \"x\"\nEXPORT_FUNCTIONS do_a") (codes "do_a") (codes "func")
        ≡ gives None }
    // a value that comes later replaces it
    ensures later_value { value_in (codes "EXPORT_FUNCTIONS do_a\ndo_a = \"x\"") (codes "do_a")
        ≡ gives (Some (codes "x")) }
    // another class replaces what EXPORT_FUNCTIONS put there
    ensures other_class { base (entry.Exported (codes "k") (codes "f") ∷ entry.Exported (codes "l") (codes "f") ∷ [])
        (codes "f") ≡ Some (codes "    l_f\n") }
    // ... but not where it was changed since
    ensures changed_since { base (entry.Exported (codes "k") (codes "f") ∷ entry.Set (codes "f") Add (codes "x")
        ∷ entry.Exported (codes "l") (codes "f") ∷ []) (codes "f") ≡ Some (codes "    k_f\nx") }
    // `?=` changes nothing there
    ensures not_changed { base (entry.Exported (codes "k") (codes "f") ∷ entry.Set (codes "f") Soft (codes "x")
        ∷ entry.Exported (codes "l") (codes "f") ∷ []) (codes "f") ≡ Some (codes "    l_f\n") }
    // ... nor does a weak default
    ensures weak_changes_nothing { base (entry.Exported (codes "k") (codes "f")
        ∷ entry.Set (codes "f") Weak (codes "x") ∷ entry.Exported (codes "l") (codes "f") ∷ []) (codes "f")
        ≡ Some (codes "    l_f\n") }
    // `unset` leaves no value
    ensures unset_between { base (entry.Exported (codes "k") (codes "f") ∷ entry.Unset (codes "f")
        ∷ entry.Exported (codes "l") (codes "f") ∷ []) (codes "f") ≡ Some (codes "    l_f\n") }
{}

/// What is a reference, and what is plain text. References are shown between `<` and `>`.
pub fn example_of_parts()
    // two references
    ensures two { read (codes "a ${B} ${c-1}x") ≡ (codes "a <B> <c-1>x") }
    // a reference in a name
    ensures nested { read (codes "${a${b}c}") ≡ (codes "<a<b>c>") }
    // a blank is no character of a name; the inner one is a reference all the same
    ensures blank { read (codes "${a ${b}}") ≡ (codes "${a <b>}") }
    // a reference has a name
    ensures empty { read (codes "${}${x}") ≡ (codes "${}<x>") }
    // only the last one is closed
    ensures unclosed { read (codes "${${${b}") ≡ (codes "${${<b>") }
    // the first brace closes it
    ensures brace { read (codes "${a}}") ≡ (codes "<a>}") }
    // `@` is no character of a name
    ensures python { read (codes "${@x}$${y}$") ≡ (codes "${@x}$<y>$") }
    // `$` alone is none either
    ensures dollar { read (codes "${a$b}{c}") ≡ (codes "${a$b}{c}") }
    // the inner one is no reference, so the outer one isn't
    ensures inner_empty { read (codes "${a${}}") ≡ (codes "${a${}}") }
    // a brace in the name
    ensures open_brace { read (codes "${a{b}") ≡ (codes "${a{b}") }
    // the characters of a name
    ensures characters { read (codes "${aZ09-_+./~:}") ≡ (codes "<aZ09-_+./~:>") }
    // `$` before `${`
    ensures dollar_dollar { read (codes "$${a}") ≡ (codes "$<a>") }
    // `${a b` is plain, and what follows counts
    ensures outer_fails { read (codes "${a b${c}") ≡ (codes "${a b<c>") }
{}

/// Tasks, and what they come after.
pub fn example_of_tasks()
    // `after`
    ensures after { tasks_in (codes "addtask a\naddtask b after a")
        ≡ gives (((codes "do_a"), []) ∷ ((codes "do_b"), ((codes "do_a") ∷ [])) ∷ []) }
    // `before`, also where the other task comes later
    ensures before { tasks_in (codes "addtask a before b\naddtask b")
        ≡ gives (((codes "do_a"), []) ∷ ((codes "do_b"), ((codes "do_a") ∷ [])) ∷ []) }
    // a task that isn't there is ignored
    ensures absent { tasks_in (codes "addtask a after z before y") ≡ gives (((codes "do_a"), []) ∷ []) }
    // `deltask` takes every order away that has the task so far
    ensures deleted { tasks_in (codes "addtask a\naddtask b after a\ndeltask a\naddtask a")
        ≡ gives (((codes "do_a"), []) ∷ ((codes "do_b"), []) ∷ []) }
    // the task is gone
    ensures gone { tasks_in (codes "addtask a\naddtask b after a\ndeltask a") ≡ gives (((codes "do_b"), []) ∷ []) }
    // an order that comes later counts
    ensures later_order { tasks_in (codes "addtask a\ndeltask a\naddtask b after a\naddtask a")
        ≡ gives (((codes "do_a"), []) ∷ ((codes "do_b"), ((codes "do_a") ∷ [])) ∷ []) }
    // each of the words; in byte order
    ensures several { tasks_in (codes "addtask b a after c before d\naddtask d c")
        ≡ gives (((codes "do_a"), ((codes "do_c") ∷ [])) ∷ ((codes "do_b"), ((codes "do_c") ∷ []))
        ∷ ((codes "do_c"), []) ∷ ((codes "do_d"), ((codes "do_a") ∷ (codes "do_b") ∷ [])) ∷ []) }
    // a task that is added twice has both orders
    ensures twice { tasks_in (codes "addtask a after b\naddtask a after c\naddtask c b")
        ≡ gives (((codes "do_a"), ((codes "do_b") ∷ (codes "do_c") ∷ [])) ∷ ((codes "do_b"), [])
        ∷ ((codes "do_c"), []) ∷ []) }
    // a task may come after itself, which is a cycle
    ensures itself { tasks_in (codes "addtask a after a") ≡ gives (((codes "do_a"), ((codes "do_a") ∷ [])) ∷ []) }
    // `unset` of a name leaves the task
    ensures unset { tasks_in (codes "addtask a\ndo_a = \"x\"\nunset do_a") ≡ gives (((codes "do_a"), []) ∷ []) }
{}
