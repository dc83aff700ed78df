// Worked forms: how the two literal forms of Python are read, and what they give. Each expected answer is derived from the rules
// by hand; the comment above it says why.
#![tactic(auto, unfolding(crate::specs::Statements::statement_of, crate::specs::Grammar::fit_of, crate::specs::Grammar::operator, crate::specs::Grammar::quoted))]

ghost use Rattle.std.specs.Prelude.{◌≡◌, ◌∷◌, [], codes, Some, None, ◌++◌, true, false};
ghost use Rattle.meta_model.specs.Refusal.{value_cycle, too_deep};
ghost use Rattle.meta_model.specs.Statements.{holds_python};
ghost use Rattle.meta_model.specs.Evaluated.{gives, refused, value_in, value_within, expanded_in, active_in, read};

/// What is a form, and what is plain text. A form is shown by its name and its words between `<` and `>`.
pub fn example_of_form_parts()
    // the words are put in byte order, each once
    ensures contains { read (codes "a ${@bb.utils.contains('F', 'c b c', 'y', 'n', d)}x") ≡ codes "a <@F b c>x" }
    // the other call, with the other quotes
    ensures filter { read (codes "${@bb.utils.filter(\"F\", \"a\", d)}") ≡ codes "<@F a>" }
    // blanks around each argument, and before the brace
    ensures blanks { read (codes "${@bb.utils.filter( 'F'\t,  'a' ,d ) \t}") ≡ codes "<@F a>" }
    // no blanks are needed
    ensures no_blanks { read (codes "${@bb.utils.contains('F','a','y','n',d)}") ≡ codes "<@F a>" }
    // the first two literals have quotes of both kinds, and the others hold a comma, a bracket, and nothing
    ensures literals { read (codes "${@bb.utils.contains('F', \"a\", 'y, )', '', d)}") ≡ codes "<@F a>" }
    // a newline within a literal parts words
    ensures newline { read (codes "${@bb.utils.filter('F', 'a\nb', d)}") ≡ codes "<@F a b>" }
    // the name is a whole name
    ensures colons { read (codes "${@bb.utils.filter('F:x-1.2+~/_', 'a', d)}") ≡ codes "<@F:x-1.2+~/_ a>" }
    // two of them, with plain text and a reference between
    ensures two { read (codes "${@bb.utils.filter('F', 'a', d)}-${B}${@bb.utils.filter('G', 'a', d)}")
        ≡ codes "<@F a>-<B><@G a>" }
    // no form is part of a reference's name
    ensures within_name { read (codes "${A${@bb.utils.filter('F', 'a', d)}B}") ≡ codes "${A<@F a>B}" }
    // an opening that nothing closes
    ensures behind_opening { read (codes "${${@bb.utils.filter('F', 'a', d)}") ≡ codes "${<@F a>" }
    // a brace behind it is plain
    ensures before_brace { read (codes "${@bb.utils.filter('F', 'a', d)}}") ≡ codes "<@F a>}" }
{}

/// What is no form: it is plain text where it is expanded, and Python where a statement holds it.
pub fn example_of_near_forms()
    // a blank before `bb`
    ensures blank_before { holds_python (codes "${@ bb.utils.filter('F', 'a', d)}") ≡ true }
    // ... before the bracket
    ensures blank_behind { holds_python (codes "${@bb.utils.filter ('F', 'a', d)}") ≡ true }
    // ... within the quotes of the name
    ensures blank_in_name { holds_python (codes "${@bb.utils.filter('F ', 'a', d)}") ≡ true }
    // a newline between arguments
    ensures newline_between { holds_python (codes "${@bb.utils.filter('F',\n'a', d)}") ≡ true }
    // another last argument
    ensures other_last { holds_python (codes "${@bb.utils.filter('F', 'a', e)}") ≡ true }
    // ... which goes on
    ensures longer_last { holds_python (codes "${@bb.utils.filter('F', 'a', dd)}") ≡ true }
    // ... which is a literal
    ensures literal_last { holds_python (codes "${@bb.utils.filter('F', 'a', 'd')}") ≡ true }
    // no name
    ensures no_name { holds_python (codes "${@bb.utils.filter('', 'a', d)}") ≡ true }
    // no word
    ensures no_word { holds_python (codes "${@bb.utils.contains('F', '', 'y', 'n', d)}") ≡ true }
    // white space alone is no word either
    ensures white_word { holds_python (codes "${@bb.utils.contains('F', ' \t', 'y', 'n', d)}") ≡ true }
    // a quote of the other kind within a literal
    ensures inner_quote { holds_python (codes "${@bb.utils.contains('F', 'a', 'y\"', 'n', d)}") ≡ true }
    // a backslash within one
    ensures backslash { holds_python (codes "${@bb.utils.contains('F', 'a', 'y\\', 'n', d)}") ≡ true }
    // a `$` within one
    ensures dollar { holds_python (codes "${@bb.utils.contains('F', 'a', '$y', 'n', d)}") ≡ true }
    // a reference within one
    ensures reference { holds_python (codes "${@bb.utils.contains('F', 'a', '${Y}', 'n', d)}") ≡ true }
    // two quotes of different kinds
    ensures mixed_quotes { holds_python (codes "${@bb.utils.filter('F\", 'a', d)}") ≡ true }
    // one literal too few
    ensures three { holds_python (codes "${@bb.utils.contains('F', 'a', 'y', d)}") ≡ true }
    // one too many
    ensures five { holds_python (codes "${@bb.utils.contains('F', 'a', 'y', 'n', 'o', d)}") ≡ true }
    // something behind the bracket
    ensures behind_bracket { holds_python (codes "${@bb.utils.filter('F', 'a', d).strip()}") ≡ true }
    // another function
    ensures other_function { holds_python (codes "${@bb.utils.contains_any('F', 'a', 'y', 'n', d)}") ≡ true }
    // the text ends too early
    ensures cut { holds_python (codes "${@bb.utils.filter('F', 'a', d)") ≡ true }
    // a form first, and other Python behind it
    ensures second { holds_python (codes "${@bb.utils.filter('F', 'a', d)} ${@x}") ≡ true }
    // forms alone
    ensures forms { holds_python (codes "a${@bb.utils.filter('F', 'a', d)}${@bb.utils.contains('F','a','','',d)}") ≡ false }
    // no `${@`
    ensures none { holds_python (codes "${a}@{b} $ {@c}") ≡ false }
    // where no statement was read it is plain text
    ensures plain { read (codes "${@bb.utils.filter('F', 'a', e)}${B}") ≡ codes "${@bb.utils.filter('F', 'a', e)}<B>" }
{}

/// What forms give.
pub fn example_of_forms()
    // the word is there
    ensures there { value_in (codes "F = \"a b\"\nX = \"${@bb.utils.contains('F', 'b', 'yes', 'no', d)}\"") (codes "X")
        ≡ gives (Some (codes "yes")) }
    // one of the two isn't
    ensures one_missing { value_in (codes "F = \"a b\"\nX = \"${@bb.utils.contains('F', 'b c', 'yes', 'no', d)}\"")
        (codes "X") ≡ gives (Some (codes "no")) }
    // those that are there, in byte order
    ensures filtered { value_in (codes "F = \"b  a\tb\"\nX = \"${@bb.utils.filter('F', 'c b a', d)}\"") (codes "X")
        ≡ gives (Some (codes "a b")) }
    // a part of a word is no word
    ensures part { value_in (codes "F = \"ab\"\nX = \"[${@bb.utils.filter('F', 'a b', d)}]\"") (codes "X")
        ≡ gives (Some (codes "[]")) }
    // the name has no value
    ensures absent { value_in (codes "X = \"${@bb.utils.contains('F', 'a', 'yes', 'no', d)}\"") (codes "X")
        ≡ gives (Some (codes "no")) }
    // the name's value is expanded, and its appends and removes count
    ensures expanded { value_in (codes "G = \"b\"\nF = \"a ${G}\"\nF:append = \" c\"\nF:remove = \"a\"\nX = \"${@bb.utils.filter('F', 'a b c', d)}\"")
        (codes "X") ≡ gives (Some (codes "b c")) }
    // the name's active form counts
    ensures overridden { value_in (codes "OVERRIDES = \"o\"\nF = \"a\"\nF:o = \"b\"\nX = \"${@bb.utils.filter('F', 'a b', d)}\"")
        (codes "X") ≡ gives (Some (codes "b")) }
    // ... and so does one that is asked for by its whole name
    ensures whole_name { value_in (codes "F = \"a\"\nF:o = \"b\"\nX = \"${@bb.utils.filter('F:o', 'a b', d)}\"") (codes "X")
        ≡ gives (Some (codes "b")) }
    // the white space of the two texts stays
    ensures white_space { value_in (codes "F = \"a\"\nX = \"<${@bb.utils.contains('F', 'a', ' y  z ', '', d)}>\"") (codes "X")
        ≡ gives (Some (codes "< y  z >")) }
    // what is put in isn't read again
    ensures not_read_again { value_in (codes "B = \"b\"\nF = \"a\"\nX = \"$${@bb.utils.contains('F', 'a', 'B', '', d)}\"")
        (codes "X") ≡ gives (Some (codes "$B")) }
    // the name is that of the value itself
    ensures own_name { value_in (codes "F = \"${@bb.utils.filter('F', 'a', d)}\"") (codes "F")
        ≡ refused (value_cycle (codes "F")) }
    // ... or leads to it
    ensures cycle { value_in (codes "F = \"${G}\"\nG = \"${@bb.utils.filter('F', 'a', d)}\"") (codes "G")
        ≡ refused (value_cycle (codes "G")) }
    // it stands in no reference's name, so `A` isn't looked up
    ensures within_name { value_in (codes "F = \"a\"\nAaB = \"x\"\nX = \"${A${@bb.utils.filter('F', 'a', d)}B}\"") (codes "X")
        ≡ gives (Some (codes "${AaB}")) }
    // in a remove
    ensures remove { value_in (codes "F = \"a\"\nX = \"a b c\"\nX:remove = \"${@bb.utils.filter('F', 'a c', d)}\"") (codes "X")
        ≡ gives (Some (codes " b c")) }
    // `:=` expands it at once
    ensures at_once { value_in (codes "F = \"a\"\nX := \"${@bb.utils.filter('F', 'a b', d)}\"\nF = \"b\"") (codes "X")
        ≡ gives (Some (codes "a")) }
    // in OVERRIDES
    ensures overrides { active_in (codes "F = \"a\"\nOVERRIDES = \"x:${@bb.utils.contains('F', 'a', 'y', 'z', d)}\"")
        ≡ gives (codes "x" ∷ codes "y" ∷ []) }
    // what is no form stays
    ensures no_form { expanded_in (codes "F = \"a\"") (codes "${@bb.utils.filter('F', 'a', e)}")
        ≡ gives (codes "${@bb.utils.filter('F', 'a', e)}") }
    // the name of a form counts among 64 names in expansion: none may be here
    ensures no_room { value_within 1 (codes "F = \"a\"\nX = \"${@bb.utils.filter('F', 'a', d)}\"") (codes "X")
        ≡ refused (too_deep (codes "X")) }
    // here one may be
    ensures room { value_within 2 (codes "F = \"a\"\nX = \"${@bb.utils.filter('F', 'a', d)}\"") (codes "X")
        ≡ gives (Some (codes "a")) }
{}
