// Worked lines: what is a statement, and what is refused. Each expected answer is derived from the rules by hand; the
// comment above it says why.
ghost use Rattle.std.specs.Prelude.{◌≡◌, ◌∷◌, [], ◌++◌, codes, true, false};
ghost use Rattle.meta_model.specs.declared.entry.Op.TheVariants as op;
ghost use Rattle.meta_model.specs.declared.line.Kind.TheVariants.{Conf, Recipe, Class};
ghost use Rattle.meta_model.specs.declared.line.SyntaxFault.TheVariants as wrong;
ghost use Rattle.meta_model.specs.declared.statement.Statement.TheVariants as statement;
ghost use Rattle.meta_model.specs.Statements.{AreStatements, IsFirstFault};

/// What is refused, and with which fault.
pub fn example_of_statement_refusals()
    // the first word is `python`
    ensures python_function { IsFirstFault Recipe (codes "python do_x() {\n}\n") 1 wrong.Python }
    // the quoted text holds `${@`
    ensures python_text { IsFirstFault Conf (codes "A = \"${@1}\"\n") 1 wrong.Python }
    // a `${@` that begins neither form: the second literal has no word
    ensures python_near_form { IsFirstFault Conf (codes "A = \"${@bb.utils.contains('F', '', 'y', 'n', d)}\"\n") 1
        wrong.Python }
    // a form
    ensures form { AreStatements Conf (codes "A = \"${@bb.utils.filter('F', 'a', d)}\"")
        ((1, statement.Assign false (codes "A") op.Set (codes "${@bb.utils.filter('F', 'a', d)}")) ∷ []) }
    // the first word is `fakeroot`
    ensures fakeroot_function { IsFirstFault Recipe (codes "fakeroot do_x() {\n}\n") 1 wrong.Fakeroot }
    // the program sets WORKDIR
    ensures reserved { IsFirstFault Conf (codes "WORKDIR = \"/x\"") 1 wrong.ReservedName }
    // one inner quote of the kind that ends the text
    ensures one_inner_quote { IsFirstFault Conf (codes "A = \"a\"b\"") 1 wrong.OneInnerQuote }
    // two are kept
    ensures two_inner_quotes { AreStatements Conf (codes "A = \"a\"b\"c\"")
        ((1, statement.Assign false (codes "A") op.Set (codes "a\"b\"c")) ∷ []) }
    // the last quote doesn't end the line
    ensures behind_the_quote { IsFirstFault Conf (codes "A = \"x\" y") 1 wrong.BadLine }
    // nothing follows the backslash
    ensures last_line_joined { IsFirstFault Conf (codes "A = \"x\" \\") 1 wrong.DanglingJoin }
    // the comment stands where line 1 goes on; it has its own number
    ensures comment_in_join { IsFirstFault Conf (codes "A = \"x \\\n# y\"") 2 wrong.CommentInJoin }
    // byte 255 begins no character
    ensures no_utf8 { IsFirstFault Conf (255 ∷ []) 1 wrong.NotUtf8 }
{}

/// Physical and logical lines.
pub fn example_of_lines()
    // no line, no statement
    ensures empty_file { AreStatements Conf [] [] }
    // empty lines, white space and comments are dropped; a backslash at the end of a comment joins nothing
    ensures dropped_lines { AreStatements Conf (codes "\n\n  \t\r\n# a \\\n") [] }
    // the join takes backslash and newline away and keeps all blanks; line 3 keeps its number
    ensures join { AreStatements Conf (codes "A = \"x \\\n  y\"\nB = \"z\"")
        ((1, statement.Assign false (codes "A") op.Set (codes "x   y"))
        ∷ (3, statement.Assign false (codes "B") op.Set (codes "z")) ∷ []) }
    // the empty line ends the join, so `B` is a line of its own
    ensures empty_line_ends_join { IsFirstFault Conf (codes "A = \"x\"\\\n\nB") 3 wrong.BadLine }
    // blanks go at the ends of physical lines, and a backslash ends this one: the blank stays behind the quote
    ensures blank_before_join_stays { IsFirstFault Conf (codes "A = \"x\" \\\n\nB") 1 wrong.BadLine }
    // the same without the blank
    ensures join_with_nothing { AreStatements Conf (codes "A = \"x\"\\\n\n")
        ((1, statement.Assign false (codes "A") op.Set (codes "x")) ∷ []) }
    // a backslash before an empty line is a line without text
    ensures logical_line_without_text { IsFirstFault Conf (codes "\\\n\n") 1 wrong.BadLine }
    // DanglingJoin in line 2 comes before BadLine in line 1
    ensures join_faults_first { IsFirstFault Conf (codes "x\nA = \\") 2 wrong.DanglingJoin }
    // the comment in line 2 comes before the dangling join in line 3
    ensures least_join_fault { IsFirstFault Conf (codes "A = \"x \\\n #\nB = \\") 2 wrong.CommentInJoin }
    // spaces, tabs and carriage returns at the end go, blanks in front are skipped
    ensures white_space_at_ends { AreStatements Conf (codes "A = 'x' \t\r\n\tB = \"y\"\r\n")
        ((1, statement.Assign false (codes "A") op.Set (codes "x"))
        ∷ (2, statement.Assign false (codes "B") op.Set (codes "y")) ∷ []) }
    // `A \\` leaves `A \` and takes the next line
    ensures two_backslashes { IsFirstFault Conf (codes "A \\\\\n= \"x\"") 1 wrong.BadLine }
    // no line follows the newline
    ensures join_at_last_newline { IsFirstFault Conf (codes "A = \"x\"\\\n") 1 wrong.DanglingJoin }
    // the logical line begins in line 3; line 5 comes later
    ensures number_of_first_line { IsFirstFault Conf (codes "A = \"x\"\n\n\\\nB\nWORKDIR = \"y\"") 3 wrong.BadLine }
    // blanks at the end go first, so the backslash ends the line and joins
    ensures backslash_before_blanks { AreStatements Conf (codes "A = \"x\\ \t\ny\"")
        ((1, statement.Assign false (codes "A") op.Set (codes "xy")) ∷ []) }
    // a text that goes on keeps its blanks; those before a newline outside a join are gone
    ensures blanks_inside_quotes_at_end { AreStatements Conf (codes "A = \"x  \\\n\"")
        ((1, statement.Assign false (codes "A") op.Set (codes "x  ")) ∷ []) }
    // `#` behind other text begins no comment
    ensures comment_behind_text { AreStatements Conf (codes "A = \"x # y\"")
        ((1, statement.Assign false (codes "A") op.Set (codes "x # y")) ∷ []) }
    // ... and is no part of a form
    ensures comment_behind_quote { IsFirstFault Conf (codes "A = \"x\" # y") 1 wrong.BadLine }
    // a join may go on and on
    ensures three_physical_lines { AreStatements Conf (codes "A = \\\n\"x\\\ny\"\nB = \"z\"")
        ((1, statement.Assign false (codes "A") op.Set (codes "xy"))
        ∷ (4, statement.Assign false (codes "B") op.Set (codes "z")) ∷ []) }
    // a carriage return that isn't at the end of a line stays, and is no blank
    ensures carriage_return_inside { IsFirstFault Conf (codes "A =\r \"x\"") 1 wrong.BadLine }
{}

/// The operators, and where a name ends.
pub fn example_of_operators()
    // `=` without blanks
    ensures set { AreStatements Conf (codes "A=\"x\"")
        ((1, statement.Assign false (codes "A") op.Set (codes "x")) ∷ []) }
    // `:=` without blanks
    ensures now { AreStatements Conf (codes "A:=\"x\"")
        ((1, statement.Assign false (codes "A") op.Now (codes "x")) ∷ []) }
    // `?=` without blanks
    ensures soft { AreStatements Conf (codes "A?=\"x\"")
        ((1, statement.Assign false (codes "A") op.Soft (codes "x")) ∷ []) }
    // `??=` without blanks
    ensures weak { AreStatements Conf (codes "A??=\"x\"")
        ((1, statement.Assign false (codes "A") op.Weak (codes "x")) ∷ []) }
    // `+=` without blanks
    ensures add_blank { AreStatements Conf (codes "A+=\"x\"")
        ((1, statement.Assign false (codes "A") op.AddBlank (codes "x")) ∷ []) }
    // `=+` without blanks
    ensures put_blank { AreStatements Conf (codes "A=+\"x\"")
        ((1, statement.Assign false (codes "A") op.PutBlank (codes "x")) ∷ []) }
    // `.=` without blanks
    ensures add { AreStatements Conf (codes "A.=\"x\"")
        ((1, statement.Assign false (codes "A") op.Add (codes "x")) ∷ []) }
    // `=.` without blanks
    ensures put { AreStatements Conf (codes "A=.\"x\"")
        ((1, statement.Assign false (codes "A") op.Put (codes "x")) ∷ []) }
    // the shortest name is `A`, its operator `:=`, and then `+` is no quote: there is no going back
    ensures longest_operator { IsFirstFault Conf (codes "A:=+\"x\"") 1 wrong.BadLine }
    // the name may hold `:` and `+`, and ends where an operator follows
    ensures shortest_name { AreStatements Conf (codes "RPROVIDES:gtk+=\"x\"")
        ((1, statement.Assign false (codes "RPROVIDES:gtk") op.AddBlank (codes "x")) ∷ []) }
    // blanks may stand on both sides
    ensures blanks_round_operator { AreStatements Conf (codes "A:append:b \t.= \t\"x\"")
        ((1, statement.Assign false (codes "A:append:b") op.Add (codes "x")) ∷ []) }
    // blank ends the name `A+`
    ensures plus_in_name { AreStatements Conf (codes "A+ = \"x\"")
        ((1, statement.Assign false (codes "A+") op.Set (codes "x")) ∷ []) }
    // a name has at least one character, so this is the name `+` with `=`
    ensures plus_alone { AreStatements Conf (codes "+= \"x\"")
        ((1, statement.Assign false (codes "+") op.Set (codes "x")) ∷ []) }
    // `=` is no character of a name
    ensures no_name { IsFirstFault Conf (codes "= \"x\"") 1 wrong.BadLine }
    // a blank is no character of a name
    ensures blank_in_name { IsFirstFault Conf (codes "A B = \"x\"") 1 wrong.BadLine }
    // `$`, `{` and `}` may stand in a name
    ensures reference_in_name { AreStatements Conf (codes "FILES:${PN}-dev = \"a\"")
        ((1, statement.Assign false (codes "FILES:${PN}-dev") op.Set (codes "a")) ∷ []) }
    // ... a single one too
    ensures brace_alone { AreStatements Conf (codes "} = \"x\"")
        ((1, statement.Assign false (codes "}") op.Set (codes "x")) ∷ []) }
    // `??=` has no meaning for a late name
    ensures weak_late_name { IsFirstFault Conf (codes "A:append ??= \"x\"") 1 wrong.BadLine }
    // a flag belongs to the name as it stands
    ensures weak_flag_of_late_name { AreStatements Conf (codes "A:append[f] ??= \"x\"")
        ((1, statement.Flag (codes "A:append") (codes "f") op.Weak (codes "x")) ∷ []) }
    // the first part of a name is no keyword
    ensures keyword_first { AreStatements Conf (codes "append ??= \"x\"")
        ((1, statement.Assign false (codes "append") op.Weak (codes "x")) ∷ []) }
    // the second part is no keyword, the third is
    ensures late_by_second_keyword { IsFirstFault Conf (codes "A:b:remove ??= \"x\"") 1 wrong.BadLine }
    // `a/b` is a name, but nothing is assigned
    ensures slash_no_operator { IsFirstFault Conf (codes "a/b") 1 wrong.BadLine }
{}

/// Quoted texts.
pub fn example_of_quotes()
    // a quoted text has two quotes
    ensures one_quote { IsFirstFault Conf (codes "A = \"") 1 wrong.BadLine }
    // ... and may hold nothing
    ensures empty_text { AreStatements Conf (codes "A = \"\"")
        ((1, statement.Assign false (codes "A") op.Set []) ∷ []) }
    // the other kind of quote is text
    ensures other_quote { AreStatements Conf (codes "A = \"'\"")
        ((1, statement.Assign false (codes "A") op.Set (codes "'")) ∷ []) }
    // single quotes serve as well
    ensures single_quotes { AreStatements Conf (codes "A = 'x\"y'")
        ((1, statement.Assign false (codes "A") op.Set (codes "x\"y")) ∷ []) }
    // exactly one inner quote of the outer kind
    ensures one_single_inside { IsFirstFault Conf (codes "A = 'x'y'") 1 wrong.OneInnerQuote }
    // the line must end with the kind it began with
    ensures unequal_quotes { IsFirstFault Conf (codes "A = \"x'") 1 wrong.BadLine }
    // a line that is no form has no quoted text
    ensures python_behind_quote { IsFirstFault Conf (codes "A = \"${@x}\" y") 1 wrong.BadLine }
    // flags are quoted alike
    ensures inner_quote_of_flag { IsFirstFault Conf (codes "A[f] += \"a\"b\"") 1 wrong.OneInnerQuote }
    // OneInnerQuote comes before ReservedName
    ensures quote_before_reserved { IsFirstFault Conf (codes "WORKDIR = \"a\"b\"") 1 wrong.OneInnerQuote }
    // Python comes before OneInnerQuote
    ensures python_before_quote { IsFirstFault Conf (codes "A = \"${@\"}\"") 1 wrong.Python }
    // ReservedName comes before BadLine
    ensures reserved_before_bad { IsFirstFault Conf (codes "WORKDIR:append ??= \"a\"") 1 wrong.ReservedName }
    // a backslash inside is text, and escapes nothing
    ensures backslash_in_quotes { AreStatements Conf (codes "A = \"\\n\"")
        ((1, statement.Assign false (codes "A") op.Set (codes "\\n")) ∷ []) }
    // UTF-8 in a text is kept
    ensures two_bytes { AreStatements Conf (codes "A=\"" ++ 195 ∷ 169 ∷ codes "\"")
        ((1, statement.Assign false (codes "A") op.Set (195 ∷ 169 ∷ [])) ∷ []) }
    // ... and no letter of a name
    ensures letters_are_ascii { IsFirstFault Conf (195 ∷ 169 ∷ codes "=\"\"") 1 wrong.BadLine }
    // a character of three bytes ends too early in line 3, though line 2 has no form
    ensures line_of_bad_byte { IsFirstFault Conf (codes "A = \"x\"\nB\n\\" ++ 226 ∷ 10 ∷ 130 ∷ []) 3 wrong.NotUtf8 }
{}

/// Statements that begin with a word.
pub fn example_of_directives()
    // `export` in front of an assignment
    ensures export_assignment { AreStatements Conf (codes "export A += \"x\"")
        ((1, statement.Assign true (codes "A") op.AddBlank (codes "x")) ∷ []) }
    // the first form that fits counts: an assignment
    ensures variable_named_export { AreStatements Conf (codes "export = \"x\"")
        ((1, statement.Assign false (codes "export") op.Set (codes "x")) ∷ []) }
    // the name alone
    ensures export_name { AreStatements Conf (codes "export A") ((1, statement.Export (codes "A")) ∷ []) }
    // unset of a name, and of a flag
    ensures unset_name_and_flag { AreStatements Conf (codes "unset A\nunset A[f]")
        ((1, statement.Unset (codes "A")) ∷ (2, statement.UnsetFlag (codes "A") (codes "f")) ∷ []) }
    // a flag doesn't begin with `@`
    ensures flag_with_at { IsFirstFault Conf (codes "unset A[@f]") 1 wrong.BadLine }
    // `@` may stand behind its first character
    ensures flag_characters { AreStatements Conf (codes "do_a[x@y]=\"z\"")
        ((1, statement.Flag (codes "do_a") (codes "x@y") op.Set (codes "z")) ∷ []) }
    // no blank stands between name and flag
    ensures blank_before_flag { IsFirstFault Conf (codes "A [f] = \"z\"") 1 wrong.BadLine }
    // TEXT is the rest of the line, with inner blanks
    ensures include_and_require { AreStatements Conf (codes "include  a/${B} c\nrequire x")
        ((1, statement.Include (codes "a/${B} c")) ∷ (2, statement.Require (codes "x")) ∷ []) }
    // Python is asked of the text too
    ensures python_path { IsFirstFault Conf (codes "include ${@x}") 1 wrong.Python }
    // TEXT has at least one character
    ensures include_nothing { IsFirstFault Conf (codes "include") 1 wrong.BadLine }
    // `inherit` stands in recipes and classes
    ensures inherit_in_configuration { IsFirstFault Conf (codes "inherit a") 1 wrong.BadLine }
    // TEXT may be several words
    ensures inherit { AreStatements Recipe (codes "inherit a b") ((1, statement.Inherit (codes "a b")) ∷ []) }
    // a join keeps the carriage return before its backslash
    ensures carriage_return_in_text { AreStatements Conf (codes "include a\r\\\n\n")
        ((1, statement.Include (codes "a\r")) ∷ []) }
    // two backslashes before an empty line leave one
    ensures backslash_in_text { AreStatements Conf (codes "include a \\\\\n\n")
        ((1, statement.Include (codes "a \\")) ∷ []) }
    // other directives are no forms
    ensures inherit_defer { IsFirstFault Recipe (codes "inherit_defer a") 1 wrong.BadLine }
    // a reserved name with further parts
    ensures unset_reserved { IsFirstFault Conf (codes "unset WORKDIR:x") 1 wrong.ReservedName }
    // ... but not as a later part
    ensures reserved_inside { AreStatements Conf (codes "A:WORKDIR = \"x\"")
        ((1, statement.Assign false (codes "A:WORKDIR") op.Set (codes "x")) ∷ []) }
    // a blank must follow the word
    ensures word_joined_to_name { IsFirstFault Conf (codes "exportA") 1 wrong.BadLine }
{}

/// Functions and their bodies.
pub fn example_of_functions()
    // blanks before `(` and `{`; in the body backslashes, comments, empty lines and ` }` are text
    ensures body { AreStatements Recipe (codes "do_x () {\n  a \\\n# b\n\n }\n}\nA = \"x\"")
        ((1, statement.Function (codes "do_x") (codes "  a \\\n# b\n\n }\n"))
        ∷ (7, statement.Assign false (codes "A") op.Set (codes "x")) ∷ []) }
    // blanks and carriage returns behind `}` are dropped like those of any line
    ensures close_with_blanks { AreStatements Recipe (codes "f() {\n x\n} \t\r\n")
        ((1, statement.Function (codes "f") (codes " x\n")) ∷ []) }
    // no body line, empty text
    ensures empty_body { AreStatements Recipe (codes "f() {\n}") ((1, statement.Function (codes "f") []) ∷ []) }
    // the file ends in the body; the head's line is named
    ensures open { IsFirstFault Recipe (codes "A = \"x\"\ndo_x() {\n a") 2 wrong.OpenFunction }
    // functions stand in recipes and classes
    ensures in_configuration { IsFirstFault Conf (codes "do_x() {\n}") 1 wrong.BadLine }
    // ReservedName comes before BadLine
    ensures reserved_function { IsFirstFault Conf (codes "WORKDIR() {\n}") 1 wrong.ReservedName }
    // a fault in a body has the head's line
    ensures python_in_body { IsFirstFault Recipe (codes "do_x() {\n ${@a}\n}") 1 wrong.Python }
    // Python comes before BadLine and OpenFunction
    ensures python_in_bad_body { IsFirstFault Recipe (codes "a b() {\n${@") 1 wrong.Python }
    // BadLine comes before OpenFunction
    ensures bad_head { IsFirstFault Recipe (codes "a b() {\n$\n") 1 wrong.BadLine }
    // the first word is `def`
    ensures def { IsFirstFault Recipe (codes "def x(a):") 1 wrong.Python }
    // a `(` may follow `python` at once
    ensures python_alone { IsFirstFault Recipe (codes "python() {\n}") 1 wrong.Python }
    // other words may begin so
    ensures python_in_name { AreStatements Recipe (codes "pythonic() {\n}")
        ((1, statement.Function (codes "pythonic") []) ∷ []) }
    // `fakeroot()` isn't the word `fakeroot`
    ensures fakeroot_name { AreStatements Recipe (codes "fakeroot() {\n}")
        ((1, statement.Function (codes "fakeroot") []) ∷ []) }
    // ... and here it is
    ensures fakeroot_assigned { IsFirstFault Recipe (codes "fakeroot = \"x\"") 1 wrong.Fakeroot }
    // the head is a logical line
    ensures joined_head { AreStatements Recipe (codes "do_x() \\\n{\n}")
        ((1, statement.Function (codes "do_x") []) ∷ []) }
    // a line that opens a body is a function's head alone
    ensures two_words { IsFirstFault Recipe (codes "inherit x() {\n}") 1 wrong.BadLine }
    // a name with a late keyword
    ensures late_function { AreStatements Class (codes "f:append() {\n x\n}")
        ((1, statement.Function (codes "f:append") (codes " x\n")) ∷ []) }
    // white space ends the first word
    ensures python_by_carriage_return { IsFirstFault Recipe (codes "python\rx") 1 wrong.Python }
    // ... and may stand in front of it
    ensures carriage_return_in_front { IsFirstFault Conf (codes "\rpython x") 1 wrong.Python }
    // BadLine comes before OpenFunction here too
    ensures open_in_configuration { IsFirstFault Conf (codes "f() {\n a") 1 wrong.BadLine }
    // a line with `=` opens no body, so line 2 is no part of one, and BadLine in line 1 is the first fault
    ensures equals_opens_nothing { IsFirstFault Recipe (codes "A = f() {\n${@x}") 1 wrong.BadLine }
    // ... and a text may end like a head
    ensures equals_in_text { AreStatements Recipe (codes "include a=b() {")
        ((1, statement.Include (codes "a=b() {")) ∷ []) }
    // a line with `=` or a quote opens no body
    ensures quote_opens_nothing { AreStatements Conf (codes "A = \"f() {\"\nB = \"x\"")
        ((1, statement.Assign false (codes "A") op.Set (codes "f() {"))
        ∷ (2, statement.Assign false (codes "B") op.Set (codes "x")) ∷ []) }
{}

/// Tasks and EXPORT_FUNCTIONS.
pub fn example_of_tasks()
    // words, in a class
    ensures export_functions { AreStatements Class (codes "EXPORT_FUNCTIONS do_a  do_b")
        ((1, statement.ExportFunctions ((codes "do_a") ∷ (codes "do_b") ∷ [])) ∷ []) }
    // ... alone
    ensures export_functions_in_recipe { IsFirstFault Recipe (codes "EXPORT_FUNCTIONS do_a") 1 wrong.BadLine }
    // a join with an empty line hides the brace: no body is opened, and any words will do
    ensures export_functions_of_odd_words { AreStatements Class (codes "EXPORT_FUNCTIONS a() { \\\n\n")
        ((1, statement.ExportFunctions ((codes "a()") ∷ (codes "{") ∷ [])) ∷ []) }
    // `do_` is put before each word that lacks it
    ensures parts_in_either_order { AreStatements Recipe (codes "addtask a do_b before d after c")
        ((1, statement.AddTask ((codes "do_a") ∷ (codes "do_b") ∷ []) ((codes "do_c") ∷ []) ((codes "do_d") ∷ []))
        ∷ []) }
    // a task alone
    ensures no_parts { AreStatements Class (codes "addtask a")
        ((1, statement.AddTask ((codes "do_a") ∷ []) [] []) ∷ []) }
    // each part stands at most once
    ensures part_twice { IsFirstFault Recipe (codes "addtask a after b after c") 1 wrong.BadLine }
    // ... and has at least one word
    ensures part_without_words { IsFirstFault Recipe (codes "addtask a after before c") 1 wrong.BadLine }
    // a task must be named
    ensures no_task { IsFirstFault Recipe (codes "addtask after b") 1 wrong.BadLine }
    // a task is a shell name
    ensures no_shell_name { IsFirstFault Recipe (codes "addtask a-b") 1 wrong.BadLine }
    // ... also in a part
    ensures no_shell_name_after { IsFirstFault Recipe (codes "addtask a after b.c") 1 wrong.BadLine }
    // for `deltask` the word is a task's
    ensures deltask_after { AreStatements Recipe (codes "deltask after")
        ((1, statement.DelTask ((codes "do_after") ∷ [])) ∷ []) }
    // blanks stand behind the word, not other white space
    ensures addtask_with_carriage_return { IsFirstFault Recipe (codes "addtask\ra") 1 wrong.BadLine }
    // tasks stand in recipes and classes
    ensures addtask_in_configuration { IsFirstFault Conf (codes "addtask a") 1 wrong.BadLine }
{}
