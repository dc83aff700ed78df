// Worked files: what reading them gives, and why it is refused. Each expected answer is derived from the rules by hand; the
// comment above it says why.
#![tactic(auto, unfolding(meta_model::specs::Statements::statement_of, meta_model::specs::Grammar::fit_of, meta_model::specs::Grammar::operator, meta_model::specs::Grammar::quoted))]

ghost use Rattle.std.specs.Prelude.{◌≡◌, ◌∷◌, [], codes, Some, None, Ok, Err};
ghost use Rattle.meta_model.specs.declared.entry.EntryLine.TheVariants as entry;
ghost use Rattle.meta_model.specs.declared.entry.Op.TheVariants as op;
ghost use Rattle.meta_model.specs.declared.line.Kind.TheVariants.{Conf, Recipe};
ghost use Rattle.meta_model.specs.declared.line.SyntaxFault.TheVariants as wrong;
ghost use Rattle.meta_model.specs.declared.statement.Statement.TheVariants as statement;
ghost use Rattle.meta_model.specs.Refusal.{value_cycle};
ghost use Rattle.load_model.specs.LoadRefusal.{missing_required, missing_class, include_depth, syntax, no_value, file_bytes, nowhere};
ghost use Rattle.load_model.specs.Loading.{read_within, origin_of};
ghost use Rattle.load_model.specs.Layers.{starting_with};
ghost use Rattle.load_model.specs.LoadSamples.{sample, value_behind, classes_behind, load_refusal};

/// `include` and `require` put the entries of files in their place.
pub fn example_of_includes()
    // the entries stand where the statement does: `=` behind it wins
    ensures in_place { value_behind (((codes "a.conf"), (codes "A = \"1\"\ninclude b.inc\nA .= \"3\""))
        ∷ ((codes "b.inc"), (codes "A .= \"2\"")) ∷ []) Conf (codes "a.conf") (codes "A") ≡ Ok (Some (codes "123")) }
    // a missing file is passed over
    ensures missing_include { value_behind (((codes "a.conf"), (codes "include b.inc\nA = \"1\"")) ∷ []) Conf
        (codes "a.conf") (codes "A") ≡ Ok (Some (codes "1")) }
    // ... and refused where it is required, at the line of the statement
    ensures missing_require { value_behind (((codes "recipes/r.bb"), (codes "include no.inc\nrequire no.inc")) ∷ [])
        Recipe (codes "recipes/r.bb") (codes "A")
        ≡ Err (load_refusal (codes "recipes/r.bb") 2 (missing_required (codes "no.inc"))) }
    // the file that is read first has to be there; no place is at fault
    ensures no_file { value_behind [] Conf (codes "a.conf") (codes "A")
        ≡ Err (load_refusal [] 0 (missing_required (codes "a.conf"))) }
    // the words of the expanded text are read in order
    ensures words { value_behind (((codes "a.conf"), (codes "F = \"b.inc  c.inc\"\nrequire ${F}"))
        ∷ ((codes "b.inc"), (codes "A = \"b\"")) ∷ ((codes "c.inc"), (codes "A .= \"c\"")) ∷ []) Conf (codes "a.conf")
        (codes "A") ≡ Ok (Some (codes "bc")) }
    // the text is expanded over the entries so far, once
    ensures text_expanded_once { value_behind (((codes "a.conf"), (codes "F = \"b.inc\"\nrequire ${F} ${F}"))
        ∷ ((codes "b.inc"), (codes "F = \"c.inc\"\nA .= \"b\"")) ∷ ((codes "c.inc"), (codes "A .= \"c\"")) ∷ []) Conf
        (codes "a.conf") (codes "A") ≡ Ok (Some (codes "bb")) }
    // without a word nothing is read
    ensures no_word { value_behind (((codes "a.conf"), (codes "F = \"\"\nrequire ${F}\nA = \"1\"")) ∷ []) Conf
        (codes "a.conf") (codes "A") ≡ Ok (Some (codes "1")) }
    // a name that is absent stays as it is written, and names no file
    ensures absent_name { value_behind (((codes "a.conf"), (codes "A = \"1\"\nrequire ${F}")) ∷ []) Conf
        (codes "a.conf") (codes "A") ≡ Err (load_refusal (codes "a.conf") 2 (missing_required (codes "${F}"))) }
    // `:=` sees what an included file gave
    ensures immediate { value_behind (((codes "a.conf"), (codes "B = \"0\"\nrequire b.inc\nA := \"${B}\"\nB = \"2\""))
        ∷ ((codes "b.inc"), (codes "B = \"1\"")) ∷ []) Conf (codes "a.conf") (codes "A") ≡ Ok (Some (codes "1")) }
    // ... and is refused with its own place
    ensures immediate_refused { value_behind (((codes "a.conf"), (codes "require b.inc"))
        ∷ ((codes "b.inc"), (codes "X = \"1\"\nA = \"${A}\"\nB := \"${A}\"")) ∷ []) Conf (codes "a.conf") (codes "A")
        ≡ Err (load_refusal (codes "b.inc") 3 (no_value (value_cycle (codes "A")))) }
    // a text that can't be expanded
    ensures text_refused { value_behind (((codes "a.conf"), (codes "A = \"${A}\"\ninclude ${A}")) ∷ []) Conf
        (codes "a.conf") (codes "A") ≡ Err (load_refusal (codes "a.conf") 2 (no_value (value_cycle (codes "A")))) }
    // a fault of an included file has its path and line
    ensures fault_below { value_behind (((codes "a.conf"), (codes "require b.inc")) ∷ ((codes "b.inc"), (codes "\nB"))
        ∷ []) Conf (codes "a.conf") (codes "A") ≡ Err (load_refusal (codes "b.inc") 2 (syntax wrong.BadLine)) }
    // ... and comes before all its statements
    ensures fault_first { value_behind (((codes "a.conf"), (codes "require no.inc\nB")) ∷ []) Conf (codes "a.conf")
        (codes "A") ≡ Err (load_refusal (codes "a.conf") 2 (syntax wrong.BadLine)) }
    // the file ends in a body; the fault has its head's line
    ensures open_function { value_behind (((codes "recipes/r.bb"), (codes "do_x() {\n    echo")) ∷ []) Recipe
        (codes "recipes/r.bb") (codes "A") ≡ Err (load_refusal (codes "recipes/r.bb") 1 (syntax wrong.OpenFunction)) }
    // `unset` takes away what an included file gave
    ensures unset { value_behind (((codes "a.conf"), (codes "require b.inc\nunset A"))
        ∷ ((codes "b.inc"), (codes "A = \"1\"")) ∷ []) Conf (codes "a.conf") (codes "A") ≡ Ok None }
    // a file may be included twice
    ensures twice { value_behind (((codes "a.conf"), (codes "include b.inc\ninclude b.inc"))
        ∷ ((codes "b.inc"), (codes "A .= \"x\"")) ∷ []) Conf (codes "a.conf") (codes "A") ≡ Ok (Some (codes "xx")) }
    // FILE of the file that includes stays in the one that is included
    ensures file_stays { value_behind (((codes "a.conf"), (codes "FILE = \"a.conf\"\nrequire b.inc"))
        ∷ ((codes "b.inc"), (codes "A := \"${FILE}\"")) ∷ []) Conf (codes "a.conf") (codes "A")
        ≡ Ok (Some (codes "a.conf")) }
{}

/// Where files are searched, and what a path names.
pub fn example_of_searching()
    // the folder of the file that holds the statement comes first
    ensures own_folder { value_behind (((codes "x/a.conf"), (codes "require b.inc"))
        ∷ ((codes "b.inc"), (codes "A = \"top\"")) ∷ ((codes "x/b.inc"), (codes "A = \"own\"")) ∷ []) Conf
        (codes "x/a.conf") (codes "A") ≡ Ok (Some (codes "own")) }
    // ... then the project folder
    ensures project_folder { value_behind (((codes "x/a.conf"), (codes "BBPATH = \"m\"\nrequire b.inc"))
        ∷ ((codes "b.inc"), (codes "A = \"top\"")) ∷ ((codes "m/b.inc"), (codes "A = \"m\"")) ∷ []) Conf
        (codes "x/a.conf") (codes "A") ≡ Ok (Some (codes "top")) }
    // ... then the folders of BBPATH, in order
    ensures bbpath { value_behind (((codes "x/a.conf"), (codes "BBPATH = \"m:n\"\nrequire b.inc"))
        ∷ ((codes "n/b.inc"), (codes "A = \"n\"")) ∷ ((codes "m/b.inc"), (codes "A = \"m\"")) ∷ []) Conf
        (codes "x/a.conf") (codes "A") ≡ Ok (Some (codes "m")) }
    // an empty and an absolute piece of BBPATH name no folder
    ensures bbpath_pieces { value_behind (((codes "x/a.conf"), (codes "BBPATH = \":/m::n:\"\nrequire b.inc"))
        ∷ ((codes "n/b.inc"), (codes "A = \"n\"")) ∷ []) Conf (codes "x/a.conf") (codes "A") ≡ Ok (Some (codes "n")) }
    // BBPATH is expanded over the entries so far
    ensures bbpath_expanded { value_behind
        (((codes "x/a.conf"), (codes "M = \"m\"\nBBPATH = \"${M}\"\nrequire b.inc\nM = \"n\""))
        ∷ ((codes "n/b.inc"), (codes "A = \"n\"")) ∷ ((codes "m/b.inc"), (codes "A = \"m\"")) ∷ []) Conf
        (codes "x/a.conf") (codes "A") ≡ Ok (Some (codes "m")) }
    // ... anew for each word: the first file changes it
    ensures bbpath_anew { value_behind (((codes "x/a.conf"), (codes "BBPATH = \"m\"\nrequire b.inc c.inc"))
        ∷ ((codes "m/b.inc"), (codes "BBPATH = \"n\"")) ∷ ((codes "n/c.inc"), (codes "A = \"n\""))
        ∷ ((codes "m/c.inc"), (codes "A = \"m\"")) ∷ []) Conf (codes "x/a.conf") (codes "A") ≡ Ok (Some (codes "n")) }
    // an absolute path names nothing
    ensures absolute { value_behind (((codes "a.conf"), (codes "A = \"1\"\nrequire /b.inc"))
        ∷ ((codes "b.inc"), (codes "A = \"2\"")) ∷ []) Conf (codes "a.conf") (codes "A")
        ≡ Err (load_refusal (codes "a.conf") 2 (missing_required (codes "/b.inc"))) }
    // ... and BBPATH isn't asked for it, though it can't be expanded
    ensures absolute_not_searched { value_behind
        (((codes "a.conf"), (codes "BBPATH = \"${BBPATH}\"\ninclude /b.inc\nA = \"1\"")) ∷ []) Conf (codes "a.conf")
        (codes "A") ≡ Ok (Some (codes "1")) }
    // ... but for any other word, also where the file stands in the first folder
    ensures cyclic_bbpath { value_behind (((codes "a.conf"), (codes "BBPATH = \"${BBPATH}\"\ninclude b.inc"))
        ∷ ((codes "b.inc"), (codes "A = \"1\"")) ∷ []) Conf (codes "a.conf") (codes "A")
        ≡ Err (load_refusal (codes "a.conf") 2 (no_value (value_cycle (codes "BBPATH")))) }
    // `..` takes the part before, `.` nothing
    ensures dots { value_behind (((codes "x/y/a.conf"), (codes "require ./.././b.inc"))
        ∷ ((codes "x/b.inc"), (codes "A = \"1\"")) ∷ []) Conf (codes "x/y/a.conf") (codes "A") ≡ Ok (Some (codes "1")) }
    // a path that leaves the project names nothing; from the project folder and below it, it is another one
    ensures leaves { value_behind (((codes "x/a.conf"), (codes "require ../../b.inc"))
        ∷ ((codes "b.inc"), (codes "A = \"1\"")) ∷ []) Conf (codes "x/a.conf") (codes "A")
        ≡ Err (load_refusal (codes "x/a.conf") 1 (missing_required (codes "../../b.inc"))) }
    // ... and counts in the folders in which it doesn't
    ensures leaves_in_one_folder { value_behind (((codes "a.conf"), (codes "BBPATH = \"x/y\"\nrequire ../b.inc"))
        ∷ ((codes "x/b.inc"), (codes "A = \"1\"")) ∷ []) Conf (codes "a.conf") (codes "A") ≡ Ok (Some (codes "1")) }
    // an empty part names nothing
    ensures empty_part { value_behind (((codes "a.conf"), (codes "require x//b.inc"))
        ∷ ((codes "x/b.inc"), (codes "A = \"1\"")) ∷ []) Conf (codes "a.conf") (codes "A")
        ≡ Err (load_refusal (codes "a.conf") 1 (missing_required (codes "x//b.inc"))) }
    // nor does a `/` at the end
    ensures slash_at_end { value_behind (((codes "a.conf"), (codes "require x/b.inc/"))
        ∷ ((codes "x/b.inc"), (codes "A = \"1\"")) ∷ []) Conf (codes "a.conf") (codes "A")
        ≡ Err (load_refusal (codes "a.conf") 1 (missing_required (codes "x/b.inc/"))) }
{}

/// A file that includes itself is refused where more than 32 files would be nested.
pub fn example_of_nesting()
    // the statement that would read the 33rd file; the first one is nested too
    ensures itself { value_behind (((codes "a.conf"), (codes "include a.conf")) ∷ []) Conf (codes "a.conf") (codes "A")
        ≡ Err (load_refusal (codes "a.conf") 1 include_depth) }
    // ... in the file that holds it
    ensures in_turn { value_behind (((codes "a.conf"), (codes "A = \"1\"\ninclude b.inc"))
        ∷ ((codes "b.inc"), (codes "include a.conf")) ∷ []) Conf (codes "a.conf") (codes "A")
        ≡ Err (load_refusal (codes "b.inc") 1 include_depth) }
    // a missing file is passed over before that
    ensures missing_first { value_behind (((codes "a.conf"), (codes "include ${N}.conf\nN = \"a\"\ninclude b.inc"))
        ∷ ((codes "b.inc"), (codes "include no.inc\nrequire c.inc")) ∷ ((codes "c.inc"), (codes "A = \"1\"")) ∷ []) Conf
        (codes "a.conf") (codes "A") ≡ Ok (Some (codes "1")) }
    // so many files may be nested: the 4th of 4
    ensures within { read_within 4
        (sample (((codes "b"), (codes "include c")) ∷ ((codes "c"), (codes "include d"))
        ∷ ((codes "d"), (codes "A = \"1\"")) ∷ [])) nowhere (origin_of Conf (codes "a"))
        (Ok ((1, statement.Include (codes "b")) ∷ [])) (starting_with [])
        ≡ Ok (starting_with ((entry.Set (codes "A") op.Set (codes "1")) ∷ [])) }
    // ... and the 4th of 3 not
    ensures beyond { read_within 3
        (sample (((codes "b"), (codes "include c")) ∷ ((codes "c"), (codes "include d"))
        ∷ ((codes "d"), (codes "A = \"1\"")) ∷ [])) nowhere (origin_of Conf (codes "a"))
        (Ok ((1, statement.Include (codes "b")) ∷ [])) (starting_with [])
        ≡ Err (load_refusal (codes "c") 1 include_depth) }
    // a file that would be too deep isn't looked into
    ensures too_deep_and_faulty { read_within 1 (sample (((codes "b"), (codes "B")) ∷ [])) nowhere
        (origin_of Conf (codes "a")) (Ok ((1, statement.Include (codes "b")) ∷ [])) (starting_with [])
        ≡ Err (load_refusal (codes "a") 1 include_depth) }
    // ... and a missing one is missing
    ensures too_deep_and_missing { read_within 1 (sample []) nowhere (origin_of Conf (codes "a"))
        (Ok ((1, statement.Require (codes "b")) ∷ [])) (starting_with [])
        ≡ Err (load_refusal (codes "a") 1 (missing_required (codes "b"))) }
    // what is loaded before the refusal doesn't matter: the first refusal in the text counts
    ensures first_refusal { value_behind (((codes "a.conf"), (codes "require no.inc\ninclude a.conf")) ∷ []) Conf
        (codes "a.conf") (codes "A") ≡ Err (load_refusal (codes "a.conf") 1 (missing_required (codes "no.inc"))) }
    // a file with too many bytes has no line
    ensures too_long { read_within 2 (λ path kind. Some (Err (0, file_bytes))) nowhere (origin_of Conf (codes "a"))
        (Ok ((1, statement.Include (codes "b")) ∷ [])) (starting_with [])
        ≡ Err (load_refusal (codes "b") 0 file_bytes) }
{}

/// `inherit` puts each class in its place once.
pub fn example_of_classes()
    // the class's entries stand where the statement does
    ensures in_place { value_behind (((codes "r.bb"), (codes "A = \"1\"\ninherit c\nA .= \"3\""))
        ∷ ((codes "classes/c.bbclass"), (codes "A .= \"2\"")) ∷ []) Recipe (codes "r.bb") (codes "A")
        ≡ Ok (Some (codes "123")) }
    // each class is read once
    ensures once { value_behind (((codes "r.bb"), (codes "inherit c\ninherit c c"))
        ∷ ((codes "classes/c.bbclass"), (codes "A .= \"x\"")) ∷ []) Recipe (codes "r.bb") (codes "A")
        ≡ Ok (Some (codes "x")) }
    // a class that inherits itself has begun already
    ensures itself { value_behind (((codes "r.bb"), (codes "inherit c"))
        ∷ ((codes "classes/c.bbclass"), (codes "inherit c\nA .= \"x\"")) ∷ []) Recipe (codes "r.bb") (codes "A")
        ≡ Ok (Some (codes "x")) }
    // ... and so have two that inherit one another
    ensures one_another { value_behind (((codes "r.bb"), (codes "inherit c"))
        ∷ ((codes "classes/c.bbclass"), (codes "inherit d\nA .= \"c\""))
        ∷ ((codes "classes/d.bbclass"), (codes "inherit c\nA .= \"d\"")) ∷ []) Recipe (codes "r.bb") (codes "A")
        ≡ Ok (Some (codes "dc")) }
    // two classes that inherit a third one
    ensures third { value_behind (((codes "r.bb"), (codes "inherit c d"))
        ∷ ((codes "classes/c.bbclass"), (codes "inherit e\nA .= \"c\""))
        ∷ ((codes "classes/d.bbclass"), (codes "inherit e\nA .= \"d\""))
        ∷ ((codes "classes/e.bbclass"), (codes "A .= \"e\"")) ∷ []) Recipe (codes "r.bb") (codes "A")
        ≡ Ok (Some (codes "ecd")) }
    // a missing class
    ensures missing { value_behind (((codes "recipes/r.bb"), (codes "inherit nosuch")) ∷ []) Recipe
        (codes "recipes/r.bb") (codes "A")
        ≡ Err (load_refusal (codes "recipes/r.bb") 1 (missing_class (codes "nosuch"))) }
    // ... in a class
    ensures missing_in_class { value_behind (((codes "r.bb"), (codes "\ninherit c"))
        ∷ ((codes "classes/c.bbclass"), (codes "inherit nosuch")) ∷ []) Recipe (codes "r.bb") (codes "A")
        ≡ Err (load_refusal (codes "classes/c.bbclass") 1 (missing_class (codes "nosuch"))) }
    // the folder of the recipe isn't searched
    ensures not_beside { value_behind (((codes "recipes/r.bb"), (codes "inherit c"))
        ∷ ((codes "recipes/classes/c.bbclass"), (codes "A = \"x\"")) ∷ []) Recipe (codes "recipes/r.bb") (codes "A")
        ≡ Err (load_refusal (codes "recipes/r.bb") 1 (missing_class (codes "c"))) }
    // ... the folders of BBPATH are
    ensures bbpath { value_behind (((codes "r.bb"), (codes "BBPATH = \"m:n\"\ninherit c"))
        ∷ ((codes "n/classes/c.bbclass"), (codes "A = \"n\"")) ∷ []) Recipe (codes "r.bb") (codes "A")
        ≡ Ok (Some (codes "n")) }
    // ... behind the project folder
    ensures project_first { value_behind (((codes "r.bb"), (codes "BBPATH = \"m\"\ninherit c"))
        ∷ ((codes "classes/c.bbclass"), (codes "A = \"top\"")) ∷ ((codes "m/classes/c.bbclass"), (codes "A = \"m\""))
        ∷ []) Recipe (codes "r.bb") (codes "A") ≡ Ok (Some (codes "top")) }
    // a class that was read isn't searched any more
    ensures not_searched_again { value_behind
        (((codes "r.bb"), (codes "inherit c\nBBPATH = \"${BBPATH}\"\ninherit c\nB = \"1\""))
        ∷ ((codes "classes/c.bbclass"), (codes "A = \"x\"")) ∷ []) Recipe (codes "r.bb") (codes "B")
        ≡ Ok (Some (codes "1")) }
    // the text is expanded over the entries so far
    ensures expanded { value_behind (((codes "r.bb"), (codes "C = \"c\"\ninherit ${C} d\nC = \"e\""))
        ∷ ((codes "classes/c.bbclass"), (codes "A .= \"c\"")) ∷ ((codes "classes/d.bbclass"), (codes "A .= \"d\""))
        ∷ []) Recipe (codes "r.bb") (codes "A") ≡ Ok (Some (codes "cd")) }
    // without a word nothing is read
    ensures no_word { value_behind (((codes "r.bb"), (codes "C = \"\"\nA = \"1\"\ninherit ${C}")) ∷ []) Recipe
        (codes "r.bb") (codes "A") ≡ Ok (Some (codes "1")) }
    // EXPORT_FUNCTIONS calls the function of the class
    ensures export_functions { value_behind (((codes "r.bb"), (codes "inherit c"))
        ∷ ((codes "classes/c.bbclass"), (codes "EXPORT_FUNCTIONS do_a")) ∷ []) Recipe (codes "r.bb") (codes "do_a")
        ≡ Ok (Some (codes "    c_do_a\n")) }
    // ... of the last class that exports one
    ensures two_classes { value_behind (((codes "r.bb"), (codes "inherit c d"))
        ∷ ((codes "classes/c.bbclass"), (codes "EXPORT_FUNCTIONS do_a"))
        ∷ ((codes "classes/d.bbclass"), (codes "EXPORT_FUNCTIONS do_a")) ∷ []) Recipe (codes "r.bb") (codes "do_a")
        ≡ Ok (Some (codes "    d_do_a\n")) }
    // ... and of the class in which the class is inherited, where it exports one behind it
    ensures inherited_class { value_behind (((codes "r.bb"), (codes "inherit c"))
        ∷ ((codes "classes/c.bbclass"), (codes "inherit d\nEXPORT_FUNCTIONS do_a"))
        ∷ ((codes "classes/d.bbclass"), (codes "EXPORT_FUNCTIONS do_a")) ∷ []) Recipe (codes "r.bb") (codes "do_a")
        ≡ Ok (Some (codes "    c_do_a\n")) }
    // an included file belongs to the class that includes it
    ensures included_in_class { value_behind (((codes "r.bb"), (codes "inherit c"))
        ∷ ((codes "classes/c.bbclass"), (codes "include b.inc")) ∷ ((codes "b.inc"), (codes "EXPORT_FUNCTIONS do_a"))
        ∷ []) Recipe (codes "r.bb") (codes "do_a") ≡ Ok (Some (codes "    c_do_a\n")) }
    // ... and is searched beside the class
    ensures beside_the_class { value_behind (((codes "r.bb"), (codes "inherit c"))
        ∷ ((codes "classes/c.bbclass"), (codes "require b.inc")) ∷ ((codes "classes/b.inc"), (codes "A = \"1\"")) ∷ [])
        Recipe (codes "r.bb") (codes "A") ≡ Ok (Some (codes "1")) }
    // ... beside the file that includes it, where that was included itself
    ensures beside_the_included { value_behind (((codes "r.bb"), (codes "inherit c"))
        ∷ ((codes "classes/c.bbclass"), (codes "require ../x/b.inc")) ∷ ((codes "x/b.inc"), (codes "require d.inc"))
        ∷ ((codes "x/d.inc"), (codes "A = \"x\"")) ∷ ((codes "classes/d.inc"), (codes "A = \"c\""))
        ∷ ((codes "d.inc"), (codes "A = \"top\"")) ∷ []) Recipe (codes "r.bb") (codes "A") ≡ Ok (Some (codes "x")) }
    // the kind of an included file is the recipe's: EXPORT_FUNCTIONS is no statement there
    ensures included_in_recipe { value_behind (((codes "r.bb"), (codes "require b.inc"))
        ∷ ((codes "b.inc"), (codes "EXPORT_FUNCTIONS do_a")) ∷ []) Recipe (codes "r.bb") (codes "do_a")
        ≡ Err (load_refusal (codes "b.inc") 1 (syntax wrong.BadLine)) }
    // ... nor is `inherit` in a file that a configuration includes
    ensures inherit_in_conf { value_behind (((codes "a.conf"), (codes "require b.inc"))
        ∷ ((codes "b.inc"), (codes "\ninherit c")) ∷ []) Conf (codes "a.conf") (codes "A")
        ≡ Err (load_refusal (codes "b.inc") 2 (syntax wrong.BadLine)) }
    // `inherit` in a file that a recipe includes
    ensures inherit_in_included { value_behind (((codes "r.bb"), (codes "require b.inc"))
        ∷ ((codes "b.inc"), (codes "inherit c")) ∷ ((codes "classes/c.bbclass"), (codes "A = \"1\"")) ∷ []) Recipe
        (codes "r.bb") (codes "A") ≡ Ok (Some (codes "1")) }
    // a class in a folder below
    ensures class_below { value_behind (((codes "r.bb"), (codes "inherit x/c"))
        ∷ ((codes "classes/x/c.bbclass"), (codes "EXPORT_FUNCTIONS do_a")) ∷ []) Recipe (codes "r.bb") (codes "do_a")
        ≡ Ok (Some (codes "    c_do_a\n")) }
    // an absolute name names no class
    ensures absolute_class { value_behind (((codes "r.bb"), (codes "inherit /c"))
        ∷ ((codes "classes/c.bbclass"), (codes "A = \"1\"")) ∷ []) Recipe (codes "r.bb") (codes "A")
        ≡ Err (load_refusal (codes "r.bb") 1 (missing_class (codes "/c"))) }
    // ... and BBPATH isn't asked for it
    ensures absolute_class_not_searched { value_behind (((codes "r.bb"), (codes "BBPATH = \"${BBPATH}\"\ninherit /c"))
        ∷ []) Recipe (codes "r.bb") (codes "A") ≡ Err (load_refusal (codes "r.bb") 2 (missing_class (codes "/c"))) }
    // the names of the classes, the last first
    ensures names { classes_behind (((codes "r.bb"), (codes "inherit c d"))
        ∷ ((codes "classes/c.bbclass"), (codes "inherit d e")) ∷ ((codes "classes/d.bbclass"), (codes ""))
        ∷ ((codes "classes/e.bbclass"), (codes "")) ∷ []) Recipe (codes "r.bb")
        ≡ Ok ((codes "e") ∷ (codes "d") ∷ (codes "c") ∷ []) }
{}
