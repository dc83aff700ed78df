// Worked recipes: names, entries, the chosen version, facts. Each expected answer is derived from the rules by hand; the comment
// above it says why.
#![tactic(auto, unfolding(meta_model::specs::Statements::statement_of, meta_model::specs::Grammar::fit_of, meta_model::specs::Grammar::operator, meta_model::specs::Grammar::quoted))]

ghost use Rattle.std.specs.Prelude.{◌≡◌, ◌∷◌, [], codes, true, false, Some, None, Ok, Err, ◌++◌};
ghost use Rattle.meta_model.specs.declared.entry.EntryLine.TheVariants as entry;
ghost use Rattle.meta_model.specs.declared.entry.Op.TheVariants as op;
ghost use Rattle.meta_model.specs.declared.line.SyntaxFault.TheVariants as wrong;
ghost use Rattle.meta_model.specs.Refusal.{value_cycle};
ghost use Rattle.load_model.specs.LoadRefusal.{missing_required, missing_class, syntax, no_value};
ghost use Rattle.load_model.specs.Recipes.{name_of_file, belongs, is_pn, bad_name, dangling_append, load, no_value as of_value};
ghost use Rattle.load_model.specs.Facts.{without_brackets};
ghost use Rattle.load_model.specs.LibraryAndApplication.{library_and_application, sample_tasks};
ghost use Rattle.load_model.specs.LoadSamples.{load_refusal, recipe_value, refused_recipe, pn_in, recipes, versions_in, chosen_files, facts_in, value_in_project, environment_in, environment_of};

/// What the name of a recipe's file says, and which appends belong to it.
pub fn example_of_file_names()
    // the defaults
    ensures name_alone { name_of_file (codes "recipes/a.bb")
        ≡ Some (record { pn = (codes "a"); pv = (codes "1.0"); pr = (codes "r0") }) }
    // a version
    ensures version { name_of_file (codes "recipes/a_1.2.bb")
        ≡ Some (record { pn = (codes "a"); pv = (codes "1.2"); pr = (codes "r0") }) }
    // ... and a revision
    ensures revision { name_of_file (codes "a_1.2_r3.bb")
        ≡ Some (record { pn = (codes "a"); pv = (codes "1.2"); pr = (codes "r3") }) }
    // three underscores are too many
    ensures too_many { name_of_file (codes "a_1_2_3.bb") ≡ None }
    // an empty version
    ensures empty_version { name_of_file (codes "a_.bb") ≡ None }
    // an empty name
    ensures empty_name { name_of_file (codes ".bb") ≡ None }
    // ... before a version
    ensures empty_before { name_of_file (codes "_1.0.bb") ≡ None }
    // an underscore of a folder doesn't count
    ensures folder { name_of_file (codes "x_y/a.bb")
        ≡ Some (record { pn = (codes "a"); pv = (codes "1.0"); pr = (codes "r0") }) }
    // dots are part of the version
    ensures dots { name_of_file (codes "a.b_1.bb.bb")
        ≡ Some (record { pn = (codes "a.b"); pv = (codes "1.bb"); pr = (codes "r0") }) }
    // the append has the name of the recipe's file, in any folder
    ensures append { belongs (codes "x/a_1.0.bb") (codes "y/z/a_1.0.bbappend") ≡ true }
    // ... the whole name
    ensures append_of_another { belongs (codes "x/a_1.0.bb") (codes "x/a.bbappend") ≡ false }
    // `%` stands for any rest
    ensures percent { belongs (codes "x/a_1.0.bb") (codes "y/a_%.bbappend") ≡ true }
    // ... also none, the ending included
    ensures percent_at_end { belongs (codes "x/a_1.0.bb") (codes "y/a_1.0.bb%.bbappend") ≡ true }
    // ... of the name's front
    ensures percent_front { belongs (codes "x/ab_1.0.bb") (codes "y/a_%.bbappend") ≡ false }
    // `%` elsewhere is a character
    ensures percent_inside { belongs (codes "x/a_1.0.bb") (codes "y/a%1.0.bbappend") ≡ false }
    // characters of a PN
    ensures pn { is_pn (codes "gtk+-3.0") ≡ true }
    // `_` is none
    ensures pn_underscore { is_pn (codes "a_b") ≡ false }
    // `..` isn't one
    ensures pn_above { is_pn (codes "..") ≡ false }
    // nor is the empty text
    ensures pn_empty { is_pn [] ≡ false }
{}

/// What is read for a recipe, in which order.
pub fn example_of_recipes()
    // PN comes from the file's name
    ensures pn { recipe_value (((codes "recipes/a_2.bb"), (codes "A = \"${PN}-${PV}-${PR}\"")) ∷ []) []
        (codes "recipes/a_2.bb") (codes "A") ≡ Ok (Some (codes "a-2-r0")) }
    // THISDIR is the folder of FILE
    ensures thisdir { recipe_value (((codes "recipes/a.bb"), (codes "A := \"${FILE} ${THISDIR}\"")) ∷ []) []
        (codes "recipes/a.bb") (codes "A") ≡ Ok (Some (codes "recipes/a.bb recipes")) }
    // ... `.` for a file in the project folder
    ensures thisdir_of_top { recipe_value (((codes "a.bb"), (codes "A := \"${THISDIR}\"")) ∷ []) [] (codes "a.bb")
        (codes "A") ≡ Ok (Some (codes ".")) }
    // in a file that is included both stay
    ensures included { recipe_value (((codes "recipes/a.bb"), (codes "require x/b.inc"))
        ∷ ((codes "recipes/x/b.inc"), (codes "A := \"${FILE} ${THISDIR}\"")) ∷ []) [] (codes "recipes/a.bb") (codes "A")
        ≡ Ok (Some (codes "recipes/a.bb recipes")) }
    // in a class too
    ensures in_class { recipe_value (((codes "recipes/a.bb"), (codes "inherit c"))
        ∷ ((codes "classes/c.bbclass"), (codes "A := \"${FILE}\"")) ∷ []) [] (codes "recipes/a.bb") (codes "A")
        ≡ Ok (Some (codes "recipes/a.bb")) }
    // an append has its own
    ensures in_append { recipe_value (((codes "recipes/a.bb"), (codes ""))
        ∷ ((codes "m/a.bbappend"), (codes "A := \"${FILE} ${THISDIR}\"")) ∷ []) ((codes "m/a.bbappend") ∷ [])
        (codes "recipes/a.bb") (codes "A") ≡ Ok (Some (codes "m/a.bbappend m")) }
    // ... and behind it the recipe's come back
    ensures behind_append { recipe_value (((codes "recipes/a.bb"), (codes ""))
        ∷ ((codes "m/a.bbappend"), (codes "A = \"${FILE} ${THISDIR}\"")) ∷ []) ((codes "m/a.bbappend") ∷ [])
        (codes "recipes/a.bb") (codes "A") ≡ Ok (Some (codes "recipes/a.bb recipes")) }
    // ... also where the recipe sets them
    ensures set_in_recipe { recipe_value (((codes "recipes/a.bb"), (codes "FILE = \"x\"")) ∷ []) []
        (codes "recipes/a.bb") (codes "FILE") ≡ Ok (Some (codes "recipes/a.bb")) }
    // a file that an append includes is searched beside it, and has its FILE
    ensures append_includes { recipe_value (((codes "recipes/a.bb"), (codes ""))
        ∷ ((codes "m/a.bbappend"), (codes "require b.inc")) ∷ ((codes "m/b.inc"), (codes "A := \"${FILE}\""))
        ∷ ((codes "recipes/b.inc"), (codes "A = \"r\"")) ∷ []) ((codes "m/a.bbappend") ∷ []) (codes "recipes/a.bb")
        (codes "A") ≡ Ok (Some (codes "m/a.bbappend")) }
    // each append counts, in order
    ensures two_appends { recipe_value (((codes "recipes/a.bb"), (codes "A = \"1\""))
        ∷ ((codes "m/a.bbappend"), (codes "A .= \"m\"")) ∷ ((codes "n/a%.bbappend"), (codes "A .= \"n\""))
        ∷ ((codes "m/b.bbappend"), (codes "A .= \"b\"")) ∷ []) ((codes "n/a%.bbappend") ∷ (codes "m/b.bbappend")
        ∷ (codes "m/a.bbappend") ∷ []) (codes "recipes/a.bb") (codes "A") ≡ Ok (Some (codes "1nm")) }
    // an append doesn't change what a file before it included
    ensures append_after_include { recipe_value (((codes "recipes/a.bb"), (codes "F = \"b.inc\"\nrequire ${F}"))
        ∷ ((codes "recipes/b.inc"), (codes "A = \"b\"")) ∷ ((codes "recipes/c.inc"), (codes "A = \"c\""))
        ∷ ((codes "m/a.bbappend"), (codes "F = \"c.inc\"")) ∷ []) ((codes "m/a.bbappend") ∷ []) (codes "recipes/a.bb")
        (codes "A") ≡ Ok (Some (codes "b")) }
    // ... but what a value says when it is read
    ensures append_changes_value { recipe_value (((codes "recipes/a.bb"), (codes "F = \"b\"\nA = \"${F}\""))
        ∷ ((codes "m/a.bbappend"), (codes "F = \"c\"")) ∷ []) ((codes "m/a.bbappend") ∷ []) (codes "recipes/a.bb")
        (codes "A") ≡ Ok (Some (codes "c")) }
    // class `base` is read before the recipe, where it is there
    ensures base { recipe_value (((codes "recipes/a.bb"), (codes "A .= \"r\""))
        ∷ ((codes "classes/base.bbclass"), (codes "A = \"base ${PN} \"")) ∷ []) [] (codes "recipes/a.bb") (codes "A")
        ≡ Ok (Some (codes "base a r")) }
    // ... and sees the recipe's FILE and THISDIR
    ensures base_sees { recipe_value (((codes "recipes/a.bb"), (codes ""))
        ∷ ((codes "classes/base.bbclass"), (codes "include ${THISDIR}/b.inc"))
        ∷ ((codes "recipes/b.inc"), (codes "A = \"1\"")) ∷ []) [] (codes "recipes/a.bb") (codes "A")
        ≡ Ok (Some (codes "1")) }
    // ... and once
    ensures base_once { recipe_value (((codes "recipes/a.bb"), (codes "inherit base\nA .= \"r\""))
        ∷ ((codes "classes/base.bbclass"), (codes "A .= \"b\"")) ∷ []) [] (codes "recipes/a.bb") (codes "A")
        ≡ Ok (Some (codes "br")) }
    // then the classes of INHERIT, which `base` may give
    ensures inherit { recipe_value (((codes "recipes/a.bb"), (codes "A .= \"r\""))
        ∷ ((codes "classes/base.bbclass"), (codes "INHERIT = \"c d\"\nA = \"b\""))
        ∷ ((codes "classes/c.bbclass"), (codes "A .= \"c\"\nINHERIT = \"e\""))
        ∷ ((codes "classes/d.bbclass"), (codes "A .= \"d\"")) ∷ []) [] (codes "recipes/a.bb") (codes "A")
        ≡ Ok (Some (codes "bcdr")) }
    // a class of INHERIT that is missing; no file is at fault
    ensures inherit_missing { recipe_value (((codes "recipes/a.bb"), (codes ""))
        ∷ ((codes "classes/base.bbclass"), (codes "INHERIT = \"nosuch\"")) ∷ []) [] (codes "recipes/a.bb") (codes "A")
        ≡ Err (load (load_refusal [] 0 (missing_class (codes "nosuch")))) }
    // ... nor where INHERIT can't be expanded
    ensures inherit_refused { recipe_value (((codes "recipes/a.bb"), (codes ""))
        ∷ ((codes "classes/base.bbclass"), (codes "INHERIT = \"${INHERIT}\"")) ∷ []) [] (codes "recipes/a.bb")
        (codes "A") ≡ Err (load (load_refusal [] 0 (no_value (value_cycle (codes "INHERIT"))))) }
    // ... nor where BBPATH can't be while class `base` is searched
    ensures base_not_searched { refused_recipe (entry.Set (codes "BBPATH") op.Set (codes "${BBPATH}") ∷ [])
        (((codes "a.bb"), (codes "")) ∷ []) (codes "a.bb")
        ≡ Some (load (load_refusal [] 0 (no_value (value_cycle (codes "BBPATH"))))) }
    // names that hold references are moved at the end
    ensures moved { recipe_value
        (((codes "recipes/a.bb"), (codes "RDEPENDS:${PN} = \"x\"\nRDEPENDS:a = \"y\"\nRDEPENDS:${PN}:append = \" z\""))
        ∷ []) [] (codes "recipes/a.bb") (codes "RDEPENDS:a") ≡ Ok (Some (codes "x z")) }
    // ... and where that is refused, it is the recipe's file
    ensures not_moved { recipe_value (((codes "recipes/a.bb"), (codes "X = \"${X}\"\nA${X} = \"1\"")) ∷ []) []
        (codes "recipes/a.bb") (codes "A") ≡ Err (of_value (codes "recipes/a.bb") (value_cycle (codes "X"))) }
    // a PN that the recipe sets
    ensures own_pn { pn_in (((codes "recipes/a.bb"), (codes "PN = \"b\"")) ∷ []) (codes "recipes/a.bb")
        ≡ Ok (codes "b") }
    // ... and that is no PN
    ensures bad_pn { recipe_value (((codes "recipes/a.bb"), (codes "PN = \"b_c\"")) ∷ []) [] (codes "recipes/a.bb")
        (codes "A") ≡ Err (bad_name (codes "recipes/a.bb")) }
    // no PN at all
    ensures no_pn { recipe_value (((codes "recipes/a.bb"), (codes "unset PN")) ∷ []) [] (codes "recipes/a.bb")
        (codes "A") ≡ Err (bad_name (codes "recipes/a.bb")) }
    // a value of PN, PV and PR comes before that
    ensures pr_first { recipe_value (((codes "recipes/a.bb"), (codes "PN = \"b_c\"\nPR = \"${PR}\"")) ∷ []) []
        (codes "recipes/a.bb") (codes "A") ≡ Err (of_value (codes "recipes/a.bb") (value_cycle (codes "PR"))) }
{}

/// Which recipe of a PN is chosen.
pub fn example_of_choice()
    // the greatest version
    ensures greatest { versions_in (((codes "recipes/p_1.9.bb"), (codes "")) ∷ ((codes "recipes/p_1.10.bb"), (codes ""))
        ∷ []) ≡ Ok (((codes "p"), (codes "1.10"), (codes "r0")) ∷ []) }
    // ... and not the last path
    ensures path_is_last { versions_in (((codes "recipes/p_1.9.bb"), (codes ""))
        ∷ ((codes "recipes/p_1.10.bb"), (codes "")) ∷ ((codes "recipes/p_1.8.bb"), (codes "")) ∷ [])
        ≡ Ok (((codes "p"), (codes "1.10"), (codes "r0")) ∷ []) }
    // a preference
    ensures preferred { versions_in (((codes "recipes/p_1.9.bb"), (codes ""))
        ∷ ((codes "recipes/p_1.10.bb"), (codes ""))
        ∷ ((codes "conf/bitbake.conf"), (codes "PREFERRED_VERSION_p = \"1.9\"")) ∷ [])
        ≡ Ok (((codes "p"), (codes "1.9"), (codes "r0")) ∷ []) }
    // ... with `%`
    ensures preferred_front { versions_in (((codes "recipes/p_1.9.bb"), (codes ""))
        ∷ ((codes "recipes/p_1.10.bb"), (codes ""))
        ∷ ((codes "conf/bitbake.conf"), (codes "PREFERRED_VERSION_p = \"1.9%\"")) ∷ [])
        ≡ Ok (((codes "p"), (codes "1.9"), (codes "r0")) ∷ []) }
    // ... that several fit: the greatest of them
    ensures several_fit { versions_in (((codes "recipes/p_1.9.bb"), (codes ""))
        ∷ ((codes "recipes/p_1.10.bb"), (codes "")) ∷ ((codes "recipes/p_2.bb"), (codes ""))
        ∷ ((codes "conf/bitbake.conf"), (codes "PREFERRED_VERSION_p = \"1.%\"")) ∷ [])
        ≡ Ok (((codes "p"), (codes "1.10"), (codes "r0")) ∷ []) }
    // ... that none fits: all count
    ensures none_fits { versions_in (((codes "recipes/p_1.9.bb"), (codes ""))
        ∷ ((codes "recipes/p_1.10.bb"), (codes ""))
        ∷ ((codes "conf/bitbake.conf"), (codes "PREFERRED_VERSION_p = \"2%\"")) ∷ [])
        ≡ Ok (((codes "p"), (codes "1.10"), (codes "r0")) ∷ []) }
    // ... of another PN
    ensures of_another { versions_in (((codes "recipes/p_1.9.bb"), (codes ""))
        ∷ ((codes "recipes/p_1.10.bb"), (codes ""))
        ∷ ((codes "conf/bitbake.conf"), (codes "PREFERRED_VERSION_q = \"1.9\"")) ∷ [])
        ≡ Ok (((codes "p"), (codes "1.10"), (codes "r0")) ∷ []) }
    // ... under an override
    ensures preferred_by_form { versions_in (((codes "recipes/p_1.9.bb"), (codes ""))
        ∷ ((codes "recipes/p_1.10.bb"), (codes ""))
        ∷ ((codes "conf/bitbake.conf"), (codes "OVERRIDES = \"o\"\nPREFERRED_VERSION_p:o = \"1.9\"")) ∷ [])
        ≡ Ok (((codes "p"), (codes "1.9"), (codes "r0")) ∷ []) }
    // ... of a name that holds a reference
    ensures preferred_moved { versions_in (((codes "recipes/p_1.9.bb"), (codes ""))
        ∷ ((codes "recipes/p_1.10.bb"), (codes ""))
        ∷ ((codes "conf/bitbake.conf"), (codes "X = \"p\"\nPREFERRED_VERSION_${X} = \"1.9\"")) ∷ [])
        ≡ Ok (((codes "p"), (codes "1.9"), (codes "r0")) ∷ []) }
    // the preference is compared with PV, and not with the file's name
    ensures expanded_pv { versions_in (((codes "recipes/p_1.9.bb"), (codes "PV = \"2.5\""))
        ∷ ((codes "recipes/p_1.10.bb"), (codes ""))
        ∷ ((codes "conf/bitbake.conf"), (codes "PREFERRED_VERSION_p = \"1.9\"")) ∷ [])
        ≡ Ok (((codes "p"), (codes "2.5"), (codes "r0")) ∷ []) }
    // then PR, as a version
    ensures revision { versions_in (((codes "recipes/p_1_r9.bb"), (codes ""))
        ∷ ((codes "recipes/p_1_r10.bb"), (codes "")) ∷ []) ≡ Ok (((codes "p"), (codes "1"), (codes "r10")) ∷ []) }
    // then the path
    ensures path { chosen_files (((codes "conf/bitbake.conf"), (codes "BBFILES = \"?/*.bb\""))
        ∷ ((codes "a/p.bb"), (codes "")) ∷ ((codes "b/p.bb"), (codes "")) ∷ []) ≡ Ok ((codes "b/p.bb") ∷ []) }
    // each PN has one, in byte order of the PNs
    ensures all { versions_in (((codes "recipes/a.bb"), (codes "PN = \"z\"")) ∷ ((codes "recipes/b_2.bb"), (codes ""))
        ∷ ((codes "recipes/b_1.bb"), (codes "PN = \"c\"")) ∷ ((codes "recipes/b_3.bb"), (codes "PN = \"z\"")) ∷ [])
        ≡ Ok (((codes "b"), (codes "2"), (codes "r0")) ∷ ((codes "c"), (codes "1"), (codes "r0"))
        ∷ ((codes "z"), (codes "3"), (codes "r0")) ∷ []) }
    // no recipe, no facts
    ensures none { versions_in [] ≡ Ok [] }
{}

/// Why recipes have no facts, and which refusal comes first.
pub fn example_of_set_refusals()
    // a required file is missing
    ensures missing_require { versions_in (((codes "recipes/r.bb"), (codes "include no.inc\nrequire no.inc")) ∷ [])
        ≡ Err (recipes (load (load_refusal (codes "recipes/r.bb") 2 (missing_required (codes "no.inc"))))) }
    // a body that is open
    ensures open_function { versions_in (((codes "recipes/r.bb"), (codes "do_x() {\n    echo")) ∷ [])
        ≡ Err (recipes (load (load_refusal (codes "recipes/r.bb") 1 (syntax wrong.OpenFunction)))) }
    // a missing class
    ensures missing_class { versions_in (((codes "recipes/r.bb"), (codes "inherit nosuch")) ∷ [])
        ≡ Err (recipes (load (load_refusal (codes "recipes/r.bb") 1 (missing_class (codes "nosuch"))))) }
    // underscores too many
    ensures bad_name { versions_in (((codes "recipes/a_1_2_3.bb"), (codes "")) ∷ [])
        ≡ Err (recipes (bad_name (codes "recipes/a_1_2_3.bb"))) }
    // ... in any file, before the first is read
    ensures names_first { versions_in (((codes "recipes/a.bb"), (codes "inherit nosuch"))
        ∷ ((codes "recipes/b_.bb"), (codes "")) ∷ []) ≡ Err (recipes (bad_name (codes "recipes/b_.bb"))) }
    // an append that belongs to no recipe
    ensures dangling { versions_in (((codes "recipes/a.bb"), (codes "")) ∷ ((codes "recipes/b.bbappend"), (codes ""))
        ∷ []) ≡ Err (recipes (dangling_append (codes "recipes/b.bbappend"))) }
    // ... comes before what is in the files, and behind their names
    ensures dangling_first { versions_in (((codes "recipes/a.bb"), (codes "B"))
        ∷ ((codes "recipes/b.bbappend"), (codes "")) ∷ [])
        ≡ Err (recipes (dangling_append (codes "recipes/b.bbappend"))) }
    // an append of two recipes
    ensures of_two { versions_in (((codes "recipes/a_1.bb"), (codes "")) ∷ ((codes "recipes/a_2.bb"), (codes ""))
        ∷ ((codes "recipes/a_%.bbappend"), (codes "PV .= \"x\"")) ∷ [])
        ≡ Ok (((codes "a"), (codes "2x"), (codes "r0")) ∷ []) }
    // the recipes are read in byte order of their paths
    ensures in_order { versions_in (((codes "recipes/b.bb"), (codes "B"))
        ∷ ((codes "recipes/a.bb"), (codes "inherit nosuch")) ∷ [])
        ≡ Err (recipes (load (load_refusal (codes "recipes/a.bb") 1 (missing_class (codes "nosuch"))))) }
    // the configuration comes first; no file is at fault
    ensures configuration_first { versions_in (((codes "recipes/a_.bb"), (codes ""))
        ∷ ((codes "conf/bitbake.conf"), (codes "X = \"${X}\"\nA${X} = \"1\"")) ∷ [])
        ≡ Err (recipes (of_value [] (value_cycle (codes "X")))) }
    // ... a preference too
    ensures preference_refused { versions_in (((codes "recipes/a.bb"), (codes ""))
        ∷ ((codes "conf/bitbake.conf"), (codes "PREFERRED_PROVIDER_x = \"${PREFERRED_PROVIDER_x}\"")) ∷ [])
        ≡ Err (recipes (of_value [] (value_cycle (codes "PREFERRED_PROVIDER_x")))) }
    // a value of a chosen recipe
    ensures chosen_refused { versions_in (((codes "recipes/a.bb"), (codes "DEPENDS = \"${DEPENDS}\"")) ∷ [])
        ≡ Err (recipes (of_value (codes "recipes/a.bb") (value_cycle (codes "DEPENDS")))) }
    // ... of one that isn't chosen is not asked for
    ensures not_chosen { versions_in (((codes "recipes/a_1.bb"), (codes "DEPENDS = \"${DEPENDS}\""))
        ∷ ((codes "recipes/a_2.bb"), (codes "")) ∷ []) ≡ Ok (((codes "a"), (codes "2"), (codes "r0")) ∷ []) }
    // ... but PV of every one is
    ensures every_pv { versions_in (((codes "recipes/a_1.bb"), (codes "PR = \"${PR}\""))
        ∷ ((codes "recipes/a_2.bb"), (codes "")) ∷ [])
        ≡ Err (recipes (of_value (codes "recipes/a_1.bb") (value_cycle (codes "PR")))) }
    // other values aren't asked for
    ensures not_asked { versions_in (((codes "recipes/a.bb"), (codes "SUMMARY = \"${SUMMARY}\"")) ∷ [])
        ≡ Ok (((codes "a"), (codes "1.0"), (codes "r0")) ∷ []) }
{}

/// What recipes and the configuration say.
pub fn example_of_facts()
    // by default a recipe has the package PN
    ensures default_package { facts_in (((codes "recipes/a.bb"), (codes "")) ∷ [])
        ≡ Ok (record {
          recipes = (record {
            file = (codes "recipes/a.bb");
            pn = (codes "a");
            pv = (codes "1.0");
            pr = (codes "r0");
            provides = [];
            depends = [];
            packages = (record { name = (codes "a"); rdepends = []; rprovides = [] } ∷ []);
            tasks = [];
          } ∷ []);
          preferred = [];
          assumed = [];
        }) }
    // the words of PROVIDES and DEPENDS, with references and removes; without packages those of RDEPENDS and RPROVIDES
    ensures words { facts_in
        ((
          (codes "recipes/a.bb"),
          (codes
              "PROVIDES = \"x ${PN}-y\"\nDEPENDS = \"b c b\"\nDEPENDS:remove = \"c\"\nPACKAGES = \"\"\n"
              ++ codes "RDEPENDS = \"r\"\nRPROVIDES = \"q\"\nRDEPENDS:a = \"s\""),
        ) ∷ [])
        ≡ Ok (record {
          recipes = (record {
            file = (codes "recipes/a.bb");
            pn = (codes "a");
            pv = (codes "1.0");
            pr = (codes "r0");
            provides = ((codes "x") ∷ (codes "a-y") ∷ []);
            depends = ((codes "b") ∷ (codes "b") ∷ []);
            packages = (record { name = []; rdepends = ((codes "r") ∷ []); rprovides = ((codes "q") ∷ []) } ∷ []);
            tasks = [];
          } ∷ []);
          preferred = [];
          assumed = [];
        }) }
    // RDEPENDS of the recipe, then those of the package; text in parentheses goes
    ensures run_time { facts_in
        ((
          (codes "recipes/a.bb"),
          (codes
              "PACKAGES = \"a a-dev\"\nRDEPENDS = \"x (>= 1)\"\nRDEPENDS:a-dev = \"y(= 2 (3))z\"\n"
              ++ codes "RPROVIDES:${PN} = \"v w\"\nRPROVIDES = \"u\""),
        ) ∷ [])
        ≡ Ok (record {
          recipes = (record {
            file = (codes "recipes/a.bb");
            pn = (codes "a");
            pv = (codes "1.0");
            pr = (codes "r0");
            provides = [];
            depends = [];
            packages = (record {
              name = (codes "a");
              rdepends = ((codes "x") ∷ []);
              rprovides = ((codes "u") ∷ (codes "v") ∷ (codes "w") ∷ []);
            }
                ∷ record {
                  name = (codes "a-dev");
                  rdepends = ((codes "x") ∷ (codes "yz") ∷ []);
                  rprovides = ((codes "u") ∷ []);
                } ∷ []);
            tasks = [];
          } ∷ []);
          preferred = [];
          assumed = [];
        }) }
    // tasks in byte order, with what they come after
    ensures tasks { facts_in (((codes "recipes/a.bb"), (codes "addtask b after a\naddtask a\nPACKAGES = \"\"")) ∷ [])
        ≡ Ok (record {
          recipes = (record {
            file = (codes "recipes/a.bb");
            pn = (codes "a");
            pv = (codes "1.0");
            pr = (codes "r0");
            provides = [];
            depends = [];
            packages = (record { name = []; rdepends = []; rprovides = [] } ∷ []);
            tasks = (record {
              task = (codes "do_a");
              after = [];
              depends = [];
              deptask = [];
              rdeptask = [];
              recrdeptask = [];
            } ∷ record {
              task = (codes "do_b");
              after = ((codes "do_a") ∷ []);
              depends = [];
              deptask = [];
              rdeptask = [];
              recrdeptask = [];
            } ∷ []);
          } ∷ []);
          preferred = [];
          assumed = [];
        }) }
    // the words of flags are expanded and cut at their first colon; one without a task is a name alone
    ensures flags { facts_in
        ((
          (codes "recipes/a.bb"),
          (codes
              "addtask b\ndo_b[depends] = \"${X}:do_c x:y:z w v:\"\ndo_b[deptask] = \"do_c ${X}\"\n"
              ++ codes "do_b[rdeptask] = \"r\"\ndo_b[recrdeptask] ??= \"q\"\nX = \"k\"\nPACKAGES = \"\""),
        ) ∷ [])
        ≡ Ok (record {
          recipes = (record {
            file = (codes "recipes/a.bb");
            pn = (codes "a");
            pv = (codes "1.0");
            pr = (codes "r0");
            provides = [];
            depends = [];
            packages = (record { name = []; rdepends = []; rprovides = [] } ∷ []);
            tasks = (record {
              task = (codes "do_b");
              after = [];
              depends = (((codes "k"), (codes "do_c")) ∷ ((codes "x"), (codes "y:z")) ∷ ((codes "w"), (codes ""))
                  ∷ ((codes "v:"), (codes "")) ∷ []);
              deptask = ((codes "do_c") ∷ (codes "k") ∷ []);
              rdeptask = ((codes "r") ∷ []);
              recrdeptask = ((codes "q") ∷ []);
            } ∷ []);
          } ∷ []);
          preferred = [];
          assumed = [];
        }) }
    // preferences in byte order, and what counts as provided
    ensures configuration { facts_in
        ((
          (codes "conf/bitbake.conf"),
          (codes
              "PREFERRED_PROVIDER_y = \"b\"\nPREFERRED_PROVIDER_x = \"a\"\nPREFERRED_PROVIDER_z[f] = \"1\"\n"
              ++ codes "ASSUME_PROVIDED = \"k l\""),
        ) ∷ [])
        ≡ Ok (record {
          recipes = [];
          preferred = (((codes "x"), (codes "a")) ∷ ((codes "y"), (codes "b")) ∷ []);
          assumed = ((codes "k") ∷ (codes "l") ∷ []);
        }) }
    // ... also through an override
    ensures preferred_by_form { facts_in
        (((codes "conf/bitbake.conf"), (codes "OVERRIDES = \"o\"\nPREFERRED_PROVIDER_x:o = \"a\"")) ∷ [])
        ≡ Ok (record {
          recipes = [];
          preferred = (((codes "x"), (codes "a")) ∷ ((codes "x:o"), (codes "a")) ∷ []);
          assumed = [];
        }) }
    // a recipe's preference is no preference
    ensures not_of_recipes { facts_in
        (((codes "recipes/a.bb"), (codes "PREFERRED_PROVIDER_x = \"a\"\nASSUME_PROVIDED = \"k\"\nPACKAGES = \"\""))
        ∷ []) ≡ Ok (record {
          recipes = (record {
            file = (codes "recipes/a.bb");
            pn = (codes "a");
            pv = (codes "1.0");
            pr = (codes "r0");
            provides = [];
            depends = [];
            packages = (record { name = []; rdepends = []; rprovides = [] } ∷ []);
            tasks = [];
          } ∷ []);
          preferred = [];
          assumed = [];
        }) }
    // brackets that nothing closes stay, and those inside are dropped
    ensures unclosed { without_brackets (codes "a (b (c) d) e (f (g) h") ≡ (codes "a  e (f  h") }
    // ... and such that nothing opens
    ensures unopened { without_brackets (codes "a) b (c) d)") ≡ (codes "a) b  d)") }
{}

/// Two layers with a library, its append, and an application that needs it.
pub fn example_of_library_and_application()
    // all that recipes and configuration say
    ensures facts { facts_in library_and_application
        ≡ Ok (record {
          recipes = (record {
            file = (codes "meta/recipes-core/app/app_1.0.bb");
            pn = (codes "app");
            pv = (codes "1.0");
            pr = (codes "r0");
            provides = [];
            depends = ((codes "greet") ∷ []);
            packages = (record { name = (codes "app"); rdepends = []; rprovides = [] } ∷ []);
            tasks = sample_tasks;
          }
              ∷ record {
                file = (codes "meta/recipes-core/greet/greet_1.2.bb");
                pn = (codes "greet");
                pv = (codes "1.2");
                pr = (codes "r0");
                provides = [];
                depends = [];
                packages = (record { name = (codes "greet"); rdepends = []; rprovides = [] } ∷ []);
                tasks = sample_tasks;
              }
              ∷ []);
          preferred = [];
          assumed = [];
        }) }
    // the append counts in the library
    ensures text { value_in_project library_and_application 1 (codes "TEXT") ≡ Ok (Some (codes "hello world")) }
    // a name of the configuration that holds a reference is moved in each recipe
    ensures moved { value_in_project library_and_application 0 (codes "FILES:app") ≡ Ok (Some (codes "/usr")) }
    // ... and the recipe's name is an override
    ensures overrides { value_in_project library_and_application 0 (codes "OVERRIDES")
        ≡ Ok (Some (codes "linux:pn-app")) }
{}

/// All that a recipe has.
pub fn example_of_environment()
    // appends count behind the base value; the rest is built in or comes from the file's name
    ensures appends { environment_in
        (((codes "recipes/v.bb"), (codes "A = \"1\"\nA:append = \"2\"\nA:append = \"3\"\nA += \"4\"\nA .= \"5\"")) ∷ [])
        0 ≡ Ok (((codes "A"), (codes "1 4523")) ∷ ((codes "BBFILES"), (codes "recipes/*.bb recipes/*.bbappend"))
        ∷ ((codes "BB_DEFAULT_TASK"), (codes "build")) ∷ ((codes "BB_NUMBER_THREADS"), (codes "4"))
        ∷ ((codes "FILE"), (codes "recipes/v.bb")) ∷ ((codes "PACKAGES"), (codes "v")) ∷ ((codes "PN"), (codes "v"))
        ∷ ((codes "PR"), (codes "r0")) ∷ ((codes "PV"), (codes "1.0")) ∷ ((codes "THISDIR"), (codes "recipes"))
        ∷ ((codes "TOPDIR"), (codes ".")) ∷ []) }
    // a name may have a value through a form alone; one with flags alone has none
    ensures forms { environment_of
        (codes "OVERRIDES = \"o\"\nA:o = \"1\"\nB:p = \"2\"\nC[f] = \"3\"\nD:append:o = \"4\"") ≡ Ok ((
          (codes "A"),
          (codes "1"),
        ) ∷ ((codes "A:o"), (codes "1")) ∷ ((codes "B:p"), (codes "2")) ∷ ((codes "D"), (codes "4"))
        ∷ ((codes "OVERRIDES"), (codes "o")) ∷ []) }
{}
