// Worked answers of the modes. Each expected answer is derived from the rules by hand; the comment above it says why.
#![tactic(auto, unfolding(meta_model::specs::Statements::statement_of, meta_model::specs::Grammar::fit_of, meta_model::specs::Grammar::operator, meta_model::specs::Grammar::quoted))]

ghost use Rattle.std.specs.Prelude.{◌≡◌, ◌∷◌, [], codes, bytes_eq, Some, None, Ok, Err, if◌then◌else◌, ◌++◌};
ghost use Rattle.meta_model.specs.declared.event.Status.TheVariants as status;
ghost use Rattle.meta_model.specs.GraphRefusal.{no_such_task, nothing_provides, several_provide};
ghost use Rattle.load_model.specs.LoadRefusal.{file_bytes};
ghost use Rattle.load_model.specs.Recipes.{too_many};
ghost use Rattle.load_model.specs.LibraryAndApplication.{library_and_application, text};
ghost use Rattle.run_model.specs.Texts.{parsed_text, fault_text};
ghost use Rattle.answer_model.specs.declared.asked.ReadMode.TheVariants as mode;
ghost use Rattle.answer_model.specs.Said.{cycle_status, lack_status, set_status, threads_status, too_many_status};
ghost use Rattle.answer_model.specs.Modes.{mode_text};
ghost use Rattle.read_modes.specs.ModeSamples.{mode_over, named, printed};

/// A library and an application in two layers.
pub fn example_of_two_layers()
    // both recipes, in byte order of their PNs
    ensures versions { printed library_and_application mode.Versions [] ≡ codes "app 1.0-r0\ngreet 1.2-r0\n" }
    // the append is no recipe file
    ensures parsed { mode_over library_and_application mode.Parse [] ≡ Ok (parsed_text 2) }
{}

/// All that the application has.
pub fn example_of_application_values()
    // names in byte order, in which `_` comes behind capital letters. Names of which only flags are set (`do_build`) aren't there, nor is
    // FILES, whose only form `app` is no active override. BBFILES and SSTATETASKS begin with a blank, since `+=` puts one behind the
    // empty value; BBLAYERS keeps the blanks of its joined lines. WORKDIR and DEPSDIR have no value, so their references stay
    ensures values { printed library_and_application mode.Environment (codes "app" ∷ []) ≡ text (
        codes "# app"
        ∷ codes "B=\"${WORKDIR}/build\""
        ∷ (codes "BBFILES=\" meta/recipes-*/*/*.bb meta/recipes-*/*/*.bbappend "
        ++ codes "meta-site/recipes-*/*/*.bb meta-site/recipes-*/*/*.bbappend\"")
        ∷ codes "BBLAYERS=\"   meta   meta-site \""
        ∷ codes "BBPATH=\".:meta:meta-site\""
        ∷ codes "BB_DEFAULT_TASK=\"build\""
        ∷ codes "BB_NUMBER_THREADS=\"4\""
        ∷ codes "D=\"${WORKDIR}/image\""
        ∷ codes "DEPENDS=\"greet\""
        ∷ codes "FILE=\"meta/recipes-core/app/app_1.0.bb\""
        ∷ codes "FILES:app=\"/usr\""
        ∷ codes "OVERRIDES=\"linux:pn-app\""
        ∷ codes "PACKAGES=\"app\""
        ∷ codes "PN=\"app\""
        ∷ codes "PR=\"r0\""
        ∷ codes "PV=\"1.0\""
        ∷ codes "SSTATETASKS=\" do_populate_sysroot\""
        ∷ codes "THISDIR=\"meta/recipes-core/app\""
        ∷ codes "TOPDIR=\".\""
        ∷ codes "do_compile=\"    cat \\\"${DEPSDIR}/greet/do_populate_sysroot/usr/lib/libgreet.txt\\\" > out.txt\\n\""
        ∷ (codes "do_install=\"    mkdir -p \\\"${WORKDIR}/image/usr/share\\\"\\n    "
        ++ codes "cp \\\"${WORKDIR}/build/out.txt\\\" \\\"${WORKDIR}/image/usr/share/out.txt\\\"\\n\"")
        ∷ (codes "do_populate_sysroot=\"    mkdir -p \\\"${WORKDIR}/sysroot\\\"\\n    "
        ++ codes "cp -RP \\\"${WORKDIR}/image/usr\\\" \\\"${WORKDIR}/sysroot/usr\\\"\\n\"")
        ∷ []) }
{}

/// The values of recipes.
pub fn example_of_recipe_values()
    // appends count behind the base value `1 45`; the rest is built in or comes from the file's name
    ensures appends { printed
        ((codes "recipes/v.bb", codes "A = \"1\"\nA:append = \"2\"\nA:append = \"3\"\nA += \"4\"\nA .= \"5\"") ∷ [])
        mode.Environment (codes "v" ∷ []) ≡ text (
        codes "# v"
        ∷ codes "A=\"1 4523\""
        ∷ codes "BBFILES=\"recipes/*.bb recipes/*.bbappend\""
        ∷ codes "BB_DEFAULT_TASK=\"build\""
        ∷ codes "BB_NUMBER_THREADS=\"4\""
        ∷ codes "FILE=\"recipes/v.bb\""
        ∷ codes "PACKAGES=\"v\""
        ∷ codes "PN=\"v\""
        ∷ codes "PR=\"r0\""
        ∷ codes "PV=\"1.0\""
        ∷ codes "THISDIR=\"recipes\""
        ∷ codes "TOPDIR=\".\""
        ∷ []) }
    // the targets in their order, one of them twice
    ensures two_targets { printed ((codes "recipes/a_1.bb", codes "") ∷ (codes "recipes/b_2.bb", codes "") ∷ [])
        mode.Environment (codes "b" ∷ codes "a" ∷ codes "b" ∷ []) ≡ text (
        codes "# b"
        ∷ codes "BBFILES=\"recipes/*.bb recipes/*.bbappend\""
        ∷ codes "BB_DEFAULT_TASK=\"build\""
        ∷ codes "BB_NUMBER_THREADS=\"4\""
        ∷ codes "FILE=\"recipes/b_2.bb\""
        ∷ codes "PACKAGES=\"b\""
        ∷ codes "PN=\"b\""
        ∷ codes "PR=\"r0\""
        ∷ codes "PV=\"2\""
        ∷ codes "THISDIR=\"recipes\""
        ∷ codes "TOPDIR=\".\""
        ∷ codes "# a"
        ∷ codes "BBFILES=\"recipes/*.bb recipes/*.bbappend\""
        ∷ codes "BB_DEFAULT_TASK=\"build\""
        ∷ codes "BB_NUMBER_THREADS=\"4\""
        ∷ codes "FILE=\"recipes/a_1.bb\""
        ∷ codes "PACKAGES=\"a\""
        ∷ codes "PN=\"a\""
        ∷ codes "PR=\"r0\""
        ∷ codes "PV=\"1\""
        ∷ codes "THISDIR=\"recipes\""
        ∷ codes "TOPDIR=\".\""
        ∷ codes "# b"
        ∷ codes "BBFILES=\"recipes/*.bb recipes/*.bbappend\""
        ∷ codes "BB_DEFAULT_TASK=\"build\""
        ∷ codes "BB_NUMBER_THREADS=\"4\""
        ∷ codes "FILE=\"recipes/b_2.bb\""
        ∷ codes "PACKAGES=\"b\""
        ∷ codes "PN=\"b\""
        ∷ codes "PR=\"r0\""
        ∷ codes "PV=\"2\""
        ∷ codes "THISDIR=\"recipes\""
        ∷ codes "TOPDIR=\".\""
        ∷ []) }
    // the PN after all files counts, and not the name of the file
    ensures moved_pn { printed ((codes "recipes/a.bb", codes "PN = \"z\"") ∷ []) mode.Environment (codes "z" ∷ [])
        ≡ text (
        codes "# z"
        ∷ codes "BBFILES=\"recipes/*.bb recipes/*.bbappend\""
        ∷ codes "BB_DEFAULT_TASK=\"build\""
        ∷ codes "BB_NUMBER_THREADS=\"4\""
        ∷ codes "FILE=\"recipes/a.bb\""
        ∷ codes "PACKAGES=\"z\""
        ∷ codes "PN=\"z\""
        ∷ codes "PR=\"r0\""
        ∷ codes "PV=\"1.0\""
        ∷ codes "THISDIR=\"recipes\""
        ∷ codes "TOPDIR=\".\""
        ∷ []) }
    // two names that need one another: the one that is met again
    ensures cycle { mode_over ((codes "recipes/v.bb", codes "X = \"${Y}\"\nY = \"${X}\"") ∷ []) mode.Environment
        (codes "v" ∷ []) ≡ Err (status.Metadata (codes "recipes/v.bb") 0 (codes "ValueCycle") (codes "X" ∷ [])) }
    // of several refusals that of the first name
    ensures first_name { mode_over ((codes "recipes/v.bb", codes "Z = \"${Z}\"\nX = \"${X}\"") ∷ []) mode.Environment
        (codes "v" ∷ []) ≡ Err (status.Metadata (codes "recipes/v.bb") 0 (codes "ValueCycle") (codes "X" ∷ [])) }
    // ... of the first target
    ensures first_target { mode_over ((codes "recipes/a.bb", codes "X = \"${X}\"")
        ∷ (codes "recipes/b.bb", codes "Z = \"${Z}\"") ∷ []) mode.Environment (codes "b" ∷ codes "a" ∷ [])
        ≡ Err (status.Metadata (codes "recipes/b.bb") 0 (codes "ValueCycle") (codes "Z" ∷ [])) }
    // a value of a recipe that is no target isn't asked for
    ensures not_asked { printed ((codes "recipes/a.bb", codes "X = \"${X}\"") ∷ (codes "recipes/b.bb", codes "") ∷ [])
        mode.Environment (codes "b" ∷ []) ≡ text (
        codes "# b"
        ∷ codes "BBFILES=\"recipes/*.bb recipes/*.bbappend\""
        ∷ codes "BB_DEFAULT_TASK=\"build\""
        ∷ codes "BB_NUMBER_THREADS=\"4\""
        ∷ codes "FILE=\"recipes/b.bb\""
        ∷ codes "PACKAGES=\"b\""
        ∷ codes "PN=\"b\""
        ∷ codes "PR=\"r0\""
        ∷ codes "PV=\"1.0\""
        ∷ codes "THISDIR=\"recipes\""
        ∷ codes "TOPDIR=\".\""
        ∷ []) }
{}

/// Which recipes targets name.
pub fn example_of_targets()
    // the name stands before the first colon; the task isn't looked at, and none of these is there
    ensures with_task { named ((codes "recipes/a.bb", codes "") ∷ []) (codes "a:do_build" ∷ codes "a:b:c" ∷ codes "a:"
        ∷ []) ≡ Ok (codes "a" ∷ codes "a" ∷ codes "a" ∷ []) }
    // each word of PROVIDES
    ensures provided { named ((codes "recipes/a.bb", codes "PROVIDES = \"u virtual/x\"") ∷ [])
        (codes "virtual/x" ∷ codes "u:do_y" ∷ []) ≡ Ok (codes "a" ∷ codes "a" ∷ []) }
    // a recipe of that very name comes before one that provides it
    ensures own_name { named ((codes "recipes/a.bb", codes "PROVIDES = \"b\"") ∷ (codes "recipes/b.bb", codes "") ∷ [])
        (codes "b" ∷ []) ≡ Ok (codes "b" ∷ []) }
    // ... unless the configuration prefers another one
    ensures preferred { named ((codes "recipes/a.bb", codes "PROVIDES = \"b\"") ∷ (codes "recipes/b.bb", codes "")
        ∷ (codes "conf/bitbake.conf", codes "PREFERRED_PROVIDER_b = \"a\"") ∷ []) (codes "b" ∷ [])
        ≡ Ok (codes "a" ∷ []) }
    // a preference that names no candidate has no effect
    ensures no_candidate { named ((codes "recipes/a.bb", codes "PROVIDES = \"x\"") ∷ (codes "recipes/b.bb", codes "")
        ∷ (codes "conf/bitbake.conf", codes "PREFERRED_PROVIDER_x = \"b\"") ∷ []) (codes "x" ∷ [])
        ≡ Ok (codes "a" ∷ []) }
    // `mc` is a name like another one
    ensures no_colon { named ((codes "recipes/mc.bb", codes "") ∷ []) (codes "mc" ∷ []) ≡ Ok (codes "mc" ∷ []) }
{}

/// Targets without a recipe. All are looked up before any value.
pub fn example_of_lacking_targets()
    // the file's name isn't the PN
    ensures nothing { mode_over ((codes "recipes/a.bb", codes "PN = \"z\"") ∷ []) mode.Environment (codes "a" ∷ [])
        ≡ Err (status.Metadata [] 0 (codes "NothingProvides") (codes "a" ∷ [])) }
    // what stands behind the colon is no part of the name
    ensures with_task { mode_over ((codes "recipes/a.bb", codes "") ∷ []) mode.Environment (codes "x:do_build" ∷ [])
        ≡ Err (status.Metadata [] 0 (codes "NothingProvides") (codes "x" ∷ [])) }
    // with the PNs in byte order
    ensures several { mode_over ((codes "recipes/b.bb", codes "PROVIDES = \"x\"")
        ∷ (codes "recipes/a.bb", codes "PROVIDES = \"x\"") ∷ (codes "recipes/c.bb", codes "") ∷ []) mode.Environment
        (codes "x" ∷ [])
        ≡ Err (status.Metadata [] 0 (codes "SeveralProvide") (codes "x" ∷ codes "a" ∷ codes "b" ∷ [])) }
    // a word of another configuration has no provider, whatever its name; the whole word is told
    ensures other_configuration { mode_over ((codes "recipes/mc.bb", codes "") ∷ []) mode.Environment
        (codes "mc:x" ∷ []) ≡ Err (status.Metadata [] 0 (codes "NothingProvides") (codes "mc:x" ∷ [])) }
    // a value is worked out behind all targets only
    ensures before_values { mode_over ((codes "recipes/a.bb", codes "X = \"${X}\"") ∷ []) mode.Environment
        (codes "a" ∷ codes "nosuch" ∷ []) ≡ Err (status.Metadata [] 0 (codes "NothingProvides") (codes "nosuch" ∷ [])) }
    // of several such targets the first one is told
    ensures first_target { mode_over ((codes "recipes/a.bb", codes "") ∷ []) mode.Environment
        (codes "a" ∷ codes "nosuch" ∷ codes "mc:x" ∷ [])
        ≡ Err (status.Metadata [] 0 (codes "NothingProvides") (codes "nosuch" ∷ [])) }
{}

/// The values of the configuration.
pub fn example_of_config_values()
    // a backslash and a quote are written with a backslash; an absent reference stays, and so does PN, which the configuration lacks
    ensures written { printed ((codes "conf/bitbake.conf", codes "A = 'q\"b\\c'\nX = \"pre ${NONE}\"") ∷ [])
        mode.Environment [] ≡ text (
        codes "A=\"q\\\"b\\\\c\""
        ∷ codes "BBFILES=\"recipes/*.bb recipes/*.bbappend\""
        ∷ codes "BB_DEFAULT_TASK=\"build\""
        ∷ codes "BB_NUMBER_THREADS=\"4\""
        ∷ codes "PACKAGES=\"${PN}\""
        ∷ codes "TOPDIR=\".\""
        ∷ codes "X=\"pre ${NONE}\""
        ∷ []) }
    // names are moved before
    ensures moved { printed ((codes "conf/bitbake.conf", codes "X = \"x\"\nA${X} = \"1\"") ∷ []) mode.Environment []
        ≡ text (
        codes "Ax=\"1\""
        ∷ codes "BBFILES=\"recipes/*.bb recipes/*.bbappend\""
        ∷ codes "BB_DEFAULT_TASK=\"build\""
        ∷ codes "BB_NUMBER_THREADS=\"4\""
        ∷ codes "PACKAGES=\"${PN}\""
        ∷ codes "TOPDIR=\".\""
        ∷ codes "X=\"x\""
        ∷ []) }
    // no recipe is read: one that is at fault counts for nothing
    ensures no_recipe { printed ((codes "recipes/r.bb", codes "inherit nosuch") ∷ []) mode.Environment [] ≡ text (
        codes "BBFILES=\"recipes/*.bb recipes/*.bbappend\""
        ∷ codes "BB_DEFAULT_TASK=\"build\""
        ∷ codes "BB_NUMBER_THREADS=\"4\""
        ∷ codes "PACKAGES=\"${PN}\""
        ∷ codes "TOPDIR=\".\""
        ∷ []) }
    // a value that is refused has no place
    ensures cycle { mode_over ((codes "conf/bitbake.conf", codes "X = \"${X}\"") ∷ []) mode.Environment []
        ≡ Err (status.Metadata [] 0 (codes "ValueCycle") (codes "X" ∷ [])) }
    // ... nor has a name
    ensures cycle_of_name { mode_over ((codes "conf/bitbake.conf", codes "X = \"${X}\"\nA${X} = \"1\"") ∷ [])
        mode.Environment [] ≡ Err (status.Metadata [] 0 (codes "ValueCycle") (codes "X" ∷ [])) }
    // overrides that don't settle: the passes give `a`, `b`, `a`, `b`, `a` behind `k`, and the last two lists are printed
    ensures unsettled { mode_over
        ((codes "conf/bitbake.conf", codes "OVERRIDES = \"k:${X}\"\nX = \"a\"\nX:a = \"b\"\nX:b = \"a\"") ∷ [])
        mode.Environment [] ≡ Err (status.Metadata [] 0 (codes "Unstable") (codes "k:b" ∷ codes "k:a" ∷ [])) }
{}

/// Chosen versions, and numbers of recipe files.
pub fn example_of_versions()
    // 10 is greater than 9
    ensures greatest { printed ((codes "recipes/p_1.9.bb", codes "") ∷ (codes "recipes/p_1.10.bb", codes "") ∷ [])
        mode.Versions [] ≡ codes "p 1.10-r0\n" }
    // ... unless the configuration prefers another one
    ensures preferred { printed ((codes "recipes/p_1.9.bb", codes "") ∷ (codes "recipes/p_1.10.bb", codes "")
        ∷ (codes "conf/bitbake.conf", codes "PREFERRED_VERSION_p = \"1.9%\"") ∷ []) mode.Versions []
        ≡ codes "p 1.9-r0\n" }
    // both files were read
    ensures parsed { mode_over ((codes "recipes/p_1.9.bb", codes "") ∷ (codes "recipes/p_1.10.bb", codes "") ∷ [])
        mode.Parse [] ≡ Ok (parsed_text 2) }
    // the revision of the file's name
    ensures revision { printed ((codes "recipes/p_2_r3.bb", codes "") ∷ []) mode.Versions [] ≡ codes "p 2-r3\n" }
    // targets aren't looked at
    ensures targets { printed ((codes "recipes/p_1.9.bb", codes "") ∷ (codes "recipes/p_1.10.bb", codes "") ∷ [])
        mode.Versions (codes "nosuch" ∷ []) ≡ codes "p 1.10-r0\n" }
    // ... nor by the other mode
    ensures parsed_targets { mode_over ((codes "recipes/p_1.9.bb", codes "") ∷ (codes "recipes/p_1.10.bb", codes "")
        ∷ []) mode.Parse (codes "nosuch" ∷ []) ≡ Ok (parsed_text 2) }
    // no recipe, no line
    ensures none { printed [] mode.Versions [] ≡ [] }
    // ... and none was read
    ensures none_parsed { mode_over [] mode.Parse [] ≡ Ok (parsed_text 0) }
    // a value that no fact needs isn't asked for
    ensures not_asked { printed ((codes "recipes/a.bb", codes "X = \"${X}\"") ∷ []) mode.Versions []
        ≡ codes "a 1.0-r0\n" }
{}

/// Refusals of layers and of the configuration, the same in each mode.
pub fn example_of_configuration_refusals()
    // a word of BBLAYERS that names no layer
    ensures no_such_layer { mode_over ((codes "conf/bblayers.conf", codes "BBLAYERS = \"n\"")
        ∷ (codes "conf/bitbake.conf", codes "") ∷ []) mode.Parse []
        ≡ Err (status.Metadata [] 0 (codes "NoSuchLayer") (codes "n" ∷ [])) }
    // ... before any target
    ensures layers_first { mode_over ((codes "conf/bblayers.conf", codes "BBLAYERS = \"n\"")
        ∷ (codes "conf/bitbake.conf", codes "") ∷ []) mode.Environment (codes "nosuch" ∷ [])
        ≡ Err (status.Metadata [] 0 (codes "NoSuchLayer") (codes "n" ∷ [])) }
    // a word of BBFILES with a bracket
    ensures bad_pattern { mode_over ((codes "conf/bitbake.conf", codes "BBFILES = \"r/[ab].bb\"") ∷ []) mode.Versions []
        ≡ Err (status.Metadata [] 0 (codes "BadPattern") (codes "r/[ab].bb" ∷ [])) }
    // BBFILES can't be expanded
    ensures no_list { mode_over ((codes "conf/bitbake.conf", codes "BBFILES = \"${BBFILES}\"") ∷ []) mode.Parse []
        ≡ Err (status.Metadata [] 0 (codes "ValueCycle") (codes "BBFILES" ∷ [])) }
    // with layers `conf/bitbake.conf` has to be there
    ensures missing { mode_over ((codes "conf/bblayers.conf", codes "") ∷ []) mode.Environment []
        ≡ Err (status.Metadata [] 0 (codes "MissingRequired") (codes "conf/bitbake.conf" ∷ [])) }
    // a line that is no statement
    ensures bad_line { mode_over ((codes "conf/bitbake.conf", codes "A = \"1\"\nB") ∷ []) mode.Environment []
        ≡ Err (status.Metadata (codes "conf/bitbake.conf") 2 (codes "BadLine") []) }
    // a value of the configuration that recipes are read with; no file is at fault
    ensures wishes { mode_over ((codes "conf/bitbake.conf", codes "ASSUME_PROVIDED = \"${ASSUME_PROVIDED}\"") ∷ [])
        mode.Parse [] ≡ Err (status.Metadata [] 0 (codes "ValueCycle") (codes "ASSUME_PROVIDED" ∷ [])) }
{}

/// Refusals of recipes, with their places.
pub fn example_of_recipe_refusals()
    // the missing file of line 1 is passed over, that of line 2 is required
    ensures missing_required { mode_over ((codes "recipes/r.bb", codes "include no.inc\nrequire no.inc") ∷ [])
        mode.Parse [] ≡ Err (status.Metadata (codes "recipes/r.bb") 2 (codes "MissingRequired") (codes "no.inc" ∷ [])) }
    // a body that is open has the line of its head
    ensures open_function { mode_over ((codes "recipes/r.bb", codes "do_x() {\n    echo") ∷ []) mode.Versions []
        ≡ Err (status.Metadata (codes "recipes/r.bb") 1 (codes "OpenFunction") []) }
    // a missing class
    ensures missing_class { mode_over ((codes "recipes/r.bb", codes "inherit nosuch") ∷ []) mode.Environment
        (codes "r" ∷ []) ≡ Err (status.Metadata (codes "recipes/r.bb") 1 (codes "MissingClass") (codes "nosuch" ∷ [])) }
    // a file that includes itself: the statement that would read the file within 32 others
    ensures include_depth { mode_over ((codes "recipes/r.bb", codes "include r.bb") ∷ []) mode.Parse []
        ≡ Err (status.Metadata (codes "recipes/r.bb") 1 (codes "IncludeDepth") []) }
    // a name with underscores too many; the file is no part of the detail
    ensures bad_name { mode_over ((codes "recipes/a_1_2_3.bb", codes "") ∷ []) mode.Parse []
        ≡ Err (status.Metadata (codes "recipes/a_1_2_3.bb") 0 (codes "BadName") []) }
    // an append that belongs to no recipe
    ensures dangling_append { mode_over ((codes "recipes/b.bbappend", codes "") ∷ []) mode.Parse []
        ≡ Err (status.Metadata (codes "recipes/b.bbappend") 0 (codes "DanglingAppend") []) }
    // a value of a chosen recipe that the facts need
    ensures fact { mode_over ((codes "recipes/a.bb", codes "DEPENDS = \"${DEPENDS}\"") ∷ []) mode.Versions []
        ≡ Err (status.Metadata (codes "recipes/a.bb") 0 (codes "ValueCycle") (codes "DEPENDS" ∷ [])) }
    // a file with too many bytes
    ensures file_bytes { mode_text mode.Parse
        (λ path kind. if bytes_eq path (codes "recipes/a.bb") then Some (Err (0, file_bytes)) else None)
        (codes "recipes/a.bb" ∷ []) [] ≡ Err (status.Limit (codes "FileBytes")) }
    // more recipe files than are read
    ensures too_many { set_status too_many ≡ status.Limit (codes "Recipes") }
{}

/// The lines that are printed for these refusals, and what is printed for `-p`.
pub fn example_of_lines()
    // with a file and a line
    ensures line { fault_text (status.Metadata (codes "recipes/r.bb") 2 (codes "MissingRequired") (codes "no.inc" ∷ []))
        ≡ codes "fault 3 recipes/r.bb:2: MissingRequired no.inc\n" }
    // without texts
    ensures no_detail { fault_text (status.Metadata (codes "recipes/r.bb") 1 (codes "OpenFunction") [])
        ≡ codes "fault 3 recipes/r.bb:1: OpenFunction\n" }
    // without a line
    ensures no_line { fault_text (status.Metadata (codes "recipes/v.bb") 0 (codes "ValueCycle") (codes "X" ∷ []))
        ≡ codes "fault 3 recipes/v.bb: ValueCycle X\n" }
    // without a file
    ensures no_file { fault_text (status.Metadata [] 0 (codes "NoSuchLayer") (codes "n" ∷ []))
        ≡ codes "fault 3 NoSuchLayer n\n" }
    // two texts
    ensures two_texts { fault_text (status.Metadata [] 0 (codes "Unstable") (codes "k:b" ∷ codes "k:a" ∷ []))
        ≡ codes "fault 3 Unstable k:b k:a\n" }
    // an empty text has its blank
    ensures empty_text { fault_text (status.Metadata [] 0 (codes "TooLong") (codes "" ∷ []))
        ≡ codes "fault 3 TooLong \n" }
    // a name without a provider, and one with several
    ensures nothing_provides { fault_text (lack_status (nothing_provides (codes "nosuch")))
        ≡ codes "fault 3 NothingProvides nosuch\n" }
    ensures several_provide { fault_text (lack_status (several_provide (codes "x") (codes "a" ∷ codes "b" ∷ [])))
        ≡ codes "fault 3 SeveralProvide x a b\n" }
    // tasks: one that isn't there, some that need each other, too many of them
    ensures no_such_task { fault_text (lack_status (no_such_task (codes "x") (codes "do_y")))
        ≡ codes "fault 3 NoSuchTask x:do_y\n" }
    ensures cycle { fault_text
        (cycle_status (record { mc = []; pn = codes "x"; task = codes "do_a" }
        ∷ record { mc = []; pn = codes "x"; task = codes "do_b" } ∷ [])) ≡ codes "fault 3 TaskCycle x:do_a x:do_b\n" }
    ensures tasks { fault_text too_many_status ≡ codes "fault 10 Tasks\n" }
    // no number of threads
    ensures threads { fault_text (threads_status (codes "17")) ≡ codes "fault 3 BadThreads 17\n" }
    // a limit
    ensures limit { fault_text (status.Limit (codes "FileBytes")) ≡ codes "fault 10 FileBytes\n" }
    // how many recipe files were read
    ensures parsed { parsed_text 2 ≡ codes "parsed 2 recipes\n" }
{}
