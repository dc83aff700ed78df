// Worked paths, configurations and lists of files. Each expected answer is derived from the rules by hand; the comment above
// it says why.
#![tactic(auto, unfolding(meta_model::specs::Statements::statement_of, meta_model::specs::Grammar::fit_of, meta_model::specs::Grammar::operator, meta_model::specs::Grammar::quoted))]

ghost use Rattle.std.specs.Prelude.{◌≡◌, ◌∷◌, [], ◌++◌, codes, true, false, Some, None, Ok, Err};
ghost use Rattle.meta_model.specs.declared.line.SyntaxFault.TheVariants as wrong;
ghost use Rattle.meta_model.specs.Refusal.{value_cycle};
ghost use Rattle.load_model.specs.Paths.{path_named, folder_of, file_name};
ghost use Rattle.load_model.specs.Patterns.{names_path};
ghost use Rattle.load_model.specs.LoadRefusal.{missing_required, syntax, no_value};
ghost use Rattle.load_model.specs.Layers.{no_such_layer, bad_pattern, load, no_list};
ghost use Rattle.load_model.specs.LoadSamples.{load_refusal, config_value, flag_in_config, recipes_in, appends_in};

/// What a path names below the project folder.
pub fn example_of_paths()
    // `.` stays where it is
    ensures here { path_named (codes "./a/./b") ≡ Some (codes "a/b") }
    // `..` takes the part before
    ensures above { path_named (codes "a/../b/c/..") ≡ Some (codes "b") }
    // the project folder itself is the empty path
    ensures project { path_named (codes "a/..") ≡ Some [] }
    // a path that leaves the project folder names nothing, also where it comes back
    ensures leaves { path_named (codes "../a") ≡ None }
    // ... in the middle too
    ensures leaves_later { path_named (codes "a/../../b/c") ≡ None }
    // nor does an absolute path
    ensures absolute { path_named (codes "/a") ≡ None }
    // nor the empty one
    ensures empty { path_named [] ≡ None }
    // nor one with an empty part
    ensures empty_part { path_named (codes "a//b") ≡ None }
    // ... at its end
    ensures empty_end { path_named (codes "a/") ≡ None }
    // three dots are a name
    ensures three_dots { path_named (codes ".../a") ≡ Some (codes ".../a") }
    // the folder of a file
    ensures folder { folder_of (codes "a/b/c.bb") ≡ (codes "a/b") }
    // ... of one in the project folder
    ensures folder_of_top { folder_of (codes "c.bb") ≡ (codes ".") }
    // the name of a file
    ensures file_name { file_name (codes "a/b/c.bb") ≡ (codes "c.bb") }
{}

/// Which paths a word of BBFILES names.
pub fn example_of_patterns()
    // any run without `/`
    ensures star { names_path (codes "a/*.bb") (codes "a/x.bb") ≡ true }
    // ... also the empty one
    ensures star_empty { names_path (codes "a/*.bb") (codes "a/.bb") ≡ true }
    // ... but no `/`
    ensures star_and_slash { names_path (codes "a/*.bb") (codes "a/b/x.bb") ≡ false }
    // two runs
    ensures two_stars { names_path (codes "*-x/*.bb") (codes "a-b-x/c.bb") ≡ true }
    // a run at the end of the pattern
    ensures star_at_end { names_path (codes "a/x*") (codes "a/xyz.bb") ≡ true }
    // ... and an empty one
    ensures star_at_end_empty { names_path (codes "a/x*") (codes "a/x") ≡ true }
    // the pattern names the whole path
    ensures whole { names_path (codes "a/*") (codes "a/x/y") ≡ false }
    // ... from its front
    ensures front { names_path (codes "*.bb") (codes "a/x.bb") ≡ false }
    // one character
    ensures question { names_path (codes "a/?.bb") (codes "a/x.bb") ≡ true }
    // ... not none
    ensures question_none { names_path (codes "a/?.bb") (codes "a/.bb") ≡ false }
    // ... not two
    ensures question_two { names_path (codes "a/?.bb") (codes "a/xy.bb") ≡ false }
    // ... and no `/`
    ensures question_slash { names_path (codes "a?x.bb") (codes "a/x.bb") ≡ false }
    // a character of two bytes is one
    ensures two_bytes { names_path (codes "?.bb") (195 ∷ 169 ∷ codes ".bb") ≡ true }
    // `.` stands for itself
    ensures dot { names_path (codes "a.bb") (codes "axbb") ≡ false }
    // the word loses `.` and `..` first
    ensures dots { names_path (codes "./b/../a/*.bb") (codes "a/x.bb") ≡ true }
    // a word that leaves the project names nothing
    ensures leaves { names_path (codes "../a/*.bb") (codes "a/x.bb") ≡ false }
    // an absolute word names nothing
    ensures absolute { names_path (codes "/a/*.bb") (codes "a/x.bb") ≡ false }
    // `..` takes a part with a `*` too
    ensures dots_and_star { names_path (codes "*/../a.bb") (codes "a.bb") ≡ true }
{}

/// Layers, and the files of the configuration.
pub fn example_of_configuration()
    // built in: the project folder
    ensures top { config_value [] (codes "TOPDIR") ≡ Ok (Some (codes ".")) }
    // ... a weak default
    ensures threads { config_value [] (codes "BB_NUMBER_THREADS") ≡ Ok (Some (codes "4")) }
    // ... which gives way to any value
    ensures threads_given { config_value (((codes "conf/bitbake.conf"), (codes "BB_NUMBER_THREADS ?= \"2\"")) ∷ [])
        (codes "BB_NUMBER_THREADS") ≡ Ok (Some (codes "2")) }
    // without layers recipes stand in one folder
    ensures flat_files { config_value [] (codes "BBFILES") ≡ Ok (Some (codes "recipes/*.bb recipes/*.bbappend")) }
    // ... and the list may be another one
    ensures flat_files_given { config_value (((codes "conf/bitbake.conf"), (codes "BBFILES = \"x/*.bb\"")) ∷ [])
        (codes "BBFILES") ≡ Ok (Some (codes "x/*.bb")) }
    // with layers nothing is built in for it
    ensures layered_files { config_value (((codes "conf/bblayers.conf"), (codes ""))
        ∷ ((codes "conf/bitbake.conf"), (codes "")) ∷ []) (codes "BBFILES") ≡ Ok None }
    // each layer's file is read, with its folder put in, in the order of BBLAYERS
    ensures layer_files { config_value (((codes "conf/bblayers.conf"), (codes "BBPATH = \".\"\nBBLAYERS = \"m n\""))
        ∷ (
          (codes "m/conf/layer.conf"),
          (codes "BBPATH .= \":${LAYERDIR}\"\nBBFILES += \"${LAYERDIR}/*.bb ${LAYERDIR}/*.bbappend\""),
        ) ∷ (
          (codes
              "n/conf/layer.conf"),
          (codes
              "BBPATH .= \":${LAYERDIR}\"\nBBFILES += \"${LAYERDIR}/*.bb ${LAYERDIR}/*.bbappend\""),
        ) ∷ (
          (codes
              "conf/bitbake.conf"),
          (codes ""),
        ) ∷ []) (codes "BBFILES")
        ≡ Ok (Some (codes " m/*.bb m/*.bbappend n/*.bb n/*.bbappend")) }
    // ... and its folder is searched
    ensures layer_folders { config_value (((codes "conf/bblayers.conf"), (codes "BBPATH = \".\"\nBBLAYERS = \"m n\""))
        ∷ (
          (codes "m/conf/layer.conf"),
          (codes "BBPATH .= \":${LAYERDIR}\"\nBBFILES += \"${LAYERDIR}/*.bb ${LAYERDIR}/*.bbappend\""),
        ) ∷ (
          (codes
              "n/conf/layer.conf"),
          (codes
              "BBPATH .= \":${LAYERDIR}\"\nBBFILES += \"${LAYERDIR}/*.bb ${LAYERDIR}/*.bbappend\""),
        ) ∷ (
          (codes
              "conf/bitbake.conf"),
          (codes ""),
        ) ∷ []) (codes "BBPATH") ≡ Ok (Some (codes ".:m:n")) }
    // so `conf/bitbake.conf` may stand in a layer; the first one counts
    ensures found_in_layer { config_value (((codes "conf/bblayers.conf"), (codes "BBPATH = \".\"\nBBLAYERS = \"m n\""))
        ∷ (
          (codes "m/conf/layer.conf"),
          (codes "BBPATH .= \":${LAYERDIR}\"\nBBFILES += \"${LAYERDIR}/*.bb ${LAYERDIR}/*.bbappend\""),
        ) ∷ (
          (codes
              "n/conf/layer.conf"),
          (codes
              "BBPATH .= \":${LAYERDIR}\"\nBBFILES += \"${LAYERDIR}/*.bb ${LAYERDIR}/*.bbappend\""),
        ) ∷ (
          (codes
              "n/conf/bitbake.conf"),
          (codes "A = \"n\""),
        ) ∷ ((codes "m/conf/bitbake.conf"), (codes "A = \"m\"")) ∷ [])
        (codes "A") ≡ Ok (Some (codes "m")) }
    // ... but the project folder comes first
    ensures found_in_project { config_value
        (((codes "conf/bblayers.conf"), (codes "BBPATH = \".\"\nBBLAYERS = \"m n\""))
        ∷ (
          (codes "m/conf/layer.conf"),
          (codes "BBPATH .= \":${LAYERDIR}\"\nBBFILES += \"${LAYERDIR}/*.bb ${LAYERDIR}/*.bbappend\""),
        ) ∷ (
          (codes
              "n/conf/layer.conf"),
          (codes
              "BBPATH .= \":${LAYERDIR}\"\nBBFILES += \"${LAYERDIR}/*.bb ${LAYERDIR}/*.bbappend\""),
        ) ∷ (
          (codes
              "conf/bitbake.conf"),
          (codes "A = \"top\""),
        ) ∷ ((codes "m/conf/bitbake.conf"), (codes "A = \"m\"")) ∷ [])
        (codes "A") ≡ Ok (Some (codes "top")) }
    // with layers it has to be there; no file is at fault
    ensures missing_with_layers { config_value (((codes "conf/bblayers.conf"), (codes "")) ∷ []) (codes "A")
        ≡ Err (load (load_refusal [] 0 (missing_required (codes "conf/bitbake.conf")))) }
    // without layers it may be missing
    ensures missing_without { config_value [] (codes "A") ≡ Ok None }
    // a word of BBLAYERS without the file
    ensures no_such_layer { config_value (((codes "conf/bblayers.conf"), (codes "BBLAYERS = \"m n\""))
        ∷ ((codes "m/conf/layer.conf"), (codes "")) ∷ ((codes "conf/bitbake.conf"), (codes "")) ∷ []) (codes "A")
        ≡ Err (no_such_layer (codes "n")) }
    // ... or that names nothing
    ensures absolute_layer { config_value (((codes "conf/bblayers.conf"), (codes "BBLAYERS = \"/m\""))
        ∷ ((codes "m/conf/layer.conf"), (codes "")) ∷ ((codes "conf/bitbake.conf"), (codes "")) ∷ []) (codes "A")
        ≡ Err (no_such_layer (codes "/m")) }
    // the layers are read in order: a fault of the first comes first
    ensures first_layer_first { config_value (((codes "conf/bblayers.conf"), (codes "BBLAYERS = \"m n\""))
        ∷ ((codes "m/conf/layer.conf"), (codes "B")) ∷ ((codes "conf/bitbake.conf"), (codes "")) ∷ []) (codes "A")
        ≡ Err (load (load_refusal (codes "m/conf/layer.conf") 1 (syntax wrong.BadLine))) }
    // `conf/bblayers.conf` is read before all
    ensures bblayers_first { config_value (((codes "conf/bblayers.conf"), (codes "B"))
        ∷ ((codes "conf/bitbake.conf"), (codes "C")) ∷ []) (codes "A")
        ≡ Err (load (load_refusal (codes "conf/bblayers.conf") 1 (syntax wrong.BadLine))) }
    // BBLAYERS that can't be expanded
    ensures cyclic_layers { config_value (((codes "conf/bblayers.conf"), (codes "BBLAYERS = \"${BBLAYERS}\""))
        ∷ ((codes "conf/bitbake.conf"), (codes "")) ∷ []) (codes "A") ≡ Err (no_list (value_cycle (codes "BBLAYERS"))) }
    // BBPATH that can't be expanded, where the file is searched
    ensures cyclic_bbpath { config_value (((codes "conf/bblayers.conf"), (codes "BBPATH = \"${BBPATH}\""))
        ∷ ((codes "conf/bitbake.conf"), (codes "")) ∷ []) (codes "A")
        ≡ Err (load (load_refusal [] 0 (no_value (value_cycle (codes "BBPATH"))))) }
    // LAYERDIR is the word as it is written
    ensures as_written { config_value (((codes "conf/bblayers.conf"), (codes "BBLAYERS = \"./x/../m\""))
        ∷ ((codes "m/conf/layer.conf"), (codes "A = \"${LAYERDIR}\"")) ∷ ((codes "conf/bitbake.conf"), (codes "")) ∷ [])
        (codes "A") ≡ Ok (Some (codes "./x/../m")) }
    // ... in files that the layer's one includes too
    ensures in_included { config_value (((codes "conf/bblayers.conf"), (codes "BBLAYERS = \"m\""))
        ∷ ((codes "m/conf/layer.conf"), (codes "require ${LAYERDIR}/more.inc"))
        ∷ ((codes "m/more.inc"), (codes "A = \"<${LAYERDIR}>${LAYERDIR}\"")) ∷ ((codes "conf/bitbake.conf"), (codes ""))
        ∷ []) (codes "A") ≡ Ok (Some (codes "<m>m")) }
    // ... in flags
    ensures in_flags { flag_in_config (((codes "conf/bblayers.conf"), (codes "BBLAYERS = \"m\""))
        ∷ ((codes "m/conf/layer.conf"), (codes "A[f] = \"${LAYERDIR}/x\"")) ∷ ((codes "conf/bitbake.conf"), (codes ""))
        ∷ []) (codes "A") (codes "f") ≡ Ok (Some (codes "m/x")) }
    // ... and nowhere else: LAYERDIR itself has no value
    ensures only_there { config_value (((codes "conf/bblayers.conf"), (codes "BBLAYERS = \"m\""))
        ∷ ((codes "m/conf/layer.conf"), (codes "")) ∷ ((codes "conf/bitbake.conf"), (codes "A = \"${LAYERDIR}\"")) ∷ [])
        (codes "A") ≡ Ok (Some (codes "${LAYERDIR}")) }
    // a layer in the project folder
    ensures project_layer { config_value (((codes "conf/bblayers.conf"), (codes "BBLAYERS = \".\""))
        ∷ ((codes "conf/layer.conf"), (codes "A = \"${LAYERDIR}\"")) ∷ ((codes "conf/bitbake.conf"), (codes "")) ∷ [])
        (codes "A") ≡ Ok (Some (codes ".")) }
{}

/// Recipe files and appends.
pub fn example_of_lists()
    // in byte order, with their ending
    ensures recipes { recipes_in (((codes "recipes/b.bb"), (codes "")) ∷ ((codes "recipes/a.bb"), (codes ""))
        ∷ ((codes "recipes/a.inc"), (codes "")) ∷ ((codes "x/c.bb"), (codes "")) ∷ [])
        ≡ Ok ((codes "recipes/a.bb") ∷ (codes "recipes/b.bb") ∷ []) }
    // each once, however many words name it
    ensures once { recipes_in (((codes "conf/bitbake.conf"), (codes "BBFILES = \"r/*.bb r/a.* r/?.bb\""))
        ∷ ((codes "r/a.bb"), (codes "")) ∷ ((codes "r/ab.bb"), (codes "")) ∷ [])
        ≡ Ok ((codes "r/a.bb") ∷ (codes "r/ab.bb") ∷ []) }
    // byte order: `-` is less than `.`, and that less than `/`
    ensures byte_order { recipes_in (((codes "conf/bitbake.conf"), (codes "BBFILES = \"r/*.bb r/*/*.bb\""))
        ∷ ((codes "r/a/x.bb"), (codes "")) ∷ ((codes "r/a.bb"), (codes "")) ∷ ((codes "r/a-b.bb"), (codes "")) ∷ [])
        ≡ Ok ((codes "r/a-b.bb") ∷ (codes "r/a.bb") ∷ (codes "r/a/x.bb") ∷ []) }
    // a word with `[` is refused as it is written
    ensures bracket { recipes_in (((codes "conf/bitbake.conf"), (codes "BBFILES = \"r/*.bb r/[ab].bb [\"")) ∷ [])
        ≡ Err (bad_pattern (codes "r/[ab].bb")) }
    // BBFILES that can't be expanded
    ensures cyclic_files { recipes_in (((codes "conf/bitbake.conf"), (codes "BBFILES = \"${BBFILES}\"")) ∷ [])
        ≡ Err (no_list (value_cycle (codes "BBFILES"))) }
    // a late append of BBFILES counts
    ensures late { recipes_in (((codes "conf/bitbake.conf"), (codes "BBFILES:append = \" x/*.bb\""))
        ∷ ((codes "x/c.bb"), (codes "")) ∷ ((codes "recipes/a.bb"), (codes "")) ∷ [])
        ≡ Ok ((codes "recipes/a.bb") ∷ (codes "x/c.bb") ∷ []) }
    // appends in the order of BBLAYERS, and in byte order within a layer
    ensures appends { appends_in (((codes "conf/bblayers.conf"), (codes "BBLAYERS = \"n m\""))
        ∷ ((codes "m/conf/layer.conf"), (codes "BBFILES += \"${LAYERDIR}/*.bbappend\""))
        ∷ ((codes "n/conf/layer.conf"), (codes "BBFILES += \"${LAYERDIR}/*.bbappend\""))
        ∷ ((codes "conf/bitbake.conf"), (codes "")) ∷ ((codes "m/a.bbappend"), (codes ""))
        ∷ ((codes "n/b.bbappend"), (codes "")) ∷ ((codes "n/a.bbappend"), (codes "")) ∷ [])
        ≡ Ok ((codes "n/a.bbappend") ∷ (codes "n/b.bbappend") ∷ (codes "m/a.bbappend") ∷ []) }
    // the layer with the longest folder holds an append
    ensures longest { appends_in (((codes "conf/bblayers.conf"), (codes "BBLAYERS = \"m/x m\""))
        ∷ ((codes "m/conf/layer.conf"), (codes "BBFILES += \"m/*.bbappend m/*/*.bbappend\""))
        ∷ ((codes "m/x/conf/layer.conf"), (codes "")) ∷ ((codes "conf/bitbake.conf"), (codes ""))
        ∷ ((codes "m/x/b.bbappend"), (codes "")) ∷ ((codes "m/a.bbappend"), (codes "")) ∷ [])
        ≡ Ok ((codes "m/x/b.bbappend") ∷ (codes "m/a.bbappend") ∷ []) }
    // ... measured without `.` and `..`: `m/x` is longer than the spelling of `m`
    ensures measured { appends_in (((codes "conf/bblayers.conf"), (codes "BBLAYERS = \"a/../b/../m m/x\""))
        ∷ ((codes "m/conf/layer.conf"), (codes "BBFILES += \"m/*.bbappend m/*/*.bbappend\""))
        ∷ ((codes "m/x/conf/layer.conf"), (codes "")) ∷ ((codes "conf/bitbake.conf"), (codes ""))
        ∷ ((codes "m/x/b.bbappend"), (codes "")) ∷ ((codes "m/z.bbappend"), (codes "")) ∷ [])
        ≡ Ok ((codes "m/z.bbappend") ∷ (codes "m/x/b.bbappend") ∷ []) }
    // of two spellings of one folder the first counts
    ensures spellings { appends_in (((codes "conf/bblayers.conf"), (codes "BBLAYERS = \"m n ./m\""))
        ∷ ((codes "m/conf/layer.conf"), (codes "BBFILES = \"?/*.bbappend\""))
        ∷ ((codes "n/conf/layer.conf"), (codes "")) ∷ ((codes "conf/bitbake.conf"), (codes ""))
        ∷ ((codes "m/b.bbappend"), (codes "")) ∷ ((codes "n/a.bbappend"), (codes "")) ∷ [])
        ≡ Ok ((codes "m/b.bbappend") ∷ (codes "n/a.bbappend") ∷ []) }
    // a folder is no front of a name: `mx` isn't in `m`; appends of no layer come last
    ensures no_layer { appends_in (((codes "conf/bblayers.conf"), (codes "BBLAYERS = \"m n\""))
        ∷ ((codes "m/conf/layer.conf"), (codes "BBFILES = \"*/*.bbappend\""))
        ∷ ((codes "n/conf/layer.conf"), (codes "")) ∷ ((codes "conf/bitbake.conf"), (codes ""))
        ∷ ((codes "mx/b.bbappend"), (codes "")) ∷ ((codes "n/z.bbappend"), (codes "")) ∷ [])
        ≡ Ok ((codes "n/z.bbappend") ∷ (codes "mx/b.bbappend") ∷ []) }
    // a layer in the project folder holds everything that no other one does
    ensures project_layer { appends_in (((codes "conf/bblayers.conf"), (codes "BBLAYERS = \"m .\""))
        ∷ ((codes "conf/layer.conf"), (codes "BBFILES = \"*/*.bbappend\"")) ∷ ((codes "m/conf/layer.conf"), (codes ""))
        ∷ ((codes "conf/bitbake.conf"), (codes "")) ∷ ((codes "a/b.bbappend"), (codes ""))
        ∷ ((codes "m/z.bbappend"), (codes "")) ∷ []) ≡ Ok ((codes "m/z.bbappend") ∷ (codes "a/b.bbappend") ∷ []) }
{}
