// Worked answers of what words ask for in small projects, each derived from the rules by hand.
#![tactic(auto, unfolding(meta_model::specs::Statements::statement_of, meta_model::specs::Grammar::fit_of, meta_model::specs::Grammar::operator, meta_model::specs::Grammar::quoted))]

ghost use Rattle.std.specs.Prelude.{◌≡◌, ◌∷◌, [], Some, None, Ok, Err, codes};
ghost use Rattle.meta_model.specs.declared.event.Status.TheVariants as status;
ghost use Rattle.target_graph.specs.Samples.{targets_over};

/// The targets of words.
pub fn example_of_projects()
    // without a configuration the default task is `build`
    ensures built_in { targets_over ((codes "recipes/a.bb", codes "") ∷ []) (codes "a" ∷ []) None
        ≡ Ok (record { name = codes "a"; task = codes "do_build" } ∷ []) }
    // that of the configuration
    ensures configured { targets_over ((codes "conf/bitbake.conf", codes "BB_DEFAULT_TASK = \"all\"") ∷ [])
        (codes "a" ∷ []) None ≡ Ok (record { name = codes "a"; task = codes "do_all" } ∷ []) }
    // the option's comes first
    ensures option { targets_over ((codes "conf/bitbake.conf", codes "BB_DEFAULT_TASK = \"all\"") ∷ [])
        (codes "a" ∷ codes "b:c" ∷ []) (Some (codes "x"))
        ≡ Ok (record { name = codes "a"; task = codes "do_x" } ∷ record { name = codes "b"; task = codes "do_c" }
        ∷ []) }
    // a recipe's value doesn't count
    ensures of_recipe { targets_over ((codes "recipes/a.bb", codes "BB_DEFAULT_TASK = \"all\"") ∷ []) (codes "a" ∷ [])
        None ≡ Ok (record { name = codes "a"; task = codes "do_build" } ∷ []) }
    // the value is refused, without a file
    ensures refused_default { targets_over
        ((codes "conf/bitbake.conf", codes "BB_DEFAULT_TASK = \"${BB_DEFAULT_TASK}\"") ∷ []) (codes "a" ∷ []) None
        ≡ Err (status.Metadata [] 0 (codes "ValueCycle") (codes "BB_DEFAULT_TASK" ∷ [])) }
    // ... before the words
    ensures default_before_words { targets_over
        ((codes "conf/bitbake.conf", codes "BB_DEFAULT_TASK = \"${BB_DEFAULT_TASK}\"") ∷ []) (codes "mc:a" ∷ []) None
        ≡ Err (status.Metadata [] 0 (codes "ValueCycle") (codes "BB_DEFAULT_TASK" ∷ [])) }
    // ... but not where the option is given
    ensures word_refused { targets_over ((codes "conf/bitbake.conf", codes "BB_DEFAULT_TASK = \"${BB_DEFAULT_TASK}\"")
        ∷ []) (codes "mc:a" ∷ []) (Some (codes "x"))
        ≡ Err (status.Metadata [] 0 (codes "NothingProvides") (codes "mc:a" ∷ [])) }
    // the configuration comes before the recipes, and these before the words
    ensures configuration_first { targets_over ((codes "conf/bitbake.conf", codes "BBFILES = \"${BBFILES}\"")
        ∷ (codes "recipes/a.bb", codes "b") ∷ []) (codes "mc:a" ∷ []) None
        ≡ Err (status.Metadata [] 0 (codes "ValueCycle") (codes "BBFILES" ∷ [])) }
    ensures recipes_first { targets_over ((codes "recipes/a.bb", codes "b") ∷ []) (codes "mc:a" ∷ []) None
        ≡ Err (status.Metadata (codes "recipes/a.bb") 1 (codes "BadLine") []) }
{}
