// Worked answers of targets and refusals. Each expected answer is derived from the rules by hand; the comment above it says why.
ghost use Rattle.std.specs.Prelude.{◌≡◌, ◌∷◌, [], Some, None, Ok, Err, codes};
ghost use Rattle.meta_model.specs.declared.entry.Op.TheVariants.{Set as Assigned, Weak};
ghost use Rattle.meta_model.specs.declared.entry.EntryLine.TheVariants.{Set};
ghost use Rattle.meta_model.specs.GraphRefusal.{no_such_task, nothing_provides, several_provide};
ghost use Rattle.run_model.specs.Texts.{fault_text};
ghost use Rattle.answer_model.specs.Targets.{target_of};
ghost use Rattle.answer_model.specs.Said.{cycle_status, lack_status, threads_status, too_many_status};
ghost use Rattle.answer_model.specs.RunAsked.{default_task, targets_of};

/// The target that a word means.
pub fn example_of_targets()
    // the default task, which gets its `do_`
    ensures name { target_of (codes "build") (codes "a") ≡ record { name = codes "a"; task = codes "do_build" } }
    // ... unless it has one
    ensures full_default { target_of (codes "do_compile") (codes "a")
        ≡ record { name = codes "a"; task = codes "do_compile" } }
    ensures with_task { target_of (codes "build") (codes "a:compile")
        ≡ record { name = codes "a"; task = codes "do_compile" } }
    ensures with_full_task { target_of (codes "build") (codes "a:do_compile")
        ≡ record { name = codes "a"; task = codes "do_compile" } }
    // `do` alone isn't `do_`
    ensures short_task { target_of (codes "build") (codes "a:do") ≡ record { name = codes "a"; task = codes "do_do" } }
    // the first colon cuts
    ensures two_colons { target_of (codes "build") (codes "a:b:c")
        ≡ record { name = codes "a"; task = codes "do_b:c" } }
    // a colon is there, so the default task doesn't count
    ensures empty_task { target_of (codes "build") (codes "x:") ≡ record { name = codes "x"; task = codes "do_" } }
    ensures empty_name { target_of (codes "build") (codes ":b") ≡ record { name = []; task = codes "do_b" } }
    ensures empty_default { target_of [] (codes "a") ≡ record { name = codes "a"; task = codes "do_" } }
{}

/// The targets of some words.
pub fn example_of_words()
    ensures two { targets_of (codes "build") (codes "b" ∷ codes "a:c" ∷ [])
        ≡ Ok (record { name = codes "b"; task = codes "do_build" } ∷ record { name = codes "a"; task = codes "do_c" }
        ∷ []) }
    // the whole word is told, and it is the first one of another configuration
    ensures other_configuration { targets_of (codes "build") (codes "a" ∷ codes "mc:x:a" ∷ codes "mc:y" ∷ [])
        ≡ Err (lack_status (nothing_provides (codes "mc:x:a"))) }
    // a name may begin with `mc`
    ensures no_colon { targets_of (codes "build") (codes "mc" ∷ [])
        ≡ Ok (record { name = codes "mc"; task = codes "do_build" } ∷ []) }
{}

/// The task of targets that name none.
pub fn example_of_default_tasks()
    // the option comes first
    ensures option { default_task (Set (codes "BB_DEFAULT_TASK") Assigned (codes "build") ∷ [])
        (Some (codes "compile")) ≡ Ok (codes "compile") }
    ensures weak_value { default_task (Set (codes "BB_DEFAULT_TASK") Weak (codes "build") ∷ []) None
        ≡ Ok (codes "build") }
    ensures value { default_task (Set (codes "BB_DEFAULT_TASK") Weak (codes "build")
        ∷ Set (codes "BB_DEFAULT_TASK") Assigned (codes "all") ∷ []) None ≡ Ok (codes "all") }
    // no value is the empty text
    ensures absent { default_task [] None ≡ Ok [] }
{}

/// What is printed where words have no run.
pub fn example_of_refusals()
    ensures no_provider { fault_text (lack_status (nothing_provides (codes "nosuch")))
        ≡ codes "fault 3 NothingProvides nosuch\n" }
    ensures several { fault_text (lack_status (several_provide (codes "x") (codes "a" ∷ codes "b" ∷ [])))
        ≡ codes "fault 3 SeveralProvide x a b\n" }
    ensures no_task { fault_text (lack_status (no_such_task (codes "x") (codes "do_y")))
        ≡ codes "fault 3 NoSuchTask x:do_y\n" }
    ensures cycle { fault_text (cycle_status (record { mc = []; pn = codes "x"; task = codes "do_a" }
        ∷ record { mc = []; pn = codes "x"; task = codes "do_b" } ∷ [])) ≡ codes "fault 3 TaskCycle x:do_a x:do_b\n" }
    ensures threads { fault_text (threads_status (codes "17")) ≡ codes "fault 3 BadThreads 17\n" }
    ensures tasks { fault_text too_many_status ≡ codes "fault 10 Tasks\n" }
{}
