// Worked task graphs. Each expected answer is derived from the rules by hand; the comment above it says why. What leads on
// over several recipes can't be computed, so there a walk is shown.
ghost use Rattle.std.specs.Prelude.{◌≡◌, ◌∷◌, [], codes, Ok, Err, true, false, None, Some};
ghost use Rattle.meta_model.specs.Providers.{provider, runtime_provider};
ghost use Rattle.meta_model.specs.Needs.{Needs, RecipeNeeds, is_task, builds_with, needs_by_order, needs_by_deptask};
ghost use Rattle.meta_model.specs.Walks.{IsCycle, LeadsTo};
ghost use Rattle.meta_model.specs.GraphRefusal.{target_task, word_task, nothing_provides, several_provide, no_such_task, IsRefused};
ghost use Rattle.meta_model.specs.GraphSamples.{task, with_depends, with_deptask, with_rdeptask, recipe, facts, library_and_application, task_cycle, each_other, needed};

/// A name has a provider where one candidate is left.
pub fn example_of_providers()
    // app is the recipe with number 0
    ensures by_pn { provider library_and_application (codes "app") ≡ Ok 0 }
    ensures nobody { provider library_and_application (codes "nosuch") ≡ Err [] }
    // the only one that provides it
    ensures by_provides { provider (facts (recipe (codes "a") [] [] [] []
        ∷ (recipe (codes "b") (codes "virtual/x" ∷ []) [] [] [] ∷ []))) (codes "virtual/x") ≡ Ok 1 }
    // two provide it, and none has its name; the PNs stand in byte order
    ensures several { provider (facts (recipe (codes "b") (codes "x" ∷ []) [] [] []
        ∷ (recipe (codes "a") (codes "x" ∷ []) [] [] [] ∷ []))) (codes "x") ≡ Err (codes "a" ∷ (codes "b" ∷ [])) }
    // the recipe of that very name comes before another that provides it
    ensures very_name { provider (facts (recipe (codes "b") (codes "x" ∷ []) [] [] []
        ∷ (recipe (codes "x") [] [] [] [] ∷ []))) (codes "x") ≡ Ok 1 }
    // a preference comes before that
    ensures preferred { provider
        (record (facts (recipe (codes "b") (codes "x" ∷ []) [] [] [] ∷ (recipe (codes "x") [] [] [] [] ∷ [])))
        { preferred = (codes "x", codes "b") ∷ [] }) (codes "x") ≡ Ok 0 }
    // ... but not where it names no candidate
    ensures preference_without_effect { provider (record
        (facts (recipe (codes "b") [] [] [] [] ∷ (recipe (codes "x") [] [] [] [] ∷ [])))
        { preferred = (codes "x", codes "b") ∷ [] }) (codes "x") ≡ Ok 1 }
    // at run time what a recipe provides to build counts for nothing, and its packages do
    ensures at_run_time { runtime_provider (facts (recipe (codes "a") (codes "b" ∷ []) [] [] []
        ∷ (recipe (codes "b") [] [] [] [] ∷ []))) (codes "b") ≡ Ok 1 }
    ensures no_package { runtime_provider (facts (recipe (codes "a") (codes "c" ∷ []) [] [] [] ∷ [])) (codes "c")
        ≡ Err [] }
    // no preference counts there
    ensures no_preference { runtime_provider (record (facts
        (recipe (codes "b") [] [] [] [] ∷ (recipe (codes "x") [] [] [] [] ∷ [])))
        { preferred = (codes "x", codes "b") ∷ [] }) (codes "x") ≡ Ok 1 }
{}

/// The library and the application.
pub fn example_of_library_and_application()
    ensures configure { needed library_and_application (0, codes "do_configure") ≡ [] }
    // its own task before it, and the published part of greet, which DEPENDS names
    ensures compile { needed library_and_application (0, codes "do_compile") ≡ (0, codes "do_configure")
        ∷ ((1, codes "do_populate_sysroot") ∷ []) }
    ensures install { needed library_and_application (0, codes "do_install") ≡ (0, codes "do_compile") ∷ [] }
    ensures build { needed library_and_application (0, codes "do_build") ≡ (0, codes "do_populate_sysroot") ∷ [] }
    // greet names nothing in DEPENDS
    ensures compile_of_greet { needed library_and_application (1, codes "do_compile") ≡ (1, codes "do_configure") ∷ [] }
    ensures target { target_task library_and_application (record { name = codes "app"; task = codes "do_build" })
        ≡ Ok (0, codes "do_build") }
    ensures no_task { target_task library_and_application (record { name = codes "app"; task = codes "do_test" })
        ≡ Err (no_such_task (codes "app") (codes "do_test")) }
    ensures no_recipe { target_task library_and_application
        (record { name = codes "nosuch"; task = codes "do_build" }) ≡ Err (nothing_provides (codes "nosuch")) }
{}

/// Single edges.
pub fn example_of_edges()
    // each task of the cycle needs the other
    ensures cycle_there { needed task_cycle (0, codes "do_a") ≡ (0, codes "do_b") ∷ [] }
    ensures cycle_back { needed task_cycle (0, codes "do_b") ≡ (0, codes "do_a") ∷ [] }
    // without `do_b`, which `deltask` took away, what stood behind it stands alone: orders with it are gone with it
    ensures task_taken_away { needed (facts (recipe (codes "x") [] [] []
        (task (codes "do_a") [] ∷ (task (codes "do_c") [] ∷ [])) ∷ [])) (0, codes "do_c") ≡ [] }
    // an order with a task that isn't there leads nowhere
    ensures order_with_nothing { is_task (facts (recipe (codes "x") [] [] []
        (task (codes "do_c") (codes "do_b" ∷ []) ∷ []) ∷ [])) (0, codes "do_b") ≡ false }
    // `[depends]` on a virtual name
    ensures depends_on_virtual_name { needed (facts (recipe (codes "a") [] [] []
        (with_depends ((codes "virtual/b", codes "do_p") ∷ []) (task (codes "do_c") []) ∷ [])
        ∷ (recipe (codes "b") (codes "virtual/b" ∷ []) [] [] (task (codes "do_p") [] ∷ []) ∷ []))) (0, codes "do_c")
        ≡ (1, codes "do_p") ∷ [] }
    // `[deptask]` goes over DEPENDS and not over RDEPENDS
    ensures deptask { needed (facts (recipe (codes "a") [] (codes "b" ∷ []) (codes "c" ∷ [])
        (with_deptask (codes "do_p") (task (codes "do_q") []) ∷ [])
        ∷ (recipe (codes "b") [] [] [] (task (codes "do_p") [] ∷ [])
        ∷ (recipe (codes "c") [] [] [] (task (codes "do_p") [] ∷ []) ∷ [])))) (0, codes "do_q") ≡ (1, codes "do_p")
        ∷ [] }
    // ... and `[rdeptask]` the other way round
    ensures rdeptask { needed (facts (recipe (codes "a") [] (codes "b" ∷ []) (codes "c" ∷ [])
        (with_rdeptask (codes "do_p") (task (codes "do_q") []) ∷ [])
        ∷ (recipe (codes "b") [] [] [] (task (codes "do_p") [] ∷ [])
        ∷ (recipe (codes "c") [] [] [] (task (codes "do_p") [] ∷ []) ∷ [])))) (0, codes "do_q") ≡ (2, codes "do_p")
        ∷ [] }
    // every word of DEPENDS counts
    ensures each_word { needed (facts (recipe (codes "a") [] (codes "b" ∷ (codes "c" ∷ [])) []
        (with_deptask (codes "do_p") (task (codes "do_q") []) ∷ [])
        ∷ (recipe (codes "b") [] [] [] (task (codes "do_p") [] ∷ [])
        ∷ (recipe (codes "c") [] [] [] (task (codes "do_p") [] ∷ []) ∷ [])))) (0, codes "do_q") ≡ (1, codes "do_p")
        ∷ ((2, codes "do_p") ∷ []) }
    // a recipe without the task is passed over
    ensures task_not_there { needed (facts (recipe (codes "a") [] (codes "b" ∷ []) []
        (with_deptask (codes "do_p") (task (codes "do_q") []) ∷ []) ∷ (recipe (codes "b") [] [] [] [] ∷ [])))
        (0, codes "do_q") ≡ [] }
    // a word of ASSUME_PROVIDED is dropped from DEPENDS
    ensures assumed { builds_with (record (facts []) { assumed = codes "b" ∷ [] }) 1
        (recipe (codes "a") [] (codes "b" ∷ []) [] []) ≡ false }
{}

/// Words of `[depends]` that are refused.
pub fn example_of_words()
    ensures no_task { word_task library_and_application (codes "greet", codes "do_test")
        ≡ Err (no_such_task (codes "greet") (codes "do_test")) }
    ensures no_recipe { word_task library_and_application (codes "nosuch", codes "do_build")
        ≡ Err (nothing_provides (codes "nosuch")) }
    // a word without a colon
    ensures no_colon { word_task library_and_application (codes "greet", []) ≡ Err (nothing_provides (codes "greet")) }
    ensures several { word_task (facts (recipe (codes "b") (codes "x" ∷ []) [] [] []
        ∷ (recipe (codes "a") (codes "x" ∷ []) [] [] [] ∷ []))) (codes "x", codes "do_p")
        ≡ Err (several_provide (codes "x") (codes "a" ∷ (codes "b" ∷ []))) }
{}

/// What leads on.
pub fn example_of_walks()
    ensures cycle { IsCycle (Needs task_cycle) ((0, codes "do_a") ∷ ((0, codes "do_b") ∷ [])) }
    // in one step there, in two steps back
    ensures there { LeadsTo (RecipeNeeds each_other) 0 1 }
    ensures back { LeadsTo (RecipeNeeds each_other) 0 0 }
    // its own packaged part, and that of the recipe that RDEPENDS names
    ensures own_part { Needs each_other (0, codes "do_all") (0, codes "do_package") }
    ensures other_part { Needs each_other (0, codes "do_all") (1, codes "do_package") }
{}
