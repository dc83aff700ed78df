// Worked layouts and builds. Each expected answer is derived from the rules by hand; the comment above it says why.
#![tactic(auto, unfolding(crate::specs::Layout::layout_in_order, crate::specs::CleanBuild::is_beyond, crate::specs::CleanBuild::is_beyond_layout, tree_model::specs::Overlay::overlaid, tree_model::specs::Folder::picked))]

ghost use Rattle.std.specs.Prelude.{◌≡◌, ◌∷◌, ◌++◌, [], codes, replicate, true, false, Ok, Err};
ghost use Rattle.tree_model.specs.declared.entry.Entry.TheVariants.{Link};
ghost use Rattle.meta_model.specs.declared.event.Why.TheVariants as why;
ghost use Rattle.meta_model.specs.CleanBuild.{clean_build, clean_output, fails, given, output_of, task_output, waits};
ghost use Rattle.meta_model.specs.Layout.{layout};
ghost use Rattle.meta_model.specs.Worked.{file, gave, outcomes, planned, shell};

/// What is laid out for a task.
pub fn example_of_layouts()
    // a task that needs nothing and has no files
    ensures empty { layout (codes "a") [] [] ≡ [] }
    // what its own recipe gave is its work tree; what another gave stands under that recipe's and task's names
    ensures parts { layout (codes "s1") (file (codes "f") (codes "3") ∷ [])
        (gave (codes "s1") (codes "do_prep") 0 (file (codes "a.txt") (codes "1") ∷ [])
        ∷ (gave (codes "s0") (codes "do_build") 1 (file (codes "b.txt") (codes "0") ∷ []) ∷ []))
        ≡ file (codes "deps/s0/do_build/b.txt") (codes "0")
        ∷ (file (codes "files/f") (codes "3") ∷ (file (codes "work/a.txt") (codes "1") ∷ [])) }
    // the deeper task comes later and wins, however they are listed
    ensures deeper { layout (codes "a") [] (gave (codes "a") (codes "do_y") 1 (file (codes "x") (codes "2") ∷ [])
        ∷ (gave (codes "a") (codes "do_z") 0 (file (codes "x") (codes "1") ∷ []) ∷ []))
        ≡ file (codes "work/x") (codes "2") ∷ [] }
    // at one depth the names' bytes decide
    ensures by_name { layout (codes "a") [] (gave (codes "a") (codes "do_z") 1 (file (codes "x") (codes "2") ∷ [])
        ∷ (gave (codes "a") (codes "do_y") 1 (file (codes "x") (codes "1") ∷ []) ∷ []))
        ≡ file (codes "work/x") (codes "2") ∷ [] }
    // a folder takes the place of a file, and other files stay
    ensures folder_over_file { layout (codes "a") [] (gave (codes "a") (codes "do_y") 0
        (file (codes "x") (codes "1") ∷ (file (codes "x-y") (codes "3") ∷ []))
        ∷ (gave (codes "a") (codes "do_z") 1 (file (codes "x/y") (codes "2") ∷ []) ∷ []))
        ≡ file (codes "work/x-y") (codes "3") ∷ (file (codes "work/x/y") (codes "2") ∷ []) }
    // and a file the place of a folder with all that is in it
    ensures file_over_folder { layout (codes "a") [] (gave (codes "a") (codes "do_y") 0
        (file (codes "x/y") (codes "1") ∷ (file (codes "x/z") (codes "3") ∷ []))
        ∷ (gave (codes "a") (codes "do_z") 1 (file (codes "x") (codes "2") ∷ []) ∷ []))
        ≡ file (codes "work/x") (codes "2") ∷ [] }
    // a recipe whose name begins with this one's is another recipe
    ensures other_recipe { layout (codes "a") [] (gave (codes "a-native") (codes "do_y") 0
        (file (codes "x") (codes "1") ∷ []) ∷ []) ≡ file (codes "deps/a-native/do_y/x") (codes "1") ∷ [] }
{}

/// What of a work tree is the output.
pub fn example_of_outputs()
    // the sysroot of a library, with the link in it, and nothing of what lies beside it
    ensures sysroot { given true ((codes "sysroot", codes ".") ∷ [])
        (file (codes "image/a") (codes "1") ∷ ((codes "sysroot/usr/l", Link (codes "l.1"))
        ∷ (file (codes "sysroot/usr/l.1") (codes "2") ∷ []))) ≡ (codes "usr/l", Link (codes "l.1"))
        ∷ (file (codes "usr/l.1") (codes "2") ∷ []) }
    // the parts are laid over each other in the order of the pairs
    ensures in_order { given true ((codes "a", codes "o") ∷ ((codes "b", codes "o") ∷ []))
        (file (codes "a/x") (codes "1") ∷ (file (codes "a/y") (codes "2") ∷ (file (codes "b/x") (codes "3") ∷ [])))
        ≡ file (codes "o/x") (codes "3") ∷ (file (codes "o/y") (codes "2") ∷ []) }
    // the whole work tree under a folder
    ensures whole { given true ((codes ".", codes "o") ∷ []) (file (codes "x") (codes "1") ∷ [])
        ≡ file (codes "o/x") (codes "1") ∷ [] }
    // a folder that isn't there gives nothing; `sys` is no folder of `sysroot/a`
    ensures missing { given true ((codes "sys", codes "o") ∷ []) (file (codes "sysroot/a") (codes "1") ∷ []) ≡ [] }
    // without pairs the whole tree is the output
    ensures no_pairs { given true [] (file (codes "x") (codes "1") ∷ []) ≡ file (codes "x") (codes "1") ∷ [] }
    // a path of more than 3,072 bytes is too long, also where a later part covers it
    ensures covered { output_of true ((codes "a", codes "o/" ++ replicate 3071 120) ∷ ((codes "b", codes ".") ∷ []))
        (Ok (file (codes "a/x") (codes "1") ∷ (file (codes "b/o") (codes "2") ∷ []))) ≡ Err why.TooLarge }
    // and of a task that is no shared state object, whatever its pairs
    ensures no_object { given false ((codes "a", codes ".") ∷ []) (file (codes "x") (codes "1") ∷ [])
        ≡ file (codes "x") (codes "1") ∷ [] }
{}

/// What a clean build has of the tasks of a plan.
pub fn example_of_builds()
    // one task that needs nothing gives what its script makes of the empty tree
    ensures one { outcomes (clean_build shell (planned (codes "h") (codes "do_build") [] 0 (codes "gen") ∷ []))
        ≡ Ok (file (codes "n") (codes "1") ∷ []) ∷ [] }
    // the second task has the first one's output as its work tree
    ensures two { outcomes (clean_build shell (planned (codes "c") (codes "do_gen") [] 0 (codes "gen")
        ∷ (planned (codes "c") (codes "do_build") (0 ∷ []) 1 (codes "all") ∷ [])))
        ≡ Ok (file (codes "n") (codes "1") ∷ []) ∷ (Ok (file (codes "work/n") (codes "1") ∷ []) ∷ []) }
    // a task that needs a failed one has no output, and neither have those above it; a task beside them has
    ensures failed { outcomes (clean_build shell (planned (codes "k") (codes "do_bad") [] 0 (codes "fail")
        ∷ (planned (codes "k") (codes "do_good") [] 0 (codes "gen")
        ∷ (planned (codes "k") (codes "do_build") (0 ∷ (1 ∷ [])) 1 (codes "all")
        ∷ (planned (codes "l") (codes "do_build") (2 ∷ []) 2 (codes "gen") ∷ []))))) ≡ Err (fails (why.Status 3))
        ∷ (Ok (file (codes "n") (codes "1") ∷ []) ∷ (Err waits ∷ (Err waits ∷ []))) }
{}
