// Worked words and configurations. Each expected answer is derived from the rules by hand; the comment above it says why.
ghost use Rattle.std.specs.Prelude.{◌≡◌, [], ◌∷◌, ◌++◌, Some, None, Ok, Err, true, false, codes, replicate};
ghost use Rattle.meta_model.specs.declared.event.Status.TheVariants as status;
ghost use Rattle.load_model.specs.Layers.{load};
ghost use Rattle.load_model.specs.LoadRefusal.{missing_required};
ghost use Rattle.load_model.specs.LoadSamples.{load_refusal};
ghost use Rattle.multi_config.specs.Configs.{config_line, status_of, reached_parts, store_prefix};
ghost use Rattle.multi_config.specs.Samples.{configs_in, named_value, part, parts, two_configs};
ghost use Rattle.multi_config.specs.Words.{is_config_name, no_such_config, nothing_provides};

/// The parts of a run.
pub fn example_of_parts()
    // the default configuration, then the others in the order of their first targets
    ensures three { parts (codes "m" ∷ codes "mc:a:m" ∷ codes "mc:b:m" ∷ [])
        ≡ Ok (part [] ((codes "m", codes "do_build") ∷ []) ∷ part (codes "a") ((codes "m", codes "do_build") ∷ [])
        ∷ part (codes "b") ((codes "m", codes "do_build") ∷ []) ∷ []) }
    // ... wherever its targets stand, and each configuration once
    ensures default_first { parts (codes "mc:b:x" ∷ codes "mc:a:m" ∷ codes "m" ∷ codes "mc:b:y" ∷ [])
        ≡ Ok (part [] ((codes "m", codes "do_build") ∷ [])
        ∷ part (codes "b") ((codes "x", codes "do_build") ∷ (codes "y", codes "do_build") ∷ [])
        ∷ part (codes "a") ((codes "m", codes "do_build") ∷ []) ∷ []) }
    // without a target of its own the default configuration is no part
    ensures no_default { parts (codes "mc:a:m" ∷ []) ≡ Ok (part (codes "a") ((codes "m", codes "do_build") ∷ []) ∷ []) }
    // ... but where there is no target at all
    ensures no_words { parts [] ≡ Ok (part [] [] ∷ []) }
    // a task stands behind the recipe's colon, and is all that stands there
    ensures with_task { parts (codes "mc:a:m:compile" ∷ []) ≡ Ok (part (codes "a") ((codes "m", codes "do_compile") ∷ []) ∷ []) }
    // the name of the default configuration is empty
    ensures empty_name { parts (codes "mc::m:fetch" ∷ codes "m" ∷ [])
        ≡ Ok (part [] ((codes "m", codes "do_fetch") ∷ (codes "m", codes "do_build") ∷ []) ∷ []) }
{}

/// Words that are refused.
pub fn example_of_refused_words()
    // a configuration that BBMULTICONFIG doesn't name
    ensures no_such { parts (codes "mc:c:m" ∷ []) ≡ Err (no_such_config (codes "c")) }
    // no target behind the name
    ensures no_target { parts (codes "mc:a" ∷ []) ≡ Err (nothing_provides (codes "mc:a")) }
    // an empty recipe, whatever the name is
    ensures no_recipe { parts (codes "mc:c:" ∷ []) ≡ Err (nothing_provides (codes "mc:c:")) }
    ensures task_alone { parts (codes "mc:a::fetch" ∷ []) ≡ Err (nothing_provides (codes "mc:a::fetch")) }
    // the first word at fault is told
    ensures first { parts (codes "m" ∷ codes "mc:a" ∷ codes "mc:c:m" ∷ []) ≡ Err (nothing_provides (codes "mc:a")) }
    // the bytes of a name
    ensures bytes { is_config_name (codes "x-1_Y") ≡ true }
    ensures other_byte { is_config_name (codes "a.b") ≡ false }
    // ... and their number
    ensures longest { is_config_name (replicate 255 97) ≡ true }
    ensures longer { is_config_name (replicate 256 97) ≡ false }
{}

/// The store of a configuration.
pub fn example_of_configs()
    ensures names { configs_in two_configs ≡ Ok (codes "a" ∷ codes "b" ∷ []) }
    // without BBMULTICONFIG there is none
    ensures no_names { configs_in [] ≡ Ok [] }
    // its file comes last
    ensures first { named_value two_configs (codes "a") (codes "T") ≡ Ok (Some (codes "A")) }
    ensures second { named_value two_configs (codes "b") (codes "T") ≡ Ok (Some (codes "B")) }
    // ... and isn't read for the default configuration
    ensures default { named_value two_configs [] (codes "T") ≡ Ok None }
    // its name
    ensures name { named_value two_configs (codes "b") (codes "BB_CURRENT_MC") ≡ Ok (Some (codes "b")) }
    ensures no_name { named_value two_configs [] (codes "BB_CURRENT_MC") ≡ Ok None }
    // its file has to be there
    ensures no_file { named_value two_configs (codes "c") (codes "T")
        ≡ Err (load (load_refusal [] 0 (missing_required (codes "conf/multiconfig/c.conf")))) }
{}

/// How parts become one answer.
pub fn example_of_answers()
    ensures folder { store_prefix (codes "a") ≡ codes "mc/a/" }
    ensures no_folder { store_prefix [] ≡ [] }
    ensures line { config_line (codes "a") ≡ codes "mc a\n" }
    ensures no_line { config_line [] ≡ [] }
    // all parts
    ensures all_ok { status_of false (status.Ok ∷ status.Ok ∷ []) ≡ status.Ok }
    // the first part that isn't Ok is the last one
    ensures stops { status_of false (status.Ok ∷ status.TaskFailed ∷ status.DiskFault ∷ []) ≡ status.TaskFailed }
    ensures reached { reached_parts false (status.Ok ∷ status.TaskFailed ∷ status.DiskFault ∷ []) ≡ 2 }
    // ... but with `-k`, where a task failed
    ensures goes_on { status_of true (status.TaskFailed ∷ status.Ok ∷ []) ≡ status.TaskFailed }
    // a later fault goes before it
    ensures later { status_of true (status.TaskFailed ∷ status.DiskFault ∷ status.Ok ∷ []) ≡ status.DiskFault }
    ensures reached_later { reached_parts true (status.TaskFailed ∷ status.DiskFault ∷ status.Ok ∷ []) ≡ 2 }
{}
