// Worked command lines. Each expected answer is derived from the rules by hand; the comment above it says why.
ghost use Rattle.std.specs.Prelude.{◌≡◌, [], ◌∷◌, Some, None, true, false, codes};
ghost use Rattle.answer_model.specs.declared.request.Mode.TheVariants.{Sample, Parse, Versions, Environment, Dry, Run};
ghost use Rattle.answer_model.specs.Reading.{request_of};
ghost use Rattle.command_words.specs.Samples.{mode_asked, run_of};

/// A run, its targets and its options.
#[tactic(auto, unfolding(answer_model::specs::Command::command, clap::proofs::OnLiterals::clap_on_literals))]
pub fn example_of_runs()
    // a run needs a target
    ensures no_words { request_of [] ≡ None }
    ensures target { request_of (codes "hello" ∷ []) ≡ Some (run_of (codes "hello" ∷ [])) }
    // a target stays as it was written
    ensures target_with_task { request_of (codes "a:b" ∷ []) ≡ Some (run_of (codes "a:b" ∷ [])) }
    // the targets keep their order, also round an option
    ensures targets_round_an_option { request_of (codes "b" ∷ codes "-k" ∷ codes "a" ∷ codes "b" ∷ [])
        ≡ Some (record (run_of (codes "b" ∷ codes "a" ∷ codes "b" ∷ [])) { keep_going = true }) }
    // letters of options without a value may stand in one word
    ensures letters_in_one_word { request_of (codes "-fk" ∷ codes "a" ∷ codes "b" ∷ [])
        ≡ Some (record (run_of (codes "a" ∷ codes "b" ∷ [])) { force = true; keep_going = true }) }
    ensures long_names { request_of (codes "--force" ∷ codes "--continue" ∷ codes "a" ∷ [])
        ≡ Some (record (run_of (codes "a" ∷ [])) { force = true; keep_going = true }) }
    ensures no_setscene { request_of (codes "a" ∷ codes "--no-setscene" ∷ [])
        ≡ Some (record (run_of (codes "a" ∷ [])) { setscene = false }) }
    // behind `--` each word is a target
    ensures behind_two_hyphens { request_of (codes "--" ∷ codes "-x" ∷ []) ≡ Some (run_of (codes "-x" ∷ [])) }
    // one hyphen is no option
    ensures one_hyphen { request_of (codes "-" ∷ []) ≡ Some (run_of (codes "-" ∷ [])) }
    // an option alone is no target
    ensures only_an_option { request_of (codes "-k" ∷ []) ≡ None }
{}

/// The task of the targets that name none.
#[tactic(auto, unfolding(answer_model::specs::Command::command, clap::proofs::OnLiterals::clap_on_literals))]
pub fn example_of_tasks()
    ensures next_word { request_of (codes "-c" ∷ codes "compile" ∷ codes "hello" ∷ [])
        ≡ Some (record (run_of (codes "hello" ∷ [])) { task = Some (codes "compile") }) }
    ensures same_word { request_of (codes "-ccompile" ∷ codes "hello" ∷ [])
        ≡ Some (record (run_of (codes "hello" ∷ [])) { task = Some (codes "compile") }) }
    // one `=` behind the letter is no part of the value
    ensures equals_sign { request_of (codes "-c=compile" ∷ codes "hello" ∷ [])
        ≡ Some (record (run_of (codes "hello" ∷ [])) { task = Some (codes "compile") }) }
    ensures long_name { request_of (codes "--cmd=compile" ∷ codes "hello" ∷ [])
        ≡ Some (record (run_of (codes "hello" ∷ [])) { task = Some (codes "compile") }) }
    ensures long_name_and_next_word { request_of (codes "hello" ∷ codes "--cmd" ∷ codes "compile" ∷ [])
        ≡ Some (record (run_of (codes "hello" ∷ [])) { task = Some (codes "compile") }) }
    // the letter with a value may end a word of letters
    ensures behind_a_letter { request_of (codes "-fccompile" ∷ codes "hello" ∷ [])
        ≡ Some (record (run_of (codes "hello" ∷ [])) { task = Some (codes "compile"); force = true }) }
    // a task is no target
    ensures task_alone { request_of (codes "-c=compile" ∷ []) ≡ None }
    ensures long_task_alone { request_of (codes "--cmd=compile" ∷ []) ≡ None }
    // the value of an option doesn't begin with a hyphen
    ensures hyphen_value { request_of (codes "-c" ∷ codes "-f" ∷ codes "a" ∷ []) ≡ None }
    // ... and there is one
    ensures no_value { request_of (codes "a" ∷ codes "-c" ∷ []) ≡ None }
    ensures given_twice { request_of (codes "-c" ∷ codes "a" ∷ codes "-c" ∷ codes "b" ∷ codes "hello" ∷ []) ≡ None }
{}

/// Words that the command doesn't take.
#[tactic(auto, unfolding(answer_model::specs::Command::command, clap::proofs::OnLiterals::clap_on_literals))]
pub fn example_of_faulty_words()
    ensures unknown_name { request_of (codes "--nope" ∷ []) ≡ None }
    ensures unknown_name_with_target { request_of (codes "--nope" ∷ codes "hello" ∷ []) ≡ None }
    ensures unknown_letter { request_of (codes "-x" ∷ codes "hello" ∷ []) ≡ None }
    // a letter in a word of letters
    ensures unknown_last_letter { request_of (codes "-fx" ∷ codes "hello" ∷ []) ≡ None }
    // names are not cut short
    ensures short_name { request_of (codes "--forc" ∷ codes "hello" ∷ []) ≡ None }
    ensures given_twice { request_of (codes "-f" ∷ codes "-f" ∷ codes "a" ∷ []) ≡ None }
    ensures letter_and_name { request_of (codes "-f" ∷ codes "--force" ∷ codes "a" ∷ []) ≡ None }
    // an option without a value takes none
    ensures value_of_a_switch { request_of (codes "--force=yes" ∷ codes "a" ∷ []) ≡ None }
    // there is no help and no version
    ensures help_letter { request_of (codes "-h" ∷ codes "a" ∷ []) ≡ None }
    ensures help { request_of (codes "--help" ∷ codes "a" ∷ []) ≡ None }
    ensures version_letter { request_of (codes "-V" ∷ codes "a" ∷ []) ≡ None }
    ensures version { request_of (codes "--version" ∷ codes "a" ∷ []) ≡ None }
{}

/// The generated input's size.
#[tactic(auto, unfolding(answer_model::specs::Command::command, clap::proofs::OnLiterals::clap_on_literals))]
pub fn example_of_samples()
    // it needs no target
    ensures fifty { request_of (codes "--sample" ∷ codes "50" ∷ []) ≡ Some (record (run_of []) { sample = Some 50 }) }
    ensures equals_sign { request_of (codes "--sample=50" ∷ []) ≡ Some (record (run_of []) { sample = Some 50 }) }
    ensures least { request_of (codes "--sample" ∷ codes "1" ∷ []) ≡ Some (record (run_of []) { sample = Some 1 }) }
    ensures most { request_of (codes "--sample" ∷ codes "1000" ∷ [])
        ≡ Some (record (run_of []) { sample = Some 1000 }) }
    ensures too_small { request_of (codes "--sample" ∷ codes "0" ∷ []) ≡ None }
    ensures too_large { request_of (codes "--sample" ∷ codes "1001" ∷ []) ≡ None }
    // zeros and a sign before the digits are taken
    ensures zeros { request_of (codes "--sample" ∷ codes "007" ∷ []) ≡ Some (record (run_of []) { sample = Some 7 }) }
    ensures plus { request_of (codes "--sample" ∷ codes "+7" ∷ []) ≡ Some (record (run_of []) { sample = Some 7 }) }
    ensures minus { request_of (codes "--sample=-7" ∷ []) ≡ None }
    ensures no_number { request_of (codes "--sample" ∷ codes "many" ∷ []) ≡ None }
    ensures no_value { request_of (codes "--sample" ∷ []) ≡ None }
    ensures empty_value { request_of (codes "--sample=" ∷ []) ≡ None }
{}

/// Which mode counts.
#[tactic(auto, unfolding(answer_model::specs::Command::command, clap::proofs::OnLiterals::clap_on_literals))]
pub fn example_of_modes()
    ensures run { mode_asked (codes "a" ∷ []) ≡ Some Run }
    ensures dry { mode_asked (codes "-n" ∷ codes "a" ∷ []) ≡ Some Dry }
    // a plan needs a target
    ensures dry_alone { mode_asked (codes "-n" ∷ []) ≡ None }
    // values are those of the configuration where there is no target
    ensures environment_alone { request_of (codes "-e" ∷ []) ≡ Some (record (run_of []) { env = true }) }
    ensures environment { request_of (codes "-e" ∷ codes "a" ∷ codes "b" ∷ [])
        ≡ Some (record (run_of (codes "a" ∷ codes "b" ∷ [])) { env = true }) }
    ensures environment_counts { mode_asked (codes "-n" ∷ codes "-e" ∷ []) ≡ Some Environment }
    ensures versions { mode_asked (codes "-e" ∷ codes "-s" ∷ []) ≡ Some Versions }
    ensures parse { mode_asked (codes "-s" ∷ codes "-p" ∷ []) ≡ Some Parse }
    ensures sample { mode_asked (codes "-p" ∷ codes "--sample" ∷ codes "3" ∷ []) ≡ Some (Sample 3) }
    // the request has what stood there, whichever counts
    ensures both_stay { request_of (codes "-s" ∷ codes "-p" ∷ [])
        ≡ Some (record (run_of []) { show = true; parse_only = true }) }
    ensures letters_in_one_word { mode_asked (codes "-nesp" ∷ []) ≡ Some Parse }
    ensures long_names { mode_asked (codes "--dry-run" ∷ codes "--environment" ∷ codes "--show-versions" ∷ [])
        ≡ Some Versions }
    ensures long_parse { mode_asked (codes "--parse-only" ∷ codes "a" ∷ []) ≡ Some Parse }
{}
