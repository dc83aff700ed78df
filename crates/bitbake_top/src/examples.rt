// Worked words, and where a run may begin. Each expected answer is derived from the rules by hand.
ghost use Rattle.std.specs.Prelude.{◌≡◌, [], ◌∷◌, Ok, Err, Some, None, true, false, codes};
ghost use Rattle.meta_model.specs.declared.event.Status.TheVariants.{Usage};
ghost use Rattle.answer_model.specs.declared.asked.ReadMode.TheVariants.{Parse, Versions, Environment};
ghost use Rattle.answer_model.specs.declared.asked.Asked.TheVariants.{Runs, Reads, Plans, Sample};
ghost use Rattle.answer_model.specs.Asked.{asked_of};
ghost use Rattle.run_model.specs.Headline.{MayBegin, nothing};
ghost use Rattle.build_resume.specs.Worked.{hello_plan};
ghost use Rattle.bitbake_top.specs.Worked.{chain_plan, hello_book, hello_left, no_plan, stray};
ghost use Rattle.run_workers.specs.Nothing.{nothing_given};
ghost use Rattle.meta_model.specs.Worked.{shell};
ghost use Rattle.store_model.specs.Hello.{chain_reading, hello_reading};

/// Runs, and what a mode prints.
#[tactic(auto, unfolding(answer_model::specs::Asked::asked_of, answer_model::specs::Command::command, clap::proofs::OnLiterals::clap_on_literals))]
pub fn example_of_asking()
    ensures one_name { asked_of (codes "hello" ∷ [])
        ≡ Ok (Runs
        (record {
          targets = codes "hello" ∷ [];
          task = None;
          force = false;
          options = record { keep_going = false; setscene = true };
        })) }
    ensures two_names { asked_of (codes "b" ∷ codes "a" ∷ [])
        ≡ Ok (Runs
        (record {
          targets = codes "b" ∷ codes "a" ∷ [];
          task = None;
          force = false;
          options = record { keep_going = false; setscene = true };
        })) }
    // behind `--` each word is a target
    ensures behind_two_hyphens { asked_of (codes "--" ∷ codes "-e" ∷ [])
        ≡ Ok (Runs
        (record {
          targets = codes "-e" ∷ [];
          task = None;
          force = false;
          options = record { keep_going = false; setscene = true };
        })) }
    ensures task { asked_of (codes "-c" ∷ codes "build" ∷ codes "hello" ∷ [])
        ≡ Ok (Runs
        (record {
          targets = codes "hello" ∷ [];
          task = Some (codes "build");
          force = false;
          options = record { keep_going = false; setscene = true };
        })) }
    // the configuration's values
    ensures environment { asked_of (codes "-e" ∷ []) ≡ Ok (Reads Environment []) }
    ensures environment_of_a_target { asked_of (codes "-e" ∷ codes "x" ∷ []) ≡ Ok (Reads Environment (codes "x" ∷ [])) }
    ensures versions { asked_of (codes "-s" ∷ []) ≡ Ok (Reads Versions []) }
    ensures parse { asked_of (codes "x" ∷ codes "--parse-only" ∷ []) ≡ Ok (Reads Parse (codes "x" ∷ [])) }
    // a mode that reads doesn't look at the task
    ensures task_of_a_mode { asked_of (codes "-c" ∷ codes "build" ∷ codes "-p" ∷ []) ≡ Ok (Reads Parse []) }
    // of several modes one counts
    ensures versions_and_parse { asked_of (codes "-s" ∷ codes "-p" ∷ []) ≡ Ok (Reads Parse []) }
    ensures letters_in_one_word { asked_of (codes "-ep" ∷ []) ≡ Ok (Reads Parse []) }
    ensures dry_environment { asked_of (codes "-n" ∷ codes "-e" ∷ []) ≡ Ok (Reads Environment []) }
{}

/// Dry runs.
#[tactic(auto, unfolding(answer_model::specs::Asked::asked_of, answer_model::specs::Command::command, clap::proofs::OnLiterals::clap_on_literals))]
pub fn example_of_dry_runs()
    ensures target { asked_of (codes "-n" ∷ codes "hello" ∷ [])
        ≡ Ok (Plans (record { targets = codes "hello" ∷ []; task = None })) }
    ensures task { asked_of (codes "-n" ∷ codes "-c" ∷ codes "build" ∷ codes "hello" ∷ [])
        ≡ Ok (Plans (record { targets = codes "hello" ∷ []; task = Some (codes "build") })) }
    // these options have no bearing on what is printed
    ensures options { asked_of (codes "-nfk" ∷ codes "--no-setscene" ∷ codes "hello" ∷ [])
        ≡ Ok (Plans (record { targets = codes "hello" ∷ []; task = None })) }
{}

/// Options of runs, and the sample.
#[tactic(auto, unfolding(answer_model::specs::Asked::asked_of, answer_model::specs::Command::command, clap::proofs::OnLiterals::clap_on_literals))]
pub fn example_of_options()
    ensures force { asked_of (codes "-f" ∷ codes "hello" ∷ [])
        ≡ Ok (Runs
        (record {
          targets = codes "hello" ∷ [];
          task = None;
          force = true;
          options = record { keep_going = false; setscene = true };
        })) }
    ensures keep_going { asked_of (codes "-k" ∷ codes "hello" ∷ [])
        ≡ Ok (Runs
        (record {
          targets = codes "hello" ∷ [];
          task = None;
          force = false;
          options = record { keep_going = true; setscene = true };
        })) }
    ensures no_setscene { asked_of (codes "--no-setscene" ∷ codes "hello" ∷ [])
        ≡ Ok (Runs
        (record {
          targets = codes "hello" ∷ [];
          task = None;
          force = false;
          options = record { keep_going = false; setscene = false };
        })) }
    // a mode that reads doesn't look at options
    ensures force_in_a_mode { asked_of (codes "-f" ∷ codes "-p" ∷ []) ≡ Ok (Reads Parse []) }
    ensures sample { asked_of (codes "--sample" ∷ codes "5" ∷ []) ≡ Ok (Sample 5) }
    ensures sample_without_targets { asked_of (codes "-f" ∷ codes "--sample" ∷ codes "5" ∷ codes "x" ∷ [])
        ≡ Ok (Sample 5) }
{}

/// Words without a reading.
#[tactic(auto, unfolding(answer_model::specs::Asked::asked_of, answer_model::specs::Command::command, clap::proofs::OnLiterals::clap_on_literals))]
pub fn example_of_misread_words()
    // a run needs a target
    ensures no_words { asked_of [] ≡ Err Usage }
    ensures only_two_hyphens { asked_of (codes "--" ∷ []) ≡ Err Usage }
    ensures unknown_name { asked_of (codes "--not-utf-8" ∷ []) ≡ Err Usage }
    ensures unknown_letter { asked_of (codes "-x" ∷ []) ≡ Err Usage }
    ensures no_target { asked_of (codes "-f" ∷ []) ≡ Err Usage }
    ensures task_without_a_value { asked_of (codes "hello" ∷ codes "-c" ∷ []) ≡ Err Usage }
{}

/// Where a run may begin: of a plan without tasks, of a plan of one task, and of two tasks of which one needs the other.
pub fn example_of_beginning()
    ensures empty { MayBegin nothing_given hello_reading [] nothing no_plan }
    // a file stands among the records that is none
    ensures stray { MayBegin nothing_given hello_reading [] stray no_plan → ⊥ }
    // one task on an empty disk
    ensures hello { MayBegin shell hello_reading [] nothing hello_plan }
    // the same plan on what that run left, with the book of its one line
    ensures again { MayBegin shell hello_reading hello_book hello_left hello_plan }
    // two tasks on an empty disk
    ensures chain { MayBegin shell chain_reading [] nothing chain_plan }
{}
