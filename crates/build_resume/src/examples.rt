// Worked rows of what a run leaves: of each definition one that has it, and one that hasn't.
ghost use Rattle.std.specs.Prelude.{[]};
ghost use Rattle.meta_model.specs.Worked.{shell};
ghost use Rattle.run_model.specs.Build.{IsEachFailureTold, IsLeftByRun};
ghost use Rattle.build_resume.specs.Worked.{empty_opening, failing_plan, failing_tale, hello_plan, hello_started, recorded_alone, stamped_alone};

/// A plan whose one task fails.
pub fn example_of_failures()
    ensures told { IsEachFailureTold shell failing_plan failing_tale }
    ensures untold { IsEachFailureTold shell failing_plan [] → ⊥ }
{}

/// What a crash left of a run of one task.
pub fn example_of_crashes()
    // between the record and the stamp, while the task ran
    ensures recorded { IsLeftByRun empty_opening hello_plan hello_started recorded_alone }
    // the record of a task that never ran
    ensures unstarted { IsLeftByRun empty_opening hello_plan [] recorded_alone → ⊥ }
    // a stamp that names no record lies
    ensures stamped { IsLeftByRun empty_opening hello_plan hello_started stamped_alone → ⊥ }
{}
