// Worked rows of what a bench ran.
ghost use Rattle.std.specs.Prelude.{[]};
ghost use Rattle.meta_model.specs.Worked.{shell};
ghost use Rattle.run_workers.specs.Rows.{broken_tale, ended_tale, one_plan, one_run};
ghost use Rattle.run_workers.specs.Worked.{RanPrinted};
ghost use Rattle.run_model.specs.Seats.{RanStarted};

/// What a bench ran of the one task that its seat started.
pub fn example_of_runs()
    ensures ended { RanStarted shell one_plan ended_tale [] one_run }
    // a task that ended ran
    ensures skipped { RanStarted shell one_plan ended_tale [] [] → ⊥ }
    // one that broke off may have run, or not
    ensures broke { RanStarted shell one_plan broken_tale [] [] }
    ensures broke_behind { RanStarted shell one_plan broken_tale [] one_run }
    // and the same of scripts whose start had been printed
    ensures skipped_script { RanPrinted one_plan ended_tale ended_tale [] [] → ⊥ }
    ensures broken_script { RanPrinted one_plan broken_tale broken_tale [] [] }
    // nothing runs that wasn't printed
    ensures unprinted { RanPrinted one_plan ended_tale [] [] one_run → ⊥ }
{}
