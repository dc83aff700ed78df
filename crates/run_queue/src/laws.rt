// What is proved of the tale of a run and of its end, each law the contract of a function that does nothing.
ghost use Rattle.run_queue.specs.Laws.{AllHaveOutputs, BeginIsRun, BookGrows, ClaimMayCome, CourseOfFront, EndMayCome, EndedGrows, EndedIsStep, ExactAtEnd, FailedIsReal, JobIsSaid, LegalGrows};

/// Where the premises hold a run begins with all that it keeps.
pub fn begin_law()
    ensures { BeginIsRun }
{}

/// A tale grows by one entry at a time: the book by its event, which for a task that ended is one step
/// of recording; a course by one more moment; a legal tale by an entry that may come.
pub fn growth_laws()
    ensures book { BookGrows }
    ensures ended { EndedGrows }
    ensures step { EndedIsStep }
    ensures course { CourseOfFront }
    ensures legal { LegalGrows }
{}

/// Over what is known of a plan's tasks a free seat marks, for each answer that the board may give, what may come in each course of the
/// run.
pub fn claim_law()
    ensures { ClaimMayCome }
{}

/// What closes a job, done over the clean outputs that its task needs, may come in each course of the run.
pub fn job_laws()
    ensures said { JobIsSaid }
    ensures ends { EndMayCome }
{}

/// A run that is at its end, and in which no task failed, leaves exact outputs; and a task that failed in a run fails by itself in the clean
/// build. Where each target has a clean output, so has every task that stands under one.
pub fn end_laws()
    ensures exact { ExactAtEnd }
    ensures real { FailedIsReal }
    ensures all { AllHaveOutputs }
{}
