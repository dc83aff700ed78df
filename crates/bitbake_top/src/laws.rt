// Where a run may begin, each law the contract of a function that does nothing.
ghost use Rattle.run_model.specs.Era.{ErasAreExact, ErasGoOn};
ghost use Rattle.run_model.specs.Headline.{BeginsAgain, BeginsFirst};
ghost use Rattle.run_model.specs.Lasts.{AvailableLasts};
ghost use Rattle.answer_model.specs.PlanLaws.{WordsBeginFirst};

/// A run may begin on an empty disk, and on what a crash of any earlier run left, whatever plan that had. Words whose plan has nothing left
/// out of its keys may have their first run, where no two contents have one digest.
pub fn begin_laws()
    ensures first { BeginsFirst }
    ensures again { BeginsAgain }
    ensures words { WordsBeginFirst }
{}

/// Whatever runs, edits and interruptions came before: a run may begin, and one that answers Ok leaves exactly the clean outputs.
pub fn era_laws()
    ensures begins { ErasGoOn }
    ensures exact { ErasAreExact }
{}

/// What was available as a run began is available in whatever a crash leaves since, so the next run of the plan doesn't start it.
pub fn lasting_law()
    ensures lasts { AvailableLasts }
{}
