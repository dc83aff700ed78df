// What follows for runs from what a clearing does, each law the contract of a function that does nothing.
ghost use Rattle.plan_clean.specs.Era.{LongErasAreExact, LongErasGoOn};
ghost use Rattle.plan_clean.specs.Laws.{ClearedServes, ClearingLeaves};

/// At each moment since a clearing began, a store that was valid with readable lines is so with some of them, and a run of any plan that may take of these may
/// begin there. Each task of the roots' plan that was available is available, so a run of this plan doesn't start it.
pub fn clearing_leaves()
    ensures { ClearingLeaves }
{}

/// Behind a clearing that was done, the store is valid with just the lines that are kept, in their order, and a run of any plan that might reuse what was held may
/// begin on it.
pub fn cleared_serves()
    ensures { ClearedServes }
{}

/// Whatever runs, edits, interruptions and clearings came before: a run may begin, and one that answers Ok leaves exactly the clean outputs.
pub fn long_era_laws()
    ensures begins { LongErasGoOn }
    ensures exact { LongErasAreExact }
{}
