// What is proved of the definitions.
ghost use Rattle.plan_model.specs.Sound.{ForcedIsSound, ForcedIsWanted, GraphIsOver, GraphsAreOne, PlanIsSound, PlanIsWanted, ProjectHasGoodNames, SoundMeets};
ghost use Rattle.plan_model.specs.Blind.{FirstMayReuse, ForcedIsBlind, ForcedIsWhole, WholeIsBlind};
ghost use Rattle.plan_model.specs.Spellings.{SoundHasSpellings};

/// The plan of a graph is sound, where its threads are 1 to 16, files stand at clean paths, and recipes and tasks have names that
/// recipes and tasks may have.
pub fn plan_is_sound()
    ensures plan { PlanIsSound }
    // also where the targets' tasks are forced
    ensures forced { ForcedIsSound }
{}

/// Each task of the plan of a graph is a target, or one that another task of the plan needs directly.
pub fn plan_is_wanted()
    ensures plan { PlanIsWanted }
    // also where the targets' tasks are forced
    ensures forced { ForcedIsWanted }
{}

/// A sound plan meets what the laws of reuse ask of a plan.
pub fn sound_plans_meet()
    ensures { SoundMeets }
{}

/// A program can hold the signatures of a sound plan's tasks, where it can hold the lines and the files of each task.
pub fn sound_plans_have_spellings()
    ensures { SoundHasSpellings }
{}

/// The recipes of a project and their tasks have names that recipes and tasks may have, and no two recipes have one PN: a recipe's
/// PN is tested after all its files, and a task comes from a line of `addtask` alone, in whatever file or class it stands.
pub fn projects_have_good_names()
    ensures { ProjectHasGoodNames }
{}

/// The nodes of a graph are of recipes of the facts that it was built from.
pub fn graphs_are_over_their_facts()
    ensures { GraphIsOver }
{}

/// Targets have one graph, where no two recipes have one PN.
pub fn graphs_are_one()
    ensures { GraphsAreOne }
{}

/// A plan of which nothing was left out is blind by the reading of its keys, forced or not; and where it is sound, no two contents have
/// one digest, and nothing was recorded before, it may reuse the empty book.
pub fn whole_plans_are_blind()
    ensures plan { WholeIsBlind }
    // also where the targets' tasks are forced
    ensures forced { ForcedIsBlind }
    ensures whole { ForcedIsWhole }
    ensures first { FirstMayReuse }
{}
