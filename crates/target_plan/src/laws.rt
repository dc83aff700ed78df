// What is proved of plans of words.
ghost use Rattle.multi_config.specs.PartLaws.{PartPlansAreNotRefused, PartPlansAreOne, PartPlansAreSound, PartPlansAreWanted};
ghost use Rattle.answer_model.specs.PlanLaws.{PlansAreBlind, PlansAreNotRefused, PlansAreOne, PlansAreSound, PlansAreWanted};

/// Words have one plan, which is sound and of which each task is wanted, and those that have one aren't refused. Where nothing is left out
/// of a key of it, the plan is blind.
pub fn plan_laws()
    ensures one { PlansAreOne }
    ensures sound { PlansAreSound }
    ensures wanted { PlansAreWanted }
    ensures blind { PlansAreBlind }
    ensures told { PlansAreNotRefused }
{}

/// A part of a run of several configurations has one plan, which is sound and of which each task is wanted, and one that has a plan isn't refused.
pub fn part_laws()
    ensures one { PartPlansAreOne }
    ensures sound { PartPlansAreSound }
    ensures wanted { PartPlansAreWanted }
    ensures told { PartPlansAreNotRefused }
{}
