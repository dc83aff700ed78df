// What is proved of runs of several configurations.
ghost use Rattle.multi_config.specs.ConfigLaws.{ConfigsAreExact, ConfigsCrash, PartsAreApart, ReachedAreApart, ReachedAreOthers};

use outside_traits::{Bench, Disk, Layers, Sink};

/// Where a part of a run ended with Ok, the targets of its configuration have exactly their clean outputs at the end of the whole run, whatever the
/// configurations behind it are and however these ended. A crash at any moment of the run leaves each configuration a store in which its next run may begin.
pub fn configs_law<L: Layers, D: Disk, B: Bench, W: Sink>()
    ensures exact { ConfigsAreExact L.tells D.tells B.tells W.tells }
    ensures crashes { ConfigsCrash L.tells D.tells B.tells W.tells }
{}

/// The parts of words are of different configurations, and the default one stands first; so the parts behind one that was reached are of others that have
/// a name.
pub fn parts_law()
    ensures apart { PartsAreApart }
    ensures others { ReachedAreOthers }
    ensures reached { ReachedAreApart }
{}
