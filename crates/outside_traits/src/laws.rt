// What follows for tickets, each law the contract of a function that does nothing.
ghost use Rattle.outside_traits.specs.Phases.{PhasesBegin, PhasesBreak, PhasesEnd, PhasesGoOn, PhasesSettle, PhasesStay};
ghost use Rattle.outside_traits.specs.Syncs.{AtOnceIsSame, AtOnceIsSync};
ghost use Rattle.outside_traits.specs.Tickets.{DurableFrom, DurableStays, EndNarrows, EndPasses, LaterMayBeLost, NotTouchedStays, OlderIsNothing, RenamedIsDurable, RenameIsWhole, SettledByTicket, SettledStays};

/// Where each ticket is ended at once, the images are those of the model with syncs alone.
pub fn tickets_are_syncs()
    ensures same { AtOnceIsSame }
    ensures sync { AtOnceIsSync }
{}

/// What was held at the moment of a ticket, and isn't touched since, is held in every image behind its end.
pub fn durable_stays()
    ensures untouched { NotTouchedStays }
    ensures from { DurableFrom }
    ensures stays { DurableStays }
{}

/// The end of a ticket changes nothing that is held, and takes images away and brings none. That of an old one does nothing; and
/// what was called behind the moment may still be lost.
pub fn ends_narrow()
    ensures passes { EndPasses }
    ensures narrows { EndNarrows }
    ensures older { OlderIsNothing }
    ensures lost { LaterMayBeLost }
{}

/// What is durable by a ticket may be renamed, and each image has at the new name what stood there or what was renamed.
pub fn renames_are_whole()
    ensures settled { SettledByTicket }
    ensures stays { SettledStays }
    ensures whole { RenameIsWhole }
    ensures durable { RenamedIsDurable }
{}

/// A publication in three turns, with a ticket behind each: each turn leads on, others leave each phase as it is, and in no image
/// the record or the stamp tells of what isn't there.
pub fn phases_lead_on()
    ensures first { PhasesBegin }
    ensures stay { PhasesStay }
    ensures settle { PhasesSettle }
    ensures on { PhasesGoOn }
    ensures cut { PhasesBreak }
    ensures last { PhasesEnd }
{}
