// What follows from what the store's calls do, each law the contract of a function that does nothing.
ghost use Rattle.build_store.specs.Ending.{NowIsTicket, PhasesEnd, PhasesStay, RecordGoesOn, StagedAtFirst, StampGoesOn};
ghost use Rattle.build_store.specs.Laws.{OthersInWorkStay, OthersObjectsStay, OthersStay, OthersUntouched, PublishedIsValid};
ghost use Rattle.build_store.specs.OpenTasks.{OpenTasksStay};
ghost use Rattle.build_store.specs.Restoring.{RestoringIsPublishing};
ghost use Rattle.build_store.specs.Pieces.{FinishesIsPublishing, HalvesStay, InARow, MayBeWritten, NotedIsHalf, OpenOnesStay, OpensIsPublishing, OthersKeepPut, PublicationStays, StepGoesOn, WholeAtLast, WorksIsPublishing};

/// At each moment of a publication a valid store is valid, with the same book or with the publication's line behind it.
pub fn published_is_valid()
    ensures { PublishedIsValid }
{}

/// A publication, or a restoring, leaves the outputs of other tasks as they were: their stamps and their work folders, whatever the
/// store holds, and their objects too, where the tasks' lines are of a valid book. What was available of them stays so.
pub fn others_stay()
    ensures untouched { OthersUntouched }
    ensures lines { OthersStay }
    ensures in_work { OthersInWorkStay }
    ensures objects { OthersObjectsStay }
{}

/// Each call of a publication in pieces does at each moment what a publication does, to its own task and to others; and so do calls in a
/// row.
pub fn pieces_publish()
    ensures opens { OpensIsPublishing }
    ensures works { WorksIsPublishing }
    ensures finishes { FinishesIsPublishing }
    ensures row { InARow }
{}

/// An open publication stays as it is, whatever another one does, and so does all that it has put where it is at its end; and what it is to
/// put stays the same while other rows come.
pub fn open_ones_stay()
    ensures halves { HalvesStay }
    ensures put { OthersKeepPut }
    ensures any { OpenOnesStay }
    ensures task { OpenTasksStay }
    ensures publication { PublicationStays }
{}

/// Opening notes what is to be done. A step does what is next, and leaves the rest; each entry may be written as its turn comes; and with
/// nothing left the folders hold exactly the tree.
pub fn steps_lead_on()
    ensures noted { NotedIsHalf }
    ensures step { StepGoesOn }
    ensures free { MayBeWritten }
    ensures whole { WholeAtLast }
{}

/// Then all is staged, the record is renamed, if it is new, and the stamp, each once a ticket has ended, whatever others do meanwhile; and
/// behind the last ticket's end each crash leaves all that the stamp tells of.
pub fn phases_lead_on()
    ensures ticket { NowIsTicket }
    ensures first { StagedAtFirst }
    ensures stay { PhasesStay }
    ensures record { RecordGoesOn }
    ensures stamp { StampGoesOn }
    ensures last { PhasesEnd }
{}

/// A restoring is the publication of the same task as one without an object, whose record is stored.
pub fn restoring_law()
    ensures { RestoringIsPublishing }
{}
