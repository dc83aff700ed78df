// What is proved of a move.
ghost use Rattle.record_move.specs.Rounds.{RemovalIsValid, RoundIsValid};
ghost use Rattle.record_move.specs.Wanted.{AskedAreWanted, WantedIsValid};
ghost use Rattle.record_move.specs.Whole.{MoveLeavesValid, ValidAreAsAsked};

/// Where the added records are put round by round, what is there is a valid book at each moment: what stood before, those of the earlier rounds, and any
/// of this one. And so is what is left where records go round by round, the last round first, and others stay with all that they name.
pub fn rounds_are_valid()
    ensures put { RoundIsValid }
    ensures removed { RemovalIsValid }
{}

/// Two valid books are as a move asks; the book that it makes is valid, and so is what stands where it was stopped in a round.
pub fn moves_are_valid()
    ensures asked { ValidAreAsAsked }
    ensures leaves { MoveLeavesValid }
{}

/// The wanted records of a valid book are those of some of its lines, which are a valid book; each line that is asked for is among them.
pub fn wanted_is_valid()
    ensures valid { WantedIsValid }
    ensures asked { AskedAreWanted }
{}
