// What is proved of a run in which publications are open, each law the contract of a function that does nothing.
ghost use Rattle.run_queue.specs.FlightLaws.{BeginsUnderWay, ChoiceIsValid, EndsWithNothing, FlightStays, LandingGoesOn, LandingGrows, LandingKeepsFlights, LandingStands, LandingStandsTo, LeftIsPromised};
ghost use Rattle.run_queue.specs.FlightLaws.{MarksKeepFlights, MissingStays, OneMoreOrLess, OpeningKeepsFlights, OpeningKeepsOthers, OtherBytes, RestoringKeepsValid, RestoringLeaves, StartedStaysMissing, ToldAtEnd, ToldGoesOn, TurnKeepsStanding, TurnKeepsValid, TurnLeaves, WithIsRead};
ghost use Rattle.run_queue.specs.Joined.{LineStaysValid, LinesJoin};

/// A line that is valid behind a book stays so behind lines of other tasks, and such lines join in any choice. So do those in flight: what
/// is valid with some of them is what a run promises of a crash. Each stays the same while others come behind the book.
pub fn choice_laws()
    ensures stays { LineStaysValid }
    ensures join { LinesJoin }
    ensures choice { ChoiceIsValid }
    ensures read { WithIsRead }
    ensures promised { LeftIsPromised }
    ensures same { FlightStays }
{}

/// A run begins with nothing open, and ends so. A publication is opened beside others, and an event is marked that records nothing.
pub fn opening_laws()
    ensures begins { BeginsUnderWay }
    ensures ends { EndsWithNothing }
    ensures opening { OpeningKeepsFlights }
    ensures beside { OpeningKeepsOthers }
    ensures values { OneMoreOrLess }
    ensures marks { MarksKeepFlights }
{}

/// A turn of an open publication keeps what a run keeps of its images, be others open or not.
pub fn turn_laws()
    ensures valid { TurnKeepsValid }
    ensures left { TurnLeaves }
    ensures standing { TurnKeepsStanding }
{}

/// Behind the last turn the line stands in the book, the task stands, and the others are open as they were.
pub fn landing_laws()
    ensures grows { LandingGrows }
    ensures others { LandingKeepsFlights }
    ensures stands { LandingStands }
    ensures since { LandingStandsTo }
    ensures on { LandingGoesOn }
{}

/// What others do leaves what is kept of tasks that run, and of publications that are open.
pub fn meanwhile_laws()
    ensures restoring { RestoringKeepsValid }
    ensures restored { RestoringLeaves }
    ensures missing { MissingStays }
    ensures bytes { OtherBytes }
    ensures started { StartedStaysMissing }
    ensures on { ToldGoesOn }
    ensures told { ToldAtEnd }
{}
