// What follows from what a clearing does, each law the contract of a function that does nothing.
ghost use Rattle.store_clean.specs.Laws.{ClearedIsValid, ClearingIsAvailable, ClearingIsValid, RootsStay};

/// At each moment of a clearing a valid store with readable lines is valid with some of its lines, and those that stay are among them; behind it just these are there.
pub fn clearing_is_valid()
    ensures moments { ClearingIsValid }
    ensures cleared { ClearedIsValid }
{}

/// Where the records of a plan's tasks stay, each task is available at each moment in the way in which it was.
pub fn clearing_is_available()
    ensures { ClearingIsAvailable }
{}

/// The records of roots stay, whatever the limit.
pub fn roots_stay()
    ensures { RootsStay }
{}
