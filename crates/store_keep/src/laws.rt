// What is proved of the records that others lead to.
ghost use Rattle.store_keep.specs.Keep.{ClosureIsClosed, ClosureIsOne};
ghost use Rattle.store_keep.specs.Tries.{KeptAreClosed, KeptAreFew};

/// For any roots there is one set of what they lead to, and what a record of the set names is in it; so it is for the records that are kept, of
/// which there are no more than the limit says, or else just those that the roots lead to.
pub fn closures_are_closed()
    ensures one { ClosureIsOne }
    ensures closed { ClosureIsClosed }
    ensures kept { KeptAreClosed }
    ensures few { KeptAreFew }
{}
