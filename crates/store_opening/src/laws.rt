// What follows from what opening does, each law the contract of a function that does nothing.
ghost use Rattle.store_opening.specs.Reopened.{ClearedIsValid, OpenedHasWay, OpenedHoldsNoMore, OpenedIsValid, OpenedOneWay, OpenedStays, ReuseAgain};

/// Opening keeps a store valid at each moment, where the book's records can be read; the opened store is valid with the same lines in an
/// order that what is held decides, and its rows are theirs.
pub fn opened_is_valid()
    ensures cleared { ClearedIsValid }
    ensures valid { OpenedIsValid }
    ensures one_way { OpenedOneWay }
{}

/// What is available before a store is opened is so once it is, and in the same way; no more is, where nothing is held at `obj`; and nothing
/// is put.
pub fn opened_stays()
    ensures available { OpenedStays }
    ensures no_more { OpenedHoldsNoMore }
{}

/// Opening makes way for folders: nothing is held at `obj`, nor above the work folder of a task that gave nothing, by its record, and has a stamp. And it
/// leaves nothing under `tmp/`.
pub fn opened_has_way()
    ensures { OpenedHasWay }
{}

/// What a plan may reuse of a book it may reuse of any valid book of the same lines, over a store that holds no more.
pub fn reuse_again()
    ensures { ReuseAgain }
{}
