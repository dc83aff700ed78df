// What is proved of books from which lines go, each law the contract of a function that does nothing.
ghost use Rattle.book_change.specs.Bringing.{CameIsCarried, NextComes};
ghost use Rattle.book_change.specs.Coming.{AlikeGiveSame, AsItIsAnswered, BroughtIsValid, ByAlikeAnswered, NamesGiveSame, NoClashGoesOn};
ghost use Rattle.book_change.specs.Marking.{MarkedIsClosed};
ghost use Rattle.book_change.specs.Serving.{CarriedServe};
ghost use Rattle.book_change.specs.Going.{HalfwayIsValid, KeptIsAvailable, KeptIsValid, KeptRows, KeptSignatures, OriginsStay, RenamedIsHeld};

/// The lines that stay, where whatever names a line that goes goes too, are a valid book, with the outputs and rows that they
/// had; and so are those that are left on the way there, when lines go from the last to the first.
pub fn kept_lines()
    ensures valid { KeptIsValid }
    ensures origins { OriginsStay }
    ensures rows { KeptRows }
    ensures halfway { HalfwayIsValid }
{}

/// Where lines are marked by their places, as `store_keep` marks records, and what a marked one names is marked, what goes is closed upwards.
pub fn marked_lines()
    ensures { MarkedIsClosed }
{}

/// A crash while one record is renamed away leaves the records of all lines, or of all but that one.
pub fn removed_records()
    ensures { RenamedIsHeld }
{}

/// A plan whose tasks' names stay has its signatures and what was available of them.
pub fn kept_availability()
    ensures signatures { KeptSignatures }
    ensures available { KeptIsAvailable }
{}

/// A line of another valid book comes behind a book, with the unihash that a new line has, where what it needs is there: the book
/// stays valid, and the line gives what it gave. What it needs is there where each record that it names is, or where lines that
/// are alike are.
pub fn brought_lines()
    ensures valid { BroughtIsValid }
    ensures as_it_is { AsItIsAnswered }
    ensures by_alike { ByAlikeAnswered }
{}

/// In two valid books whose contents don't clash, lines that are alike gave the same, and so did lines of one name; and a line that comes
/// brings no new contents.
pub fn books_agree()
    ensures alike { AlikeGiveSame }
    ensures names { NamesGiveSame }
    ensures no_clash { NoClashGoesOn }
{}

/// Where all lines of another valid book came to a valid book by the names that stand here, each task of a plan whose name has a row in
/// the other book has one in this.
pub fn carried_lines()
    ensures { CarriedServe }
{}

/// Lines of another valid book come one after another by the names that stand here: behind those that came the next one may come, and
/// where all came they serve its plans.
pub fn lines_come()
    ensures next { NextComes }
    ensures carried { CameIsCarried }
{}
