//! Which records of a store are kept when it is cleared.
//!
//! Records are numbered in an order in which each names only earlier ones, as an opened store has them: `edges` has for each record the places
//! of those that it names, as needed tasks or by its unihash. A set of records is seen as a list of marks, one for each record.
//!
//! - `closure` marks what the marked records lead to. It serves a mirror too: which of its records are wanted.
//! - `keep` keeps what the roots lead to, and then of the others as many as a limit allows: they are tried in the order that is given, each
//!   with all that it leads to, and one with which there were too many is passed over.
//!
//! What is kept is the set that `specs/Keep.antt` and `specs/Tries.antt` define, no more and no less; such a set is there, and it is one
//! (`closures_are_closed`). So what goes is closed upwards: whatever names a record that goes goes too. Want of memory alone is free, and
//! `closure` wants none. That both take the time that is said of them isn't proved.
#![tactic(auto)]

mod closing;
mod examples;
mod keeping;
mod laws;
mod walking;

pub use closing::closure;
pub use examples::example_of_five_records;
pub use keeping::keep;
pub use laws::closures_are_closed;
