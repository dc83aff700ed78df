//! Records that come to the format that a store writes, worked out in memory: those of the first format when a store is moved, and those of another
//! store, as a mirror is, which has the present format already. Nothing is read or written here.
//!
//! Given are records that are believed, each behind those that it names, and what stands in the store already, in the present format: its rows
//! (`hash_equiv`) and the keys that are known (`KnownKeys`, seen as the list of their bytes).
//! `move_records` tells
//!
//! - of each record the name and the unihash of the one that stands for it: its stamp is to say that name, its object belongs under that unihash;
//! - the records that are added, in their order, each with the round in which it is put: behind all that it names, so that one sync between two
//!   rounds is enough;
//! - the rows of all that stands then, and the known keys with those that come behind them, which are to be written before the first round.
//!
//! `wanted` tells which records of another store these are: those that are asked for, and what they name.
//!
//! Promised for each format that the records may have, and of every book whose records they are: this is its move as `store_move` defines it
//! (`moved`); the move met no collision (`clear`), so that it keeps books valid, and availability, by the laws there; the key of each line is known
//! (`well`), each new one being that of a record that came (`keys`). A collision is answered instead with its cause (`err`): two different signatures,
//! or two different keys, of one SHA-256. `moves_are_valid` and `rounds_are_valid` say what stands where a move is stopped in a round: a valid book,
//! whatever of the round was put. `wanted_is_valid` says that what is wanted of a valid book is a valid book.
//!
//! Want of memory alone is free. How long it takes isn't proved: each name is looked up in a map by its digest, what a record has is copied once, and
//! the unihash of a new record is looked for among the rows of its PN.
#![tactic(auto)]

mod adding;
mod backward;
mod examples;
mod fault;
mod keys;
mod laws;
mod moving;
mod records;
mod renaming;
mod rounds;

pub use backward::{note_names, wanted};
pub use examples::example_of_a_move;
pub use fault::MoveFault;
pub use keys::KnownKeys;
pub use laws::{moves_are_valid, rounds_are_valid, wanted_is_valid};
pub use moving::{Moved, move_records};
pub use records::{AddedRecord, MovedRecord, OldRecord};
