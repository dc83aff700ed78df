//! A lock that hands one value, the story, from turn to turn.
//!
//! Threads share a `TurnLock` by reference, and each has a `Seat` of its own. `begin` takes the story out, and `end` brings it back with what the
//! turn added to its tale, a list that only grows. A `Seat` knows, in proofs alone, how far it has seen the tale and which entries it added itself.
//! `split` makes a further seat, `join` takes one in again, and `close` gives the story back once one seat has all the others' records.
//!
//! The model: what a seat knows is its `View`, plain data (`specs/Views.antt`). The lock keeps one rule over the tickets, the story and the views of all
//! seats (`specs/Kept.antt`), in three parts: the line of tickets (`specs/Line.antt`), the book of what the seats know and own (`specs/Book.antt`), and the turn,
//! which says where the story is (`specs/Turn.antt`). The clauses of the calls are said in the words of `specs/Seats.antt`.
//!
//! The promises, for any story: each turn gets the story with its name, with a tale that begins with all that the seat has seen, and in which the entries under the
//! number of each of the seat's records are just that record's. The story that `close` gives has each seat's entries once and in order, and no others.
//! Only `begin` may wait. It keeps its promise where it returns; nothing is said of when, or in which order, waiting seats get their turns.
#![tactic(auto)]

mod lock;
mod rule;
mod seat;
mod steps;
mod story;

pub use lock::{LockRefused, TurnLock};
pub use seat::Seat;
pub use story::Story;
