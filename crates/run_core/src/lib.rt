//! The core of a run: what has become of each task, and what may be done next.
//!
//! `Board` keeps the tasks' fates. `Board::next` looks for a task that can go on; `Front::next` answers by the same promise
//! without looking at all tasks. `tale_model` says which tales of a run are legal (`History`). What is proved of tales:
//!
//! - however the seats' turns interleave, the tale is legal, and each event can be marked (`interleaving_laws`);
//! - the board is what the tale says (`telling_laws`), and a tale grows by one entry at a time (`growth_laws`, `order_laws`);
//! - a running task stands over settled dependencies, and runs under one seat, whose last event is its start (`seat_laws`);
//! - answers over one view of what is needed and there hold over each view that agrees with it (`agreement_law`), and what
//!   is said of later moments makes no difference (`front_law`);
//! - a failure holds up what stands above it (`failure_laws`).
#![tactic(auto)]

mod board;
mod front;
mod laws;
mod next;
mod scan;

pub use board::Board;
pub use front::{Front, all_above};
pub use laws::{
    agreement_law, failure_laws, front_law, growth_laws, interleaving_laws, order_laws, seat_laws,
    telling_laws,
};
pub use next::Next;
