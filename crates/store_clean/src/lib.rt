//! Clearing a store: records, keys and objects that nothing needs go.
//!
//! Kept are the records of some roots with all that they lead to, and of the others, in the ascending order of their names, each with all that it leads to, as
//! long as no more are kept than a limit says (`store_keep`). What goes is closed upwards: whatever names a record that goes goes too.
//!
//! `clean_store` clears a disk that was just opened, with the rows of its records. Stamps that name records that go are taken away; then these records, round by
//! round, so that each goes before what it names; then the objects and keys that no record names that stays. What goes of stamps and records is renamed to
//! `tmp/gone`, one after another, so each image has it whole or not at all; and between two rounds the disk is synced.
//!
//! Promised, whatever it answers: at each moment all beside is as it was, and of the records some are there, those that stay among them, each with what it names
//! and its key (`IsMoment`). So who had a valid store has one at each moment, with some of its lines (`clearing_is_valid`), and where a plan's records stay, its tasks
//! are available in the way in which they were (`clearing_is_available`); the records of roots do (`roots_stay`). After Ok just the lines that stay are there, in
//! their order, with their objects and keys, and no stamp names a record that went (`IsDone`). The disk failed only where its count of faults rose.
//!
//! `count_clean` gives the numbers that a clearing would give, and changes nothing.
//!
//! Each record and each name is looked at a few times, but for what `keep` tries and passes over, and each object's path once: that isn't proved. Want of memory
//! is free. (Own rules: no part of the BitBake User Manual.)
#![tactic(auto)]

mod clearing;
mod deciding;
mod edges;
mod going;
mod laws;
mod nodes;
mod places;
mod planning;
mod rounds;
mod stamps;
mod sweeping;
mod taking;

pub use clearing::{Cleaned, clean_store};
pub use laws::{clearing_is_available, clearing_is_valid, roots_stay};
pub use planning::count_clean;
