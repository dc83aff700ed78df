//! Clearing a disk by the names of a plan's tasks: the disk is opened, the names are found over its records, and what neither they nor a limit keep goes.
//!
//! `clean_disk` opens the disk as a run does (`store_opening`), takes the names of all tasks of a plan over the rows as opened as roots, and clears the store
//! (`store_clean`). Without a plan there are no roots. `count_disk` gives the numbers of that, and changes nothing.
//!
//! A disk is seen by its story. Promised of `clean_disk`, whatever it answers: at each moment the disk is on the way through the opening, or was opened and is
//! on the way through the clearing by these roots (`IsAlong`), and it failed only where its count of faults rose. After Ok just what is decided is left
//! (`IsClearedBy`).
//!
//! What follows for runs (`clearing_leaves`): where what was held is valid with a book of readable lines, each image since, and what is held at the end, is
//! valid with some of these lines, which are readable, so a run of any plan that may take of them may begin there; and each task of the roots' plan that was
//! available is available, so a run of this plan doesn't start it. Behind a clearing that was done, a plan that might reuse what was held may begin
//! (`cleared_serves`). So clearings may stand between runs, edits and interruptions of an era in any order (`long_era_laws`).
//!
//! The store is that of the present format of records: an old one is moved before (`store_upgrade`). Want of memory is free. (Own rules: no part of the BitBake
//! User Manual.)
#![tactic(auto)]

mod clearing;
mod laws;
mod on_rows;
mod roots;

pub use clearing::{clean_disk, count_disk};
pub use laws::{cleared_serves, clearing_leaves, long_era_laws};
