//! The text that says what a run would do with each task that it needs, and why, before there is a run.
//!
//! A disk is seen by its story. The text is a definition over a plan and what is held (`why_model`, `Why`). The records under `rec2/` are judged as an
//! opening would judge them (`store_opening`), names, needs and what is there are worked out as a run works them out (`setscene_plan`), and for the rest the
//! plan is walked once from its end and once from its begin.
//!
//! The rows are those that a run opens the store with (`judged_as_opened`).
//!
//! Promised of `why_text`, whatever it answers: neither what is held nor any image changes, and the disk failed only where its count of faults rose. After
//! Ok the text is the one that is meant. It is refused besides where two signatures have one digest. Want of memory is free.
//! (Own rules.)
#![tactic(auto)]

mod certain;
mod differing;
mod earlier;
mod fates;
mod judged;
mod laws;
mod lines;
mod parts;
mod rows;
mod seen;
mod telling;

pub use laws::judged_as_opened;
pub use telling::{Looked, why_text};
