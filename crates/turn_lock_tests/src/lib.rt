//! Tests of the turn lock: two stories, a concrete one and one that is generic over a device, which threads take turns with.
#![tactic(auto)]

mod diary;
mod queue;
#[cfg(test)]
mod tests;

pub use diary::{Diary, play};
pub use queue::{Device, Logged, Queue, RunName, State, mark_by_two};
