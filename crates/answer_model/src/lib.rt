//! What words ask for, and what they are answered: definitions.
//!
//! They stand in `specs/`, over how files are put together (`load_model`), plans (`plan_model`) and runs (`run_model`):
//!
//! - the options of the command (`Command`), the request that words make (`Reading`), which mode counts (`RequestModes`), and what is
//!   asked for (`Asked`);
//! - what every run and mode reads first (`Project`), and the status of each refusal (`Said`, `GraphStatus`, `PlanStatus`);
//! - what a mode prints that only reads (`Modes`);
//! - the targets that words name (`Targets`), what a run is asked for (`RunAsked`), which words have a run (`Runs`) and which a plan
//!   (`Plans`, with their laws in `PlanLaws`);
//! - how status and text fit what was meant: of refusals and readings (`Answers`), of a dry run (`Dry`), of a run (`Run`) and of the sample
//!   (`Sample`), with counts of devices that stand still (`Devices`).
//!
//! The crate has no code: the contracts of the crates that read words, read metadata, and answer cite these definitions.
#![tactic(auto)]

mod asked;
mod request;

pub use asked::{Asked, DryRequest, ReadMode, RunRequest, ShowMode};
pub use request::{Mode, Request};
