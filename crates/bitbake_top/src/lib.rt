//! The top call: everything that the program does, over the devices that it is handed.
//!
//! `bitbake` reads the words behind the program's name and does what they ask for: it finds the plan of a run's targets (`target_plan`)
//! and runs it (`build_resume`), prints what a mode gives that only reads metadata (`read_modes`), prints the plan of targets, or
//! refuses the words. It hands the devices back with its status, the plan and the tale.
//!
//! The definitions stand in crates of their own. `answer_model` says how words are read and what they ask for (`Reading`, `Asked`), what a
//! mode prints (`Modes`), which plan a run has, why others aren't begun, and what is written (`Plans`, `Run`), and how the status and the
//! printed text of an answer without a run fit what was meant (`Answers`, and `Dry` for a dry run). `run_model` says what is promised of a
//! run whose devices tell (`Headline`), and has the text of a run (`Report`). The clean build is defined in `meta_model`, stores and reuse in
//! `store_model`.
//!
//! Promised of a run that may begin on what the disk holds (`MayBegin`): an empty disk, or what a crash of any earlier run left, where its
//! plan may reuse the book there (`begin_laws`):
//!
//! - under `Ok` each target's folder holds exactly its clean output, in every image of the disk;
//! - whatever the status is, every crash leaves a store in which the next run may begin;
//! - where no device failed, memory wasn't wanting and no two signatures have one digest, it answers `Ok` exactly where the words have a
//!   plan and the clean build of all its tasks succeeds;
//! - the tale is legal, named failures are real, the bench runs are the started tasks.
//!
//! A mode prints exactly its text, and answers `Ok` exactly where no rule refuses, where no device failed and memory wasn't wanting. A dry
//! run prints exactly the text of the plan, and answers `Ok` exactly where there is one. Neither a mode, a dry run nor refused words touch
//! the disk or a bench, and refused words don't touch the layers. The sample builds a generated project twice, over devices in memory of its
//! own, and prints how many tasks its runs started and found. Words are refused as `Usage` exactly where they have no reading. Each
//! refusal's line is printed, and each fault has its cause. Beside these comes want of memory alone.
//!
//! Two calls stand beside it. `why` prints what a run of its words would do, and changes nothing. `clean` clears the store: at each moment the disk is on the way
//! through an opening or through a clearing by the names of the words' plan (`DidClean`), so that a run may begin there, and the plan has what it had
//! (`plan_clean`, `clearing_leaves`); and it prints the numbers of what was decided.
#![tactic(auto)]

mod answer;
mod asked;
mod asking;
mod cleaning;
mod clearing;
mod dry;
mod examples;
mod finish;
mod laws;
mod part;
mod parts;
mod reasons;
mod run;
mod sample;
mod shown;
mod top;
mod whole;

pub use asking::why;
pub use cleaning::Cleared;
pub use clearing::clean;
pub use finish::Finish;
pub use laws::{begin_laws, era_laws, lasting_law};
pub use reasons::Told;
pub use store_clean::Cleaned;
pub use top::bitbake;
