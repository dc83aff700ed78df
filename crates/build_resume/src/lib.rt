//! A run of a plan, from a disk to its outcome: it finds and restores what it can trust, runs what is missing on the benches, and publishes
//! what that gives.
//!
//! `build` opens the store that earlier runs left (`build_store`), takes turns on the state of the run (`run_queue`) until nothing more may be
//! done, and writes a line for each event and a last one for its status. Contracts see disk, benches and sink by what they tell, and the
//! tale. Each bench has a seat (`Benches` of `run_model`): the last one is that of the calling thread, whose seat is 0, and each other one a worker's.
//!
//! What is promised where they tell holds for a sound plan over a disk that holds a valid store with a book that the plan may reuse
//! (`IsEntry` in `specs/Build`): an empty disk, or what a crash of any earlier run left (`entry_laws`). It is one record, `Leaves`: what the headline promises (`Keeps` of `run_model`), and `complete`:
//!
//! - under Ok each target's work folder holds exactly its clean output, in every image (`exact`);
//! - whatever the status, every image since the run began holds a valid store, in which the next run may begin (`crashes`), and has what
//!   isn't the own of tasks that the run started or restored as it was (`others`, which says of which paths);
//! - where every task of the plan is a target or needed by another task, Ok comes only where every task has a clean output (`complete`), and
//!   just there where no device failed, memory wasn't wanting and no two signatures have one digest (the clause `exactly`);
//! - `TaskFailed` comes only where a told task fails by itself in the clean build (`real`), and `Unsteady` never (`steady`);
//! - the tale is legal over the store as it was opened, and what it settled stands (`legal`);
//! - each bench runs the scripts of the tasks that its seat starts, each over the clean outputs of what it needs; only the last one may have
//!   no run, where the seat marked last that it broke off (`ran`).
//!
//! Whatever the disk tells, the benches run the scripts of just those tasks whose start had been printed (`printed`): where the sink fails at
//! the line of a start, the task breaks off. Ok comes only where the tale leaves nothing to do and no task failed (`told`).
//!
//! Whatever they tell each status has its cause (`ends`): a device's fault comes only where its count of faults rose; and so has each task that
//! broke off since its bench failed (`broke`), or by a fault (`told`). Of two signatures or outputs that differ the one is that of a record
//! that is held, and the other signature is that of a task of the plan (`differs`). Want of memory is free. What was written is the text of the tale and of the status, or a front of
//! one where the sink failed (`text`). (The BitBake User Manual, "Execution", "Setscene"; formats and bounds are own rules.)
#![tactic(auto)]

mod drive;
mod ending;
mod examples;
mod laws;
mod running;
mod workers;

pub use ending::status_of_store;
pub use laws::entry_laws;
pub use running::{Outcome, build, build_unready};
