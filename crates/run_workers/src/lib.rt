//! Several workers on the run of a plan, each with a bench of its own: they take turns with one state (`run_queue`) behind a lock (`turn_lock`).
//!
//! `run_workers` takes a state that has begun and some benches, and gives both back once nothing more may be done by them, with no task that
//! runs. A turn covers no script: a seat claims a job in one turn, and does it outside. One that is done comes to its end in several turns, between
//! which the worker waits for the disk outside of the lock, and others take theirs; the last one marks how it ended. So does a task that is restored. Who finds
//! nothing to do while others work sleeps on the bell until another one got a job or a task to restore, or went.
//!
//! Contracts see what the state was as it began by a type parameter (`Began`), so that what lies under the lock keeps, in every turn, that
//! whatever held of that state holds on (`specs/Since`), for every opening. What a seat knows of the run is its own record of the tale,
//! each entry with whether its line and all before it had been printed (`specs/Told`).
//!
//! The promises: what `RunState` keeps of a run it keeps here, over all turns; the k-th bench ran the scripts of just those tasks that its own
//! seat started, k + 1, in their order, each over the clean outputs of what it needs, but for maybe the last one, where that broke off; it
//! ran those scripts alone whose start had been printed; and a task broke by a bench only where that bench's count of faults rose.
//! Nothing is said of when, or in which order, workers get their turns.
#![tactic(auto)]

mod began;
mod bell;
mod examples;
mod queue;
mod shared;
mod worker;
mod workers;

pub use began::Began;
pub use queue::{RunQueue, RunSeat};
pub use shared::{Claimed, Closing, Shared, Told};
pub use worker::Halt;
pub use workers::run_workers;
