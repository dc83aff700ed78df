//! The run that its workers share: what each turn does on a state in hand.
//!
//! `RunState` holds a plan and its options, the store, the sink, what is known of the plan's tasks, and the tale. A seat asks for work by
//! `claim`, does a job outside, and says by `ended_turn`, in several turns, or by `broke` how it came to an end; or it is told to restore a task, which it does by
//! `restore_turn`, in several turns. Each call is one turn, and marks at most one event. Between the turns of a job that is done its publication is open, beside
//! those of others; so is a restoring between its turns.
//!
//! While tasks are being restored an end that may change what is needed waits, and so does a failure without `keep_going`, and no further restoring is opened
//! then; else a task could turn out not to be needed whose folder was touched, and the tale couldn't tell of it. No clause speaks of that: `restore_turn` asks
//! what is known before it marks that a task was restored, and where that says otherwise it is want of memory.
//!
//! What every state keeps, whatever the disk tells, is the record `IsState` (`specs/Keeps`): each event could be marked, by its seat;
//! settled tasks have rows; while no fault is kept neither disk nor sink has failed, nor did a task break off by one, and a kept one has its
//! cause (`specs/Causes`). What a run keeps besides, over an opening whose premises hold, is the record `IsRun`: the book grows by what
//! ended, the tale is legal, settled tasks stand, whatever a crash left is valid, and has what isn't the own of begun tasks as it was
//! (`IsLeft`); what the store has open are publications of tasks that run, by their signatures and with their clean outputs, and restorings (`specs/Mends`)
//! of tasks in hand, with their objects; and what was begun ended, was restored, runs, is being restored, or the tale breaks it off where a fault is kept. The turns keep it
//! for every opening.
//!
//! What publications leave that are open between turns stands in `specs/Flights` and `specs/FlightLaws`: the lines of what ended, and any choice of those in
//! flight, are what a crash may leave.
#![tactic(auto)]

mod claims;
mod closing;
mod fault;
mod flight_laws;
mod laws;
mod looking;
mod outputs;
mod probe;
mod restoring;
mod settling;
mod starting;
mod state;

pub use closing::Ending;
pub use fault::RunFault;
pub use flight_laws::{choice_laws, landing_laws, meanwhile_laws, opening_laws, turn_laws};
pub use laws::{begin_law, claim_law, end_laws, growth_laws, job_laws};
pub use restoring::Mending;
pub use state::{Claim, RunParts, RunState};
