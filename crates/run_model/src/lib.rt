//! What a run of a plan promises: definitions.
//!
//! They stand in `specs/`, over stores (`store_model`), plans (`plan_model`) and tales (`tale_model`):
//!
//! - what a run begins with (`Opening`), the book along its tale (`Books`), what it is judged by (`Courses`), which paths are a task's own
//!   (`Own`), and what stands of it in what a crash leaves (`Stands`, `InFlight`);
//! - what benches run (`Layouts`, `CleanOutputs`, `Runs`), each by its seat (`Seats`, `Benches`);
//! - how it ends (`Ends`, `Outcome`, `Causes`), and what it leaves (`Build`);
//! - what is printed: the texts of the program (`Texts`), the report of a run (`Report`), and what is written of a text (`Written`);
//! - all of it together, and where a run may begin (`Headline`).
//!
//! The crate has no code: the contracts of the crates that run a plan cite these definitions, up to the top call.
#![tactic(auto)]
