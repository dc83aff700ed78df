//! What the modes print that only read metadata: the values of recipes or of the configuration, the chosen versions, and how many
//! recipe files were read.
//!
//! The text of a mode, or the status that it is refused with, is a definition over the files of the layers (`Modes` of `answer_model`,
//! `mode_text`), which stands over those of `load_model`; so is the status of each refusal (`Said`). `mode_examples` works
//! such answers out over small projects, each derived from the rules by hand. A target of `-e` is found as one of a run is: its recipe
//! is the provider of its name (`task_graph`).
//!
//! Promised of `read_mode`, for any layers that tell what they hold: it gives that text, and is refused with that status exactly
//! where the definition refuses. `ReadFault` comes only where the layers' count of faults rose in the call; want of memory alone is
//! free. `read_part` gives the values of one of several configurations in the same way. No file is changed, and nothing but the layers is touched. The line that a status is printed with stands in `bb_report`.
#![tactic(auto)]

mod mode_examples;
mod modes;
mod part;
mod targets;
mod values;

pub use modes::read_mode;
pub use part::read_part;
