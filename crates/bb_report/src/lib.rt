//! The texts that the program prints, and how a text is written.
//!
//! The definitions stand in `run_model` (`Texts`, `Report`), as functions from plain values to bytes; each call gives just that text, and
//! fails for want of memory alone. `write_all` writes a text whole, or a front of it where the sink failed, and takes no
//! memory.
#![tactic(auto)]

mod ends;
mod events;
mod fault;
mod plans;
mod values;
mod versions;
mod written;

pub use ends::{count_found, count_started, end_text, push_count, some_failed};
pub use events::write_event;
pub use fault::fault_text;
pub use plans::{dry_text, plan_text, push_label, push_needs};
pub use values::{env_text, recipe_line};
pub use versions::{parsed_text, versions_text};
pub use written::write_all;
