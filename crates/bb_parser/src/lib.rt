//! The statements of a file of metadata, or its first fault; and a statement as text.
//!
//! The definitions are those of `meta_model`. This crate's promise is that `parse` answers exactly what they find in
//! any bytes, and that `print` answers, of just the statements that can be written, a text that they find the statement in.
//! By design no call reads a line more than a fixed number of times.
#![tactic(auto)]

mod fault;
mod forms;
mod line_statement;
mod lines_written;
mod names;
mod quotes;
mod reader;
mod scan;
mod tasks;
mod word_list;
mod writable;
mod writer;

pub use fault::{ParseFault, ParseKind, PrintFault};
pub use reader::{Statements, parse};
pub use writer::print;
