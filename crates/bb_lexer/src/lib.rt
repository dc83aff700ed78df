//! The logical lines of a file of metadata.
//!
//! A file is read in two steps. This crate takes the first: it cuts the bytes of a file into physical lines, joins
//! those that a backslash ends, drops empty lines and comments, and tells the lines of function bodies from the
//! others. `bb_parser` reads each line as a statement.
//!
//! Its model is `logical_lines` of `meta_model`, the one definition of the line rules: contracts see the bytes as a
//! list of numbers and the answer as a list of lines.
//!
//! It promises that `lines` answers exactly the logical lines of any bytes, or exactly the first fault against the
//! line rules, with its line, unless memory ran out.
//!
//! By design, not proved: its work and its memory are linear in the bytes, for every input, since each physical line is
//! looked at once from each end, and copied once, into the line that it is or is joined with.
#![tactic(auto)]

mod cut;
mod fault;
mod lexer;
mod step;

pub use cut::{before_opening, opens};
pub use fault::{LexFault, LexKind};
pub use lexer::lines;
pub use meta_model::{Line, Place};
