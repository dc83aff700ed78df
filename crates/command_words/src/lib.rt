//! The words behind the program's name, read as a request:
//!
//! `bitbake [-c TASK] [-f] [-k] [-n] [-e] [-s] [-p] [--no-setscene] [--sample N] [TARGET..]`
//!
//! The words are read by a simple command of `clap`, so options may stand before, between and behind the targets; letters
//! without a value may stand in one word; a value stands in the next word, behind `=`, or behind its letter, and doesn't begin
//! with a hyphen unless it stands in its option's word; behind `--` each word is a target. No option is given twice.
//!
//! What a list of words asks for is a definition of `answer_model` (`Reading`) over the command's options (`Command`): each field of the request
//! is said by what that reading found for its option. Promised: `read_words` answers exactly that request where there is one,
//! and refuses with `Usage` exactly where there is none; beside these comes want of memory alone. Five functions of examples try
//! the definition; each clause there is an equation whose sides compute to the same.
#![tactic(auto)]

mod command;
mod examples;
mod fault;
mod reading;
mod request;

pub use fault::WordsFault;
pub use reading::read_words;
pub use request::mode_of;
