//! References in texts, and the expansion of texts over a map from names to values.
//!
//! A text is read as plain text, references and forms (`parse_refs`), and expanded over any `Lookup` (`expand`, `value`). Contracts
//! see texts as lists of bytes, and the parts of a text as those of `meta_model`, whose definitions they name: `parts_of` for
//! the reading, `expand_by` and `value_by` for the expansion; `looked_up`, for the names that a text looks up, stands here.
//!
//! Promised: each call returns, and equals its definition, refusals included, unless memory ran out.
//!
//! By design, not proved: reading takes time and memory linear in the bytes of the text, and in one call a name is expanded
//! once, however often it is met (`going`).
#![tactic(auto)]

mod expansion;
mod fault;
mod frame;
mod going;
mod lookup;
mod names;
mod parts;
mod reading;
mod scan;
mod standing;

pub use expansion::{expand, value};
pub use fault::ExpandFault;
pub use going::LONGEST;
pub use lookup::Lookup;
pub use meta_model::{are_name_bytes, drop_words, words};
pub use names::references;
pub use parts::{Part, Parts};
pub use reading::parse_refs;
pub use scan::holds_opening;
