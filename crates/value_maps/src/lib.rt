//! Maps by name: what entries make of each name, and what a name has under active overrides.
//!
//! Contracts say of `Maps` that they keep what a list of entries gives (`Keeps`), and on which shared entries they stand
//! (`base_of`). They keep the value, weak default, late entries and flags of each name, and which names are forms of which.
//! What is a store's own of a name stands in place of what is shared; a name is cut at its colons once, when it first comes.
//! Tasks are of no name, so their entries change nothing here.
//!
//! Promised: each call returns. What is looked up of maps equals the definition of `meta_model` over the list that they keep;
//! an entry more, and they keep the longer list. Where memory is wanting, one entry leaves all as it was. What names tell as
//! lines, and maps in which names are hidden, are what a store needs to move names.
#![tactic(auto)]

mod all_flags;
mod by_name;
mod copies;
mod flagged;
mod forms;
mod found;
mod kept;
mod line;
mod maps;
mod named;
mod names;
mod special;
mod telling;

pub use all_flags::AllFlags;
pub use by_name::{Names, drop_value, names_of, put_name, put_value};
pub use line::{flag_line, push_line, set_line, unset_flag_line};
pub use maps::{Base, Maps};
pub use names::push_if;
