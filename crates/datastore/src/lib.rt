//! The datastore: what the entries of metadata give.
//!
//! Contracts see a `Datastore` as the list of the entries that were applied, in order; each call equals the definition of
//! `meta_model` over that list, refusals included and exactly where the definition refuses. A refused call leaves the store
//! as it was. The store keeps its entries, and beside them the maps by name of `value_maps`, which no contract mentions.
//!
//! Promised: each call returns. `settle` works out the active overrides once, so that look-ups needn't; `freeze` moves the
//! names that hold references. Want of memory alone is free, and has an answer of its own.
#![tactic(auto)]

mod fault;
mod freeze;
mod line;
mod looked;
mod order;
mod store;
mod tasks;

pub use fault::{DataFault, copy_fault};
pub use store::{Datastore, SharedStore};
pub use value_maps::{AllFlags, names_of, put_value};
