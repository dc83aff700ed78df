//! The configuration of a project: its layers, and the lists of its recipe files and appends.
//!
//! `read_layers` equals the definition of `load_model` (`Layers`, `config`) over the files of the layers, refused exactly where it
//! refuses; a failure of the layers comes only where their count of faults rose, and want of memory alone is free. Patterns are
//! named once, and matched in time linear in pattern times path. Only what begins as one of them does, up to its first wildcard, is
//! listed.
#![tactic(auto)]

mod fault;
mod files;
mod glob;
mod heads;
mod listing;
mod lists;
mod order;
mod patterns;
mod reads;

pub use fault::LayerFault;
pub use lists::read_layers;
pub use reads::Config;
