//! Texts, byte strings and trees of files, as plain values.
//!
//! Contracts see a `Text` and a `Bytes` as a list of numbers (the bytes), a `ListOf` as the list of its items (a `Texts` is
//! one of texts), and a `Tree` as the list of its paths and entries in the order of the paths' bytes. A tree is a
//! finite map from clean paths to entries in which no path is a proper ancestor of another; `entry_at` is
//! that map.
//!
//! Promised: each call returns. `Tree::from_entries` refuses exactly what is no tree, and names the first bad
//! path. A call that is refused for want of memory leaves its tree as before, and a call that takes no
//! memory has no such answer. Texts are UTF-8; all orders are those of bytes.
#![tactic(auto)]

mod edit;
mod entry;
mod folder;
mod hash;
mod laws;
mod list;
mod manifest;
mod order;
mod overlay;
mod path;
mod text;
mod tree;

pub use entry::{Entry, EntryKind};
pub use hash::Hash;
pub use laws::{
    overlay_is_associative, overlay_is_one_tree, overlay_is_overlaid, overlay_with_itself,
    overlay_with_the_empty_tree, pick_after_place, pick_is_picked, trees_of_equal_manifests,
};
pub use list::{ListOf, Texts};
pub use manifest::{Manifest, ManifestLine, manifest_of, matches};
pub use path::{begins_with, is_below, is_clean};
pub use text::{Bytes, Mem, Text};
pub use tree::{Size, Tree, TreeFault};
