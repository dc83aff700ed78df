//! Files, links and folders of the machine, as the devices over real things use them.
//!
//! Entries are read and laid by paths inside a root folder, folders are walked, and what goes wrong is kept in a sentence. The folders
//! and locks that are the program's own stand under `build/bench`: made where nothing else may stand, never reached through a link. A
//! sync of all that stands on the file system of `build` is one for all who wait. (Own rules: no part of the BitBake User Manual.)
//!
//! Contracts say nothing of what a folder holds. Proved is that each call is safe and returns; `os_cases` shows by runs what the
//! devices make of them.
#![tactic(auto)]

mod faults;
mod folder;
mod lock;
mod own;
mod syncer;
mod syncs;
mod walk;

pub use faults::{FirstFault, is_memory, one_more, put_escaped};
pub use folder::{
    FileFacts, entry_of, is_absent, is_denied, is_empty, is_entry, is_too_long, join, lay_entry,
    look, look_through, make_folder, move_entry, no_memory, open_above, open_up, put_entry,
    put_joined, read_bytes, read_entry, read_onto, read_unchanged, remove_folder,
};
pub use lock::{BENCHES_FOLDER, LOCK, Locking, ScriptLock, lock_at};
pub use own::{Identity, SYSTEM_PATH, clear_own, is_own, make_own, remove_place};
pub use syncer::Syncer;
pub use syncs::{Syncing, Syncs};
pub use walk::{Found, Item, Part, WalkFault, list_items, walk_noting, walk_output, walk_part};
