//! The run of a plan over the store of a configuration, which stands in a folder of the disk.
//!
//! `build_config` makes the folder ready, and runs the plan by `build_resume` over a disk of its own there (`sub_disk`). Promised is what `build` promises
//! over that disk's story, and of the whole disk that nothing outside of the folder is changed but what was in the folder's way (`DidFolder` of
//! `multi_config`). The default configuration, which has no name, has no folder: its store is the whole disk.
//!
//! `upgrade_config` brings such a store to the present format of records in the same way, by `store_upgrade`. `status_of_upgrade` and `status_of_bringing` say how a run ends that
//! comes to no store, or to which the records of a mirror can't come.
#![tactic(auto)]

mod below;
mod config;
mod refusing;
mod upgrading;

pub use config::build_config;
pub use refusing::{status_of_bringing, status_of_upgrade};
pub use upgrading::{Upgraded, upgrade_config};
