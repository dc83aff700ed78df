//! Bringing an old store to the present format of records.
//!
//! A store whose file `format` isn't held as `2` and a newline may have records of the first format under `rec/`. `upgrade` clears it up as opening does,
//! makes in memory what the move of its believed old records gives (`record_move`), and then writes that: the objects under their new unihashes, the keys, the
//! records and the stamps first under `tmp/`, the records round by round, the stamps, and at last `format`. Between two rounds the disk is synced, so each
//! record that an image has stands with all that it names. A collision is found before any of it is written.
//!
//! Promised, whatever it answers: each moment leaves all else as it was; and who had a store that is valid in both formats has one at each moment, with the
//! old book and some of the moved one (`Upgrades`). After Ok that is the whole moved book, work folders are as they were, stamps name the records that stand
//! for those that they named, and what an object was for is there under the new unihash (`IsUpgraded`): so what plans had they have (`upgraded_is_available`).
//!
//! Where `format` says so, nothing of the first format counts any more: what is at `rec` and under it goes, and nothing else is touched.
//!
//! A move that was stopped goes on: what stands in the present format already is the start of the next one, and objects and keys that are right aren't
//! written again. Old objects stay. The steps that write keys and records are public: a mirror brings records by them, too. (Own rules: no part of the BitBake User Manual.)
#![tactic(auto)]

mod calls;
mod ending;
mod fault;
mod keys;
mod laws;
mod moving;
mod objects;
mod olds;
mod reading;
mod records;
mod stamps;
mod text;

pub use calls::{known, put_staged, sync, write};
pub use fault::UpgradeFault;
pub use keys::put_keys;
pub use laws::upgraded_is_available;
pub use moving::upgrade;
pub use records::{put_rounds, stage_records};
