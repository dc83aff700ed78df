//! The store of a run: what runs of plans left on a disk, and what this one puts there.
//!
//! A store is seen as its disk, the rows of its index, in the order in which they were added, the keys that it knows, the signatures that it
//! keeps of tasks whose publication isn't done, the publications that it has open, and whether no call that changes the disk met a fault
//! (`specs/View`). What opening a disk leaves is defined in `store_model` (`Opened`); `specs/Finding` says what is found of a task,
//! `specs/Publication` what publishing and restoring do, `specs/Openings` what the calls of open publications do to the store, and
//! `specs/Faults` why a call is refused.
//!
//! What a task gave is published in pieces, and several publications may be open at once. `publish_open` writes the task's key in its place,
//! unless it is known, notes what is to be done by two listings, and puts the task's stamp aside, if one is held. `publish_step` takes that
//! out behind a wait, where no crash leaves it in its place: till then nothing in the folders changes. It does 64 items (and writes no entry
//! that is held already), or stages record and stamp, or ends a ticket and renames one of them, or ends the last ticket. No step syncs where
//! the system has synced since the step that said `Wait`, and opening never does. A step finds the publication by the task's folder and its
//! signature, so no task is kept. With `Done` the folders hold exactly the tree, in every image, and the stamp names the record; the row is
//! added then.
//!
//! A restoring may go in pieces, too: `restore_open` reads the object and compares it, and opens the publication of the same task as one without
//! an object, whose record is stored (`restoring_law`); `restore_step` goes on with it. So what is kept of open publications, and what follows for
//! them, is so of restorings: they may be open beside each other and beside publications. `restore` does the same in one call, with syncs of its own.
//!
//! Promised of each call, whatever it answers, want of memory and a failed disk included: what it did to each image that a crash left
//! since its entry (`Passes`). At each moment it is a publication (`IsPublishing`): it changes just its own paths (the task's work folder,
//! stamp and record, the key that it writes, the object of its unihash, and where it stages under `tmp/`), takes no record away, and its stamp
//! never lies: nothing of the task was touched, or no stamp is held, or all that it tells of is there (`Publishes`). A record comes with its
//! key. So a valid store stays valid, with the same book or with the publication's line behind it (`published_is_valid`). What other tasks have
//! stays, and what was available of them stays so (`KeepsOthers`, `others_stay`); and each other publication that is open stays as it is
//! (`open_ones_stay`). After `true` of `restore` the work folder holds exactly the tree, in every image, and the stamp names the record.
//!
//! Two that are open have neither a folder in common nor a record nor an object: where one would, `publish_open` answers `false`. A call that
//! answers a fault leaves the publication closed, and no other one is opened behind it. Where no call met a fault and nothing is open,
//! nothing is held under `tmp/` (`into_disk`).
//!
//! Opening keeps a valid store valid where its records can be read, with the same lines in an order that what is held decides
//! (`opened_is_valid`), all that is available (`opened_stays`), and what a plan may reuse (`reuse_again`). The records that are stored
//! can be read. Opening makes way for folders, and leaves nothing under `tmp/` (`opened_has_way`).
//!
//! A key is known once it is that of a row or was written. Each known key is held under its name, and that of a row in each image. No two are
//! known by one name: where a task's would be the second `publish_open` answers a collision, and changes nothing.
//!
//! `publish_open` raises the disk's moment by 16 at most, `publish_step` by 129, where nothing is held below the path of the task's stamp.
//!
//! Opening a store reads each file under `rec2/` and `key/`, and none under `stamp/`. What the files under `rec2/` and `key/` say another thread
//! may have worked out before (`Known`, `Ahead`): that counts only where opening reads just these files, so whatever was left there, no clause
//! is another.
//!
//! What is kept of one that is open is defined in `specs/Halves` and `Standing`, what each of its calls does in `Calls`, and what follows in
//! `Pieces` and `Ending`: each call is a publication at each moment (`pieces_publish`), its steps lead to folders that hold exactly the tree
//! (`steps_lead_on`), and tickets in place of syncs to a stamp that never lies (`phases_lead_on`).
//!
//! `available` and `compare_at` answer for a disk and the rows of an index that are no store, as for one that is only looked at.
//!
//! `known_name` gives for a PN and the whole text of a signature the name of every signature with this text, where it knows one; that it does
//! isn't promised. `into_disk` gives the disk back, which in every image holds the records of all rows.
//!
//! A fault of the disk comes only where its count of faults rose; a collision or an unsteady task only with the two values that differ.
//! Want of memory is free. (The Yocto Project Overview and Concepts Manual, "Shared State Cache" and "Hash Equivalence"; formats and
//! protocol are own rules.)
#![tactic(auto)]

mod comparing;
mod drafting;
mod ending;
mod fault;
mod finding;
mod freeing;
mod going;
mod keeping;
mod kept;
mod keys;
mod laws;
mod listed;
mod naming;
mod opening;
mod pieces;
mod places;
mod publication;
mod publishing;
mod refused;
mod restoring;
mod step;
mod store;
mod tasks;
mod working;

pub use comparing::compare_at;
pub use fault::StoreFault;
pub use finding::available;
pub use kept::KeptSig;
pub use laws::{
    open_ones_stay, others_stay, phases_lead_on, pieces_publish, published_is_valid, restoring_law,
    steps_lead_on,
};
pub use refused::OpenRefused;
pub use step::Step;
pub use store::{Store, open_store};
pub use store_opening::{Ahead, Known, opened_has_way, opened_is_valid, opened_stays, reuse_again};
