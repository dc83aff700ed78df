//! Opening the store that runs of plans left on a disk: what is believed of it, what goes, and what then stays so.
//!
//! A disk is seen by its story, and an index by its rows, in the order in which they were added. What opening leaves is defined in
//! `store_model` (`Opened`): the believed records, what is under `stamp/`, and what stands elsewhere.
//! `specs/Survey` says step by step what is found and what is to go, and `specs/Reopened` what follows.
//!
//! Promised of `open_disk`, whatever it answers: at each moment what opening leaves alone is as it was (`Clears`), and the disk failed
//! only where its count of faults rose. After Ok the disk is opened (`IsOpened`), with the rows of its believed records, and each image
//! is what is held, and holds their records (`IsKept`).
//!
//! So a valid store whose records can be read stays valid, with the same lines in an order that what is held decides
//! (`opened_is_valid`); what is available stays so (`opened_stays`), and so does what a plan may reuse (`reuse_again`). There is a way
//! for folders, and nothing is left under `tmp/` (`opened_has_way`).
//!
//! Opening reads each file under `rec2/` and under `key/`, each key once, and none under `stamp/`, which stays as it is: a stamp is read when its task
//! is asked for. But for each task that gave nothing, by its record, opening looks at `work/PN`: where something is held there, or at `work`, the task
//! isn't available, and would be as soon as another task's publication makes way for its own folder. So then its stamp goes.
//!
//! What the files under `rec2/` and `key/` say another thread may have worked out before (`Known`, `Ahead`): that counts only where opening reads just these
//! files, so whatever was left there, no clause is another.
//!
//! `judge_disk` gives the rows that opening would give, and changes nothing: neither what is held nor any image. It calls `list` and `read` of the disk alone.
//!
//! Want of memory is free. (The Yocto Project Overview and Concepts Manual, "Shared State Cache"; formats and protocol are own rules.)
#![tactic(auto)]

mod bare;
mod judged;
mod judging;
mod keys;
mod known;
mod laws;
mod opening;
mod places;
mod records;
mod survey;

pub use judged::judge_disk;
pub use judging::add_new;
pub use known::{Ahead, Known};
pub use laws::{opened_has_way, opened_is_valid, opened_stays, reuse_again};
pub use opening::open_disk;
pub use places::{record_path, work_at};
pub use records::{read_under, same_bytes};
pub use survey::remove_all;
