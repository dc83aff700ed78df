//! Remarks on metadata: what is no fault by the rules, and does nothing or something else than it seems to.
//!
//! `lint` reads a project by the calls that every run makes (`project_reading`), over layers that keep each file they are asked for
//! (`Watched`), so that an entry is known by its file and line. It answers remarks, each with a kind, or the status that a run would be
//! refused with. `Counted` are layers that count the lines on which a line alone shows a remark, as each run tells it: that costs one
//! look at each file.
//!
//! Promised: each call returns. `lint`, `who_asks` and `refused_recipes` change no file (`same`), and the first two answer `ReadFault` only where
//! the layers' count of faults rose in the call (`cause`). `Watched` and `Counted` are layers like those below them: what these tell, they
//! tell, and they fail where these do.
//!
//! By design, not proved: which remarks there are; that they ascend, each once, by file, line, kind and words; that none is of a kind that
//! BB_LINT_SKIP of the configuration names; and that each stands at a line of a file that was read, but for `not-included`, which is of
//! one that wasn't. Runs show it (`tests/program/lint.sh`).
#![tactic(auto)]

mod asked;
mod askers;
mod bad_line;
mod config;
mod counted;
mod effects;
mod files;
mod flags;
mod kind;
mod lines;
mod names;
mod near;
mod notes;
mod orders;
mod own;
mod recipes;
mod refused;
mod remark;
mod remarks;
mod spelling;
mod statements;
mod targets;
mod watched;

pub use askers::{Asker, Askers, who_asks};
pub use bad_line::looks_like;
pub use counted::Counted;
pub use kind::RemarkKind;
pub use refused::refused_recipes;
pub use remark::{Remark, remarks_text};
pub use remarks::lint;
pub use watched::Watched;
