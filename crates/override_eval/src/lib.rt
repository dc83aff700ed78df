//! What overrides and late operations do to values: the active overrides and how they settle, the winning form of a name,
//! appends, prepends and removes.
//!
//! Contracts see texts as lists of bytes and name the definitions of `meta_model`, the one place where the rules stand; the
//! passes over OVERRIDES are taken over any text that depends on the active overrides, and a law ties them to entries.
//!
//! Promised: each call returns and equals its definition for every input, refusals included, unless memory ran out, where
//! it takes memory at all.
//!
//! By design, not proved: the work is linear in the bytes of the texts given, times the active overrides for each part
//! that is looked for among them; `settle` evaluates its text five times at most.
#![tactic(auto)]

mod cut;
mod forms;
mod late;
mod laws;
mod pieces;
mod settling;

pub use forms::{choose, is_counted};
pub use late::apply_ops;
pub use laws::settling_law;
pub use meta_model::{LateLine, is_among};
pub use pieces::active;
pub use settling::{OverrideFault, OverrideText, settle};
pub use var_expand::drop_words;
