//! Hash equivalence: which stored records a store knows, and under which name tasks above refer to each.
//!
//! A task's record has a name, the digest of its signature, and a unihash, under which the tasks above it name it. Where a record
//! of the same PN and task with the same output stood before, the new one takes that record's unihash, so what stands above isn't
//! run again (the Yocto Project Overview and Concepts Manual, "Hash Equivalence").
//!
//! The model: an `Index` is the list of its rows, in the order in which they were added, and `len` and `at` give them in it.
//!
//! Promised: a row, a unihash and the first row of an output are those of the definitions over that list (`store_model`, `Rows`);
//! two rows of one name are never both there; a call that is refused leaves the index as it was. `name_of` gives for a PN and the whole text of a
//! signature the name of a row with this text, so that they needn't be digested again; that it finds one isn't promised, since it looks at
//! the PN's first rows alone.
#![tactic(auto)]

mod copies;
mod equal;
mod index;
mod places;

pub use copies::copy_manifest;
pub use equal::equal_manifests;
pub use index::{EquivFault, Index};
