//! What becomes of a valid book of records when lines go from it, as when a store is cleared, or when lines of another valid book come behind it, as
//! from a mirror: definitions and laws, and no code.
//!
//! A book is a list of lines (`store_model`). Lines go by a test of their names, `keep`; they come by the names that stand here for those that they
//! have, `here`: each needed task under the unihash that its line has here. Each law is the contract of a function that does nothing.
//!
//! - *Lines that go* (`specs/Going.antt`): where what a line that stays names stays too, those that stay are a valid book, with their origins and rows,
//!   and so are those that are left at each moment, where lines go from the last to the first (`kept_lines`); a crash in the middle of one removal leaves
//!   the records of all lines or of all but that one (`removed_records`); a plan whose names stay has what was available of it (`kept_availability`).
//!   `marked_lines` says that what `store_keep` keeps is closed so.
//! - *Lines that come* (`Coming`, `Bringing`, `Serving`): one may come behind lines that gave the same as what it needs (`brought_lines`); contents that
//!   don't clash make lines that are alike, or of one name, give the same (`books_agree`); where all came, one after another (`lines_come`), each task
//!   that has a record there has one here (`carried_lines`). Under the names that they had this isn't so: `example_of_a_mirror` works that out.
//!
//! The records are those of the present format; nothing is unfolded of how a signature is named but that different names have different texts.
#![tactic(auto)]

mod examples;
mod laws;

pub use examples::example_of_a_mirror;
pub use laws::{
    books_agree, brought_lines, carried_lines, kept_availability, kept_lines, lines_come,
    marked_lines, removed_records,
};
