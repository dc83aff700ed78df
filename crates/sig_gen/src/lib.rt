//! Signatures: what decides a task's output, from a plan, and as bytes.
//!
//! A key, a signature and a stored record (`store_model`) are seen as the values of their fields; their bytes as a list. What a value's
//! bytes are says `store_model` (`Spelling`), and so it does which values have bytes that are read again (`Sound`, `Stored`): texts
//! are UTF-8, lists ascend strictly, and the paths of a manifest are those of a tree.
//!
//! - `sig_of` gives the signature of a task of a plan, by the unihashes of all its tasks; `encode_sig_of` gives the whole text of the same
//!   signature, without making it.
//! - `decode`, `decode_key`, `decode_stored` and `decode_first` answer a value exactly where all of the bytes are its one spelling;
//!   everything else is `BadRecord`. A stored record is read with the bytes of its key, or by its key's name alone
//!   (`decode_short_stored`); `decode_first` reads the first format, which nothing writes. They read once, from left to right, and a length or a count beyond the bytes that are left ends the reading
//!   before anything is taken, so no number that was read makes them take room.
//! - `encode`, `encode_key`, `encode_stored` and `encode_manifest` write into growing buffers. What was written is read again where the
//!   lists ascend; that texts are UTF-8 and lengths fit is so for every value that a program holds.
//! - The manifest of a tree is in order, and what is in order has the paths of a tree (`trees_are_in_order`).
//!
//! - `name_by` gives the name of a signature by its whole text, and `signature_in` finds the short text among the bytes of a stored record.
//!
//! Want of memory is the one free answer. That reading and writing take linear time is measured (`record_bench`), not proved.
#![tactic(auto)]

mod copies;
mod fault;
mod first;
mod laws;
mod laying;
mod list;
mod manifest;
mod naming;
mod needs;
mod netstring;
mod parts;
mod record;
mod signing;
mod writing;

pub use fault::SigFault;
pub use first::decode_first;
pub use laws::trees_are_in_order;
pub use naming::{name_by, signature_in};
pub use record::{decode, decode_key, decode_short_stored, decode_stored, short_is_whole};
pub use signing::{encode_sig_of, sig_of};
pub use writing::{encode, encode_key, encode_manifest, encode_short_stored, encode_stored};
