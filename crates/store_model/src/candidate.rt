// Records that are found in a store.

use crate::sig_text::SigText;
use crate::signature::ShortStored;
use tree_model::Hash;

/// A record that is found in a store, under its name.
#[derive(Drop)]
pub struct Candidate {
    /// The name of its file, which is the digest of its signature's short text.
    pub name: Hash,
    /// What is read there.
    pub stored: ShortStored,
    /// The whole text of its signature, with the key that is held under its digest.
    pub sig: SigText,
}
