// What a move makes of records.

use store_model::StoredSig;
use tree_model::Hash;

/// A record that is to be moved, of whichever format: it is believed there.
#[derive(Debug, Drop)]
pub struct OldRecord {
    /// The name that it has in its format.
    pub name: Hash,
    /// What is stored under it.
    pub stored: StoredSig,
}

/// A record that is moved, and the one that stands for it.
#[derive(Clone, Copy, Debug)]
pub struct MovedRecord {
    /// The name that it had: that of its file, and what its stamp says.
    pub old_name: Hash,
    /// The unihash that it had: that of its object.
    pub old_unihash: Hash,
    /// The name of the record that stands for it.
    pub name: Hash,
    /// The unihash of that one, under which its object belongs.
    pub unihash: Hash,
}

/// A record that a move adds.
#[derive(Debug, Drop)]
pub struct AddedRecord {
    /// Its name.
    pub name: Hash,
    /// What is stored under it.
    pub stored: StoredSig,
    /// The round in which it is put, from 0 on: those that it names were put in earlier rounds, or stood before.
    pub round: usize,
}
