// Keys that are known.
ghost use Rattle.std.specs.Prelude.{◌≡◌, ◌++◌, ◌∷◌, [], Some, None, OnOk, OnErr, IfErr, List, ℕ, length, option_copied};
ghost use Rattle.sha2.specs.Sha256.{sha256};
ghost use Rattle.record_move.specs.Known.{digest, key_named};
ghost use Rattle.record_move.specs.Faults.{IsKeyFault, IsKeyFaultOf};

use crate::fault::MoveFault;
use indexmap::IndexMap;
use std::alloc::Global;
use std::marker::Model;
use tree_model::{Bytes, Hash, Mem};

/// Keys by their names, which are the digests of their bytes. Contracts see the list of the keys' bytes, in the order in which they were added.
#[derive(Drop)]
pub struct KnownKeys {
    by_name: IndexMap<[u8; 32], Bytes>,
}

impl Model for KnownKeys {
    ghost use Rattle.std.specs.Prelude.{List, ℕ};
    ghost use Rattle.std.specs.Map.{values_of};

    ghost Value = { List (List ℕ) };

    ghost use Rattle.record_move.specs.Known.{AreNamed};

    ghost view = { λ s. values_of s.by_name.entries };

    ghost invariant = { λ s. AreNamed s.by_name.entries };
}

/// A key of a name that another one has.
fn collision(name: Hash, held: &Bytes, given: Bytes) -> MoveFault
    ensures { IsKeyFaultOf name held.now given result }
{
    match held.copy() {
        Ok(held) => MoveFault::KeyCollision { name, held, given },
        Err(_) => MoveFault::Memory,
    }
}

impl KnownKeys {
    /// No key is known. It takes no memory.
    pub fn new(alloc: Global) -> KnownKeys
        ensures { result ≡ [] }
    {
        KnownKeys {
            by_name: IndexMap::new(alloc),
        }
    }

    /// The known key of a name.
    pub fn key(&self, name: &Hash) -> Option<&Bytes>
        ensures { option_copied result ≡ key_named self.now name.now }
    {
        self.by_name.get(&name.bytes)
    }

    /// How many are known.
    pub fn len(&self) -> usize
        ensures { result ≡ length self.now }
    {
        self.by_name.len()
    }

    /// Adds a key, where none of its name is known. A key that is known changes nothing; where a call is refused all is as before.
    pub fn add(&mut self, key: Bytes) -> Result<(), MoveFault>
        ensures added { key_named self.old (digest key) ≡ None → OnOk result (self.new ≡ self.old ++ key ∷ []) }
        ensures known { (held : List ℕ) → key_named self.old (digest key) ≡ Some held
            → OnOk result ((held ≡ key) × (self.new ≡ self.old)) }
        ensures err { IfErr result (IsKeyFault self.old key) }
        ensures same { OnErr result (self.new ≡ self.old) }
    {
        let name = Hash::of(key.as_slice());
        match self.key(&name) {
            Some(held) if *held == key => Ok(()),
            Some(held) => Err(collision(name, held, key)),
            None => Ok(self.put(name, key)?),
        }
    }

    /// Puts a key at the end whose name has none.
    fn put(&mut self, name: Hash, key: Bytes) -> Result<(), Mem>
        requires named { name.bytes ≡ sha256 key }
        requires new { key_named self.old name ≡ None }
        ensures ok { OnOk result (self.new ≡ self.old ++ key ∷ []) }
        ensures err { OnErr result (self.new ≡ self.old) }
    {
        self.by_name.insert(name.bytes, key)?;
        Ok(())
    }
}
