// Which records of another store are wanted.
ghost use Rattle.std.specs.Prelude.{◌≡◌, ◌||◌, IfOk, OnOk, List, length, ◌∷◌, if◌then◌else◌};
ghost use Rattle.std.specs.List.{list_any};
ghost use Rattle.std.specs.Option.{is_some};
ghost use Rattle.tree_model.specs.declared.hash.Hash.{Hash as AHash};
ghost use Rattle.record_move.specs.declared.records.OldRecord.{OldRecord as AnOldRecord};
ghost use Rattle.store_model.specs.declared.signature.DepLine.{DepLine as Dep};
ghost use Rattle.store_model.specs.Rows.{hash_eq};
ghost use Rattle.record_move.specs.Named.{value_at};
ghost use Rattle.record_move.specs.Wanted.{IsWanting, is_named, names, wanted_of};

use crate::records::OldRecord;
use crate::renaming::{put_first, value_of};
use indexmap::IndexMap;
use std::alloc::Global;
use store_model::{DepLine, StoredSig};
use tree_model::{Hash, Mem};

/// Notes the names of needed tasks.
fn note_deps(noted: &mut IndexMap<[u8; 32], bool>, deps: &[DepLine]) -> Result<(), Mem>
    ensures { OnOk result ((q : AHash) → is_some (value_at noted.new.entries q)
        ≡ (is_some (value_at noted.old.entries q) || list_any (λ (dep : Dep). hash_eq dep.name q) deps.now)) }
{
    for dep in deps {
        put_first(noted, &dep.name, true)?;
    }
    Ok(())
}

/// Notes the names that a record has.
pub fn note_names(noted: &mut IndexMap<[u8; 32], bool>, stored: &StoredSig) -> Result<(), Mem>
    ensures { OnOk result ((q : AHash) → is_some (value_at noted.new.entries q)
        ≡ (is_some (value_at noted.old.entries q) || names q stored.now)) }
{
    note_deps(noted, stored.sig.deps.as_slice())?;
    put_first(noted, &stored.unihash, true)
}

/// The wanted ones, from the last to the first, and the names that they have.
#[derive(Drop)]
struct Wanting {
    found: Vec<OldRecord>,
    noted: IndexMap<[u8; 32], bool>,
}

/// Whether a record is asked for, or its name is noted.
fn is_wanted(noted: &IndexMap<[u8; 32], bool>, name: &Hash, asked: bool) -> bool
    ensures { result ≡ (asked || is_some (value_at noted.now.entries name.now)) }
{
    asked || value_of(noted, name).is_some()
}

/// Takes a record where it is asked for, or named.
fn take(wanting: &mut Wanting, old: OldRecord, asked: bool) -> Result<(), Mem>
    ensures { OnOk result ((records : List AnOldRecord) → IsWanting records wanting.old
        → IsWanting (if asked || is_named old.name records then old ∷ records else records) wanting.new) }
{
    let is_taken = is_wanted(&wanting.noted, &old.name, asked);
    if !is_taken {
        return Ok(());
    }
    note_names(&mut wanting.noted, &old.stored)?;
    wanting.found.push(old)?;
    Ok(())
}

/// The records that are wanted of another store, in their order: those that are asked for, and those that wanted ones name, as needed tasks or by
/// their unihash. `asked` says of each record whether it is asked for. Each record stands behind those that it names, so one pass from the last to the
/// first finds them all.
pub fn wanted(alloc: Global, olds: Vec<OldRecord>, asked: &[bool]) -> Result<Vec<OldRecord>, Mem>
    requires { length asked.now ≡ length olds.items }
    ensures { IfOk result (λ made. made.items ≡ wanted_of asked.now olds.items) }
{
    let mut left = olds;
    let mut wanting = Wanting {
        found: Vec::new(alloc),
        noted: IndexMap::new(alloc),
    };
    while let Some(old) = left.pop() {
        let is_asked = asked[left.len()];
        take(&mut wanting, old, is_asked)?;
    }
    let mut found = wanting.found;
    found.reverse();
    Ok(found)
}
