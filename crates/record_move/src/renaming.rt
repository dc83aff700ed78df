// Needed tasks by the names that stand for those that they have.
ghost use Rattle.std.specs.Prelude.{◌≡◌, IfOk, OnOk, map};
ghost use Rattle.store_model.specs.Rows.{hash_or};
ghost use Rattle.record_move.specs.Named.{PutsFirst, dep_by, sig_by, value_at};

use indexmap::IndexMap;
use std::alloc::Global;
use store_model::{DepLine, SigRecord};
use tree_model::{Hash, ListOf, Mem};

/// The value of a name.
pub(crate) fn value_of<V: Copy>(map: &IndexMap<[u8; 32], V>, name: &Hash) -> Option<V>
    ensures { result ≡ value_at map.now.entries name.now }
{
    match map.get(&name.bytes) {
        Some(value) => Some(*value),
        None => None,
    }
}

/// Puts a value under a name, where it has none.
pub(crate) fn put_first<V: Copy>(
    map: &mut IndexMap<[u8; 32], V>,
    name: &Hash,
    value: V,
) -> Result<(), Mem>
    ensures { OnOk result (PutsFirst map.old.entries map.new.entries name.now value) }
{
    if map.contains_key(&name.bytes) {
        return Ok(());
    }
    map.insert(name.bytes, value)?;
    Ok(())
}

/// The name that stands for a name; itself where there is none.
fn renamed(names: &IndexMap<[u8; 32], Hash>, name: &Hash) -> Hash
    ensures { result ≡ hash_or name.now (value_at names.now.entries name.now) }
{
    match value_of(names, name) {
        Some(other) => other,
        None => *name,
    }
}

fn renamed_dep(names: &IndexMap<[u8; 32], Hash>, dep: &DepLine) -> Result<DepLine, Mem>
    ensures { IfOk result (λ made. made ≡ dep_by names.now.entries dep.now) }
{
    Ok(DepLine {
        pn: dep.pn.copy()?,
        task: dep.task.copy()?,
        name: renamed(names, &dep.name),
    })
}

fn renamed_deps(
    alloc: Global,
    names: &IndexMap<[u8; 32], Hash>,
    deps: &[DepLine],
) -> Result<Vec<DepLine>, Mem>
    ensures { IfOk result (λ made. made.items ≡ map (dep_by names.now.entries) deps.now) }
{
    let mut made = Vec::with_capacity(alloc, deps.len())?;
    for dep in deps {
        made.push(renamed_dep(names, dep)?)?;
    }
    Ok(made)
}

/// The signature whose needed tasks have the names that stand for theirs.
pub(crate) fn renamed_sig(
    alloc: Global,
    names: &IndexMap<[u8; 32], Hash>,
    sig: SigRecord,
) -> Result<SigRecord, Mem>
    ensures { IfOk result (λ made. made ≡ sig_by names.now.entries sig) }
{
    let deps = renamed_deps(alloc, names, sig.deps.as_slice())?;
    let SigRecord {
        pn,
        task,
        key,
        files,
        deps: _,
    } = sig;
    Ok(SigRecord {
        pn,
        task,
        key,
        files,
        deps: ListOf::from_vec(deps),
    })
}
