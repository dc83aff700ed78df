// Stamps that name records that go.
ghost use Rattle.std.specs.Prelude.{◌≡◌, ◌<◌, ◌≤◌, ◌⊎◌, ◌++◌, ◌∷◌, [], Contains, IfNone, IfOk, IfSome, IsTrue, List, MatchBool, None, OnOk, codes, length, ℕ};
ghost use Rattle.tree_model.specs.declared.hash.Hash.{Hash as AHash};
ghost use Rattle.tree_model.specs.Hash.{IsHash, hash_text};
ghost use Rattle.hex.specs.Hex.{IsBytes};
ghost use Rattle.outside_traits.specs.Fault.{Counts, disk_failed};
ghost use Rattle.outside_traits.specs.Passes.{EachNow, Passes, Same};
ghost use Rattle.outside_traits.specs.Store.{IsFree};
ghost use Rattle.stamp_store.specs.Stamp.{stamp_bytes, stamp_of};
ghost use Rattle.store_opening.specs.Survey.{AreUnder, HeldFile};
ghost use Rattle.store_clean.specs.Cleared.{gone_path};
ghost use Rattle.store_clean.specs.Steps.{AreGoneStamps, HoldsGoneStamp, IsGone, IsGoneStamp, IsPlaceTable, Notes, TakesAway, node_names};

use crate::deciding::Chosen;
use crate::nodes::Node;
use crate::places::place_of;
use crate::taking::take_away;
use indexmap::IndexMap;
use outside_traits::{Disk, DiskFault};
use std::alloc::Global;
use std::str;
use store_opening::read_under;
use tree_model::{Entry, Hash, Mem, Text};

/// A digest that is held has 32 bytes.
pub(crate) fn known(bytes: [u8; 32])
    ensures size { length bytes ≡ 32 }
    ensures bytes { IsBytes bytes }
{}

/// The hash with this text.
pub(crate) fn name_of(text: &str) -> Option<Hash>
    ensures some { IfSome result (λ name. IsHash name × (text.now ≡ hash_text name)) }
    ensures none { IfNone result ((name : AHash) → IsHash name → text.now ≡ hash_text name → ⊥) }
{
    match Hash::read(text) {
        Some(name) => {
            known(name.bytes);
            Some(name)
        }
        None => None,
    }
}

/// The hash whose digits the bytes are.
pub(crate) fn name_by(digits: &[u8]) -> Option<Hash>
    ensures some { IfSome result (λ name. IsHash name × (digits.now ≡ hash_text name)) }
    ensures none { IfNone result ((name : AHash) → IsHash name → digits.now ≡ hash_text name → ⊥) }
{
    match str::from_utf8(digits) {
        Ok(text) => name_of(text),
        Err(_) => None,
    }
}

/// The hash whose digits the bytes are, with a newline behind them.
fn name_in(bytes: &[u8]) -> Option<Hash>
    ensures some { IfSome result (λ name. IsHash name × (bytes.now ≡ stamp_bytes name)) }
    ensures none { IfNone result ((name : AHash) → IsHash name → bytes.now ≡ stamp_bytes name → ⊥) }
{
    let Some((last, digits)) = bytes.split_last() else {
        return None;
    };
    if *last != b'\n' {
        return None;
    }
    name_by(digits)
}

/// The hash that a file says which is a stamp: 64 lower-case hexadecimal digits and a newline; it can't be executed.
fn stamp_name(entry: &Entry) -> Option<Hash>
    ensures some { IfSome result (λ name. IsHash name × (entry.now ≡ stamp_of name)) }
    ensures none { IfNone result ((name : AHash) → IsHash name → entry.now ≡ stamp_of name → ⊥) }
{
    match entry {
        Entry::File { exec: false, bytes } => name_in(bytes.as_slice()),
        Entry::File {
            exec: true,
            bytes: _,
        } => None,
        Entry::Link { target: _ } => None,
    }
}

/// Whether a place isn't marked.
fn is_gone(marks: &[bool], place: usize) -> bool
    requires { place < length marks.now }
    ensures { MatchBool result (IsGone marks.now place) (IsGone marks.now place → ⊥) }
{
    !marks[place]
}

/// Whether an entry is a stamp that names a record that goes.
fn names_gone(nodes: &[Node], chosen: &Chosen, entry: &Entry) -> bool
    requires table { IsPlaceTable (node_names nodes.now) chosen.now.table.entries }
    requires long { length chosen.now.marks.items ≡ length nodes.now }
    ensures { MatchBool result (IsGoneStamp (node_names nodes.now) chosen.now.marks.items entry.now)
        (IsGoneStamp (node_names nodes.now) chosen.now.marks.items entry.now → ⊥) }
{
    let Some(name) = stamp_name(entry) else {
        return false;
    };
    match place_of(&chosen.table, &name) {
        Some(place) => is_gone(&chosen.marks, place),
        None => false,
    }
}

/// Puts the path of a file to these, if it is such a stamp.
fn note_gone(
    nodes: &[Node],
    chosen: &Chosen,
    file: &(Text, Entry),
    paths: &mut Vec<Text>,
) -> Result<(), Mem>
    requires table { IsPlaceTable (node_names nodes.now) chosen.now.table.entries }
    requires long { length chosen.now.marks.items ≡ length nodes.now }
    ensures { OnOk result (Notes (IsGoneStamp (node_names nodes.now) chosen.now.marks.items file.now.1) file.now.0 paths.old.items paths.new.items) }
{
    if names_gone(nodes, chosen, &file.1) {
        paths.push(file.0.copy()?)?;
        return Ok(());
    }
    Ok(())
}

/// The paths of those of these files that are such stamps.
fn gone_among(
    alloc: Global,
    nodes: &[Node],
    chosen: &Chosen,
    files: &[(Text, Entry)],
) -> Result<Vec<Text>, Mem>
    requires table { IsPlaceTable (node_names nodes.now) chosen.now.table.entries }
    requires long { length chosen.now.marks.items ≡ length nodes.now }
    ensures { IfOk result (λ paths. AreGoneStamps (node_names nodes.now) chosen.now.marks.items files.now paths.items) }
{
    let mut paths = Vec::new(alloc);
    for file in files {
        note_gone(nodes, chosen, file, &mut paths)?;
    }
    Ok(paths)
}

/// Takes the stamps away that name records that go.
pub(crate) fn take_stamps<D: Disk>(
    alloc: Global,
    disk: &mut D,
    nodes: &[Node],
    chosen: &Chosen,
) -> Result<(), DiskFault>
    requires reach { 8 ≤ D.reach }
    requires durable { D.tells → EachNow (D.story disk.old) (λ image. image ≡ (D.story disk.old).held) }
    requires free { D.tells → IsFree (D.story disk.old).held gone_path }
    requires table { IsPlaceTable (node_names nodes.now) chosen.now.table.entries }
    requires long { length chosen.now.marks.items ≡ length nodes.now }
    ensures gone { D.tells → OnOk result ((q : List ℕ)
        → HoldsGoneStamp (node_names nodes.now) chosen.now.marks.items (D.story disk.new).held q → ⊥) }
    ensures durable { D.tells → OnOk result (EachNow (D.story disk.new) (λ image. image ≡ (D.story disk.new).held)) }
    ensures takes { D.tells → Passes (D.story disk.old) (D.story disk.new)
        (TakesAway (HoldsGoneStamp (node_names nodes.now) chosen.now.marks.items (D.story disk.old).held)) }
    ensures cause { Counts (D.faults disk.old) (D.faults disk.new) (disk_failed result) }
{
    let files = read_under(alloc, disk, "stamp/")?;
    let paths = gone_among(alloc, nodes, chosen, &files)?;
    take_away(alloc, disk, &paths)
}
