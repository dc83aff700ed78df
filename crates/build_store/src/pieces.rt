// Publications that are put in pieces.
ghost use Rattle.std.specs.Prelude.{◌≡◌, ◌<◌, ◌^◌, IfOk, length, slice_index_or, option_copied};
ghost use Rattle.tree_model.specs.Path.{inside};
ghost use Rattle.build_store.specs.Items.{Item, makes, path_of as path_by};
ghost use Rattle.build_store.specs.OpenOnes.{items_of, shared_writings};

use crate::drafting::NewRecord;
use sstate_objects::object_folder;
use std::alloc::Global;
use store_model::SigText;
use store_opening::work_at;
use tree_model::{Entry, Hash, Mem, Text, Texts, Tree};

/// How far an open publication is. A number is the moment of its last ticket.
#[derive(Clone, Copy)]
pub(crate) enum Reached {
    /// Its stamp was put aside, and nothing else is changed. A wait is to be asked for.
    Aside(u64),
    /// The same, and one was asked for.
    Taken(u64),
    /// Of its items so many are done.
    Working(usize),
    /// All is written, and record and stamp are staged.
    Staged(u64),
    /// The same, where the record stands in its place already.
    Kept(u64),
    /// The record is renamed.
    Stored(u64),
    /// The stamp is renamed.
    Stamped(u64),
}

/// An open publication: what it puts, and how far it is. No entry of the tree is copied.
#[derive(Drop)]
pub(crate) struct OpenPublication {
    /// The task's folder.
    pub(crate) folder: Text,
    /// The name of its record.
    pub(crate) name: Hash,
    /// The whole text of its signature.
    pub(crate) sig: SigText,
    /// What the task gave.
    pub(crate) tree: Tree,
    /// The task's unihash.
    pub(crate) unihash: Hash,
    /// The unihash of the object, if one is written.
    pub(crate) object: Option<Hash>,
    /// The record's file and its row, where none is stored.
    pub(crate) new: Option<NewRecord>,
    /// Which paths are removed first.
    pub(crate) extra: Texts,
    /// How far it is.
    pub(crate) reached: Reached,
}

/// The path of a place in a folder.
pub(crate) fn place_in(alloc: Global, folder: &str, path: &str) -> Result<Text, Mem>
    ensures { IfOk result (λ whole. whole ≡ inside folder.now path.now) }
{
    let mut whole = Text::from_str(alloc, folder)?;
    whole.push_str("/")?;
    whole.push_str(path)?;
    Ok(whole)
}

/// How many items a publication has.
pub(crate) fn count_items(one: &OpenPublication) -> usize
    requires { length (items_of one.now) < 2 ^ 64 }
    ensures { result ≡ length (items_of one.now) }
{
    let entries = one.tree.entries().len();
    let shared = if one.object.is_some() { entries } else { 0 };
    one.extra.len() + (entries + shared)
}

/// The entry that an item writes; none where it removes.
pub(crate) fn entry_of(one: &OpenPublication, item: usize) -> Option<&Entry>
    requires { item < length (items_of one.now) }
    ensures { (d : Item) → option_copied result ≡ makes (slice_index_or (items_of one.now) item d) }
{
    let removed = one.extra.len();
    if item < removed {
        return None;
    }
    let entries = one.tree.entries();
    let place = item - removed;
    if place < entries.len() {
        return Some(&entries[place].1);
    }
    Some(&entries[place - entries.len()].1)
}

/// The path of an item in the object.
fn shared_path(alloc: Global, one: &OpenPublication, place: usize) -> Result<Text, Mem>
    requires { place < length (shared_writings one.now.object one.now.tree) }
    ensures { IfOk result (λ path. (d : Item) → path ≡ path_by (slice_index_or (shared_writings one.now.object one.now.tree) place d)) }
{
    match &one.object {
        Some(unihash) => {
            let folder = object_folder(alloc, unihash)?;
            let entries = one.tree.entries();
            place_in(alloc, folder.as_str(), entries[place].0.as_str())
        }
        None => unreachable!(),
    }
}

/// The path of an item.
pub(crate) fn path_of_item(alloc: Global, one: &OpenPublication, item: usize) -> Result<Text, Mem>
    requires { item < length (items_of one.now) }
    ensures { IfOk result (λ path. (d : Item) → path ≡ path_by (slice_index_or (items_of one.now) item d)) }
{
    let extra = one.extra.as_slice();
    if item < extra.len() {
        return extra[item].copy();
    }
    let entries = one.tree.entries();
    let place = item - extra.len();
    if place < entries.len() {
        let folder = work_at(alloc, one.folder.as_str())?;
        return place_in(alloc, folder.as_str(), entries[place].0.as_str());
    }
    shared_path(alloc, one, place - entries.len())
}
