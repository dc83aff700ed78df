// Trees of files and links.
ghost use Rattle.std.specs.Prelude.{◌≡◌, ◌↔◌, [], IfErr, IfOk, IsTrue, IsPermutation, OnErr, OnOk, None, Some};
ghost use Rattle.std.specs.Option.{option_copied};
ghost use Rattle.tree_model.specs.Folder.{IsPick, IsRenameRefusal, placed, renamed};
ghost use Rattle.tree_model.specs.Overlay.{IsOverlay};
ghost use Rattle.tree_model.specs.Path.{IsClean};
ghost use Rattle.tree_model.specs.Refusal.{IsBadPath, IsRefusal};
ghost use Rattle.tree_model.specs.Size.{Exceeds, size_of};
ghost use Rattle.tree_model.specs.Tree.{HasRoom, IsListing, IsTree, entry_at, put};

use crate::edit::{copies, listing_of, put_entry, take_entry};
use crate::entry::Entry;
use crate::folder::{entries_inside, entries_under};
use crate::list::Texts;
use crate::order::{bad_place, place_of};
use crate::overlay::overlay_entries;
use crate::text::{Mem, Text};
use std::alloc::{AllocError, AllocFailed, Global};
use std::marker::Model;

/// How large a tree is.
#[derive(Clone, Copy, Debug, PartialEq, Eq)]
pub struct Size {
    /// The number of entries.
    pub entries: u64,
    /// The greatest length of one entry, in bytes. A link's length is that of its target's text.
    pub largest: u64,
    /// The sum of all lengths, in bytes, or 2^64 - 1 where that is greater.
    pub bytes: u64,
}

impl Size {
    /// Whether none of the three numbers is above that of `max`.
    pub fn is_within(&self, max: &Size) -> bool
        ensures within { IsTrue result → Exceeds self.now max.now → ⊥ }
        ensures beyond { (Exceeds self.now max.now → ⊥) → IsTrue result }
    {
        self.entries <= max.entries && self.largest <= max.largest && self.bytes <= max.bytes
    }
}

/// Why a tree was not made.
#[derive(Debug, Drop)]
pub enum TreeFault {
    /// Memory was wanting.
    Memory,
    /// This path isn't clean, stands twice or is a proper ancestor of another.
    BadPath { path: Text },
}

impl From<Mem> for TreeFault {
    ghost use Rattle.std.specs.Prelude.{◌≡◌};
    ghost use Rattle.tree_model.specs.declared.tree.TreeFault.TheVariants.{Memory};

    ghost from_gives = { λ _ fault. fault ≡ Memory };

    fn from(_: Mem) -> Self {
        TreeFault::Memory
    }
}

impl From<AllocError> for TreeFault {
    ghost use Rattle.std.specs.Prelude.{◌≡◌};
    ghost use Rattle.tree_model.specs.declared.tree.TreeFault.TheVariants.{Memory};

    ghost from_gives = { λ _ fault. fault ≡ Memory };

    fn from(_: AllocError) -> Self {
        TreeFault::Memory
    }
}

impl<T: Drop> From<AllocFailed<T>> for TreeFault {
    ghost use Rattle.std.specs.Prelude.{◌≡◌};
    ghost use Rattle.tree_model.specs.declared.tree.TreeFault.TheVariants.{Memory};

    ghost from_gives = { λ _ fault. fault ≡ Memory };

    fn from(_: AllocFailed<T>) -> Self {
        TreeFault::Memory
    }
}

/// A tree of files and links: entries by clean paths, of which none is a proper ancestor of another.
/// Contracts see the list of paths and entries, which ascends strictly by the paths' bytes.
#[derive(Debug, Drop)]
pub struct Tree {
    entries: Vec<(Text, Entry)>,
}

impl Model for Tree {
    ghost use Rattle.std.specs.Prelude.{List, ℕ};
    ghost use Rattle.tree_model.specs.declared.entry.Entry.{Entry};

    ghost Value = { List (List ℕ × Entry) };

    ghost use Rattle.tree_model.specs.Tree.{IsTree};

    ghost view = { λ t. t.entries.items };

    ghost invariant = { λ t. IsTree t.entries.items };
}

impl Tree {
    /// The tree without entries.
    pub fn empty(alloc: Global) -> Tree
        ensures { result ≡ [] }
    {
        Tree {
            entries: Vec::new(alloc),
        }
    }

    /// The tree of these entries, which may stand in any order.
    ///
    /// `BadPath` comes exactly where the entries are no tree: a path isn't clean, stands twice or is a proper
    /// ancestor of another. It carries the first such path in the order of bytes.
    pub fn from_entries(list: Vec<(Text, Entry)>) -> Result<Tree, TreeFault>
        ensures entries { IfOk result (λ tree. IsPermutation list.items tree) }
        ensures tree { IfOk result (λ tree. IsTree tree) }
        ensures refused { IfErr result (λ fault. IsRefusal list.items fault) }
    {
        let mut entries = list;
        entries.sort_by(|a, b| a.0.as_str().cmp(b.0.as_str()))?;
        match bad_place(&entries) {
            Some(place) => Err(TreeFault::BadPath {
                path: entries.swap_remove(place).0,
            }),
            None => Ok(Tree { entries }),
        }
    }

    /// The number of entries, the greatest length of one entry, and the sum of all lengths, or 2^64 - 1
    /// where that is greater.
    pub fn size(&self) -> Size
        ensures { result ≡ size_of self.now }
    {
        size_of_entries(&self.entries)
    }

    /// The paths and entries, ascending by the paths' bytes.
    pub fn entries(&self) -> &[(Text, Entry)]
        ensures value { result.now ≡ self.now }
        ensures tree { IsTree self.now }
    {
        self.entries.as_slice()
    }

    /// What the path holds.
    pub fn get(&self, path: &str) -> Option<&Entry>
        ensures { option_copied result ≡ entry_at self.now path.now }
    {
        match place_of(&self.entries, path) {
            Ok(place) => Some(&self.entries[place].1),
            Err(_) => None,
        }
    }

    /// The same tree again.
    pub fn copy(&self) -> Result<Tree, Mem>
        ensures { IfOk result (λ tree. tree ≡ self.now) }
    {
        Ok(Tree {
            entries: copies(*self.entries.allocator(), &self.entries)?,
        })
    }

    /// Puts an entry at the path, in place of what the path holds. Nothing of the tree may lie above the path
    /// or below it. Where memory is wanting the tree stays as it was.
    pub fn put(&mut self, alloc: Global, path: &str, entry: Entry) -> Result<(), Mem>
        requires clean { IsClean path.now }
        requires room { HasRoom (entry_at self.old) path.now }
        ensures ok { OnOk result (entry_at self.new ≡ put (entry_at self.old) path.now (Some entry)) }
        ensures err { OnErr result (self.new ≡ self.old) }
    {
        put_entry(&mut self.entries, alloc, path, entry)
    }

    /// Takes out what the path holds.
    pub fn take(&mut self, path: &str) -> Option<Entry>
        ensures taken { result ≡ entry_at self.old path.now }
        ensures rest { entry_at self.new ≡ put (entry_at self.old) path.now None }
    {
        take_entry(&mut self.entries, path)
    }

    /// Lays a later tree over this one: its entries win, and remove those above and below them. Where memory is
    /// wanting the tree stays as it was. The entries of the later tree are copied, this one's are moved.
    pub fn overlay(&mut self, alloc: Global, later: &Tree) -> Result<(), Mem>
        ensures ok { OnOk result (IsOverlay self.old later.now self.new) }
        ensures err { OnErr result (self.new ≡ self.old) }
    {
        overlay_entries(&mut self.entries, alloc, later)
    }

    /// What the tree holds under the folder, without the folder's name; `.` picks the whole tree.
    pub fn pick(&self, alloc: Global, folder: &str) -> Result<Tree, Mem>
        ensures { IfOk result (λ tree. IsPick folder.now self.now tree) }
    {
        if folder == "." {
            return self.copy();
        }
        Ok(Tree {
            entries: entries_under(alloc, &self.entries, folder)?,
        })
    }

    /// The tree with the folder's name in front of its paths; `.` changes nothing.
    ///
    /// `BadPath` comes exactly where one of the new paths would not be clean. It carries the first such path.
    pub fn place(&self, alloc: Global, folder: &str) -> Result<Tree, TreeFault>
        ensures entries { IfOk result (λ tree. tree ≡ renamed (placed folder.now) self.now) }
        ensures tree { IfOk result (λ tree. IsTree tree) }
        ensures refused { IfErr result (λ fault. IsRenameRefusal (placed folder.now) self.now fault) }
    {
        if folder == "." {
            return Ok(self.copy()?);
        }
        Ok(Tree {
            entries: entries_inside(alloc, &self.entries, folder)?,
        })
    }

    /// The paths that begin with the prefix, byte for byte, in ascending order. A prefix may end in the middle
    /// of a part; the empty one lists all paths.
    pub fn listing(&self, alloc: Global, prefix: &str) -> Result<Texts, Mem>
        ensures { IfOk result (λ paths. IsListing prefix.now (entry_at self.now) paths) }
    {
        listing_of(alloc, &self.entries, prefix)
    }
}

fn size_of_entries(entries: &[(Text, Entry)]) -> Size
    ensures { result ≡ size_of entries.now }
{
    let mut largest = 0;
    let mut bytes: u64 = 0;
    for (_, entry) in entries {
        let length = entry.len() as u64;
        largest = length.max(largest);
        bytes = bytes.saturating_add(length);
    }
    Size {
        entries: entries.len() as u64,
        largest,
        bytes,
    }
}
