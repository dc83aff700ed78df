// A disk in memory.
ghost use Rattle.std.specs.Prelude.{◌≡◌, ◌≤◌, IfOk, IfErr};
ghost use Rattle.tree_model.specs.Tree.{IsTree, entry_at};
ghost use Rattle.tree_model.specs.Refusal.{IsRefusal};
ghost use Rattle.outside_traits.specs.Story.{IsFresh, IsImage, IsSound};
ghost use Rattle.outside_mem.specs.Kept.{IsDamaged, IsPicked, story_by, touched_since};

use crate::kept::{
    copy_of, keep_ended, keep_failed_move, keep_failed_put, keep_look, keep_move, keep_put,
    keep_removal, keep_sync,
};
use crate::leavings::{damage, touched_paths};
use outside_traits::{Call, Disk, DiskFault};
use std::alloc::Global;
use tree_model::{Entry, Mem, Text, Texts, Tree, TreeFault};

/// A disk that holds its entries in memory. It never fails, and a call is refused for want of memory alone. It keeps
/// each call that it answered, with what the call's paths held before, and so tells what a crash may leave at any moment.
#[derive(Drop)]
pub struct MemDisk {
    alloc: Global,
    tree: Tree,

    /// The calls, in the order in which they were made.
    calls: Vec<Call>,
    ghost sound: { IsSound (story_by tree calls.items) },
}

impl MemDisk {
    ghost use Rattle.outside_mem.specs.Told.{story_of, tree_of};

    /// A fresh disk that holds these entries, by their paths. It has no faults. Refused is what is no tree, as by
    /// `Tree::from_entries`.
    pub fn new(alloc: Global, held: Vec<(Text, Entry)>) -> Result<MemDisk, TreeFault>
        ensures held { IfOk result (λ disk. (story_of disk).held ≡ entry_at held.items) }
        ensures fresh { IfOk result (λ disk. IsFresh (story_of disk)) }
        ensures refused { IfErr result (λ fault. IsRefusal held.items fault) }
    {
        Ok(MemDisk {
            alloc,
            tree: Tree::from_entries(held)?,
            calls: Vec::new(alloc),
        })
    }

    /// All that is held, in the order of the paths' bytes.
    pub fn held(&self) -> &[(Text, Entry)]
        ensures held { (story_of self.now).held ≡ entry_at result.now }
        ensures tree { IsTree result.now }
    {
        self.tree.entries()
    }

    /// A fresh disk that holds what a crash now may leave. The number picks one of all that may be left: with 0 the
    /// paths that were written since the newest moment that is durable, or since a rename behind it, are as they are held,
    /// with 1 they are gone, and with 2 their files are cut in the middle. Of a greater number the two bits from the path's
    /// number on pick that for each such path: 1 and 2 as above, 0 and 3 leave it as it is held.
    pub fn image(&self, pick: u64) -> Result<MemDisk, Mem>
        ensures image { IfOk result (λ disk. IsImage (story_of self.now) (story_of disk).held) }
        ensures damaged { IfOk result (λ disk. IsDamaged (touched_since (story_of self.now)) (story_of self.now).held
            (story_of disk).held) }
        ensures picked { IfOk result (λ disk. IsPicked pick (touched_since (story_of self.now)) (story_of self.now).held
            (story_of disk).held) }
        ensures fresh { IfOk result (λ disk. IsFresh (story_of disk)) }
    {
        let touched = touched_paths(self.alloc, self.calls.as_slice())?;
        let mut tree = self.tree.copy()?;
        damage(self.alloc, &mut tree, touched.as_slice(), pick)?;
        Ok(MemDisk {
            alloc: self.alloc,
            tree,
            calls: Vec::new(self.alloc),
        })
    }
}

// Calls that failed and changed nothing. They are kept as calls that were made.
impl MemDisk {
    ghost use Rattle.std.specs.Prelude.{OnOk, OnErr};
    ghost use Rattle.outside_traits.specs.Story.{looked, put_at, moved};
    ghost use Rattle.outside_mem.specs.Told.{story_of};

    /// Keeps a read, a list, a sync or the end of a ticket that failed.
    pub(crate) fn note_look(&mut self) -> Result<(), Mem>
        ensures ok { OnOk result (story_of self.new ≡ looked (story_of self.old)) }
        ensures err { OnErr result (story_of self.new ≡ story_of self.old) }
    {
        keep_look(&self.tree, &mut self.calls)
    }

    /// Keeps a write or a removal that failed.
    pub(crate) fn note_put(&mut self, path: &str) -> Result<(), Mem>
        ensures ok { OnOk result (story_of self.new ≡ put_at path.now ((story_of self.old).held path.now)
            (story_of self.old)) }
        ensures err { OnErr result (story_of self.new ≡ story_of self.old) }
    {
        keep_failed_put(self.alloc, &self.tree, &mut self.calls, path)
    }

    /// Keeps a rename that failed.
    pub(crate) fn note_move(&mut self, from: &str, to: &str) -> Result<(), Mem>
        ensures ok { OnOk result (story_of self.new ≡ moved from.now to.now ((story_of self.old).held from.now)
            ((story_of self.old).held to.now) (story_of self.old)) }
        ensures err { OnErr result (story_of self.new ≡ story_of self.old) }
    {
        keep_failed_move(self.alloc, &self.tree, &mut self.calls, from, to)
    }
}

impl Disk for MemDisk {
    ghost use Rattle.outside_mem.specs.Told.{story_of};

    ghost tells = { Unit {0} };

    ghost reach = { 4096 };

    ghost faults = { λ d. 0 };

    ghost story = { story_of };

    ghost sound = { λ d told. d.sound };

    fn read(&mut self, alloc: Global, path: &str) -> Result<Option<Entry>, DiskFault> {
        let found = copy_of(&self.tree, path)?;
        keep_look(&self.tree, &mut self.calls)?;
        Ok(found)
    }

    fn write(&mut self, path: &str, entry: &Entry) -> Result<(), DiskFault> {
        let copy = entry.copy()?;
        Ok(keep_put(self.alloc, &mut self.tree, &mut self.calls, path, copy)?)
    }

    fn rename(&mut self, from: &str, to: &str) -> Result<(), DiskFault> {
        Ok(keep_move(self.alloc, &mut self.tree, &mut self.calls, from, to)?)
    }

    fn remove(&mut self, path: &str) -> Result<(), DiskFault> {
        Ok(keep_removal(self.alloc, &mut self.tree, &mut self.calls, path)?)
    }

    fn list(&mut self, alloc: Global, prefix: &str) -> Result<Texts, DiskFault> {
        let found = self.tree.listing(alloc, prefix)?;
        keep_look(&self.tree, &mut self.calls)?;
        Ok(found)
    }

    fn sync(&mut self) -> Result<(), DiskFault> {
        Ok(keep_sync(&self.tree, &mut self.calls)?)
    }

    fn end_sync(&mut self, moment: u64, _done: bool) -> Result<(), DiskFault> {
        Ok(keep_ended(&self.tree, &mut self.calls, moment)?)
    }

    fn moment(&self) -> u64 {
        self.calls.len() as u64
    }
}
