// The store of a run over a disk.
ghost use Rattle.std.specs.Prelude.{◌≡◌, ◌≢◌, ◌≤◌, ◌-◌, ◌^◌, ◌⊎◌, ℕ, List, [], is_some, min, false, true, IfOk, IfErr, None, Some, OnOk, OnErr, MatchBool, length, IfSome, IsTrue};
ghost use Rattle.std.specs.Bool.{OnFalse, OnTrue};
ghost use Rattle.std.specs.Option.{option_map};
ghost use Rattle.tree_model.specs.Manifest.{manifest_lines};
ghost use Rattle.outside_traits.specs.Fault.{Counts};
ghost use Rattle.outside_traits.specs.Passes.{EachNow, IsBrief, Passes, Same};
ghost use Rattle.outside_traits.specs.Story.{IsFresh, moment as moment_of};
ghost use Rattle.store_model.specs.Available.{IsAvailable, task_folder, work_folder};
ghost use Rattle.store_model.specs.Rows.{row_at, IsClear};
ghost use Rattle.store_model.specs.declared.signature.EquivRow.{EquivRow as ARow};
ghost use Rattle.store_model.specs.Spelled.{IsSpelled};
ghost use Rattle.store_model.specs.Spelling.{name_of, signature_bytes, text_name};
ghost use Rattle.build_store.specs.Keys.{HasNewKey, is_new_key, keys_with};
ghost use Rattle.sig_gen.specs.Sound.{IsNameBy};
ghost use Rattle.build_store.specs.Faults.{IsClash, IsOutside, IsRefusal, OnDifference, OnMemory, store_failed};
ghost use Rattle.build_store.specs.Calls.{HasFreeStamp};
ghost use Rattle.build_store.specs.Finding.{IsAnswered, IsOutput};
ghost use Rattle.build_store.specs.declared.fault.StoreFault.TheVariants as FaultsOf;
ghost use Rattle.std.specs.List.{AllByRecursion};
ghost use Rattle.store_opening.specs.Sound.{IsKept};
ghost use Rattle.store_opening.specs.Opening.{Clears};
ghost use Rattle.store_model.specs.Opened.{HasNoLitter, IsOpened};
ghost use Rattle.build_store.specs.Outcome.{disk_of, open_failed};
ghost use Rattle.store_opening.specs.Paths.{HasPlace};
ghost use Rattle.build_store.specs.Publication.{AreShort, HasNoObject, IsRestored, KeepsCopied, KeepsOthers, Restores, first_publication, line_for, object_for, publication, restoration};
ghost use Rattle.build_store.specs.Restoring.{IsFound, IsFoundIn};
ghost use Rattle.build_store.specs.Openings.{IsOpen, LandsOn, Meets, NoneNamed, OpensRestoring, OpensTask, StepsTo};
ghost use Rattle.build_store.specs.OpenOnes.{KeepsEntries};
ghost use Rattle.build_store.specs.Pieces.{IsPublishing};
ghost use Rattle.meta_model.specs.CleanBuild.{Entries};
ghost use Rattle.store_model.specs.Readable.{HoldsRecords, IsReadable, IsRow};
ghost use Rattle.build_store.specs.View.{IsSignatureOf, IsWanting, NothingOpen, SameBooks, SameRows, opened_at, signed_as, signed_by};

use crate::comparing::compare_at;
use crate::fault::StoreFault;
use crate::finding::{available, output};
use crate::kept::KeptSig;
use crate::keys::keys_of;
use crate::listed::{is_elsewhere, place_of, place_signed};
use crate::pieces::OpenPublication;
use crate::refused::OpenRefused;
use crate::restoring::{FoundObject, found_object, restore};
use crate::step::Step;
use crate::tasks::{open_with_key, prepare, step_at};
use hash_equiv::Index;
use meta_model::{Avail, PlanTask};
use outside_traits::{Disk, DiskFault};
use record_move::KnownKeys;
use std::alloc::Global;
use std::marker::Model;
use store_model::{SigRecord, SigText};
use store_opening::{Ahead, open_disk};
use tree_model::{Hash, Manifest, Tree};

/// What runs of plans left on a disk, with the index of its records. Contracts see the disk, the rows, the known keys, the kept signatures, what is
/// open, and whether no call that changes the disk met a fault.
#[derive(Drop)]
pub struct Store<D: Disk> {
    disk: D,
    index: Index,
    keys: KnownKeys,
    kept: Vec<KeptSig>,
    open_ones: Vec<OpenPublication>,
    faultless: bool,
}

impl<D: Disk> Model for Store<D> {
    ghost use Rattle.std.specs.Prelude.{◌≡◌, true};
    ghost use Rattle.std.specs.List.{AllByRecursion};
    ghost use Rattle.store_model.specs.Readable.{IsRow};
    ghost use Rattle.store_opening.specs.Sound.{IsKept};
    ghost use Rattle.build_store.specs.Keys.{HoldsKeys, KnowsRows};
    ghost use Rattle.build_store.specs.Standing.{AreOn, AreOpen, IsTidy, KnowsOpen};
    ghost use Rattle.build_store.specs.View.{View, view_of};

    ghost Value = { View D };

    ghost view = { λ s. view_of s.disk s.index s.keys s.kept.items s.open_ones.items s.faultless };

    ghost invariant = { λ s. AllByRecursion IsRow s.index × (D.tells → IsKept s.index (D.story s.disk))
        × AreOpen s.index s.open_ones.items × (D.tells → AreOn s.index (D.story s.disk) s.open_ones.items)
        × (D.tells → s.faultless ≡ true → IsTidy s.open_ones.items (D.story s.disk))
        × KnowsRows s.keys s.index × KnowsOpen s.keys s.open_ones.items × (D.tells → HoldsKeys s.keys (D.story s.disk).held) };
}

/// The store of a disk that was opened, with these rows.
fn store_of<D: Disk>(alloc: Global, disk: D, index: Index) -> Result<Store<D>, OpenRefused<D>>
    requires rows { AllByRecursion IsRow index }
    requires keeps { D.tells → IsKept index (D.story disk) }
    requires clean { D.tells → HasNoLitter (D.story disk).held }
    requires durable { D.tells → EachNow (D.story disk) (λ image. image ≡ (D.story disk).held) }
    ensures store { IfOk result (λ store. (store.disk ≡ disk) × (store.rows ≡ index) × (store.kept ≡ [])
        × NothingOpen store.opened × (store.faultless ≡ true)) }
    ensures refused { IfErr result (λ refused. (refused.disk ≡ disk) × (refused.fault ≡ FaultsOf.Memory)) }
{
    match keys_of(alloc, &index) {
        Ok(keys) => Ok(Store {
            disk,
            index,
            keys,
            kept: Vec::new(alloc),
            open_ones: Vec::new(alloc),
            faultless: true,
        }),
        Err(_) => Err(OpenRefused {
            disk,
            fault: StoreFault::Memory,
        }),
    }
}

/// Opens the store that a disk holds, whatever that is.
///
/// Records, stamps and temporary files are cleared up: all under `tmp/` goes, and of what is under `rec2/` and `stamp/` just the believed
/// records and the files that are stamps stay, with nothing held above their work folders. What is held at `obj` itself goes. The rows are
/// those of the believed records, in an order in which what a record names stands before it: by depth, then by name. What is under `work/`
/// and `obj/` is left alone. Then the disk is synced. (Own rule.) What `ahead` knows of just the files that are read spares the work on
/// them, and nothing else.
///
/// Refused only where the disk failed or memory is wanting; the disk is given back then.
pub fn open_store<D: Disk>(
    alloc: Global,
    disk: D,
    ahead: &Ahead,
) -> Result<Store<D>, OpenRefused<D>>
    requires reach { 3600 ≤ D.reach }
    requires fresh { D.tells → IsFresh (D.story disk) }
    ensures opened { D.tells → IfOk result (λ store. IsOpened (D.story disk).held (D.story store.disk).held
        store.rows) }
    ensures durable { D.tells → IfOk result (λ store. EachNow (D.story store.disk)
        (λ image. image ≡ (D.story store.disk).held)) }
    ensures kept { IfOk result (λ store. store.kept ≡ []) }
    ensures nothing { IfOk result (λ store. NothingOpen store.opened) }
    ensures faultless { IfOk result (λ store. store.faultless ≡ true) }
    ensures fault { IfErr result (λ refused. IsOutside refused.fault) }

    // Whatever it answers.
    ensures images { D.tells → Passes (D.story disk) (D.story (disk_of result)) (Clears (D.story disk).held) }
    ensures cause { Counts (D.faults disk) (D.faults (disk_of result)) (open_failed result) }
{
    let mut disk = disk;
    match open_disk(alloc, &mut disk, ahead) {
        Ok(index) => store_of(alloc, disk, index),
        Err(DiskFault::Failed) => Err(OpenRefused {
            disk,
            fault: StoreFault::Disk,
        }),
        Err(DiskFault::Memory) => Err(OpenRefused {
            disk,
            fault: StoreFault::Memory,
        }),
    }
}

impl<D: Disk> Store<D> {
    /// Compares the whole text of a signature with that of the row of its name, if there is one. It looks at the rows alone.
    ///
    /// `Collision` comes exactly where that row has another signature.
    pub fn compare(&self, alloc: Global, name: &Hash, sig: &SigText) -> Result<(), StoreFault>
        requires named { name.now ≡ text_name sig.now }
        ensures clear { OnOk result (IsClear self.now.rows name.now sig.now) }
        ensures refused { IfErr result (IsClash self.now.rows name.now sig.now) }
        ensures inside { store_failed result ≡ false }
    {
        compare_at(alloc, &self.index, name, sig)
    }

    /// Whether the output of a task, which has this signature, is there: in its work folder, else, where shared state objects count, as
    /// an object. A work folder is read only where the stamp names the task's record. Nothing changes. (Own rule.)
    ///
    /// `Collision` comes exactly where the row of the signature's name has another signature.
    pub fn available(
        &mut self,
        alloc: Global,
        task: &PlanTask,
        sig: &SigRecord,
        setscene: bool,
    ) -> Result<Avail, StoreFault>
        ensures found { D.tells → IfOk result (IsAvailable (D.story self.old.disk).held self.old.rows setscene
            (signed_by task.now sig.now)) }
        ensures answered { IfOk result (IsAnswered self.old.rows (signed_by task.now sig.now)) }
        ensures refused { IfErr result (IsClash self.old.rows (name_of sig.now) (signature_bytes sig.now)) }

        // Whatever it answers.
        ensures same { SameBooks self.old self.new }
        ensures images { D.tells → Passes (D.story self.old.disk) (D.story self.new.disk) Same }
        ensures cause { Counts (D.faults self.old.disk) (D.faults self.new.disk) (store_failed result) }
    {
        available(alloc, &mut self.disk, &self.index, task, sig, setscene)
    }

    /// What is held in a task's work folder, or `None` exactly where that is beyond the limits of an output; no path has more than 3,072
    /// bytes. Nothing changes.
    pub fn output(&mut self, alloc: Global, task: &PlanTask) -> Result<Option<Tree>, StoreFault>
        ensures found { D.tells → IfOk result (IsOutput (work_folder task.now) (D.story self.old.disk).held) }
        ensures short { IfOk result (λ found. IfSome found AreShort) }
        ensures refused { IfErr result IsOutside }

        // Whatever it answers.
        ensures same { SameBooks self.old self.new }
        ensures images { D.tells → Passes (D.story self.old.disk) (D.story self.new.disk) Same }
        ensures cause { Counts (D.faults self.old.disk) (D.faults self.new.disk) (store_failed result) }
    {
        match output(alloc, &mut self.disk, task) {
            Ok(found) => Ok(found),
            Err(DiskFault::Failed) => Err(StoreFault::Disk),
            Err(DiskFault::Memory) => Err(StoreFault::Memory),
        }
    }

    /// Whether a publication of the task is open, with whatever signature. No memory.
    pub fn is_open(&self, task: &PlanTask) -> bool
        ensures { result ≡ is_some (opened_at self.now.opened (task_folder task.now)) }
    {
        place_of(self.open_ones.as_slice(), task).is_some()
    }

    /// Whether a publication of the task is open whose record is new and names the output of another one. Behind its end tasks that need it may have other
    /// signatures than before, so that others are needed. It only says what a run had better wait with. No memory.
    pub fn lands_elsewhere(&self, task: &PlanTask) -> bool
        ensures { IsTrue result → IsTrue (is_some (opened_at self.now.opened (task_folder task.now))) }
    {
        self.is_open(task) && is_elsewhere(self.open_ones.as_slice(), task)
    }

    /// Makes a task's work folder exactly what its shared state object holds, and stamps it. `false` exactly where the task's record isn't
    /// stored or its object doesn't match; then nothing changes. No publication of the task may be open.
    ///
    /// `Collision` comes exactly where the row of the signature's name has another signature. After want of memory the stamp may be gone
    /// and the work folder changed. Whatever it answers, no path of the work folder changes at which it holds what the object has there.
    pub fn restore(
        &mut self,
        alloc: Global,
        task: &PlanTask,
        sig: &SigRecord,
    ) -> Result<bool, StoreFault>
        requires reach { 3600 ≤ D.reach }
        requires place { HasPlace task.now }
        requires sig { IsSpelled sig.now }
        requires closed { opened_at self.old.opened (task_folder task.now) ≡ None }
        ensures restored { D.tells → IfOk result (λ found. MatchBool found
            (EachNow (D.story self.new.disk) (IsRestored (D.story self.old.disk).held self.old.rows
            (signed_by task.now sig.now))) (HasNoObject (D.story self.old.disk).held self.old.rows
            (signed_by task.now sig.now))) }
        ensures unchanged { D.tells → IfOk result (λ found. OnFalse found
            (Passes (D.story self.old.disk) (D.story self.new.disk) Same)) }
        ensures clear { OnOk result (IsClear self.old.rows (name_of sig.now) (signature_bytes sig.now)) }
        ensures refused { IfErr result (IsClash self.old.rows (name_of sig.now) (signature_bytes sig.now)) }
        ensures faultless { OnOk result (self.new.faultless ≡ self.old.faultless) }

        // Whatever it answers.
        ensures same { SameRows self.old self.new }
        ensures images { D.tells → Passes (D.story self.old.disk) (D.story self.new.disk)
            (Restores (D.story self.old.disk).held self.old.rows (signed_by task.now sig.now)) }
        ensures others { D.tells → Passes (D.story self.old.disk) (D.story self.new.disk)
            (KeepsOthers (task_folder task.now) None (D.story self.old.disk).held) }
        ensures right { D.tells → (row : ARow) → row_at self.old.rows (name_of sig.now) ≡ Some row
            → Passes (D.story self.old.disk) (D.story self.new.disk)
            (KeepsCopied (task_folder task.now) row.unihash (D.story self.old.disk).held) }
        ensures cause { Counts (D.faults self.old.disk) (D.faults self.new.disk) (store_failed result) }
    {
        match restore(alloc, &mut self.disk, &self.index, task, sig) {
            Ok(found) => Ok(found),
            Err(fault) => {
                self.faultless = false;
                Err(fault)
            }
        }
    }

    /// The object of a task with this signature, with its record's manifest: nothing where the record isn't stored, or the object doesn't match. Nothing
    /// changes.
    fn found_object(
        &mut self,
        alloc: Global,
        task: &PlanTask,
        sig: &SigRecord,
    ) -> Result<Option<FoundObject>, StoreFault>
        ensures of { IfOk result (λ found. IfSome found (IsFound self.old.rows self.old.keys
            (signed_by task.now sig.now))) }
        ensures found { D.tells → IfOk result (IsFoundIn (D.story self.old.disk).held self.old.rows
            (signed_by task.now sig.now)) }
        ensures clear { OnOk result (IsClear self.old.rows (name_of sig.now) (signature_bytes sig.now)) }
        ensures refused { IfErr result (IsClash self.old.rows (name_of sig.now) (signature_bytes sig.now)) }
        ensures same { SameBooks self.old self.new }
        ensures images { D.tells → Passes (D.story self.old.disk) (D.story self.new.disk) Same }
        ensures cause { Counts (D.faults self.old.disk) (D.faults self.new.disk) (store_failed result) }
    {
        found_object(alloc, &mut self.disk, &self.index, task, sig)
    }

    /// Opens the publication of a task's tree, which has this manifest, where an object is written, or not.
    fn open_as(
        &mut self,
        alloc: Global,
        task: &PlanTask,
        sig: &SigRecord,
        shared: bool,
        tree: Tree,
        manifest: &Manifest,
    ) -> Result<bool, StoreFault>
        requires reach { 3600 ≤ D.reach }
        requires place { HasPlace task.now }
        requires sig { IsSpelled sig.now }
        requires named { IsSignatureOf task.now sig.now }
        requires short { AreShort tree }
        requires listed { manifest.now ≡ manifest_lines tree }
        requires closed { opened_at self.old.opened (task_folder task.now) ≡ None }
        ensures opens { IfOk result (λ is_open. OnTrue is_open (OpensTask self.old self.new (signed_as shared task.now sig.now) tree)) }
        ensures busy { IfOk result (λ is_open. OnFalse is_open ((self.new ≡ self.old)
            × Meets self.old.rows self.old.opened (name_of sig.now)
            (object_for self.old.rows (signed_as shared task.now sig.now) tree))) }
        ensures refused { IfErr result (IsRefusal self.old.rows self.old.keys (signed_as shared task.now sig.now) tree) }
        ensures refused_open { OnErr result (self.new.opened ≡ self.old.opened) }
        ensures unchanged { IfErr result (λ fault. OnDifference fault (self.new ≡ self.old)) }
        ensures wanting { IfErr result (λ fault. OnMemory fault
            (IsWanting self.old self.new (signed_as shared task.now sig.now))) }

        // Whatever it answers.
        ensures rows { self.new.rows ≡ self.old.rows }
        ensures keys { (self.new.keys ≡ self.old.keys) ⊎ (self.new.keys ≡ keys_with self.old.keys sig.now) }
        ensures new_key { is_new_key self.old.keys sig.now ≡ true → HasNewKey self.old.rows self.old.opened sig.now }
        ensures apart { (self.new ≡ self.old) ⊎ NoneNamed self.old.opened (name_of sig.now) }
        ensures publishing { D.tells → Passes (D.story self.old.disk) (D.story self.new.disk)
            (IsPublishing (first_publication self.old.keys self.old.rows (signed_as shared task.now sig.now) tree)
            (D.story self.old.disk).held) }
        ensures readable { IsReadable (line_for self.old.rows (signed_as shared task.now sig.now) tree)
            ⊎ (self.new.disk ≡ self.old.disk) }
        ensures brief { D.tells → IsBrief 16 (D.story self.old.disk) (D.story self.new.disk) }
        ensures cause { Counts (D.faults self.old.disk) (D.faults self.new.disk) (store_failed result) }
    {
        if !self.faultless {
            return Err(StoreFault::Memory);
        }
        match prepare(
            alloc,
            &self.index,
            &self.keys,
            &mut self.kept,
            &mut self.open_ones,
            task,
            sig,
            shared,
            manifest,
        )? {
            Some(draft) => {
                let done = open_with_key(
                    alloc,
                    &mut self.disk,
                    &self.index,
                    &mut self.keys,
                    &mut self.open_ones,
                    task,
                    sig,
                    shared,
                    draft,
                    tree,
                );
                match done {
                    Ok(()) => Ok(true),
                    Err(fault) => {
                        self.faultless = false;
                        Err(fault)
                    }
                }
            }
            None => Ok(false),
        }
    }

    /// Opens the publication of what a task gave, a tree with its manifest: what is to be done is noted by two listings, and the task's old stamp is put
    /// aside, if one is held. `publish_step` does that, piece by piece: the old stamp goes, once no crash leaves it; the work folder becomes the tree, and for a task of the shared state so does the object of its unihash; the
    /// record is stored, unless it is, and the stamp names it. No publication of the task may be open. (Own rule.)
    ///
    /// `false`: another one is open which has the same record or the same object, that is, digests meet; nothing was changed, and it may be tried again.
    ///
    /// `Collision` comes exactly where the row of the signature's name has another signature, `Unsteady` exactly where it has the
    /// signature and another manifest; then nothing changes. After want of memory the stamp may be gone; the rows are as before, and the signature is kept,
    /// if the disk was touched. Want of memory is also the answer where a call that changes the disk met a fault before. Unless the disk is as it was, the
    /// task's record is one that can be read again.
    pub fn publish_open(
        &mut self,
        alloc: Global,
        task: &PlanTask,
        sig: &SigRecord,
        tree: Tree,
        manifest: &Manifest,
    ) -> Result<bool, StoreFault>
        requires reach { 3600 ≤ D.reach }
        requires place { HasPlace task.now }
        requires sig { IsSpelled sig.now }
        requires named { IsSignatureOf task.now sig.now }
        requires short { AreShort tree }
        requires listed { manifest.now ≡ manifest_lines tree }
        requires closed { opened_at self.old.opened (task_folder task.now) ≡ None }
        ensures opens { IfOk result (λ is_open. OnTrue is_open (OpensTask self.old self.new (signed_by task.now sig.now) tree)) }
        ensures busy { IfOk result (λ is_open. OnFalse is_open ((self.new ≡ self.old)
            × Meets self.old.rows self.old.opened (name_of sig.now)
            (object_for self.old.rows (signed_by task.now sig.now) tree))) }
        ensures refused { IfErr result (IsRefusal self.old.rows self.old.keys (signed_by task.now sig.now) tree) }
        ensures refused_open { OnErr result (self.new.opened ≡ self.old.opened) }
        ensures unchanged { IfErr result (λ fault. OnDifference fault (self.new ≡ self.old)) }
        ensures wanting { IfErr result (λ fault. OnMemory fault
            (IsWanting self.old self.new (signed_by task.now sig.now))) }

        // Whatever it answers.
        ensures rows { self.new.rows ≡ self.old.rows }
        ensures keys { (self.new.keys ≡ self.old.keys) ⊎ (self.new.keys ≡ keys_with self.old.keys sig.now) }
        ensures new_key { is_new_key self.old.keys sig.now ≡ true → HasNewKey self.old.rows self.old.opened sig.now }
        ensures apart { (self.new ≡ self.old) ⊎ NoneNamed self.old.opened (name_of sig.now) }
        ensures publishing { D.tells → Passes (D.story self.old.disk) (D.story self.new.disk)
            (IsPublishing (first_publication self.old.keys self.old.rows (signed_by task.now sig.now) tree)
            (D.story self.old.disk).held) }
        ensures readable { IsReadable (line_for self.old.rows (signed_by task.now sig.now) tree)
            ⊎ (self.new.disk ≡ self.old.disk) }
        ensures brief { D.tells → IsBrief 16 (D.story self.old.disk) (D.story self.new.disk) }
        ensures cause { Counts (D.faults self.old.disk) (D.faults self.new.disk) (store_failed result) }
    {
        self.open_as(alloc, task, sig, task.sstate, tree, manifest)
    }

    /// Goes on with the open publication of a task that has this signature, and writes an object, or not.
    fn step_as(
        &mut self,
        alloc: Global,
        task: &PlanTask,
        sig: &SigRecord,
        shared: bool,
        synced: bool,
    ) -> Result<Step, StoreFault>
        requires reach { 3600 ≤ D.reach }
        requires place { HasPlace task.now }
        requires sig { IsSpelled sig.now }
        requires named { IsSignatureOf task.now sig.now }
        ensures steps { IfOk result (StepsTo self.old self.new (signed_as shared task.now sig.now)) }
        ensures published { D.tells → IfOk result (LandsOn (D.story self.new.disk) self.old.rows self.old.opened
            (signed_as shared task.now sig.now)) }
        ensures refused { IfErr result IsOutside }
        ensures refused_rows { OnErr result ((self.new.rows ≡ self.old.rows) × (self.new.kept ≡ self.old.kept)) }

        // Whatever it answers.
        ensures touched { (self.new ≡ self.old)
            ⊎ ((tree : Entries) × IsOpen self.old.opened (signed_as shared task.now sig.now) tree) }
        ensures others { (beside : List ℕ) → beside ≢ task_folder task.now
            → opened_at self.new.opened beside ≡ opened_at self.old.opened beside }
        ensures entries { D.tells → (tree : Entries) → IsOpen self.old.opened (signed_as shared task.now sig.now) tree
            → Passes (D.story self.old.disk) (D.story self.new.disk)
            (KeepsEntries (publication self.old.rows (signed_as shared task.now sig.now) tree) (D.story self.old.disk).held) }
        ensures publishing { D.tells → (tree : Entries) → IsOpen self.old.opened (signed_as shared task.now sig.now) tree
            → Passes (D.story self.old.disk) (D.story self.new.disk)
            (IsPublishing (publication self.old.rows (signed_as shared task.now sig.now) tree) (D.story self.old.disk).held) }
        ensures keys { self.new.keys ≡ self.old.keys }
        ensures brief { D.tells → HasFreeStamp (task_folder task.now) (D.story self.old.disk).held
            → IsBrief 129 (D.story self.old.disk) (D.story self.new.disk) }
        ensures cause { Counts (D.faults self.old.disk) (D.faults self.new.disk) (store_failed result) }
    {
        match place_signed(alloc, self.open_ones.as_slice(), task, sig, shared)? {
            Some(place) => {
                let done = step_at(
                    alloc,
                    &mut self.disk,
                    &mut self.index,
                    &mut self.kept,
                    &mut self.open_ones,
                    place,
                    task,
                    sig,
                    shared,
                    synced,
                );
                match done {
                    Ok(step) => Ok(step),
                    Err(fault) => {
                        self.faultless = false;
                        Err(fault)
                    }
                }
            }
            None => Ok(Step::NotOpen),
        }
    }

    /// Goes on with the open publication of a task that has this signature: removes or writes at most 64 entries of its folders, or stages record and stamp,
    /// or ends a ticket and renames one of them, or ends the last ticket. An entry that is held already isn't written, and no step syncs where `synced`: that is
    /// what `Bench::wait_synced` answered behind the step that came to `Wait`. With `Done` the task's folders hold exactly the tree, whatever a crash leaves.
    pub fn publish_step(
        &mut self,
        alloc: Global,
        task: &PlanTask,
        sig: &SigRecord,
        synced: bool,
    ) -> Result<Step, StoreFault>
        requires reach { 3600 ≤ D.reach }
        requires place { HasPlace task.now }
        requires sig { IsSpelled sig.now }
        requires named { IsSignatureOf task.now sig.now }
        ensures steps { IfOk result (StepsTo self.old self.new (signed_by task.now sig.now)) }
        ensures published { D.tells → IfOk result (LandsOn (D.story self.new.disk) self.old.rows self.old.opened
            (signed_by task.now sig.now)) }
        ensures refused { IfErr result IsOutside }
        ensures refused_rows { OnErr result ((self.new.rows ≡ self.old.rows) × (self.new.kept ≡ self.old.kept)) }

        // Whatever it answers.
        ensures touched { (self.new ≡ self.old)
            ⊎ ((tree : Entries) × IsOpen self.old.opened (signed_by task.now sig.now) tree) }
        ensures others { (beside : List ℕ) → beside ≢ task_folder task.now
            → opened_at self.new.opened beside ≡ opened_at self.old.opened beside }
        ensures entries { D.tells → (tree : Entries) → IsOpen self.old.opened (signed_by task.now sig.now) tree
            → Passes (D.story self.old.disk) (D.story self.new.disk)
            (KeepsEntries (publication self.old.rows (signed_by task.now sig.now) tree) (D.story self.old.disk).held) }
        ensures publishing { D.tells → (tree : Entries) → IsOpen self.old.opened (signed_by task.now sig.now) tree
            → Passes (D.story self.old.disk) (D.story self.new.disk)
            (IsPublishing (publication self.old.rows (signed_by task.now sig.now) tree) (D.story self.old.disk).held) }
        ensures keys { self.new.keys ≡ self.old.keys }
        ensures brief { D.tells → HasFreeStamp (task_folder task.now) (D.story self.old.disk).held
            → IsBrief 129 (D.story self.old.disk) (D.story self.new.disk) }
        ensures cause { Counts (D.faults self.old.disk) (D.faults self.new.disk) (store_failed result) }
    {
        self.step_as(alloc, task, sig, task.sstate, synced)
    }

    /// Opens the restoring of a task whose object was found.
    fn open_found(
        &mut self,
        alloc: Global,
        task: &PlanTask,
        sig: &SigRecord,
        found: FoundObject,
    ) -> Result<bool, StoreFault>
        requires reach { 3600 ≤ D.reach }
        requires place { HasPlace task.now }
        requires sig { IsSpelled sig.now }
        requires named { IsSignatureOf task.now sig.now }
        requires found { IsFound self.old.rows self.old.keys (signed_by task.now sig.now) found }
        requires closed { opened_at self.old.opened (task_folder task.now) ≡ None }
        ensures opens { IfOk result (λ is_open. (is_open ≡ true)
            × OpensTask self.old self.new (signed_as false task.now sig.now) found.tree) }
        ensures refused { IfErr result (IsClash self.old.rows (name_of sig.now) (signature_bytes sig.now)) }
        ensures refused_open { OnErr result (self.new.opened ≡ self.old.opened) }
        ensures rows { self.new.rows ≡ self.old.rows }
        ensures keys { self.new.keys ≡ self.old.keys }
        ensures publishing { D.tells → (row : ARow) → row_at self.old.rows (name_of sig.now) ≡ Some row
            → Passes (D.story self.old.disk) (D.story self.new.disk)
            (IsPublishing (restoration (signed_by task.now sig.now) row found.tree) (D.story self.old.disk).held) }
        ensures cause { Counts (D.faults self.old.disk) (D.faults self.new.disk) (store_failed result) }
    {
        let FoundObject { tree, manifest } = found;
        if self.open_as(alloc, task, sig, false, tree, &manifest)? {
            return Ok(true);
        }
        Err(StoreFault::Memory)
    }

    /// Opens the restoring of a task from its shared state object, which is read whole and compared with its record's manifest: what is to be done is noted by
    /// a listing of the work folder, and the task's old stamp is put aside, if one is held. `restore_step` does that, piece by piece. No publication and no
    /// restoring of the task may be open. (Own rule.)
    ///
    /// `false` exactly where the task's record isn't stored or its object doesn't match; then nothing changes. `Collision` comes exactly where the row of the
    /// signature's name has another signature. Want of memory is also the answer where another one is open that has the same record, that is, digests meet,
    /// and where a call that changes the disk met a fault before. After it the stamp may be gone.
    pub fn restore_open(
        &mut self,
        alloc: Global,
        task: &PlanTask,
        sig: &SigRecord,
    ) -> Result<bool, StoreFault>
        requires reach { 3600 ≤ D.reach }
        requires place { HasPlace task.now }
        requires sig { IsSpelled sig.now }
        requires named { IsSignatureOf task.now sig.now }
        requires closed { opened_at self.old.opened (task_folder task.now) ≡ None }
        ensures opens { IfOk result (λ found. OnTrue found
            (OpensRestoring D.tells D.story self.old self.new (signed_by task.now sig.now))) }
        ensures gone { D.tells → IfOk result (λ found. OnFalse found (HasNoObject (D.story self.old.disk).held
            self.old.rows (signed_by task.now sig.now))) }
        ensures unchanged { IfOk result (λ found. OnFalse found (SameBooks self.old self.new)) }
        ensures looked { D.tells → IfOk result (λ found. OnFalse found
            (Passes (D.story self.old.disk) (D.story self.new.disk) Same)) }
        ensures clear { OnOk result (IsClear self.old.rows (name_of sig.now) (signature_bytes sig.now)) }
        ensures refused { IfErr result (IsClash self.old.rows (name_of sig.now) (signature_bytes sig.now)) }
        ensures refused_open { OnErr result (self.new.opened ≡ self.old.opened) }

        // Whatever it answers.
        ensures rows { self.new.rows ≡ self.old.rows }
        ensures keys { self.new.keys ≡ self.old.keys }
        ensures images { D.tells → Passes (D.story self.old.disk) (D.story self.new.disk)
            (Restores (D.story self.old.disk).held self.old.rows (signed_by task.now sig.now)) }
        ensures others { D.tells → Passes (D.story self.old.disk) (D.story self.new.disk)
            (KeepsOthers (task_folder task.now) None (D.story self.old.disk).held) }
        ensures cause { Counts (D.faults self.old.disk) (D.faults self.new.disk) (store_failed result) }
    {
        match self.found_object(alloc, task, sig)? {
            Some(found) => self.open_found(alloc, task, sig, found),
            None => Ok(false),
        }
    }

    /// Goes on with the open restoring of a task that has this signature, as `publish_step` does with a publication. It writes no record and no object. With `Done`
    /// the task's work folder holds exactly what its object held, and its stamp names its record, whatever a crash leaves.
    pub fn restore_step(
        &mut self,
        alloc: Global,
        task: &PlanTask,
        sig: &SigRecord,
        synced: bool,
    ) -> Result<Step, StoreFault>
        requires reach { 3600 ≤ D.reach }
        requires place { HasPlace task.now }
        requires sig { IsSpelled sig.now }
        requires named { IsSignatureOf task.now sig.now }
        ensures steps { IfOk result (StepsTo self.old self.new (signed_as false task.now sig.now)) }
        ensures published { D.tells → IfOk result (LandsOn (D.story self.new.disk) self.old.rows self.old.opened
            (signed_as false task.now sig.now)) }
        ensures refused { IfErr result IsOutside }
        ensures refused_rows { OnErr result ((self.new.rows ≡ self.old.rows) × (self.new.kept ≡ self.old.kept)) }

        // Whatever it answers.
        ensures touched { (self.new ≡ self.old)
            ⊎ ((tree : Entries) × IsOpen self.old.opened (signed_as false task.now sig.now) tree) }
        ensures others { (beside : List ℕ) → beside ≢ task_folder task.now
            → opened_at self.new.opened beside ≡ opened_at self.old.opened beside }
        ensures entries { D.tells → (tree : Entries) → IsOpen self.old.opened (signed_as false task.now sig.now) tree
            → Passes (D.story self.old.disk) (D.story self.new.disk)
            (KeepsEntries (publication self.old.rows (signed_as false task.now sig.now) tree) (D.story self.old.disk).held) }
        ensures publishing { D.tells → (tree : Entries) → IsOpen self.old.opened (signed_as false task.now sig.now) tree
            → Passes (D.story self.old.disk) (D.story self.new.disk)
            (IsPublishing (publication self.old.rows (signed_as false task.now sig.now) tree) (D.story self.old.disk).held) }
        ensures keys { self.new.keys ≡ self.old.keys }
        ensures brief { D.tells → HasFreeStamp (task_folder task.now) (D.story self.old.disk).held
            → IsBrief 129 (D.story self.old.disk) (D.story self.new.disk) }
        ensures cause { Counts (D.faults self.old.disk) (D.faults self.new.disk) (store_failed result) }
    {
        self.step_as(alloc, task, sig, false, synced)
    }

    /// The name of a signature, which has this PN, by its whole text, where one of the PN's first rows has it. No memory.
    pub fn known_name(&self, pn: &str, sig: &SigText) -> Option<Hash>
        ensures { IfSome result (IsNameBy sig.now) }
    {
        self.index.name_of(pn, sig)
    }

    /// The unihash of the row of this name, if there is one. No memory.
    pub fn unihash(&self, name: &Hash) -> Option<Hash>
        ensures { result ≡ option_map (λ row. row.unihash) (row_at self.now.rows name.now) }
    {
        self.index.unihash_of(name)
    }

    /// The present moment of the disk, as far as a `u64` goes. No memory.
    pub fn moment(&self) -> u64
        ensures { D.tells → result ≡ min (moment_of (D.story self.now.disk)) (2 ^ 64 - 1) }
    {
        self.disk.moment()
    }

    /// The disk, which holds the records of all rows, whatever a crash leaves; and nothing under `tmp/`, where nothing is open and no call that changes the disk
    /// met a fault. No memory.
    pub fn into_disk(self) -> D
        ensures disk { result ≡ self.disk }
        ensures records { D.tells → HoldsRecords (D.story result) self.rows }
        ensures swept { D.tells → self.faultless ≡ true → NothingOpen self.opened → HasNoLitter (D.story result).held }
    {
        let Store {
            disk,
            index: _,
            keys: _,
            kept: _,
            open_ones: _,
            faultless: _,
        } = self;
        disk
    }
}
