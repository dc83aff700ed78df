// Open publications of tasks.
ghost use Rattle.std.specs.Prelude.{◌≡◌, ◌≢◌, ◌≤◌, ◌<◌, ◌++◌, ◌∷◌, ◌⊎◌, Bool, IfErr, IfNone, IfOk, IfSome, List, MatchOption, None, OnErr, OnOk, ℕ, false, length};
ghost use Rattle.std.specs.List.{AllByRecursion};
ghost use Rattle.std.specs.Vec.{vec_capacity, vec_len};
ghost use Rattle.tree_model.specs.Manifest.{manifest_lines};
ghost use Rattle.outside_traits.specs.Fault.{Counts};
ghost use Rattle.outside_traits.specs.Passes.{EachNow, IsBrief, Passes};
ghost use Rattle.outside_traits.specs.Story.{Story};
ghost use Rattle.meta_model.specs.CleanBuild.{Entries};
ghost use Rattle.store_model.specs.Available.{task_folder};
ghost use Rattle.store_model.specs.Publication.{stamp_at};
ghost use Rattle.store_model.specs.Readable.{IsReadable, IsRow};
ghost use Rattle.store_model.specs.Spelled.{IsSpelled};
ghost use Rattle.store_model.specs.Spelling.{name_of, signature_bytes};
ghost use Rattle.store_opening.specs.Paths.{HasPlace};
ghost use Rattle.store_opening.specs.Sound.{IsKept};
ghost use Rattle.sig_gen.specs.Sound.{Spells};
ghost use Rattle.build_store.specs.declared.pieces.OpenPublication.{OpenPublication as AOne};
ghost use Rattle.build_store.specs.Drafts.{IsDraft};
ghost use Rattle.build_store.specs.Faults.{IsOutside, IsRefusal, store_failed};
ghost use Rattle.build_store.specs.Calls.{HasFreeStamp};
ghost use Rattle.build_store.specs.Halves.{IsOn};
ghost use Rattle.build_store.specs.Keys.{HasNoOtherKey, HoldsKeyOf, HoldsKeys, KnowsKeyOf, KnowsRows, keys_with};
ghost use Rattle.build_store.specs.OpenOnes.{AddsOwn, IsOnOrDone, KeepsEntries, LeadsTo, Sweeps, at_next, items_of, progress_of};
ghost use Rattle.build_store.specs.OpenTasks.{IsOpenOf};
ghost use Rattle.build_store.specs.Openings.{IsGoing, IsOpen, LandsOn, Meets, OpensOne, StepsTo, open_view};
ghost use Rattle.build_store.specs.Pieces.{IsPublishing};
ghost use Rattle.build_store.specs.Publication.{AreShort, IsAgreed, IsPublished, first_publication, line_for, object_for, publication, rows_with, unihash_for};
ghost use Rattle.build_store.specs.Standing.{AreOn, AreOpen, HoldsOpen, IsClearOf, IsTidy, KnowsOpen, StandsAt};
ghost use Rattle.build_store.specs.View.{IsSignatureOf, as_shared, kept_with, kept_without, open_in, opened_at, signed_as, view_of};

use crate::drafting::{Draft, draft_of};
use crate::fault::StoreFault;
use crate::going::go_on;
use crate::keeping::{forget, keep};
use crate::kept::KeptSig;
use crate::keys::put_key;
use crate::listed::is_busy;
use crate::opening::open_publication;
use crate::pieces::{OpenPublication, Reached};
use crate::places::task_folder;
use crate::publishing::{add_row, object_of, parts_of};
use crate::step::Step;
use hash_equiv::Index;
use meta_model::PlanTask;
use outside_traits::Disk;
use record_move::KnownKeys;
use std::alloc::Global;
use store_model::SigRecord;
use tree_model::{Hash, Manifest, Mem, Tree};

/// What a publication of a task is to put, with room for it, and its signature is kept from then on. Nothing, where an open one has the same record or
/// the same object.
pub(crate) fn prepare(
    alloc: Global,
    index: &Index,
    keys: &KnownKeys,
    kept: &mut Vec<KeptSig>,
    open_ones: &mut Vec<OpenPublication>,
    task: &PlanTask,
    sig: &SigRecord,
    shared: bool,
    manifest: &Manifest,
) -> Result<Option<Draft>, StoreFault>
    requires spelled { IsSpelled sig.now }
    requires rows { AllByRecursion IsRow index.now }
    requires known { KnowsRows keys.now index.now }
    requires stand { AreOpen index.now open_ones.old.items }
    ensures text { IfOk result (λ found. IfSome found (λ draft. draft.text ≡ signature_bytes sig.now)) }
    ensures draft { IfOk result (λ found. IfSome found (λ draft. (tree : Entries) → manifest.now ≡ manifest_lines tree
        → IsDraft index.now (signed_as shared task.now sig.now) tree draft)) }
    ensures apart { IfOk result (λ found. IfSome found (λ draft. (tree : Entries) → manifest.now ≡ manifest_lines tree
        → AllByRecursion (IsClearOf draft.name (object_for index.now (signed_as shared task.now sig.now) tree))
        open_ones.old.items)) }
    ensures kept { IfOk result (λ found. MatchOption found (kept.new.items ≡ kept.old.items)
        (λ draft. kept.new.items ≡ kept_with (signed_as shared task.now sig.now) kept.old.items)) }
    ensures room { IfOk result (λ found. IfSome found (λ draft. vec_len open_ones.new < vec_capacity open_ones.new)) }
    ensures busy { IfOk result (λ found. IfNone found ((tree : Entries) → manifest.now ≡ manifest_lines tree
        → Meets index.now (open_in open_ones.old.items) (name_of sig.now)
        (object_for index.now (signed_as shared task.now sig.now) tree))) }
    ensures listed { open_ones.new.items ≡ open_ones.old.items }
    ensures one_key { OnOk result (HasNoOtherKey keys.now sig.now) }
    ensures unkept { OnErr result (kept.new.items ≡ kept.old.items) }
    ensures refused { IfErr result (λ fault. (tree : Entries) → manifest.now ≡ manifest_lines tree
        → IsRefusal index.now keys.now (signed_as shared task.now sig.now) tree fault) }
    ensures inside { store_failed result ≡ false }
{
    let draft = draft_of(alloc, index, keys, task, sig, manifest)?;
    let object = object_of(shared, draft.unihash);
    if is_busy(open_ones.as_slice(), &draft.name, &object) {
        return Ok(None);
    }
    open_ones.reserve(1)?;
    keep(kept, task, &draft.text)?;
    Ok(Some(draft))
}

/// Opens the publication of what a task gave.
fn open_task<D: Disk>(
    alloc: Global,
    disk: &mut D,
    index: &Index,
    task: &PlanTask,
    sig: &SigRecord,
    shared: bool,
    draft: Draft,
    tree: Tree,
) -> Result<OpenPublication, StoreFault>
    requires reach { 3600 ≤ D.reach }
    requires place { HasPlace task.now }
    requires spelled { IsSpelled sig.now }
    requires short { AreShort tree }
    requires draft { IsDraft index.now (signed_as shared task.now sig.now) tree draft }
    requires text { draft.text ≡ signature_bytes sig.now }
    requires rows { AllByRecursion IsRow index.now }
    requires keeps { D.tells → IsKept index.now (D.story disk.old) }
    requires settled { D.tells → EachNow (D.story disk.old)
        (λ image. image (stamp_at (task_folder task.now)) ≡ (D.story disk.old).held (stamp_at (task_folder task.now))) }
    ensures of { IfOk result (IsOpenOf index.now (signed_as shared task.now sig.now) tree) }
    ensures opened { D.tells → IfOk result (λ one. IsOn (publication index.now (signed_as shared task.now sig.now) tree)
        (progress_of one) (D.story disk.new)) }
    ensures refused { IfErr result IsOutside }
    ensures swept { D.tells → IfOk result (λ one. AddsOwn one (D.story disk.old).held (D.story disk.new).held) }
    ensures publishing { D.tells → Passes (D.story disk.old) (D.story disk.new)
        (IsPublishing (publication index.now (signed_as shared task.now sig.now) tree) (D.story disk.old).held) }
    ensures line { OnOk result (IsReadable (line_for index.now (signed_as shared task.now sig.now) tree)) }
    ensures readable { IsReadable (line_for index.now (signed_as shared task.now sig.now) tree) ⊎ (disk.new ≡ disk.old) }
    ensures keeps { D.tells → IsKept index.now (D.story disk.new) }
    ensures brief { D.tells → IsBrief 14 (D.story disk.old) (D.story disk.new) }
    ensures cause { Counts (D.faults disk.old) (D.faults disk.new) (store_failed result) }
{
    let _entries = tree.entries();
    let folder = task_folder(alloc, task)?;
    let object = object_of(shared, draft.unihash);
    Ok(open_publication(alloc, disk, folder, object, draft, tree)?)
}

/// Opens the publication of what a task gave, beside those that are open. There is room for it.
fn open_beside<D: Disk>(
    alloc: Global,
    disk: &mut D,
    index: &Index,
    open_ones: &mut Vec<OpenPublication>,
    task: &PlanTask,
    sig: &SigRecord,
    shared: bool,
    draft: Draft,
    tree: Tree,
) -> Result<(), StoreFault>
    requires reach { 3600 ≤ D.reach }
    requires place { HasPlace task.now }
    requires spelled { IsSpelled sig.now }
    requires named { IsSignatureOf (as_shared shared task.now) sig.now }
    requires short { AreShort tree }
    requires draft { IsDraft index.now (signed_as shared task.now sig.now) tree draft }
    requires text { draft.text ≡ signature_bytes sig.now }
    requires rows { AllByRecursion IsRow index.now }
    requires keeps { D.tells → IsKept index.now (D.story disk.old) }
    requires room { vec_len open_ones.old < vec_capacity open_ones.old }
    requires closed { opened_at (open_in open_ones.old.items) (task_folder task.now) ≡ None }
    requires apart { AllByRecursion (IsClearOf draft.name (object_for index.now (signed_as shared task.now sig.now) tree)) open_ones.old.items }
    requires stand { AreOpen index.now open_ones.old.items }
    requires on { D.tells → AreOn index.now (D.story disk.old) open_ones.old.items }
    requires tidy { D.tells → IsTidy open_ones.old.items (D.story disk.old) }
    ensures opens { OnOk result (OpensOne (task_folder task.now) (open_view (signed_as shared task.now sig.now) tree)
        (open_in open_ones.old.items) (open_in open_ones.new.items)) }
    ensures agrees { OnOk result (IsAgreed index.now (signed_as shared task.now sig.now) tree) }
    ensures same { OnErr result (open_ones.new.items ≡ open_ones.old.items) }
    ensures stand { AreOpen index.now open_ones.new.items }
    ensures on { D.tells → AreOn index.now (D.story disk.new) open_ones.new.items }
    ensures tidy { D.tells → OnOk result (IsTidy open_ones.new.items (D.story disk.new)) }
    ensures known { (keys : List (List ℕ)) → KnowsOpen keys open_ones.old.items → KnowsKeyOf keys (signature_bytes sig.now)
        → KnowsOpen keys open_ones.new.items }
    ensures refused { IfErr result IsOutside }
    ensures publishing { D.tells → Passes (D.story disk.old) (D.story disk.new)
        (IsPublishing (publication index.now (signed_as shared task.now sig.now) tree) (D.story disk.old).held) }
    ensures line { OnOk result (IsReadable (line_for index.now (signed_as shared task.now sig.now) tree)) }
    ensures readable { IsReadable (line_for index.now (signed_as shared task.now sig.now) tree) ⊎ (disk.new ≡ disk.old) }
    ensures keeps { D.tells → IsKept index.now (D.story disk.new) }
    ensures brief { D.tells → IsBrief 14 (D.story disk.old) (D.story disk.new) }
    ensures cause { Counts (D.faults disk.old) (D.faults disk.new) (store_failed result) }
{
    let one = open_task(alloc, disk, index, task, sig, shared, draft, tree)?;
    open_ones.push_reserved(one);
    Ok(())
}

/// Opens the publication of what a task gave, beside those that are open, once its key is put. There is room for it.
pub(crate) fn open_with_key<D: Disk>(
    alloc: Global,
    disk: &mut D,
    index: &Index,
    keys: &mut KnownKeys,
    open_ones: &mut Vec<OpenPublication>,
    task: &PlanTask,
    sig: &SigRecord,
    shared: bool,
    draft: Draft,
    tree: Tree,
) -> Result<(), StoreFault>
    requires reach { 3600 ≤ D.reach }
    requires place { HasPlace task.now }
    requires spelled { IsSpelled sig.now }
    requires named { IsSignatureOf (as_shared shared task.now) sig.now }
    requires short { AreShort tree }
    requires draft { IsDraft index.now (signed_as shared task.now sig.now) tree draft }
    requires text { draft.text ≡ signature_bytes sig.now }
    requires one_key { HasNoOtherKey keys.old sig.now }
    requires rows { AllByRecursion IsRow index.now }
    requires keeps { D.tells → IsKept index.now (D.story disk.old) }
    requires room { vec_len open_ones.old < vec_capacity open_ones.old }
    requires closed { opened_at (open_in open_ones.old.items) (task_folder task.now) ≡ None }
    requires apart { AllByRecursion (IsClearOf draft.name (object_for index.now (signed_as shared task.now sig.now) tree)) open_ones.old.items }
    requires stand { AreOpen index.now open_ones.old.items }
    requires on { D.tells → AreOn index.now (D.story disk.old) open_ones.old.items }
    requires tidy { D.tells → IsTidy open_ones.old.items (D.story disk.old) }
    requires known { KnowsRows keys.old index.now × KnowsOpen keys.old open_ones.old.items }
    requires holds { D.tells → HoldsKeys keys.old (D.story disk.old).held }
    ensures opens { OnOk result (OpensOne (task_folder task.now) (open_view (signed_as shared task.now sig.now) tree)
        (open_in open_ones.old.items) (open_in open_ones.new.items)) }
    ensures agrees { OnOk result (IsAgreed index.now (signed_as shared task.now sig.now) tree) }
    ensures same { OnErr result (open_ones.new.items ≡ open_ones.old.items) }
    ensures keys { OnOk result (keys.new ≡ keys_with keys.old sig.now) }
    ensures no_more { (keys.new ≡ keys.old) ⊎ (keys.new ≡ keys_with keys.old sig.now) }
    ensures stand { AreOpen index.now open_ones.new.items }
    ensures on { D.tells → AreOn index.now (D.story disk.new) open_ones.new.items }
    ensures tidy { D.tells → OnOk result (IsTidy open_ones.new.items (D.story disk.new)) }
    ensures known { KnowsRows keys.new index.now × KnowsOpen keys.new open_ones.new.items }
    ensures holds { D.tells → HoldsKeys keys.new (D.story disk.new).held }
    ensures refused { IfErr result IsOutside }
    ensures publishing { D.tells → Passes (D.story disk.old) (D.story disk.new)
        (IsPublishing (first_publication keys.old index.now (signed_as shared task.now sig.now) tree) (D.story disk.old).held) }
    ensures readable { IsReadable (line_for index.now (signed_as shared task.now sig.now) tree) }
    ensures keeps { D.tells → IsKept index.now (D.story disk.new) }
    ensures brief { D.tells → IsBrief 16 (D.story disk.old) (D.story disk.new) }
    ensures cause { Counts (D.faults disk.old) (D.faults disk.new) (store_failed result) }
{
    let _entries = tree.entries();
    put_key(alloc, disk, keys, &draft.text)?;
    open_beside(
        alloc, disk, index, open_ones, task, sig, shared, draft, tree,
    )
}

/// Goes on with the open publication of a task, by at most 64 items or one phase of its end: what it has reached then, or nothing where
/// all is done; then it is to be closed.
fn step_task<D: Disk>(
    alloc: Global,
    disk: &mut D,
    index: &Index,
    task: &PlanTask,
    sig: &SigRecord,
    shared: bool,
    one: &OpenPublication,
    synced: bool,
) -> Result<Option<Reached>, StoreFault>
    requires reach { 3600 ≤ D.reach }
    requires rows { AllByRecursion IsRow index.now }
    requires keeps { D.tells → IsKept index.now (D.story disk.old) }
    requires of { IsOpenOf index.now (signed_as shared task.now sig.now) one.now.tree one.now }
    requires key { D.tells → HoldsKeyOf one.now.sig (D.story disk.old).held }
    requires on { D.tells → IsOn (publication index.now (signed_as shared task.now sig.now) one.now.tree) (progress_of one.now)
        (D.story disk.old) }
    ensures leads { IfOk result (LeadsTo one.now one.now.reached) }
    ensures of { IfOk result (λ next. IfSome next (λ reached. IsOpenOf index.now (signed_as shared task.now sig.now) one.now.tree
        (at_next one.now reached))) }
    ensures on { D.tells → IfOk result (λ next. IsOnOrDone (publication index.now (signed_as shared task.now sig.now)
        one.now.tree) (items_of one.now) next (D.story disk.new)) }
    ensures swept { D.tells → IfOk result (λ next. Sweeps one.now one.now.reached next (D.story disk.old).held
        (D.story disk.new).held) }
    ensures refused { IfErr result IsOutside }
    ensures entries { D.tells → Passes (D.story disk.old) (D.story disk.new)
        (KeepsEntries (publication index.now (signed_as shared task.now sig.now) one.now.tree) (D.story disk.old).held) }
    ensures publishing { D.tells → Passes (D.story disk.old) (D.story disk.new)
        (IsPublishing (publication index.now (signed_as shared task.now sig.now) one.now.tree) (D.story disk.old).held) }
    ensures keeps { D.tells → IsKept index.now (D.story disk.new) }
    ensures brief { D.tells → HasFreeStamp one.now.folder (D.story disk.old).held
        → IsBrief 128 (D.story disk.old) (D.story disk.new) }
    ensures cause { Counts (D.faults disk.old) (D.faults disk.new) (store_failed result) }
{
    Ok(go_on(alloc, disk, one, synced)?)
}

/// Closes an open publication that is done: its row is added, if it is new, and its signature is kept no longer.
fn close_task(
    alloc: Global,
    index: &mut Index,
    kept: &mut Vec<KeptSig>,
    task: &PlanTask,
    sig: &SigRecord,
    shared: bool,
    one: OpenPublication,
) -> Result<Hash, Mem>
    requires of { IsOpenOf index.old (signed_as shared task.now sig.now) one.tree one }
    requires spells { Spells (signature_bytes sig.now) sig.now }
    requires rows { AllByRecursion IsRow index.old }
    ensures unihash { IfOk result (λ unihash. unihash ≡ unihash_for index.old (signed_as shared task.now sig.now) one.tree) }
    ensures rows { OnOk result (index.new ≡ rows_with index.old (signed_as shared task.now sig.now) one.tree) }
    ensures kept { OnOk result (kept.new.items ≡ kept_without (signed_as shared task.now sig.now) kept.old.items) }
    ensures sound { AllByRecursion IsRow index.new }
    ensures keeps { OnOk result ((story : Story) → IsKept index.old story
        → EachNow story (IsPublished (publication index.old (signed_as shared task.now sig.now) one.tree)) → IsKept index.new story) }
    ensures same { OnErr result ((index.new ≡ index.old) × (kept.new.items ≡ kept.old.items)) }
{
    let OpenPublication {
        folder: _,
        name: _,
        sig: _,
        tree: _,
        unihash,
        object: _,
        new,
        extra: _,
        reached: _,
    } = one;
    let (_, row) = parts_of(new);
    add_row(alloc, index, row)?;
    forget(kept, task);
    Ok(unihash)
}

/// What a step that led on came to.
fn step_of(next: Reached) -> Step
    ensures { IsGoing result }
{
    match next {
        Reached::Working(_) => Step::More,
        Reached::Aside(_)
        | Reached::Taken(_)
        | Reached::Staged(_)
        | Reached::Kept(_)
        | Reached::Stored(_)
        | Reached::Stamped(_) => Step::Wait,
    }
}

/// The open publication at a place has reached what comes next.
fn lead_on(open_ones: &mut Vec<OpenPublication>, place: usize, next: Reached)
    requires { place < vec_len open_ones.old }
    ensures { (before : List AOne) (one : AOne) (after : List AOne) → open_ones.old.items ≡ before ++ one ∷ after
        → length before ≡ place → open_ones.new.items ≡ before ++ at_next one next ∷ after }
{
    open_ones[place].reached = next;
}

/// Goes on with the open publication at a place, which is that of a task with this signature. Where all is done, or it can't go on, it is open no more.
pub(crate) fn step_at<D: Disk>(
    alloc: Global,
    disk: &mut D,
    index: &mut Index,
    kept: &mut Vec<KeptSig>,
    open_ones: &mut Vec<OpenPublication>,
    place: usize,
    task: &PlanTask,
    sig: &SigRecord,
    shared: bool,
    synced: bool,
) -> Result<Step, StoreFault>
    requires reach { 3600 ≤ D.reach }
    requires spells { Spells (signature_bytes sig.now) sig.now }
    requires named { IsSignatureOf (as_shared shared task.now) sig.now }
    requires within { place < vec_len open_ones.old }
    requires stands { StandsAt (signed_as shared task.now sig.now) open_ones.old.items place }
    requires rows { AllByRecursion IsRow index.old }
    requires keeps { D.tells → IsKept index.old (D.story disk.old) }
    requires stand { AreOpen index.old open_ones.old.items }
    requires on { D.tells → AreOn index.old (D.story disk.old) open_ones.old.items }
    requires keyed { D.tells → HoldsOpen open_ones.old.items (D.story disk.old).held }
    ensures steps { IfOk result (λ step. (keys : List (List ℕ)) (faultless : Bool)
        → StepsTo (view_of disk.old index.old keys kept.old.items open_ones.old.items faultless)
        (view_of disk.new index.new keys kept.new.items open_ones.new.items faultless) (signed_as shared task.now sig.now) step) }
    ensures published { D.tells → IfOk result (LandsOn (D.story disk.new) index.old (open_in open_ones.old.items)
        (signed_as shared task.now sig.now)) }
    ensures refused { IfErr result IsOutside }
    ensures refused_rows { OnErr result ((index.new ≡ index.old) × (kept.new.items ≡ kept.old.items)) }
    ensures others { (beside : List ℕ) → beside ≢ task_folder task.now
        → opened_at (open_in open_ones.new.items) beside ≡ opened_at (open_in open_ones.old.items) beside }
    ensures was_open { (tree : Entries) × IsOpen (open_in open_ones.old.items) (signed_as shared task.now sig.now) tree }
    ensures entries { D.tells → (tree : Entries) → IsOpen (open_in open_ones.old.items) (signed_as shared task.now sig.now) tree
        → Passes (D.story disk.old) (D.story disk.new)
        (KeepsEntries (publication index.old (signed_as shared task.now sig.now) tree) (D.story disk.old).held) }
    ensures publishing { D.tells → (tree : Entries) → IsOpen (open_in open_ones.old.items) (signed_as shared task.now sig.now) tree
        → Passes (D.story disk.old) (D.story disk.new)
        (IsPublishing (publication index.old (signed_as shared task.now sig.now) tree) (D.story disk.old).held) }
    ensures rows { AllByRecursion IsRow index.new }
    ensures keeps { D.tells → IsKept index.new (D.story disk.new) }
    ensures stand { AreOpen index.new open_ones.new.items }
    ensures on { D.tells → AreOn index.new (D.story disk.new) open_ones.new.items }
    ensures tidy { D.tells → IsTidy open_ones.old.items (D.story disk.old)
        → OnOk result (IsTidy open_ones.new.items (D.story disk.new)) }
    ensures knows { (keys : List (List ℕ)) → KnowsRows keys index.old → KnowsOpen keys open_ones.old.items
        → KnowsRows keys index.new × KnowsOpen keys open_ones.new.items }
    ensures brief { D.tells → HasFreeStamp (task_folder task.now) (D.story disk.old).held
        → IsBrief 128 (D.story disk.old) (D.story disk.new) }
    ensures cause { Counts (D.faults disk.old) (D.faults disk.new) (store_failed result) }
{
    match step_task(
        alloc,
        disk,
        index,
        task,
        sig,
        shared,
        &open_ones[place],
        synced,
    ) {
        Ok(Some(next)) => {
            lead_on(open_ones, place, next);
            Ok(step_of(next))
        }
        Ok(None) => {
            let one = open_ones.remove(place);
            Ok(Step::Done(close_task(alloc, index, kept, task, sig, shared, one)?))
        }
        Err(fault) => {
            open_ones.remove(place);
            Err(fault)
        }
    }
}
