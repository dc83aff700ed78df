// The folder `build`.
ghost use Rattle.std.specs.Prelude.{[], None};

use crate::ahead::ReadAhead;
use crate::limits::{is_beyond, no_entry_of_the_store};
use crate::listed::{Listed, Listing, Seen};
use crate::seen::SeenFolders;
use host_files::{
    BENCHES_FOLDER, FileFacts, FirstFault, LOCK, Locking, Part, Syncing, Syncs, WalkFault,
    entry_of, is_denied, is_empty, is_entry, is_memory, join, lay_entry, look, look_through,
    make_own, move_entry, one_more, open_above, open_up, put_joined, read_unchanged, remove_folder,
    walk_part,
};
use outside_traits::{Disk, DiskFault};
use std::alloc::{AllocError, Global};
use std::collections::{BTreeMap, BTreeSet};
use std::fs::{File, OpenFile};
use std::io::ErrorKind;
use std::rt::Files;
use std::time::Clock;
use std::{fs, io};
use tree_model::{Entry, Texts, is_below, is_clean};

/// The folder that is the disk.
pub const ROOT: &str = "build";

/// The folders in it that the benches have: no part of the disk.
const APART: &[&str] = &["bench", "failed", "log"];

/// The folder above the root, where the root's own name stands.
const HERE: &str = ".";

/// The file that is there while a run may have changed what it hasn't synced, from the current folder.
const UNSYNCED: &str = "build/bench/unsynced";

/// The folder of what is written before it counts.
const TEMPORARY: &str = "build/tmp";

/// How many changed files and folders are made durable one by one, whatever that takes.
const FEW: usize = 8;

/// How many microseconds a sync of all is taken to cost, where none was made yet.
const LONG: u64 = 4000;

/// The files and links of the folder `build` of the current folder, without those in its folders `bench`, `failed` and `log`.
///
/// Nothing stands below a link, so no call reaches through one. A folder without files or links is nothing: where
/// one stands in the way of an entry it goes, and with the last entry of a folder the folder itself goes. What is
/// neither file, folder nor link is nothing too. It tells nothing.
///
/// The first call takes the lock of a run, on the file `build/bench/lock`, unless `hold_early` did, and the object has it as long as it is there.
/// Where another process has it that call is a fault, as is each later one until the lock is free, and nothing is touched.
/// With the lock held nothing else changes the disk, so the object looks once at each folder that an entry has above it,
/// until it takes that folder away itself, and what it has listed it reads in the listing's order without another look,
/// until it changes anything. Where somebody removes such a folder by hand, a write into it is a fault; where somebody
/// makes a listed file longer, its first bytes are read.
///
/// One that was made by `reading` only looks: it takes no lock, makes and opens up nothing, and refuses each call that would change anything. What another process
/// changes meanwhile it may see in part.
///
/// Many changed files and folders are made durable at once, by a sync of the file system of `build`, where by what the last syncs took each
/// by itself would take longer, all folders that were come by stand on that one, and the machine has a program for it; else each by itself.
#[derive(Drop)]
pub struct FolderDisk<'a, R> {
    folder: BuildFolder<'a, R>,
    faults: u64,
    first: FirstFault,
}

/// The folder, and what is to be synced of it.
#[derive(Drop)]
struct BuildFolder<'a, R> {
    rt: R,

    /// The syncs of the run.
    syncs: &'a Syncs,

    /// How many calls were answered.
    calls: u64,

    /// The locked file.
    lock: Option<File>,

    /// Whether this object only looks.
    is_reading: bool,

    /// Whether this object has changed anything, which a file says for a later process.
    is_marked: bool,

    /// The files and folders that were changed and aren't known to be durable, by their paths from the current folder.
    changed: BTreeMap<String, Change>,

    /// The folders that are known to be durable, and their names with them.
    settled: BTreeSet<String>,

    /// The folders for temporary files that became empty. They go as the disk is closed.
    emptied: BTreeSet<String>,

    /// How many microseconds the last sync of files and folders by themselves took for each, if there was one.
    pace: Option<u64>,

    /// How many microseconds the last sync of all took, if there was one.
    pace_of_all: Option<u64>,

    /// The folders that aren't looked at again.
    seen: SeenFolders,

    /// What the last listing saw, which isn't looked at again as it is read.
    listed: Listed<'a>,

    /// What was read ahead, until anything is changed.
    ahead: Option<&'a ReadAhead>,

    /// The path, from the current folder, of what is read there.
    whole: String,
}

/// What was changed at a path: a folder or a file, and by which of the calls last.
#[derive(Clone, Copy)]
struct Change {
    is_folder: bool,
    moment: u64,
}

impl<'a, R: AllocGlobal> FolderDisk<'a, R> {
    ghost use Rattle.std.specs.Prelude.{◌≡◌};
    ghost use Rattle.outside_traits.specs.Fault.{Counts, disk_failed};

    /// The folder as it is, without a fault or a change so far. With `syncs` it makes many changes durable at once.
    pub fn new(rt: R, syncs: &'a Syncs) -> Self
        ensures { result.faults ≡ 0 }
    {
        FolderDisk::of(rt, syncs, false)
    }

    /// The folder as it is, without a fault so far, as one that is only looked at.
    pub fn reading(rt: R, syncs: &'a Syncs) -> Self
        ensures { result.faults ≡ 0 }
    {
        FolderDisk::of(rt, syncs, true)
    }

    /// The folder, without a fault or a change so far.
    fn of(rt: R, syncs: &'a Syncs, is_reading: bool) -> Self
        ensures { result.faults ≡ 0 }
    {
        let changed = BTreeMap::new(rt.alloc());
        let settled = BTreeSet::new(rt.alloc());
        let emptied = BTreeSet::new(rt.alloc());
        let seen = SeenFolders::none(rt.alloc());
        let listed = Listed::none(rt.alloc());
        let whole = String::new(rt.alloc());
        FolderDisk {
            folder: BuildFolder {
                rt,
                syncs,
                calls: 0,
                lock: None,
                is_reading,
                is_marked: false,
                emptied,
                changed,
                settled,
                pace: None,
                pace_of_all: None,
                seen,
                listed,
                ahead: None,
                whole,
            },
            faults: 0,
            first: FirstFault::none(),
        }
    }

    /// What is said of the first fault.
    pub fn first_fault(&self) -> Option<&str> {
        self.first.as_str()
    }

    /// Whether this object has the lock of a run.
    pub fn is_held(&self) -> bool {
        self.folder.lock.is_some()
    }

    /// Counts a call at a path of the disk, and the fault where a call of the system failed.
    fn count<T: Drop>(
        &mut self,
        call: &str,
        path: &str,
        done: io::Result<T>,
    ) -> Result<T, DiskFault>
        ensures { Counts self.old.faults self.new.faults (disk_failed result) }
    {
        match done {
            Ok(value) => {
                self.folder.calls = self.folder.calls.saturating_add(1);
                Ok(value)
            }
            Err(error) if is_memory(&error) => Err(DiskFault::Memory),
            Err(error) => {
                self.folder.calls = self.folder.calls.saturating_add(1);
                self.faults = one_more(self.faults);
                self.note(call, path, &error);
                Err(DiskFault::Failed)
            }
        }
    }

    /// Counts a listing, and the fault where it failed at a place from the current folder.
    fn count_listing<T: Drop>(
        &mut self,
        prefix: &str,
        done: Result<T, WalkFault>,
    ) -> Result<T, DiskFault>
        ensures { Counts self.old.faults self.new.faults (disk_failed result) }
    {
        match done {
            Ok(value) => self.count("listing", prefix, Ok(value)),
            Err(fault) => {
                if let Some(place) = &fault.place {
                    self.note_at("listing", place.as_str(), &fault.error);
                }
                self.count("listing", prefix, Err(fault.error))
            }
        }
    }

    /// Keeps what is said of a fault at a place from the current folder.
    fn note_at(&mut self, call: &str, place: &str, error: &io::Error)
        ensures { self.new.faults ≡ self.old.faults }
    {
        if !is_memory(error) {
            self.first.keep(self.folder.rt.alloc(), call, place, error);
        }
    }

    /// Keeps what is said of a fault. Without the lock, where that is to be taken, nothing else was tried.
    fn note(&mut self, call: &str, path: &str, error: &io::Error)
        ensures { self.new.faults ≡ self.old.faults }
    {
        let alloc = self.folder.rt.alloc();
        if self.folder.lock.is_none() && !self.folder.is_reading {
            self.first.keep(alloc, "lock", LOCK, error);
        } else if let Ok(place) = join(alloc, ROOT, path) {
            self.first.keep(alloc, call, place.as_str(), error);
        }
    }
}

impl<'a, R: Files> FolderDisk<'a, R> {
    ghost use Rattle.std.specs.Prelude.{◌≡◌};

    /// Says to later processes that all is durable which this object changed, where it is, and removes the folders for temporary files that are empty.
    pub fn close(&mut self)
        ensures { self.new.faults ≡ self.old.faults }
    {
        self.folder.remove_emptied();
        if self.folder.is_marked && self.folder.changed.is_empty() {
            // Where it stays, a later process syncs once more.
            let _ = fs::remove_file(&self.folder.rt, UNSYNCED);
        }
    }
}

impl<'a, R: Files> BuildFolder<'a, R> {
    /// Removes the folders for temporary files that are empty.
    fn remove_emptied(&self) {
        for folder in &self.emptied {
            remove_temporary(&self.rt, folder.as_str());
        }
    }
}

impl<'a, R: Locking + AllocGlobal> FolderDisk<'a, R> {
    ghost use Rattle.std.specs.Prelude.{◌≡◌};

    /// Takes the lock of a run before the first call, where its file is there and nobody else has it, and says whether this
    /// object has it. Then the calls answer from what `ahead` reads from now on. Nothing is made or written.
    pub fn hold_early(&mut self, ahead: &'a ReadAhead) -> bool
        ensures { self.new.faults ≡ self.old.faults }
    {
        if let Ok(file) = self.folder.rt.find_lock(LOCK) {
            self.folder.lock = Some(file);
            self.folder.ahead = Some(ahead);
            return true;
        }
        false
    }
}

impl<R: Files + Clock + Locking + Syncing + AllocGlobal + Clone + Drop> Disk for FolderDisk<'_, R> {
    ghost use Rattle.outside_traits.specs.Story.{Story};

    ghost tells = { ⊥ };

    ghost reach = { 4096 };

    ghost faults = { λ s. s.faults };

    ghost story = { λ _. record { held = λ _. None; calls = [] } };

    ghost sound = { λ _ told. absurd told };

    fn read(&mut self, _alloc: Global, path: &str) -> Result<Option<Entry>, DiskFault> {
        let mut found = self.folder.read(path);
        if self.folder.opened_for(&found, path) {
            found = self.folder.read(path);
        }
        self.count("read", path, found)
    }

    fn write(&mut self, path: &str, entry: &Entry) -> Result<(), DiskFault> {
        let mut done = self.folder.write(path, entry);
        if self.folder.opened_for(&done, path) {
            done = self.folder.write(path, entry);
        }
        self.count("write", path, done)
    }

    fn rename(&mut self, from: &str, to: &str) -> Result<(), DiskFault> {
        let mut done = self.folder.rename(from, to);
        if self.folder.opened_for(&done, from) | self.folder.opened_for(&done, to) {
            done = self.folder.rename(from, to);
        }
        self.count("rename", from, done)
    }

    fn remove(&mut self, path: &str) -> Result<(), DiskFault> {
        let mut done = self.folder.remove(path);
        if self.folder.opened_for(&done, path) {
            done = self.folder.remove(path);
        }
        self.count("removal", path, done)
    }

    fn list(&mut self, alloc: Global, prefix: &str) -> Result<Texts, DiskFault> {
        let mut paths = self.folder.list(alloc, prefix);
        if self.folder.opened_for_walk(&paths, prefix) {
            paths = self.folder.list(alloc, prefix);
        }
        self.count_listing(prefix, paths)
    }

    fn sync(&mut self) -> Result<(), DiskFault> {
        let done = self.folder.sync();
        self.count("sync", "", done)
    }

    fn end_sync(&mut self, moment: u64, done: bool) -> Result<(), DiskFault> {
        let ended = self.folder.end_sync(moment, done);
        self.count("sync", "", ended)
    }

    fn moment(&self) -> u64 {
        self.folder.calls
    }
}

impl<'a, R: Files + Clock + Locking + Syncing + AllocGlobal + Clone + Drop> BuildFolder<'a, R> {
    /// Takes the lock of a run, unless this object has it or only looks.
    fn hold(&mut self) -> io::Result<()> {
        if self.lock.is_none() && !self.is_reading {
            make_own(&self.rt, BENCHES_FOLDER)?;
            self.lock = Some(self.rt.take_lock(LOCK)?);
        }
        Ok(())
    }

    /// Where a call at a path was refused since this user may not make it, opens up the folders above the path, and says whether
    /// the call is to be made again. Where this object only looks they aren't.
    fn opened_for<T>(&self, done: &io::Result<T>, path: &str) -> bool {
        match done {
            Err(error) => is_denied(error) && self.opens_above(path),
            Ok(_) => false,
        }
    }

    /// The same of a listing.
    fn opened_for_walk<T>(&self, done: &Result<T, WalkFault>, prefix: &str) -> bool {
        match done {
            Err(fault) => is_denied(&fault.error) && self.opens_above(prefix),
            Ok(_) => false,
        }
    }

    /// Opens up the folders above a path, and those above the lock, unless this object only looks.
    fn opens_above(&self, path: &str) -> bool {
        if self.is_reading {
            return false;
        }
        let lock = open_above(&self.rt, ROOT, "bench/lock").is_ok();
        open_above(&self.rt, ROOT, path).is_ok() && lock
    }

    /// The place, from the current folder, of a path at which an entry can stand: a clean one, outside the benches, that
    /// has only folders above it.
    fn open_place(&mut self, path: &str) -> io::Result<Option<String>> {
        if !is_clean(path) || is_apart(path) {
            return Ok(None);
        }
        if !self.seen.is_reached(&self.rt, ROOT, path)? {
            return Ok(None);
        }
        Ok(Some(join(self.rt.alloc(), ROOT, path)?))
    }

    fn read(&mut self, path: &str) -> io::Result<Option<Entry>> {
        self.hold()?;
        if let Some(seen) = self.listed.next(path) {
            return self.read_seen(path, &seen);
        }
        let Some(whole) = self.open_place(path)? else {
            return Ok(None);
        };
        match look(&self.rt, whole.as_str())? {
            Some(metadata) if is_entry(&metadata) => {
                read_at(&self.rt, path, whole.as_str(), &FileFacts::of(&metadata))
            }
            _ => Ok(None),
        }
    }

    /// The entry at a path that the last listing saw.
    fn read_seen(&mut self, path: &str, seen: &Seen<'_>) -> io::Result<Option<Entry>> {
        match seen.bytes {
            Some(bytes) if seen.facts.is_file() => {
                Ok(Some(entry_of(self.rt.alloc(), &seen.facts, bytes)?))
            }
            _ => {
                put_joined(&mut self.whole, ROOT, path)?;
                read_at(&self.rt, path, self.whole.as_str(), &seen.facts)
            }
        }
    }

    /// Takes the lock, and forgets what was listed and read ahead, since something changes. Before the first change all is made durable that
    /// an earlier process may have left unsynced, so that what is held is on the disk for good. An error where this object only looks.
    fn begin_change(&mut self) -> io::Result<()> {
        if self.is_reading {
            return Err(io::Error::from(ErrorKind::Unsupported));
        }
        self.hold()?;
        self.listed.forget();
        self.ahead = None;
        if !self.is_marked {
            match look(&self.rt, UNSYNCED)? {
                Some(_) => self.sync_all()?,
                None => fs::write(&self.rt, UNSYNCED, "")?,
            }
            self.is_marked = true;
        }
        Ok(())
    }

    /// Makes all durable that is there.
    fn sync_all(&self) -> io::Result<()> {
        if self.syncs.wait(&self.rt) {
            return Ok(());
        }
        self.check_syncs()?;
        let mut folders = BTreeSet::new(self.rt.alloc());
        for item in walk_part(&self.rt, &part_of(""), u64::MAX)?
            .into_iter()
            .flatten()
        {
            let whole = join(self.rt.alloc(), ROOT, item.path.as_str())?;
            sync_place(&self.rt, whole.as_str())?;
            note_all_above(&mut folders, self.rt.alloc(), whole.as_str())?;
        }
        for folder in &folders {
            sync_place(&self.rt, folder.as_str())?;
        }
        Ok(())
    }

    /// An error where a sync of all failed.
    fn check_syncs(&self) -> io::Result<()> {
        match self.syncs.failure() {
            Some(failure) => Err(io::Error::new(ErrorKind::Other, failure)),
            None => Ok(()),
        }
    }

    fn write(&mut self, path: &str, entry: &Entry) -> io::Result<()> {
        self.begin_change()?;
        if is_apart(path) {
            return Err(io::Error::from(ErrorKind::InvalidInput));
        }
        let whole = join(self.rt.alloc(), ROOT, path)?;
        self.note_above(whole.as_str())?;
        if let Entry::File { exec: _, bytes: _ } = entry {
            self.note(whole.as_str(), false)?;
        }
        self.seen.make_above(&self.rt, ROOT, path)?;
        self.seen.forget(whole.as_str());
        lay_entry(&self.rt, whole.as_str(), entry, None)
    }

    fn rename(&mut self, from: &str, to: &str) -> io::Result<()> {
        self.begin_change()?;
        let source = match self.open_place(from)? {
            Some(source) if !is_apart(to) => source,
            _ => return Err(io::Error::from(ErrorKind::InvalidInput)),
        };
        let target = join(self.rt.alloc(), ROOT, to)?;
        self.note_above(source.as_str())?;
        self.note_above(target.as_str())?;
        self.seen.make_above(&self.rt, ROOT, to)?;
        self.seen.forget(source.as_str());
        self.seen.forget(target.as_str());
        move_entry(&self.rt, source.as_str(), target.as_str())?;
        self.remove_empty_above(source.as_str())
    }

    fn remove(&mut self, path: &str) -> io::Result<()> {
        self.hold()?;
        let Some(whole) = self.open_place(path)? else {
            return Ok(());
        };
        match look(&self.rt, whole.as_str())? {
            Some(metadata) if is_entry(&metadata) => {
                self.begin_change()?;
                self.note_above(whole.as_str())?;
                fs::remove_file(&self.rt, whole.as_str())?;
                self.remove_empty_above(whole.as_str())
            }
            _ => Ok(()),
        }
    }

    fn list(&mut self, alloc: Global, prefix: &str) -> Result<Texts, WalkFault> {
        self.hold()?;
        if let Some(listing) = self.listing_ahead(prefix) {
            self.listed.take(listing);
            return Ok(listing.texts(alloc)?);
        }
        self.listed.forget();
        let mut paths = Texts::new(alloc);
        let part = Part {
            mends: !self.is_reading,
            ..part_of(prefix)
        };
        for item in walk_part(&self.rt, &part, u64::MAX)?.into_iter().flatten() {
            self.listed.put(item.path.as_str(), item.facts)?;
            paths.push(item.path)?;
        }
        Ok(paths)
    }

    /// What was read ahead of the part with this prefix.
    fn listing_ahead(&self, prefix: &str) -> Option<&'a Listing> {
        self.ahead?.listing(prefix)
    }

    fn sync(&mut self) -> io::Result<()> {
        self.hold()?;
        if self.changed.len() > FEW
            && self.is_one_system()?
            && self.is_slow()?
            && self.wait_for_all()?
        {
            return self.settle(u64::MAX);
        }
        self.sync_each()
    }

    /// Whether syncing what was changed, one after the other, takes longer than a sync of all. Where nothing is known of that, some are synced.
    fn is_slow(&mut self) -> io::Result<bool> {
        let each = match self.pace {
            Some(each) => each,
            None => self.sync_first(FEW)?,
        };
        Ok(each.saturating_mul(self.changed.len() as u64) > self.pace_of_all.unwrap_or(LONG))
    }

    /// Waits for a sync of all, and says whether it went well.
    fn wait_for_all(&mut self) -> io::Result<bool> {
        let begun = self.rt.monotonic()?;
        let is_synced = self.syncs.wait(&self.rt);
        let spent = self.rt.monotonic()?.saturating_sub(begun);
        self.pace_of_all = Some(u64::try_from(spent.as_micros()).unwrap_or(u64::MAX));
        Ok(is_synced)
    }

    /// Makes durable what was changed up to a moment, if it is so by a sync that was waited for; else all.
    fn end_sync(&mut self, moment: u64, done: bool) -> io::Result<()> {
        self.hold()?;
        if done && self.is_one_system()? {
            return self.settle(moment);
        }
        self.sync_each()
    }

    /// Whether all that is to be synced stands on one file system.
    fn is_one_system(&self) -> io::Result<bool> {
        self.seen.are_on(&self.rt, ROOT)
    }

    /// Notes that all is durable that was changed up to a moment.
    fn settle(&mut self, moment: u64) -> io::Result<()> {
        for (path, change) in &self.changed {
            if change.is_folder && change.moment <= moment {
                self.settled
                    .insert(String::from_str(self.rt.alloc(), path.as_str())?)?;
            }
        }
        self.changed.retain(|_, change| change.moment > moment);
        Ok(())
    }

    /// Makes each changed file and folder durable. Where a sync of all failed, none is known to be.
    fn sync_each(&mut self) -> io::Result<()> {
        self.check_syncs()?;
        if !self.changed.is_empty() {
            self.sync_first(usize::MAX)?;
        }
        self.changed.clear();
        Ok(())
    }

    /// Makes the first changed files and folders durable, so many at most, and gives the microseconds that this took for each.
    fn sync_first(&mut self, most: usize) -> io::Result<u64> {
        let begun = self.rt.monotonic()?;
        let mut count = 0u64;
        for (path, _) in self.changed.iter().take(most) {
            if sync_place(&self.rt, path.as_str())? {
                self.settled
                    .insert(String::from_str(self.rt.alloc(), path.as_str())?)?;
            }
            count = count.saturating_add(1);
        }
        let spent = self.rt.monotonic()?.saturating_sub(begun);
        let each = u64::try_from(spent.as_micros()).unwrap_or(u64::MAX) / count.max(1);
        self.pace = Some(each);
        Ok(each)
    }

    /// Removes the folders above a path, from the nearest on, up to one that isn't empty or is the root.
    fn remove_empty_above(&mut self, path: &str) -> io::Result<()> {
        let mut folder = above(path);
        for _ in 0..u64::MAX {
            if is_temporary(folder) {
                let emptied = String::from_str(self.rt.alloc(), folder)?;
                self.emptied.insert(emptied)?;
                break;
            }
            if folder == ROOT || !self.remove_if_empty(folder)? {
                break;
            }
            self.note_above(folder)?;
            self.settled.remove(folder);
            self.changed.remove(folder);
            self.seen.forget_empty(folder);
            folder = above(folder);
        }
        Ok(())
    }

    /// Removes a folder where nothing stands in it, and says whether it did. It is tried and not looked up first, so that it costs the same
    /// however much stands in the folder. The folders above it are opened up, where need be.
    fn remove_if_empty(&self, folder: &str) -> io::Result<bool> {
        match remove_folder(&self.rt, folder) {
            Err(error) if is_denied(&error) => {
                if !is_empty(&self.rt, folder) {
                    return Ok(false);
                }
                open_above(&self.rt, ROOT, inside_root(folder))?;
                remove_folder(&self.rt, folder)
            }
            done => done,
        }
    }

    /// Notes a file or a folder as changed by the call that is being made, and says whether it wasn't noted as changed before.
    fn note(&mut self, path: &str, is_folder: bool) -> Result<bool, AllocError> {
        let moment = self.calls.saturating_add(1);
        let change = Change { is_folder, moment };
        match self.changed.get_mut(path) {
            Some(before) => {
                *before = change;
                Ok(false)
            }
            None => {
                self.changed
                    .insert(String::from_str(self.rt.alloc(), path)?, change)?;
                Ok(true)
            }
        }
    }

    /// Notes the folder above a path as changed. The folders above that one are noted as far as they are not known to
    /// be durable: they may be new, or left by a process that didn't come to its sync.
    fn note_above(&mut self, path: &str) -> io::Result<()> {
        let mut folder = above(path);
        for _ in 0..u64::MAX {
            let is_new = self.note(folder, true)?;
            if !is_new || folder == HERE || self.settled.contains(folder) {
                break;
            }
            folder = above(folder);
        }
        Ok(())
    }
}

/// The entry at a path of the disk, which was looked at. A file that is too long for what stands at that path isn't read, a file
/// that this user may not read, or a link whose text isn't UTF-8, can't be: something counts in its place that is nothing of the store's.
fn read_at<R: Files + AllocGlobal>(
    rt: &R,
    path: &str,
    whole: &str,
    facts: &FileFacts,
) -> io::Result<Option<Entry>> {
    if is_beyond(path, facts) {
        return Ok(Some(no_entry_of_the_store(rt.alloc(), path)?));
    }
    match read_unchanged(rt, whole, facts) {
        Err(error) if is_denied(&error) || error.kind() == ErrorKind::InvalidFilename => {
            Ok(Some(no_entry_of_the_store(rt.alloc(), path)?))
        }
        found => found,
    }
}

/// The part of the disk whose paths begin so.
pub fn part_of(prefix: &str) -> Part<'_> {
    Part {
        root: ROOT,
        prefix,
        hidden: APART,
        opens: false,
        mends: true,
        notes: false,
        follows: false,
    }
}

/// Whether a path is one in a folder that is no part of the disk.
fn is_apart(path: &str) -> bool {
    APART.iter().any(|name| is_below(*name, path))
}

/// The path inside the root of a place below it.
fn inside_root(place: &str) -> &str {
    match place.strip_prefix(ROOT) {
        Some(path) => path.strip_prefix('/').unwrap_or(path),
        None => place,
    }
}

/// The folder above a path, from the current folder.
fn above(path: &str) -> &str {
    match path.rsplit_once('/') {
        Some((folder, _)) => folder,
        None => HERE,
    }
}

/// Whether temporary files stand in a folder. Such a one isn't removed where it becomes empty, since one that was just made durable takes a disk a millisecond
/// to remove, and the next publication wants it again.
fn is_temporary(folder: &str) -> bool {
    match folder.strip_prefix(TEMPORARY) {
        Some(rest) => rest.is_empty() || rest.starts_with('/'),
        None => false,
    }
}

/// Removes a folder for temporary files, and those above it, as far as they are empty.
fn remove_temporary<R: Files>(rt: &R, folder: &str) {
    let mut folder = folder;
    for _ in 0..u64::MAX {
        if !is_temporary(folder) || !remove_folder(rt, folder).unwrap_or(false) {
            break;
        }
        folder = above(folder);
    }
}

/// Adds the folders that a path has above it to a set.
fn note_all_above(
    folders: &mut BTreeSet<String>,
    alloc: Global,
    path: &str,
) -> Result<(), AllocError> {
    let mut folder = above(path);
    for _ in 0..u64::MAX {
        if folders.contains(folder) {
            break;
        }
        folders.insert(String::from_str(alloc, folder)?)?;
        if folder == HERE {
            break;
        }
        folder = above(folder);
    }
    Ok(())
}

/// Makes what stands at a path durable, a file with its bytes and a folder with its names, and says whether it is a
/// folder. A link is durable with its folder; the root may be a link to a folder.
fn sync_place<R: Files>(rt: &R, path: &str) -> io::Result<bool> {
    let found = if path == ROOT {
        look_through(rt, path)?
    } else {
        look(rt, path)?
    };
    match found {
        Some(metadata) if metadata.is_file() || metadata.is_dir() => {
            open_up(rt, path, &FileFacts::of(&metadata))?;
            fs::open(rt, path)?.sync_all()?;
            Ok(metadata.is_dir())
        }
        _ => Ok(false),
    }
}
