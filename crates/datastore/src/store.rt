// The datastore.
ghost use Rattle.std.specs.Prelude.{◌≡◌, ◌++◌, ◌∷◌, [], OnOk, OnErr, IfOk, IfErr, IfSome, Ok, Some, None, option_copied, is_some, filter, fold, true, List, ℕ};
ghost use Rattle.std.specs.Option.{option_map};
ghost use Rattle.std.specs.Arc.{arc_value};
ghost use Rattle.meta_model.specs.declared.entry.EntryLine.{EntryLine as Line};
ghost use Rattle.meta_model.specs.Active as entries;
ghost use Rattle.meta_model.specs.Base as base;
ghost use Rattle.meta_model.specs.Overrides as under;
ghost use Rattle.meta_model.specs.Tasks as tasks;
ghost use Rattle.meta_model.specs.Text.{is_in};
ghost use Rattle.meta_model.specs.Frozen as frozen;
ghost use Rattle.datastore.specs.Faults.{IsDataFault};
ghost use Rattle.datastore.specs.Looked.{AreOf};
ghost use Rattle.value_maps.specs.Maps.{Keeps, KeepsBase, base_of, under_entries};
ghost use Rattle.value_maps.specs.FlagsTold.{flag_told};
ghost use Rattle.datastore.specs.Anew.{moved};
ghost use Rattle.datastore.specs.Parts.{moved_with};

use crate::fault::DataFault;
use crate::freeze::{apply_all, retell, tell_anew};
use crate::line::{copy_line, push_tasks};
use crate::looked::{
    Overrides, expand_anew, expand_over, overrides_of, resolved_anew, resolved_over, settled_in,
    value_anew, value_over,
};
use crate::tasks::ordered_tasks;
use meta_model::{EntryLine, Resolved};
use std::alloc::Global;
use std::marker::Model;
use std::sync::Arc;
use tree_model::{Mem, Text, Texts};
use value_maps::{AllFlags, Base, Maps};

/// What entries give. Contracts see the list of the entries, in the order in which they were applied: those that are shared, and
/// behind them the store's own. Where names were moved, it begins with what that made of all entries before.
#[derive(Drop)]
pub struct Datastore {
    past: Vec<Vec<EntryLine>>,
    entries: Vec<EntryLine>,
    maps: Maps,
    settled: Option<Overrides>,
}

impl Model for Datastore {
    ghost use Rattle.std.specs.Prelude.{List};
    ghost use Rattle.meta_model.specs.declared.entry.EntryLine.{EntryLine as Line};

    ghost Value = { List Line };

    ghost use Rattle.datastore.specs.Store.{IsStore, all_entries};

    ghost view = { λ s. all_entries s.maps s.past.items s.entries.items };

    ghost invariant = { λ s. IsStore (all_entries s.maps s.past.items s.entries.items) s.maps s.settled };
}

/// Entries that stores share. Contracts see the list of the entries.
#[derive(Drop)]
pub struct SharedStore {
    store: Datastore,
}

impl Model for SharedStore {
    ghost use Rattle.std.specs.Prelude.{List};
    ghost use Rattle.meta_model.specs.declared.entry.EntryLine.{EntryLine as Line};

    ghost Value = { List Line };

    ghost view = { λ s. s.store };
}

impl SharedStore {
    /// A store of these entries, to which more may be applied. It costs what its own entries touch: the shared entries are not
    /// copied.
    pub fn top(&self, alloc: Global) -> Result<Datastore, Mem>
        ensures { IfOk result (λ made. made ≡ self.now) }
    {
        self.store.copy(alloc)
    }
}

/// No active overrides are kept any longer.
fn forget(settled: &mut Option<Overrides>)
    ensures { settled.new ≡ None }
{
    *settled = None;
}

/// Whether a store shares nothing, and none of its names were moved.
fn is_alone(maps: &Maps, past: &[Vec<EntryLine>]) -> bool
    ensures { result ≡ true → (base_of maps.now ≡ None) × (past.now ≡ []) }
{
    maps.is_alone() && past.is_empty()
}

impl Datastore {
    /// A store without entries. It takes no memory.
    pub fn new(alloc: Global) -> Datastore
        ensures { result ≡ [] }
    {
        Datastore {
            past: Vec::new(alloc),
            entries: Vec::new(alloc),
            maps: Maps::new(alloc),
            settled: None,
        }
    }

    /// A store of shared entries alone.
    fn over(alloc: Global, base: Option<Arc<Base>>) -> Datastore
        requires { KeepsBase (option_map arc_value base) }
        ensures { result ≡ under_entries (option_map arc_value base) }
    {
        Datastore {
            past: Vec::new(alloc),
            entries: Vec::new(alloc),
            maps: Maps::over(alloc, base),
            settled: None,
        }
    }

    /// One more entry, which is copied. Where memory is wanting, the store is as before.
    pub fn apply(&mut self, alloc: Global, line: &EntryLine) -> Result<(), Mem>
        ensures ok { OnOk result (self.new ≡ self.old ++ line.now ∷ []) }
        ensures err { OnErr result (self.new ≡ self.old) }
    {
        self.apply_line(alloc, copy_line(line)?)
    }

    /// One more entry. Where memory is wanting, the store is as before.
    pub fn apply_line(&mut self, alloc: Global, line: EntryLine) -> Result<(), Mem>
        ensures ok { OnOk result (self.new ≡ self.old ++ line ∷ []) }
        ensures err { OnErr result (self.new ≡ self.old) }
    {
        self.entries.reserve(1)?;
        self.maps.change(alloc, &line)?;
        self.entries.push_reserved(line);
        forget(&mut self.settled);
        Ok(())
    }

    /// The same store again. What it shares with others is not copied.
    pub fn copy(&self, alloc: Global) -> Result<Datastore, Mem>
        ensures { IfOk result (λ made. made ≡ self.now) }
    {
        let start = Datastore::over(alloc, self.maps.copy_base()?);
        let mut made = replay(alloc, start, self.past.as_slice())?;
        apply_all(&mut made, alloc, self.entries.as_slice())?;
        Ok(made)
    }

    /// The entries, to be shared by stores.
    pub fn share(self, alloc: Global) -> Result<SharedStore, Mem>
        ensures { IfOk result (λ made. made ≡ self) }
    {
        Ok(SharedStore {
            store: self.ground(alloc)?,
        })
    }

    /// The same store, whose own entries are shared ones from now on, unless it shares some already or its names were moved.
    fn ground(self, alloc: Global) -> Result<Datastore, Mem>
        ensures { IfOk result (λ made. made ≡ self) }
    {
        let Datastore {
            past,
            entries,
            maps,
            settled,
        } = self;
        if is_alone(&maps, past.as_slice()) {
            let base = maps.share(alloc, entries)?;
            return Ok(Datastore::over(alloc, Some(base)));
        }
        Ok(Datastore {
            past,
            entries,
            maps,
            settled,
        })
    }

    /// What a name has under these active overrides. It fails for want of memory alone.
    pub(crate) fn resolved_under(
        &self,
        alloc: Global,
        name: &str,
        active: &[Text],
    ) -> Result<Option<Resolved>, Mem>
        ensures { IfOk result (λ made. made ≡ under.resolved self.now active.now name.now) }
    {
        self.maps.resolve(alloc, name, active)
    }

    /// Works out the active overrides, or why there are none, and keeps them until the next entry is applied. Without it each
    /// look-up works them out anew. The store stands for the same entries, also where memory is wanting.
    pub fn settle(&mut self, alloc: Global) -> Result<(), Mem>
        ensures { self.new ≡ self.old }
    {
        let overrides = self.overrides(alloc)?;
        self.settled = Some(overrides);
        Ok(())
    }

    /// The active overrides, worked out anew.
    pub(crate) fn overrides(&self, alloc: Global) -> Result<Overrides, Mem>
        ensures { IfOk result (λ made. AreOf self.now made) }
    {
        overrides_of(alloc, self)
    }

    /// What a name has: its value with the late entries that count, before expansion, the removes that count, and the flags
    /// `export` and `func` where they are set ("Conditional Metadata", "Appending and Prepending (Override Style Syntax)",
    /// "Removal (Override Style Syntax)").
    ///
    /// It is refused exactly where the active overrides are: they don't settle, or the value of OVERRIDES isn't expanded.
    pub fn resolved(&self, alloc: Global, name: &str) -> Result<Option<Resolved>, DataFault>
        ensures ok { IfOk result (λ made. (entries.find_in self.now).at name.now ≡ Ok made) }
        ensures err { IfErr result (λ fault. IsDataFault fault ((entries.find_in self.now).at name.now)) }
    {
        match &self.settled {
            Some(overrides) => resolved_over(alloc, name, self, overrides),
            None => resolved_anew(alloc, name, self),
        }
    }

    /// The expanded value of a name ("Variable Expansion"), without the words of its removes.
    ///
    /// It is refused as `resolved` is, and where expansion is.
    pub fn value(&self, alloc: Global, name: &str) -> Result<Option<Text>, DataFault>
        ensures ok { IfOk result (λ made. entries.value self.now name.now ≡ Ok made) }
        ensures err { IfErr result (λ fault. IsDataFault fault (entries.value self.now name.now)) }
    {
        match &self.settled {
            Some(overrides) => value_over(alloc, name, self, overrides),
            None => value_anew(alloc, name, self),
        }
    }

    /// A text expanded over the store. A text without references looks nothing up, so it isn't refused where the active
    /// overrides are (own rule).
    pub fn expand(&self, alloc: Global, text: &str) -> Result<Text, DataFault>
        ensures ok { IfOk result (λ made. entries.expand self.now text.now ≡ Ok made) }
        ensures err { IfErr result (λ fault. IsDataFault fault (entries.expand self.now text.now)) }
    {
        match &self.settled {
            Some(overrides) => expand_over(alloc, text, self, overrides),
            None => expand_anew(alloc, text, self),
        }
    }

    /// What is kept of each name.
    pub(crate) fn maps(&self) -> &Maps
        ensures { Keeps self.now result.now }
    {
        &self.maps
    }

    /// A flag of a name, unexpanded ("Variable Flag Syntax"). It takes no memory.
    pub fn flag(&self, name: &str, flag: &str) -> Option<&str>
        ensures { option_copied result ≡ base.flag self.now name.now flag.now }
    {
        self.maps.flag_of(name, flag)
    }

    /// The flags of a name, which is looked up once for all of them.
    pub fn flags(&self, name: &str) -> AllFlags<'_>
        ensures { (f : List ℕ) → flag_told result f ≡ base.flag self.now name.now f }
    {
        self.maps.flags(name)
    }

    /// The names of which entries leave something, in byte order: a value, a weak default, a late entry or a flag.
    pub fn names(&self, alloc: Global) -> Result<Texts, Mem>
        ensures { IfOk result (λ made. made ≡ base.names self.now) }
    {
        self.maps.names(alloc)
    }

    /// The names that have the flag, in byte order. It looks at each name that is kept once, and copies those alone that have the
    /// flag.
    pub fn flagged(&self, alloc: Global, flag: &str) -> Result<Texts, Mem>
        ensures names { IfOk result (λ made. made ≡ filter (λ t. is_some (base.flag self.now t flag.now))
            (base.names self.now)) }
        ensures all { IfOk result (λ made. (t : List ℕ) → is_in t made ≡ is_some (base.flag self.now t flag.now)) }
    {
        self.maps.flagged(alloc, flag)
    }

    /// The active overrides, where they are worked out and kept: then no look-up of a name is refused.
    pub fn active(&self) -> Option<&[Text]>
        ensures { IfSome result (λ active. entries.active self.now ≡ Ok active.now) }
    {
        match &self.settled {
            Some(overrides) => settled_in(overrides),
            None => None,
        }
    }

    /// The tasks in byte order, each with the tasks that it comes after, in byte order ("Promoting a Function to a Task",
    /// "Deleting a Task"). The entries are gone through twice, whatever the number of tasks.
    pub fn tasks(&self, alloc: Global) -> Result<Vec<(Text, Texts)>, Mem>
        ensures { IfOk result (λ made. made.items ≡ tasks.tasks self.now) }
    {
        let lines = self.task_lines(alloc)?;
        ordered_tasks(alloc, lines.as_slice())
    }

    /// Copies of the entries of tasks.
    fn task_lines(&self, alloc: Global) -> Result<Vec<EntryLine>, Mem>
        ensures { IfOk result (λ made. made.items ≡ filter frozen.is_task_line self.now) }
    {
        let mut made = Vec::new(alloc);
        push_tasks(&mut made, self.maps.entries())?;
        push_past(&mut made, self.past.as_slice())?;
        push_tasks(&mut made, self.entries.as_slice())?;
        Ok(made)
    }

    /// The store once the names that hold references are moved to what they expand to ("Key Expansion"). Names that stay come
    /// first, those that move behind them, each in byte order, then the entries of tasks; all are expanded over the entries as
    /// they are given, the names before the conditions of late entries (own rules).
    ///
    /// It is refused where the expansion of one of these is; of several refusals the first name's comes, then the first
    /// condition's.
    pub fn freeze(self, alloc: Global) -> Result<Datastore, DataFault>
        ensures ok { IfOk result (λ made. frozen.frozen self ≡ Ok made) }
        ensures err { IfErr result (λ fault. IsDataFault fault (frozen.frozen self)) }
    {
        let overrides = self.overrides(alloc)?;
        let anew = tell_anew(alloc, &self, &self.maps, &overrides)?;
        let Datastore {
            past,
            entries,
            maps,
            settled: _,
        } = self;
        let past = with_part(past, entries)?;
        let maps = retell(alloc, maps, anew)?;
        Ok(Datastore {
            past,
            entries: Vec::new(alloc),
            maps,
            settled: None,
        })
    }
}

/// Lists of entries, with one more behind them.
fn with_part(past: Vec<Vec<EntryLine>>, part: Vec<EntryLine>) -> Result<Vec<Vec<EntryLine>>, Mem>
    ensures { IfOk result (λ made. made.items ≡ past.items ++ part ∷ []) }
{
    let mut made = past;
    made.push(part)?;
    Ok(made)
}

/// Puts copies of the entries of tasks behind those of what names that were moved made of.
fn push_past(lines: &mut Vec<EntryLine>, past: &[Vec<EntryLine>]) -> Result<(), Mem>
    ensures { OnOk result ((list : List Line) → lines.old.items ≡ filter frozen.is_task_line list
        → lines.new.items ≡ filter frozen.is_task_line (fold moved_with list past.now)) }
{
    for part in past {
        push_tasks(lines, part.as_slice())?;
    }
    Ok(())
}

/// A store with more entries, and its names moved then.
fn moved_store(alloc: Global, store: Datastore, part: &[EntryLine]) -> Result<Datastore, Mem>
    ensures { IfOk result (λ made. made ≡ moved (store ++ part.now)) }
{
    let mut store = store;
    apply_all(&mut store, alloc, part)?;
    match store.freeze(alloc) {
        Ok(made) => Ok(made),
        Err(_) => Err(Mem),
    }
}

/// A store with more entries, and its names moved behind each list of these.
fn replay(alloc: Global, store: Datastore, past: &[Vec<EntryLine>]) -> Result<Datastore, Mem>
    ensures { IfOk result (λ made. made ≡ fold moved_with store past.now) }
{
    let mut made = store;
    for part in past {
        made = moved_store(alloc, made, part.as_slice())?;
    }
    Ok(made)
}
