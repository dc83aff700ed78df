// The keys of the tasks of a store.
ghost use Rattle.std.specs.Prelude.{◌≡◌, List, ℕ, Some, None, true, false, IfOk, IfErr, OnOk, Ok, codes, is_some, filter};
ghost use Rattle.meta_model.specs.declared.value.Resolved.{Resolved as Has};
ghost use Rattle.meta_model.specs.Active.{find_in};
ghost use Rattle.meta_model.specs.Base.{flag, names};
ghost use Rattle.meta_model.specs.Text.{in_byte_order, is_in};
ghost use Rattle.datastore.specs.Faults.{IsDataFault, refusal_of};
ghost use Rattle.task_model.specs.Views.{is_bare};
ghost use Rattle.task_model.specs.Leads.{value_words};
ghost use Rattle.task_model.specs.Keys.{key};
ghost use Rattle.var_deps.specs.Kept.{IsRight};

use crate::exports::{Exports, exports_of};
use crate::line::{Known, Line};
use crate::seen::{Seen, found_in, is_bare};
use crate::table::{Shared, Table};
use datastore::{DataFault, Datastore};
use meta_model::{Key, is_among};
use std::alloc::Global;
use std::collections::BTreeMap;
use std::marker::Model;
use tree_model::{Mem, Text, Texts};
use var_expand::{ExpandFault, words};

/// The keys of the tasks of one store. What a name leads to, and its line, are found out once, for all tasks that ask for it; all
/// that the exported names lead to is walked once. A key then costs a look-up for each of its lines, and one for each name that a
/// name leads to which the exported ones don't. Contracts see the entries of the store.
#[derive(Drop)]
pub struct StoreKeys<'a> {
    table: Table<'a>,
    exports: Exports,
    sstate: Texts,
}

impl<'a> Model for StoreKeys<'a> {
    ghost use Rattle.std.specs.Prelude.{List};
    ghost use Rattle.meta_model.specs.declared.entry.EntryLine.{EntryLine as Entry};
    ghost use Rattle.var_deps.specs.OfStore.{IsOfStore};

    ghost Value = { List Entry };

    ghost view = { λ k. k.table.shared.seen.store.now };

    ghost invariant = { λ k. IsOfStore k.table k.exports k.sstate };
}

/// The words of the expanded value of a name, none where it has no value.
fn words_of(alloc: Global, store: &Datastore, name: &str) -> Result<Texts, DataFault>
    ensures ok { IfOk result (λ made. value_words store.now name.now ≡ Ok made) }
    ensures err { IfErr result (λ fault. IsDataFault fault (value_words store.now name.now)) }
{
    match store.value(alloc, name)? {
        Some(text) => Ok(words(alloc, text.as_str())?),
        None => Ok(Texts::new(alloc)),
    }
}

/// Nothing is found because of this fault, unless it is want of memory.
fn not_found(fault: ExpandFault) -> Result<bool, Mem>
    ensures bare { IfOk result (λ made. made ≡ false) }
    ensures refused { OnOk result (is_some (refusal_of fault) ≡ true) }
{
    match fault {
        ExpandFault::Memory => Err(Mem),
        _ => Ok(false),
    }
}

/// Whether a name has an empty text and no removes, and is no function. Where nothing can be found it isn't.
fn is_bare_name(alloc: Global, store: &Datastore, name: &str) -> Result<bool, Mem>
    ensures { IfOk result (λ made. made ≡ false → (found : Has) → (find_in store.now).at name.now ≡ Ok (Some found)
        → is_bare found ≡ false) }
{
    match found_in(alloc, store, name) {
        Ok(Some(found)) => Ok(is_bare(&found)),
        Ok(None) => Ok(false),
        Err(fault) => not_found(fault),
    }
}

/// The names with the flag `export`, in byte order.
fn exported_names(alloc: Global, store: &Datastore) -> Result<Texts, Mem>
    ensures { IfOk result (λ made. made ≡ filter (λ n. is_some (flag store.now n (codes "export"))) (names store.now)) }
{
    store.flagged(alloc, "export")
}

/// The names with the flag `func`, in byte order.
fn function_names(alloc: Global, store: &Datastore) -> Result<Texts, Mem>
    ensures all { IfOk result (λ made. (t : List ℕ) → is_in t made ≡ is_some (flag store.now t (codes "func"))) }
    ensures ordered { IfOk result (λ made. in_byte_order made ≡ made) }
{
    store.flagged(alloc, "func")
}

/// A table in which nothing is kept yet.
fn empty_table<'a>(
    alloc: Global,
    store: &'a Datastore,
    ignored: Texts,
    functions: Texts,
) -> Table<'a>
    requires all { (t : List ℕ) → is_in t functions ≡ is_some (flag store.now t (codes "func")) }
    requires ordered { in_byte_order functions ≡ functions }
    ensures store { result.shared.seen.store.now ≡ store.now }
    ensures task { result.shared.seen.task ≡ None }
    ensures ignored { result.shared.ignored ≡ ignored }
    ensures right { IsRight result.shared }
{
    Table {
        shared: Shared {
            seen: Seen {
                store,
                task: None,
                functions,
            },
            ignored,
            known: BTreeMap::new(alloc),
        },
        task: Text::new(alloc),
        sstate: false,
        own: Known {
            led: Vec::new(alloc),
            line: Line::Told {
                value: None,
                left_out: false,
            },
        },
    }
}

impl StoreKeys<'_> {
    /// The keys of the tasks of a store, of which it is found out what the exported names lead to. A store that is settled is
    /// faster.
    ///
    /// It is refused where the keys of all tasks are: the active overrides are, or the value of BB_BASEHASH_IGNORE_VARS or of
    /// SSTATETASKS isn't expanded.
    pub fn new<'a>(alloc: Global, store: &'a Datastore) -> Result<StoreKeys<'a>, DataFault>
        ensures ok { IfOk result (λ made. made ≡ store.now) }
        ensures err { IfErr result (λ fault. (task : List ℕ) → IsDataFault fault (key store.now task)) }
    {
        let ignored = words_of(alloc, store, "BB_BASEHASH_IGNORE_VARS")?;
        let sstate = words_of(alloc, store, "SSTATETASKS")?;
        let exported = exported_names(alloc, store)?;
        let functions = function_names(alloc, store)?;
        let mut table = empty_table(alloc, store, ignored, functions);
        let exports = exports_of(alloc, &mut table.shared, exported)?;
        Ok(StoreKeys {
            table,
            exports,
            sstate,
        })
    }

    /// The store.
    pub fn store(&self) -> &Datastore
        ensures { result.now ≡ self.now }
    {
        self.table.shared.seen.store
    }

    /// The names with the flag `export`, in byte order.
    pub fn exported(&self) -> &[Text]
        ensures { result.now ≡ filter (λ n. is_some (flag self.now n (codes "export"))) (names self.now) }
    {
        self.exports.all.as_slice()
    }

    /// The key of a task: a line for each name that its script reads, directly or through others, absent names included, and
    /// whether something was left out on request ("Checksums (Signatures)").
    ///
    /// It is refused where BB_BASEHASH_IGNORE_VARS, SSTATETASKS, `[postfuncs]` or `[prefuncs]` isn't expanded, in this order, else
    /// where the texts of a name can't be read, the first such name in byte order (own rules).
    pub fn key(&mut self, alloc: Global, task: &str) -> Result<Key, DataFault>
        ensures ok { IfOk result (λ made. key self.old task.now ≡ Ok made) }
        ensures err { IfErr result (λ fault. IsDataFault fault (key self.old task.now)) }
        ensures same { self.new ≡ self.old }
    {
        let bare = is_bare_name(alloc, self.table.shared.seen.store, task)?;
        let sstate = is_among(task, self.sstate.as_slice());
        self.table.turn_to(alloc, task, bare, sstate)?;
        Ok(self.table.key(alloc, &self.exports)?)
    }
}

/// The key of one task. Of several tasks of a store `StoreKeys` gives the keys faster.
pub fn key(alloc: Global, store: &Datastore, task: &str) -> Result<Key, DataFault>
    ensures ok { IfOk result (λ made. key store.now task.now ≡ Ok made) }
    ensures err { IfErr result (λ fault. IsDataFault fault (key store.now task.now)) }
{
    let mut keys = StoreKeys::new(alloc, store)?;
    keys.key(alloc, task)
}
