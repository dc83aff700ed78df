// A store as a task sees it.
ghost use Rattle.std.specs.Prelude.{◌≡◌, ℕ, [], List, Result, Option, Some, true, IfOk, IfErr, Ok, codes, is_some, option_copied, if◌then◌else◌};
ghost use Rattle.meta_model.specs.Base.{flag};
ghost use Rattle.meta_model.specs.Text.{in_byte_order, is_in};
ghost use Rattle.meta_model.specs.Active.{find_in};
ghost use Rattle.meta_model.specs.Refusal.{Refusal};
ghost use Rattle.meta_model.specs.declared.value.Resolved.{Resolved as Has};
ghost use Rattle.var_expand.specs.Faults.{IsFaultOf};
ghost use Rattle.datastore.specs.Faults.{IsDataFault};
ghost use Rattle.var_deps.specs.FlagsOf.{AreFlags};
ghost use Rattle.var_deps.specs.Seen.{seen_with};
ghost use Rattle.var_deps.specs.Reading.{function_named};
ghost use Rattle.task_model.specs.Views.{flag_of, is_bare, is_function, seen_by, unless_bare};

use datastore::{AllFlags, DataFault, Datastore};
use meta_model::Resolved;
use name_walk::holds;
use std::alloc::Global;
use tree_model::{Mem, Text, Texts};
use var_expand::{ExpandFault, Lookup};

/// A store as a map from names to what they have, for a task or for all that see it as it is.
#[derive(Drop)]
pub(crate) struct Seen<'a> {
    /// The store. A look-up is fast where it is settled.
    pub(crate) store: &'a Datastore,
    /// The task whose name counts as absent where it is bare: it has an empty text, no removes, and is no function.
    pub(crate) task: Option<Text>,
    /// The names with the flag `func`, in byte order.
    pub(crate) functions: Texts,
    ghost ordered: { in_byte_order functions ≡ functions },
    ghost functions_are: { (t : List ℕ) → is_in t functions ≡ is_some (flag store.now t (codes "func")) },
}

impl Seen<'_> {
    /// Whether it is known without a look-up that a name is no function.
    pub(crate) fn is_no_function(&self, name: &str) -> bool
        ensures { result ≡ true → function_named (seen_with self.now.store.now self.now.task) name.now ≡ Ok [] }
    {
        self.store.active().is_some() && !holds(self.functions.as_slice(), name)
    }
}

impl Lookup for Seen<'_> {
    ghost use Rattle.var_deps.specs.Seen.{seen_with};

    ghost finds = { λ s. seen_with s.store.now s.task };

    fn find(&self, alloc: Global, name: &str) -> Result<Option<Resolved>, ExpandFault> {
        match &self.task {
            Some(task) => found_by(alloc, self.store, task.as_str(), name),
            None => found_in(alloc, self.store, name),
        }
    }

    fn known(&self, _alloc: Global, _name: &str, _wanted: &[Text]) -> Result<Option<Texts>, Mem> {
        Ok(None)
    }
}

/// The flags of a name, which is looked up once for all of them.
pub(crate) fn flags_of<'a>(store: &'a Datastore, name: &str) -> AllFlags<'a>
    ensures { AreFlags result store.now name.now }
{
    store.flags(name)
}

/// A flag of a name of a store, whose flags these are: what stands for store and name is there for the contract alone.
pub(crate) fn flag_in<'a>(
    _store: &Datastore,
    _name: &str,
    flags: &AllFlags<'a>,
    which: &str,
) -> Option<&'a str>
    requires { AreFlags flags.now _store.now _name.now }
    ensures { option_copied result ≡ flag _store.now _name.now which.now }
{
    flags.get(which)
}

/// A flag of a value that was found.
pub fn flag_of<'a>(found: &'a Resolved, flag: &str) -> Option<&'a str>
    ensures { option_copied result ≡ flag_of flag.now found.now }
{
    for pair in found.flags.as_slice() {
        if flag == pair.0.as_str() {
            return Some(pair.1.as_str());
        }
    }
    None
}

/// Whether a value that was found is a function.
pub fn is_function(found: &Resolved) -> bool
    ensures { result ≡ is_function (Some found.now) }
{
    flag_of(found, "func").is_some()
}

/// Whether a value that was found has an empty text and no removes, and is no function.
pub(crate) fn is_bare(found: &Resolved) -> bool
    ensures { result ≡ is_bare found.now }
{
    found.text.as_str().is_empty() && found.removes.is_empty() && !is_function(found)
}

/// What is found of a name, or nothing where it is a task's own and bare.
pub fn unless_bare(found: Option<Resolved>, own: bool) -> Option<Resolved>
    ensures { result ≡ unless_bare own found }
{
    match found {
        Some(found) => {
            if own && is_bare(&found) {
                None
            } else {
                Some(found)
            }
        }
        None => None,
    }
}

/// A fault of a store as one of expansion.
fn expand_fault(fault: DataFault) -> ExpandFault
    ensures { (meant : Result (Option Has) Refusal) → IsDataFault fault meant → IsFaultOf result meant }
{
    match fault {
        DataFault::Unstable { before, last } => ExpandFault::Unstable { before, last },
        DataFault::Expand(fault) => fault,
        DataFault::Memory => ExpandFault::Memory,
    }
}

/// What a name has.
pub(crate) fn found_in(
    alloc: Global,
    store: &Datastore,
    name: &str,
) -> Result<Option<Resolved>, ExpandFault>
    ensures ok { IfOk result (λ made. (find_in store.now).at name.now ≡ Ok made) }
    ensures err { IfErr result (λ fault. IsFaultOf fault ((find_in store.now).at name.now)) }
{
    match store.resolved(alloc, name) {
        Ok(found) => Ok(found),
        Err(fault) => Err(expand_fault(fault)),
    }
}

/// What a name has for a task: its own name counts as absent where it is bare (own rule). A look-up is fast where the store is
/// settled.
pub fn found_by(
    alloc: Global,
    store: &Datastore,
    task: &str,
    name: &str,
) -> Result<Option<Resolved>, ExpandFault>
    ensures ok { IfOk result (λ made. (seen_by task.now (find_in store.now)).at name.now ≡ Ok made) }
    ensures err { IfErr result (λ fault. IsFaultOf fault ((seen_by task.now (find_in store.now)).at name.now)) }
{
    let found = found_in(alloc, store, name)?;
    Ok(unless_bare(found, name == task))
}
