// What is made of a task's store for its shell and its output.
ghost use Rattle.std.specs.Prelude.{◌≡◌, false, is_some, codes, IfOk, IfErr, Ok};
ghost use Rattle.task_model.specs.Keys.{key as key_meant};
ghost use Rattle.task_model.specs.Scripts.{flag_at, value_at, is_sstate_of};
ghost use Rattle.datastore.specs.Faults.{IsDataFault};
ghost use Rattle.script_gen.specs.Given.{IsKeyOf};
ghost use Rattle.plan_model.specs.Plans.{counts as counts_meant};
ghost use Rattle.task_plan.specs.Faults.{IsPlanFault, plan_failed};
ghost use Rattle.task_plan.specs.Steps.{key_told, script_told, places_told, nostamp_told, shell_of};

use crate::fault::{PlanFault, data_told, script_fault};
use crate::words::flag_text;
use datastore::{DataFault, Datastore};
use meta_model::{Key, KeyLine};
use script_gen::{is_on, places, script_with};
use std::alloc::Global;
use tree_model::{ListOf, Text};
use var_deps::{StoreKeys, flag_of};

/// The script of a task, the folders of its output, and whether it runs in each run.
#[derive(Drop)]
pub(crate) struct Shell {
    pub(crate) script: Text,
    pub(crate) places: ListOf<(Text, Text)>,
    pub(crate) nostamp: bool,
}

/// The key of a task.
pub(crate) fn key_of(
    alloc: Global,
    file: &str,
    keys: &mut StoreKeys,
    task: &str,
) -> Result<Key, PlanFault>
    ensures ok { IfOk result (λ made. key_meant keys.old task.now ≡ Ok made) }
    ensures err { IfErr result (λ fault. IsPlanFault fault (key_told file.now keys.old task.now)) }
    ensures same { keys.new ≡ keys.old }
    ensures not_read { plan_failed result ≡ false }
{
    match keys.key(alloc, task) {
        Ok(key) => Ok(key),
        Err(fault) => Err(data_told(alloc, file, fault)),
    }
}

/// The script of a task with this key.
fn script_of(
    alloc: Global,
    file: &str,
    keys: &StoreKeys,
    key: &Key,
    task: &str,
) -> Result<Text, PlanFault>
    requires { IsKeyOf keys.now task.now key.now }
    ensures ok { IfOk result (λ made. script_told file.now keys.now task.now ≡ Ok made) }
    ensures err { IfErr result (λ fault. IsPlanFault fault (script_told file.now keys.now task.now)) }
    ensures not_read { plan_failed result ≡ false }
{
    match script_with(alloc, keys, key, task) {
        Ok(text) => Ok(text),
        Err(fault) => Err(script_fault(alloc, file, fault)),
    }
}

/// The folders of a task's output.
fn places_of(
    alloc: Global,
    file: &str,
    store: &Datastore,
    task: &str,
) -> Result<ListOf<(Text, Text)>, PlanFault>
    ensures ok { IfOk result (λ made. places_told file.now store.now task.now ≡ Ok made) }
    ensures err { IfErr result (λ fault. IsPlanFault fault (places_told file.now store.now task.now)) }
    ensures not_read { plan_failed result ≡ false }
{
    match places(alloc, store, task) {
        Ok(pairs) => Ok(pairs),
        Err(fault) => Err(script_fault(alloc, file, fault)),
    }
}

/// Whether a flag of a name counts.
fn counts(alloc: Global, store: &Datastore, name: &str, flag: &str) -> Result<bool, DataFault>
    ensures ok { IfOk result (λ made. counts_meant store.now name.now flag.now ≡ Ok made) }
    ensures err { IfErr result (λ fault. IsDataFault fault (counts_meant store.now name.now flag.now)) }
{
    let text = flag_text(alloc, store, name, flag)?;
    Ok(is_on(text.as_str()))
}

/// Whether a task runs in each run.
fn nostamp_of(alloc: Global, file: &str, store: &Datastore, task: &str) -> Result<bool, PlanFault>
    ensures ok { IfOk result (λ made. nostamp_told file.now store.now task.now ≡ Ok made) }
    ensures err { IfErr result (λ fault. IsPlanFault fault (nostamp_told file.now store.now task.now)) }
    ensures not_read { plan_failed result ≡ false }
{
    match counts(alloc, store, task, "nostamp") {
        Ok(nostamp) => Ok(nostamp),
        Err(fault) => Err(data_told(alloc, file, fault)),
    }
}

/// All of these.
pub(crate) fn shell_parts(
    alloc: Global,
    file: &str,
    keys: &StoreKeys,
    key: &Key,
    task: &str,
) -> Result<Shell, PlanFault>
    requires { IsKeyOf keys.now task.now key.now }
    ensures ok { IfOk result (λ made. shell_of file.now keys.now task.now ≡ Ok made) }
    ensures err { IfErr result (λ fault. IsPlanFault fault (shell_of file.now keys.now task.now)) }
    ensures not_read { plan_failed result ≡ false }
{
    let script = script_of(alloc, file, keys, key, task)?;
    let places = places_of(alloc, file, keys.store(), task)?;
    let nostamp = nostamp_of(alloc, file, keys.store(), task)?;
    Ok(Shell {
        script,
        places,
        nostamp,
    })
}

/// Whether a line says that its task is one of the shared state.
fn says_sstate(line: &KeyLine) -> bool
    ensures { result ≡ is_some (flag_at (codes "sstate") line.now.value) }
{
    match &line.value {
        Some(value) => flag_of(value, "sstate").is_some(),
        None => false,
    }
}

/// Whether the line of a task, the first one with its name, says so.
fn has_sstate(lines: &[KeyLine], task: &str) -> bool
    ensures { result ≡ is_some (flag_at (codes "sstate") (value_at lines.now task.now)) }
{
    for line in lines {
        if line.name.as_str() == task {
            return says_sstate(line);
        }
    }
    false
}

/// Whether a task is one of the shared state, by its key.
pub(crate) fn is_shared(key: &Key, task: &str) -> bool
    ensures { result ≡ is_sstate_of key.now task.now }
{
    has_sstate(key.lines.as_slice(), task)
}
