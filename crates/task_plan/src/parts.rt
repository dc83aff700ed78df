// What is worked out for a task.
ghost use Rattle.std.specs.Prelude.{◌≡◌, IfOk, IfErr, Ok};
ghost use Rattle.outside_traits.specs.Fault.{Counts};
ghost use Rattle.outside_traits.specs.Store.{SameFiles};
ghost use Rattle.script_gen.specs.Given.{IsKeyOf};
ghost use Rattle.plan_model.specs.Plans as plans;
ghost use Rattle.task_plan.specs.Ahead.{IsMade};
ghost use Rattle.task_plan.specs.Faults.{IsPlanFault, plan_failed};
ghost use Rattle.task_plan.specs.Meant.{parts_meant};

use crate::fault::PlanFault;
use crate::inputs::{Inputs, task_inputs};
use crate::shell::{Shell, is_shared, key_of, shell_parts};
use datastore::Datastore;
use meta_model::Key;
use outside_traits::Layers;
use std::alloc::Global;
use var_deps::StoreKeys;

/// What is worked out for a task, beside what the graph has of it.
#[derive(Drop)]
pub(crate) struct Parts {
    pub(crate) key: Key,
    pub(crate) inputs: Inputs,
    pub(crate) shell: Shell,
    pub(crate) sstate: bool,
}

/// What is worked out for a task from the entries of its recipe alone: its key, and what is made for its shell.
#[derive(Drop)]
pub(crate) struct Made {
    pub(crate) key: Key,
    pub(crate) shell: Shell,
}

/// The parts of a task of which this is made, behind so many bytes of other tasks' input files.
pub(crate) fn parts_made<L: Layers>(
    alloc: Global,
    layers: &mut L,
    file: &str,
    store: &Datastore,
    made: Made,
    task: &str,
    bytes: u64,
) -> Result<Parts, PlanFault>
    requires { IsMade file.now store.now task.now made }
    ensures ok { IfOk result (λ made. L.tells → plans.parts_of (L.files layers.old) file.now store.now task.now bytes
        ≡ Ok (parts_meant made)) }
    ensures err { IfErr result (λ fault. L.tells → IsPlanFault fault
        (plans.parts_of (L.files layers.old) file.now store.now task.now bytes)) }
    ensures same { SameFiles L.files layers.old layers.new }
    ensures cause { Counts (L.faults layers.old) (L.faults layers.new) (plan_failed result) }
{
    let inputs = task_inputs(alloc, layers, file, store, task, bytes)?;
    let Made { key, shell } = made;
    let sstate = is_shared(&key, task);
    Ok(Parts {
        key,
        inputs,
        shell,
        sstate,
    })
}

/// The parts of a task with this key, behind so many bytes of other tasks' input files.
fn parts_with<L: Layers>(
    alloc: Global,
    layers: &mut L,
    file: &str,
    keys: &StoreKeys,
    key: Key,
    task: &str,
    bytes: u64,
) -> Result<Parts, PlanFault>
    requires { IsKeyOf keys.now task.now key }
    ensures ok { IfOk result (λ made. L.tells → plans.parts_of (L.files layers.old) file.now keys.now task.now bytes
        ≡ Ok (parts_meant made)) }
    ensures err { IfErr result (λ fault. L.tells → IsPlanFault fault
        (plans.parts_of (L.files layers.old) file.now keys.now task.now bytes)) }
    ensures same { SameFiles L.files layers.old layers.new }
    ensures cause { Counts (L.faults layers.old) (L.faults layers.new) (plan_failed result) }
{
    let inputs = task_inputs(alloc, layers, file, keys.store(), task, bytes)?;
    let shell = shell_parts(alloc, file, keys, &key, task)?;
    let sstate = is_shared(&key, task);
    Ok(Parts {
        key,
        inputs,
        shell,
        sstate,
    })
}

/// The parts of a task, behind so many bytes of other tasks' input files.
pub(crate) fn parts_of<L: Layers>(
    alloc: Global,
    layers: &mut L,
    file: &str,
    keys: &mut StoreKeys,
    task: &str,
    bytes: u64,
) -> Result<Parts, PlanFault>
    ensures ok { IfOk result (λ made. L.tells → plans.parts_of (L.files layers.old) file.now keys.old task.now bytes
        ≡ Ok (parts_meant made)) }
    ensures err { IfErr result (λ fault. L.tells → IsPlanFault fault
        (plans.parts_of (L.files layers.old) file.now keys.old task.now bytes)) }
    ensures keys { keys.new ≡ keys.old }
    ensures same { SameFiles L.files layers.old layers.new }
    ensures cause { Counts (L.faults layers.old) (L.faults layers.new) (plan_failed result) }
{
    let key = key_of(alloc, file, keys, task)?;
    parts_with(alloc, layers, file, keys, key, task, bytes)
}
