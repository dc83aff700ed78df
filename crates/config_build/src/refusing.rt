// How a run ends whose store can't be brought to the present format of records, or to which records of a mirror can't come.
ghost use Rattle.std.specs.Prelude.{◌≡◌, ◌≢◌, ◌↔◌, ◌⊎◌, IfOk, true};
ghost use Rattle.build_resume.specs.Build.{is_collision};
ghost use Rattle.store_upgrade.specs.Faults.{is_the_disks};
ghost use Rattle.config_build.specs.Bringing.{IsStatusOf};

use meta_model::Status;
use outside_traits::DiskFault;
use record_move::MoveFault;
use sstate_mirror::BringFault;
use std::alloc::Global;
use store_model::SigText;
use store_opening::same_bytes;
use store_upgrade::UpgradeFault;
use tree_model::{Bytes, Hash, Mem};

/// The status of two byte strings of one digest.
fn collision_of(alloc: Global, name: Hash, held: &[u8], given: &[u8]) -> Result<Status, Mem>
    ensures { IfOk result (λ status. is_collision status ≡ true) }
{
    Ok(Status::Collision {
        name,
        held: Bytes::from_slice(alloc, held)?,
        given: Bytes::from_slice(alloc, given)?,
    })
}

/// The status of two signatures of one name: it tells them apart by their short texts, or, where these are the same, by their keys.
fn told_apart(alloc: Global, name: Hash, held: &SigText, given: &SigText) -> Result<Status, Mem>
    ensures { IfOk result (λ status. is_collision status ≡ true) }
{
    if same_bytes(held.short(), given.short()) {
        return collision_of(alloc, Hash::of(given.key()), held.key(), given.key());
    }
    collision_of(alloc, name, held.short(), given.short())
}

/// The status of a run whose store can't be brought to the present format.
pub fn status_of_upgrade(alloc: Global, fault: UpgradeFault) -> Status
    ensures disk { (result ≡ Status.DiskFault) ↔ (is_the_disks fault ≡ true) }
    ensures fails { result ≢ Status.Ok }
{
    match fault {
        UpgradeFault::Disk(DiskFault::Failed) => Status::DiskFault,
        UpgradeFault::Disk(DiskFault::Memory) | UpgradeFault::Move(MoveFault::Memory) => {
            Status::OutOfMemory
        }
        UpgradeFault::Move(MoveFault::KeyCollision { name, held, given }) => {
            Status::Collision { name, held, given }
        }
        UpgradeFault::Move(MoveFault::Collision { name, held, given }) => {
            match told_apart(alloc, name, &held, &given) {
                Ok(status) => status,
                Err(_) => Status::OutOfMemory,
            }
        }
    }
}

/// The status of two signatures of one name, or that memory was wanting to tell them apart.
fn status_apart(alloc: Global, name: Hash, held: &SigText, given: &SigText) -> Status
    ensures { (is_collision result ≡ true) ⊎ (result ≡ Status.OutOfMemory) }
{
    match told_apart(alloc, name, held, given) {
        Ok(status) => status,
        Err(_) => Status::OutOfMemory,
    }
}

/// The status of a run to whose store the records of a mirror can't come.
pub fn status_of_bringing(alloc: Global, fault: BringFault) -> Status
    ensures { IsStatusOf fault result }
{
    match fault {
        BringFault::Mirror => Status::MirrorFault,
        BringFault::Disk => Status::DiskFault,
        BringFault::Collision { name, held, given } => status_apart(alloc, name, &held, &given),
        BringFault::KeyCollision { name, held, given } => Status::Collision { name, held, given },
        BringFault::Differs {
            pn,
            task,
            held,
            given,
        } => Status::Unsteady {
            pn,
            task,
            held,
            given,
        },
        BringFault::Memory => Status::OutOfMemory,
    }
}
