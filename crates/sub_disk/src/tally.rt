// How many calls were answered, and how many failed.
ghost use Rattle.std.specs.Prelude.{◌≡◌, ◌<◌, ◌-◌, ◌^◌, OnOk, false};
ghost use Rattle.outside_traits.specs.Fault.{Counts, disk_failed};
ghost use Rattle.sub_disk.specs.Sub.{made_after};

use outside_traits::DiskFault;
use tree_model::Mem;

/// Whether one more call may be made and counted.
pub(crate) fn room_for(made: u64, is_spent: bool) -> Result<(), Mem>
    ensures room { OnOk result (made < 2 ^ 64 - 1) }
    ensures open { OnOk result (is_spent ≡ false) }
{
    if is_spent || made == u64::MAX {
        return Err(Mem);
    }
    Ok(())
}

/// The number of calls behind an answer.
pub(crate) fn calls_after<T>(made: u64, answer: &Result<T, DiskFault>) -> u64
    requires { made < 2 ^ 64 - 1 }
    ensures { result ≡ made_after answer.now made }
{
    match answer {
        Ok(_) => made + 1,
        Err(DiskFault::Failed) => made + 1,
        Err(DiskFault::Memory) => made,
    }
}

/// The number of faults behind an answer, as far as a `u64` goes.
pub(crate) fn faults_after<T>(faults: u64, answer: &Result<T, DiskFault>) -> u64
    ensures { Counts faults result (disk_failed answer.now) }
{
    match answer {
        Err(DiskFault::Failed) => faults.saturating_add(1),
        _ => faults,
    }
}
