// Why a store isn't brought to the present format.

use outside_traits::DiskFault;
use record_move::MoveFault;
use tree_model::Mem;

/// Why a store isn't brought to the present format. The disk holds what it held, or what a stopped move leaves.
#[derive(Debug, Drop)]
pub enum UpgradeFault {
    /// The records can't be moved: two signatures have one name, two keys have one, or memory is wanting. None was written.
    Move(MoveFault),
    /// The disk failed, or memory is wanting.
    Disk(DiskFault),
}

impl From<DiskFault> for UpgradeFault {
    ghost use Rattle.std.specs.Prelude.{◌≡◌};
    ghost use Rattle.store_upgrade.specs.declared.fault.UpgradeFault.TheVariants.{Disk};

    ghost from_gives = { λ given fault. fault ≡ Disk given };

    fn from(given: DiskFault) -> UpgradeFault {
        UpgradeFault::Disk(given)
    }
}

impl From<MoveFault> for UpgradeFault {
    ghost use Rattle.std.specs.Prelude.{◌≡◌};
    ghost use Rattle.store_upgrade.specs.declared.fault.UpgradeFault.TheVariants.{Move};

    ghost from_gives = { λ given fault. fault ≡ Move given };

    fn from(given: MoveFault) -> UpgradeFault {
        UpgradeFault::Move(given)
    }
}

impl From<Mem> for UpgradeFault {
    ghost use Rattle.std.specs.Prelude.{◌≡◌};
    ghost use Rattle.outside_traits.specs.declared.fault.DiskFault.TheVariants.{Memory};
    ghost use Rattle.store_upgrade.specs.declared.fault.UpgradeFault.TheVariants.{Disk};

    ghost from_gives = { λ _ fault. fault ≡ Disk Memory };

    fn from(_: Mem) -> UpgradeFault {
        UpgradeFault::Disk(DiskFault::Memory)
    }
}
