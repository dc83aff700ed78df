// The store of a configuration is brought to the present format of records.
ghost use Rattle.std.specs.Prelude.{◌≡◌, ◌≤◌, OnOk, length};
ghost use Rattle.outside_traits.specs.Fault.{Counts};
ghost use Rattle.outside_traits.specs.Passes.{Passes};
ghost use Rattle.store_upgrade.specs.Faults.{upgrade_failed};
ghost use Rattle.store_upgrade.specs.Halfway.{IsAlong};
ghost use Rattle.store_upgrade.specs.Upgraded.{IsUpgraded};
ghost use Rattle.sub_disk.specs.Sub.{IsPrefix, IsReachable, IsSettledWhole, below};
ghost use Rattle.multi_config.specs.Configs.{store_prefix};
ghost use Rattle.multi_config.specs.Named.{IsNamed};
ghost use Rattle.config_build.specs.Below.{WentOn};
ghost use Rattle.config_build.specs.Upgrading.{BringsUp, story_at};

use crate::config::prefix_ready;
use outside_traits::Disk;
use std::alloc::Global;
use std::marker::Brand;
use store_upgrade::{UpgradeFault, upgrade};
use sub_disk::{Start, SubDisk};
use tree_model::Text;

/// What is handed back where a store was to be brought to the present format.
#[derive(Drop)]
pub struct Upgraded<D> {
    /// Whether it was.
    pub done: Result<(), UpgradeFault>,

    /// The disk.
    pub disk: D,
}

/// Brings the store in a folder of the disk to the present format, from where the whole disk stands.
fn upgrade_below<D: Disk, K: Start>(alloc: Global, disk: D, prefix: Text) -> Upgraded<D>
    requires named { prefix ≡ K.prefix }
    requires place { IsPrefix K.prefix }
    requires short { length K.prefix ≤ 259 }
    requires reach { 3900 ≤ D.reach }
    requires start { D.tells → D.story disk ≡ K.start }
    requires counted { D.faults disk ≡ K.faults }
    requires settled { D.tells → IsSettledWhole K.start }
    requires clear { D.tells → IsReachable K.prefix K.start.held }
    ensures upgraded { D.tells → OnOk result.done (IsUpgraded (below K.prefix K.start.held) (below K.prefix (D.story result.disk).held)) }
    ensures folder { D.tells → WentOn K.prefix K.start (D.story result.disk) (λ sub. Passes (story_at K.prefix K.start) sub
        (λ earlier image. IsAlong (below K.prefix K.start.held) image)) }
    ensures cause { Counts K.faults (D.faults result.disk) (upgrade_failed result.done) }
{
    let mut own = SubDisk::<D, K>::over(alloc, disk, prefix);
    let done = upgrade(alloc, &mut own);
    Upgraded {
        done,
        disk: own.into_disk(),
    }
}

/// Brings the store in a folder of the disk to the present format, where the folder is ready for it. The prefix of the folder's paths is given.
fn upgrade_in<D: Disk>(alloc: Global, disk: D, prefix: Text) -> Upgraded<D>
    requires place { IsPrefix prefix }
    requires short { length prefix ≤ 259 }
    requires reach { 3900 ≤ D.reach }
    requires settled { D.tells → IsSettledWhole (D.story disk) }
    requires clear { D.tells → IsReachable prefix (D.story disk).held }
    ensures upgraded { D.tells → OnOk result.done (IsUpgraded (below prefix (D.story disk).held) (below prefix (D.story result.disk).held)) }
    ensures folder { D.tells → WentOn prefix (D.story disk) (D.story result.disk) (λ sub. Passes (story_at prefix (D.story disk)) sub
        (λ earlier image. IsAlong (below prefix (D.story disk).held) image)) }
    ensures cause { Counts (D.faults disk) (D.faults result.disk) (upgrade_failed result.done) }
{
    upgrade_below::<D, Brand>(alloc, disk, prefix)
}

/// Brings the store of a configuration to the present format of records: what it has of the first format is moved, or, where its file `format` says that nothing
/// of that counts, what is left of it goes. The store of the configuration NAME stands in the folder `mc/NAME`, which is made ready first; that of the
/// default configuration, whose name is empty, is the whole disk.
///
/// Where `done` is Ok the store is one of the present format alone. Whatever it is, nothing outside of the folder changed but what was in its way, and each
/// moment left the store on the way from the one format to the other.
pub fn upgrade_config<D: Disk>(alloc: Global, mut disk: D, mc: &str) -> Upgraded<D>
    requires name { IsNamed mc.now }
    requires reach { 3900 ≤ D.reach }
    ensures upgraded { D.tells → OnOk result.done (IsUpgraded (below (store_prefix mc.now) (D.story disk).held)
        (below (store_prefix mc.now) (D.story result.disk).held)) }
    ensures along { D.tells → BringsUp mc.now (D.story disk) (D.story result.disk) }
    ensures cause { Counts (D.faults disk) (D.faults result.disk) (upgrade_failed result.done) }
{
    match prefix_ready(alloc, &mut disk, mc) {
        Ok(prefix) => upgrade_in(alloc, disk, prefix),
        Err(fault) => Upgraded {
            done: Err(UpgradeFault::Disk(fault)),
            disk,
        },
    }
}
