// Bringing stores to the present format of records before a run.
ghost use Rattle.multi_config.specs.Named.{IsNamed};

use crate::own_modes::print_refused;
use crate::tell;
use crate::watching::{MoveCount, Watching};
use config_build::{Upgraded, status_of_upgrade, upgrade_config};
use host_files::Syncs;
use meta_model::Status;
use multi_config::is_config_name;
use outside_os::FolderDisk;
use std::{fs, io};
use tree_model::Text;

/// Where the records of the first format stand, from the current folder.
const OLD_RECORDS: &str = "build/rec";

/// Whether something stands at a path that is no empty folder.
fn stands(rt: &HostRuntime, path: &str) -> bool {
    match fs::symlink_metadata(rt, path) {
        Ok(there) if there.is_dir() => match fs::read_dir(rt, path) {
            Ok(mut entries) => entries.next().is_some(),
            Err(_) => true,
        },
        Ok(_) => true,
        Err(_) => false,
    }
}

/// Whether the store of a configuration has something of the first format.
pub fn is_old(rt: &HostRuntime, config: &str) -> io::Result<bool> {
    if config.is_empty() {
        return Ok(stands(rt, OLD_RECORDS));
    }
    let path = format!(in rt.alloc(); "build/mc/{config}/rec")?;
    Ok(stands(rt, path.as_str()))
}

/// Brings the store of a configuration to the present format, and says on standard error how far that is where it takes long. What is wrong is printed
/// as the one line of a run.
fn upgrade(rt: &HostRuntime, config: &str, is_told: bool) -> io::Result<Status>
    requires { IsNamed config.now }
{
    let syncs = Syncs::none();
    let disk = Watching {
        inner: FolderDisk::new(rt.clone()?, &syncs),
        count: MoveCount::new(rt, is_told),
    };
    let Upgraded { done, mut disk } = upgrade_config(rt.alloc(), disk, config);
    disk.inner.close();
    let status = match done {
        Ok(()) => Status::Ok,
        Err(fault) => print_refused(rt, status_of_upgrade(rt.alloc(), fault))?,
    };
    tell(rt, "disk", disk.inner.first_fault());
    Ok(status)
}

/// Brings the store of the default configuration to the present format, where it has something of the first one, and those of the configurations that are named.
/// The answer is Ok, or what was wrong first. Where it takes long and `is_told`, standard error says how far it is.
pub fn bring_up(rt: &HostRuntime, configs: &[Text], is_told: bool) -> io::Result<Status> {
    if is_old(rt, "")? {
        let status = upgrade(rt, "", is_told)?;
        if !matches!(status, Status::Ok) {
            return Ok(status);
        }
    }
    for config in configs {
        if is_config_name(config.as_str()) && is_old(rt, config.as_str())? {
            let status = upgrade(rt, config.as_str(), is_told)?;
            if !matches!(status, Status::Ok) {
                return Ok(status);
            }
        }
    }
    Ok(Status::Ok)
}
