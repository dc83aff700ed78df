// The calls of stamps, on the disk.
ghost use Rattle.std.specs.Prelude.{IsTrue};
ghost use Rattle.stamp_store.specs.Stamp.{IsFolder};

use crate::answers::of_word;
use crate::disk_calls::disk_word;
use crate::rooms::no_call;
use crate::watch::Watch;
use outside_os::FolderDisk;
use outside_traits::DiskFault;
use stamp_store::{current, invalidate, stage, stamp};
use std::alloc::Global;
use std::io;
use tree_model::{Hash, is_clean};

/// Whether a task may have this folder.
fn is_folder(folder: &str) -> bool
    ensures { IsTrue result → IsFolder folder.now }
{
    is_clean(folder) && folder.len() <= 511
}

/// What stamps of the disk answer.
pub fn stamp_answer(
    alloc: Global,
    disk: &mut FolderDisk<'_, Watch<'_>>,
    call: &str,
) -> io::Result<String> {
    let (word, rest) = call.split_once(' ').unwrap_or((call, ""));
    let (folder, text) = rest.split_once(' ').unwrap_or((rest, ""));
    if !is_folder(folder) {
        return Err(no_call());
    }
    match word {
        "stage" => match Hash::read(text) {
            Some(name) => disk_word(alloc, stage(alloc, disk, folder, &name)),
            None => Err(no_call()),
        },
        "put" => disk_word(alloc, stamp(alloc, disk, folder)),
        "invalidate" => disk_word(alloc, invalidate(alloc, disk, folder)),
        "current" => current_answer(alloc, current(alloc, disk, folder)),
        _ => Err(no_call()),
    }
}

/// The digits of the hash in a stamp.
fn current_answer(alloc: Global, found: Result<Option<Hash>, DiskFault>) -> io::Result<String> {
    match found {
        Ok(Some(name)) => match name.text(alloc) {
            Ok(text) => Ok(of_word(alloc, text.as_str())?),
            Err(_) => disk_word(alloc, Err(DiskFault::Memory)),
        },
        Ok(None) => Ok(of_word(alloc, "nothing")?),
        Err(fault) => disk_word(alloc, Err(fault)),
    }
}
