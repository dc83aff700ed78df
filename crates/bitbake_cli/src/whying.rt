// The mode that says what a run would do, and why.
use crate::about::tell_about;
use crate::faults::{tell_fault, tell_passed};
use crate::own_modes::{WHY, other_words};
use crate::tell;
use bitbake_top::why;
use host_files::Syncs;
use outside_os::{FolderDisk, FolderLayers, StdSink};
use std::io;
use std::thread::Threads;
use tree_model::Text;

/// Prints what a run of the other words would do, over the current folder's layers and the folder `build` as they are, and gives the exit status. Nothing is
/// made, locked or written there.
pub fn run_why<R: Threads + Sync>(rt: &HostRuntime, threads: &R, all: &[Text]) -> io::Result<u8> {
    let words = other_words(rt.alloc(), all, WHY)?;
    let syncs = Syncs::none();
    let disk = FolderDisk::reading(rt.clone()?, &syncs);
    let mut layers = FolderLayers::new(rt.clone()?);
    let mut sink = StdSink::new(rt.clone()?);
    let told = why(threads, rt.alloc(), &words, &mut layers, disk, &mut sink);
    tell_fault(rt, &told.status);
    tell_about(rt, &told.status);
    tell_passed(rt, &told.status, &layers);
    tell(rt, "layers", layers.first_fault());
    tell(rt, "disk", told.disk.first_fault());
    tell(rt, "output", sink.first_fault());
    Ok(told.status.code())
}
