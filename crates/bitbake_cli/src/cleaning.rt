// The mode that clears the store.
use crate::about::tell_about;
use crate::faults::{tell_fault, tell_passed};
use crate::freeing::{Freed, Freeing, Mute, Pretending};
use crate::leavings::tell_leavings;
use crate::tell;
use crate::upgrading::{bring_up, is_old};
use bitbake_top::{Cleared, clean};
use clean_words::CleanWords;
use host_files::Syncs;
use meta_model::Status;
use outside_os::{FolderDisk, FolderLayers, StdSink};
use std::io;
use std::thread::Threads;

/// Says on standard error what a clearing took away, where that is something.
fn tell_freed(rt: &HostRuntime, freed: &Freed<'_>) {
    let (bytes, objects, keys) = (freed.bytes, freed.objects, freed.keys);
    if freed.is_whole && bytes > 0 {
        let _ = eprintln!(rt;
            "bitbake: clean: {bytes} bytes are free that files had: {objects} objects and {keys} keys went, and what names them"
        );
    }
}

/// Says on standard error what a clearing would take away, where that is something.
fn tell_would_free(rt: &HostRuntime, freed: &Freed<'_>) {
    let (bytes, objects, keys) = (freed.bytes, freed.objects, freed.keys);
    if freed.is_whole && bytes > 0 {
        let _ = eprintln!(rt;
            "bitbake: clean: {bytes} bytes would be free that files have: {objects} objects and {keys} keys would go, and what names them"
        );
    }
}

/// Says on standard error where the store has records of the first format, which aren't counted.
fn tell_old(rt: &HostRuntime) -> io::Result<()> {
    if is_old(rt, "")? {
        let _ = eprintln!(rt;
            "bitbake: clean: the store has records of the first format, which a clearing moves to the present one before it: they aren't counted here"
        );
    }
    Ok(())
}

/// Says on standard error what would go: what the same call takes away of a disk that does nothing of it.
fn tell_going<R: Threads + Sync>(
    rt: &HostRuntime,
    threads: &R,
    asked: &CleanWords,
) -> io::Result<()> {
    let syncs = Syncs::none();
    let mut disk = Pretending {
        inner: FolderDisk::reading(rt.clone()?, &syncs),
        freed: Freed::none(rt),
    };
    let mut layers = FolderLayers::new(rt.clone()?);
    let Cleared { status, .. } = clean(
        threads,
        rt.alloc(),
        &asked.words,
        asked.limit,
        false,
        &mut layers,
        &mut disk,
        &mut Mute,
    );
    if matches!(status, Status::Ok) {
        tell_would_free(rt, &disk.freed);
    }
    Ok(())
}

/// Prints how many records a clearing would keep, and how many would go. Nothing is made, locked or written.
fn run_dry<R: Threads + Sync>(
    rt: &HostRuntime,
    threads: &R,
    asked: &CleanWords,
) -> io::Result<Status> {
    let syncs = Syncs::none();
    let mut disk = FolderDisk::reading(rt.clone()?, &syncs);
    let mut layers = FolderLayers::new(rt.clone()?);
    let mut sink = StdSink::new(rt.clone()?);
    let Cleared { status, .. } = clean(
        threads,
        rt.alloc(),
        &asked.words,
        asked.limit,
        true,
        &mut layers,
        &mut disk,
        &mut sink,
    );
    if matches!(status, Status::Ok) {
        tell_old(rt)?;
        tell_going(rt, threads, asked)?;
    }
    tell_ended(rt, &status, &layers);
    tell(rt, "disk", disk.first_fault());
    tell(rt, "output", sink.first_fault());
    Ok(status)
}

/// Says on standard error what there is to say of a status.
fn tell_ended(rt: &HostRuntime, status: &Status, layers: &FolderLayers<HostRuntime>) {
    tell_fault(rt, status);
    tell_about(rt, status);
    tell_passed(rt, status, layers);
    tell(rt, "layers", layers.first_fault());
}

/// Clears the store in the folder `build`, prints how many records were kept and how many went, and says on standard error how many bytes that freed.
fn run_clear<R: Threads + Sync>(
    rt: &HostRuntime,
    threads: &R,
    asked: &CleanWords,
) -> io::Result<Status> {
    let syncs = Syncs::none();
    let mut disk = Freeing {
        inner: FolderDisk::new(rt.clone()?, &syncs),
        freed: Freed::none(rt),
    };
    let mut layers = FolderLayers::new(rt.clone()?);
    let mut sink = StdSink::new(rt.clone()?);
    let Cleared { status, .. } = clean(
        threads,
        rt.alloc(),
        &asked.words,
        asked.limit,
        false,
        &mut layers,
        &mut disk,
        &mut sink,
    );
    disk.inner.close();
    if matches!(status, Status::Ok) {
        tell_freed(rt, &disk.freed);
    }
    tell_ended(rt, &status, &layers);
    tell(rt, "disk", disk.inner.first_fault());
    tell(rt, "output", sink.first_fault());
    Ok(status)
}

/// Brings the store to the present format, and takes away what it had of the first one: the first call moves it, the next one finds all of it moved.
fn bring_up_whole(rt: &HostRuntime, is_told: bool) -> io::Result<Status> {
    match bring_up(rt, &[], is_told)? {
        Status::Ok => bring_up(rt, &[], is_told),
        refused => Ok(refused),
    }
}

/// Clears the store of the default configuration, or says what a clearing would do, and gives the exit status. A store of the first format is brought to the
/// present one before. With targets, standard error names the work folders of tasks that no recipe has any more.
pub fn run_clean<R: Threads + Sync>(
    rt: &HostRuntime,
    threads: &R,
    asked: &CleanWords,
    is_told: bool,
) -> io::Result<u8> {
    let status = if asked.dry {
        run_dry(rt, threads, asked)?
    } else {
        match bring_up_whole(rt, is_told)? {
            Status::Ok => run_clear(rt, threads, asked)?,
            refused => refused,
        }
    };
    if matches!(status, Status::Ok) && !asked.words.is_empty() {
        tell_leavings(rt)?;
    }
    Ok(status.code())
}
