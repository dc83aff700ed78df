// Why tasks ran: the file build/why, and a line on standard error.
use crate::differing::differences;
use crate::earlier::{Started, record_of, seek, unihash_of};
use crate::stamped::{Planned, Stamp};
use crate::told::{Told, Without, reason_without};
use host_files::{is_memory, no_memory, put_entry};
use meta_model::{Event, Logged, Plan, PlanTask};
use sig_gen::sig_of;
use std::alloc::{AllocError, Global};
use std::io;
use std::time::SystemTime;
use store_model::{SigRecord, StoredSig};
use tree_model::{Bytes, Entry, Hash, ListOf};

/// The file of the reasons, in the folder of the store.
const WHY: &str = "why";

/// The most tasks that are named on standard error.
const MOST_NAMED: usize = 10;

/// What is known of runs besides their plans and their tales.
#[derive(Clone, Copy, Drop)]
pub struct Known<'r> {
    /// The stamps of the tasks that were started, as they were then.
    pub stamps: &'r [Stamp],

    /// The runs, in the order of their plans.
    pub planned: &'r [Planned],

    /// When the program began.
    pub begun: SystemTime,

    /// Whether the targets' tasks were to run whatever is there.
    pub is_forced: bool,
}

/// Keeps why tasks ran in `build/why`, and those of the configuration NAME in `build/mc/NAME/why`, and says on standard error how many did and which are
/// the causes, where an earlier run left records. Each tale is that of the plan at its place. Where that can't be, standard error says so, and no status
/// changes.
pub fn keep_reasons(rt: &HostRuntime, plans: &[Plan], tales: &[ListOf<Logged>], known: &Known<'_>) {
    for ((plan, tale), at) in plans.iter().zip(tales).zip(known.planned) {
        match write_reasons(rt, plan, tale.as_slice(), known, at) {
            Err(error) if !is_memory(&error) => {
                let _ = eprintln!(rt;
                    "bitbake: why: write of {}/{WHY}: {error}",
                    at.store.as_str()
                );
            }
            _ => {}
        }
    }
}

/// Whether a task is printed so.
fn is_named(task: &PlanTask, name: &str) -> bool {
    match name.split_once(':') {
        Some((pn, own)) => pn == task.id.pn.as_str() && own == task.id.task.as_str(),
        None => false,
    }
}

/// The record of a task that its stamp named as it was started. Stamps are in the order of the tale, so the next one is looked at first.
fn record_before(
    rt: &HostRuntime,
    store: &str,
    stamps: &[Stamp],
    at: usize,
    task: &PlanTask,
) -> io::Result<Option<StoredSig>> {
    match stamps.get(at) {
        Some(stamp) if is_named(task, stamp.task.as_str()) => match &stamp.record {
            Some(name) => record_of(rt, store, name.as_str()),
            None => Ok(None),
        },
        _ => Ok(None),
    }
}

/// The tasks that were started, in order, each with the record that its stamp named.
fn started_of<'p>(
    rt: &HostRuntime,
    plan: &'p Plan,
    tale: &[Logged],
    stamps: &[Stamp],
    from: &Planned,
) -> io::Result<Vec<Started<'p>>> {
    let mut started = Vec::new(rt.alloc());
    for entry in tale {
        if let Event::Started {
            task: number,
            seat: _,
        } = entry.event
        {
            if let Some(task) = plan.tasks.as_slice().get(number as usize) {
                let at = from.first_stamp.saturating_add(started.len());
                let was = record_before(rt, from.store.as_str(), stamps, at, task)?;
                let sought = was.is_none().then_some(SystemTime::UNIX_EPOCH);
                started.push(Started {
                    number,
                    task,
                    was,
                    sought,
                })?;
            }
        }
    }
    Ok(started)
}

/// Finds for the tasks whose stamp told nothing the newest record that tells of an earlier run. Where records can't be listed there is none.
fn seek_others(
    rt: &HostRuntime,
    store: &str,
    started: &mut [Started<'_>],
    begun: SystemTime,
) -> io::Result<()> {
    match seek(rt, store, started, begun) {
        Err(error) if is_memory(&error) => Err(error),
        _ => Ok(()),
    }
}

/// The unihashes of tasks, by their numbers, as far as they are learnt: those of the others are no digests.
#[derive(Drop)]
struct Learnt {
    unihashes: Vec<Hash>,
    are_known: Vec<bool>,
}

/// Nothing is learnt of so many tasks.
fn nothing_learnt(alloc: Global, count: usize) -> Result<Learnt, AllocError> {
    Ok(Learnt {
        unihashes: vec![in alloc; Hash { bytes: [0; 32] }; count]?,
        are_known: vec![in alloc; false; count]?,
    })
}

/// Learns the unihash of a task in a store.
fn learn(
    rt: &HostRuntime,
    store: &str,
    plan: &Plan,
    learnt: &mut Learnt,
    at: usize,
) -> io::Result<()> {
    let (Some(task), Some(is_known), Some(place)) = (
        plan.tasks.as_slice().get(at),
        learnt.are_known.get_mut(at),
        learnt.unihashes.get_mut(at),
    ) else {
        return Ok(());
    };
    if !*is_known {
        *is_known = true;
        if let Some(unihash) = unihash_of(rt, store, &task.id)? {
            *place = unihash;
        }
    }
    Ok(())
}

/// Learns the unihashes of the tasks that a task needs.
fn learn_needed(
    rt: &HostRuntime,
    store: &str,
    plan: &Plan,
    learnt: &mut Learnt,
    task: &PlanTask,
) -> io::Result<()> {
    for number in task.deps.as_slice() {
        learn(rt, store, plan, learnt, *number as usize)?;
    }
    Ok(())
}

/// The signature of a task by these unihashes; none where there is no such task.
fn signature(
    rt: &HostRuntime,
    plan: &Plan,
    number: u32,
    unihashes: &[Hash],
) -> io::Result<Option<SigRecord>> {
    let count = plan.tasks.as_slice().len();
    if number as usize >= count || unihashes.len() != count {
        return Ok(None);
    }
    match sig_of(rt.alloc(), plan, number, unihashes) {
        Ok(sig) => Ok(Some(sig)),
        Err(wanting) => Err(no_memory(wanting)),
    }
}

/// Why a task ran that differs in nothing from what is recorded of it.
fn without_change(plan: &Plan, one: &Started<'_>, is_forced: bool) -> Without {
    if is_forced && plan.targets.as_slice().contains(&one.number) {
        Without::Forced
    } else if one.task.nostamp {
        Without::Always
    } else {
        Without::Gone
    }
}

/// Why a task ran.
fn told_of(
    rt: &HostRuntime,
    plan: &Plan,
    one: &Started<'_>,
    unihashes: &[Hash],
    is_forced: bool,
) -> io::Result<Told> {
    let alloc = rt.alloc();
    let Some(was) = &one.was else {
        return Ok(reason_without(alloc, Without::New)?);
    };
    let Some(now) = signature(rt, plan, one.number, unihashes)? else {
        return Ok(reason_without(alloc, Without::New)?);
    };
    let told = differences(alloc, &was.sig, &now)?;
    if !told.is_empty() {
        return Ok(told);
    }
    Ok(reason_without(alloc, without_change(plan, one, is_forced))?)
}

/// Puts the lines of a task.
fn put_told(text: &mut String, task: &PlanTask, told: &Told) -> io::Result<()> {
    write!(
        text,
        "{}:{}: {}\n{}",
        task.id.pn.as_str(),
        task.id.task.as_str(),
        told.words.as_str(),
        told.below.as_str()
    )?;
    Ok(())
}

/// The causes so far, as standard error names them, and how many there are.
#[derive(Drop)]
struct Roots {
    words: String,
    count: usize,
}

/// Puts the cause of a task behind others, where it is the task's own.
fn put_root(roots: &mut Roots, task: &PlanTask, told: &Told) -> io::Result<()> {
    let Some(root) = &told.root else {
        return Ok(());
    };
    if roots.count < MOST_NAMED {
        let between = if roots.count == 0 { "" } else { ", " };
        write!(
            &mut roots.words,
            "{between}{}:{} since {}",
            task.id.pn.as_str(),
            task.id.task.as_str(),
            root.as_str()
        )?;
    }
    roots.count = roots.count.saturating_add(1);
    Ok(())
}

/// Says on standard error how many tasks ran, and the causes. All are in the file below the store.
fn tell_roots(rt: &HostRuntime, store: &str, count: usize, roots: &Roots) {
    let tasks = if count == 1 { "task" } else { "tasks" };
    let words = roots.words.as_str();
    let _ = match roots.count.saturating_sub(MOST_NAMED) {
        0 if roots.count == 0 => eprintln!(rt;
            "bitbake: why: {count} {tasks} ran; {store}/{WHY} says why"
        ),
        0 => eprintln!(rt; "bitbake: why: {count} {tasks} ran: {words}; {store}/{WHY} has all"),
        more => eprintln!(rt;
            "bitbake: why: {count} {tasks} ran: {words}, and {more} more; {store}/{WHY} has all"
        ),
    };
}

/// Puts why each task ran, and its cause.
fn put_all(
    rt: &HostRuntime,
    store: &str,
    plan: &Plan,
    started: &[Started<'_>],
    is_forced: bool,
    text: &mut String,
    roots: &mut Roots,
) -> io::Result<()> {
    let mut learnt = nothing_learnt(rt.alloc(), plan.tasks.as_slice().len())?;
    for one in started {
        if one.was.is_some() {
            learn_needed(rt, store, plan, &mut learnt, one.task)?;
        }
        let told = told_of(rt, plan, one, &learnt.unihashes, is_forced)?;
        put_told(text, one.task, &told)?;
        put_root(roots, one.task, &told)?;
    }
    Ok(())
}

/// Whether an earlier run is known of one of the tasks.
fn is_again(started: &[Started<'_>]) -> bool {
    started.iter().any(|one| one.was.is_some())
}

/// The folder of all stores, from the current folder, with its slash.
const ALL_STORES: &str = "build/";

/// Writes a file into the folder of a run's store, in place of what stands there. It is reached through no link.
pub fn put_beside(rt: &HostRuntime, at: &Planned, name: &str, text: String) -> io::Result<()> {
    let whole = format!(in rt.alloc(); "{}/{name}", at.store.as_str())?;
    let path = whole.as_str().strip_prefix(ALL_STORES).unwrap_or(name);
    let bytes = Bytes::from_vec(text.into_bytes());
    put_entry(rt, "build", path, &Entry::File { exec: false, bytes }, None)
}

/// Writes the reasons of a run, in place of those of the one before, and says the causes.
fn write_reasons(
    rt: &HostRuntime,
    plan: &Plan,
    tale: &[Logged],
    known: &Known<'_>,
    at: &Planned,
) -> io::Result<()> {
    let store = at.store.as_str();
    let mut started = started_of(rt, plan, tale, known.stamps, at)?;
    seek_others(rt, store, &mut started, known.begun)?;
    let mut text = String::new(rt.alloc());
    let mut roots = Roots {
        words: String::new(rt.alloc()),
        count: 0,
    };
    put_all(
        rt,
        store,
        plan,
        &started,
        known.is_forced,
        &mut text,
        &mut roots,
    )?;
    put_beside(rt, at, WHY, text)?;
    if is_again(&started) {
        tell_roots(rt, store, started.len(), &roots);
    }
    Ok(())
}
