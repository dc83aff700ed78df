// A run of several configurations.
ghost use Rattle.std.specs.Prelude.{◌≡◌, ◌≢◌, ◌<◌, ◌≤◌, ◌+◌, ◌++◌, [], ℕ, List, IfOk, vec_len, vec_capacity, length, map};
ghost use Rattle.std.specs.List.{AllByRecursion};
ghost use Rattle.outside_traits.specs.Fault.{Rose};
ghost use Rattle.run_model.specs.Benches.{SomeRose};
ghost use Rattle.answer_model.specs.Run.{HasCause};
ghost use Rattle.multi_config.specs.Configs as meant;
ghost use Rattle.multi_config.specs.Named.{IsNamed};
ghost use Rattle.multi_config.specs.Parts.{RanConfigs, stands};
ghost use Rattle.bitbake_top.specs.Parts.{ArePartsOf, RanParts, behind_status};

use crate::answer::refuse;
use crate::finish::Finish;
use crate::part::run_part;
use crate::whole::Room;
use answer_model::RunRequest;
use build_store::Ahead;
use meta_model::{Logged, Plan, Status};
use multi_config::ConfigTargets;
use outside_traits::{Bench, Disk, Layers, Sink};
use std::alloc::Global;
use std::sync::Wait;
use std::thread::Threads;
use target_graph::find_parts;
use tree_model::{ListOf, Mem};

/// Whether a run goes on behind a part that ended so.
pub(crate) fn goes_on(keep_going: bool, status: &Status) -> bool
    ensures { result ≡ meant.goes_on keep_going status.now }
{
    match status {
        Status::Ok => true,
        Status::TaskFailed => keep_going,
        _ => false,
    }
}

/// The status of parts of which the first one ended so, and the run went on behind it.
fn status_behind(first: Status, rest: Status) -> Status
    ensures { result ≡ behind_status first rest }
{
    match first {
        Status::TaskFailed => match rest {
            Status::Ok => Status::TaskFailed,
            rest => rest,
        },
        _ => rest,
    }
}

/// Moves the items of one list, which has at most one, to the end of another one that has room for it.
fn move_one<T: Drop>(made: &mut Vec<T>, mut more: Vec<T>)
    requires one { length more.items ≤ 1 }
    requires room { vec_len made.old + length more.items ≤ vec_capacity made.old }
    ensures items { made.new.items ≡ made.old.items ++ more.items }
    ensures capacity { vec_capacity made.new ≡ vec_capacity made.old }
{
    if let Some(item) = more.pop() {
        made.push_reserved(item);
    }
}

/// Room for the plans and the tales of so many parts.
fn room_for(alloc: Global, parts: usize) -> Result<Room, Mem>
    ensures none { IfOk result (λ room. (room.plans.items ≡ []) × (room.tales.items ≡ [])) }
    ensures room { IfOk result (λ room. (parts ≤ vec_capacity room.plans) × (parts ≤ vec_capacity room.tales)) }
{
    let plans = Vec::with_capacity(alloc, parts)?;
    let tales = Vec::with_capacity(alloc, parts)?;
    Ok(Room { plans, tales })
}

/// Runs parts, one after another, until one is reached behind which the run doesn't go on. The plans and the tales of those before them are handed in, with
/// room for theirs.
fn run_from<L, D, B, W, R>(
    rt: &R,
    alloc: Global,
    ahead: &Ahead,
    request: &RunRequest,
    parts: &[ConfigTargets],
    mut room: Room,
    layers: L,
    disk: D,
    benches: Vec<B>,
    sink: W,
) -> Finish<L, D, B, W>
where
    L: Layers,
    D: Disk + Drop + Send,
    B: Bench + Drop + Send,
    W: Sink + Drop + Send,
    R: Threads + Wait + Sync,
    requires names { AllByRecursion (λ p. IsNamed p.mc) parts.now }
    requires bench { 0 < vec_len benches }
    requires reach { 3900 ≤ D.reach }
    requires plans { vec_len room.plans + length parts.now ≤ vec_capacity room.plans }
    requires tales { vec_len room.tales + length parts.now ≤ vec_capacity room.tales }
    ensures parts { RanParts L.tells D.tells B.tells W.tells (L.files layers) request.now parts.now
        (stands D.story D.faults B.gives B.place B.faults W.written W.faults (L.faults layers) disk benches.items sink)
        (stands D.story D.faults B.gives B.place B.faults W.written W.faults (L.faults result.layers) result.disk
        result.benches.items result.sink)
        room.plans.items result.plans.items room.tales.items result.tales.items result.status }
    ensures same { result.tales.items ≡ [] → (result.disk ≡ disk) × (result.benches.items ≡ benches.items) }
{
    match parts.split_first() {
        Some((part, rest)) => {
            let Finish {
                status,
                plans,
                tales,
                layers,
                disk,
                benches,
                sink,
            } = run_part(rt, alloc, ahead, request, part, layers, disk, benches, sink);
            move_one(&mut room.plans, plans);
            move_one(&mut room.tales, tales);
            if !goes_on(request.options.keep_going, &status) {
                return Finish {
                    status,
                    plans: room.plans,
                    tales: room.tales,
                    layers,
                    disk,
                    benches,
                    sink,
                };
            }
            let last = run_from(
                rt, alloc, ahead, request, rest, room, layers, disk, benches, sink,
            );
            Finish {
                status: status_behind(status, last.status),
                plans: last.plans,
                tales: last.tales,
                layers: last.layers,
                disk: last.disk,
                benches: last.benches,
                sink: last.sink,
            }
        }
        None => Finish {
            status: Status::Ok,
            plans: room.plans,
            tales: room.tales,
            layers,
            disk,
            benches,
            sink,
        },
    }
}

/// Runs the parts of a request, or prints the line of a refusal where memory is wanting for what they hand back.
fn run_found<L, D, B, W, R>(
    rt: &R,
    alloc: Global,
    ahead: &Ahead,
    request: &RunRequest,
    parts: &[ConfigTargets],
    layers: L,
    disk: D,
    benches: Vec<B>,
    mut sink: W,
) -> Finish<L, D, B, W>
where
    L: Layers,
    D: Disk + Drop + Send,
    B: Bench + Drop + Send,
    W: Sink + Drop + Send,
    R: Threads + Wait + Sync,
    requires names { AllByRecursion (λ p. IsNamed p.mc) parts.now }
    requires bench { 0 < vec_len benches }
    requires reach { 3900 ≤ D.reach }
    ensures ran { ArePartsOf L.tells (L.files layers) request.now parts.now
        → RanConfigs L.tells D.tells B.tells W.tells (L.files layers) request.now
        (stands D.story D.faults B.gives B.place B.faults W.written W.faults (L.faults layers) disk benches.items sink)
        (stands D.story D.faults B.gives B.place B.faults W.written W.faults (L.faults result.layers) result.disk
        result.benches.items result.sink)
        result.plans.items result.tales.items result.status }
    ensures same { result.tales.items ≡ [] → (result.disk ≡ disk) × (result.benches.items ≡ benches.items) }
    ensures no_usage { result.status ≢ Status.Usage }
    ensures causes { HasCause (Rose (L.faults layers) (L.faults result.layers)) (D.faults result.disk)
        (SomeRose (map B.faults benches.items) (map B.faults result.benches.items))
        (Rose (W.faults sink) (W.faults result.sink)) result.status }
{
    match room_for(alloc, parts.len()) {
        Ok(room) => run_from(
            rt, alloc, ahead, request, parts, room, layers, disk, benches, sink,
        ),
        Err(Mem) => Finish {
            status: refuse(alloc, Status::OutOfMemory, &mut sink),
            plans: Vec::new(alloc),
            tales: Vec::new(alloc),
            layers,
            disk,
            benches,
            sink,
        },
    }
}

/// Runs what a request asks for in several configurations, or prints the line of its refusal.
pub fn run_configs<L, D, B, W, R>(
    rt: &R,
    alloc: Global,
    ahead: &Ahead,
    request: &RunRequest,
    mut layers: L,
    disk: D,
    benches: Vec<B>,
    mut sink: W,
) -> Finish<L, D, B, W>
where
    L: Layers,
    D: Disk + Drop + Send,
    B: Bench + Drop + Send,
    W: Sink + Drop + Send,
    R: Threads + Wait + Sync,
    requires bench { 0 < vec_len benches }
    requires reach { 3900 ≤ D.reach }
    ensures ran { RanConfigs L.tells D.tells B.tells W.tells (L.files layers) request.now
        (stands D.story D.faults B.gives B.place B.faults W.written W.faults (L.faults layers) disk benches.items sink)
        (stands D.story D.faults B.gives B.place B.faults W.written W.faults (L.faults result.layers) result.disk
        result.benches.items result.sink)
        result.plans.items result.tales.items result.status }
    ensures same { result.tales.items ≡ [] → (result.disk ≡ disk) × (result.benches.items ≡ benches.items) }
    ensures no_usage { result.status ≢ Status.Usage }
    ensures causes { HasCause (Rose (L.faults layers) (L.faults result.layers)) (D.faults result.disk)
        (SomeRose (map B.faults benches.items) (map B.faults result.benches.items))
        (Rose (W.faults sink) (W.faults result.sink)) result.status }
{
    match find_parts(
        alloc,
        &mut layers,
        request.targets.as_slice(),
        request.task.as_ref(),
    ) {
        Ok(parts) => run_found(
            rt,
            alloc,
            ahead,
            request,
            parts.as_slice(),
            layers,
            disk,
            benches,
            sink,
        ),
        Err(status) => Finish {
            status: refuse(alloc, status, &mut sink),
            plans: Vec::new(alloc),
            tales: Vec::new(alloc),
            layers,
            disk,
            benches,
            sink,
        },
    }
}
