// A part of a run of several configurations.
ghost use Rattle.std.specs.Prelude.{◌≡◌, ◌≢◌, ◌<◌, ◌≤◌, ◌∷◌, ◌++◌, [], ℕ, List, OnOk, OnErr, codes, vec_len, vec_capacity, length};
ghost use Rattle.outside_traits.specs.Fault.{Counts, Rose, sink_failed};
ghost use Rattle.meta_model.specs.Text.{newline};
ghost use Rattle.run_model.specs.Texts.{plan_text as text_of};
ghost use Rattle.run_model.specs.Written.{WritesFront};
ghost use Rattle.plan_model.specs.Sound.{IsSound};
ghost use Rattle.plan_model.specs.Spellings.{HasSpellings};
ghost use Rattle.multi_config.specs.Configs.{config_line};
ghost use Rattle.multi_config.specs.Named.{IsNamed};
ghost use Rattle.multi_config.specs.Parts.{IsPart, stands};
ghost use Rattle.bitbake_top.specs.Parts.{RanPlan, behind_text};

use crate::answer::refuse;
use crate::finish::Finish;
use crate::whole::{Ran, Ready, Room, prepare};
use answer_model::RunRequest;
use bb_report::write_all;
use build_resume::Outcome;
use build_store::Ahead;
use config_build::build_config;
use meta_model::{Options, Plan, Status};
use multi_config::ConfigTargets;
use outside_traits::{Bench, Disk, Layers, Sink, SinkFault};
use std::alloc::Global;
use std::sync::Wait;
use std::thread::Threads;
use target_plan::find_part_plan;
use tree_model::{ListOf, Mem};

/// Writes the line of a configuration with this name. It takes no memory.
fn write_name<W: Sink>(sink: &mut W, mc: &str) -> Result<(), SinkFault>
    ensures ok { OnOk result (W.tells → W.written sink.new ≡ W.written sink.old ++ (codes "mc " ++ mc.now ++ newline ∷ [])) }
    ensures err { OnErr result (W.tells → WritesFront (W.written sink.old) (W.written sink.new) (codes "mc " ++ mc.now ++ newline ∷ [])) }
    ensures cause { Counts (W.faults sink.old) (W.faults sink.new) (sink_failed result) }
{
    write_all(sink, b"mc ")?;
    write_all(sink, mc.as_bytes())?;
    write_all(sink, b"\n")
}

/// Writes the line of a configuration that has a name. It takes no memory.
pub(crate) fn write_line<W: Sink>(sink: &mut W, mc: &str) -> Result<(), SinkFault>
    ensures ok { OnOk result (W.tells → W.written sink.new ≡ W.written sink.old ++ config_line mc.now) }
    ensures err { OnErr result (W.tells → WritesFront (W.written sink.old) (W.written sink.new) (config_line mc.now)) }
    ensures cause { Counts (W.faults sink.old) (W.faults sink.new) (sink_failed result) }
{
    if mc.is_empty() {
        return Ok(());
    }
    write_name(sink, mc)
}

/// Runs a plan, whose text was printed, over the store of a configuration.
fn run_part_ready<D, B, W, R>(
    rt: &R,
    alloc: Global,
    ahead: &Ahead,
    room: Room,
    plan: Plan,
    options: Options,
    mc: &str,
    disk: D,
    benches: Vec<B>,
    sink: W,
) -> Ran<D, B, W>
where
    D: Disk + Drop + Send,
    B: Bench + Drop + Send,
    W: Sink + Drop + Send,
    R: Threads + Wait + Sync,
    requires name { IsNamed mc.now }
    requires bench { 0 < vec_len benches }
    requires reach { 3900 ≤ D.reach }
    requires sound { IsSound plan }
    requires spellings { HasSpellings plan }
    requires none { (room.plans.items ≡ []) × (room.tales.items ≡ []) }
    requires room { (1 ≤ vec_capacity room.plans) × (1 ≤ vec_capacity room.tales) }
    ensures ran { (base : List ℕ) (count : ℕ) → count ≤ W.faults sink → (W.tells → W.written sink ≡ base ++ text_of plan)
        → RanPlan D.tells B.tells W.tells options mc.now plan (behind_text base count
        (stands D.story D.faults B.gives B.place B.faults W.written W.faults 0 disk benches.items sink))
        (stands D.story D.faults B.gives B.place B.faults W.written W.faults 0 result.disk result.benches.items result.sink)
        result.plans.items result.tales.items result.status }
    ensures begun { result.tales.items ≢ [] }
    ensures few { (length result.plans.items ≤ 1) × (length result.tales.items ≤ 1) }
{
    let Room {
        mut plans,
        mut tales,
    } = room;
    let Outcome {
        status,
        plan,
        failed: _,
        disk,
        benches,
        sink,
        tale,
    } = build_config(rt, alloc, ahead, plan, options, mc, disk, benches, sink);
    plans.push_reserved(plan);
    tales.push_reserved(ListOf::from_vec(tale));
    Ran {
        status,
        plans,
        tales,
        disk,
        benches,
        sink,
    }
}

/// Prints a plan and runs it over the store of a configuration, and gives the devices back with the status and the tale. Nothing is begun before the plan's
/// text is printed.
fn run_part_whole<D, B, W, R>(
    rt: &R,
    alloc: Global,
    ahead: &Ahead,
    plan: Plan,
    options: Options,
    mc: &str,
    disk: D,
    benches: Vec<B>,
    mut sink: W,
) -> Ran<D, B, W>
where
    D: Disk + Drop + Send,
    B: Bench + Drop + Send,
    W: Sink + Drop + Send,
    R: Threads + Wait + Sync,
    requires name { IsNamed mc.now }
    requires bench { 0 < vec_len benches }
    requires reach { 3900 ≤ D.reach }
    requires sound { IsSound plan }
    requires spellings { HasSpellings plan }
    ensures ran { RanPlan D.tells B.tells W.tells options mc.now plan
        (stands D.story D.faults B.gives B.place B.faults W.written W.faults 0 disk benches.items sink)
        (stands D.story D.faults B.gives B.place B.faults W.written W.faults 0 result.disk result.benches.items result.sink)
        result.plans.items result.tales.items result.status }
    ensures same { result.tales.items ≡ [] → (result.disk ≡ disk) × (result.benches.items ≡ benches.items) }
    ensures few { (length result.plans.items ≤ 1) × (length result.tales.items ≤ 1) }
{
    match prepare(alloc, &plan) {
        Ok(Ready { text, mut room }) => match write_all(&mut sink, text.as_str().as_bytes()) {
            Ok(()) => run_part_ready(
                rt, alloc, ahead, room, plan, options, mc, disk, benches, sink,
            ),
            Err(_) => {
                room.plans.push_reserved(plan);
                Ran {
                    status: Status::WriteFault,
                    plans: room.plans,
                    tales: room.tales,
                    disk,
                    benches,
                    sink,
                }
            }
        },
        Err(Mem) => Ran {
            status: refuse(alloc, Status::OutOfMemory, &mut sink),
            plans: Vec::new(alloc),
            tales: Vec::new(alloc),
            disk,
            benches,
            sink,
        },
    }
}

/// Runs a part whose line was written: finds its plan, and runs that over its store, or prints the line of its refusal.
fn run_part_behind<L, D, B, W, R>(
    rt: &R,
    alloc: Global,
    ahead: &Ahead,
    request: &RunRequest,
    part: &ConfigTargets,
    mut layers: L,
    disk: D,
    benches: Vec<B>,
    mut sink: W,
) -> Finish<L, D, B, W>
where
    L: Layers,
    D: Disk + Drop + Send,
    B: Bench + Drop + Send,
    W: Sink + Drop + Send,
    R: Threads + Wait + Sync,
    requires name { IsNamed part.now.mc }
    requires bench { 0 < vec_len benches }
    requires reach { 3900 ≤ D.reach }
    ensures part { (base : List ℕ) (count : ℕ) → count ≤ W.faults sink
        → (W.tells → W.written sink ≡ base ++ config_line part.now.mc)
        → IsPart L.tells D.tells B.tells W.tells (L.files layers) request.now
        (record { part = part.now; plans = result.plans.items; tales = result.tales.items; status = result.status })
        (behind_text base count (stands D.story D.faults B.gives B.place B.faults W.written W.faults (L.faults layers) disk benches.items sink))
        (stands D.story D.faults B.gives B.place B.faults W.written W.faults (L.faults result.layers) result.disk
        result.benches.items result.sink) }
    ensures files { L.files result.layers ≡ L.files layers }
    ensures same { result.tales.items ≡ [] → (result.disk ≡ disk) × (result.benches.items ≡ benches.items) }
    ensures few { (length result.plans.items ≤ 1) × (length result.tales.items ≤ 1) }
{
    match find_part_plan(rt, alloc, &mut layers, part, request.force) {
        Ok(plan) => {
            let Ran {
                status,
                plans,
                tales,
                disk,
                benches,
                sink,
            } = run_part_whole(
                rt,
                alloc,
                ahead,
                plan,
                request.options,
                part.mc.as_str(),
                disk,
                benches,
                sink,
            );
            Finish {
                status,
                plans,
                tales,
                layers,
                disk,
                benches,
                sink,
            }
        }
        Err(status) => Finish {
            status: refuse(alloc, status, &mut sink),
            plans: Vec::new(alloc),
            tales: Vec::new(alloc),
            layers,
            disk,
            benches,
            sink,
        },
    }
}

/// Runs a part: writes the line of its configuration, finds its plan, and runs that over its store. Its configuration is read as it is reached.
pub fn run_part<L, D, B, W, R>(
    rt: &R,
    alloc: Global,
    ahead: &Ahead,
    request: &RunRequest,
    part: &ConfigTargets,
    layers: L,
    disk: D,
    benches: Vec<B>,
    mut sink: W,
) -> Finish<L, D, B, W>
where
    L: Layers,
    D: Disk + Drop + Send,
    B: Bench + Drop + Send,
    W: Sink + Drop + Send,
    R: Threads + Wait + Sync,
    requires name { IsNamed part.now.mc }
    requires bench { 0 < vec_len benches }
    requires reach { 3900 ≤ D.reach }
    ensures part { IsPart L.tells D.tells B.tells W.tells (L.files layers) request.now
        (record { part = part.now; plans = result.plans.items; tales = result.tales.items; status = result.status })
        (stands D.story D.faults B.gives B.place B.faults W.written W.faults (L.faults layers) disk benches.items sink)
        (stands D.story D.faults B.gives B.place B.faults W.written W.faults (L.faults result.layers) result.disk
        result.benches.items result.sink) }
    ensures files { L.files result.layers ≡ L.files layers }
    ensures same { result.tales.items ≡ [] → (result.disk ≡ disk) × (result.benches.items ≡ benches.items) }
    ensures few { (length result.plans.items ≤ 1) × (length result.tales.items ≤ 1) }
{
    match write_line(&mut sink, part.mc.as_str()) {
        Ok(()) => run_part_behind(rt, alloc, ahead, request, part, layers, disk, benches, sink),
        Err(_) => Finish {
            status: Status::WriteFault,
            plans: Vec::new(alloc),
            tales: Vec::new(alloc),
            layers,
            disk,
            benches,
            sink,
        },
    }
}
