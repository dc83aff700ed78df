// What is shown of several configurations without a run.
ghost use Rattle.std.specs.Prelude.{◌≡◌, ◌≤◌, ◌++◌, [], ℕ, List, IfOk, IfErr, true};
ghost use Rattle.outside_traits.specs.Fault.{Counts, Rose};
ghost use Rattle.outside_traits.specs.Store.{IsListing};
ghost use Rattle.answer_model.specs.Answers.{is_read_status, is_refusal};
ghost use Rattle.project_reading.specs.Answered.{mode_failed};
ghost use Rattle.multi_config.specs.Configs.{config_line};
ghost use Rattle.multi_config.specs.Parts.{Standing};
ghost use Rattle.multi_config.specs.Shown.{HasShown, IsShown, IsUnshown, ShowsConfigs, stands_at};
ghost use Rattle.bitbake_top.specs.Parts.{ShownParts};

use crate::answer::{print, refuse};
use crate::part::write_line;
use crate::parts::goes_on;
use answer_model::{RunRequest, ShowMode};
use bb_report::dry_text;
use meta_model::Status;
use multi_config::ConfigTargets;
use outside_traits::{Layers, Sink};
use project_reading::or_status;
use read_modes::read_part;
use std::alloc::Global;
use std::thread::Threads;
use target_graph::find_parts;
use target_plan::find_part_plan;
use tree_model::Text;

/// The text of a part's plan.
fn part_plan_text<R: Threads + Sync, L: Layers>(
    rt: &R,
    alloc: Global,
    layers: &mut L,
    part: &ConfigTargets,
) -> Result<Text, Status>
    ensures ok { IfOk result (λ text. L.tells → (paths : List (List ℕ)) → IsListing [] (L.files layers.old) paths
        → HasShown ShowMode.Plan (L.files layers.old) paths part.now text) }
    ensures err { IfErr result (λ status. L.tells → (paths : List (List ℕ)) → IsListing [] (L.files layers.old) paths
        → IsUnshown ShowMode.Plan (L.files layers.old) paths part.now status) }
    ensures refusal { IfErr result (λ status. is_refusal status ≡ true) }
    ensures files { L.files layers.new ≡ L.files layers.old }
    ensures cause { Counts (L.faults layers.old) (L.faults layers.new) (mode_failed result) }
{
    match find_part_plan(rt, alloc, layers, part, false) {
        Ok(plan) => or_status(dry_text(alloc, &plan)),
        Err(status) => Err(status),
    }
}

/// The text that is shown of a part.
fn shown_text<R: Threads + Sync, L: Layers>(
    rt: &R,
    alloc: Global,
    what: ShowMode,
    layers: &mut L,
    part: &ConfigTargets,
) -> Result<Text, Status>
    ensures ok { IfOk result (λ text. L.tells → (paths : List (List ℕ)) → IsListing [] (L.files layers.old) paths
        → HasShown what (L.files layers.old) paths part.now text) }
    ensures err { IfErr result (λ status. L.tells → (paths : List (List ℕ)) → IsListing [] (L.files layers.old) paths
        → IsUnshown what (L.files layers.old) paths part.now status) }
    ensures refusal { IfErr result (λ status. is_refusal status ≡ true) }
    ensures files { L.files layers.new ≡ L.files layers.old }
    ensures cause { Counts (L.faults layers.old) (L.faults layers.new) (mode_failed result) }
{
    match what {
        ShowMode::Plan => part_plan_text(rt, alloc, layers, part),
        ShowMode::Values => read_part(alloc, layers, part),
    }
}

/// Shows a part whose line was written: its text, or the line of its refusal.
fn show_behind<R: Threads + Sync, L: Layers, W: Sink>(
    rt: &R,
    alloc: Global,
    what: ShowMode,
    part: &ConfigTargets,
    layers: &mut L,
    sink: &mut W,
) -> Status
    ensures part { (at : Standing) (base : List ℕ) (count : ℕ) → count ≤ W.faults sink.old
        → (W.tells → W.written sink.old ≡ base ++ config_line part.now.mc)
        → IsShown L.tells W.tells what (L.files layers.old)
        (record { part = part.now; plans = []; tales = []; status = result })
        (stands_at (L.faults layers.old) base count at)
        (stands_at (L.faults layers.new) (W.written sink.new) (W.faults sink.new) at) }
    ensures files { L.files layers.new ≡ L.files layers.old }
    ensures read_status { is_read_status result ≡ true }
    ensures read_cause { result ≡ Status.ReadFault → Rose (L.faults layers.old) (L.faults layers.new) }
    ensures write_cause { result ≡ Status.WriteFault → Rose (W.faults sink.old) (W.faults sink.new) }
    ensures later { (L.faults layers.old ≤ L.faults layers.new) × (W.faults sink.old ≤ W.faults sink.new) }
{
    match shown_text(rt, alloc, what, layers, part) {
        Ok(text) => print(sink, text.as_str()),
        Err(status) => refuse(alloc, status, sink),
    }
}

/// Shows a part: the line of its configuration, and behind that its text, or the line of its refusal.
fn show_part<R: Threads + Sync, L: Layers, W: Sink>(
    rt: &R,
    alloc: Global,
    what: ShowMode,
    part: &ConfigTargets,
    layers: &mut L,
    sink: &mut W,
) -> Status
    ensures part { (at : Standing) → IsShown L.tells W.tells what (L.files layers.old)
        (record { part = part.now; plans = []; tales = []; status = result })
        (stands_at (L.faults layers.old) (W.written sink.old) (W.faults sink.old) at)
        (stands_at (L.faults layers.new) (W.written sink.new) (W.faults sink.new) at) }
    ensures files { L.files layers.new ≡ L.files layers.old }
    ensures read_status { is_read_status result ≡ true }
    ensures read_cause { result ≡ Status.ReadFault → Rose (L.faults layers.old) (L.faults layers.new) }
    ensures write_cause { result ≡ Status.WriteFault → Rose (W.faults sink.old) (W.faults sink.new) }
    ensures later { (L.faults layers.old ≤ L.faults layers.new) × (W.faults sink.old ≤ W.faults sink.new) }
{
    match write_line(sink, part.mc.as_str()) {
        Ok(()) => show_behind(rt, alloc, what, part, layers, sink),
        Err(_) => Status::WriteFault,
    }
}

/// Shows parts, one after another, up to the first that isn't Ok.
fn show_from<R: Threads + Sync, L: Layers, W: Sink>(
    rt: &R,
    alloc: Global,
    what: ShowMode,
    parts: &[ConfigTargets],
    layers: &mut L,
    sink: &mut W,
) -> Status
    ensures parts { (at : Standing) → ShownParts L.tells W.tells what (L.files layers.old) parts.now
        (stands_at (L.faults layers.old) (W.written sink.old) (W.faults sink.old) at)
        (stands_at (L.faults layers.new) (W.written sink.new) (W.faults sink.new) at) result }
    ensures read_status { is_read_status result ≡ true }
    ensures read_cause { result ≡ Status.ReadFault → Rose (L.faults layers.old) (L.faults layers.new) }
    ensures write_cause { result ≡ Status.WriteFault → Rose (W.faults sink.old) (W.faults sink.new) }
    ensures later { (L.faults layers.old ≤ L.faults layers.new) × (W.faults sink.old ≤ W.faults sink.new) }
{
    match parts.split_first() {
        Some((part, rest)) => {
            let status = show_part(rt, alloc, what, part, layers, sink);
            if !goes_on(false, &status) {
                return status;
            }
            show_from(rt, alloc, what, rest, layers, sink)
        }
        None => Status::Ok,
    }
}

/// Shows what a request asks of several configurations, each behind its own line, or prints the line of its refusal.
pub fn show_configs<R: Threads + Sync, L: Layers, W: Sink>(
    rt: &R,
    alloc: Global,
    what: ShowMode,
    request: &RunRequest,
    layers: &mut L,
    sink: &mut W,
) -> Status
    ensures shows { (at : Standing) → ShowsConfigs L.tells W.tells what (L.files layers.old) request.now
        (stands_at (L.faults layers.old) (W.written sink.old) (W.faults sink.old) at)
        (stands_at (L.faults layers.new) (W.written sink.new) (W.faults sink.new) at) result }
    ensures read_status { is_read_status result ≡ true }
    ensures read_cause { result ≡ Status.ReadFault → Rose (L.faults layers.old) (L.faults layers.new) }
    ensures write_cause { result ≡ Status.WriteFault → Rose (W.faults sink.old) (W.faults sink.new) }
{
    match find_parts(
        alloc,
        layers,
        request.targets.as_slice(),
        request.task.as_ref(),
    ) {
        Ok(parts) => show_from(rt, alloc, what, parts.as_slice(), layers, sink),
        Err(status) => refuse(alloc, status, sink),
    }
}
