// Clearing the store by a plan, and what is printed of it.
ghost use Rattle.std.specs.Prelude.{◌≡◌, ◌≢◌, ◌⊎◌, ◌≤◌, ◌++◌, IfOk, option_copied};
ghost use Rattle.outside_traits.specs.Fault.{Counts, Rose, disk_failed};
ghost use Rattle.answer_model.specs.Answers.{Says};
ghost use Rattle.run_model.specs.Texts.{fault_text};
ghost use Rattle.run_model.specs.Written.{WritesFront};
ghost use Rattle.plan_clean.specs.Along.{IsOrdered};
ghost use Rattle.bitbake_top.specs.Clean as clean;

use crate::answer::{print, refuse};
use bb_report::push_count;
use meta_model::{Plan, Status};
use outside_traits::{Disk, DiskFault, Sink};
use plan_clean::{clean_disk, count_disk};
use std::alloc::Global;
use store_clean::Cleaned;
use tree_model::{Mem, Text};

/// How a clearing ended.
#[derive(Drop)]
pub struct Cleared {
    /// How the call ended.
    pub status: Status,

    /// How many records are kept and how many went, or would go, where that was done, also where its line couldn't be printed then.
    pub cleaned: Option<Cleaned>,
}

/// How the line of the numbers begins.
fn front_of(dry: bool) -> &'static str
    ensures { result.now ≡ clean.clean_front dry }
{
    if dry { "would clean: " } else { "cleaned: " }
}

/// The line of the numbers.
fn text_of(alloc: Global, dry: bool, cleaned: &Cleaned) -> Result<Text, Mem>
    ensures { IfOk result (λ text. text ≡ clean.clean_text dry cleaned.now) }
{
    let mut text = Text::from_str(alloc, front_of(dry))?;
    push_count(&mut text, cleaned.kept, " kept, ")?;
    push_count(&mut text, cleaned.gone, " gone\n")?;
    Ok(text)
}

/// Prints the line of the numbers, or that memory was wanting for it.
fn print_numbers<W: Sink>(alloc: Global, dry: bool, cleaned: &Cleaned, sink: &mut W) -> Status
    ensures status { (result ≡ Status.Ok) ⊎ ((result ≡ Status.WriteFault) ⊎ (result ≡ Status.OutOfMemory)) }
    ensures whole { result ≡ Status.Ok → W.tells
        → W.written sink.new ≡ W.written sink.old ++ clean.clean_text dry cleaned.now }
    ensures front { result ≡ Status.WriteFault → W.tells
        → WritesFront (W.written sink.old) (W.written sink.new) (clean.clean_text dry cleaned.now) }
    ensures said { result ≢ Status.Ok → result ≢ Status.WriteFault → W.tells
        → Says (fault_text result) (W.written sink.old) (W.written sink.new) (W.faults sink.old) (W.faults sink.new) }
    ensures cause { result ≡ Status.WriteFault → Rose (W.faults sink.old) (W.faults sink.new) }
{
    match text_of(alloc, dry, cleaned) {
        Ok(text) => print(sink, text.as_str()),
        Err(Mem) => refuse(alloc, Status::OutOfMemory, sink),
    }
}

/// The status of a fault of the disk.
fn status_of(fault: DiskFault) -> Status
    ensures { clean.IsFaultStatus fault result }
{
    match fault {
        DiskFault::Failed => Status::DiskFault,
        DiskFault::Memory => Status::OutOfMemory,
    }
}

/// Clears a disk by the names of a plan's tasks, or only counts what would go.
fn numbers_of<D: Disk>(
    alloc: Global,
    disk: &mut D,
    plan: Option<&Plan>,
    limit: usize,
    dry: bool,
) -> Result<Cleaned, DiskFault>
    requires reach { 8 ≤ D.reach }
    requires ordered { IsOrdered (option_copied plan) }
    ensures numbers { D.tells → IfOk result (clean.AreNumbers dry (option_copied plan.entry) limit (D.story disk.old).held (D.story disk.new)) }
    ensures moments { D.tells → clean.MovesBy dry (option_copied plan.entry) limit (D.story disk.old) (D.story disk.new) }
    ensures cause { Counts (D.faults disk.old) (D.faults disk.new) (disk_failed result) }
{
    if dry {
        return count_disk(alloc, disk, plan, limit);
    }
    clean_disk(alloc, disk, plan, limit)
}

/// Clears a disk by the names of a plan's tasks, or only counts what would go, and prints the numbers, or the line of a refusal.
pub(crate) fn clear_by<D: Disk, W: Sink>(
    alloc: Global,
    plan: Option<&Plan>,
    limit: usize,
    dry: bool,
    disk: &mut D,
    sink: &mut W,
) -> Cleared
    requires reach { 8 ≤ D.reach }
    requires ordered { IsOrdered (option_copied plan) }
    ensures status { clean.IsCleanStatus result.status }
    ensures did { clean.DidClean (option_copied plan.entry) limit dry D.tells W.tells (D.story disk.old)
        (D.story disk.new) result.cleaned result.status (W.written sink.old) (W.written sink.new) }
    ensures said { result.status ≢ Status.Ok → result.status ≢ Status.WriteFault → W.tells
        → Says (fault_text result.status) (W.written sink.old) (W.written sink.new) (W.faults sink.old)
        (W.faults sink.new) }
    ensures disk_cause { result.status ≡ Status.DiskFault → Rose (D.faults disk.old) (D.faults disk.new) }
    ensures write_cause { result.status ≡ Status.WriteFault → Rose (W.faults sink.old) (W.faults sink.new) }
{
    match numbers_of(alloc, disk, plan, limit, dry) {
        Ok(cleaned) => Cleared {
            status: print_numbers(alloc, dry, &cleaned, sink),
            cleaned: Some(cleaned),
        },
        Err(fault) => Cleared {
            status: refuse(alloc, status_of(fault), sink),
            cleaned: None,
        },
    }
}
