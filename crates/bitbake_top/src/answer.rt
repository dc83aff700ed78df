// What is printed without a run.
ghost use Rattle.std.specs.Prelude.{◌≡◌, ◌≢◌, ◌≤◌, ◌⊎◌, ◌++◌, [], ℕ, List, Ok, true};
ghost use Rattle.outside_traits.specs.Fault.{Rose};
ghost use Rattle.outside_traits.specs.Store.{IsListing};
ghost use Rattle.load_model.specs.Loading.{sources_of};
ghost use Rattle.run_model.specs.Texts.{fault_text};
ghost use Rattle.run_model.specs.Written.{WritesFront};
ghost use Rattle.answer_model.specs.Modes.{mode_text};
ghost use Rattle.answer_model.specs.Answers.{HasRead, Says, is_read_status};

use answer_model::ReadMode;
use bb_report::{fault_text, write_all};
use meta_model::Status;
use outside_traits::{Layers, Sink};
use read_modes::read_mode;
use std::alloc::Global;
use tree_model::Text;

/// Prints a text, or a front of it where the sink fails.
pub fn print<W: Sink>(sink: &mut W, text: &str) -> Status
    ensures status { (result ≡ Status.Ok) ⊎ (result ≡ Status.WriteFault) }
    ensures whole { result ≡ Status.Ok → W.tells → W.written sink.new ≡ W.written sink.old ++ text.now }
    ensures said { W.tells → Says text.now (W.written sink.old) (W.written sink.new) (W.faults sink.old)
        (W.faults sink.new) }
    ensures front { W.tells → WritesFront (W.written sink.old) (W.written sink.new) text.now }
    ensures later { W.faults sink.old ≤ W.faults sink.new }
    ensures cause { result ≡ Status.WriteFault → Rose (W.faults sink.old) (W.faults sink.new) }
{
    match write_all(sink, text.as_bytes()) {
        Ok(()) => Status::Ok,
        Err(_) => Status::WriteFault,
    }
}

/// Prints the line of a refusal, and answers its status whatever the sink does. Where memory is wanting for the line, that is
/// the refusal; its line takes none.
pub fn refuse<W: Sink>(alloc: Global, status: Status, sink: &mut W) -> Status
    ensures status { (result ≡ status) ⊎ (result ≡ Status.OutOfMemory) }
    ensures later { W.faults sink.old ≤ W.faults sink.new }
    ensures said { W.tells → Says (fault_text result) (W.written sink.old) (W.written sink.new) (W.faults sink.old)
        (W.faults sink.new) }
{
    match fault_text(alloc, &status) {
        Ok(text) => {
            let _ = print(sink, text.as_str());
            status
        }
        Err(_) => {
            let _ = print(sink, "fault 11 memory\n");
            Status::OutOfMemory
        }
    }
}

/// Prints what a mode gives for these targets, or the line of its refusal.
pub fn read<L: Layers, W: Sink>(
    alloc: Global,
    mode: ReadMode,
    targets: &[Text],
    layers: &mut L,
    sink: &mut W,
) -> Status
    ensures read { L.tells → (paths : List (List ℕ)) → IsListing [] (L.files layers.old) paths
        → HasRead result (mode_text mode (sources_of (L.files layers.old)) paths targets.now) }
    ensures text { L.tells → W.tells → (paths : List (List ℕ)) → IsListing [] (L.files layers.old) paths
        → (text : List ℕ) → mode_text mode (sources_of (L.files layers.old)) paths targets.now ≡ Ok text
        → result ≡ Status.Ok → W.written sink.new ≡ W.written sink.old ++ text }
    ensures text_front { L.tells → W.tells → (paths : List (List ℕ)) → IsListing [] (L.files layers.old) paths
        → (text : List ℕ) → mode_text mode (sources_of (L.files layers.old)) paths targets.now ≡ Ok text
        → result ≡ Status.WriteFault → WritesFront (W.written sink.old) (W.written sink.new) text }
    ensures said { result ≢ Status.Ok → result ≢ Status.WriteFault → W.tells
        → Says (fault_text result) (W.written sink.old) (W.written sink.new) (W.faults sink.old) (W.faults sink.new) }
    ensures read_status { is_read_status result ≡ true }
    ensures read_cause { result ≡ Status.ReadFault → Rose (L.faults layers.old) (L.faults layers.new) }
    ensures write_cause { result ≡ Status.WriteFault → Rose (W.faults sink.old) (W.faults sink.new) }
{
    match read_mode(alloc, layers, mode, targets) {
        Ok(text) => print(sink, text.as_str()),
        Err(status) => refuse(alloc, status, sink),
    }
}
