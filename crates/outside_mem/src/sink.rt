// Text in memory.
ghost use Rattle.std.specs.Prelude.{◌≡◌, ◌<◌, ◌≤◌, ◌*◌, ◌^◌, ◌++◌, [], IfOk, OnErr, length, take};
ghost use Rattle.std.specs.Vec.{vec_capacity};
ghost use Rattle.outside_traits.specs.Fault.{Counts, sink_failed};

use crate::plan::{FaultPlan, count_fault};
use outside_traits::{Sink, SinkFault};
use std::alloc::Global;
use tree_model::Mem;

/// The room of a sink in bytes: 4 MiB.
const ROOM: usize = 4 << 20;

/// A sink that keeps all that is written to it, up to 4 MiB.
#[derive(Drop)]
pub struct MemSink {
    written: Vec<u8>,
    plan: FaultPlan,
    faults: u64,
    ghost has_room: { 4 * 2 ^ 20 ≤ vec_capacity written },
    ghost fits: { length written.items ≤ 4 * 2 ^ 20 },
}

impl MemSink {
    ghost use Rattle.outside_mem.specs.Plan.{fresh_plan};
    ghost use Rattle.outside_mem.specs.Told.{sink_faults, sink_plan, text_of};

    /// A sink to which nothing was written, with the room for 4 MiB taken at once. The writes with the numbers of
    /// `fail`, from 1, fail.
    pub fn new(alloc: Global, fail: Vec<u64>) -> Result<MemSink, Mem>
        ensures empty { IfOk result (λ sink. text_of sink ≡ []) }
        ensures plan { IfOk result (λ sink. sink_plan sink ≡ fresh_plan fail) }
        ensures fresh { IfOk result (λ sink. sink_faults sink ≡ 0) }
    {
        Ok(MemSink {
            written: Vec::with_capacity(alloc, ROOM)?,
            plan: FaultPlan::new(fail),
            faults: 0,
        })
    }

    /// All that was written.
    pub fn written(&self) -> &[u8]
        ensures { result.now ≡ text_of self.now }
    {
        self.written.as_slice()
    }
}

impl Sink for MemSink {
    ghost use Rattle.outside_mem.specs.Plan.{Follows, next_fails};
    ghost use Rattle.outside_mem.specs.Told.{sink_faults, sink_plan, text_of, write_fails};

    ghost tells = { Unit {0} };

    ghost written = { text_of };

    ghost faults = { sink_faults };

    /// Takes the whole piece, or fails: where the plan says so, and where the piece doesn't fit into the room that is
    /// left.
    fn write(&mut self, piece: &[u8]) -> Result<usize, SinkFault>
        ensures whole { IfOk result (λ n. n ≡ length piece.now) }
        ensures taken { IfOk result (λ n. text_of self.new ≡ text_of self.old ++ piece.now) }
        ensures failed { OnErr result (text_of self.new ≡ text_of self.old) }
        ensures cause { Counts (sink_faults self.old) (sink_faults self.new) (sink_failed result) }
        ensures fails { sink_failed result ≡ write_fails self.old piece.now }
        ensures plan { Follows (sink_plan self.old) (sink_plan self.new) (next_fails (sink_plan self.old)) }
    {
        let planned = self.plan.next_fails();
        if planned || piece.len() > ROOM - self.written.len() {
            count_fault(&mut self.faults);
            return Err(SinkFault);
        }
        if self.written.extend_from_slice(piece).is_err() {
            unreachable!()
        }
        Ok(piece.len())
    }
}
