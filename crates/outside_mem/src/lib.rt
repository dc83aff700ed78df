//! Devices in memory: layers, disks, benches and a sink that tell all that they hold.
//!
//! They show that each trait of `outside_traits` can be met with its content told, and they stand for the real things
//! in tests. What each tells stands in `specs/Told.antt`, as functions of its fields.
//!
//! Promised, beside all that the traits say: layers, a `ScriptTable` and the sink fail just the calls whose numbers they
//! were made with (`Follows`), and the sink those besides that don't fit into its room; `FixedLayers`, a `MemDisk`, a `MemBench`
//! and a `NullSink`, which keeps nothing, never fail; a `FaultyDisk` fails just one call, or each call from one on
//! (`Spends`). A `MemDisk` keeps each call that it answered, and `MemDisk::image` makes a fresh disk of what a crash may leave. The
//! sink takes no memory after it was made. A `GateBench` does what the bench in it does, but that its first run waits for those of
//! others, or each of its runs fails. (Own rules: no part of the BitBake User Manual.)
#![tactic(auto)]

mod faulty_disk;
mod fingerprint;
mod gate_bench;
mod kept;
mod layers;
mod leavings;
mod mem_bench;
mod mem_disk;
mod null_sink;
mod place;
mod plan;
mod script_table;
mod sink;

pub use faulty_disk::FaultyDisk;
pub use gate_bench::{Gate, GateBench};
pub use layers::{FixedLayers, MemLayers};
pub use mem_bench::MemBench;
pub use mem_disk::MemDisk;
pub use null_sink::NullSink;
pub use script_table::{Rule, ScriptTable};
pub use sink::MemSink;
