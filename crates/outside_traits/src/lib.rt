//! The devices that the program is handed: layers of metadata, a disk, benches and a sink.
//!
//! Each is a trait. Its ghost members say what an object holds, where its type tells that: objects in memory do, those
//! over real folders, `sh` and standard output don't (there `tells` has no proof). Each object has a count of faults
//! that never falls. A call answers that its device failed only where that count rose in the call, so code that is
//! generic over the trait can't invent a failure.
//!
//! What a crash may leave of a disk stands in `specs/Story.antt`, as definitions over the calls that it answered. Each
//! call over a disk says by a `Passes` what it did to what is held and to all that a crash may leave, whatever it
//! answered.
//!
//! `put_tree` makes a folder of any disk exactly a tree, and writes no entry that is held there already; `read_tree` reads
//! one.
#![tactic(auto)]

mod bench;
mod call;
mod disk;
mod fault;
mod filling;
mod laws;
mod layers;
mod reading;
mod sink;
mod trees;

pub use bench::{Bench, Taken};
pub use call::Call;
pub use disk::Disk;
pub use fault::{BenchFault, DiskFault, ReadFault, SinkFault};
pub use filling::put_entry;
pub use laws::{durable_stays, ends_narrow, phases_lead_on, renames_are_whole, tickets_are_syncs};
pub use layers::Layers;
pub use reading::read_tree;
pub use sink::Sink;
pub use trees::{clear_above, put_tree};
