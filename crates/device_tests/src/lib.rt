//! Tests of the devices in memory, each through functions that are generic over its trait.
//!
//! What the contracts say is proved. The tests show that the calls succeed, that the planned calls fail and no others,
//! and that functions which know no more than a trait can be called with each device.
#![tactic(auto)]

#[cfg(test)]
mod bench_tests;
#[cfg(test)]
mod disk_tests;
#[cfg(test)]
mod layers_tests;
#[cfg(test)]
mod samples;
#[cfg(test)]
mod sink_tests;
#[cfg(test)]
mod sub_tests;
#[cfg(test)]
mod ticket_tests;
