//! Tests of calls that no case shows: calls that the program doesn't make (`print`, scripts by a key alone), `references` and lists by
//! themselves, scans over bytes, graphs with their depths, and the texts of faults that nothing prints. Each call answers at a concrete
//! type and with ample memory; the expected values come from the rules, by hand.
#![tactic(auto)]

#[cfg(test)]
mod chains;
#[cfg(test)]
mod facts;
#[cfg(test)]
mod faults;
#[cfg(test)]
mod graphs;
#[cfg(test)]
mod lists;
#[cfg(test)]
mod pairs;
#[cfg(test)]
mod printing;
#[cfg(test)]
mod references;
#[cfg(test)]
mod scans;
#[cfg(test)]
mod scripts;
#[cfg(test)]
mod shown;
