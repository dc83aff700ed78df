//! Graphs whose nodes are numbers: what is found in them, and how deep their nodes stand.
//!
//! `Frontier` has the nodes that were found, in order and each once, with the place of each, so that a search needs no
//! recursion: it goes through the places from 0 on, and what a node leads to is found behind them.
//!
//! `depths_of` gives each node of a graph its depth, the number of steps of the longest walk down from it, or nodes of which
//! each needs the next and the last one the first. It answers a cycle exactly where there is one, since a node that leads to
//! a cycle has walks of any length and so no depth. `rounds_of` goes on past cycles: it gives each node that leads to none its
//! depth, and the others nothing. Both go down by the same walk (`Walk`), with a path in a vector: no call recurses as deep as
//! the graph, and each edge is looked at once.
//!
//! Want of memory alone is free in these promises.
#![tactic(auto)]

mod depth;
mod frontier;
mod marks;
mod rounds;

pub use depth::{Depths, depths_of};
pub use frontier::Frontier;
pub use rounds::rounds_of;
