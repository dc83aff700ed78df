// What a call hands back.
use meta_model::{Logged, Plan, Status};
use tree_model::ListOf;

/// What a call of the program hands back.
#[derive(Drop)]
pub struct Finish<L, D, B, W> {
    /// How the call ended.
    pub status: Status,

    /// The plan of each run that was found, in order.
    pub plans: Vec<Plan>,

    /// The tale of each run that was begun, in order. The first is that of the first plan.
    pub tales: Vec<ListOf<Logged>>,

    /// The layers that were handed in.
    pub layers: L,

    /// The disk that was handed in, with what the call left on it.
    pub disk: D,

    /// The benches that were handed in, in their order.
    pub benches: Vec<B>,

    /// The sink that was handed in.
    pub sink: W,
}
