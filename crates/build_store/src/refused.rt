// A disk that is given back unopened.
use crate::fault::StoreFault;

/// A disk that could not be opened, and why.
#[derive(Drop)]
pub struct OpenRefused<D> {
    /// The disk, as the calls that were made left it.
    pub disk: D,
    /// Why: the disk failed, or memory was wanting.
    pub fault: StoreFault,
}
