// Signatures that a store keeps of tasks whose publication isn't done.
use store_model::SigText;
use tree_model::Text;

/// The signature of a task whose publication was opened and isn't done, or was given up once the disk was touched: the record may be there,
/// though the index has no row of it.
#[derive(Debug, Drop)]
pub struct KeptSig {
    /// The PN of the task's recipe.
    pub pn: Text,
    /// The task.
    pub task: Text,
    /// The whole text of its signature.
    pub sig: SigText,
}
