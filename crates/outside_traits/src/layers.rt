// The layers: the files of metadata.
ghost use Rattle.std.specs.Prelude.{◌≡◌, ◌<◌, ◌≤◌, List, ℕ, Option, IfOk, IfSome, IsSome, IsSomeAnd, IsErrOf, length};
ghost use Rattle.tree_model.specs.Path.{IsClean};
ghost use Rattle.outside_traits.specs.Fault.{Counts, read_failed};
ghost use Rattle.outside_traits.specs.Store.{IsListing, SameFiles};

use crate::ReadFault;
use std::alloc::Global;
use tree_model::{Bytes, Texts};

/// A map from clean paths to the bytes of files: the configuration, classes and recipes of a project.
///
/// Every call answers `Failed` only where the count of faults rose in it, and leaves the count as it was with any
/// other answer. No call changes a file. (Own rule: no part of the BitBake User Manual.)
pub trait Layers {
    /// Layers of this type tell what they hold. Ones over a real folder tell nothing.
    ghost tells: { Type 0 };

    /// The bytes of the file at a path.
    ghost files: { Self → List ℕ → Option (List ℕ) };

    /// How often the layers have failed, up to 2^64 - 1.
    ghost faults: { Self → ℕ };

    /// The bytes of the file at the path, or `None` where there is no file. `TooLong` exactly where the file has more
    /// than `max` bytes.
    fn read(&mut self, alloc: Global, path: &str, max: u64) -> Result<Option<Bytes>, ReadFault>
        ensures found { IfOk result (λ found. tells → found ≡ files self.old path.now) }
        ensures within { IfOk result (λ found. IfSome found (λ bytes. length bytes ≤ max)) }
        ensures too_long { IsErrOf result ReadFault.TooLong → tells
            → IsSomeAnd (files self.old path.now) (λ bytes. max < length bytes) }
        ensures same { SameFiles files self.old self.new }
        ensures cause { Counts (faults self.old) (faults self.new) (read_failed result) };

    /// The paths of the files that begin with the prefix, in byte order. Never `TooLong`.
    fn list(&mut self, alloc: Global, prefix: &str) -> Result<Texts, ReadFault>
        ensures paths { IfOk result (λ paths. tells → IsListing prefix.now (files self.old) paths) }
        ensures not_long { IsErrOf result ReadFault.TooLong → ⊥ }
        ensures same { SameFiles files self.old self.new }
        ensures cause { Counts (faults self.old) (faults self.new) (read_failed result) };

    /// Files stand at clean paths.
    ghost clean: { (layers : Self) → tells → (path : List ℕ) → IsSome (files layers path) → IsClean path };
}
