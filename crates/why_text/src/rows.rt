// The rows of a disk's believed records.
ghost use Rattle.std.specs.Prelude.{◌≡◌};
ghost use Rattle.std.specs.List.{AllByRecursion};
ghost use Rattle.store_model.specs.Readable.{IsRow};

use hash_equiv::Index;
use std::marker::Model;

/// An index, all of whose rows are those of records. Contracts see the rows.
#[derive(Drop)]
pub(crate) struct Rows {
    index: Index,
}

impl Model for Rows {
    ghost use Rattle.std.specs.Prelude.{List};
    ghost use Rattle.std.specs.List.{AllByRecursion};
    ghost use Rattle.store_model.specs.declared.signature.EquivRow.{EquivRow};
    ghost use Rattle.store_model.specs.Readable.{IsRow};

    ghost Value = { List EquivRow };

    ghost view = { λ r. r.index };

    ghost invariant = { λ r. AllByRecursion IsRow r.index };
}

impl Rows {
    /// These rows.
    pub(crate) fn new(index: Index) -> Rows
        requires { AllByRecursion IsRow index }
        ensures { result ≡ index }
    {
        Rows { index }
    }

    /// The index.
    pub(crate) fn index(&self) -> &Index
        ensures index { result.now ≡ self.now }
        ensures rows { AllByRecursion IsRow self.now }
    {
        &self.index
    }
}
