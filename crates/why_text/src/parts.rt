// What signatures are made of.
ghost use Rattle.std.specs.Prelude.{◌≡◌, ◌++◌, OnOk};
ghost use Rattle.std.specs.Cmp.Lexicographic.{pointwise};
ghost use Rattle.std.specs.Str.{bytes_eq};
ghost use Rattle.why_model.specs.Differing.{pair_eq, value_eq};
ghost use Rattle.store_model.specs.Rows.{hash_eq};

use meta_model::{KeyLine, Resolved};
use store_model::DepLine;
use tree_model::{Hash, Mem, Text};

/// One of a list of a signature.
pub(crate) trait Part {
    ghost use Rattle.std.specs.Prelude.{◌≡◌, ◌++◌, OnOk, Bool, List, ℕ};

    ghost named: { Self → Self → Bool };

    ghost same: { Self → Self → Bool };

    ghost told: { Self → List ℕ };

    /// Whether two have one name.
    fn is_namesake(&self, other: &Self) -> bool
        ensures { result ≡ named self.now other.now };

    /// Whether two are the same.
    fn is_same(&self, other: &Self) -> bool
        ensures { result ≡ same self.now other.now };

    /// Puts what is told of it at the end of a text.
    fn put_told(&self, text: &mut Text) -> Result<(), Mem>
        ensures { OnOk result (text.new ≡ text.old ++ told self.now) };
}

/// Whether two digests are the same.
fn is_hash(one: &Hash, other: &Hash) -> bool
    ensures { result ≡ hash_eq one.now other.now }
{
    one.bytes.as_slice() == other.bytes.as_slice()
}

/// Whether two lists of texts are the same.
fn are_texts(one: &[Text], other: &[Text]) -> bool
    ensures { result ≡ pointwise bytes_eq one.now other.now }
{
    one == other
}

/// Whether two lists of pairs are the same.
fn are_pairs(one: &[(Text, Text)], other: &[(Text, Text)]) -> bool
    ensures { result ≡ pointwise pair_eq one.now other.now }
{
    one == other
}

/// Whether two values are the same.
fn is_value(one: &Resolved, other: &Resolved) -> bool
    ensures { result ≡ value_eq (Some one.now) (Some other.now) }
{
    one.text == other.text
        && are_texts(one.removes.as_slice(), other.removes.as_slice())
        && are_pairs(one.flags.as_slice(), other.flags.as_slice())
}

/// Whether two lines have the same value, or none.
fn have_one_value(one: &KeyLine, other: &KeyLine) -> bool
    ensures { result ≡ value_eq one.now.value other.now.value }
{
    match (&one.value, &other.value) {
        (None, None) => true,
        (Some(one), Some(other)) => is_value(one, other),
        (None, Some(_)) => false,
        (Some(_), None) => false,
    }
}

impl Part for KeyLine {
    ghost use Rattle.why_model.specs.Differing.{line_named, line_same, line_told};

    ghost named = { line_named };

    ghost same = { line_same };

    ghost told = { line_told };

    fn is_namesake(&self, other: &KeyLine) -> bool {
        self.name == other.name
    }

    fn is_same(&self, other: &KeyLine) -> bool {
        self.name == other.name && have_one_value(self, other)
    }

    fn put_told(&self, text: &mut Text) -> Result<(), Mem> {
        text.push_str(self.name.as_str())
    }
}

impl Part for (Text, Hash) {
    ghost use Rattle.why_model.specs.Differing.{file_named, file_same, file_told};

    ghost named = { file_named };

    ghost same = { file_same };

    ghost told = { file_told };

    fn is_namesake(&self, other: &(Text, Hash)) -> bool {
        self.0 == other.0
    }

    fn is_same(&self, other: &(Text, Hash)) -> bool {
        self.0 == other.0 && is_hash(&self.1, &other.1)
    }

    fn put_told(&self, text: &mut Text) -> Result<(), Mem> {
        text.push_str("file ")?;
        text.push_str(self.0.as_str())
    }
}

impl Part for DepLine {
    ghost use Rattle.why_model.specs.Differing.{dep_named, dep_same, dep_told};

    ghost named = { dep_named };

    ghost same = { dep_same };

    ghost told = { dep_told };

    fn is_namesake(&self, other: &DepLine) -> bool {
        self.pn == other.pn && self.task == other.task
    }

    fn is_same(&self, other: &DepLine) -> bool {
        self.pn == other.pn && self.task == other.task && is_hash(&self.name, &other.name)
    }

    fn put_told(&self, text: &mut Text) -> Result<(), Mem> {
        text.push_str(self.pn.as_str())?;
        text.push_str(":")?;
        text.push_str(self.task.as_str())
    }
}
