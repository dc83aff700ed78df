// How many bytes the lines of a key have, as records have them.
ghost use Rattle.std.specs.Prelude.{◌≡◌, ◌+◌, ◌-◌, ◌^◌, ◌++◌, ◌∷◌, [], min, length};
ghost use Rattle.std.specs.List.{flat_map};
ghost use Rattle.std.specs.Fmt.{decimal};
ghost use Rattle.store_model.specs.Spelling.{listed, value_bytes};
ghost use Rattle.plan_model.specs.Plans.{texts_of as texts_meant};
ghost use Rattle.task_plan.specs.Meant.{IsMore};

use itoa::Buffer;
use meta_model::{Key, KeyLine, Resolved};
use tree_model::Text;

/// What is written as bytes, of which the number is asked.
trait Measured {
    ghost use Rattle.std.specs.Prelude.{List, ℕ};

    ghost spell: { Self → List ℕ };

    /// Adds the number of its bytes, up to 2^64 - 1.
    fn add_to(&self, total: &mut u64)
        ensures { IsMore total.old (length (spell self.now)) total.new };
}

/// Adds the bytes of a number and of what ends it.
fn add_number(total: &mut u64, number: usize)
    ensures { IsMore total.old (length (decimal number ++ 0 ∷ [])) total.new }
{
    let mut buffer = Buffer::new();
    let digits = buffer.format(number).len();
    *total = total.saturating_add(digits as u64).saturating_add(1);
}

/// Adds the bytes of some items.
fn add_items<T: Measured>(total: &mut u64, items: &[T])
    ensures { IsMore total.old (length (flat_map T.spell items.now)) total.new }
{
    let mut sum = 0;
    for item in items {
        item.add_to(&mut sum);
    }
    *total = total.saturating_add(sum);
}

/// Adds the bytes of a list.
fn add_list<T: Measured>(total: &mut u64, items: &[T])
    ensures { IsMore total.old (length (listed T.spell items.now)) total.new }
{
    add_number(total, items.len());
    add_items(total, items);
}

impl Measured for Text {
    ghost use Rattle.tree_model.specs.Bytes.{framed};

    ghost spell = { framed };

    fn add_to(&self, total: &mut u64) {
        let bytes = self.as_str().len();
        add_number(total, bytes);
        *total = total.saturating_add(bytes as u64).saturating_add(1);
    }
}

impl Measured for (Text, Text) {
    ghost use Rattle.store_model.specs.Spelling.{flag_bytes};

    ghost spell = { flag_bytes };

    fn add_to(&self, total: &mut u64) {
        self.0.add_to(total);
        self.1.add_to(total);
    }
}

/// Adds the bytes of a value.
fn add_value(total: &mut u64, value: &Option<Resolved>)
    ensures { IsMore total.old (length (value_bytes value.now)) total.new }
{
    *total = total.saturating_add(1);
    if let Some(value) = value {
        value.text.add_to(total);
        add_list(total, value.removes.as_slice());
        add_list(total, value.flags.as_slice());
    }
}

impl Measured for KeyLine {
    ghost use Rattle.store_model.specs.Spelling.{key_line_bytes};

    ghost spell = { key_line_bytes };

    fn add_to(&self, total: &mut u64) {
        self.name.add_to(total);
        add_value(total, &self.value);
    }
}

/// How many bytes the lines of a key and a script have together, up to 2^64 - 1.
pub(crate) fn texts_of(key: &Key, script: &str) -> u64
    ensures { result ≡ min (texts_meant key.now script.now) (2 ^ 64 - 1) }
{
    let mut total = 0;
    add_items(&mut total, key.lines.as_slice());
    total.saturating_add(script.len() as u64)
}
