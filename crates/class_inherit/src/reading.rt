// What was read so far.
ghost use Rattle.std.specs.Prelude.{◌≡◌, ◌∷◌, [], IfOk, IfErr, OnOk, OnErr, Ok};
ghost use Rattle.meta_model.specs.Text.{is_in};
ghost use Rattle.meta_model.specs.Active.{expand};
ghost use Rattle.meta_model.specs.Frozen.{frozen};
ghost use Rattle.datastore.specs.Faults.{IsDataFault};
ghost use Rattle.load_model.specs.Loading.{with_lines, with_class};
ghost use Rattle.load_model.specs.Layers.{starting_with};

use datastore::{DataFault, Datastore};
use meta_model::EntryLine;
use override_eval::is_among;
use std::alloc::Global;
use std::marker::Model;
use tree_model::{Mem, Text};
use var_expand::{LONGEST, holds_opening};

/// Entries that are read one file after another. Contracts see all entries so far, in order, and the names of the classes
/// of which the reading has begun, the last first.
#[derive(Drop)]
pub struct Reading {
    store: Datastore,
    begun: Vec<Text>,
}

impl Model for Reading {
    ghost use Rattle.std.specs.Prelude.{reverse};
    ghost use Rattle.load_model.specs.Loading.{Loaded};

    ghost Value = { Loaded };

    ghost view = { λ r. record { lines = r.store; classes = reverse r.begun.items } };
}

impl Reading {
    /// Reading that goes on behind the entries of a store. It takes no memory.
    pub fn new(alloc: Global, store: Datastore) -> Reading
        ensures { result ≡ starting_with store }
    {
        Reading {
            store,
            begun: Vec::new(alloc),
        }
    }

    /// The store of all entries, with names that hold references as they are written. It takes no memory.
    pub fn raw(self) -> Datastore
        ensures { result ≡ self.lines }
    {
        self.store
    }

    /// The store of all entries, once the names that hold references are moved.
    ///
    /// It is refused where a name or a condition can't be expanded.
    pub fn finish(self, alloc: Global) -> Result<Datastore, DataFault>
        ensures ok { IfOk result (λ made. frozen self.lines ≡ Ok made) }
        ensures err { IfErr result (λ fault. IsDataFault fault (frozen self.lines)) }
    {
        self.store.freeze(alloc)
    }

    /// The entries so far, as a store.
    pub fn store(&self) -> &Datastore
        ensures { result.now ≡ self.now.lines }
    {
        &self.store
    }

    /// A text expanded over the entries so far. One without references looks nothing up.
    pub(crate) fn expand(&self, alloc: Global, text: &str) -> Result<Text, DataFault>
        ensures ok { IfOk result (λ made. expand self.now.lines text.now ≡ Ok made) }
        ensures err { IfErr result (λ fault. IsDataFault fault (expand self.now.lines text.now)) }
    {
        if text.len() <= LONGEST && !holds_opening(text.as_bytes()) {
            return Ok(Text::from_str(alloc, text)?);
        }
        self.store().expand(alloc, text)
    }

    /// One more entry, which is copied. Where memory is wanting, all is as before.
    pub(crate) fn apply(&mut self, alloc: Global, line: &EntryLine) -> Result<(), Mem>
        ensures ok { OnOk result (self.new ≡ with_lines (line.now ∷ []) self.old) }
        ensures err { OnErr result (self.new ≡ self.old) }
    {
        self.store.apply(alloc, line)
    }

    /// One more entry. Where memory is wanting, all is as before.
    pub(crate) fn apply_line(&mut self, alloc: Global, line: EntryLine) -> Result<(), Mem>
        ensures ok { OnOk result (self.new ≡ with_lines (line ∷ []) self.old) }
        ensures err { OnErr result (self.new ≡ self.old) }
    {
        self.store.apply_line(alloc, line)
    }

    /// More entries, in their order.
    pub fn lines(self, alloc: Global, lines: &[EntryLine]) -> Result<Reading, Mem>
        ensures { IfOk result (λ made. made ≡ with_lines lines.now self) }
    {
        let mut reading = self;
        for line in lines {
            reading.apply(alloc, line)?;
        }
        Ok(reading)
    }

    /// Whether the reading of a class has begun.
    pub(crate) fn has_begun(&self, name: &str) -> bool
        ensures { result ≡ is_in name.now self.now.classes }
    {
        is_among(name, self.begun.as_slice())
    }

    /// The reading of a class begins.
    pub(crate) fn begin(&mut self, alloc: Global, name: &str) -> Result<(), Mem>
        ensures { OnOk result (self.new ≡ with_class name.now self.old) }
    {
        Ok(self.begun.push(Text::from_str(alloc, name)?)?)
    }
}
