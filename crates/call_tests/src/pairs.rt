// A map of names to values, in memory.
ghost use Rattle.std.specs.Prelude.{◌≡◌, ◌++◌, ◌∷◌, [], OnOk, OnErr};

use meta_model::Resolved;
use std::alloc::Global;
use std::marker::Model;
use tree_model::{ListOf, Mem, Text, Texts};
use var_expand::{ExpandFault, Lookup};

/// Names with their texts and removes.
#[derive(Drop)]
pub struct Pairs {
    list: Vec<(Text, (Text, Texts))>,
}

impl Model for Pairs {
    ghost use Rattle.std.specs.Prelude.{List, ℕ};

    ghost Value = { List (List ℕ × (List ℕ × List (List ℕ))) };

    ghost view = { λ p. p.list.items };
}

impl Pairs {
    /// No pairs.
    pub fn new(alloc: Global) -> Pairs
        ensures { result ≡ [] }
    {
        Pairs {
            list: Vec::new(alloc),
        }
    }

    /// One more pair, with a remove where its text isn't empty.
    pub fn push(&mut self, alloc: Global, name: &str, text: &str, remove: &str) -> Result<(), Mem> {
        let mut removes = Texts::new(alloc);
        if !remove.is_empty() {
            removes.push(Text::from_str(alloc, remove)?)?;
        }
        let name = Text::from_str(alloc, name)?;
        let text = Text::from_str(alloc, text)?;
        Ok(self.list.push((name, (text, removes)))?)
    }
}

impl Lookup for Pairs {
    ghost use Rattle.call_tests.specs.Pairs.{finds};

    ghost finds = { finds };

    fn find(&self, alloc: Global, name: &str) -> Result<Option<Resolved>, ExpandFault> {
        for pair in &self.list {
            if pair.0.as_str() == name {
                return Ok(Some(Resolved {
                    text: pair.1.0.copy()?,
                    removes: pair.1.1.copy()?,
                    flags: ListOf::new(alloc),
                }));
            }
        }
        Ok(None)
    }

    fn known(&self, _alloc: Global, _name: &str, _wanted: &[Text]) -> Result<Option<Texts>, Mem> {
        Ok(None)
    }
}
