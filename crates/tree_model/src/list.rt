// A list type of our own.
ghost use Rattle.std.specs.Prelude.{◌≡◌, [], ◌∷◌, ◌++◌, IfOk, OnOk, OnErr, length, IsTrue, ◌↔◌};

use crate::text::{Mem, Text};
use std::alloc::Global;
use std::marker::Model;

/// A list that grows at its end. Contracts see it as the list of its items, so two lists with the same items are equal,
/// whatever room they keep.
#[derive(Debug, Drop)]
pub struct ListOf<T> {
    items: Vec<T>,
}

/// A list of texts. Contracts see the list of the texts' bytes.
pub type Texts = ListOf<Text>;

impl<T> Model for ListOf<T> {
    ghost use Rattle.std.specs.Prelude.{List};

    ghost Value = { List T };

    ghost view = { λ l. l.items.items };
}

impl<T: Drop> ListOf<T> {
    /// An empty list. It takes no memory.
    pub fn new(alloc: Global) -> ListOf<T>
        ensures { result ≡ [] }
    {
        ListOf {
            items: Vec::new(alloc),
        }
    }

    /// Takes a vector over.
    pub fn from_vec(items: Vec<T>) -> ListOf<T>
        ensures { result ≡ items.items }
    {
        ListOf { items }
    }

    /// Puts an item at the end. Where memory is wanting, the list is as before.
    pub fn push(&mut self, item: T) -> Result<(), Mem>
        ensures ok { OnOk result (self.new ≡ self.old ++ item ∷ []) }
        ensures err { OnErr result (self.new ≡ self.old) }
    {
        Ok(self.items.push(item)?)
    }

    /// The items, in order.
    pub fn as_slice(&self) -> &[T]
        ensures { result.now ≡ self.now }
    {
        self.items.as_slice()
    }

    /// How many items there are.
    pub fn len(&self) -> usize
        ensures { result ≡ length self.now }
    {
        self.items.len()
    }

    /// Whether there is no item.
    pub fn is_empty(&self) -> bool
        ensures { IsTrue result ↔ (self.now ≡ []) }
    {
        self.items.is_empty()
    }
}

impl ListOf<Text> {
    /// The same texts again.
    pub fn copy(&self) -> Result<Texts, Mem>
        ensures { IfOk result (λ made. made ≡ self.now) }
    {
        Ok(ListOf {
            items: copy_texts(*self.items.allocator(), &self.items)?,
        })
    }
}

impl ListOf<(Text, Text)> {
    /// The same pairs again.
    pub fn copy(&self) -> Result<ListOf<(Text, Text)>, Mem>
        ensures { IfOk result (λ made. made ≡ self.now) }
    {
        Ok(ListOf {
            items: copy_pairs(*self.items.allocator(), &self.items)?,
        })
    }
}

fn copy_pairs(alloc: Global, pairs: &[(Text, Text)]) -> Result<Vec<(Text, Text)>, Mem>
    ensures { IfOk result (λ made. made.items ≡ pairs.now) }
{
    let mut made = Vec::with_capacity(alloc, pairs.len())?;
    for pair in pairs {
        made.push((pair.0.copy()?, pair.1.copy()?))?;
    }
    Ok(made)
}

fn copy_texts(alloc: Global, texts: &[Text]) -> Result<Vec<Text>, Mem>
    ensures { IfOk result (λ made. made.items ≡ texts.now) }
{
    let mut made = Vec::with_capacity(alloc, texts.len())?;
    for text in texts {
        made.push(text.copy()?)?;
    }
    Ok(made)
}
