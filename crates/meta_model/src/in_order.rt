// Texts in byte order, each once.
ghost use Rattle.std.specs.Prelude.{◌≡◌, IfOk, OnOk};
ghost use Rattle.meta_model.specs.Text.{in_byte_order, into_order, is_before};

use crate::word_list::as_texts;
use std::alloc::Global;
use std::cmp::Ordering;
use tree_model::{Mem, Text, Texts};

/// Whether the first text comes before the second in byte order.
fn comes_before(first: &str, second: &str) -> bool
    ensures { result ≡ is_before first.now second.now }
{
    match first.cmp(second) {
        Ordering::Less => true,
        Ordering::Equal => false,
        Ordering::Greater => false,
    }
}

/// Puts a text into its place among others in byte order, where it isn't there yet. It goes along the texts, so it is for few.
pub fn put_in_order(texts: &mut Vec<Text>, text: Text) -> Result<(), Mem>
    ensures { OnOk result (texts.new.items ≡ into_order texts.old.items text) }
{
    let mut place = 0;
    while place < texts.len() {
        if texts[place].as_str() == text.as_str() {
            return Ok(());
        }
        if comes_before(text.as_str(), texts[place].as_str()) {
            texts.insert(place, text)?;
            return Ok(());
        }
        place += 1;
    }
    Ok(texts.push(text)?)
}

/// The texts in byte order, each once. It is for few.
pub fn in_byte_order(alloc: Global, texts: &[Text]) -> Result<Texts, Mem>
    ensures { IfOk result (λ made. made ≡ in_byte_order texts.now) }
{
    let mut ordered = Vec::new(alloc);
    for text in texts {
        put_in_order(&mut ordered, text.copy()?)?;
    }
    as_texts(alloc, ordered.as_slice())
}
