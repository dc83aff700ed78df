// Values and flags as texts and words.
ghost use Rattle.std.specs.Prelude.{◌≡◌, IfOk, IfErr, Ok};
ghost use Rattle.datastore.specs.Faults.{IsDataFault};
ghost use Rattle.load_model.specs.Layers as layers;
ghost use Rattle.load_model.specs.Recipes as recipes;
ghost use Rattle.load_model.specs.Facts as facts;
ghost use Rattle.meta_model.specs.Text.{words as text_words};

use crate::brackets::without_brackets;
use datastore::{DataFault, Datastore};
use std::alloc::Global;
use tree_model::{Mem, Text, Texts};
use var_expand::words;

/// The expanded value of a name, or the empty text where it has none.
///
/// It is refused where the value is.
pub fn text_of(alloc: Global, store: &Datastore, name: &str) -> Result<Text, DataFault>
    ensures ok { IfOk result (λ made. recipes.text_of store.now name.now ≡ Ok made) }
    ensures err { IfErr result (λ fault. IsDataFault fault (recipes.text_of store.now name.now)) }
{
    match store.value(alloc, name)? {
        Some(text) => Ok(text),
        None => Ok(Text::new(alloc)),
    }
}

/// The words of the expanded value of a name, none where it has no value.
///
/// It is refused where the value is.
pub fn words_of(alloc: Global, store: &Datastore, name: &str) -> Result<Texts, DataFault>
    ensures ok { IfOk result (λ made. layers.words_of store.now name.now ≡ Ok made) }
    ensures err { IfErr result (λ fault. IsDataFault fault (layers.words_of store.now name.now)) }
{
    match store.value(alloc, name)? {
        Some(text) => Ok(words(alloc, text.as_str())?),
        None => Ok(Texts::new(alloc)),
    }
}

/// The words of a text without what stands in parentheses.
fn kept_words(alloc: Global, text: &str) -> Result<Texts, Mem>
    ensures { IfOk result (λ made. made ≡ text_words (facts.without_brackets text.now)) }
{
    let kept = without_brackets(alloc, text)?;
    words(alloc, kept.as_str())
}

/// The same words without text in parentheses: a `(` takes away all up to the `)` that belongs to it, and one without a
/// partner is a character like others (own rule).
///
/// It is refused where the value is.
pub fn needed_words(alloc: Global, store: &Datastore, name: &str) -> Result<Texts, DataFault>
    ensures ok { IfOk result (λ made. facts.needed_words store.now name.now ≡ Ok made) }
    ensures err { IfErr result (λ fault. IsDataFault fault (facts.needed_words store.now name.now)) }
{
    match store.value(alloc, name)? {
        Some(text) => Ok(kept_words(alloc, text.as_str())?),
        None => Ok(Texts::new(alloc)),
    }
}

/// The words of the expanded text of a flag, none where it isn't set.
///
/// It is refused where the text is.
pub fn flag_words(
    alloc: Global,
    store: &Datastore,
    name: &str,
    flag: &str,
) -> Result<Texts, DataFault>
    ensures ok { IfOk result (λ made. facts.flag_words store.now name.now flag.now ≡ Ok made) }
    ensures err { IfErr result (λ fault. IsDataFault fault (facts.flag_words store.now name.now flag.now)) }
{
    let told = match store.flag(name, flag) {
        Some(text) => text,
        None => "",
    };
    let text = store.expand(alloc, told)?;
    Ok(words(alloc, text.as_str())?)
}
